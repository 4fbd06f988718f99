//! What contracts know of a seat.

use std::collections::LinkedList;

/// What a seat knows. Contracts alone speak of it: no value of it is made when the program runs.
/// `family` and `slots` are sets of numbers below 64, as the bits of a word.
pub struct View {
    /// The seat's own name, below 64.
    pub name: u32,
    /// The names that it may give away, and its own. A seat that was joined to another has none.
    pub family: u64,
    /// The slots that it holds.
    pub slots: u64,
    /// The sequence numbers that it drew, in order, and behind them those of the seats that it took
    /// in.
    pub numbers: LinkedList<u32>,
    /// It took in another seat, so its numbers may not rise any more.
    pub has_joined: bool,
    /// A value that the number word has reached.
    pub seen: u32,
    /// The window word as its last step on it found or left it.
    pub met: u64,
    /// The number that the window opened with.
    pub first: u32,
}

/// What a window is opened with.
#[derive(Drop)]
pub struct Opening {
    /// How many slots seats may claim, from slot 0 on.
    pub limit: u32,
    /// The first number that is drawn.
    pub first: u32,
}
