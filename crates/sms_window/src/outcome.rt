//! What the steps of a window answer.

/// What a try to claim a slot answers.
#[derive(Clone, Copy, Debug, PartialEq, Eq)]
pub enum Claim {
    /// The seat holds this slot now, the least that was clear.
    Got(u32),
    /// All 64 slots were held.
    Full,
    /// The window word had changed to this one meanwhile: the seat holds what it held.
    Contended(u64),
}

/// What a try to draw a sequence number answers.
#[derive(Clone, Copy, Debug, PartialEq, Eq)]
pub enum Draw {
    /// This number, which no other draw of the window gives.
    Number(u32),
    /// The numbers up to 0x7FFFFFFF were all drawn.
    UsedUp,
    /// The number word had changed to this one meanwhile, which is greater than any that the seat had
    /// seen.
    Contended(u64),
}

/// What a window ends with.
#[derive(Clone, Copy, Debug, PartialEq, Eq)]
pub struct Closed {
    /// The slots that were held, as the bits of a word.
    pub held: u64,
    /// The number that the next draw would have given, at most 0x80000000.
    pub next: u64,
}
