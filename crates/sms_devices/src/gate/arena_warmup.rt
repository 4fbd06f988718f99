//! Memory for what a worker keeps of its messages, got in pieces for many messages.
//!
//! The C library takes each thread's blocks out of a heap of the thread's own. It enlarges that heap by no
//! more than a block needs: one system call for each page, every twenty messages. A large block that is got
//! and given back leaves the heap enlarged by all of it.

ghost use Rattle.std.specs.Prelude.{◌≡◌, ◌%◌, ◌↔◌, IsTrue};

use std::alloc::Global;

/// How many octets a piece has. The heap would give a block of 65,536 octets or more back to the system.
const PIECE: usize = 60_000;

/// One of this many messages gets a piece. It is a prime: workers are dealt messages at even distances, and
/// each of them comes to one of these among as many messages of its own.
const MESSAGES: u64 = 251;

/// Whether memory is got with this message.
fn is_due(message: u64) -> bool
    ensures { IsTrue result ↔ (message % 251 ≡ 0) }
{
    message % MESSAGES == 0
}

/// Gets memory for the messages of this thread that follow, if it is time to. If memory is refused, they get
/// theirs one by one.
pub(crate) fn warm_up(alloc: Global, message: u64) {
    if is_due(message) {
        if let Ok(piece) = Vec::<u8>::with_capacity(alloc, PIECE) {
            drop(piece);
        }
    }
}
