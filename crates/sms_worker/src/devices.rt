//! What a worker needs of the world around it: a gate that lets requests pass, a clock, and waiting.

use crate::ends::MessageEnd;
use sms_message::MessageRefusal;
use sms_pdu::Reply;

/// Lets requests pass before they are written, and may note what becomes of them. A message is named
/// by its `index`, and a part of it by its place among the parts, from 0.
///
/// An attempt calls `ready`, claims a slot, draws a number, makes its frame, and calls `pass` and then
/// `sending`. If both return true, its frame is handed to the wire, or `unsent` is called. If either returns
/// false, the gate gets no further call about that number.
pub trait Gate {
    /// Called before a slot is claimed. False means not now: the turn goes on as if the window were full, and
    /// the worker asks again in its next turn.
    fn ready(&self, _worker: usize) -> bool {
        true
    }

    /// Called once the frame of an attempt is made. False gives the segment up.
    fn pass(&self, worker: usize, number: u32) -> bool;

    /// Called after `pass`, before the first octet can go out, with the part that the request with this number
    /// carries. False gives the segment up.
    fn sending(&self, _worker: usize, _number: u32, _message: u64, _part: usize) -> bool {
        true
    }

    /// Called if the frame with this number was not handed to the wire after all.
    fn unsent(&self, _worker: usize, _number: u32) {}

    /// Called with a reply to an open attempt, before it moves credits.
    fn heard(&self, _worker: usize, _reply: &Reply) {}

    /// Called before a message is begun: before it is cut, and its credits are reserved. False means that the worker
    /// begins no further message: this one and all behind it are refused as bind-closed, and the gate isn't asked
    /// again. What was begun before is sent to its end.
    fn may_begin(&self, _worker: usize, _message: u64) -> bool {
        true
    }

    /// Called once the credits of a message are reserved, before its first part is sent.
    fn begun(&self, _worker: usize, _message: u64) {}

    /// Called if a message is refused as a whole, with the reason.
    fn refused(&self, _worker: usize, _message: u64, _why: MessageRefusal) {}

    /// Called once a turn with what became of the messages begun so far, and with the number of open requests.
    /// A segment counts as unanswered here also while it waits to be sent (it has no attempt yet) or to be sent
    /// again (its last attempt has a reply).
    fn see(&self, _worker: usize, _ends: &[MessageEnd], _open: usize) {}

    /// Called at the end with what became of all messages of the worker.
    fn see_last(&self, _worker: usize, _ends: &[MessageEnd]) {}
}

/// Tells the time.
pub trait Clock {
    fn now_ms(&self) -> u64;
}

/// Waits for a while.
pub trait Pause {
    fn pause(&self, ms: u32);

    /// Waits `ms` milliseconds, since the worker has nothing to do. By the clock alone it has nothing to do for
    /// `most` milliseconds: until then no request expires and no retry that could be sent is due. An answer may
    /// come earlier, and the line may go down. `most` is 0 if the worker waits for a slot or for the gate.
    fn wait(&self, _worker: usize, ms: u32, _most: u64) {
        self.pause(ms);
    }
}
