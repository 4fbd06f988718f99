//! How a bind's reader ends.

use crate::line::StopSeen;
use rtrb::Producer;
use sms_pdu::Reply;
use sms_window::WindowSeat;

/// Why a reader ended.
#[derive(Clone, Copy, Debug, PartialEq, Eq)]
pub enum ReaderCause {
    /// The input ended.
    Ended,
    /// The session was closed, by an unbind or by the response to one.
    Unbound,
    /// A command_length was bad, so the stream can't be divided any further.
    Lost,
    /// A read failed.
    ReadFault,
    /// A response couldn't be written.
    WriteFault,
    /// The line was seen to be stopped.
    Stopped(StopSeen),
    /// The turns were used up.
    Turns,
    /// Out of memory.
    OutOfMemory,
    /// The reader never began: its sending wasn't started.
    Unstarted,
    /// The line was asked, and nothing came for as long as it has to answer.
    Silent,
}

/// What is left when a reader has ended.
#[derive(Drop)]
pub struct ReaderEnd {
    /// Answers that a worker's ring took.
    pub answered: u64,
    /// Answers that no slot waited for.
    pub unknown: u64,
    /// Answers whose worker has no ring, or a full one.
    pub overrun: u64,
    /// deliver_sm requests.
    pub delivered: u64,
    /// Frames that were only counted.
    pub noted: u64,
    /// Requests that were answered by a generic_nack.
    pub nacked: u64,
    /// Requests whose response couldn't be encoded: out of memory.
    pub unreplied: u64,
    /// Errors that its input returned while it read.
    pub errors: u64,
    /// Why it ended.
    pub cause: ReaderCause,
    /// The rings, in their order, with the answers that they took.
    pub producers: Vec<Producer<Reply>>,
    /// The window's seat, with the slots that it holds back.
    pub seat: WindowSeat,
}
