//! A note, and what identifies a request.

use sms_message::MessageRefusal;
use sms_pdu::Reply;

/// What identifies a request of a run: the worker that sends it, and its sequence_number.
#[derive(Clone, Copy, Debug, PartialEq, Eq)]
pub struct RequestId {
    pub worker: u32,
    pub number: u32,
}

/// A note. A message is named by its index, a part by its number from 1.
#[derive(Clone, Copy, Debug, PartialEq, Eq)]
pub enum Note {
    /// The credits of the message are reserved.
    Begun(u64),
    /// The request is about to be sent for this part of the message.
    Sent(RequestId, u64, u8),
    /// The request was not written to the connection after all.
    Unsent(RequestId),
    /// The worker received this reply. Its number is that of the request.
    Heard(u32, Reply),
    /// The message is refused as a whole.
    Refused(u64, MessageRefusal),
    /// The report was formed, with this exit status.
    End(u8),
    /// A further round begins: its number, from 2, how many binds it has, and how many workers at each bind.
    Round(u32, u32, u32),
}
