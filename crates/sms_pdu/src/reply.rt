//! The answers that a sender waits for, read from a frame without memory.

ghost use Rattle.std.specs.Prelude.{◌≡◌};
ghost use Rattle.sms_pdu.specs.Reply.{reply_in, id_text};

use crate::command::{GENERIC_NACK, SUBMIT_SM_RESP};
use crate::header::{body_of, header_of};
use crate::layout::{maximum_of, sm_resp_fields};
use crate::message_id::MessageId;
use crate::octets::{first_zero, front};

/// An answer to a submit_sm: a submit_sm_resp, or a generic_nack (SMPP 3.4 4.3.1, 4.4.2).
#[derive(Clone, Copy, Debug, PartialEq, Eq)]
pub struct Reply {
    /// The sequence_number of the request that it answers.
    pub number: u32,
    /// The command_status.
    pub status: u32,
    /// Whether it is a generic_nack.
    pub nack: bool,
    /// The message_id of a submit_sm_resp; empty where there is none.
    pub id: MessageId,
}

/// The octets that a message_id and its 0 have at most.
const ID_MAXIMUM: usize = sm_resp_fields!(maximum_of!());

/// The answer that a PDU is: `Some` exactly where its header's command is submit_sm_resp or
/// generic_nack. It is lenient: the header's length is not looked at, and a body that isn't a
/// message_id gives an empty one.
pub fn reply_of(octets: &[u8]) -> Option<Reply>
    ensures { result ≡ reply_in octets.now }
{
    let header = header_of(octets)?;
    match header.command {
        SUBMIT_SM_RESP => Some(Reply {
            number: header.number,
            status: header.status,
            nack: false,
            id: id_in(body_of(octets)),
        }),
        GENERIC_NACK => Some(Reply {
            number: header.number,
            status: header.status,
            nack: true,
            id: MessageId::empty(),
        }),
        _ => None,
    }
}

/// The octets before the first 0, where a 0 stands among the first 65; else none.
fn id_in(body: &[u8]) -> MessageId
    ensures { result ≡ id_text body.now }
{
    let front = front(body, ID_MAXIMUM);
    match first_zero(front) {
        None => MessageId::empty(),
        Some(len) => MessageId::of(&front[..len]),
    }
}
