//! A deliver_sm as it is kept.

ghost use Rattle.std.specs.Prelude.{◌≡◌};
ghost use Rattle.sms_pdu.specs.Borrowed.{owned_sm};
ghost use Rattle.sms_inbox.specs.Record.{owned_record, received as received_record};

use crate::receipt::{ErrorRef, receipt_of, text_of};
use sms_pdu::{Octets, SmRef};

/// A record of an inbox: a deliver_sm, and when and where it came.
#[derive(Debug, Drop)]
pub struct Record {
    /// In milliseconds since 1970 UTC, 0 where the clock can't be read.
    pub time: u64,
    /// The bind, from 0.
    pub bind: u8,
    pub source: Octets,
    pub destination: Octets,
    pub esm_class: u8,
    /// The message that a receipt is of, or nothing.
    pub id: Octets,
    /// What became of it, by a word of Appendix B, or nothing.
    pub state: Octets,
    /// The network's error code, or nothing.
    pub error: Octets,
    /// The text, unread.
    pub text: Octets,
}

/// The same, borrowed.
#[derive(Clone, Copy, Debug)]
pub struct RecordRef<'a> {
    pub time: u64,
    pub bind: u8,
    pub source: &'a [u8],
    pub destination: &'a [u8],
    pub esm_class: u8,
    pub id: &'a [u8],
    pub state: &'a [u8],
    pub error: ErrorRef<'a>,
    pub text: &'a [u8],
}

impl Record {
    /// The same record, borrowed.
    pub fn as_ref(&self) -> RecordRef<'_>
        ensures { owned_record result ≡ self.now }
    {
        RecordRef {
            time: self.time,
            bind: self.bind,
            source: self.source.as_slice(),
            destination: self.destination.as_slice(),
            esm_class: self.esm_class,
            id: self.id.as_slice(),
            state: self.state.as_slice(),
            error: ErrorRef::Text(self.error.as_slice()),
            text: self.text.as_slice(),
        }
    }
}

/// What a deliver_sm is kept as that comes at this time on this bind.
pub fn received<'a>(time: u64, bind: u8, sm: &SmRef<'a>) -> RecordRef<'a>
    ensures { owned_record result ≡ received_record time bind (owned_sm sm.now) }
{
    let receipt = receipt_of(sm);
    RecordRef {
        time,
        bind,
        source: sm.source_addr,
        destination: sm.dest_addr,
        esm_class: sm.esm_class,
        id: receipt.id,
        state: receipt.state,
        error: receipt.error,
        text: text_of(sm),
    }
}
