//! PDUs and their bodies (SMPP 3.4 chapter 4).

ghost use Rattle.std.specs.Prelude.{◌≡◌, option_copied};
ghost use Rattle.sms_pdu.specs.Borrowed.{owned_sm, owned_body, owned_pdu};

use crate::borrowed::{BindRef, BodyRef, PduRef, SmRef};
use crate::command::Mode;
use crate::layout::{bind_fields, sm_fields};
use crate::octets::Octets;
use crate::parameter::Params;
use std::fmt;

/// A PDU without its command_length, which its spelling gives.
#[derive(Debug, Drop)]
pub struct Pdu {
    /// command_status: 0 in a request.
    pub status: u32,
    /// sequence_number.
    pub number: u32,
    /// What the command_id says and what follows the header.
    pub body: Body,
}

/// A message, as submit_sm and deliver_sm carry it (SMPP 3.4 4.4.1, 4.6.1).
#[derive(Debug, Drop)]
pub struct Sm {
    pub service_type: Octets,
    pub source_ton: u8,
    pub source_npi: u8,
    pub source_addr: Octets,
    pub dest_ton: u8,
    pub dest_npi: u8,
    pub dest_addr: Octets,
    pub esm_class: u8,
    pub protocol_id: u8,
    pub priority: u8,
    pub schedule: Octets,
    pub validity: Octets,
    pub registered: u8,
    pub replace: u8,
    pub data_coding: u8,
    pub default_msg: u8,
    /// At most 254 octets; sm_length is their number.
    pub short_message: Octets,
    pub params: Params,
}

/// The body of a PDU. An `Option` that is `None` is an empty body, which only a status other than 0
/// allows.
#[derive(Drop)]
pub enum Body {
    /// bind_transmitter, bind_transceiver (SMPP 3.4 4.1.1, 4.1.5).
    Bind {
        mode: Mode,
        system_id: Octets,
        password: Octets,
        system_type: Octets,
        interface_version: u8,
        addr_ton: u8,
        addr_npi: u8,
        address_range: Octets,
    },
    /// bind_transmitter_resp, bind_transceiver_resp (SMPP 3.4 4.1.2, 4.1.6).
    BindResp {
        mode: Mode,
        system_id: Option<Octets>,
        params: Params,
    },
    /// submit_sm (SMPP 3.4 4.4.1).
    Submit(Sm),
    /// deliver_sm (SMPP 3.4 4.6.1).
    Deliver(Sm),
    /// submit_sm_resp (SMPP 3.4 4.4.2).
    SubmitResp {
        message_id: Option<Octets>,
    },
    /// deliver_sm_resp (SMPP 3.4 4.6.2).
    DeliverResp {
        message_id: Option<Octets>,
    },
    /// unbind (SMPP 3.4 4.2.1).
    Unbind,
    /// unbind_resp (SMPP 3.4 4.2.2).
    UnbindResp,
    /// enquire_link (SMPP 3.4 4.11.1).
    EnquireLink,
    /// enquire_link_resp (SMPP 3.4 4.11.2).
    EnquireLinkResp,
    /// generic_nack (SMPP 3.4 4.3.1).
    GenericNack,
}

/// A row's field of this value, borrowed.
macro_rules! borrow_field {
    (($value:expr) $name:ident: $field:ident is number,) => {
        *$value
    };
    (($value:expr) $name:ident: $field:ident is text($maximum:literal),) => {
        $value.as_slice()
    };
    (($value:expr) $name:ident: $field:ident is time,) => {
        $value.as_slice()
    };
    (($value:expr) $name:ident: $field:ident is message,) => {
        $value.as_slice()
    };
}

/// The struct of the fields in the braces and of a table's, borrowed: of those of a struct, or of
/// those of the variant that is the first arm of a match, which `$then` takes.
macro_rules! borrow_fields {
    (
        ($of:ident => $made:ident { $($other:ident: $given:expr,)* .. })
        $($name:ident: $field:ident is $kind:ident $(($maximum:literal))?,)*
    ) => {
        $made {
            $($other: $given,)*
            $($name: borrow_field!((&$of.$name) $name: $field is $kind $(($maximum))?,),)*
        }
    };
    (
        (match $of:ident {
            $($variant:ident)::+ { $mode:ident, .. } => $($then:ident)::+($made:ident), $($arms:tt)*
        })
        $($name:ident: $field:ident is $kind:ident $(($maximum:literal))?,)*
    ) => {
        match $of {
            $($variant)::+ { $mode, $($name,)* } => $($then)::+($made {
                $mode: *$mode,
                $($name: borrow_field!(($name) $name: $field is $kind $(($maximum))?,),)*
            }),
            $($arms)*
        }
    };
}

impl Sm {
    /// The same message, borrowed.
    pub fn as_ref(&self) -> SmRef<'_>
        ensures { owned_sm result ≡ self.now }
    {
        sm_fields!(borrow_fields!(
            self => SmRef { params: self.params.as_slice(), .. }
        ))
    }
}

impl Body {
    /// The same body, borrowed.
    pub fn as_ref(&self) -> BodyRef<'_>
        ensures { owned_body result ≡ self.now }
    {
        bind_fields!(borrow_fields!(match self {
            Body::Bind { mode, .. } => BodyRef::Bind(BindRef),
            Body::BindResp {
                mode,
                system_id,
                params,
            } => BodyRef::BindResp {
                mode: *mode,
                system_id: text_of(system_id),
                params: params.as_slice(),
            },
            Body::Submit(sm) => BodyRef::Submit(sm.as_ref()),
            Body::Deliver(sm) => BodyRef::Deliver(sm.as_ref()),
            Body::SubmitResp { message_id } => BodyRef::SubmitResp {
                message_id: text_of(message_id),
            },
            Body::DeliverResp { message_id } => BodyRef::DeliverResp {
                message_id: text_of(message_id),
            },
            Body::Unbind => BodyRef::Unbind,
            Body::UnbindResp => BodyRef::UnbindResp,
            Body::EnquireLink => BodyRef::EnquireLink,
            Body::EnquireLinkResp => BodyRef::EnquireLinkResp,
            Body::GenericNack => BodyRef::GenericNack,
        }))
    }
}

impl Pdu {
    /// The same PDU, borrowed.
    pub fn as_ref(&self) -> PduRef<'_>
        ensures { owned_pdu result ≡ self.now }
    {
        PduRef {
            status: self.status,
            number: self.number,
            body: self.body.as_ref(),
        }
    }
}

/// The octets of a string that may be absent.
fn text_of(text: &Option<Octets>) -> Option<&[u8]>
    ensures { option_copied result ≡ text.now }
{
    match text {
        None => None,
        Some(text) => Some(text.as_slice()),
    }
}

impl fmt::Debug for Body {
    /// All but a bind's password.
    fn fmt<W: fmt::Write>(&self, f: &mut fmt::Formatter<W>) -> fmt::Result {
        fmt::Debug::fmt(&self.as_ref(), f)
    }
}
