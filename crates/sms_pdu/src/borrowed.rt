//! PDUs that borrow their strings: what is written, and what is read before memory is asked for.

ghost use Rattle.std.specs.Prelude.{Ok};
ghost use Rattle.sms_pdu.specs.Borrowed.{owned_bind};
ghost use Rattle.sms_pdu.specs.Reading.{Gives};

use crate::body::Body;
use crate::command::Mode;
use crate::error::PduError;
use crate::layout::bind_fields;
use crate::octets::Octets;
use crate::parameter::Parameter;
use std::alloc::Global;
use std::fmt;

/// A PDU, as [`Pdu`](crate::Pdu), whose strings are borrowed.
#[derive(Clone, Copy, Debug)]
pub struct PduRef<'a> {
    /// command_status: 0 in a request.
    pub status: u32,
    /// sequence_number.
    pub number: u32,
    /// What the command_id says and what follows the header.
    pub body: BodyRef<'a>,
}

/// The body of a PDU, as [`Body`], whose strings are borrowed.
#[derive(Clone, Copy, Debug)]
pub enum BodyRef<'a> {
    Bind(BindRef<'a>),
    BindResp {
        mode: Mode,
        system_id: Option<&'a [u8]>,
        params: &'a [Parameter],
    },
    Submit(SmRef<'a>),
    Deliver(SmRef<'a>),
    SubmitResp {
        message_id: Option<&'a [u8]>,
    },
    DeliverResp {
        message_id: Option<&'a [u8]>,
    },
    Unbind,
    UnbindResp,
    EnquireLink,
    EnquireLinkResp,
    GenericNack,
}

/// The fields of [`Body::Bind`], whose strings are borrowed.
#[derive(Clone, Copy)]
pub struct BindRef<'a> {
    pub mode: Mode,
    pub system_id: &'a [u8],
    pub password: &'a [u8],
    pub system_type: &'a [u8],
    pub interface_version: u8,
    pub addr_ton: u8,
    pub addr_npi: u8,
    pub address_range: &'a [u8],
}

/// A message, as [`Sm`](crate::Sm), whose strings are borrowed.
#[derive(Clone, Copy, Debug)]
pub struct SmRef<'a> {
    pub service_type: &'a [u8],
    pub source_ton: u8,
    pub source_npi: u8,
    pub source_addr: &'a [u8],
    pub dest_ton: u8,
    pub dest_npi: u8,
    pub dest_addr: &'a [u8],
    pub esm_class: u8,
    pub protocol_id: u8,
    pub priority: u8,
    pub schedule: &'a [u8],
    pub validity: &'a [u8],
    pub registered: u8,
    pub replace: u8,
    pub data_coding: u8,
    pub default_msg: u8,
    /// At most 254 octets; sm_length is their number.
    pub short_message: &'a [u8],
    pub params: &'a [Parameter],
}

/// A row's field of this borrowed value, copied while there is memory.
macro_rules! copy_field {
    (($alloc:ident, $memory:ident, $value:expr) $name:ident: $field:ident is number,) => {
        $value
    };
    (
        ($alloc:ident, $memory:ident, $value:expr)
        $name:ident: $field:ident is text($maximum:literal),
    ) => {
        Octets::copy_while($alloc, $value, &mut $memory)
    };
    (($alloc:ident, $memory:ident, $value:expr) $name:ident: $field:ident is time,) => {
        Octets::copy_while($alloc, $value, &mut $memory)
    };
    (($alloc:ident, $memory:ident, $value:expr) $name:ident: $field:ident is message,) => {
        Octets::copy_while($alloc, $value, &mut $memory)
    };
}

/// The struct or variant of the fields in the braces and of a table's, copied while there is memory.
/// (Nothing fails in the middle, where the parts that are made would die one by one.)
macro_rules! copy_fields {
    (
        ($alloc:ident, $memory:ident, $of:ident => $($made:ident)::+ {
            $($other:ident: $given:expr,)* ..
        })
        $($name:ident: $field:ident is $kind:ident $(($maximum:literal))?,)*
    ) => {
        $($made)::+ {
            $($other: $given,)*
            $($name: copy_field!(
                ($alloc, $memory, $of.$name) $name: $field is $kind $(($maximum))?,
            ),)*
        }
    };
}

impl BindRef<'_> {
    /// A body with copies of these strings.
    pub(crate) fn copied(&self, alloc: Global) -> Result<Body, PduError>
        ensures { Gives (λ body. body) result (Ok (owned_bind self.now)) }
    {
        let mut memory = true;
        let body = bind_fields!(copy_fields!(
            alloc, memory, self => Body::Bind { mode: self.mode, .. }
        ));
        if !memory {
            drop(body);
            return Err(PduError::OutOfMemory);
        }
        Ok(body)
    }
}

pub(crate) use copy_field;
pub(crate) use copy_fields;

impl fmt::Debug for BindRef<'_> {
    /// All but the password.
    fn fmt<W: fmt::Write>(&self, f: &mut fmt::Formatter<W>) -> fmt::Result {
        f.debug_struct("BindRef")
            .field("mode", &self.mode)
            .field("system_id", &self.system_id)
            .field("system_type", &self.system_type)
            .field("interface_version", &self.interface_version)
            .field("addr_ton", &self.addr_ton)
            .field("addr_npi", &self.addr_npi)
            .field("address_range", &self.address_range)
            .finish_non_exhaustive()
    }
}
