//! Fields of a submit_sm that a sending asks for, whatever its messages say.

ghost use Rattle.std.specs.Prelude.{◌≡◌, true};
ghost use Rattle.sms_message.specs.Room.{have_room};

use sms_pdu::{Octets, Params};
use std::alloc::Global;

/// Fields of each submit_sm of a sending (SMPP 3.4 4.4.1). Of a field that isn't asked for the message and the
/// rules say what it is.
#[derive(Debug, Drop)]
pub struct Fields {
    /// Which service of the centre carries the message (5.2.11), at most 5 octets.
    pub service_type: Octets,
    /// The type of number of each source (5.2.5).
    pub source_ton: Option<u8>,
    /// The numbering plan of each source (5.2.6).
    pub source_npi: Option<u8>,
    /// The type of number of each destination.
    pub dest_ton: Option<u8>,
    /// The numbering plan of each destination.
    pub dest_npi: Option<u8>,
    /// What a network of GSM does with the message (5.2.13).
    pub protocol_id: u8,
    /// Its level of priority (5.2.14).
    pub priority: u8,
    /// When the centre is to deliver it (5.2.15): at once where it is empty.
    pub schedule: Octets,
    /// How long the centre tries to deliver it (5.2.16): as long as it likes where it is empty.
    pub validity: Octets,
    /// Which receipts are asked for (5.2.17).
    pub registered: Option<u8>,
    /// Whether it takes the place of one that the centre still has, of the same addresses and service (5.2.18).
    pub replace: bool,
    /// The optional parameters (5.3), in their order.
    pub params: Params,
    pub ghost room: { have_room service_type schedule validity params ≡ true },
}

impl Fields {
    ghost use Rattle.sms_message.specs.Fields.{HasNoFields};

    /// No fields that are asked for. Takes no memory.
    pub fn none(alloc: Global) -> Fields
        ensures { HasNoFields result }
    {
        Fields {
            service_type: Octets::new(Vec::new(alloc)),
            source_ton: None,
            source_npi: None,
            dest_ton: None,
            dest_npi: None,
            protocol_id: 0,
            priority: 0,
            schedule: Octets::new(Vec::new(alloc)),
            validity: Octets::new(Vec::new(alloc)),
            registered: None,
            replace: false,
            params: Params::none(alloc),
        }
    }
}
