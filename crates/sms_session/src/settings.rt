//! The fields that this side binds with.

ghost use Rattle.std.specs.Prelude.{◌≡◌, Err, IfOk, IfErr};
ghost use Rattle.sms_pdu.specs.Borrowed.{owned_pdu};
ghost use Rattle.sms_pdu.specs.Grammar.{IsLawful};
ghost use Rattle.sms_pdu.specs.Size.{size_of};
ghost use Rattle.sms_session.specs.Settings.{Setting, setting, bind_pdu};

use sms_pdu::{BindRef, BodyRef, Mode, Octets, PduError, PduRef, encoded_length};
use std::marker::Model;

/// The fields of a bind (SMPP 3.4 4.1.1, 4.1.5).
#[derive(Drop)]
pub struct Settings {
    mode: Mode,
    system_id: Octets,
    password: Octets,
    system_type: Octets,
}

impl Model for Settings {
    ghost use Rattle.sms_session.specs.Settings.{Setting};

    ghost Value = { Setting };

    ghost view = { λ s. record { mode = s.mode; system_id = s.system_id; password = s.password; system_type = s.system_type } };
}

/// The version of the protocol that this side speaks.
const INTERFACE_VERSION: u8 = 0x34;

impl Settings {
    /// Settings whose bind can be encoded; else the fault of encoding it. Takes no memory.
    pub fn new(
        mode: Mode,
        system_id: Octets,
        password: Octets,
        system_type: Octets,
    ) -> Result<Settings, PduError>
        ensures ok { IfOk result (λ s. (s ≡ setting mode system_id password system_type) × IsLawful (bind_pdu s 0)) }
        ensures err { IfErr result (λ e. size_of (bind_pdu (setting mode system_id password system_type) 0) ≡ Err e) }
    {
        let settings = Settings {
            mode,
            system_id,
            password,
            system_type,
        };
        match encoded_length(&settings.pdu(0)) {
            Ok(_size) => Ok(settings),
            Err(fault) => Err(fault),
        }
    }

    /// The mode of the bind.
    pub fn mode(&self) -> Mode
        ensures { result ≡ self.now.mode }
    {
        self.mode
    }

    /// The bind with this sequence number, by version 3.4 of the protocol, with no range of addresses.
    pub fn pdu(&self, number: u32) -> PduRef<'_>
        ensures { owned_pdu result ≡ bind_pdu self.now number }
    {
        PduRef {
            status: 0,
            number,
            body: BodyRef::Bind(BindRef {
                mode: self.mode,
                system_id: self.system_id.as_slice(),
                password: self.password.as_slice(),
                system_type: self.system_type.as_slice(),
                interface_version: INTERFACE_VERSION,
                addr_ton: 0,
                addr_npi: 0,
                address_range: b"",
            }),
        }
    }
}
