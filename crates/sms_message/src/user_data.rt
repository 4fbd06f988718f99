//! What short messages carry of the parts of a message.

ghost use Rattle.std.specs.Prelude.{◌≡◌, IfOk};
ghost use Rattle.sms_segment.specs.Part.{HasSeptets};
ghost use Rattle.sms_message.specs.UserData.{data_of, user_data};

use sms_pdu::Octets;
use sms_segment::{Part, ShortMessage};
use std::alloc::{AllocError, Global};

/// The user data of a part (3GPP TS 23.040 9.2.3.24): its octets, and how they are to be read (SMPP 3.4
/// 5.2.12 and 5.2.19). It is made once, and each attempt to send the part borrows it.
#[derive(Drop)]
pub struct UserData {
    pub esm_class: u8,
    pub data_coding: u8,
    pub short_message: Octets,
}

impl UserData {
    /// The user data of this part.
    pub fn of(alloc: Global, part: &Part) -> Result<UserData, AllocError>
        requires { HasSeptets part.now }
        ensures { IfOk result (λ carried. carried ≡ user_data part.now) }
    {
        let octets = part.short_message(alloc)?;
        Ok(UserData {
            esm_class: part.esm_class(),
            data_coding: part.data_coding(),
            short_message: Octets::new(octets),
        })
    }

    /// The user data of a short message without a header. Takes no memory.
    pub fn of_one(one: ShortMessage) -> UserData
        ensures { result ≡ data_of one }
    {
        UserData {
            esm_class: 0,
            data_coding: one.data_coding,
            short_message: Octets::new(one.octets),
        }
    }
}
