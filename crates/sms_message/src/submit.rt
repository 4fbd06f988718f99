//! The submit_sm of a part of a message (SMPP 3.4 4.4.1).

ghost use Rattle.std.specs.Prelude.{◌≡◌};
ghost use Rattle.sms_pdu.specs.Borrowed.{owned_sm};
ghost use Rattle.sms_segment.specs.declared.part.Part.{Part};
ghost use Rattle.sms_message.specs.Addresses.{owned};
ghost use Rattle.sms_message.specs.Submits.{submitted};
ghost use Rattle.sms_message.specs.UserData.{user_data as data_of};

use crate::address::AddressRef;
use crate::rules::Rules;
use crate::user_data::UserData;
use sms_pdu::SmRef;

/// What the submit_sm with this user data says, from this source to this destination: the fields that the rules
/// ask for, and else those of the addresses and of the rules. Nothing is copied.
#[inline(always)]
pub fn submit_of<'a>(
    rules: &'a Rules,
    from: AddressRef<'a>,
    to: AddressRef<'a>,
    user_data: &'a UserData,
) -> SmRef<'a>
    ensures { (part : Part) → user_data.now ≡ data_of part → owned_sm result ≡ submitted rules.now (owned from.entry) (owned to.entry) part }
{
    let fields = &rules.fields;
    SmRef {
        service_type: fields.service_type.as_slice(),
        source_ton: fields.source_ton.unwrap_or(from.ton),
        source_npi: fields.source_npi.unwrap_or(from.npi),
        source_addr: from.octets,
        dest_ton: fields.dest_ton.unwrap_or(to.ton),
        dest_npi: fields.dest_npi.unwrap_or(to.npi),
        dest_addr: to.octets,
        esm_class: user_data.esm_class,
        protocol_id: fields.protocol_id,
        priority: fields.priority,
        schedule: fields.schedule.as_slice(),
        validity: fields.validity.as_slice(),
        registered: fields.registered.unwrap_or(u8::from(rules.receipts)),
        replace: u8::from(fields.replace),
        data_coding: user_data.data_coding,
        default_msg: 0,
        short_message: user_data.short_message.as_slice(),
        params: fields.params.as_slice(),
    }
}
