//! The checks that admit a message, what it is cut into, and what it costs. The worker, the quote and the
//! journal decide by these functions alone.

ghost use Rattle.std.specs.Prelude.{◌≡◌, ◌≤◌, ◌<◌, ◌↔◌, All, IfErr, IfOk, IfSome, IsNone, IsTrue, OnOk, length, string_bytes};
ghost use Rattle.sms_book.specs.Tariffs.{cost_of};
ghost use Rattle.sms_core.specs.Limits.{largest_cost};
ghost use Rattle.sms_segment.specs.Message.{IsTooLong};
ghost use Rattle.sms_segment.specs.Part.{HasSeptets};
ghost use Rattle.sms_message.specs.Admission.{IsKnown, IsNotCut, IsShort};
ghost use Rattle.sms_message.specs.Submits.{HasAddresses, coded_text, message_parts, parts_for, reference_for as its_reference};

use crate::address::{destination, source};
use crate::ends::MessageRefusal;
use crate::message::Message;
use crate::rules::Rules;
use sms_alphabet::choose;
use sms_book::Tariff;
use sms_segment::laws::the_parts_have_septets;
use sms_segment::{CutError, Part, Reference, cut, parts_in};
use std::alloc::{AllocError, Global};

/// Whether the account is one of a book with this many accounts.
pub fn is_known(account: Option<usize>, accounts: usize) -> bool
    ensures { IsTrue result ↔ IsKnown accounts account }
{
    match account {
        Some(account) => account < accounts,
        None => false,
    }
}

/// Whether both addresses are good.
pub fn has_addresses(message: &Message) -> bool
    ensures { IsTrue result ↔ HasAddresses message.now }
{
    let Some(_from) = source(message.source.as_str()) else {
        return false;
    };
    let Some(_to) = destination(message.dest.as_str()) else {
        return false;
    };
    true
}

/// The reference that a message's parts have in common (3GPP TS 23.040 9.2.3.24.1 and 9.2.3.24.8), of 16
/// bits where `long`, else of 8.
pub fn reference_for(long: bool, message: &Message) -> Reference
    ensures { result ≡ its_reference long message.now }
{
    if long {
        Reference::Long((message.index % 65536) as u16)
    } else {
        Reference::Short((message.index % 256) as u8)
    }
}

/// How many parts a message is sent as; none where no header can count them. The parts aren't made.
pub fn part_count(alloc: Global, long: bool, message: &Message) -> Result<Option<u8>, AllocError>
    ensures count { IfOk result (λ found. IfSome found (λ count. count ≡ length (parts_for long message.now))) }
    ensures some { IfOk result (λ found. IfSome found (λ count. 0 < count)) }
    ensures none { IfOk result (λ found. IsNone found ↔ IsTooLong (coded_text message.now) (its_reference long message.now)) }
{
    let text = choose(alloc, message.text.as_str())?;
    Ok(parts_in(&text, reference_for(long, message)))
}

/// The parts that a message is sent as. `TooLong` is for one of more parts than a header can count.
pub fn cut_message(
    alloc: Global,
    rules: &Rules,
    message: &Message,
) -> Result<Vec<Part>, MessageRefusal>
    ensures parts { IfOk result (λ parts. parts.items ≡ message_parts rules.now message.now) }
    ensures septets { IfOk result (λ parts. All HasSeptets parts.items) }
    ensures short { OnOk result (IsShort rules.now message.now) }
    ensures refused { IfErr result (λ e. IsNotCut rules.now message.now e) }
{
    let Ok(text) = choose(alloc, message.text.as_str()) else {
        return Err(MessageRefusal::OutOfMemory);
    };
    match cut(alloc, &text, reference_for(rules.long_reference, message)) {
        Ok(parts) => {
            the_parts_have_septets();
            Ok(parts)
        }
        Err(CutError::TooLong) => Err(MessageRefusal::TooLong),
        Err(CutError::OutOfMemory) => Err(MessageRefusal::OutOfMemory),
    }
}

/// What each part of a message costs, in credits.
pub fn part_cost(tariff: &Tariff, message: &Message) -> u32
    ensures is { result ≡ cost_of tariff.now (string_bytes message.now.dest) }
    ensures bounds { (1 ≤ result) × (result ≤ largest_cost) }
{
    tariff.cost(message.dest.as_str())
}
