//! The messages of a run by their indexes, and what the checks say that admit them.

ghost use Rattle.std.specs.Prelude.{◌≡◌, ◌↔◌, ℕ, IfOk, IfSome, IsNone, IsTrue};
ghost use Rattle.sms_journal.specs.Lawful.{HasParts, HasRefusal};
ghost use Rattle.sms_journal.specs.Seen.{ArePlaces};
ghost use Rattle.sms_journal.specs.Verdicts.{IsVerdict, IsVerdictAt, allows as allowed_by, parts_by as counted_by};

use crate::notes::dense_map::DenseMap;
use crate::notes::run_size::RunSize;
use sms_files::memory::{self, NoMemory};
use sms_message::{Message, MessageRefusal, Rules, has_addresses, is_known};
use std::alloc::Global;

/// The places of the messages, by their indexes.
pub(crate) fn places_of(alloc: Global, messages: &[Message]) -> Result<DenseMap<usize>, NoMemory>
    ensures { IfOk result (λ places. ArePlaces messages.now places) }
{
    let mut places = DenseMap::new(alloc);
    for place in 0..messages.len() {
        let message = &messages[place];
        places.put_first(message.index, place)?;
    }
    Ok(places)
}

/// What the checks of a message say, but that of its credits: the first that it fails, or the number of its
/// parts.
#[derive(Clone, Copy, Debug, PartialEq, Eq)]
pub(crate) enum Verdict {
    NoAccount,
    BadAddress,
    TooLong,
    Parts(usize),
}

/// The verdict on a message.
fn verdict_on(
    alloc: Global,
    rules: &Rules,
    accounts: usize,
    message: &Message,
) -> Result<Verdict, NoMemory>
    ensures { IfOk result (IsVerdict rules.now accounts message.now) }
{
    if !is_known(message.account, accounts) {
        return Ok(Verdict::NoAccount);
    }
    if !has_addresses(message) {
        return Ok(Verdict::BadAddress);
    }
    match memory::count_parts(alloc, rules.long_reference, message)? {
        Some(count) => Ok(Verdict::Parts(usize::from(count))),
        None => Ok(Verdict::TooLong),
    }
}

/// The verdict on the message with this index, if there is one.
fn verdict_at(
    alloc: Global,
    messages: &[Message],
    rules: &Rules,
    size: RunSize,
    places: &DenseMap<usize>,
    index: u64,
) -> Result<Option<Verdict>, NoMemory>
    requires { ArePlaces messages.now places.now }
    ensures { IfOk result (IsVerdictAt rules.now size messages.now index) }
{
    let Some(place) = places.get(index) else {
        return Ok(None);
    };
    let message = &messages[place];
    match verdict_on(alloc, rules, size.accounts, message) {
        Ok(verdict) => Ok(Some(verdict)),
        Err(refused) => Err(refused),
    }
}

/// The number of parts by a verdict.
fn parts_by(verdict: Option<Verdict>) -> Option<usize>
    ensures { result ≡ counted_by verdict }
{
    match verdict {
        Some(Verdict::Parts(count)) => Some(count),
        _ => None,
    }
}

/// Whether a message with this verdict may be refused for this reason.
fn allows(verdict: Verdict, refusal: MessageRefusal) -> bool
    ensures { result ≡ allowed_by refusal verdict }
{
    match refusal {
        MessageRefusal::BindClosed => true,
        MessageRefusal::NoAccount => matches!(verdict, Verdict::NoAccount),
        MessageRefusal::BadAddress => matches!(verdict, Verdict::BadAddress),
        MessageRefusal::TooLong => matches!(verdict, Verdict::TooLong),
        MessageRefusal::NoCredit => matches!(verdict, Verdict::Parts(_)),
        MessageRefusal::OutOfMemory => matches!(verdict, Verdict::TooLong | Verdict::Parts(_)),
    }
}

/// How many parts the message with this index has, where it passes each check but that of its credits.
pub(crate) fn parts_of(
    alloc: Global,
    messages: &[Message],
    rules: &Rules,
    size: RunSize,
    places: &DenseMap<usize>,
    index: u64,
) -> Result<Option<usize>, NoMemory>
    requires { ArePlaces messages.now places.now }
    ensures found { IfOk result (λ found. IfSome found (HasParts rules.now size messages.now index)) }
    ensures none { IfOk result (λ found. IsNone found → (count : ℕ) → HasParts rules.now size messages.now index count → ⊥) }
{
    let verdict = verdict_at(alloc, messages, rules, size, places, index)?;
    Ok(parts_by(verdict))
}

/// Whether the message with this index may be refused for this reason.
pub(crate) fn has_refusal(
    alloc: Global,
    messages: &[Message],
    rules: &Rules,
    size: RunSize,
    places: &DenseMap<usize>,
    index: u64,
    refusal: MessageRefusal,
) -> Result<bool, NoMemory>
    requires { ArePlaces messages.now places.now }
    ensures { IfOk result (λ may. IsTrue may ↔ HasRefusal rules.now size messages.now index refusal) }
{
    let found = verdict_at(alloc, messages, rules, size, places, index)?;
    match found {
        Some(verdict) => Ok(allows(verdict, refusal)),
        None => Ok(false),
    }
}
