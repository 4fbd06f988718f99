//! Calls of the crates below that take memory, each with its answer for lack of it.

ghost use Rattle.std.specs.Prelude.{◌≡◌, ◌<◌, ◌↔◌, None, Some, true, IfErr, IfOk, IfSome, IsNone, IsTrue, MatchOption, length, map, string_bytes};
ghost use Rattle.toml.specs.View.{items_view};
ghost use Rattle.sms_book.specs.Tariffs.{IsTariff, prices_of};
ghost use Rattle.sms_centre.specs.Keys.{strings_in as texts_in};
ghost use Rattle.sms_centre.specs.Texts.{IsFirstBad};
ghost use Rattle.sms_core.specs.State.{AreLimits, new_world};
ghost use Rattle.sms_files.specs.Config.{are_answers};
ghost use Rattle.sms_files.specs.Rates.{IsNoTariff};
ghost use Rattle.sms_message.specs.Submits.{coded_text, parts_for, reference_for as its_reference};
ghost use Rattle.sms_segment.specs.Message.{IsTooLong};

use crate::memory::NoMemory;
use sms_book::{Rate, Tariff, TariffError};
use sms_centre::{Script, ScriptError, strings_of};
use sms_core::{CoreError, World};
use sms_message::{Message, part_count};
use std::alloc::Global;
use toml::Value;

/// How many parts a message has, each with a `long` reference or a short one; None where its text is too long.
pub fn count_parts(alloc: Global, long: bool, message: &Message) -> Result<Option<u8>, NoMemory>
    ensures count { IfOk result (λ found. IfSome found (λ count. count ≡ length (parts_for long message.now))) }
    ensures some { IfOk result (λ found. IfSome found (λ count. 0 < count)) }
    ensures none { IfOk result (λ found. IsNone found ↔ IsTooLong (coded_text message.now) (its_reference long message.now)) }
{
    match part_count(alloc, long, message) {
        Ok(found) => Ok(found),
        Err(_) => Err(NoMemory { refused: () }),
    }
}

/// A world without credits, requests or held slots, of limits that are in range.
pub(crate) fn make_world(
    alloc: Global,
    accounts: u32,
    slots: u32,
    attempts: u32,
) -> Result<World, NoMemory>
    requires { AreLimits accounts slots attempts }
    ensures { IfOk result (λ world. world ≡ new_world accounts slots attempts) }
{
    match World::new(alloc, accounts, slots, attempts) {
        Ok(world) => Ok(world),
        Err(CoreError::OutOfMemory) => Err(NoMemory { refused: () }),
        Err(CoreError::BadLimit) => unreachable!(),
    }
}

/// Why no tariff was made.
#[derive(Clone, Copy, Debug, PartialEq, Eq)]
pub(crate) enum NoTariff {
    /// No tariff takes the rates.
    Refused(TariffError),
    /// Memory was refused.
    OutOfMemory(NoMemory),
}

fn is_memory(error: TariffError) -> bool
    ensures { IsTrue result ↔ (error ≡ TariffError.OutOfMemory) }
{
    match error {
        TariffError::OutOfMemory => true,
        _ => false,
    }
}

/// The tariff of these rates.
pub(crate) fn make_tariff(alloc: Global, rates: &[Rate]) -> Result<Tariff, NoTariff>
    ensures tariff { IfOk result (λ tariff. (tariff ≡ prices_of rates.now) × IsTariff tariff) }
    ensures refused { IfErr result (IsNoTariff (prices_of rates.now)) }
{
    match Tariff::new(alloc, rates) {
        Ok(tariff) => Ok(tariff),
        Err(error) if is_memory(error) => Err(NoTariff::OutOfMemory(NoMemory { refused: () })),
        Err(error) => Err(NoTariff::Refused(error)),
    }
}

/// The texts of a list of TOML; None where one of its values is none.
pub(crate) fn strings_in(alloc: Global, values: &[Value]) -> Result<Option<Vec<String>>, NoMemory>
    ensures { IfOk result (λ r. MatchOption r (texts_in (items_view values.now) ≡ None) (λ v. texts_in (items_view values.now) ≡ Some (map string_bytes v.items))) }
{
    match strings_of(alloc, values) {
        Ok(texts) => Ok(texts),
        Err(_) => Err(NoMemory { refused: () }),
    }
}

/// The place, from 0, of the first of these texts that isn't an answer of a test centre's script.
pub(crate) fn first_bad_answer(alloc: Global, texts: &[String]) -> Result<Option<usize>, NoMemory>
    ensures none { IfOk result (λ found. IsNone found → are_answers (map string_bytes texts.now) ≡ true) }
    ensures some { IfOk result (λ found. IfSome found (IsFirstBad (map string_bytes texts.now))) }
{
    match Script::of(alloc, 0, texts) {
        Ok(_script) => Ok(None),
        Err(ScriptError::BadAnswer { place }) => Ok(Some(place)),
        Err(ScriptError::OutOfMemory) => Err(NoMemory { refused: () }),
        // There is no text.
        Err(ScriptError::BadKey) => Ok(None),
        Err(ScriptError::NotToml) => unreachable!(),
    }
}
