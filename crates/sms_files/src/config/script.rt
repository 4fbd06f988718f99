//! The texts of the test centre's script in a config.

ghost use Rattle.std.specs.Prelude.{◌≡◌, None, Some, if◌then◌else◌, IfErr, IfOk, MatchOption, codes, map, string_bytes};
ghost use Rattle.toml.specs.Data.{get_member};
ghost use Rattle.toml.specs.View.{table_view, view};
ghost use Rattle.sms_files.specs.Config.{answers_in, fault_at, some_answers};
ghost use Rattle.sms_files.specs.ConfigFaults.{TellsKey};

use crate::config::toml_value::bad_key;
use crate::fault::InputFault;
use crate::memory::{NoMemory, first_bad_answer, push, strings_in, text_of};
use std::alloc::Global;
use toml::{Table, Value};

/// The texts where the config names none.
fn default_answers(alloc: Global) -> Result<Vec<String>, NoMemory>
    ensures { IfOk result (λ texts. answers_in None ≡ Some (map string_bytes texts.items)) }
{
    let mut texts = Vec::new(alloc);
    push(&mut texts, text_of(alloc, "status 0")?)?;
    Ok(texts)
}

/// Whether there are texts, and each is one of a script.
fn are_answers(alloc: Global, texts: &[String]) -> Result<bool, NoMemory>
    ensures { IfOk result (λ good. some_answers (map string_bytes texts.now) ≡ (if good then Some (map string_bytes texts.now) else None)) }
{
    if texts.is_empty() {
        return Ok(false);
    }
    match first_bad_answer(alloc, texts)? {
        Some(_place) => Ok(false),
        None => Ok(true),
    }
}

/// The texts of a value, where it is some that a script has.
fn answers_of(alloc: Global, value: &Value) -> Result<Option<Vec<String>>, NoMemory>
    ensures { IfOk result (λ r. MatchOption r (answers_in (Some (view value.now)) ≡ None) (λ v. answers_in (Some (view value.now)) ≡ Some (map string_bytes v.items))) }
{
    let Some(values) = value.as_array() else {
        return Ok(None);
    };
    let Some(texts) = strings_in(alloc, values.as_slice())? else {
        return Ok(None);
    };
    if are_answers(alloc, texts.as_slice())? {
        Ok(Some(texts))
    } else {
        Ok(None)
    }
}

/// The texts at the key `answers`.
pub fn answers_at(alloc: Global, table: &Table) -> Result<Vec<String>, InputFault>
    ensures answers { IfOk result (λ texts. answers_in (get_member (codes "answers") (table_view table.now)) ≡ Some (map string_bytes texts.items)) }
    ensures refused { IfErr result (TellsKey (table_view table.now) (fault_at (codes "answers") (answers_in (get_member (codes "answers") (table_view table.now))))) }
{
    match table.get("answers") {
        None => Ok(default_answers(alloc)?),
        Some(value) => match answers_of(alloc, value)? {
            Some(texts) => Ok(texts),
            None => Err(bad_key(alloc, table, "answers")),
        },
    }
}
