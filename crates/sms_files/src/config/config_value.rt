//! What a config has at a key, for the fault of that key.

ghost use Rattle.std.specs.Prelude.{◌≡◌, IfOk, map, string_bytes};
ghost use Rattle.toml.specs.Data.{array, get_member, string};
ghost use Rattle.toml.specs.View.{items_view, table_view, view};
ghost use Rattle.sms_centre.specs.Texts.{IsFirstBad};
ghost use Rattle.sms_files.specs.ConfigValues.{AreTextsOf, IsShownAs, IsShownAt, IsValueOf, is_secret as is_hidden};

use crate::memory::{NoMemory, first_bad_answer, strings_in, text_of};
use std::alloc::Global;
use toml::{Table, Value};

/// What a config has at a key.
#[derive(Debug, Drop)]
pub enum ConfigValue {
    /// The key is missing.
    Missing,
    /// A whole number.
    Number(i64),
    /// True or false.
    Flag(bool),
    /// A text.
    Text(String),
    /// A secret, and whether it is a text.
    Hidden(bool),
    /// A list of texts, maybe an empty one, each of which a test centre's script may have.
    Texts,
    /// A list of texts. The one of this number, from 1, is the first that no script may have.
    BadText(usize, String),
    /// A list, not of texts alone.
    Values,
    /// A table.
    Table,
    /// A number with a fraction, or a time.
    Else,
}

/// Whether the value of this key is a secret.
fn is_secret(key: &str) -> bool
    ensures { result ≡ is_hidden key.now }
{
    key == "password"
}

/// A copy of a text.
fn text_value(alloc: Global, text: &str) -> Result<ConfigValue, NoMemory>
    ensures { IfOk result (IsValueOf (string text.now)) }
{
    Ok(ConfigValue::Text(text_of(alloc, text)?))
}

/// A copy of the text at this place, which is the first that no script has.
fn bad_text(alloc: Global, texts: &[String], place: usize) -> Result<ConfigValue, NoMemory>
    requires { IsFirstBad (map string_bytes texts.now) place }
    ensures { IfOk result (AreTextsOf (map string_bytes texts.now)) }
{
    if place < texts.len() {
        let text = text_of(alloc, texts[place].as_str())?;
        return Ok(ConfigValue::BadText(place + 1, text));
    }
    Ok(ConfigValue::Texts)
}

/// The first of these texts that no script has, if one is such.
fn texts_value(alloc: Global, texts: &[String]) -> Result<ConfigValue, NoMemory>
    ensures { IfOk result (AreTextsOf (map string_bytes texts.now)) }
{
    match first_bad_answer(alloc, texts)? {
        Some(place) => bad_text(alloc, texts, place),
        None => Ok(ConfigValue::Texts),
    }
}

/// What is shown of a list of values.
fn list_value(alloc: Global, values: &[Value]) -> Result<ConfigValue, NoMemory>
    ensures { IfOk result (IsValueOf (array (items_view values.now))) }
{
    match strings_in(alloc, values)? {
        Some(texts) => texts_value(alloc, texts.as_slice()),
        None => Ok(ConfigValue::Values),
    }
}

/// What is shown of a value.
pub(crate) fn shown_value(alloc: Global, value: &Value) -> Result<ConfigValue, NoMemory>
    ensures { IfOk result (IsValueOf (view value.now)) }
{
    match value {
        Value::String(text) => text_value(alloc, text.as_str()),
        Value::Integer(number) => Ok(ConfigValue::Number(*number)),
        Value::Boolean(flag) => Ok(ConfigValue::Flag(*flag)),
        Value::Array(values) => list_value(alloc, values.as_slice()),
        Value::Table(_) => Ok(ConfigValue::Table),
        Value::Float(_) | Value::Datetime(_) => Ok(ConfigValue::Else),
    }
}

/// What is shown of a value, which may be a secret.
fn value_or_hidden(alloc: Global, secret: bool, value: &Value) -> Result<ConfigValue, NoMemory>
    ensures { IfOk result (IsShownAs secret (view value.now)) }
{
    if secret {
        Ok(ConfigValue::Hidden(value.is_str()))
    } else {
        shown_value(alloc, value)
    }
}

/// What a table has at a key. A password is not shown.
pub fn value_at(alloc: Global, table: &Table, key: &str) -> Result<ConfigValue, NoMemory>
    ensures { IfOk result (IsShownAt (is_hidden key.now) (get_member key.now (table_view table.now))) }
{
    match table.get(key) {
        Some(value) => value_or_hidden(alloc, is_secret(key), value),
        None => Ok(ConfigValue::Missing),
    }
}
