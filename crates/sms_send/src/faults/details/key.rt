//! What the keys of a config and of a fields file may hold, and the detail lines of these.

use crate::faults::context::text_of;
use crate::faults::details::short::Short;
use crate::faults::details::shown::Shown;
use sms_files::{ConfigValue, TomlFlaw};
use std::alloc::AllocError;
use std::fmt::Write as _;

/// A key, with what it should hold.
type Key = (&'static str, &'static str);

/// The keys of a config.
pub(crate) const CONFIG_KEYS: [Key; 21] = [
    ("host", "a text"),
    ("port", "1 to 65535"),
    ("system_id", "a text of at most 15 octets, none of them 0"),
    ("password", "a text of at most 8 octets, none of them 0"),
    ("system_type", "a text of at most 12 octets, none of them 0"),
    ("mode", "\"transmitter\" or \"transceiver\""),
    ("accounts", "the name of a file, as a text"),
    ("messages", "the name of a file, as a text"),
    ("tariff", "the name of a file, as a text"),
    ("bind_status", "0 to 4294967295"),
    (
        "answers",
        "a list of at least one text, each one of a test centre's script",
    ),
    ("binds", "1 to 4"),
    ("workers", "1 to 8"),
    ("window", "1 to 64"),
    ("depth", "1 to 64"),
    ("attempts", "1 to 10"),
    ("base_ms", "0 to 60000"),
    ("answer_ms", "1 to 600000"),
    ("receipts", "true or false"),
    ("long_reference", "true or false"),
    ("follow", "true or false"),
];

/// The keys of a fields file.
pub(crate) const FIELD_KEYS: [Key; 13] = [
    ("service_type", "a text of at most 5 octets, none of them 0"),
    ("source_ton", "0 to 255"),
    ("source_npi", "0 to 255"),
    ("destination_ton", "0 to 255"),
    ("destination_npi", "0 to 255"),
    ("protocol_id", "0 to 255"),
    ("priority", "0 to 3"),
    ("registered_delivery", "0 to 31"),
    ("replace", "true or false"),
    ("schedule", TIME),
    ("validity", TIME),
    (
        "validity_s",
        "1 to 2592000 seconds, and not beside validity",
    ),
    (
        "parameters",
        "a list of texts TAG:VALUE in hexadecimal digits, four of the tag, of at most 1024 octets in all",
    ),
];

/// What a time should be.
const TIME: &str =
    "a time YYMMDDhhmmsstnn and +, - or R, as 000000000500000R for five minutes from now on";

/// What the key of this name should hold; none where there is no such key.
fn range_of(keys: &[Key], key: &str) -> Option<&'static str> {
    for (name, range) in keys {
        if *name == key {
            return Some(*range);
        }
    }
    None
}

/// The octets of two texts behind the front that they share.
fn ends_of<'a>(mut one: &'a [u8], mut other: &'a [u8]) -> (&'a [u8], &'a [u8]) {
    for _ in 0..one.len() {
        match (one, other) {
            ([a, ends @ ..], [b, others @ ..]) if a == b => {
                one = ends;
                other = others;
            }
            _ => return (one, other),
        }
    }
    (one, other)
}

/// Whether a key is the other but for one letter: left out, too many, another one, or changed with its neighbour.
fn is_near(key: &str, name: &str) -> bool {
    let (one, other) = ends_of(key.as_bytes(), name.as_bytes());
    match (one, other) {
        ([a, b, one @ ..], [c, d, other @ ..]) if a == d && b == c && one == other => true,
        ([_, one @ ..], [_, other @ ..]) if one == other => true,
        ([_, one @ ..], other) if one == other => true,
        (one, [_, other @ ..]) if one == other => true,
        _ => false,
    }
}

/// The key that a name that is none is near to.
fn nearest_key(keys: &[Key], name: &str) -> Option<&'static str> {
    for (key, _) in keys {
        if is_near(*key, name) {
            return Some(*key);
        }
    }
    None
}

/// Writes what a key should hold and what it holds; where there is no such key, that, and which it is near to. What
/// stands at a key that there isn't may be a secret, and isn't written.
pub(crate) fn write_key(
    text: &mut String,
    keys: &[Key],
    key: &str,
    value: &ConfigValue,
) -> Result<(), AllocError> {
    match range_of(keys, key) {
        Some(range) => {
            write!(text, "{key} should be {range}")?;
            write_value(text, value)
        }
        None => match nearest_key(keys, key) {
            Some(near) => write!(text, "there is no such key: is it {near}?"),
            None => text.push_str("there is no such key"),
        },
    }
}

/// Writes what a key holds, on a line of its own; nothing where the config lacks it.
fn write_value(text: &mut String, value: &ConfigValue) -> Result<(), AllocError> {
    match value {
        ConfigValue::Missing => Ok(()),
        ConfigValue::Number(number) => {
            let number = *number;
            write!(text, "\nit is {number}")
        }
        ConfigValue::Flag(true) => text.push_str("\nit is true"),
        ConfigValue::Flag(false) => text.push_str("\nit is false"),
        ConfigValue::Text(value) => {
            let value = Short(value.as_str());
            write!(text, "\nit is \"{value}\"")
        }
        ConfigValue::Hidden(true) => text.push_str("\nit is a text, which is not shown here"),
        ConfigValue::Hidden(false) => text.push_str("\nit is no text"),
        ConfigValue::BadText(number, value) => {
            let (number, value) = (*number, Short(value.as_str()));
            write!(text, "\nits text {number} is \"{value}\"")
        }
        ConfigValue::Texts | ConfigValue::Values => text.push_str("\nit is a list"),
        ConfigValue::Table => text.push_str("\nit is a table"),
        ConfigValue::Else => text.push_str("\nit is a number with a fraction, or a time"),
    }
}

/// Writes on which line the file of this name isn't TOML, and why.
pub(crate) fn write_toml_flaw(
    text: &mut String,
    name: &Option<String>,
    flaw: &TomlFlaw,
) -> Result<(), AllocError> {
    match text_of(name) {
        Some(name) => {
            let name = Shown(name);
            write!(text, "{name} ")?;
        }
        None => {}
    }
    let (line, cause) = (flaw.line(), Shown(flaw.cause()));
    write!(
        text,
        "line {line}: {cause}\nit should be TOML in UTF-8: lines KEY = VALUE"
    )
}
