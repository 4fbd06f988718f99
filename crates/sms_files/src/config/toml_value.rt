//! The values at the keys of a config, each with what it may be and its default.

ghost use Rattle.std.specs.Prelude.{◌≡◌, ◌≤◌, Some, IfErr, IfOk, IfSome, option_and_then, option_map, string_bytes};
ghost use Rattle.toml.specs.Data.{as_integer, get_member};
ghost use Rattle.toml.specs.View.{table_view, view};
ghost use Rattle.sms_files.specs.Config.{c_octet_string, fault_at, flag_in, has_no_zero as is_without_zero, in_range, mode_in, number_in, octets_in, text_in};
ghost use Rattle.sms_files.specs.ConfigFaults.{TellsKey};
ghost use Rattle.sms_files.specs.SubmitFields.{number_if};

use crate::config::config_value::value_at;
use crate::fault::InputFault;
use crate::memory::text_of;
use sms_pdu::{Mode, Octets};
use std::alloc::Global;
use toml::{Table, Value};

/// The fault of a key of this table, with what stands there.
pub fn bad_key(alloc: Global, table: &Table, key: &str) -> InputFault
    ensures { TellsKey (table_view table.now) (Some key.now) result }
{
    let value = match value_at(alloc, table, key) {
        Ok(value) => value,
        Err(no) => return InputFault::OutOfMemory(no),
    };
    match text_of(alloc, key) {
        Ok(name) => InputFault::BadKey(name, value),
        Err(no) => InputFault::OutOfMemory(no),
    }
}

/// The number of a value, where it is at least and at most these.
fn number_of(value: &Value, least: u32, most: u32) -> Option<u32>
    ensures is { result ≡ option_and_then (in_range least most) (as_integer (view value.now)) }
    ensures range { IfSome result (λ n. (least ≤ n) × (n ≤ most)) }
{
    match value.as_integer() {
        Some(number) => match u64::try_from(number) {
            Ok(n) if n >= u64::from(least) && n <= u64::from(most) => Some(n as u32),
            _ => None,
        },
        None => None,
    }
}

/// The number at a key, at least and at most these.
pub fn number_at(
    alloc: Global,
    table: &Table,
    key: &str,
    default: u32,
    least: u32,
    most: u32,
) -> Result<u32, InputFault>
    requires default { (least ≤ default) × (default ≤ most) }
    ensures range { IfOk result (λ number. (least ≤ number) × (number ≤ most)) }
    ensures number { IfOk result (λ number. number_in default least most (get_member key.now (table_view table.now)) ≡ Some number) }
    ensures refused { IfErr result (TellsKey (table_view table.now) (fault_at key.now (number_in default least most (get_member key.now (table_view table.now))))) }
{
    match table.get(key) {
        None => Ok(default),
        Some(value) => match number_of(value, least, most) {
            Some(number) => Ok(number),
            None => Err(bad_key(alloc, table, key)),
        },
    }
}

/// The number at a key, at least and at most these, where there is one.
pub fn number_if_at(
    alloc: Global,
    table: &Table,
    key: &str,
    least: u32,
    most: u32,
) -> Result<Option<u32>, InputFault>
    ensures bound { IfOk result (λ found. IfSome found (λ number. number ≤ most)) }
    ensures number { IfOk result (λ found. number_if least most (get_member key.now (table_view table.now)) ≡ Some found) }
    ensures refused { IfErr result (TellsKey (table_view table.now) (fault_at key.now (number_if least most (get_member key.now (table_view table.now))))) }
{
    match table.get(key) {
        None => Ok(None),
        Some(value) => match number_of(value, least, most) {
            Some(number) => Ok(Some(number)),
            None => Err(bad_key(alloc, table, key)),
        },
    }
}

/// The octet at a key, at most this, where there is one.
pub fn octet_if_at(
    alloc: Global,
    table: &Table,
    key: &str,
    most: u32,
) -> Result<Option<u8>, InputFault>
    requires { most ≤ 255 }
    ensures octet { IfOk result (λ found. number_if 0 most (get_member key.now (table_view table.now)) ≡ Some found) }
    ensures refused { IfErr result (TellsKey (table_view table.now) (fault_at key.now (number_if 0 most (get_member key.now (table_view table.now))))) }
{
    match number_if_at(alloc, table, key, 0, most) {
        Ok(Some(number)) => Ok(Some(number as u8)),
        Ok(None) => Ok(None),
        Err(fault) => Err(fault),
    }
}

/// The flag at a key.
pub fn flag_at(alloc: Global, table: &Table, key: &str) -> Result<bool, InputFault>
    ensures flag { IfOk result (λ flag. flag_in (get_member key.now (table_view table.now)) ≡ Some flag) }
    ensures refused { IfErr result (TellsKey (table_view table.now) (fault_at key.now (flag_in (get_member key.now (table_view table.now))))) }
{
    match table.get(key) {
        None => Ok(false),
        Some(value) => match value.as_bool() {
            Some(flag) => Ok(flag),
            None => Err(bad_key(alloc, table, key)),
        },
    }
}

/// The text at a key, where it is one; `default` where the key is missing.
fn text_found<'a>(table: &'a Table, key: &str, default: &'a str) -> Option<&'a str>
    ensures { option_map (λ text. text.now) result ≡ text_in default.now (get_member key.now (table_view table.now)) }
{
    match table.get(key) {
        None => Some(default),
        Some(value) => value.as_str(),
    }
}

/// The text at a key.
pub fn text_at(alloc: Global, table: &Table, key: &str, default: &str) -> Result<String, InputFault>
    ensures text { IfOk result (λ text. text_in default.now (get_member key.now (table_view table.now)) ≡ Some (string_bytes text)) }
    ensures refused { IfErr result (TellsKey (table_view table.now) (fault_at key.now (text_in default.now (get_member key.now (table_view table.now))))) }
{
    match text_found(table, key, default) {
        Some(text) => match text_of(alloc, text) {
            Ok(copy) => Ok(copy),
            Err(no) => Err(InputFault::OutOfMemory(no)),
        },
        None => Err(bad_key(alloc, table, key)),
    }
}

/// Whether no octet is 0.
fn has_no_zero(text: &[u8]) -> bool
    ensures { result ≡ is_without_zero text.now }
{
    for octet in text {
        if *octet == 0 {
            return false;
        }
    }
    true
}

/// The C-Octet String at a key, of a maximum that counts its 0 (SMPP 3.4 3.1).
pub fn octets_at(
    alloc: Global,
    table: &Table,
    key: &str,
    default: &str,
    most: usize,
) -> Result<Octets, InputFault>
    ensures octets { IfOk result (λ octets. octets_in most default.now (get_member key.now (table_view table.now)) ≡ Some octets) }
    ensures fits { IfOk result (λ octets. c_octet_string most octets ≡ Some octets) }
    ensures refused { IfErr result (TellsKey (table_view table.now) (fault_at key.now (octets_in most default.now (get_member key.now (table_view table.now))))) }
{
    match text_found(table, key, default) {
        Some(text) if text.len() < most && has_no_zero(text.as_bytes()) => {
            match text_of(alloc, text) {
                Ok(copy) => Ok(Octets::new(copy.into_bytes())),
                Err(no) => Err(InputFault::OutOfMemory(no)),
            }
        }
        _ => Err(bad_key(alloc, table, key)),
    }
}

/// The mode at a key.
pub fn mode_at(alloc: Global, table: &Table, key: &str) -> Result<Mode, InputFault>
    ensures mode { IfOk result (λ mode. mode_in (get_member key.now (table_view table.now)) ≡ Some mode) }
    ensures refused { IfErr result (TellsKey (table_view table.now) (fault_at key.now (mode_in (get_member key.now (table_view table.now))))) }
{
    match text_found(table, key, "transmitter") {
        Some("transmitter") => Ok(Mode::Transmitter),
        Some("transceiver") => Ok(Mode::Transceiver),
        _ => Err(bad_key(alloc, table, key)),
    }
}
