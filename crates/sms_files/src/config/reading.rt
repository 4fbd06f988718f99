//! The keys of a config's TOML text, read group by group.

ghost use Rattle.std.specs.Prelude.{◌≡◌, ◌≤◌, None, Some, IfErr, IfOk, map};
ghost use Rattle.toml.specs.View.{table_view};
ghost use Rattle.sms_session.specs.Settings.{setting};
ghost use Rattle.sms_message.specs.Fields.{HasNoFields};
ghost use Rattle.sms_files.specs.Config.{c_octet_string, connection_fault, faulty_key, files_fault, flags_fault, is_among, known_keys, limits_fault, retry_fault, script_fault, unknown_key as unknown_key_of};
ghost use Rattle.sms_files.specs.ConfigFaults.{IsConfig, SaysAnswers, SaysConfig, SaysConnection, SaysFiles, SaysLimits, SaysFlags, SaysRetry, TellsConfig, TellsKey, TellsToml, toml_of};

use crate::config::limits::Limits;
use crate::config::script::answers_at;
use crate::config::toml_flaw::TomlFlaw;
use crate::config::toml_value::{bad_key, flag_at, mode_at, number_at, octets_at, text_at};
use crate::config::{Answers, Config, Connection, FileNames, Flags, Retry};
use crate::fault::InputFault;
use crate::memory::toml_refusal;
use sms_message::Fields;
use sms_pdu::{Mode, Octets};
use sms_session::{Policy, Settings};
use std::alloc::Global;
use std::str;
use toml::Table;

/// The fields of a bind. They are no longer than the bind has room for (SMPP 3.4 4.1.1).
fn settings_of(mode: Mode, system_id: Octets, password: Octets, system_type: Octets) -> Settings
    requires system_id { c_octet_string 16 system_id ≡ Some system_id }
    requires password { c_octet_string 9 password ≡ Some password }
    requires system_type { c_octet_string 13 system_type ≡ Some system_type }
    ensures { result ≡ setting mode system_id password system_type }
{
    match Settings::new(mode, system_id, password, system_type) {
        Ok(settings) => settings,
        Err(_) => unreachable!(),
    }
}

/// To whom the sender binds, and as whom.
fn connection_at(alloc: Global, table: &Table) -> Result<Connection, InputFault>
    ensures says { IfOk result (SaysConnection (table_view table.now)) }
    ensures faultless { IfOk result (λ _. connection_fault (table_view table.now) ≡ None) }
    ensures refused { IfErr result (TellsKey (table_view table.now) (connection_fault (table_view table.now))) }
{
    let host = text_at(alloc, table, "host", "127.0.0.1")?;
    let port = number_at(alloc, table, "port", 2775, 1, 65_535)?;
    let system_id = octets_at(alloc, table, "system_id", "esme", 16)?;
    let password = octets_at(alloc, table, "password", "", 9)?;
    let system_type = octets_at(alloc, table, "system_type", "", 13)?;
    let mode = mode_at(alloc, table, "mode")?;
    Ok(Connection {
        host,
        port,
        settings: settings_of(mode, system_id, password, system_type),
    })
}

/// How many of each there are.
fn limits_at(alloc: Global, table: &Table) -> Result<Limits, InputFault>
    ensures says { IfOk result (SaysLimits (table_view table.now)) }
    ensures faultless { IfOk result (λ _. limits_fault (table_view table.now) ≡ None) }
    ensures refused { IfErr result (TellsKey (table_view table.now) (limits_fault (table_view table.now))) }
{
    let binds = number_at(alloc, table, "binds", 1, 1, 4)?;
    let workers = number_at(alloc, table, "workers", 1, 1, 8)?;
    let window = number_at(alloc, table, "window", 8, 1, 64)?;
    let depth = number_at(alloc, table, "depth", 4, 1, 64)?;
    Ok(Limits {
        binds,
        workers,
        window,
        depth,
    })
}

/// How often a request is tried, and how long it waits.
fn retry_at(alloc: Global, table: &Table) -> Result<Retry, InputFault>
    ensures says { IfOk result (SaysRetry (table_view table.now)) }
    ensures faultless { IfOk result (λ _. retry_fault (table_view table.now) ≡ None) }
    ensures refused { IfErr result (TellsKey (table_view table.now) (retry_fault (table_view table.now))) }
{
    let attempts = number_at(alloc, table, "attempts", 3, 1, 10)?;
    let base_ms = number_at(alloc, table, "base_ms", 100, 0, 60_000)?;
    let answer_ms = number_at(alloc, table, "answer_ms", 5_000, 1, 600_000)?;
    Ok(Retry {
        policy: Policy { attempts, base_ms },
        answer_ms,
    })
}

/// What is on or off.
fn flags_at(alloc: Global, table: &Table) -> Result<Flags, InputFault>
    ensures says { IfOk result (SaysFlags (table_view table.now)) }
    ensures faultless { IfOk result (λ _. flags_fault (table_view table.now) ≡ None) }
    ensures refused { IfErr result (TellsKey (table_view table.now) (flags_fault (table_view table.now))) }
{
    let receipts = flag_at(alloc, table, "receipts")?;
    let long_reference = flag_at(alloc, table, "long_reference")?;
    let follow = flag_at(alloc, table, "follow")?;
    Ok(Flags {
        receipts,
        long_reference,
        follow,
    })
}

/// The files that are read.
fn files_at(alloc: Global, table: &Table) -> Result<FileNames, InputFault>
    ensures says { IfOk result (SaysFiles (table_view table.now)) }
    ensures faultless { IfOk result (λ _. files_fault (table_view table.now) ≡ None) }
    ensures refused { IfErr result (TellsKey (table_view table.now) (files_fault (table_view table.now))) }
{
    let accounts = text_at(alloc, table, "accounts", "accounts.csv")?;
    let messages = text_at(alloc, table, "messages", "messages.csv")?;
    let tariff = text_at(alloc, table, "tariff", "")?;
    Ok(FileNames {
        accounts,
        messages,
        tariff,
    })
}

/// What the test centre answers.
fn script_at(alloc: Global, table: &Table) -> Result<Answers, InputFault>
    ensures says { IfOk result (SaysAnswers (table_view table.now)) }
    ensures faultless { IfOk result (λ _. script_fault (table_view table.now) ≡ None) }
    ensures refused { IfErr result (TellsKey (table_view table.now) (script_fault (table_view table.now))) }
{
    let bind_status = number_at(alloc, table, "bind_status", 0, 0, u32::MAX)?;
    let texts = answers_at(alloc, table)?;
    Ok(Answers { bind_status, texts })
}

/// The keys that a config may have.
const KEYS: [&str; 21] = [
    "host",
    "port",
    "system_id",
    "password",
    "system_type",
    "mode",
    "binds",
    "workers",
    "window",
    "depth",
    "attempts",
    "base_ms",
    "answer_ms",
    "receipts",
    "long_reference",
    "follow",
    "accounts",
    "messages",
    "tariff",
    "bind_status",
    "answers",
];

/// Whether the key is one of these.
pub(crate) fn is_one_of(key: &str, names: &[&str]) -> bool
    ensures { result ≡ is_among key.now (map (λ name. name.now) names.now) }
{
    for name in names {
        if key == *name {
            return true;
        }
    }
    false
}

/// Whether a config may have this key.
fn is_known(key: &str) -> bool
    ensures { result ≡ is_among key.now known_keys }
{
    is_one_of(key, &KEYS)
}

/// Refuses the least unknown key; a table's keys ascend.
#[tactic(auto, using(crate::proofs::Keys::unknown_first))]
fn check_keys(alloc: Global, table: &Table) -> Result<(), InputFault>
    ensures known { IfOk result (λ _. unknown_key_of (table_view table.now) ≡ None) }
    ensures refused { IfErr result (TellsKey (table_view table.now) (unknown_key_of (table_view table.now))) }
{
    for key in table.keys() {
        if !is_known(key.as_str()) {
            return Err(bad_key(alloc, table, key.as_str()));
        }
    }
    Ok(())
}

/// What a table says. The first key whose value is of another type or out of range is refused, in the order of the
/// fields of `Config` and of its parts; then the least unknown key.
pub fn config_in(alloc: Global, table: &Table) -> Result<Config, InputFault>
    ensures says { IfOk result (SaysConfig (table_view table.now)) }
    ensures no_fields { IfOk result (λ config. HasNoFields config.fields) }
    ensures faultless { IfOk result (λ _. faulty_key (table_view table.now) ≡ None) }
    ensures refused { IfErr result (TellsKey (table_view table.now) (faulty_key (table_view table.now))) }
{
    let connection = connection_at(alloc, table)?;
    let limits = limits_at(alloc, table)?;
    let retry = retry_at(alloc, table)?;
    let flags = flags_at(alloc, table)?;
    let files = files_at(alloc, table)?;
    let answers = script_at(alloc, table)?;
    check_keys(alloc, table)?;
    Ok(Config {
        connection,
        limits,
        retry,
        flags,
        files,
        answers,
        fields: Fields::none(alloc),
    })
}

/// The table that the octets of a config spell; `NotToml` where they are no TOML in UTF-8.
pub fn table_of(alloc: Global, octets: &[u8]) -> Result<Table, InputFault>
    ensures table { IfOk result (λ table. toml_of octets.now ≡ Some (table_view table)) }
    ensures refused { IfErr result (TellsToml octets.now) }
{
    let text = match str::from_utf8(octets) {
        Ok(text) => text,
        Err(error) => {
            let why = TomlFlaw::not_utf8(octets, error.valid_up_to());
            return Err(InputFault::NotToml(why));
        }
    };
    match toml::table_from_str(alloc, text) {
        Ok(table) => Ok(table),
        Err(error) if error.is_memory() => Err(InputFault::OutOfMemory(toml_refusal(&error))),
        Err(error) => Err(InputFault::NotToml(TomlFlaw::of(octets, error))),
    }
}

/// What the octets of a config say: `table_of`, and then `config_in`.
pub fn config_of(alloc: Global, octets: &[u8]) -> Result<Config, InputFault>
    ensures config { IfOk result (IsConfig octets.now) }
    ensures no_fields { IfOk result (λ config. HasNoFields config.fields) }
    ensures refused { IfErr result (TellsConfig octets.now) }
{
    let table = table_of(alloc, octets)?;
    config_in(alloc, &table)
}
