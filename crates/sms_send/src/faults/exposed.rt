//! A config with a password that others can read.

ghost use Rattle.std.specs.Prelude.{◌≡◌, IfErr, IfOk, codes, option_and_then, option_map, string_bytes};
ghost use Rattle.toml.specs.Data.{as_str, get_member};
ghost use Rattle.toml.specs.View.{table_view};
ghost use Rattle.sms_driver.specs.declared.start.StartPhase.TheVariants.{Idle};
ghost use Rattle.sms_files.specs.ConfigFaults.{IsConfig, TellsConfig};
ghost use Rattle.sms_send.specs.ConfigFiles.{FailsReadingConfig, IsConfigFile};
ghost use Rattle.sms_send.specs.Exposed.{IsReadable, is_some_text as is_text, says_password, warning_for};
ghost use Rattle.sms_send.specs.Faults.{ComesAt};

use crate::faults::details::mode::is_open_to_others;
use crate::faults::fault::Fault;
use crate::files::config_file::ConfigFile;
use crate::files::opened::{InputFiles, octets_of};
use crate::terminal::standard_error::write_beside;
use sms_devices::Screen;
use sms_files::{Config, InputFault, config_in, table_of};
use std::fs;
use std::io::Eprint;
use std::os::unix::fs::PermissionsExt;
use std::thread::Threads;
use std::time::Clock;
use toml::Table;

/// The warning of such a config.
const EXPOSED: &str = "warning: others can read the config, which has a password\n";

/// The text at the key `password` of a config.
fn password_in(table: &Table) -> Option<&str>
    ensures { option_map (λ text. text.now) result ≡ option_and_then as_str (get_member (codes "password") (table_view table.now)) }
{
    match table.get("password") {
        None => None,
        Some(value) => value.as_str(),
    }
}

/// Whether a text is there and isn't empty.
fn is_some_text(text: Option<&str>) -> bool
    ensures { result ≡ is_text (option_map (λ text. text.now) text.entry) }
{
    match text {
        None => false,
        Some(text) => !text.is_empty(),
    }
}

/// Whether the table of a config has a password that isn't empty.
fn has_password(table: &Table) -> bool
    ensures { result ≡ says_password (table_view table.now) }
{
    is_some_text(password_in(table))
}

/// Who knows the modes of files.
pub trait FileModes {
    ghost use Rattle.std.specs.Prelude.{ℕ, List, Option, ⊤};

    // Which mode the file of a name may have; none where it can't be had.
    ghost is_mode: { Self → List ℕ → Option ℕ → Type 0 } = { λ _ _ _. ⊤ };

    /// The mode of the file of this name, where it can be had.
    fn mode_of(&self, name: &str) -> Option<u32>
        ensures { is_mode self.now name.now result };
}

impl FileModes for HostRuntime {
    fn mode_of(&self, name: &str) -> Option<u32> {
        match fs::metadata(self, name) {
            Ok(metadata) => Some(metadata.permissions().mode()),
            Err(_unknown) => None,
        }
    }
}

/// Whether others can read the file of this name, as far as its mode can be had.
pub fn is_readable_by_others<R: FileModes>(rt: &R, name: &str) -> bool
    ensures { IsReadable (R.is_mode rt.now) name.now result }
{
    match rt.mode_of(name) {
        Some(mode) => is_open_to_others(mode),
        None => false,
    }
}

/// The warning of a config that others can read and that has a password; else nothing.
fn warning_of(is_open: bool, table: &Table) -> &'static str
    ensures { result.now ≡ warning_for is_open (table_view table.now) }
{
    if is_open && has_password(table) {
        EXPOSED
    } else {
        ""
    }
}

/// Warns on standard error where others can read a password in a config of these octets, and gives what they say. A
/// config that is faulty elsewhere is warned of too.
fn parse_warned<R: AllocGlobal + Threads + Clock + Eprint + Screen>(
    rt: &R,
    octets: &[u8],
    is_open: bool,
) -> Result<Config, InputFault>
    ensures config { IfOk result (IsConfig octets.now) }
    ensures refused { IfErr result (TellsConfig octets.now) }
{
    let table = table_of(rt.alloc(), octets)?;
    let warning = warning_of(is_open, &table);
    if !warning.is_empty() {
        write_beside(rt, &warning);
    }
    config_in(rt.alloc(), &table)
}

/// Reads the config of this name. Where details are wanted, standard error is warned if others can read a password there.
pub fn read_warned<R: AllocGlobal + FileModes + InputFiles + Threads + Clock + Eprint + Screen>(
    rt: &R,
    name: String,
    at_length: bool,
) -> Result<ConfigFile, Fault>
    ensures read { IfOk result (IsConfigFile (R.finds rt.now) (string_bytes name)) }
    ensures refused { IfErr result (FailsReadingConfig (R.finds rt.now) name) }
    // The fault comes before a worker is started.
    ensures early { IfErr result (ComesAt Idle) }
{
    let is_open = at_length && is_readable_by_others(rt, name.as_str());
    let octets = match octets_of(rt, name) {
        Ok(octets) => octets,
        Err(fault) => return Err(fault),
    };
    match parse_warned(rt, octets.as_slice(), is_open) {
        Ok(config) => Ok(ConfigFile { octets, config }),
        Err(fault) => Err(Fault::from(fault)),
    }
}
