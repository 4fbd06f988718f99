//! Which files a quote reads, by their full names: a config names them relative to the folder in which
//! the program is started.

ghost use Rattle.std.specs.Prelude.{◌≡◌, None, Some, IfErr, IfOk, option_map, string_bytes, if◌then◌else◌};
ghost use Rattle.sms_send.specs.FilesRead.{file_lines};
ghost use Rattle.sms_send.specs.Words.{bytes_of};
ghost use Rattle.sms_send.specs.FullNames.{IsFullIfNamed, AreFileLines, AreLinesIfKept};
ghost use Rattle.sms_send.specs.declared.faults.fault.Fault.TheVariants.{OutOfMemory};

use crate::faults::details::files_read::FilesRead;
use crate::faults::fault::Fault;
use sms_files::FileNames;
use std::alloc::{AllocError, Global};
use std::rt::Files;

/// Who knows the full names of files.
pub trait FullNames {
    ghost use Rattle.std.specs.Prelude.{ℕ, List, IfOk, string_bytes, ⊤};

    // What may be the full name of the file of a name.
    ghost is_full: { Self → List ℕ → List ℕ → Type 0 } = { λ _ _ _. ⊤ };

    /// The full name of the file of this name, from the root and without links. Where it can't be had it
    /// is the name as it was given.
    fn full_name(&self, alloc: Global, name: &str) -> Result<String, AllocError>
        ensures { IfOk result (λ full. is_full self.now name.now (string_bytes full)) };
}

impl FullNames for HostRuntime {
    fn full_name(&self, alloc: Global, name: &str) -> Result<String, AllocError> {
        match self.canonicalize(alloc, name) {
            Ok(full) => Ok(full.into_string()),
            Err(_unknown) => String::from_str(alloc, name),
        }
    }
}

/// The full name of the file of this name; none where the name is empty.
fn full_if_named<N: FullNames>(
    alloc: Global,
    known: &N,
    name: &str,
) -> Result<Option<String>, AllocError>
    ensures { IfOk result (λ full. IsFullIfNamed (N.is_full known.now) name.now (bytes_of full)) }
{
    if name.is_empty() {
        return Ok(None);
    }
    match known.full_name(alloc, name) {
        Ok(full) => Ok(Some(full)),
        Err(error) => Err(error),
    }
}

/// The lines of files of these names.
fn lines_of(
    alloc: Global,
    config: &str,
    accounts: &str,
    messages: &str,
    tariff: &Option<String>,
) -> Result<String, AllocError>
    ensures { IfOk result (λ lines. string_bytes lines ≡ file_lines config.now accounts.now messages.now (bytes_of tariff.now)) }
{
    let files = FilesRead {
        config,
        accounts,
        messages,
        tariff: match tariff {
            Some(name) => Some(name.as_str()),
            None => None,
        },
    };
    files.to_string(alloc)
}

/// The lines of the config of this name and of the files that it names, by their full names.
pub fn files_told<N: FullNames>(
    alloc: Global,
    known: &N,
    config: &str,
    names: &FileNames,
) -> Result<String, AllocError>
    ensures { IfOk result (λ lines. AreFileLines (N.is_full known.now) config.now names.now (string_bytes lines)) }
{
    let config = known.full_name(alloc, config)?;
    let accounts = known.full_name(alloc, names.accounts.as_str())?;
    let messages = known.full_name(alloc, names.messages.as_str())?;
    let tariff = full_if_named(alloc, known, names.tariff.as_str())?;
    lines_of(
        alloc,
        config.as_str(),
        accounts.as_str(),
        messages.as_str(),
        &tariff,
    )
}

/// The name of a config, which is kept where details are wanted.
pub fn name_at(alloc: Global, config: &str, at_length: bool) -> Result<Option<String>, Fault>
    ensures kept { IfOk result (λ kept. bytes_of kept ≡ (if at_length then Some config.now else None)) }
    ensures refused { IfErr result (λ fault. fault ≡ OutOfMemory) }
{
    if !at_length {
        return Ok(None);
    }
    match String::from_str(alloc, config) {
        Ok(name) => Ok(Some(name)),
        Err(_) => Err(Fault::OutOfMemory),
    }
}

/// The lines of the config of this name and of the files that it names; empty where the name isn't kept.
pub fn lines_at<N: FullNames>(
    alloc: Global,
    known: &N,
    config: &Option<String>,
    names: &FileNames,
) -> Result<String, Fault>
    ensures told { IfOk result (λ lines. AreLinesIfKept (N.is_full known.now) (bytes_of config.now) names.now (string_bytes lines)) }
    ensures refused { IfErr result (λ fault. fault ≡ OutOfMemory) }
{
    let Some(config) = config else {
        return Ok(String::new(alloc));
    };
    match files_told(alloc, known, config.as_str(), names) {
        Ok(lines) => Ok(lines),
        Err(_) => Err(Fault::OutOfMemory),
    }
}
