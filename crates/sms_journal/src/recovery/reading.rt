//! A run's files and its journal, read beside each other.

ghost use Rattle.std.specs.Prelude.{◌≡◌, IfErr, IfOk, option_copied};
ghost use Rattle.sms_journal.specs.Ahead.{IsReadAhead, tariff_by};
ghost use Rattle.sms_journal.specs.Digests.{digests_of as of_files};
ghost use Rattle.sms_journal.specs.Files.{Reads, IsFaultOfFiles};
ghost use Rattle.sms_journal.specs.Recovering.{ties_in};

use crate::recovery::fault::RecoveryFault;
use crate::recovery::files::input_of;
use crate::text::{Digests, FileTies, LinesRead, digests_of, keys_of, read_ahead};
use sms_files::Input;
use sms_files::memory::NoMemory;
use std::alloc::Global;
use std::thread;
use std::thread::Threads;

/// What was read of a run: its input, what its journal may be tied to, and its journal, whatever files that is of.
#[derive(Drop)]
pub(crate) struct RunRead {
    pub(crate) input: Input,
    pub(crate) files: FileTies,
    pub(crate) ahead: Result<Option<LinesRead>, NoMemory>,
}

/// Whether there is a tariff, and its octets: a closure's clauses reach those who call it where it captures numbers and
/// references alone.
fn parts_of(tariff: Option<&[u8]>) -> (bool, &[u8])
    ensures { option_copied tariff.entry ≡ tariff_by result.0 result.1.now }
{
    match tariff {
        Some(octets) => (true, octets),
        None => (false, b"".as_slice()),
    }
}

/// The tariff of these octets, where there is one.
fn tariff_of(given: bool, octets: &[u8]) -> Option<&[u8]>
    ensures { option_copied result ≡ tariff_by given octets.now }
{
    if given { Some(octets) } else { None }
}

/// What the octets of a run's files and of its journal say. The journal is read in a thread of its own.
fn read_octets<R: Threads>(
    rt: &R,
    alloc: Global,
    config: &[u8],
    accounts: &[u8],
    messages: &[u8],
    given: bool,
    tariff: &[u8],
    journal: &[u8],
) -> (
    Result<Option<LinesRead>, NoMemory>,
    Result<Input, RecoveryFault>,
)
    ensures ahead { IfOk result.0 (IsReadAhead journal.now) }
    ensures read { IfOk result.1 (Reads config.now accounts.now messages.now (tariff_by given tariff.now)) }
    ensures refused { IfErr result.1 (IsFaultOfFiles config.now accounts.now messages.now (tariff_by given tariff.now)) }
{
    thread::join(
        rt,
        || -> Result<Option<LinesRead>, NoMemory>
            ensures { IfOk result (IsReadAhead journal.entry.now) }
        { read_ahead(alloc, journal) },
        || -> Result<Input, RecoveryFault>
            ensures read { IfOk result (Reads config.entry.now accounts.entry.now messages.entry.now (tariff_by given tariff.entry.now)) }
            ensures refused { IfErr result (IsFaultOfFiles config.entry.now accounts.entry.now messages.entry.now (tariff_by given tariff.entry.now)) }
        { input_of(alloc, config, accounts, messages, tariff_of(given, tariff)) },
    )
}

/// Reads a run's files and its journal from their octets. Their digests are made in a thread of their own, and the journal
/// is read in another, since each takes as long as the files.
pub(crate) fn read_beside<R: Threads>(
    rt: &R,
    alloc: Global,
    config: &[u8],
    accounts: &[u8],
    messages: &[u8],
    tariff: Option<&[u8]>,
    journal: &[u8],
) -> Result<RunRead, RecoveryFault>
    ensures read { IfOk result (λ run. Reads config.now accounts.now messages.now (option_copied tariff.entry) run.input) }
    ensures ties { IfOk result (λ run. run.files ≡ ties_in config.now accounts.now messages.now (option_copied tariff.entry) run.input) }
    ensures ahead { IfOk result (λ run. IfOk run.ahead (IsReadAhead journal.now)) }
    ensures refused { IfErr result (IsFaultOfFiles config.now accounts.now messages.now (option_copied tariff.entry)) }
{
    let (given, octets) = parts_of(tariff);
    let (digests, (ahead, input)) = thread::join(
        rt,
        || -> Digests
            ensures { result ≡ of_files config.entry.now accounts.entry.now messages.entry.now (tariff_by given octets.entry.now) }
        { digests_of(config, accounts, messages, tariff_of(given, octets)) },
        || -> (
            Result<Option<LinesRead>, NoMemory>,
            Result<Input, RecoveryFault>,
        )
            ensures ahead { IfOk result.0 (IsReadAhead journal.entry.now) }
            ensures read { IfOk result.1 (Reads config.entry.now accounts.entry.now messages.entry.now (tariff_by given octets.entry.now)) }
            ensures refused { IfErr result.1 (IsFaultOfFiles config.entry.now accounts.entry.now messages.entry.now (tariff_by given octets.entry.now)) }
        {
            read_octets(
                rt, alloc, config, accounts, messages, given, octets, journal,
            )
        },
    );
    match input {
        Ok(input) => {
            let files = FileTies {
                digests,
                keys: keys_of(input.config()),
            };
            Ok(RunRead {
                input,
                files,
                ahead,
            })
        }
        Err(fault) => {
            drop(ahead);
            Err(fault)
        }
    }
}
