//! The files of a run of a ledger: its accounts stand before its journal, and the config's accounts file isn't read.

ghost use Rattle.std.specs.Prelude.{◌≡◌, IfErr, IfOk, MatchOption, option_map};
ghost use Rattle.sms_files.specs.declared.fault.Source.TheVariants.{Tariff};
ghost use Rattle.sms_journal.specs.OfLedger.{IsRunText};
ghost use Rattle.sms_send.specs.Headed.{FailsMessages, FailsOne, HasMessages, HaveParts, IsNoWholeRun, IsTariffNamed, IsUnopened};
ghost use Rattle.sms_send.specs.Opened.{OfFile};
ghost use Rattle.sms_send.specs.declared.faults.fault.Fault.TheVariants.{OutOfMemory};

use crate::faults::fault::Fault;
use crate::files::named_files::{NamedFiles, whole_of};
use crate::files::opened::InputFiles;
use sms_files::memory::{self, NoMemory};
use sms_files::{FileNames, Source};
use sms_journal::of_ledger::{RunHead, RunText, run_text};
use sms_ledger::Run;
use std::alloc::Global;
use std::io::ErrorKind;

/// The parts of the journal of a run of a ledger.
#[derive(Drop)]
pub struct RunParts {
    /// Its name in the ledger.
    pub run: Run,
    /// Its accounts file.
    pub accounts: Vec<u8>,
    /// Its journal.
    pub journal: Vec<u8>,
    /// How many octets stand before the journal.
    pub before: usize,
}

/// A copy of octets.
fn copy_of(alloc: Global, octets: &[u8]) -> Result<Vec<u8>, NoMemory>
    ensures { IfOk result (λ copy. copy.items ≡ octets.now) }
{
    let mut copy = Vec::new(alloc);
    memory::append_octets(&mut copy, octets)?;
    Ok(copy)
}

/// The parts of the octets of a file behind its head.
fn parts_of(alloc: Global, text: &[u8], head: RunHead<'_>) -> Result<RunParts, NoMemory>
    requires { IsRunText head.run head.accounts.now head.journal.now text.now }
    ensures { IfOk result (HaveParts text.now) }
{
    let RunHead {
        run,
        accounts,
        journal,
    } = head;
    let before = text.len().saturating_sub(journal.len());
    let accounts = copy_of(alloc, accounts)?;
    let journal = copy_of(alloc, journal)?;
    Ok(RunParts {
        run,
        accounts,
        journal,
        before,
    })
}

/// The parts of these octets, if they are the journal of a run of a ledger.
pub fn run_parts(alloc: Global, text: &[u8]) -> Result<Option<RunParts>, Fault>
    ensures parts { IfOk result (λ parts. MatchOption parts (IsNoWholeRun text.now) (HaveParts text.now)) }
    ensures memory { IfErr result (λ fault. fault ≡ OutOfMemory) }
{
    match run_text(alloc, text) {
        Ok(RunText::Whole(head)) => match parts_of(alloc, text, head) {
            Ok(parts) => Ok(Some(parts)),
            Err(_memory) => Err(Fault::OutOfMemory),
        },
        Ok(RunText::Cut | RunText::Other) => Ok(None),
        Err(_memory) => Err(Fault::OutOfMemory),
    }
}

/// The fault of the file of this name that can't be opened.
fn unopened<R: AllocGlobal>(rt: &R, name: &str, kind: ErrorKind) -> Fault
    ensures { IsUnopened name.now kind result }
{
    match String::from_str(rt.alloc(), name) {
        Ok(name) => Fault::File(name, kind),
        Err(_memory) => Fault::OutOfMemory,
    }
}

/// The octets of the file of this name.
fn octets_in<R: AllocGlobal + InputFiles>(
    rt: &R,
    name: &str,
    source: Source,
) -> Result<Vec<u8>, Fault>
    ensures octets { IfOk result (λ octets. OfFile (R.finds rt.now) name.now (λ bytes. octets.items ≡ bytes)) }
    ensures refused { IfErr result (FailsOne (R.finds rt.now) name.now source) }
{
    match rt.open_input(name) {
        Ok(file) => whole_of(rt.alloc(), file, source),
        Err(error) => Err(unopened(rt, name, error.kind())),
    }
}

/// The octets of the tariff, where the config names one.
fn tariff_in<R: AllocGlobal + InputFiles>(rt: &R, name: &str) -> Result<Option<Vec<u8>>, Fault>
    ensures octets { IfOk result (λ tariff. IsTariffNamed (R.finds rt.now) name.now (option_map (λ octets. octets.items) tariff)) }
    ensures refused { IfErr result (FailsOne (R.finds rt.now) name.now Tariff) }
{
    if name.is_empty() {
        return Ok(None);
    }
    match octets_in(rt, name, Source::Tariff) {
        Ok(octets) => Ok(Some(octets)),
        Err(fault) => Err(fault),
    }
}

/// These accounts, and the octets of the messages and the tariff that a config names.
pub fn files_with<R: AllocGlobal + InputFiles>(
    rt: &R,
    names: &FileNames,
    accounts: Vec<u8>,
) -> Result<NamedFiles, Fault>
    ensures accounts { IfOk result (λ files. files.accounts ≡ accounts) }
    ensures files { IfOk result (HasMessages (R.finds rt.now) names.now) }
    ensures refused { IfErr result (FailsMessages (R.finds rt.now) names.now) }
{
    let messages = match octets_in(rt, names.messages.as_str(), Source::Messages) {
        Ok(messages) => messages,
        Err(fault) => {
            drop(accounts);
            return Err(fault);
        }
    };
    match tariff_in(rt, names.tariff.as_str()) {
        Ok(tariff) => Ok(NamedFiles {
            accounts,
            messages,
            tariff,
        }),
        Err(fault) => {
            drop(accounts);
            drop(messages);
            Err(fault)
        }
    }
}
