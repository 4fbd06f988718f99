//! What stands before the journal of a run of a ledger.

ghost use Rattle.std.specs.Prelude.{◌≡◌, ◌++◌, IfOk, IfSome, OnOk, string_bytes, true};
ghost use Rattle.std.specs.Bool.{Decides};
ghost use Rattle.sms_ledger.specs.Lines.{IsU64};
ghost use Rattle.sms_journal.specs.OfLedger.{BeginsSo, IsCutLine, run_head as text_of_head, run_line};
ghost use Rattle.sms_journal.specs.RunHeads.{IsReadRun, run_said, size_said};

use crate::text::{behind, cut, feed_at, u64_in};
use sms_files::memory::{self, NoMemory};
use sms_ledger::Run;
use std::alloc::Global;

/// What the first line begins with.
const FRONT: &str = "run,1,";

/// The journal of a run of a ledger, behind its head.
#[derive(Drop)]
pub struct RunHead<'a> {
    /// The run's name in the ledger.
    pub run: Run,
    /// Its accounts file: what it takes of each account.
    pub accounts: &'a [u8],
    /// Its journal.
    pub journal: &'a [u8],
}

/// What octets are as those of a run's journal.
#[derive(Drop)]
pub enum RunText<'a> {
    /// The journal of a run of a ledger.
    Whole(RunHead<'a>),
    /// A truncated head of one: the run ended before it took anything.
    Cut,
    /// Neither.
    Other,
}

/// Writes the first line.
fn write_run_line(text: &mut String, run: &Run, size: u64) -> Result<(), NoMemory>
    ensures { OnOk result (string_bytes text.new ≡ string_bytes text.old ++ run_line run.now size) }
{
    memory::append(text, FRONT)?;
    memory::append(text, run.as_str())?;
    memory::append_number(text, ",", size)?;
    memory::append(text, "\n")
}

/// What stands before the journal of a run with this name and these accounts.
pub fn run_head(alloc: Global, run: &Run, accounts: &[u8]) -> Result<Vec<u8>, NoMemory>
    ensures { IfOk result (λ head. head.items ≡ text_of_head run.now accounts.now) }
{
    let mut line = String::new(alloc);
    write_run_line(&mut line, run, accounts.len() as u64)?;
    let mut head = Vec::new(alloc);
    memory::append_octets(&mut head, line.as_bytes())?;
    memory::append_octets(&mut head, accounts)?;
    Ok(head)
}

/// The name that a first line says behind its first two fields.
fn run_in(alloc: Global, text: &[u8]) -> Result<Option<Run>, NoMemory>
    ensures { IfOk result (λ run. run ≡ run_said text.now) }
{
    let (_word, rest) = cut(text);
    let (_version, rest) = cut(rest);
    let (run, _rest) = cut(rest);
    Run::read(alloc, run)
}

/// The number that it says behind the name.
fn size_in(text: &[u8]) -> Option<u64>
    ensures size { result ≡ size_said text.now }
    ensures small { IfSome result IsU64 }
{
    let (_word, rest) = cut(text);
    let (_version, rest) = cut(rest);
    let (_run, rest) = cut(rest);
    let (size, _rest) = cut(rest);
    u64_in(size)
}

/// Whether a text begins with another.
fn begins_with(text: &[u8], front: &[u8]) -> bool
    ensures { Decides result (BeginsSo front.now text.now) }
{
    text.starts_with(front)
}

/// Whether a text is less than a first line, and begins so.
fn is_cut_line(text: &[u8]) -> bool
    ensures { Decides result (IsCutLine text.now) }
{
    if feed_at(text).is_some() {
        return false;
    }
    begins_with(text, FRONT.as_bytes()) || begins_with(FRONT.as_bytes(), text)
}

/// What stands behind the first line of a run, by its name and the size of its accounts.
fn parted<'a>(run: Run, size: u64, rest: &'a [u8]) -> RunText<'a>
    ensures { IsReadRun (run_line run size ++ rest.now) result }
{
    if (rest.len() as u64) < size {
        return RunText::Cut;
    }
    let (accounts, journal) = rest.split_at(size as usize);
    RunText::Whole(RunHead {
        run,
        accounts,
        journal,
    })
}

/// What these octets are as those of a run's journal. What was read of the first line is written again and compared.
pub fn run_text<'a>(alloc: Global, text: &'a [u8]) -> Result<RunText<'a>, NoMemory>
    ensures { IfOk result (IsReadRun text.now) }
{
    if is_cut_line(text) {
        return Ok(RunText::Cut);
    }
    let Some(size) = size_in(text) else {
        return Ok(RunText::Other);
    };
    let Some(run) = run_in(alloc, text)? else {
        return Ok(RunText::Other);
    };
    let mut line = String::new(alloc);
    write_run_line(&mut line, &run, size)?;
    match behind(text, line.as_bytes()) {
        Some(rest) => Ok(parted(run, size, rest)),
        None => Ok(RunText::Other),
    }
}
