//! What is listed of a run, by its files and its journal.

ghost use Rattle.std.specs.Prelude.{◌≡◌, ◌≢◌, IfErr, IfOk, OnOk, option_copied, string_bytes};
ghost use Rattle.sms_journal.specs.Faults.{output_failed};
ghost use Rattle.sms_journal.specs.declared.text.header.JournalKind.TheVariants.{Run};
ghost use Rattle.sms_journal.specs.Listings.{AreTimedBehind, IsFaultBehind, IsFaultOfListing, IsFaultOfPrinting, IsFaultOfRunListing, IsListed, ListsRun, PrintsListing};

use crate::bill::lines::{TimedNotes, behind_first, read_timed};
use crate::bill::listing::Columns;
use crate::bill::printing::listing_text;
use crate::error::JournalError;
use crate::recovery::{JournaledRun, RecoveryFault, read_run};
use crate::text::JournalKind;
use sms_files::write_out;
use std::alloc::Global;
use std::io::Write;
use std::thread::Threads;

/// The notes behind a journal's first line, and their times.
fn timed_notes(alloc: Global, journal: &[u8]) -> Result<TimedNotes, RecoveryFault>
    ensures timed { IfOk result (λ read. AreTimedBehind journal.now read.times.items read.notes.items) }
    ensures refused { IfErr result (IsFaultBehind journal.now) }
{
    match read_timed(alloc, behind_first(journal)) {
        Ok(read) => Ok(read),
        Err(error) => match error {
            JournalError::BadRecord(record) => Err(RecoveryFault::Journal(record)),
            JournalError::OutOfMemory(refused) => Err(RecoveryFault::OutOfMemory(refused)),
            _ => unreachable!(),
        },
    }
}

/// What is listed of this run, which is no trial, by its journal.
fn listed_run(
    alloc: Global,
    run: &JournaledRun,
    journal: &[u8],
    listing: Columns<'_>,
) -> Result<String, RecoveryFault>
    requires { run.now.kind ≡ Run }
    ensures listed { IfOk result (λ text. IsListed run.now journal.now listing.entry (string_bytes text)) }
    ensures refused { IfErr result (IsFaultBehind journal.now) }
{
    let read = match timed_notes(alloc, journal) {
        Ok(read) => read,
        Err(fault) => return Err(fault),
    };
    match listing_text(
        alloc,
        listing,
        run.openings.as_slice(),
        run.messages.as_slice(),
        run.ends.as_slice(),
        read.times.as_slice(),
        read.notes.as_slice(),
    ) {
        Ok(text) => Ok(text),
        Err(refused) => Err(RecoveryFault::OutOfMemory(refused)),
    }
}

/// What is listed of this run, by its journal. A trial is refused.
fn listed(
    alloc: Global,
    run: &JournaledRun,
    journal: &[u8],
    listing: Columns<'_>,
) -> Result<String, RecoveryFault>
    ensures listed { IfOk result (λ text. IsListed run.now journal.now listing.entry (string_bytes text)) }
    ensures refused { IfErr result (IsFaultOfListing run.now journal.now) }
{
    match run.kind {
        JournalKind::Run => listed_run(alloc, run, journal, listing),
        JournalKind::Trial => Err(RecoveryFault::Trial),
    }
}

/// Prints what is listed of this run.
fn print_listed<W: Write>(
    alloc: Global,
    run: &JournaledRun,
    journal: &[u8],
    listing: Columns<'_>,
    output: &mut W,
) -> Result<(), RecoveryFault>
    ensures printed { OnOk result (PrintsListing run.now journal.now listing.entry (W.contents output.old) (W.contents output.new)) }
    ensures refused { IfErr result (IsFaultOfPrinting run.now journal.now listing.entry (W.contents output.old) (W.contents output.new)) }
    ensures quiet { IfErr result (λ fault. fault ≢ output_failed → output.new ≡ output.old) }
{
    match listed(alloc, run, journal, listing) {
        Ok(text) => match write_out(output, text.as_bytes()) {
            Ok(()) => Ok(()),
            Err(fault) => Err(RecoveryFault::from(fault)),
        },
        Err(fault) => Err(fault),
    }
}

/// Prints the bill of a run of these files, or its parts in doubt, by its journal, over all its rounds, as if
/// every connection had dropped just after the last complete record. The text is formed whole before its first
/// octet is written. The journal of a trial is refused.
pub fn run_listing<R: AllocGlobal + Threads, W: Write>(
    rt: &R,
    config: &[u8],
    accounts: &[u8],
    messages: &[u8],
    tariff: Option<&[u8]>,
    journal: &[u8],
    listing: Columns<'_>,
    output: &mut W,
) -> Result<(), RecoveryFault>
    ensures printed { OnOk result (ListsRun config.now accounts.now messages.now (option_copied tariff.entry) journal.now listing.entry (W.contents output.old) (W.contents output.new)) }
    ensures refused { IfErr result (IsFaultOfRunListing config.now accounts.now messages.now (option_copied tariff.entry) journal.now listing.entry (W.contents output.old) (W.contents output.new)) }
    ensures quiet { IfErr result (λ fault. fault ≢ output_failed → output.new ≡ output.old) }
{
    let found = match read_run(rt, config, accounts, messages, tariff, journal, false) {
        Ok(found) => found,
        Err(fault) => return Err(fault),
    };
    let printed = print_listed(rt.alloc(), &found, journal, listing, output);
    drop(found);
    printed
}
