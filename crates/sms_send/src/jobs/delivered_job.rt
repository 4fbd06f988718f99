//! The job of `delivered`: what became of each part that a run charged, by the receipts in its inbox.

ghost use Rattle.std.specs.Prelude.{◌≡◌, ◌≢◌, ◌⊎◌, IfErr, IfOk, OnOk, string_bytes};
ghost use Rattle.std.specs.Io.KnownBytes.{Appends};
ghost use Rattle.sms_files.specs.Output.{WritesFront};
ghost use Rattle.sms_inbox.specs.Lines.{Spells};
ghost use Rattle.sms_send.specs.Delivered.{DeliversBy, FailsDeliverFree, FailsDelivered, FailsInbox, FailsRunAt, IsRunAt, printed};
ghost use Rattle.sms_send.specs.Faults.{output_failed};
ghost use Rattle.sms_send.specs.Opened.{OfFile};
ghost use Rattle.sms_send.specs.PlainFiles.{sees};
ghost use Rattle.sms_send.specs.declared.faults.fault.Fault.TheVariants.{OutOfMemory};

use crate::args::delivered_args::DeliveredArgs;
use crate::faults::context::JobContext;
use crate::faults::fault::Fault;
use crate::files::inbox_file::records_of;
use crate::files::opened::{InputFiles, octets_of};
use crate::files::plain_files::PlainFiles;
use crate::files::run_files::read_run;
use crate::jobs::charged::printed_text;
use crate::jobs::ledger_job::print;
use crate::jobs::resume_job::journaled;
use sms_devices::JournalFiles;
use sms_inbox::{Ids, Record};
use sms_journal::JournaledRun;
use std::alloc::Global;
use std::io::Write;
use std::thread::Threads;

/// What the journal of this name says of the run of a config, whose messages have references or not.
fn run_at<R: AllocGlobal + InputFiles + Threads>(
    rt: &R,
    context: &mut JobContext,
    config: String,
    journal: String,
    refs: bool,
) -> Result<JournaledRun, Fault>
    ensures read { IfOk result (IsRunAt (sees refs (R.finds rt.now)) (string_bytes config) (string_bytes journal)) }
    ensures refused { IfErr result (FailsRunAt (sees refs (R.finds rt.now)) config journal) }
{
    let seen = PlainFiles { rt, refs };
    let name = match String::from_str(rt.alloc(), config.as_str()) {
        Ok(name) => name,
        Err(_refused) => return Err(Fault::OutOfMemory),
    };
    match read_run(&seen, context, config, journal) {
        Ok(files) => journaled(rt, name.as_str(), &files, false),
        Err(fault) => Err(fault),
    }
}

/// The records of the inbox of this name.
fn records_at<R: AllocGlobal + InputFiles>(rt: &R, inbox: String) -> Result<Vec<Record>, Fault>
    ensures read { IfOk result (λ records. OfFile (R.finds rt.now) (string_bytes inbox) (λ octets. Spells octets records.items)) }
    ensures refused { IfErr result (FailsInbox (R.finds rt.now) inbox) }
{
    match octets_of(rt, inbox) {
        Ok(octets) => records_of(rt.alloc(), octets.as_slice()),
        Err(fault) => Err(fault),
    }
}

/// Prints what became of the parts that a run charged, by these records.
fn print_parts<W: Write>(
    alloc: Global,
    ids: Ids,
    run: &JournaledRun,
    records: &[Record],
    output: &mut W,
) -> Result<u8, Fault>
    ensures status { IfOk result (λ status. status ≡ 0) }
    ensures printed { OnOk result (Appends (W.contents output.old) (W.contents output.new) (printed ids records.now run.now)) }
    ensures failed { IfErr result (λ fault. (fault ≡ OutOfMemory) ⊎ ((fault ≡ output_failed) × WritesFront (W.contents output.old) (W.contents output.new) (printed ids records.now run.now))) }
    ensures unwritten { IfErr result (λ fault. fault ≢ output_failed → output.new ≡ output.old) }
{
    match printed_text(alloc, ids, run, records) {
        Ok(text) => print(output, text.as_str()),
        Err(_memory) => Err(Fault::OutOfMemory),
    }
}

/// Prints what became of each part that a run charged, by its journal and its inbox, over all its rounds. A journal that a process
/// holds isn't read. The exit status is 0.
pub fn delivered_job<R: AllocGlobal + InputFiles + JournalFiles + Threads, W: Write>(
    rt: &R,
    context: &mut JobContext,
    order: DeliveredArgs,
    output: &mut W,
) -> Result<u8, Fault>
    ensures status { IfOk result (λ status. status ≡ 0) }
    ensures delivered { IfOk result (λ status. DeliversBy (R.finds rt.now) order (W.contents output.old) (W.contents output.new)) }
    ensures free { OnOk result (R.frees rt.now (string_bytes order.journal)) }
    ensures refused { IfErr result (FailsDelivered (R.holds rt.now) (R.finds rt.now) order (W.contents output.old) (W.contents output.new)) }
    ensures unwritten { IfErr result (λ fault. fault ≢ output_failed → output.new ≡ output.old) }
{
    if rt.is_held(order.journal.as_str()) {
        return Err(Fault::JournalHeld);
    }
    deliver_free(rt, context, order, output)
}

/// The same of a journal that no process holds.
fn deliver_free<R: AllocGlobal + InputFiles + Threads, W: Write>(
    rt: &R,
    context: &mut JobContext,
    order: DeliveredArgs,
    output: &mut W,
) -> Result<u8, Fault>
    ensures status { IfOk result (λ status. status ≡ 0) }
    ensures delivered { IfOk result (λ status. DeliversBy (R.finds rt.now) order (W.contents output.old) (W.contents output.new)) }
    ensures refused { IfErr result (FailsDeliverFree (R.finds rt.now) order (W.contents output.old) (W.contents output.new)) }
    ensures unwritten { IfErr result (λ fault. fault ≢ output_failed → output.new ≡ output.old) }
{
    let DeliveredArgs {
        config,
        journal,
        inbox,
        ids,
        refs,
    } = order;
    let read = match run_at(rt, context, config, journal, refs) {
        Ok(read) => read,
        Err(fault) => {
            drop(inbox);
            return Err(fault);
        }
    };
    match records_at(rt, inbox) {
        Ok(records) => print_parts(rt.alloc(), ids, &read, records.as_slice(), output),
        Err(fault) => Err(fault),
    }
}
