//! The job of `bill` and `doubtful`: what is listed of a run, by its journal.

ghost use Rattle.std.specs.Prelude.{◌≡◌, ◌≢◌, IfErr, IfOk, OnOk, string_bytes};
ghost use Rattle.sms_send.specs.Faults.{output_failed};
ghost use Rattle.sms_send.specs.Listed.{FailsAsked, FailsListFree, FailsListJob, FailsListing, ListsAsked, ListsBy, ListsRun};

use crate::args::send_args::ListArgs;
use crate::faults::context::JobContext;
use crate::faults::fault::Fault;
use crate::files::opened::InputFiles;
use crate::files::refs::without_refs;
use crate::files::run_files::{RunFiles, read_run};
use crate::jobs::recover_job::fault_of_run;
use sms_devices::JournalFiles;
use sms_journal::{Columns, Listing, run_listing};
use std::io::Write;
use std::thread::Threads;

/// Prints what is listed of a run, by its journal. A journal that a process holds isn't read. The exit status is 0.
pub fn list_job<R: AllocGlobal + InputFiles + JournalFiles + Threads, W: Write>(
    rt: &R,
    context: &mut JobContext,
    order: ListArgs,
    output: &mut W,
) -> Result<u8, Fault>
    ensures status { IfOk result (λ status. status ≡ 0) }
    ensures listed { IfOk result (λ status. ListsBy (R.finds rt.now) order (W.contents output.old) (W.contents output.new)) }
    ensures free { OnOk result (R.frees rt.now (string_bytes order.journal)) }
    ensures refused { IfErr result (FailsListJob (R.holds rt.now) (R.finds rt.now) order (W.contents output.old) (W.contents output.new)) }
    ensures unwritten { IfErr result (λ fault. fault ≢ output_failed → output.new ≡ output.old) }
{
    if rt.is_held(order.journal.as_str()) {
        return Err(Fault::JournalHeld);
    }
    list_free(rt, context, order, output)
}

/// The same of a journal that no process holds.
fn list_free<R: AllocGlobal + InputFiles + Threads, W: Write>(
    rt: &R,
    context: &mut JobContext,
    order: ListArgs,
    output: &mut W,
) -> Result<u8, Fault>
    ensures status { IfOk result (λ status. status ≡ 0) }
    ensures listed { IfOk result (λ status. ListsBy (R.finds rt.now) order (W.contents output.old) (W.contents output.new)) }
    ensures refused { IfErr result (FailsListFree (R.finds rt.now) order (W.contents output.old) (W.contents output.new)) }
    ensures unwritten { IfErr result (λ fault. fault ≢ output_failed → output.new ≡ output.old) }
{
    let (listing, refs) = (order.listing, order.refs);
    let name = match String::from_str(rt.alloc(), order.config.as_str()) {
        Ok(name) => name,
        Err(_) => return Err(Fault::OutOfMemory),
    };
    match read_run(rt, context, order.config, order.journal) {
        Ok(run) => list_asked(rt, name.as_str(), run, listing, refs, output),
        Err(fault) => Err(fault),
    }
}

/// The same of files that were read, by a config of this name, with or without the references of the messages.
fn list_asked<R: AllocGlobal + Threads, W: Write>(
    rt: &R,
    name: &str,
    run: RunFiles,
    listing: Listing,
    refs: bool,
    output: &mut W,
) -> Result<u8, Fault>
    ensures status { IfOk result (λ status. status ≡ 0) }
    ensures listed { IfOk result (λ status. ListsAsked listing refs run (W.contents output.old) (W.contents output.new)) }
    ensures refused { IfErr result (FailsAsked listing refs run (W.contents output.old) (W.contents output.new)) }
    ensures unwritten { IfErr result (λ fault. fault ≢ output_failed → output.new ≡ output.old) }
{
    if !refs {
        return listed(rt, name, &run, Columns::Usual(listing), output);
    }
    match without_refs(rt.alloc(), run) {
        Ok(plain) => {
            let columns = Columns::WithRefs(listing, plain.refs.as_slice());
            listed(rt, name, &plain.files, columns, output)
        }
        Err(fault) => Err(fault),
    }
}

/// The same with these columns.
fn listed<R: AllocGlobal + Threads, W: Write>(
    rt: &R,
    name: &str,
    run: &RunFiles,
    columns: Columns<'_>,
    output: &mut W,
) -> Result<u8, Fault>
    ensures status { IfOk result (λ status. status ≡ 0) }
    ensures listed { IfOk result (λ status. ListsRun run.now columns.entry (W.contents output.old) (W.contents output.new)) }
    ensures refused { IfErr result (FailsListing run.now columns.entry (W.contents output.old) (W.contents output.new)) }
    ensures unwritten { IfErr result (λ fault. fault ≢ output_failed → output.new ≡ output.old) }
{
    let printed = run_listing(
        rt,
        run.config.as_slice(),
        run.named.accounts.as_slice(),
        run.named.messages.as_slice(),
        run.named.tariff(),
        run.written.as_slice(),
        columns,
        output,
    );
    match printed {
        Ok(()) => Ok(0),
        Err(fault) => Err(fault_of_run(rt.alloc(), name, &run.names, fault)),
    }
}
