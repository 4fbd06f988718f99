//! The job of `decide`: parts in doubt of a run are spent in a ledger, or free again.

ghost use Rattle.std.specs.Prelude.{◌≡◌, ◌≢◌, IfErr, IfOk, OnOk, string_bytes};
ghost use Rattle.sms_send.specs.Faults.{fault_of_decisions, output_failed};
ghost use Rattle.sms_send.specs.LedgerJobs.{AreDecided, BooksDecisions, DecidesBy, DecidesJob, FailsDecide, FailsDecideJob, FailsDeciding, FailsDecisions};
ghost use Rattle.sms_send.specs.PlainFiles.{sees};

use crate::args::ledger_run_args::DecideArgs;
use crate::faults::context::JobContext;
use crate::faults::fault::Fault;
use crate::files::opened::{InputFiles, octets_of};
use crate::files::plain_files::PlainFiles;
use crate::jobs::booking::{decide_in, join_ledger};
use crate::jobs::ledger_job::print;
use crate::jobs::ledger_run::{LedgerRun, check_taken, read_ledger_run};
use sms_devices::{HeldFile, LedgerFiles, unix_ms};
use sms_journal::{DecisionFault, decisions_in};
use sms_ledger::Decision;
use std::alloc::Global;
use std::io::Write;
use std::thread::Threads;
use std::time::Clock;

/// The fault of a decisions file.
fn fault_of(fault: DecisionFault) -> Fault
    ensures { result ≡ fault_of_decisions fault }
{
    match fault {
        DecisionFault::Record(place) => Fault::BadDecision(place),
        DecisionFault::OutOfMemory(_) => Fault::OutOfMemory,
    }
}

/// What these octets of a decisions file decide of a run.
fn decided(alloc: Global, read: &LedgerRun, octets: &[u8]) -> Result<Vec<Decision>, Fault>
    ensures decided { IfOk result (λ decisions. AreDecided read.now octets.now decisions.items) }
    ensures refused { IfErr result (FailsDeciding read.now octets.now) }
{
    match decisions_in(alloc, &read.run, &read.name, octets) {
        Ok(decisions) => Ok(decisions),
        Err(fault) => Err(fault_of(fault)),
    }
}

/// Books decisions in the ledger of this name, and gives the lines of that.
fn booked<R: AllocGlobal + Clock + LedgerFiles>(
    rt: &R,
    ledger: &str,
    decisions: &[Decision],
) -> Result<String, Fault>
    ensures booked { IfOk result (λ lines. BooksDecisions (R.holds_ledger rt.now) R.LedgerFile.octets R.LedgerFile.stored R.LedgerFile.opening R.LedgerFile.is_closed ledger.now decisions.now (string_bytes lines)) }
    ensures refused { IfErr result (FailsDecisions (R.holds_ledger rt.now) (R.lacks_ledger rt.now) R.LedgerFile.errs R.LedgerFile.octets R.LedgerFile.opening R.LedgerFile.is_closed ledger.now decisions.now) }
{
    let mut file = match join_ledger(rt, ledger) {
        Ok(file) => file,
        Err(fault) => return Err(fault),
    };
    let lines = decide_in(rt.alloc(), unix_ms(rt), &mut file, decisions);
    file.close();
    lines
}

/// The decisions of the run and the file that are named so.
fn decisions_by<R: AllocGlobal + InputFiles + Threads>(
    rt: &R,
    context: &mut JobContext,
    order: &DecideArgs,
) -> Result<Vec<Decision>, Fault>
    ensures decided { IfOk result (λ decisions. DecidesBy (sees order.now.run.refs (R.finds rt.now)) order.now decisions.items) }
    ensures refused { IfErr result (FailsDecide (sees order.now.run.refs (R.finds rt.now)) order.now) }
{
    let seen = PlainFiles {
        rt,
        refs: order.run.refs,
    };
    if let Err(fault) = check_taken(&seen, order.run.journal.as_str()) {
        return Err(fault);
    }
    let read = match read_ledger_run(&seen, context, &order.run) {
        Ok(read) => read,
        Err(fault) => return Err(fault),
    };
    let name = match String::from_str(rt.alloc(), order.decisions.as_str()) {
        Ok(name) => name,
        Err(_memory) => {
            drop(read);
            return Err(Fault::OutOfMemory);
        }
    };
    match octets_of(&seen, name) {
        Ok(octets) => decided(rt.alloc(), &read, octets.as_slice()),
        Err(fault) => {
            drop(read);
            Err(fault)
        }
    }
}

/// Books in a ledger what a decisions file says of parts in doubt of a run, by its journal: each is spent or free again, by its own cost.
/// Prints the lines that were booked, once the disk has them; none of what is decided already. All of the file is booked or nothing. The
/// exit status is 0.
pub fn decide_job<R: AllocGlobal + Clock + InputFiles + LedgerFiles + Threads, W: Write>(
    rt: &R,
    context: &mut JobContext,
    order: DecideArgs,
    output: &mut W,
) -> Result<u8, Fault>
    ensures status { IfOk result (λ status. status ≡ 0) }
    ensures decided { OnOk result (DecidesJob (sees order.run.refs (R.finds rt.now)) (R.holds_ledger rt.now) R.LedgerFile.octets R.LedgerFile.stored R.LedgerFile.opening R.LedgerFile.is_closed order (W.contents output.old) (W.contents output.new)) }
    ensures refused { IfErr result (FailsDecideJob (sees order.run.refs (R.finds rt.now)) (R.holds_ledger rt.now) (R.lacks_ledger rt.now) R.LedgerFile.errs R.LedgerFile.octets R.LedgerFile.stored R.LedgerFile.opening R.LedgerFile.is_closed order (W.contents output.old) (W.contents output.new)) }
    ensures unwritten { IfErr result (λ fault. fault ≢ output_failed → output.new ≡ output.old) }
{
    let decisions = match decisions_by(rt, context, &order) {
        Ok(decisions) => decisions,
        Err(fault) => return Err(fault),
    };
    let lines = booked(rt, order.run.ledger.as_str(), decisions.as_slice());
    drop(decisions);
    match lines {
        Ok(lines) => print(output, lines.as_str()),
        Err(fault) => Err(fault),
    }
}
