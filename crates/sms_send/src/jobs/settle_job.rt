//! The job of `settle`: what a run that ended has of a ledger comes back, by its journal.

ghost use Rattle.std.specs.Prelude.{◌≡◌, ◌≢◌, IfErr, IfOk, OnOk, string_bytes};
ghost use Rattle.sms_send.specs.Faults.{output_failed};
ghost use Rattle.sms_send.specs.LedgerJobs.{FailsSettle, FailsSettleJob, FailsSettling, Settles, SettlesJob, SettlesRun};
ghost use Rattle.sms_send.specs.PlainFiles.{sees};

use crate::args::ledger_run_args::SettleArgs;
use crate::faults::context::JobContext;
use crate::faults::fault::Fault;
use crate::files::opened::InputFiles;
use crate::files::plain_files::PlainFiles;
use crate::jobs::booking::{give_back, join_ledger};
use crate::jobs::ledger_job::print;
use crate::jobs::ledger_run::{LedgerRun, is_cut, read_ledger_run};
use crate::jobs::resume_job::open_journal;
use sms_devices::{HeldFile, JournalFiles, LedgerFiles, unix_ms};
use std::io::Write;
use std::thread::Threads;
use std::time::Clock;

/// Books in the ledger of this name what a run has of it, by its journal, and gives the lines of that.
fn settled<R: AllocGlobal + Clock + LedgerFiles>(
    rt: &R,
    ledger: &str,
    read: &LedgerRun,
) -> Result<String, Fault>
    ensures settled { IfOk result (λ lines. SettlesRun (R.holds_ledger rt.now) R.LedgerFile.octets R.LedgerFile.stored R.LedgerFile.opening R.LedgerFile.is_closed ledger.now read.now (string_bytes lines)) }
    ensures refused { IfErr result (FailsSettling (R.holds_ledger rt.now) (R.lacks_ledger rt.now) R.LedgerFile.errs R.LedgerFile.octets R.LedgerFile.opening R.LedgerFile.is_closed ledger.now read.now) }
{
    let mut file = match join_ledger(rt, ledger) {
        Ok(file) => file,
        Err(fault) => return Err(fault),
    };
    let booked = give_back(
        rt.alloc(),
        unix_ms(rt),
        &mut file,
        &read.name,
        read.accounts.as_slice(),
        read.run.rows.as_slice(),
    );
    file.close();
    booked
}

/// The same of the run that is named so, whose journal this process holds.
fn settled_by<R: AllocGlobal + Clock + InputFiles + LedgerFiles + Threads>(
    rt: &R,
    context: &mut JobContext,
    order: &SettleArgs,
) -> Result<String, Fault>
    ensures settled { IfOk result (λ lines. Settles (sees order.now.refs (R.finds rt.now)) (R.holds_ledger rt.now) R.LedgerFile.octets R.LedgerFile.stored R.LedgerFile.opening R.LedgerFile.is_closed order.now (string_bytes lines)) }
    ensures refused { IfErr result (FailsSettle (sees order.now.refs (R.finds rt.now)) (R.holds_ledger rt.now) (R.lacks_ledger rt.now) R.LedgerFile.errs R.LedgerFile.octets R.LedgerFile.opening R.LedgerFile.is_closed order.now) }
{
    let seen = PlainFiles {
        rt,
        refs: order.refs,
    };
    match is_cut(&seen, order.journal.as_str()) {
        Ok(true) => return Ok(String::new(rt.alloc())),
        Ok(false) => {}
        Err(fault) => return Err(fault),
    }
    match read_ledger_run(&seen, context, order) {
        Ok(read) => settled(rt, order.ledger.as_str(), &read),
        Err(fault) => Err(fault),
    }
}

/// Gives back to a ledger what a run that ended has out of it, by its journal, and prints the lines that were booked, once the disk has
/// them. Of a run whose statement is booked, and of one that took nothing, there are none. A run that is going on holds its journal. The
/// exit status is 0.
pub fn settle_job<
    R: AllocGlobal + Clock + InputFiles + JournalFiles + LedgerFiles + Threads,
    W: Write,
>(rt: &R, context: &mut JobContext, order: SettleArgs, output: &mut W) -> Result<u8, Fault>
    ensures status { IfOk result (λ status. status ≡ 0) }
    ensures settled { OnOk result (SettlesJob (R.opens rt.now) (sees order.refs (R.finds rt.now)) (R.holds_ledger rt.now) R.LedgerFile.octets R.LedgerFile.stored R.LedgerFile.opening R.LedgerFile.is_closed order (W.contents output.old) (W.contents output.new)) }
    ensures refused { IfErr result (FailsSettleJob (R.refuses rt.now) (R.holds rt.now) (sees order.refs (R.finds rt.now)) (R.holds_ledger rt.now) (R.lacks_ledger rt.now) R.LedgerFile.errs R.LedgerFile.octets R.LedgerFile.stored R.LedgerFile.opening R.LedgerFile.is_closed order (W.contents output.old) (W.contents output.new)) }
    ensures unwritten { IfErr result (λ fault. fault ≢ output_failed → output.new ≡ output.old) }
{
    let held = match open_journal(rt, order.journal.as_str()) {
        Ok(held) => held,
        Err(fault) => return Err(fault),
    };
    let settled = settled_by(rt, context, &order);
    drop(held);
    match settled {
        Ok(lines) => print(output, lines.as_str()),
        Err(fault) => Err(fault),
    }
}
