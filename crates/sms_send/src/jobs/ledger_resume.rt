//! The job of `resume` on a ledger: a run whose credits are out goes on by its journal, and gives back what its statement says.

ghost use Rattle.std.specs.Prelude.{◌≡◌, ◌≢◌, ◌⊎◌, ◌<◌, ◌≤◌, IfErr, IfOk, IfSome, OnOk, length, string_bytes};
ghost use Rattle.sms_driver.specs.declared.start.StartPhase.TheVariants.{Idle, Released};
ghost use Rattle.sms_send.specs.Faults.{HasLostJournal, IsUnsettled, output_failed};
ghost use Rattle.sms_send.specs.FieldFiles.{AreFieldsAt, FailsFields};
ghost use Rattle.sms_journal.specs.Left.{count_left as left_count};
ghost use Rattle.sms_send.specs.Kept.{HasPrinted};
ghost use Rattle.sms_send.specs.LedgerSendings.{EndsOn};
ghost use Rattle.sms_driver.specs.declared.start_gate.Command.TheVariants.{Go};
ghost use Rattle.sms_send.specs.LedgerResuming.{EndsGoing, EndsWhole, FailsGoing, FailsGoingWith, FailsOut, FailsResumeOn, FailsWhole, IsGoing, IsOutWith, ResumesOn, ledger_run_with};
ghost use Rattle.sms_send.specs.declared.faults.fault.Fault.TheVariants.{OutOfMemory};
ghost use Rattle.sms_send.specs.PlainFiles.{sees};
ghost use Rattle.sms_send.specs.Resumed.{ComesInResume, HasBegunResume};
ghost use Rattle.sms_send.specs.Statuses.{IsStatusBy};
ghost use Rattle.sms_send.specs.Words.{bytes_of};

use crate::args::send_args::ResumeArgs;
use crate::faults::context::JobContext;
use crate::faults::exposed::FileModes;
use crate::faults::fault::Fault;
use crate::faults::ledger_run::LedgerRunFlaw;
use crate::files::opened::InputFiles;
use crate::files::plain_files::PlainFiles;
use crate::files::run_files::read_warned_run;
use crate::jobs::ledger_end::end_on;
use crate::jobs::ledger_job::read_ledger;
use crate::jobs::ledger_kind::join_kind;
use crate::jobs::ledger_run::{LedgerRun, check_taken, ledger_run_of};
use crate::jobs::ledger_send::Debtor;
use crate::jobs::resume_job::{open_journal, print_run, resume_run, with_wanted};
use crate::sending::kept::{Kept, is_printing, rows_of};
use sms_core::Row;
use sms_devices::{HeldFile, Host, LedgerFiles, LedgerKind};
use sms_driver::{Command, Start, StartPhase};
use sms_journal::JournalKind;
use sms_journal::further::count_left;
use sms_journal::of_ledger::are_out;
use std::io::Write;
use std::time::Clock;

/// Refuses a run whose credits aren't out in the ledger of this name.
fn check_out<R: AllocGlobal + LedgerFiles>(
    rt: &R,
    ledger: &str,
    read: &LedgerRun,
) -> Result<(), Fault>
    ensures out { OnOk result (IsOutWith (R.holds_ledger rt.now) R.LedgerFile.octets ledger.now read.now) }
    ensures refused { IfErr result (λ fault. (fault ≡ OutOfMemory) ⊎ FailsOut (R.holds_ledger rt.now) (R.lacks_ledger rt.now) R.LedgerFile.errs R.LedgerFile.octets ledger.now read.now fault) }
{
    let file = match join_kind(rt, LedgerKind::Paid, ledger) {
        Ok(file) => file,
        Err(fault) => return Err(fault),
    };
    let books = read_ledger(rt.alloc(), &file);
    file.close();
    let books = match books {
        Ok(books) => books,
        Err(fault) => return Err(fault),
    };
    let names = read.accounts.as_slice();
    let openings = read.run.openings.as_slice();
    // Without a whole first line nothing was noted, and its takings may not be booked.
    match are_out(rt.alloc(), &books.ledger, &read.name, names, openings) {
        Ok(out) if out && read.run.whole > 0 => Ok(()),
        Ok(_out) => Err(Fault::LedgerRun(LedgerRunFlaw::NotOut)),
        Err(_memory) => Err(Fault::OutOfMemory),
    }
}

/// A run of a ledger with the fields that are wanted.
fn with_its_fields<R: AllocGlobal + InputFiles>(
    rt: &R,
    read: LedgerRun,
    wanted: &Option<String>,
) -> Result<LedgerRun, Fault>
    ensures run { IfOk result (λ with. with ≡ ledger_run_with with.run.config.fields read) }
    ensures fields { IfOk result (λ with. AreFieldsAt (R.finds rt.now) (bytes_of wanted.now) with.run.config.fields) }
    ensures refused { IfErr result (FailsFields (R.finds rt.now) (bytes_of wanted.now)) }
{
    let LedgerRun {
        name,
        accounts,
        run,
    } = read;
    match with_wanted(rt, run, wanted) {
        Ok(run) => Ok(LedgerRun {
            name,
            accounts,
            run,
        }),
        Err(fault) => {
            drop(name);
            drop(accounts);
            Err(fault)
        }
    }
}

/// What the journal says of the run that is to go on, with the fields of its further round, and how many octets stand before it.
fn read_going<R: FileModes + Host + InputFiles>(
    rt: &R,
    context: &mut JobContext,
    order: &ResumeArgs,
) -> Result<(LedgerRun, usize), Fault>
    ensures read { IfOk result (λ going. IsGoing (sees order.now.refs (R.finds rt.now)) order.now going.0 going.1) }
    ensures refused { IfErr result (FailsGoing (sees order.now.refs (R.finds rt.now)) order.now) }
{
    let seen = PlainFiles {
        rt,
        refs: order.refs,
    };
    if let Err(fault) = check_taken(&seen, order.journal.name.as_str()) {
        return Err(fault);
    }
    let files = match read_warned_run(&seen, context, order) {
        Ok(files) => files,
        Err(fault) => return Err(fault),
    };
    let read = match ledger_run_of(rt, order.config.as_str(), &files, order.strict) {
        Ok(read) => read,
        Err(fault) => return Err(fault),
    };
    match read.run.kind {
        JournalKind::Trial => Err(Fault::Trial),
        JournalKind::Run => match with_its_fields(&seen, read, &order.fields) {
            Ok(read) => Ok((read, files.before)),
            Err(fault) => Err(fault),
        },
    }
}

/// Goes on with a run of the ledger of this name: sends in a further round what it left, prints the report of the whole run, and gives back what
/// its statement says. Where nothing is left it prints the report and gives back alone. Gives the exit status, by the whole run.
pub fn ledger_resume_job<R: FileModes + Host + InputFiles + LedgerFiles, W: Write>(
    rt: &R,
    context: &mut JobContext,
    start: &mut Start<'_>,
    ledger: String,
    order: ResumeArgs,
    output: &mut W,
) -> Result<u8, Fault>
    requires not_started { start.old.begun ≡ Idle }
    ensures latch { start.new.latch ≡ start.old.latch }
    ensures resumed { IfOk result (ResumesOn R.JournalFile.contents (R.opens rt.now) (sees order.refs (R.finds rt.now)) (R.tells rt.now) (R.holds_ledger rt.now) R.LedgerFile.octets R.LedgerFile.stored R.LedgerFile.opening R.LedgerFile.is_closed (string_bytes ledger) order (W.contents output.old) (W.contents output.new)) }
    ensures status { IfOk result (IsStatusBy order.strict) }
    ensures started { OnOk result (HasBegunResume start.new.begun) }
    ensures refused { IfErr result (FailsResumeOn R.JournalFile.contents (R.opens rt.now) (R.refuses rt.now) (R.holds rt.now) (sees order.refs (R.finds rt.now)) (R.tells rt.now) (R.holds_ledger rt.now) (R.lacks_ledger rt.now) R.LedgerFile.errs R.LedgerFile.octets R.LedgerFile.stored R.LedgerFile.opening R.LedgerFile.is_closed (string_bytes ledger) order (W.contents output.old) (W.contents output.new)) }
    ensures phase { IfErr result (ComesInResume start.new.begun) }
    ensures unwritten { IfErr result (λ fault. fault ≢ output_failed → ¬ HasLostJournal fault → ¬ IsUnsettled fault → output.new ≡ output.old) }
{
    let held = match open_journal(rt, order.journal.name.as_str()) {
        Ok(held) => held,
        Err(fault) => return Err(fault),
    };
    let (read, before) = match read_going(rt, context, &order) {
        Ok(read) => read,
        Err(fault) => {
            drop(held);
            return Err(fault);
        }
    };
    if count_left(read.run.ends.as_slice()) == 0 {
        drop(held);
        return end_whole(rt, ledger.as_str(), read, order.strict, output);
    }
    go_on(
        rt,
        start,
        ledger.as_str(),
        &order,
        read,
        before,
        held,
        output,
    )
}

/// What is kept of a run with these rows of which nothing is left and whose report was printed so; nothing where it wasn't.
fn kept_whole(rows: Vec<Row>, printed: &Result<u8, Fault>) -> Option<Kept>
    ensures rows { IfSome result (λ kept. (kept.rows.items ≡ rows.items) × (kept.left ≡ 0)) }
    ensures printed { IfSome result (λ kept. HasPrinted printed.now) }
{
    if is_printing(printed) {
        Some(Kept { rows, left: 0 })
    } else {
        drop(rows);
        None
    }
}

/// Prints the report of a run of which nothing is left, and gives back what its statement says.
fn end_whole<R: AllocGlobal + Clock + LedgerFiles, W: Write>(
    rt: &R,
    ledger: &str,
    read: LedgerRun,
    strict: bool,
    output: &mut W,
) -> Result<u8, Fault>
    requires none { left_count read.run.ends.items ≡ 0 }
    ensures ended { IfOk result (EndsWhole (R.holds_ledger rt.now) R.LedgerFile.octets R.LedgerFile.stored R.LedgerFile.opening R.LedgerFile.is_closed ledger.now strict read (W.contents output.old) (W.contents output.new)) }
    ensures status { IfOk result (IsStatusBy strict) }
    ensures refused { IfErr result (FailsWhole (R.holds_ledger rt.now) (R.lacks_ledger rt.now) R.LedgerFile.errs R.LedgerFile.octets R.LedgerFile.stored R.LedgerFile.opening R.LedgerFile.is_closed ledger.now strict read (W.contents output.old) (W.contents output.new)) }
    ensures unwritten { IfErr result (λ fault. fault ≢ output_failed → ¬ HasLostJournal fault → ¬ IsUnsettled fault → output.new ≡ output.old) }
{
    let rows = match rows_of(rt.alloc(), read.run.rows.as_slice()) {
        Ok(rows) => rows,
        Err(_memory) => return Err(Fault::OutOfMemory),
    };
    let LedgerRun {
        name,
        accounts,
        run,
    } = read;
    let debtor = Debtor {
        run: name,
        accounts,
        unused: Vec::new(rt.alloc()),
    };
    let printed = print_run(rt.alloc(), run, strict, output);
    let kept = kept_whole(rows, &printed);
    end_going(rt, ledger, &debtor, kept, printed)
}

/// Sends what a run left, whose journal this process holds behind so many octets.
fn go_on<R: FileModes + Host + InputFiles + LedgerFiles, W: Write>(
    rt: &R,
    start: &mut Start<'_>,
    ledger: &str,
    order: &ResumeArgs,
    read: LedgerRun,
    before: usize,
    held: R::JournalFile,
    output: &mut W,
) -> Result<u8, Fault>
    requires not_started { start.old.begun ≡ Idle }
    requires some { 0 < left_count read.run.ends.items }
    requires rows { length read.run.rows.items ≡ length read.run.openings.items }
    requires port { read.run.config.connection.port ≤ 65535 }
    requires opened { R.opens rt.now (string_bytes order.now.journal.name) held }
    ensures latch { start.new.latch ≡ start.old.latch }
    ensures ended { IfOk result (EndsGoing R.JournalFile.contents (R.opens rt.now) (R.tells rt.now) (R.holds_ledger rt.now) R.LedgerFile.octets R.LedgerFile.stored R.LedgerFile.opening R.LedgerFile.is_closed ledger.now order.now read before (W.contents output.old) (W.contents output.new)) }
    ensures status { IfOk result (IsStatusBy order.now.strict) }
    ensures started { OnOk result (HasBegunResume start.new.begun) }
    ensures refused { IfErr result (FailsGoingWith R.JournalFile.contents (R.opens rt.now) (R.tells rt.now) (R.holds_ledger rt.now) (R.lacks_ledger rt.now) R.LedgerFile.errs R.LedgerFile.octets R.LedgerFile.stored R.LedgerFile.opening R.LedgerFile.is_closed ledger.now order.now read before (W.contents output.old) (W.contents output.new)) }
    ensures phase { IfErr result (ComesInResume start.new.begun) }
    ensures unwritten { IfErr result (λ fault. fault ≢ output_failed → ¬ HasLostJournal fault → ¬ IsUnsettled fault → output.new ≡ output.old) }
{
    if let Err(fault) = check_out(rt, ledger, &read) {
        drop(held);
        return Err(fault);
    }
    let LedgerRun {
        name,
        accounts,
        mut run,
    } = read;
    let debtor = Debtor {
        run: name,
        accounts,
        unused: Vec::new(rt.alloc()),
    };
    // What stands before the journal is cut off with none of it.
    run.whole = run.whole.saturating_add(before);
    let mut kept = None;
    let sent = resume_run(rt, start, order, run, held, output, &mut kept);
    end_going(rt, ledger, &debtor, kept, sent)
}

/// Ends a run that was resumed. One of which nothing is kept keeps its credits: its journal has what is to come back.
fn end_going<R: AllocGlobal + Clock + LedgerFiles>(
    rt: &R,
    ledger: &str,
    debtor: &Debtor,
    kept: Option<Kept>,
    sent: Result<u8, Fault>,
) -> Result<u8, Fault>
    ensures ended { EndsOn (R.holds_ledger rt.now) (R.lacks_ledger rt.now) R.LedgerFile.errs R.LedgerFile.octets R.LedgerFile.stored R.LedgerFile.opening R.LedgerFile.is_closed ledger.now debtor.now (Released Go) kept sent result }
{
    let begun = StartPhase::Released(Command::Go);
    end_on(rt, ledger, debtor, begun, kept, sent)
}
