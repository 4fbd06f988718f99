//! The program over its arguments: the job that they ask for, and what is printed of a fault.

ghost use Rattle.std.specs.Prelude.{◌≡◌, ◌≢◌, None, Some, IfErr, IfOk, IfSome, OnOk, is_ok, is_some, true, if◌then◌else◌};
ghost use Rattle.std.specs.Io.KnownBytes.{Appends};
ghost use Rattle.sms_driver.specs.declared.start.StartPhase.TheVariants.{Idle};
ghost use Rattle.sms_files.specs.Output.{WritesFront};
ghost use Rattle.sms_send.specs.Asked.{AsksForDetails, AsksForJob, FailsAsAsked, IsUntold, LacksJob, OfAsked, WorksAsAsked, printed_of};
ghost use Rattle.sms_send.specs.FaultReports.{ReportsFault};
ghost use Rattle.sms_send.specs.Faults.{HasLostJournal, IsUnsettled, status_of, output_failed};
ghost use Rattle.sms_send.specs.Jobs.{ComesIn, Does, FailsJob, HasBegun, IsStatusOf, NotesJob, WritesBeside, BeginsBeside};
ghost use Rattle.sms_send.specs.LedgerWork.{BooksJob, FailsBooksJob};
ghost use Rattle.sms_send.specs.Noted.{FailsBegin, NotesEnd};
ghost use Rattle.sms_send.specs.Resumed.{NotesRound};
ghost use Rattle.sms_send.specs.Stopped.{StopsRun};

use crate::args::job::{Job, job_of};
use crate::args::program_args::ProgramWords;
use crate::args::values::is_verbose;
use crate::faults::context::{FaultContext, JobContext, is_at_length};
use crate::faults::exposed::FileModes;
use crate::faults::fault::Fault;
use crate::faults::full_names::FullNames;
use crate::faults::report::{FaultReport, details_of, fixed_details};
use crate::files::opened::{InputFiles, open};
use crate::jobs::audit_job::audit_job;
use crate::jobs::decide_job::decide_job;
use crate::jobs::delivered_job::delivered_job;
use crate::jobs::ledger_job::{balance_job, topup_job};
use crate::jobs::ledger_resume::ledger_resume_job;
use crate::jobs::ledger_send::ledger_send_job;
use crate::jobs::list_job::list_job;
use crate::jobs::plan_job::plan_job;
use crate::jobs::quote_job::quote_job;
use crate::jobs::recover_job::{recover_job, rest_job};
use crate::jobs::replay::run_replay;
use crate::jobs::resume_job::resume_job;
use crate::jobs::send_job::send_job;
use crate::jobs::settle_job::settle_job;
use crate::jobs::stop_job::stop_job;
use crate::sending::target::TargetKind;
use crate::terminal::standard_error::TakesLines;
use sms_devices::{Host, LedgerFiles, Screen};
use sms_driver::{Start, StartGate};
use sms_files::write_out;
use std::io::{self, Write};

/// The exit status where a fault can't be written: that of a fault of the output.
const UNTOLD: u8 = 1;

/// The job that the program's arguments ask for. The context notes it, and whether they ask for the detail lines of a fault.
fn asked_job<R: AllocGlobal + ProgramWords>(
    rt: &R,
    context: &mut FaultContext,
) -> Result<Job, Fault>
    ensures asked { IfOk result (AsksForJob (R.has rt.now) context.new.verbose) }
    ensures refused { IfErr result (LacksJob (R.has rt.now)) }
    ensures verbose { IfErr result (AsksForDetails (R.has rt.now) context.new.verbose) }
{
    context.verbose = false;
    let words = match rt.words() {
        Ok(words) => words,
        Err(fault) => return Err(fault),
    };
    context.verbose = is_verbose(words.as_slice());
    match job_of(rt.alloc(), words.as_slice()) {
        Ok(job) => {
            context.job.note_job(rt.alloc(), &job);
            Ok(job)
        }
        Err(fault) => Err(fault),
    }
}

/// Does the job that the program's arguments ask for, and gives the exit status. Warnings of a plan or a quote go to
/// standard error.
pub fn run<
    R: FileModes + FullNames + Host + InputFiles + LedgerFiles + ProgramWords,
    W: Write,
    E: Write,
>(rt: &R, context: &mut FaultContext, output: &mut W, error: &mut E) -> Result<u8, Fault>
    ensures done { IfOk result (WorksAsAsked (R.has rt.now) R.Reader.remaining (R.finds rt.now) (R.tells rt.now) (BooksJob (R.makes rt.now) (R.opens rt.now) R.JournalFile.contents (R.finds rt.now) (R.tells rt.now) (R.has_kind rt.now) (R.holds_ledger rt.now) R.LedgerFile.octets R.LedgerFile.stored R.LedgerFile.opening R.LedgerFile.is_closed) (λ job. WritesBeside (R.finds rt.now) (R.is_full rt.now) (R.details rt.now) job (W.contents output.old) (W.contents output.new) (E.contents error.old) (E.contents error.new)) (W.contents output.old) (W.contents output.new)) }
    ensures refused { IfErr result (FailsAsAsked (R.has rt.now) (FailsBegin (R.makes rt.now) (R.refuses rt.now) (R.holds rt.now)) (R.refuses rt.now) (R.holds rt.now) (FailsBooksJob (R.makes rt.now) (R.opens rt.now) R.JournalFile.contents (R.refuses rt.now) (R.holds rt.now) (R.finds rt.now) (R.tells rt.now) (R.holds_ledger rt.now) (R.lacks_ledger rt.now) R.LedgerFile.errs R.LedgerFile.octets R.LedgerFile.stored R.LedgerFile.opening R.LedgerFile.is_closed) R.Reader.remaining (R.finds rt.now) (R.tells rt.now) (W.contents output.old) (W.contents output.new)) }
    ensures unwritten { IfErr result (λ fault. fault ≢ output_failed → ¬ HasLostJournal fault → ¬ IsUnsettled fault → output.new ≡ output.old) }
    ensures front { IfErr result (λ fault. fault ≡ output_failed → OfAsked (R.has rt.now) (λ job. BeginsBeside (R.finds rt.now) (R.is_full rt.now) (R.details rt.now) job (E.contents error.old) (E.contents error.new))) }
    ensures untold { IfErr result (λ fault. fault ≢ output_failed → error.new ≡ error.old) }
    ensures verbose { IfErr result (AsksForDetails (R.has rt.now) context.new.verbose) }
    ensures noted { OnOk result (OfAsked (R.has rt.now) (λ job. NotesJob (NotesEnd R.JournalFile.contents (R.makes rt.now)) (NotesRound R.JournalFile.contents (R.opens rt.now) (R.finds rt.now)) (StopsRun (R.holds rt.now) (R.stops rt.now)) job (W.contents output.old) (W.contents output.new) result)) }
{
    let job = match asked_job(rt, context) {
        Ok(job) => job,
        Err(fault) => return Err(fault),
    };
    let (latch, trigger) = StartGate::new();
    let mut start = Start::new(&latch, trigger);
    do_job(rt, &mut context.job, &mut start, job, output, error)
}

/// Does a job, and gives the exit status. Where the job sends, the start says how far the sending came. The context
/// notes what the config names.
pub fn do_job<R: FileModes + FullNames + Host + InputFiles + LedgerFiles, W: Write, E: Write>(
    rt: &R,
    context: &mut JobContext,
    start: &mut Start<'_>,
    job: Job,
    output: &mut W,
    error: &mut E,
) -> Result<u8, Fault>
    requires not_started { start.old.begun ≡ Idle }
    ensures latch { start.new.latch ≡ start.old.latch }
    ensures started { OnOk result (HasBegun job start.new.begun) }
    ensures status { IfOk result (IsStatusOf job) }
    ensures done { IfOk result (Does R.Reader.remaining (R.finds rt.now) (R.tells rt.now) (BooksJob (R.makes rt.now) (R.opens rt.now) R.JournalFile.contents (R.finds rt.now) (R.tells rt.now) (R.has_kind rt.now) (R.holds_ledger rt.now) R.LedgerFile.octets R.LedgerFile.stored R.LedgerFile.opening R.LedgerFile.is_closed) job (W.contents output.old) (W.contents output.new)) }
    ensures beside { OnOk result (WritesBeside (R.finds rt.now) (R.is_full rt.now) (R.details rt.now) job (W.contents output.old) (W.contents output.new) (E.contents error.old) (E.contents error.new)) }
    ensures front { IfErr result (λ fault. fault ≡ output_failed → BeginsBeside (R.finds rt.now) (R.is_full rt.now) (R.details rt.now) job (E.contents error.old) (E.contents error.new)) }
    ensures refused { IfErr result (FailsJob (FailsBegin (R.makes rt.now) (R.refuses rt.now) (R.holds rt.now)) (R.refuses rt.now) (R.holds rt.now) (FailsBooksJob (R.makes rt.now) (R.opens rt.now) R.JournalFile.contents (R.refuses rt.now) (R.holds rt.now) (R.finds rt.now) (R.tells rt.now) (R.holds_ledger rt.now) (R.lacks_ledger rt.now) R.LedgerFile.errs R.LedgerFile.octets R.LedgerFile.stored R.LedgerFile.opening R.LedgerFile.is_closed) R.Reader.remaining (R.finds rt.now) (R.tells rt.now) job (W.contents output.old) (W.contents output.new)) }
    ensures noted { NotesJob (NotesEnd R.JournalFile.contents (R.makes rt.now)) (NotesRound R.JournalFile.contents (R.opens rt.now) (R.finds rt.now)) (StopsRun (R.holds rt.now) (R.stops rt.now)) job (W.contents output.old) (W.contents output.new) result }
    ensures phase { IfErr result (ComesIn job start.new.begun) }
    ensures unwritten { IfErr result (λ fault. fault ≢ output_failed → ¬ HasLostJournal fault → ¬ IsUnsettled fault → output.new ≡ output.old) }
    ensures untold { IfErr result (λ fault. fault ≢ output_failed → error.new ≡ error.old) }
{
    match job {
        Job::Replay(None) => run_replay(rt.alloc(), rt.reader(), output),
        Job::Replay(Some(name)) => run_replay(rt.alloc(), open(rt, name)?, output),
        Job::Plan(name, long, refs) => plan_job(rt, name, long, refs, output, error),
        Job::Quote(config, verbose, refs) => {
            quote_job(rt, context, config, verbose, refs, output, error)
        }
        Job::Loop(order) => send_job(rt, context, start, TargetKind::Loopback, order, output),
        Job::Send(order) => send_job(rt, context, start, TargetKind::Remote, order, output),
        Job::Resume(order) => resume_job(rt, context, start, order, output),
        Job::Stop(journal) => stop_job(rt, journal),
        Job::Recover(order) => recover_job(rt, context, order, output, error),
        Job::Rest(order) => rest_job(rt, context, order, output),
        Job::List(order) => list_job(rt, context, order, output),
        Job::Audit(order) => audit_job(rt, context, order, output),
        Job::TopUp(order) => topup_job(rt, order, output),
        Job::Balance(ledger) => balance_job(rt, ledger, output),
        Job::SendOn(kind, ledger, order) => {
            ledger_send_job(rt, context, start, kind, ledger, order, output)
        }
        Job::ResumeOn(ledger, order) => {
            ledger_resume_job(rt, context, start, ledger, order, output)
        }
        Job::Settle(order) => settle_job(rt, context, order, output),
        Job::Decide(order) => decide_job(rt, context, order, output),
        Job::Delivered(order) => delivered_job(rt, context, order, output),
    }
}

/// Why a fault, help or the version could not be written.
#[derive(Debug, Drop)]
pub enum Untold {
    /// The output of help or of the version failed, with this fault.
    Output(Fault),
    /// Standard error failed, with this error.
    Error(io::Error),
}

/// Writes a fault to standard error, and help or the version to the output. That they can't be written is a fault of the
/// output, which is written to standard error in its turn.
pub fn tell<R: AllocGlobal + FullNames + Screen, W: Write, E: TakesLines>(
    rt: &R,
    fault: &Fault,
    context: &FaultContext,
    output: &mut W,
    error: &mut E,
) -> Result<(), Untold>
    ensures printed { OnOk result (IfSome (printed_of fault.now) (Appends (W.contents output.old) (W.contents output.new))) }
    ensures front { IfSome (printed_of fault.now) (WritesFront (W.contents output.old) (W.contents output.new)) }
    ensures alone { OnOk result (is_some (printed_of fault.now) ≡ true → error.new ≡ error.old) }
    ensures told { OnOk result (printed_of fault.now ≡ None → ReportsFault (R.details rt.now) context.now.verbose fault.now (E.told error.old) (E.told error.new)) }
    ensures unprinted { printed_of fault.now ≡ None → output.new ≡ output.old }
    ensures untold { IfErr result (IsUntold (E.fails error.new) (printed_of fault.now)) }
{
    match fault {
        Fault::Help(text) | Fault::Version(text) => {
            print_text(rt, text.as_bytes(), context, output, error)
        }
        _ => match report_fault(rt, fault, context, error) {
            Ok(()) => Ok(()),
            Err(untold) => Err(Untold::Error(untold)),
        },
    }
}

/// Prints a text. That it can't be printed is written to standard error.
fn print_text<R: AllocGlobal + FullNames + Screen, W: Write, E: TakesLines>(
    rt: &R,
    text: &[u8],
    context: &FaultContext,
    output: &mut W,
    error: &mut E,
) -> Result<(), Untold>
    ensures printed { OnOk result (Appends (W.contents output.old) (W.contents output.new) text.now) }
    ensures front { WritesFront (W.contents output.old) (W.contents output.new) text.now }
    ensures alone { OnOk result (error.new ≡ error.old) }
    ensures untold { IfErr result (IsUntold (E.fails error.new) (Some text.now)) }
{
    match write_out(output, text) {
        Ok(()) => Ok(()),
        Err(unprinted) => {
            let lost = Fault::from(unprinted);
            let _told = report_fault(rt, &lost, context, error);
            Err(Untold::Output(lost))
        }
    }
}

/// Writes the line of a fault and, where details are wanted of each run or of this one, the detail lines.
fn report_fault<R: AllocGlobal + FullNames + Screen, E: TakesLines>(
    rt: &R,
    fault: &Fault,
    context: &FaultContext,
    error: &mut E,
) -> io::Result<()>
    ensures told { OnOk result (ReportsFault (R.details rt.now) context.now.verbose fault.now (E.told error.old) (E.told error.new)) }
    ensures failed { IfErr result (E.fails error.new) }
{
    let wanted = is_at_length(rt.has_details(), context.verbose);
    let fixed = fixed_details(fault, wanted);
    if !fixed.is_empty() {
        return error.tell_lines(&FaultReport {
            fault,
            details: fixed,
        });
    }
    let details = details_of(rt, fault, &context.job, wanted);
    error.tell_lines(&FaultReport {
        fault,
        details: details.as_str(),
    })
}

/// The exit status after a fault was written: its own, and that of the output where that failed.
pub fn status_after(told: &Result<(), Untold>, fault: &Fault) -> u8
    ensures { result ≡ (if is_ok told.now then status_of fault.now else status_of output_failed) }
{
    match told {
        Ok(()) => fault.exit_status(),
        Err(_) => UNTOLD,
    }
}
