//! The job of `resume`: a run goes on in a further round, by its journal.

ghost use Rattle.std.specs.Prelude.{◌≡◌, ◌≢◌, ◌⊎◌, ◌≤◌, IfErr, IfOk, OnOk, length, string_bytes, true};
ghost use Rattle.sms_driver.specs.declared.start.StartPhase.TheVariants.{Idle};
ghost use Rattle.sms_journal.specs.Left.{count_left as left_count};
ghost use Rattle.sms_send.specs.Words.{bytes_of};
ghost use Rattle.sms_send.specs.Faults.{HasLostJournal, output_failed};
ghost use Rattle.sms_send.specs.FieldFiles.{AreFieldsAt, FailsFields};
ghost use Rattle.sms_journal.specs.Resuming.{run_with_fields};
ghost use Rattle.sms_send.specs.Kept.{KeepsThrough};
ghost use Rattle.sms_send.specs.Noted.{IsNotedIn};
ghost use Rattle.sms_send.specs.Reached.{centre_in};
ghost use Rattle.sms_send.specs.PlainFiles.{sees};
ghost use Rattle.sms_send.specs.Resumed.{ComesInResume, FailsGoingOn, FailsJournaled, FailsNotedRun, FailsOpen, FailsPrintingRun, FailsResumeJob, FailsResumed, HasBegunResume, IsJournaled, IsJournaledBy, IsNotedRun, NotesRound, PrintsRun, ResumesBy};
ghost use Rattle.sms_send.specs.Sent.{SendingEnd, SendsLeft};
ghost use Rattle.sms_send.specs.declared.sending.target.TargetKind.TheVariants.{Remote};
ghost use Rattle.sms_send.specs.Statuses.{IsStatusBy};

use crate::args::send_args::ResumeArgs;
use crate::faults::context::JobContext;
use crate::faults::exposed::FileModes;
use crate::faults::fault::Fault;
use crate::faults::ledger_run::LedgerRunFlaw;
use crate::files::fields_file::read_fields;
use crate::files::inbox_file::{inbox_going_on, line_settings};
use crate::files::opened::InputFiles;
use crate::files::plain_files::PlainFiles;
use crate::files::run_files::{RunFiles, read_warned_run};
use crate::jobs::recover_job::fault_of_run;
use crate::sending::Sending;
use crate::sending::kept::Kept;
use crate::sending::remarks::Remarks;
use crate::sending::sender::write_ends;
use crate::sending::status::status_of;
use crate::sending::target::{Target, TargetKind};
use sms_book::Statement;
use sms_devices::{Host, JournalFiles, Unmade};
use sms_driver::Start;
use sms_journal::further::count_left;
use sms_journal::{JournalKind, JournaledRun, read_run};
use std::alloc::Global;
use std::io::Write;
use std::marker::Brand;
use std::thread::Threads;

/// The journal of this name, which this process holds from here on. The name is the fault where it can't be opened, and
/// the journal where a process holds it.
pub(crate) fn open_journal<R: AllocGlobal + JournalFiles>(
    rt: &R,
    name: &str,
) -> Result<R::JournalFile, Fault>
    ensures opened { IfOk result (R.opens rt.now name.now) }
    ensures refused { IfErr result (FailsOpen (R.refuses rt.now) (R.holds rt.now) name.now) }
{
    match rt.open_journal(name) {
        Ok(file) => Ok(file),
        Err(Unmade::Held) => Err(Fault::JournalHeld),
        Err(Unmade::Failed(kind)) => match String::from_str(rt.alloc(), name) {
            Ok(name) => Err(Fault::File(name, kind)),
            Err(_) => Err(Fault::OutOfMemory),
        },
    }
}

/// What the journal says of the run or the trial of these files, by a config of this name.
pub(crate) fn noted_run<R: AllocGlobal + Threads>(
    rt: &R,
    name: &str,
    files: &RunFiles,
    strict: bool,
) -> Result<JournaledRun, Fault>
    ensures run { IfOk result (IsNotedRun files.now) }
    ensures refused { IfErr result (FailsNotedRun strict files.now) }
{
    let read = read_run(
        rt,
        files.config.as_slice(),
        files.named.accounts.as_slice(),
        files.named.messages.as_slice(),
        files.named.tariff(),
        files.written.as_slice(),
        strict,
    );
    match read {
        Ok(run) => Ok(run),
        Err(fault) => Err(fault_of_run(rt.alloc(), name, &files.names, fault)),
    }
}

/// What the journal says of the run of these files, by a config of this name. One of a trial is refused.
pub(crate) fn journaled<R: AllocGlobal + Threads>(
    rt: &R,
    name: &str,
    files: &RunFiles,
    strict: bool,
) -> Result<JournaledRun, Fault>
    ensures run { IfOk result (IsJournaled files.now) }
    ensures refused { IfErr result (FailsResumed strict files.now) }
{
    let run = match noted_run(rt, name, files, strict) {
        Ok(run) => run,
        Err(fault) => return Err(fault),
    };
    if run.kind == JournalKind::Trial {
        return Err(Fault::Trial);
    }
    Ok(run)
}

/// Prints the report of a run of which nothing is left, and gives its exit status.
pub(crate) fn print_run<W: Write>(
    alloc: Global,
    run: JournaledRun,
    strict: bool,
    output: &mut W,
) -> Result<u8, Fault>
    requires none { left_count run.ends.items ≡ 0 }
    ensures printed { IfOk result (PrintsRun strict run (W.contents output.old) (W.contents output.new)) }
    ensures refused { IfErr result (FailsPrintingRun run (W.contents output.old) (W.contents output.new)) }
    ensures quiet { IfErr result (λ fault. fault ≢ output_failed → output.new ≡ output.old) }
{
    let JournaledRun {
        openings,
        ends,
        rows,
        ..
    } = run;
    let statement = Statement::new(rows);
    match write_ends(
        alloc,
        openings.as_slice(),
        ends.as_slice(),
        &statement,
        output,
    ) {
        Ok(()) => Ok(status_of(ends.as_slice(), strict)),
        Err(fault) => Err(fault),
    }
}

/// A run with the fields that an order wants.
pub(crate) fn with_wanted<R: AllocGlobal + InputFiles>(
    rt: &R,
    run: JournaledRun,
    wanted: &Option<String>,
) -> Result<JournaledRun, Fault>
    ensures run { IfOk result (λ with. with ≡ run_with_fields with.config.fields run) }
    ensures fields { IfOk result (λ with. AreFieldsAt (R.finds rt.now) (bytes_of wanted.now) with.config.fields) }
    ensures refused { IfErr result (FailsFields (R.finds rt.now) (bytes_of wanted.now)) }
{
    match read_fields(rt, wanted) {
        Ok(fields) => Ok(run.with_fields(fields)),
        Err(fault) => {
            drop(run);
            Err(fault)
        }
    }
}

/// What the journal of a run says of it, by the files that its config names, with the fields that are wanted.
fn read_journaled<R: FileModes + Host + InputFiles>(
    rt: &R,
    context: &mut JobContext,
    order: &ResumeArgs,
) -> Result<JournaledRun, Fault>
    ensures run { IfOk result (IsJournaledBy (sees order.now.refs (R.finds rt.now)) order.now) }
    ensures refused { IfErr result (FailsJournaled (sees order.now.refs (R.finds rt.now)) order.now) }
{
    let seen = PlainFiles {
        rt,
        refs: order.refs,
    };
    let files = match read_warned_run(&seen, context, order) {
        Ok(files) => files,
        Err(fault) => return Err(fault),
    };
    if files.run.is_some() {
        drop(files);
        return Err(Fault::LedgerRun(LedgerRunFlaw::OfLedger));
    }
    let run = journaled(rt, order.config.as_str(), &files, order.strict);
    drop(files);
    match run {
        Ok(run) => with_wanted(&seen, run, &order.fields),
        Err(fault) => Err(fault),
    }
}

/// Sends in a further round what the rounds before left, and prints the report of the whole run.
pub(crate) fn resume_run<R: FileModes + Host + InputFiles, W: Write>(
    rt: &R,
    start: &mut Start<'_>,
    order: &ResumeArgs,
    run: JournaledRun,
    held: R::JournalFile,
    output: &mut W,
    kept: &mut Option<Kept>,
) -> Result<u8, Fault>
    requires not_started { start.old.begun ≡ Idle }
    requires rows { length run.rows.items ≡ length run.openings.items }
    requires port { run.config.connection.port ≤ 65535 }
    requires opened { R.opens rt.now (string_bytes order.now.journal.name) held }
    ensures latch { start.new.latch ≡ start.old.latch }
    ensures ended { SendingEnd order.now.strict (SendsLeft (R.tells rt.now (centre_in Remote run.config) true) order.now.again order.now.strict run (W.contents output.old) (W.contents output.new)) (FailsGoingOn (bytes_of order.now.lines.inbox) (centre_in Remote run.config) (R.tells rt.now (centre_in Remote run.config) true) order.now.again order.now.strict run (W.contents output.old) (W.contents output.new)) start.new.begun output.old output.new result }
    ensures noted { IfOk result (IsNotedIn R.JournalFile.contents (R.opens rt.now (string_bytes order.now.journal.name))) }
    ensures kept { KeepsThrough (W.contents output.old) (W.contents output.new) result kept.new }
{
    *kept = None;
    let target = match Target::new(rt.alloc(), TargetKind::Remote, &run.config) {
        Ok(target) => target,
        Err(fault) => {
            drop(run);
            drop(held);
            return Err(fault);
        }
    };
    let inbox = match inbox_going_on(rt, &order.lines, &run.config, order.journal.sync) {
        Ok(inbox) => inbox,
        Err(fault) => {
            drop(run);
            drop(held);
            return Err(fault);
        }
    };
    let sending = Sending {
        rt,
        target,
        throttle: order.throttle,
        again: order.again,
        remarks: Remarks::new(
            order.quiet,
            order.verbose,
            rt.is_terminal(),
            rt.has_details(),
            false,
        ),
        lines: line_settings(&order.lines, &inbox, run.config.retry.answer_ms),
        strict: order.strict,
    };
    sending.resume_in_file::<Brand, W>(start, run, held, &order.journal, output, kept)
}

/// Reads the config of this name, the files that it names and the journal, which this process holds; sends in a further
/// round what the rounds before left, and prints the report of the whole run. Where nothing is left it prints that alone.
/// Gives the exit status, by the whole run.
pub fn resume_job<R: FileModes + Host + InputFiles, W: Write>(
    rt: &R,
    context: &mut JobContext,
    start: &mut Start<'_>,
    order: ResumeArgs,
    output: &mut W,
) -> Result<u8, Fault>
    requires not_started { start.old.begun ≡ Idle }
    ensures latch { start.new.latch ≡ start.old.latch }
    ensures resumed { IfOk result (ResumesBy (sees order.refs (R.finds rt.now)) (R.tells rt.now) order (W.contents output.old) (W.contents output.new)) }
    ensures status { IfOk result (IsStatusBy order.strict) }
    // The journal is the file that was opened by its name, and ends with the note of this, where something was left.
    ensures noted { IfOk result (NotesRound R.JournalFile.contents (R.opens rt.now) (R.finds rt.now) order (W.contents output.old) (W.contents output.new)) }
    ensures started { OnOk result (HasBegunResume start.new.begun) }
    ensures refused { IfErr result (FailsResumeJob (R.refuses rt.now) (R.holds rt.now) (sees order.refs (R.finds rt.now)) (R.tells rt.now) order (W.contents output.old) (W.contents output.new)) }
    ensures phase { IfErr result (ComesInResume start.new.begun) }
    ensures unwritten { IfErr result (λ fault. fault ≢ output_failed → ¬ HasLostJournal fault → output.new ≡ output.old) }
{
    let held = match open_journal(rt, order.journal.name.as_str()) {
        Ok(held) => held,
        Err(fault) => return Err(fault),
    };
    let run = match read_journaled(rt, context, &order) {
        Ok(run) => run,
        Err(fault) => {
            drop(held);
            return Err(fault);
        }
    };
    if count_left(run.ends.as_slice()) == 0 {
        drop(held);
        return print_run(rt.alloc(), run, order.strict, output);
    }
    let mut kept = None;
    let resumed = resume_run(rt, start, &order, run, held, output, &mut kept);
    drop(kept);
    resumed
}
