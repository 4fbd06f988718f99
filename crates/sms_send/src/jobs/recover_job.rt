//! The jobs of `recover` and `rest`: what is left of a run, by its journal or its report.

ghost use Rattle.std.specs.Prelude.{◌≡◌, ◌≢◌, ◌⊎◌, IfErr, IfOk, MatchOption, None, OnOk, Some, false, option_copied, string_bytes, true};
ghost use Rattle.sms_journal.specs.declared.text.header.JournalKind.TheVariants.{Trial};
ghost use Rattle.sms_journal.specs.declared.recovery.recovering.Recovered.{Recovered as IsDone};
ghost use Rattle.sms_files.specs.Output.{WritesFront};
ghost use Rattle.sms_send.specs.PlainFiles.{sees};
ghost use Rattle.sms_send.specs.Statuses.{IsStatus};
ghost use Rattle.sms_send.specs.Recovered.{LosesTrial, PrintsAsked, PrintsLeft, RecoversAndWarns, RecoversBy, RecoversRun, WritesKind, FailsRest, FailsRestAsked, IsOfOtherFile, FailsRecovering, FailsRecoverFree, FailsRecoverJob, FailsRestJob, name_of, trial_line};
ghost use Rattle.sms_send.specs.Runs.{IsRun};
ghost use Rattle.sms_send.specs.Faults.{IsFaultOfRecovery, output_failed};
ghost use Rattle.sms_send.specs.declared.files.run_files.RunFiles.{RunFiles as TheRunFiles};

use crate::args::send_args::{RecoverArgs, RestArgs};
use crate::faults::context::JobContext;
use crate::faults::fault::Fault;
use crate::files::opened::InputFiles;
use crate::files::plain_files::PlainFiles;
use crate::files::refs::without_refs;
use crate::files::run_files::{RunFiles, read_run};
use sms_devices::JournalFiles;
use sms_files::{FileNames, write_out};
use sms_journal::{
    JournalKind, Recovered, RecoveryFault, RunFile, run_recover, run_rest, run_rest_accounts,
};
use std::alloc::Global;
use std::io::Write;
use std::thread::Threads;

/// The line of a trial.
const TRIAL: &str = "trial: no message centre saw any of it\n";

/// Prints what a run would have reported, by its journal, and gives the exit status that it would have
/// had. A journal that a process holds isn't read. Of a trial that is asked for standard error says that no
/// message centre saw any of it.
pub fn recover_job<R: AllocGlobal + InputFiles + JournalFiles + Threads, W: Write, E: Write>(
    rt: &R,
    context: &mut JobContext,
    order: RecoverArgs,
    output: &mut W,
    error: &mut E,
) -> Result<u8, Fault>
    ensures recovered { IfOk result (RecoversBy (sees order.refs (R.finds rt.now)) order (W.contents output.old) (W.contents output.new)) }
    ensures status { IfOk result IsStatus }
    ensures beside { OnOk result (RecoversAndWarns (sees order.refs (R.finds rt.now)) order (W.contents output.old) (W.contents output.new) (E.contents error.old) (E.contents error.new)) }
    ensures free { OnOk result (R.frees rt.now (string_bytes order.journal)) }
    ensures refused { IfErr result (FailsRecoverJob (R.holds rt.now) (sees order.refs (R.finds rt.now)) order (W.contents output.old) (W.contents output.new)) }
    ensures told { WritesFront (E.contents error.old) (E.contents error.new) trial_line }
    ensures unwritten { IfErr result (λ fault. fault ≢ output_failed → (output.new ≡ output.old) × (error.new ≡ error.old)) }
{
    if rt.is_held(order.journal.as_str()) {
        return Err(Fault::JournalHeld);
    }
    recover_free(rt, context, order, output, error)
}

/// The same of a journal that no process holds.
fn recover_free<R: AllocGlobal + InputFiles + Threads, W: Write, E: Write>(
    rt: &R,
    context: &mut JobContext,
    order: RecoverArgs,
    output: &mut W,
    error: &mut E,
) -> Result<u8, Fault>
    ensures recovered { IfOk result (RecoversBy (sees order.refs (R.finds rt.now)) order (W.contents output.old) (W.contents output.new)) }
    ensures status { IfOk result IsStatus }
    ensures beside { OnOk result (RecoversAndWarns (sees order.refs (R.finds rt.now)) order (W.contents output.old) (W.contents output.new) (E.contents error.old) (E.contents error.new)) }
    ensures refused { IfErr result (FailsRecoverFree (sees order.refs (R.finds rt.now)) order (W.contents output.old) (W.contents output.new)) }
    ensures told { WritesFront (E.contents error.old) (E.contents error.new) trial_line }
    ensures unwritten { IfErr result (λ fault. fault ≢ output_failed → (output.new ≡ output.old) × (error.new ≡ error.old)) }
{
    let seen = PlainFiles {
        rt,
        refs: order.refs,
    };
    let trial = order.trial;
    let name = match String::from_str(rt.alloc(), order.config.as_str()) {
        Ok(name) => name,
        Err(_) => return Err(Fault::OutOfMemory),
    };
    match read_run(&seen, context, order.config, order.journal) {
        Ok(run) => recover_run(rt, name.as_str(), &run, trial, output, error),
        Err(fault) => Err(fault),
    }
}

/// The same of files that were read, by a config of this name.
fn recover_run<R: AllocGlobal + Threads, W: Write, E: Write>(
    rt: &R,
    name: &str,
    run: &RunFiles,
    trial: bool,
    output: &mut W,
    error: &mut E,
) -> Result<u8, Fault>
    ensures recovered { IfOk result (λ status. (done : IsDone) × RecoversRun run.now trial (W.contents output.old) (W.contents output.new) done × WritesKind done.kind (E.contents error.old) (E.contents error.new) × (status ≡ done.status)) }
    ensures status { IfOk result IsStatus }
    ensures refused { IfErr result (λ fault. FailsRecovering run.now trial (W.contents output.old) (W.contents output.new) fault ⊎ LosesTrial run.now trial (W.contents output.old) (W.contents output.new) fault) }
    ensures told { WritesFront (E.contents error.old) (E.contents error.new) trial_line }
    ensures unwritten { IfErr result (λ fault. fault ≢ output_failed → (output.new ≡ output.old) × (error.new ≡ error.old)) }
{
    match recovered(rt, name, run, trial, output) {
        Ok(done) => tell_kind(error, done),
        Err(fault) => Err(fault),
    }
}

/// What was recovered of files that were read, by a config of this name.
fn recovered<R: AllocGlobal + Threads, W: Write>(
    rt: &R,
    name: &str,
    run: &RunFiles,
    trial: bool,
    output: &mut W,
) -> Result<Recovered, Fault>
    ensures recovered { IfOk result (RecoversRun run.now trial (W.contents output.old) (W.contents output.new)) }
    ensures status { IfOk result (λ done. IsStatus done.status) }
    ensures refused { IfErr result (FailsRecovering run.now trial (W.contents output.old) (W.contents output.new)) }
    ensures unwritten { IfErr result (λ fault. fault ≢ output_failed → output.new ≡ output.old) }
{
    let recovered = run_recover(
        rt,
        run.config.as_slice(),
        run.named.accounts.as_slice(),
        run.named.messages.as_slice(),
        run.named.tariff(),
        run.written.as_slice(),
        trial,
        output,
    );
    match recovered {
        Ok(done) => Ok(done),
        Err(fault) => Err(fault_of_run(rt.alloc(), name, &run.names, fault)),
    }
}

/// The fault of a run's journal, by a config of this name and the names in it.
pub(crate) fn fault_of_run(
    alloc: Global,
    name: &str,
    names: &FileNames,
    fault: RecoveryFault,
) -> Fault
    ensures { IsFaultOfRecovery fault result }
{
    match fault {
        RecoveryFault::OtherFiles(what) => match name_in(name, names, what) {
            Some(name) => of_other_file(alloc, name),
            None => Fault::from(RecoveryFault::OtherFiles(what)),
        },
        fault => Fault::from(fault),
    }
}

/// The name of a file of a run, of which the config has this name. A key of the config has none.
fn name_in<'a>(config: &'a str, names: &'a FileNames, what: RunFile) -> Option<&'a str>
    ensures { MatchOption result (name_of config.now names.now what ≡ None) (λ name. name_of config.now names.now what ≡ Some name.now) }
{
    match what {
        RunFile::Config => Some(config),
        RunFile::Attempts | RunFile::LongReference => None,
        RunFile::Accounts => Some(names.accounts.as_str()),
        RunFile::Messages => Some(names.messages.as_str()),
        RunFile::Tariff => Some(names.tariff.as_str()),
    }
}

/// The fault of a journal that isn't of the file of this name. It has no name where memory is refused for it.
fn of_other_file(alloc: Global, name: &str) -> Fault
    ensures { IsOfOtherFile result }
{
    match String::from_str(alloc, name) {
        Ok(name) => Fault::OtherFile(name),
        Err(_) => Fault::BadNote(1),
    }
}

/// Writes of a trial that it is one, and gives the exit status of what was recovered.
fn tell_kind<E: Write>(error: &mut E, done: Recovered) -> Result<u8, Fault>
    ensures told { IfOk result (λ status. WritesKind done.kind (E.contents error.old) (E.contents error.new) × (status ≡ done.status)) }
    ensures failed { IfErr result (λ fault. (fault ≡ output_failed) × (done.kind ≡ Trial)) }
    ensures front { WritesFront (E.contents error.old) (E.contents error.new) trial_line }
{
    match done.kind {
        JournalKind::Run => Ok(done.status),
        JournalKind::Trial => match write_out(error, TRIAL.as_bytes()) {
            Ok(()) => Ok(done.status),
            Err(fault) => Err(Fault::from(fault)),
        },
    }
}

/// Prints the messages that a run did not send at all, by its report, or the accounts that go with
/// them. The exit status is 0.
pub fn rest_job<R: AllocGlobal + InputFiles, W: Write>(
    rt: &R,
    context: &mut JobContext,
    order: RestArgs,
    output: &mut W,
) -> Result<u8, Fault>
    ensures status { IfOk result (λ status. status ≡ 0) }
    ensures printed { IfOk result (λ status. (run : TheRunFiles) × IsRun (R.finds rt.now) (string_bytes order.config) (string_bytes order.report) run × PrintsAsked order.accounts order.refs run (W.contents output.old) (W.contents output.new)) }
    ensures refused { IfErr result (FailsRestJob (R.finds rt.now) order (W.contents output.old) (W.contents output.new)) }
    ensures unwritten { IfErr result (λ fault. fault ≢ output_failed → output.new ≡ output.old) }
{
    let (accounts, refs) = (order.accounts, order.refs);
    match read_run(rt, context, order.config, order.report) {
        Ok(run) => left_asked(rt.alloc(), run, accounts, refs, output),
        Err(fault) => Err(fault),
    }
}

/// The same of files that were read, with or without the references of the messages.
fn left_asked<W: Write>(
    alloc: Global,
    run: RunFiles,
    accounts: bool,
    refs: bool,
    output: &mut W,
) -> Result<u8, Fault>
    ensures status { IfOk result (λ status. status ≡ 0) }
    ensures printed { IfOk result (λ status. PrintsAsked accounts refs run (W.contents output.old) (W.contents output.new)) }
    ensures refused { IfErr result (FailsRestAsked accounts refs run (W.contents output.old) (W.contents output.new)) }
    ensures unwritten { IfErr result (λ fault. fault ≢ output_failed → output.new ≡ output.old) }
{
    if !refs {
        return left(alloc, &run, accounts, None, output);
    }
    match without_refs(alloc, run) {
        Ok(plain) => {
            let behind = Some(plain.refs.as_slice());
            left(alloc, &plain.files, accounts, behind, output)
        }
        Err(fault) => Err(fault),
    }
}

/// The same of files that were read.
fn left<W: Write>(
    alloc: Global,
    run: &RunFiles,
    accounts: bool,
    refs: Option<&[String]>,
    output: &mut W,
) -> Result<u8, Fault>
    ensures status { IfOk result (λ status. status ≡ 0) }
    ensures printed { IfOk result (λ status. PrintsLeft accounts (option_copied refs.entry) run.now (W.contents output.old) (W.contents output.new)) }
    ensures refused { IfErr result (FailsRest accounts (option_copied refs.entry) run.now (W.contents output.old) (W.contents output.new)) }
    ensures unwritten { IfErr result (λ fault. fault ≢ output_failed → output.new ≡ output.old) }
{
    if accounts {
        accounts_left(alloc, run, output)
    } else {
        messages_left(alloc, run, refs, output)
    }
}

/// Prints the accounts with what they have left.
fn accounts_left<W: Write>(alloc: Global, run: &RunFiles, output: &mut W) -> Result<u8, Fault>
    ensures status { IfOk result (λ status. status ≡ 0) }
    ensures printed { IfOk result (λ status. PrintsLeft true None run.now (W.contents output.old) (W.contents output.new)) }
    ensures refused { IfErr result (FailsRest true None run.now (W.contents output.old) (W.contents output.new)) }
    ensures unwritten { IfErr result (λ fault. fault ≢ output_failed → output.new ≡ output.old) }
{
    let printed = run_rest_accounts(
        alloc,
        run.config.as_slice(),
        run.named.accounts.as_slice(),
        run.named.messages.as_slice(),
        run.named.tariff(),
        run.written.as_slice(),
        output,
    );
    match printed {
        Ok(()) => Ok(0),
        Err(fault) => Err(Fault::from(fault)),
    }
}

/// Prints the messages that were not sent at all.
fn messages_left<W: Write>(
    alloc: Global,
    run: &RunFiles,
    refs: Option<&[String]>,
    output: &mut W,
) -> Result<u8, Fault>
    ensures status { IfOk result (λ status. status ≡ 0) }
    ensures printed { IfOk result (λ status. PrintsLeft false (option_copied refs.entry) run.now (W.contents output.old) (W.contents output.new)) }
    ensures refused { IfErr result (FailsRest false (option_copied refs.entry) run.now (W.contents output.old) (W.contents output.new)) }
    ensures unwritten { IfErr result (λ fault. fault ≢ output_failed → output.new ≡ output.old) }
{
    let printed = run_rest(
        alloc,
        run.config.as_slice(),
        run.named.accounts.as_slice(),
        run.named.messages.as_slice(),
        run.named.tariff(),
        run.written.as_slice(),
        refs,
        output,
    );
    match printed {
        Ok(()) => Ok(0),
        Err(fault) => Err(Fault::from(fault)),
    }
}
