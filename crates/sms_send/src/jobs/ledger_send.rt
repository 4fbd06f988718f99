//! The job of `send` on a ledger, and of `loop` on one of trials. Its steps, and what a kill behind each leaves:
//!
//! | step | what a kill behind it leaves, and what ends that |
//! |---|---|
//! | the ledger is locked and read; the accounts that the messages name are opened with what is free of them | nothing |
//! | the journal is made, with the run's name and accounts, on the disk | a journal of a run that took nothing: `settle` books nothing |
//! | the takings are booked, on the disk, and the ledger is let go | credits that are out with a run that sent nothing: `settle` brings them back |
//! | the messages are sent, noted in the journal | credits that are out: `resume` goes on, or `settle` brings back what the journal says |
//! | the report is printed | the same |
//! | what came back is booked, on the disk | nothing. `settle` books nothing |

ghost use Rattle.std.specs.Prelude.{◌≡◌, ◌≢◌, IfErr, IfOk, OnOk, string_bytes, true};
ghost use Rattle.sms_driver.specs.declared.start.StartPhase.TheVariants.{Idle, Released};
ghost use Rattle.sms_driver.specs.declared.start_gate.Command.TheVariants.{Go};
ghost use Rattle.sms_ledger.specs.InMemory.{state_in};
ghost use Rattle.sms_send.specs.Faults.{ComesAt, HasLostJournal, IsUnsettled, output_failed};
ghost use Rattle.sms_send.specs.LedgerKinds.{kind_for};
ghost use Rattle.sms_send.specs.LedgerSendings.{BeginsOn, FailsBeginOn, FailsHead, FailsNotedOn, FailsOnLedger, FailsPlan, FailsSendOn, IsHeadedFile, IsNotedOn, IsPlanOf, SendsLedger, SendsOn};
ghost use Rattle.sms_send.specs.Reached.{centre_in, centre_of};
ghost use Rattle.sms_send.specs.PlainFiles.{sees};
ghost use Rattle.sms_send.specs.Statuses.{IsStatusBy};

use crate::args::send_args::{JournalFile, SendArgs};
use crate::faults::argument_error::ArgumentError;
use crate::faults::context::JobContext;
use crate::faults::exposed::FileModes;
use crate::faults::fault::Fault;
use crate::files::config_file::ConfigFile;
use crate::files::fields_file::read_sending;
use crate::files::headed::files_with;
use crate::files::inbox_file::{line_settings, new_inbox};
use crate::files::named_files::NamedFiles;
use crate::files::opened::InputFiles;
use crate::files::plain_files::PlainFiles;
use crate::files::sending_input::{NotedInput, read_digested};
use crate::jobs::booking::{post_lines, put_lines};
use crate::jobs::ledger_end::end_on;
use crate::jobs::ledger_job::{ReadLedger, read_ledger};
use crate::jobs::ledger_kind::{join_kind, ledger_kind};
use crate::jobs::ledger_run::names_of;
use crate::sending::Sending;
use crate::sending::noted::unmade_for;
use crate::sending::remarks::Remarks;
use crate::sending::target::{Target, TargetKind};
use sms_core::Row;
use sms_devices::{HeldFile, Host, JournalFailure, JournalFiles, LedgerFiles, unix_ms};
use sms_driver::Start;
use sms_files::{Config, Input};
use sms_journal::Digests;
use sms_journal::of_ledger::{accounts_of, name_of_run, opened_rows, run_head, takings_for};
use sms_ledger::{Ledger, Name, Run};
use std::alloc::Global;
use std::fs::OpenFile;
use std::io::Write;
use std::marker::Brand;
use std::thread::Threads;

/// A run of a ledger, by its name there, and its accounts by theirs.
#[derive(Drop)]
pub(crate) struct Debtor {
    pub(crate) run: Run,
    pub(crate) accounts: Vec<Name>,
    /// Their rows where nothing was sent.
    pub(crate) unused: Vec<Row>,
}

/// What a run is to send, with the credits that it is to take.
#[derive(Drop)]
struct Plan {
    debtor: Debtor,
    input: Input,
    digests: Digests,
    /// What stands before its journal.
    head: Vec<u8>,
    /// The lines of what it takes.
    lines: String,
}

/// A run whose credits are out, and whose journal is begun.
#[derive(Drop)]
struct BegunRun<F> {
    debtor: Debtor,
    input: Input,
    digests: Digests,
    journal: F,
}

/// The name of a run in a ledger with these octets, and what it takes for the accounts of its input, booked in memory.
fn planned(
    alloc: Global,
    time: u64,
    octets: &[u8],
    ledger: &mut Ledger,
    journal: &str,
    noted: NotedInput,
    accounts: &[u8],
) -> Result<Plan, Fault>
    ensures planned { IfOk result (IsPlanOf time octets.now journal.now noted accounts.now (state_in ledger.old) (state_in ledger.new)) }
    ensures refused { IfErr result (FailsPlan time octets.now journal.now noted.input (state_in ledger.old)) }
{
    let NotedInput { input, digests } = noted;
    let openings = input.openings();
    let names = names_of(alloc, openings)?;
    let unused = opened_rows(alloc, openings)?;
    let run = name_of_run(alloc, time, journal.as_bytes(), octets)?;
    let entries = takings_for(alloc, &run, names.as_slice(), openings)?;
    let lines = post_lines(alloc, time, ledger, entries.as_slice())?;
    let head = run_head(alloc, &run, accounts)?;
    Ok(Plan {
        debtor: Debtor {
            run,
            accounts: names,
            unused,
        },
        input,
        digests,
        head,
        lines,
    })
}

/// A new journal of this name, with what stands before it, on the disk.
fn headed_journal<R: AllocGlobal + JournalFiles>(
    rt: &R,
    wanted: &JournalFile,
    head: &[u8],
) -> Result<R::JournalFile, Fault>
    ensures made { IfOk result (IsHeadedFile R.JournalFile.contents (R.makes rt.now (string_bytes wanted.now.name)) head.now) }
    ensures refused { IfErr result (FailsHead (R.makes rt.now) (R.refuses rt.now) (R.holds rt.now) wanted.now) }
{
    let mut file = match rt.create_journal(wanted.name.as_str(), true) {
        Ok(file) => file,
        Err(why) => return Err(unmade_for(rt.alloc(), wanted, why)),
    };
    if let Err(error) = file.write_all(head) {
        return Err(Fault::Unbegun(JournalFailure::of(error.kind())));
    }
    match file.sync_all() {
        Ok(()) => Ok(file),
        Err(error) => Err(Fault::Unbegun(JournalFailure::of(error.kind()))),
    }
}

/// What these octets of a config and these files say, with the accounts of a ledger.
fn noted_on<R: Threads>(
    rt: &R,
    alloc: Global,
    octets: &[u8],
    config: Config,
    named: NamedFiles,
    ledger: &Ledger,
    strict: bool,
) -> Result<(NotedInput, Vec<u8>), Fault>
    ensures read { IfOk result (λ read. IsNotedOn octets.now config named (state_in ledger.now) strict read.0 read.1.items) }
    ensures refused { IfErr result (FailsNotedOn config named (state_in ledger.now) strict) }
{
    let accounts = accounts_of(alloc, ledger, named.messages.as_slice())?;
    let named = NamedFiles { accounts, ..named };
    let noted = read_digested(rt, alloc, octets, config, &named, strict)?;
    let NamedFiles { accounts, .. } = named;
    Ok((noted, accounts))
}

/// Begins a run on the ledger of a file that is held: its journal has its name and accounts, and then the ledger has what it takes, each on
/// the disk.
fn begin_on<R: Host + LedgerFiles>(
    rt: &R,
    file: &mut R::LedgerFile,
    read: ConfigFile,
    named: NamedFiles,
    wanted: &JournalFile,
    strict: bool,
) -> Result<BegunRun<R::JournalFile>, Fault>
    ensures begun { IfOk result (BeginsOn (R.makes rt.now) R.JournalFile.contents R.LedgerFile.octets R.LedgerFile.stored read named wanted.now strict file.old file.new) }
    ensures failed { IfErr result (FailsBeginOn (FailsHead (R.makes rt.now) (R.refuses rt.now) (R.holds rt.now) wanted.now) R.LedgerFile.errs R.LedgerFile.octets read named strict file.old file.new) }
    ensures same { R.LedgerFile.opening file.new ≡ R.LedgerFile.opening file.old }
{
    let alloc = rt.alloc();
    let ReadLedger {
        octets: found,
        mut ledger,
    } = read_ledger(alloc, file)?;
    let ConfigFile { octets, config } = read;
    let (noted, accounts) = noted_on(rt, alloc, octets.as_slice(), config, named, &ledger, strict)?;
    let name = wanted.name.as_str();
    let plan = planned(
        alloc,
        unix_ms(rt),
        found.as_slice(),
        &mut ledger,
        name,
        noted,
        accounts.as_slice(),
    )?;
    let Plan {
        debtor,
        input,
        digests,
        head,
        lines,
    } = plan;
    let journal = headed_journal(rt, wanted, head.as_slice())?;
    put_lines(alloc, file, found.as_slice(), lines)?;
    Ok(BegunRun {
        debtor,
        input,
        digests,
        journal,
    })
}

/// Reads the config of this name with the fields of the sending, and its messages, opens the accounts that these name with all that is free of them in the ledger of this
/// name, takes that out, sends, prints the report, and gives back what its statement says. Gives the exit status.
pub fn ledger_send_job<R: FileModes + Host + InputFiles + LedgerFiles, W: Write>(
    rt: &R,
    context: &mut JobContext,
    start: &mut Start<'_>,
    kind: TargetKind,
    ledger: String,
    order: SendArgs,
    output: &mut W,
) -> Result<u8, Fault>
    requires not_started { start.old.begun ≡ Idle }
    ensures latch { start.new.latch ≡ start.old.latch }
    ensures sent { IfOk result (SendsOn (R.makes rt.now) R.JournalFile.contents (sees order.refs (R.finds rt.now)) (R.tells rt.now) kind (R.holds_ledger rt.now) R.LedgerFile.octets R.LedgerFile.stored R.LedgerFile.opening R.LedgerFile.is_closed (string_bytes ledger) order (W.contents output.old) (W.contents output.new)) }
    ensures kind { OnOk result (R.has_kind rt.now (string_bytes ledger) (kind_for kind)) }
    ensures status { IfOk result (IsStatusBy order.strict) }
    ensures started { OnOk result (start.new.begun ≡ Released Go) }
    ensures refused { IfErr result (FailsSendOn (R.makes rt.now) (R.refuses rt.now) (R.holds rt.now) (sees order.refs (R.finds rt.now)) (R.tells rt.now) kind (R.holds_ledger rt.now) (R.lacks_ledger rt.now) R.LedgerFile.errs R.LedgerFile.octets R.LedgerFile.stored R.LedgerFile.opening R.LedgerFile.is_closed (string_bytes ledger) order start.new.begun (W.contents output.old) (W.contents output.new)) }
    ensures phase { IfErr result (ComesAt start.new.begun) }
    ensures unwritten { IfErr result (λ fault. fault ≢ output_failed → ¬ HasLostJournal fault → ¬ IsUnsettled fault → output.new ≡ output.old) }
{
    let SendArgs {
        config,
        fields,
        quiet,
        verbose,
        journal,
        throttle,
        again,
        lines,
        strict,
        refs,
    } = order;
    let Some(wanted) = journal else {
        return Err(Fault::Words(ArgumentError::LedgerAlone));
    };
    let (files, trial) = (PlainFiles { rt, refs }, kind == TargetKind::Loopback);
    let remarks = Remarks::new(quiet, verbose, rt.is_terminal(), rt.has_details(), trial);
    let read = read_sending(&files, config, &fields, remarks.at_length)?;
    context.note_ledger_config(rt.alloc(), &read.config);
    let target = Target::new(rt.alloc(), kind, &read.config)?;
    let named = files_with(&files, &read.config.files, Vec::new(rt.alloc()))?;
    let inbox = new_inbox(rt, &lines, &read.config, wanted.sync)?;
    let sending = Sending {
        rt,
        target,
        throttle,
        again,
        remarks,
        lines: line_settings(&lines, &inbox, read.config.retry.answer_ms),
        strict,
    };
    let name = ledger.as_str();
    send_on(&sending, start, kind, name, read, named, &wanted, output)
}

/// The same of a config and messages that were read.
fn send_on<R: Host + LedgerFiles, W: Write>(
    sending: &Sending<'_, '_, R>,
    start: &mut Start<'_>,
    kind: TargetKind,
    ledger: &str,
    read: ConfigFile,
    named: NamedFiles,
    wanted: &JournalFile,
    output: &mut W,
) -> Result<u8, Fault>
    requires not_started { start.old.begun ≡ Idle }
    requires centre { centre_of sending.now.target ≡ centre_in kind read.config }
    ensures latch { start.new.latch ≡ start.old.latch }
    ensures sent { IfOk result (λ status. SendsLedger (R.makes sending.now.rt.now) R.JournalFile.contents (R.tells sending.now.rt.now) kind (R.holds_ledger sending.now.rt.now) R.LedgerFile.octets R.LedgerFile.stored R.LedgerFile.opening R.LedgerFile.is_closed ledger.now sending.now.again sending.now.strict named wanted.now (W.contents output.old) (W.contents output.new) status read.config) }
    ensures kind { OnOk result (R.has_kind sending.now.rt.now ledger.now (kind_for kind)) }
    ensures status { IfOk result (IsStatusBy sending.now.strict) }
    ensures started { OnOk result (start.new.begun ≡ Released Go) }
    ensures refused { IfErr result (FailsOnLedger (R.makes sending.now.rt.now) (R.refuses sending.now.rt.now) (R.holds sending.now.rt.now) (R.tells sending.now.rt.now) kind (R.holds_ledger sending.now.rt.now) (R.lacks_ledger sending.now.rt.now) R.LedgerFile.errs R.LedgerFile.octets R.LedgerFile.stored R.LedgerFile.opening R.LedgerFile.is_closed ledger.now sending.now.again sending.now.strict read named wanted.now start.new.begun (W.contents output.old) (W.contents output.new)) }
    ensures phase { IfErr result (ComesAt start.new.begun) }
    ensures unwritten { IfErr result (λ fault. fault ≢ output_failed → ¬ HasLostJournal fault → ¬ IsUnsettled fault → output.new ≡ output.old) }
{
    let rt = sending.rt;
    let mut file = join_kind(rt, ledger_kind(kind), ledger)?;
    let begun = begin_on(rt, &mut file, read, named, wanted, sending.strict);
    file.close();
    let BegunRun {
        debtor,
        input,
        digests,
        journal,
    } = begun?;
    let mut kept = None;
    let sent = sending.run_in_file::<Brand, W>(
        start, input, &digests, journal, wanted, output, &mut kept,
    );
    end_on(rt, ledger, &debtor, start.begun(), kept, sent)
}
