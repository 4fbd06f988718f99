//! The job of `loop` and `send`: the files that the config names are opened and read, and sent.

ghost use Rattle.std.specs.Prelude.{◌≡◌, ◌≢◌, ◌≤◌, IfErr, IfOk, OnOk, is_some, option_map, string_bytes};
ghost use Rattle.sms_driver.specs.declared.start_gate.Command.TheVariants.{Go};
ghost use Rattle.sms_driver.specs.declared.start.StartPhase.TheVariants.{Idle, Released};
ghost use Rattle.sms_send.specs.Words.{bytes_of};
ghost use Rattle.sms_send.specs.ConfigFiles.{OfConfig};
ghost use Rattle.sms_send.specs.Faults.{ComesAt, output_failed};
ghost use Rattle.sms_send.specs.Noted.{FailsBegin, NotesEnd};
ghost use Rattle.sms_send.specs.PlainFiles.{sees};
ghost use Rattle.sms_send.specs.Reached.{centre_in, centre_of};
ghost use Rattle.sms_send.specs.SendJobs.{FailsSendJob, SendsBy};
ghost use Rattle.sms_send.specs.Sent.{FailsSender, RunsSender, SendingEnd};
ghost use Rattle.sms_send.specs.declared.faults.fault.Fault.TheVariants.{OutOfMemory};

use crate::args::send_args::{JournalFile, SendArgs};
use crate::faults::context::JobContext;
use crate::faults::exposed::FileModes;
use crate::faults::fault::Fault;
use crate::files::fields_file::read_sending;
use crate::files::inbox_file::{line_settings, new_inbox};
use crate::files::open_input::open_input;
use crate::files::opened::InputFiles;
use crate::files::plain_files::PlainFiles;
use crate::files::reading::read_input;
use crate::files::sending_input::{read_noted, read_plain};
use crate::sending::Sending;
use crate::sending::remarks::Remarks;
use crate::sending::sender::{send_all, write_report};
use crate::sending::target::{Target, TargetKind};
use crate::sending::work::Work;
use sms_devices::{Host, MadeFile};
use sms_driver::{Dial, Start};
use sms_files::Config;
use sms_worker::{Clock, Gate, Pause};
use std::alloc::Global;
use std::io::{Read, Write};
use std::marker::Brand;
use std::sync::Wait;
use std::thread::Threads;

/// Reads the config's octets and the files, sends all messages, and writes the report. Gives the
/// exit status: 4 where a segment is unanswered; else, if it is to be strict, 5 where a message was not
/// sent whole; else 0.
pub fn run_sender<
    A: Read + Drop,
    M: Read + Drop,
    T: Read + Drop,
    D: Dial,
    G: Gate + Sync,
    K: Clock + Sync,
    P: Pause + Sync,
    R: Threads + Wait + Sync,
    W: Write,
>(
    rt: &R,
    alloc: Global,
    start: &mut Start<'_>,
    config: &[u8],
    accounts: A,
    messages: M,
    tariff: Option<T>,
    dial: &D,
    gate: &G,
    clock: &K,
    pause: &P,
    strict: bool,
    output: &mut W,
) -> Result<u8, Fault>
    requires not_started { start.old.begun ≡ Idle }
    ensures latch { start.new.latch ≡ start.old.latch }
    ensures started { OnOk result (start.new.begun ≡ Released Go) }
    ensures sent { IfOk result (λ status. RunsSender (D.told dial.now) strict config.now (A.remaining accounts) (M.remaining messages) (option_map T.remaining tariff) (W.contents output.old) (W.contents output.new) status) }
    // A fault is of the first of these that has one, or of the sending of what they say.
    ensures refused { IfErr result (FailsSender (D.refuses dial.now) (D.told dial.now) config.now (A.remaining accounts) (M.remaining messages) (option_map T.remaining tariff) (W.contents output.old) (W.contents output.new)) }
    // And it says whether messages may have been sent: if and only if all workers were started.
    ensures phase { IfErr result (ComesAt start.new.begun) }
    ensures unwritten { IfErr result (λ fault. fault ≢ output_failed → output.new ≡ output.old) }
{
    let input = read_input(alloc, config, accounts, messages, tariff)?;
    let ended = send_all(rt, alloc, start, input, dial, gate, clock, pause)?;
    write_report(alloc, &ended, output)?;
    Ok(ended.exit_status(strict))
}

/// What such a sending has of its centre, by a config that is noted.
fn noted_target(
    alloc: Global,
    context: &mut JobContext,
    kind: TargetKind,
    config: &Config,
) -> Result<Target, Fault>
    requires port { config.now.connection.port ≤ 65535 }
    ensures centre { IfOk result (λ target. centre_of target ≡ centre_in kind config.now) }
    ensures refused { IfErr result (λ fault. fault ≡ OutOfMemory) }
{
    context.note_config(alloc, config);
    Target::new(alloc, kind, config)
}

/// Whether the disk is to have what is noted, and what is kept.
fn is_synced(journal: &Option<JournalFile>) -> bool {
    match journal {
        Some(journal) => journal.sync,
        None => false,
    }
}

/// Reads the config of this name and the files that it names, and sends. With a journal the files are read to
/// their ends first, and what goes out is noted.
pub fn send_job<R: FileModes + Host + InputFiles, W: Write>(
    rt: &R,
    context: &mut JobContext,
    start: &mut Start<'_>,
    kind: TargetKind,
    order: SendArgs,
    output: &mut W,
) -> Result<u8, Fault>
    requires not_started { start.old.begun ≡ Idle }
    ensures latch { start.new.latch ≡ start.old.latch }
    ensures ended { SendingEnd order.strict (λ status. OfConfig (sees order.refs (R.finds rt.now)) (string_bytes order.config) (SendsBy (sees order.refs (R.finds rt.now)) (R.tells rt.now) kind (bytes_of order.fields) order.again order.strict (is_some order.journal) (W.contents output.old) (W.contents output.new) status)) (FailsSendJob (FailsBegin (R.makes rt.now) (R.refuses rt.now) (R.holds rt.now)) (sees order.refs (R.finds rt.now)) (R.tells rt.now) kind order (W.contents output.old) (W.contents output.new)) start.new.begun output.old output.new result }
    // A journal that was asked for is the file that was made by its name, and ends with the note of this.
    ensures noted { IfOk result (NotesEnd R.JournalFile.contents (R.makes rt.now) order.journal) }
{
    let SendArgs {
        config,
        fields,
        quiet,
        verbose,
        journal,
        throttle,
        again,
        lines,
        strict,
        refs,
    } = order;
    let (files, trial) = (PlainFiles { rt, refs }, kind == TargetKind::Loopback);
    let remarks = Remarks::new(quiet, verbose, rt.is_terminal(), rt.has_details(), trial);
    let read = read_sending(&files, config, &fields, remarks.at_length)?;
    let target = noted_target(rt.alloc(), context, kind, &read.config)?;
    let inbox = new_inbox(rt, &lines, &read.config, is_synced(&journal))?;
    let opened = open_input(&files, read.config)?;
    let sending = Sending {
        rt,
        target,
        throttle,
        again,
        remarks,
        lines: line_settings(&lines, &inbox, opened.config.retry.answer_ms),
        strict,
    };
    match journal {
        None => {
            let input = read_plain(rt.alloc(), opened, strict)?;
            let (work, mut kept) = (Work::All(input), None);
            sending.run::<MadeFile<R::JournalFile, Brand>, W>(start, work, None, output, &mut kept)
        }
        Some(wanted) => {
            let noted = read_noted(rt, rt.alloc(), read.octets.as_slice(), opened, strict)?;
            sending.run_noted(start, noted.input, &noted.digests, wanted, output)
        }
    }
}
