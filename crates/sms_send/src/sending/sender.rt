//! The sender: what was read is sent over all binds, and ends as its contract says.

ghost use Rattle.std.specs.Prelude.{◌≡◌, ◌≤◌, ◌⊎◌, IfErr, IfOk, OnOk};
ghost use Rattle.std.specs.Io.KnownBytes.{Appends};
ghost use Rattle.sms_files.specs.Output.{WritesFront};
ghost use Rattle.sms_files.specs.Report.{report_of};
ghost use Rattle.sms_send.specs.Faults.{ComesAt, output_failed, unreported};
ghost use Rattle.sms_send.specs.Sent.{IsSent, FailsDriving};
ghost use Rattle.sms_send.specs.Settings.{AreRunSettings, AreSettingsOf};
ghost use Rattle.sms_send.specs.Statuses.{status_by};
ghost use Rattle.sms_driver.specs.declared.start_gate.Command.TheVariants.{Go};
ghost use Rattle.sms_driver.specs.declared.start.StartPhase.TheVariants.{Idle, Released};

use crate::faults::fault::Fault;
use crate::sending::status::status_of;
use sms_bind::SettledLog;
use sms_book::{Opening, Statement, Tariff};
use sms_driver::{BindEnd, BindSettings, Devices, Dial, RunSettings, Sending, Start, drive_all};
use sms_files::{Config, Connection, Flags, Input, Limits, OutputFault, rules_of, write_report_of};
use sms_message::MessageEnd as End;
use sms_worker::{Clock, Gate, MessageEnd, Pause, Reasons};
use std::alloc::Global;
use std::io::Write;
use std::sync::Wait;
use std::thread::Threads;

/// How many turns readers and workers take at most.
const TURNS: u64 = 1 << 40;

/// What a sending ends with: an end for each message, in order, a row for each account, and what
/// became of each bind.
/// `send_all` alone makes one.
#[derive(Drop)]
pub struct Ended {
    openings: Vec<Opening>,
    ends: Vec<MessageEnd>,
    statement: Statement,
    binds: Vec<BindEnd>,
    /// Why parts and messages were not sent, worker by worker, bind by bind.
    reasons: Vec<Reasons>,
    /// The frames that the wires were given.
    log: SettledLog,
}

impl Ended {
    /// What a sending, or the rounds of a run, from these accounts ended with.
    pub(crate) fn new(openings: Vec<Opening>, sending: Sending) -> Ended
        ensures openings { result.openings ≡ openings }
        ensures ends { result.ends ≡ sending.ends }
        ensures statement { result.statement ≡ sending.statement }
        ensures binds { result.binds ≡ sending.binds }
        ensures reasons { result.reasons ≡ sending.reasons }
        ensures log { result.log ≡ sending.log }
    {
        let Sending {
            ends,
            statement,
            binds,
            reasons,
            log,
        } = sending;
        Ended {
            openings,
            ends,
            statement,
            binds,
            reasons,
            log,
        }
    }

    /// The accounts as they were opened.
    pub fn openings(&self) -> &[Opening]
        ensures { result.now ≡ self.now.openings.items }
    {
        self.openings.as_slice()
    }

    /// What became of the messages.
    pub fn ends(&self) -> &[MessageEnd]
        ensures { result.now ≡ self.now.ends.items }
    {
        self.ends.as_slice()
    }

    /// The program's exit status: 4 where a segment is unanswered; else, if it is to be strict, 5 where a
    /// message was not sent whole; else 0.
    pub fn exit_status(&self, strict: bool) -> u8
        ensures { result ≡ status_by strict self.now.ends.items }
    {
        status_of(self.ends.as_slice(), strict)
    }

    /// What became of the accounts.
    pub fn statement(&self) -> &Statement
        ensures { result.now ≡ self.now.statement }
    {
        &self.statement
    }

    /// What became of the binds.
    pub fn binds(&self) -> &[BindEnd]
        ensures { result.now ≡ self.now.binds.items }
    {
        self.binds.as_slice()
    }
}

/// What all binds have in common.
fn bind_settings_of(connection: Connection, limits: Limits, flags: Flags) -> BindSettings
    ensures { AreSettingsOf connection limits flags result }
{
    BindSettings {
        settings: connection.settings,
        limit: limits.window,
        follow: flags.follow,
    }
}

/// How messages are sent by a config and a tariff.
pub(crate) fn settings_of(config: Config, tariff: Tariff) -> RunSettings
    ensures settings { AreRunSettings config tariff result }
    ensures bound { (result.binds ≤ 4) × (result.workers ≤ 8) }
{
    let Config {
        connection,
        limits,
        retry,
        flags,
        fields,
        ..
    } = config;
    RunSettings {
        binds: limits.binds as usize,
        workers: limits.workers as usize,
        bind_settings: bind_settings_of(connection, limits, flags),
        rules: rules_of(retry, limits, flags, fields, tariff, TURNS),
    }
}

/// Makes all binds, sends all messages, and ends the binds. Nothing is sent if a bind fails; the first that fails is the
/// fault. On a fault the start says whether messages may have been sent: only if all workers were started.
pub fn send_all<
    'l,
    D: Dial,
    G: Gate + Sync,
    K: Clock + Sync,
    P: Pause + Sync,
    R: Threads + Wait + Sync,
>(
    rt: &R,
    alloc: Global,
    start: &mut Start<'l>,
    input: Input,
    dial: &D,
    gate: &G,
    clock: &K,
    pause: &P,
) -> Result<Ended, Fault>
    requires not_started { start.old.begun ≡ Idle }
    ensures latch { start.new.latch ≡ start.old.latch }
    ensures started { OnOk result (start.new.begun ≡ Released Go) }
    ensures sent { IfOk result (IsSent (D.told dial.now) input) }
    // A fault is of one of the config's binds, and agrees with what was read of it, or of memory; no worker was started.
    ensures refused { IfErr result (FailsDriving (D.refuses dial.now) (D.told dial.now) input.config start.new.begun) }
    // So the fault says whether messages may have been sent.
    ensures phase { IfErr result (ComesAt start.new.begun) }
{
    let (config, openings, messages, tariff) = input.into_parts();
    let settings = settings_of(config, tariff);
    let devices = Devices {
        dial,
        gate,
        clock,
        pause,
    };
    let driven = drive_all(
        rt,
        alloc,
        start,
        &settings,
        openings.as_slice(),
        messages,
        &devices,
    );
    let sending = match driven {
        Ok(sending) => sending,
        Err(fault) => return Err(Fault::from(fault)),
    };
    let Sending {
        ends,
        statement,
        binds,
        reasons,
        log,
    } = sending;
    Ok(Ended {
        openings,
        ends,
        statement,
        binds,
        reasons,
        log,
    })
}

/// Writes what is printed of a sending. It is made whole before its first octet is written; where memory is
/// refused for that, the messages have ended.
pub fn write_report<W: Write>(alloc: Global, ended: &Ended, output: &mut W) -> Result<(), Fault>
    ensures written { OnOk result (Appends (W.contents output.old) (W.contents output.new) (report_of ended.now.openings.items ended.now.ends.items ended.now.statement)) }
    ensures failed { IfErr result (λ fault. (fault ≡ output_failed) ⊎ (fault ≡ unreported)) }

    // Where the output failed, the beginning of the text was written, and else nothing.
    ensures front { IfErr result (λ fault. fault ≡ output_failed → WritesFront (W.contents output.old) (W.contents output.new) (report_of ended.now.openings.items ended.now.ends.items ended.now.statement)) }
    ensures quiet { IfErr result (λ fault. fault ≡ unreported → output.new ≡ output.old) }
{
    write_ends(
        alloc,
        ended.openings(),
        ended.ends(),
        ended.statement(),
        output,
    )
}

/// The same of ends with other evidence that their requests were sent.
pub fn write_ends<S, W: Write>(
    alloc: Global,
    openings: &[Opening],
    ends: &[End<S>],
    statement: &Statement,
    output: &mut W,
) -> Result<(), Fault>
    ensures written { OnOk result (Appends (W.contents output.old) (W.contents output.new) (report_of openings.now ends.now statement.now)) }
    ensures failed { IfErr result (λ fault. (fault ≡ output_failed) ⊎ (fault ≡ unreported)) }
    ensures front { IfErr result (λ fault. fault ≡ output_failed → WritesFront (W.contents output.old) (W.contents output.new) (report_of openings.now ends.now statement.now)) }
    ensures quiet { IfErr result (λ fault. fault ≡ unreported → output.new ≡ output.old) }
{
    match write_report_of(alloc, openings, ends, statement, output) {
        Ok(()) => Ok(()),
        Err(fault) => match fault {
            OutputFault::Output(unwritten) => Err(Fault::Output(unwritten)),
            OutputFault::OutOfMemory(refused) => Err(Fault::Unreported(refused)),
        },
    }
}
