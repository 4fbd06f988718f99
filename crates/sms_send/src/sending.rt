//! A sending: how messages go to their message centre, and how the report of it is written.

ghost use Rattle.std.specs.Prelude.{◌≡◌, ◌⊎◌, None, IfErr, IfOk, is_some};
ghost use Rattle.sms_driver.specs.declared.start.StartPhase.TheVariants.{Idle};
ghost use Rattle.sms_send.specs.Reached.{centre_of};
ghost use Rattle.std.specs.Io.KnownBytes.{Appends};
ghost use Rattle.sms_files.specs.Output.{WritesFront};
ghost use Rattle.sms_files.specs.Report.{report_of};
ghost use Rattle.sms_send.specs.Faults.{output_failed, unreported};
ghost use Rattle.sms_send.specs.Kept.{KeepsSent};
ghost use Rattle.sms_send.specs.Sent.{FailsOver, FailsPrinting, deaf, FailsSending, HasRows, PrintsSent, SendingEnd, SendsWork, limits_by};
ghost use Rattle.sms_send.specs.Statuses.{status_by};

pub mod came;
pub mod interval;
pub mod kept;
pub mod noted;
pub mod remarks;
pub mod resumed;
pub mod round_dial;
pub mod rounds;
pub mod sender;
pub mod status;
pub mod target;
pub mod work;

use crate::args::send_args::{Again, Throttle};
use crate::faults::fault::Fault;
use crate::faults::inbox::tell_unkept;
use crate::faults::unconnected::reasoned;
use crate::faults::unsent::report_unsent;
use crate::sending::interval::Between;
use crate::sending::kept::{Kept, kept_of};
use crate::sending::remarks::Remarks;
use crate::sending::round_dial::RoundDial;
use crate::sending::sender::{Ended, write_ends};
use crate::sending::status::status_of;
use crate::sending::target::Target;
use crate::sending::work::{SentWork, Work, send_work};
use sms_book::{Opening, Statement};
use sms_devices::{
    Connects, GateLimits, Host, Journal, JournalFiles, LineSettings, LoopDial, Outboxes, Parking,
    Progress, SendGate, TakesNotices, TcpDial, Terminal,
};
use sms_driver::{BindFailure, Devices, Start};
use sms_files::Config;
use sms_message::MessageEnd;
use sms_worker::{Clock, Pause};
use std::fs::OpenFile;
use std::io::Write;
use std::mem;
use std::net::TcpListener;

/// How the messages of an input are sent, and what is printed of it.
#[derive(Drop)]
pub struct Sending<'r, 'i, R: JournalFiles> {
    /// The system, or that of a test.
    pub rt: &'r R,
    /// The message centre that they go to.
    pub target: Target,
    /// How long is waited for the binds, and how fast and how far is sent.
    pub throttle: Throttle,
    /// How often it goes on in a further round; never where it is none.
    pub again: Option<Again>,
    /// What standard error has of it beside a fault.
    pub remarks: Remarks,
    /// Where what the message centre says is kept, and when lines are asked.
    pub lines: LineSettings<'i, R::JournalFile>,
    /// Whether the exit status says that a message was not sent whole.
    pub strict: bool,
}

/// What bounds a sending by this config.
fn gate_limits(config: &Config, throttle: Throttle) -> GateLimits
    ensures { result ≡ limits_by config.now throttle }
{
    GateLimits {
        answer_ms: config.retry.answer_ms,
        rate: throttle.rate,
        stop_after: throttle.stop_after,
    }
}

/// What the program's own test centres listen on.
fn listening<R: Connects>(rt: &R) -> Result<TcpListener, Fault>
    ensures refused { IfErr result (λ fault. fault ≡ deaf) }
{
    match rt.listen() {
        Some(listener) => Ok(listener),
        None => Err(Fault::BindFailed(0, BindFailure::NoConnection)),
    }
}

/// Whether the journal of a run has failed, where it has one.
pub(crate) fn has_failed<F: Write + OpenFile>(journal: Option<&Journal<F>>) -> bool {
    match journal {
        Some(journal) => journal.has_failed(),
        None => false,
    }
}

impl<'r, 'i, R: Host> Sending<'r, 'i, R> {
    /// Connects to the message centre, sends what there is to send, each message noted in the journal if there is
    /// one, and writes the report. Gives the exit status.
    pub fn run<'j, F: Write + OpenFile + Send + Drop, W: Write>(
        &'j self,
        start: &mut Start<'_>,
        work: Work,
        journal: Option<&'j Journal<F>>,
        output: &mut W,
        kept: &mut Option<Kept>,
    ) -> Result<u8, Fault>
        requires not_started { start.old.begun ≡ Idle }
        requires rows { HasRows work }
        ensures latch { start.new.latch ≡ start.old.latch }
        ensures ended { SendingEnd self.now.strict (SendsWork (R.tells self.now.rt.now (centre_of self.now.target) (is_some journal.entry)) self.now.again self.now.strict work (W.contents output.old) (W.contents output.new)) (FailsSending (centre_of self.now.target) (R.tells self.now.rt.now (centre_of self.now.target) (is_some journal.entry)) self.now.again work (W.contents output.old) (W.contents output.new)) start.new.begun output.old output.new result }
        ensures kept { kept.old ≡ None → KeepsSent (W.contents output.old) (W.contents output.new) result kept.new }
    {
        let rt = self.rt;
        let outboxes = Outboxes::new(rt, journal, work.config().limits.workers);
        let pause = Parking {
            rt,
            outboxes: &outboxes,
        };
        match &self.target {
            Target::Remote(host, port) => {
                let dial = TcpDial {
                    rt,
                    alloc: rt.alloc(),
                    outboxes: &outboxes,
                    round: 1,
                    connect_ms: self.throttle.connect_ms,
                    host: host.as_str(),
                    port: *port,
                    lines: self.lines.another(),
                };
                let sent = self.send_over(start, work, &outboxes, &dial, &pause, output, kept);
                reasoned(&outboxes, sent)
            }
            Target::Loopback(bind_status, answers) => {
                let listener = listening(rt)?;
                let dial = LoopDial {
                    rt,
                    alloc: rt.alloc(),
                    outboxes: &outboxes,
                    round: 1,
                    connect_ms: self.throttle.connect_ms,
                    listener: &listener,
                    bind_status: *bind_status,
                    answers: answers.as_slice(),
                    lines: self.lines.another(),
                };
                let sent = self.send_over(start, work, &outboxes, &dial, &pause, output, kept);
                reasoned(&outboxes, sent)
            }
        }
    }

    /// Sends over the connections that the dial makes, and writes the report. The journal is complete before the
    /// report is formed. A person sees the progress, and the outcome also where the report couldn't be written.
    fn send_over<'j, F: Write + OpenFile + Send + Drop, D: RoundDial, P: Pause + Sync, W: Write>(
        &'j self,
        start: &mut Start<'_>,
        work: Work,
        outboxes: &Outboxes<'j, R, F>,
        dial: &D,
        pause: &P,
        output: &mut W,
        kept: &mut Option<Kept>,
    ) -> Result<u8, Fault>
        requires not_started { start.old.begun ≡ Idle }
        requires rows { HasRows work }
        ensures latch { start.new.latch ≡ start.old.latch }
        ensures ended { SendingEnd self.now.strict (SendsWork (λ round. D.told (D.of_round dial.now round)) self.now.again self.now.strict work (W.contents output.old) (W.contents output.new)) (FailsOver (λ round. D.refuses (D.of_round dial.now round)) (λ round. D.told (D.of_round dial.now round)) self.now.again work (W.contents output.old) (W.contents output.new)) start.new.begun output.old output.new result }
        ensures kept { KeepsSent (W.contents output.old) (W.contents output.new) result kept.new }
    {
        *kept = None;
        let rt = self.rt;
        let limits = gate_limits(work.config(), self.throttle);
        outboxes.set_patience(limits.answer_ms);
        let clock = outboxes.start_clock();
        let progress = Progress::new(
            rt,
            Terminal::new(rt),
            clock,
            self.remarks.telling,
            work.count(),
            self.remarks.trial,
        );
        let gate = SendGate::new(rt.alloc(), &*outboxes, clock, &progress, limits).staying(
            self.lines.stay(),
        );
        let interval = Between::new(self, work.config(), &*outboxes, &gate, &progress);
        let devices = Devices {
            dial,
            gate: &gate,
            clock,
            pause,
        };
        let sent = send_work(rt, rt.alloc(), start, work, self.again, &devices, &interval);
        outboxes.flush();
        progress.clear();
        tell_unkept(rt, self.lines.inbox);
        match sent {
            Ok(sent) => self.print_sent(sent, outboxes, &progress, output, kept),
            Err(fault) => Err(fault),
        }
    }

    /// Writes the report of what was sent, and what there is to say of it beside. Gives the exit status.
    fn print_sent<'j, F: Write + OpenFile, N: TakesNotices, K: Clock, W: Write>(
        &self,
        sent: SentWork,
        outboxes: &Outboxes<'j, R, F>,
        progress: &Progress<'_, R, N, K>,
        output: &mut W,
        kept: &mut Option<Kept>,
    ) -> Result<u8, Fault>
        ensures kept { KeepsSent (W.contents output.old) (W.contents output.new) result kept.new }
        ensures printed { IfOk result (λ status. PrintsSent self.now.strict sent (W.contents output.old) (W.contents output.new) status) }
        ensures failed { IfErr result (FailsPrinting sent (W.contents output.old) (W.contents output.new)) }
        ensures quiet { IfErr result (λ fault. fault ≡ unreported → output.new ≡ output.old) }
    {
        match sent {
            SentWork::Whole(ended) => {
                let (openings, ends, statement) = (
                    ended.openings(),
                    ended.ends(),
                    ended.statement(),
                );
                let status = self.print(openings, ends, statement, progress, output);
                *kept = kept_of(self.rt.alloc(), ends, statement, &status);
                self.tell_unsent(&ended, outboxes);
                // The process ends next, which frees it at once.
                mem::forget(ended);
                status
            }
            SentWork::Resumed(run) => {
                let (openings, ends, statement) = (run.openings(), run.ends(), run.statement());
                let status = self.print(openings, ends, statement, progress, output);
                *kept = kept_of(self.rt.alloc(), ends, statement, &status);
                mem::forget(run);
                status
            }
        }
    }

    /// Writes the report of these ends and, for a person, what they come to. Gives the exit status.
    fn print<S, N: TakesNotices, K: Clock, W: Write>(
        &self,
        openings: &[Opening],
        ends: &[MessageEnd<S>],
        statement: &Statement,
        progress: &Progress<'_, R, N, K>,
        output: &mut W,
    ) -> Result<u8, Fault>
        ensures printed { IfOk result (λ status. Appends (W.contents output.old) (W.contents output.new) (report_of openings.now ends.now statement.now) × (status ≡ status_by self.now.strict ends.now)) }
        ensures failed { IfErr result (λ fault. (fault ≡ output_failed) ⊎ (fault ≡ unreported)) }
        ensures front { IfErr result (λ fault. fault ≡ output_failed → WritesFront (W.contents output.old) (W.contents output.new) (report_of openings.now ends.now statement.now)) }
        ensures quiet { IfErr result (λ fault. fault ≡ unreported → output.new ≡ output.old) }
    {
        let written = write_ends(self.rt.alloc(), openings, ends, statement, output);
        progress.sum_up(ends, statement);
        match written {
            Ok(()) => Ok(status_of(ends, self.strict)),
            Err(fault) => Err(fault),
        }
    }

    /// At length, says why messages were not sent. Over several rounds that was said at the end of each.
    fn tell_unsent<'j, F: Write + OpenFile>(&self, ended: &Ended, outboxes: &Outboxes<'j, R, F>) {
        if self.again.is_none() {
            let is_lost = has_failed(outboxes.journal());
            let at_length = self.remarks.at_length;
            report_unsent(
                self.rt,
                ended.ends(),
                ended.binds(),
                at_length,
                self.throttle,
                is_lost,
            );
        }
    }
}
