//! The connections of binds: to a message centre, or to the program's own test centres.

ghost use Rattle.std.specs.Prelude.{◌≡◌, IfOk, IfSome, IsOkAnd, map, string_bytes};
ghost use Rattle.sms_devices.specs.Centres.CentreAt.{Named, Own};
ghost use Rattle.sms_devices.specs.Outboxes.{has_journal};

use crate::inbox::LineSettings;
use crate::transport::connecting::Unconnected;
use crate::transport::connects::{Connects, RoundBind};
use crate::transport::guarded::Guarded;
use crate::transport::opening::Deadline;
use crate::transport::outbox::Outbox;
use crate::transport::outbox_writer::OutboxWriter;
use crate::transport::outboxes::Outboxes;
use crate::waking::{Incoming, WakingReader};
use sms_driver::Dial;
use std::alloc::Global;
use std::fs::OpenFile;
use std::io::Write;
use std::net::{TcpListener, TcpStream};
use std::sync::Wait;
use std::time::Clock;

/// How many milliseconds the answer to a bind may take, if no other limit is set. It ends the wait for an answer
/// of which a few octets come now and then.
const MOST_ANSWER_MS: u32 = 60_000;

/// Until when a bind that is dialled now has to be answered, if there is a limit. It fails if the clock can't be
/// read.
fn deadline_of<R: Clock>(rt: &R, connect_ms: Option<u32>) -> Result<Option<Deadline>, Unconnected> {
    match connect_ms {
        Some(ms) => match Deadline::new(rt, ms) {
            Some(deadline) => Ok(Some(deadline)),
            None => Err(Unconnected::Other),
        },
        None => Ok(None),
    }
}

/// Until when the answer to a bind has to be whole: the deadline, if there is one, or else a minute from now.
fn answered_by<R: Clock>(rt: &R, deadline: Option<Deadline>) -> Option<Deadline> {
    match deadline {
        Some(deadline) => Some(deadline),
        None => Deadline::new(rt, MOST_ANSWER_MS),
    }
}

/// The reader and the writer of the connection that was reached, or why there is none. What is written waits in
/// the outbox.
fn ends_of<'r, 'j, S: Drop, R: Wait + Clock, F: Write + OpenFile, I: Write + OpenFile>(
    alloc: Global,
    outboxes: &'r Outboxes<'j, R, F>,
    outbox: &'r Outbox<'j, R, F>,
    bind: u32,
    deadline: Option<Deadline>,
    lines: &LineSettings<'j, I>,
    reached: Result<(S, Guarded<'j, TcpStream, R, F>), Unconnected>,
) -> Result<
    (
        WakingReader<'r, 'j, S, R, F, I>,
        OutboxWriter<'r, 'j, R, Outbox<'j, R, F>>,
    ),
    Unconnected,
>
    ensures inner { IfOk result (λ ends. IsOkAnd reached.entry (λ both. ends.0.inner ≡ both.0)) }
    ensures lines { IfOk result (λ ends. ends.0.lines ≡ lines.now) }
    ensures place { IfOk result (λ ends. ends.0.bind ≡ bind) }
{
    let rt = outboxes.rt();
    let clock = outboxes.clock();
    clock.go_on();
    let (inner, connection) = reached?;
    let Some(incoming) = Incoming::new(alloc, answered_by(rt, deadline)) else {
        return Err(Unconnected::Other);
    };
    if outbox.open(alloc, connection).is_none() {
        return Err(Unconnected::Other);
    }
    let journal = outboxes.journal();
    let bells = outboxes.bells();
    let bind = bind as usize;
    let reader = WakingReader {
        inner,
        rt,
        journal,
        bells,
        bind,
        outbox,
        clock,
        incoming,
        lines: lines.another(),
    };
    let writer = OutboxWriter {
        rt,
        bells,
        bind,
        outbox,
    };
    Ok((reader, writer))
}

/// Ends the dialling of a bind: its reader and its writer. If there is no connection, the outbox keeps why.
fn finish_dial<'r, 'j, S: Drop, R: Wait + Clock, F: Write + OpenFile, I: Write + OpenFile>(
    alloc: Global,
    outboxes: &'r Outboxes<'j, R, F>,
    outbox: &'r Outbox<'j, R, F>,
    bind: u32,
    deadline: Option<Deadline>,
    lines: &LineSettings<'j, I>,
    reached: Result<(S, Guarded<'j, TcpStream, R, F>), Unconnected>,
) -> Option<
    (
        WakingReader<'r, 'j, S, R, F, I>,
        OutboxWriter<'r, 'j, R, Outbox<'j, R, F>>,
    ),
>
    ensures inner { IfSome result (λ ends. IsOkAnd reached.entry (λ both. ends.0.inner ≡ both.0)) }
    ensures lines { IfSome result (λ ends. ends.0.lines ≡ lines.now) }
    ensures place { IfSome result (λ ends. ends.0.bind ≡ bind) }
{
    let ends = ends_of(alloc, outboxes, outbox, bind, deadline, lines, reached);
    outbox.dialled(outboxes.rt(), ends)
}

/// Connects to a message centre, for the binds of one round.
#[derive(Drop)]
pub struct TcpDial<'r, 'j, R: Wait, F: Write + OpenFile, I> {
    pub rt: &'j R,
    pub alloc: Global,
    pub outboxes: &'r Outboxes<'j, R, F>,
    /// The round's number; the first of a run is 1.
    pub round: u64,
    /// How many milliseconds it may take to connect and to bind. None is without a limit, but the answer to the
    /// bind may take no more than a minute once there is a connection.
    pub connect_ms: Option<u32>,
    pub host: &'r str,
    pub port: u16,
    /// What the readers of the binds have beside their connections.
    pub lines: LineSettings<'j, I>,
}

impl<
    'r,
    'j,
    R: Connects + Clock + Sync,
    F: Write + OpenFile + Send + Drop,
    I: Write + OpenFile + Send + Drop,
> Dial for TcpDial<'r, 'j, R, F, I> {
    ghost told = { λ d bind. R.tells d.rt.now (Named d.host.now d.port) (has_journal d.outboxes.now) d.round bind };

    type Reader = WakingReader<'r, 'j, R::Incoming, R, F, I>;

    type Writer = OutboxWriter<'r, 'j, R, Outbox<'j, R, F>>;

    fn dial(
        &self,
        bind: u32,
    ) -> Option<
        (
            WakingReader<'r, 'j, R::Incoming, R, F, I>,
            OutboxWriter<'r, 'j, R, Outbox<'j, R, F>>,
        ),
    >
        ensures told { IfSome result (λ ends. R.Incoming.remaining ends.0.inner ≡ R.tells self.now.rt.now (Named self.now.host.now self.now.port) (has_journal self.now.outboxes.now) self.now.round bind) }
        ensures lines { IfSome result (λ ends. ends.0.lines ≡ self.now.lines) }
        ensures place { IfSome result (λ ends. ends.0.bind ≡ bind) }
    {
        let outbox = self.outboxes.get(bind)?;
        let deadline = outbox.dialled(self.rt, deadline_of(self.rt, self.connect_ms))?;
        let round = self.round;
        let place = RoundBind { round, bind };
        let reached = self
            .rt
            .reach(self.outboxes, place, self.host, self.port, deadline);
        finish_dial(
            self.alloc,
            self.outboxes,
            outbox,
            bind,
            deadline,
            &self.lines,
            reached,
        )
    }
}

/// Connects to a test centre for each bind of one round, which is started in a thread of its own.
#[derive(Drop)]
pub struct LoopDial<'r, 'j, R: Wait, F: Write + OpenFile, I> {
    pub rt: &'j R,
    pub alloc: Global,
    pub outboxes: &'r Outboxes<'j, R, F>,
    /// The round's number; the first of a run is 1.
    pub round: u64,
    /// How many milliseconds it may take to connect and to bind. None is without a limit, but the answer to the
    /// bind may take no more than a minute once there is a connection.
    pub connect_ms: Option<u32>,
    pub listener: &'r TcpListener,
    /// The script of the test centres.
    pub bind_status: u32,
    pub answers: &'r [String],
    /// What the readers of the binds have beside their connections.
    pub lines: LineSettings<'j, I>,
}

impl<
    'r,
    'j,
    R: Connects + Clock + Sync,
    F: Write + OpenFile + Send + Drop,
    I: Write + OpenFile + Send + Drop,
> Dial for LoopDial<'r, 'j, R, F, I> {
    ghost told = { λ d bind. R.tells d.rt.now (Own d.bind_status (map string_bytes d.answers.now)) (has_journal d.outboxes.now) d.round bind };

    type Reader = WakingReader<'r, 'j, R::Incoming, R, F, I>;

    type Writer = OutboxWriter<'r, 'j, R, Outbox<'j, R, F>>;

    fn dial(
        &self,
        bind: u32,
    ) -> Option<
        (
            WakingReader<'r, 'j, R::Incoming, R, F, I>,
            OutboxWriter<'r, 'j, R, Outbox<'j, R, F>>,
        ),
    >
        ensures told { IfSome result (λ ends. R.Incoming.remaining ends.0.inner ≡ R.tells self.now.rt.now (Own self.now.bind_status (map string_bytes self.now.answers.now)) (has_journal self.now.outboxes.now) self.now.round bind) }
        ensures lines { IfSome result (λ ends. ends.0.lines ≡ self.now.lines) }
        ensures place { IfSome result (λ ends. ends.0.bind ≡ bind) }
    {
        let outbox = self.outboxes.get(bind)?;
        let deadline = outbox.dialled(self.rt, deadline_of(self.rt, self.connect_ms))?;
        let round = self.round;
        let place = RoundBind { round, bind };
        let reached = self.rt.reach_own(
            self.alloc,
            self.outboxes,
            place,
            self.listener,
            self.bind_status,
            self.answers,
            deadline,
        );
        finish_dial(
            self.alloc,
            self.outboxes,
            outbox,
            bind,
            deadline,
            &self.lines,
            reached,
        )
    }
}
