//! The state of a worker during one call of `run_worker`.

use crate::state::closing::Closing;
use crate::state::open::Open;
use crate::state::pending::PendingParts;
use crate::state::queue::Queues;
use crate::state::reasons::Reasons;
use crate::state::stop::Stop;
use crate::state::tally::Tally;
use crate::state::worker_start::WorkerStart;
use rtrb::Consumer;
use sms_bind::{LogName, Requests};
use sms_book::BookName;
use sms_message::Message;
use sms_pdu::Reply;
use sms_window::WindowSeat;
use std::marker::{Model, PhantomData};
use std::snapshot::Snapshot;

/// What a worker has: its messages and what became of those that it began, and what it sends with.
/// `opened`, `queues` and `next` say where to look; what they say is checked against the ends.
/// Contracts see the replies received so far, the ends, whether the bind is closed for it, whether it may begin no
/// further message, `next`, the open requests, the queues and the pending parts.
#[derive(Drop)]
pub struct WorkerState<'l, N: BookName + LogName, C: WorkerStart> {
    pub messages: Vec<Message>,
    /// Its share, and the ends so far of the messages that it began.
    pub tally: Tally<N, C>,
    pub pending: Vec<PendingParts>,
    /// Why parts and messages were not sent.
    pub reasons: Reasons,
    pub opened: Vec<Open>,
    /// The segments that are to be sent again.
    pub queues: Queues,
    /// The part of the last message begun that is sent next.
    pub next: usize,
    /// Whether the line was seen down, or the turns are over.
    pub closed: Closing<'l, C>,
    /// Whether the gate lets no further message begin.
    pub stop: Stop<C>,
    pub seat: WindowSeat,
    /// The requests that it gave to wires.
    pub requests: Requests<N>,
    /// The consumer as it was after the last pop.
    pub replies: Snapshot<Consumer<Reply>>,
    pub of: PhantomData<C>,
}

impl<'l, N: BookName + LogName, C: WorkerStart> Model for WorkerState<'l, N, C> {
    ghost use Rattle.std.specs.Prelude.{◌≤◌, ◌||◌, map, vec_len, vec_capacity};
    ghost use Rattle.rtrb.specs.Ring.{received};
    ghost use Rattle.sms_worker.specs.RunState.{RunState};
    ghost use Rattle.sms_worker.specs.Keeps.{Keeps};
    ghost use Rattle.sms_worker.specs.PendingState.{data_in};
    ghost use Rattle.sms_worker.specs.Handed.{Handed};
    ghost use Rattle.sms_worker.specs.Closing.{Closes};
    ghost use Rattle.sms_worker.specs.Reasons.{HaveReasons};
    ghost use Rattle.sms_worker.specs.Rising.{InOrder};
    ghost use Rattle.sms_worker.specs.Credit.{CreditStands};

    ghost Value = { RunState };

    ghost view = { λ r. record { replies = received r.replies.value; ends = r.tally.ends; closed = r.closed; stopped = r.stop; next = r.next; opened = r.opened.items; queues = r.queues.all; pending = r.pending.items } };

    ghost invariant = { λ r. record {
      keeps : Keeps C.start r.messages.items r.tally.ends (map data_in r.pending.items) r.opened.items r.seat r.tally.share (received r.replies.value);
      handed : Handed C.start.requests r.requests C.start.messages r.tally.ends;
      closing : Closes (r.closed || r.stop) r.tally.ends;
      credit : CreditStands N.book C.start.rules C.start.messages r.tally.ends r.tally.share;
      reasons : HaveReasons C.start.rules.policy.attempts C.start.messages r.closed r.reasons r.tally.ends;
      order : InOrder r.tally.ends r.next r.opened.items r.queues.all r.pending.items;
      ends_fit : vec_len r.messages ≤ r.tally.room;
      pending_fit : vec_len r.messages ≤ vec_capacity r.pending;
      opened_fit : C.start.rules.depth ≤ vec_capacity r.opened;
    } };
}
