//! One call of a worker.

ghost use Rattle.std.specs.Prelude.{◌≡◌, ℕ, ◌≤◌, [], length, IfOk, IfErr};
ghost use Rattle.rtrb.specs.Ring.{received, SameConsumer};
ghost use Rattle.sms_window.specs.OpenSlots.{IsOpen};
ghost use Rattle.sms_window.specs.Drawing.{HasDrawn};
ghost use Rattle.sms_worker.specs.Keeps.{slots_of};
ghost use Rattle.sms_worker.specs.Sweeps.{SettledTo};
ghost use Rattle.sms_worker.specs.Worked.{HasWorked, start_of};

use crate::devices::{Clock, Gate, Pause};
use crate::ends::MessageEnd;
use crate::entry::context::{RunContext, WorkerContext};
use crate::entry::ready::{Lists, ReadyWorker};
use crate::state::closing::{ClosedBy, Closing};
use crate::state::open::Open;
use crate::state::queue::Queues;
use crate::state::reasons::Reasons;
use crate::state::stop::Stop;
use crate::state::tally::Tally;
use crate::state::worker_start::WorkerStart;
use crate::state::worker_state::WorkerState;
use rtrb::Consumer;
use sms_bind::{Down, DownMark, Line, LogName, Requests};
use sms_book::{Book, BookName, Shares};
use sms_message::{Message, Rules};
use sms_pdu::Reply;
use sms_window::{Window, WindowSeat};
use std::alloc::{AllocError, Global};
use std::io::Write;
use std::marker::{Brand, PhantomData};
use std::snapshot::Snapshot;
use std::sync::{Mutex, Wait};

/// What a worker is given.
#[derive(Drop)]
pub struct Worker<N: BookName + LogName> {
    /// Its index among all workers, and its place among those of its bind.
    pub index: usize,
    pub place: usize,
    pub seat: WindowSeat,
    pub shares: Shares<N>,
    pub consumer: Consumer<Reply>,
    /// The requests that it gave to wires.
    pub requests: Requests<N>,
}

/// What a worker gives back.
#[derive(Drop)]
pub struct WorkerEnd<N: BookName + LogName> {
    pub seat: WindowSeat,
    pub shares: Shares<N>,
    pub consumer: Consumer<Reply>,
    /// The requests that it gave to wires: the frames of all attempts in `ends`, and those that it had before.
    pub requests: Requests<N>,
    pub ends: Vec<MessageEnd>,
    /// Why messages were refused as bind-closed, if any were: why the bind was closed, or why no further message
    /// was begun.
    pub closed: Option<ClosedBy>,
    /// Why parts were given up before they were sent, and messages refused for lack of memory.
    pub reasons: Reasons,
}

// Releases the slots that are still open. Each was answered, but its answer hasn't come out of the ring: the
// slot is emptied without it.
fn release_all<N: BookName + LogName, W: Write, G, K, R: Wait>(
    context: &WorkerContext<N, W, G, K, R>,
    seat: &mut WindowSeat,
    mut opened: Vec<Open>,
)
    requires same_window { seat.old.window ≡ context.now.window.now }
    requires open { (base : ℕ) × IsOpen base (slots_of opened.items) seat.old.view.slots }
    ensures window { seat.new.window ≡ seat.old.window }
    ensures slots { (base : ℕ) → IsOpen base (slots_of opened.items) seat.old.view.slots → seat.new.view.slots ≡ base }
    ensures numbers { HasDrawn seat.old.view [] seat.new.view }
{
    while let Some(last) = opened.pop() {
        context.line.slots.take(context.rt, last.slot, last.number);
        context.window.release(seat, last.slot);
    }
}

// Ends a call whose messages all have their ends. The evidence that the line was seen down goes into `seen`.
fn into_end<'l, N: BookName + LogName, W: Write, G, K, R: Wait, C: WorkerStart>(
    context: &WorkerContext<N, W, G, K, R>,
    state: WorkerState<'l, N, C>,
    consumer: Consumer<Reply>,
    seen: &mut Option<Down<'l>>,
) -> WorkerEnd<N>
    requires window { context.now.window.now ≡ C.start.seat.window }
    requires replies { state.replies ≡ received consumer }
    requires all { length state.ends ≡ length C.start.messages }
    requires settled { SettledTo C.start.rules.policy.attempts (length C.start.messages) 0 state.ends }
    ensures worked { HasWorked N.book C.start result seen.new }
    ensures consumer { result.consumer ≡ consumer }
{
    let WorkerState {
        tally,
        mut seat,
        requests,
        opened,
        closed,
        stop,
        reasons,
        ..
    } = state;
    release_all(context, &mut seat, opened);
    let (shares, ends) = tally.into_parts();
    let (closed, down) = closed.into_cause(stop);
    *seen = down;
    WorkerEnd {
        seat,
        shares,
        consumer,
        requests,
        ends,
        closed,
        reasons,
    }
}

// Sends the messages at a line of this mark. The evidence that the line was seen down goes into `seen`.
fn work<'l, N: BookName + LogName, W: Write, G: Gate, K: Clock, P: Pause, R: Wait, C: WorkerStart>(
    context: &WorkerContext<N, W, G, K, R>,
    mark: &'l DownMark,
    pause: &P,
    ready: ReadyWorker<N>,
    seen: &mut Option<Down<'l>>,
) -> WorkerEnd<N>
    requires start { start_of context.now.rules.now ready.worker ready.messages mark.now ≡ C.start }
    requires window { context.now.window.now ≡ C.start.seat.window }
    requires room { C.start.rules.depth ≤ ready.room }
    ensures worked { HasWorked N.book C.start result seen.new }
    ensures ring { SameConsumer ready.worker.consumer result.consumer }
{
    let ReadyWorker {
        worker,
        messages,
        lists,
    } = ready;
    let Worker {
        seat,
        shares,
        mut consumer,
        requests,
        ..
    } = worker;
    let Lists {
        ends,
        pending,
        opened,
    } = lists;
    let replies = Snapshot::of(&consumer);
    let mut state: WorkerState<'_, N, C> = WorkerState {
        messages,
        tally: Tally::new(shares, ends),
        pending,
        reasons: Reasons::none(context.alloc),
        opened,
        queues: Queues::none(),
        next: 0,
        closed: Closing::not_yet(mark),
        stop: Stop::not_yet(),
        seat,
        requests,
        replies,
        of: PhantomData,
    };
    let call_end = state.take_turns(context, pause, &mut consumer);
    state.finish(context, &mut consumer, call_end);
    let end = into_end(context, state, consumer, seen);
    context.gate.see_last(context.worker, end.ends.as_slice());
    end
}

impl<N: BookName + LogName> ReadyWorker<N> {
    /// Sends the messages in order, in at most `rules.turns` turns. Each message has one end, in order; each
    /// segment was settled by the last of its attempts; the share grew by the sums over the ends; the seat holds
    /// the slots that it held. A step that runs out of memory gives up its segment or its message alone. The
    /// second result is the evidence that the line was seen down, if that closed the bind.
    pub fn run<'l, W: Write, G: Gate, K: Clock, P: Pause, R: Wait>(
        self,
        context: &RunContext<N, G, K, P, R>,
        line: &'l Line<N, W>,
        window: &Window,
    ) -> (WorkerEnd<N>, Option<Down<'l>>)
        requires same_window { self.worker.seat.window ≡ window.now }
        requires room { context.now.rules.now.depth ≤ self.room }
        ensures worked { HasWorked N.book (start_of context.now.rules.now self.worker self.messages line.now.down) result.0 result.1 }
        ensures ring { SameConsumer self.worker.consumer result.0.consumer }
    {
        let worker_context = WorkerContext {
            rt: context.rt,
            alloc: context.alloc,
            line,
            window,
            book: context.book,
            rules: context.rules,
            gate: context.gate,
            clock: context.clock,
            worker: self.worker.index,
            place: self.worker.place,
        };
        let mut seen = None;
        let pause = context.pause;
        let end = work::<N, W, G, K, P, R, Brand>(
            &worker_context,
            &line.down,
            pause,
            self,
            &mut seen,
        );
        (end, seen)
    }
}

/// Makes a worker ready and runs it. If memory runs out before the first step, the worker and its messages are
/// handed back.
pub fn run_worker<'l, N: BookName + LogName, W: Write, G: Gate, K: Clock, P: Pause, R: Wait>(
    rt: &R,
    alloc: Global,
    worker: Worker<N>,
    messages: Vec<Message>,
    line: &'l Line<N, W>,
    window: &Window,
    book: &Mutex<Book<N>>,
    rules: &Rules,
    gate: &G,
    clock: &K,
    pause: &P,
) -> Result<(WorkerEnd<N>, Option<Down<'l>>), (AllocError, Worker<N>, Vec<Message>)>
    requires same_window { worker.seat.window ≡ window.now }
    ensures worked { IfOk result (λ d. HasWorked N.book (start_of rules.now worker messages.items line.now.down) d.0 d.1) }
    ensures ring { IfOk result (λ d. SameConsumer worker.consumer d.0.consumer) }
    ensures refused { IfErr result (λ e. (e.1 ≡ worker) × (e.2.items ≡ messages.items)) }
{
    let context = RunContext {
        rt,
        alloc,
        book,
        rules,
        gate,
        clock,
        pause,
    };
    match ReadyWorker::new(alloc, worker, messages, rules) {
        Ok(ready) => Ok(ready.run(&context, line, window)),
        Err(refused) => Err(refused),
    }
}
