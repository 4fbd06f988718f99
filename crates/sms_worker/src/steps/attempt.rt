//! One attempt: a slot, a number, a frame, the gate, and the wire.

ghost use Rattle.std.specs.Prelude.{◌≡◌, ℕ, ◌+◌, ◌<◌, ◌≤◌, ◌↔◌, ◌++◌, ◌∷◌, [], List, true, false, Ok, Err, vec_len, vec_capacity, IfErr, IfOk, OnErr, OnOk};
ghost use Rattle.std.specs.Io.KnownBytes.{Appends};
ghost use Rattle.sms_pdu.specs.Faults.{Counts};
ghost use Rattle.sms_bind.specs.Frames.{IsRequest};
ghost use Rattle.sms_bind.specs.Wires.{writer, write_faults, is_broken};
ghost use Rattle.sms_pdu.specs.Streams.{SomeAppended};
ghost use Rattle.sms_core.specs.Limits.{most_slots};
ghost use Rattle.sms_segment.specs.declared.part.Part.{Part};
ghost use Rattle.sms_window.specs.Drawing.{HasDrawn};
ghost use Rattle.sms_window.specs.OpenSlots.{IsOpen};
ghost use Rattle.sms_window.specs.Seats.{used_up};
ghost use Rattle.sms_worker.specs.Handed.{HandsOn};
ghost use Rattle.sms_worker.specs.Keeps.{slots_of};
ghost use Rattle.sms_message.specs.Submits.{HasAddresses, SpellsSubmit};
ghost use Rattle.sms_worker.specs.Limits.{most_draws};
ghost use Rattle.sms_worker.specs.Steps.{Tries, Draws, IsReason, MetBroken, Opens, number_unsent};
ghost use Rattle.sms_worker.specs.declared.steps.attempt.Number.TheVariants.{Contended, UsedUp};
ghost use Rattle.sms_worker.specs.declared.steps.attempt.NoFrame.TheVariants.{Later, Never};
ghost use Rattle.sms_worker.specs.declared.steps.attempt.TrySend.TheVariants.{Retry, GiveUp};
ghost use Rattle.sms_worker.specs.declared.steps.give_up.GiveUpReason.{GiveUpReason};
ghost use Rattle.sms_worker.specs.declared.steps.retry_later.RetryLater.TheVariants.{Numbers};
ghost use Rattle.sms_worker.specs.declared.steps.retry_later.NoNumber.{NoNumber};
ghost use Rattle.sms_message.specs.UserData.{user_data as data_of};

use crate::devices::{Clock, Gate};
use crate::ends::Attempt;
use crate::entry::context::WorkerContext;
use crate::state::open::{Open, SegmentPlace};
use crate::steps::give_up::{
    GiveUpReason, NoMemory, NotHanded, frame_of, make_room, pass, post, sound,
};
use crate::steps::retry_later::{Drawing, NoNumber, RetryLater, claim, draw_one, not_ready};
use crate::steps::timestamp::Timestamp;
use sms_bind::{LogName, LoggedWire, Receipt, Requests, WireFault};
use sms_book::BookName;
use sms_message::{Message, Rules, UserData, good_destination, good_source, submit_of};
use sms_pdu::{BodyRef, Frame, PduRef};
use sms_window::{Draw, Window, WindowSeat};
use std::alloc::Global;
use std::io::Write;
use std::sync::Wait;

/// What came of a try to send a segment.
#[derive(Debug, Drop, PartialEq, Eq)]
pub enum TrySend {
    /// It was sent with this number.
    Sent(u32),
    /// It may be tried in the next turn. This keeps it from being sent now.
    Retry(RetryLater),
    /// It has to be given up, for this reason.
    GiveUp(GiveUpReason),
}

/// What came of draws.
#[derive(Clone, Copy, Debug, PartialEq, Eq)]
pub enum Number {
    Drawn(u32),
    /// The window has given all its numbers.
    UsedUp,
    /// Each try met another seat's step.
    Contended,
}

/// How many tries one draw of a number has.
pub(crate) const DRAWS: u32 = 1000;

/// Draws a sequence_number of the seat's window, in at most 1,000 tries.
pub fn draw(window: &Window, seat: &mut WindowSeat) -> Number
    requires same_window { seat.old.window ≡ window.now }
    ensures window { seat.new.window ≡ seat.old.window }
    ensures slots { seat.new.view.slots ≡ seat.old.view.slots }
    ensures drawn { Draws seat.old.view result seat.new.view }
    ensures used_up { result ≡ UsedUp → seat.new.view.seen ≡ used_up }
    ensures contended { result ≡ Contended → seat.old.view.seen + most_draws ≤ seat.new.view.seen }
{
    for _ in 0..DRAWS {
        match window.try_draw(seat) {
            Draw::Number(number) => return Number::Drawn(number),
            Draw::UsedUp => return Number::UsedUp,
            Draw::Contended(_) => {}
        }
    }
    Number::Contended
}

/// The frame of the submit_sm with this number, of the part with this user data, for a message whose
/// addresses are good.
fn frame_for(
    alloc: Global,
    rules: &Rules,
    message: &Message,
    user_data: &UserData,
    number: u32,
) -> Result<Frame, NoMemory>
    requires { HasAddresses message.now }
    ensures spelled { (part : Part) → user_data.now ≡ data_of part → IfOk result (λ frame. SpellsSubmit rules.now message.now part number frame) }
    ensures request { IfOk result IsRequest }
    ensures number { IfErr result (λ no. no.number ≡ number) }
{
    let from = good_source(message.source.as_str());
    let to = good_destination(message.dest.as_str());
    let sm = submit_of(rules, from, to, user_data);
    let pdu = PduRef {
        status: 0,
        number,
        body: BodyRef::Submit(sm),
    };
    frame_of(alloc, &pdu)
}

/// Why no frame was made that is to be written now.
#[derive(Debug, Drop, PartialEq, Eq)]
enum NoFrame {
    /// No number could be drawn, and the next turn tries again.
    Later(NoNumber),
    /// The segment has to be given up.
    Never(GiveUpReason),
}

/// What that makes of a try to send.
fn not_sent(why: NoFrame) -> TrySend
    ensures later { (no : NoNumber) → why ≡ Later no → result ≡ Retry (Numbers no) }
    ensures never { (reason : GiveUpReason) → why ≡ Never reason → result ≡ GiveUp reason }
{
    match why {
        NoFrame::Later(no) => TrySend::Retry(RetryLater::Numbers(no)),
        NoFrame::Never(reason) => TrySend::GiveUp(reason),
    }
}

/// Draws a number for the part with this user data, makes its frame and its room in the list of attempts, and
/// asks the gate to let it pass.
fn next_frame<N: BookName + LogName, W: Write, G: Gate, K, R>(
    context: &WorkerContext<N, W, G, K, R>,
    seat: &mut WindowSeat,
    place: SegmentPlace,
    message: &Message,
    user_data: &UserData,
    attempts: &mut Vec<Attempt>,
) -> Result<(u32, Frame), NoFrame>
    requires same_window { seat.old.window ≡ context.now.window.now }
    requires addresses { HasAddresses message.now }
    ensures window { seat.new.window ≡ seat.old.window }
    ensures slots { seat.new.view.slots ≡ seat.old.view.slots }
    ensures unchanged { attempts.new.items ≡ attempts.old.items }
    ensures room { OnOk result (vec_len attempts.new < vec_capacity attempts.new) }
    ensures drawn { IfOk result (λ r. HasDrawn seat.old.view (r.0 ∷ []) seat.new.view) }
    ensures spelled { (part : Part) → user_data.now ≡ data_of part → IfOk result (λ r. SpellsSubmit context.now.rules.now message.now part r.0 r.1) }
    ensures request { IfOk result (λ r. IsRequest r.1) }
    ensures later { (no : NoNumber) → result ≡ Err (Later no) → HasDrawn seat.old.view [] seat.new.view × (seat.old.view.seen + most_draws ≤ seat.new.view.seen) }
    ensures never { (why : GiveUpReason) → result ≡ Err (Never why) → IsReason why seat.old.view seat.new.view }
{
    let number = match draw_one(context.window, seat) {
        Drawing::Drawn(number) => number,
        Drawing::UsedUp(all) => return Err(NoFrame::Never(GiveUpReason::Numbers(all))),
        Drawing::Contended(no) => return Err(NoFrame::Later(no)),
    };
    let frame = match frame_for(context.alloc, context.rules, message, user_data, number) {
        Ok(frame) => frame,
        Err(no) => return Err(NoFrame::Never(GiveUpReason::Memory(no))),
    };
    if let Err(no) = make_room(attempts, number) {
        return Err(NoFrame::Never(GiveUpReason::Memory(no)));
    }
    if let Err(no) = pass(
        context.gate,
        context.worker,
        number,
        message.index,
        place.part,
    ) {
        return Err(NoFrame::Never(GiveUpReason::Gate(no)));
    }
    Ok((number, frame))
}

/// Posts the number in the slot and hands the frame to the wire, as one of the worker's requests. Where the wire
/// is broken or the slot isn't empty nothing is written. A write that fails marks the line down.
fn write_frame<N: BookName + LogName, W: Write, G, K, R: Wait>(
    context: &WorkerContext<N, W, G, K, R>,
    wire: &mut LoggedWire<N, W>,
    requests: &mut Requests<N>,
    slot: u32,
    number: u32,
    frame: Frame,
) -> Result<Receipt, NotHanded>
    requires slot { slot < most_slots }
    requires request { IsRequest frame }
    ensures receipt { IfOk result (λ r. r ≡ frame) }
    ensures handed { IfOk result (λ r. requests.new ≡ requests.old ++ r ∷ []) }
    ensures broken { MetBroken result ↔ (is_broken wire.old.wire ≡ true) }
    ensures number { IfErr result (λ no. number_unsent no ≡ number) }
    ensures unsent { OnErr result ((wire.new ≡ wire.old) × (requests.new ≡ requests.old)) }
    ensures sent { (r : List ℕ) → result ≡ Ok r → is_broken wire.new.wire ≡ false → Appends (W.contents (writer wire.old.wire)) (W.contents (writer wire.new.wire)) frame }
    ensures failed { (r : List ℕ) → result ≡ Ok r → is_broken wire.new.wire ≡ true → SomeAppended (W.contents (writer wire.old.wire)) (W.contents (writer wire.new.wire)) frame × Counts (write_faults wire.old.wire) (write_faults wire.new.wire) }
{
    match sound(wire.wire(), number) {
        Ok(()) => {}
        Err(no) => return Err(NotHanded::Broken(no)),
    }
    match post(context.rt, &context.line.slots, slot, context.place, number) {
        Ok(()) => {}
        Err(no) => return Err(NotHanded::Busy(no)),
    }
    match wire.request(requests, frame) {
        Ok(receipt) => Ok(receipt),
        Err(WireFault::Write(receipt)) => {
            drop(context.line.down.write_failed(context.rt, wire.wire()));
            Ok(receipt)
        }
        Err(WireFault::Broken) => unreachable!(),
    }
}

/// Claims a slot and sends the part with this user data through it, in one holding of the wire's lock. The
/// slot is open then, or released.
pub(crate) fn start<N: BookName + LogName, W: Write, G: Gate, K: Clock, R: Wait>(
    context: &WorkerContext<N, W, G, K, R>,
    seat: &mut WindowSeat,
    requests: &mut Requests<N>,
    opened: &mut Vec<Open>,
    place: SegmentPlace,
    message: &Message,
    user_data: &UserData,
    attempts: &mut Vec<Attempt>,
) -> TrySend
    requires same_window { seat.old.window ≡ context.now.window.now }
    requires room { vec_len opened.old < vec_capacity opened.old }
    requires addresses { HasAddresses message.now }
    ensures window { seat.new.window ≡ seat.old.window }
    ensures open { (base : ℕ) → IsOpen base (slots_of opened.old.items) seat.old.view.slots → IsOpen base (slots_of opened.new.items) seat.new.view.slots }
    ensures opened { Opens result place opened.old.items opened.new.items }
    ensures handed { HandsOn attempts.old.items attempts.new.items requests.old requests.new }
    ensures fit { vec_capacity opened.new ≡ vec_capacity opened.old }
    ensures tried { (part : Part) → user_data.now ≡ data_of part → Tries context.now.rules.now message.now part seat.old.view attempts.old.items result seat.new.view attempts.new.items }
{
    if let Some(no) = not_ready(context.gate, context.worker) {
        return TrySend::Retry(RetryLater::Gate(no));
    }
    let slot = match claim(context.window, seat) {
        Ok(slot) => slot,
        Err(no) => return TrySend::Retry(RetryLater::Window(no)),
    };
    let (number, frame) = match next_frame(context, seat, place, message, user_data, attempts) {
        Ok(made) => made,
        Err(none) => {
            context.window.release(seat, slot);
            return not_sent(none);
        }
    };
    let mut wire = context.line.wire.lock(context.rt);
    match write_frame(context, &mut wire, requests, slot, number, frame) {
        Ok(sent) => {
            drop(wire);
            attempts.push_reserved(Attempt {
                number,
                sent,
                reply: None,
            });
            opened.push_reserved(Open {
                number,
                slot,
                place,
                since: Timestamp::of(context.clock),
            });
            TrySend::Sent(number)
        }
        Err(no) => {
            drop(wire);
            context.gate.unsent(context.worker, number);
            context.window.release(seat, slot);
            TrySend::GiveUp(GiveUpReason::Line(no))
        }
    }
}
