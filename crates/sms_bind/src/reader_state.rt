//! The state of a reader, and how it handles one frame.

ghost use Rattle.std.specs.Prelude.{◌≡◌, ◌≢◌, ◌+◌, ◌<◌, ◌^◌, ◌∷◌, [], map, None, Some, IfSome};
ghost use Rattle.std.specs.List.{AllZip};
ghost use Rattle.rtrb.specs.Ring.{sent, known_free, SameProducer};
ghost use Rattle.sms_pdu.specs.Header.{header_at_front, number_at};
ghost use Rattle.sms_pdu.specs.Frame.{IsFrame};
ghost use Rattle.sms_pdu.specs.Streams.{early};
ghost use Rattle.sms_session.specs.Session.{IsBound, on_table};
ghost use Rattle.sms_session.specs.declared.session.Action.TheVariants.{Reply as ReplyAction};
ghost use Rattle.sms_session.specs.declared.session.Response.{Response};
ghost use Rattle.sms_slot.specs.Rings.{handed};
ghost use Rattle.sms_bind.specs.Deeds.{Suits, Follow, TakesRoom, Responded, entry, stretch_of, IsWithin, IsWritten};
ghost use Rattle.sms_bind.specs.Follows.{Follows};
ghost use Rattle.sms_bind.specs.Keepings.{Covers, allows, answer_to, is_asked, refused};
ghost use Rattle.sms_bind.specs.ReaderStates.{Handled, IsReady};
ghost use Rattle.sms_bind.specs.declared.outcome.FrameOutcome.TheVariants.{Answer};
ghost use Rattle.sms_bind.specs.declared.ending.ReaderCause.TheVariants.{OutOfMemory};

use crate::context::ReaderContext;
use crate::counts::Counts;
use crate::device::Keeping;
use crate::ending::ReaderCause;
use crate::follower::Follower;
use crate::log::LogName;
use crate::outcome::{FrameOutcome, Written, cause_of};
use crate::reader::EnquiryNumber;
use crate::replying::{acknowledge, acknowledges, reply};
use rtrb::Producer;
use sms_pdu::{Reply, frame_header, reply_of};
use sms_session::{Action, Response, Session};
use sms_slot::Delivery;
use std::io::Write;
use std::sync::Wait;

/// The session, the rings of the workers, the counts, and the seat that holds slots back.
#[derive(Drop)]
pub(crate) struct ReaderState {
    pub session: Session,
    pub producers: Vec<Producer<Reply>>,
    pub counts: Counts,
    pub follower: Follower,
    /// Whether deliver_sm are to be kept.
    pub keeps: bool,
    /// The sequence_number by which the line is asked.
    pub number: EnquiryNumber,
    /// The slot behind that of the last answer: the next answer mostly is for it.
    pub next_slot: u32,
}

impl ReaderState {
    /// Handles a frame and counts it; `keeping` is what became of the deliver_sm of its stream. Returns why the reader ends,
    /// if it does.
    pub fn handle<N: LogName, W: Write, S: Wait>(
        &mut self,
        context: &ReaderContext<N, W, S>,
        frame: &[u8],
        keeping: &Keeping<'_>,
    ) -> Option<ReaderCause>
        requires ready { IsReady (is_asked keeping.now) self.old }
        requires same_window { self.old.follower.now.window ≡ context.now.window.now }
        requires frame { IsFrame frame.now }
        requires covers { Covers frame.now keeping.now }
        requires room { self.old.counts.frames + 1 < 2 ^ 64 }
        ensures follows { Follows self.old.follower self.new.follower }
        ensures handled { Handled self.old.session result self.old self.new (frame.now ∷ []) }
        ensures within { IsWithin self.new.counts }
        ensures frames { self.new.counts.frames ≡ self.old.counts.frames + 1 }
        ensures going { result ≡ None → self.new.session ≡ self.old.session }
        ensures stretch { IfSome result (λ c. stretch_of (Some c) ≡ early) }
        ensures not_out_of_memory { result ≢ Some OutOfMemory }
    {
        let outcome = self.dispatch(context, frame, keeping);
        self.counts.add(&outcome);
        cause_of(&outcome, self.session.state())
    }

    /// Does what the session's table asks for with this frame.
    fn dispatch<N: LogName, W: Write, S: Wait>(
        &mut self,
        context: &ReaderContext<N, W, S>,
        frame: &[u8],
        keeping: &Keeping<'_>,
    ) -> FrameOutcome
        requires bound { IsBound self.old.session × (is_asked keeping.now ≡ self.old.keeps) }
        requires same_window { self.old.follower.now.window ≡ context.now.window.now }
        requires frame { IsFrame frame.now × Covers frame.now keeping.now }
        ensures follows { Follows self.old.follower self.new.follower }
        ensures follow { Follow result self.old.follower self.new.follower }
        ensures suits { Suits self.old.keeps self.old.session frame.now result }
        // It is what became of this stream's deliver_sm that decides.
        ensures answered { (response : Response) → (on_table self.old.session (header_at_front frame.now)).0 ≡ ReplyAction response → Responded (answer_to keeping.now response) result }
        ensures rings { AllZip SameProducer self.old.producers.items self.new.producers.items }
        ensures sends { map sent self.new.producers.items ≡ handed (map sent self.old.producers.items) (entry result) }
        ensures room { TakesRoom result (map known_free self.old.producers.items) (map known_free self.new.producers.items) }
        ensures unchanged { (self.new.counts ≡ self.old.counts) × (self.new.keeps ≡ self.old.keeps) }
        ensures session { self.new.session ≡ (on_table self.old.session (header_at_front frame.now)).1 }
    {
        match self.session.on(&frame_header(frame)) {
            Action::Answer => {
                let Some(answer) = reply_of(frame) else {
                    unreachable!()
                };
                FrameOutcome::Answer {
                    reply: answer,
                    delivery: self.apply_reply(context, &answer),
                }
            }
            Action::Reply(asked) => {
                let (response, written) = respond(context, frame, keeping, asked);
                FrameOutcome::Replied { response, written }
            }
            Action::ReplyClose(asked) => {
                let (response, written) = respond(context, frame, keeping, asked);
                FrameOutcome::Replied { response, written }
            }
            Action::Note => FrameOutcome::Noted,
            Action::Close => FrameOutcome::Closed,
            Action::Drop => FrameOutcome::Closed,
        }
    }

    /// Delivers an answer to the slot that waits for it. Only an answer that a ring took counts for throttling.
    fn apply_reply<N: LogName, W: Write, S: Wait>(
        &mut self,
        context: &ReaderContext<N, W, S>,
        reply: &Reply,
    ) -> Delivery
        requires same_window { self.old.follower.now.window ≡ context.now.window.now }
        ensures follows { Follows self.old.follower self.new.follower }
        ensures follow { Follow (Answer reply.now result) self.old.follower self.new.follower }
        ensures rings { AllZip SameProducer self.old.producers.items self.new.producers.items }
        ensures sends { map sent self.new.producers.items ≡ handed (map sent self.old.producers.items) (entry (Answer reply.now result)) }
        ensures room { TakesRoom (Answer reply.now result) (map known_free self.old.producers.items) (map known_free self.new.producers.items) }
        ensures unchanged { (self.new.session ≡ self.old.session) × (self.new.counts ≡ self.old.counts) × (self.new.keeps ≡ self.old.keeps) }
    {
        let rings = self.producers.as_mut_slice();
        let slots = &context.line.slots;
        let delivery = slots.answer_near(context.rt, self.next_slot, *reply, rings);
        match delivery {
            Delivery::Found { slot, worker: _ } => {
                self.next_slot = slot + 1;
                self.follower.note(context.window, reply);
            }
            Delivery::Overrun { slot: _, worker: _ } => {}
            Delivery::Unknown => {}
        }
        delivery
    }
}

/// Writes the response to the request of a frame, and gives the one that went out. A deliver_sm is acknowledged only where it was
/// kept, if it was to be, and else refused for a time.
fn respond<N: LogName, W: Write, S: Wait>(
    context: &ReaderContext<N, W, S>,
    frame: &[u8],
    keeping: &Keeping<'_>,
    response: Response,
) -> (Response, Written)
    requires covers { Covers frame.now keeping.now }
    requires number { response.number ≡ number_at 12 frame.now }
    ensures response { result.0 ≡ answer_to keeping.now response }
    ensures written { IsWritten result.0 result.1 }
{
    if !acknowledges(&response) {
        let written = reply(context, &response);
        return (response, written);
    }
    if permits(keeping) {
        let written = acknowledge(context, &response, *keeping, frame);
        return (response, written);
    }
    let refusal = refusal_of(&response);
    let written = reply(context, &refusal);
    (refusal, written)
}

/// Whether deliver_sm may be acknowledged.
fn permits(keeping: &Keeping<'_>) -> bool
    ensures { result ≡ allows keeping.now }
{
    match keeping {
        Keeping::Unasked => true,
        Keeping::Kept(_) => true,
        Keeping::Unkept(_) => false,
    }
}

/// ESME_RX_T_APPN (SMPP 3.4 5.1.3): the message centre tries again.
const TEMPORARY_ERROR: u32 = 0x64;

/// The response by which a deliver_sm is refused that couldn't be kept.
fn refusal_of(response: &Response) -> Response
    ensures { result ≡ refused response.now }
{
    Response {
        command: response.command,
        status: TEMPORARY_ERROR,
        number: response.number,
    }
}
