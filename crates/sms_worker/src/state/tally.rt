//! A worker's share of the book, together with the ends of its messages, of which it is the sums.

ghost use Rattle.std.specs.Prelude.{◌≡◌, ℕ, ◌+◌, ◌*◌, ◌<◌, ◌≤◌, ◌↔◌, ◌++◌, ◌∷◌, [], IsTrue, false, true, Some, None, IfNone, IfSome, length, slice_get, slice_set, vec_capacity};
ghost use Rattle.sms_book.specs.Alone.{opening_at};
ghost use Rattle.sms_book.specs.Money.{reserved_more};
ghost use Rattle.sms_book.specs.Portions.{amounts_at, row_at};
ghost use Rattle.sms_book.specs.Shares.{changed};
ghost use Rattle.sms_core.specs.RowMoves.{row_reserved};
ghost use Rattle.sms_message.specs.Ends.{put, segment_at};
ghost use Rattle.sms_message.specs.declared.ends.MessageResult.TheVariants.{Refused, Sent};
ghost use Rattle.sms_message.specs.declared.ends.Outcome.TheVariants.{Unanswered};
ghost use Rattle.sms_message.specs.declared.message.Message.{Message as TheMessage};
ghost use Rattle.sms_worker.specs.Begins.{end_refused, end_sent, ready};
ghost use Rattle.sms_worker.specs.Credit.{CanReserve, Lacks};
ghost use Rattle.sms_worker.specs.Steps.{Takes, settled_to};
ghost use Rattle.sms_worker.specs.Tally.{AreSums, IsLike};
ghost use Rattle.sms_worker.specs.Types.{SegmentEnd};

use crate::ends::{MessageEnd, MessageResult, SegmentEnd, Segments};
use crate::state::open::SegmentPlace;
use crate::state::places::{give, take};
use crate::state::worker_start::WorkerStart;
use sms_book::{Book, BookName, Shares};
use sms_message::{Message, MessageRefusal, Outcome};
use std::alloc::Global;
use std::marker::{Model, PhantomData};

/// A worker's share, and the ends of its messages so far. What the share has grown by since the call began is
/// the sums over these ends. Whatever changes the share, or a cost or an outcome among the ends, is passed the
/// locked book and keeps that; all else leaves both as they are. So it holds whenever the book's lock is free.
#[derive(Drop)]
pub struct Tally<N: BookName, C: WorkerStart> {
    shares: Shares<N>,
    ends: Vec<MessageEnd>,
    of: PhantomData<C>,
}

impl<N: BookName, C: WorkerStart> Model for Tally<N, C> {
    ghost use Rattle.std.specs.Prelude.{vec_capacity};
    ghost use Rattle.sms_worker.specs.Tally.{AreSums, TallyState};

    ghost Value = { TallyState };

    ghost view = { λ t. record { share = t.shares; ends = t.ends.items; room = vec_capacity t.ends } };

    ghost invariant = { λ t. AreSums C.start t.shares t.ends.items };
}

/// Reserves what the parts of a message cost, where its account has the credits free.
fn reserve_all<N: BookName>(
    book: &mut Book<N>,
    shares: &mut Shares<N>,
    account: usize,
    parts: usize,
    cost: u32,
) -> bool
    ensures exact { IsTrue result ↔ CanReserve book.old account (parts * cost) }
    ensures book { IsTrue result → book.new ≡ slice_set book.old account (row_reserved (parts * cost) (row_at book.old account)) }
    ensures share { IsTrue result → shares.new ≡ changed shares.old account (reserved_more (parts * cost)) }
    ensures refused { result ≡ false → (book.new ≡ book.old) × (shares.new ≡ shares.old) }
    ensures short { result ≡ false → N.book.workers ≡ 1 → account < length shares.old.amounts → Lacks (opening_at N.book account) (amounts_at shares.old.amounts account) (parts * cost) }
    ensures covered { IsTrue result → N.book.sealed ≡ true → parts * cost ≤ opening_at N.book account }
{
    let credits = (parts as u64).saturating_mul(u64::from(cost));
    book.reserve(shares, account, credits).is_ok()
}

/// Moves a segment's credits as its outcome says, if it has an account: they are charged, or given back;
/// without an answer they stay reserved.
fn move_credits<N: BookName>(
    book: &mut Book<N>,
    shares: &mut Shares<N>,
    account: Option<usize>,
    cost: u32,
    outcome: Outcome,
)
    requires { (a : ℕ) → account ≡ Some a → (0 < cost) × (cost ≤ (amounts_at shares.old.amounts a).reserved) }
    ensures { shares.new ≡ settled_to outcome account cost shares.old }
{
    let Some(account) = account else {
        return;
    };
    let credits = u64::from(cost);
    match outcome {
        Outcome::Charged => book.charge(shares, account, credits),
        Outcome::Refused => book.give_back(shares, account, credits),
        Outcome::Unsent => book.give_back(shares, account, credits),
        Outcome::Unanswered => {}
    }
}

impl<N: BookName, C: WorkerStart> Tally<N, C> {
    /// The share that the call began with, and no ends.
    pub fn new(shares: Shares<N>, ends: Vec<MessageEnd>) -> Tally<N, C>
        requires share { shares ≡ C.start.share }
        requires empty { ends.items ≡ [] }
        ensures { result ≡ record { share = shares; ends = []; room = vec_capacity ends } }
    {
        Tally {
            shares,
            ends,
            of: PhantomData,
        }
    }

    /// The ends so far, in order. The share is the sums over them.
    pub fn ends(&self) -> &[MessageEnd]
        ensures ends { result.now ≡ self.now.ends }
        ensures sums { AreSums C.start self.now.share self.now.ends }
    {
        self.ends.as_slice()
    }

    /// How many accounts the share has amounts of.
    pub fn accounts(&self) -> usize
        ensures { result ≡ length self.now.share.amounts }
    {
        self.shares.accounts()
    }

    /// Adds the end of a message whose parts wait to be sent, each at this cost, and reserves their credits.
    /// Where the account lacks them nothing changes.
    pub fn admit(
        &mut self,
        book: &mut Book<N>,
        message: &Message,
        account: usize,
        cost: u32,
        segments: Vec<SegmentEnd>,
    ) -> bool
        requires next { slice_get C.start.messages (length self.old.ends) ≡ Some message.now }
        requires account { (message.now.account ≡ Some account) × (account < length self.old.share.amounts) }
        requires room { length self.old.ends < self.old.room }
        requires ready { segments.items ≡ ready cost (length segments.items) }
        ensures admitted { IsTrue result → self.new ≡ record self.old { share = changed self.old.share account (reserved_more (length segments.items * cost)); ends = self.old.ends ++ end_sent message.now segments.items ∷ [] } }
        ensures refused { result ≡ false → self.new ≡ self.old }
        ensures kept { result ≡ false → book.new ≡ book.old }
        ensures exact { IsTrue result ↔ CanReserve book.old account (length segments.items * cost) }
        ensures book { IsTrue result → book.new ≡ slice_set book.old account (row_reserved (length segments.items * cost) (row_at book.old account)) }
        ensures short { result ≡ false → N.book.workers ≡ 1 → Lacks (opening_at N.book account) (amounts_at self.old.share.amounts account) (length segments.items * cost) }
        ensures covered { IsTrue result → N.book.sealed ≡ true → length segments.items * cost ≤ opening_at N.book account }
    {
        if !reserve_all(book, &mut self.shares, account, segments.len(), cost) {
            return false;
        }
        self.ends.push_reserved(MessageEnd {
            index: message.index,
            result: MessageResult::Sent(Segments::new(segments)),
        });
        true
    }

    /// Adds the end of a message that is refused: nothing is reserved for it.
    pub fn refuse(&mut self, message: &Message, refusal: MessageRefusal)
        requires next { slice_get C.start.messages (length self.old.ends) ≡ Some message.now }
        requires room { length self.old.ends < self.old.room }
        ensures { self.new ≡ record self.old { ends = self.old.ends ++ end_refused message.now refusal ∷ [] } }
    {
        self.ends.push_reserved(MessageEnd {
            index: message.index,
            result: MessageResult::Refused(refusal),
        });
    }

    /// Takes the segment end at the place out, if there is one, until it is given back or settled. Its cost and
    /// its outcome stay there meanwhile.
    pub fn take(&mut self, alloc: Global, place: SegmentPlace) -> Option<SegmentEnd>
        ensures out { IfSome result (λ s. Takes self.old.ends place.message place.part s self.new.ends) }
        ensures none { IfNone result ((self.new.ends ≡ self.old.ends) × (segment_at self.old.ends place.message place.part ≡ None)) }
        ensures only { self.new ≡ record self.old { ends = self.new.ends } }
    {
        take(alloc, &mut self.ends, place)
    }

    /// Puts a segment end in the place of one that has its cost and its outcome.
    pub fn give(&mut self, place: SegmentPlace, segment: SegmentEnd)
        requires like { IsLike self.old.ends place segment }
        ensures { self.new ≡ record self.old { ends = put self.old.ends place.message place.part segment } }
    {
        give(&mut self.ends, place, segment);
    }

    /// Puts a segment end in the place of one without an answer that has its cost, and moves the credits of its
    /// message's account as its outcome says.
    pub fn settle(
        &mut self,
        book: &mut Book<N>,
        place: SegmentPlace,
        account: Option<usize>,
        segment: SegmentEnd,
    )
        requires message { (m : TheMessage) × (slice_get C.start.messages place.message ≡ Some m) × (m.account ≡ account) }
        requires known { (a : ℕ) → account ≡ Some a → a < length self.old.share.amounts }
        requires waits { (s : SegmentEnd) × (segment_at self.old.ends place.message place.part ≡ Some s) × (s.outcome ≡ Unanswered) × (segment.cost ≡ s.cost) × (0 < s.cost) }
        ensures { self.new ≡ record self.old { share = settled_to segment.outcome account segment.cost self.old.share; ends = put self.old.ends place.message place.part segment } }
    {
        let cost = segment.cost;
        let outcome = segment.outcome;
        move_credits(book, &mut self.shares, account, cost, outcome);
        give(&mut self.ends, place, segment);
    }

    /// The share and the ends.
    pub fn into_parts(self) -> (Shares<N>, Vec<MessageEnd>)
        ensures share { result.0 ≡ self.share }
        ensures ends { result.1.items ≡ self.ends }
        ensures sums { AreSums C.start result.0 result.1.items }
    {
        let Tally {
            shares,
            ends,
            of: _,
        } = self;
        (shares, ends)
    }
}
