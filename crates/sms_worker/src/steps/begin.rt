//! Beginning a message: its parts, its credits, and its end so far.

ghost use Rattle.std.specs.Prelude.{◌≡◌, ◌≢◌, ℕ, ◌<◌, ◌||◌, ◌++◌, ◌∷◌, [], All, IsTrue, false, Err, None, Some, IfOk, IfErr, IfSome, OnOk, length, slice_get, vec_len};
ghost use Rattle.sms_worker.specs.Begins.{Begins, HasBegun, Refuses, end_refused, ready};
ghost use Rattle.sms_worker.specs.Reasons.{RestsOn};
ghost use Rattle.sms_book.specs.Tariffs.{cost_of};
ghost use Rattle.sms_segment.specs.declared.place.Reference.{Reference as TheReference};
ghost use Rattle.sms_segment.specs.Message.{IsTooLong, parts_of};
ghost use Rattle.sms_segment.specs.Part.{HasSeptets};
ghost use Rattle.sms_message.specs.Submits.{HasAddresses, coded_text, message_parts, reference_of};
ghost use Rattle.sms_message.specs.Admission.{IsKnown, IsNotCut, IsRefusalOf, IsShort};
ghost use Rattle.sms_message.specs.Results.{IsResultOf};
ghost use Rattle.sms_worker.specs.PendingState.{AreUnlinked, data_in, pending_of};
ghost use Rattle.sms_message.specs.UserData.{message_data};
ghost use Rattle.std.specs.Prelude.{string_bytes};
ghost use Rattle.sms_message.specs.declared.ends.MessageRefusal.TheVariants.{BindClosed, NoCredit};

use crate::devices::Gate;
use crate::ends::SegmentEnd;
use crate::state::closing::Closing;
use crate::state::pending::PendingParts;
use crate::state::stop::{MayBegin, Stop};
use crate::state::tally::Tally;
use crate::state::worker_start::WorkerStart;
use crate::steps::parts::{NoMessageMemory, NoParts, ends_for, pending_for};
use sms_book::{Book, BookName};
use sms_message::{Message, MessageRefusal, Rules, has_addresses, is_known, part_cost};
use std::alloc::Global;
use std::sync::{Mutex, Wait};

/// What an admitted message is sent as, and what each of its segments costs.
#[derive(Drop)]
struct Prepared {
    pending: PendingParts,
    ends: Vec<SegmentEnd>,
    /// The credits of a segment: they are looked up once a message.
    cost: u32,
}

/// Why a message is refused, with the evidence if memory was refused for it.
type Refusal = (MessageRefusal, Option<NoMessageMemory>);

/// The refusal of a message that has no parts.
fn refusal_of(no: NoParts) -> Refusal
    ensures { Refuses no result.0 result.1 }
{
    match no {
        NoParts::TooLong => (MessageRefusal::TooLong, None),
        NoParts::Memory(no_memory) => (MessageRefusal::OutOfMemory, Some(no_memory)),
    }
}

/// Prepares a message that passes each check but that of its credits.
fn prepare(
    alloc: Global,
    rules: &Rules,
    accounts: usize,
    permit: Option<MayBegin>,
    message: &Message,
) -> Result<Prepared, Refusal>
    ensures known { IfOk result (λ r. IsKnown accounts message.now.account × HasAddresses message.now) }
    ensures short { OnOk result (IsShort rules.now message.now) }
    ensures pending { IfOk result (λ r. data_in r.pending ≡ message_data rules.now message.now) }
    ensures ends { IfOk result (λ r. r.ends.items ≡ ready (cost_of rules.now.tariff (string_bytes message.now.dest)) (length (message_parts rules.now message.now))) }
    ensures cost { IfOk result (λ r. (r.cost ≡ cost_of rules.now.tariff (string_bytes message.now.dest)) × (0 < r.cost)) }
    ensures refused { IfErr result (λ e. IsRefusalOf rules.now accounts message.now e.0) }
    ensures memory { IfErr result (λ e. RestsOn message.now.index e.0 e.1) }
    ensures unlinked { IfOk result (λ r. AreUnlinked r.pending) }
    ensures closed { IfErr result (λ e. e.0 ≡ BindClosed → permit ≡ None) }
    ensures credit { IfErr result (λ e. e.0 ≢ NoCredit) }
    ensures none { permit ≡ None → result ≡ Err (BindClosed, None) }
{
    let Some(_) = permit else {
        return Err((MessageRefusal::BindClosed, None));
    };
    if !is_known(message.account, accounts) {
        return Err((MessageRefusal::NoAccount, None));
    }
    if !has_addresses(message) {
        return Err((MessageRefusal::BadAddress, None));
    }
    let pending = match pending_for(alloc, rules, message) {
        Ok(pending) => pending,
        Err(no) => return Err(refusal_of(no)),
    };
    let cost = part_cost(&rules.tariff, message);
    match ends_for(alloc, message, pending.count(), cost) {
        Ok(ends) => Ok(Prepared {
            pending,
            ends,
            cost,
        }),
        Err(no_memory) => Err((MessageRefusal::OutOfMemory, Some(no_memory))),
    }
}

/// Ends a message that is refused.
fn refused<N: BookName, C: WorkerStart>(
    alloc: Global,
    tally: &mut Tally<N, C>,
    rules: &Rules,
    message: &Message,
    refusal: MessageRefusal,
) -> PendingParts
    requires next { slice_get C.start.messages (length tally.old.ends) ≡ Some message.now }
    requires room { length tally.old.ends < tally.old.room }
    requires reason { IsRefusalOf rules.now (length tally.old.share.amounts) message.now refusal }
    ensures begins { Begins rules.now message.now tally.old.share tally.new.share (data_in result) (end_refused message.now refusal) }
    ensures unlinked { AreUnlinked result }
    ensures only { tally.new ≡ record tally.old { ends = tally.old.ends ++ end_refused message.now refusal ∷ [] } }
{
    tally.refuse(message, refusal);
    PendingParts::none(alloc)
}

/// The gate's permission to begin the message. None where the bind is closed, or the gate lets no further message
/// begin.
pub(crate) fn permission<G: Gate, C: WorkerStart>(
    closed: &Closing<'_, C>,
    stop: &mut Stop<C>,
    gate: &G,
    worker: usize,
    message: &Message,
) -> Option<MayBegin>
    requires given { (k : ℕ) × (slice_get C.start.messages k ≡ Some message.now) }
    ensures may { IfSome result (λ may. may.message ≡ message.now.index) }
    ensures none { result ≡ None → IsTrue (closed.now || stop.new) }
    ensures some { IsTrue (closed.now || stop.new) → result ≡ None }
    ensures stays { IsTrue stop.old → IsTrue stop.new }
{
    if closed.is_closed() {
        return None;
    }
    stop.ask(gate, worker, message)
}

/// Begins a message: reserves its credits and adds its end, in one holding of the book's lock, or refuses it, as
/// bind-closed where nothing permits it. Returns its parts, and the evidence if memory was refused for it.
pub(crate) fn begun<N: BookName, R: Wait, C: WorkerStart>(
    rt: &R,
    alloc: Global,
    book: &Mutex<Book<N>>,
    rules: &Rules,
    tally: &mut Tally<N, C>,
    permit: Option<MayBegin>,
    message: &Message,
) -> (PendingParts, Option<NoMessageMemory>)
    requires permit { IfSome permit (λ may. may.message ≡ message.now.index) }
    requires next { slice_get C.start.messages (length tally.old.ends) ≡ Some message.now }
    requires room { length tally.old.ends < tally.old.room }
    ensures begun { HasBegun N.book rules.now message.now permit tally.old tally.new result.0 result.1 }
    ensures unlinked { AreUnlinked result.0 }
{
    let accounts = tally.accounts();
    let Prepared {
        pending,
        ends,
        cost,
    } = match prepare(alloc, rules, accounts, permit, message) {
        Ok(prepared) => prepared,
        Err((refusal, no_memory)) => {
            return (refused(alloc, tally, rules, message, refusal), no_memory);
        }
    };
    let Some(account) = message.account else {
        unreachable!()
    };
    if !tally.admit(&mut book.lock(rt), message, account, cost, ends) {
        drop(pending);
        return (
            refused(alloc, tally, rules, message, MessageRefusal::NoCredit),
            None,
        );
    }
    (pending, None)
}
