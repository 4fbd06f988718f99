//! The check that a run can have written these notes.

ghost use Rattle.std.specs.Prelude.{◌≡◌, ◌↔◌, ℕ, if◌then◌else◌, [], List, Some, None, IfErr, IfOk, IfSome, IsNone, IsErrOf, IsTrue, OnOk, slice_get, take};
ghost use Rattle.sms_message.specs.declared.message.Message.{Message as TheMessage};
ghost use Rattle.sms_message.specs.declared.rules.Rules.{Rules as TheRules};
ghost use Rattle.sms_journal.specs.declared.notes.note.Note.{Note as TheNote};
ghost use Rattle.sms_journal.specs.declared.notes.run_size.RunSize.{RunSize as TheRunSize};
ghost use Rattle.sms_journal.specs.Lawful.{Follows, HasParts, HasRefusal, HasTurn, IsFirstFault, IsFirstOff, IsJournal, IsRound, MayEnd, MayFollow, MaySend};
ghost use Rattle.sms_journal.specs.Seen.{AreOrdered, IsCountFor, IsGiven, IsKept, Sees};
ghost use Rattle.sms_journal.specs.Faults.{IsOfNotes};
ghost use Rattle.sms_journal.specs.declared.error.JournalError.TheVariants.{BadNote};

use crate::error::JournalError;
use crate::notes::dense_map::{DenseMap, get_in};
use crate::notes::ending::may_end;
use crate::notes::fates::keep_fate;
use crate::notes::given::{Given, all_given};
use crate::notes::note::{Note, RequestId};
use crate::notes::run_size::{RunSize, all_workers, bind_of, is_dealt};
use crate::notes::seen::{
    Seen, keep_count, keep_end, keep_latest, keep_start, keep_tries, keep_user,
};
use crate::notes::verdict::{has_refusal, parts_of};
use sms_core::{TOP_NUMBER, is_retry};
use sms_files::memory::NoMemory;
use sms_message::{Message, MessageRefusal, Rules};
use std::alloc::Global;
use std::collections::HashMap;

/// The index at a place.
fn index_at(indexes: &[u64], place: usize) -> Option<u64>
    ensures { result ≡ slice_get indexes.now place }
{
    indexes.get(place).copied()
}

impl Seen {
    ghost use Rattle.std.specs.Prelude.{◌≡◌, ◌↔◌, ℕ, List, IsTrue, None, OnOk, []};
    ghost use Rattle.sms_message.specs.declared.message.Message.{Message as TheMessage};
    ghost use Rattle.sms_message.specs.declared.rules.Rules.{Rules as TheRules};
    ghost use Rattle.sms_journal.specs.declared.notes.note.Note.{Note as TheNote};
    ghost use Rattle.sms_journal.specs.declared.notes.run_size.RunSize.{RunSize as TheRunSize};
    ghost use Rattle.sms_journal.specs.Lawful.{HasTurn, IsAbove, IsNewNumber, IsOpen, IsRetried, MayTry, user_of};
    ghost use Rattle.sms_journal.specs.RunSize.{bind_of as its_bind};
    ghost use Rattle.sms_journal.specs.Recovered.{fate_of};
    ghost use Rattle.sms_journal.specs.Seen.{AreOrdered, Sees};

    /// Whether the request was noted, and neither an answer to it nor that it was not sent.
    fn is_open(&self, size: RunSize, worker: u32, number: u32) -> bool
        ensures { (rules : TheRules) (ms : List TheMessage) (notes : List TheNote) → Sees rules size ms notes self.now → IsTrue result ↔ IsOpen notes worker number }
    {
        let number = u64::from(number);
        if get_in(&self.fates, worker, number).is_some() {
            return false;
        }
        match get_in(&self.users, bind_of(size, worker), number) {
            Some(user) => user == worker,
            None => false,
        }
    }

    /// Whether its number is above those of all requests of its worker so far.
    fn is_above(&self, request: RequestId) -> bool
        ensures { (rules : TheRules) (size : TheRunSize) (ms : List TheMessage) (notes : List TheNote) → Sees rules size ms notes self.now → IsTrue result ↔ IsAbove notes request }
    {
        match self.latest.get(&request.worker).copied() {
            None => true,
            Some(number) => number < request.number,
        }
    }

    /// Whether nobody at its worker's bind has used its number.
    fn is_unused(&self, size: RunSize, request: RequestId) -> bool
        ensures { (rules : TheRules) (ms : List TheMessage) (notes : List TheNote) → Sees rules size ms notes self.now → IsTrue result ↔ (user_of size notes (its_bind size request.worker) request.number ≡ None) }
    {
        let bind = bind_of(size, request.worker);
        get_in(&self.users, bind, u64::from(request.number)).is_none()
    }

    /// Whether its number is a sequence_number that its worker can have drawn next.
    fn is_new(&self, size: RunSize, request: RequestId) -> bool
        ensures { (rules : TheRules) (ms : List TheMessage) (notes : List TheNote) → Sees rules size ms notes self.now → IsTrue result ↔ IsNewNumber size notes request }
    {
        if request.number < 1 {
            return false;
        }
        if request.number > TOP_NUMBER {
            return false;
        }
        if !self.is_above(request) {
            return false;
        }
        self.is_unused(size, request)
    }

    /// Whether this request was answered by a retry status.
    fn is_retried(&self, request: RequestId) -> bool
        ensures { (rules : TheRules) (size : TheRunSize) (ms : List TheMessage) (notes : List TheNote) → Sees rules size ms notes self.now → IsTrue result ↔ IsRetried (fate_of notes request.worker request.number) }
    {
        match get_in(&self.fates, request.worker, u64::from(request.number)) {
            None => false,
            Some(None) => false,
            Some(Some(reply)) => is_retry(reply.status, reply.nack),
        }
    }

    /// Whether the part may be sent again.
    fn may_try(&self, rules: &Rules, message: u64, part: u8) -> bool
        ensures { (size : TheRunSize) (ms : List TheMessage) (notes : List TheNote) → Sees rules.now size ms notes self.now → IsTrue result ↔ MayTry rules.now notes message part }
    {
        match get_in(&self.tries, u32::from(part), message) {
            None => rules.policy.attempts > 0,
            Some(tries) => {
                if tries.left < 1 {
                    return false;
                }
                self.is_retried(tries.last)
            }
        }
    }

    /// Whether the turn of the message with this index has come.
    fn has_turn(&self, size: RunSize, given: &Given, index: u64) -> bool
        requires { AreOrdered given.now.indexes.items given.now.order }
        ensures { (rules : TheRules) (ms : List TheMessage) (notes : List TheNote) → Sees rules size ms notes self.now → IsTrue result ↔ HasTurn size given.now.indexes.items notes index }
    {
        if self.starts.has(index) {
            return false;
        }
        let Some(place) = given.order.get(index) else {
            return false;
        };
        let Some(before) = (place as u64).checked_sub(all_workers(size)) else {
            return true;
        };
        match index_at(given.indexes.as_slice(), before as usize) {
            Some(other) => self.starts.has(other),
            None => true,
        }
    }
}

/// Whether a request for this part may be noted next.
fn may_send(
    seen: &Seen,
    rules: &Rules,
    size: RunSize,
    given: &Given,
    request: RequestId,
    index: u64,
    part: u8,
) -> bool
    requires { AreOrdered given.now.indexes.items given.now.order }
    ensures { (ms : List TheMessage) (notes : List TheNote) → Sees rules.now size ms notes seen.now → IsTrue result ↔ MaySend rules.now size ms given.now.indexes.items notes request index part }
{
    let Some(None) = seen.starts.get(index) else {
        return false;
    };
    let Some(count) = seen.counts.get(index) else {
        return false;
    };
    let Some(place) = given.order.get(index) else {
        return false;
    };
    if !is_dealt(size, place as u64, request.worker) {
        return false;
    }
    if part < 1 {
        return false;
    }
    if usize::from(part) > count {
        return false;
    }
    if !seen.is_new(size, request) {
        return false;
    }
    seen.may_try(rules, index, part)
}

/// How many parts the message with this index has, where it may be begun next.
fn may_begin(
    alloc: Global,
    messages: &[Message],
    rules: &Rules,
    size: RunSize,
    given: &Given,
    seen: &Seen,
    index: u64,
) -> Result<Option<usize>, NoMemory>
    requires { IsGiven messages.now given.now }
    ensures turn { IfOk result (λ found. IfSome found (λ count. (notes : List TheNote) → Sees rules.now size messages.now notes seen.now → HasTurn size given.now.indexes.items notes index)) }
    ensures count { IfOk result (λ found. IfSome found (HasParts rules.now size messages.now index)) }
    ensures refused { IfOk result (λ found. IsNone found → (notes : List TheNote) → Sees rules.now size messages.now notes seen.now → HasTurn size given.now.indexes.items notes index → (count : ℕ) → HasParts rules.now size messages.now index count → ⊥) }
{
    if !seen.has_turn(size, given, index) {
        return Ok(None);
    }
    match parts_of(alloc, messages, rules, size, &given.places, index)? {
        Some(count) => Ok(Some(count)),
        None => Ok(None),
    }
}

/// Whether a message may be refused next for this reason.
fn may_refuse(
    alloc: Global,
    messages: &[Message],
    rules: &Rules,
    size: RunSize,
    given: &Given,
    seen: &Seen,
    index: u64,
    refusal: MessageRefusal,
) -> Result<bool, NoMemory>
    requires { IsGiven messages.now given.now }
    ensures { IfOk result (λ may. (notes : List TheNote) → Sees rules.now size messages.now notes seen.now → IsTrue may ↔ (HasTurn size given.now.indexes.items notes index × HasRefusal rules.now size messages.now index refusal)) }
{
    if !seen.has_turn(size, given, index) {
        return Ok(false);
    }
    has_refusal(alloc, messages, rules, size, &given.places, index, refusal)
}

/// No parts to keep, where a note is admitted.
fn when(admits: bool) -> Option<usize>
    ensures { result ≡ (if admits then Some 0 else None) }
{
    if admits { Some(0) } else { None }
}

/// Whether a note may follow those before it while the run goes on: the number of parts of the message that it
/// begins, 0 for another note, and none where it may not.
fn follows(
    alloc: Global,
    messages: &[Message],
    rules: &Rules,
    size: RunSize,
    given: &Given,
    before: &[Note],
    seen: &Seen,
    note: &Note,
) -> Result<Option<usize>, NoMemory>
    requires given { IsGiven messages.now given.now }
    requires sees { Sees rules.now size messages.now before.now seen.now }
    ensures follows { IfOk result (λ found. IfSome found (λ count. Follows rules.now size messages.now given.now.indexes.items before.now note.now)) }
    ensures count { IfOk result (λ found. IfSome found (IsCountFor rules.now size messages.now note.now)) }
    ensures refused { IfOk result (λ found. IsNone found → ¬ Follows rules.now size messages.now given.now.indexes.items before.now note.now) }
{
    match *note {
        Note::Begun(index) => {
            match may_begin(alloc, messages, rules, size, given, seen, index)? {
                Some(count) => Ok(Some(count)),
                None => Ok(None),
            }
        }
        Note::Sent(request, index, part) => {
            let may = may_send(seen, rules, size, given, request, index, part);
            Ok(when(may))
        }
        Note::Unsent(request) => Ok(when(seen.is_open(size, request.worker, request.number))),
        Note::Heard(by, reply) => Ok(when(seen.is_open(size, by, reply.number))),
        Note::Refused(index, refusal) => {
            let may = may_refuse(alloc, messages, rules, size, given, seen, index, refusal)?;
            Ok(when(may))
        }
        Note::End(status) => {
            let may = may_end(alloc, messages, rules, given, before, seen, status)?;
            Ok(when(may))
        }
        Note::Round(_, _, _) => Ok(None),
    }
}

/// The same, where the run may have ended.
fn admitted(
    alloc: Global,
    messages: &[Message],
    rules: &Rules,
    size: RunSize,
    given: &Given,
    before: &[Note],
    seen: &Seen,
    note: &Note,
) -> Result<Option<usize>, NoMemory>
    requires given { IsGiven messages.now given.now }
    requires sees { Sees rules.now size messages.now before.now seen.now }
    ensures admitted { IfOk result (λ found. IfSome found (λ count. MayFollow rules.now size messages.now given.now.indexes.items before.now note.now)) }
    ensures count { IfOk result (λ found. IfSome found (IsCountFor rules.now size messages.now note.now)) }
    ensures refused { IfOk result (λ found. IsNone found → ¬ MayFollow rules.now size messages.now given.now.indexes.items before.now note.now) }
{
    if seen.end.is_some() {
        return Ok(None);
    }
    follows(alloc, messages, rules, size, given, before, seen, note)
}

/// Keeps what a note says.
fn keep(
    alloc: Global,
    seen: &mut Seen,
    rules: &Rules,
    size: RunSize,
    note: &Note,
    count: usize,
) -> Result<(), NoMemory>
    ensures { OnOk result (IsKept rules.now size note.now count seen.old seen.new) }
{
    keep_start(&mut seen.starts, note)?;
    keep_count(&mut seen.counts, note, count)?;
    keep_fate(alloc, &mut seen.fates, note)?;
    keep_latest(&mut seen.latest, note)?;
    keep_user(alloc, &mut seen.users, size, note)?;
    keep_end(&mut seen.end, note);
    keep_tries(alloc, &mut seen.tries, rules.policy.attempts, note)
}

/// Nothing is seen yet.
fn nothing_seen(alloc: Global) -> Seen
    ensures { (rules : TheRules) (size : TheRunSize) (ms : List TheMessage) → Sees rules size ms [] result }
{
    Seen {
        starts: DenseMap::new(alloc),
        counts: DenseMap::new(alloc),
        fates: HashMap::new(alloc),
        latest: HashMap::new(alloc),
        users: HashMap::new(alloc),
        tries: HashMap::new(alloc),
        end: None,
    }
}

/// Checks that these are notes of a round of this size that was given these of the messages: each may follow
/// those before it.
pub(crate) fn check_round(
    alloc: Global,
    messages: &[Message],
    rules: &Rules,
    size: RunSize,
    given: &Given,
    notes: &[Note],
) -> Result<(), JournalError>
    requires { IsGiven messages.now given.now }
    ensures lawful { OnOk result (IsRound rules.now size messages.now given.now.indexes.items notes.now) }
    ensures faulty { (k : ℕ) → IsErrOf result (BadNote k) → IsFirstOff rules.now size messages.now given.now.indexes.items notes.now k }
    ensures kinds { IfErr result IsOfNotes }
{
    let mut seen = nothing_seen(alloc);
    for place in 0..notes.len() {
        let before = &notes[..place];
        let note = &notes[place];
        let found = admitted(alloc, messages, rules, size, given, before, &seen, note)?;
        let Some(count) = found else {
            return Err(JournalError::BadNote(place));
        };
        keep(alloc, &mut seen, rules, size, note, count)?;
    }
    Ok(())
}

/// Checks that a run of one round, of this size and with these messages, can have written these notes: each may
/// follow those before it. `BadNote` has the place of the first that may not. The time grows with the number of
/// messages and of notes.
pub fn check_notes(
    alloc: Global,
    messages: &[Message],
    rules: &Rules,
    size: RunSize,
    notes: &[Note],
) -> Result<(), JournalError>
    ensures lawful { OnOk result (IsJournal rules.now size messages.now notes.now) }
    ensures faulty { (k : ℕ) → IsErrOf result (BadNote k) → IsFirstFault rules.now size messages.now notes.now k }
    ensures kinds { IfErr result IsOfNotes }
{
    let given = all_given(alloc, messages)?;
    check_round(alloc, messages, rules, size, &given, notes)
}
