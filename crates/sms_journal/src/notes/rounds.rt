//! The check that a run of several rounds can have written these notes.

ghost use Rattle.std.specs.Prelude.{◌≡◌, ◌≢◌, ◌⊎◌, ◌+◌, ◌<◌, ◌≤◌, ◌↔◌, [], ℕ, IfErr, IfOk, IsErrOf, IsTrue, List, None, OnOk, Some, length, slice_get, take, IfSome, IsSome, option_copied};
ghost use Rattle.std.specs.List.{AllZip};
ghost use Rattle.sms_message.specs.declared.message.Message.{Message as TheMessage};
ghost use Rattle.sms_message.specs.declared.rules.Rules.{Rules as TheRules};
ghost use Rattle.sms_journal.specs.declared.error.JournalError.TheVariants.{BadNote};
ghost use Rattle.sms_journal.specs.declared.notes.note.Note.{Note as TheNote};
ghost use Rattle.sms_journal.specs.declared.notes.run_size.RunSize.{RunSize as TheRunSize};
ghost use Rattle.sms_journal.specs.Faults.{IsOfNotes};
ghost use Rattle.sms_journal.specs.Going.{AllGoOn, AreOfOneRound, HaveNoEnd, IsBehind, IsCurrent, IsEndAt, IsFirstStop, between, going_of, noted_all};
ghost use Rattle.sms_journal.specs.Lawful.{AreStarted, end_in as status_by};
ghost use Rattle.sms_journal.specs.Rounds.{IsFirstRunFault, IsNextRound, IsRunEnd, IsRunJournal, MayEndRun, next_round as round_behind};
ghost use Rattle.sms_journal.specs.Seen.{HasStarts, IsGiven};

use crate::error::JournalError;
use crate::notes::checking::check_round;
use crate::notes::dense_map::DenseMap;
use crate::notes::ending::{all_started, is_status_of};
use crate::notes::given::{Given, all_given, order_of};
use crate::notes::note::Note;
use crate::notes::run_ends::{recover_rounds, round_in};
use crate::notes::run_size::RunSize;
use crate::notes::starts::{left_after, starts_of};
use sms_files::memory::NoMemory;
use sms_message::{Message, MessageEnd, MessageRefusal, Rules};
use std::alloc::Global;

/// The round that goes on: its number, its size, the messages that it was given, and the place of its first note.
#[derive(Drop)]
pub(crate) struct Current {
    number: u32,
    size: RunSize,
    pub(crate) given: Given,
    pub(crate) from: usize,
}

/// The first round.
pub(crate) fn first_round(
    alloc: Global,
    messages: &[Message],
    size: RunSize,
) -> Result<Current, NoMemory>
    ensures { (rules : TheRules) (notes : List TheNote) → IfOk result (IsCurrent rules size messages.now notes) }
{
    let given = all_given(alloc, messages)?;
    Ok(Current {
        number: 1,
        size,
        given,
        from: 0,
    })
}

/// The exit status, if a note says that the run has ended.
fn status_in(note: &Note) -> Option<u8>
    ensures { result ≡ status_by note.now }
{
    match *note {
        Note::End(status) => Some(status),
        _ => None,
    }
}

/// The place of the first note that says that the run has ended, or the number of notes.
fn end_of(notes: &[Note]) -> usize
    ensures { IsEndAt notes.now result }
{
    for place in 0..notes.len() {
        let note = &notes[place];
        if status_in(note).is_some() {
            return place;
        }
    }
    notes.len()
}

/// Whether a round of so many binds and workers may begin behind the one that goes on.
fn is_next(going: &Current, number: u32, binds: u32, workers: u32) -> bool
    ensures { IsTrue result ↔ IsNextRound (going_of going.now) number binds workers }
{
    u64::from(number) == u64::from(going.number) + 1
        && binds >= 1
        && binds <= 4
        && workers >= 1
        && workers <= 8
}

/// Checks the notes of the round that goes on, of which none says that the run has ended.
fn check_plain(
    alloc: Global,
    messages: &[Message],
    rules: &Rules,
    going: &Current,
    round: &[Note],
) -> Result<(), JournalError>
    requires given { IsGiven messages.now going.now.given }
    requires one { AreOfOneRound round.now }
    requires none { HaveNoEnd round.now }
    ensures lawful { (before : List TheNote) → OnOk result (AllGoOn rules.now messages.now before (going_of going.now) round.now) }
    ensures faulty { (k : ℕ) (before : List TheNote) → IsErrOf result (BadNote k) → IsFirstStop rules.now messages.now before (going_of going.now) round.now k }
    ensures kinds { IfErr result IsOfNotes }
{
    check_round(alloc, messages, rules, going.size, &going.given, round)
}

/// Whether the round that goes on has begun or refused each message that it was given, by these starts, or is a
/// further one that noted nothing.
fn has_started(going: &Current, starts: &DenseMap<Option<MessageRefusal>>, round: &[Note]) -> bool
    ensures { HasStarts round.now starts.now → IsTrue result ↔ (AreStarted going.now.given.indexes.items round.now ⊎ ((1 < going.now.number) × (round.now ≡ []))) }
{
    let indexes = going.given.indexes.as_slice();
    if all_started(starts, indexes) {
        return true;
    }
    if going.number <= 1 {
        return false;
    }
    round.is_empty()
}

/// The ends by the notes before this place, where a run's end stands, if they are known: these, which are by all of the
/// notes, if none but that note stands behind.
fn ends_before<'a>(
    notes: &[Note],
    ends: Option<&'a [MessageEnd<()>]>,
    place: usize,
) -> Option<&'a [MessageEnd<()>]>
    ensures same { IfSome (option_copied result) (λ known. option_copied ends.entry ≡ Some known) }
    ensures last { IsSome result → length notes.now ≤ place + 1 }
{
    if place >= notes.len().saturating_sub(1) {
        return ends;
    }
    None
}

/// Whether the run may have ended with this exit status after these notes, of which the last are those of the
/// round that goes on, and by which the ends of the messages may be known.
fn may_end_run(
    alloc: Global,
    messages: &[Message],
    rules: &Rules,
    going: &Current,
    before: &[Note],
    round: &[Note],
    known: Option<&[MessageEnd<()>]>,
    status: u8,
) -> Result<bool, NoMemory>
    requires free { HaveNoEnd round.now }
    requires known { IfSome (option_copied known) (AllZip (IsRunEnd rules.now before.now) messages.now) }
    ensures { IfOk result (λ may. IsTrue may ↔ MayEndRun rules.now messages.now before.now (noted_all (going_of going.now) round.now) status) }
{
    let starts = starts_of(alloc, round)?;
    if !has_started(going, &starts, round) {
        return Ok(false);
    }
    if let Some(ends) = known {
        return Ok(is_status_of(ends, status));
    }
    let ends = recover_rounds(alloc, messages, rules, before)?;
    Ok(is_status_of(ends.as_slice(), status))
}

/// Checks the last notes of a round, from its end on, which has this place. The ends by all of the notes may be known.
pub(crate) fn check_end(
    alloc: Global,
    messages: &[Message],
    rules: &Rules,
    going: &Current,
    notes: &[Note],
    round: &[Note],
    ends: Option<&[MessageEnd<()>]>,
    end: usize,
) -> Result<(), JournalError>
    requires ends { IfSome (option_copied ends) (AllZip (IsRunEnd rules.now notes.now) messages.now) }
    requires one { AreOfOneRound round.now }
    requires end { IsEndAt round.now end }
    requires behind { IsBehind (take going.now.from notes.now) round.now notes.now }
    requires from { going.now.from ≤ length notes.now }
    ensures lawful { OnOk result (AllGoOn rules.now messages.now (take going.now.from notes.now) (going_of going.now) (take end round.now) → AllGoOn rules.now messages.now (take going.now.from notes.now) (going_of going.now) round.now) }
    ensures faulty { (k : ℕ) → IsErrOf result (BadNote k) → AllGoOn rules.now messages.now (take going.now.from notes.now) (going_of going.now) (take end round.now) → IsFirstStop rules.now messages.now (take going.now.from notes.now) (going_of going.now) round.now k }
    ensures kinds { IfErr result IsOfNotes }
{
    if end == round.len() {
        return Ok(());
    }
    let note = &round[end];
    let Some(status) = status_in(note) else {
        unreachable!()
    };
    let place = going.from + end;
    let known = ends_before(notes, ends, place);
    let (before, own) = (&notes[..place], &round[..end]);
    if !may_end_run(alloc, messages, rules, going, before, own, known, status)? {
        return Err(JournalError::BadNote(end));
    }
    if end + 1 < round.len() {
        return Err(JournalError::BadNote(end + 1));
    }
    Ok(())
}

/// Checks the notes before the end of the round that goes on, and gives the place of that. A faulty note has its place in
/// the round.
pub(crate) fn check_opening(
    alloc: Global,
    messages: &[Message],
    rules: &Rules,
    going: &Current,
    round: &[Note],
) -> Result<usize, JournalError>
    requires given { IsGiven messages.now going.now.given }
    requires one { AreOfOneRound round.now }
    ensures end { IfOk result (IsEndAt round.now) }
    ensures lawful { (before : List TheNote) → IfOk result (λ end. AllGoOn rules.now messages.now before (going_of going.now) (take end round.now)) }
    ensures faulty { (k : ℕ) (before : List TheNote) → IsErrOf result (BadNote k) → IsFirstStop rules.now messages.now before (going_of going.now) round.now k }
    ensures kinds { IfErr result IsOfNotes }
{
    let end = end_of(round);
    match check_plain(alloc, messages, rules, going, &round[..end]) {
        Ok(()) => Ok(end),
        Err(error) => Err(error),
    }
}

/// Checks the notes of the round that goes on. A faulty note has its place in the round.
fn check_current(
    alloc: Global,
    messages: &[Message],
    rules: &Rules,
    going: &Current,
    notes: &[Note],
    round: &[Note],
) -> Result<(), JournalError>
    requires given { IsGiven messages.now going.now.given }
    requires one { AreOfOneRound round.now }
    requires behind { IsBehind (take going.now.from notes.now) round.now notes.now }
    requires from { going.now.from ≤ length notes.now }
    ensures lawful { OnOk result (AllGoOn rules.now messages.now (take going.now.from notes.now) (going_of going.now) round.now) }
    ensures faulty { (k : ℕ) → IsErrOf result (BadNote k) → IsFirstStop rules.now messages.now (take going.now.from notes.now) (going_of going.now) round.now k }
    ensures kinds { IfErr result IsOfNotes }
{
    match check_opening(alloc, messages, rules, going, round) {
        Ok(end) => check_end(alloc, messages, rules, going, notes, round, None, end),
        Err(error) => Err(error),
    }
}

/// The round that begins behind the notes of the one that goes on, with this number and so many binds and workers;
/// its first note stands at `from`.
fn next_round(
    alloc: Global,
    going: Current,
    round: &[Note],
    number: u32,
    binds: u32,
    workers: u32,
    from: usize,
) -> Result<Current, NoMemory>
    ensures from { IfOk result (λ next. next.from ≡ from) }
    ensures next { IfOk result (λ next. going_of next ≡ round_behind (noted_all (going_of going) round.now) number binds workers) }
    ensures given { (ms : List TheMessage) → IsGiven ms going.given → IfOk result (λ next. IsGiven ms next.given) }
{
    let Current {
        number: _,
        size,
        given,
        from: _,
    } = going;
    let starts = starts_of(alloc, round)?;
    let indexes = left_after(alloc, &starts, given.indexes.as_slice())?;
    let order = order_of(alloc, indexes.as_slice())?;
    Ok(Current {
        number,
        size: RunSize {
            accounts: size.accounts,
            binds,
            workers,
        },
        given: Given {
            places: given.places,
            indexes,
            order,
        },
        from,
    })
}

/// Checks the notes of the round that goes on, which are those before `to`.
fn check_before(
    alloc: Global,
    messages: &[Message],
    rules: &Rules,
    going: &Current,
    notes: &[Note],
    to: usize,
) -> Result<(), JournalError>
    requires from { going.now.from ≤ to }
    requires to { to ≤ length notes.now }
    requires one { AreOfOneRound (between going.now.from to notes.now) }
    requires given { IsGiven messages.now going.now.given }
    ensures lawful { OnOk result ((size : TheRunSize) → IsCurrent rules.now size messages.now notes.now going.now → IsRunJournal rules.now size messages.now (take to notes.now)) }
    ensures faulty { (k : ℕ) → IsErrOf result (BadNote k) → (size : TheRunSize) → IsCurrent rules.now size messages.now notes.now going.now → IsFirstRunFault rules.now size messages.now notes.now k }
    ensures kinds { IfErr result IsOfNotes }
{
    let round = &notes[going.from..to];
    match check_current(alloc, messages, rules, going, notes, round) {
        Ok(()) => Ok(()),
        Err(JournalError::BadNote(place)) => Err(JournalError::BadNote(going.from + place)),
        Err(other) => Err(other),
    }
}

/// The round that goes on after the note at `place`, where `going` went on before it: another, after a check of the
/// notes before it, where the note begins one.
pub(crate) fn passed(
    alloc: Global,
    messages: &[Message],
    rules: &Rules,
    going: Current,
    notes: &[Note],
    place: usize,
) -> Result<Current, JournalError>
    requires from { going.from ≤ place }
    requires place { place < length notes.now }
    requires one { AreOfOneRound (between going.from place notes.now) }
    requires given { IsGiven messages.now going.given }
    ensures current { IfOk result (λ next. (size : TheRunSize) → IsCurrent rules.now size messages.now notes.now going → IsCurrent rules.now size messages.now notes.now next) }
    ensures from { IfOk result (λ next. next.from ≤ place + 1) }
    ensures one { IfOk result (λ next. AreOfOneRound (between next.from (place + 1) notes.now)) }
    ensures faulty { (k : ℕ) → IsErrOf result (BadNote k) → (size : TheRunSize) → IsCurrent rules.now size messages.now notes.now going → IsFirstRunFault rules.now size messages.now notes.now k }
    ensures kinds { IfErr result IsOfNotes }
{
    let note = &notes[place];
    let Some((number, binds, workers)) = round_in(note) else {
        return Ok(going);
    };
    if let Err(error) = check_before(alloc, messages, rules, &going, notes, place) {
        drop(going);
        return Err(error);
    }
    if !is_next(&going, number, binds, workers) {
        drop(going);
        return Err(JournalError::BadNote(place));
    }
    let round = &notes[going.from..place];
    match next_round(alloc, going, round, number, binds, workers, place + 1) {
        Ok(next) => Ok(next),
        Err(refused) => Err(JournalError::OutOfMemory(refused)),
    }
}
