//! The check of a run's notes, in two steps: only the second needs the ends of the messages.

ghost use Rattle.std.specs.Prelude.{ℕ, ◌≤◌, IfErr, IfOk, IsErrOf, OnOk, length, take};
ghost use Rattle.std.specs.List.{AllZip};
ghost use Rattle.sms_journal.specs.declared.error.JournalError.TheVariants.{BadNote};
ghost use Rattle.sms_journal.specs.declared.notes.run_size.RunSize.{RunSize as TheRunSize};
ghost use Rattle.sms_journal.specs.Faults.{IsOfNotes};
ghost use Rattle.sms_journal.specs.Going.{AllGoOn, AreOfOneRound, IsCurrent, IsEndAt, IsLastRound, between, going_of};
ghost use Rattle.sms_journal.specs.Rounds.{IsFirstRunFault, IsRunEnd, IsRunJournal};
ghost use Rattle.sms_journal.specs.Seen.{IsGiven};

use crate::error::JournalError;
use crate::notes::note::Note;
use crate::notes::rounds::{Current, check_end, check_opening, first_round, passed};
use crate::notes::run_ends::recover_rounds;
use crate::notes::run_size::RunSize;
use sms_message::{Message, MessageEnd, Rules};
use std::alloc::Global;

/// The last round, of which the notes before its end are lawful, and the place of its end among its notes.
#[derive(Drop)]
pub(crate) struct LastRound {
    going: Current,
    end: usize,
}

/// Checks the notes of the last round before its end, and gives the place of that among them.
fn check_open(
    alloc: Global,
    messages: &[Message],
    rules: &Rules,
    going: &Current,
    notes: &[Note],
) -> Result<usize, JournalError>
    requires from { going.now.from ≤ length notes.now }
    requires one { AreOfOneRound (between going.now.from (length notes.now) notes.now) }
    requires given { IsGiven messages.now going.now.given }
    ensures end { IfOk result (IsEndAt (between going.now.from (length notes.now) notes.now)) }
    ensures open { IfOk result (λ end. AllGoOn rules.now messages.now (take going.now.from notes.now) (going_of going.now) (take end (between going.now.from (length notes.now) notes.now))) }
    ensures faulty { (k : ℕ) → IsErrOf result (BadNote k) → (size : TheRunSize) → IsCurrent rules.now size messages.now notes.now going.now → IsFirstRunFault rules.now size messages.now notes.now k }
    ensures kinds { IfErr result IsOfNotes }
{
    let round = &notes[going.from..notes.len()];
    match check_opening(alloc, messages, rules, going, round) {
        Ok(end) => Ok(end),
        Err(JournalError::BadNote(place)) => Err(JournalError::BadNote(going.from + place)),
        Err(other) => Err(other),
    }
}

/// Checks the notes of a run of these messages, whose first round has this size, but for those of its last round from that
/// round's end on. `BadNote` has the place of the first that may not go on from those before it.
pub(crate) fn check_front(
    alloc: Global,
    messages: &[Message],
    rules: &Rules,
    size: RunSize,
    notes: &[Note],
) -> Result<LastRound, JournalError>
    ensures last { IfOk result (IsLastRound rules.now messages.now notes.now) }
    ensures current { IfOk result (λ last. IsCurrent rules.now size messages.now notes.now last.going) }
    ensures faulty { (k : ℕ) → IsErrOf result (BadNote k) → IsFirstRunFault rules.now size messages.now notes.now k }
    ensures kinds { IfErr result IsOfNotes }
{
    let mut going = first_round(alloc, messages, size)?;
    for place in 0..notes.len() {
        going = passed(alloc, messages, rules, going, notes, place)?;
    }
    match check_open(alloc, messages, rules, &going, notes) {
        Ok(end) => Ok(LastRound { going, end }),
        Err(error) => {
            drop(going);
            Err(error)
        }
    }
}

/// Checks the others, where the messages have these ends by all notes.
pub(crate) fn check_last(
    alloc: Global,
    messages: &[Message],
    rules: &Rules,
    last: &LastRound,
    notes: &[Note],
    ends: &[MessageEnd<()>],
) -> Result<(), JournalError>
    requires last { IsLastRound rules.now messages.now notes.now last.now }
    requires ends { AllZip (IsRunEnd rules.now notes.now) messages.now ends.now }
    ensures lawful { OnOk result ((size : TheRunSize) → IsCurrent rules.now size messages.now notes.now last.now.going → IsRunJournal rules.now size messages.now notes.now) }
    ensures faulty { (k : ℕ) → IsErrOf result (BadNote k) → (size : TheRunSize) → IsCurrent rules.now size messages.now notes.now last.now.going → IsFirstRunFault rules.now size messages.now notes.now k }
    ensures kinds { IfErr result IsOfNotes }
{
    let going = &last.going;
    let round = &notes[going.from..notes.len()];
    match check_end(
        alloc,
        messages,
        rules,
        going,
        notes,
        round,
        Some(ends),
        last.end,
    ) {
        Ok(()) => Ok(()),
        Err(JournalError::BadNote(place)) => Err(JournalError::BadNote(going.from + place)),
        Err(other) => Err(other),
    }
}

/// Checks that a run of these messages, whose first round has this size, can have written these notes: each may go
/// on from those before it. `BadNote` has the place of the first that may not. The time grows with the number of
/// notes, and with that of the messages times the rounds.
pub fn check_rounds(
    alloc: Global,
    messages: &[Message],
    rules: &Rules,
    size: RunSize,
    notes: &[Note],
) -> Result<(), JournalError>
    ensures lawful { OnOk result (IsRunJournal rules.now size messages.now notes.now) }
    ensures faulty { (k : ℕ) → IsErrOf result (BadNote k) → IsFirstRunFault rules.now size messages.now notes.now k }
    ensures kinds { IfErr result IsOfNotes }
{
    let last = check_front(alloc, messages, rules, size, notes)?;
    let ends = recover_rounds(alloc, messages, rules, notes)?;
    check_last(alloc, messages, rules, &last, notes, ends.as_slice())
}
