//! How messages were begun by the notes of a round, and which of them the round leaves.

ghost use Rattle.std.specs.Prelude.{◌≡◌, ◌++◌, ◌∷◌, [], List, IfOk, OnOk, Some, if◌then◌else◌};
ghost use Rattle.sms_journal.specs.declared.notes.note.Note.{Note as TheNote};
ghost use Rattle.sms_journal.specs.Rounds.{is_left_by as stays_left, left_after as left_by_notes};
ghost use Rattle.sms_journal.specs.Seen.{HasStarts};

use crate::further::is_passing;
use crate::notes::dense_map::DenseMap;
use crate::notes::note::Note;
use crate::notes::seen::keep_start;
use sms_files::memory::{self, NoMemory};
use sms_message::MessageRefusal;
use std::alloc::Global;

/// How each message was begun by these notes.
pub(crate) fn starts_of(
    alloc: Global,
    notes: &[Note],
) -> Result<DenseMap<Option<MessageRefusal>>, NoMemory>
    ensures { IfOk result (HasStarts notes.now) }
{
    let mut starts = DenseMap::new(alloc);
    for note in notes {
        keep_start(&mut starts, note)?;
    }
    Ok(starts)
}

/// Whether a message that was begun so is left for a further round.
fn is_left_by(start: Option<Option<MessageRefusal>>) -> bool
    ensures { result ≡ stays_left start }
{
    match start {
        None => true,
        Some(None) => false,
        Some(Some(refusal)) => is_passing(refusal),
    }
}

/// Adds an index, where the message is left.
fn add_left(left: &mut Vec<u64>, index: u64, is_left: bool) -> Result<(), NoMemory>
    ensures { OnOk result (left.new.items ≡ left.old.items ++ (if is_left then index ∷ [] else [])) }
{
    if is_left {
        memory::push(left, index)?;
    }
    Ok(())
}

/// Those of these messages that a round leaves by which messages were begun so.
pub(crate) fn left_after(
    alloc: Global,
    starts: &DenseMap<Option<MessageRefusal>>,
    given: &[u64],
) -> Result<Vec<u64>, NoMemory>
    ensures { IfOk result (λ left. (notes : List TheNote) → HasStarts notes starts.now → left.items ≡ left_by_notes notes given.now) }
{
    let mut left = Vec::new(alloc);
    for index in given {
        let is_left = is_left_by(starts.get(*index));
        add_left(&mut left, *index, is_left)?;
    }
    Ok(left)
}
