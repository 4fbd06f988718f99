//! The end of each message by the notes of a run of several rounds.

ghost use Rattle.std.specs.Prelude.{◌≡◌, ◌++◌, ◌+◌, ◌<◌, ◌≤◌, IfOk, drop, length, take};
ghost use Rattle.std.specs.List.{AllZip};
ghost use Rattle.sms_journal.specs.Rounds.{IsRunEnd, round_in as round_by};
ghost use Rattle.sms_journal.specs.Going.{IsRoundEnd, over};

use crate::further::is_left;
use crate::notes::ends::recover;
use crate::notes::note::Note;
use sms_files::memory::NoMemory;
use sms_message::{Message, MessageEnd, Rules};
use std::alloc::Global;
use std::collections::VecDeque;
use std::mem;

/// Puts the next end of a later round in the place of the one that stands there, where that leaves its message.
fn put_one(ends: &mut Vec<MessageEnd<()>>, place: usize, later: &mut VecDeque<MessageEnd<()>>)
    requires { place < length ends.old.items }
    ensures long { length ends.new.items ≡ length ends.old.items }
    ensures over { take (place + 1) ends.new.items ++ over (drop (place + 1) ends.new.items) later.new.items ≡ take place ends.old.items ++ over (drop place ends.old.items) later.old.items }
{
    let Some(end) = later.pop_front() else {
        return;
    };
    if is_left(&ends[place]) {
        drop(mem::replace(&mut ends[place], end));
    }
}

/// Puts the ends that a later round gives in the place of those of the messages that were left for it.
fn put_over(ends: &mut Vec<MessageEnd<()>>, later: Vec<MessageEnd<()>>)
    ensures { ends.new.items ≡ over ends.old.items later.items }
{
    let mut later = VecDeque::from(later);
    for place in 0..ends.len() {
        put_one(ends, place, &mut later);
    }
}

/// The number of the round that a note begins, its binds, and the workers at each.
pub(crate) fn round_in(note: &Note) -> Option<(u32, u32, u32)>
    ensures { result ≡ round_by note.now }
{
    match *note {
        Note::Round(number, binds, workers) => Some((number, binds, workers)),
        _ => None,
    }
}

/// The place of the first note from `from` on that begins a round; the number of notes, if none does.
fn round_end(notes: &[Note], from: usize) -> usize
    requires { from ≤ length notes.now }
    ensures { IsRoundEnd notes.now from result }
{
    for place in from..notes.len() {
        let note = &notes[place];
        if round_in(note).is_some() {
            return place;
        }
    }
    notes.len()
}

/// What a run of these messages, of several rounds, would have reported if every connection had dropped just after
/// the last of these notes: the end of each by the first round that didn't leave it for another, or by the last.
/// The time grows with the number of notes, and with that of the messages times the rounds.
pub fn recover_rounds(
    alloc: Global,
    messages: &[Message],
    rules: &Rules,
    notes: &[Note],
) -> Result<Vec<MessageEnd<()>>, NoMemory>
    ensures { IfOk result (λ ends. AllZip (IsRunEnd rules.now notes.now) messages.now ends.items) }
{
    let first = round_end(notes, 0);
    let mut ends = recover(alloc, messages, rules, &notes[..first])?;
    for place in first..notes.len() {
        let note = &notes[place];
        if round_in(note).is_some() {
            let end = round_end(notes, place + 1);
            put_over(
                &mut ends,
                recover(alloc, messages, rules, &notes[place + 1..end])?,
            );
        }
    }
    Ok(ends)
}
