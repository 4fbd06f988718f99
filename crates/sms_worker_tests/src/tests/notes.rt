//! What a worker told, and what came to its writer, in order. It is compared with the ends.

use super::same;
use sms_worker::{Attempt, MessageEnd, MessageRefusal, MessageResult};
use std::alloc::Global;
use std::cell::{Cell, RefCell};
use std::mem;
use std::process::Abort;

/// One thing that was told.
#[derive(Clone, Copy)]
pub enum Note {
    /// The gate: a message's index.
    Begun(u64),
    Refused(u64, MessageRefusal),
    /// A number, a message's index, and a part's place.
    Sending(u32, u64, usize),
    Unsent(u32),
    /// A number and a command_status.
    Heard(u32, u32),
    /// The account's credits: free, reserved, charged, returned.
    Credits(u64, u64, u64, u64),
    /// The writer: the number of a frame.
    Written(u32),
    /// The pause: how long, and for how long nothing comes due.
    Waited(u32, u64),
}

/// What tells one note from another: its kind, its numbers, and the refusal.
pub type NoteKey = (u8, (u64, u64, u64, u64), Option<MessageRefusal>);

impl Note {
    pub fn key(self) -> NoteKey {
        match self {
            Note::Begun(message) => (0, (message, 0, 0, 0), None),
            Note::Refused(message, why) => (1, (message, 0, 0, 0), Some(why)),
            Note::Sending(number, message, part) => {
                (2, (u64::from(number), message, part as u64, 0), None)
            }
            Note::Unsent(number) => (3, (u64::from(number), 0, 0, 0), None),
            Note::Heard(number, status) => {
                (4, (u64::from(number), u64::from(status), 0, 0), None)
            }
            Note::Credits(free, reserved, charged, returned) => {
                (5, (free, reserved, charged, returned), None)
            }
            Note::Written(number) => (6, (u64::from(number), 0, 0, 0), None),
            Note::Waited(ms, most) => (7, (u64::from(ms), most, 0, 0), None),
        }
    }
}

/// All that was told since it was taken.
#[derive(Drop)]
pub struct Log {
    notes: RefCell<Vec<Note>>,
    // Whether memory was refused for a note.
    lost: Cell<bool>,
}

impl Log {
    pub fn new(alloc: Global) -> Log {
        Log {
            notes: RefCell::new(Vec::new(alloc)),
            lost: Cell::new(false),
        }
    }

    pub fn note(&self, note: Note) {
        let kept = match self.notes.try_borrow_mut() {
            Ok(mut notes) => notes.push(note).is_ok(),
            Err(_) => false,
        };
        if !kept {
            self.lost.set(true);
        }
    }

    /// What was told since the last call. None where memory was refused for a note.
    pub fn take(&self, alloc: Global) -> Option<Vec<Note>> {
        if self.lost.get() {
            return None;
        }
        match self.notes.try_borrow_mut() {
            Ok(mut notes) => Some(mem::replace(&mut *notes, Vec::new(alloc))),
            Err(_) => None,
        }
    }
}

// Where it stands first; behind all where it wasn't told.
fn place_in(notes: &[Note], wanted: Note) -> usize {
    let wanted = wanted.key();
    for place in 0..notes.len() {
        if notes[place].key() == wanted {
            return place;
        }
    }
    notes.len()
}

// Where it stands first. It was told.
fn place_of(rt: &impl Abort, notes: &[Note], wanted: Note) -> usize {
    let place = place_in(notes, wanted);
    same(
        rt,
        (wanted.key(), place < notes.len()),
        (wanted.key(), true),
    );
    place
}

// One stands behind the other.
fn want_behind(rt: &impl Abort, what: Note, before: usize, after: usize) {
    same(rt, (what.key(), before < after), (what.key(), true));
}

// How the fate of the message was told.
fn fate_of(end: &MessageEnd) -> Note {
    match &end.result {
        MessageResult::Sent(_) => Note::Begun(end.index),
        MessageResult::Refused(why) => Note::Refused(end.index, *why),
    }
}

// The attempt was told behind a place, its frame came to the writer right behind that, and its reply was
// told later. Where the last of it stands.
fn want_attempt(
    rt: &impl Abort,
    notes: &[Note],
    message: u64,
    part: usize,
    behind: usize,
    attempt: &Attempt,
) -> usize {
    let sending = Note::Sending(attempt.number, message, part);
    let told = place_of(rt, notes, sending);
    want_behind(rt, sending, behind, told);
    let written = place_of(rt, notes, Note::Written(attempt.number));
    same(rt, written, told.saturating_add(1));
    let Some(reply) = attempt.reply else {
        return written;
    };
    let heard = Note::Heard(reply.number, reply.status);
    let answered = place_of(rt, notes, heard);
    want_behind(rt, heard, written, answered);
    answered
}

// The attempts of a message were told behind its start, those of a part each behind the answer to the one
// before.
fn want_attempts(rt: &impl Abort, notes: &[Note], begun: usize, end: &MessageEnd) {
    let MessageResult::Sent(segments) = &end.result else {
        return;
    };
    let mut part = 0usize;
    for segment in segments.as_slice() {
        let mut behind = begun;
        for attempt in segment.attempts.as_slice() {
            behind = want_attempt(rt, notes, end.index, part, behind, attempt);
        }
        part = part.saturating_add(1);
    }
}

// How many notes there are of messages, of attempts, of frames and of replies.
fn counts_of(notes: &[Note]) -> (usize, usize, usize, usize) {
    let mut counts = (0usize, 0usize, 0usize, 0usize);
    for note in notes {
        match note {
            Note::Begun(_) => counts.0 = counts.0.wrapping_add(1),
            Note::Refused(..) => counts.0 = counts.0.wrapping_add(1),
            Note::Sending(..) => counts.1 = counts.1.wrapping_add(1),
            Note::Unsent(_) => counts.1 = counts.1.wrapping_sub(1),
            Note::Written(_) => counts.2 = counts.2.wrapping_add(1),
            Note::Heard(..) => counts.3 = counts.3.wrapping_add(1),
            Note::Credits(..) => {}
            Note::Waited(..) => {}
        }
    }
    counts
}

// How many notes the ends want.
fn wanted_of(ends: &[MessageEnd]) -> (usize, usize, usize, usize) {
    let mut attempts = 0usize;
    let mut replies = 0usize;
    for end in ends {
        if let MessageResult::Sent(segments) = &end.result {
            for segment in segments.as_slice() {
                for attempt in segment.attempts.as_slice() {
                    attempts = attempts.wrapping_add(1);
                    replies = replies.wrapping_add(usize::from(attempt.reply.is_some()));
                }
            }
        }
    }
    (ends.len(), attempts, attempts, replies)
}

// The numbers of the attempts rise.
fn want_rising(rt: &impl Abort, notes: &[Note]) {
    let mut last = 0u32;
    for note in notes {
        if let Note::Sending(number, ..) = note {
            same(rt, (last, *number, last < *number), (last, *number, true));
            last = *number;
        }
    }
}

/// What was told is what the ends say, and no more: the fate of each message, in order; each attempt
/// before its frame; each reply behind the frame that it answers.
pub fn want_told(rt: &impl Abort, notes: &[Note], ends: &[MessageEnd]) {
    let mut from = 0usize;
    for end in ends {
        let fate = fate_of(end);
        let place = place_of(rt, notes, fate);
        want_behind(rt, fate, from, place.saturating_add(1));
        want_attempts(rt, notes, place, end);
        from = place.saturating_add(1);
    }
    want_rising(rt, notes);
    same(rt, counts_of(notes), wanted_of(ends));
}
