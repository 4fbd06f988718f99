//! The lines behind a journal's first: their notes, and the times of these.

ghost use Rattle.std.specs.Prelude.{◌≡◌, ℕ, IfErr, IfOk, Some};
ghost use Rattle.sms_journal.specs.Lines.{AreFaultyLines};
ghost use Rattle.sms_journal.specs.Reading.{time_in as time_said};
ghost use Rattle.sms_journal.specs.TimedLines.{AreTimedNotes, IsBehindFirst};

use crate::error::JournalError;
use crate::notes::Note;
use crate::text::{feed_at, read_line, time_in};
use sms_files::memory;
use std::alloc::Global;

/// Notes, and the time of each in its place, in milliseconds since 1970 UTC.
#[derive(Drop)]
pub(crate) struct TimedNotes {
    pub(crate) times: Vec<u64>,
    pub(crate) notes: Vec<Note>,
}

/// What stands behind a text's first line.
pub(crate) fn behind_first(text: &[u8]) -> &[u8]
    ensures { IsBehindFirst text.now result.now }
{
    match feed_at(text) {
        Some(at) => {
            let (_first, rest) = text.split_at(at + 1);
            rest
        }
        None => &[],
    }
}

/// The time in a line that has one.
fn time_of(line: &[u8]) -> u64
    ensures { (time : ℕ) → time_said line.now ≡ Some time → result ≡ time }
{
    match time_in(line) {
        Some(time) => time,
        None => 0,
    }
}

/// The notes of these lines, and their times.
pub(crate) fn read_timed(alloc: Global, text: &[u8]) -> Result<TimedNotes, JournalError>
    ensures timed { IfOk result (λ read. AreTimedNotes text.now read.times.items read.notes.items) }
    ensures faulty { IfErr result (AreFaultyLines text.now) }
{
    let mut times = Vec::new(alloc);
    let mut notes = Vec::new(alloc);
    let mut written = String::new(alloc);
    let mut room = Vec::new(alloc);
    let mut left = text;
    while let Some(at) = feed_at(left) {
        let (line, rest) = left.split_at(at + 1);
        let Some(note) = read_line(&mut written, &mut room, line)? else {
            return Err(JournalError::BadRecord(notes.len() + 2));
        };
        memory::push(&mut times, time_of(line))?;
        memory::push(&mut notes, note)?;
        left = rest;
    }
    Ok(TimedNotes { times, notes })
}
