//! The notes that a gate makes in the journal of a run.

ghost use Rattle.std.specs.Prelude.{◌≡◌, ◌≤◌, ◌<◌, None, Some, option_copied};
ghost use Rattle.sms_journal.specs.declared.notes.note.Note.TheVariants.{Heard};
ghost use Rattle.sms_devices.specs.Journals.{HasRoom, IsMadeIn, request_note, unsent_note};

use crate::journal::Journal;
use sms_journal::{Note, RequestId};
use sms_pdu::Reply;
use std::fs::OpenFile;
use std::io::Write;
use std::sync::Wait;
use std::time::Clock;

/// The request of a worker; None if a note can't hold the worker's number.
fn request_of(worker: usize, number: u32) -> Option<RequestId>
    ensures request { worker ≤ 4294967295 → result ≡ Some (record { worker = worker; number = number }) }
    ensures none { 4294967295 < worker → result ≡ None }
{
    match u32::try_from(worker) {
        Ok(worker) => Some(RequestId { worker, number }),
        Err(_) => None,
    }
}

/// The note of a request for the part of a message at this place; None if a note can't hold its numbers. No
/// run has such numbers.
pub(crate) fn note_of_request(
    worker: usize,
    number: u32,
    message: u64,
    place: usize,
) -> Option<Note>
    ensures note { HasRoom worker place → result ≡ Some (request_note worker number message place) }
    ensures none { ¬ HasRoom worker place → result ≡ None }
{
    if place >= usize::from(u8::MAX) {
        return None;
    }
    let request = request_of(worker, number)?;
    let part = place as u8 + 1;
    Some(Note::Sent(request, message, part))
}

/// The note of a reply to a worker's request.
pub(crate) fn note_of_reply(worker: usize, reply: &Reply) -> Option<Note>
    ensures note { worker ≤ 4294967295 → result ≡ Some (Heard worker reply.now) }
    ensures none { 4294967295 < worker → result ≡ None }
{
    match u32::try_from(worker) {
        Ok(worker) => Some(Note::Heard(worker, *reply)),
        Err(_) => None,
    }
}

/// The note of a request that wasn't sent after all.
pub(crate) fn note_of_unsent(worker: usize, number: u32) -> Option<Note>
    ensures note { worker ≤ 4294967295 → result ≡ Some (unsent_note worker number) }
    ensures none { 4294967295 < worker → result ≡ None }
{
    match request_of(worker, number) {
        Some(request) => Some(Note::Unsent(request)),
        None => None,
    }
}

/// A journal that takes notes.
pub trait TakesNotes {
    ghost use Rattle.std.specs.Prelude.{Bool, ⊤};
    ghost use Rattle.sms_journal.specs.declared.notes.note.Note.{Note};

    // Whether a note was made.
    ghost makes: { Self → Note → Bool → Type 0 } = { λ _ _ _. ⊤ };

    /// Makes a note. False if the journal has failed.
    fn make<R: Wait + Clock>(&self, rt: &R, note: &Note) -> bool
        ensures { makes self.now note.now result };
}

impl<F: Write + OpenFile> TakesNotes for Journal<F> {
    fn make<R: Wait + Clock>(&self, rt: &R, note: &Note) -> bool {
        self.note(rt, note)
    }
}

/// Makes a note in the journal of the run, if it has one. A note that can't hold its numbers is None. False if
/// there is a journal and the note isn't made.
pub(crate) fn make_note<R: Wait + Clock, J: TakesNotes>(
    rt: &R,
    journal: Option<&J>,
    note: Option<Note>,
) -> bool
    ensures { IsMadeIn J.makes (option_copied journal.entry) note result }
{
    match (journal, note) {
        (Some(journal), Some(note)) => journal.make(rt, &note),
        (Some(_), None) => false,
        (None, _) => true,
    }
}
