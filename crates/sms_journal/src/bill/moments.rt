//! When the requests of parts were written to their connections, and answered.

ghost use Rattle.std.specs.Prelude.{◌≡◌, ℕ, ◌+◌, ◌*◌, ◌<◌, ◌==◌, List, if◌then◌else◌, Some, None, IfOk, OnOk, nat_eq};
ghost use Rattle.std.specs.HashMap.{get};
ghost use Rattle.sms_journal.specs.declared.notes.note.Note.{Note as TheNote};
ghost use Rattle.sms_journal.specs.Recovered.{or_else};
ghost use Rattle.sms_journal.specs.Moments.{AreAnswers, AreMoments, answer_by, answer_to as answer_behind, moments_by as moments_then, moments_in, moments_of as moments_in_notes};

use crate::notes::Note;
use sms_files::memory::{self, NoMemory};
use std::alloc::Global;
use std::collections::HashMap;

/// When a part's last request was written to its connection, and when that was answered, in milliseconds since
/// 1970 UTC.
#[derive(Clone, Copy, Debug, PartialEq, Eq)]
pub(crate) struct Moments {
    pub(crate) sent: Option<u64>,
    pub(crate) heard: Option<u64>,
}

/// The key of a request.
fn key(worker: u32, number: u32) -> u64
    ensures key { result ≡ worker * 4294967296 + number }
    ensures bound { number < 4294967296 }
{
    u64::from(worker) * 4_294_967_296 + u64::from(number)
}

/// The key of a part.
fn place_key(message: u64, part: usize) -> u128
    ensures key { result ≡ message * 18446744073709551616 + part }
    ensures bound { part < 18446744073709551616 }
{
    u128::from(message) * 18_446_744_073_709_551_616 + part as u128
}

/// Keeps the answer of a key.
fn put_answer(
    answers: &mut HashMap<u64, Option<u64>>,
    key: u64,
    answer: Option<u64>,
) -> Result<(), NoMemory>
    ensures { OnOk result ((q : ℕ) → get nat_eq answers.new q ≡ (if key == q then Some answer else get nat_eq answers.old q)) }
{
    memory::insert(answers, key, answer)?;
    Ok(())
}

/// Keeps what a note says of a request, before those behind it. No request of another round has its answer here.
fn keep_answer(
    alloc: Global,
    answers: &mut HashMap<u64, Option<u64>>,
    time: u64,
    note: &Note,
) -> Result<(), NoMemory>
    ensures { OnOk result ((worker number : ℕ) → number < 4294967296 → get nat_eq answers.new (worker * 4294967296 + number) ≡ answer_by worker number time note.now (get nat_eq answers.old (worker * 4294967296 + number))) }
{
    match *note {
        Note::Unsent(request) => put_answer(answers, key(request.worker, request.number), None),
        Note::Heard(by, reply) => put_answer(answers, key(by, reply.number), Some(time)),
        Note::Round(_, _, _) => {
            *answers = HashMap::new(alloc);
            Ok(())
        }
        _ => Ok(()),
    }
}

/// The answer to the request of a note, by those behind it.
fn answer_to(answers: &HashMap<u64, Option<u64>>, note: &Note) -> Option<Option<u64>>
    ensures { (times : List ℕ) (notes : List TheNote) → AreAnswers times notes answers.now → result ≡ answer_behind times notes note.now }
{
    match *note {
        Note::Sent(request, _, _) => answers.get(&key(request.worker, request.number)).copied(),
        _ => None,
    }
}

/// The moments of a request that was written then and answered so, unless it was not written.
fn moments_by(time: u64, answer: Option<Option<u64>>) -> Option<Moments>
    ensures { result ≡ moments_then time answer }
{
    match answer {
        None => Some(Moments {
            sent: Some(time),
            heard: None,
        }),
        Some(heard) => match heard {
            None => None,
            Some(heard) => Some(Moments {
                sent: Some(time),
                heard: Some(heard),
            }),
        },
    }
}

/// Keeps the moments of a key, where it has none.
fn put_moments(
    moments: &mut HashMap<u128, Moments>,
    key: u128,
    found: Option<Moments>,
) -> Result<(), NoMemory>
    ensures { OnOk result ((q : ℕ) → get nat_eq moments.new q ≡ or_else (get nat_eq moments.old q) (if key == q then found else None)) }
{
    match found {
        Some(found) => {
            if !moments.contains_key(&key) {
                memory::insert(moments, key, found)?;
            }
            Ok(())
        }
        None => Ok(()),
    }
}

/// Keeps those of the request of a note, where none is kept for its part.
fn keep_moments(
    moments: &mut HashMap<u128, Moments>,
    answer: Option<Option<u64>>,
    time: u64,
    note: &Note,
) -> Result<(), NoMemory>
    ensures { OnOk result ((m p : ℕ) → p < 18446744073709551616 → get nat_eq moments.new (m * 18446744073709551616 + p) ≡ or_else (get nat_eq moments.old (m * 18446744073709551616 + p)) (moments_in answer m p time note.now)) }
{
    match *note {
        Note::Sent(_, message, part) => {
            let key = place_key(message, usize::from(part));
            put_moments(moments, key, moments_by(time, answer))
        }
        _ => Ok(()),
    }
}

/// What these notes, with their times, say of when, by the parts' keys. They are read from the last to the first.
pub(crate) fn all_moments(
    alloc: Global,
    times: &[u64],
    notes: &[Note],
) -> Result<HashMap<u128, Moments>, NoMemory>
    ensures { IfOk result (AreMoments times.now notes.now) }
{
    let mut moments = HashMap::new(alloc);
    let mut answers = HashMap::new(alloc);
    let mut place = times.len().min(notes.len());
    while place > 0 {
        place -= 1;
        let time = times[place];
        let note = &notes[place];
        let answer = answer_to(&answers, note);
        keep_moments(&mut moments, answer, time, note)?;
        keep_answer(alloc, &mut answers, time, note)?;
    }
    Ok(moments)
}

/// When the last request of a part was written, and when that was answered.
pub(crate) fn moments_of(moments: &HashMap<u128, Moments>, message: u64, part: usize) -> Moments
    ensures { (times : List ℕ) (notes : List TheNote) → AreMoments times notes moments.now → result ≡ moments_in_notes times notes message part }
{
    match moments.get(&place_key(message, part)).copied() {
        Some(moments) => moments,
        None => Moments {
            sent: None,
            heard: None,
        },
    }
}
