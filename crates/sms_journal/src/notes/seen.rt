//! What the check of notes keeps of those that it has read.

ghost use Rattle.std.specs.Prelude.{◌≡◌, ℕ, ◌-◌, ◌==◌, ◌&&◌, if◌then◌else◌, Some, OnOk, nat_eq};
ghost use Rattle.std.specs.HashMap.{get};
ghost use Rattle.sms_journal.specs.DenseMap.{value_at, value_in};
ghost use Rattle.sms_journal.specs.Lawful.{end_in, user_in};
ghost use Rattle.sms_journal.specs.Recovered.{or_else, start_in};
ghost use Rattle.sms_journal.specs.Seen.{count_in, latest_in, left_by, tries_in};

use crate::notes::dense_map::{DenseMap, get_in, put_first_in, put_in};
use crate::notes::note::{Note, RequestId};
use crate::notes::run_size::{RunSize, bind_of};
use sms_files::memory::{self, NoMemory};
use sms_message::MessageRefusal;
use sms_pdu::Reply;
use std::alloc::Global;
use std::collections::HashMap;

/// The latest request for a part, and how often the part may be sent yet.
#[derive(Clone, Copy, Debug, PartialEq, Eq)]
pub(crate) struct Tries {
    pub(crate) last: RequestId,
    pub(crate) left: u32,
}

/// Of the notes so far: how each message was begun, and the number of its parts where its credits were
/// reserved; the fates of each worker's requests, and its latest number; who used each bind's numbers; the
/// requests for each part, by its number and its message; the exit status, if the run has ended.
#[derive(Drop)]
pub(crate) struct Seen {
    pub(crate) starts: DenseMap<Option<MessageRefusal>>,
    pub(crate) counts: DenseMap<usize>,
    pub(crate) fates: HashMap<u32, DenseMap<Option<Reply>>>,
    pub(crate) latest: HashMap<u32, u32>,
    pub(crate) users: HashMap<u32, DenseMap<u32>>,
    pub(crate) tries: HashMap<u32, DenseMap<Tries>>,
    pub(crate) end: Option<u8>,
}

/// Keeps how a message was begun.
pub(crate) fn keep_start(
    starts: &mut DenseMap<Option<MessageRefusal>>,
    note: &Note,
) -> Result<(), NoMemory>
    ensures { OnOk result ((q : ℕ) → value_at starts.new q ≡ or_else (value_at starts.old q) (start_in q note.now)) }
{
    match *note {
        Note::Begun(index) => starts.put_first(index, None),
        Note::Refused(index, refusal) => starts.put_first(index, Some(refusal)),
        _ => Ok(()),
    }
}

/// Keeps how many parts a message has that is begun.
pub(crate) fn keep_count(
    counts: &mut DenseMap<usize>,
    note: &Note,
    count: usize,
) -> Result<(), NoMemory>
    ensures { OnOk result ((q : ℕ) → value_at counts.new q ≡ count_in count q note.now (value_at counts.old q)) }
{
    if let Note::Begun(index) = *note {
        counts.put(index, count)?;
    }
    Ok(())
}

/// Keeps the number of a worker's latest request.
pub(crate) fn keep_latest(latest: &mut HashMap<u32, u32>, note: &Note) -> Result<(), NoMemory>
    ensures { OnOk result ((q : ℕ) → get nat_eq latest.new q ≡ latest_in q note.now (get nat_eq latest.old q)) }
{
    if let Note::Sent(request, _, _) = *note {
        memory::insert(latest, request.worker, request.number)?;
    }
    Ok(())
}

/// Keeps who used a number of a bind.
pub(crate) fn keep_user(
    alloc: Global,
    users: &mut HashMap<u32, DenseMap<u32>>,
    size: RunSize,
    note: &Note,
) -> Result<(), NoMemory>
    ensures { OnOk result ((bind number : ℕ) → value_in users.new bind number ≡ or_else (value_in users.old bind number) (user_in size bind number note.now)) }
{
    if let Note::Sent(request, _, _) = *note {
        let bind = bind_of(size, request.worker);
        let number = u64::from(request.number);
        put_first_in(alloc, users, bind, number, request.worker)?;
    }
    Ok(())
}

/// How often a part may be sent yet, of which this is kept.
pub(crate) fn left_of(attempts: u32, kept: Option<Tries>) -> u32
    ensures { result ≡ left_by attempts kept }
{
    match kept {
        Some(tries) => tries.left,
        None => attempts,
    }
}

fn keep_last(
    alloc: Global,
    tries: &mut HashMap<u32, DenseMap<Tries>>,
    message: u64,
    part: u8,
    attempts: u32,
    last: RequestId,
) -> Result<(), NoMemory>
    ensures { OnOk result ((m p : ℕ) → value_in tries.new p m ≡ (if part == p && (message == m) then Some (record { last = last; left = left_by attempts (value_in tries.old part message) - 1 }) else value_in tries.old p m)) }
{
    let row = u32::from(part);
    let left = left_of(attempts, get_in(tries, row, message)).saturating_sub(1);
    put_in(alloc, tries, row, message, Tries { last, left })?;
    Ok(())
}

/// Keeps the latest request for a part, which may be sent `attempts` times.
pub(crate) fn keep_tries(
    alloc: Global,
    tries: &mut HashMap<u32, DenseMap<Tries>>,
    attempts: u32,
    note: &Note,
) -> Result<(), NoMemory>
    ensures { OnOk result ((m p : ℕ) → value_in tries.new p m ≡ tries_in attempts m p note.now (value_in tries.old p m)) }
{
    if let Note::Sent(request, index, part) = *note {
        keep_last(alloc, tries, index, part, attempts, request)?;
    }
    Ok(())
}

/// Keeps the exit status of a run that has ended.
pub(crate) fn keep_end(end: &mut Option<u8>, note: &Note)
    ensures { end.new ≡ or_else end.old (end_in note.now) }
{
    if end.is_some() {
        return;
    }
    if let Note::End(status) = *note {
        *end = Some(status);
    }
}
