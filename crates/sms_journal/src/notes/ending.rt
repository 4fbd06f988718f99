//! Whether a run can have ended where its journal says so.

ghost use Rattle.std.specs.Prelude.{◌↔◌, List, IfOk, IsTrue};
ghost use Rattle.sms_journal.specs.declared.notes.note.Note.{Note as TheNote};
ghost use Rattle.sms_journal.specs.declared.notes.run_size.RunSize.{RunSize as TheRunSize};
ghost use Rattle.sms_journal.specs.Lawful.{AreStarted, IsStatusOf, MayEnd};
ghost use Rattle.sms_journal.specs.Seen.{HasStarts, Sees};

use crate::notes::dense_map::DenseMap;
use crate::notes::ends::recover;
use crate::notes::given::Given;
use crate::notes::note::Note;
use crate::notes::seen::Seen;
use sms_files::memory::NoMemory;
use sms_files::{are_whole, exit_status_of};
use sms_message::{Message, MessageEnd, MessageRefusal, Rules};
use std::alloc::Global;

/// The exit status of a strict run in which no part is unanswered and a message was not sent whole.
const NOT_WHOLE: u8 = 5;

/// Whether each of these messages was begun or refused.
pub(crate) fn all_started(starts: &DenseMap<Option<MessageRefusal>>, given: &[u64]) -> bool
    ensures { (notes : List TheNote) → HasStarts notes starts.now → IsTrue result ↔ AreStarted given.now notes }
{
    for place in 0..given.len() {
        let index = &given[place];
        if !starts.has(*index) {
            return false;
        }
    }
    true
}

/// Whether a run with these ends can have ended with this exit status.
pub(crate) fn is_status_of(ends: &[MessageEnd<()>], status: u8) -> bool
    ensures { IsTrue result ↔ IsStatusOf ends.now status }
{
    let own = exit_status_of(ends);
    if status == own {
        return true;
    }
    status == NOT_WHOLE && own == 0 && !are_whole(ends)
}

/// Whether a run of one round that was given these messages, and noted this before, can have ended with this
/// exit status.
pub(crate) fn may_end(
    alloc: Global,
    messages: &[Message],
    rules: &Rules,
    given: &Given,
    before: &[Note],
    seen: &Seen,
    status: u8,
) -> Result<bool, NoMemory>
    ensures { (size : TheRunSize) → Sees rules.now size messages.now before.now seen.now → IfOk result (λ may. IsTrue may ↔ MayEnd rules.now messages.now given.now.indexes.items before.now status) }
{
    let indexes = given.indexes.as_slice();
    if !all_started(&seen.starts, indexes) {
        return Ok(false);
    }
    let ends = recover(alloc, messages, rules, before)?;
    Ok(is_status_of(ends.as_slice(), status))
}
