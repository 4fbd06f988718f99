//! The fate of each request, found by its worker and number: none while it is open, `Some(None)` where it
//! was not sent, and its answer.

ghost use Rattle.std.specs.Prelude.{◌≡◌, ℕ, IfOk, OnOk};
ghost use Rattle.sms_journal.specs.Recovered.{or_else, fate_in, fate_of};
ghost use Rattle.sms_journal.specs.DenseMap.{value_in};
ghost use Rattle.sms_journal.specs.Index.{AreFates};

use crate::notes::dense_map::{DenseMap, get_in, put_first_in};
use crate::notes::note::Note;
use sms_files::memory::NoMemory;
use sms_pdu::Reply;
use std::alloc::Global;
use std::collections::HashMap;

/// Keeps the fate that a note says: the first of each request.
pub(crate) fn keep_fate(
    alloc: Global,
    fates: &mut HashMap<u32, DenseMap<Option<Reply>>>,
    note: &Note,
) -> Result<(), NoMemory>
    ensures { OnOk result ((worker number : ℕ) → value_in fates.new worker number ≡ or_else (value_in fates.old worker number) (fate_in worker number note.now)) }
{
    match *note {
        Note::Unsent(request) => {
            let number = u64::from(request.number);
            put_first_in(alloc, fates, request.worker, number, None)
        }
        Note::Heard(by, reply) => {
            put_first_in(alloc, fates, by, u64::from(reply.number), Some(reply))
        }
        _ => Ok(()),
    }
}

/// The fates that notes say, by worker and number of their requests.
pub(crate) fn fates(
    alloc: Global,
    notes: &[Note],
) -> Result<HashMap<u32, DenseMap<Option<Reply>>>, NoMemory>
    ensures { IfOk result (λ fates. AreFates notes.now fates) }
{
    let mut fates = HashMap::new(alloc);
    for note in notes {
        keep_fate(alloc, &mut fates, note)?;
    }
    Ok(fates)
}

/// The fate of a request.
pub(crate) fn fate(
    notes: &[Note],
    fates: &HashMap<u32, DenseMap<Option<Reply>>>,
    worker: u32,
    number: u32,
) -> Option<Option<Reply>>
    requires { AreFates notes.now fates.now }
    ensures { result ≡ fate_of notes.now worker number }
{
    get_in(fates, worker, u64::from(number))
}
