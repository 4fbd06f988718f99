//! The messages that a round was given, and where each stands.

ghost use Rattle.std.specs.Prelude.{◌≡◌, IfOk};
ghost use Rattle.sms_journal.specs.Lawful.{indexes_of as all_of};
ghost use Rattle.sms_journal.specs.Seen.{AreOrdered, IsGiven};

use crate::notes::dense_map::DenseMap;
use crate::notes::verdict::places_of;
use sms_files::memory::{self, NoMemory};
use sms_message::Message;
use std::alloc::Global;

/// The messages that a round was given.
#[derive(Drop)]
pub(crate) struct Given {
    /// The place of each message of the run, by its index.
    pub(crate) places: DenseMap<usize>,
    /// The indexes of those that the round was given, in their order.
    pub(crate) indexes: Vec<u64>,
    /// The place of each of these.
    pub(crate) order: DenseMap<usize>,
}

/// The indexes of messages.
fn indexes_of(alloc: Global, messages: &[Message]) -> Result<Vec<u64>, NoMemory>
    ensures { IfOk result (λ indexes. indexes.items ≡ all_of messages.now) }
{
    let mut indexes = Vec::new(alloc);
    for message in messages {
        memory::push(&mut indexes, message.index)?;
    }
    Ok(indexes)
}

/// The places of indexes.
pub(crate) fn order_of(alloc: Global, indexes: &[u64]) -> Result<DenseMap<usize>, NoMemory>
    ensures { IfOk result (λ order. AreOrdered indexes.now order) }
{
    let mut order = DenseMap::new(alloc);
    for place in 0..indexes.len() {
        let index = &indexes[place];
        order.put_first(*index, place)?;
    }
    Ok(order)
}

/// All messages.
pub(crate) fn all_given(alloc: Global, messages: &[Message]) -> Result<Given, NoMemory>
    ensures given { IfOk result (IsGiven messages.now) }
    ensures all { IfOk result (λ given. given.indexes.items ≡ all_of messages.now) }
{
    let places = places_of(alloc, messages)?;
    let indexes = indexes_of(alloc, messages)?;
    let order = order_of(alloc, indexes.as_slice())?;
    Ok(Given {
        places,
        indexes,
        order,
    })
}
