//! The ends of a run's messages after a further round.

ghost use Rattle.std.specs.Prelude.{◌≡◌, ◌++◌, ◌+◌, ◌<◌, drop, length, take};
ghost use Rattle.sms_journal.specs.Over.{ends_over};

use crate::further::left::is_left;
use sms_message::MessageEnd;
use std::collections::VecDeque;
use std::mem;

/// Puts the next end of a further round in a message's place, where that was left.
fn put_end<S: Drop>(
    ends: &mut Vec<MessageEnd<S>>,
    place: usize,
    later: &mut VecDeque<MessageEnd<S>>,
)
    requires { place < length ends.old.items }
    ensures long { length ends.new.items ≡ length ends.old.items }
    ensures over { take (place + 1) ends.new.items ++ ends_over (drop (place + 1) ends.new.items) later.new.items ≡ take place ends.old.items ++ ends_over (drop place ends.old.items) later.old.items }
{
    if !is_left(&ends[place]) {
        return;
    }
    if let Some(end) = later.pop_front() {
        drop(mem::replace(&mut ends[place], end));
    }
}

/// Puts the ends of a further round in the places of those of the messages that were left for it.
pub fn put_ends<S: Drop>(ends: &mut Vec<MessageEnd<S>>, later: Vec<MessageEnd<S>>)
    ensures { ends.new.items ≡ ends_over ends.old.items later.items }
{
    let mut later = VecDeque::from(later);
    for place in 0..ends.len() {
        put_end(ends, place, &mut later);
    }
}
