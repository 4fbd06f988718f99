//! A ring of octets whose room is made once.

ghost use Rattle.std.specs.Prelude.{◌≡◌, ◌<◌, ◌≤◌, ◌++◌, ◌-◌, ◌+◌, ◌==◌, length, take, drop, min, IfOk};
ghost use Rattle.std.specs.VecDeque.{deque_len, deque_capacity};
ghost use Rattle.sms_centre.specs.Rings.{empty, holds_more, holds_less};

use std::alloc::{AllocError, Global};
use std::collections::VecDeque;
use std::marker::Model;

/// A ring of octets. Contracts see its room and what it holds.
#[derive(Drop)]
pub(crate) struct Ring {
    octets: VecDeque<u8>,
    room: usize,
}

impl Model for Ring {
    ghost use Rattle.std.specs.Prelude.{◌≡◌, ◌≤◌};
    ghost use Rattle.std.specs.VecDeque.{deque_len, deque_capacity};
    ghost use Rattle.sms_centre.specs.Rings.{Held};

    ghost Value = { Held };

    ghost view = { λ r. record { room = r.room; octets = r.octets.items } };

    ghost invariant = { λ r. (deque_len r.octets ≤ r.room) × (r.room ≤ deque_capacity r.octets) };
}

impl Ring {
    /// A ring that holds at most this number of octets, and none at first.
    pub(crate) fn new(alloc: Global, room: usize) -> Result<Ring, AllocError>
        ensures { IfOk result (λ r. r ≡ empty room) }
    {
        match VecDeque::with_capacity(alloc, room) {
            Ok(octets) => Ok(Ring { octets, room }),
            Err(_full) => Err(AllocError),
        }
    }

    /// Whether it holds none.
    pub(crate) fn is_empty(&self) -> bool
        ensures { result ≡ (length self.now.octets == 0) }
    {
        self.octets.is_empty()
    }

    /// Takes in what fits of these octets, and answers how many.
    pub(crate) fn put(&mut self, from: &[u8]) -> usize
        ensures fit { result ≡ min (self.old.room - length self.old.octets) (length from.now) }
        ensures put { self.new ≡ holds_more self.old (take result from.now) }
    {
        let fit = (self.room - self.octets.len()).min(from.len());
        push_all(&mut self.octets, &from[..fit]);
        fit
    }

    /// Gives out the first octets, as many as fit, and answers how many.
    pub(crate) fn take(&mut self, to: &mut [u8]) -> usize
        ensures fit { result ≡ min (length self.old.octets) (length to.old) }
        ensures taken { take result to.new ≡ take result self.old.octets }
        ensures left { self.new ≡ holds_less self.old result }
        ensures length { length to.new ≡ length to.old }
    {
        let fit = self.octets.len().min(to.len());
        pop_all(&mut self.octets, &mut to[..fit]);
        fit
    }
}

/// Pushes octets after the others, for which there is room.
fn push_all(queue: &mut VecDeque<u8>, octets: &[u8])
    requires { deque_len queue.old + length octets.now ≤ deque_capacity queue.old }
    ensures items { queue.new.items ≡ queue.old.items ++ octets.now }
    ensures len { deque_len queue.new ≡ deque_len queue.old + length octets.now }
    ensures capacity { deque_capacity queue.new ≡ deque_capacity queue.old }
{
    for octet in octets {
        queue.push_back_reserved(*octet);
    }
}

/// Pops the first octets, as many as the slice has.
fn pop_all(queue: &mut VecDeque<u8>, to: &mut [u8])
    requires { length to.old ≤ deque_len queue.old }
    ensures popped { to.new ≡ take (length to.old) queue.old.items }
    ensures items { queue.new.items ≡ drop (length to.old) queue.old.items }
    ensures len { deque_len queue.new + length to.old ≡ deque_len queue.old }
    ensures capacity { deque_capacity queue.new ≡ deque_capacity queue.old }
    ensures length { length to.new ≡ length to.old }
{
    for at in 0..to.len() {
        if let Some(octet) = queue.pop_front() {
            to[at] = octet;
        }
    }
}
