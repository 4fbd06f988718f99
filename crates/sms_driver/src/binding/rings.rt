//! The rings by which a bind's reader hands answers to its workers.

ghost use Rattle.std.specs.Prelude.{◌≡◌, ℕ, length, IfOk};
ghost use Rattle.std.specs.List.{AllByRecursion, AllZip};
ghost use Rattle.sms_driver.specs.Rings.{IsNewPair};

use rtrb::{Consumer, Producer, RingBuffer};
use sms_pdu::Reply;
use std::alloc::{AllocError, Global};

/// How many answers fit into a ring: as many as a window has slots.
const RING_CAPACITY: usize = 64;

/// The rings of a bind, one for each of its workers.
#[derive(Drop)]
pub(crate) struct Rings {
    pub producers: Vec<Producer<Reply>>,
    pub consumers: Vec<Consumer<Reply>>,
}

/// The rings of one bind.
fn rings_of(alloc: Global, workers: usize) -> Result<Rings, AllocError>
    ensures length { IfOk result (λ r. length r.consumers.items ≡ workers) }
    // In order they are the two ends of one ring, into which nothing was pushed yet.
    ensures pairs { IfOk result (λ r. AllZip IsNewPair r.producers.items r.consumers.items) }
{
    let mut producers = Vec::with_capacity(alloc, workers)?;
    let mut consumers = Vec::with_capacity(alloc, workers)?;
    for _worker in 0..workers {
        let (producer, consumer) = RingBuffer::new(alloc, RING_CAPACITY)?;
        producers.push_reserved(producer);
        consumers.push_reserved(consumer);
    }
    Ok(Rings {
        producers,
        consumers,
    })
}

/// The rings of all binds.
pub(crate) fn all_rings(
    alloc: Global,
    binds: usize,
    workers: usize,
) -> Result<Vec<Rings>, AllocError>
    ensures binds { IfOk result (λ v. length v.items ≡ binds) }
    ensures workers { IfOk result (λ v. AllByRecursion (λ r. length r.consumers.items ≡ workers) v.items) }
    ensures pairs { IfOk result (λ v. AllByRecursion (λ r. AllZip IsNewPair r.producers.items r.consumers.items) v.items) }
{
    let mut all = Vec::with_capacity(alloc, binds)?;
    for _bind in 0..binds {
        all.push_reserved(rings_of(alloc, workers)?);
    }
    Ok(all)
}
