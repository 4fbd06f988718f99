//! How large a run is, and what is whose.

ghost use Rattle.std.specs.Prelude.{◌≡◌, ◌↔◌, IsTrue};
ghost use Rattle.sms_journal.specs.RunSize.{IsDealt, all_workers as workers_of_all, bind_of as its_bind};

/// How many accounts a run has, how many binds, and how many workers at each bind.
#[derive(Clone, Copy, Debug, PartialEq, Eq)]
pub struct RunSize {
    pub accounts: usize,
    pub binds: u32,
    pub workers: u32,
}

/// How many workers all binds have.
pub(crate) fn all_workers(size: RunSize) -> u64
    ensures { result ≡ workers_of_all size }
{
    u64::from(size.binds) * u64::from(size.workers)
}

/// The bind of a worker. Workers are numbered through, bind by bind.
pub(crate) fn bind_of(size: RunSize, worker: u32) -> u32
    ensures { result ≡ its_bind size worker }
{
    worker / size.workers.max(1)
}

/// Whether the message at this place is the worker's: they are dealt out to all workers in turn.
pub(crate) fn is_dealt(size: RunSize, place: u64, worker: u32) -> bool
    ensures { IsTrue result ↔ IsDealt size place worker }
{
    let all = all_workers(size);
    let worker = u64::from(worker);
    worker < all && place % all == worker
}
