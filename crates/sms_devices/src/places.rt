//! How workers are numbered, and what each bind has one of.

ghost use Rattle.std.specs.Prelude.{◌≡◌, option_copied};
ghost use Rattle.sms_devices.specs.Places.{of_bind, place_of};

/// Where a worker stands: its number and its bind. Workers are numbered through, bind by bind. Only a worker's
/// number gives one, so that nothing takes the number of a worker for that of a bind.
#[derive(Clone, Copy, Debug, PartialEq, Eq)]
pub struct WorkerPlace {
    worker: usize,
    bind: usize,
}

impl WorkerPlace {
    /// The place of a worker, where each bind has this many.
    pub(crate) fn new(workers: u32, worker: usize) -> WorkerPlace
        ensures { result ≡ place_of workers worker }
    {
        let bind = worker / (workers as usize).max(1);
        WorkerPlace { worker, bind }
    }

    /// The worker's number among all workers, from 0.
    pub(crate) fn worker(self) -> usize
        ensures { result ≡ self.worker }
    {
        self.worker
    }

    /// The number of its bind, from 0.
    pub(crate) fn bind(self) -> usize
        ensures { result ≡ self.bind }
    {
        self.bind
    }
}

/// One value for each bind. They are fields, since an array of values that own memory can't be a struct's field.
#[derive(Drop)]
pub struct PerBind<T> {
    pub(crate) first: T,
    pub(crate) second: T,
    pub(crate) third: T,
    pub(crate) fourth: T,
}

impl<T> PerBind<T> {
    /// The value of the worker's bind; None beyond the last bind.
    pub(crate) fn of(&self, place: WorkerPlace) -> Option<&T>
        ensures { option_copied result ≡ of_bind self.now place.bind }
    {
        self.at(place.bind)
    }

    /// The value of the bind with this number; None beyond the last bind.
    pub(crate) fn at(&self, bind: usize) -> Option<&T>
        ensures { option_copied result ≡ of_bind self.now bind }
    {
        match bind {
            0 => Some(&self.first),
            1 => Some(&self.second),
            2 => Some(&self.third),
            3 => Some(&self.fourth),
            _ => None,
        }
    }
}
