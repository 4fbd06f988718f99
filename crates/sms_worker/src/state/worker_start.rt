//! What a worker had when its call began.

use std::marker::Brand;

/// Names a call by what its worker had when it began. The invariant of the worker's state rests on it.
pub trait WorkerStart {
    ghost use Rattle.sms_worker.specs.Start.{Start};

    ghost start: { Start };
}

impl WorkerStart for Brand {
    ghost use Rattle.sms_worker.specs.Start.{no_start};

    ghost start = { no_start };
}
