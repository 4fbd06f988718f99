//! The job of `stop`: a run begins no further message, and ends.

ghost use Rattle.std.specs.Prelude.{◌≡◌, Err, IfErr, IfOk, string_bytes};
ghost use Rattle.sms_send.specs.declared.faults.fault.Fault.TheVariants.{JournalFree};
ghost use Rattle.sms_send.specs.Stopped.{FailsStop, StopsRun};

use crate::faults::fault::Fault;
use sms_devices::{JournalFiles, stop_sign};

/// Asks the run whose journal has this name to begin no further message, and waits until it has ended. The exit status
/// is 0.
pub fn stop_job<R: AllocGlobal + JournalFiles>(rt: &R, journal: String) -> Result<u8, Fault>
    ensures status { IfOk result (λ status. status ≡ 0) }
    ensures stopped { IfOk result (λ status. StopsRun (R.holds rt.now) (R.stops rt.now) (string_bytes journal)) }
    ensures free { result ≡ Err JournalFree → R.frees rt.now (string_bytes journal) }
    ensures refused { IfErr result (FailsStop (R.refuses rt.now) (string_bytes journal)) }
{
    if !rt.is_held(journal.as_str()) {
        return Err(Fault::JournalFree);
    }
    let sign = match stop_sign(rt.alloc(), journal.as_str()) {
        Ok(sign) => sign,
        Err(_memory) => return Err(Fault::OutOfMemory),
    };
    match rt.stop_run(journal.as_str(), sign.as_str()) {
        Ok(()) => Ok(0),
        Err(kind) => Err(Fault::Unmade(sign, kind)),
    }
}
