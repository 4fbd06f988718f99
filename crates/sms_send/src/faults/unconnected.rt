//! Why a bind of a sending has no connection.

ghost use Rattle.std.specs.Prelude.{◌≡◌, Err, IfErr, IfOk, Ok};
ghost use Rattle.sms_devices.specs.declared.transport.connecting.Unconnected.{Unconnected as Why};
ghost use Rattle.sms_send.specs.Faults.{with_reason};
ghost use Rattle.sms_send.specs.declared.faults.fault.Fault.{Fault as SentFault};

use crate::faults::fault::Fault;
use sms_devices::Outboxes;
use sms_driver::BindFailure;
use std::fs::OpenFile;
use std::io::Write;
use std::sync::Wait;

/// What a sending ended with. The fault of a bind without a connection gets the reason that was kept when the
/// bind was dialled.
pub fn reasoned<R: Wait, F: Write + OpenFile>(
    outboxes: &Outboxes<'_, R, F>,
    sent: Result<u8, Fault>,
) -> Result<u8, Fault>
    ensures sent { IfOk result (λ status. sent ≡ Ok status) }
    ensures told { IfErr result (λ fault. (f : SentFault) × (sent ≡ Err f) × (why : Why) × (fault ≡ with_reason why f)) }
{
    match sent {
        Ok(status) => Ok(status),
        Err(Fault::BindFailed(bind, BindFailure::NoConnection)) => {
            Err(Fault::Unconnected(outboxes.reason(bind)))
        }
        Err(fault) => Err(fault),
    }
}
