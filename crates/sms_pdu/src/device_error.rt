//! That a device answered an error.

ghost use Rattle.std.specs.Prelude.{◌<◌};
ghost use Rattle.std.proofs.Props.{props};

use crate::tap::Tap;

/// That a reader or a writer answered an error: it had answered so many by then. Only a device that
/// answered one gives it, so that no failure is made up.
#[derive(Clone, Copy, Debug, PartialEq, Eq)]
pub struct DeviceError {
    errors: u64,
    ghost some: { 0 < errors } by { Prim.hlevel props },
}

impl DeviceError {
    ghost use Rattle.std.specs.Prelude.{◌≡◌, None, IfSome};
    ghost use Rattle.sms_pdu.specs.Devices.{faults_of};
    ghost use Rattle.sms_pdu.specs.DeviceErrors.{errors_in};

    /// That this device answered an error; none where it answered none.
    pub fn of<T>(device: &Tap<T>) -> Option<DeviceError>
        ensures some { IfSome result (λ error. errors_in error ≡ faults_of device.now) }
        ensures none { result ≡ None → faults_of device.now ≡ 0 }
    {
        let errors = device.faults();
        if errors == 0 {
            return None;
        }
        Some(DeviceError { errors })
    }
}
