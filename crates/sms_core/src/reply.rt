//! How an answer's command_status is read (SMPP 3.4, 5.1.3).

ghost use Rattle.std.specs.Prelude.{◌≡◌};
ghost use Rattle.sms_core.specs.Replies.{is_charge as charges, is_retry as retries};

use crate::status::{ESME_RMSGQFUL, ESME_ROK, ESME_RTHROTTLED};

/// Whether the answer charges its request: a submit_sm_resp with `ESME_ROK`. A generic_nack never
/// does.
pub fn is_charge(status: u32, nack: bool) -> bool
    ensures { result ≡ charges status nack }
{
    !nack && status == ESME_ROK
}

/// Whether the request may be sent again after the answer: a submit_sm_resp that says throttled or
/// queue full.
pub fn is_retry(status: u32, nack: bool) -> bool
    ensures { result ≡ retries status nack }
{
    !nack && (status == ESME_RTHROTTLED || status == ESME_RMSGQFUL)
}
