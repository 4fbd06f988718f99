//! Optional parameters of a receipt (SMPP 3.4 5.3.2).

ghost use Rattle.std.specs.Prelude.{◌≡◌, option_map};
ghost use Rattle.sms_inbox.specs.Parameters.{before_zero as front_of, code_in as code_said, state_in as state_said, value_of as value_said};

use crate::state::state_word;
use sms_pdu::Parameter;

/// receipted_message_id (5.3.2.12).
pub(crate) const RECEIPTED_MESSAGE_ID: u16 = 0x001E;

/// network_error_code (5.3.2.31).
const NETWORK_ERROR_CODE: u16 = 0x0423;

/// message_payload (5.3.2.32).
pub(crate) const MESSAGE_PAYLOAD: u16 = 0x0424;

/// message_state (5.3.2.35).
const MESSAGE_STATE: u16 = 0x0427;

/// The value of the first parameter with this tag, or no octets.
pub(crate) fn value_of(tag: u16, params: &[Parameter]) -> &[u8]
    ensures { result.now ≡ value_said tag params.now }
{
    for p in params {
        if p.tag == tag {
            return p.value.as_slice();
        }
    }
    &[]
}

/// What stands before the first 0, which ends a C-Octet String (3.1). Some centres leave it out.
pub(crate) fn before_zero(value: &[u8]) -> &[u8]
    ensures { result.now ≡ front_of value.now }
{
    for (i, octet) in value.iter().enumerate() {
        if *octet == 0 {
            return &value[..i];
        }
    }
    value
}

/// The state that the parameters say, as a word, or nothing.
pub(crate) fn state_in(params: &[Parameter]) -> &[u8]
    ensures { result.now ≡ state_said params.now }
{
    match value_of(MESSAGE_STATE, params) {
        [number] => state_word(*number).as_bytes(),
        _ => &[],
    }
}

/// The network's error code that the parameters say: the last two octets of three.
pub(crate) fn code_in(params: &[Parameter]) -> Option<u16>
    ensures { result ≡ code_said params.now }
{
    match value_of(NETWORK_ERROR_CODE, params) {
        [_network, great, small] => Some(u16::from(*great) * 256 + u16::from(*small)),
        _ => None,
    }
}
