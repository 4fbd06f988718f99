//! A message_id, held without memory.

ghost use Rattle.std.specs.Prelude.{◌≡◌, ◌≤◌, [], length};
ghost use Rattle.sms_pdu.specs.MessageId.{longest_id};

use std::marker::Model;

/// A message_id of a submit_sm_resp: at most 64 octets (SMPP 3.4 5.2.23). Contracts see them.
#[derive(Clone, Copy, Debug, PartialEq, Eq)]
pub struct MessageId {
    // How many octets there are.
    len: u8,
    // The octets, and 0 in each place behind them.
    octets: [u8; 64],
}

impl Model for MessageId {
    ghost use Rattle.std.specs.Prelude.{List, ℕ, length, take};
    ghost use Rattle.std.proofs.Common.{arith, length-take-le, sym};
    ghost use Rattle.sms_pdu.specs.MessageId.{IsKept, filled};

    ghost Value = { List ℕ };

    ghost view = { λ id. take id.len id.octets };

    ghost invariant = { λ id. IsKept id.len id.octets };

    ghost inverse = { λ text. record { len = length text; octets = filled text } };

    ghost inverse_ok = { λ id kept i. record {
      len = length-take-le id.len id.octets (omega (arith, kept.few, kept.whole)) i;
      octets = sym kept.zeros i;
    } };
}

impl MessageId {
    /// A message_id without octets.
    pub fn empty() -> MessageId
        ensures { result ≡ [] }
    {
        MessageId {
            len: 0,
            octets: [0; 64],
        }
    }

    /// A message_id of these octets.
    pub(crate) fn of(text: &[u8]) -> MessageId
        requires { length text.now ≤ longest_id }
        ensures { result ≡ text.now }
    {
        let mut octets = [0; 64];
        for (i, octet) in text.iter().enumerate() {
            octets[i] = *octet;
        }
        MessageId {
            len: text.len() as u8,
            octets,
        }
    }

    /// Its octets.
    pub fn as_slice(&self) -> &[u8]
        ensures unchanged { result.now ≡ self.now }
        ensures bound { length result.now ≤ longest_id }
    {
        &self.octets[..usize::from(self.len)]
    }
}
