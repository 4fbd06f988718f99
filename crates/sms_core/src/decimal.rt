//! Numbers in decimal digits, as files, settings and scripts spell them.

ghost use Rattle.std.specs.Prelude.{◌≡◌};
ghost use Rattle.sms_core.specs.Decimal.{decimal_in};

/// How many digits a number has at the most, leading zeros among them.
const MOST_DIGITS: usize = 20;

/// The number that the text spells in 1 to 20 ASCII digits, where it is at most `most`.
pub fn decimal_of(text: &[u8], most: u64) -> Option<u64>
    ensures { result ≡ decimal_in most text.now }
{
    if text.is_empty() || text.len() > MOST_DIGITS {
        return None;
    }
    let mut number: u64 = 0;
    for digit in text {
        if !digit.is_ascii_digit() {
            return None;
        }
        number = number
            .checked_mul(10)?
            .checked_add(u64::from(*digit - b'0'))?;
    }
    if number <= most { Some(number) } else { None }
}
