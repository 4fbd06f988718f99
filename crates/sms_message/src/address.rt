//! How the addresses of a message are sent (SMPP 3.4 5.2.5 to 5.2.9).

ghost use Rattle.std.specs.Prelude.{◌≡◌, ◌↔◌, IfSome, IsNone, IsTrue};
ghost use Rattle.sms_message.specs.Addresses.{Address, IsNumber, IsName, IsSource, IsDestination, as_number, owned};

use sms_book::without_plus;

/// An address as it is sent.
#[derive(Clone, Copy, Debug)]
pub struct AddressRef<'a> {
    /// The type of number.
    pub ton: u8,
    /// The numbering plan.
    pub npi: u8,
    pub octets: &'a [u8],
}

/// Whether it is a number: 1 to 20 digits, and maybe a `+` before them.
fn is_number(text: &[u8]) -> bool
    ensures { IsTrue result ↔ IsNumber text.now }
{
    let digits = without_plus(text);
    1 <= digits.len() && digits.len() <= 20 && digits.iter().all(|octet| octet.is_ascii_digit())
}

/// Whether it is a name: 1 to 11 characters that are printed.
fn is_name(text: &[u8]) -> bool
    ensures { IsTrue result ↔ IsName text.now }
{
    1 <= text.len() && text.len() <= 11 && text.iter().all(|octet| 0x20 <= *octet && *octet <= 0x7E)
}

/// A number: international, of the telephone network.
fn number(text: &[u8]) -> AddressRef<'_>
    ensures { owned result ≡ as_number text.now }
{
    AddressRef {
        ton: 1,
        npi: 1,
        octets: without_plus(text),
    }
}

/// The destination, where it is good.
pub fn destination(text: &str) -> Option<AddressRef<'_>>
    ensures good { IfSome result (λ a. IsDestination text.now (owned a)) }
    ensures bad { IsNone result → ¬ IsNumber text.now }
{
    let text = text.as_bytes();
    if is_number(text) {
        return Some(number(text));
    }
    None
}

/// How a destination is sent that is good.
pub fn good_destination(text: &str) -> AddressRef<'_>
    requires { IsNumber text.now }
    ensures { IsDestination text.now (owned result) }
{
    number(text.as_bytes())
}

/// The source, where it is good.
pub fn source(text: &str) -> Option<AddressRef<'_>>
    ensures good { IfSome result (λ a. IsSource text.now (owned a)) }
    ensures bad { IsNone result → (a : Address) → ¬ IsSource text.now a }
{
    let text = text.as_bytes();
    if is_number(text) {
        return Some(number(text));
    }
    if text.is_empty() {
        return Some(AddressRef {
            ton: 0,
            npi: 0,
            octets: text,
        });
    }
    if is_name(text) {
        return Some(AddressRef {
            ton: 5,
            npi: 0,
            octets: text,
        });
    }
    None
}

/// How a source is sent that is good.
pub fn good_source(text: &str) -> AddressRef<'_>
    requires { (a : Address) × IsSource text.now a }
    ensures { IsSource text.now (owned result) }
{
    let text = text.as_bytes();
    // No name is longer, so its octets aren't looked at once more.
    if text.len() > 11 {
        return number(text);
    }
    if is_number(text) {
        return number(text);
    }
    let ton = if text.is_empty() { 0 } else { 5 };
    AddressRef {
        ton,
        npi: 0,
        octets: text,
    }
}
