//! The header that every PDU begins with (SMPP 3.4 3.2).

ghost use Rattle.std.specs.Prelude.{◌≡◌, ◌+◌, ◌≤◌, length, drop};
ghost use Rattle.sms_pdu.specs.Header.{number_at, header_at_front, header_in};

/// The four numbers of a PDU's header, each of four octets, high octet first (SMPP 3.4 3.2).
#[derive(Clone, Copy, Debug, PartialEq, Eq)]
pub struct Header {
    /// command_length: the octets of the whole PDU, this header's too.
    pub length: u32,
    /// command_id.
    pub command: u32,
    /// command_status: 0 in a request, and in a response the error or 0.
    pub status: u32,
    /// sequence_number.
    pub number: u32,
}

/// The octets of a header, which are the fewest of a PDU.
pub const HEADER_LENGTH: usize = 16;

/// The most octets of a PDU that is read or written. The standard has no such bound.
pub const MOST_LENGTH: usize = 70_000;

/// The header of a PDU, or `None` below 16 octets. Octets after the header are not looked at.
pub fn header_of(octets: &[u8]) -> Option<Header>
    ensures { result ≡ header_in octets.now }
{
    if octets.len() < HEADER_LENGTH {
        return None;
    }
    Some(frame_header(octets))
}

/// The header of octets that are known to have one, as a frame has.
pub fn frame_header(octets: &[u8]) -> Header
    requires { 16 ≤ length octets.now }
    ensures { result ≡ header_at_front octets.now }
{
    Header {
        length: number_from(octets, 0),
        command: number_from(octets, 4),
        status: number_from(octets, 8),
        number: number_from(octets, 12),
    }
}

/// What follows the header.
pub(crate) fn body_of(octets: &[u8]) -> &[u8]
    requires { 16 ≤ length octets.now }
    ensures { result.now ≡ drop 16 octets.now }
{
    let (_, body) = octets.split_at(HEADER_LENGTH);
    body
}

/// The number of the four octets from a place on.
pub(crate) fn number_from(octets: &[u8], at: usize) -> u32
    requires { at + 4 ≤ length octets.now }
    ensures { result ≡ number_at at octets.now }
{
    u32::from_be_bytes([octets[at], octets[at + 1], octets[at + 2], octets[at + 3]])
}
