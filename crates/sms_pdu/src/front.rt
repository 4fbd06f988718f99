//! What stands at the front of a stream, found in place.

ghost use Rattle.std.specs.Prelude.{◌≡◌, ◌+◌, ◌++◌, ◌<◌, ◌≤◌, ◌↔◌, length, take, slice_index, None, IfSome, IsTrue};
ghost use Rattle.sms_pdu.specs.Frame.{IsFrame, IsRest, IsBad, announced, front_at, front_by};

use crate::header::{HEADER_LENGTH, MOST_LENGTH, number_from};

/// What stands at the front of a stream.
#[derive(Clone, Copy)]
pub(crate) enum Front {
    /// Fewer than the four octets of a command_length.
    Short,
    /// A command_length that no PDU has.
    Bad,
    /// A good command_length, and fewer octets than it says.
    Cut(usize),
    /// A frame of so many octets.
    Whole(usize),
}

/// How many octets the first frame of a stream has, where it stands there whole. It reads no more
/// than the command_length, and takes no memory.
pub fn first_frame(stream: &[u8]) -> Option<usize>
    ensures frame { IfSome result (λ n. (n ≤ length stream.now) × IsFrame (take n stream.now)) }
    ensures rest { result ≡ None → IsRest stream.now }
{
    match front_of(stream) {
        Front::Whole(length) => Some(length),
        Front::Short => None,
        Front::Bad => None,
        Front::Cut(_) => None,
    }
}

/// Whether the stream begins with a command_length that no frame has.
pub fn is_bad(stream: &[u8]) -> bool
    ensures { IsTrue result ↔ IsBad stream.now }
{
    matches!(front_of(stream), Front::Bad)
}

/// Whether the octets are a frame: 16 to 70,000, of which the first four give their number.
pub fn is_frame(octets: &[u8]) -> bool
    ensures { IsTrue result ↔ IsFrame octets.now }
{
    match front_of(octets) {
        Front::Whole(length) => length == octets.len(),
        Front::Short => false,
        Front::Bad => false,
        Front::Cut(_) => false,
    }
}

/// What stands at the front of a stream.
pub(crate) fn front_of(stream: &[u8]) -> Front
    ensures { result ≡ front_at stream.now }
{
    if stream.len() < 4 {
        return Front::Short;
    }
    front_with(number_from(stream, 0), stream.len())
}

/// What stands at the front of a stream of which this is held and this piece follows.
pub(crate) fn front_of_both(held: &[u8], piece: &[u8]) -> Front
    ensures { result ≡ front_at (held.now ++ piece.now) }
{
    let there = held.len() + piece.len();
    if there < 4 {
        return Front::Short;
    }
    front_with(announced_by(held, piece), there)
}

/// What stands where this command_length was read, and so many octets are there.
fn front_with(announced: u32, there: usize) -> Front
    ensures { result ≡ front_by announced there }
{
    let length = announced as usize;
    if length < HEADER_LENGTH {
        Front::Bad
    } else if length > MOST_LENGTH {
        Front::Bad
    } else if there < length {
        Front::Cut(length)
    } else {
        Front::Whole(length)
    }
}

/// The number of the first four octets.
fn announced_by(held: &[u8], piece: &[u8]) -> u32
    requires { 4 ≤ length held.now + length piece.now }
    ensures { result ≡ announced (held.now ++ piece.now) }
{
    u32::from_be_bytes([
        octet_at(held, piece, 0),
        octet_at(held, piece, 1),
        octet_at(held, piece, 2),
        octet_at(held, piece, 3),
    ])
}

/// One octet of the two slices joined.
fn octet_at(held: &[u8], piece: &[u8], at: usize) -> u8
    requires { at < length held.now + length piece.now }
    ensures { result ≡ slice_index (held.now ++ piece.now) at }
{
    if at < held.len() {
        held[at]
    } else {
        piece[at - held.len()]
    }
}
