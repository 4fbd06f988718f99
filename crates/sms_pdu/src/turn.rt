//! What a turn of reading does beside the frames.

ghost use Rattle.std.specs.Prelude.{◌≡◌, ◌≤◌, ◌⊎◌, length, drop, true, false, None, Some};
ghost use Rattle.std.specs.IoError.{error_kind};
ghost use Rattle.sms_pdu.specs.Turn.{gives_nothing};

use std::io::{Error, ErrorKind};

/// Whether a read that failed so is one that gave nothing, and may be tried again: WouldBlock, TimedOut
/// or Interrupted.
pub fn gave_nothing(e: &Error) -> bool
    ensures { result ≡ gives_nothing (error_kind e.now) }
{
    matches!(
        e.kind(),
        ErrorKind::WouldBlock | ErrorKind::TimedOut | ErrorKind::Interrupted
    )
}

/// The octets that one turn reads at most.
pub const PIECE: usize = 65_536;

/// The fault that a read which failed so comes to: none where it gave nothing.
pub fn fault_of<C: Copy>(e: &Error, fault: C) -> Option<C>
    ensures again { gives_nothing (error_kind e.now) ≡ true → result ≡ None }
    ensures fault { gives_nothing (error_kind e.now) ≡ false → result ≡ Some fault }
    ensures one { (result ≡ None) ⊎ (result ≡ Some fault) }
{
    if gave_nothing(e) { None } else { Some(fault) }
}

/// Takes octets off the front.
pub fn drop_front(octets: &mut Vec<u8>, used: usize)
    requires { used ≤ length octets.old.items }
    ensures { octets.new.items ≡ drop used octets.old.items }
{
    octets.drain(..used);
}
