//! What a bind's reader has beside its input: where it keeps what the message centre says, and a watch over its line.

use crate::stream::Arrived;
use crate::wire::Receipt;
pub use sms_inbox::{Kept, Unkept};
pub use sms_session::Look;

/// What became of the deliver_sm of a turn.
#[derive(Clone, Copy)]
pub enum Keeping<'a> {
    /// They weren't to be kept.
    Unasked,
    /// Each of them is in an inbox's file.
    Kept(Kept<'a>),
    /// They couldn't be kept, and are to be sent again.
    Unkept(Unkept<'a>),
}

/// What a bind's reader has beside its input. It keeps what the message centre says before that is acknowledged, and says
/// when the line is to be asked by an enquire_link (SMPP 3.4 4.11) and when it is silent.
pub trait ReaderDevice {
    ghost use Rattle.std.specs.Prelude.{◌≡◌, ℕ, Bool, Option, option_map};
    ghost use Rattle.sms_session.specs.Enquiries.{Watch, asked_at, heard_at};
    ghost use Rattle.sms_bind.specs.Devices.{IsLook, KeptOnce, octets_of};
    ghost use Rattle.sms_bind.specs.Keepings.{IsOf, is_asked};

    /// Whether deliver_sm are to be kept, and how many it has kept.
    ghost keeps: { Self → Bool };

    ghost kept: { Self → ℕ };

    /// How its line stands, if it is watched.
    ghost watch: { Self → Option Watch };

    /// Whether deliver_sm are to be kept.
    fn keeps(&self) -> bool
        ensures { result ≡ keeps self.now };

    /// Keeps each deliver_sm among the whole frames at the front of what arrived, if they are to be kept.
    fn keep<'a>(&mut self, arrived: Arrived<'a>) -> Keeping<'a>
        ensures stream { IsOf (octets_of arrived.entry) result }
        ensures asked { is_asked result ≡ keeps self.old }
        ensures once { KeptOnce (octets_of arrived.entry) (kept self.old) (kept self.new) }
        ensures same { (keeps self.new ≡ keeps self.old) × (watch self.new ≡ watch self.old) };

    /// Octets came in.
    fn heard(&mut self)
        ensures watch { (now : ℕ) × (watch self.new ≡ option_map (heard_at now) (watch self.old)) }
        ensures same { (keeps self.new ≡ keeps self.old) × (kept self.new ≡ kept self.old) };

    /// A read gave nothing. The moment, and what is to be done with the line.
    fn look(&self) -> (u64, Look)
        ensures { IsLook result.0 (watch self.now) result.1 };

    /// The line was asked at this moment, by an enquire_link that was written whole.
    fn asked(&mut self, now: u64, sent: &Receipt)
        ensures watch { watch self.new ≡ option_map (asked_at now) (watch self.old) }
        ensures same { (keeps self.new ≡ keeps self.old) × (kept self.new ≡ kept self.old) };
}
