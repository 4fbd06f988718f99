//! Who may read a file, by its mode.

ghost use Rattle.std.specs.Prelude.{◌≡◌};
ghost use Rattle.sms_send.specs.Modes.{lets_others_read};

/// What lets its user read, in an octal digit of a mode: it is at least so much.
const READS: u32 = 4;

/// Whether someone other than a file's owner may read it, by its mode.
pub fn is_open_to_others(mode: u32) -> bool
    ensures { result ≡ lets_others_read mode }
{
    let (group, all) = (mode / 8 % 8, mode % 8);
    group >= READS || all >= READS
}
