//! States of messages (SMPP 3.4 5.2.28), by the words of a receipt's text (Appendix B).

ghost use Rattle.std.specs.Prelude.{◌≡◌};
ghost use Rattle.sms_inbox.specs.State.{is_final as ends, state_word as word_of};

/// The word of a message_state, or nothing where there is no such state.
pub(crate) fn state_word(number: u8) -> &'static str
    ensures { result.now ≡ word_of number }
{
    match number {
        1 => "ENROUTE",
        2 => "DELIVRD",
        3 => "EXPIRED",
        4 => "DELETED",
        5 => "UNDELIV",
        6 => "ACCEPTD",
        7 => "UNKNOWN",
        8 => "REJECTD",
        _ => "",
    }
}

/// Whether nothing else can become of a message in this state. Centres say `ACCEPTD` and `UNKNOWN` of messages that they deliver
/// later, so these are not final.
pub fn is_final(state: &[u8]) -> bool
    ensures { result ≡ ends state.now }
{
    state == b"DELIVRD".as_slice()
        || state == b"EXPIRED".as_slice()
        || state == b"DELETED".as_slice()
        || state == b"UNDELIV".as_slice()
        || state == b"REJECTD".as_slice()
}
