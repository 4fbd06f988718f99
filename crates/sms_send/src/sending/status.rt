//! The exit status of a sending, by what became of its messages.

ghost use Rattle.std.specs.Prelude.{◌≡◌};
ghost use Rattle.sms_send.specs.Statuses.{status_by};

use sms_files::{are_whole, exit_status_of};
use sms_message::MessageEnd;

/// The exit status where a message was not sent whole.
const NOT_WHOLE: u8 = 5;

/// The program's exit status where all was sent and printed: 4 where a segment is unanswered; else, if
/// it is to be strict, 5 where a message was not sent whole, which is refused or has a segment that was not
/// charged; else 0.
pub fn status_of<S>(ends: &[MessageEnd<S>], strict: bool) -> u8
    ensures { result ≡ status_by strict ends.now }
{
    let status = exit_status_of(ends);
    if strict && status == 0 && !are_whole(ends) {
        NOT_WHOLE
    } else {
        status
    }
}
