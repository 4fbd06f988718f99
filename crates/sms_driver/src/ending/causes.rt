//! Why binds were closed to their workers.

ghost use Rattle.std.specs.Prelude.{◌≡◌, take, drop};
ghost use Rattle.sms_driver.specs.Closings.{closing_of, down_by, first_of, no_closing, with_cause};

use crate::bind_end::{BindClosing, DownBy};
use sms_bind::DownCause;
use sms_worker::ClosedBy;
use std::collections::VecDeque;

/// What a line was brought down by, if a worker saw it down for this cause.
fn down_by(cause: DownCause) -> DownBy
    ensures { result ≡ down_by cause }
{
    match cause {
        DownCause::Reader(_) => DownBy::Reader,
        DownCause::Write => DownBy::Write,
    }
}

/// The cause that was found first stays.
fn first_of(found: Option<DownBy>, cause: DownCause) -> Option<DownBy>
    ensures { result ≡ first_of found cause }
{
    match found {
        Some(found) => Some(found),
        None => Some(down_by(cause)),
    }
}

/// Adds one more worker's cause.
fn with_cause(closing: BindClosing, cause: Option<ClosedBy>) -> BindClosing
    ensures { result ≡ with_cause closing cause }
{
    match cause {
        None => closing,
        Some(ClosedBy::Turns(_)) => BindClosing {
            down: closing.down,
            turns_over: true,
            stopped: closing.stopped,
        },
        Some(ClosedBy::Down(cause)) => BindClosing {
            down: first_of(closing.down, cause),
            turns_over: closing.turns_over,
            stopped: closing.stopped,
        },
        Some(ClosedBy::Stopped(_)) => BindClosing {
            stopped: true,
            ..closing
        },
    }
}

/// Takes the causes of the first `workers` workers, and joins them into one.
pub(crate) fn next_closing(causes: &mut VecDeque<Option<ClosedBy>>, workers: usize) -> BindClosing
    ensures closing { result ≡ closing_of (take workers causes.old.items) }
    ensures left { causes.new.items ≡ drop workers causes.old.items }
{
    let mut closing = BindClosing {
        down: None,
        turns_over: false,
        stopped: false,
    };
    for _worker in 0..workers {
        match causes.pop_front() {
            Some(cause) => closing = with_cause(closing, cause),
            None => {}
        }
    }
    closing
}
