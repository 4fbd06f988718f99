//! What the rounds of a run come to.

ghost use Rattle.std.specs.Prelude.{◌<◌, ◌^◌};
ghost use Rattle.sms_book.specs.Openings.{credits_of};
ghost use Rattle.sms_send.specs.Rounds.{AreSmall, ComesAfter};

use sms_book::{Opening, Statement};
use sms_driver::Sending;
use sms_journal::further::{add_rows, put_ends};

/// What a run comes to with a further round, in the form of one sending: an end for each message, a row for each account,
/// and of the further round what became of its binds and why its workers did not send. Without a round before it is
/// what the round ended with.
pub(crate) fn with_round(before: Option<Sending>, sending: Sending) -> Sending
    ensures { ComesAfter before sending result }
{
    let Some(before) = before else {
        return sending;
    };
    let Sending {
        ends: later,
        statement,
        binds,
        reasons,
        log,
    } = sending;
    let Sending {
        mut ends,
        statement: rows,
        ..
    } = before;
    let mut rows = rows.into_rows();
    put_ends(&mut ends, later);
    add_rows(&mut rows, statement.rows());
    Sending {
        ends,
        statement: Statement::new(rows),
        binds,
        reasons,
        log,
    }
}

/// A number of 64 bits is less than 2^64.
fn is_small(_credits: u64)
    ensures { _credits < 2 ^ 64 }
{}

/// Contracts know that the credits of accounts are numbers of 64 bits once they are read.
pub(crate) fn credits_are_small(openings: &[Opening])
    ensures { AreSmall (credits_of openings.now) }
{
    for opening in openings {
        is_small(opening.credits);
    }
}
