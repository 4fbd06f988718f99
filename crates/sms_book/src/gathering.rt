//! Takes every share back, and tells what became of each account.

ghost use Rattle.std.specs.Prelude.{◌≡◌, ℕ, ◌<◌, ◌↔◌, length, IfOk, IfErr, IsErr};
ghost use Rattle.sms_book.specs.Portions.{row_at};
ghost use Rattle.sms_book.specs.Shares.{AreAll};
ghost use Rattle.sms_book.specs.Sums.{IsSumOf};
ghost use Rattle.sms_book.specs.declared.error.GatherFault.TheVariants.{MissingShare};

use crate::book::Book;
use crate::error::GatherFault;
use crate::name::BookName;
use crate::share::Shares;
use crate::statement::Statement;
use crate::steps::keep;
use crate::till::{Sealing, Till};

/// The statement of a book whose till and shares all come back: each row balances, its top-ups are
/// the till's, and its other amounts are the sums over the shares, in whatever order they come.
/// Where a share isn't there, all that was handed in comes back.
pub fn gather<N: BookName, S: Sealing>(
    book: Book<N>,
    till: Till<N, S>,
    shares: Vec<Shares<N>>,
) -> Result<Statement, (GatherFault, Book<N>, Till<N, S>, Vec<Shares<N>>)>
    ensures rows { IfOk result (λ s. s ≡ book) }
    ensures sums { IfOk result (λ s. (i : ℕ) → i < length s → IsSumOf (row_at s i) i till shares.items) }
    ensures length { IfOk result (λ s. length s ≡ N.book.accounts) }
    ensures each { IfOk result (λ s. AreAll N.book.workers shares.items) }
    ensures missing { IsErr result ↔ ¬ (AreAll N.book.workers shares.items) }
    ensures back { IfErr result (λ e. (e.0 ≡ MissingShare) × (e.1 ≡ book) × (e.2 ≡ till) × (e.3.items ≡ shares.items)) }
{
    if shares.len() != book.workers {
        return Err((GatherFault::MissingShare, book, till, shares));
    }
    let Book {
        rows,
        table,
        mut seat,
        ..
    } = book;
    let Till {
        seat: mut tills,
        ..
    } = till;
    keep(&table.shared, &mut seat, &mut tills);
    for share in shares {
        let Shares {
            seat: mut theirs,
            ..
        } = share;
        keep(&table.shared, &mut seat, &mut theirs);
    }
    Ok(Statement::new(rows))
}
