//! What holds of every book, of its table over every state that meets its rule and every run of
//! steps, and of what every tariff charges.

ghost use Rattle.sms_book.specs.Laws.{EachBalanced, RuleIsOrderly, OpeningMeetsRule, StepKeepsRule, RunIsOrderly, StepMovesTotals, StepMovesBookTotals, OpeningSharesAreBlank};
ghost use Rattle.sms_book.specs.Tariffs.{IsTariff};
ghost use Rattle.sms_book.specs.TariffLaws.{CostIsOfTheLongest, CostIgnoresOrder};

use crate::book::Book;
use crate::name::BookName;
use crate::tariff::Tariff;

/// Of any book, so of whatever a taker of its lock finds: each account's top-ups are its free,
/// reserved and charged credits.
pub fn rows_balance<N: BookName>(book: &Book<N>)
    ensures { EachBalanced book.now }
{
    // What a type keeps is known where one of its fields is read.
    let _rows = &book.rows;
}

/// What the rule of a book's table says in plain terms: the book is there, with an entry for the
/// till and for each worker, and each of its totals is the sum over its entries; it has an entry for
/// each number that a seat holds, what that seat has is the entry, no two seats hold one number, and
/// a number that isn't with the book has a holder.
pub fn rule_is_orderly()
    ensures { RuleIsOrderly }
{}

/// A new table meets the rule.
pub fn opening_meets_rule()
    ensures { OpeningMeetsRule }
{}

/// Each kind of step keeps the rule.
pub fn step_keeps_rule()
    ensures { StepKeepsRule }
{}

/// So it holds after every run of steps from a new table.
pub fn run_is_orderly()
    ensures { RunIsOrderly }
{}

/// What all entries have of an account changes only where a number goes out again, and by as much
/// as what its holder has of the account changes.
pub fn step_moves_totals()
    ensures { StepMovesTotals }
{}

/// The totals that the book's seat has change with them, each by as much.
pub fn step_moves_book_totals()
    ensures { StepMovesBookTotals }
{}

/// The shares with which a book opens have the numbers from 1 to the workers' count, and nothing of
/// any account.
pub fn opening_shares_are_blank()
    ensures { OpeningSharesAreBlank }
{}

/// Of any tariff: it has at most 1,000 rates, each a prefix of at most 20 digits with 1 to 1,000
/// credits, and no two of one prefix.
pub fn tariff_is_good(tariff: &Tariff)
    ensures { IsTariff tariff.now }
{
    let _rates = &tariff.rates;
}

/// What a segment costs by a tariff is the credits of a rate with whose prefix the destination's
/// digits begin, where no rate with a longer prefix fits; where none fits, it is 1.
pub fn cost_is_of_the_longest()
    ensures { CostIsOfTheLongest }
{}

/// Two tariffs with the same rates, in whatever order, cost the same.
pub fn cost_ignores_order()
    ensures { CostIgnoresOrder }
{}
