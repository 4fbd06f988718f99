//! The statement's rows, by the ends of messages.

ghost use Rattle.std.specs.Prelude.{◌≡◌, ℕ, ◌+◌, ◌≤◌, ◌∷◌, [], Some, IfErr, IfOk, IfSome, IsErrOf, IsNone, OnOk, OnSome, length, slice_get};
ghost use Rattle.sms_core.specs.Rows.{IsBalanced, charged_of, reserved_of, returned_of};
ghost use Rattle.sms_core.specs.declared.row.Row.{Row as TheRow};
ghost use Rattle.sms_book.specs.declared.opening.Opening.{Opening as TheOpening};
ghost use Rattle.sms_message.specs.Ends.{phase_of};
ghost use Rattle.sms_journal.specs.declared.notes.rows.Sums.{Sums as TheSums};
ghost use Rattle.sms_journal.specs.Sums.{AreCovered, AreFew, AreSums, Fits, FitsAt, HasAdded, IsGrown, IsSmall, no_sums as nothing, parts_in, recovered_row, row_with};
ghost use Rattle.sms_journal.specs.Faults.{IsOfSums};
ghost use Rattle.sms_journal.specs.declared.error.JournalError.TheVariants.{Overdrawn};

use crate::error::JournalError;
use sms_book::Opening;
use sms_core::Row;
use sms_files::memory::{self, NoMemory};
use sms_message::{Message, MessageEnd, MessageResult, Outcome, SegmentEnd};
use std::alloc::Global;

/// The credits of an account's parts, by their outcomes.
#[derive(Clone, Copy, Debug, PartialEq, Eq)]
pub(crate) struct Sums {
    pub(crate) reserved: u64,
    pub(crate) charged: u64,
    pub(crate) returned: u64,
}

/// The sums with one more part; none where a sum would be 2^64 or more.
fn with_part(sums: Sums, part: &SegmentEnd<()>) -> Option<Sums>
    ensures reserved { IfSome result (λ new. new.reserved ≡ sums.reserved + reserved_of (phase_of part.now.outcome) part.now.cost) }
    ensures charged { IfSome result (λ new. new.charged ≡ sums.charged + charged_of (phase_of part.now.outcome) part.now.cost) }
    ensures returned { IfSome result (λ new. new.returned ≡ sums.returned + returned_of (phase_of part.now.outcome) part.now.cost) }
    ensures none { IsNone result → ¬ Fits (part.now ∷ []) sums }
{
    let cost = u64::from(part.cost);
    match part.outcome {
        Outcome::Charged => {
            let charged = sums.charged.checked_add(cost)?;
            Some(Sums { charged, ..sums })
        }
        Outcome::Unanswered => {
            let reserved = sums.reserved.checked_add(cost)?;
            Some(Sums { reserved, ..sums })
        }
        Outcome::Refused => {
            let returned = sums.returned.checked_add(cost)?;
            Some(Sums { returned, ..sums })
        }
        Outcome::Unsent => {
            let returned = sums.returned.checked_add(cost)?;
            Some(Sums { returned, ..sums })
        }
    }
}

/// The sums with these parts.
fn with_parts(sums: Sums, parts: &[SegmentEnd<()>]) -> Option<Sums>
    ensures added { IfSome result (HasAdded parts.now sums) }
    ensures none { IsNone result → ¬ Fits parts.now sums }
{
    let mut kept = sums;
    for part in parts {
        let Some(more) = with_part(kept, part) else {
            return None;
        };
        kept = more;
    }
    Some(kept)
}

/// The sums at a place.
fn sums_at(sums: &[Sums], place: usize) -> Option<Sums>
    ensures { result ≡ slice_get sums.now place }
{
    sums.get(place).copied()
}

/// Adds parts to the sums of an account, if there is one there.
fn add_parts(sums: &mut Vec<Sums>, account: usize, parts: &[SegmentEnd<()>]) -> Option<()>
    ensures length { length sums.new.items ≡ length sums.old.items }
    ensures grown { OnSome result ((i : ℕ) → IsGrown i (Some account) parts.now (slice_get sums.old.items i) (slice_get sums.new.items i)) }
    ensures none { IsNone result → ¬ FitsAt (Some account) parts.now sums.old.items }
{
    match sums_at(sums.as_slice(), account) {
        None => Some(()),
        Some(old) => {
            let Some(new) = with_parts(old, parts) else {
                return None;
            };
            sums[account] = new;
            Some(())
        }
    }
}

/// Adds the parts of a message to the sums of its account.
fn add_message(sums: &mut Vec<Sums>, account: Option<usize>, ends: &MessageResult<()>) -> Option<()>
    ensures length { length sums.new.items ≡ length sums.old.items }
    ensures grown { OnSome result ((i : ℕ) → IsGrown i account (parts_in ends.now) (slice_get sums.old.items i) (slice_get sums.new.items i)) }
    ensures none { IsNone result → ¬ FitsAt account (parts_in ends.now) sums.old.items }
{
    match account {
        None => Some(()),
        Some(place) => match ends {
            MessageResult::Refused(_) => Some(()),
            MessageResult::Sent(parts) => add_parts(sums, place, parts.as_slice()),
        },
    }
}

/// The sums of `accounts` accounts before any message.
fn no_sums(alloc: Global, accounts: usize) -> Result<Vec<Sums>, NoMemory>
    ensures length { IfOk result (λ sums. length sums.items ≡ accounts) }
    ensures each { IfOk result (λ sums. (i : ℕ) (s : TheSums) → slice_get sums.items i ≡ Some s → s ≡ nothing) }
{
    let mut sums = Vec::new(alloc);
    for _ in 0..accounts {
        memory::push(
            &mut sums,
            Sums {
                reserved: 0,
                charged: 0,
                returned: 0,
            },
        )?;
    }
    Ok(sums)
}

/// The sums of `accounts` accounts over all messages.
fn sums_of(
    alloc: Global,
    accounts: usize,
    messages: &[Message],
    ends: &[MessageEnd<()>],
) -> Result<Vec<Sums>, JournalError>
    ensures length { IfOk result (λ sums. length sums.items ≡ accounts) }
    ensures each { IfOk result (λ sums. (i : ℕ) (s : TheSums) → slice_get sums.items i ≡ Some s → AreSums i messages.now ends.now s) }
    ensures overdrawn { IsErrOf result Overdrawn → ¬ AreFew accounts messages.now ends.now }
    ensures kinds { IfErr result IsOfSums }
{
    let mut sums = no_sums(alloc, accounts)?;
    for place in 0..messages.len().min(ends.len()) {
        let message = &messages[place];
        let end = &ends[place];
        let Some(()) = add_message(&mut sums, message.account, &end.result) else {
            return Err(JournalError::Overdrawn);
        };
    }
    Ok(sums)
}

/// The row of an account that opened with these credits, of which these were reserved, charged and
/// returned; none where it had fewer.
fn row_of(credits: u64, reserved: u64, charged: u64, returned: u64) -> Option<Row>
    ensures row { IfSome result (λ row. row ≡ row_with credits (record { reserved = reserved; charged = charged; returned = returned })) }
    ensures balanced { IfSome result IsBalanced }
    ensures small { IfSome result IsSmall }
    ensures none { IsNone result → ¬ (reserved + charged ≤ credits) }
{
    let used = reserved.checked_add(charged)?;
    let free = credits.checked_sub(used)?;
    Some(Row {
        topped: credits,
        free,
        reserved,
        charged,
        returned,
    })
}

/// The rows of accounts with these openings and these sums.
fn rows_with(alloc: Global, openings: &[Opening], sums: &[Sums]) -> Result<Vec<Row>, JournalError>
    requires { length sums.now ≡ length openings.now }
    ensures length { IfOk result (λ rows. length rows.items ≡ length openings.now) }
    ensures each { IfOk result (λ rows. (i : ℕ) (row : TheRow) → slice_get rows.items i ≡ Some row → (o : TheOpening) → slice_get openings.now i ≡ Some o → (s : TheSums) → slice_get sums.now i ≡ Some s → row ≡ row_with o.credits s) }
    ensures balanced { IfOk result (λ rows. (i : ℕ) (row : TheRow) → slice_get rows.items i ≡ Some row → IsBalanced row) }
    ensures small { IfOk result (λ rows. (i : ℕ) (row : TheRow) → slice_get rows.items i ≡ Some row → IsSmall row) }
    ensures overdrawn { IsErrOf result Overdrawn → ¬ ((i : ℕ) (o : TheOpening) → slice_get openings.now i ≡ Some o → (s : TheSums) → slice_get sums.now i ≡ Some s → s.reserved + s.charged ≤ o.credits) }
    ensures kinds { IfErr result IsOfSums }
{
    let mut rows = Vec::new(alloc);
    for place in 0..openings.len() {
        let opening = &openings[place];
        let Some(its) = sums_at(sums, place) else {
            return Err(JournalError::Overdrawn);
        };
        let Some(row) = row_of(opening.credits, its.reserved, its.charged, its.returned) else {
            return Err(JournalError::Overdrawn);
        };
        memory::push(&mut rows, row)?;
    }
    Ok(rows)
}

/// The statement's rows: what the ends of these messages make of accounts with these openings. `Overdrawn`
/// where more is reserved and charged than an account had, or a sum would be 2^64 or more; no run has such ends.
pub fn recovered_rows(
    alloc: Global,
    openings: &[Opening],
    messages: &[Message],
    ends: &[MessageEnd<()>],
) -> Result<Vec<Row>, JournalError>
    ensures length { IfOk result (λ rows. length rows.items ≡ length openings.now) }
    ensures each { IfOk result (λ rows. (i : ℕ) (row : TheRow) → slice_get rows.items i ≡ Some row → (o : TheOpening) → slice_get openings.now i ≡ Some o → row ≡ recovered_row o.credits i messages.now ends.now) }
    ensures balanced { IfOk result (λ rows. (i : ℕ) (row : TheRow) → slice_get rows.items i ≡ Some row → IsBalanced row) }
    ensures covered { OnOk result (AreCovered openings.now messages.now ends.now) }
    ensures overdrawn { IsErrOf result Overdrawn → ¬ AreCovered openings.now messages.now ends.now }
    ensures kinds { IfErr result IsOfSums }
{
    let sums = sums_of(alloc, openings.len(), messages, ends)?;
    let rows = rows_with(alloc, openings, sums.as_slice())?;
    Ok(rows)
}
