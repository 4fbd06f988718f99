//! Whether records are a report of a run's messages and accounts.

ghost use Rattle.std.specs.Prelude.{◌≡◌, ◌⊎◌, ℕ, ◌+◌, ◌≤◌, ◌↔◌, IfErr, IsTrue, List, OnOk, length, map, option_copied, slice_get};
ghost use Rattle.csv.specs.Records.{fields_of};
ghost use Rattle.sms_core.specs.Rows.{Entry};
ghost use Rattle.sms_journal.specs.Stages.{AreRowsOf, IsAt, IsFirstFaulty, IsReport, begins as may_begin, count_at as parts_at, ends_lines as it_ends_lines, goes_on as may_go_on, is_whole as are_whole, stands as may_stand, step_by, with_ending, with_line, with_row};
ghost use Rattle.sms_journal.specs.RecordLines.{line_in};
ghost use Rattle.sms_journal.specs.declared.recovery.fault.RecoveryFault.TheVariants.{Report};
ghost use Rattle.sms_journal.specs.Faults.{out_of_memory};
ghost use Rattle.sms_journal.specs.declared.rest.stage.Stage.TheVariants.{Lines, Rows};

use crate::recovery::RecoveryFault;
use crate::rest::account_rows::{add_part, row_at, rows_of};
use crate::rest::plan::{Plan, may_refuse};
use crate::rest::report_line::{
    Ending, Line, is_account, is_accounts_header, is_report_header, line_of,
};
use csv::ByteRecord;
use sms_book::Opening;
use sms_core::Row;
use std::alloc::Global;

/// What was read so far of a report's records.
#[derive(Clone, Copy, Debug, PartialEq, Eq)]
pub(crate) enum Stage {
    /// No record yet.
    Start,
    /// The number of messages that have a line, and the number of parts of the last of them that have one.
    Lines(u64, u32),
    /// The number of accounts that have a row.
    Rows(usize),
}

/// In how many parts the message at a place is sent.
fn count_at(plans: &[Plan], place: u64) -> u32
    ensures { result ≡ parts_at plans.now place }
{
    match plans.get(place as usize) {
        Some(plan) => u32::from(plan.parts),
        None => 0,
    }
}

/// Whether the last message that has lines was refused as a whole, or has one for each of its parts.
fn is_whole(plans: &[Plan], begun: u64, parts: u32) -> bool
    ensures { result ≡ are_whole plans.now begun parts }
{
    parts == 0 || parts == count_at(plans, begun.saturating_sub(1))
}

/// Whether the line is the first of the next message.
fn begins(plans: &[Plan], begun: u64, parts: u32, line: &Line) -> bool
    ensures { result ≡ may_begin plans.now begun parts line.now }
{
    is_whole(plans, begun, parts)
        && u64::from(line.message) == begun
        && line.part <= 1
        && line.part <= count_at(plans, begun)
}

/// Whether the line is of the next part.
fn goes_on(plans: &[Plan], begun: u64, parts: u32, line: &Line) -> bool
    ensures { result ≡ may_go_on plans.now begun parts line.now }
{
    u64::from(line.message) + 1 == begun
        && parts >= 1
        && u64::from(line.part) == u64::from(parts) + 1
        && line.part <= count_at(plans, u64::from(line.message))
}

/// The stage behind a line.
fn behind(line: &Line) -> Stage
    ensures { result ≡ Lines (line.now.message + 1) line.now.part }
{
    Stage::Lines(u64::from(line.message) + 1, line.part)
}

/// The stage after the line of a message with this plan; its parts are added to the rows.
fn after_planned(
    openings: &[Opening],
    rows: &mut Vec<Row>,
    line: &Line,
    plan: &Plan,
) -> Option<Stage>
    ensures { (entries : List Entry) → AreRowsOf openings.now entries rows.old.items
        → IsAt openings.now (with_ending openings.now entries line.now plan.now line.now.ending) result rows.new.items }
{
    match line.ending {
        Ending::Part(outcome) => {
            let Some(account) = plan.account else {
                return None;
            };
            if plan.addresses && add_part(rows, account, plan.cost, outcome) {
                Some(behind(line))
            } else {
                None
            }
        }
        Ending::Message(refusal) => {
            if may_refuse(plan, refusal) {
                Some(behind(line))
            } else {
                None
            }
        }
    }
}

/// Whether the line may stand there, with its attempts.
fn stands(most: u32, plans: &[Plan], begun: u64, parts: u32, line: &Line) -> bool
    ensures { result ≡ may_stand most plans.now begun parts line.now }
{
    (begins(plans, begun, parts, line) || goes_on(plans, begun, parts, line))
        && line.attempts <= most
}

/// The stage after a line of a message, where `begun` messages have lines and the last of them `parts`.
fn after_line(
    most: u32,
    plans: &[Plan],
    openings: &[Opening],
    begun: u64,
    parts: u32,
    rows: &mut Vec<Row>,
    record: &ByteRecord,
) -> Option<Stage>
    ensures { (entries : List Entry) → AreRowsOf openings.now entries rows.old.items
        → IsAt openings.now (with_line most plans.now openings.now begun parts entries (line_in (fields_of «record».now))) result rows.new.items }
{
    let Some(line) = line_of(record) else {
        return None;
    };
    if !stands(most, plans, begun, parts, &line) {
        return None;
    }
    match plans.get(line.message as usize) {
        Some(plan) => after_planned(openings, rows, &line, plan),
        None => None,
    }
}

/// The account at a place.
fn opening_at(openings: &[Opening], place: usize) -> Option<&Opening>
    ensures { option_copied result ≡ slice_get openings.now place }
{
    openings.get(place)
}

/// The stage after the row of an account.
fn after_row(openings: &[Opening], done: usize, rows: &[Row], record: &ByteRecord) -> Option<Stage>
    ensures { (entries : List Entry) → AreRowsOf openings.now entries rows.now
        → IsAt openings.now (with_row entries done (slice_get openings.now done) (fields_of «record».now)) result rows.now }
{
    let Some(opening) = opening_at(openings, done) else {
        return None;
    };
    let Some(row) = row_at(rows, done) else {
        return None;
    };
    if is_account(record, opening, &row) {
        Some(Stage::Rows(done + 1))
    } else {
        None
    }
}

/// Whether the record is the statement's header, after the lines of all messages.
fn ends_lines(plans: &[Plan], begun: u64, parts: u32, record: &ByteRecord) -> bool
    ensures { result ≡ it_ends_lines plans.now begun parts (fields_of «record».now) }
{
    begun == plans.len() as u64 && is_whole(plans, begun, parts) && is_accounts_header(record)
}

/// The stage after one more record, where it may stand there; the rows are those of the parts so far.
fn next_stage(
    most: u32,
    plans: &[Plan],
    openings: &[Opening],
    stage: Stage,
    rows: &mut Vec<Row>,
    record: &ByteRecord,
) -> Option<Stage>
    ensures { (entries : List Entry) → AreRowsOf openings.now entries rows.old.items
        → IsAt openings.now (step_by most plans.now openings.now (fields_of «record».now) entries stage) result rows.new.items }
{
    match stage {
        Stage::Start => {
            if is_report_header(record) {
                Some(Stage::Lines(0, 0))
            } else {
                None
            }
        }
        Stage::Lines(begun, parts) => {
            if ends_lines(plans, begun, parts, record) {
                Some(Stage::Rows(0))
            } else {
                after_line(most, plans, openings, begun, parts, rows, record)
            }
        }
        Stage::Rows(done) => after_row(openings, done, rows.as_slice(), record),
    }
}

/// The fault of a record that is faulty or missing after `before` of these.
fn fault_behind(records: &[ByteRecord], before: usize) -> RecoveryFault
    ensures { before ≤ length records.now → result ≡ Report (before + 1) }
{
    RecoveryFault::Report(before.min(records.len()) + 1)
}

/// Whether all rows are there.
fn is_end(stage: Stage, openings: &[Opening]) -> bool
    ensures { IsTrue result ↔ (stage ≡ Rows (length openings.now)) }
{
    match stage {
        Stage::Rows(done) => done == openings.len(),
        _ => false,
    }
}

/// Checks that the records are a report of messages of these plans, sent at most so often, and of these
/// accounts. The fault has the first record that is faulty, or the one that is missing at the end.
pub(crate) fn check_report(
    alloc: Global,
    most: u32,
    plans: &[Plan],
    openings: &[Opening],
    records: &[ByteRecord],
) -> Result<(), RecoveryFault>
    ensures report { OnOk result (IsReport most plans.now openings.now (map fields_of records.now)) }
    ensures faulty { IfErr result (λ fault. (fault ≡ out_of_memory) ⊎ ((k : ℕ) × (fault ≡ Report k) × IsFirstFaulty most plans.now openings.now (map fields_of records.now) k)) }
{
    let mut rows = rows_of(alloc, openings)?;
    let mut stage = Stage::Start;
    for place in 0..records.len() {
        match next_stage(most, plans, openings, stage, &mut rows, &records[place]) {
            Some(next) => stage = next,
            None => return Err(fault_behind(records, place)),
        }
    }
    if is_end(stage, openings) {
        Ok(())
    } else {
        Err(fault_behind(records, records.len()))
    }
}
