//! The parts that a report tells of.

ghost use Rattle.std.specs.Prelude.{◌≡◌, ◌⊎◌, ℕ, ◌++◌, IfErr, IfOk, OnOk, map, replicate, true};
ghost use Rattle.std.specs.List.{AllByRecursion};
ghost use Rattle.csv.specs.Records.{fields_of};
ghost use Rattle.sms_book.specs.Openings.{credits_of};
ghost use Rattle.sms_journal.specs.Faults.{out_of_memory};
ghost use Rattle.sms_journal.specs.Recovered.{listed};
ghost use Rattle.sms_journal.specs.RecordLines.{line_in};
ghost use Rattle.sms_journal.specs.Replied.{said};
ghost use Rattle.sms_journal.specs.ReportParts.{IsFirstUncovered, again as said_again, are_covered, attempts_told, is_covered as part_is_covered, last_answer as answer_told, nacks as it_nacks, part_ended, part_lined, parts_in};
ghost use Rattle.sms_journal.specs.declared.recovery.fault.RecoveryFault.TheVariants.{Report};

use crate::audit::part::{Answer, Answers, SentPart};
use crate::recovery::RecoveryFault;
use crate::rest::{Ending, Line, Plan, is_accounts_header, line_of};
use csv::ByteRecord;
use sms_book::Opening;
use sms_core::{ESME_ROK, ESME_RTHROTTLED};
use sms_files::memory::{self, NoMemory};
use sms_message::Outcome;
use std::alloc::Global;

/// The answer to an attempt after which the part was sent again, of which a report says no more.
fn again() -> Option<Answer>
    ensures { said result ≡ said_again }
{
    Some(Answer {
        status: ESME_RTHROTTLED,
        nack: false,
    })
}

/// Whether an answer with this status, by which a part came to this, was a generic_nack.
fn nacks(outcome: Outcome, status: u32) -> bool
    ensures { result ≡ it_nacks outcome status }
{
    match outcome {
        Outcome::Refused => status == ESME_ROK,
        _ => false,
    }
}

/// The answer to the last attempt.
fn last_answer(outcome: Outcome, status: Option<u32>) -> Option<Answer>
    ensures { said result ≡ answer_told outcome status }
{
    match status {
        None => None,
        Some(status) => Some(Answer {
            status,
            nack: nacks(outcome, status),
        }),
    }
}

/// Adds so many attempts after each of which the part was sent again.
fn push_again(items: &mut Vec<Option<Answer>>, count: u32) -> Result<(), NoMemory>
    ensures { OnOk result (map said items.new.items ≡ map said items.old.items ++ replicate count said_again) }
{
    for _ in 0..count {
        memory::push(items, again())?;
    }
    Ok(())
}

/// So many attempts, the last of which was answered so.
fn attempts_of(alloc: Global, attempts: u32, last: Option<Answer>) -> Result<Answers, NoMemory>
    ensures { IfOk result (λ answers. answers ≡ attempts_told attempts (said last)) }
{
    let mut items = Vec::new(alloc);
    if attempts > 0 {
        push_again(&mut items, attempts - 1)?;
        memory::push(&mut items, last)?;
    }
    Ok(Answers::new(items))
}

/// The part of a line; a message that was refused as a whole has none.
fn part_of_ending(alloc: Global, plan: &Plan, line: &Line) -> Result<Option<SentPart>, NoMemory>
    ensures { IfOk result (λ found. listed found ≡ part_ended plan.now line.now line.now.ending) }
{
    let Ending::Part(outcome) = line.ending else {
        return Ok(None);
    };
    let Some(account) = plan.account else {
        return Ok(None);
    };
    let attempts = attempts_of(alloc, line.attempts, last_answer(outcome, line.status))?;
    Ok(Some(SentPart {
        account,
        cost: plan.cost,
        attempts,
    }))
}

/// The part of a record.
fn part_of_record(
    alloc: Global,
    plans: &[Plan],
    record: &ByteRecord,
) -> Result<Option<SentPart>, NoMemory>
    ensures { IfOk result (λ found. listed found ≡ part_lined plans.now (line_in (fields_of «record».now))) }
{
    let Some(line) = line_of(record) else {
        return Ok(None);
    };
    match plans.get(line.message as usize) {
        Some(plan) => part_of_ending(alloc, plan, &line),
        None => Ok(None),
    }
}

/// Whether the account was opened with credits for the part.
fn is_covered(openings: &[Opening], part: &SentPart) -> bool
    ensures { result ≡ part_is_covered (credits_of openings.now) part.now }
{
    match openings.get(part.account) {
        Some(opening) => u64::from(part.cost) <= opening.credits,
        None => part.cost == 0,
    }
}

/// Adds the part of a record, if it has one, where its account was opened with credits for it.
fn add_part(
    alloc: Global,
    plans: &[Plan],
    openings: &[Opening],
    record: &ByteRecord,
    parts: &mut Vec<SentPart>,
) -> Result<bool, NoMemory>
    ensures covered { IfOk result (λ good. good ≡ are_covered (credits_of openings.now) plans.now (fields_of «record».now)) }
    ensures added { IfOk result (λ good. good ≡ true → parts.new.items ≡ parts.old.items ++ part_lined plans.now (line_in (fields_of «record».now))) }
{
    match part_of_record(alloc, plans, record)? {
        None => Ok(true),
        Some(part) => {
            if is_covered(openings, &part) {
                memory::push(parts, part)?;
                Ok(true)
            } else {
                drop(part);
                Ok(false)
            }
        }
    }
}

/// The parts of a report's lines, which are its records after the header, up to the statement.
pub(crate) fn parts_of(
    alloc: Global,
    plans: &[Plan],
    openings: &[Opening],
    lines: &[ByteRecord],
) -> Result<Vec<SentPart>, RecoveryFault>
    ensures parts { IfOk result (λ parts. parts.items ≡ parts_in plans.now (map fields_of lines.now)) }
    ensures covered { IfOk result (λ parts. AllByRecursion (λ p. part_is_covered (credits_of openings.now) p ≡ true) parts.items) }
    ensures refused { IfErr result (λ fault. (fault ≡ out_of_memory) ⊎ ((k : ℕ) × (fault ≡ Report k) × IsFirstUncovered (credits_of openings.now) plans.now (map fields_of lines.now) k)) }
{
    let mut parts = Vec::new(alloc);
    for place in 0..lines.len() {
        if is_accounts_header(&lines[place]) {
            return Ok(parts);
        }
        if !add_part(alloc, plans, openings, &lines[place], &mut parts)? {
            return Err(RecoveryFault::Report(place + 2));
        }
    }
    Ok(parts)
}
