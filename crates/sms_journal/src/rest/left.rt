//! The messages that a run did not send, by its report.

ghost use Rattle.std.specs.Prelude.{◌≡◌, ◌<◌, ◌&&◌, ℕ, IfOk, Some, map, option_map, slice_get, true};
ghost use Rattle.csv.specs.Records.{fields_of};
ghost use Rattle.sms_journal.specs.Rest.{is_unsent, stays};

use crate::rest::report_line::{is_left, line_of};
use csv::ByteRecord;
use sms_files::memory::{self, NoMemory};
use std::alloc::Global;

/// Takes out the message whose line this is, where the line says that it was sent or can't be.
fn pass(left: &mut Vec<bool>, record: &ByteRecord)
    ensures { (i : ℕ) → slice_get left.new.items i ≡ option_map (λ b. b && stays i (fields_of «record».now)) (slice_get left.old.items i) }
{
    let Some(line) = line_of(record) else {
        return;
    };
    if is_left(&line) {
        return;
    }
    let place = line.message as usize;
    if place < left.len() {
        left[place] = false;
    }
}

/// `count` messages, all of them left.
fn all_left(alloc: Global, count: usize) -> Result<Vec<bool>, NoMemory>
    ensures { IfOk result (λ left. (i : ℕ) → i < count → slice_get left.items i ≡ Some true) }
{
    let mut left = Vec::new(alloc);
    for _ in 0..count {
        memory::push(&mut left, true)?;
    }
    Ok(left)
}

/// Which of `count` messages are left, by the records of a report.
pub fn left_by(alloc: Global, count: usize, report: &[ByteRecord]) -> Result<Vec<bool>, NoMemory>
    ensures { IfOk result (λ left. (i : ℕ) → i < count → slice_get left.items i ≡ Some (is_unsent i (map fields_of report.now))) }
{
    let mut left = all_left(alloc, count)?;
    for record in report {
        pass(&mut left, record);
    }
    Ok(left)
}
