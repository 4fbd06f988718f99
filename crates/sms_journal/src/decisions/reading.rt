//! The decisions of a run that a decisions file says.

ghost use Rattle.std.specs.Prelude.{◌≡◌, IfErr, IfOk, map};
ghost use Rattle.csv.specs.Records.{fields_of};
ghost use Rattle.sms_files.specs.Fields.{records_of};
ghost use Rattle.sms_journal.specs.Decided.{AreDecisions, AreDecisionsBehind, IsFaultBehindHeader, IsFaultOfDecisions};

use crate::decisions::fault::DecisionFault;
use crate::decisions::said::{decision_of, is_header};
use crate::recovery::JournaledRun;
use crate::rest::records_in;
use csv::ByteRecord;
use sms_files::memory;
use sms_ledger::{Decision, Run};
use std::alloc::Global;

/// The decisions of the records behind the header.
fn decisions_behind(
    alloc: Global,
    run: &JournaledRun,
    name: &Run,
    records: &[ByteRecord],
) -> Result<Vec<Decision>, DecisionFault>
    ensures decisions { IfOk result (λ decisions. AreDecisionsBehind run.now name.now (map fields_of records.now) decisions.items) }
    ensures refused { IfErr result (IsFaultBehindHeader run.now name.now (map fields_of records.now)) }
{
    let mut decisions = Vec::new(alloc);
    for record in records {
        let Some(decision) = decision_of(alloc, run, name, record)? else {
            return Err(DecisionFault::Record(decisions.len() + 2));
        };
        memory::push(&mut decisions, decision)?;
    }
    Ok(decisions)
}

/// The decisions of a run, of this name in the ledger, that a decisions file says: a header, and a record for each
/// part. Each must be of a part of the run that is in doubt; the first that isn't is the fault.
pub fn decisions_in(
    alloc: Global,
    run: &JournaledRun,
    name: &Run,
    file: &[u8],
) -> Result<Vec<Decision>, DecisionFault>
    ensures decisions { IfOk result (λ decisions. AreDecisions run.now name.now (records_of file.now) decisions.items) }
    ensures refused { IfErr result (IsFaultOfDecisions run.now name.now (records_of file.now)) }
{
    let records = records_in(alloc, file)?;
    let Some((header, rest)) = records.as_slice().split_first() else {
        return Err(DecisionFault::Record(1));
    };
    if !is_header(header) {
        return Err(DecisionFault::Record(1));
    }
    decisions_behind(alloc, run, name, rest)
}
