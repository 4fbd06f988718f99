//! The schedule of a run, printed.

ghost use Rattle.std.specs.Prelude.{◌≡◌, ◌≢◌, IfErr, IfOk, OnOk, map, option_copied, string_bytes};
ghost use Rattle.csv.specs.Records.{fields_of};
ghost use Rattle.sms_files.specs.Fields.{records_of};
ghost use Rattle.sms_journal.specs.Audits.{IsAudited, IsFaultOfAudit, IsPlannedReport, IsUnaudited, PrintsAudit};
ghost use Rattle.sms_journal.specs.Faults.{output_failed};
ghost use Rattle.sms_journal.specs.Resting.{IsFaultOfReport};
ghost use Rattle.sms_journal.specs.declared.audit.fault.AuditFault.TheVariants.{Run};

use crate::audit::fault::AuditFault;
use crate::audit::schedule::schedule_lines;
use crate::audit::told::parts_of;
use crate::recovery::{RecoveryFault, input_of};
use crate::rest::{Plan, behind_first, check_report, plans_of, records_in};
use csv::ByteRecord;
use sms_files::{Input, write_out};
use std::alloc::Global;
use std::io::Write;

/// How many events `replay` takes.
const MOST_EVENTS: u64 = 1_000_000;

/// The plans of an input's messages, and the records of a report of them.
#[derive(Drop)]
struct PlannedReport {
    plans: Vec<Plan>,
    records: Vec<ByteRecord>,
}

/// Reads a report of this input.
fn plan_report(alloc: Global, input: &Input, report: &[u8]) -> Result<PlannedReport, RecoveryFault>
    ensures records { IfOk result (λ planned. map fields_of planned.records.items ≡ records_of report.now) }
    ensures report { IfOk result (λ planned. IsPlannedReport input.now report.now planned.plans.items) }
    ensures refused { IfErr result (IsFaultOfReport input.now report.now) }
{
    let records = records_in(alloc, report)?;
    let config = input.config();
    let openings = input.openings();
    let plans = plans_of(
        alloc,
        config.flags.long_reference,
        input.tariff(),
        openings.len(),
        input.messages(),
    )?;
    check_report(
        alloc,
        config.retry.policy.attempts,
        plans.as_slice(),
        openings,
        records.as_slice(),
    )?;
    Ok(PlannedReport { plans, records })
}

/// The schedule of a report of this input.
fn audit_of(alloc: Global, input: &Input, report: &[u8]) -> Result<String, AuditFault>
    ensures audited { IfOk result (λ text. IsAudited input.now report.now (string_bytes text)) }
    ensures refused { IfErr result (IsUnaudited input.now report.now) }
{
    let planned = plan_report(alloc, input, report)?;
    let openings = input.openings();
    let lines = behind_first(planned.records.as_slice());
    let parts = parts_of(alloc, planned.plans.as_slice(), openings, lines)?;
    let most = input.config().retry.policy.attempts;
    let lines = schedule_lines(alloc, most, openings, parts.as_slice())?;
    if lines.events > MOST_EVENTS {
        return Err(AuditFault::TooLong);
    }
    Ok(lines.text)
}

/// Prints the schedule by which the model comes to a run of these files, by its report: `replay` of it ends with the
/// statement's rows.
pub fn run_audit<W: Write>(
    alloc: Global,
    config: &[u8],
    accounts: &[u8],
    messages: &[u8],
    tariff: Option<&[u8]>,
    report: &[u8],
    output: &mut W,
) -> Result<(), AuditFault>
    ensures printed { OnOk result (PrintsAudit config.now accounts.now messages.now (option_copied tariff.entry) report.now (W.contents output.old) (W.contents output.new)) }
    ensures refused { IfErr result (IsFaultOfAudit config.now accounts.now messages.now (option_copied tariff.entry) report.now (W.contents output.old) (W.contents output.new)) }
    ensures quiet { IfErr result (λ fault. fault ≢ Run output_failed → output.new ≡ output.old) }
{
    let input = match input_of(alloc, config, accounts, messages, tariff) {
        Ok(input) => input,
        Err(fault) => return Err(AuditFault::Run(fault)),
    };
    let text = match audit_of(alloc, &input, report) {
        Ok(text) => text,
        Err(fault) => {
            drop(input);
            return Err(fault);
        }
    };
    drop(input);
    match write_out(output, text.as_bytes()) {
        Ok(()) => Ok(()),
        Err(fault) => Err(AuditFault::Run(RecoveryFault::from(fault))),
    }
}
