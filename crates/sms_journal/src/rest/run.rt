//! The messages that a run did not send, and the accounts for them, printed.

ghost use Rattle.std.specs.Prelude.{◌≡◌, ◌≢◌, IfErr, IfOk, OnOk, map, option_copied};
ghost use Rattle.std.specs.Io.KnownBytes.{Appends};
ghost use Rattle.csv.specs.Records.{fields_of};
ghost use Rattle.sms_files.specs.Fields.{records_of};
ghost use Rattle.sms_journal.specs.Files.{IsCut, Reads};
ghost use Rattle.sms_journal.specs.Rest.{rest_accounts_of, rest_of};
ghost use Rattle.sms_journal.specs.Resting.{IsReportOf, Prints, IsFaultOfPrinting, IsFaultOfReport, IsFaultOfReported, accounts_by, rest_by};
ghost use Rattle.sms_journal.specs.Faults.{output_failed};

use crate::recovery::{RecoveryFault, input_of};
use crate::rest::plan::plans_of;
use crate::rest::printing::{accounts_text, rest_text};
use crate::rest::records::records_in;
use crate::rest::stage::check_report;
use csv::ByteRecord;
use sms_book::Opening;
use sms_files::{Input, write_out};
use std::alloc::Global;
use std::io::Write;

/// The input of a run, and the records of its report.
#[derive(Drop)]
struct Reported {
    input: Input,
    records: Vec<ByteRecord>,
}

/// The records of a report of this input.
fn report_of(alloc: Global, input: &Input, report: &[u8]) -> Result<Vec<ByteRecord>, RecoveryFault>
    ensures records { IfOk result (λ records. map fields_of records.items ≡ records_of report.now) }
    ensures report { OnOk result (IsReportOf input.now report.now) }
    ensures refused { IfErr result (IsFaultOfReport input.now report.now) }
{
    let records = records_in(alloc, report)?;
    let config = input.config();
    let openings = input.openings();
    let plans = plans_of(
        alloc,
        config.flags.long_reference,
        input.tariff(),
        openings.len(),
        input.messages(),
    )?;
    check_report(
        alloc,
        config.retry.policy.attempts,
        plans.as_slice(),
        openings,
        records.as_slice(),
    )?;
    Ok(records)
}

/// Reads the files of a run, and its report.
fn read_report(
    alloc: Global,
    config: &[u8],
    accounts: &[u8],
    messages: &[u8],
    tariff: Option<&[u8]>,
    report: &[u8],
) -> Result<Reported, RecoveryFault>
    ensures read { IfOk result (λ r. Reads config.now accounts.now messages.now (option_copied tariff.entry) r.input) }
    ensures records { IfOk result (λ r. map fields_of r.records.items ≡ records_of report.now) }
    ensures report { IfOk result (λ r. IsReportOf r.input report.now) }
    ensures refused { IfErr result (IsFaultOfReported config.now accounts.now messages.now (option_copied tariff.entry) report.now) }
{
    let input = match input_of(alloc, config, accounts, messages, tariff) {
        Ok(input) => input,
        Err(fault) => return Err(fault),
    };
    match report_of(alloc, &input, report) {
        Ok(records) => Ok(Reported { input, records }),
        Err(fault) => {
            drop(input);
            Err(fault)
        }
    }
}

/// Prints the messages that are left.
fn print_rest<W: Write>(
    alloc: Global,
    refs: Option<&[String]>,
    report: &[ByteRecord],
    messages: &[u8],
    output: &mut W,
) -> Result<(), RecoveryFault>
    ensures written { OnOk result (Appends (W.contents output.old) (W.contents output.new) (rest_of (option_copied refs.entry) (map fields_of report.now) (records_of messages.now))) }
    ensures refused { IfErr result (IsCut (rest_of (option_copied refs.entry) (map fields_of report.now) (records_of messages.now)) (W.contents output.old) (W.contents output.new)) }
    ensures quiet { IfErr result (λ fault. fault ≢ output_failed → output.new ≡ output.old) }
{
    let messages = records_in(alloc, messages)?;
    let text = rest_text(alloc, refs, report, messages.as_slice())?;
    write_out(output, text.as_slice())?;
    Ok(())
}

/// Prints the accounts for them.
fn print_accounts<W: Write>(
    alloc: Global,
    openings: &[Opening],
    report: &[ByteRecord],
    output: &mut W,
) -> Result<(), RecoveryFault>
    ensures written { OnOk result (Appends (W.contents output.old) (W.contents output.new) (rest_accounts_of openings.now (map fields_of report.now))) }
    ensures refused { IfErr result (IsCut (rest_accounts_of openings.now (map fields_of report.now)) (W.contents output.old) (W.contents output.new)) }
    ensures quiet { IfErr result (λ fault. fault ≢ output_failed → output.new ≡ output.old) }
{
    let text = accounts_text(alloc, openings, report)?;
    write_out(output, text.as_slice())?;
    Ok(())
}

/// Prints the messages file of the messages that a run of these files did not send, by its report: those that
/// were refused for a lost bind, for credit or for memory, and those of which no part was sent. Their records
/// stand as in the messages file, in their order, each with its reference where messages have references.
pub fn run_rest<W: Write>(
    alloc: Global,
    config: &[u8],
    accounts: &[u8],
    messages: &[u8],
    tariff: Option<&[u8]>,
    report: &[u8],
    refs: Option<&[String]>,
    output: &mut W,
) -> Result<(), RecoveryFault>
    ensures printed { OnOk result (Prints config.now accounts.now messages.now (option_copied tariff.entry) report.now (rest_by (option_copied refs.entry) report.now messages.now) (W.contents output.old) (W.contents output.new)) }
    ensures refused { IfErr result (IsFaultOfPrinting config.now accounts.now messages.now (option_copied tariff.entry) report.now (rest_by (option_copied refs.entry) report.now messages.now) (W.contents output.old) (W.contents output.new)) }
    ensures quiet { IfErr result (λ fault. fault ≢ output_failed → output.new ≡ output.old) }
{
    let reported = match read_report(alloc, config, accounts, messages, tariff, report) {
        Ok(reported) => reported,
        Err(fault) => return Err(fault),
    };
    let printed = print_rest(alloc, refs, reported.records.as_slice(), messages, output);
    drop(reported);
    printed
}

/// Prints the accounts file for these messages: each account with its free credits by the report.
pub fn run_rest_accounts<W: Write>(
    alloc: Global,
    config: &[u8],
    accounts: &[u8],
    messages: &[u8],
    tariff: Option<&[u8]>,
    report: &[u8],
    output: &mut W,
) -> Result<(), RecoveryFault>
    ensures printed { OnOk result (Prints config.now accounts.now messages.now (option_copied tariff.entry) report.now (accounts_by report.now) (W.contents output.old) (W.contents output.new)) }
    ensures refused { IfErr result (IsFaultOfPrinting config.now accounts.now messages.now (option_copied tariff.entry) report.now (accounts_by report.now) (W.contents output.old) (W.contents output.new)) }
    ensures quiet { IfErr result (λ fault. fault ≢ output_failed → output.new ≡ output.old) }
{
    let reported = match read_report(alloc, config, accounts, messages, tariff, report) {
        Ok(reported) => reported,
        Err(fault) => return Err(fault),
    };
    let openings = reported.input.openings();
    let printed = print_accounts(alloc, openings, reported.records.as_slice(), output);
    drop(reported);
    printed
}
