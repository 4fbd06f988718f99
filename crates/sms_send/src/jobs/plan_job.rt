//! The job of `plan`: the messages file is read to its end and planned, and a quote that is left open is
//! warned of.

ghost use Rattle.std.specs.Prelude.{◌≡◌, ◌≢◌, ◌++◌, ◌⊎◌, None, IfErr, IfOk, OnOk, length, string_bytes};
ghost use Rattle.sms_files.specs.Fields.{records_of};
ghost use Rattle.sms_files.specs.Messages.{messages_fault};
ghost use Rattle.sms_files.specs.Records.{TellsRecords};
ghost use Rattle.sms_files.specs.declared.fault.Source.TheVariants.{Messages};
ghost use Rattle.sms_files.specs.PlanText.{kind_of, plan_of};
ghost use Rattle.sms_send.specs.Faults.{IsReadFault, output_failed};
ghost use Rattle.sms_send.specs.Jobs.{Plans};
ghost use Rattle.sms_send.specs.Opened.{OfFile, FailsOpening};
ghost use Rattle.sms_send.specs.PlainFiles.{sees};
ghost use Rattle.sms_send.specs.Plans.{IsWarning, FailsPlan, Warns, BeginsWarning, quote_line};

use crate::faults::fault::Fault;
use crate::files::named_files::whole_of;
use crate::files::opened::{InputFiles, open};
use crate::files::plain_files::PlainFiles;
use crate::jobs::plan::form_plan;
use crate::terminal::written::write_both;
use sms_files::{Source, ends_quoted};
use std::alloc::{AllocError, Global};
use std::fmt::Write as _;
use std::io::Write;

/// What is printed of a messages file, and what is warned of.
#[derive(Drop)]
struct PlanTexts {
    plan: String,
    warning: String,
}

/// Adds the line of a record whose quote is open.
fn write_line(text: &mut String, place: usize) -> Result<(), AllocError>
    ensures { OnOk result (string_bytes text.new ≡ string_bytes text.old ++ quote_line place) }
{
    write!(
        text,
        "warning: messages record {place}: its quote is open, it goes on to the end of the file\n"
    )
}

/// What is warned of a messages file of so many records; nothing where no quote is open.
fn warning_of(alloc: Global, octets: &[u8], records: usize) -> Result<String, AllocError>
    requires { records ≡ length (records_of octets.now) }
    ensures { IfOk result (λ text. IsWarning octets.now (string_bytes text)) }
{
    let mut text = String::new(alloc);
    if ends_quoted(octets) {
        write_line(&mut text, records)?;
    }
    Ok(text)
}

/// What is printed of a messages file of these octets, and what is warned of.
fn texts_of(alloc: Global, octets: &[u8], long: bool) -> Result<PlanTexts, Fault>
    ensures good { OnOk result (messages_fault (records_of octets.now) ≡ None) }
    ensures plan { IfOk result (λ texts. string_bytes texts.plan ≡ plan_of (kind_of long) (records_of octets.now)) }
    ensures warning { IfOk result (λ texts. IsWarning octets.now (string_bytes texts.warning)) }
    ensures refused { IfErr result (IsReadFault (TellsRecords Messages (messages_fault (records_of octets.now)))) }
{
    let plan = match form_plan(alloc, octets, long) {
        Ok(plan) => plan,
        Err(fault) => return Err(fault),
    };
    match warning_of(alloc, octets, plan.records) {
        Ok(warning) => Ok(PlanTexts {
            plan: plan.text,
            warning,
        }),
        Err(_) => Err(Fault::OutOfMemory),
    }
}

/// Prints the plan of a messages file of these octets, and warns of a quote that is left open.
fn plan_octets<W: Write, E: Write>(
    alloc: Global,
    octets: &[u8],
    long: bool,
    output: &mut W,
    error: &mut E,
) -> Result<u8, Fault>
    ensures status { IfOk result (λ status. status ≡ 0) }
    ensures planned { OnOk result (Plans long octets.now (W.contents output.old) (W.contents output.new)) }
    ensures warned { OnOk result (Warns octets.now (E.contents error.old) (E.contents error.new)) }
    ensures refused { IfErr result (FailsPlan (records_of octets.now)) }
    ensures front { IfErr result (λ fault. fault ≡ output_failed → BeginsWarning octets.now (E.contents error.old) (E.contents error.new)) }
    ensures unwritten { IfErr result (λ fault. fault ≢ output_failed → (output.new ≡ output.old) × (error.new ≡ error.old)) }
{
    match texts_of(alloc, octets, long) {
        Ok(texts) => {
            let (plan, warning) = (texts.plan.as_bytes(), texts.warning.as_bytes());
            write_both(output, error, plan, warning)
        }
        Err(fault) => Err(fault),
    }
}

/// Reads the messages file of this name to its end and prints, for each message, how its text is coded and
/// cut. Where the file ends within a quote, standard error is warned. The exit status is 0.
pub fn plan_job<R: AllocGlobal + InputFiles, W: Write, E: Write>(
    rt: &R,
    name: String,
    long: bool,
    refs: bool,
    output: &mut W,
    error: &mut E,
) -> Result<u8, Fault>
    ensures status { IfOk result (λ status. status ≡ 0) }
    ensures planned { OnOk result (OfFile (sees refs (R.finds rt.now)) (string_bytes name) (λ bytes. Plans long bytes (W.contents output.old) (W.contents output.new))) }
    ensures warned { OnOk result (OfFile (sees refs (R.finds rt.now)) (string_bytes name) (λ bytes. Warns bytes (E.contents error.old) (E.contents error.new))) }
    ensures refused { IfErr result (λ fault. FailsOpening (sees refs (R.finds rt.now)) name fault ⊎ OfFile (sees refs (R.finds rt.now)) (string_bytes name) (λ bytes. FailsPlan (records_of bytes) fault)) }
    ensures front { IfErr result (λ fault. fault ≡ output_failed → OfFile (sees refs (R.finds rt.now)) (string_bytes name) (λ bytes. BeginsWarning bytes (E.contents error.old) (E.contents error.new))) }
    ensures unwritten { IfErr result (λ fault. fault ≢ output_failed → (output.new ≡ output.old) × (error.new ≡ error.old)) }
{
    let files = PlainFiles { rt, refs };
    let file = match open(&files, name) {
        Ok(file) => file,
        Err(fault) => return Err(fault),
    };
    match whole_of(rt.alloc(), file, Source::Messages) {
        Ok(octets) => plan_octets(rt.alloc(), octets.as_slice(), long, output, error),
        Err(fault) => Err(fault),
    }
}
