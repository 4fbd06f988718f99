//! The plan of a messages file.

ghost use Rattle.std.specs.Prelude.{◌≡◌, ◌≢◌, None, IfErr, IfOk, IfSome, OnOk, length, string_bytes};
ghost use Rattle.std.specs.Io.KnownBytes.{Appends};
ghost use Rattle.sms_files.specs.Fields.{records_of};
ghost use Rattle.sms_files.specs.Messages.{messages_fault};
ghost use Rattle.sms_files.specs.Records.{TellsRecords};
ghost use Rattle.sms_files.specs.declared.fault.Source.TheVariants.{Messages};
ghost use Rattle.sms_files.specs.Output.{WritesFront};
ghost use Rattle.sms_files.specs.PlanText.{kind_of, plan_of};
ghost use Rattle.sms_send.specs.Plans.{FailsPlan};
ghost use Rattle.sms_send.specs.Faults.{IsReadFault, output_failed};

use crate::faults::fault::Fault;
use sms_files::{plan_text, read_texts, write_out};
use sms_segment::Reference;
use std::alloc::Global;
use std::io::{Read, Write};

/// Reads a messages file and prints, for each message, how its text is coded and cut. Accounts and
/// addresses aren't looked at. All of the file is read and checked, and the whole output formed,
/// before anything is written. The exit status is 0.
pub fn run_plan<R: Read + Drop, W: Write>(
    alloc: Global,
    input: R,
    long: bool,
    output: &mut W,
) -> Result<u8, Fault>
    ensures status { IfOk result (λ status. status ≡ 0) }

    // The input is a messages file, and its plan was written.
    ensures good { OnOk result (IfSome (R.remaining input) (λ bytes. messages_fault (records_of bytes) ≡ None)) }
    ensures written { OnOk result (IfSome (R.remaining input) (λ bytes. Appends (W.contents output.old) (W.contents output.new) (plan_of (kind_of long) (records_of bytes)))) }

    // A record is named just where it is the first faulty one.
    ensures faulty { IfErr result (λ fault. IfSome (R.remaining input) (λ bytes. FailsPlan (records_of bytes) fault)) }

    // Where the output failed, the beginning of the plan was written.
    ensures front { IfErr result (λ fault. fault ≡ output_failed → IfSome (R.remaining input) (λ bytes. WritesFront (W.contents output.old) (W.contents output.new) (plan_of (kind_of long) (records_of bytes)))) }

    // Nothing was written, save where writing itself failed.
    ensures quiet { IfErr result (λ fault. fault ≢ output_failed → output.new ≡ output.old) }
{
    let plan = form_plan(alloc, input, long)?;
    write_out(output, plan.text.as_bytes())?;
    Ok(0)
}

/// What is printed of a messages file.
#[derive(Drop)]
pub(crate) struct PlanText {
    pub(crate) text: String,
    /// How many records the file has; the header is one.
    pub(crate) records: usize,
}

/// What is printed of a messages file. All of it is read and checked.
pub(crate) fn form_plan<R: Read + Drop>(
    alloc: Global,
    input: R,
    long: bool,
) -> Result<PlanText, Fault>
    ensures good { OnOk result (IfSome (R.remaining input) (λ bytes. messages_fault (records_of bytes) ≡ None)) }
    ensures text { IfOk result (λ plan. IfSome (R.remaining input) (λ bytes. string_bytes plan.text ≡ plan_of (kind_of long) (records_of bytes))) }
    ensures records { IfOk result (λ plan. IfSome (R.remaining input) (λ bytes. plan.records ≡ length (records_of bytes))) }
    ensures faulty { IfErr result (λ fault. IfSome (R.remaining input) (λ bytes. IsReadFault (TellsRecords Messages (messages_fault (records_of bytes))) fault)) }
{
    let texts = read_texts(alloc, input)?;
    let text = plan_text(alloc, reference_of(long), &texts)?;
    Ok(PlanText {
        text,
        records: texts.len() + 1,
    })
}

/// A reference of the kind that the parts have; its number makes no difference to their sizes.
fn reference_of(long: bool) -> Reference
    ensures { result ≡ kind_of long }
{
    if long {
        Reference::Long(0)
    } else {
        Reference::Short(0)
    }
}
