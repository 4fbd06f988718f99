//! What plan prints: how the text of each message is coded and cut.

ghost use Rattle.std.specs.Prelude.{◌≡◌, ◌++◌, IfOk, OnOk, string_bytes};
ghost use Rattle.sms_files.specs.PlanText.{coded_line, coding_name as name_of_coding, counted_text, cutting_text, message_lines, message_plan, size_texts, text_line};

use crate::MessageText;
use sms_alphabet::{Coded, Coding, choose};
use sms_segment::laws::the_parts_tell_what_is_too_long;
use sms_segment::{CutError, Part, Reference, cut};
use std::alloc::{AllocError, Global};
use std::fmt::Write;

/// The name that a line gives the coding.
fn coding_name(coding: Coding) -> &'static str
    ensures { result.now ≡ name_of_coding coding }
{
    match coding {
        Coding::Gsm => "gsm",
        Coding::Ucs2 => "ucs2",
    }
}

/// The units of each part, a space before each.
fn write_sizes(text: &mut String, parts: &[Part]) -> Result<(), AllocError>
    ensures { OnOk result (string_bytes text.new ≡ string_bytes text.old ++ size_texts parts.now) }
{
    for part in parts {
        write!(text, " {}", part.units.len())?;
    }
    Ok(())
}

/// How many parts there are, and the units of each.
fn write_parts(text: &mut String, parts: &[Part]) -> Result<(), AllocError>
    ensures { OnOk result (string_bytes text.new ≡ string_bytes text.old ++ counted_text parts.now) }
{
    write!(text, "{},", parts.len())?;
    let Some((first, rest)) = parts.split_first() else {
        return Ok(());
    };
    write!(text, "{}", first.units.len())?;
    write_sizes(text, rest)
}

/// What becomes of a coded text as parts with such a reference.
fn write_cutting(
    alloc: Global,
    text: &mut String,
    reference: Reference,
    coded: &Coded,
) -> Result<(), AllocError>
    ensures { OnOk result (string_bytes text.new ≡ string_bytes text.old ++ cutting_text reference coded.now) }
{
    match cut(alloc, coded, reference) {
        Ok(parts) => write_parts(text, parts.as_slice()),
        Err(CutError::TooLong) => {
            the_parts_tell_what_is_too_long();
            text.push_str("0,too-long")
        }
        Err(CutError::OutOfMemory) => Err(AllocError),
    }
}

/// The line of a coded text at a place, counted from 0.
fn write_coded(
    alloc: Global,
    text: &mut String,
    reference: Reference,
    index: usize,
    coded: &Coded,
) -> Result<(), AllocError>
    ensures { OnOk result (string_bytes text.new ≡ string_bytes text.old ++ coded_line reference index coded.now) }
{
    let coding = coding_name(coded.coding);
    write!(text, "{index},{coding},{},", coded.units.len())?;
    write_cutting(alloc, text, reference, coded)?;
    text.push_str("\n")
}

/// The line of the message at a place, counted from 0.
fn write_line(
    alloc: Global,
    text: &mut String,
    reference: Reference,
    index: usize,
    message: &MessageText,
) -> Result<(), AllocError>
    ensures { OnOk result (string_bytes text.new ≡ string_bytes text.old ++ text_line reference index (string_bytes message.now.text)) }
{
    let coded = choose(alloc, message.text.as_str())?;
    write_coded(alloc, text, reference, index, &coded)
}

/// A line for each message.
fn write_lines(
    alloc: Global,
    text: &mut String,
    reference: Reference,
    messages: &[MessageText],
) -> Result<(), AllocError>
    ensures { OnOk result (string_bytes text.new ≡ string_bytes text.old ++ message_lines reference 0 messages.now) }
{
    for (index, message) in messages.iter().enumerate() {
        write_line(alloc, text, reference, index, message)?;
    }
    Ok(())
}

/// What is printed of these messages: a header, and a line for each with its coding, its units, its
/// parts with such a reference, and their sizes. Only memory can be refused.
pub fn plan_text(
    alloc: Global,
    reference: Reference,
    messages: &[MessageText],
) -> Result<String, AllocError>
    ensures { IfOk result (λ text. string_bytes text ≡ message_plan reference messages.now) }
{
    let mut text = String::from_str(alloc, "message,coding,units,parts,sizes\n")?;
    write_lines(alloc, &mut text, reference, messages)?;
    Ok(text)
}
