//! The line of a record.

ghost use Rattle.std.specs.Prelude.{◌≡◌, ◌++◌, OnOk, string_bytes};
ghost use Rattle.sms_inbox.specs.Receipt.{error_text};
ghost use Rattle.sms_inbox.specs.Record.{head_text, number_field, octets_field, owned_record, record_text, said_text};

use crate::escape::write_octets;
use crate::receipt::ErrorRef;
use crate::record::RecordRef;
use std::alloc::AllocError;
use std::fmt::Write;

/// A comma and the number after it.
pub(crate) fn write_number(text: &mut String, number: u64) -> Result<(), AllocError>
    ensures { OnOk result (string_bytes text.new ≡ string_bytes text.old ++ number_field number) }
{
    write!(text, ",{number}")
}

/// A comma and the octets after it.
pub(crate) fn write_field(text: &mut String, octets: &[u8]) -> Result<(), AllocError>
    ensures { OnOk result (string_bytes text.new ≡ string_bytes text.old ++ octets_field octets.now) }
{
    text.push_str(",")?;
    write_octets(text, octets)
}

fn write_error(text: &mut String, error: ErrorRef<'_>) -> Result<(), AllocError>
    ensures { OnOk result (string_bytes text.new ≡ string_bytes text.old ++ octets_field (error_text error.entry)) }
{
    match error {
        ErrorRef::Text(octets) => write_field(text, octets),
        ErrorRef::Code(code) => write_number(text, u64::from(code)),
    }
}

fn write_head(text: &mut String, r: &RecordRef<'_>) -> Result<(), AllocError>
    ensures { OnOk result (string_bytes text.new ≡ string_bytes text.old ++ head_text (owned_record r.now)) }
{
    text.push_str("received")?;
    write_number(text, r.time)?;
    write_number(text, u64::from(r.bind))?;
    write_field(text, r.source)?;
    write_field(text, r.destination)?;
    write_number(text, u64::from(r.esm_class))
}

fn write_said(text: &mut String, r: &RecordRef<'_>) -> Result<(), AllocError>
    ensures { OnOk result (string_bytes text.new ≡ string_bytes text.old ++ said_text (owned_record r.now)) }
{
    write_field(text, r.id)?;
    write_field(text, r.state)?;
    write_error(text, r.error)?;
    write_field(text, r.text)
}

/// Appends the line of a record. Where memory is refused a part of it may stand there.
pub fn write_record(text: &mut String, r: &RecordRef<'_>) -> Result<(), AllocError>
    ensures { OnOk result (string_bytes text.new ≡ string_bytes text.old ++ record_text (owned_record r.now)) }
{
    write_head(text, r)?;
    write_said(text, r)?;
    text.push_str("\n")
}
