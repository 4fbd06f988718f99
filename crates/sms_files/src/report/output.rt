//! How a text goes out.

ghost use Rattle.std.specs.Prelude.{◌≡◌, ◌<◌, ◌≤◌, [], IfErr, IfOk, OnErr, OnOk, length, take};
ghost use Rattle.std.specs.Io.KnownBytes.{Appends};
ghost use Rattle.sms_files.specs.Output.{WritesFront, output_failed};

use crate::report::fault::OutputFault;
use crate::report::unwritten::{Errors, Unwritten};
use std::io::{ErrorKind, Write};

/// Writes all of the text and flushes it. A fault where the output fails, or takes nothing of its own
/// accord; then only some first octets of the text went out.
pub fn write_out<W: Write>(output: &mut W, text: &[u8]) -> Result<(), OutputFault>
    ensures written { OnOk result (Appends (W.contents output.old) (W.contents output.new) text.now) }
    ensures front { WritesFront (W.contents output.old) (W.contents output.new) text.now }
    ensures failed { IfErr result (λ fault. fault ≡ output_failed) }
{
    let mut errors = Errors::none();
    write_text(&mut errors, output, text)?;
    match errors.flush(output) {
        Ok(()) => Ok(()),
        Err(_) => Err(OutputFault::Output(Unwritten::of(&errors))),
    }
}

/// Writes all of the text, as much at a time as the output takes.
fn write_text<W: Write>(errors: &mut Errors, output: &mut W, text: &[u8]) -> Result<(), OutputFault>
    ensures written { OnOk result (Appends (W.contents output.old) (W.contents output.new) text.now) }
    ensures front { WritesFront (W.contents output.old) (W.contents output.new) text.now }
    ensures failed { IfErr result (λ fault. fault ≡ output_failed) }
{
    let mut rest = text;
    while !rest.is_empty() {
        let taken = write_some(errors, output, rest)?;
        rest = &rest[taken..];
    }
    Ok(())
}

/// Writes once, and gives how many octets were taken. A write that was interrupted is tried again; an
/// output that takes none of its own accord has failed.
fn write_some<W: Write>(
    errors: &mut Errors,
    output: &mut W,
    rest: &[u8],
) -> Result<usize, OutputFault>
    ensures bound { IfOk result (λ taken. taken ≤ length rest.now) }
    ensures some { IfOk result (λ taken. 0 < length rest.now → 0 < taken) }
    ensures taken { IfOk result (λ taken. Appends (W.contents output.old) (W.contents output.new) (take taken rest.now)) }
    ensures failed { IfErr result (λ fault. fault ≡ output_failed) }
    ensures none { OnErr result (Appends (W.contents output.old) (W.contents output.new) []) }
{
    let mut tries = u64::MAX;
    loop {
        match errors.write(output, rest) {
            Ok(taken) => return Ok(taken),
            Err(error) if error.kind() == ErrorKind::Interrupted && tries > 0 => tries -= 1,
            Err(_) => return Err(OutputFault::Output(Unwritten::of(errors))),
        }
    }
}
