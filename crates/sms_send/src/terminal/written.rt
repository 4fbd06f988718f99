//! What is written to the output, and what to standard error beside it.

ghost use Rattle.std.specs.Prelude.{◌≡◌, IfErr, IfOk, OnOk};
ghost use Rattle.std.specs.Io.KnownBytes.{Appends};
ghost use Rattle.sms_files.specs.Output.{WritesFront};
ghost use Rattle.sms_send.specs.Faults.{output_failed};

use crate::faults::fault::Fault;
use sms_files::write_out;
use std::io::Write;

/// Writes what is printed, and then what is warned of.
pub fn write_both<W: Write, E: Write>(
    output: &mut W,
    error: &mut E,
    printed: &[u8],
    warnings: &[u8],
) -> Result<u8, Fault>
    ensures status { IfOk result (λ status. status ≡ 0) }
    ensures written { OnOk result (Appends (W.contents output.old) (W.contents output.new) printed.now) }
    ensures warned { OnOk result (Appends (E.contents error.old) (E.contents error.new) warnings.now) }
    ensures front { WritesFront (W.contents output.old) (W.contents output.new) printed.now }
    ensures error_front { WritesFront (E.contents error.old) (E.contents error.new) warnings.now }
    ensures failed { IfErr result (λ fault. fault ≡ output_failed) }
{
    match write_out(output, printed) {
        Ok(()) => {}
        Err(fault) => return Err(Fault::from(fault)),
    }
    match write_out(error, warnings) {
        Ok(()) => Ok(0),
        Err(fault) => Err(Fault::from(fault)),
    }
}
