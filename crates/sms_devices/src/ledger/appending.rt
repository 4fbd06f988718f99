//! Appending to the file of a ledger.

ghost use Rattle.std.specs.Prelude.{◌≡◌, IfErr, OnOk};
ghost use Rattle.std.specs.Io.KnownBytes.{Appends};
ghost use Rattle.sms_files.specs.Output.{WritesFront};
ghost use Rattle.sms_devices.specs.Ledgers.{CutsBack, Leaves, Replaces};

use crate::ledger::failure::LedgerFailure;
use crate::ledger::held_file::HeldFile;
use std::io::ErrorKind;

/// Cuts a ledger's file to its first `whole` octets, writes this text behind them, and makes that durable. A part
/// of the text that was written before a failure is cut off again, where that can be done.
#[tactic(auto, using(crate::proofs::Appended::leaves, crate::proofs::Appended::replaced))]
pub fn append_text<F: HeldFile>(file: &mut F, whole: usize, text: &str) -> Result<(), LedgerFailure>
    ensures appended { OnOk result (Replaces (F.octets file.old) (F.octets file.new) whole text.now) }
    ensures durable { OnOk result (F.stored file.new ≡ F.octets file.new) }
    ensures failed { IfErr result (Leaves F.errs (F.octets file.old) (F.octets file.new) whole text.now) }
    ensures same { F.opening file.new ≡ F.opening file.old }
{
    match file.cut(whole) {
        Ok(()) => {}
        Err(kind) => return Err(LedgerFailure::Unwritten(kind)),
    }
    match write_durably(file, text.as_bytes()) {
        Ok(()) => Ok(()),
        Err(kind) => Err(cut_back(file, whole, kind)),
    }
}

/// Writes this text behind a file's last octet, and makes that durable.
fn write_durably<F: HeldFile>(file: &mut F, text: &[u8]) -> Result<(), ErrorKind>
    ensures appended { OnOk result (Appends (F.octets file.old) (F.octets file.new) text.now) }
    ensures durable { OnOk result (F.stored file.new ≡ F.octets file.new) }
    ensures failed { WritesFront (F.octets file.old) (F.octets file.new) text.now }
    ensures cause { IfErr result F.errs }
    ensures same { F.opening file.new ≡ F.opening file.old }
{
    match file.write_whole(text) {
        Ok(()) => file.sync(),
        Err(kind) => Err(kind),
    }
}

/// Cuts off what was written of a text behind a file's first octets, and says how that went.
fn cut_back<F: HeldFile>(file: &mut F, size: usize, kind: ErrorKind) -> LedgerFailure
    ensures cut { CutsBack (F.octets file.old) (F.octets file.new) size kind result }
    ensures same { F.opening file.new ≡ F.opening file.old }
{
    match file.cut(size) {
        Ok(()) => LedgerFailure::Unwritten(kind),
        Err(_error) => LedgerFailure::Torn(kind),
    }
}
