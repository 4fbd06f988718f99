//! The files that the program reads, by their names.

ghost use Rattle.std.specs.Prelude.{◌≡◌, ◌⊎◌, Some, IfErr, IfOk, IfSome, string_bytes};
ghost use Rattle.sms_send.specs.Opened.{FailsOpening, FailsReadingFile, OfFile};
ghost use Rattle.sms_send.specs.declared.faults.fault.Fault.TheVariants.{OutOfMemory};

use crate::faults::fault::Fault;
use sms_pdu::{DeviceError, Tap};
use std::alloc::Global;
use std::fs;
use std::io::{self, ErrorKind, Read};

/// Opens the files that the program reads.
pub trait InputFiles {
    ghost use Rattle.std.specs.Prelude.{ℕ, List, Option, None, Some, IfOk, IsErr, ⊤};
    ghost use Rattle.sms_files.specs.Inputs.{Told};

    type InputFile: Read + Drop;

    // What may be found by a name: no file that can be opened, or one of which the octets are known so far.
    ghost finds: { Self → List ℕ → Option Told → Type 0 } = { λ _ _ _. ⊤ };

    /// The file of this name, opened to be read from its first octet on.
    fn open_input(&self, name: &str) -> io::Result<Self::InputFile>
        ensures found { IfOk result (λ file. finds self.now name.now (Some (Self.InputFile.remaining file))) }
        ensures lost { IsErr result → finds self.now name.now None };
}

impl InputFiles for HostRuntime {
    type InputFile = fs::File;

    fn open_input(&self, name: &str) -> io::Result<fs::File> {
        fs::open(self, name)
    }
}

/// The file of this name, opened to be read.
pub fn open<R: InputFiles>(rt: &R, name: String) -> Result<R::InputFile, Fault>
    ensures found { IfOk result (λ file. R.finds rt.now (string_bytes name) (Some (R.InputFile.remaining file))) }
    ensures lost { IfErr result (FailsOpening (R.finds rt.now) name) }
{
    match rt.open_input(name.as_str()) {
        Ok(file) => Ok(file),
        Err(error) => Err(Fault::File(name, error.kind())),
    }
}

/// The octets of the file of this name.
pub fn octets_of<R: AllocGlobal + InputFiles>(rt: &R, name: String) -> Result<Vec<u8>, Fault>
    ensures octets { IfOk result (λ octets. OfFile (R.finds rt.now) (string_bytes name) (λ bytes. octets.items ≡ bytes)) }
    ensures refused { IfErr result (λ fault. (fault ≡ OutOfMemory) ⊎ FailsReadingFile (R.finds rt.now) name fault) }
{
    let file = match rt.open_input(name.as_str()) {
        Ok(file) => file,
        Err(error) => return Err(Fault::File(name, error.kind())),
    };
    let mut device = Tap::new(file);
    match read_through(rt.alloc(), &mut device) {
        Ok(octets) => Ok(octets),
        Err(Unended::OutOfMemory) => Err(Fault::OutOfMemory),
        Err(Unended::Failed(kind)) => match DeviceError::of(&device) {
            Some(error) => Err(Fault::UnreadFile(name, error, kind)),
            None => Err(Fault::OutOfMemory),
        },
    }
}

/// Why a file wasn't read to its end.
#[derive(Clone, Copy, Debug)]
pub(crate) enum Unended {
    /// Memory was refused for what it holds.
    OutOfMemory,
    /// A read failed, with an error of this kind.
    Failed(ErrorKind),
}

/// The octets of an opened file from where it stands to its end.
pub(crate) fn read_through<F: Read>(alloc: Global, file: &mut F) -> Result<Vec<u8>, Unended>
    ensures { IfOk result (λ octets. IfSome (F.remaining file.old) (λ bytes. octets.items ≡ bytes)) }
{
    let mut octets = Vec::new(alloc);
    match file.read_to_end(&mut octets) {
        Ok(_) => Ok(octets),
        Err(error) => match error.kind() {
            ErrorKind::OutOfMemory => Err(Unended::OutOfMemory),
            kind => Err(Unended::Failed(kind)),
        },
    }
}
