//! What is done to the file of a ledger that this process holds.

ghost use Rattle.std.specs.Prelude.{◌≤◌, IfErr, IfOk, length, ⊤};
ghost use Rattle.sms_devices.specs.Ledgers.{FailsToRead};

use crate::ledger::failure::LedgerFailure;
use crate::ledger::kind::{LedgerKind, TRIAL, front_len};
use sms_files::memory;
use std::alloc::Global;
use std::fs::File;
use std::io::{ErrorKind, Read, Seek, SeekFrom, Write};

/// How many octets are read at once.
const PIECE: usize = 65_536;

/// How many octets stand before a ledger's text at the most.
const MOST_FRONT: usize = 6;

/// The file of a ledger that this process holds until it is closed.
pub trait HeldFile: Drop {
    ghost use Rattle.std.specs.Prelude.{◌≡◌, ℕ, List, Option, None, IfErr, IfOk, OnErr, OnOk, ⊤};
    ghost use Rattle.std.specs.Io.KnownBytes.{Appends, Keeps};
    ghost use Rattle.std.specs.declared.io.ErrorKind.{ErrorKind as Kind};
    ghost use Rattle.sms_files.specs.Output.{WritesFront};
    ghost use Rattle.sms_devices.specs.Ledgers.{Are, CutsTo, FailsToRead};

    // The octets that stand in the file, those that the disk has of it, and which opening of a file it is.
    ghost octets: { Self → Option (List ℕ) } = { λ _. None };

    ghost stored: { Self → Option (List ℕ) } = { λ _. None };

    ghost opening: { Self → ℕ } = { λ _. 0 };

    // That it was closed so.
    ghost is_closed: { Self → Type 0 } = { λ _. ⊤ };

    // That the device of such a file answers an error of this kind.
    ghost errs: { Kind → Type 0 } = { λ _. ⊤ };

    /// All its octets.
    fn read_whole(&self, alloc: Global) -> Result<Vec<u8>, LedgerFailure>
        ensures read { IfOk result (λ text. Are (octets self.now) text.items) }
        ensures failed { IfErr result (FailsToRead errs) };

    /// Cuts it to its first octets.
    fn cut(&mut self, size: usize) -> Result<(), ErrorKind>
        ensures cut { OnOk result (CutsTo (octets self.old) (octets self.new) size) }
        ensures failed { OnErr result (Keeps (octets self.old) (octets self.new)) }
        ensures cause { IfErr result errs }
        ensures same { opening self.new ≡ opening self.old };

    /// Writes this text behind its last octet.
    fn write_whole(&mut self, text: &[u8]) -> Result<(), ErrorKind>
        ensures written { OnOk result (Appends (octets self.old) (octets self.new) text.now) }
        ensures failed { WritesFront (octets self.old) (octets self.new) text.now }
        ensures cause { IfErr result errs }
        ensures same { opening self.new ≡ opening self.old };

    /// Makes what stands in it durable.
    fn sync(&mut self) -> Result<(), ErrorKind>
        ensures durable { OnOk result (stored self.new ≡ octets self.new) }
        ensures kept { Keeps (octets self.old) (octets self.new) }
        ensures cause { IfErr result errs }
        ensures same { opening self.new ≡ opening self.old };

    /// Closes it, and so lets others have it.
    fn close(self)
        ensures { is_closed self };
}

/// A file of the system that has a ledger. Its octets are those of the ledger's text: a line of trials before that is neither read
/// nor cut here.
#[derive(Debug, Drop)]
pub struct LedgerText {
    file: File,
    /// How many octets stand before the text.
    front: usize,
}

impl LedgerText {
    /// The ledger that a file has. Where it may be changed, a line of trials that was truncated gets the rest of it.
    pub(crate) fn of(file: File, appends: bool) -> Result<LedgerText, LedgerFailure> {
        let mut first = [0; MOST_FRONT];
        let count = match read_first(&file, first.as_mut_slice()) {
            Ok(count) => count,
            Err(kind) => return Err(LedgerFailure::Unread(kind)),
        };
        let front = front_len(&first[..count]);
        if appends && count < front {
            write_line(&file, count)?;
        }
        Ok(LedgerText { file, front })
    }

    /// The same of a file that is held to append to it, where it is a ledger of this kind, or with `makes` becomes one: it has no octets.
    pub(crate) fn of_kind(
        file: File,
        kind: LedgerKind,
        makes: bool,
    ) -> Result<LedgerText, LedgerFailure> {
        let mut first = [0; MOST_FRONT];
        let count = match read_first(&file, first.as_mut_slice()) {
            Ok(count) => count,
            Err(kind) => return Err(LedgerFailure::Unread(kind)),
        };
        if makes && count == 0 && kind == LedgerKind::Trial {
            write_line(&file, 0)?;
        } else if !kind.may_be(&first[..count]) {
            return Err(LedgerFailure::OtherKind);
        }
        LedgerText::of(file, true)
    }

    /// Where an octet of the text stands in the file.
    fn place(&self, octet: usize) -> u64 {
        (octet as u64).saturating_add(self.front as u64)
    }
}

/// Appends the line of trials to a file that has so many octets of it and nothing else, and makes it durable.
fn write_line(file: &File, count: usize) -> Result<(), LedgerFailure>
    requires part { count ≤ 6 }
{
    let mut writer = file;
    match writer.write_all(&TRIAL[count..]) {
        Ok(()) => {}
        Err(error) => return Err(LedgerFailure::Unwritten(error.kind())),
    }
    match file.sync_all() {
        Ok(()) => Ok(()),
        Err(error) => Err(LedgerFailure::Unwritten(error.kind())),
    }
}

/// Reads the first octets of a file, as many as there are and have room, and says how many.
fn read_first(file: &File, first: &mut [u8]) -> Result<usize, ErrorKind>
    ensures { IfOk result (λ count. count ≤ length first.new) }
{
    let mut reader = file;
    if let Err(error) = reader.seek(SeekFrom::Start(0)) {
        return Err(error.kind());
    }
    let mut count = 0;
    for _piece in 0..u64::MAX {
        match reader.read(&mut first[count..]) {
            Ok(0) => return Ok(count),
            Ok(more) => count += more,
            Err(error) if error.kind() == ErrorKind::Interrupted => {}
            Err(error) => return Err(error.kind()),
        }
    }
    Err(ErrorKind::FileTooLarge)
}

impl HeldFile for LedgerText {
    fn read_whole(&self, alloc: Global) -> Result<Vec<u8>, LedgerFailure> {
        let mut reader = &self.file;
        match reader.seek(SeekFrom::Start(self.place(0))) {
            Ok(_start) => read_on(alloc, &self.file),
            Err(error) => Err(LedgerFailure::Unread(error.kind())),
        }
    }

    fn cut(&mut self, size: usize) -> Result<(), ErrorKind> {
        match self.file.set_len(self.place(size)) {
            Ok(()) => Ok(()),
            Err(error) => Err(error.kind()),
        }
    }

    fn write_whole(&mut self, text: &[u8]) -> Result<(), ErrorKind> {
        match self.file.write_all(text) {
            Ok(()) => Ok(()),
            Err(error) => Err(error.kind()),
        }
    }

    fn sync(&mut self) -> Result<(), ErrorKind> {
        match self.file.sync_all() {
            Ok(()) => Ok(()),
            Err(error) => Err(error.kind()),
        }
    }

    fn close(self) {
        drop(self);
    }
}

/// The octets of a file that are still to be read.
fn read_on(alloc: Global, file: &File) -> Result<Vec<u8>, LedgerFailure>
    ensures { IfErr result (FailsToRead (λ _. ⊤)) }
{
    let mut text = Vec::new(alloc);
    let mut piece = [0; PIECE];
    let mut reader = file;
    for _piece in 0..u64::MAX {
        match reader.read(piece.as_mut_slice()) {
            Ok(0) => return Ok(text),
            Ok(count) => match memory::append_octets(&mut text, &piece[..count]) {
                Ok(()) => {}
                Err(refused) => return Err(LedgerFailure::OutOfMemory(refused)),
            },
            Err(error) if error.kind() == ErrorKind::Interrupted => {}
            Err(error) => return Err(LedgerFailure::Unread(error.kind())),
        }
    }
    Err(LedgerFailure::Unread(ErrorKind::FileTooLarge))
}
