//! Why a journal failed.

ghost use Rattle.std.specs.Prelude.{◌≡◌};
ghost use Rattle.std.specs.Io.{WritesAtMost};
ghost use Rattle.std.specs.Io.KnownBytes.{Keeps, WriteAppends};
ghost use Rattle.sms_devices.specs.Journals.{failure_of};

use std::fs::OpenFile;
use std::io;
use std::io::{ErrorKind, Write};

/// Why a journal failed.
#[derive(Clone, Copy, Debug, PartialEq, Eq)]
pub enum JournalFailure {
    /// There was no memory for a line.
    OutOfMemory,
    /// The device has no space left.
    StorageFull,
    /// The user's disk quota is used up.
    QuotaExceeded,
    /// The file would be larger than files may be.
    FileTooLarge,
    /// The file system is mounted read-only.
    ReadOnly,
    /// The device failed, or something else did.
    Other,
}

/// Why a file fails with an error of this kind.
pub(crate) fn failure_of(kind: ErrorKind) -> JournalFailure
    ensures { result ≡ failure_of kind }
{
    match kind {
        ErrorKind::OutOfMemory => JournalFailure::OutOfMemory,
        ErrorKind::StorageFull => JournalFailure::StorageFull,
        ErrorKind::QuotaExceeded => JournalFailure::QuotaExceeded,
        ErrorKind::FileTooLarge => JournalFailure::FileTooLarge,
        ErrorKind::ReadOnlyFilesystem => JournalFailure::ReadOnly,
        _ => JournalFailure::Other,
    }
}

impl JournalFailure {
    /// Why a file fails with an error of this kind.
    pub fn of(kind: ErrorKind) -> JournalFailure
        ensures { result ≡ failure_of kind }
    {
        failure_of(kind)
    }
}

/// A file that remembers its last failure.
#[derive(Drop)]
pub(crate) struct Watched<F> {
    pub(crate) file: F,
    /// Other until it fails.
    pub(crate) failure: JournalFailure,
}

impl<F> Watched<F> {
    /// The file, which hasn't failed.
    pub(crate) fn new(file: F) -> Watched<F>
        ensures { result.file ≡ file }
    {
        Watched {
            file,
            failure: JournalFailure::Other,
        }
    }

    /// The file itself.
    pub(crate) fn into_inner(self) -> F
        ensures { result ≡ self.file }
    {
        let Watched { file, .. } = self;
        file
    }

    /// Remembers why the file failed, if it did.
    fn see<T>(&mut self, done: &io::Result<T>)
        ensures { self.new.file ≡ self.old.file }
    {
        if let Err(error) = done {
            self.failure = failure_of(error.kind());
        }
    }
}

impl<F: OpenFile> Watched<F> {
    /// Makes what was written durable.
    pub(crate) fn sync_data(&mut self) -> io::Result<()>
        ensures { self.new.file ≡ self.old.file }
    {
        let synced = self.file.sync_data();
        self.see(&synced);
        synced
    }
}

impl<F: Write> Write for Watched<F> {
    ghost contents = { λ w. F.contents w.file };

    fn write(&mut self, buf: &[u8]) -> io::Result<usize>
        ensures bound { WritesAtMost result buf.now }
        ensures bytes { WriteAppends (F.contents self.old.file) (F.contents self.new.file) result buf.now }
    {
        let written = self.file.write(buf);
        self.see(&written);
        written
    }

    fn flush(&mut self) -> io::Result<()>
        ensures bytes { Keeps (F.contents self.old.file) (F.contents self.new.file) }
    {
        let flushed = self.file.flush();
        self.see(&flushed);
        flushed
    }
}
