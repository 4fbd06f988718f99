//! The files that a runtime opens, as they are read where messages have references: without these.

ghost use Rattle.std.specs.Io.{ReadsAtMost};
ghost use Rattle.std.specs.Io.KnownBytes.{ReadConsumes};
ghost use Rattle.sms_send.specs.PlainFiles.{IsLeftOf, left_in};

use crate::files::opened::{InputFiles, Unended, read_through};
use sms_journal::plain_of;
use std::alloc::Global;
use std::io::{self, Cursor, ErrorKind, Read};

/// A runtime of which the files are read with the references of messages or without.
#[derive(Drop)]
pub struct PlainFiles<'a, R> {
    /// The runtime.
    pub rt: &'a R,
    /// Whether messages have references.
    pub refs: bool,
}

/// A file that is read.
#[derive(Drop)]
pub enum PlainFile<F> {
    /// As it stands.
    Given(F),
    /// What is left of it.
    Left(Cursor<Vec<u8>>),
    /// It could not be read, with an error of this kind.
    Failed(ErrorKind),
}

impl<F: Read> Read for PlainFile<F> {
    ghost remaining = { left_in F.remaining };

    fn read(&mut self, buf: &mut [u8]) -> io::Result<usize>
        ensures bound { ReadsAtMost result buf.new }
        ensures bytes { ReadConsumes (left_in F.remaining self.old) (left_in F.remaining self.new) result buf.new }
    {
        match self {
            PlainFile::Given(file) => file.read(buf),
            PlainFile::Left(left) => left.read(buf),
            PlainFile::Failed(kind) => Err(io::Error::from(*kind)),
        }
    }
}

/// What is left of a file without the references of its messages.
fn left_of<F: Read + Drop>(alloc: Global, file: F) -> PlainFile<F>
    ensures { IsLeftOf (F.remaining file) (left_in F.remaining result) }
{
    let mut given = file;
    match read_through(alloc, &mut given) {
        Ok(octets) => match plain_of(alloc, octets) {
            Ok(plain) => PlainFile::Left(Cursor::new(plain)),
            Err(_memory) => PlainFile::Failed(ErrorKind::OutOfMemory),
        },
        Err(Unended::OutOfMemory) => PlainFile::Failed(ErrorKind::OutOfMemory),
        Err(Unended::Failed(kind)) => PlainFile::Failed(kind),
    }
}

impl<'a, R: AllocGlobal> Alloc for PlainFiles<'a, R> {
    type A = Global;

    fn alloc(&self) -> Global {
        self.rt.alloc()
    }
}

impl<'a, R: AllocGlobal + InputFiles> InputFiles for PlainFiles<'a, R> {
    ghost use Rattle.sms_send.specs.PlainFiles.{sees};

    type InputFile = PlainFile<R::InputFile>;

    ghost finds = { λ files. sees files.refs (R.finds files.rt.now) };

    fn open_input(&self, name: &str) -> io::Result<PlainFile<R::InputFile>> {
        let file = match self.rt.open_input(name) {
            Ok(file) => file,
            Err(error) => return Err(error),
        };
        if self.refs {
            Ok(left_of(self.rt.alloc(), file))
        } else {
            Ok(PlainFile::Given(file))
        }
    }
}
