//! The file of a journal, which remembers as what it was made.

ghost use Rattle.std.specs.Prelude.{◌≡◌, ⊤};
ghost use Rattle.std.specs.Io.{WritesAtMost};
ghost use Rattle.std.specs.Io.KnownBytes.{Keeps, WriteAppends};
ghost use Rattle.sms_devices.specs.Journals.{FromMade};

use std::fs::{Metadata, OpenFile};
use std::io;
use std::io::Write;
use std::marker::{Brand, Model, PhantomData};

/// What is known of a journal's file as it was made. A type stands for it, so that it passes the journal's lock,
/// behind which no contract sees the file.
pub trait Origin<F> {
    ghost made: { F → Type 0 };
}

impl<F> Origin<F> for Brand {
    ghost made = { λ _. ⊤ };
}

/// The file of a journal. Since it was made it was only written to.
#[derive(Drop)]
pub struct MadeFile<F: Write, O: Origin<F>> {
    file: F,
    origin: PhantomData<O>,
}

impl<F: Write, O: Origin<F>> Model for MadeFile<F, O> {
    ghost Value = { F };

    ghost view = { λ m. m.file };

    ghost invariant = { λ m. FromMade F.contents O.made m.file };
}

impl<F: Write, O: Origin<F>> MadeFile<F, O> {
    /// A file that was just made.
    pub fn new(file: F) -> MadeFile<F, O>
        requires { O.made file }
        ensures { result ≡ file }
    {
        MadeFile {
            file,
            origin: PhantomData,
        }
    }

    /// It is the file that was made, with what was written to it since.
    pub fn is_made(&self)
        ensures { FromMade F.contents O.made self.now }
    {
        let _file = &self.file;
    }
}

impl<F: Write, O: Origin<F>> Write for MadeFile<F, O> {
    ghost contents = { λ w. F.contents w };

    fn write(&mut self, buf: &[u8]) -> io::Result<usize>
        ensures bound { WritesAtMost result buf.now }
        ensures bytes { WriteAppends (F.contents self.old) (F.contents self.new) result buf.now }
    {
        self.file.write(buf)
    }

    fn flush(&mut self) -> io::Result<()>
        ensures bytes { Keeps (F.contents self.old) (F.contents self.new) }
    {
        self.file.flush()
    }
}

impl<F: Write + OpenFile, O: Origin<F>> OpenFile for MadeFile<F, O> {
    fn metadata(&self) -> io::Result<Metadata> {
        self.file.metadata()
    }

    fn set_len(&self, size: u64) -> io::Result<()> {
        self.file.set_len(size)
    }

    fn sync_all(&self) -> io::Result<()> {
        self.file.sync_all()
    }

    fn sync_data(&self) -> io::Result<()> {
        self.file.sync_data()
    }
}
