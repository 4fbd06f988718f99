//! That a text can't be written, as its output showed it.

ghost use Rattle.std.specs.Prelude.{◌≡◌, ◌<◌, length, IfOk, MatchResult};
ghost use Rattle.std.specs.Io.{WritesAtMost};
ghost use Rattle.std.specs.Io.KnownBytes.{Keeps, WriteAppends};
ghost use Rattle.sms_pdu.specs.Faults.{Counts};
ghost use Rattle.sms_files.specs.Errors.{errors_of};

use std::io;
use std::io::{Error, ErrorKind, Write};
use std::marker::Model;

/// How many errors an output has answered. The number stays at its greatest value.
#[derive(Debug, Drop)]
pub(crate) struct Errors {
    count: u64,
}

impl Errors {
    /// Of an output that has answered none.
    pub(crate) fn none() -> Errors
        ensures { errors_of result ≡ 0 }
    {
        Errors { count: 0 }
    }

    /// Counts one more.
    fn add(&mut self)
        ensures { Counts (errors_of self.old) (errors_of self.new) }
    {
        self.count = self.count.saturating_add(1);
    }

    /// Writes once. That an output takes none of its own accord is an error too.
    pub(crate) fn write<W: Write>(&mut self, output: &mut W, octets: &[u8]) -> io::Result<usize>
        ensures bound { WritesAtMost result octets.now }
        ensures bytes { WriteAppends (W.contents output.old) (W.contents output.new) result octets.now }
        ensures some { IfOk result (λ taken. 0 < length octets.now → 0 < taken) }
        ensures errors { MatchResult result (λ _. errors_of self.new ≡ errors_of self.old) (λ _. Counts (errors_of self.old) (errors_of self.new)) }
    {
        match output.write(octets) {
            Ok(0) if !octets.is_empty() => {
                self.add();
                Err(Error::from(ErrorKind::WriteZero))
            }
            Ok(taken) => Ok(taken),
            Err(error) => {
                self.add();
                Err(error)
            }
        }
    }

    /// Lets go out what was written.
    pub(crate) fn flush<W: Write>(&mut self, output: &mut W) -> io::Result<()>
        ensures bytes { Keeps (W.contents output.old) (W.contents output.new) }
        ensures errors { MatchResult result (λ _. errors_of self.new ≡ errors_of self.old) (λ _. Counts (errors_of self.old) (errors_of self.new)) }
    {
        match output.flush() {
            Ok(()) => Ok(()),
            Err(error) => {
                self.add();
                Err(error)
            }
        }
    }
}

/// An output failed: it had answered this many errors by then. Only an output that answered one gives it, so
/// that no failure is made up. Contracts see no more of it than that it is there.
#[derive(Debug, Drop)]
pub struct Unwritten {
    errors: u64,
}

impl Model for Unwritten {
    ghost Value = { Unit };

    ghost view = { λ _. tt };

    ghost invariant = { λ unwritten. 0 < unwritten.errors };
}

impl Unwritten {
    /// That the output failed that answered these errors.
    pub(crate) fn of(errors: &Errors) -> Unwritten
        requires { 0 < errors_of errors.now }
    {
        Unwritten {
            errors: errors.count,
        }
    }
}
