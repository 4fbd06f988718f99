//! Standard error, as a writer of text and of whole lines, and what is written there of a run.

use sms_devices::{Notices, Screen};
use std::fmt::Display;
use std::io::{self, Eprint, Write};
use std::str;
use std::thread::Threads;
use std::time::Clock;

/// Standard error. Each write goes out at once and whole, or fails.
#[derive(Drop)]
pub struct StandardError<'r, R> {
    pub rt: &'r R,
}

impl<R: Eprint> Write for StandardError<'_, R> {
    fn write(&mut self, buf: &[u8]) -> io::Result<usize> {
        match str::from_utf8(buf) {
            Ok(text) => {
                eprint!(self.rt; "{text}")?;
                Ok(buf.len())
            }
            Err(_) => Err(io::Error::from(io::ErrorKind::InvalidData)),
        }
    }

    fn flush(&mut self) -> io::Result<()> {
        Ok(())
    }
}

/// Takes whole lines.
pub trait TakesLines {
    ghost use Rattle.std.specs.Prelude.{ℕ, List, Option, None, IfErr, IfSome, OnOk, ⊤};
    ghost use Rattle.std.specs.Io.KnownBytes.{Appends};
    ghost use Rattle.std.specs.declared.io.Error.{Error};

    // What was written, where that is known, and with which error that may have failed.
    ghost told: { Self → Option (List ℕ) } = { λ _. None };

    ghost fails: { Self → Error → Type 0 } = { λ _ _. ⊤ };

    /// Writes these lines, each with its end, at once. All that standard error has of a run but its progress is
    /// written so, or by `write_beside`.
    fn tell_lines<T: Display>(&mut self, lines: &T) -> io::Result<()>
        ensures told { OnOk result (IfSome (T.output lines.now) (Appends (told self.old) (told self.new))) }
        ensures failed { IfErr result (fails self.new) };
}

impl<R: Eprint> TakesLines for StandardError<'_, R> {
    fn tell_lines<T: Display>(&mut self, lines: &T) -> io::Result<()> {
        eprint!(self.rt; "{lines}")
    }
}

/// Writes these lines of a sending, and waits for a terminal a second at most: it may be stopped.
pub fn write_beside<R: AllocGlobal + Threads + Clock + Eprint + Screen, T: Display>(
    rt: &R,
    lines: &T,
) {
    if !rt.is_terminal() {
        let _told = StandardError { rt }.tell_lines(lines);
        return;
    }
    if let Ok(text) = format!(in rt.alloc(); "{lines}") {
        let notices = Notices::new(rt.alloc(), rt.pen());
        if notices.tell(rt, text) {
            notices.settle(rt);
        }
    }
}
