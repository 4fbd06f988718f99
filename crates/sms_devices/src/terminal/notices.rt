//! What is written to a terminal during a run. A terminal may be stopped (Ctrl-S), and then whoever writes to
//! it waits. So threads of their own write to it, and nobody waits for them for long.

ghost use Rattle.std.specs.Prelude.{◌≡◌, IfSome};

use crate::terminal::screen::{Pen, Screen};
use sms_files::{EndLine, WayLine};
use std::alloc::Global;
use std::fmt::Display;
use std::io::{Eprint, Stderr};
use std::sync::Arc;
use std::sync::atomic::{AtomicBool, Ordering};
use std::thread::Threads;
use std::time::{Clock, Duration};
use std::{fmt, thread};

/// How many milliseconds a terminal is waited for.
const PATIENCE_MS: u32 = 1_000;

/// What is written to a terminal during a run.
#[derive(Clone, Copy, Debug, PartialEq, Eq, Drop)]
pub enum Notice {
    /// How far the run is, over the line before.
    Way(WayLine),
    /// An empty line, over the line before.
    Clear,
    /// The result of the run.
    End(EndLine),
}

impl Display for Notice {
    ghost use Rattle.std.specs.Prelude.{Some};
    ghost use Rattle.sms_devices.specs.Telling.{notice_text};

    ghost output = { λ notice. Some (notice_text notice) };

    fn fmt<W: fmt::Write>(&self, f: &mut fmt::Formatter<W>) -> fmt::Result {
        match self {
            Notice::Way(line) => write!(f, "\r{line}\x1b[K"),
            Notice::Clear => write!(f, "\r\x1b[K"),
            Notice::End(line) => write!(f, "{line}\n"),
        }
    }
}

/// What a thread writes, and the flag that it clears when it has.
#[derive(Drop)]
struct Writing<P, T> {
    pen: P,
    text: T,
    is_writing: Arc<AtomicBool, Global>,
}

impl<P: Eprint + Drop, T: Display + Drop> Writing<P, T> {
    /// Writes it. A failure is ignored.
    fn run(self) {
        let Writing {
            pen,
            text,
            is_writing,
        } = self;
        let _written = pen.eprint(text);
        is_writing.store(false, Ordering::SeqCst);
    }
}

/// A terminal that gets one text at a time. While it doesn't take a text, the next ones are dropped.
#[derive(Drop)]
pub struct Notices<P> {
    pen: P,
    /// Whether a thread writes. None if nothing is to be written at all, or memory was refused.
    is_writing: Option<Arc<AtomicBool, Global>>,
}

impl<P: Pen + Send + Drop + 'static> Notices<P> {
    /// A terminal to which nothing is being written.
    pub fn new(alloc: Global, pen: P) -> Notices<P> {
        Notices {
            pen,
            is_writing: Arc::new(alloc, AtomicBool::new(false)).ok(),
        }
    }

    /// One to which nothing is ever written.
    pub fn none(pen: P) -> Notices<P> {
        Notices {
            pen,
            is_writing: None,
        }
    }

    /// The task of a new thread, unless one writes already.
    fn writing<T: Drop>(&self, text: T) -> Option<Writing<P, T>>
        ensures { IfSome result (λ writing. writing.text ≡ text) }
    {
        let Some(is_writing) = &self.is_writing else {
            return None;
        };
        if is_writing.swap(true, Ordering::SeqCst) {
            return None;
        }
        let Ok(written) = Arc::try_clone(is_writing) else {
            is_writing.store(false, Ordering::SeqCst);
            return None;
        };
        Some(Writing {
            pen: self.pen.another(),
            text,
            is_writing: written,
        })
    }

    /// No thread writes any more.
    fn finish(&self) {
        if let Some(is_writing) = &self.is_writing {
            is_writing.store(false, Ordering::SeqCst);
        }
    }

    /// Has a thread write a text, if the terminal has taken the one before, and doesn't wait for it. Whether
    /// a thread writes it.
    pub fn tell<R: Threads, T: Display + Send + Drop + 'static>(&self, rt: &R, text: T) -> bool {
        let Some(writing) = self.writing(text) else {
            return false;
        };
        if thread::spawn(rt, move || writing.run()).is_err() {
            self.finish();
            return false;
        }
        true
    }

    /// Waits until the terminal has taken the last text, for a second at most. Whether it has.
    pub fn settle<R: Clock>(&self, rt: &R) -> bool {
        let Some(is_writing) = &self.is_writing else {
            return true;
        };
        for _ms in 0..PATIENCE_MS {
            if !is_writing.load(Ordering::SeqCst) {
                return true;
            }
            thread::sleep(rt, Duration::from_millis(1));
        }
        false
    }
}

/// A place that notices of a run are written to.
pub trait TakesNotices {
    /// Has a notice written, and doesn't wait for it. It is dropped if the one before isn't written yet. Whether it
    /// is being written.
    fn tell(&self, notice: Notice) -> bool;

    /// Waits until the last notice is written, for a second at most. Whether it is.
    fn settle(&self) -> bool;
}

/// The terminal that standard error is.
#[derive(Drop)]
pub struct Terminal<'r, R> {
    rt: &'r R,
    notices: Notices<Stderr>,
}

impl<'r, R: AllocGlobal + Screen> Terminal<'r, R> {
    /// The terminal, or a place to which nothing is written if standard error isn't one.
    pub fn new(rt: &'r R) -> Terminal<'r, R> {
        let notices = if rt.is_terminal() {
            Notices::new(rt.alloc(), rt.pen())
        } else {
            Notices::none(rt.pen())
        };
        Terminal { rt, notices }
    }
}

impl<'r, R: Threads + Clock> TakesNotices for Terminal<'r, R> {
    fn tell(&self, notice: Notice) -> bool {
        self.notices.tell(self.rt, notice)
    }

    fn settle(&self) -> bool {
        self.notices.settle(self.rt)
    }
}
