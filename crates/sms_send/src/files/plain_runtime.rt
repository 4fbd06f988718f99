//! What else is asked of a runtime where its files are read: it is the runtime's own.

use crate::faults::exposed::FileModes;
use crate::faults::full_names::FullNames;
use crate::files::plain_files::PlainFiles;
use sms_devices::Screen;
use std::alloc::{AllocError, Global};
use std::fmt::Display;
use std::io::{self, Eprint, Stderr};
use std::thread::Threads;
use std::time::{Clock, Duration};

impl<'a, R: Threads> Threads for PlainFiles<'a, R> {}

impl<'a, R: Clock> Clock for PlainFiles<'a, R> {
    fn monotonic(&self) -> io::Result<Duration> {
        self.rt.monotonic()
    }

    fn since_1970(&self) -> io::Result<Duration> {
        self.rt.since_1970()
    }

    fn sleep(&self, duration: Duration) {
        self.rt.sleep(duration)
    }
}

impl<'a, R: Eprint> Eprint for PlainFiles<'a, R> {
    fn eprint<D: Display + Drop>(&self, value: D) -> io::Result<()> {
        self.rt.eprint(value)
    }

    fn eprintln<D: Display + Drop>(&self, value: D) -> io::Result<()> {
        self.rt.eprintln(value)
    }
}

impl<'a, R: Screen> Screen for PlainFiles<'a, R> {
    ghost shows = { λ files. R.shows files.rt.now };

    ghost details = { λ files. R.details files.rt.now };

    fn is_terminal(&self) -> bool {
        self.rt.is_terminal()
    }

    fn has_details(&self) -> bool {
        self.rt.has_details()
    }

    fn pen(&self) -> Stderr {
        self.rt.pen()
    }
}

impl<'a, R: FileModes> FileModes for PlainFiles<'a, R> {
    ghost is_mode = { λ files. R.is_mode files.rt.now };

    fn mode_of(&self, name: &str) -> Option<u32> {
        self.rt.mode_of(name)
    }
}

impl<'a, R: FullNames> FullNames for PlainFiles<'a, R> {
    ghost is_full = { λ files. R.is_full files.rt.now };

    fn full_name(&self, alloc: Global, name: &str) -> Result<String, AllocError> {
        self.rt.full_name(alloc, name)
    }
}
