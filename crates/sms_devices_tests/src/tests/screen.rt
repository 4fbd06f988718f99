//! What is written to a terminal that can be stopped.

use super::same::same;
use sms_devices::{Notices, Pen};
use std::alloc::Global;
use std::fmt::Display;
use std::io::Eprint;
use std::sync::atomic::{AtomicBool, Ordering};
use std::sync::{Arc, Mutex, Wait};
use std::test::Fail;
use std::time::{Clock, Duration};
use std::{io, mem, thread};

// For how many milliseconds a stopped terminal takes nothing, unless it goes on.
const STOPPED_MS: u32 = 5_000;

// What was written to a terminal, and whether it is stopped.
#[derive(Drop)]
struct Sheet {
    text: Mutex<String>,
    is_stopped: AtomicBool,
}

// A terminal that keeps what is written to it, from whichever thread.
#[derive(Drop)]
struct Paper<R> {
    rt: R,
    alloc: Global,
    sheet: Option<Arc<Sheet, Global>>,
}

impl<R: Clock + Wait> Paper<R> {
    // Waits while the terminal is stopped.
    fn wait(&self, sheet: &Sheet) {
        for _ms in 0..STOPPED_MS {
            if !sheet.is_stopped.load(Ordering::SeqCst) {
                return;
            }
            thread::sleep(&self.rt, Duration::from_millis(1));
        }
    }

    // A terminal to which nothing was written.
    fn blank(rt: R, alloc: Global) -> Paper<R> {
        let sheet = Sheet {
            text: Mutex::new(String::new(alloc)),
            is_stopped: AtomicBool::new(false),
        };
        Paper {
            rt,
            alloc,
            sheet: Arc::new(alloc, sheet).ok(),
        }
    }

    // It is stopped, or goes on.
    fn stop(&self, is_stopped: bool) {
        if let Some(sheet) = &self.sheet {
            sheet.is_stopped.store(is_stopped, Ordering::SeqCst);
        }
    }

    // What was written since the last call.
    fn take(&self) -> String {
        let blank = String::new(self.alloc);
        match &self.sheet {
            Some(sheet) => {
                let mut text = sheet.text.lock(&self.rt);
                mem::replace(&mut *text, blank)
            }
            None => blank,
        }
    }
}

impl<R: Clock + Wait> Eprint for Paper<R> {
    fn eprint<D: Display + Drop>(&self, value: D) -> io::Result<()> {
        let written = value.to_string(self.alloc)?;
        if let Some(sheet) = &self.sheet {
            self.wait(&**sheet);
            sheet.text.lock(&self.rt).push_str(written.as_str())?;
        }
        Ok(())
    }

    fn eprintln<D: Display + Drop>(&self, value: D) -> io::Result<()> {
        self.eprint(value)?;
        self.eprint("\n")
    }
}

impl<R: Clock + Wait + Copy> Pen for Paper<R> {
    fn another(&self) -> Paper<R> {
        let sheet = match &self.sheet {
            Some(sheet) => Arc::try_clone(sheet).ok(),
            None => None,
        };
        Paper {
            rt: self.rt,
            alloc: self.alloc,
            sheet,
        }
    }
}

#[test]
fn nobody_waits_for_a_terminal_that_is_stopped(rt: HostRuntime) -> Result<(), Fail> {
    let alloc = rt.alloc();
    let paper = Paper::blank(rt, alloc);
    let notices = Notices::new(alloc, paper.another());
    paper.stop(true);
    same(&rt, notices.tell(&rt, "one"), true);
    // The terminal hasn't taken that, so this is left out.
    same(&rt, notices.tell(&rt, "two"), false);
    same(&rt, notices.settle(&rt), false);
    same(&rt, paper.take().as_str(), "");
    paper.stop(false);
    same(&rt, notices.settle(&rt), true);
    same(&rt, paper.take().as_str(), "one");
    same(&rt, notices.tell(&rt, "three"), true);
    same(&rt, notices.settle(&rt), true);
    same(&rt, paper.take().as_str(), "three");
    Ok(())
}

#[test]
fn nothing_is_written_without_notices(rt: HostRuntime) {
    let paper = Paper::blank(rt, rt.alloc());
    let notices = Notices::none(paper.another());
    same(&rt, notices.tell(&rt, "one"), false);
    same(&rt, notices.settle(&rt), true);
    same(&rt, paper.take().as_str(), "");
}
