//! The journal of a run on its way to its file. Notes wait in memory, so that a note costs no system call,
//! until they are written together.
//!
//! Two locks keep threads out of each other's way. The lines that wait have one, which is held while a line that is
//! whole already is put behind the others, and while all are taken. The file has the other, which is held while they
//! are written and made durable. So a note waits for no write, and a thread that has waited for another's write needs
//! none of its own if its notes were among those. Who has the file's lock may ask for the lines', never the other
//! way round.

ghost use Rattle.std.specs.Prelude.{◌≡◌, IfOk, None, Some, false, option_copied};
ghost use Rattle.sms_journal.specs.Lines.{IsU64};
ghost use Rattle.sms_devices.specs.Journals.{HasEnded, is_durable, stop_sign_of, wait_for};

mod failure;
mod files;
mod line;
mod lines;
mod made_file;
mod pages;
mod stop;

use crate::journal::line::{header_line, note_line};
use crate::journal::lines::Lines;
use crate::journal::pages::Pages;
use crate::journal::stop::StopWatch;
pub use failure::JournalFailure;
pub(crate) use files::{folder_of, sync_folder};
pub use files::{JournalFiles, Unmade};
pub use made_file::{MadeFile, Origin};
use sms_journal::{Digests, JournalKind, Note};
use std::alloc::Global;
use std::fs::OpenFile;
use std::io::Write;
use std::sync::atomic::{AtomicBool, Ordering};
use std::sync::{Mutex, Wait};
use std::time::{Clock, SystemTime, UNIX_EPOCH};
pub use stop::{StopSigns, stop_sign};

/// The journal of a run. It is shared by all threads that note, and by all that write to a connection.
#[derive(Drop)]
pub struct Journal<F> {
    alloc: Global,
    /// Whether notes that are let out are durable.
    is_synced: bool,
    lines: Mutex<Lines>,
    pages: Mutex<Pages<F>>,
    has_failed: AtomicBool,
    stop: StopWatch,
}

impl<F: Write + OpenFile> Journal<F> {
    /// A journal in an empty file, without notes. With `is_synced` what is written is made durable at once.
    pub fn new(alloc: Global, file: F, is_synced: bool) -> Journal<F>
        ensures durable { is_durable result ≡ is_synced }
        ensures unasked { stop_sign_of result ≡ None }
    {
        Journal {
            alloc,
            is_synced,
            lines: Mutex::new(Lines::new(alloc)),
            pages: Mutex::new(Pages::new(alloc, file, is_synced)),
            has_failed: AtomicBool::new(false),
            stop: StopWatch::new(None),
        }
    }

    /// The same journal of a run that looks for the stop sign of this name.
    pub fn with_stop_sign(self, sign: String) -> Journal<F>
        ensures durable { is_durable result ≡ is_durable self }
        ensures sign { stop_sign_of result ≡ Some sign }
    {
        let Journal {
            alloc,
            is_synced,
            lines,
            pages,
            has_failed,
            stop: _,
        } = self;
        Journal {
            alloc,
            is_synced,
            lines,
            pages,
            has_failed,
            stop: StopWatch::new(Some(sign)),
        }
    }

    /// Whether the run was asked to stop, by this time of its clock.
    pub(crate) fn is_stopped<R: StopSigns>(&self, rt: &R, now_ms: u64) -> bool
        ensures unasked { stop_sign_of self.now ≡ None → result ≡ false }
    {
        self.stop.is_seen(rt, now_ms)
    }

    /// Notes the kind of the run, and the digests of its files. It must be the first note.
    pub fn begin<R: Wait>(&self, rt: &R, kind: JournalKind, digests: &Digests) {
        let line = header_line(self.alloc, kind, digests);
        let is_added = self.lines.lock(rt).add(&line);
        let _is_whole = self.see(is_added);
    }

    /// Makes a note, with the system's time. False if the journal has failed.
    pub fn note<R: Wait + Clock>(&self, rt: &R, note: &Note) -> bool {
        let line = note_line(self.alloc, unix_ms(rt), note);
        let is_added = self.lines.lock(rt).add(&line);
        self.see(is_added)
    }

    /// Writes all notes to the file. False if the journal has failed: then some notes may never be written,
    /// and no later ones are.
    pub fn let_out<R: Wait>(&self, rt: &R) -> bool {
        let noted = self.lines.lock(rt).count();
        let is_let_out = match noted {
            Some(count) => self.write_to(rt, count),
            None => false,
        };
        self.see(is_let_out)
    }

    /// Writes notes until the file has this many. Another thread may have written them while this one waited for the
    /// file.
    fn write_to<R: Wait>(&self, rt: &R, count: u64) -> bool {
        let mut pages = self.pages.lock(rt);
        if pages.has(count) {
            return true;
        }
        let spare = pages.take_spare();
        let taken = self.lines.lock(rt).take(spare);
        let written = match taken {
            Ok(lines) => pages.write(lines),
            Err(why) => Err(why),
        };
        match written {
            Ok(()) => true,
            Err(why) => {
                self.lines.lock(rt).fail(why);
                false
            }
        }
    }

    /// Keeps that the journal has failed, if it isn't whole. Gives whether it is.
    fn see(&self, is_whole: bool) -> bool
        ensures { result ≡ is_whole }
    {
        if !is_whole {
            self.has_failed.store(true, Ordering::SeqCst);
        }
        is_whole
    }

    /// Whether a note or a write has failed.
    pub fn has_failed(&self) -> bool {
        self.has_failed.load(Ordering::SeqCst)
    }

    /// Why the journal failed: memory was refused for a note, or the file failed. None if it hasn't.
    pub fn failure<R: Wait>(&self, rt: &R) -> Option<JournalFailure> {
        self.lines.lock(rt).failure
    }
}

impl<F: Write + OpenFile + Drop> Journal<F> {
    /// Notes last that the run has ended, with this exit status, and writes all notes. Gives the file, or why
    /// the journal has failed, now or before.
    pub fn close<R: Clock>(self, rt: &R, status: u8) -> Result<F, JournalFailure>
        ensures { IfOk result (HasEnded F.contents status) }
    {
        let end = note_line(self.alloc, unix_ms(rt), &Note::End(status));
        let Journal {
            alloc: _,
            is_synced: _,
            lines,
            pages,
            has_failed: _,
            stop: _,
        } = self;
        pages.into_inner().close(lines.into_inner(), &end)
    }
}

/// The system's time in milliseconds since 1970 UTC; 0 if it can't be read.
pub fn unix_ms<R: Clock>(rt: &R) -> u64
    ensures { IsU64 result }
{
    let Ok(now) = SystemTime::now(rt) else {
        return 0;
    };
    match now.duration_since(UNIX_EPOCH) {
        Ok(passed) => u64::try_from(passed.as_millis()).unwrap_or(u64::MAX),
        Err(_before) => 0,
    }
}

/// Writes all notes of a run's journal, if it has one. False if the journal has failed.
pub(crate) fn let_out_of<R: Wait, F: Write + OpenFile>(
    rt: &R,
    journal: Option<&Journal<F>>,
) -> bool {
    match journal {
        Some(journal) => journal.let_out(rt),
        None => true,
    }
}

/// Whether the journal of a run has failed, if it has one.
pub(crate) fn has_failed<F: Write + OpenFile>(journal: Option<&Journal<F>>) -> bool {
    match journal {
        Some(journal) => journal.has_failed(),
        None => false,
    }
}

/// What each write to a connection waits for.
#[derive(Clone, Copy, Debug, PartialEq, Eq)]
pub(crate) enum WaitsFor {
    Nothing,
    /// All notes are written to the journal's file.
    File,
    /// And they are made durable there.
    Disk,
}

/// What each write to a connection waits for in a run with this journal, if it has one.
pub(crate) fn waits_for<F>(journal: Option<&Journal<F>>) -> WaitsFor
    ensures { result ≡ wait_for (option_copied journal.entry) }
{
    match journal {
        Some(journal) if journal.is_synced => WaitsFor::Disk,
        Some(_) => WaitsFor::File,
        None => WaitsFor::Nothing,
    }
}
