//! A journal that several threads use at once.

use super::paper::{PaperFile, Sheet, Still};
use super::same::same;
use sms_devices::Journal;
use sms_journal::Note;
use std::fs::{Metadata, OpenFile};
use std::io::Write;
use std::sync::{Barrier, Wait};
use std::time::Clock;
use std::{io, str, thread};

/// Room for all that the test notes.
const ALL: usize = 1 << 10;

/// What it notes.
const LINES: &str = "begun,1700000000123,1\nbegun,1700000000123,2\nbegun,1700000000123,3\n";

/// A file whose first sync lasts from one end to the other.
#[derive(Drop)]
struct HeldFile<'r, R> {
    paper: PaperFile<'r, R>,
    ends: &'r Barrier,
}

impl<'r, R: Wait> Write for HeldFile<'r, R> {
    fn write(&mut self, buf: &[u8]) -> io::Result<usize> {
        self.paper.write(buf)
    }

    fn flush(&mut self) -> io::Result<()> {
        self.paper.flush()
    }
}

impl<'r, R: Wait> OpenFile for HeldFile<'r, R> {
    fn metadata(&self) -> io::Result<Metadata> {
        self.paper.metadata()
    }

    fn set_len(&self, size: u64) -> io::Result<()> {
        self.paper.set_len(size)
    }

    fn sync_all(&self) -> io::Result<()> {
        self.paper.sync_all()
    }

    fn sync_data(&self) -> io::Result<()> {
        let synced = self.paper.sync_data();
        if self.paper.sheet.syncs() == 1 {
            let _begun = self.ends.wait(self.paper.rt);
            let _goes_on = self.ends.wait(self.paper.rt);
        }
        synced
    }
}

// Makes two notes while a sync lasts. Gives whether both were made.
fn note_meanwhile<R: Wait + Clock, F: Write + OpenFile>(
    rt: &R,
    journal: &Journal<F>,
    ends: &Barrier,
) -> bool {
    let _begun = ends.wait(rt);
    let is_first_noted = journal.note(rt, &Note::Begun(2));
    let is_second_noted = journal.note(rt, &Note::Begun(3));
    let _goes_on = ends.wait(rt);
    is_first_noted && is_second_noted
}

/// A note waits for no write: it is made while others are made durable. What one thread has made durable needs no
/// sync of another.
#[test]
fn notes_while_it_is_written(rt: HostRuntime) {
    let alloc = rt.alloc();
    let still = Still {
        rt: &rt,
        can_be_read: true,
    };
    let sheet = Sheet::blank(alloc);
    let ends = Barrier::new(2);
    let paper = PaperFile::new(&rt, &sheet, ALL, true);
    let file = HeldFile { paper, ends: &ends };
    let journal = Journal::new(alloc, file, true);
    assert!(rt; journal.note(&still, &Note::Begun(1)));
    let (is_let_out, are_noted) = thread::join(
        &rt,
        || journal.let_out(&still),
        || note_meanwhile(&still, &journal, &ends),
    );
    assert!(rt; is_let_out && are_noted);
    same(&rt, sheet.syncs(), 1);
    let (is_one_let_out, is_other_let_out) = thread::join(
        &rt,
        || journal.let_out(&still),
        || journal.let_out(&still),
    );
    assert!(rt; is_one_let_out && is_other_let_out);
    same(&rt, sheet.syncs(), 2);
    let octets = sheet.take(&rt, alloc);
    same(&rt, str::from_utf8(octets.as_slice()), Ok(LINES));
}
