//! The pages by which the lines of a journal go to its file.

ghost use Rattle.std.specs.Prelude.{◌≡◌, ◌++◌, [], Err, IfOk, IsOkAnd, OnErr, OnOk, Some, nat_le};
ghost use Rattle.std.specs.Io.KnownBytes.{Appends};
ghost use Rattle.std.specs.String.{string_bytes};
ghost use Rattle.sms_files.specs.Output.{WritesFront};
ghost use Rattle.sms_devices.specs.Journals.{waiting_lines};

use crate::journal::failure::{JournalFailure, Watched};
use crate::journal::line::MadeLine;
use crate::journal::lines::{Lines, TakenLines};
use sms_files::write_out;
use std::alloc::Global;
use std::fs::OpenFile;
use std::io::Write;
use std::mem;

/// The file of a journal, and a page that is used again, so that lines which come while others are written take no
/// memory of their own.
#[derive(Drop)]
pub(crate) struct Pages<F> {
    alloc: Global,
    spare: String,
    file: Watched<F>,
    /// Whether what is written is made durable at once.
    is_synced: bool,
    /// How many lines are in the file.
    written: u64,
}

impl<F: Write + OpenFile> Pages<F> {
    /// Before an empty file.
    pub(crate) fn new(alloc: Global, file: F, is_synced: bool) -> Pages<F>
        ensures file { result.file.file ≡ file }
        ensures synced { result.is_synced ≡ is_synced }
        ensures written { result.written ≡ 0 }
    {
        Pages {
            alloc,
            spare: String::new(alloc),
            file: Watched::new(file),
            is_synced,
            written: 0,
        }
    }

    /// Whether the file has this many lines, and they are durable if the journal is synced.
    pub(crate) fn has(&self, count: u64) -> bool
        ensures { result ≡ nat_le count self.now.written }
    {
        count <= self.written
    }

    /// The page that is used again.
    pub(crate) fn take_spare(&mut self) -> String
        ensures file { self.new.file ≡ self.old.file }
        ensures synced { self.new.is_synced ≡ self.old.is_synced }
        ensures written { self.new.written ≡ self.old.written }
    {
        mem::replace(&mut self.spare, String::new(self.alloc))
    }

    /// Writes lines to the file, or gives why it failed.
    pub(crate) fn write(&mut self, lines: TakenLines) -> Result<(), JournalFailure>
        ensures success { OnOk result (Appends (F.contents self.old.file.file) (F.contents self.new.file.file) (string_bytes lines.page)) }
        ensures partly { WritesFront (F.contents self.old.file.file) (F.contents self.new.file.file) (string_bytes lines.page) }
        ensures written { OnOk result (self.new.written ≡ lines.count) }
        ensures failed { OnErr result (self.new.written ≡ self.old.written) }
        ensures synced { self.new.is_synced ≡ self.old.is_synced }
    {
        let TakenLines { page, count } = lines;
        let out = write_out(&mut self.file, page.as_bytes());
        self.spare = page;
        if out.is_err() || (self.is_synced && self.file.sync_data().is_err()) {
            return Err(self.file.failure);
        }
        self.written = count;
        Ok(())
    }
}

impl<F: Write + OpenFile + Drop> Pages<F> {
    /// Writes the lines that wait, and after them this one. Gives the file, or why the journal has failed, now or
    /// before.
    pub(crate) fn close(self, lines: Lines, last: &MadeLine) -> Result<F, JournalFailure>
        ensures written { IfOk result (λ file. IsOkAnd last.now (λ line. Appends (F.contents self.file.file) (F.contents file) (waiting_lines lines ++ string_bytes line))) }
        ensures failed { (why : JournalFailure) → lines.failure ≡ Some why → result ≡ Err why }
    {
        let mut pages = self;
        let mut lines = lines;
        let _added = lines.add(last);
        let spare = pages.take_spare();
        let written = match lines.take(spare) {
            Ok(taken) => pages.write(taken),
            Err(why) => Err(why),
        };
        let Pages { file, .. } = pages;
        match written {
            Ok(()) => Ok(file.into_inner()),
            Err(why) => {
                drop(file);
                Err(why)
            }
        }
    }
}
