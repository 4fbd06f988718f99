//! The lines of a journal that wait until a thread takes them to the file.

ghost use Rattle.std.specs.Prelude.{◌≡◌, ◌+◌, ◌++◌, ◌↔◌, [], length, Err, IfOk, IsOkAnd, IsSome, IsTrue, None, Some};
ghost use Rattle.std.specs.String.{string_bytes, string_len};
ghost use Rattle.sms_devices.specs.Journals.{HasNoRoom, failed_for, waiting_lines};

use crate::journal::failure::JournalFailure;
use crate::journal::line::MadeLine;
use std::alloc::Global;
use std::mem;

/// The lines that wait, of those that were added so far.
#[derive(Drop)]
pub(crate) struct Lines {
    waiting: String,
    /// How many were added.
    count: u64,
    /// Why the journal failed: memory was refused for a line, or the file failed. Nothing more is added or taken
    /// then.
    pub(crate) failure: Option<JournalFailure>,
}

/// Lines that a thread takes to the file.
#[derive(Drop)]
pub(crate) struct TakenLines {
    pub(crate) page: String,
    /// How many were added up to the last of them.
    pub(crate) count: u64,
}

impl Lines {
    /// No lines.
    pub(crate) fn new(alloc: Global) -> Lines
        ensures empty { waiting_lines result ≡ [] }
        ensures count { result.count ≡ 0 }
        ensures whole { result.failure ≡ None }
    {
        Lines {
            waiting: String::new(alloc),
            count: 0,
            failure: None,
        }
    }

    /// How many lines were added. None if the journal has failed.
    pub(crate) fn count(&self) -> Option<u64>
        ensures whole { self.now.failure ≡ None → result ≡ Some self.now.count }
        ensures failed { IsSome self.now.failure → result ≡ None }
    {
        match self.failure {
            None => Some(self.count),
            Some(_why) => None,
        }
    }

    /// Adds a line; the journal fails if memory was refused for it. False if the journal has failed, now or before.
    pub(crate) fn add(&mut self, line: &MadeLine) -> bool
        ensures success { IsTrue result ↔ (self.new.failure ≡ None) }
        ensures line { self.new.failure ≡ None → IsOkAnd line.now (λ text. waiting_lines self.new ≡ waiting_lines self.old ++ string_bytes text) }
        ensures count { self.new.failure ≡ None → self.new.count ≡ self.old.count + 1 }
        ensures refused { self.old.failure ≡ None → IsSome self.new.failure → IfOk line.now (λ text. HasNoRoom self.old (string_len text)) }
        ensures failed { IsSome self.old.failure → self.new ≡ self.old }
    {
        if self.failure.is_some() {
            return false;
        }
        self.failure = match line {
            Ok(line) => self.keep(line.as_str()),
            Err(_refused) => Some(JournalFailure::OutOfMemory),
        };
        self.failure.is_none()
    }

    /// Puts a line behind the others, and counts it. Gives why it can't.
    fn keep(&mut self, line: &str) -> Option<JournalFailure>
        ensures line { result ≡ None → waiting_lines self.new ≡ waiting_lines self.old ++ line.now }
        ensures count { result ≡ None → self.new.count ≡ self.old.count + 1 }
        ensures refused { IsSome result → HasNoRoom self.old (length line.now) }
    {
        let Some(count) = self.count.checked_add(1) else {
            return Some(JournalFailure::Other);
        };
        match self.waiting.push_str(line) {
            Ok(()) => {
                self.count = count;
                None
            }
            Err(_refused) => Some(JournalFailure::OutOfMemory),
        }
    }

    /// Gives all lines that wait; later ones are put on this page, once it is cleared. It is an error if the journal
    /// has failed.
    pub(crate) fn take(&mut self, page: String) -> Result<TakenLines, JournalFailure>
        ensures taken { self.old.failure ≡ None → IsOkAnd result (λ taken. (taken.page ≡ self.old.waiting) × (taken.count ≡ self.old.count)) }
        ensures left { self.old.failure ≡ None → (waiting_lines self.new ≡ []) × (self.new.count ≡ self.old.count) × (self.new.failure ≡ None) }
        ensures failed { (why : JournalFailure) → self.old.failure ≡ Some why → (result ≡ Err why) × (self.new ≡ self.old) }
    {
        if let Some(why) = self.failure {
            return Err(why);
        }
        let mut next = page;
        next.clear();
        Ok(TakenLines {
            page: mem::replace(&mut self.waiting, next),
            count: self.count,
        })
    }

    /// The file failed. The first failure of a journal is kept.
    pub(crate) fn fail(&mut self, why: JournalFailure)
        ensures { self.new ≡ failed_for why self.old }
    {
        if self.failure.is_none() {
            self.failure = Some(why);
        }
    }
}
