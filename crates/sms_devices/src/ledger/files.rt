//! Opening the files of ledgers.

use crate::journal::{folder_of, sync_folder};
use crate::ledger::failure::LedgerFailure;
use crate::ledger::held_file::{HeldFile, LedgerText};
use crate::ledger::kind::LedgerKind;
use std::fs::{File, OpenOptions, TryLockError};
use std::time::Duration;
use std::{fs, thread};

/// How often a ledger's lock is tried, and how many milliseconds lie between: 10 seconds in all.
const LOCK_TRIES: u32 = 1_000;

const LOCK_REST_MS: u64 = 10;

/// Opens the files of ledgers. A file that other programs hold is waited for, 10 seconds at the most.
pub trait LedgerFiles {
    ghost use Rattle.std.specs.Prelude.{ℕ, List, IfErr, IfOk, OnOk, ⊤};
    ghost use Rattle.sms_devices.specs.declared.ledger.failure.LedgerFailure.{LedgerFailure as Failure};
    ghost use Rattle.sms_devices.specs.declared.ledger.kind.LedgerKind.{LedgerKind as Kind};

    type LedgerFile: HeldFile;

    // What is known of a file that was opened by a name, and why none of a name can be; and that what has a name is of a kind.
    ghost holds_ledger: { Self → List ℕ → Self.LedgerFile → Type 0 } = { λ _ _ _. ⊤ };

    ghost lacks_ledger: { Self → List ℕ → Failure → Type 0 } = { λ _ _ _. ⊤ };

    ghost has_kind: { Self → List ℕ → Kind → Type 0 } = { λ _ _ _. ⊤ };

    /// The file of this name, to append to it. It is made, empty, if it isn't there, and its entry in its folder is
    /// made durable. Nobody else has it open until it is closed.
    fn open_ledger(&self, name: &str) -> Result<Self::LedgerFile, LedgerFailure>
        ensures held { IfOk result (holds_ledger self.now name.now) }
        ensures refused { IfErr result (lacks_ledger self.now name.now) };

    /// The file of this name, to read it. Others may read it too, and nobody appends to it until it is closed.
    fn view_ledger(&self, name: &str) -> Result<Self::LedgerFile, LedgerFailure>
        ensures held { IfOk result (holds_ledger self.now name.now) }
        ensures refused { IfErr result (lacks_ledger self.now name.now) };

    /// The file of this name, to append to it, where it is a ledger of this kind. With `makes` it is made one if it isn't there or has no
    /// octets; else it has to be there. It never becomes one of the other kind. Nobody else has it open until it is closed.
    fn open_kind(
        &self,
        name: &str,
        kind: LedgerKind,
        makes: bool,
    ) -> Result<Self::LedgerFile, LedgerFailure>
        ensures held { IfOk result (holds_ledger self.now name.now) }
        ensures kind { OnOk result (has_kind self.now name.now kind) }
        ensures refused { IfErr result (lacks_ledger self.now name.now) };
}

impl LedgerFiles for HostRuntime {
    type LedgerFile = LedgerText;

    fn open_ledger(&self, name: &str) -> Result<LedgerText, LedgerFailure> {
        let file = held(self, name, true)?;
        LedgerText::of(file, true)
    }

    fn view_ledger(&self, name: &str) -> Result<LedgerText, LedgerFailure> {
        let file = opened(self, name, false, false)?;
        lock(self, &file, true)?;
        LedgerText::of(file, false)
    }

    fn open_kind(
        &self,
        name: &str,
        kind: LedgerKind,
        makes: bool,
    ) -> Result<LedgerText, LedgerFailure> {
        let file = held(self, name, makes)?;
        LedgerText::of_kind(file, kind, makes)
    }
}

/// The file of this name, locked alone, to append to it. With `makes` it is made if it isn't there.
fn held(rt: &HostRuntime, name: &str, makes: bool) -> Result<File, LedgerFailure> {
    let file = opened(rt, name, true, makes)?;
    lock(rt, &file, false)?;
    match sync_folder(rt, folder_of(name)) {
        Ok(()) => Ok(file),
        Err(error) => Err(LedgerFailure::Unopened(error.kind())),
    }
}

/// The regular file of this name, to read and, with `appends`, to append to it; with `makes` it is made if it isn't there. The reader of
/// a pipe would wait for its writer, so what is no regular file isn't opened.
fn opened(rt: &HostRuntime, name: &str, appends: bool, makes: bool) -> Result<File, LedgerFailure> {
    if has_no_file(rt, name) {
        return Err(LedgerFailure::NoFile);
    }
    let opened = OpenOptions::new()
        .read(true)
        .append(appends)
        .create(makes)
        .open(rt, name);
    match opened {
        Ok(file) => Ok(file),
        Err(error) => Err(LedgerFailure::Unopened(error.kind())),
    }
}

/// Whether there is something of this name that is no regular file.
fn has_no_file(rt: &HostRuntime, name: &str) -> bool {
    match fs::metadata(rt, name) {
        Ok(found) => !found.is_file(),
        Err(_) => false,
    }
}

/// Locks the file, with others or alone, once nobody has it locked otherwise.
fn lock(rt: &HostRuntime, file: &File, is_shared: bool) -> Result<(), LedgerFailure> {
    for _try in 0..LOCK_TRIES {
        let locked = if is_shared {
            file.try_lock_shared()
        } else {
            file.try_lock()
        };
        match locked {
            Ok(()) => return Ok(()),
            Err(TryLockError::Error(error)) => return Err(LedgerFailure::Unread(error.kind())),
            Err(TryLockError::WouldBlock) => {
                thread::sleep(rt, Duration::from_millis(LOCK_REST_MS));
            }
        }
    }
    Err(LedgerFailure::Locked)
}
