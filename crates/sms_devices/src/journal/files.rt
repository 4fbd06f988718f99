//! The files that journals are written to. The process that writes a journal holds the file's lock as long as
//! the file is open. So nobody takes the journal of a running process for that of one that was killed.

use crate::journal::stop::LOOK_MS;
use std::fs::{File, OpenFile, OpenOptions, TryLockError};
use std::io::{Error, ErrorKind, Write};
use std::time::Duration;
use std::{fs, io, thread};

/// How often a file's lock is tried, and how many milliseconds lie between. Another process that asks whether
/// the file is held has it locked for a moment.
const LOCK_TRIES: u32 = 100;

const LOCK_REST_MS: u64 = 10;

/// After how many milliseconds an empty file is looked at again: its run may just have made it.
const SECOND_LOOK_MS: u64 = 100;

/// Why no file was made for a journal, or none opened.
#[derive(Clone, Copy, Debug, PartialEq, Eq)]
pub enum Unmade {
    /// There is one of this name, and a process holds it.
    Held,
    /// The system refused it, with an error of this kind.
    Failed(ErrorKind),
}

/// Makes the files that journals are written to.
pub trait JournalFiles {
    ghost use Rattle.std.specs.Prelude.{◌≡◌, ℕ, List, Err, IfOk, IsErr, false, true, ⊤};
    ghost use Rattle.sms_devices.specs.declared.journal.files.Unmade.TheVariants.{Held};

    type JournalFile: Write + OpenFile + Send + Drop;

    // What is known of a file that was made with a name or opened by it, of a name with which none could be, and of a
    // name whose file a process holds.
    ghost makes: { Self → List ℕ → Self.JournalFile → Type 0 } = { λ _ _ _. ⊤ };

    ghost opens: { Self → List ℕ → Self.JournalFile → Type 0 } = { λ _ _ _. ⊤ };

    ghost refuses: { Self → List ℕ → Type 0 } = { λ _ _. ⊤ };

    ghost holds: { Self → List ℕ → Type 0 } = { λ _ _. ⊤ };

    // That no process was found that holds the file of a name; that the run whose journal has a name was asked to stop by
    // the sign of another, and ended.
    ghost frees: { Self → List ℕ → Type 0 } = { λ _ _. ⊤ };

    ghost stops: { Self → List ℕ → List ℕ → Type 0 } = { λ _ _ _. ⊤ };

    /// A new file of this name, which this process holds until it is closed. It is an error if one is there
    /// already. With `is_synced` its entry in its folder is made durable.
    fn create_journal(&self, name: &str, is_synced: bool) -> Result<Self::JournalFile, Unmade>
        ensures made { IfOk result (makes self.now name.now) }
        ensures refused { IsErr result → refuses self.now name.now }
        ensures held { result ≡ Err Held → holds self.now name.now };

    /// The file of this name that is there, to write behind what stands in it. This process holds it until it is
    /// closed. It is an error if there is none.
    fn open_journal(&self, name: &str) -> Result<Self::JournalFile, Unmade>
        ensures opened { IfOk result (opens self.now name.now) }
        ensures refused { IsErr result → refuses self.now name.now }
        ensures held { result ≡ Err Held → holds self.now name.now };

    /// Whether a process holds the journal of this name. False if that can't be found out.
    fn is_held(&self, name: &str) -> bool
        ensures held { result ≡ true → holds self.now name.now }
        ensures free { result ≡ false → frees self.now name.now };

    /// Makes the stop sign of this name for the run whose journal has that name, waits until no process holds the journal
    /// any more, and removes the sign. It is an error if the sign can't be made.
    fn stop_run(&self, journal: &str, sign: &str) -> Result<(), ErrorKind>
        ensures stopped { IfOk result (λ _. stops self.now journal.now sign.now) }
        ensures refused { IsErr result → refuses self.now sign.now };

    /// Removes the stop sign of this name, if it is there.
    fn remove_stop_sign(&self, sign: &str);
}

impl JournalFiles for HostRuntime {
    type JournalFile = File;

    fn create_journal(&self, name: &str, is_synced: bool) -> Result<File, Unmade> {
        let made = OpenOptions::new()
            .write(true)
            .create_new(true)
            .open(self, name);
        match made {
            Ok(file) => hold_new(self, name, file, is_synced),
            Err(error) => {
                if error.kind() == ErrorKind::AlreadyExists && self.is_held(name) {
                    return Err(Unmade::Held);
                }
                Err(Unmade::Failed(error.kind()))
            }
        }
    }

    fn open_journal(&self, name: &str) -> Result<File, Unmade> {
        let opened = OpenOptions::new().append(true).open(self, name);
        let file = match opened {
            Ok(file) => file,
            Err(error) => {
                if error.kind() == ErrorKind::PermissionDenied && self.is_held(name) {
                    return Err(Unmade::Held);
                }
                return Err(Unmade::Failed(error.kind()));
            }
        };
        match lock(self, &file) {
            Ok(()) => Ok(file),
            Err(error) if error.kind() == ErrorKind::ResourceBusy => Err(Unmade::Held),
            Err(error) => Err(Unmade::Failed(error.kind())),
        }
    }

    fn is_held(&self, name: &str) -> bool {
        match look_at(self, name) {
            Look::Held => true,
            Look::Empty => {
                thread::sleep(self, Duration::from_millis(SECOND_LOOK_MS));
                look_at(self, name) == Look::Held
            }
            Look::Free => false,
        }
    }

    fn stop_run(&self, journal: &str, sign: &str) -> Result<(), ErrorKind> {
        let ended = ask_until_ended(self, journal, sign);
        let _removed = fs::remove_file(self, sign);
        ended
    }

    fn remove_stop_sign(&self, sign: &str) {
        let _removed = fs::remove_file(self, sign);
    }
}

/// Makes the stop sign of a run until no process holds its journal any more. A run that is just beginning removes the
/// sign, so it is made anew at each look.
fn ask_until_ended(rt: &HostRuntime, journal: &str, sign: &str) -> Result<(), ErrorKind> {
    for _look in 0..u32::MAX {
        if !rt.is_held(journal) {
            return Ok(());
        }
        make_sign(rt, sign)?;
        thread::sleep(rt, Duration::from_millis(LOOK_MS));
    }
    Ok(())
}

/// Makes the file of this name, if it isn't there.
fn make_sign(rt: &HostRuntime, sign: &str) -> Result<(), ErrorKind> {
    match OpenOptions::new().append(true).create(true).open(rt, sign) {
        Ok(_file) => Ok(()),
        Err(error) => Err(error.kind()),
    }
}

/// The new file of this name, once it is held. If it can't be, it is removed.
fn hold_new(rt: &HostRuntime, name: &str, file: File, is_synced: bool) -> Result<File, Unmade> {
    match hold(rt, name, &file, is_synced) {
        Ok(()) => Ok(file),
        Err(error) => {
            let _removed = fs::remove_file(rt, name);
            Err(Unmade::Failed(error.kind()))
        }
    }
}

/// Locks the file, and makes its entry in its folder durable if that is asked for.
fn hold(rt: &HostRuntime, name: &str, file: &File, is_synced: bool) -> io::Result<()> {
    lock(rt, file)?;
    if is_synced {
        sync_folder(rt, folder_of(name))
    } else {
        Ok(())
    }
}

/// Locks the file.
fn lock(rt: &HostRuntime, file: &File) -> io::Result<()> {
    for _try in 0..LOCK_TRIES {
        match file.try_lock() {
            Ok(()) => return Ok(()),
            Err(TryLockError::Error(error)) => return Err(error),
            Err(TryLockError::WouldBlock) => {
                thread::sleep(rt, Duration::from_millis(LOCK_REST_MS));
            }
        }
    }
    Err(Error::from(ErrorKind::ResourceBusy))
}

/// The folder that a name's file stands in.
pub(crate) fn folder_of(name: &str) -> &str {
    match name.rfind('/') {
        Some(0) => "/",
        Some(at) => name.get(..at).unwrap_or("."),
        None => ".",
    }
}

/// Makes the entries of the folder durable.
pub(crate) fn sync_folder(rt: &HostRuntime, folder: &str) -> io::Result<()> {
    let folder = fs::open(rt, folder)?;
    folder.sync_all()
}

/// How a file was found.
#[derive(Clone, Copy, PartialEq, Eq)]
enum Look {
    /// A process holds it.
    Held,
    /// Nobody holds it, and it has no octet.
    Empty,
    /// Nobody holds it, or that can't be found out.
    Free,
}

/// Looks at the file of this name. Only a regular file is opened: the writer of a pipe would notice.
fn look_at(rt: &HostRuntime, name: &str) -> Look {
    match fs::metadata(rt, name) {
        Ok(found) if found.is_file() => look_in(rt, name).unwrap_or(Look::Free),
        _ => Look::Free,
    }
}

/// Looks at this file.
fn look_in(rt: &HostRuntime, name: &str) -> io::Result<Look> {
    let file = fs::open(rt, name)?;
    match file.try_lock_shared() {
        Ok(()) => {}
        Err(TryLockError::WouldBlock) => return Ok(Look::Held),
        Err(TryLockError::Error(error)) => return Err(error),
    }
    if file.metadata()?.len() == 0 {
        Ok(Look::Empty)
    } else {
        Ok(Look::Free)
    }
}
