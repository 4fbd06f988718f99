//! The files of journals: how they are made, who holds them, and why they fail.

use super::paper::{PaperEnv, PaperFile, Sheet};
use super::same::same;
use sms_devices::{Journal, JournalFailure, JournalFiles, Screen, Unmade, is_verbose};
use sms_journal::Note;
use std::alloc::Global;
use std::fs;
use std::fs::{File, OpenFile};
use std::io::{ErrorKind, Write};
use std::process::Abort;
use std::rt::Files;
use std::sync::Wait;
use std::time::Clock;

// A new journal's file of this name.
fn made<R: JournalFiles<JournalFile = File> + Files + Abort>(
    rt: &R,
    name: &str,
    is_synced: bool,
) -> File {
    let _removed = fs::remove_file(rt, name);
    match rt.create_journal(name, is_synced) {
        Ok(file) => file,
        Err(_) => panic!(rt; "no file"),
    }
}

// Why no journal's file of this name is made.
fn unmade(rt: &(impl JournalFiles + Abort), name: &str) -> Unmade {
    match rt.create_journal(name, true) {
        Ok(_file) => panic!(rt; "a file"),
        Err(why) => why,
    }
}

// The journal's file of this name, which is there.
fn opened<R: JournalFiles<JournalFile = File> + Abort>(rt: &R, name: &str) -> File {
    match rt.open_journal(name) {
        Ok(file) => file,
        Err(_) => panic!(rt; "no file"),
    }
}

// Why it can't be opened.
fn unopened(rt: &(impl JournalFiles + Abort), name: &str) -> Unmade {
    match rt.open_journal(name) {
        Ok(_file) => panic!(rt; "a file"),
        Err(why) => why,
    }
}

// The file takes these octets.
fn put(rt: &impl Abort, file: &mut File, octets: &[u8]) {
    assert!(rt; file.write_all(octets).is_ok());
}

/// A journal's file is a new one, and whoever has it open holds it, also before it has an octet. Once it is
/// closed nobody does.
#[test]
fn holds_the_file_that_it_makes(rt: HostRuntime) {
    const NAME: &str = "journal-of-a-test.csv";
    for is_synced in [false, true] {
        let mut file = made(&rt, NAME, is_synced);
        assert!(rt; rt.is_held(NAME));
        same(&rt, unmade(&rt, NAME), Unmade::Held);
        put(&rt, &mut file, b"journal");
        assert!(rt; rt.is_held(NAME));
        same(&rt, unmade(&rt, NAME), Unmade::Held);
        assert!(rt; file.sync_data().is_ok());
        drop(file);
        assert!(rt; !rt.is_held(NAME));
        same(
            &rt,
            unmade(&rt, NAME),
            Unmade::Failed(ErrorKind::AlreadyExists),
        );
    }
    assert!(rt; fs::remove_file(&rt, NAME).is_ok());
}

/// A journal's file is opened if it is there and nobody holds it; whoever has it open holds it. What is written goes behind
/// what stands in it.
#[test]
fn holds_the_file_that_it_opens(rt: HostRuntime) {
    const NAME: &str = "opened-journal-of-a-test.csv";
    let mut file = made(&rt, NAME, false);
    put(&rt, &mut file, b"one\n");
    same(&rt, unopened(&rt, NAME), Unmade::Held);
    drop(file);
    let mut file = opened(&rt, NAME);
    assert!(rt; rt.is_held(NAME));
    same(&rt, unopened(&rt, NAME), Unmade::Held);
    put(&rt, &mut file, b"two\n");
    drop(file);
    match fs::read_to_string(&rt, NAME) {
        Ok(text) => same(&rt, text.as_str(), "one\ntwo\n"),
        Err(_) => panic!(rt; "no text"),
    }
    assert!(rt; fs::remove_file(&rt, NAME).is_ok());
    same(
        &rt,
        unopened(&rt, NAME),
        Unmade::Failed(ErrorKind::NotFound),
    );
}

/// What isn't there, and what is no regular file, is held by nobody. The system says why no file can be made.
#[test]
fn holds_nothing_else(rt: HostRuntime) {
    const NOWHERE: &str = "no-folder-of-a-test/journal.csv";
    for name in [NOWHERE, ".", "/dev/null", ""] {
        assert!(rt; !rt.is_held(name));
    }
    same(
        &rt,
        unmade(&rt, NOWHERE),
        Unmade::Failed(ErrorKind::NotFound),
    );
    same(
        &rt,
        unmade(&rt, "/dev/null"),
        Unmade::Failed(ErrorKind::AlreadyExists),
    );
}

/// An empty file that nobody holds isn't taken for a held journal.
#[test]
fn holds_no_empty_file(rt: HostRuntime) {
    const NAME: &str = "empty-journal-of-a-test.csv";
    drop(made(&rt, NAME, false));
    assert!(rt; !rt.is_held(NAME));
    assert!(rt; fs::remove_file(&rt, NAME).is_ok());
}

// Why a journal failed whose file fails with this kind.
fn failure_by<R: Wait + Clock + Abort>(
    rt: &R,
    alloc: Global,
    kind: ErrorKind,
    syncs: bool,
) -> Option<JournalFailure> {
    let sheet = Sheet::blank(alloc);
    let file = PaperFile {
        rt,
        sheet: &sheet,
        room: if syncs { 3 } else { 100 },
        syncs,
        kind,
    };
    let journal = Journal::new(alloc, file, true);
    assert!(rt; journal.note(rt, &Note::Begun(3)));
    assert!(rt; journal.failure(rt).is_none());
    assert!(rt; !journal.let_out(rt));
    assert!(rt; journal.has_failed());
    let failure = journal.failure(rt);
    match journal.close(rt, 0) {
        Ok(_file) => panic!(rt; "closed"),
        Err(why) => same(rt, Some(why), failure),
    }
    failure
}

/// A journal says why its file failed, by a write or when it was to be made durable.
#[test]
fn says_why_it_failed(rt: HostRuntime) {
    let rows = [
        (ErrorKind::StorageFull, JournalFailure::StorageFull),
        (ErrorKind::QuotaExceeded, JournalFailure::QuotaExceeded),
        (ErrorKind::FileTooLarge, JournalFailure::FileTooLarge),
        (ErrorKind::ReadOnlyFilesystem, JournalFailure::ReadOnly),
        (ErrorKind::OutOfMemory, JournalFailure::OutOfMemory),
        (ErrorKind::Other, JournalFailure::Other),
    ];
    for (kind, failure) in rows {
        same(&rt, failure_by(&rt, rt.alloc(), kind, true), Some(failure));
        same(&rt, failure_by(&rt, rt.alloc(), kind, false), Some(failure));
    }
}

/// Details are shown if the environment variable is 1, and not for any other value.
#[test]
fn details_by_the_environment(rt: HostRuntime) {
    for (value, expected) in [
        ("1", true),
        ("", false),
        ("0", false),
        ("11", false),
        ("true", false),
    ] {
        same(
            &rt,
            is_verbose(&PaperEnv {
                name: "SMS_SEND_VERBOSE",
                value,
            }),
            expected,
        );
        same(
            &rt,
            is_verbose(&PaperEnv {
                name: "VERBOSE",
                value,
            }),
            false,
        );
    }
    if rt.is_terminal() {
        assert!(rt; rt.has_details());
    }
}
