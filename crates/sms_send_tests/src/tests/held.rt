//! Journals that a process holds, and those of other files; and what a plan warns of.

use super::same::same;
use super::told::told_of;
use sms_devices::{Host, LedgerFiles};
use sms_driver::{Start, StartGate};
use sms_send::{
    Fault, FileModes, FullNames, InputFiles, Job, JobContext, JournalFile, LineArgs, RecoverArgs,
    SendArgs, Throttle, do_job,
};
use std::alloc::{AllocError, Global};
use std::fs::{self, OpenOptions};
use std::process::Abort;
use std::rt::Files;
use std::test::Fail;

/// The files of a sending.
const FILES: [(&str, &str); 3] = [
    (
        "held.toml",
        "accounts = \"held-accounts.csv\"\nmessages = \"held-messages.csv\"\n",
    ),
    ("held-accounts.csv", "account,credits\nmain,2\n"),
    (
        "held-messages.csv",
        "account,source,destination,text\nmain,12345,+447700900123,Hi\n",
    ),
];

const JOURNAL: &str = "held-journal.csv";

// The job to send them with the journal.
fn noted_job(alloc: Global) -> Result<Job, AllocError> {
    let journal = JournalFile {
        name: String::from_str(alloc, JOURNAL)?,
        sync: false,
    };
    Ok(Job::Loop(SendArgs {
        config: String::from_str(alloc, FILES[0].0)?,
        fields: None,
        quiet: true,
        verbose: false,
        journal: Some(journal),
        throttle: Throttle {
            connect_ms: None,
            rate: None,
            stop_after: None,
        },
        again: None,
        lines: LineArgs::none(),
        strict: false,
        refs: false,
    }))
}

// The job to recover the report from the journal, which may be of a trial.
fn recover_job(alloc: Global) -> Result<Job, AllocError> {
    Ok(Job::Recover(RecoverArgs {
        config: String::from_str(alloc, FILES[0].0)?,
        journal: String::from_str(alloc, JOURNAL)?,
        trial: true,
        refs: false,
    }))
}

// The job to stop the run of the journal.
fn stop_job(alloc: Global) -> Result<Job, AllocError> {
    Ok(Job::Stop(String::from_str(alloc, JOURNAL)?))
}

// The text of the fault that a job ends with.
fn fault_text(rt: &impl Abort, alloc: Global, done: Result<u8, Fault>) -> Result<String, Fail> {
    match done {
        Ok(_) => panic!(rt; "no fault"),
        Err(fault) => told_of(alloc, fault),
    }
}

// That a job is refused with this fault, and writes nothing.
fn want_refused<R: FileModes + FullNames + Host + InputFiles + LedgerFiles + Abort>(
    rt: &R,
    job: Job,
    wanted: &str,
) -> Result<(), Fail> {
    let alloc = rt.alloc();
    let (mut output, mut error) = (Vec::new(alloc), Vec::new(alloc));
    let (latch, unsaid) = StartGate::new();
    let mut start = Start::new(&latch, unsaid);
    let done = do_job(
        rt,
        &mut JobContext::new(),
        &mut start,
        job,
        &mut output,
        &mut error,
    );
    same(rt, fault_text(rt, alloc, done)?.as_str(), wanted);
    assert!(rt; output.is_empty() && error.is_empty());
    Ok(())
}

// Writes these files.
fn write_files(rt: &(impl Files + Abort)) {
    for (name, text) in FILES {
        assert!(rt; fs::write(rt, name, text).is_ok());
    }
    let _removed = fs::remove_file(rt, JOURNAL);
}

// Removes them.
fn remove_files(rt: &(impl Files + Abort)) {
    assert!(rt; fs::remove_file(rt, JOURNAL).is_ok());
    for (name, _) in FILES {
        assert!(rt; fs::remove_file(rt, name).is_ok());
    }
}

#[test]
fn leaves_a_held_journal_alone(rt: HostRuntime) -> Result<(), Fail> {
    write_files(&rt);
    let opened = OpenOptions::new()
        .write(true)
        .create_new(true)
        .open(&rt, JOURNAL);
    let Ok(file) = opened else {
        return Err("no file".into());
    };
    assert!(rt; file.try_lock().is_ok());
    want_refused(&rt, recover_job(rt.alloc())?, "fault: journal")?;
    want_refused(&rt, noted_job(rt.alloc())?, "fault: journal")?;
    drop(file);
    want_refused(&rt, noted_job(rt.alloc())?, "fault: file held-journal.csv")?;
    assert!(rt; fs::write(&rt, JOURNAL, "none\n").is_ok());
    want_refused(&rt, recover_job(rt.alloc())?, "fault: journal record 1")?;
    want_refused(&rt, stop_job(rt.alloc())?, "fault: journal")?;
    remove_files(&rt);
    want_refused(&rt, stop_job(rt.alloc())?, "fault: journal")?;
    Ok(())
}

/// Messages files, how many lines their plans have, and what is warned of.
const PLANNED: [(&str, usize, &str); 3] = [
    ("account,source,destination,text\na,1,2,\"Hi\"\n", 2, ""),
    (
        "account,source,destination,text\na,1,2,\"Hi\na,1,2,Ho\n",
        2,
        "warning: messages record 2: its quote is open, it goes on to the end of the file\n",
    ),
    (
        "account,source,destination,text\na,1,2,Hi\na,1,2,\"Ho\n\n",
        3,
        "warning: messages record 3: its quote is open, it goes on to the end of the file\n",
    ),
];

// That this is warned of a messages file.
fn want_warning<R: FileModes + FullNames + Host + InputFiles + LedgerFiles + Files + Abort>(
    rt: &R,
    text: &str,
    lines: usize,
    wanted: &str,
) -> Result<(), Fail> {
    let alloc = rt.alloc();
    assert!(rt; fs::write(rt, "open.csv", text).is_ok());
    let job = Job::Plan(String::from_str(alloc, "open.csv")?, false, false);
    let (mut output, mut error) = (Vec::new(alloc), Vec::new(alloc));
    let (latch, unsaid) = StartGate::new();
    let mut start = Start::new(&latch, unsaid);
    let done = do_job(
        rt,
        &mut JobContext::new(),
        &mut start,
        job,
        &mut output,
        &mut error,
    );
    assert!(rt; done.is_ok());
    let printed = output.iter().filter(|octet| **octet == b'\n').count();
    same(rt, printed, lines);
    same(rt, error.as_slice(), wanted.as_bytes());
    Ok(())
}

#[test]
fn warns_of_an_open_quote(rt: HostRuntime) -> Result<(), Fail> {
    for (text, lines, wanted) in &PLANNED {
        want_warning(&rt, *text, *lines, *wanted)?;
    }
    assert!(rt; fs::remove_file(&rt, "open.csv").is_ok());
    Ok(())
}
