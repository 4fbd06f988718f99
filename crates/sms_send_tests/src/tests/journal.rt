//! Sendings with a journal, from files and over a test centre of the program's own, and what is recovered of them.

use super::broken::FailingOutput;
use super::same::same;
use super::told::told_of;
use sms_driver::{Start, StartGate};
use sms_send::{
    Fault, Job, JobContext, JournalFile, LineArgs, RecoverArgs, SendArgs, Throttle, do_job,
};
use std::alloc::{AllocError, Global};
use std::fs;
use std::process::Abort;
use std::rt::Files;
use std::test::Fail;

/// The files of a sending, and its journal.
const FILES: [(&str, &str); 3] = [
    (
        "noted.toml",
        "accounts = \"noted-accounts.csv\"\nmessages = \"noted-messages.csv\"\nanswers = [\"status 0\", \"status 8\"]\n",
    ),
    ("noted-accounts.csv", "account,credits\nmain,2\n"),
    (
        "noted-messages.csv",
        "account,source,destination,text\nmain,12345,+447700900123,Hi\nmain,12345,+447700900123,Ho\n",
    ),
];

const JOURNAL: &str = "noted-journal.csv";

const TRIAL: &str = "trial: no message centre saw any of it\n";

// The job to send them.
fn noted_job(alloc: Global) -> Result<Job, AllocError> {
    let journal = JournalFile {
        name: String::from_str(alloc, JOURNAL)?,
        sync: true,
    };
    Ok(Job::Loop(SendArgs {
        config: String::from_str(alloc, FILES[0].0)?,
        fields: None,
        quiet: true,
        verbose: false,
        journal: Some(journal),
        throttle: Throttle {
            connect_ms: None,
            rate: None,
            stop_after: None,
        },
        again: None,
        lines: LineArgs::none(),
        strict: false,
        refs: false,
    }))
}

// The job to recover the report from the journal, which may be of a trial.
fn recover_job(alloc: Global, trial: bool) -> Result<Job, AllocError> {
    Ok(Job::Recover(RecoverArgs {
        config: String::from_str(alloc, FILES[0].0)?,
        journal: String::from_str(alloc, JOURNAL)?,
        trial,
        refs: false,
    }))
}

// That a job was not done, and what is reported.
fn want_fault(
    rt: &impl Abort,
    alloc: Global,
    done: Result<u8, Fault>,
    wanted: &str,
) -> Result<(), Fail> {
    let Err(fault) = done else {
        panic!(rt; "no fault")
    };
    same(rt, told_of(alloc, fault)?.as_str(), wanted);
    Ok(())
}

// The journal's text.
fn journal_text(rt: &(impl AllocGlobal + Files + Abort)) -> String {
    match fs::read_to_string(rt, JOURNAL) {
        Ok(text) => text,
        Err(_) => panic!(rt; "no journal"),
    }
}

/// The last note of a journal is that of the end, once the report is printed; so it tells the same report. A
/// file that is there is left as it is. Where the report could not be printed no end is noted.
#[test]
fn ends_a_journal_behind_its_report(rt: HostRuntime) -> Result<(), Fail> {
    let alloc = rt.alloc();
    for (name, text) in FILES {
        assert!(rt; fs::write(&rt, name, text).is_ok());
    }
    let _removed = fs::remove_file(&rt, JOURNAL);
    let mut printed = Vec::new(alloc);
    let mut told_beside = Vec::new(alloc);
    let (latch, unsaid) = StartGate::new();
    let done = do_job(
        &rt,
        &mut JobContext::new(),
        &mut Start::new(&latch, unsaid),
        noted_job(alloc)?,
        &mut printed,
        &mut told_beside,
    );
    assert!(rt; done.is_ok());
    let text = journal_text(&rt);
    let Some(last) = text.split_inclusive('\n').last() else {
        return Err("no line".into());
    };
    assert!(rt; last.starts_with("end,") && last.ends_with(",0\n"));
    let mut recovered = Vec::new(alloc);
    let (latch, unsaid) = StartGate::new();
    let told = do_job(
        &rt,
        &mut JobContext::new(),
        &mut Start::new(&latch, unsaid),
        recover_job(alloc, true)?,
        &mut recovered,
        &mut told_beside,
    );
    assert!(rt; told.is_ok());
    same(&rt, recovered.as_slice(), printed.as_slice());
    same(&rt, told_beside.as_slice(), TRIAL.as_bytes());
    told_beside.clear();
    let (latch, unsaid) = StartGate::new();
    let refused = do_job(
        &rt,
        &mut JobContext::new(),
        &mut Start::new(&latch, unsaid),
        recover_job(alloc, false)?,
        &mut recovered,
        &mut told_beside,
    );
    want_fault(
        &rt,
        alloc,
        refused,
        "fault: journal of a trial: no message centre saw any of it",
    )?;
    same(&rt, recovered.as_slice(), printed.as_slice());
    let (latch, unsaid) = StartGate::new();
    let again = do_job(
        &rt,
        &mut JobContext::new(),
        &mut Start::new(&latch, unsaid),
        noted_job(alloc)?,
        &mut printed,
        &mut told_beside,
    );
    want_fault(&rt, alloc, again, "fault: file noted-journal.csv")?;
    same(&rt, journal_text(&rt).as_str(), text.as_str());
    assert!(rt; fs::remove_file(&rt, JOURNAL).is_ok());
    let (latch, unsaid) = StartGate::new();
    let output = &mut FailingOutput { room: 9 };
    let failed = do_job(
        &rt,
        &mut JobContext::new(),
        &mut Start::new(&latch, unsaid),
        noted_job(alloc)?,
        output,
        &mut told_beside,
    );
    want_fault(&rt, alloc, failed, "fault: output")?;
    assert!(rt; told_beside.is_empty());
    assert!(rt; !journal_text(&rt).contains("\nend,"));
    assert!(rt; fs::remove_file(&rt, JOURNAL).is_ok());
    for (name, _) in FILES {
        assert!(rt; fs::remove_file(&rt, name).is_ok());
    }
    Ok(())
}
