//! The job of `stop`: it asks a run to end, waits for that, and removes its sign.

use super::near_centre::{
    ANSWERS_ALL, ANSWERS_ONE, Done, Names, NearCentre, done_by, remove_files, resume_job, send_job,
    text_in, want_fault, want_report,
};
use super::same::same;
use sms_devices::{Host, LedgerFiles};
use sms_send::{Again, FileModes, FullNames, InputFiles, Job};
use std::alloc::{AllocError, Global};
use std::fs::{self, File, OpenOptions};
use std::process::Abort;
use std::rt::Files;
use std::test::Fail;
use std::thread;
use std::time::{Clock, Duration};

const NAMES: Names = Names {
    config: "stop.toml",
    accounts: "stop-accounts.csv",
    messages: "stop-messages.csv",
    journal: "stop-journal.csv",
};

const SIGN: &str = "stop-journal.csv.stop";

/// A file that is held as a journal is.
const HELD: &str = "stop-held.csv";

const HELD_SIGN: &str = "stop-held.csv.stop";

/// For how many milliseconds it is held.
const HELD_MS: u64 = 300;

/// How many milliseconds a run waits for its second round: far longer than it takes to stop it.
const WAIT_MS: u32 = 20_000;

// The job to stop the run of this journal.
fn stop_job(alloc: Global, journal: &str) -> Result<Job, AllocError> {
    Ok(Job::Stop(String::from_str(alloc, journal)?))
}

// Whether the file of this name is there.
fn is_there(rt: &impl Files, name: &str) -> bool {
    fs::exists(rt, name).unwrap_or(true)
}

// Holds the file for a while, and then lets it go. Whether it was asked for by then.
fn hold_meanwhile(rt: &(impl Files + Clock), file: File) -> bool {
    thread::sleep(rt, Duration::from_millis(HELD_MS));
    let is_asked = is_there(rt, HELD_SIGN);
    drop(file);
    is_asked
}

// Whether a job was done, with the status 0 and without a word.
fn is_quiet(done: &Done) -> bool {
    done.printed.is_empty() && matches!(&done.ended, Ok(0))
}

/// It ends once nobody holds the journal any more. Where nobody does it is refused, and makes no sign.
#[test]
fn waits_until_the_journal_is_free(rt: HostRuntime) -> Result<(), Fail> {
    let _removed = fs::remove_file(&rt, HELD);
    let opened = OpenOptions::new()
        .write(true)
        .create_new(true)
        .open(&rt, HELD);
    let Ok(file) = opened else {
        return Err("no file".into());
    };
    assert!(&rt; file.try_lock().is_ok());
    let job = stop_job(rt.alloc(), HELD)?;
    let (is_asked, done) = thread::join(&rt, || hold_meanwhile(&rt, file), || done_by(&rt, job));
    assert!(&rt; is_asked && is_quiet(&done));
    let again = done_by(&rt, stop_job(rt.alloc(), HELD)?);
    want_fault(&rt, again, "fault: journal")?;
    assert!(&rt; !is_there(&rt, HELD_SIGN));
    assert!(&rt; fs::remove_file(&rt, HELD).is_ok());
    Ok(())
}

// Serves the run's first round, and stops the run. Whether that was done.
fn serve_and_stop<R: FileModes + FullNames + Host + InputFiles + LedgerFiles + Abort>(
    rt: &R,
    centre: &NearCentre,
    stop: Job,
) -> bool {
    let submits = centre.serve_all(rt.alloc(), 1, ANSWERS_ONE);
    let done = done_by(rt, stop);
    submits == 2 && is_quiet(&done)
}

/// A run that waits for its second round ends without it, and can be gone on with.
#[test]
fn stops_between_two_rounds(rt: HostRuntime) -> Result<(), Fail> {
    let alloc = rt.alloc();
    let centre = NearCentre::new(&rt);
    centre.write_files(&rt, &NAMES, 1)?;
    let again = Some(Again {
        most: 1,
        wait_ms: WAIT_MS,
    });
    let send = send_job(alloc, &NAMES, again)?;
    let stop = stop_job(alloc, NAMES.journal)?;
    let (is_stopped, done) = thread::join(
        &rt,
        || serve_and_stop(&rt, &centre, stop),
        || done_by(&rt, send),
    );
    assert!(&rt; is_stopped && !is_there(&rt, SIGN));
    assert!(&rt; !text_in(&rt, NAMES.journal).contains("\nround,"));
    want_report(
        &rt,
        &done,
        (
            "0,1,1,charged,0,m1\n1,1,1,unanswered,,\n2,0,0,bind-closed,,\n3,0,0,bind-closed,,\n4,0,0,bind-closed,,\n5,0,0,bind-closed,,\n",
            "main,6,4,1,1,0\nempty,0,0,0,0,0\n",
            4,
        ),
    )?;
    let resume = resume_job(alloc, &NAMES, None)?;
    let (submits, done) = thread::join(
        &rt,
        || centre.serve_all(alloc, 1, ANSWERS_ALL),
        || done_by(&rt, resume),
    );
    same(&rt, submits, 3);
    want_report(
        &rt,
        &done,
        (
            "0,1,1,charged,0,m1\n1,1,1,unanswered,,\n2,1,1,charged,0,m1\n3,1,1,charged,0,m2\n4,0,0,no-credit,,\n5,1,1,charged,0,m3\n",
            "main,6,1,1,4,0\nempty,0,0,0,0,0\n",
            4,
        ),
    )?;
    remove_files(&rt, &NAMES);
    Ok(())
}
