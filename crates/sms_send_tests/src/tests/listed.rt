//! What is listed of a run by its journal. What is printed is worked out by hand.

use super::broken::want_unprinted;
use super::near_centre::{
    ACCOUNTS, Names, NearCentre, done_by, remove_files, send_job, text_in, want_fault, write_file,
};
use super::same::same;
use sms_devices::{Host, LedgerFiles};
use sms_send::{FileModes, FullNames, InputFiles, Job, ListArgs, Listing};
use std::alloc::{AllocError, Global};
use std::fs::{self, OpenOptions};
use std::process::Abort;
use std::rt::Files;
use std::test::Fail;

const NAMES: Names = Names {
    config: "listed.toml",
    accounts: "listed-accounts.csv",
    messages: "listed-messages.csv",
    journal: "listed-journal.csv",
};

/// What the journal has behind its head: the answer to the second request didn't come.
const NOTES: &str = concat!(
    "begun,5,0\nsent,1709251199999,0,2,0,1\nheard,1709251200000,0,2,0,0,m%2c1\n",
    "begun,5,1\nsent,1709251200001,0,3,1,1\n",
);

const BILL: &str = concat!(
    "message,part,account,source,destination,cost,outcome,status,id,sent,heard\n",
    "0,1,main,12345,+447700900100,1,charged,0,\"m,1\",2024-02-29T23:59:59.999Z,2024-03-01T00:00:00.000Z\n",
    "1,1,main,12345,+447700900101,1,unanswered,,,2024-03-01T00:00:00.001Z,\n",
);

const BILL_WITH_REFS: &str = concat!(
    "message,part,account,source,destination,cost,outcome,status,id,sent,heard,ref\n",
    "0,1,main,12345,+447700900100,1,charged,0,\"m,1\",2024-02-29T23:59:59.999Z,2024-03-01T00:00:00.000Z,R-0\n",
    "1,1,main,12345,+447700900101,1,unanswered,,,2024-03-01T00:00:00.001Z,,R-1\n",
);

const DOUBTS: &str = concat!(
    "message,part,account,source,destination,cost,sent,text\n",
    "1,1,main,12345,+447700900101,1,2024-03-01T00:00:00.001Z,b\n",
);

// The job that lists this of the run.
fn list_job(alloc: Global, listing: Listing, refs: bool) -> Result<Job, AllocError> {
    Ok(Job::List(ListArgs {
        config: String::from_str(alloc, NAMES.config)?,
        journal: String::from_str(alloc, NAMES.journal)?,
        listing,
        refs,
    }))
}

// The first line of the run's journal, which a run has that finds no message centre.
fn first_line<R: FileModes + FullNames + Host + InputFiles + LedgerFiles + Files + Abort>(
    rt: &R,
) -> Result<String, Fail> {
    let centre = NearCentre::new(rt);
    centre.write_files(rt, &NAMES, 1)?;
    drop(centre);
    let job = send_job(rt.alloc(), &NAMES, None)?;
    want_fault(rt, done_by(rt, job), "fault: bind 0 failed")?;
    Ok(text_in(rt, NAMES.journal))
}

// That this is listed of the run.
fn want_listed<R: FileModes + FullNames + Host + InputFiles + LedgerFiles + Abort>(
    rt: &R,
    listing: Listing,
    refs: bool,
    wanted: &str,
) -> Result<(), Fail> {
    let done = done_by(rt, list_job(rt.alloc(), listing, refs)?);
    match &done.ended {
        Ok(status) => same(rt, *status, 0),
        Err(_) => panic!(rt; "a fault"),
    }
    same(rt, done.printed.as_slice(), wanted.as_bytes());
    Ok(())
}

// That nothing is listed of it, for this fault.
fn want_unlisted<R: FileModes + FullNames + Host + InputFiles + LedgerFiles + Abort>(
    rt: &R,
    wanted: &str,
) -> Result<(), Fail> {
    for listing in [Listing::Bill, Listing::Doubtful] {
        want_fault(
            rt,
            done_by(rt, list_job(rt.alloc(), listing, false)?),
            wanted,
        )?;
    }
    Ok(())
}

#[test]
fn lists_a_run(rt: HostRuntime) -> Result<(), Fail> {
    let first = first_line(&rt)?;
    let journal = format!(in rt.alloc(); "{first}{NOTES}")?;
    write_file(&rt, NAMES.journal, journal.as_str());
    want_listed(&rt, Listing::Bill, false, BILL)?;
    want_listed(&rt, Listing::Doubtful, false, DOUBTS)?;
    for room in [0, 10] {
        want_unprinted(&rt, list_job(rt.alloc(), Listing::Bill, false)?, room)?;
    }
    remove_files(&rt, &NAMES);
    Ok(())
}

/// The messages of the run with a last column `ref`, which the run was sent without. A record without it is a fault.
#[test]
fn lists_references(rt: HostRuntime) -> Result<(), Fail> {
    let alloc = rt.alloc();
    let first = first_line(&rt)?;
    let journal = format!(in alloc; "{first}{NOTES}")?;
    write_file(&rt, NAMES.journal, journal.as_str());
    let plain = text_in(&rt, NAMES.messages);
    let (mut text, mut place) = (String::new(alloc), 0u64);
    for line in plain.as_str().lines() {
        text.push_str(line)?;
        if place == 0 {
            text.push_str(",ref\n")?;
        } else {
            let number = place - 1;
            text.push_str(format!(in alloc; ",R-{number}\n")?.as_str())?;
        }
        place = place.wrapping_add(1);
    }
    write_file(&rt, NAMES.messages, text.as_str());
    want_listed(&rt, Listing::Bill, true, BILL_WITH_REFS)?;
    let job = list_job(alloc, Listing::Bill, false)?;
    want_fault(&rt, done_by(&rt, job), "fault: messages record 1")?;
    write_file(&rt, NAMES.messages, plain.as_str());
    let job = list_job(alloc, Listing::Bill, true)?;
    want_fault(&rt, done_by(&rt, job), "fault: messages record 1")?;
    remove_files(&rt, &NAMES);
    Ok(())
}

/// A journal that a process holds is left alone; one of a trial, of other files or of no run is refused.
#[test]
fn lists_nothing_of_others(rt: HostRuntime) -> Result<(), Fail> {
    let first = first_line(&rt)?;
    let held = OpenOptions::new().write(true).open(&rt, NAMES.journal);
    let Ok(file) = held else {
        return Err("no file".into());
    };
    assert!(&rt; file.try_lock().is_ok());
    want_unlisted(&rt, "fault: journal")?;
    drop(file);
    let twice = format!(in rt.alloc(); "{first}begun,1,0\nbegun,1,0\n")?;
    write_file(&rt, NAMES.journal, twice.as_str());
    want_unlisted(&rt, "fault: journal record 3")?;
    let Some(behind) = first.as_str().strip_prefix("journal") else {
        return Err("no journal".into());
    };
    let trial = format!(in rt.alloc(); "trial{behind}{NOTES}")?;
    write_file(&rt, NAMES.journal, trial.as_str());
    want_unlisted(
        &rt,
        "fault: journal of a trial: no message centre saw any of it",
    )?;
    write_file(&rt, NAMES.journal, first.as_str());
    let more = format!(in rt.alloc(); "{ACCOUNTS}more,1\n")?;
    write_file(&rt, NAMES.accounts, more.as_str());
    want_unlisted(&rt, "fault: journal record 1")?;
    remove_files(&rt, &NAMES);
    want_unlisted(&rt, "fault: file listed.toml")?;
    Ok(())
}
