//! Reports of runs as runs of the model: what is printed of them, worked out by hand, and the faults.

use super::broken::want_unprinted;
use super::near_centre::{ACCOUNTS, MESSAGES, REPORT, STATEMENT, done_by, want_fault, write_file};
use super::report::want;
use super::same::same;
use sms_devices::{Host, LedgerFiles};
use sms_send::{AuditArgs, Fault, FileModes, FullNames, InputFiles, Job};
use std::alloc::{AllocError, Global};
use std::fs;
use std::process::Abort;
use std::rt::Files;
use std::test::Fail;

const NAME: &str = "audited-report.csv";

/// The files of the run.
const FILES: [(&str, &str); 3] = [
    (
        "audited.toml",
        "accounts = \"audited-accounts.csv\"\nmessages = \"audited-messages.csv\"\n",
    ),
    ("audited-accounts.csv", ACCOUNTS),
    ("audited-messages.csv", MESSAGES),
];

/// What a report has of the messages and of the accounts, and the schedule behind the accounts' top-ups.
const AUDITED: [(&str, &str, &str); 2] = [
    // One of each outcome: what came back stands first, then what was charged.
    (
        "0,1,1,charged,0,m1\n1,1,1,unanswered,,\n2,0,0,bind-closed,,\n3,1,2,refused,88,\n4,0,0,no-credit,,\n5,1,0,unsent,,\n",
        "main,6,4,1,1,2\nempty,0,0,0,0,0\n",
        concat!(
            "reserve,2,0,1\npost,0,0,2\nrespond,1,88,0\nsettle,0,0\npost,0,0,2\nrespond,2,88,0\nsettle,0,0\ndiscard,2\n",
            "reserve,3,0,1\ndiscard,3\n",
            "reserve,0,0,1\npost,0,0,0\nrespond,3,0,0\nsettle,0,0\n",
            "reserve,1,0,1\npost,0,0,1\nexpire,0,0\nrelease,0,0\n",
        ),
    ),
    // Nothing was sent.
    (
        "0,0,0,bind-closed,,\n1,0,0,bind-closed,,\n2,0,0,bind-closed,,\n3,0,0,bind-closed,,\n4,0,0,no-credit,,\n5,0,0,bind-closed,,\n",
        "main,6,6,0,0,0\nempty,0,0,0,0,0\n",
        "release,0,0\n",
    ),
];

/// The same of reports that are refused, and the fault.
const REFUSED: [(&str, &str, &str); 3] = [
    // Its statement isn't the sum of its parts.
    (
        "0,1,1,charged,0,m1\n1,0,0,bind-closed,,\n2,0,0,bind-closed,,\n3,0,0,bind-closed,,\n4,0,0,no-credit,,\n5,0,0,bind-closed,,\n",
        "main,6,6,0,0,0\nempty,0,0,0,0,0\n",
        "fault: report record 9",
    ),
    // A part that its account could never have paid.
    (
        "0,0,0,bind-closed,,\n1,0,0,bind-closed,,\n2,0,0,bind-closed,,\n3,0,0,bind-closed,,\n4,1,1,refused,11,\n5,0,0,bind-closed,,\n",
        "main,6,6,0,0,0\nempty,0,0,0,0,1\n",
        "fault: report record 6",
    ),
    ("0,1,1,charged,0,m1\n", "", "fault: report record 3"),
];

// The job that audits the report.
fn audit_job(alloc: Global) -> Result<Job, AllocError> {
    Ok(Job::Audit(AuditArgs {
        config: String::from_str(alloc, FILES[0].0)?,
        report: String::from_str(alloc, NAME)?,
        refs: false,
    }))
}

// Writes a report of the run.
fn write_report(
    rt: &(impl AllocGlobal + Files + Abort),
    lines: &str,
    rows: &str,
) -> Result<(), Fail> {
    let report = format!(in rt.alloc(); "{REPORT}{lines}{STATEMENT}{rows}")?;
    write_file(rt, NAME, report.as_str());
    Ok(())
}

// That this schedule is printed of the report.
fn want_schedule<R: FileModes + FullNames + Host + InputFiles + LedgerFiles + Abort>(
    rt: &R,
    behind: &str,
) -> Result<(), Fail> {
    let alloc = rt.alloc();
    let done = done_by(rt, audit_job(alloc)?);
    match &done.ended {
        Ok(status) => same(rt, *status, 0),
        Err(_) => panic!(rt; "a fault"),
    }
    let wanted = format!(in alloc; "world,2,1,3\ntopup,0,6\ntopup,1,0\nclaim,0,0\n{behind}")?;
    same(rt, done.printed.as_slice(), wanted.as_bytes());
    Ok(())
}

#[test]
fn a_report_is_printed_as_a_schedule(rt: HostRuntime) -> Result<(), Fail> {
    for (name, text) in FILES {
        write_file(&rt, name, text);
    }
    for (lines, rows, behind) in &AUDITED {
        write_report(&rt, *lines, *rows)?;
        want_schedule(&rt, *behind)?;
    }
    for room in [0, 10] {
        want_unprinted(&rt, audit_job(rt.alloc())?, room)?;
    }
    for (lines, rows, wanted) in &REFUSED {
        write_report(&rt, *lines, *rows)?;
        want_fault(&rt, done_by(&rt, audit_job(rt.alloc())?), *wanted)?;
    }
    assert!(&rt; fs::remove_file(&rt, NAME).is_ok());
    want_fault(
        &rt,
        done_by(&rt, audit_job(rt.alloc())?),
        "fault: file audited-report.csv",
    )?;
    for (name, _) in FILES {
        assert!(&rt; fs::remove_file(&rt, name).is_ok());
    }
    Ok(())
}

#[test]
fn says_that_a_schedule_is_too_long(rt: HostRuntime) -> Result<(), Fail> {
    want(
        &rt,
        &Fault::LongSchedule,
        "fault: schedule\n  the run has more than 1000000 events, the most that replay takes\n",
    )
}
