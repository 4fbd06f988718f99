//! Trials on a ledger of their own kind: what they take and give back there, and that neither kind is taken for the other.

use super::near_centre::{
    Names, NearCentre, done_by, remove_files, resume_job, send_job, text_in, want_fault,
    want_report, write_file,
};
use super::same::same;
use super::words::words_of;
use sms_devices::{Host, LedgerFiles};
use sms_send::{FileModes, FullNames, InputFiles, Job, SettleArgs, TargetKind, job_of};
use std::alloc::{AllocError, Global};
use std::fs;
use std::process::Abort;
use std::rt::Files;
use std::test::Fail;

const NAMES: Names = Names {
    config: "ledger-trial.toml",
    accounts: "ledger-trial-accounts.csv",
    messages: "ledger-trial-messages.csv",
    journal: "ledger-trial-journal.csv",
};

const LEDGER: &str = "ledger-trial.ledger";

/// A ledger whose second account has nothing free, and the same of trials.
const PAID: &str =
    "ledger,1\npaid,1,main,6,INV-1\npaid,1,empty,1,\ntaken,1,00000000000000000000000000000001,empty,1\n";

const TRIAL: &str =
    "trial\nledger,1\npaid,1,main,6,INV-1\npaid,1,empty,1,\ntaken,1,00000000000000000000000000000001,empty,1\n";

/// What the report of a sending has of the messages and of the accounts, and the exit status.
const SENT: (&str, &str, u8) = (
    "0,1,1,charged,0,m1\n1,1,1,charged,0,m2\n2,1,1,charged,0,m3\n3,1,1,charged,0,m4\n4,0,0,no-credit,,\n5,1,1,charged,0,m5\n",
    "main,6,1,0,5,0\nempty,0,0,0,0,0\n",
    0,
);

// The job that sends to such a centre on the ledger.
fn sending_on(alloc: Global, kind: TargetKind) -> Result<Job, Fail> {
    match send_job(alloc, &NAMES, None)? {
        Job::Send(order) => Ok(Job::SendOn(kind, String::from_str(alloc, LEDGER)?, order)),
        _ => Err("no sending".into()),
    }
}

// The job that goes on with what was sent.
fn resuming_on(alloc: Global) -> Result<Job, Fail> {
    match resume_job(alloc, &NAMES, None)? {
        Job::Resume(order) => Ok(Job::ResumeOn(String::from_str(alloc, LEDGER)?, order)),
        _ => Err("no sending".into()),
    }
}

// The job that settles it.
fn settle_job(alloc: Global) -> Result<Job, AllocError> {
    Ok(Job::Settle(SettleArgs {
        ledger: String::from_str(alloc, LEDGER)?,
        config: String::from_str(alloc, NAMES.config)?,
        journal: String::from_str(alloc, NAMES.journal)?,
        refs: false,
    }))
}

// The job that books a payment there, for trials or not.
fn payment_job<R: AllocGlobal + Abort>(rt: &R, trial: bool) -> Result<Job, Fail> {
    let line = if trial {
        "topup --trial --ledger ledger-trial.ledger bank 3"
    } else {
        "topup --ledger ledger-trial.ledger bank 3"
    };
    match job_of(rt.alloc(), words_of(rt, line).as_slice()) {
        Ok(job) => Ok(job),
        Err(_) => Err("no job".into()),
    }
}

// That the balance of the ledger is this.
fn want_balance<R: FileModes + FullNames + Host + InputFiles + LedgerFiles + Abort>(
    rt: &R,
    rows: &str,
) -> Result<(), Fail> {
    let done = done_by(rt, Job::Balance(String::from_str(rt.alloc(), LEDGER)?));
    let wanted = format!(in rt.alloc(); "account,paid,free,out,doubt,spent\n{rows}")?;
    same(rt, done.printed.as_slice(), wanted.as_bytes());
    Ok(())
}

// That a job doesn't take the ledger, which has this text before and after.
fn want_other_kind<R: FileModes + FullNames + Host + InputFiles + LedgerFiles + Files + Abort>(
    rt: &R,
    job: Job,
    text: &str,
) -> Result<(), Fail> {
    write_file(rt, LEDGER, text);
    want_fault(rt, done_by(rt, job), "fault: ledger")?;
    same(rt, text_in(rt, LEDGER).as_str(), text);
    Ok(())
}

/// Neither kind is taken for the other, and nothing is written.
#[test]
fn takes_one_kind_alone(rt: HostRuntime) -> Result<(), Fail> {
    let alloc = rt.alloc();
    NearCentre::new(&rt).write_files(&rt, &NAMES, 1)?;
    want_other_kind(&rt, sending_on(alloc, TargetKind::Loopback)?, PAID)?;
    want_other_kind(&rt, sending_on(alloc, TargetKind::Loopback)?, "")?;
    want_other_kind(&rt, payment_job(&rt, true)?, PAID)?;
    for cut in 1..TRIAL.len() {
        let text = TRIAL.get(..cut).unwrap_or("");
        want_other_kind(&rt, sending_on(alloc, TargetKind::Remote)?, text)?;
        want_other_kind(&rt, payment_job(&rt, false)?, text)?;
    }
    write_file(&rt, NAMES.journal, "");
    assert!(&rt; fs::remove_file(&rt, LEDGER).is_ok());
    remove_files(&rt, &NAMES);
    Ok(())
}

/// A trial takes the credits of such a ledger and gives back what its statement says. It doesn't go on to a message centre.
#[test]
fn tries_on_a_ledger(rt: HostRuntime) -> Result<(), Fail> {
    let alloc = rt.alloc();
    NearCentre::new(&rt).write_files(&rt, &NAMES, 1)?;
    write_file(&rt, LEDGER, TRIAL);
    let done = done_by(&rt, sending_on(alloc, TargetKind::Loopback)?);
    want_report(&rt, &done, SENT)?;
    want_balance(&rt, "main,6,1,0,0,5\nempty,1,0,1,0,0\n")?;
    let text = text_in(&rt, LEDGER);
    assert!(&rt; text.as_str().starts_with(TRIAL));
    let settled = done_by(&rt, settle_job(alloc)?);
    same(&rt, settled.printed.as_slice(), b"".as_slice());
    let trial = "fault: journal of a trial: no message centre saw any of it";
    want_fault(&rt, done_by(&rt, resuming_on(alloc)?), trial)?;
    same(&rt, text_in(&rt, LEDGER).as_str(), text.as_str());
    assert!(&rt; fs::remove_file(&rt, LEDGER).is_ok());
    remove_files(&rt, &NAMES);
    Ok(())
}
