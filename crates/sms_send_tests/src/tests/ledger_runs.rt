//! Runs on a ledger: what they take, what they give back, and what is decided of their parts in doubt. What is sent, printed and booked is
//! worked out by hand.

use super::near_centre::{
    ANSWERS_ALL, Names, NearCentre, done_by, recover_job, remove_files, resume_job, send_job,
    text_in, want_fault, want_report, write_file,
};
use super::same::same;
use sms_devices::{Host, LedgerFiles};
use sms_send::{DecideArgs, FileModes, FullNames, InputFiles, Job, SettleArgs, TargetKind};
use std::alloc::{AllocError, Global};
use std::process::Abort;
use std::rt::Files;
use std::test::Fail;
use std::{fs, str, thread};

const NAMES: Names = Names {
    config: "ledger-run.toml",
    accounts: "ledger-run-accounts.csv",
    messages: "ledger-run-messages.csv",
    journal: "ledger-run-journal.csv",
};

const LEDGER: &str = "ledger-run.ledger";

const DECISIONS: &str = "ledger-run-decisions.csv";

/// A ledger whose second account has nothing free.
const PAID: &str =
    "ledger,1\npaid,1,main,6,INV-1\npaid,1,empty,1,\ntaken,1,00000000000000000000000000000001,empty,1\n";

/// What a run took of it.
const TAKEN: &str = "taken,1,0123456789abcdef0123456789abcdef,main,6\n";

/// What stands before the run's journal: its accounts are those of the accounts file, octet for octet.
const HEAD: &str = "run,1,0123456789abcdef0123456789abcdef,31\naccount,credits\nmain,6\nempty,0\n";

/// Its notes: it was killed while it waited for the answer to its second request.
const NOTES: &str = "begun,1,0\nsent,1,0,2,0,1\nheard,1,0,2,0,0,m1\nbegun,1,1\nsent,1,0,3,1,1\n";

/// What its report has of the messages and of the accounts once it went on, and the exit status.
const RESUMED: (&str, &str, u8) = (
    "0,1,1,charged,0,m1\n1,1,1,unanswered,,\n2,1,1,charged,0,m1\n3,1,1,charged,0,m2\n4,0,0,no-credit,,\n5,1,1,charged,0,m3\n",
    "main,6,1,1,4,0\nempty,0,0,0,0,0\n",
    4,
);

/// The same of one that was sent whole.
const SENT: (&str, &str, u8) = (
    "0,1,1,charged,0,m1\n1,1,1,charged,0,m2\n2,1,1,charged,0,m3\n3,1,1,charged,0,m4\n4,0,0,no-credit,,\n5,1,1,charged,0,m5\n",
    "main,6,1,0,5,0\nempty,0,0,0,0,0\n",
    0,
);

// The name of a file.
fn named(alloc: Global, name: &str) -> Result<String, AllocError> {
    String::from_str(alloc, name)
}

// The files of the run.
fn run_args(alloc: Global) -> Result<SettleArgs, AllocError> {
    Ok(SettleArgs {
        ledger: named(alloc, LEDGER)?,
        config: named(alloc, NAMES.config)?,
        journal: named(alloc, NAMES.journal)?,
        refs: false,
    })
}

// The job that settles it.
fn settle_job(alloc: Global) -> Result<Job, AllocError> {
    Ok(Job::Settle(run_args(alloc)?))
}

// The job that books decisions of it.
fn decide_job(alloc: Global) -> Result<Job, AllocError> {
    Ok(Job::Decide(DecideArgs {
        run: run_args(alloc)?,
        decisions: named(alloc, DECISIONS)?,
    }))
}

// The job that sends on the ledger, or goes on.
fn on_ledger(alloc: Global, job: Job) -> Result<Job, Fail> {
    match job {
        Job::Send(order) => Ok(Job::SendOn(TargetKind::Remote, named(alloc, LEDGER)?, order)),
        Job::Resume(order) => Ok(Job::ResumeOn(named(alloc, LEDGER)?, order)),
        _ => Err("no sending".into()),
    }
}

// A line without its time, which is its second field.
fn without_time(line: &str) -> (&str, &str) {
    let (word, rest) = line.split_once(',').unwrap_or((line, ""));
    let (_time, rest) = rest.split_once(',').unwrap_or(("", rest));
    (word, rest)
}

// That a job ends with 0, and prints this line, whatever its time is, or nothing.
fn want_line<R: FileModes + FullNames + Host + InputFiles + LedgerFiles + Abort>(
    rt: &R,
    job: Job,
    wanted: Option<(&str, &str)>,
) -> Result<(), Fail> {
    let done = done_by(rt, job);
    match &done.ended {
        Ok(status) => same(rt, *status, 0),
        Err(_) => panic!(rt; "a fault"),
    }
    let Ok(printed) = str::from_utf8(done.printed.as_slice()) else {
        panic!(rt; "no text")
    };
    match wanted {
        Some(wanted) => same(rt, without_time(printed), wanted),
        None => same(rt, printed, ""),
    }
    Ok(())
}

// That where all credits are is this.
fn want_balance<R: FileModes + FullNames + Host + InputFiles + LedgerFiles + Abort>(
    rt: &R,
    rows: &str,
) -> Result<(), Fail> {
    let done = done_by(rt, Job::Balance(named(rt.alloc(), LEDGER)?));
    let wanted = format!(in rt.alloc(); "account,paid,free,out,doubt,spent\n{rows}")?;
    same(rt, done.printed.as_slice(), wanted.as_bytes());
    Ok(())
}

// The first line of a journal of these files, which a run of the accounts file has whose bind is refused.
fn first_line<R: FileModes + FullNames + Host + InputFiles + LedgerFiles + Files + Abort>(
    rt: &R,
    centre: &NearCentre,
) -> Result<String, Fail> {
    let job = send_job(rt.alloc(), &NAMES, None)?;
    let refuses = "bind_status = 14\nanswers = ['status 0']\n";
    let (submits, done) = thread::join(
        rt,
        || centre.serve_all(rt.alloc(), 1, refuses),
        || done_by(rt, job),
    );
    same(rt, submits, 0);
    want_fault(rt, done, "fault: bind 0 refused 14")?;
    Ok(text_in(rt, NAMES.journal))
}

// The ledger and the journal of a run that was killed.
fn write_killed<R: AllocGlobal + Files + Abort>(rt: &R, first: &str) -> Result<(), Fail> {
    let ledger = format!(in rt.alloc(); "{PAID}{TAKEN}")?;
    let journal = format!(in rt.alloc(); "{HEAD}{first}{NOTES}")?;
    write_file(rt, LEDGER, ledger.as_str());
    write_file(rt, NAMES.journal, journal.as_str());
    Ok(())
}

/// A run takes all that is free of its accounts, and gives back what its statement says. Nothing is settled after that.
#[test]
fn sends_on_a_ledger(rt: HostRuntime) -> Result<(), Fail> {
    let alloc = rt.alloc();
    let centre = NearCentre::new(&rt);
    centre.write_files(&rt, &NAMES, 1)?;
    // The config's accounts file isn't read.
    assert!(&rt; fs::remove_file(&rt, NAMES.accounts).is_ok());
    write_file(&rt, LEDGER, PAID);
    let job = on_ledger(alloc, send_job(alloc, &NAMES, None)?)?;
    let (submits, done) = thread::join(
        &rt,
        || centre.serve_all(alloc, 1, ANSWERS_ALL),
        || done_by(&rt, job),
    );
    same(&rt, submits, 5);
    want_report(&rt, &done, SENT)?;
    want_balance(&rt, "main,6,1,0,0,5\nempty,1,0,1,0,0\n")?;
    let booked = text_in(&rt, LEDGER);
    want_line(&rt, settle_job(alloc)?, None)?;
    same(&rt, text_in(&rt, LEDGER).as_str(), booked.as_str());
    let recovered = done_by(&rt, recover_job(alloc, &NAMES)?);
    same(&rt, recovered.printed.as_slice(), done.printed.as_slice());
    write_file(&rt, NAMES.accounts, "");
    assert!(&rt; fs::remove_file(&rt, LEDGER).is_ok());
    remove_files(&rt, &NAMES);
    Ok(())
}

/// A run whose bind is refused gives all back, and doesn't go on.
#[test]
fn gives_back_what_it_can_not_use(rt: HostRuntime) -> Result<(), Fail> {
    let alloc = rt.alloc();
    let centre = NearCentre::new(&rt);
    let names = Names {
        journal: "refused-ledger-run-journal.csv",
        config: "refused-ledger-run.toml",
        ..NAMES
    };
    centre.write_files(&rt, &names, 1)?;
    write_file(&rt, LEDGER, PAID);
    let job = on_ledger(alloc, send_job(alloc, &names, None)?)?;
    let refuses = "bind_status = 14\nanswers = ['status 0']\n";
    let (_submits, done) = thread::join(
        &rt,
        || centre.serve_all(alloc, 1, refuses),
        || done_by(&rt, job),
    );
    want_fault(&rt, done, "fault: bind 0 refused 14")?;
    want_balance(&rt, "main,6,6,0,0,0\nempty,1,0,1,0,0\n")?;
    let again = done_by(&rt, on_ledger(alloc, resume_job(alloc, &names, None)?)?);
    want_fault(&rt, again, "fault: ledger run")?;
    let plain = done_by(&rt, resume_job(alloc, &names, None)?);
    want_fault(&rt, plain, "fault: ledger run")?;
    assert!(&rt; fs::remove_file(&rt, LEDGER).is_ok());
    remove_files(&rt, &names);
    Ok(())
}

/// What a run that was killed has out comes back by its journal, and its part in doubt is decided once.
#[test]
fn settles_and_decides(rt: HostRuntime) -> Result<(), Fail> {
    let alloc = rt.alloc();
    let centre = NearCentre::new(&rt);
    centre.write_files(&rt, &NAMES, 1)?;
    let first = first_line(&rt, &centre)?;
    write_killed(&rt, first.as_str())?;
    want_balance(&rt, "main,6,0,6,0,0\nempty,1,0,1,0,0\n")?;
    write_file(&rt, DECISIONS, "message,part,fate\n1,1,lost\n");
    let early = done_by(&rt, decide_job(alloc)?);
    want_fault(&rt, early, "fault: booking")?;
    let back = ("back", "0123456789abcdef0123456789abcdef,main,4,1,1\n");
    want_line(&rt, settle_job(alloc)?, Some(back))?;
    want_line(&rt, settle_job(alloc)?, None)?;
    want_balance(&rt, "main,6,4,0,1,1\nempty,1,0,1,0,0\n")?;
    let resumed = done_by(&rt, on_ledger(alloc, resume_job(alloc, &NAMES, None)?)?);
    want_fault(&rt, resumed, "fault: ledger run")?;
    let decided = (
        "decided",
        "0123456789abcdef0123456789abcdef,1,1,main,1,lost\n",
    );
    want_line(&rt, decide_job(alloc)?, Some(decided))?;
    want_line(&rt, decide_job(alloc)?, None)?;
    want_balance(&rt, "main,6,5,0,0,1\nempty,1,0,1,0,0\n")?;
    for (decisions, wanted) in [
        ("message,part,fate\n1,1,delivered\n", "fault: booking"),
        ("message,part,fate\n0,1,lost\n", "fault: decisions record 2"),
        ("message,part,fate\n1,2,lost\n", "fault: decisions record 2"),
        (
            "message,part,fate\n1,1,lost\n1,1,maybe\n",
            "fault: decisions record 3",
        ),
        ("message,part\n", "fault: decisions record 1"),
        ("", "fault: decisions record 1"),
    ] {
        write_file(&rt, DECISIONS, decisions);
        want_fault(&rt, done_by(&rt, decide_job(alloc)?), wanted)?;
    }
    assert!(&rt; fs::remove_file(&rt, LEDGER).is_ok());
    assert!(&rt; fs::remove_file(&rt, DECISIONS).is_ok());
    remove_files(&rt, &NAMES);
    Ok(())
}

/// A run that was killed goes on with what it has out, and gives back by the statement of the whole run.
#[test]
fn goes_on_with_its_credits(rt: HostRuntime) -> Result<(), Fail> {
    let alloc = rt.alloc();
    let centre = NearCentre::new(&rt);
    centre.write_files(&rt, &NAMES, 1)?;
    let first = first_line(&rt, &centre)?;
    write_killed(&rt, first.as_str())?;
    let job = on_ledger(alloc, resume_job(alloc, &NAMES, None)?)?;
    let (submits, done) = thread::join(
        &rt,
        || centre.serve_all(alloc, 1, ANSWERS_ALL),
        || done_by(&rt, job),
    );
    same(&rt, submits, 3);
    want_report(&rt, &done, RESUMED)?;
    want_balance(&rt, "main,6,1,0,1,4\nempty,1,0,1,0,0\n")?;
    want_line(&rt, settle_job(alloc)?, None)?;
    // Nothing is left: it prints the report again, and books nothing.
    let again = done_by(&rt, on_ledger(alloc, resume_job(alloc, &NAMES, None)?)?);
    want_report(&rt, &again, RESUMED)?;
    want_balance(&rt, "main,6,1,0,1,4\nempty,1,0,1,0,0\n")?;
    assert!(&rt; fs::remove_file(&rt, LEDGER).is_ok());
    remove_files(&rt, &NAMES);
    Ok(())
}

/// A journal that was truncated before its run took anything has nothing to settle, and one of an accounts file is of no ledger.
#[test]
fn settles_what_was_taken_alone(rt: HostRuntime) -> Result<(), Fail> {
    let alloc = rt.alloc();
    let centre = NearCentre::new(&rt);
    centre.write_files(&rt, &NAMES, 1)?;
    let first = first_line(&rt, &centre)?;
    let plain = done_by(&rt, settle_job(alloc)?);
    want_fault(&rt, plain, "fault: ledger run")?;
    // A ledger that isn't there isn't made.
    let text = format!(in alloc; "{HEAD}{}", first.as_str())?;
    write_file(&rt, NAMES.journal, text.as_str());
    let lost = done_by(&rt, settle_job(alloc)?);
    want_fault(&rt, lost, "fault: file ledger-run.ledger")?;
    assert!(&rt; fs::remove_file(&rt, LEDGER).is_err());
    write_file(&rt, LEDGER, PAID);
    for cut in 0..HEAD.len() {
        write_file(&rt, NAMES.journal, HEAD.get(..cut).unwrap_or(""));
        want_line(&rt, settle_job(alloc)?, None)?;
        let going = done_by(&rt, on_ledger(alloc, resume_job(alloc, &NAMES, None)?)?);
        want_fault(&rt, going, "fault: ledger run")?;
    }
    for cut in HEAD.len()..=text.len() {
        write_file(&rt, NAMES.journal, text.as_str().get(..cut).unwrap_or(""));
        write_file(&rt, LEDGER, PAID);
        want_line(&rt, settle_job(alloc)?, None)?;
        let taken = format!(in alloc; "{PAID}{TAKEN}")?;
        write_file(&rt, LEDGER, taken.as_str());
        let back = ("back", "0123456789abcdef0123456789abcdef,main,6,0,0\n");
        want_line(&rt, settle_job(alloc)?, Some(back))?;
    }
    assert!(&rt; fs::remove_file(&rt, LEDGER).is_ok());
    remove_files(&rt, &NAMES);
    Ok(())
}
