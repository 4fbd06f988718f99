//! Reports as runs of the model, worked out by hand.

use super::fault_text::fault_text;
use super::same::same;
use sms_core::Step;
use sms_files::{Schedule, read_schedule, replay_text};
use sms_journal::{AuditFault, run_audit};
use std::alloc::{AllocError, Global};
use std::process::Abort;
use std::test::Fail;

const ACCOUNTS: &[u8] = b"account,credits\nmain,10\nother,3\n";

/// Each is sent in one part, which costs 1.
const MESSAGES: &[u8] = b"account,source,destination,text\nmain,1,2,a\nother,1,2,b\nmain,1,2,c\n";

const HEAD: &str = "message,part,attempts,outcome,status,id\n";

const STATEMENT: &str = "account,topped,free,reserved,charged,returned\n";

const OPENED: &str = "world,2,1,3\ntopup,0,10\ntopup,1,3\nclaim,0,0\n";

/// A report's lines and rows; the schedule behind its first four lines; and what replay prints behind the events.
struct Case {
    lines: &'static str,
    rows: &'static str,
    schedule: &'static str,
    replayed: &'static str,
}

const CASES: [Case; 3] = [
    // Throttled to the end, charged at the second attempt, and unanswered.
    Case {
        lines: "0,1,2,charged,0,m\n1,1,1,unanswered,,\n2,1,3,refused,88,\n",
        rows: "main,10,9,0,1,1\nother,3,2,1,0,0\n",
        schedule: concat!(
            "reserve,2,0,1\npost,0,0,2\nrespond,1,88,0\nsettle,0,0\npost,0,0,2\nrespond,2,88,0\nsettle,0,0\n",
            "post,0,0,2\nrespond,3,88,0\nsettle,0,0\n",
            "reserve,0,0,1\npost,0,0,0\nrespond,4,88,0\nsettle,0,0\npost,0,0,0\nrespond,5,0,0\nsettle,0,0\n",
            "reserve,1,1,1\npost,0,0,1\nexpire,0,0\nrelease,0,0\n",
        ),
        replayed: concat!(
            "account 0 topped 10 free 9 reserved 0 charged 1 returned 1\n",
            "account 1 topped 3 free 2 reserved 1 charged 0 returned 0\n",
            "request 2 account 0 cost 1 attempts 3 refused\n",
            "request 0 account 0 cost 1 attempts 2 charged\n",
            "request 1 account 1 cost 1 attempts 1 unanswered\n",
            "held none\nnext 7\n",
        ),
    },
    // Never sent, refused by a generic_nack with ESME_ROK, and given up after it was throttled once.
    Case {
        lines: "0,1,0,unsent,,\n1,1,1,refused,0,\n2,1,1,refused,20,\n",
        rows: "main,10,10,0,0,2\nother,3,3,0,0,1\n",
        schedule: concat!(
            "reserve,0,0,1\ndiscard,0\n",
            "reserve,1,1,1\npost,0,0,1\nrespond,1,0,1\nsettle,0,0\n",
            "reserve,2,0,1\npost,0,0,2\nrespond,2,20,0\nsettle,0,0\ndiscard,2\nrelease,0,0\n",
        ),
        replayed: concat!(
            "account 0 topped 10 free 10 reserved 0 charged 0 returned 2\n",
            "account 1 topped 3 free 3 reserved 0 charged 0 returned 1\n",
            "request 0 account 0 cost 1 attempts 0 unsent\n",
            "request 1 account 1 cost 1 attempts 1 refused\n",
            "request 2 account 0 cost 1 attempts 1 refused\n",
            "held none\nnext 3\n",
        ),
    },
    // No message was begun.
    Case {
        lines: "0,0,0,no-credit,,\n1,0,0,bind-closed,,\n2,0,0,out-of-memory,,\n",
        rows: "main,10,10,0,0,0\nother,3,3,0,0,0\n",
        schedule: "release,0,0\n",
        replayed: concat!(
            "account 0 topped 10 free 10 reserved 0 charged 0 returned 0\n",
            "account 1 topped 3 free 3 reserved 0 charged 0 returned 0\n",
            "held none\nnext 1\n",
        ),
    },
];

/// The text of a fault.
fn said(alloc: Global, fault: AuditFault) -> Result<String, Fail> {
    match fault {
        AuditFault::Run(fault) => fault_text(alloc, fault),
        AuditFault::TooLong => Ok(String::from_str(alloc, "too long")?),
    }
}

/// What is printed of a report, or the fault.
fn audited(alloc: Global, accounts: &[u8], report: &[u8]) -> Result<String, Fail> {
    let mut out = Vec::new(alloc);
    match run_audit(alloc, b"", accounts, MESSAGES, None, report, &mut out) {
        Ok(()) => Ok(String::from_str(alloc, shown(out.as_slice()))?),
        Err(fault) => said(alloc, fault),
    }
}

fn shown(octets: &[u8]) -> &str {
    match std::str::from_utf8(octets) {
        Ok(text) => text,
        Err(_) => "no text",
    }
}

/// What replay prints of a schedule in which each event is done, and how many there are.
fn replayed(rt: &impl Abort, alloc: Global, text: &str) -> Result<(String, usize), Fail> {
    let Ok(schedule) = read_schedule(alloc, text.as_bytes()) else {
        return Err("no schedule".into());
    };
    let Schedule { mut world, events } = schedule;
    let steps = world.run(events.as_slice())?;
    for step in steps.as_slice() {
        same(rt, *step, Step::Done);
    }
    Ok((replay_text(alloc, &[], &world)?, steps.len()))
}

#[test]
fn a_report_is_a_run_of_the_model(rt: HostRuntime) -> Result<(), Fail> {
    let alloc = rt.alloc();
    for case in &CASES {
        let Case {
            lines,
            rows,
            schedule,
            replayed: wanted,
        } = case;
        let report = format!(in alloc; "{HEAD}{lines}{STATEMENT}{rows}")?;
        let got = audited(alloc, ACCOUNTS, report.as_bytes())?;
        let text = format!(in alloc; "{OPENED}{schedule}")?;
        same(&rt, got.as_str(), text.as_str());
        let (shown, _events) = replayed(&rt, alloc, got.as_str())?;
        same(&rt, shown.as_str(), *wanted);
    }
    Ok(())
}

/// Reports that are no runs: the accounts' credits, the lines, the rows, and the record that shows it.
const FAULTY: [(&[u8], &str, &str, &str); 4] = [
    // An account without credits can't have paid a part that was refused.
    (
        b"account,credits\nmain,0\nother,3\n",
        "0,1,1,refused,11,\n1,0,0,no-credit,,\n2,0,0,no-credit,,\n",
        "main,0,0,0,0,1\nother,3,3,0,0,0\n",
        "report record 2",
    ),
    (
        b"account,credits\nmain,0\nother,3\n",
        "0,0,0,no-credit,,\n1,1,1,charged,0,\n2,1,0,unsent,,\n",
        "main,0,0,0,0,1\nother,3,2,0,1,0\n",
        "report record 4",
    ),
    // A row that isn't the sum of its parts.
    (
        ACCOUNTS,
        "0,1,1,charged,0,\n1,0,0,no-credit,,\n2,0,0,no-credit,,\n",
        "main,10,10,0,0,0\nother,3,3,0,0,0\n",
        "report record 6",
    ),
    (
        ACCOUNTS,
        "0,1,1,charged,0,\n1,0,0,no-credit,,\n2,0,0,no-credit,,\n",
        "main,10,9,0,1,0\nother,3,3,0,0,1\n",
        "report record 7",
    ),
];

#[test]
fn a_report_that_is_no_run_is_refused(rt: HostRuntime) -> Result<(), Fail> {
    let alloc = rt.alloc();
    for (accounts, lines, rows, wanted) in FAULTY {
        let report = format!(in alloc; "{HEAD}{lines}{STATEMENT}{rows}")?;
        let got = audited(alloc, accounts, report.as_bytes())?;
        same(&rt, got.as_str(), wanted);
    }
    Ok(())
}
