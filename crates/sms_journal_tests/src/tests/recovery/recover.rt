//! What is recovered from journals written by hand.

use super::fault_text::fault_text;
use super::head::head_of;
use super::same::same;
use sms_journal::{JournalKind, Recovered, digests_of, run_recover};
use std::alloc::{AllocError, Global};
use std::fmt::Write;
use std::test::Fail;
use std::thread::Threads;

const CONFIG: &[u8] = b"workers = 2";

const MESSAGES: &[u8] = b"account,source,destination,text\nmain,1,+44,hi\nmain,1,+44,ho\n";

const HEAD: &str = "message,part,attempts,outcome,status,id\n";

const STATEMENT: &str = "account,topped,free,reserved,charged,returned\nmain,3,";

/// Records of a journal behind its header, the lines and the amounts that are recovered from them, and the
/// exit status.
const RUNS: [(&str, &str, &str, u8); 12] = [
    (
        "",
        "0,0,0,bind-closed,,\n1,0,0,bind-closed,,\n",
        "3,0,0,0",
        0,
    ),
    (
        "begun,5,0\n",
        "0,1,0,unsent,,\n1,0,0,bind-closed,,\n",
        "3,0,0,1",
        0,
    ),
    (
        "begun,5,1\nsent,6,1,1,1,1\n",
        "0,0,0,bind-closed,,\n1,1,1,unanswered,,\n",
        "2,1,0,0",
        4,
    ),
    (
        "begun,5,0\nsent,6,0,1,0,1\nunsent,6,0,1\n",
        "0,1,0,unsent,,\n1,0,0,bind-closed,,\n",
        "3,0,0,1",
        0,
    ),
    (
        "begun,5,0\nsent,6,0,1,0,1\nheard,7,0,1,0,0,m%2c1\n",
        "0,1,1,charged,0,\"m,1\"\n1,0,0,bind-closed,,\n",
        "2,0,1,0",
        0,
    ),
    (
        "begun,5,0\nsent,6,0,1,0,1\nheard,7,0,1,88,0,\nrefused,9,1,no-credit\n",
        "0,1,1,refused,88,\n1,0,0,no-credit,,\n",
        "3,0,0,1",
        0,
    ),
    (
        "begun,5,0\nsent,6,0,1,0,1\nheard,7,0,1,88,0,\nsent,6,0,2,0,1\n",
        "0,1,2,unanswered,,\n1,0,0,bind-closed,,\n",
        "2,1,0,0",
        4,
    ),
    (
        "begun,5,0\nbegun,5,1\nsent,6,0,1,0,1\nsent,6,1,2,1,1\nheard,7,1,2,11,0,\nend,8,4\n",
        "0,1,1,unanswered,,\n1,1,1,refused,11,\n",
        "2,1,0,1",
        4,
    ),
    // The last line is cut.
    (
        "begun,5,0\nsent,6,0,1,0,1",
        "0,1,0,unsent,,\n1,0,0,bind-closed,,\n",
        "3,0,0,1",
        0,
    ),
    // What a round left is sent in the next, with a number that was used before.
    (
        concat!(
            "begun,5,0\nsent,6,0,1,0,1\nheard,7,0,1,0,0,m1\nrefused,7,1,bind-closed\nround,8,2,1,1\n",
            "begun,9,1\nsent,9,0,1,1,1\nheard,9,0,1,0,0,m2\nend,9,0\n",
        ),
        "0,1,1,charged,0,m1\n1,1,1,charged,0,m2\n",
        "1,0,2,0",
        0,
    ),
    // What is unanswered stays so, and a round that was begun and no more leaves what it was given.
    (
        "begun,5,0\nsent,6,0,1,0,1\nround,8,2,1,1\nround,9,3,4,8\n",
        "0,1,1,unanswered,,\n1,0,0,bind-closed,,\n",
        "2,1,0,0",
        4,
    ),
    // A message that was refused for its credits is not left.
    (
        "refused,5,0,no-credit\nround,8,2,1,1\nbegun,9,1\n",
        "0,0,0,no-credit,,\n1,1,0,unsent,,\n",
        "3,0,0,1",
        0,
    ),
];

/// Records behind a header, what the account begins with, and the text of the fault.
const FAULTY: [(&str, &str, &str); 7] = [
    ("begun,5,0\nbegun,5,0\n", "3", "journal record 3"),
    ("heard,7,0,1,0,0,m1\n", "3", "journal record 2"),
    ("begun,5,0\nbegin,5,1\n", "3", "journal record 3"),
    ("begun,5,0\nsent,6,0,1,0,2\n", "3", "journal record 3"),
    ("begun,5,0\nsent,6,0,1,0,1\n", "0", "journal"),
    ("begun,5,0\nsent,6,0,1,0,1\n", "x", "accounts record 2"),
    ("journal,1\n", "3", "journal record 2"),
];

/// The journal of a run of these files.
fn journal_of(alloc: Global, accounts: &[u8], records: &str) -> Result<String, AllocError> {
    journal_as(alloc, JournalKind::Run, accounts, records)
}

fn journal_as(
    alloc: Global,
    kind: JournalKind,
    accounts: &[u8],
    records: &str,
) -> Result<String, AllocError> {
    let digests = digests_of(CONFIG, accounts, MESSAGES, None);
    let mut text = head_of(alloc, kind, &digests)?;
    text.push_str(records)?;
    Ok(text)
}

/// What is printed and the status, or the fault.
fn recovered(
    rt: &(impl AllocGlobal + Threads),
    accounts: &[u8],
    journal: &[u8],
) -> Result<String, Fail> {
    recovered_as(rt, accounts, journal, false)
}

/// The same, where the journal may be one of a trial, which is printed behind the status.
fn recovered_as(
    rt: &(impl AllocGlobal + Threads),
    accounts: &[u8],
    journal: &[u8],
    trial: bool,
) -> Result<String, Fail> {
    let alloc = rt.alloc();
    let mut out = Vec::new(alloc);
    let recovered = run_recover(
        rt, CONFIG, accounts, MESSAGES, None, journal, trial, &mut out,
    );
    match recovered {
        Ok(Recovered { status, kind }) => {
            let mut text = String::new(alloc);
            match std::str::from_utf8(out.as_slice()) {
                Ok(printed) => text.push_str(printed)?,
                Err(_) => text.push_str("no text")?,
            }
            write!(text, "{status}")?;
            if kind == JournalKind::Trial {
                text.push_str(" trial")?;
            }
            Ok(text)
        }
        Err(fault) => fault_text(alloc, fault),
    }
}

fn accounts_with(alloc: Global, credits: &str) -> Result<String, AllocError> {
    format!(in alloc; "account,credits\nmain,{credits}\n")
}

#[test]
fn prints_what_the_run_would_have_printed(rt: HostRuntime) -> Result<(), Fail> {
    let alloc = rt.alloc();
    let accounts = accounts_with(alloc, "3")?;
    for (records, lines, amounts, status) in RUNS {
        let journal = journal_of(alloc, accounts.as_bytes(), records)?;
        let got = recovered(&rt, accounts.as_bytes(), journal.as_bytes())?;
        let wanted = format!(in alloc; "{HEAD}{lines}{STATEMENT}{amounts}\n{status}")?;
        same(&rt, got.as_str(), wanted.as_str());
    }
    Ok(())
}

#[test]
fn tells_what_is_no_journal_of_a_run(rt: HostRuntime) -> Result<(), Fail> {
    let alloc = rt.alloc();
    for (records, credits, fault) in FAULTY {
        let accounts = accounts_with(alloc, credits)?;
        let journal = journal_of(alloc, accounts.as_bytes(), records)?;
        let got = recovered(&rt, accounts.as_bytes(), journal.as_bytes())?;
        same(&rt, got.as_str(), fault);
    }
    let accounts = accounts_with(alloc, "3")?;
    let others = accounts_with(alloc, "4")?;
    let journal = journal_of(alloc, others.as_bytes(), "begun,5,0\n")?;
    let got = recovered(&rt, accounts.as_bytes(), journal.as_bytes())?;
    same(&rt, got.as_str(), "journal record 1");
    Ok(())
}

#[test]
fn recovers_a_trial_only_where_one_may_be(rt: HostRuntime) -> Result<(), Fail> {
    let alloc = rt.alloc();
    let accounts = accounts_with(alloc, "3")?;
    let records = "begun,5,0\nsent,6,0,1,0,1\nheard,7,0,1,0,0,m1\n";
    let report = "0,1,1,charged,0,m1\n1,0,0,bind-closed,,\n";
    let of_trial = journal_as(alloc, JournalKind::Trial, accounts.as_bytes(), records)?;
    let refused = recovered(&rt, accounts.as_bytes(), of_trial.as_bytes())?;
    same(&rt, refused.as_str(), "journal of a trial");
    let taken = recovered_as(&rt, accounts.as_bytes(), of_trial.as_bytes(), true)?;
    let wanted = format!(in alloc; "{HEAD}{report}{STATEMENT}2,0,1,0\n0 trial")?;
    same(&rt, taken.as_str(), wanted.as_str());
    let of_run = journal_of(alloc, accounts.as_bytes(), records)?;
    let taken = recovered_as(&rt, accounts.as_bytes(), of_run.as_bytes(), true)?;
    let wanted = format!(in alloc; "{HEAD}{report}{STATEMENT}2,0,1,0\n0")?;
    same(&rt, taken.as_str(), wanted.as_str());
    Ok(())
}

/// Each front of a journal tells a report whose account has all its credits.
#[test]
fn tells_a_report_of_each_front_of_a_journal(rt: HostRuntime) -> Result<(), Fail> {
    let alloc = rt.alloc();
    let accounts = accounts_with(alloc, "3")?;
    let records =
        "begun,5,0\nsent,6,0,1,0,1\nbegun,5,1\nheard,7,0,1,88,0,\nsent,6,1,3,1,1\nsent,6,0,2,0,1\nheard,7,0,2,0,0,m1\n";
    let journal = journal_of(alloc, accounts.as_bytes(), records)?;
    for octets in 0..journal.len() + 1 {
        let front = &journal.as_bytes()[..octets];
        let mut out = Vec::new(alloc);
        match run_recover(
            &rt,
            CONFIG,
            accounts.as_bytes(),
            MESSAGES,
            None,
            front,
            false,
            &mut out,
        ) {
            Ok(_) => assert!(rt; balances(out.as_slice())),
            Err(fault) => {
                let text = fault_text(alloc, fault)?;
                same(&rt, text.as_str(), "no fault");
            }
        }
    }
    Ok(())
}

/// The rows of an account that has its 3 credits, but for what was returned.
const BALANCED: [&str; 5] = [
    "main,3,3,0,0,",
    "main,3,2,1,0,",
    "main,3,1,2,0,",
    "main,3,2,0,1,",
    "main,3,1,1,1,",
];

/// Whether one of them was printed.
fn balances(out: &[u8]) -> bool {
    let Ok(text) = std::str::from_utf8(out) else {
        return false;
    };
    for row in &BALANCED {
        if text.contains(*row) {
            return true;
        }
    }
    false
}
