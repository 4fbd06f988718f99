//! What is listed of runs by journals written by hand: the bill, and the parts in doubt.

use super::fault_text::fault_text;
use super::head::head_of;
use super::same::same;
use sms_journal::{Columns, JournalKind, Listing, digests_of, run_listing};
use std::alloc::{AllocError, Global};
use std::test::Fail;
use std::thread::Threads;

const CONFIG: &[u8] = b"workers = 2";

const ACCOUNTS: &[u8] = b"account,credits\n\"m, n\",9\n";

const MESSAGES: &[u8] =
    b"account,source,destination,text\n\"m, n\",1,+44,\"a \"\"b\"\"\"\n\"m, n\",2,+33,ho\n";

const BILL: &str = "message,part,account,source,destination,cost,outcome,status,id,sent,heard\n";

const DOUBTS: &str = "message,part,account,source,destination,cost,sent,text\n";

/// Records of a journal behind its header, and the lines of the bill and of the parts in doubt.
const RUNS: [(&str, &str, &str); 7] = [
    ("", "", ""),
    (
        "begun,5,0\nrefused,5,1,no-credit\n",
        "0,1,\"m, n\",1,+44,1,unsent,,,,\n",
        "",
    ),
    (
        "begun,5,0\nsent,1709251199999,0,1,0,1\nheard,1709251200000,0,1,0,0,m%2c1\n",
        "0,1,\"m, n\",1,+44,1,charged,0,\"m,1\",2024-02-29T23:59:59.999Z,2024-03-01T00:00:00.000Z\n",
        "",
    ),
    // A time that isn't known, and one behind the year 9999.
    (
        "begun,5,0\nbegun,5,1\nsent,0,0,1,0,1\nsent,253402300800000,1,2,1,1\n",
        concat!(
            "0,1,\"m, n\",1,+44,1,unanswered,,,,\n",
            "1,1,\"m, n\",2,+33,1,unanswered,,,,\n"
        ),
        concat!(
            "0,1,\"m, n\",1,+44,1,,\"a \"\"b\"\"\"\n",
            "1,1,\"m, n\",2,+33,1,,ho\n"
        ),
    ),
    // The last request that was written counts.
    (
        concat!(
            "begun,5,0\nsent,978220800001,0,1,0,1\nheard,978220800002,0,1,88,0,\n",
            "sent,4107542400000,0,2,0,1\nunsent,4107542400001,0,2\n"
        ),
        "0,1,\"m, n\",1,+44,1,refused,88,,2000-12-31T00:00:00.001Z,2000-12-31T00:00:00.002Z\n",
        "",
    ),
    (
        concat!(
            "begun,5,0\nsent,978220800001,0,1,0,1\nheard,978220800002,0,1,88,0,\n",
            "sent,4107542400000,0,2,0,1\n"
        ),
        "0,1,\"m, n\",1,+44,1,unanswered,,,2100-03-01T00:00:00.000Z,\n",
        "0,1,\"m, n\",1,+44,1,2100-03-01T00:00:00.000Z,\"a \"\"b\"\"\"\n",
    ),
    // A number that is used again in the next round has its own answer.
    (
        concat!(
            "begun,5,0\nsent,1796020080000,0,1,0,1\nrefused,7,1,bind-closed\nround,8,2,1,1\n",
            "begun,9,1\nsent,1796020081000,0,1,1,1\nheard,1796020082000,0,1,0,0,m2\nend,9,4\n"
        ),
        concat!(
            "0,1,\"m, n\",1,+44,1,unanswered,,,2026-11-30T06:28:00.000Z,\n",
            "1,1,\"m, n\",2,+33,1,charged,0,m2,2026-11-30T06:28:01.000Z,2026-11-30T06:28:02.000Z\n"
        ),
        "0,1,\"m, n\",1,+44,1,2026-11-30T06:28:00.000Z,\"a \"\"b\"\"\"\n",
    ),
];

fn journal_of(alloc: Global, kind: JournalKind, records: &str) -> Result<String, AllocError> {
    let digests = digests_of(CONFIG, ACCOUNTS, MESSAGES, None);
    let mut text = head_of(alloc, kind, &digests)?;
    text.push_str(records)?;
    Ok(text)
}

/// What is printed, or the fault.
fn listed(
    rt: &(impl AllocGlobal + Threads),
    journal: &[u8],
    listing: Columns<'_>,
) -> Result<String, Fail> {
    let alloc = rt.alloc();
    let mut out = Vec::new(alloc);
    let printed = run_listing(
        rt, CONFIG, ACCOUNTS, MESSAGES, None, journal, listing, &mut out,
    );
    match printed {
        Ok(()) => match std::str::from_utf8(out.as_slice()) {
            Ok(text) => Ok(String::from_str(alloc, text)?),
            Err(_) => Ok(String::from_str(alloc, "no text")?),
        },
        Err(fault) => fault_text(alloc, fault),
    }
}

#[test]
fn lists_the_parts_of_a_run(rt: HostRuntime) -> Result<(), Fail> {
    let alloc = rt.alloc();
    for (records, bill, doubts) in RUNS {
        let journal = journal_of(alloc, JournalKind::Run, records)?;
        let got = listed(&rt, journal.as_bytes(), Columns::Usual(Listing::Bill))?;
        let wanted = format!(in alloc; "{BILL}{bill}")?;
        same(&rt, got.as_str(), wanted.as_str());
        let got = listed(&rt, journal.as_bytes(), Columns::Usual(Listing::Doubtful))?;
        let wanted = format!(in alloc; "{DOUBTS}{doubts}")?;
        same(&rt, got.as_str(), wanted.as_str());
    }
    Ok(())
}

/// A reference that wants quotes, and none for the message behind it.
#[test]
fn lists_references_last(rt: HostRuntime) -> Result<(), Fail> {
    let alloc = rt.alloc();
    let mut refs = Vec::new(alloc);
    refs.push(String::from_str(alloc, "R-1, \"x\"")?)?;
    let (records, _, _) = RUNS[RUNS.len() - 1];
    let journal = journal_of(alloc, JournalKind::Run, records)?;
    let listing = Columns::WithRefs(Listing::Bill, refs.as_slice());
    let got = listed(&rt, journal.as_bytes(), listing)?;
    same(
        &rt,
        got.as_str(),
        concat!(
            "message,part,account,source,destination,cost,outcome,status,id,sent,heard,ref\n",
            "0,1,\"m, n\",1,+44,1,unanswered,,,2026-11-30T06:28:00.000Z,,\"R-1, \"\"x\"\"\"\n",
            "1,1,\"m, n\",2,+33,1,charged,0,m2,2026-11-30T06:28:01.000Z,2026-11-30T06:28:02.000Z,\n"
        ),
    );
    let listing = Columns::WithRefs(Listing::Doubtful, refs.as_slice());
    let got = listed(&rt, journal.as_bytes(), listing)?;
    same(
        &rt,
        got.as_str(),
        concat!(
            "message,part,account,source,destination,cost,sent,text,ref\n",
            "0,1,\"m, n\",1,+44,1,2026-11-30T06:28:00.000Z,\"a \"\"b\"\"\",\"R-1, \"\"x\"\"\"\n"
        ),
    );
    Ok(())
}

#[test]
fn lists_nothing_of_a_trial(rt: HostRuntime) -> Result<(), Fail> {
    let alloc = rt.alloc();
    let records = "begun,5,0\nsent,6,0,1,0,1\n";
    let journal = journal_of(alloc, JournalKind::Trial, records)?;
    let got = listed(&rt, journal.as_bytes(), Columns::Usual(Listing::Bill))?;
    same(&rt, got.as_str(), "journal of a trial");
    let journal = journal_of(alloc, JournalKind::Run, "begun,5,0\nbegun,5,0\n")?;
    let got = listed(&rt, journal.as_bytes(), Columns::Usual(Listing::Doubtful))?;
    same(&rt, got.as_str(), "journal record 3");
    Ok(())
}
