//! What journals written by hand say of runs that are to go on, and what a further round makes of that.

use super::fault_text::fault_text;
use super::head::head_of;
use super::same::same;
use sms_journal::further::{
    add_rows, copies_of, count_left, messages_left, openings_left, put_ends, without_evidence,
};
use sms_journal::{FileTies, JournalKind, JournaledRun, ReportKeys, digests_of, read_run};
use sms_message::{Message, MessageEnd};
use std::alloc::{AllocError, Global};
use std::fmt::Write;
use std::test::Fail;
use std::thread::Threads;

const CONFIG: &[u8] = b"workers = 1";

const ACCOUNTS: &[u8] = b"account,credits\nmain,6\n";

const MESSAGES: &[u8] =
    b"account,source,destination,text\nmain,1,+44,a\nmain,1,+44,b\nmain,1,+44,c\n";

/// Records of a journal behind its header; how many rounds it has, how many octets of its last line are cut off, how
/// many messages are left, their numbers, and what is free.
const RUNS: [(&str, &str); 7] = [
    ("", "1,0,3: 0 1 2, 6"),
    ("begun,5,0\nsent,6,0,1,0,1\n", "1,0,2: 1 2, 5"),
    (
        "begun,5,0\nsent,6,0,1,0,1\nheard,7,0,1,0,0,m1\nbegun,7,1\nsent,8,0,2,1,1\nrefused,9,2,bind-closed\nend,9,4\n",
        "1,0,1: 2, 4",
    ),
    (
        "begun,5,0\nsent,6,0,1,0,1\nround,8,2,4,8\nbegun,9,1\nsent,9,0,1",
        "2,10,1: 2, 5",
    ),
    (
        "round,8,2,1,1\nround,8,3,1,1\nbegun,9,0\nsent,9,0,1,0,1\nheard,9,0,1,0,0,m1\n",
        "3,0,2: 1 2, 5",
    ),
    (
        "refused,1,0,no-credit\nbegun,5,1\nsent,5,0,1,1,1\nheard,6,0,1,69,0,\nbegun,6,2\nsent,6,0,2,2,1\nheard,6,0,2,0,0,m\nend,9,0\n",
        "1,0,0:, 5",
    ),
    ("begun,5,1\n", "journal record 2"),
];

/// The journal of a run of these files.
fn journal_of(alloc: Global, records: &str) -> Result<String, AllocError> {
    let digests = digests_of(CONFIG, ACCOUNTS, MESSAGES, None);
    let mut text = head_of(alloc, JournalKind::Run, &digests)?;
    text.push_str(records)?;
    Ok(text)
}

/// The run, or the text of the fault.
fn read_by(
    rt: &(impl AllocGlobal + Threads),
    config: &[u8],
    journal: &[u8],
) -> Result<Result<JournaledRun, String>, Fail> {
    match read_run(rt, config, ACCOUNTS, MESSAGES, None, journal, true) {
        Ok(run) => Ok(Ok(run)),
        Err(fault) => Ok(Err(fault_text(rt.alloc(), fault)?)),
    }
}

/// The same by the config that it was begun with.
fn read(
    rt: &(impl AllocGlobal + Threads),
    journal: &[u8],
) -> Result<Result<JournaledRun, String>, Fail> {
    read_by(rt, CONFIG, journal)
}

/// The numbers of messages.
fn push_numbers(text: &mut String, messages: &[Message]) -> Result<(), Fail> {
    for message in messages {
        write!(text, " {}", message.index)?;
    }
    Ok(())
}

/// What the first account has free for a further round.
fn push_free(alloc: Global, text: &mut String, run: &JournaledRun) -> Result<(), Fail> {
    let (openings, rows) = (run.openings.as_slice(), run.rows.as_slice());
    if openings.len() != rows.len() {
        return Ok(());
    }
    for opening in &openings_left(alloc, openings, rows)? {
        write!(text, ", {}", opening.credits)?;
    }
    Ok(())
}

/// What is said of a run whose journal has this length.
fn told(alloc: Global, run: &JournaledRun, length: usize) -> Result<String, Fail> {
    let cut = length.saturating_sub(run.whole);
    let count = count_left(run.ends.as_slice());
    let mut text = format!(in alloc; "{},{cut},{count}:", run.rounds)?;
    let left = messages_left(alloc, run.messages.as_slice(), run.ends.as_slice())?;
    push_numbers(&mut text, left.as_slice())?;
    push_free(alloc, &mut text, run)?;
    Ok(text)
}

/// What is said of the run of a journal, by this config, or the fault.
fn said_by(
    rt: &(impl AllocGlobal + Threads),
    config: &[u8],
    journal: &[u8],
) -> Result<String, Fail> {
    match read_by(rt, config, journal)? {
        Ok(run) => told(rt.alloc(), &run, journal.len()),
        Err(fault) => Ok(fault),
    }
}

/// The same by the config that it was begun with.
fn said(rt: &(impl AllocGlobal + Threads), journal: &[u8]) -> Result<String, Fail> {
    said_by(rt, CONFIG, journal)
}

#[test]
fn tells_what_a_run_has_left(rt: HostRuntime) -> Result<(), Fail> {
    let alloc = rt.alloc();
    for (records, wanted) in &RUNS {
        let journal = journal_of(alloc, *records)?;
        let got = said(&rt, journal.as_bytes())?;
        same(&rt, got.as_str(), *wanted);
    }
    Ok(())
}

/// A journal whose first line is truncated has no whole line.
#[test]
fn a_truncated_header_is_cut_off(rt: HostRuntime) -> Result<(), Fail> {
    let alloc = rt.alloc();
    let journal = journal_of(alloc, "")?;
    let length = journal.len().saturating_sub(1);
    let got = said(&rt, &journal.as_bytes()[..length])?;
    let wanted = format!(in alloc; "1,{length},3: 0 1 2, 6")?;
    same(&rt, got.as_str(), wanted.as_str());
    Ok(())
}

/// The first round of the run of a journal that is tied to its config's keys had one worker.
const OF_ONE_WORKER: &str = "begun,5,0\nsent,6,0,1,0,1\nbegun,7,1\nsent,8,0,2,1,1\n";

/// Configs, and what they say of it.
const CONFIGS: [(&str, &str); 4] = [
    ("workers = 1", "1,0,1: 2, 4"),
    (
        "workers = 8\nbinds = 4\nhost = \"centre\"\npassword = \"new\"\nwindow = 9\n",
        "1,0,1: 2, 4",
    ),
    ("attempts = 2", "journal record 1"),
    ("long_reference = true", "journal record 1"),
];

#[test]
fn a_run_of_keys_goes_on_by_another_config(rt: HostRuntime) -> Result<(), Fail> {
    let alloc = rt.alloc();
    let keys = ReportKeys {
        attempts: 3,
        long_reference: false,
        binds: 1,
        workers: 1,
    };
    let digests = digests_of(b"another", ACCOUNTS, MESSAGES, None);
    let files = FileTies { digests, keys };
    let mut journal = head_of(alloc, JournalKind::Run, &files.keyed())?;
    journal.push_str(OF_ONE_WORKER)?;
    for (config, wanted) in &CONFIGS {
        let got = said_by(&rt, config.as_bytes(), journal.as_bytes())?;
        same(&rt, got.as_str(), *wanted);
    }
    Ok(())
}

/// A journal whose messages but the last were begun, and one whose last is charged.
const BEFORE: &str = "begun,5,0\nsent,6,0,1,0,1\nheard,7,0,1,0,0,m1\nbegun,7,1\nsent,8,0,2,1,1\n";

const LATER: &str =
    "refused,1,0,no-credit\nrefused,1,1,no-credit\nbegun,6,2\nsent,6,0,2,2,1\nheard,6,0,2,0,0,m\n";

/// The last of some ends alone.
fn last_of(alloc: Global, ends: Vec<MessageEnd<()>>) -> Result<Vec<MessageEnd<()>>, Fail> {
    let mut ends = ends;
    let mut last = Vec::new(alloc);
    if let Some(end) = ends.pop() {
        last.push(end)?;
    }
    Ok(last)
}

/// What two runs come to, the ends and rows of the second put over those of the first.
fn put_over(alloc: Global, before: JournaledRun, later: JournaledRun) -> Result<String, Fail> {
    let JournaledRun {
        messages,
        ends: mut ends,
        rows: mut rows,
        ..
    } = before;
    let JournaledRun {
        ends: later_ends,
        rows: later_rows,
        ..
    } = later;
    put_ends(&mut ends, last_of(alloc, later_ends)?);
    add_rows(&mut rows, later_rows.as_slice());
    let bare = without_evidence(alloc, ends.as_slice());
    let Ok(bare) = bare else {
        return Err(Fail::from(AllocError));
    };
    let mut text = format!(in alloc; "{}", count_left(bare.as_slice()))?;
    push_numbers(&mut text, copies_of(alloc, messages.as_slice())?.as_slice())?;
    for row in &rows {
        write!(
            text,
            ", {} {} {} {} {}",
            row.topped, row.free, row.reserved, row.charged, row.returned
        )?;
    }
    Ok(text)
}

/// The end of the message that was left is the further round's, and its sums are added.
#[test]
fn a_further_round_is_put_over_those_before(rt: HostRuntime) -> Result<(), Fail> {
    let alloc = rt.alloc();
    let before = read(&rt, journal_of(alloc, BEFORE)?.as_bytes())?;
    let later = read(&rt, journal_of(alloc, LATER)?.as_bytes())?;
    let got = match (before, later) {
        (Ok(before), Ok(later)) => put_over(alloc, before, later)?,
        (Err(fault), _) | (_, Err(fault)) => fault,
    };
    same(&rt, got.as_str(), "0 0 1 2, 6 5 1 2 0");
    Ok(())
}
