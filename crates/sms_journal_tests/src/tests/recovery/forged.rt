//! Journals that no run of these files can have written: each is refused by its first faulty record.

use super::fault_text::fault_text;
use super::head::head_of;
use super::same::same;
use sms_journal::{Digests, JournalKind, digests_of, run_recover};
use std::alloc::{AllocError, Global};
use std::process::Abort;
use std::test::Fail;
use std::thread::Threads;

/// Messages are dealt to four workers, of which two are at each bind.
const CONFIG: &[u8] = b"binds = 2\nworkers = 2\nattempts = 2\n";

const ACCOUNTS: &[u8] = b"account,credits\nmain,100\n";

/// The texts of which the long ones are made: 160 characters.
const LINE: &str = concat!(
    "0123456789012345678901234567890123456789012345678901234567890123456789012345678901234567890123456789",
    "012345678901234567890123456789012345678901234567890123456789",
);

/// Three good messages; one to a bad address, one that is too long, one of no account; a good one of two parts,
/// and a good one.
fn messages_of(alloc: Global) -> Result<String, AllocError> {
    let mut text = String::from_str(alloc, "account,source,destination,text\n")?;
    text.push_str("main,1,+44,hi\nmain,1,+44,ho\nmain,1,+44,hu\nmain,1,abc,hi\nmain,1,+44,")?;
    for _line in 0..250 {
        text.push_str(LINE)?;
    }
    text.push_str("\nnobody,1,+44,hi\nmain,1,+44,x")?;
    text.push_str(LINE)?;
    text.push_str("\nmain,1,+44,hi\n")?;
    Ok(text)
}

/// Records of a journal behind its header, and what is said of them.
const JOURNALS: [(&str, &str); 50] = [
    ("", "0"),
    // A run of all messages, to its end.
    (
        concat!(
            "begun,1,0\nrefused,1,3,bad-address\nsent,1,0,2,0,1\nbegun,1,1\nsent,1,1,3,1,1\nbegun,1,2\n",
            "sent,1,2,2,2,1\nheard,1,2,2,0,0,m1\nbegun,1,6\nheard,1,0,2,88,0,\nsent,1,2,3,6,1\nsent,1,0,4,0,1\n",
            "sent,1,2,4,6,2\nunsent,1,2,4\nheard,1,0,4,88,0,\nheard,1,1,3,11,0,\nrefused,1,5,no-account\n",
            "refused,1,4,too-long\nheard,1,2,3,0,1,\nrefused,1,7,bind-closed\nend,1,0\n",
        ),
        "0",
    ),
    // The run is strict, or a part has no answer.
    (
        concat!(
            "refused,1,0,bind-closed\nrefused,1,1,bind-closed\nrefused,1,2,no-credit\nrefused,1,3,bind-closed\n",
            "refused,1,4,bind-closed\nrefused,1,5,bind-closed\nrefused,1,6,out-of-memory\n",
            "refused,1,7,bind-closed\nend,1,5\n",
        ),
        "0",
    ),
    (
        concat!(
            "begun,1,0\nsent,1,0,2,0,1\nrefused,1,1,bind-closed\nrefused,1,2,bind-closed\nrefused,1,3,bind-closed\n",
            "refused,1,4,out-of-memory\nrefused,1,5,bind-closed\nrefused,1,6,bind-closed\n",
            "refused,1,7,bind-closed\nend,1,4\n",
        ),
        "4",
    ),
    // A message that isn't one, or fails a check, is begun.
    ("begun,1,0\nbegun,1,8\n", "journal record 3"),
    ("begun,1,3\n", "journal record 2"),
    ("begun,1,0\nbegun,1,4\n", "journal record 3"),
    ("begun,1,1\nbegun,1,5\n", "journal record 3"),
    // A message is begun or refused before its turn.
    ("begun,1,6\n", "journal record 2"),
    ("refused,1,4,too-long\n", "journal record 2"),
    // A message is refused for a reason that isn't so.
    ("refused,1,0,no-account\n", "journal record 2"),
    ("refused,1,0,bad-address\n", "journal record 2"),
    ("refused,1,0,too-long\n", "journal record 2"),
    ("refused,1,3,no-account\n", "journal record 2"),
    ("refused,1,3,too-long\n", "journal record 2"),
    ("refused,1,3,no-credit\n", "journal record 2"),
    ("refused,1,3,out-of-memory\n", "journal record 2"),
    ("begun,1,0\nrefused,1,4,no-account\n", "journal record 3"),
    ("begun,1,0\nrefused,1,4,bad-address\n", "journal record 3"),
    ("begun,1,0\nrefused,1,4,no-credit\n", "journal record 3"),
    ("begun,1,1\nrefused,1,5,bad-address\n", "journal record 3"),
    ("begun,1,1\nrefused,1,5,too-long\n", "journal record 3"),
    ("begun,1,1\nrefused,1,5,no-credit\n", "journal record 3"),
    ("begun,1,1\nrefused,1,5,out-of-memory\n", "journal record 3"),
    // A message is refused that was begun, or that isn't one.
    ("begun,1,0\nrefused,1,0,bind-closed\n", "journal record 3"),
    (
        "refused,1,0,bind-closed\nrefused,1,0,bind-closed\n",
        "journal record 3",
    ),
    ("refused,1,9,bind-closed\n", "journal record 2"),
    // A worker that isn't one, or that the message wasn't dealt to.
    ("begun,1,0\nsent,1,4,2,0,1\n", "journal record 3"),
    ("begun,1,0\nsent,1,1,2,0,1\n", "journal record 3"),
    ("begun,1,2\nsent,1,0,2,2,1\n", "journal record 3"),
    // A number that isn't one, that isn't above the worker's last, or that another worker of the bind used.
    ("begun,1,0\nsent,1,0,0,0,1\n", "journal record 3"),
    ("begun,1,0\nsent,1,0,2147483648,0,1\n", "journal record 3"),
    (
        "begun,1,2\nsent,1,2,3,2,1\nbegun,1,6\nsent,1,2,3,6,1\n",
        "journal record 5",
    ),
    (
        "begun,1,2\nsent,1,2,3,2,1\nbegun,1,6\nsent,1,2,2,6,1\n",
        "journal record 5",
    ),
    (
        "begun,1,0\nbegun,1,1\nsent,1,0,2,0,1\nsent,1,1,2,1,1\n",
        "journal record 5",
    ),
    (
        "begun,1,0\nbegun,1,1\nsent,1,1,7,1,1\nsent,1,0,7,0,1\n",
        "journal record 5",
    ),
    // A part that isn't one.
    ("begun,1,0\nsent,1,0,2,0,0\n", "journal record 3"),
    ("begun,1,0\nsent,1,0,2,0,2\n", "journal record 3"),
    // A part is sent again: while it is open, behind an answer that allows no other attempt, unsent, or once too often.
    (
        "begun,1,0\nsent,1,0,2,0,1\nsent,1,0,3,0,1\n",
        "journal record 4",
    ),
    (
        "begun,1,0\nsent,1,0,2,0,1\nheard,1,0,2,0,0,m\nsent,1,0,3,0,1\n",
        "journal record 5",
    ),
    (
        "begun,1,0\nsent,1,0,2,0,1\nheard,1,0,2,88,1,\nsent,1,0,3,0,1\n",
        "journal record 5",
    ),
    (
        "begun,1,0\nsent,1,0,2,0,1\nheard,1,0,2,11,0,\nsent,1,0,3,0,1\n",
        "journal record 5",
    ),
    (
        "begun,1,0\nsent,1,0,2,0,1\nunsent,1,0,2\nsent,1,0,3,0,1\n",
        "journal record 5",
    ),
    (
        concat!(
            "begun,1,0\nsent,1,0,2,0,1\nheard,1,0,2,88,0,\nsent,1,0,3,0,1\nheard,1,0,3,20,0,\n",
            "sent,1,0,4,0,1\nheard,1,0,4,0,0,m\n",
        ),
        "journal record 7",
    ),
    // An answer to another worker's request, and a second one.
    (
        "begun,1,0\nsent,1,0,2,0,1\nheard,1,2,2,0,0,m\n",
        "journal record 4",
    ),
    (
        "begun,1,0\nsent,1,0,2,0,1\nheard,1,0,2,0,0,m\nunsent,1,0,2\n",
        "journal record 5",
    ),
    // The end, before each message was begun or refused.
    ("end,1,0\n", "journal record 2"),
    (
        "begun,1,0\nsent,1,0,2,0,1\nheard,1,0,2,0,0,m\nend,1,0\n",
        "journal record 5",
    ),
    // A status that isn't that of the ends, and a note behind the end.
    (
        concat!(
            "begun,1,0\nsent,1,0,2,0,1\nrefused,1,1,bind-closed\nrefused,1,2,bind-closed\nrefused,1,3,bind-closed\n",
            "refused,1,4,bind-closed\nrefused,1,5,bind-closed\nrefused,1,6,bind-closed\n",
            "refused,1,7,bind-closed\nend,1,0\n",
        ),
        "journal record 11",
    ),
    (
        concat!(
            "begun,1,0\nsent,1,0,2,0,1\nrefused,1,1,bind-closed\nrefused,1,2,bind-closed\nrefused,1,3,bind-closed\n",
            "refused,1,4,bind-closed\nrefused,1,5,bind-closed\nrefused,1,6,bind-closed\n",
            "refused,1,7,bind-closed\nend,1,4\nheard,1,0,2,0,0,m\n",
        ),
        "journal record 12",
    ),
];

/// Records of journals of several rounds, and what is said of them.
const ROUNDS: [(&str, &str); 27] = [
    // A number that was used before, and what was refused for a lost bind, are new in the next round.
    (
        "begun,1,0\nsent,1,0,2,0,1\nround,1,2,1,1\nbegun,1,1\nsent,1,0,2,1,1\nheard,1,0,2,0,0,m\n",
        "4",
    ),
    ("refused,1,0,bind-closed\nround,1,2,1,1\nbegun,1,0\n", "0"),
    // Messages are dealt by their places among those that were left.
    (
        "begun,1,0\nround,1,2,1,2\nbegun,1,2\nsent,1,1,2,2,1\nbegun,1,1\nsent,1,0,1,1,1\n",
        "4",
    ),
    (
        "begun,1,0\nround,1,2,1,2\nbegun,1,1\nsent,1,1,1,1,1\n",
        "journal record 5",
    ),
    ("begun,1,0\nround,1,2,1,2\nbegun,1,3\n", "journal record 4"),
    ("begun,1,0\nround,1,2,1,1\nbegun,1,2\n", "journal record 4"),
    // No message is begun twice, or sent, or answered, in a round that didn't begin it.
    ("begun,1,0\nround,1,2,1,1\nbegun,1,0\n", "journal record 4"),
    (
        "begun,1,0\nround,1,2,1,1\nrefused,1,0,bind-closed\n",
        "journal record 4",
    ),
    (
        "begun,1,0\nround,1,2,1,1\nsent,1,0,2,0,1\n",
        "journal record 4",
    ),
    (
        "begun,1,0\nsent,1,0,2,0,1\nround,1,2,1,1\nheard,1,0,2,0,0,m\n",
        "journal record 5",
    ),
    (
        "begun,1,0\nsent,1,0,2,0,1\nround,1,2,1,1\nunsent,1,0,2\n",
        "journal record 5",
    ),
    (
        "begun,1,1\nrefused,1,5,no-account\nround,1,2,1,1\nrefused,1,5,no-account\n",
        "journal record 5",
    ),
    // Rounds are counted, and have as many binds and workers as a config can ask for.
    ("round,1,2,4,8\nround,1,3,1,1\n", "0"),
    ("round,1,1,1,1\n", "journal record 2"),
    ("round,1,3,1,1\n", "journal record 2"),
    ("round,1,2,1,1\nround,1,2,1,1\n", "journal record 3"),
    ("round,1,2,0,1\n", "journal record 2"),
    ("round,1,2,1,0\n", "journal record 2"),
    ("round,1,2,5,1\n", "journal record 2"),
    ("round,1,2,1,9\n", "journal record 2"),
    ("round,1,2,1\n", "journal record 2"),
    // The end of the run is by all its rounds.
    ("begun,1,0\nsent,1,0,2,0,1\nround,1,2,1,1\nend,1,4\n", "4"),
    (
        "begun,1,0\nsent,1,0,2,0,1\nround,1,2,1,1\nend,1,0\n",
        "journal record 5",
    ),
    (
        "begun,1,0\nround,1,2,1,1\nend,1,0\nround,1,3,1,1\nbegun,1,1\n",
        "0",
    ),
    (
        "begun,1,0\nround,1,2,1,1\nend,1,0\nbegun,1,1\n",
        "journal record 5",
    ),
    (
        "begun,1,0\nround,1,2,1,1\nbegun,1,1\nend,1,0\n",
        "journal record 5",
    ),
    ("end,1,0\n", "journal record 2"),
];

/// The status of what is recovered of a journal with these records, or the fault.
fn said(
    rt: &(impl AllocGlobal + Threads),
    messages: &[u8],
    digests: &Digests,
    records: &str,
) -> Result<String, Fail> {
    let alloc = rt.alloc();
    let mut journal = head_of(alloc, JournalKind::Run, digests)?;
    journal.push_str(records)?;
    let mut out = Vec::new(alloc);
    match run_recover(
        rt,
        CONFIG,
        ACCOUNTS,
        messages,
        None,
        journal.as_bytes(),
        false,
        &mut out,
    ) {
        Ok(recovered) => {
            let status = recovered.status;
            Ok(format!(in alloc; "{status}")?)
        }
        Err(fault) => fault_text(alloc, fault),
    }
}

fn check_journals(
    rt: &(impl AllocGlobal + Abort + Threads),
    journals: &[(&str, &str)],
) -> Result<(), Fail> {
    let messages = messages_of(rt.alloc())?;
    let digests = digests_of(CONFIG, ACCOUNTS, messages.as_bytes(), None);
    for (records, wanted) in journals {
        let got = said(rt, messages.as_bytes(), &digests, *records)?;
        same(rt, got.as_str(), *wanted);
    }
    Ok(())
}

#[test]
fn a_journal_that_no_run_wrote_is_refused(rt: HostRuntime) -> Result<(), Fail> {
    check_journals(&rt, JOURNALS.as_slice())
}

#[test]
fn rounds_that_no_run_had_are_refused(rt: HostRuntime) -> Result<(), Fail> {
    check_journals(&rt, ROUNDS.as_slice())
}
