//! Runs of a ledger: what stands before their journals, the accounts that they open, and what they take for them.

use super::same::same;
use sms_book::Opening;
use sms_journal::of_ledger::{
    RunText, accounts_of, are_out, ledger_names, name_of_run, opened_rows, run_head, run_text,
    takings_for,
};
use sms_ledger::{Ledger, Run, write_entry};
use std::alloc::{AllocError, Global};
use std::process::Abort;
use std::test::Fail;

const RUN: &[u8] = b"0123456789abcdef0123456789abcdef";

/// Octets, and what they are: accounts and journal of the run, or a word.
const TEXTS: [(&str, &str, &str); 14] = [
    (
        "run,1,0123456789abcdef0123456789abcdef,7\na,b\n1,2journal,1,x\n",
        "a,b\n1,2",
        "journal,1,x\n",
    ),
    ("run,1,0123456789abcdef0123456789abcdef,0\n", "", ""),
    ("", "cut", ""),
    ("run,", "cut", ""),
    ("run,1,0123456789abcdef", "cut", ""),
    ("run,1,0123456789abcdef0123456789abcdef,7", "cut", ""),
    (
        "run,1,0123456789abcdef0123456789abcdef,7\na,b\n1,",
        "cut",
        "",
    ),
    (
        "run,1,0123456789abcdef0123456789abcdef,07\na,b\n1,2",
        "other",
        "",
    ),
    (
        "run,1,0123456789ABCDEF0123456789ABCDEF,7\na,b\n1,2",
        "other",
        "",
    ),
    (
        "run,1,0123456789abcdef0123456789abcde,7\na,b\n1,2",
        "other",
        "",
    ),
    (
        "run,2,0123456789abcdef0123456789abcdef,7\na,b\n1,2",
        "other",
        "",
    ),
    (
        "run,1,0123456789abcdef0123456789abcdef,7,\na,b\n1,2",
        "other",
        "",
    ),
    ("journal,1,", "other", ""),
    ("rum", "other", ""),
];

/// What was paid, and what another run has out.
const LEDGER: &str = concat!(
    "ledger,1\npaid,1,bank,7,\npaid,1,a%2cb,5,\npaid,1,none,1,\n",
    "taken,1,00000000000000000000000000000001,none,1\n"
);

/// Messages, of which the first account is named again, in an order that isn't the ledger's.
const MESSAGES: &[u8] =
    b"account,source,destination,text\n\"a,b\",1,2,x\nbank,1,2,x\nnew,1,2,x\n\"a,b\",1,2,x\nnone,1,2,x\nbank,1,2,x\n";

// An account that opens with so much.
fn opening(alloc: Global, name: &str, credits: u64) -> Result<Opening, AllocError> {
    Ok(Opening {
        name: String::from_str(alloc, name)?,
        credits,
    })
}

// The run's name.
fn run_named(alloc: Global, text: &[u8]) -> Result<Run, Fail> {
    match Run::read(alloc, text) {
        Ok(Some(run)) => Ok(run),
        _ => Err("no name".into()),
    }
}

// That the octets are read so: accounts and journal of the run, or a word.
fn want_read(
    rt: &(impl AllocGlobal + Abort),
    text: &str,
    accounts: &str,
    journal: &str,
) -> Result<(), Fail> {
    match run_text(rt.alloc(), text.as_bytes()) {
        Ok(RunText::Whole(head)) => {
            same(rt, head.accounts, accounts.as_bytes());
            same(rt, head.journal, journal.as_bytes());
            same(rt, head.run.as_str().as_bytes(), RUN);
            let Ok(written) = run_head(rt.alloc(), &head.run, head.accounts) else {
                return Err("memory".into());
            };
            assert!(rt; text.as_bytes().starts_with(written.as_slice()));
        }
        Ok(RunText::Cut) => same(rt, accounts, "cut"),
        Ok(RunText::Other) => same(rt, accounts, "other"),
        Err(_) => return Err("memory".into()),
    }
    Ok(())
}

/// A head is read as it was written, and one that was truncated is none.
#[test]
fn reads_what_stands_before_a_journal(rt: HostRuntime) -> Result<(), Fail> {
    for (text, accounts, journal) in TEXTS {
        want_read(&rt, text, accounts, journal)?;
    }
    Ok(())
}

/// A run opens the accounts that its messages name and that the ledger has, each once, with what is free.
#[test]
fn opens_what_the_messages_name(rt: HostRuntime) -> Result<(), Fail> {
    let Ok(ledger) = Ledger::read(rt.alloc(), LEDGER.as_bytes()) else {
        return Err("no ledger".into());
    };
    let Ok(accounts) = accounts_of(rt.alloc(), &ledger, MESSAGES) else {
        return Err("memory".into());
    };
    let wanted = b"account,credits\n\"a,b\",5\nbank,7\nnone,0\n".as_slice();
    same(&rt, accounts.as_slice(), wanted);
    let Ok(none) = accounts_of(rt.alloc(), &ledger, b"account,source,destination,text\n") else {
        return Err("memory".into());
    };
    same(&rt, none.as_slice(), b"account,credits\n".as_slice());
    Ok(())
}

/// It takes what they open with, and then that is out with it.
#[test]
fn takes_what_it_opens_with(rt: HostRuntime) -> Result<(), Fail> {
    let alloc = rt.alloc();
    let Ok(mut ledger) = Ledger::read(alloc, LEDGER.as_bytes()) else {
        return Err("no ledger".into());
    };
    let mut openings = Vec::new(alloc);
    openings.push(opening(alloc, "a,b", 5)?)?;
    openings.push(opening(alloc, "none", 0)?)?;
    let run = run_named(alloc, RUN)?;
    let Ok(Some(names)) = ledger_names(alloc, openings.as_slice()) else {
        return Err("no names".into());
    };
    let (names, openings) = (names.as_slice(), openings.as_slice());
    let Ok(entries) = takings_for(alloc, &run, names, openings) else {
        return Err("memory".into());
    };
    let mut text = String::new(alloc);
    for entry in entries.as_slice() {
        assert!(&rt; write_entry(&mut text, 3, entry).is_ok());
    }
    let wanted = "taken,3,0123456789abcdef0123456789abcdef,a%2cb,5\n";
    same(&rt, text.as_str(), wanted);
    assert!(&rt; matches!(are_out(alloc, &ledger, &run, names, openings), Ok(false)));
    assert!(&rt; ledger.post(alloc, 3, entries.as_slice()).is_ok());
    assert!(&rt; matches!(are_out(alloc, &ledger, &run, names, openings), Ok(true)));
    let Ok(rows) = opened_rows(alloc, openings) else {
        return Err("memory".into());
    };
    let Ok(back) = ledger.returns(alloc, &run, names, rows.as_slice()) else {
        return Err("memory".into());
    };
    assert!(&rt; ledger.post(alloc, 4, back.as_slice()).is_ok());
    assert!(&rt; matches!(are_out(alloc, &ledger, &run, names, openings), Ok(false)));
    Ok(())
}

/// An account whose name is too long for a ledger has none there.
#[test]
fn names_accounts_that_fit(rt: HostRuntime) -> Result<(), Fail> {
    let alloc = rt.alloc();
    let long =
        "0123456789abcdef0123456789abcdef0123456789abcdef0123456789abcdef0123456789abcdef0123456789abcdef0123456789abcdef0123456789abcdef0123456789abcdef0123456789abcdef0123456789abcdef0123456789abcdef0";
    for name in ["", long] {
        let mut openings = Vec::new(alloc);
        openings.push(opening(alloc, "bank", 1)?)?;
        openings.push(opening(alloc, name, 0)?)?;
        assert!(&rt; matches!(ledger_names(alloc, openings.as_slice()), Ok(None)));
    }
    Ok(())
}

/// A run's name is of 32 hexadecimal digits, and another with another time, journal or ledger.
#[test]
fn names_runs_apart(rt: HostRuntime) -> Result<(), Fail> {
    let alloc = rt.alloc();
    let mut names = Vec::new(alloc);
    for (time, journal, ledger) in [
        (1u64, b"a".as_slice(), b"ledger,1\n".as_slice()),
        (2, b"a".as_slice(), b"ledger,1\n".as_slice()),
        (1, b"b".as_slice(), b"ledger,1\n".as_slice()),
        (1, b"a".as_slice(), b"".as_slice()),
    ] {
        let Ok(run) = name_of_run(alloc, time, journal, ledger) else {
            return Err("memory".into());
        };
        same(&rt, run.as_str().len(), 32);
        names.push(run)?;
    }
    for place in 1..names.len() {
        assert!(&rt; names[place].as_str() != names[0].as_str());
    }
    Ok(())
}
