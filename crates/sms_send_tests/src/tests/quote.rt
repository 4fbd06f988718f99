//! Quotes of files, worked out by hand, what is warned of, and the faults.

use super::broken::{FailingInput, FailingOutput};
use super::same::same;
use super::told::told_of;
use sms_files::Source;
use sms_send::{Fault, run_quote};
use std::alloc::Global;
use std::process::Abort;
use std::test::Fail;

/// The files of a quote.
#[derive(Clone, Copy)]
struct Files<'a> {
    config: &'a str,
    accounts: &'a str,
    messages: &'a str,
    tariff: Option<&'a str>,
}

/// What is printed, or the text of the fault; and what is warned of.
#[derive(Drop)]
struct Quoted {
    printed: Vec<u8>,
    warned: Vec<u8>,
}

const FILES: Files<'static> = Files {
    config: "",
    accounts: "account,credits\nmain,5\n",
    messages: "account,source,destination,text\nmain,1,447,Hi\n",
    tariff: Some("prefix,credits\n44,3\n,1\n"),
};

const QUOTE: &str =
    "message,account,parts,cost,verdict\n0,main,1,3,ok\naccount,credits,messages,parts,cost,left\nmain,5,1,1,3,2\n";

fn outcome_of(rt: &impl Abort, alloc: Global, files: Files<'_>) -> Result<Quoted, Fail> {
    let mut printed = Vec::new(alloc);
    let mut warned = Vec::new(alloc);
    let done = run_quote(
        alloc,
        files.config.as_bytes(),
        files.accounts.as_bytes(),
        files.messages.as_bytes(),
        files.tariff.map(|file| file.as_bytes()),
        &mut printed,
        &mut warned,
    );
    match done {
        Ok(status) => same(rt, status, 0),
        Err(fault) => {
            assert!(rt; printed.is_empty() && warned.is_empty());
            same(rt, fault.exit_status(), 1);
            let text = told_of(alloc, fault)?;
            printed.extend_from_slice(text.as_bytes())?;
        }
    }
    Ok(Quoted { printed, warned })
}

// That this is printed of the files, and warned of.
fn want_quote(
    rt: &(impl AllocGlobal + Abort),
    files: Files<'_>,
    printed: &str,
    warned: &str,
) -> Result<(), Fail> {
    let got = outcome_of(rt, rt.alloc(), files)?;
    same(rt, got.printed.as_slice(), printed.as_bytes());
    same(rt, got.warned.as_slice(), warned.as_bytes());
    Ok(())
}

#[test]
fn quotes_files(rt: HostRuntime) -> Result<(), Fail> {
    want_quote(&rt, FILES, QUOTE, "")?;
    let plain = Files {
        tariff: None,
        ..FILES
    };
    want_quote(
        &rt,
        plain,
        "message,account,parts,cost,verdict\n0,main,1,1,ok\naccount,credits,messages,parts,cost,left\nmain,5,1,1,1,4\n",
        "",
    )
}

/// A quote is left open in message 1, which takes the records behind it.
#[test]
fn warns_of_records_in_a_text(rt: HostRuntime) -> Result<(), Fail> {
    let open = Files {
        messages: "account,source,destination,text\nmain,1,2,Hi\nmain,1,2,\"Ho\nmain,1,2,Ha\nmain,1,2,He\n",
        ..FILES
    };
    want_quote(
        &rt,
        open,
        "message,account,parts,cost,verdict\n0,main,1,1,ok\n1,main,1,1,ok\naccount,credits,messages,parts,cost,left\nmain,5,2,2,2,3\n",
        "warning: message 1: its text has a line end and commas: is a quote left open?\n",
    )
}

#[test]
fn names_the_first_fault(rt: HostRuntime) -> Result<(), Fail> {
    let config = Files {
        config: "binds = 0",
        accounts: "",
        ..FILES
    };
    want_quote(&rt, config, "fault: config binds", "")?;
    let accounts = Files {
        accounts: "account,credits\n",
        messages: "",
        ..FILES
    };
    want_quote(&rt, accounts, "fault: accounts record 2", "")?;
    let messages = Files {
        messages: "account,source,destination,text\nmain\n",
        tariff: Some(""),
        ..FILES
    };
    want_quote(&rt, messages, "fault: messages record 2", "")?;
    let tariff = Files {
        tariff: Some("prefix,credits\n44,0\n"),
        ..FILES
    };
    want_quote(&rt, tariff, "fault: tariff record 2", "")
}

// A messages file with a text that is warned of.
const WARNED: &[u8] = b"account,source,destination,text\nmain,1,2,\"a\n,,,,\"\n";

// Its quote.
const WARNED_QUOTE: &str =
    "message,account,parts,cost,verdict\n0,main,1,1,ok\naccount,credits,messages,parts,cost,left\nmain,5,1,1,1,4\n";

// That a quote fails with the output where one of the two takes so many octets.
fn want_broken_writers(rt: &(impl AllocGlobal + Abort), output: usize, error: usize) {
    let no_tariff: Option<&[u8]> = None;
    let done = run_quote(
        rt.alloc(),
        b"",
        FILES.accounts.as_bytes(),
        WARNED,
        no_tariff,
        &mut FailingOutput { room: output },
        &mut FailingOutput { room: error },
    );
    match done {
        Err(Fault::Output(_)) => {}
        _ => panic!(rt; "a broken writer"),
    }
}

// That a quote whose messages fail behind these octets is refused with this fault.
fn want_broken_reader(rt: &(impl AllocGlobal + Abort), left: &[u8]) {
    let alloc = rt.alloc();
    let no_tariff: Option<&[u8]> = None;
    let done = run_quote(
        alloc,
        b"",
        FILES.accounts.as_bytes(),
        FailingInput { left },
        no_tariff,
        &mut Vec::new(alloc),
        &mut Vec::new(alloc),
    );
    match done {
        Err(Fault::Unreadable(Source::Messages, _)) => {}
        _ => panic!(rt; "a broken reader"),
    }
}

// That a quote fails with the output where its warnings can't be reported, once all of it stands.
fn want_untold(rt: &(impl AllocGlobal + Abort), room: usize) {
    let no_tariff: Option<&[u8]> = None;
    let mut printed = Vec::new(rt.alloc());
    let done = run_quote(
        rt.alloc(),
        b"",
        FILES.accounts.as_bytes(),
        WARNED,
        no_tariff,
        &mut printed,
        &mut FailingOutput { room },
    );
    match done {
        Err(Fault::Output(_)) => same(rt, printed.as_slice(), WARNED_QUOTE.as_bytes()),
        _ => panic!(rt; "a broken writer"),
    }
}

#[test]
fn tells_what_failed(rt: HostRuntime) {
    for room in [0, 10, 1000] {
        want_broken_writers(&rt, room, 1000);
        want_untold(&rt, room);
    }
    for given in [0, 5, 40] {
        want_broken_reader(&rt, &WARNED[..given]);
    }
}
