//! Quotes, worked out by hand.

use sms_files::{Input, quote_text, read_input, warnings_text};
use std::alloc::{AllocError, Global};
use std::fmt::Debug;
use std::process::Abort;
use std::test::Fail;

// Both are the same. A test that compares by a call has a short proof.
fn same<T: PartialEq + Debug + Drop>(rt: &impl Abort, got: T, wanted: T) {
    assert_eq!(rt; got, wanted);
}

const ACCOUNTS: &str = "account,credits\nbank,10\n\"a,b\",3\n";

const RATES: &str = "prefix,credits\n44,3\n,2\n";

/// Each is quoted with what those before it leave: the second message of `a,b` finds nothing, and the
/// seventh message needs one credit more than there is, but not the eighth.
const MESSAGES: &str = concat!(
    "account,source,destination,text\n",
    "bank,Bank,+447700900123,hi\n",
    "bank,,33,hello\n",
    "nobody,a,33,x\n",
    "bank,a,name,x\n",
    "\"a,b\",1,447,x\n",
    "\"a,b\",1,33,x\n",
    "bank,1,44,1234567890123456789012345678901234567890123456789012345678901234567890123456789012345678901234567890",
    "1234567890123456789012345678901234567890123456789012345678901\n",
    "bank,1,33,x\n"
);

const QUOTE: &str = concat!(
    "message,account,parts,cost,verdict\n",
    "0,bank,1,3,ok\n",
    "1,bank,1,2,ok\n",
    "2,,0,0,no-account\n",
    "3,bank,0,0,bad-address\n",
    "4,\"a,b\",1,3,ok\n",
    "5,\"a,b\",1,2,no-credit\n",
    "6,bank,2,6,no-credit\n",
    "7,bank,1,2,ok\n",
    "account,credits,messages,parts,cost,left\n",
    "bank,10,3,3,7,3\n",
    "\"a,b\",3,1,1,3,0\n"
);

fn input_of(alloc: Global, messages: &str) -> Result<Input, Fail> {
    match read_input(
        alloc,
        b"window = 3",
        ACCOUNTS.as_bytes(),
        messages.as_bytes(),
        Some(RATES.as_bytes()),
    ) {
        Ok(input) => Ok(input),
        Err(_fault) => Err("no input".into()),
    }
}

fn check_quote(rt: &impl Abort, alloc: Global, messages: &str, wanted: &str) -> Result<(), Fail> {
    let input = input_of(alloc, messages)?;
    let text = quote_text(alloc, &input)?;
    same(rt, text.as_str(), wanted);
    Ok(())
}

#[test]
fn messages_are_quoted_in_order(rt: HostRuntime) -> Result<(), Fail> {
    check_quote(&rt, rt.alloc(), MESSAGES, QUOTE)
}

/// A message of 255 full parts, and one of a character more.
fn long_messages(alloc: Global) -> Result<String, AllocError> {
    let mut text = String::from_str(alloc, "account,source,destination,text\nbank,1,33,")?;
    for _ in 0..255 * 153 {
        text.push('a')?;
    }
    text.push_str("\nbank,1,33,")?;
    for _ in 0..255 * 153 + 1 {
        text.push('a')?;
    }
    text.push_str("\n")?;
    Ok(text)
}

#[test]
fn no_header_counts_more_than_255_parts(rt: HostRuntime) -> Result<(), Fail> {
    let alloc = rt.alloc();
    let messages = long_messages(alloc)?;
    check_quote(
        &rt,
        alloc,
        messages.as_str(),
        concat!(
            "message,account,parts,cost,verdict\n",
            "0,bank,255,510,no-credit\n",
            "1,bank,0,0,too-long\n",
            "account,credits,messages,parts,cost,left\n",
            "bank,10,0,0,0,10\n",
            "\"a,b\",3,0,0,0,3\n"
        ),
    )
}

/// Texts, and whether they are warned of: a line feed, and at least three commas behind the first one.
const TEXTS: [(&str, bool); 10] = [
    ("", false),
    ("\n", false),
    (",,,,,", false),
    ("\n,,", false),
    ("\n,,,", true),
    (",,,,\n,,", false),
    ("a\nbank,1,33,x", true),
    ("a\r,b,c,d,e", false),
    (",\n,\n,\n,\n,", true),
    ("Dear all,\nbread, milk, tea", false),
];

/// A messages file of a message that isn't warned of, and one of this text.
fn messages_of(alloc: Global, text: &str) -> Result<String, AllocError> {
    format!(in alloc; "account,source,destination,text\nbank,1,33,x\nbank,1,33,\"{text}\"\n")
}

/// What is warned of where the second message is, and where none is.
fn warning_of(open: bool) -> &'static str {
    if open {
        "warning: message 1: its text has a line end and commas: is a quote left open?\n"
    } else {
        ""
    }
}

fn check_warning(
    rt: &impl Abort,
    alloc: Global,
    text: &str,
    messages: &str,
    open: bool,
) -> Result<(), Fail> {
    let input = input_of(alloc, messages)?;
    let warnings = warnings_text(alloc, &input)?;
    same(rt, (text, warnings.as_str()), (text, warning_of(open)));
    Ok(())
}

#[test]
fn texts_with_records_are_warned_of(rt: HostRuntime) -> Result<(), Fail> {
    let alloc = rt.alloc();
    for (text, open) in &TEXTS {
        let messages = messages_of(alloc, text)?;
        check_warning(&rt, alloc, text, messages.as_str(), *open)?;
    }
    Ok(())
}
