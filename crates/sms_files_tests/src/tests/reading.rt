//! Accounts and messages files: names in quotes, and where reading ends.

use super::broken::FailingInput;
use super::same::same;
use super::told::told_of;
use sms_book::Opening;
use sms_files::{InputFault, read_accounts, read_messages};
use sms_worker::Message;
use std::alloc::Global;
use std::process::Abort;
use std::test::Fail;

const ACCOUNTS: &[u8] =
    b"\"account\",credits\r\n\"a \"\"b\"\", c\",007\r\n\r\n,0\n\"two\nlines\",1099511627776";

const MESSAGES: &[u8] =
    b"account,source,destination,text\n\"two\nlines\",ab,1,\"x, \"\"y\"\"\"\n,c,2,\nnobody,d,3,z\n";

// The text of the fault, or that there is none.
fn told<T: Drop>(alloc: Global, read: Result<T, InputFault>) -> Result<String, Fail> {
    match read {
        Ok(_) => Ok(String::from_str(alloc, "no fault")?),
        Err(fault) => told_of(alloc, fault),
    }
}

// The accounts of the file.
fn openings(rt: &(impl AllocGlobal + Abort)) -> Vec<Opening> {
    let Ok(openings) = read_accounts(rt.alloc(), ACCOUNTS) else {
        panic!(rt; "the accounts are refused")
    };
    openings
}

// The messages of the file, of these accounts.
fn messages(rt: &(impl AllocGlobal + Abort), openings: &[Opening]) -> Vec<Message> {
    let Ok(messages) = read_messages(rt.alloc(), MESSAGES, openings) else {
        panic!(rt; "the messages are refused")
    };
    messages
}

fn want_opening(rt: &impl Abort, opening: &Opening, name: &str, credits: u64) {
    same(rt, opening.name.as_str(), name);
    same(rt, opening.credits, credits);
}

fn want_message(rt: &impl Abort, message: &Message, index: u64, account: Option<usize>) {
    same(rt, message.index, index);
    same(rt, message.account, account);
}

fn want_texts(rt: &impl Abort, message: &Message, source: &str, dest: &str, text: &str) {
    same(rt, message.source.as_str(), source);
    same(rt, message.dest.as_str(), dest);
    same(rt, message.text.as_str(), text);
}

#[test]
fn reads_accounts_in_quotes(rt: HostRuntime) {
    let openings = openings(&rt);
    assert!(rt; openings.len() == 3);
    want_opening(&rt, &openings[0], "a \"b\", c", 7);
    want_opening(&rt, &openings[1], "", 0);
    want_opening(&rt, &openings[2], "two\nlines", 1_099_511_627_776);
}

#[test]
fn reads_messages_in_quotes(rt: HostRuntime) {
    let openings = openings(&rt);
    let messages = messages(&rt, openings.as_slice());
    assert!(rt; messages.len() == 3);
    want_message(&rt, &messages[0], 0, Some(2));
    want_message(&rt, &messages[1], 1, Some(1));
    want_message(&rt, &messages[2], 2, None);
    want_texts(&rt, &messages[0], "ab", "1", "x, \"y\"");
    want_texts(&rt, &messages[1], "c", "2", "");
    want_texts(&rt, &messages[2], "d", "3", "z");
}

#[test]
fn tells_a_device_that_fails_at_each_octet(rt: HostRuntime) -> Result<(), Fail> {
    let alloc = rt.alloc();
    for given in 0..ACCOUNTS.len() + 1 {
        let left = &ACCOUNTS[..given];
        let fault = told(alloc, read_accounts(alloc, FailingInput { left }))?;
        same(&rt, fault.as_str(), "file accounts");
    }
    for given in 0..MESSAGES.len() + 1 {
        let left = &MESSAGES[..given];
        let fault = told(alloc, read_messages(alloc, FailingInput { left }, &[]))?;
        same(&rt, fault.as_str(), "file messages");
    }
    Ok(())
}

/// Behind a faulty record nothing more is read: the device fails there.
#[test]
fn reads_no_further(rt: HostRuntime) -> Result<(), Fail> {
    let alloc = rt.alloc();
    let accounts: [(&[u8], &str); 5] = [
        (b"account,credit\n", "accounts record 1"),
        (b"account,credits\n", "file accounts"),
        (b"account,credits\na,\n", "accounts record 2"),
        (b"account,credits\na,1\na,2\n", "accounts record 3"),
        (b"account,credits\na,1\nA,2\n", "file accounts"),
    ];
    for (left, wanted) in accounts {
        let fault = told(alloc, read_accounts(alloc, FailingInput { left }))?;
        same(&rt, fault.as_str(), wanted);
    }
    let messages: [(&[u8], &str); 4] = [
        (b"account,source,text,destination\n", "messages record 1"),
        (b"account,source,destination,text\n", "file messages"),
        (
            b"account,source,destination,text\na,b,c\n",
            "messages record 2",
        ),
        (
            b"account,source,destination,text\na,b,c,d\na,b,c,\xff\n",
            "messages record 3",
        ),
    ];
    for (left, wanted) in messages {
        let fault = told(alloc, read_messages(alloc, FailingInput { left }, &[]))?;
        same(&rt, fault.as_str(), wanted);
    }
    Ok(())
}
