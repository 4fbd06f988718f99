//! The files that the sender reads, and the first fault of those that are none.

use super::broken::FailingInput;
use super::same::same;
use super::told::told_of;
use sms_files::{Input, InputFault, Source, read_input};
use sms_worker::Message;
use std::alloc::{AllocError, Global};
use std::fmt::Write;
use std::process::Abort;
use std::test::Fail;

const ACCOUNTS: &str = "account,credits\nmain,3\n\"a,b\",1099511627776\n";

const MESSAGES: &str =
    "account,source,destination,text\n\"a,b\",1,2,x\nmain,,+44,\nnobody,a,b,\u{436}\n";

const RATES: &str = "prefix,credits\n44,3\n4477,5\n,2\n";

// What the files say, or the text of the fault.
fn said(
    alloc: Global,
    accounts: &[u8],
    messages: &[u8],
    tariff: Option<&[u8]>,
) -> Result<String, Fail> {
    match read_input(alloc, b"window = 3", accounts, messages, tariff) {
        Ok(input) => Ok(shown(alloc, &input)?),
        Err(fault) => told_of(alloc, fault),
    }
}

// Writes a message: its index, its account's place or none, its addresses and its text.
fn show_message(text: &mut String, message: &Message) -> Result<(), AllocError> {
    match message.account {
        Some(account) => write!(text, " / {} {account}", message.index)?,
        None => write!(text, " / {} none", message.index)?,
    }
    write!(
        text,
        " {} {} {}",
        message.source, message.dest, message.text
    )
}

// The accounts, the messages, and what three destinations cost.
fn shown(alloc: Global, input: &Input) -> Result<String, AllocError> {
    let mut text = String::new(alloc);
    write!(text, "window {}", input.config().limits.window)?;
    for opening in input.openings() {
        write!(text, " / {} {}", opening.name, opening.credits)?;
    }
    for message in input.messages() {
        show_message(&mut text, message)?;
    }
    for destination in ["+447700900123", "4420", "33"] {
        write!(text, " / {}", input.tariff().cost(destination))?;
    }
    Ok(text)
}

#[test]
fn reads_the_files_of_a_run(rt: HostRuntime) -> Result<(), Fail> {
    let alloc = rt.alloc();
    let accounts = ACCOUNTS.as_bytes();
    let messages = MESSAGES.as_bytes();
    let read = "window 3 / main 3 / a,b 1099511627776 / 0 1 1 2 x / 1 0  +44  / 2 none a b \u{436}";
    let plain = said(alloc, accounts, messages, None)?;
    same(
        &rt,
        plain.as_str(),
        format!(in alloc; "{read} / 1 / 1 / 1")?.as_str(),
    );
    let rated = said(alloc, accounts, messages, Some(RATES.as_bytes()))?;
    same(
        &rt,
        rated.as_str(),
        format!(in alloc; "{read} / 5 / 3 / 2")?.as_str(),
    );
    Ok(())
}

/// Files, each with the fault that is told of it.
type Faulty = (&'static [u8], &'static str);

const FAULTY_ACCOUNTS: [Faulty; 11] = [
    (b"", "accounts record 1"),
    (b"account\nmain,1\n", "accounts record 1"),
    (b"account,credits\n", "accounts record 2"),
    (b"account,credits\nmain\n", "accounts record 2"),
    (b"account,credits\nmain,1,2\n", "accounts record 2"),
    (b"account,credits\nmain,-1\n", "accounts record 2"),
    (b"account,credits\nmain,1\nmain,2\n", "accounts record 3"),
    (
        b"account,credits\na,1\nb,1\na,x\nc,y\n",
        "accounts record 4",
    ),
    (b"account,credits\na,1\na,1\nc,y\n", "accounts record 3"),
    (
        b"account,credits\nmain,1099511627777\n",
        "accounts record 2",
    ),
    (b"account,credits\nm\xff,1\n", "accounts record 2"),
];

const FAULTY_MESSAGES: [Faulty; 3] = [
    (b"", "messages record 1"),
    (b"account,source,destination\n", "messages record 1"),
    (
        b"account,source,destination,text\na,b,c,d\na,b,c\n",
        "messages record 3",
    ),
];

const FAULTY_RATES: [Faulty; 9] = [
    (b"", "tariff record 1"),
    (b"credits,prefix\n", "tariff record 1"),
    (b"prefix,credits\n44\n", "tariff record 2"),
    (b"prefix,credits\n44,3\n44,3\n", "tariff record 3"),
    (b"prefix,credits\n4a,3\n", "tariff record 2"),
    (b"prefix,credits\n44,0\n", "tariff record 2"),
    (b"prefix,credits\n44,1001\n", "tariff record 2"),
    (
        b"prefix,credits\n44,3\n123456789012345678901,3\n",
        "tariff record 3",
    ),
    (b"prefix,credits\n4a,1\n44,x\n", "tariff record 3"),
];

// That these files are refused with this fault.
fn want_refused(
    rt: &(impl AllocGlobal + Abort),
    accounts: &[u8],
    messages: &[u8],
    tariff: Option<&[u8]>,
    wanted: &str,
) {
    match said(rt.alloc(), accounts, messages, tariff) {
        Ok(told) => same(rt, told.as_str(), wanted),
        Err(_) => panic!(rt; "no memory"),
    }
}

#[test]
fn names_the_first_faulty_record(rt: HostRuntime) {
    for (file, wanted) in &FAULTY_ACCOUNTS {
        want_refused(&rt, file, b"", None, wanted);
    }
    let accounts = ACCOUNTS.as_bytes();
    for (file, wanted) in &FAULTY_MESSAGES {
        want_refused(&rt, accounts, file, Some(b""), wanted);
    }
    for (file, wanted) in &FAULTY_RATES {
        want_refused(&rt, accounts, MESSAGES.as_bytes(), Some(*file), wanted);
    }
}

// A file of a header and so many records, each with its number.
fn numbered(alloc: Global, header: &str, count: usize, rest: &str) -> Result<String, AllocError> {
    let mut file = String::from_str(alloc, header)?;
    for number in 0..count {
        file.push_str(format!(in alloc; "{number}{rest}\n")?.as_str())?;
    }
    Ok(file)
}

#[test]
fn takes_so_many_records_and_no_more(rt: HostRuntime) -> Result<(), Fail> {
    let alloc = rt.alloc();
    let messages = MESSAGES.as_bytes();
    for (count, good) in [(64, true), (65, false)] {
        let file = numbered(alloc, "account,credits\n", count, ",1")?;
        let told = said(alloc, file.as_bytes(), messages, None)?;
        same(&rt, told.as_str() == "accounts record 66", !good);
    }
    for (count, good) in [(1_000, true), (1_001, false)] {
        let file = numbered(alloc, "prefix,credits\n", count, ",1")?;
        let told = said(alloc, ACCOUNTS.as_bytes(), messages, Some(file.as_bytes()))?;
        same(&rt, told.as_str() == "tariff record 1002", !good);
    }
    Ok(())
}

// What is told of these inputs.
fn told(
    alloc: Global,
    config: &[u8],
    accounts: &[u8],
    messages: &[u8],
    tariff: Option<&[u8]>,
) -> Result<String, Fail> {
    match read_input(alloc, config, accounts, messages, tariff) {
        Ok(_) => Ok(String::from_str(alloc, "none")?),
        Err(fault) => told_of(alloc, fault),
    }
}

// Each input is faulty, and then one after the other is mended, in the order in which they are told.
#[test]
fn tells_the_first_fault_of_all_inputs(rt: HostRuntime) -> Result<(), Fail> {
    let alloc = rt.alloc();
    let accounts = ACCOUNTS.as_bytes();
    let messages = MESSAGES.as_bytes();
    let rates = RATES.as_bytes();
    let rows: [(&[u8], &[u8], &[u8], Option<&[u8]>, &str); 8] = [
        (b"port = 0", b"", b"", Some(b""), "config port"),
        (b"port = ", b"", b"", Some(b""), "config"),
        (b"", b"", b"", Some(b""), "accounts record 1"),
        (b"", accounts, b"", Some(b""), "messages record 1"),
        (b"", accounts, messages, Some(b""), "tariff record 1"),
        (b"", accounts, messages, Some(rates), "none"),
        (b"", accounts, messages, None, "none"),
        (b"", b"", messages, None, "accounts record 1"),
    ];
    for (config, accounts, messages, tariff, wanted) in rows {
        let fault = told(alloc, config, accounts, messages, tariff)?;
        same(&rt, fault.as_str(), wanted);
    }
    Ok(())
}

// An input of all three files.
fn rated(rt: &(impl AllocGlobal + Abort)) -> Input {
    match read_input(
        rt.alloc(),
        b"depth = 2",
        ACCOUNTS.as_bytes(),
        MESSAGES.as_bytes(),
        Some(RATES.as_bytes()),
    ) {
        Ok(input) => input,
        Err(_) => panic!(rt; "the input is refused"),
    }
}

// The parts of an input are those that it shows.
#[test]
fn gives_its_parts(rt: HostRuntime) {
    let (config, openings, messages, tariff) = rated(&rt).into_parts();
    same(&rt, config.limits.depth, 2);
    same(&rt, openings.len(), 2);
    same(&rt, messages.len(), 3);
    same(&rt, tariff.cost("4420"), 3);
}

// The fault says that this source can't be read.
fn is_unread(fault: &Option<InputFault>, source: Source) -> bool {
    match fault {
        Some(InputFault::Unreadable(failed, _)) => *failed == source,
        _ => false,
    }
}

#[test]
fn tells_a_file_that_fails(rt: HostRuntime) {
    let alloc = rt.alloc();
    let accounts = ACCOUNTS.as_bytes();
    let messages = MESSAGES.as_bytes();
    let none = None::<&[u8]>;
    let left = b"account";
    let fault = read_input(alloc, b"", FailingInput { left }, messages, none).err();
    assert!(rt; is_unread(&fault, Source::Accounts));
    let left = b"account,source,destination,text\na,";
    let fault = read_input(alloc, b"", accounts, FailingInput { left }, none).err();
    assert!(rt; is_unread(&fault, Source::Messages));
    let left = b"prefix,credits\n44";
    let file = Some(FailingInput { left });
    let fault = read_input(alloc, b"", accounts, messages, file).err();
    assert!(rt; is_unread(&fault, Source::Tariff));
}
