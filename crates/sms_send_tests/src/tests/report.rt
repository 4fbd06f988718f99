//! What is written to standard error of a fault: its line, and the detail lines after it.

use super::broken::FailingOutput;
use super::jobs::{SCHEDULE, replay_fault};
use super::same::same;
use sms_devices::{JournalFailure, Screen};
use sms_driver::{BindFailure, SendFault};
use sms_files::memory::{NoMemory, list_for};
use sms_files::{ConfigValue, Flaw, RecordFlaw, Source};
use sms_send::{
    Address, ArgumentError, Fault, FaultContext, FaultReport, FullNames, JobKind, NumberOption,
    TakesLines, tell,
};
use std::alloc::{AllocError, Global};
use std::fmt::Display;
use std::io::{self, ErrorKind};
use std::process::Abort;
use std::test::Fail;

/// What was written to a standard error.
#[derive(Drop)]
struct Written {
    alloc: Global,
    text: String,
}

impl TakesLines for Written {
    fn tell_lines<T: Display>(&mut self, lines: &T) -> io::Result<()> {
        self.text = lines.to_string(self.alloc)?;
        Ok(())
    }
}

// What is known of a sending with a journal whose arguments ask for details.
fn context_of(alloc: Global, kind: JobKind) -> Result<FaultContext, AllocError> {
    let mut context = FaultContext::new();
    context.verbose = true;
    context.job.kind = kind;
    context.job.names.config = Some(String::from_str(alloc, "c.toml")?);
    context.job.names.accounts = Some(String::from_str(alloc, "a\n.csv")?);
    context.job.names.journal = Some(String::from_str(alloc, "j.csv")?);
    context.job.centre = Some(Address {
        host: String::from_str(alloc, "smsc")?,
        port: 2775,
    });
    Ok(context)
}

// That a fault of a job of this kind is written so.
pub fn want_of(
    rt: &(impl AllocGlobal + FullNames + Screen + Abort),
    kind: JobKind,
    fault: &Fault,
    wanted: &str,
) -> Result<(), Fail> {
    let alloc = rt.alloc();
    let context = context_of(alloc, kind)?;
    let mut output = Vec::new(alloc);
    let mut error = Written {
        alloc,
        text: String::new(alloc),
    };
    assert!(rt; tell(rt, fault, &context, &mut output, &mut error).is_ok());
    same(rt, error.text.as_str(), wanted);
    assert!(rt; output.is_empty());
    Ok(())
}

// The same of a sending.
pub fn want(
    rt: &(impl AllocGlobal + FullNames + Screen + Abort),
    fault: &Fault,
    wanted: &str,
) -> Result<(), Fail> {
    want_of(rt, JobKind::Send, fault, wanted)
}

// The fault of an output that fails at once.
pub fn output_fault(rt: &(impl AllocGlobal + Abort)) -> Fault {
    match replay_fault(rt.alloc(), SCHEDULE, &mut FailingOutput { room: 0 }) {
        Some(fault) => fault,
        None => panic!(rt; "no fault"),
    }
}

// The evidence that memory was refused: for a list of more octets than there are addresses.
fn refused_memory(rt: &(impl AllocGlobal + Abort)) -> NoMemory {
    let refused: Result<Vec<[u8; 1 << 60]>, NoMemory> = list_for(rt.alloc(), &[0u8; 64]);
    match refused {
        Ok(_list) => panic!(rt; "memory was given"),
        Err(refused) => refused,
    }
}

/// Without details the line stands alone, and each line of the details is two columns in.
#[test]
fn indents_details(rt: HostRuntime) -> Result<(), Fail> {
    for (details, wanted) in [
        ("", "fault: journal\n"),
        ("one", "fault: journal\n  one\n"),
        (
            "\x1b\n\nfault: words",
            "fault: journal\n  \\x1b\n  \n  fault: words\n",
        ),
    ] {
        let report = FaultReport {
            fault: &Fault::JournalHeld,
            details,
        };
        same(&rt, report.to_string(rt.alloc())?.as_str(), wanted);
    }
    Ok(())
}

#[test]
fn says_which_argument_is_wrong(rt: HostRuntime) -> Result<(), Fail> {
    let message = String::from_str(rt.alloc(), "error: 1\n  try 2")?;
    want(
        &rt,
        &Fault::Words(ArgumentError::Parser(message)),
        "fault: words\n  error: 1\n    try 2\n",
    )?;
    want(
        &rt,
        &Fault::Words(ArgumentError::Number(NumberOption::StopAfter)),
        "fault: words\n  --stop-after takes a whole number from 1 to 1000000\n",
    )?;
    want(
        &rt,
        &Fault::Words(ArgumentError::SyncAlone),
        "fault: words\n  --sync needs --journal FILE\n",
    )
}

#[test]
fn says_why_binds_failed(rt: HostRuntime) -> Result<(), Fail> {
    want(
        &rt,
        &Fault::BindRefused(0, 14),
        "fault: bind 0 refused 14\n  14 ESME_RINVPASWD\n",
    )?;
    want(
        &rt,
        &Fault::BindFailed(1, BindFailure::NotSmpp),
        "fault: bind 1 failed\n  smsc:2775: what came is no SMPP, or no answer to a bind\n",
    )
}

#[test]
fn says_what_keys_may_hold(rt: HostRuntime) -> Result<(), Fail> {
    for (key, wanted) in [
        ("binds", "fault: config binds\n  binds should be 1 to 4\n"),
        (
            "prot",
            "fault: config prot\n  there is no such key: is it port?\n",
        ),
        ("colour", "fault: config colour\n  there is no such key\n"),
        (
            "account",
            "fault: config account\n  there is no such key: is it accounts?\n",
        ),
        (
            "windows",
            "fault: config windows\n  there is no such key: is it window?\n",
        ),
        (
            "dexth",
            "fault: config dexth\n  there is no such key: is it depth?\n",
        ),
    ] {
        let key = String::from_str(rt.alloc(), key)?;
        want(&rt, &Fault::BadKey(key, ConfigValue::Missing), wanted)?;
    }
    Ok(())
}

#[test]
fn says_what_a_key_holds(rt: HostRuntime) -> Result<(), Fail> {
    let long = "tx\n5678901234567890123456789012345678901";
    for (value, wanted) in [
        (ConfigValue::Number(-5), "  it is -5\n"),
        (ConfigValue::Flag(true), "  it is true\n"),
        (
            ConfigValue::Hidden(true),
            "  it is a text, which is not shown here\n",
        ),
        (
            ConfigValue::Text(String::from_str(rt.alloc(), long)?),
            "  it is \"tx\\n5678901234567890123456789012345678901\"\n",
        ),
        (
            ConfigValue::BadText(2, String::from_str(rt.alloc(), "silence")?),
            "  its text 2 is \"silence\"\n",
        ),
        (ConfigValue::Table, "  it is a table\n"),
    ] {
        let key = String::from_str(rt.alloc(), "binds")?;
        let first = "fault: config binds\n  binds should be 1 to 4\n";
        let text = format!(in rt.alloc(); "{first}{wanted}")?;
        want(&rt, &Fault::BadKey(key, value), text.as_str())?;
    }
    Ok(())
}

/// Flaws of records of the accounts file, which begin on line 4, with the value at fault and what is written of them.
const FLAWS: [(Flaw, &[u8], &str); 8] = [
    (
        Flaw::NotNumber(2),
        b"10.00",
        ", credits \"10.00\": a whole number from 0 to 1099511627776\n",
    ),
    (
        Flaw::NotText(1),
        b"a\xff",
        ", account \"a\\xff\": it is no UTF-8\n",
    ),
    (
        Flaw::Taken(2),
        b"main",
        ", account \"main\": record 2 has it, too\n",
    ),
    (
        Flaw::OpenQuote,
        b"",
        ": its quote is open: it goes on to the end of the file\n",
    ),
    (
        Flaw::Header,
        b"account;credits",
        ": it is \"account;credits\"\n  it should be account,credits\n  fields are separated by commas\n",
    ),
    (
        Flaw::Header,
        b"\xff\xfea",
        ": it is \"\\xff\\xfea\"\n  it should be account,credits\n  it is UTF-16: save it as UTF-8\n",
    ),
    (
        Flaw::Fields(3),
        b"a,b,c",
        ": it has 3 fields: \"a,b,c\"\n  it should be account,credits\n",
    ),
    (
        Flaw::Missing,
        b"",
        ": there is no such record\n  it should be account,credits\n",
    ),
];

#[test]
fn says_what_is_wrong_with_records(rt: HostRuntime) -> Result<(), Fail> {
    for (flaw, octets, wanted) in &FLAWS {
        let mut value = Vec::new(rt.alloc());
        value.extend_from_slice(octets)?;
        let record = RecordFlaw {
            flaw: *flaw,
            line: Some(4),
            value,
        };
        let wanted = *wanted;
        let text = format!(in rt.alloc(); "fault: accounts record 1\n  a\\n.csv line 4{wanted}")?;
        want(
            &rt,
            &Fault::BadRecord(Source::Accounts, 1, record),
            text.as_str(),
        )?;
    }
    Ok(())
}

/// Both refusals of memory have one line and one status; their details say whether anything can have been sent.
#[test]
fn says_whether_messages_were_sent(rt: HostRuntime) -> Result<(), Fail> {
    let unsent = Fault::from(SendFault::ThreadRefused);
    want(
        &rt,
        &unsent,
        "fault: out of memory\n  memory or a thread was refused; nothing was sent\n",
    )?;
    same(&rt, unsent.exit_status(), 1);
    let unreported = Fault::Unreported(refused_memory(&rt));
    want(
        &rt,
        &unreported,
        "fault: out of memory\n  memory or a thread was refused; messages may have been sent\n",
    )?;
    same(&rt, unreported.exit_status(), 1);
    want_of(
        &rt,
        JobKind::Other,
        &output_fault(&rt),
        "fault: output\n  nothing was sent\n",
    )?;
    want_of(
        &rt,
        JobKind::Loop,
        &output_fault(&rt),
        "fault: output\n  messages were sent: don't send them again before you know which\n  next: sms-send recover --trial --config c.toml --journal j.csv prints the report\n",
    )
}

/// The system's reason travels with a fault of a file.
#[test]
fn says_why_files_failed(rt: HostRuntime) -> Result<(), Fail> {
    let name = String::from_str(rt.alloc(), "/j.csv")?;
    want(
        &rt,
        &Fault::Unmade(name, ErrorKind::NotFound),
        "fault: file /j.csv\n  its folder doesn't exist\n",
    )?;
    let name = String::from_str(rt.alloc(), "/m.csv")?;
    want(
        &rt,
        &Fault::File(name, ErrorKind::PermissionDenied),
        "fault: file /m.csv\n  this user may not read it\n",
    )?;
    want(
        &rt,
        &Fault::Unbegun(JournalFailure::StorageFull),
        "fault: journal\n  no space left on the device\n  nothing was sent; remove this journal before the next run\n",
    )?;
    want(
        &rt,
        &Fault::Journal(JournalFailure::ReadOnly),
        "fault: journal\n  its file system is read-only\n  what was not noted was not sent; the report is right\n  next: sms-send rest --config c.toml --report REPORT prints the messages that were not sent\n",
    )
}

/// The journal of a run that was to go on is its record: it is kept, and the same is typed again.
#[test]
fn keeps_the_journal_of_a_run(rt: HostRuntime) -> Result<(), Fail> {
    want_of(
        &rt,
        JobKind::Resume,
        &Fault::Unbegun(JournalFailure::StorageFull),
        "fault: journal\n  no space left on the device\n  nothing was sent in this round; keep the journal, and resume once it can be written\n",
    )?;
    want_of(
        &rt,
        JobKind::Resume,
        &Fault::Journal(JournalFailure::ReadOnly),
        "fault: journal\n  its file system is read-only\n  what was not noted was not sent; the report is right\n  next: sms-send resume --config c.toml --journal j.csv sends them, once it can be written\n",
    )
}

#[test]
fn says_why_a_journal_is_not_recovered(rt: HostRuntime) -> Result<(), Fail> {
    want(
        &rt,
        &Fault::JournalHeld,
        "fault: journal\n  its run is still going on\n",
    )?;
    want(
        &rt,
        &Fault::JournalFree,
        "fault: journal\n  no run is going on with it\n",
    )?;
    want(
        &rt,
        &Fault::Overdrawn,
        "fault: journal\n  it takes more of an account than that has\n",
    )?;
    want(
        &rt,
        &Fault::Trial,
        "fault: journal of a trial: no message centre saw any of it\n  --trial prints its report\n",
    )?;
    same(&rt, Fault::Trial.exit_status(), 1);
    let name = String::from_str(rt.alloc(), "m.csv")?;
    want(
        &rt,
        &Fault::OtherFile(name),
        "fault: journal record 1\n  m.csv is not the file that this run was begun with\n",
    )?;
    want(
        &rt,
        &Fault::OtherAttempts,
        "fault: journal record 1\n  attempts in the config is not what this run was begun with\n",
    )?;
    want(
        &rt,
        &Fault::OtherReference,
        "fault: journal record 1\n  long_reference in the config is not what this run was begun with\n",
    )
}
