//! The words of the command line, and the jobs that they ask for.

use super::asked::want_read;
use super::same::same;
use sms_send::{Fault, Job, JournalFile, SendArgs, job_of};
use std::alloc::Global;
use std::process::Abort;
use std::test::Fail;

/// Words, and the file of the job, or the text of the fault.
const READ: [(&str, &str); 125] = [
    ("", "standard input"),
    ("replay -", "standard input"),
    ("replay events.csv", "events.csv"),
    ("replay", "fault: words"),
    ("plan --messages x", "plan of x"),
    ("plan --messages -", "plan of -"),
    ("plan --messages x --long", "long plan of x"),
    ("plan --long --messages x", "long plan of x"),
    ("plan --long", "fault: words"),
    ("plan --messages x --long=true", "fault: words"),
    ("replay --long x", "fault: words"),
    ("plan", "fault: words"),
    ("plan x", "fault: words"),
    ("plan --messages", "fault: words"),
    ("plan --messages x y", "fault: words"),
    ("replay a b", "fault: words"),
    ("frob", "fault: words"),
    ("plan --version", "fault: words"),
    ("loop --config c.toml", "loop of c.toml"),
    ("loop --config c.toml --quiet", "quiet loop of c.toml"),
    ("loop --quiet --config=-", "quiet loop of -"),
    ("send --config c.toml", "send of c.toml"),
    ("send --quiet --config c.toml", "quiet send of c.toml"),
    ("loop", "fault: words"),
    ("loop --quiet", "fault: words"),
    ("loop --config", "fault: words"),
    ("loop c.toml", "fault: words"),
    ("loop --config a b", "fault: words"),
    ("loop --config a --config b", "fault: words"),
    ("loop --config a --quiet=true", "fault: words"),
    ("loop --config a --long", "fault: words"),
    ("send", "fault: words"),
    ("send --messages x", "fault: words"),
    ("send --config a --quiet --quiet", "fault: words"),
    ("plan --config x", "fault: words"),
    ("plan --messages x --quiet", "fault: words"),
    ("replay --quiet x", "fault: words"),
    ("Loop --config a", "fault: words"),
    ("loop send --config a", "fault: words"),
    ("recover --config c --journal j", "recovery of j"),
    ("recover --journal=j --config=c", "recovery of j"),
    ("recover --config c", "fault: words"),
    ("recover --journal j", "fault: words"),
    ("recover --config c --journal", "fault: words"),
    ("recover --config c --journal j --quiet", "fault: words"),
    ("recover --config c --report r", "fault: words"),
    ("rest --config c --report r", "rest of r"),
    (
        "rest --accounts --config c --report r",
        "accounts left of r",
    ),
    ("rest --config c", "fault: words"),
    ("rest --report r", "fault: words"),
    ("rest --config c --journal j", "fault: words"),
    (
        "rest --config c --report r --accounts --accounts",
        "fault: words",
    ),
    ("plan --messages x --report r", "fault: words"),
    ("plan --messages x --journal y", "fault: words"),
    ("replay --rate 5 x", "fault: words"),
    ("send --journal y", "fault: words"),
    ("quote --config c", "quote of c"),
    ("quote --config=-", "quote of -"),
    ("quote", "fault: words"),
    ("quote c", "fault: words"),
    ("quote --config", "fault: words"),
    ("quote --config c --config d", "fault: words"),
    ("quote --config c --quiet", "fault: words"),
    ("quote --messages m", "fault: words"),
    ("loop --config c --strict", "strict loop of c"),
    ("send --strict --config c", "strict send of c"),
    ("send --strict", "fault: words"),
    ("send --config c --strict --strict", "fault: words"),
    ("recover --config c --journal j --strict", "fault: words"),
    ("recover --config c --journal j --trial", "trial of j"),
    ("send --config c --trial", "fault: words"),
    ("replay --verbose x", "x"),
    ("plan --messages x --verbose", "plan of x"),
    ("quote --verbose --config c", "verbose quote of c"),
    ("quote --config c --verbose", "verbose quote of c"),
    ("loop --config c --verbose", "loop of c"),
    ("recover --config c --verbose --journal j", "recovery of j"),
    ("rest --config c --report r --verbose", "rest of r"),
    ("send --config c --verbose --verbose", "fault: words"),
    ("--verbose", "fault: words"),
    ("resume --config c --journal j", "resumption of j"),
    (
        "resume --journal=j --config=c --quiet --sync",
        "resumption of j",
    ),
    ("resume --config c", "fault: words"),
    ("resume --journal j", "fault: words"),
    ("resume --config c --journal j --trial", "fault: words"),
    ("resume --config c --journal j --rate 0", "fault: words"),
    ("resume --config c --journal j --again-ms 5", "fault: words"),
    ("recover --config c --journal j --again 5", "fault: words"),
    ("stop --journal j", "stop of j"),
    ("stop --verbose --journal=j", "stop of j"),
    ("stop", "fault: words"),
    ("stop j", "fault: words"),
    ("stop --config c --journal j", "fault: words"),
    ("topup --ledger l bank 500", "top-up of l"),
    ("topup --ledger l bank", "fault: words"),
    ("topup bank 5", "fault: words"),
    ("topup --ledger l bank 5 6", "fault: words"),
    ("balance --ledger l", "balance of l"),
    ("balance --verbose --ledger=l", "balance of l"),
    ("balance l", "fault: words"),
    ("balance --ledger l --ref r", "fault: words"),
    ("send --config c --journal j --ledger l", "send on l"),
    (
        "send --config c --strict --journal j --ledger=l",
        "strict send on l",
    ),
    ("send --config c --ledger l", "fault: words"),
    ("loop --config c --journal j --ledger l", "loop on l"),
    ("loop --config c --ledger l", "fault: words"),
    (
        "topup --trial --ledger l bank 500",
        "top-up for trials of l",
    ),
    ("balance --trial --ledger l", "fault: words"),
    (
        "resume --config c --journal j --ledger l",
        "resumption on l",
    ),
    (
        "settle --ledger l --config c --journal j",
        "settlement of j",
    ),
    ("settle --ledger l --config c", "fault: words"),
    (
        "decide --ledger l --config c --journal j --decisions d",
        "decisions of d",
    ),
    ("decide --ledger l --config c --journal j", "fault: words"),
    (
        "delivered --config c --journal j --inbox i",
        "deliveries of i",
    ),
    (
        "delivered --config c --journal j --inbox i --ids dec-hex --refs",
        "deliveries of i",
    ),
    (
        "delivered --config c --journal j --inbox i --ids hex",
        "fault: words",
    ),
    ("delivered --config c --journal j", "fault: words"),
    ("send --config c --inbox i --enquire 3600", "send of c"),
    ("loop --config c --enquire 0", "fault: words"),
    (
        "resume --config c --journal j --inbox=i --enquire=60",
        "resumption of j",
    ),
    (
        "resume --config c --journal j --enquire 3601",
        "fault: words",
    ),
    (
        "send --config c --inbox i --stay 86400 --ids hex-dec",
        "send of c",
    ),
    ("send --config c --stay 60", "fault: words"),
    ("loop --config c --inbox i --ids hex-dec", "fault: words"),
    (
        "resume --config c --journal j --inbox i --stay 86401",
        "fault: words",
    ),
];

/// The words of a line.
pub fn words_of(rt: &(impl AllocGlobal + Abort), line: &str) -> Vec<String> {
    let mut words = Vec::new(rt.alloc());
    for word in line.split_whitespace() {
        let Ok(word) = String::from_str(rt.alloc(), word) else {
            panic!(rt; "no memory")
        };
        if words.push(word).is_err() {
            panic!(rt; "no memory")
        }
    }
    words
}

#[test]
fn reads_the_words(rt: HostRuntime) {
    for (line, wanted) in &READ {
        let words = words_of(&rt, line);
        want_read(&rt, words.as_slice(), wanted);
    }
}

/// Words behind `--config c.toml`, and what they ask for beside it: the journal, whether it is synced, and
/// the three numbers, 0 where there is none; or nothing where they are refused.
const ORDERED: [(&str, Option<(&str, bool, [u32; 3])>); 33] = [
    ("", Some(("", false, [0, 0, 0]))),
    ("--journal j.csv", Some(("j.csv", false, [0, 0, 0]))),
    ("--journal=j.csv --sync", Some(("j.csv", true, [0, 0, 0]))),
    ("--sync --journal -", Some(("-", true, [0, 0, 0]))),
    ("--sync", None),
    ("--journal", None),
    ("--journal a --journal b", None),
    ("--journal a --sync --sync", None),
    ("--journal a --sync=true", None),
    ("--connect-ms 1", Some(("", false, [1, 0, 0]))),
    ("--connect-ms 600000", Some(("", false, [600_000, 0, 0]))),
    ("--connect-ms 600001", None),
    ("--connect-ms 0", None),
    ("--connect-ms", None),
    ("--connect-ms 5 --connect-ms 5", None),
    ("--connect-ms +5", None),
    ("--connect-ms=-5", None),
    ("--connect-ms 5ms", None),
    ("--connect-ms 1.5", None),
    ("--connect-ms 4294967297", None),
    ("--connect-ms 18446744073709551617", None),
    (
        "--connect-ms 00000000000000000007",
        Some(("", false, [7, 0, 0])),
    ),
    ("--connect-ms 000000000000000000007", None),
    ("--rate 1", Some(("", false, [0, 1, 0]))),
    ("--rate=100000", Some(("", false, [0, 100_000, 0]))),
    ("--rate 100001", None),
    ("--rate 0", None),
    ("--stop-after 1", Some(("", false, [0, 0, 1]))),
    ("--stop-after 1000000", Some(("", false, [0, 0, 1_000_000]))),
    ("--stop-after 1000001", None),
    ("--stop-after 0", None),
    (
        "--stop-after 3 --rate 2 --connect-ms 1 --sync --journal j",
        Some(("j", true, [1, 2, 3])),
    ),
    ("--frob", None),
];

// The sending that a job asks for.
fn order_in(rt: &impl Abort, job: Job) -> SendArgs {
    match job {
        Job::Loop(order) | Job::Send(order) => order,
        _ => panic!(rt; "another job"),
    }
}

// What a journal is called, and whether it is synced.
fn journal_in(journal: &Option<JournalFile>) -> (&str, bool) {
    match journal {
        Some(file) => (file.name.as_str(), file.sync),
        None => ("", false),
    }
}

// That the sending is asked for so.
fn want_order(rt: &impl Abort, order: &SendArgs, wanted: (&str, bool, [u32; 3])) {
    let (name, sync) = journal_in(&order.journal);
    let throttle = order.throttle;
    let numbers = [
        throttle.connect_ms.unwrap_or(0),
        throttle.rate.unwrap_or(0),
        throttle.stop_after.unwrap_or(0),
    ];
    same(rt, (name, sync, numbers), wanted);
    same(rt, order.config.as_str(), "c.toml");
}

// That this is read of the words.
fn want_ordered(rt: &impl Abort, read: Result<Job, Fault>, wanted: Option<(&str, bool, [u32; 3])>) {
    match (read, wanted) {
        (Ok(job), Some(wanted)) => want_order(rt, &order_in(rt, job), wanted),
        (Err(fault), None) => same(rt, fault.exit_status(), 2),
        _ => panic!(rt; "read otherwise"),
    }
}

#[test]
fn reads_what_bounds_a_sending(rt: HostRuntime) {
    for (line, wanted) in &ORDERED {
        for name in ["loop", "send"] {
            let Ok(whole) = format!(in rt.alloc(); "{name} --config c.toml {line}") else {
                panic!(rt; "no memory")
            };
            let words = words_of(&rt, whole.as_str());
            want_ordered(&rt, job_of(rt.alloc(), words.as_slice()), *wanted);
        }
    }
}

/// Words behind `--config c.toml --journal j`, and the most further rounds with the milliseconds before each that they
/// ask for; 0 and 0 where they ask for none, and nothing where they are refused.
const AGAIN: [(&str, Option<(u32, u32)>); 13] = [
    ("", Some((0, 0))),
    ("--again 1", Some((1, 1_000))),
    ("--again=1000000", Some((1_000_000, 1_000))),
    ("--again 5 --again-ms 1", Some((5, 1))),
    ("--again-ms 600000 --again 5", Some((5, 600_000))),
    ("--again 0", None),
    ("--again 1000001", None),
    ("--again", None),
    ("--again 5 --again-ms 0", None),
    ("--again 5 --again-ms 600001", None),
    ("--again-ms 5", None),
    ("--again 5 --again 5", None),
    ("--again 5 --again-ms 5s", None),
];

// How often a job is to go on, and how long it waits before; 0 and 0 where it isn't.
fn again_in(rt: &impl Abort, job: &Job) -> (u32, u32) {
    let again = match job {
        Job::Loop(order) | Job::Send(order) => order.again,
        Job::Resume(order) => order.again,
        _ => panic!(rt; "another job"),
    };
    match again {
        Some(again) => (again.most, again.wait_ms),
        None => (0, 0),
    }
}

// That this is read of the words.
fn want_again(rt: &impl Abort, read: Result<Job, Fault>, wanted: Option<(u32, u32)>) {
    match (read, wanted) {
        (Ok(job), Some(wanted)) => same(rt, again_in(rt, &job), wanted),
        (Err(fault), None) => same(rt, fault.exit_status(), 2),
        _ => panic!(rt; "read otherwise"),
    }
}

#[test]
fn reads_how_often_a_sending_goes_on(rt: HostRuntime) {
    for (line, wanted) in &AGAIN {
        for name in ["loop", "send", "resume"] {
            let Ok(whole) = format!(in rt.alloc(); "{name} --config c.toml --journal j {line}")
            else {
                panic!(rt; "no memory")
            };
            let words = words_of(&rt, whole.as_str());
            want_again(&rt, job_of(rt.alloc(), words.as_slice()), *wanted);
        }
    }
}

/// The fault that these words are answered with.
fn answer_to(alloc: Global, words: &str) -> Result<Fault, Fail> {
    let mut given = Vec::new(alloc);
    for word in words.split_whitespace() {
        given.push(String::from_str(alloc, word)?)?;
    }
    Ok(job_of(alloc, given.as_slice()).err().ok_or("a job")?)
}

#[test]
fn gives_help_and_version(rt: HostRuntime) -> Result<(), Fail> {
    for (words, usage) in [
        ("--help", "Usage: sms-send [COMMAND]"),
        ("plan --help", "Usage: sms-send plan"),
        ("loop --help", "Usage: sms-send loop"),
        ("send -h", "Usage: sms-send send"),
        ("help send", "--quiet"),
        ("help loop", "--journal <FILE>"),
        ("help send", "--connect-ms <N>"),
        ("help loop", "--strict"),
        ("help send", "--again <N>"),
        ("help resume", "--fields <FILE>"),
        ("resume --help", "Usage: sms-send resume"),
        ("quote --help", "Usage: sms-send quote"),
        ("help replay", "Usage: sms-send replay"),
        ("help bill", "Usage: sms-send bill"),
        ("doubtful -h", "--journal <FILE>"),
        ("audit --help", "--report <FILE>"),
    ] {
        let fault = answer_to(rt.alloc(), words)?;
        assert!(rt; matches!(&fault, Fault::Help(text) if text.as_str().contains(usage)));
    }
    let fault = answer_to(rt.alloc(), "--version")?;
    assert!(rt; matches!(&fault, Fault::Version(text) if text.as_str().starts_with("sms-send ")));
    Ok(())
}
