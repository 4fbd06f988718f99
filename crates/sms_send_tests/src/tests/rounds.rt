//! Runs of several rounds, over test centres of the program's own that hang up.

use super::same::same;
use sms_driver::{Start, StartGate};
use sms_send::{Again, Fault, Job, JobContext, LineArgs, SendArgs, Throttle, do_job};
use std::alloc::{AllocError, Global};
use std::fs;
use std::process::Abort;
use std::rt::Files;
use std::test::Fail;

/// The accounts and the messages. The fifth is not paid for.
const FILES: [(&str, &str); 2] = [
    ("rounds-accounts.csv", "account,credits\nmain,6\nempty,0\n"),
    (
        "rounds-messages.csv",
        "account,source,destination,text\nmain,12345,+447700900100,a\nmain,12345,+447700900101,b\nmain,12345,+447700900102,c\nmain,12345,+447700900103,d\nempty,12345,+447700900104,e\nmain,12345,+447700900105,f\n",
    ),
];

const CONFIG: &str = "rounds.toml";

/// The header of a report, and that of its statement.
const REPORT: &str = "message,part,attempts,outcome,status,id\n";

const STATEMENT: &str = "account,topped,free,reserved,charged,returned\n";

/// Scripts of the test centre, which begins anew with each bind; how many further rounds there may be; and the report:
/// its lines, its statement's, and the exit status.
const RUNS: [(&str, u32, &str, &str, u8); 4] = [
    // Each connection takes one message and cuts the answer to the next.
    (
        "\"status 0\", \"cut\"",
        5,
        "0,1,1,charged,0,m1\n1,1,1,unanswered,,\n2,1,1,charged,0,m1\n3,1,1,unanswered,,\n4,0,0,no-credit,,\n5,1,1,charged,0,m1\n",
        "main,6,1,2,3,0\nempty,0,0,0,0,0\n",
        4,
    ),
    // The same, but no more than two rounds.
    (
        "\"status 0\", \"cut\"",
        1,
        "0,1,1,charged,0,m1\n1,1,1,unanswered,,\n2,1,1,charged,0,m1\n3,1,1,unanswered,,\n4,0,0,bind-closed,,\n5,0,0,bind-closed,,\n",
        "main,6,2,2,2,0\nempty,0,0,0,0,0\n",
        4,
    ),
    // The centre unbinds before it answers anything: as many rounds as there may be.
    (
        "\"unbind\"",
        2,
        "0,1,1,unanswered,,\n1,1,1,unanswered,,\n2,1,1,unanswered,,\n3,0,0,bind-closed,,\n4,0,0,bind-closed,,\n5,0,0,bind-closed,,\n",
        "main,6,3,3,0,0\nempty,0,0,0,0,0\n",
        4,
    ),
    // Nothing is left: one round.
    (
        "\"status 0\"",
        5,
        "0,1,1,charged,0,m1\n1,1,1,charged,0,m2\n2,1,1,charged,0,m3\n3,1,1,charged,0,m4\n4,0,0,no-credit,,\n5,1,1,charged,0,m5\n",
        "main,6,1,0,5,0\nempty,0,0,0,0,0\n",
        0,
    ),
];

// The job to send them in so many further rounds.
fn job_again(alloc: Global, most: u32) -> Result<Job, AllocError> {
    Ok(Job::Loop(SendArgs {
        config: String::from_str(alloc, CONFIG)?,
        fields: None,
        quiet: true,
        verbose: false,
        journal: None,
        throttle: Throttle {
            connect_ms: None,
            rate: None,
            stop_after: None,
        },
        again: Some(Again { most, wait_ms: 1 }),
        lines: LineArgs::none(),
        strict: false,
        refs: false,
    }))
}

// Writes the config with this script.
fn write_config(rt: &(impl AllocGlobal + Files + Abort), script: &str) -> Result<(), Fail> {
    let config = format!(in rt.alloc();
        "window = 1\ndepth = 1\nanswer_ms = 2000\naccounts = \"rounds-accounts.csv\"\nmessages = \"rounds-messages.csv\"\nanswers = [{script}]\n"
    )?;
    assert!(rt; fs::write(rt, CONFIG, config.as_str()).is_ok());
    Ok(())
}

// That a run ended with this status.
fn want_status(rt: &impl Abort, done: Result<u8, Fault>, status: u8) {
    match done {
        Ok(found) => same(rt, found, status),
        Err(_) => panic!(rt; "a fault"),
    }
}

#[test]
fn goes_on_in_further_rounds(rt: HostRuntime) -> Result<(), Fail> {
    let alloc = rt.alloc();
    for (name, text) in FILES {
        assert!(&rt; fs::write(&rt, name, text).is_ok());
    }
    for (script, most, lines, rows, status) in &RUNS {
        write_config(&rt, *script)?;
        let (mut output, mut error) = (Vec::new(alloc), Vec::new(alloc));
        let (latch, unsaid) = StartGate::new();
        let mut start = Start::new(&latch, unsaid);
        let done = do_job(
            &rt,
            &mut JobContext::new(),
            &mut start,
            job_again(alloc, *most)?,
            &mut output,
            &mut error,
        );
        want_status(&rt, done, *status);
        let wanted = format!(in alloc; "{REPORT}{lines}{STATEMENT}{rows}")?;
        same(&rt, output.as_slice(), wanted.as_bytes());
    }
    assert!(&rt; fs::remove_file(&rt, CONFIG).is_ok());
    for (name, _) in FILES {
        assert!(&rt; fs::remove_file(&rt, name).is_ok());
    }
    Ok(())
}
