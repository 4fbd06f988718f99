//! Schedules and what they print, worked out by hand, and the faults.

use super::broken::{FailingInput, FailingOutput};
use super::same::same;
use super::told::told_of;
use sms_driver::{Start, StartGate};
use sms_send::{Fault, Job, JobContext, LineArgs, SendArgs, Throttle, do_job, run_replay};
use std::alloc::Global;
use std::io::{Read, Write};
use std::process::Abort;
use std::test::Fail;

/// Schedules, and what a replay of each prints.
const REPLAYED: [(&str, &str); 10] = [
    // an empty world
    (
        "world,1,64,3",
        "account 0 topped 0 free 0 reserved 0 charged 0 returned 0\nheld none\nnext 1\n",
    ),
    // a byte order mark, empty lines, quotes and leading zeros change nothing
    (
        "\u{feff}world,2,64,3\r\n\r\n\n\"claim\",00000000000000000009,0\r\nclaim,1,1\n",
        "1 done\n2 done\naccount 0 topped 0 free 0 reserved 0 charged 0 returned 0\naccount 1 topped 0 free 0 reserved 0 charged 0 returned 0\nheld 0 by 9\nheld 1 by 1\nnext 1\n",
    ),
    // an answer that nobody waits for
    (
        "world,1,64,3\ntopup,0,5\nrespond,99,0,0\n",
        "1 done\n2 ignored UnknownNumber\naccount 0 topped 5 free 5 reserved 0 charged 0 returned 0\nheld none\nnext 1\n",
    ),
    // the first attempt's answer comes after its slot was given up and used again
    (
        "world,1,1,1\ntopup,0,2\nreserve,1,0,1\nreserve,2,0,1\nclaim,7,0\npost,7,0,1\nexpire,7,0\npost,7,0,2\nrespond,1,0,0\nrespond,2,0,0\nsettle,7,0\nrelease,7,0\n",
        "1 done\n2 done\n3 done\n4 done\n5 done\n6 done\n7 done\n8 ignored UnknownNumber\n9 done\n10 done\n11 done\naccount 0 topped 2 free 0 reserved 1 charged 1 returned 0\nrequest 1 account 0 cost 1 attempts 1 unanswered\nrequest 2 account 0 cost 1 attempts 1 charged\nheld none\nnext 3\n",
    ),
    // an answer that comes twice charges once
    (
        "world,1,1,3\ntopup,0,1\nreserve,1,0,1\nclaim,1,0\npost,1,0,1\nrespond,1,0,0\nrespond,1,0,0\nsettle,1,0\nrespond,1,0,0\n",
        "1 done\n2 done\n3 done\n4 done\n5 done\n6 ignored UnknownNumber\n7 done\n8 ignored UnknownNumber\naccount 0 topped 1 free 0 reserved 0 charged 1 returned 0\nrequest 1 account 0 cost 1 attempts 1 charged\nheld 0 by 1\nnext 2\n",
    ),
    // a generic_nack refuses, whatever its status
    (
        "world,1,1,3\ntopup,0,1\nreserve,1,0,1\nclaim,1,0\npost,1,0,1\nrespond,1,0,1\nrespond,1,0,0\nsettle,1,0\nrespond,1,0,0\n",
        "1 done\n2 done\n3 done\n4 done\n5 done\n6 ignored UnknownNumber\n7 done\n8 ignored UnknownNumber\naccount 0 topped 1 free 1 reserved 0 charged 0 returned 1\nrequest 1 account 0 cost 1 attempts 1 refused\nheld 0 by 1\nnext 2\n",
    ),
    // a request may cost two credits
    (
        "world,1,1,1\ntopup,0,5\nreserve,1,0,2\n",
        "1 done\n2 done\naccount 0 topped 5 free 3 reserved 2 charged 0 returned 0\nrequest 1 account 0 cost 2 attempts 0 ready\nheld none\nnext 1\n",
    ),
    // a cost is 1 to 1,000
    (
        "world,1,1,1\ntopup,0,2000\nreserve,1,0,1000\nreserve,2,0,1001\nreserve,3,0,0\nreserve,4,0,1000\nreserve,5,0,1\n",
        "1 done\n2 done\n3 ignored BadCost\n4 ignored BadCost\n5 done\n6 ignored NoCredit\naccount 0 topped 2000 free 0 reserved 2000 charged 0 returned 0\nrequest 1 account 0 cost 1000 attempts 0 ready\nrequest 4 account 0 cost 1000 attempts 0 ready\nheld none\nnext 1\n",
    ),
    // a request is given up once
    (
        "world,1,1,1\ntopup,0,1\nreserve,1,0,1\ndiscard,1\ndiscard,1\n",
        "1 done\n2 done\n3 done\n4 ignored NoRequest\naccount 0 topped 1 free 1 reserved 0 charged 0 returned 1\nrequest 1 account 0 cost 1 attempts 0 unsent\nheld none\nnext 1\n",
    ),
    // throttled until no attempt is left
    (
        "world,1,1,2\ntopup,0,1\nreserve,1,0,1\nclaim,1,0\npost,1,0,1\nrespond,1,88,0\nsettle,1,0\npost,1,0,1\nrespond,2,88,0\nsettle,1,0\n",
        "1 done\n2 done\n3 done\n4 done\n5 done\n6 done\n7 done\n8 done\n9 done\naccount 0 topped 1 free 1 reserved 0 charged 0 returned 1\nrequest 1 account 0 cost 1 attempts 2 refused\nheld 0 by 1\nnext 3\n",
    ),
];

/// Inputs that are no schedule, and the faults.
const REFUSED: [(&str, &str); 9] = [
    ("", "fault: schedule record 1"),
    ("world,0,1,1", "fault: schedule record 1"),
    ("claim,1,0", "fault: schedule record 1"),
    ("world,1,1,1\nclaim,1", "fault: schedule record 2"),
    (
        "world,1,1,1\nclaim,1,4294967296",
        "fault: schedule record 2",
    ),
    ("world,1,1,1\nclaim,1,+4", "fault: schedule record 2"),
    (
        "world,1,1,1\nclaim,1,000000000000000000004",
        "fault: schedule record 2",
    ),
    (
        "world,1,1,1\nclaim,1,0\nrespond,1,0,2",
        "fault: schedule record 3",
    ),
    (
        "world,1,1,1\nclaim,1,0\nworld,1,1,1",
        "fault: schedule record 3",
    ),
];

/// What a replay prints, or the text of its fault.
fn printed(rt: &(impl AllocGlobal + Abort), schedule: &str) -> String {
    let mut output = Vec::new(rt.alloc());
    let text = match run_replay(rt.alloc(), schedule.as_bytes(), &mut output) {
        Ok(status) => {
            same(rt, status, 0);
            String::from_utf8(output).expect(rt, "text")
        }
        Err(fault) => {
            assert!(rt; output.is_empty());
            fault.to_string(rt.alloc()).expect(rt, "memory")
        }
    };
    text
}

#[test]
fn prints_schedules_and_faults(rt: HostRuntime) {
    for (schedule, expected) in &REPLAYED {
        same(&rt, printed(&rt, schedule).as_str(), expected);
    }
    for (schedule, expected) in &REFUSED {
        same(&rt, printed(&rt, schedule).as_str(), expected);
    }
}

/// The schedule of the tests of broken devices.
pub const SCHEDULE: &[u8] = b"world,1,64,3\nclaim,1,0\n";

#[test]
fn tells_a_broken_output(rt: HostRuntime) -> Result<(), Fail> {
    // at the first octet, in mid-stream, and when it should go out
    for room in [0, 10, 1000] {
        let fault = replay_fault(rt.alloc(), SCHEDULE, &mut FailingOutput { room }).ok_or(
            "no fault",
        )?;
        same(&rt, fault.exit_status(), 1);
        same(&rt, told_of(rt.alloc(), fault)?.as_str(), "fault: output");
    }
    Ok(())
}

#[test]
fn tells_a_broken_schedule(rt: HostRuntime) -> Result<(), Fail> {
    for given in [0, 5, 20] {
        stops_at(&rt, &SCHEDULE[..given], "fault: file schedule")?;
    }
    Ok(())
}

// What bounds nothing.
const UNBOUND: Throttle = Throttle {
    connect_ms: None,
    rate: None,
    stop_after: None,
};

// A sending by this config, of which nothing but a fault is reported.
fn quiet_order(config: String) -> SendArgs {
    SendArgs {
        config,
        fields: None,
        quiet: true,
        verbose: false,
        journal: None,
        throttle: UNBOUND,
        again: None,
        lines: LineArgs::none(),
        strict: false,
        refs: false,
    }
}

// The job of this word and file.
fn job_with(word: &str, name: String) -> Job {
    match word {
        "plan" => Job::Plan(name, false, false),
        "quote" => Job::Quote(name, false, false),
        "loop" => Job::Loop(quiet_order(name)),
        "send" => Job::Send(quiet_order(name)),
        _ => Job::Replay(Some(name)),
    }
}

// That a fault is reported, of this text, with the status 1.
fn want_fault(rt: &(impl AllocGlobal + Abort), done: Result<u8, Fault>, wanted: &str) {
    let Err(fault) = done else {
        panic!(rt; "no fault")
    };
    same(rt, fault.exit_status(), 1);
    match fault.to_string(rt.alloc()) {
        Ok(text) => same(rt, text.as_str(), wanted),
        Err(_) => panic!(rt; "no memory"),
    }
}

// A subcommand, a file that can't be opened or a folder, which opens and can't be read, and the fault.
const UNREAD: [(&str, &str, &str); 10] = [
    ("replay", "nowhere.csv", "fault: file nowhere.csv"),
    ("plan", "nowhere.csv", "fault: file nowhere.csv"),
    ("replay", "/", "fault: file schedule"),
    ("plan", "/", "fault: file messages"),
    ("loop", "nowhere.toml", "fault: file nowhere.toml"),
    ("send", "nowhere.toml", "fault: file nowhere.toml"),
    ("loop", "/", "fault: file /"),
    ("send", "/", "fault: file /"),
    ("quote", "nowhere.toml", "fault: file nowhere.toml"),
    ("quote", "/", "fault: file /"),
];

#[test]
fn tells_files_that_cannot_be_read(rt: HostRuntime) -> Result<(), Fail> {
    for (word, name, wanted) in UNREAD {
        let job = job_with(word, String::from_str(rt.alloc(), name)?);
        let mut output = Vec::new(rt.alloc());
        let (latch, unsaid) = StartGate::new();
        let mut error = Vec::new(rt.alloc());
        let start = &mut Start::new(&latch, unsaid);
        let done = do_job(
            &rt,
            &mut JobContext::new(),
            start,
            job,
            &mut output,
            &mut error,
        );
        want_fault(&rt, done, wanted);
        assert!(rt; output.is_empty() && error.is_empty());
    }
    Ok(())
}

// What a replay of these octets ends with, whose device then fails.
fn stops_at(rt: &(impl AllocGlobal + Abort), left: &[u8], expected: &str) -> Result<(), Fail> {
    let mut output = Vec::new(rt.alloc());
    let fault = replay_fault(rt.alloc(), FailingInput { left }, &mut output).ok_or("no fault")?;
    assert!(rt; output.is_empty());
    same(rt, fault.exit_status(), 1);
    same(rt, told_of(rt.alloc(), fault)?.as_str(), expected);
    Ok(())
}

pub fn replay_fault<R: Read + Drop, W: Write>(
    alloc: Global,
    input: R,
    output: &mut W,
) -> Option<Fault> {
    run_replay(alloc, input, output).err()
}

/// Behind a faulty record nothing more is read: the device fails there. (That nothing is read
/// behind one past the limit is a test of the plan, whose limit is the lower one; both files are
/// read by one function.)
#[test]
fn reads_no_further(rt: HostRuntime) -> Result<(), Fail> {
    stops_at(&rt, b"world,0,1,1\n", "fault: schedule record 1")?;
    stops_at(&rt, b"world,1,1,1\nclaim,1\n", "fault: schedule record 2")?;
    stops_at(&rt, b"world,1,1,1\nclaim,1,0\n", "fault: file schedule")
}
