//! Devices that fail at each octet, and memory that is refused at each allocation: the report agrees
//! with the statement to the credit, or nothing is printed and the fault is reported. `tools/refuse-memory`
//! runs each test named `memory_` once for each of its allocations; where memory is refused before the
//! sending begins, it ends there.

use super::same::same;
use super::trial::{
    LONG, OpenGate, PLAIN, REPORT, STATEMENT, Said, Sending, messages_of, send, text_of,
};
use std::alloc::{AllocError, Global};
use std::process::Abort;
use std::sync::Wait;
use std::test::Fail;
use std::thread::Threads;

/// A text of two parts, and three credits.
const TWO_PARTS: Sending<'static> = Sending {
    config: "depth = 1",
    accounts: "account,credits\nmain,3\n",
    ..PLAIN
};

/// What is printed where both are charged.
const CHARGED: &str =
    "message,part,attempts,outcome,status,id\n0,1,1,charged,0,m1\n0,2,1,charged,0,m2\naccount,topped,free,reserved,charged,returned\nmain,3,1,0,2,0\n";

/// The octets of a bind_transmitter, of the two submit_sm, of one of `Hi`, and of an unbind.
const BIND: u64 = 27;

const FIRST: u64 = 209;

const SECOND: u64 = 64;

const SHORT: u64 = 52;

const UNBIND: u64 = 16;

/// The octets of a bind_transmitter_resp, and of a submit_sm_resp.
const BOUND: u64 = 21;

const ANSWER: u64 = 19;

/// How many records have this word.
fn count(text: &str, word: &str) -> u64 {
    let mut count = 0u64;
    for record in text.split_whitespace() {
        if record.contains(word) {
            count = count.wrapping_add(1);
        }
    }
    count
}

/// Whether this is a report and a statement of the account `main`, and each credit of the one is a
/// part's of the other.
fn is_balanced(alloc: Global, text: &str, topped: u64) -> Result<bool, AllocError> {
    let Some((parts, statement)) = text.split_once(STATEMENT) else {
        return Ok(false);
    };
    let charged = count(parts, ",charged,");
    let reserved = count(parts, ",unanswered,");
    let returned = count(parts, ",refused,").wrapping_add(count(parts, ",unsent,"));
    let free = topped.wrapping_sub(reserved).wrapping_sub(charged);
    let wanted = format!(in alloc; "main,{topped},{free},{reserved},{charged},{returned}\n")?;
    Ok(parts.starts_with(REPORT) && statement == wanted.as_str())
}

/// What is said of the two parts, where the devices fail after so many octets.
fn said_of<R: Threads + Wait + Sync>(
    rt: &R,
    alloc: Global,
    reads: u64,
    writes: u64,
    prints: u64,
) -> Result<Said, AllocError> {
    let messages = messages_of(alloc, LONG)?;
    let sending = Sending {
        messages: messages.as_str(),
        reads,
        writes,
        prints,
        ..TWO_PARTS
    };
    send(rt, alloc, &sending, &OpenGate)
}

/// Nothing is printed, and this fault is reported.
fn want_fault(rt: &impl Abort, said: &Said, fault: &str, status: u8, at: u64) {
    same(
        rt,
        (at, (said.fault.as_str(), said.status)),
        (at, (fault, status)),
    );
    same(rt, (at, said.printed.is_empty()), (at, true));
}

#[test]
fn a_writer_fails_at_each_octet(rt: HostRuntime) -> Result<(), Fail> {
    let alloc = rt.alloc();
    let first = format!(in alloc;
        "{REPORT}0,1,1,unanswered,,\n0,2,0,unsent,,\n{STATEMENT}main,3,2,1,0,1\n"
    )?;
    let second = format!(in alloc;
        "{REPORT}0,1,1,charged,0,m1\n0,2,1,unanswered,,\n{STATEMENT}main,3,1,1,1,0\n"
    )?;
    for octets in 0..BIND + FIRST + SECOND + UNBIND + 1 {
        let said = said_of(&rt, alloc, PLAIN.reads, octets, PLAIN.prints)?;
        let (text, status) = if octets < BIND {
            want_fault(&rt, &said, "fault: bind 0 failed", 3, octets);
            ("", 3)
        } else if octets < BIND + FIRST {
            (first.as_str(), 4)
        } else if octets < BIND + FIRST + SECOND {
            (second.as_str(), 4)
        } else {
            (CHARGED, 0)
        };
        same(&rt, (octets, text_of(&rt, &said)), (octets, text));
        same(&rt, (octets, said.status), (octets, status));
    }
    Ok(())
}

/// A part is charged exactly where its answer was read whole.
#[test]
fn a_reader_fails_at_each_octet(rt: HostRuntime) -> Result<(), Fail> {
    let alloc = rt.alloc();
    for octets in 0..BOUND + 2 * ANSWER + UNBIND + 1 {
        let said = said_of(&rt, alloc, octets, PLAIN.writes, PLAIN.prints)?;
        if octets < BOUND {
            want_fault(&rt, &said, "fault: bind 0 failed", 3, octets);
        } else {
            let text = text_of(&rt, &said);
            let answers = ((octets - BOUND) / ANSWER).min(2);
            same(
                &rt,
                (octets, text, is_balanced(alloc, text, 3)?),
                (octets, text, true),
            );
            same(
                &rt,
                (octets, count(text, ",charged,0,m")),
                (octets, answers),
            );
            let open = count(text, ",unanswered,") != 0;
            same(
                &rt,
                (octets, said.status),
                (octets, if open { 4 } else { 0 }),
            );
            if answers == 2 {
                same(&rt, (octets, text), (octets, CHARGED));
            }
        }
    }
    Ok(())
}

#[test]
fn an_output_fails_at_each_octet(rt: HostRuntime) -> Result<(), Fail> {
    let alloc = rt.alloc();
    for octets in 0..CHARGED.len() {
        let said = said_of(&rt, alloc, PLAIN.reads, PLAIN.writes, octets as u64)?;
        same(
            &rt,
            (octets, (said.fault.as_str(), said.status)),
            (octets, ("fault: output", 1)),
        );
        same(&rt, said.printed.as_slice(), &CHARGED.as_bytes()[..octets]);
    }
    let said = said_of(&rt, alloc, PLAIN.reads, PLAIN.writes, CHARGED.len() as u64)?;
    same(&rt, (text_of(&rt, &said), said.status), (CHARGED, 0));
    Ok(())
}

// A report agrees to the credit, and the status tells whether a segment is open.
fn want_report(rt: &impl Abort, alloc: Global, said: &Said, topped: u64) {
    let text = text_of(rt, said);
    if let Ok(balanced) = is_balanced(alloc, text, topped) {
        same(rt, (text, balanced), (text, true));
    }
    let open = count(text, ",unanswered,") != 0;
    same(rt, said.status, if open { 4 } else { 0 });
}

fn is_bind_fault(said: &Said) -> bool {
    let fault = said.fault.as_str();
    fault.starts_with("fault: bind ") && fault.ends_with(" failed") && said.status == 3
}

fn is_memory_fault(said: &Said) -> bool {
    said.fault.as_str() == "fault: out of memory" && said.status == 1
}

/// A whole report that balances, or a fault that names memory or a bind that failed for lack of it.
fn want_report_or_fault(rt: &impl Abort, alloc: Global, said: &Said, topped: u64) {
    if said.fault.is_empty() {
        want_report(rt, alloc, said, topped);
    } else {
        assert!(rt; said.printed.is_empty());
        // Where it says that nothing was sent, the centre heard of a bind at the most.
        assert!(rt; !said.unsent || said.heard.len() as u64 <= BIND + UNBIND);
        same(
            rt,
            (
                said.fault.as_str(),
                is_memory_fault(said) || is_bind_fault(said),
            ),
            (said.fault.as_str(), true),
        );
    }
}

/// Several requests are written in one turn, and the writer fails at each octet of theirs.
#[test]
fn a_writer_fails_among_many_requests(rt: HostRuntime) -> Result<(), Fail> {
    let alloc = rt.alloc();
    let texts = format!(in alloc; "{LONG} Hi Ho")?;
    let messages = messages_of(alloc, texts.as_str())?;
    for octets in BIND..BIND + FIRST + SECOND + 2 * SHORT + UNBIND {
        let sending = Sending {
            accounts: "account,credits\nmain,5\n",
            messages: messages.as_str(),
            writes: octets,
            ..PLAIN
        };
        let said = send(&rt, alloc, &sending, &OpenGate)?;
        same(&rt, (octets, said.fault.is_empty()), (octets, true));
        want_report_or_fault(&rt, alloc, &said, 5);
    }
    Ok(())
}

#[test]
fn memory_of_a_sending(rt: HostRuntime) {
    if let Ok(said) = said_of(&rt, rt.alloc(), PLAIN.reads, PLAIN.writes, PLAIN.prints) {
        want_report_or_fault(&rt, rt.alloc(), &said, 3);
    }
}

#[test]
fn memory_of_two_binds(rt: HostRuntime) {
    let Ok(messages) = messages_of(rt.alloc(), "Hi Ho Ha") else {
        return;
    };
    let sending = Sending {
        config: "binds = 2\nworkers = 2\nanswers = [\"status 88\", \"status 0\"]",
        accounts: "account,credits\nmain,5\n",
        messages: messages.as_str(),
        tariff: Some("prefix,credits\n44,1\n"),
        ..PLAIN
    };
    if let Ok(said) = send(&rt, rt.alloc(), &sending, &OpenGate) {
        want_report_or_fault(&rt, rt.alloc(), &said, 5);
    }
}
