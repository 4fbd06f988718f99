//! The plans of files, worked out by hand, and the faults.

use super::broken::{FailingInput, FailingOutput};
use super::same::same;
use super::told::told_of;
use sms_files::Source;
use sms_send::{Fault, run_plan};
use std::alloc::Global;
use std::process::Abort;
use std::test::Fail;

// The octets that plan prints of a messages file, or the text of its fault; nothing is printed then.
fn planned(rt: &impl Abort, alloc: Global, input: &[u8], long: bool) -> Result<Vec<u8>, Fail> {
    let mut output = Vec::new(alloc);
    match run_plan(alloc, input, long, &mut output) {
        Ok(status) => same(rt, status, 0),
        Err(fault) => {
            assert!(rt; output.is_empty());
            same(rt, fault.exit_status(), 1);
            let text = told_of(alloc, fault)?;
            output.extend_from_slice(text.as_bytes())?;
        }
    }
    Ok(output)
}

// A messages file whose first message has so many letters, and whose second is one Cyrillic letter.
fn letters(alloc: Global, count: usize) -> Result<String, Fail> {
    let mut input = String::from_str(alloc, "account,source,destination,text\nmain,1,2,")?;
    for _ in 0..count {
        input.push_str("a")?;
    }
    input.push_str("\nmain,1,2,\u{436}\n")?;
    Ok(input)
}

// How many letters, whether their references have 16 bits, and the plan.
const PLANNED: [(usize, bool, &str); 4] = [
    (
        161,
        false,
        "message,coding,units,parts,sizes\n0,gsm,161,2,153 8\n1,ucs2,1,1,1\n",
    ),
    (
        161,
        true,
        "message,coding,units,parts,sizes\n0,gsm,161,2,152 9\n1,ucs2,1,1,1\n",
    ),
    (
        39_016,
        false,
        "message,coding,units,parts,sizes\n0,gsm,39016,0,too-long\n1,ucs2,1,1,1\n",
    ),
    (
        0,
        false,
        "message,coding,units,parts,sizes\n0,gsm,0,1,0\n1,ucs2,1,1,1\n",
    ),
];

#[test]
fn plans_the_texts_of_a_file(rt: HostRuntime) -> Result<(), Fail> {
    let alloc = rt.alloc();
    for (count, long, wanted) in &PLANNED {
        let input = letters(alloc, *count)?;
        let output = planned(&rt, alloc, input.as_bytes(), *long)?;
        same(
            &rt,
            (*count, output.as_slice()),
            (*count, wanted.as_bytes()),
        );
    }
    Ok(())
}

// Messages files, and the plan of each or its fault.
const RECORDS: [(&[u8], &str); 9] = [
    (
        b"account,source,destination,text\nmain,1,2\n",
        "fault: messages record 2",
    ),
    (
        b"account,source,destination,text\nmain,1,2,hi\nmain,1,2,hi,there\nmain\n",
        "fault: messages record 3",
    ),
    (
        b"account,source,destination,text\nmain,1,2,hi\nmain,1,\xff,hi\n",
        "fault: messages record 3",
    ),
    (
        b"account,source,destination,text\nmain,1,2,\xd0\n",
        "fault: messages record 2",
    ),
    (b"", "fault: messages record 1"),
    (
        b"account,source,destination,texts\nmain,1,2,hi\n",
        "fault: messages record 1",
    ),
    (b"account,source,destination\n", "fault: messages record 1"),
    // Quotes keep a comma in the text; empty lines are no records.
    (
        b"account,source,destination,text\n\nmain,1,2,\"[a,b]\"\n",
        "message,coding,units,parts,sizes\n0,gsm,7,1,7\n",
    ),
    (
        b"account,source,destination,text",
        "message,coding,units,parts,sizes\n",
    ),
];

#[test]
fn names_the_first_faulty_record(rt: HostRuntime) -> Result<(), Fail> {
    for (input, wanted) in &RECORDS {
        let output = planned(&rt, rt.alloc(), input, false)?;
        same(&rt, output.as_slice(), wanted.as_bytes());
    }
    Ok(())
}

// That a plan of a device that fails behind these octets is refused with this fault.
fn want_plan_fault(rt: &(impl AllocGlobal + Abort), left: &[u8], wanted: &str) {
    let alloc = rt.alloc();
    let planned = run_plan(alloc, FailingInput { left }, false, &mut Vec::new(alloc));
    let Err(fault) = planned else {
        panic!(rt; "no fault")
    };
    match told_of(alloc, fault) {
        Ok(told) => same(rt, told.as_str(), wanted),
        Err(_) => panic!(rt; "no memory"),
    }
}

// A file may have 100,000 messages behind its header; behind one more nothing is read, since the
// device fails there.
#[test]
fn names_the_record_past_the_limit(rt: HostRuntime) -> Result<(), Fail> {
    let mut input = String::from_str(rt.alloc(), "account,source,destination,text\n")?;
    for _ in 0..100_001 {
        input.push_str("main,1,2,a\n")?;
    }
    let whole = input.as_bytes();
    let without_the_last = &whole[..whole.len().saturating_sub(11)];
    want_plan_fault(&rt, whole, "fault: messages record 100002");
    want_plan_fault(&rt, without_the_last, "fault: file messages");
    Ok(())
}

// That a plan whose output fails behind so many octets is refused with this fault.
fn want_broken_writer(rt: &(impl AllocGlobal + Abort), input: &[u8], room: usize) {
    let mut output = FailingOutput { room };
    match run_plan(rt.alloc(), input, false, &mut output) {
        Err(Fault::Output(_)) => {}
        _ => panic!(rt; "a broken writer"),
    }
}

// That a plan whose input fails behind these octets is refused with this fault.
fn want_broken_reader(rt: &(impl AllocGlobal + Abort), left: &[u8]) {
    let alloc = rt.alloc();
    match run_plan(alloc, FailingInput { left }, false, &mut Vec::new(alloc)) {
        Err(Fault::Unreadable(Source::Messages, _)) => {}
        _ => panic!(rt; "a broken reader"),
    }
}

#[test]
fn tells_what_failed(rt: HostRuntime) -> Result<(), Fail> {
    let input = letters(rt.alloc(), 1)?;
    for room in [0, 10, 1000] {
        want_broken_writer(&rt, input.as_bytes(), room);
    }
    let messages = b"account,source,destination,text\nmain,1,2,a\n";
    for given in [0, 5, 40] {
        want_broken_reader(&rt, &messages[..given]);
    }
    Ok(())
}
