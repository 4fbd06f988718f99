//! Octets that are an inbox's, and others.

use crate::tests::{records_of, same};
use crate::{Fault, Record, read_inbox, whole_len, write_record};
use std::alloc::{AllocError, Global};
use std::process::Abort;
use std::test::Fail;

/// A receipt, somebody's answer, and a receipt of the same message.
const DAY: &[u8] = b"received,1,0,447700900123,12345,4,m1,ACCEPTD,,\n\
received,2,3,447700900124,12345,0,,,,STOP%20%ff\n\
received,18446744073709551615,255,,,255,m1,DELIVRD,000,id:m1\n";

fn write_again(alloc: Global, records: &[Record]) -> Result<String, AllocError> {
    let mut text = String::new(alloc);
    for record in records {
        write_record(&mut text, &record.as_ref())?;
    }
    Ok(text)
}

#[test]
fn what_is_read_is_written_again(rt: HostRuntime) -> Result<(), Fail> {
    let alloc = rt.alloc();
    let records = records_of(&rt, alloc, DAY);
    let text = write_again(alloc, records.as_slice())?;
    same(&rt, text.as_bytes() == DAY, true);
    same(&rt, records.len(), 3);
    Ok(())
}

/// How many records these octets spell.
fn count_of(rt: &impl Abort, alloc: Global, text: &[u8]) -> usize {
    let records = records_of(rt, alloc, text);
    let count = records.len();
    drop(records);
    count
}

#[test]
fn a_truncated_line_does_not_count(rt: HostRuntime) -> Result<(), Fail> {
    let alloc = rt.alloc();
    let mut whole = 0;
    let mut lines = 0;
    for (i, octet) in DAY.iter().enumerate() {
        let front = &DAY[..i];
        same(&rt, count_of(&rt, alloc, front), lines);
        same(&rt, whole_len(front), whole);
        if *octet == b'\n' {
            whole = i.saturating_add(1);
            lines = lines.saturating_add(1);
        }
    }
    Ok(())
}

/// The fault of octets, or none.
fn fault_of(alloc: Global, text: &[u8]) -> Option<Fault> {
    match read_inbox(alloc, text) {
        Ok(records) => {
            drop(records);
            None
        }
        Err(fault) => Some(fault),
    }
}

/// The line after the day, and whether it is a record's.
const LINES: [(&str, bool); 17] = [
    ("received,9,1,a,b,4,m2,DELIVRD,000,t\n", true),
    ("received,0,0,,,0,,,,\n", true),
    ("received,9,256,a,b,4,m2,DELIVRD,000,t\n", false),
    ("received,9,1,a,b,256,m2,DELIVRD,000,t\n", false),
    (
        "received,18446744073709551616,1,a,b,4,m2,DELIVRD,000,t\n",
        false,
    ),
    ("received,09,1,a,b,4,m2,DELIVRD,000,t\n", false),
    ("received,,1,a,b,4,m2,DELIVRD,000,t\n", false),
    ("received,9,1,a,b,4,m2,DELIVRD,000\n", false),
    ("received,9,1,a,b,4,m2,DELIVRD,000,t,\n", false),
    ("received,9,1,a,b,4,m2,DELIVRD,000,t \n", false),
    ("received,9,1,a,b,4,m2,DELIVRD,000,t\r\n", false),
    ("received,9,1,a,b,4,m2,DELIVRD,000,%41\n", false),
    ("received,9,1,a,b,4,m2,DELIVRD,000,%FF\n", false),
    ("received,9,1,a,b,4,m2,DELIVRD,000,%f\n", false),
    ("received,9,1,a,b,4,m2,\"DELIVRD\",000,t\n", false),
    ("Received,9,1,a,b,4,m2,DELIVRD,000,t\n", false),
    ("\n", false),
];

#[test]
fn a_bad_record_is_named(rt: HostRuntime) -> Result<(), Fail> {
    let alloc = rt.alloc();
    for (line, is_good) in &LINES {
        let mut text = Vec::new(alloc);
        text.extend_from_slice(DAY)?;
        text.extend_from_slice(line.as_bytes())?;
        let fault = if *is_good {
            None
        } else {
            Some(Fault::Unreadable(4))
        };
        same(&rt, fault_of(alloc, text.as_slice()), fault);
    }
    Ok(())
}
