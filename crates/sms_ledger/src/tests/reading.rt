//! Octets that are a ledger's, and others.

use crate::tests::{WEEK, ledger_of, name_of, row, same};
use crate::{Fault, Ledger, Name, Refusal, Row, whole_len};
use std::alloc::{AllocError, Global};
use std::process::Abort;
use std::test::Fail;

fn row_of(rt: &impl Abort, alloc: Global, name: &[u8]) -> Option<Row> {
    let ledger = ledger_of(rt, alloc, WEEK);
    let name = name_of(rt, alloc, name);
    let row = ledger.row(&name);
    drop(name);
    drop(ledger);
    row
}

#[test]
fn a_week_has_its_rows(rt: HostRuntime) -> Result<(), Fail> {
    let alloc = rt.alloc();
    let alpha = Some(row(1000, 315, 200, 5, 480));
    same(&rt, row_of(&rt, alloc, b"alpha".as_slice()), alpha);
    let beta = Some(row(57, 7, 50, 0, 0));
    same(&rt, row_of(&rt, alloc, b"beta".as_slice()), beta);
    same(&rt, row_of(&rt, alloc, b"gamma".as_slice()), None);
    Ok(())
}

/// The fault of octets, or none.
fn fault_of(alloc: Global, text: &[u8]) -> Option<Fault> {
    match Ledger::read(alloc, text) {
        Ok(ledger) => {
            drop(ledger);
            None
        }
        Err(fault) => Some(fault),
    }
}

fn with(alloc: Global, line: &str) -> Result<Vec<u8>, AllocError> {
    let mut text = Vec::new(alloc);
    text.extend_from_slice(WEEK)?;
    text.extend_from_slice(line.as_bytes())?;
    Ok(text)
}

/// A line after the week, and the fault of it.
const LINES: [(&str, Option<Fault>); 27] = [
    ("paid,9,alpha,1,inv-3\n", None),
    (
        "paid,9,alpha,1,inv-1\n",
        Some(Fault::Refused(11, Refusal::PaidBefore)),
    ),
    (
        "paid,9,gamma,1,inv-1\n",
        Some(Fault::Refused(11, Refusal::PaidBefore)),
    ),
    ("paid,9,gamma,1099511627776,\n", None),
    (
        "paid,9,gamma,1099511627777,\n",
        Some(Fault::Refused(11, Refusal::TooMuch)),
    ),
    (
        "paid,9,alpha,1099511626777,\n",
        Some(Fault::Refused(11, Refusal::TooMuch)),
    ),
    (
        "paid,9,alpha,18446744073709551615,\n",
        Some(Fault::Refused(11, Refusal::TooMuch)),
    ),
    (
        "paid,9,alpha,0,\n",
        Some(Fault::Refused(11, Refusal::NothingPaid)),
    ),
    ("paid,9,,1,\n", Some(Fault::Unreadable(11))),
    (
        "taken,9,00000000000000000000000000000003,gamma,0\n",
        Some(Fault::Refused(11, Refusal::NoAccount)),
    ),
    (
        "taken,9,00000000000000000000000000000003,alpha,316\n",
        Some(Fault::Refused(11, Refusal::NoCredit)),
    ),
    (
        "taken,9,00000000000000000000000000000001,alpha,1\n",
        Some(Fault::Refused(11, Refusal::TakenBefore)),
    ),
    (
        "back,9,00000000000000000000000000000001,beta,0,0,0\n",
        Some(Fault::Refused(11, Refusal::NotTaken)),
    ),
    (
        "back,9,00000000000000000000000000000001,alpha,100,30,470\n",
        Some(Fault::Refused(11, Refusal::BackBefore)),
    ),
    (
        "back,9,00000000000000000000000000000002,alpha,0,0,199\n",
        Some(Fault::Refused(11, Refusal::Unequal)),
    ),
    (
        "decided,9,00000000000000000000000000000003,0,1,alpha,1,lost\n",
        Some(Fault::Refused(11, Refusal::NotTaken)),
    ),
    (
        "decided,9,00000000000000000000000000000002,0,1,alpha,1,lost\n",
        Some(Fault::Refused(11, Refusal::NotBack)),
    ),
    (
        "decided,9,00000000000000000000000000000001,7,3,alpha,6,lost\n",
        Some(Fault::Refused(11, Refusal::NoDoubt)),
    ),
    (
        "decided,9,00000000000000000000000000000001,7,3,alpha,5,lost\n",
        None,
    ),
    (
        "decided,9,00000000000000000000000000000001,7,2,alpha,1,lost\n",
        Some(Fault::Refused(11, Refusal::DecidedBefore)),
    ),
    (
        "decided,9,00000000000000000000000000000001,7,3,alpha,5,found\n",
        Some(Fault::Unreadable(11)),
    ),
    (
        "decided,9,00000000000000000000000000000001,7,256,alpha,5,lost\n",
        Some(Fault::Unreadable(11)),
    ),
    ("paid,09,alpha,1,inv-3\n", Some(Fault::Unreadable(11))),
    ("paid,9,caf%c3%a9%2c,1,\n", None),
    ("paid,9,caf%C3%a9,1,\n", Some(Fault::Unreadable(11))),
    ("paid,9,%61lpha,1,\n", Some(Fault::Unreadable(11))),
    ("paid,9,alpha%2,1,\n", Some(Fault::Unreadable(11))),
];

fn check_line(
    rt: &impl Abort,
    alloc: Global,
    line: &str,
    wanted: Option<Fault>,
) -> Result<(), AllocError> {
    let text = with(alloc, line)?;
    same(rt, fault_of(alloc, text.as_slice()), wanted);
    Ok(())
}

#[test]
fn each_line_has_its_fault(rt: HostRuntime) -> Result<(), Fail> {
    for (line, wanted) in &LINES {
        check_line(&rt, rt.alloc(), line, *wanted)?;
    }
    Ok(())
}

#[test]
fn a_cut_line_does_not_count(rt: HostRuntime) -> Result<(), Fail> {
    let alloc = rt.alloc();
    let text = with(alloc, "paid,9,alpha,1,inv-1")?;
    same(&rt, fault_of(alloc, text.as_slice()), None);
    same(&rt, whole_len(text.as_slice()), WEEK.len());
    same(&rt, fault_of(alloc, b"ledg".as_slice()), None);
    same(
        &rt,
        fault_of(alloc, b"journal,1\n".as_slice()),
        Some(Fault::Unreadable(1)),
    );
    Ok(())
}
