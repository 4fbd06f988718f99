//! What is booked of parts in doubt.

use crate::tests::{WEEK, ledger_of, name_of, same};
use crate::{Decision, Fate, Refusal, Run, RunAccount};
use std::alloc::{AllocError, Global};
use std::process::Abort;
use std::test::Fail;

/// A message, its part, and its credits and fate.
type Part = (u64, u8, u64, Fate);

/// What decisions append: these lines or others, or a refusal.
#[derive(Clone, Copy, Debug, PartialEq, Eq)]
enum End {
    Booked(bool),
    Refused(Refusal),
}

/// Of the week's first run 5 credits of alpha are in doubt, and two parts are decided.
const CASES: [(&[Part], &str, End); 6] = [
    (&[], "", End::Booked(true)),
    (
        &[(7, 3, 5, Fate::Lost), (7, 3, 5, Fate::Lost)],
        "decided,9,00000000000000000000000000000001,7,3,alpha,5,lost\n",
        End::Booked(true),
    ),
    // What is booked so is booked once.
    (
        &[(7, 1, 10, Fate::Delivered), (7, 3, 4, Fate::Delivered)],
        "decided,9,00000000000000000000000000000001,7,3,alpha,4,delivered\n",
        End::Booked(true),
    ),
    (
        &[(7, 1, 10, Fate::Lost)],
        "",
        End::Refused(Refusal::DecidedBefore),
    ),
    (
        &[(7, 3, 5, Fate::Lost), (7, 3, 5, Fate::Delivered)],
        "",
        End::Refused(Refusal::DecidedBefore),
    ),
    (&[(7, 3, 6, Fate::Lost)], "", End::Refused(Refusal::NoDoubt)),
];

fn pair_of(rt: &impl Abort, alloc: Global) -> RunAccount {
    let Ok(Some(run)) = Run::read(alloc, b"00000000000000000000000000000001".as_slice()) else {
        panic!(rt; "the digits are no run's name");
    };
    RunAccount {
        run,
        account: name_of(rt, alloc, b"alpha".as_slice()),
    }
}

fn decisions_of(
    rt: &impl Abort,
    alloc: Global,
    parts: &[Part],
) -> Result<Vec<Decision>, AllocError> {
    let mut decisions = Vec::new(alloc);
    for (message, part, cost, fate) in parts {
        decisions.push(Decision {
            of: pair_of(rt, alloc),
            message: *message,
            part: *part,
            cost: *cost,
            fate: *fate,
        })?;
    }
    Ok(decisions)
}

fn end_of(rt: &impl Abort, alloc: Global, parts: &[Part], lines: &str) -> Result<End, AllocError> {
    let mut ledger = ledger_of(rt, alloc, WEEK);
    let decisions = decisions_of(rt, alloc, parts)?;
    let end = match ledger.decide_parts(alloc, 9, decisions.as_slice()) {
        Ok(text) => End::Booked(text.as_str() == lines),
        Err(refusal) => End::Refused(refusal),
    };
    drop(decisions);
    drop(ledger);
    Ok(end)
}

#[test]
fn a_part_is_decided_once(rt: HostRuntime) -> Result<(), Fail> {
    let alloc = rt.alloc();
    for (parts, lines, end) in &CASES {
        same(&rt, end_of(&rt, alloc, parts, lines)?, *end);
    }
    Ok(())
}
