//! What is left by reports that the program prints: each report of ends that a run can have is taken.

use super::fault_text::fault_text;
use super::same::same;
use sms_files::{Input, read_input, report_text};
use sms_journal::{recovered_rows, run_rest};
use sms_message::{
    Attempt, Attempts, MessageEnd, MessageRefusal, MessageResult, Outcome, SegmentEnd, Segments,
};
use sms_pdu::{MessageId, Reply};
use std::alloc::{AllocError, Global};
use std::process::Abort;
use std::test::Fail;

const ACCOUNTS: &[u8] = b"account,credits\n\"a \"\"b\"\", c\",20\n0,9\n";

const TARIFF: &[u8] = b"prefix,credits\n44,2\n";

/// The first message is sent in two parts for 4 credits, the second in one for 1.
const MESSAGES: &str = concat!(
    "account,source,destination,text\n\"a \"\"b\"\", c\",1,+44,",
    "one two three four five six seven eight nine ten one two three four five six seven eight nine ten ",
    "one two three four five six seven eight nine ten one two three four five six seven eight nine ten\n",
    "0,Bank,33,hi\n",
);

/// An answer: its command_status, and whether it is a generic_nack.
type Answer = Option<(u32, bool)>;

/// Answers of a part's attempts, and what they come to.
const PARTS: [(&[Answer], Outcome); 8] = [
    (&[], Outcome::Unsent),
    (&[None], Outcome::Unanswered),
    (&[Some((0, false))], Outcome::Charged),
    (&[Some((11, false))], Outcome::Refused),
    (&[Some((0, true))], Outcome::Refused),
    (&[Some((88, false)), Some((0, false))], Outcome::Charged),
    (&[Some((20, false)), None], Outcome::Unanswered),
    (
        &[Some((88, false)), Some((20, false)), Some((88, false))],
        Outcome::Refused,
    ),
];

/// Why a message that no check stands against may be refused.
const REFUSALS: [MessageRefusal; 3] = [
    MessageRefusal::BindClosed,
    MessageRefusal::NoCredit,
    MessageRefusal::OutOfMemory,
];

fn had<T: Drop>(rt: &impl Abort, value: Option<T>) -> T {
    match value {
        Some(value) => value,
        None => panic!(rt; "nothing there"),
    }
}

fn reply_of(answer: Answer) -> Option<Reply> {
    let (status, nack) = answer?;
    Some(Reply {
        number: 1,
        status,
        nack,
        id: MessageId::empty(),
    })
}

fn part_of(alloc: Global, kind: usize, cost: u32) -> Result<SegmentEnd<()>, AllocError> {
    let (answers, outcome) = PARTS[kind % 8];
    let mut attempts = Vec::new(alloc);
    for answer in answers {
        attempts.push(Attempt {
            number: 1,
            sent: (),
            reply: reply_of(*answer),
        })?;
    }
    Ok(SegmentEnd {
        cost,
        attempts: Attempts::new(attempts),
        outcome,
    })
}

/// An end of a message of so many parts: below 64 with parts of these kinds, else refused.
fn end_of(
    alloc: Global,
    index: u64,
    count: usize,
    kind: usize,
) -> Result<MessageEnd<()>, AllocError> {
    if kind >= 64 {
        let result = MessageResult::Refused(REFUSALS[kind % 3]);
        return Ok(MessageEnd { index, result });
    }
    let mut parts = Vec::new(alloc);
    for part in 0..count {
        let kind = if part == 0 { kind } else { kind / 8 };
        parts.push(part_of(alloc, kind, if index == 0 { 2 } else { 1 })?)?;
    }
    let result = MessageResult::Sent(Segments::new(parts));
    Ok(MessageEnd { index, result })
}

fn input_of(rt: &impl Abort, alloc: Global) -> Input {
    had(
        rt,
        read_input(
            alloc,
            b"".as_slice(),
            ACCOUNTS,
            MESSAGES.as_bytes(),
            Some(TARIFF),
        )
        .ok(),
    )
}

/// The report that is printed of two messages that ended so.
fn printed(
    rt: &impl Abort,
    alloc: Global,
    input: &Input,
    first: usize,
    second: usize,
) -> Result<String, Fail> {
    let mut ends = Vec::new(alloc);
    ends.push(end_of(alloc, 0, 2, first)?)?;
    ends.push(end_of(alloc, 1, 1, second)?)?;
    let rows = recovered_rows(alloc, input.openings(), input.messages(), ends.as_slice());
    let rows = had(rt, rows.ok());
    match report_text(alloc, input.openings(), ends.as_slice(), rows.as_slice()) {
        Ok(text) => Ok(text),
        Err(_refused) => Err(Fail::from(AllocError)),
    }
}

/// What is said of a report.
fn said_of(alloc: Global, report: &[u8]) -> Result<String, Fail> {
    let mut out = Vec::new(alloc);
    let said = run_rest(
        alloc,
        b"",
        ACCOUNTS,
        MESSAGES.as_bytes(),
        Some(TARIFF),
        report,
        None,
        &mut out,
    );
    match said {
        Ok(()) => Ok(String::from_str(alloc, "taken")?),
        Err(fault) => fault_text(alloc, fault),
    }
}

#[test]
fn takes_each_report_of_ends_that_a_run_can_have(rt: HostRuntime) -> Result<(), Fail> {
    let alloc = rt.alloc();
    let input = input_of(&rt, alloc);
    for first in 0..67usize {
        let report = printed(&rt, alloc, &input, first, (first * 5 + 1) % 67)?;
        let said = said_of(alloc, report.as_bytes())?;
        same(&rt, said.as_str(), "taken");
    }
    Ok(())
}
