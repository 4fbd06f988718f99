//! Journals written by hand, and what is recovered from them.

mod lines;
mod plain;
mod reading;
mod recovery;

use sms_book::{Opening, Tariff};
use sms_journal::{JournalError, Note, RequestId, RunSize, check_notes, recover, recovered_rows};
use sms_message::{Fields, Message, MessageEnd, MessageRefusal, MessageResult, Outcome, Rules};
use sms_pdu::{MessageId, Reply};
use sms_session::Policy;
use std::alloc::{AllocError, Global};
use std::fmt::Debug;
use std::process::Abort;
use std::test::Fail;

// Both are the same. A test that compares by a call has a short proof.
fn same<T: PartialEq + Debug + Drop>(rt: &impl Abort, got: T, wanted: T) {
    assert_eq!(rt; got, wanted);
}

const OK: u32 = 0;

const THROTTLED: u32 = 0x58;

const SYSTEM_ERROR: u32 = 8;

/// A note, as a table can hold it: requests are those of the one worker.
#[derive(Clone, Copy)]
enum Row {
    Begun(u64),
    Sent(u32, u64, u8),
    Unsent(u32),
    Heard(u32, u32, bool),
    Refused(u64),
    End,
    Round,
}

/// The end of a message: the outcome of its one part, and the number of its attempts.
#[derive(Clone, Copy, Debug, PartialEq, Eq)]
enum Shown {
    Part(Outcome, usize),
    Refused(MessageRefusal),
    Other,
}

/// One account, and one worker at one bind.
const SIZE: RunSize = RunSize {
    accounts: 1,
    binds: 1,
    workers: 1,
};

/// A journal of two messages: the place of the first note that doesn't follow, and the ends of both.
struct Case {
    rows: &'static [Row],
    fault: Option<usize>,
    first: Shown,
    second: Shown,
}

const CLOSED: Shown = Shown::Refused(MessageRefusal::BindClosed);

const CASES: [Case; 15] = [
    Case {
        rows: &[],
        fault: None,
        first: CLOSED,
        second: CLOSED,
    },
    Case {
        rows: &[Row::Begun(0)],
        fault: None,
        first: Shown::Part(Outcome::Unsent, 0),
        second: CLOSED,
    },
    Case {
        rows: &[Row::Begun(0), Row::Sent(1, 0, 1)],
        fault: None,
        first: Shown::Part(Outcome::Unanswered, 1),
        second: CLOSED,
    },
    Case {
        rows: &[Row::Begun(0), Row::Sent(1, 0, 1), Row::Unsent(1)],
        fault: None,
        first: Shown::Part(Outcome::Unsent, 0),
        second: CLOSED,
    },
    Case {
        rows: &[
            Row::Refused(0),
            Row::Begun(1),
            Row::Sent(1, 1, 1),
            Row::Heard(1, OK, false),
            Row::End,
        ],
        fault: None,
        first: Shown::Refused(MessageRefusal::NoCredit),
        second: Shown::Part(Outcome::Charged, 1),
    },
    // A generic_nack charges nothing, whatever its status.
    Case {
        rows: &[Row::Begun(0), Row::Sent(1, 0, 1), Row::Heard(1, OK, true)],
        fault: None,
        first: Shown::Part(Outcome::Refused, 1),
        second: CLOSED,
    },
    // Sent again behind a retry status.
    Case {
        rows: &[
            Row::Begun(0),
            Row::Sent(1, 0, 1),
            Row::Heard(1, THROTTLED, false),
            Row::Sent(2, 0, 1),
            Row::Heard(2, OK, false),
        ],
        fault: None,
        first: Shown::Part(Outcome::Charged, 2),
        second: CLOSED,
    },
    Case {
        rows: &[Row::Refused(0), Row::Begun(1)],
        fault: None,
        first: Shown::Refused(MessageRefusal::NoCredit),
        second: Shown::Part(Outcome::Unsent, 0),
    },
    // A second answer to a request, and a request behind a charge.
    Case {
        rows: &[
            Row::Begun(0),
            Row::Sent(1, 0, 1),
            Row::Heard(1, OK, false),
            Row::Heard(1, SYSTEM_ERROR, false),
        ],
        fault: Some(3),
        first: Shown::Part(Outcome::Charged, 1),
        second: CLOSED,
    },
    Case {
        rows: &[
            Row::Begun(0),
            Row::Sent(1, 0, 1),
            Row::Heard(1, OK, false),
            Row::Sent(2, 0, 1),
        ],
        fault: Some(3),
        first: Shown::Part(Outcome::Unanswered, 2),
        second: CLOSED,
    },
    // A number that isn't above the last, and a part that isn't there.
    Case {
        rows: &[
            Row::Begun(0),
            Row::Begun(1),
            Row::Sent(2, 0, 1),
            Row::Sent(1, 1, 1),
        ],
        fault: Some(3),
        first: Shown::Part(Outcome::Unanswered, 1),
        second: Shown::Part(Outcome::Unanswered, 1),
    },
    Case {
        rows: &[Row::Begun(0), Row::Sent(1, 0, 2)],
        fault: Some(1),
        first: Shown::Part(Outcome::Unsent, 0),
        second: CLOSED,
    },
    // Not begun, begun twice, and begun behind its refusal.
    Case {
        rows: &[Row::Sent(1, 0, 1)],
        fault: Some(0),
        first: CLOSED,
        second: CLOSED,
    },
    Case {
        rows: &[Row::Begun(0), Row::Begun(0)],
        fault: Some(1),
        first: Shown::Part(Outcome::Unsent, 0),
        second: CLOSED,
    },
    Case {
        rows: &[Row::Refused(0), Row::Begun(0)],
        fault: Some(1),
        first: Shown::Refused(MessageRefusal::NoCredit),
        second: CLOSED,
    },
];

fn note_of(row: Row) -> Note {
    match row {
        Row::Begun(message) => Note::Begun(message),
        Row::Sent(number, message, part) => Note::Sent(request_of(number), message, part),
        Row::Unsent(number) => Note::Unsent(request_of(number)),
        Row::Heard(number, status, nack) => Note::Heard(
            0,
            Reply {
                number,
                status,
                nack,
                id: MessageId::empty(),
            },
        ),
        Row::Refused(message) => Note::Refused(message, MessageRefusal::NoCredit),
        Row::End => Note::End(0),
        Row::Round => Note::Round(2, 4, 8),
    }
}

fn request_of(number: u32) -> RequestId {
    RequestId { worker: 0, number }
}

fn notes_of(alloc: Global, rows: &[Row]) -> Result<Vec<Note>, AllocError> {
    let mut notes = Vec::new(alloc);
    for row in rows {
        notes.push(note_of(*row))?;
    }
    Ok(notes)
}

fn rules_of(alloc: Global) -> Option<Rules> {
    let tariff = Tariff::new(alloc, &[]).ok()?;
    Some(Rules {
        policy: Policy::new(3, 100).ok()?,
        depth: 8,
        answer_ms: 60_000,
        turns: 1000,
        receipts: false,
        tariff,
        long_reference: false,
        fields: Fields::none(alloc),
    })
}

fn message(alloc: Global, index: u64) -> Result<Message, AllocError> {
    Ok(Message {
        index,
        account: Some(0),
        source: String::from_str(alloc, "123")?,
        dest: String::from_str(alloc, "+447700900123")?,
        text: String::from_str(alloc, "hi")?,
    })
}

fn messages_of(alloc: Global) -> Result<Vec<Message>, AllocError> {
    let mut messages = Vec::new(alloc);
    messages.push(message(alloc, 0)?)?;
    messages.push(message(alloc, 1)?)?;
    Ok(messages)
}

fn shown_result(ended: &MessageResult<()>) -> Shown {
    match ended {
        MessageResult::Refused(refusal) => Shown::Refused(*refusal),
        MessageResult::Sent(parts) => match parts.as_slice() {
            [part] => Shown::Part(part.outcome, part.attempts.as_slice().len()),
            _ => Shown::Other,
        },
    }
}

fn shown_at(ends: &[MessageEnd<()>], place: usize) -> Shown {
    match ends.get(place) {
        Some(end) => shown_result(&end.result),
        None => Shown::Other,
    }
}

fn fault_of(rt: &impl Abort, checked: Result<(), JournalError>) -> Option<usize> {
    match checked {
        Ok(()) => None,
        Err(JournalError::BadNote(place)) => Some(place),
        Err(_) => panic!(rt; "out of memory"),
    }
}

fn ends_of(
    alloc: Global,
    messages: &[Message],
    rules: &Rules,
    notes: &[Note],
) -> Result<Vec<MessageEnd<()>>, AllocError> {
    match recover(alloc, messages, rules, notes) {
        Ok(ends) => Ok(ends),
        Err(_refused) => Err(AllocError),
    }
}

fn check_case(
    rt: &impl Abort,
    alloc: Global,
    messages: &[Message],
    rules: &Rules,
    case: &Case,
) -> Result<(), AllocError> {
    let notes = notes_of(alloc, case.rows)?;
    let checked = check_notes(alloc, messages, rules, SIZE, notes.as_slice());
    same(rt, fault_of(rt, checked), case.fault);
    let ends = ends_of(alloc, messages, rules, notes.as_slice())?;
    same(rt, shown_at(ends.as_slice(), 0), case.first);
    same(rt, shown_at(ends.as_slice(), 1), case.second);
    Ok(())
}

#[test]
fn journals_are_checked_and_recovered(rt: HostRuntime) -> Result<(), Fail> {
    let alloc = rt.alloc();
    let Some(rules) = rules_of(alloc) else {
        return Err("no rules".into());
    };
    let messages = messages_of(alloc)?;
    for case in &CASES {
        check_case(&rt, alloc, messages.as_slice(), &rules, case)?;
    }
    Ok(())
}

/// Journals of two messages, and the row of their account, which begins with 10 credits: free,
/// reserved, charged, returned.
const ROWS: [(&[Row], [u64; 4]); 4] = [
    (&[], [10, 0, 0, 0]),
    (&[Row::Begun(0), Row::Sent(1, 0, 1)], [9, 1, 0, 0]),
    (
        &[Row::Begun(0), Row::Sent(1, 0, 1), Row::Heard(1, OK, false)],
        [9, 0, 1, 0],
    ),
    (
        &[
            Row::Begun(0),
            Row::Begun(1),
            Row::Sent(1, 0, 1),
            Row::Heard(1, SYSTEM_ERROR, false),
        ],
        [10, 0, 0, 2],
    ),
];

fn openings_of(alloc: Global) -> Result<Vec<Opening>, AllocError> {
    let mut openings = Vec::new(alloc);
    openings.push(Opening {
        name: String::from_str(alloc, "main")?,
        credits: 10,
    })?;
    Ok(openings)
}

fn row_after(
    alloc: Global,
    messages: &[Message],
    rules: &Rules,
    openings: &[Opening],
    rows: &[Row],
) -> Result<[u64; 4], Fail> {
    let notes = notes_of(alloc, rows)?;
    let ends = ends_of(alloc, messages, rules, notes.as_slice())?;
    match recovered_rows(alloc, openings, messages, ends.as_slice()) {
        Ok(rows) => match rows.as_slice() {
            [row] => Ok([row.free, row.reserved, row.charged, row.returned]),
            _ => Err("not one row".into()),
        },
        Err(_) => Err("no rows".into()),
    }
}

#[test]
fn rows_are_the_sums_of_the_ends(rt: HostRuntime) -> Result<(), Fail> {
    let alloc = rt.alloc();
    let Some(rules) = rules_of(alloc) else {
        return Err("no rules".into());
    };
    let messages = messages_of(alloc)?;
    let openings = openings_of(alloc)?;
    for (rows, wanted) in &ROWS {
        let got = row_after(
            alloc,
            messages.as_slice(),
            &rules,
            openings.as_slice(),
            rows,
        )?;
        same(&rt, got, *wanted);
    }
    Ok(())
}
