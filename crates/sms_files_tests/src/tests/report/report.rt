//! What is printed of ends and accounts.

ghost use Rattle.std.specs.Prelude.{◌≤◌, length};

use super::same::same;
use sms_bind::{Receipt, Wire};
use sms_book::{Opening, Statement};
use sms_centre::Fuse;
use sms_core::Row;
use sms_files::{OutputFault, report_text, write_report_of};
use sms_pdu::{Frame, Reply, Tap, is_frame, reply_of};
use sms_worker::{
    Attempt, Attempts, MessageEnd, MessageRefusal, MessageResult, Outcome, SegmentEnd, Segments,
};
use std::alloc::{AllocError, Global};
use std::test::Fail;

// An enquire_link.
fn frame(alloc: Global) -> Result<Frame, Fail> {
    let octets = Vec::from_slice(alloc, b"\0\0\0\x10\0\0\0\x15\0\0\0\0\0\0\0\x01")?;
    if !is_frame(octets.as_slice()) {
        return Err("no frame".into());
    }
    Ok(Frame::new(octets))
}

// A receipt of a frame that a wire in memory took.
fn receipt(alloc: Global) -> Result<Receipt, Fail> {
    let mut wire = Wire::new(Tap::new(Vec::new(alloc)));
    match wire.send(frame(alloc)?) {
        Ok(receipt) => Ok(receipt),
        Err(_) => Err(Fail::from(AllocError)),
    }
}

// The reply that a submit_sm_resp with this status and message_id is.
pub fn reply(status: u8, text: &[u8]) -> Option<Reply>
    requires { length text.now ≤ 64 }
{
    let mut octets = [0; 81];
    octets[4] = 0x80;
    octets[7] = 4;
    octets[11] = status;
    octets[15] = 1;
    for (place, octet) in text.iter().enumerate() {
        octets[16 + place] = *octet;
    }
    reply_of(&octets)
}

// A segment with attempts that had these replies.
pub fn segment(
    alloc: Global,
    outcome: Outcome,
    replies: &[Option<Reply>],
) -> Result<SegmentEnd, Fail> {
    let mut attempts = Vec::new(alloc);
    for reply in replies {
        attempts.push(Attempt {
            number: 1,
            sent: receipt(alloc)?,
            reply: *reply,
        })?;
    }
    Ok(SegmentEnd {
        cost: 1,
        attempts: Attempts::new(attempts),
        outcome,
    })
}

// Segments of all outcomes.
fn all_outcomes(alloc: Global) -> Result<Vec<SegmentEnd>, Fail> {
    let mut segments = Vec::new(alloc);
    let throttled = reply(88, b"");
    segments.push(segment(alloc, Outcome::Charged, &[throttled, reply(0, b"m1")])?)?;
    segments.push(segment(alloc, Outcome::Refused, &[throttled])?)?;
    segments.push(segment(alloc, Outcome::Unanswered, &[throttled, None])?)?;
    segments.push(segment(alloc, Outcome::Unsent, &[])?)?;
    segments.push(segment(alloc, Outcome::Charged, &[reply(0, b"a, \"\xff~\x7f!")])?)?;
    Ok(segments)
}

// Adds a message for each refusal.
fn push_refusals(ends: &mut Vec<MessageEnd>) -> Result<(), Fail> {
    for refusal in [
        MessageRefusal::NoAccount,
        MessageRefusal::NoCredit,
        MessageRefusal::TooLong,
        MessageRefusal::BadAddress,
        MessageRefusal::BindClosed,
        MessageRefusal::OutOfMemory,
    ] {
        ends.push(MessageEnd {
            index: ends.len() as u64,
            result: MessageResult::Refused(refusal),
        })?;
    }
    Ok(())
}

// The text of these ends, of two accounts.
fn text_of_ends(alloc: Global, ends: &[MessageEnd]) -> Result<String, Fail> {
    let mut openings = Vec::new(alloc);
    let mut rows = Vec::new(alloc);
    for name in ["main", "a \"b\", c"] {
        openings.push(Opening {
            name: String::from_str(alloc, name)?,
            credits: 9,
        })?;
        rows.push(row(9, 4, 3, 2, 1))?;
    }
    let statement = Statement::new(rows);
    Ok(report_text(alloc, openings.as_slice(), ends, statement.rows())?)
}

#[test]
fn prints_every_segment_and_every_account(rt: HostRuntime) -> Result<(), Fail> {
    let alloc = rt.alloc();
    let mut ends = sent(alloc, all_outcomes(alloc)?)?;
    push_refusals(&mut ends)?;
    let text = text_of_ends(alloc, ends.as_slice())?;
    same(
        &rt,
        text.as_str(),
        "message,part,attempts,outcome,status,id\n0,1,2,charged,0,m1\n0,2,1,refused,88,\n0,3,2,unanswered,,\n0,4,0,unsent,,\n0,5,1,charged,0,\"a,?\"\"?~?!\"\n1,0,0,no-account,,\n2,0,0,no-credit,,\n3,0,0,too-long,,\n4,0,0,bad-address,,\n5,0,0,bind-closed,,\n6,0,0,out-of-memory,,\naccount,topped,free,reserved,charged,returned\nmain,9,4,3,2,1\n\"a \"\"b\"\", c\",9,4,3,2,1\n",
    );
    Ok(())
}

// What stands before the lines of the messages, and before those of the accounts.
const MESSAGES: &str = "message,part,attempts,outcome,status,id\n";

const ACCOUNTS: &str = "account,topped,free,reserved,charged,returned\n";

// The ends of one message of these segments.
fn sent(alloc: Global, segments: Vec<SegmentEnd>) -> Result<Vec<MessageEnd>, Fail> {
    let mut ends = Vec::new(alloc);
    ends.push(MessageEnd {
        index: 0,
        result: MessageResult::Sent(Segments::new(segments)),
    })?;
    Ok(ends)
}

// One account, and its statement.
fn account(alloc: Global, row: Row) -> Result<(Vec<Opening>, Statement), Fail> {
    let mut openings = Vec::new(alloc);
    openings.push(Opening {
        name: String::from_str(alloc, "main")?,
        credits: row.topped,
    })?;
    let mut rows = Vec::new(alloc);
    rows.push(row)?;
    Ok((openings, Statement::new(rows)))
}

// A row that was opened with so many credits, of which so many are reserved, charged and returned.
pub fn row(topped: u64, free: u64, reserved: u64, charged: u64, returned: u64) -> Row {
    Row {
        topped,
        free,
        reserved,
        charged,
        returned,
    }
}

#[test]
fn prints_the_last_reply_of_each_segment(rt: HostRuntime) -> Result<(), Fail> {
    let alloc = rt.alloc();
    let throttled = reply(88, b"");
    let cases: [(Outcome, &[Option<Reply>], Row, &str, &str); 4] = [
        (
            Outcome::Charged,
            &[throttled, throttled, reply(0, b"m3")],
            row(1, 0, 0, 1, 0),
            "0,1,3,charged,0,m3\n",
            "main,1,0,0,1,0\n",
        ),
        (
            Outcome::Refused,
            &[throttled, throttled],
            row(1, 1, 0, 0, 1),
            "0,1,2,refused,88,\n",
            "main,1,1,0,0,1\n",
        ),
        (
            Outcome::Unanswered,
            &[None],
            row(1, 0, 1, 0, 0),
            "0,1,1,unanswered,,\n",
            "main,1,0,1,0,0\n",
        ),
        (
            Outcome::Unsent,
            &[throttled],
            row(18_446_744_073_709_551_615, 1, 0, 0, 1),
            "0,1,1,unsent,88,\n",
            "main,18446744073709551615,1,0,0,1\n",
        ),
    ];
    for (outcome, replies, row, line, amounts) in cases {
        let mut segments = Vec::new(alloc);
        segments.push(segment(alloc, outcome, replies)?)?;
        let ends = sent(alloc, segments)?;
        let (openings, statement) = account(alloc, row)?;
        let text = report_text(
            alloc,
            openings.as_slice(),
            ends.as_slice(),
            statement.rows(),
        )?;
        let wanted = format!(in alloc; "{MESSAGES}{line}{ACCOUNTS}{amounts}")?;
        same(&rt, text.as_str(), wanted.as_str());
    }
    Ok(())
}

/// An output that fails at each octet holds what stands before it.
#[test]
fn tells_an_output_that_fails_at_each_octet(rt: HostRuntime) -> Result<(), Fail> {
    let alloc = rt.alloc();
    let mut segments = Vec::new(alloc);
    segments.push(segment(alloc, Outcome::Charged, &[reply(0, b"m1")])?)?;
    segments.push(segment(alloc, Outcome::Charged, &[reply(0, b"m2")])?)?;
    let ends = sent(alloc, segments)?;
    let (openings, statement) = account(alloc, row(3, 1, 0, 2, 0))?;
    let wanted = format!(in alloc;
        "{MESSAGES}0,1,1,charged,0,m1\n0,2,1,charged,0,m2\n{ACCOUNTS}main,3,1,0,2,0\n"
    )?;
    for room in 0..wanted.len() + 1 {
        let mut out = Vec::<u8>::with_capacity(alloc, wanted.len())?;
        let mut output = Fuse::new(&mut out, room as u64);
        let written = write_report_of(
            alloc,
            openings.as_slice(),
            ends.as_slice(),
            &statement,
            &mut output,
        );
        match written {
            Ok(()) => assert!(rt; room == wanted.len()),
            Err(OutputFault::Output(_)) => assert!(rt; room < wanted.len()),
            Err(_) => return Err(Fail::from(AllocError)),
        }
        same(&rt, out.as_slice(), &wanted.as_bytes()[..room]);
    }
    Ok(())
}
