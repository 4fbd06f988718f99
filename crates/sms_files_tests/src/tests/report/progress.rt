//! The lines on the way and at the end of a sending, worked out by hand.

use super::report::{reply, row, segment};
use super::same::same;
use sms_book::Statement;
use sms_files::{EndLine, Tally, WayLine, are_whole, summary_of, tally_of};
use sms_pdu::Reply;
use sms_worker::{MessageEnd, MessageRefusal, MessageResult, Outcome, Segments};
use std::alloc::Global;
use std::process::Abort;
use std::test::Fail;

/// What became of a segment, and its replies.
type Told<'a> = (Outcome, &'a [Option<Reply>]);

// Adds a message with these segments to the ends.
fn push_sent(alloc: Global, ends: &mut Vec<MessageEnd>, told: &[Told<'_>]) -> Result<(), Fail> {
    let mut segments = Vec::new(alloc);
    for (outcome, replies) in told {
        segments.push(segment(alloc, *outcome, *replies)?)?;
    }
    ends.push(MessageEnd {
        index: ends.len() as u64,
        result: MessageResult::Sent(Segments::new(segments)),
    })?;
    Ok(())
}

// Adds a message that was refused to the ends.
fn push_refused(ends: &mut Vec<MessageEnd>) -> Result<(), Fail> {
    ends.push(MessageEnd {
        index: ends.len() as u64,
        result: MessageResult::Refused(MessageRefusal::NoCredit),
    })?;
    Ok(())
}

#[test]
fn sums_up_a_sending(rt: HostRuntime) -> Result<(), Fail> {
    let alloc = rt.alloc();
    let charged = (Outcome::Charged, [reply(0, b"m1")]);
    let mut ends = Vec::new(alloc);
    push_sent(
        alloc,
        &mut ends,
        &[(charged.0, &charged.1), (Outcome::Refused, &[])],
    )?;
    push_refused(&mut ends)?;
    push_sent(alloc, &mut ends, &[(Outcome::Unanswered, &[None])])?;
    let mut rows = Vec::new(alloc);
    rows.push(row(9, 4, 3, 2, 1))?;
    rows.push(row(20, 5, 4, 11, 6))?;
    let summary = summary_of(ends.as_slice(), &Statement::new(rows));
    for (ms, trial, wanted) in [
        (
            59,
            false,
            "done: messages 3 (0 sent whole, 3 not), segments 3, credits charged 13, returned 7, still reserved 7, seconds 0.0",
        ),
        (
            12_399,
            true,
            "done: messages 3 (0 sent whole, 3 not), segments 3, credits charged 13, returned 7, still reserved 7, seconds 12.3; a trial: no message centre saw any of it",
        ),
    ] {
        let line = EndLine { summary, ms, trial };
        same(&rt, line.to_string(alloc)?.as_str(), wanted);
    }
    Ok(())
}

#[test]
fn sums_up_to_the_greatest_number(rt: HostRuntime) -> Result<(), Fail> {
    let alloc = rt.alloc();
    let mut rows = Vec::new(alloc);
    rows.push(row(0, 0, 1, u64::MAX - 1, 0))?;
    rows.push(row(0, 0, 2, 3, 0))?;
    rows.push(row(0, 0, 4, 5, 0))?;
    let none: Vec<MessageEnd> = Vec::new(alloc);
    let summary = summary_of(none.as_slice(), &Statement::new(rows));
    let line = EndLine {
        summary,
        ms: 1000,
        trial: false,
    };
    same(
        &rt,
        line.to_string(alloc)?.as_str(),
        "done: messages 0 (0 sent whole, 0 not), segments 0, credits charged 18446744073709551615, returned 0, still reserved 7, seconds 1.0",
    );
    Ok(())
}

// Messages of all kinds: three that are refused or have a segment that is, one that is charged, one
// without an answer, and three that go on.
fn all_kinds(alloc: Global) -> Result<Vec<MessageEnd>, Fail> {
    let throttled = [reply(88, b"")];
    let taken = [reply(0, b"m1")];
    let charged = (Outcome::Charged, taken.as_slice());
    let mut ends = Vec::new(alloc);
    push_refused(&mut ends)?;
    push_sent(alloc, &mut ends, &[charged, (Outcome::Refused, &throttled)])?;
    push_sent(alloc, &mut ends, &[(Outcome::Unsent, &[]), charged])?;
    push_sent(alloc, &mut ends, &[charged, charged])?;
    push_sent(
        alloc,
        &mut ends,
        &[
            (Outcome::Refused, &throttled),
            (Outcome::Unanswered, &[None]),
        ],
    )?;
    push_sent(alloc, &mut ends, &[(Outcome::Unanswered, &[None])])?;
    push_sent(alloc, &mut ends, &[(Outcome::Unanswered, &throttled)])?;
    push_sent(
        alloc,
        &mut ends,
        &[
            (Outcome::Unanswered, &[None]),
            charged,
            (Outcome::Unanswered, &[]),
        ],
    )?;
    Ok(ends)
}

#[test]
fn tells_how_far_messages_are(rt: HostRuntime) -> Result<(), Fail> {
    let ends = all_kinds(rt.alloc())?;
    // So many segments are open, and so many messages unanswered.
    for (open, unanswered) in [(0, 2), (1, 1), (2, 0), (3, 0)] {
        let wanted = Tally {
            charged: 1,
            refused: 3,
            unanswered,
        };
        same(&rt, tally_of(ends.as_slice(), open), wanted);
    }
    let none: Vec<MessageEnd> = Vec::new(rt.alloc());
    same(&rt, tally_of(none.as_slice(), 0), Tally::none());
    Ok(())
}

#[test]
fn tells_the_rate_and_the_time_left(rt: HostRuntime) -> Result<(), Fail> {
    let alloc = rt.alloc();
    let rows: [(u64, u64, u64, u64, u64, &str); 6] = [
        (
            0,
            0,
            0,
            500,
            200,
            "0/500 charged 0 refused 0 unanswered 0, 0/s",
        ),
        // 120 in 2.4 seconds; the other 380 take 7.6.
        (
            110,
            8,
            2,
            500,
            2400,
            "120/500 charged 110 refused 8 unanswered 2, 50/s, 7 s left",
        ),
        (
            3,
            0,
            0,
            3,
            400,
            "3/3 charged 3 refused 0 unanswered 0, 7/s, 0 s left",
        ),
        (
            3,
            0,
            0,
            4,
            0,
            "3/4 charged 3 refused 0 unanswered 0, 0/s, 0 s left",
        ),
        // As many as a file may have.
        (
            10_000,
            10_000,
            10_000,
            100_000,
            30_000_000,
            "30000/100000 charged 10000 refused 10000 unanswered 10000, 1/s, 70000 s left",
        ),
        (
            33_333,
            33_333,
            33_333,
            100_000,
            7,
            "99999/100000 charged 33333 refused 33333 unanswered 33333, 14285571/s, 0 s left",
        ),
    ];
    for (charged, refused, unanswered, all, ms, wanted) in rows {
        let tally = Tally {
            charged,
            refused,
            unanswered,
        };
        let line = WayLine { tally, all, ms };
        let text = line.to_string(alloc)?;
        same(&rt, text.as_str(), wanted);
        same(&rt, text.len() < 80, true);
    }
    Ok(())
}

// Ends of one message with these segments, and whether it was sent whole.
fn compare_whole(
    rt: &(impl AllocGlobal + Abort),
    told: &[Told<'_>],
    whole: bool,
) -> Result<(), Fail> {
    let alloc = rt.alloc();
    let mut ends = Vec::new(alloc);
    push_sent(alloc, &mut ends, told)?;
    same(rt, are_whole(ends.as_slice()), whole);
    let summary = summary_of(ends.as_slice(), &Statement::new(Vec::new(alloc)));
    same(rt, summary.whole, whole as usize);
    Ok(())
}

#[test]
fn counts_what_was_sent_whole(rt: HostRuntime) -> Result<(), Fail> {
    let taken = [reply(0, b"m1")];
    let charged = (Outcome::Charged, taken.as_slice());
    compare_whole(&rt, &[charged], true)?;
    compare_whole(&rt, &[charged, charged], true)?;
    compare_whole(&rt, &[], false)?;
    compare_whole(&rt, &[charged, (Outcome::Refused, &[])], false)?;
    compare_whole(&rt, &[(Outcome::Unsent, &[]), charged], false)?;
    compare_whole(&rt, &[(Outcome::Unanswered, &[None])], false)
}

#[test]
fn counts_whole_messages_of_all_kinds(rt: HostRuntime) -> Result<(), Fail> {
    let alloc = rt.alloc();
    let ends = all_kinds(alloc)?;
    let summary = summary_of(ends.as_slice(), &Statement::new(Vec::new(alloc)));
    same(&rt, (summary.messages, summary.whole), (8, 1));
    same(&rt, are_whole(ends.as_slice()), false);
    let none: Vec<MessageEnd> = Vec::new(alloc);
    same(&rt, are_whole(none.as_slice()), true);
    Ok(())
}
