//! What became of parts.

use crate::tests::{records_of, same};
use crate::{ChargedPart, Ids, WritesTime, delivered_text};
use sms_pdu::{MessageId, reply_of};
use std::alloc::{AllocError, Global};
use std::fmt::Write;
use std::process::Abort;
use std::test::Fail;

/// Times in milliseconds.
#[derive(Drop)]
struct Plain;

impl WritesTime for Plain {
    ghost use Rattle.std.specs.Prelude.{decimal};

    ghost time_text = { λ it time. decimal time };

    fn write_time(&self, text: &mut String, time: u64) -> Result<(), AllocError> {
        write!(text, "{time}")
    }
}

/// The ids of parts, how they are spelled, an inbox, and the rows behind the header.
type Case = (Ids, &'static [&'static [u8]], &'static [u8], &'static str);

const CASES: [Case; 9] = [
    // Nothing came, or of others.
    (Ids::Same, &[b"m1"], b"", "0,1,m1,,,\n"),
    (
        Ids::Same,
        &[b"m1", b"", b"M1"],
        b"received,5,0,a,b,4,m11,DELIVRD,000,\nreceived,6,0,a,b,0,,,,m1\nreceived,7,0,a,b,4,,DELIVRD,000,\n",
        "0,1,m1,,,\n0,2,,,,\n0,3,M1,,,\n",
    ),
    // The first final state, whatever comes later.
    (
        Ids::Same,
        &[b"m1"],
        b"received,5,0,a,b,4,m1,ACCEPTD,,\nreceived,6,0,a,b,4,m1,UNDELIV,027,\nreceived,7,0,a,b,4,m1,DELIVRD,000,\nreceived,8,0,a,b,4,m1,ENROUTE,,\n",
        "0,1,m1,UNDELIV,027,6\n",
    ),
    // Else the last.
    (
        Ids::Same,
        &[b"m1"],
        b"received,5,0,a,b,4,m1,ENROUTE,,\nreceived,6,0,a,b,4,m1,UNKNOWN,1,\nreceived,7,0,a,b,4,m1,ACCEPTD,,\n",
        "0,1,m1,ACCEPTD,,7\n",
    ),
    // Two parts with one id, and an id with a comma.
    (
        Ids::Same,
        &[b"m1", b"m1", b"a,b"],
        b"received,5,0,a,b,4,a%2cb,REJECTD,1%2c2,\nreceived,6,0,a,b,4,m1,DELETED,,\n",
        "0,1,m1,DELETED,,6\n0,2,m1,DELETED,,6\n0,3,a%2cb,REJECTD,1%2c2,5\n",
    ),
    // The answer in hexadecimal digits.
    (
        Ids::HexDec,
        &[
            b"4D2",
            b"00004d2",
            b"1234",
            b"fffffffffffffffff",
            b"x1",
            b"",
        ],
        b"received,5,0,a,b,4,0000001234,DELIVRD,000,\nreceived,6,0,a,b,4,4D2,EXPIRED,,\nreceived,7,0,a,b,4,295147905179352825855,DELETED,,\n",
        "0,1,4D2,DELIVRD,000,5\n0,2,00004d2,DELIVRD,000,5\n0,3,1234,,,\n0,4,fffffffffffffffff,,,\n0,5,x1,,,\n0,6,,,,\n",
    ),
    (
        Ids::HexDec,
        &[b"ffffffffffffffff"],
        b"received,5,0,a,b,4,18446744073709551615,DELIVRD,000,\n",
        "0,1,ffffffffffffffff,DELIVRD,000,5\n",
    ),
    // The receipt in hexadecimal digits.
    (
        Ids::DecHex,
        &[b"1234", b"4D2", b"0"],
        b"received,5,0,a,b,4,4D2,DELIVRD,000,\nreceived,6,0,a,b,4,1234,EXPIRED,,\nreceived,7,0,a,b,4,000,DELETED,,\n",
        "0,1,1234,DELIVRD,000,5\n0,2,4D2,,,\n0,3,0,DELETED,,7\n",
    ),
    // Numbers are octets, where nothing else is said.
    (
        Ids::Same,
        &[b"1234"],
        b"received,5,0,a,b,4,01234,DELIVRD,000,\n",
        "0,1,1234,,,\n",
    ),
];

/// The header of a submit_sm_resp.
const SUBMIT_SM_RESP: [u8; 16] = [0, 0, 0, 0, 0x80, 0, 0, 4, 0, 0, 0, 0, 0, 0, 0, 0];

/// The id in an answer with this id.
fn id_of(rt: &impl Abort, alloc: Global, id: &[u8]) -> Result<MessageId, AllocError> {
    let mut answer = Vec::new(alloc);
    answer.extend_from_slice(SUBMIT_SM_RESP.as_slice())?;
    answer.extend_from_slice(id)?;
    answer.push(0)?;
    match reply_of(answer.as_slice()) {
        Some(reply) => Ok(reply.id),
        None => panic!(rt; "the octets are no answer"),
    }
}

fn parts_of(
    rt: &impl Abort,
    alloc: Global,
    ids: &[&'static [u8]],
) -> Result<Vec<ChargedPart>, AllocError> {
    let mut parts = Vec::new(alloc);
    let mut part = 0usize;
    for id in ids {
        part = part.saturating_add(1);
        parts.push(ChargedPart {
            message: 0,
            part,
            id: id_of(rt, alloc, id)?,
        })?;
    }
    Ok(parts)
}

fn are_rows(
    rt: &impl Abort,
    alloc: Global,
    ids: Ids,
    answered: &[&'static [u8]],
    inbox: &[u8],
    rows: &str,
) -> Result<bool, AllocError> {
    let parts = parts_of(rt, alloc, answered)?;
    let records = records_of(rt, alloc, inbox);
    let text = delivered_text(alloc, &Plain, ids, records.as_slice(), parts.as_slice())?;
    let are = text
        .as_str()
        .strip_prefix("message,part,id,state,error,heard\n")
        == Some(rows);
    drop(text);
    drop(records);
    drop(parts);
    Ok(are)
}

#[test]
fn the_first_final_state_counts(rt: HostRuntime) -> Result<(), Fail> {
    let alloc = rt.alloc();
    for (ids, answered, inbox, rows) in &CASES {
        same(
            &rt,
            are_rows(&rt, alloc, *ids, answered, inbox, rows)?,
            true,
        );
    }
    Ok(())
}
