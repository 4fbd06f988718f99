//! The lines of notes, and the header.

use super::{Row, THROTTLED, note_of, same};
use sms_journal::{ConfigTie, Digests, JournalKind, Note, ReportKeys, write_header, write_note};
use sms_pdu::reply_of;
use std::alloc::{AllocError, Global};
use std::process::Abort;
use std::test::Fail;

/// Notes and their lines, made at 1,700,000,000,123 ms.
const LINES: [(Row, &str); 7] = [
    (Row::Begun(0), "begun,1700000000123,0\n"),
    (Row::Sent(12, 3, 2), "sent,1700000000123,0,12,3,2\n"),
    (Row::Unsent(12), "unsent,1700000000123,0,12\n"),
    (
        Row::Heard(12, THROTTLED, false),
        "heard,1700000000123,0,12,88,0,\n",
    ),
    (Row::Refused(9), "refused,1700000000123,9,no-credit\n"),
    (Row::End, "end,1700000000123,0\n"),
    (Row::Round, "round,1700000000123,2,4,8\n"),
];

fn line_of(alloc: Global, note: &Note) -> Result<String, AllocError> {
    let mut text = String::new(alloc);
    match write_note(&mut text, 1_700_000_000_123, note) {
        Ok(()) => Ok(text),
        Err(_refused) => Err(AllocError),
    }
}

fn check_line(rt: &impl Abort, alloc: Global, note: &Note, wanted: &str) -> Result<(), AllocError> {
    let text = line_of(alloc, note)?;
    same(rt, text.as_str(), wanted);
    Ok(())
}

#[test]
fn each_note_has_its_line(rt: HostRuntime) -> Result<(), Fail> {
    let alloc = rt.alloc();
    for (row, wanted) in &LINES {
        check_line(&rt, alloc, &note_of(*row), wanted)?;
    }
    Ok(())
}

/// A submit_sm_resp with status 0, the number 1 and a message_id.
const ANSWER: &[u8] = b"\0\0\0\x19\x80\0\0\x04\0\0\0\0\0\0\0\x01a7,%\"~\xE9 \0";

#[test]
fn message_ids_stand_on_one_line(rt: HostRuntime) -> Result<(), Fail> {
    let Some(reply) = reply_of(ANSWER) else {
        return Err("no answer".into());
    };
    let note = Note::Heard(7, reply);
    check_line(
        &rt,
        rt.alloc(),
        &note,
        "heard,1700000000123,7,1,0,0,a7%2c%25%22~%e9%20\n",
    )?;
    Ok(())
}

fn header_of(alloc: Global, kind: JournalKind, config: ConfigTie) -> Result<String, AllocError> {
    let digests = Digests {
        config,
        accounts: [1; 32],
        messages: [0xAB; 32],
        tariff: None,
    };
    let mut text = String::new(alloc);
    match write_header(&mut text, kind, &digests) {
        Ok(()) => Ok(text),
        Err(_refused) => Err(AllocError),
    }
}

/// The digest of the config in the headers of those files.
const CONFIG_FIELD: &str = "0000000000000000000000000000000000000000000000000000000000000000";

/// The other digests.
const FIELDS: &str = concat!(
    "0101010101010101010101010101010101010101010101010101010101010101,",
    "abababababababababababababababababababababababababababababababab,\n"
);

#[test]
fn the_header_has_the_kind_and_the_digests(rt: HostRuntime) -> Result<(), Fail> {
    let alloc = rt.alloc();
    for (kind, word) in [(JournalKind::Run, "journal"), (JournalKind::Trial, "trial")] {
        let got = header_of(alloc, kind, ConfigTie::Octets([0; 32]))?;
        let wanted = format!(in alloc; "{word},1,{CONFIG_FIELD},{FIELDS}")?;
        same(&rt, got.as_str(), wanted.as_str());
    }
    Ok(())
}

#[test]
fn the_header_has_the_keys_that_a_report_is_computed_by(rt: HostRuntime) -> Result<(), Fail> {
    let alloc = rt.alloc();
    let keys = ReportKeys {
        attempts: 10,
        long_reference: false,
        binds: 2,
        workers: 3,
    };
    let got = header_of(alloc, JournalKind::Run, ConfigTie::Keys(keys))?;
    let wanted = format!(in alloc; "journal,2,10,0,2,3,{FIELDS}")?;
    same(&rt, got.as_str(), wanted.as_str());
    Ok(())
}
