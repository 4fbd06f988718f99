//! Journals written by hand and read.

mod others;

use super::same;
use sms_journal::{
    ConfigTie, Digests, FileTies, JournalError, JournalKind, Note, ReportKeys, RequestId,
    read_notes, write_header, write_note,
};
use sms_message::MessageRefusal;
use sms_pdu::reply_of;
use std::alloc::{AllocError, Global};
use std::process::Abort;
use std::test::Fail;

const DIGESTS: Digests = Digests {
    config: ConfigTie::Octets([0x10; 32]),
    accounts: [0x2A; 32],
    messages: [0xFF; 32],
    tariff: None,
};

const KEYS: ReportKeys = ReportKeys {
    attempts: 3,
    long_reference: true,
    binds: 4,
    workers: 8,
};

const FILES: FileTies = FileTies {
    digests: DIGESTS,
    keys: KEYS,
};

/// The header of these files.
const HEADER: &str = concat!(
    "journal,1,1010101010101010101010101010101010101010101010101010101010101010,",
    "2a2a2a2a2a2a2a2a2a2a2a2a2a2a2a2a2a2a2a2a2a2a2a2a2a2a2a2a2a2a2a2a,",
    "ffffffffffffffffffffffffffffffffffffffffffffffffffffffffffffffff,\n"
);

/// What stands behind the header, how many notes it has, and which record is faulty.
struct Row {
    text: &'static str,
    wanted: Result<usize, usize>,
}

const ROWS: [Row; 33] = [
    Row {
        text: "",
        wanted: Ok(0),
    },
    Row {
        text: "begun,1,0\n",
        wanted: Ok(1),
    },
    Row {
        text: "begun,0,18446744073709551615\nsent,18446744073709551615,4294967295,0,5,255\n",
        wanted: Ok(2),
    },
    Row {
        text: "unsent,1,7,4294967295\nheard,1,7,12,88,0,\nheard,1,7,12,0,1,\n",
        wanted: Ok(3),
    },
    Row {
        text: "heard,1,7,12,0,0,a7%2c%25%22~%e9%20\nrefused,1,9,bind-closed\nend,1,255\n",
        wanted: Ok(3),
    },
    Row {
        text: "refused,1,9,no-account\nrefused,1,9,no-credit\nrefused,1,9,too-long\n",
        wanted: Ok(3),
    },
    Row {
        text: "refused,1,9,bad-address\nrefused,1,9,out-of-memory\n",
        wanted: Ok(2),
    },
    // The last line was cut.
    Row {
        text: "begun,1,0\nbegun,1,1",
        wanted: Ok(1),
    },
    Row {
        text: "begun,1,0\nrubbish",
        wanted: Ok(1),
    },
    // Lines that no note has.
    Row {
        text: "\n",
        wanted: Err(2),
    },
    Row {
        text: "begun,1,0\n\n",
        wanted: Err(3),
    },
    Row {
        text: "begun,1,0\r\n",
        wanted: Err(2),
    },
    Row {
        text: "begun,1,0\nbegun,1,1,\n",
        wanted: Err(3),
    },
    Row {
        text: "begun,1\n",
        wanted: Err(2),
    },
    Row {
        text: "begun\n",
        wanted: Err(2),
    },
    Row {
        text: "begun,01,0\n",
        wanted: Err(2),
    },
    Row {
        text: "begun,,0\n",
        wanted: Err(2),
    },
    Row {
        text: "begun,1,+0\n",
        wanted: Err(2),
    },
    Row {
        text: "begun, 1,0\n",
        wanted: Err(2),
    },
    Row {
        text: "Begun,1,0\n",
        wanted: Err(2),
    },
    Row {
        text: "begun,18446744073709551616,0\n",
        wanted: Err(2),
    },
    Row {
        text: "sent,1,4294967296,0,5,1\n",
        wanted: Err(2),
    },
    Row {
        text: "sent,1,0,0,5,256\n",
        wanted: Err(2),
    },
    Row {
        text: "end,1,256\n",
        wanted: Err(2),
    },
    Row {
        text: "refused,1,9,no-reason\n",
        wanted: Err(2),
    },
    Row {
        text: "heard,1,7,12,0,2,\n",
        wanted: Err(2),
    },
    Row {
        text: "heard,1,7,12,0,0,a%2C\n",
        wanted: Err(2),
    },
    Row {
        text: "heard,1,7,12,0,0,%61\n",
        wanted: Err(2),
    },
    Row {
        text: "heard,1,7,12,0,0,a b\n",
        wanted: Err(2),
    },
    Row {
        text: "heard,1,7,12,0,0,a\u{7}\n",
        wanted: Err(2),
    },
    Row {
        text: "heard,1,7,12,0,0,a%2\n",
        wanted: Err(2),
    },
    Row {
        text: "heard,1,7,12,0,0,%00\n",
        wanted: Err(2),
    },
    Row {
        text: "heard,1,7,12,0,0,1234567890123456789012345678901234567890123456789012345678901234x\n",
        wanted: Err(2),
    },
];

fn text_of(alloc: Global, front: &str, behind: &str) -> Result<String, AllocError> {
    let mut text = String::from_str(alloc, front)?;
    text.push_str(behind)?;
    Ok(text)
}

/// How many notes are read, or which record is faulty.
fn count_of(alloc: Global, text: &str) -> Result<Result<usize, usize>, JournalError> {
    match read_notes(alloc, text.as_bytes(), &FILES) {
        Ok(read) => Ok(Ok(read.notes.len())),
        Err(JournalError::BadRecord(place)) => Ok(Err(place)),
        Err(other) => Err(other),
    }
}

fn check_row(rt: &impl Abort, alloc: Global, row: &Row) -> Result<(), Fail> {
    let text = text_of(alloc, HEADER, row.text)?;
    same(rt, count_of(alloc, text.as_str())?, row.wanted);
    Ok(())
}

#[test]
fn journals_are_read(rt: HostRuntime) -> Result<(), Fail> {
    for row in &ROWS {
        check_row(&rt, rt.alloc(), row)?;
    }
    Ok(())
}

/// Texts, from their first octet on.
const WHOLE: [(&str, Result<usize, usize>); 14] = [
    // The run ended before it had noted anything.
    ("", Ok(0)),
    ("journal,1,10", Ok(0)),
    ("trial,1,1010", Ok(0)),
    // No journal, and truncated headers of other files.
    ("journal,2,3,1,4", Ok(0)),
    ("trial,2,3,1,4", Ok(0)),
    ("journal,2,10", Err(1)),
    ("journal,3,3,1,4", Err(1)),
    ("trials,1,10", Err(1)),
    ("journal,1,11", Err(1)),
    ("trial,1,\n", Err(1)),
    ("trial,1,,,,\n", Err(1)),
    ("message,part\n", Err(1)),
    ("\n", Err(1)),
    ("begun,1,0\n", Err(1)),
];

#[test]
fn headers_are_of_the_files(rt: HostRuntime) -> Result<(), Fail> {
    let alloc = rt.alloc();
    for (text, wanted) in &WHOLE {
        same(&rt, count_of(alloc, text)?, *wanted);
    }
    let doubled = text_of(alloc, HEADER, HEADER)?;
    same(&rt, count_of(alloc, doubled.as_str())?, Err(2));
    Ok(())
}

/// A submit_sm_resp with status 0, the number 1 and a message_id.
const ANSWER: &[u8] = b"\0\0\0\x19\x80\0\0\x04\0\0\0\0\0\0\0\x01a7,%\"~\xE9 \0";

fn written(alloc: Global, kind: JournalKind, notes: &[Note]) -> Result<String, JournalError> {
    let mut text = String::new(alloc);
    write_header(&mut text, kind, &DIGESTS)?;
    for note in notes {
        write_note(&mut text, 1_700_000_000_123, note)?;
    }
    Ok(text)
}

#[test]
fn what_was_written_is_read(rt: HostRuntime) -> Result<(), Fail> {
    let alloc = rt.alloc();
    let Some(reply) = reply_of(ANSWER) else {
        return Err("no answer".into());
    };
    let request = RequestId {
        worker: 7,
        number: 1,
    };
    let notes = [
        Note::Begun(3),
        Note::Sent(request, 3, 1),
        Note::Unsent(request),
        Note::Heard(7, reply),
        Note::Refused(9, MessageRefusal::NoCredit),
        Note::End(4),
        Note::Round(2, 4, 8),
    ];
    for kind in [JournalKind::Run, JournalKind::Trial] {
        let text = written(alloc, kind, notes.as_slice())?;
        let read = read_notes(alloc, text.as_bytes(), &FILES)?;
        same(&rt, read.kind, kind);
        same(&rt, read.notes.as_slice(), notes.as_slice());
    }
    Ok(())
}

fn front_of(text: &[u8], octets: usize) -> &[u8] {
    if octets < text.len() {
        &text[..octets]
    } else {
        text
    }
}

/// The kind of a journal of which only so many octets were written.
fn kind_of(
    alloc: Global,
    kind: JournalKind,
    octets: usize,
) -> Result<Result<JournalKind, JournalError>, JournalError> {
    let text = written(alloc, kind, &[])?;
    match read_notes(alloc, front_of(text.as_bytes(), octets), &FILES) {
        Ok(read) => Ok(Ok(read.kind)),
        Err(fault) => match fault {
            JournalError::OutOfMemory(_) => Err(fault),
            _ => Ok(Err(fault)),
        },
    }
}

#[test]
fn truncated_headers_are_of_their_kind(rt: HostRuntime) -> Result<(), Fail> {
    let alloc = rt.alloc();
    same(
        &rt,
        kind_of(alloc, JournalKind::Trial, 0)?,
        Ok(JournalKind::Run),
    );
    for octets in [1, 5, 9, 40, 204] {
        same(
            &rt,
            kind_of(alloc, JournalKind::Run, octets)?,
            Ok(JournalKind::Run),
        );
        same(
            &rt,
            kind_of(alloc, JournalKind::Trial, octets)?,
            Ok(JournalKind::Trial),
        );
    }
    Ok(())
}
