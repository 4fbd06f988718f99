//! What a journal's file takes, and that no request goes out before its note.

use super::loopback::no_journal;
use super::paper::{
    Line, ManualClock, Nowhere, PaperFile, STILL_MS, Sheet, Still, limits, no_progress,
};
use super::same::same;
use sms_devices::{Guarded, Journal, Outboxes, SendGate, StopSigns};
use sms_journal::{ConfigTie, Digests, JournalKind};
use sms_pdu::{MessageId, Reply};
use sms_worker::{Gate, MessageRefusal};
use std::alloc::{AllocError, Global};
use std::fs::OpenFile;
use std::io::{BufWriter, Write};
use std::process::Abort;
use std::str;
use std::sync::Wait;
use std::test::Fail;
use std::time::Clock;

/// Room for all that the tests note.
const ALL: usize = 1 << 20;

const DIGESTS: Digests = Digests {
    config: ConfigTie::Octets([1; 32]),
    accounts: [2; 32],
    messages: [0xAB; 32],
    tariff: None,
};

/// The first line of their journal.
const HEADER: &str =
    "journal,1,0101010101010101010101010101010101010101010101010101010101010101,0202020202020202020202020202020202020202020202020202020202020202,abababababababababababababababababababababababababababababababab,\n";

/// The first line of the journal of a trial.
const TRIAL_HEADER: &str =
    "trial,1,0101010101010101010101010101010101010101010101010101010101010101,0202020202020202020202020202020202020202020202020202020202020202,abababababababababababababababababababababababababababababababab,\n";

/// The notes of `send_two`.
const LINES: &str =
    "begun,1700000000123,4\nsent,1700000000123,7,1,4,1\nsent,1700000000123,31,2,4,255\nunsent,1700000000123,31,2\nheard,1700000000123,7,1,88,1,\nrefused,1700000000123,5,no-credit\n";

/// What a run notes last that ends with the status 4.
const END: &str = "end,1700000000123,4\n";

// A reply without a message_id.
fn reply(number: u32) -> Reply {
    Reply {
        number,
        status: 88,
        nack: true,
        id: MessageId::empty(),
    }
}

// A message is sent through the gate, and another is refused.
fn send_two<G: Gate>(rt: &impl Abort, gate: &G) {
    assert!(rt; gate.ready(7));
    gate.begun(7, 4);
    assert!(rt; gate.pass(7, 1));
    assert!(rt; gate.sending(7, 1, 4, 0));
    assert!(rt; gate.sending(31, 2, 4, 254));
    gate.unsent(31, 2);
    gate.heard(7, &reply(1));
    gate.refused(7, 5, MessageRefusal::NoCredit);
    gate.see(7, &[], 0);
    gate.see_last(7, &[]);
}

// The same, noted in a journal.
fn note_two<'j, R: Wait + Clock + StopSigns, F: Write + OpenFile>(
    rt: &impl Abort,
    alloc: Global,
    still: &'j R,
    journal: &'j Journal<F>,
) {
    let outboxes = Outboxes::new(still, Some(journal), 8);
    let clock = ManualClock::new(0);
    let progress = no_progress(&Nowhere, &clock);
    let gate = SendGate::new(alloc, &outboxes, &clock, &progress, limits(None, None));
    send_two(rt, &gate);
}

// Whether a request passes in a run with this journal.
fn lets_a_request_out<'j, R: Wait + Clock + StopSigns, F: Write + OpenFile>(
    rt: &'j R,
    alloc: Global,
    journal: &'j Journal<F>,
) -> bool {
    let outboxes = Outboxes::new(rt, Some(journal), 1);
    let clock = ManualClock::new(0);
    let progress = no_progress(&Nowhere, &clock);
    let gate = SendGate::new(alloc, &outboxes, &clock, &progress, limits(None, None));
    gate.sending(0, 1, 3, 0)
}

// Whether a journal is closed with the note that its run ended with this status.
fn closes<R: Clock, F: Write + OpenFile + Drop>(rt: &R, journal: Journal<F>, status: u8) -> bool {
    journal.close(rt, status).is_ok()
}

// The text that was written to the sheet since the last call.
fn expect<R: Wait + Abort>(rt: &R, alloc: Global, sheet: &Sheet, expected: &str) {
    let octets = sheet.take(rt, alloc);
    match str::from_utf8(octets.as_slice()) {
        Ok(text) => same(rt, text, expected),
        Err(_) => panic!(rt; "no text"),
    }
}

/// Notes are written together and in order when they are let out. Then they are made durable, if the journal is
/// synced.
#[test]
fn writes_what_was_noted(rt: HostRuntime) {
    let alloc = rt.alloc();
    let still = Still {
        rt: &rt,
        can_be_read: true,
    };
    for (is_synced, syncs, kind, header) in [
        (false, 0u32, JournalKind::Run, HEADER),
        (true, 3, JournalKind::Trial, TRIAL_HEADER),
    ] {
        let sheet = Sheet::blank(alloc);
        let file = PaperFile::new(&rt, &sheet, ALL, is_synced);
        let journal = Journal::new(alloc, file, is_synced);
        journal.begin(&rt, kind, &DIGESTS);
        assert!(rt; journal.let_out(&rt));
        expect(&rt, alloc, &sheet, header);
        note_two(&rt, alloc, &still, &journal);
        expect(&rt, alloc, &sheet, "");
        assert!(rt; journal.let_out(&rt));
        expect(&rt, alloc, &sheet, LINES);
        assert!(rt; journal.let_out(&rt));
        assert!(rt; !journal.has_failed());
        assert!(rt; closes(&still, journal, 4));
        expect(&rt, alloc, &sheet, END);
        same(&rt, sheet.syncs(), syncs);
    }
}

/// A clock that can't be read gives 0. A request whose numbers a note can't hold is refused.
#[test]
fn notes_without_a_clock(rt: HostRuntime) {
    let alloc = rt.alloc();
    let still = Still {
        rt: &rt,
        can_be_read: false,
    };
    let sheet = Sheet::blank(alloc);
    let file = PaperFile::new(&rt, &sheet, ALL, false);
    let journal = Journal::new(alloc, file, false);
    let outboxes = Outboxes::new(&still, Some(&journal), 1);
    let clock = ManualClock::new(0);
    let progress = no_progress(&Nowhere, &clock);
    let gate = SendGate::new(alloc, &outboxes, &clock, &progress, limits(None, None));
    gate.begun(0, 3);
    assert!(rt; !gate.sending(0, 1, 3, 255));
    assert!(rt; journal.let_out(&rt));
    expect(&rt, alloc, &sheet, "begun,0,3\n");
}

/// A request that the journal can't note takes no permit of the rate.
#[test]
fn counts_no_refused_request(rt: HostRuntime) {
    let alloc = rt.alloc();
    let sheet = Sheet::blank(alloc);
    let file = PaperFile::new(&rt, &sheet, ALL, false);
    let journal = Journal::new(alloc, file, false);
    let outboxes = Outboxes::new(&rt, Some(&journal), 1);
    let clock = ManualClock::new(0);
    let progress = no_progress(&Nowhere, &clock);
    let wanted = limits(Some(1), None);
    let gate = SendGate::new(alloc, &outboxes, &clock, &progress, wanted);
    assert!(rt; gate.ready(0));
    assert!(rt; !gate.sending(0, 1, 3, 255));
    gate.see(0, &[], 0);
    assert!(rt; gate.ready(0));
}

/// A file that can't be made durable has failed: nothing more is written to it.
#[test]
fn fails_where_it_is_not_durable(rt: HostRuntime) {
    let alloc = rt.alloc();
    let sheet = Sheet::blank(alloc);
    let file = PaperFile::new(&rt, &sheet, ALL, false);
    let journal = Journal::new(alloc, file, true);
    journal.begin(&rt, JournalKind::Run, &DIGESTS);
    assert!(rt; !journal.let_out(&rt));
    expect(&rt, alloc, &sheet, HEADER);
    assert!(rt; journal.has_failed());
    assert!(rt; !lets_a_request_out(&rt, alloc, &journal));
    assert!(rt; !journal.let_out(&rt));
    assert!(rt; !closes(&rt, journal, 0));
    expect(&rt, alloc, &sheet, "");
    same(&rt, sheet.syncs(), 1);
}

/// How many octets a frame of the tests has.
const FRAME: usize = 4;

/// How many requests they send.
const REQUESTS: u32 = 12;

// Sends the requests that pass the gate. Gives how many did.
fn send_requests<G: Gate, W: Write>(gate: &G, writer: &mut W) -> u32 {
    let mut passed = 0u32;
    for number in 1..=REQUESTS {
        gate.begun(0, u64::from(number));
        if gate.sending(0, number, u64::from(number), 0) {
            passed = passed.saturating_add(1);
            let _written = writer.write(&[number as u8; FRAME]);
        }
        if number % 5 == 0 {
            let _flushed = writer.flush();
        }
    }
    let _flushed = writer.flush();
    passed
}

// Sends them over a connection in a run with this journal. Gives what the connection took, and how many passed.
fn send_over<'j, R: Wait + Clock + StopSigns, F: Write + OpenFile>(
    rt: &'j R,
    alloc: Global,
    journal: &'j Journal<F>,
) -> Result<(Vec<u8>, u32), AllocError> {
    let outboxes = Outboxes::new(rt, Some(journal), 1);
    let clock = ManualClock::new(0);
    let progress = no_progress(&Nowhere, &clock);
    let gate = SendGate::new(alloc, &outboxes, &clock, &progress, limits(None, None));
    let guarded = Guarded {
        connection: Line {
            octets: Vec::new(alloc),
        },
        rt,
        journal: Some(journal),
    };
    let Ok(mut writer) = BufWriter::with_capacity(alloc, 10, guarded) else {
        return Err(AllocError);
    };
    let passed = send_requests(&gate, &mut writer);
    let mut octets = Vec::new(alloc);
    octets.extend_from_slice(writer.get_ref().connection.octets.as_slice())?;
    Ok((octets, passed))
}

// Sends requests in a run with a journal whose file takes `room` octets. Gives what the connection took, and how
// many requests passed the gate.
fn send_noted<'r, R: Wait + Clock + Abort>(
    rt: &'r R,
    alloc: Global,
    sheet: &'r Sheet,
    room: usize,
) -> Result<(Vec<u8>, u32), AllocError> {
    let still = Still {
        rt,
        can_be_read: true,
    };
    let file = PaperFile::new(rt, sheet, room, true);
    let journal = Journal::new(alloc, file, room % 2 == 0);
    journal.begin(rt, JournalKind::Run, &DIGESTS);
    let sent = send_over(&still, alloc, &journal)?;
    let is_whole = journal.let_out(rt);
    assert!(rt; is_whole != journal.has_failed());
    Ok(sent)
}

// How many whole lines of a text begin with a word.
fn lines_of(text: &str, word: &str) -> usize {
    let mut count = 0usize;
    for line in text.split_inclusive('\n') {
        if line.starts_with(word) && line.ends_with('\n') {
            count = count.saturating_add(1);
        }
    }
    count
}

/// Wherever the file fails, it has the first part of the notes. No octet of a request is sent unless the whole
/// note of that request is in the file.
#[test]
fn sends_nothing_that_is_not_noted(rt: HostRuntime) -> Result<(), Fail> {
    let alloc = rt.alloc();
    let sheet = Sheet::blank(alloc);
    let (octets, passed) = send_noted(&rt, alloc, &sheet, ALL)?;
    same(&rt, passed, REQUESTS);
    same(&rt, octets.len(), REQUESTS as usize * FRAME);
    let whole = sheet.take(&rt, alloc);
    let Ok(text) = str::from_utf8(whole.as_slice()) else {
        return Err("no text".into());
    };
    assert!(rt; text.starts_with(HEADER));
    same(&rt, lines_of(text, "sent,"), REQUESTS as usize);
    for room in 0..text.len() {
        let (octets, passed) = send_noted(&rt, alloc, &sheet, room)?;
        let written = sheet.take(&rt, alloc);
        let Some(front) = text.get(..room) else {
            return Err("no text".into());
        };
        same(&rt, written.as_slice(), front.as_bytes());
        let noted = lines_of(front, "sent,");
        assert!(rt; octets.len() <= noted.saturating_mul(FRAME));
        assert!(rt; octets.len() <= (passed as usize).saturating_mul(FRAME));
    }
    Ok(())
}

/// Without a journal a gate notes nothing and lets everything pass.
#[test]
fn passes_all_without_a_journal(rt: HostRuntime) {
    let outboxes = Outboxes::new(&rt, no_journal(), 8);
    let clock = ManualClock::new(0);
    let progress = no_progress(&Nowhere, &clock);
    let gate = SendGate::new(rt.alloc(), &outboxes, &clock, &progress, limits(None, None));
    send_two(&rt, &gate);
    assert!(rt; gate.sending(0, 1, 3, 255));
}
