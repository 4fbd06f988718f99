//! A reader with a device: deliver_sm are kept before they are acknowledged, and a line that idles is asked.

ghost use Rattle.std.specs.Prelude.{◌≡◌, None};
ghost use Rattle.std.specs.Option.{is_some};

use super::reader::{bound_as, line_of, ring_of};
use super::{Sink, Source, blank_log, same, source_of};
use sms_bind::{
    Arrived, BlankLog, Keeping, Line, LogName, Look, ReaderBegin, ReaderCause, ReaderContext,
    ReaderDevice, ReaderLeave, Receipt, read_loop_with,
};
use sms_inbox::InboxFile;
use sms_pdu::{Mode, Tap};
use sms_session::Enquiry;
use sms_window::Window;
use std::fs::{Metadata, OpenFile};
use std::io;
use std::io::{Error, ErrorKind, Write};
use std::marker::Brand;
use std::process::Abort;
use std::sync::Wait;
use std::test::Fail;

/// A receipt with the number 5.
const RECEIPT: &[u8; 54] =
    b"\x00\x00\x00\x36\x00\x00\x00\x05\x00\x00\x00\x00\x00\x00\x00\x05\x00\x01\x01\x34\x34\x00\x01\x01\x31\x32\x00\x04\x00\x00\x00\x00\x00\x00\x00\x00\x11id:7 stat:DELIVRD";

/// A deliver_sm whose body ends early, with the number 6.
const CUT: &[u8; 18] = b"\x00\x00\x00\x12\x00\x00\x00\x05\x00\x00\x00\x00\x00\x00\x00\x06\x00\x01";

/// An answer to the request with the number 1.
const ANSWER: &[u8; 18] =
    b"\x00\x00\x00\x12\x80\x00\x00\x04\x00\x00\x00\x00\x00\x00\x00\x01\x37\x00";

/// The responses to them: acknowledged, and refused for a time.
const TAKEN: &[u8; 17] = b"\x00\x00\x00\x11\x80\x00\x00\x05\x00\x00\x00\x00\x00\x00\x00\x05\x00";

const TAKEN_CUT: &[u8; 17] =
    b"\x00\x00\x00\x11\x80\x00\x00\x05\x00\x00\x00\x00\x00\x00\x00\x06\x00";

const LATER: &[u8; 17] = b"\x00\x00\x00\x11\x80\x00\x00\x05\x00\x00\x00\x64\x00\x00\x00\x05\x00";

/// The enquire_link of a bind with the number 9.
const ASKED: &[u8; 16] = b"\x00\x00\x00\x10\x00\x00\x00\x15\x00\x00\x00\x00\x00\x00\x00\x09";

const LINE: &str = "received,7,0,44,12,4,7,DELIVRD,,id:7%20stat:DELIVRD\n";

/// Its first ten octets.
const FRONT: &str = "received,7";

const LINE_CUT: &str = "received,7,0,,,0,,,,%00%01\n";

/// A file in memory that takes so many octets.
#[derive(Drop)]
struct Sheet {
    octets: Vec<u8>,
    room: usize,
}

impl Write for Sheet {
    fn write(&mut self, buf: &[u8]) -> io::Result<usize> {
        let taken = buf.len().min(self.room);
        if taken == 0 {
            return Err(Error::from(ErrorKind::StorageFull));
        }
        if self.octets.extend_from_slice(&buf[..taken]).is_err() {
            return Err(Error::from(ErrorKind::OutOfMemory));
        }
        self.room -= taken;
        Ok(taken)
    }

    fn flush(&mut self) -> io::Result<()> {
        Ok(())
    }
}

impl OpenFile for Sheet {
    fn metadata(&self) -> io::Result<Metadata> {
        Err(Error::from(ErrorKind::Unsupported))
    }

    fn set_len(&self, _size: u64) -> io::Result<()> {
        Err(Error::from(ErrorKind::Unsupported))
    }

    fn sync_all(&self) -> io::Result<()> {
        Ok(())
    }

    fn sync_data(&self) -> io::Result<()> {
        Ok(())
    }
}

/// An inbox, or none, and a watch, or none, whose clock goes on by a second where octets come.
#[derive(Drop)]
struct Desk {
    inbox: Option<InboxFile<Sheet>>,
    enquiry: Option<Enquiry>,
    now: u64,
}

impl ReaderDevice for Desk {
    ghost use Rattle.std.specs.Option.{is_some};

    ghost keeps = { λ d. is_some d.inbox };

    // It doesn't count them: its file says what was kept.
    ghost kept = { λ _. 0 };

    ghost watch = { λ d. d.enquiry };

    fn keeps(&self) -> bool {
        self.inbox.is_some()
    }

    fn keep<'a>(&mut self, arrived: Arrived<'a>) -> Keeping<'a> {
        let Some(inbox) = &mut self.inbox else {
            return Keeping::Unasked;
        };
        match inbox.keep(7, 0, arrived.octets()) {
            Ok(kept) => Keeping::Kept(kept),
            Err(no) => Keeping::Unkept(no),
        }
    }

    fn heard(&mut self) {
        self.now = self.now.saturating_add(1_000);
        if let Some(enquiry) = &mut self.enquiry {
            enquiry.heard(self.now);
        }
    }

    fn look(&self) -> (u64, Look) {
        match &self.enquiry {
            Some(enquiry) => (self.now, enquiry.look(self.now)),
            None => (0, Look::Wait(0)),
        }
    }

    fn asked(&mut self, now: u64, _sent: &Receipt) {
        if let Some(enquiry) = &mut self.enquiry {
            enquiry.asked(now);
        }
    }
}

/// What a reader with this device writes of these octets, and why it ends.
fn written_of<N: LogName, S: Abort + Wait + AllocGlobal>(
    rt: &S,
    desk: &mut Desk,
    source: Tap<Source<'_>>,
    line: &Line<N, Sink>,
    leave: ReaderLeave,
) -> Result<ReaderCause, Fail> {
    let alloc = rt.alloc();
    let mut reader = source;
    let Ok((window, seat)) = Window::make(alloc, 4) else {
        panic!(rt; "no window")
    };
    let (producers, _consumer) = ring_of(alloc, 4)?;
    let begin = ReaderBegin {
        bound: bound_as(rt, alloc, Mode::Transceiver),
        producers,
        seat,
        follow: None,
        number: 9,
    };
    let context = ReaderContext {
        rt,
        alloc,
        line,
        window: &window,
    };
    let (end, _down) = read_loop_with(&context, desk, &mut reader, begin, leave, 40);
    Ok(end.cause)
}

/// A desk whose inbox takes so many octets, if there is one.
fn desk_of(rt: &impl AllocGlobal, room: Option<usize>, enquiry: Option<Enquiry>) -> Desk {
    let inbox = match room {
        Some(room) => {
            let octets = Vec::new(rt.alloc());
            let sheet = Sheet { octets, room };
            Some(InboxFile::new(rt.alloc(), sheet, false))
        }
        None => None,
    };
    Desk {
        inbox,
        enquiry,
        now: 0,
    }
}

/// These octets are read with a desk, and that is written and kept.
fn want<N: LogName, S: Abort + Wait + AllocGlobal>(
    rt: &S,
    log: BlankLog,
    room: Option<usize>,
    octets: &[u8],
    written: &[&[u8]],
    kept: &[&str],
) -> Result<(), Fail>
    requires { (log ≡ N.log) × (N.settings ≡ None) }
{
    let alloc = rt.alloc();
    let (line, leave) = line_of::<N, S>(rt, alloc, log, 1_000, 2);
    let mut desk = desk_of(rt, room, None);
    let cause = written_of(rt, &mut desk, source_of(0, octets, false), &line, leave)?;
    same(rt, cause, ReaderCause::Ended);
    let sink = line.wire.into_inner().into_wire().into_tap().into_inner();
    let mut all = Vec::new(alloc);
    for frame in written {
        all.extend_from_slice(frame)?;
    }
    same(rt, sink.octets.as_slice(), all.as_slice());
    let mut lines = String::new(alloc);
    for line in kept {
        lines.push_str(line)?;
    }
    let octets = match desk.inbox {
        Some(inbox) => inbox.into_file().octets,
        None => Vec::new(alloc),
    };
    same(rt, octets.as_slice(), lines.as_bytes());
    Ok(())
}

/// Receipts come before, between and after answers, one whose body can't be read among them.
#[test]
fn deliver_sm_are_kept_and_acknowledged(rt: HostRuntime) -> Result<(), Fail> {
    let alloc = rt.alloc();
    let mut stream = Vec::new(alloc);
    let frames: [&[u8]; 5] = [RECEIPT, ANSWER, CUT, ANSWER, RECEIPT];
    for frame in frames {
        stream.extend_from_slice(frame)?;
    }
    let taken = [TAKEN.as_slice(), TAKEN_CUT, TAKEN];
    let lines = [LINE, LINE_CUT, LINE];
    for (room, kept) in [(Some(1_000usize), lines.as_slice()), (None, &lines[..0])] {
        let log = blank_log(&rt, alloc);
        want::<Brand, _>(&rt, log, room, stream.as_slice(), &taken, kept)?;
    }
    Ok(())
}

/// The disk is full: nothing is acknowledged then or later, and a first part of the lines stands in the file.
#[test]
fn what_is_not_kept_is_refused_for_a_time(rt: HostRuntime) -> Result<(), Fail> {
    let alloc = rt.alloc();
    for (room, front) in [(10usize, FRONT), (0, "")] {
        let log = blank_log(&rt, alloc);
        want::<Brand, _>(&rt, log, Some(room), RECEIPT, &[LATER], &[front])?;
    }
    Ok(())
}

/// Nothing comes on a line with these times of its watch: its reader ends so, and asked it or not.
fn want_watched<N: LogName, S: Abort + Wait + AllocGlobal>(
    rt: &S,
    log: BlankLog,
    times: (u64, u64),
    wanted: ReaderCause,
    asked: &[u8],
) -> Result<(), Fail>
    requires { (log ≡ N.log) × (N.settings ≡ None) }
{
    let alloc = rt.alloc();
    let (line, leave) = line_of::<N, S>(rt, alloc, log, 1_000, 0);
    let (idle, answer) = times;
    let mut desk = desk_of(rt, None, Some(Enquiry::new(idle, answer, 0)));
    let cause = written_of(rt, &mut desk, source_of(3, &[], false), &line, leave)?;
    same(rt, cause, wanted);
    let sink = line.wire.into_inner().into_wire().into_tap().into_inner();
    same(rt, sink.octets.as_slice(), asked);
    Ok(())
}

/// A line on which nothing comes is asked once, and is silent then.
#[test]
fn lines_that_idle_are_asked(rt: HostRuntime) -> Result<(), Fail> {
    let alloc = rt.alloc();
    for (times, wanted, asked) in [
        ((0u64, 0u64), ReaderCause::Silent, ASKED.as_slice()),
        ((0, 9_000), ReaderCause::Ended, ASKED.as_slice()),
        ((9_000, 0), ReaderCause::Ended, b"".as_slice()),
    ] {
        let log = blank_log(&rt, alloc);
        want_watched::<Brand, _>(&rt, log, times, wanted, asked)?;
    }
    Ok(())
}
