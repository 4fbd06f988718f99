//! Inboxes in files: what is kept, how often, and what of it where a file fails.

use crate::tests::same;
use crate::{InboxFile, Kept};
use std::alloc::Global;
use std::fs::{Metadata, OpenFile};
use std::io;
use std::io::{Error, ErrorKind, Write};
use std::process::Abort;

/// A deliver_sm of somebody, a submit_sm_resp, and a deliver_sm whose body ends early.
const MESSAGE: &[u8; 40] =
    b"\x00\x00\x00\x28\x00\x00\x00\x05\x00\x00\x00\x00\x00\x00\x00\x01\x00\x01\x01\x34\x34\x00\x01\x01\x31\x32\x00\x00\x00\x00\x00\x00\x00\x00\x00\x00\x03\x53\x54\x4f";

const ANSWER: &[u8; 18] =
    b"\x00\x00\x00\x12\x80\x00\x00\x04\x00\x00\x00\x00\x00\x00\x00\x02\x37\x00";

const CUT: &[u8; 17] = b"\x00\x00\x00\x11\x00\x00\x00\x05\x00\x00\x00\x00\x00\x00\x00\x03\x21";

/// Their lines.
const LINE: &str = "received,9,2,44,12,0,,,,STO\n";

const LINE_CUT: &str = "received,9,2,,,0,,,,!\n";

/// A file that takes so many octets, and counts its writes and how often it was made durable.
#[derive(Drop)]
struct Sheet {
    octets: Vec<u8>,
    room: usize,
    writes: u32,
}

impl Write for Sheet {
    fn write(&mut self, buf: &[u8]) -> io::Result<usize> {
        self.writes = self.writes.saturating_add(1);
        let taken = buf.len().min(self.room);
        if taken == 0 {
            return Err(Error::from(ErrorKind::StorageFull));
        }
        if self.octets.extend_from_slice(&buf[..taken]).is_err() {
            return Err(Error::from(ErrorKind::OutOfMemory));
        }
        self.room -= taken;
        Ok(taken)
    }

    fn flush(&mut self) -> io::Result<()> {
        Ok(())
    }
}

impl OpenFile for Sheet {
    fn metadata(&self) -> io::Result<Metadata> {
        Err(Error::from(ErrorKind::Unsupported))
    }

    fn set_len(&self, _size: u64) -> io::Result<()> {
        Err(Error::from(ErrorKind::Unsupported))
    }

    fn sync_all(&self) -> io::Result<()> {
        Ok(())
    }

    fn sync_data(&self) -> io::Result<()> {
        Ok(())
    }
}

/// An inbox whose file takes so many octets.
fn inbox_of(alloc: Global, room: usize) -> InboxFile<Sheet> {
    let sheet = Sheet {
        octets: Vec::new(alloc),
        room,
        writes: 0,
    };
    InboxFile::new(alloc, sheet, true)
}

/// These frames, one behind the other, and the beginning of another.
fn stream_of(rt: &impl Abort, alloc: Global, frames: &[&[u8]]) -> Vec<u8> {
    let mut stream = Vec::new(alloc);
    for frame in frames {
        if stream.extend_from_slice(frame).is_err() {
            panic!(rt; "no memory");
        }
    }
    if stream.extend_from_slice(&MESSAGE[..20]).is_err() {
        panic!(rt; "no memory");
    }
    stream
}

/// All of a turn go into the file together, each once; a turn without a deliver_sm asks nothing of it.
#[test]
fn a_turn_is_written_once(rt: HostRuntime) {
    let alloc = rt.alloc();
    let stream = stream_of(&rt, alloc, &[MESSAGE, ANSWER, CUT]);
    let mut inbox = inbox_of(alloc, 1_000);
    let kept = inbox.keep(9, 2, stream.as_slice());
    same(&rt, kept.map(|kept| kept.count()).ok(), Some(2));
    same(&rt, inbox.failure(), None);
    let sheet = inbox.into_file();
    same(&rt, sheet.writes, 1);
    let mut lines = String::new(alloc);
    assert!(rt; lines.push_str(LINE).is_ok());
    assert!(rt; lines.push_str(LINE_CUT).is_ok());
    same(&rt, sheet.octets.as_slice(), lines.as_bytes());
    let none = stream_of(&rt, alloc, &[ANSWER, ANSWER]);
    same(
        &rt,
        Kept::of_none(none.as_slice()).map(|kept| kept.count()),
        Some(0),
    );
    assert!(rt; Kept::of_none(stream.as_slice()).is_none());
}

/// A file that fails at any octet keeps nothing of the turn, and takes nothing behind that.
#[test]
fn a_file_fails_at_each_octet(rt: HostRuntime) {
    let alloc = rt.alloc();
    let stream = stream_of(&rt, alloc, &[MESSAGE]);
    for room in 0..LINE.len() {
        let mut inbox = inbox_of(alloc, room);
        assert!(rt; inbox.keep(9, 2, stream.as_slice()).is_err());
        same(&rt, inbox.failure(), Some(ErrorKind::StorageFull));
        assert!(rt; inbox.keep(9, 2, stream.as_slice()).is_err());
        let sheet = inbox.into_file();
        same(&rt, sheet.octets.as_slice(), &LINE.as_bytes()[..room]);
    }
}
