//! Headers, replies, frames and what is written, from octets written by hand.

ghost use Rattle.std.specs.Prelude.{None};
ghost use Rattle.std.specs.Io.{WritesAtMost};
ghost use Rattle.std.specs.Io.KnownBytes.{Keeps, WriteAppends};

use super::{ENQUIRE_LINK, SUBMIT, had, joined, same, want_octets, zeros_behind};
use sms_pdu::*;
use std::alloc::Global;
use std::io::{self, Error, ErrorKind, Write};
use std::process::Abort;
use std::test::*;

// Most of an enquire_link.
const CUT: &[u8] = &[0, 0, 0, 16, 0, 0, 0, 0x15, 0, 0, 0, 0, 0, 0, 0];

// The octets have a header of this length, command, status and number.
fn is_header(rt: &impl Abort, octets: &[u8], numbers: (u32, u32, u32, u32)) {
    let Some(header) = header_of(octets) else {
        panic!(rt; "16 octets are a header")
    };
    same(
        rt,
        (header.length, header.command, header.status, header.number),
        numbers,
    );
    same(rt, Command::of(header.command), None);
}

#[test]
fn headers(rt: HostRuntime) {
    let rt = &rt;
    same(rt, header_of(CUT), None);
    let octets = b"\x00\x00\x00\x10\x00\x00\x01\x03\x00\x00\x00\x07\x01\x02\x03\x04";
    is_header(rt, octets, (16, 0x103, 7, 0x0102_0304));
    let command = Command::of(0x8000_0009);
    same(rt, command, Some(Command::BindTransceiverResp));
    same(rt, Command::EnquireLink.id(), 0x15);
}

// What is read of an answer: number, status, whether it is a generic_nack, message_id.
fn is_reply(rt: &impl Abort, octets: &[u8], numbers: (u32, u32, bool), id: &[u8]) {
    let Some(reply) = reply_of(octets) else {
        panic!(rt; "no answer")
    };
    same(rt, (reply.number, reply.status, reply.nack), numbers);
    want_octets(rt, reply.id.as_slice(), id);
}

#[test]
fn replies(rt: HostRuntime) {
    let rt = &rt;
    let bare = b"\x00\x00\x00\x10\x80\x00\x00\x04\x00\x00\x00\x00\x00\x00\x00\x03";
    is_reply(rt, bare, (3, 0, false), b"");
    let named = b"\x00\x00\x00\x13\x80\x00\x00\x04\x00\x00\x00\x00\x00\x00\x00\x02m1\x00";
    is_reply(rt, named, (2, 0, false), b"m1");
    let nack = b"\x00\x00\x00\x10\x80\x00\x00\x00\x00\x00\x00\x03\x00\x00\x00\x09";
    is_reply(rt, nack, (9, 3, true), b"");
    same(rt, reply_of(ENQUIRE_LINK), None);
}

fn fed(rt: &impl Abort, framer: &mut Framer, piece: &[u8]) -> Fed {
    had(rt, framer.feed(piece))
}

// How many frames these are, each of which is this one.
fn are_all(rt: &impl Abort, frames: &[Frame], wanted: &[u8]) -> usize {
    for frame in frames {
        want_octets(rt, frame.as_slice(), wanted);
    }
    frames.len()
}

// How many frames come of a piece, each of which is this one.
fn frames_of_piece(rt: &impl Abort, framer: &mut Framer, piece: &[u8], wanted: &[u8]) -> usize {
    let fed = fed(rt, framer, piece);
    same(rt, fed.fault, None);
    let count = are_all(rt, fed.frames.as_slice(), wanted);
    drop(fed);
    count
}

// How many come of pieces of this length.
fn frames_of(
    rt: &impl Abort,
    framer: &mut Framer,
    stream: &[u8],
    length: usize,
    wanted: &[u8],
) -> usize {
    let mut count = 0usize;
    for piece in stream.chunks(length.max(1)) {
        count = count.saturating_add(frames_of_piece(rt, framer, piece, wanted));
    }
    count
}

// What stays is most of an enquire_link.
fn rest_stays(rt: &impl Abort, framer: Framer) {
    same(rt, framer.fault(), None);
    want_octets(rt, framer.rest(), CUT);
    let rest = framer.into_rest();
    want_octets(rt, rest.as_slice(), CUT);
}

// The submit_sm comes of these pieces once, and most of an enquire_link stays.
fn is_cut(rt: &impl Abort, alloc: Global, stream: &[u8], length: usize) {
    let mut framer = Framer::new(alloc);
    let count = frames_of(rt, &mut framer, stream, length, SUBMIT);
    same(rt, (length, count), (length, 1));
    rest_stays(rt, framer);
}

// The same for pieces of each length.
fn is_cut_anywhere(rt: &impl Abort, alloc: Global, stream: &[u8]) {
    for length in 1..68usize {
        is_cut(rt, alloc, stream, length);
    }
}

// A whole frame and most of another, in pieces of each length.
#[test]
fn pieces_of_each_length(rt: HostRuntime) {
    let rt = &rt;
    let stream = joined(rt, rt.alloc(), SUBMIT, CUT);
    is_cut_anywhere(rt, rt.alloc(), stream.as_slice());
}

// How many frames come of a piece, and the fault.
fn frames_and_fault(
    rt: &impl Abort,
    framer: &mut Framer,
    piece: &[u8],
) -> (usize, Option<FrameFault>) {
    let fed = fed(rt, framer, piece);
    let got = (fed.frames.len(), fed.fault);
    drop(fed);
    got
}

// A piece with so many frames and a bad length behind them, or behind what came before.
fn is_bad_behind(rt: &impl Abort, framer: &mut Framer, piece: &[u8], frames: usize) {
    let got = frames_and_fault(rt, framer, piece);
    same(rt, got, (frames, Some(FrameFault::BadLength)));
}

// An enquire_link and a bad length.
const BAD_BEHIND: &[u8] = &[
    0, 0, 0, 16, 0, 0, 0, 0x15, 0, 0, 0, 0, 0, 0, 0, 2, 0, 0, 0, 15,
];

#[test]
fn a_bad_length_ends_the_stream(rt: HostRuntime) {
    let rt = &rt;
    let mut framer = Framer::new(rt.alloc());
    is_bad_behind(rt, &mut framer, BAD_BEHIND, 1);
    is_bad_behind(rt, &mut framer, ENQUIRE_LINK, 0);
    same(rt, framer.fault(), Some(FrameFault::BadLength));
}

// The octets are one frame, in pieces of this length too.
fn is_one_frame(rt: &impl Abort, alloc: Global, octets: &[u8], length: usize) {
    let mut framer = Framer::new(alloc);
    let count = frames_of(rt, &mut framer, octets, length, octets);
    same(rt, (length, count), (length, 1));
}

// 70,000 octets are a frame, whole and in pieces.
#[test]
fn the_longest_frame(rt: HostRuntime) {
    let rt = &rt;
    let alloc = rt.alloc();
    let octets = zeros_behind(rt, alloc, b"\x00\x01\x11\x70", 70_000);
    let frame = octets.as_slice();
    same(rt, is_frame(frame), true);
    is_one_frame(rt, alloc, frame, 3);
    is_one_frame(rt, alloc, frame, 69_999);
    is_one_frame(rt, alloc, frame, 70_000);
}

// The octets begin with a bad length, and a framer takes them for no frame.
fn is_no_frame(rt: &impl Abort, alloc: Global, octets: &[u8]) {
    same(rt, (is_bad(octets), is_frame(octets)), (true, false));
    is_bad_behind(rt, &mut Framer::new(alloc), octets, 0);
}

// 70,001 octets are no frame.
#[test]
fn a_frame_too_long(rt: HostRuntime) {
    let rt = &rt;
    let alloc = rt.alloc();
    let octets = zeros_behind(rt, alloc, b"\x00\x01\x11\x71", 70_001);
    is_no_frame(rt, alloc, octets.as_slice());
}

#[test]
fn the_first_frame(rt: HostRuntime) {
    let rt = &rt;
    let mut stream = joined(rt, rt.alloc(), SUBMIT, ENQUIRE_LINK);
    same(rt, first_frame(stream.as_slice()), Some(52));
    same(rt, is_bad(stream.as_slice()), false);
    stream.truncate(51);
    same(rt, first_frame(stream.as_slice()), None);
}

fn frames_in(rt: &impl Abort, alloc: Global, stream: &[u8]) -> Frames {
    let mut framer = Framer::new(alloc);
    let fed = fed(rt, &mut framer, stream);
    Frames::new(fed.frames.into_vec())
}

// The next frame.
fn taken(rt: &impl Abort, frames: &mut Frames) -> Frame {
    match frames.take_first() {
        Some(frame) => frame,
        None => panic!(rt; "no frame"),
    }
}

// The first frame is the submit_sm, number 2.
fn first_is_submit(rt: &impl Abort, frames: &mut Frames) {
    let first = taken(rt, frames);
    same(rt, first.header().number, 2);
    want_octets(rt, first.as_slice(), SUBMIT);
}

// The next is the enquire_link.
fn next_is_enquire_link(rt: &impl Abort, frames: &mut Frames) {
    let second = taken(rt, frames).into_vec();
    same(rt, is_frame(second.as_slice()), true);
    want_octets(rt, second.as_slice(), ENQUIRE_LINK);
}

fn none_follows(rt: &impl Abort, frames: &mut Frames) {
    same(rt, frames.take_first().is_none(), true);
}

#[test]
fn frames_in_order(rt: HostRuntime) {
    let rt = &rt;
    let stream = joined(rt, rt.alloc(), SUBMIT, ENQUIRE_LINK);
    let mut frames = frames_in(rt, rt.alloc(), stream.as_slice());
    drop(stream);
    first_is_submit(rt, &mut frames);
    same(rt, frames.len(), 1);
    next_is_enquire_link(rt, &mut frames);
    none_follows(rt, &mut frames);
    drop(frames);
}

// A writer that takes three octets at a time, and fails after so many writes.
#[derive(Drop)]
struct Slow {
    written: Vec<u8>,
    writes: u32,
}

impl Write for Slow {
    ghost contents = { λ _. None };

    fn write(&mut self, buf: &[u8]) -> io::Result<usize>
        ensures bound { WritesAtMost result buf.now }
        ensures bytes { WriteAppends None None result buf.now }
    {
        if self.writes == 0 {
            return Err(Error::from(ErrorKind::Other));
        }
        self.writes -= 1;
        let most = buf.len().min(3);
        match self.written.extend_from_slice(&buf[..most]) {
            Ok(()) => Ok(most),
            Err(_) => Err(Error::from(ErrorKind::OutOfMemory)),
        }
    }

    fn flush(&mut self) -> io::Result<()>
        ensures bytes { Keeps None None }
    {
        Ok(())
    }
}

// Whether an enquire_link is written whole.
fn is_written(writer: &mut Slow) -> bool {
    write_octets(writer, ENQUIRE_LINK).is_ok()
}

#[test]
fn written_whole_or_in_part(rt: HostRuntime) {
    let rt = &rt;
    let mut writer = Slow {
        written: Vec::new(rt.alloc()),
        writes: 8,
    };
    same(rt, is_written(&mut writer), true);
    want_octets(rt, writer.written.as_slice(), ENQUIRE_LINK);
    same(rt, is_written(&mut writer), false);
    same(rt, writer.written.len(), 22);
    drop(writer);
}
