//! How serving ends, and what is written then.

use super::{ANSWER, SUBMIT, bare, good, same, served, served_over};
use sms_centre::{Fuse, ServeCause, ServeEnd};
use std::alloc::Global;
use std::io;
use std::io::{Error, ErrorKind, Read, Write};
use std::process::Abort;
use std::test::Fail;

// Gives one octet in every second read, and nothing in the others.
#[derive(Drop)]
struct Drops<'a> {
    octets: &'a [u8],
    idle: bool,
}

impl Read for Drops<'_> {
    fn read(&mut self, buf: &mut [u8]) -> io::Result<usize> {
        self.idle = !self.idle;
        if self.idle {
            return Err(Error::from(ErrorKind::TimedOut));
        }
        let most = buf.len().min(1);
        self.octets.read(&mut buf[..most])
    }
}

// Counts its writes.
#[derive(Drop)]
struct Counter {
    writes: u32,
    octets: usize,
}

impl Write for Counter {
    fn write(&mut self, buf: &[u8]) -> io::Result<usize> {
        self.writes = self.writes.saturating_add(1);
        self.octets = self.octets.saturating_add(buf.len());
        Ok(buf.len())
    }

    fn flush(&mut self) -> io::Result<()> {
        Ok(())
    }
}

#[test]
fn a_bad_length_and_the_turns(rt: HostRuntime) -> Result<(), Fail> {
    let alloc = rt.alloc();
    for length in [15u32, 70_001] {
        let mut stream = Vec::new(alloc);
        stream.extend_from_slice(&bare(0x15, 0, 9))?;
        stream.extend_from_slice(&length.to_be_bytes())?;
        let (out, end) = served(alloc, "answers = [\"cut\"]", stream.as_slice())?;
        same(
            &rt,
            end,
            ServeEnd {
                submits: 0,
                cause: ServeCause::Lost,
            },
        );
        same(&rt, out.as_slice(), bare(0x8000_0015, 0, 9).as_slice());
    }
    for turns in [0u64, 1, 103, 104, 105, 106] {
        let reader = Drops {
            octets: SUBMIT.as_slice(),
            idle: false,
        };
        let mut out = Vec::<u8>::new(alloc);
        let end = served_over(alloc, reader, &mut out, good(alloc)?, turns);
        let submits = if turns < 104 { 0 } else { 1 };
        let cause = if turns < 106 {
            ServeCause::Turns
        } else {
            ServeCause::Ended
        };
        same(&rt, end, ServeEnd { submits, cause });
        same(&rt, out.len(), 19 * submits as usize);
    }
    Ok(())
}

#[test]
fn one_write_for_one_read(rt: HostRuntime) -> Result<(), Fail> {
    let alloc = rt.alloc();
    let mut stream = Vec::new(alloc);
    for _ in 0..100 {
        stream.extend_from_slice(SUBMIT)?;
    }
    let mut writer = Counter {
        writes: 0,
        octets: 0,
    };
    let end = served_over(alloc, stream.as_slice(), &mut writer, good(alloc)?, 10);
    same(
        &rt,
        end,
        ServeEnd {
            submits: 100,
            cause: ServeCause::Ended,
        },
    );
    same(
        &rt,
        (writer.writes, writer.octets),
        (1, 9 * 19 + 90 * 20 + 21),
    );
    Ok(())
}

// Reading fails after so many octets of a submit_sm.
fn want_read_fault(rt: &impl Abort, alloc: Global, octets: u64) -> Result<(), Fail> {
    let reader = Fuse::new(SUBMIT.as_slice(), octets);
    let mut out = Vec::<u8>::new(alloc);
    let end = served_over(alloc, reader, &mut out, good(alloc)?, 100);
    let cause = if octets < 53 {
        ServeCause::ReadFault
    } else {
        ServeCause::Ended
    };
    same(rt, end.cause, cause);
    let written = if octets < 52 { 0 } else { 19 };
    same(rt, out.as_slice(), &ANSWER[..written]);
    Ok(())
}

// Writing fails after so many octets of the answer.
fn want_write_fault(rt: &impl Abort, alloc: Global, octets: usize) -> Result<(), Fail> {
    let mut out = Vec::<u8>::new(alloc);
    let writer = Fuse::new(&mut out, octets as u64);
    let end = served_over(alloc, SUBMIT.as_slice(), writer, good(alloc)?, 100);
    let cause = if octets < 19 {
        ServeCause::WriteFault
    } else {
        ServeCause::Ended
    };
    same(rt, (end.submits, end.cause), (1, cause));
    let most = octets.min(19);
    same(rt, out.as_slice(), &ANSWER[..most]);
    Ok(())
}

#[test]
fn a_fault_at_each_octet(rt: HostRuntime) -> Result<(), Fail> {
    for octets in 0..54u64 {
        want_read_fault(&rt, rt.alloc(), octets)?;
    }
    for octets in 0..21usize {
        want_write_fault(&rt, rt.alloc(), octets)?;
    }
    Ok(())
}
