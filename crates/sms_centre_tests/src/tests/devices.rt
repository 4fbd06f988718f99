//! The pipe, from both ends, and the fuse.

use super::{ANSWER, SUBMIT, good, same, served_over};
use sms_centre::{Fuse, Pipe, ServeCause};
use std::io::{ErrorKind, Read, Write};
use std::process::Abort;
use std::test::Fail;

// A writer takes so many of these octets.
fn takes(rt: &impl Abort, writer: &mut impl Write, octets: &[u8], count: usize) {
    assert!(rt; matches!(writer.write(octets), Ok(n) if n == count));
}

// A writer takes these four octets, and then the first of them.
fn fills(rt: &impl Abort, writer: &mut impl Write, octets: &[u8; 4]) {
    takes(rt, writer, octets, 4);
    takes(rt, writer, octets, 1);
    assert!(rt; writer.write(octets).is_err());
    takes(rt, writer, &[], 0);
}

// A reader with room for at most eight octets gives these.
fn reads(rt: &impl Abort, reader: &mut impl Read, room: usize, wanted: &[u8]) {
    let mut buf = [0u8; 8];
    let Ok(n) = reader.read(&mut buf[..room.min(8)]) else {
        panic!(rt; "nothing is read")
    };
    same(rt, &buf[..n.min(8)], wanted);
}

#[test]
fn both_ends_of_a_pipe(rt: HostRuntime) -> Result<(), Fail> {
    let alloc = rt.alloc();
    let pipe = Pipe::new(alloc, 5)?;
    let mut writer = pipe.end(&rt);
    let mut reader = pipe.end(&rt);
    let mut buf = [0u8; 8];
    assert!(rt; matches!(reader.read(&mut buf), Err(e) if e.kind() == ErrorKind::WouldBlock));
    for round in 0..4u8 {
        let octets = [round, 10, 20, 30];
        fills(&rt, &mut writer, &octets);
        reads(&rt, &mut reader, 3, &[round, 10, 20]);
        reads(&rt, &mut reader, 8, &[30, round]);
    }
    assert!(rt; matches!(writer.write(&[7]), Ok(1)));
    pipe.close(&rt);
    reads(&rt, &mut reader, 8, &[7]);
    assert!(rt; matches!(reader.read(&mut buf), Ok(0)));
    Ok(())
}

#[test]
fn a_centre_behind_pipes(rt: HostRuntime) -> Result<(), Fail> {
    let alloc = rt.alloc();
    let script = good(alloc)?;
    let there = Pipe::new(alloc, 100)?;
    let back = Pipe::new(alloc, 100)?;
    takes(&rt, &mut there.end(&rt), SUBMIT, 52);
    there.close(&rt);
    let end = served_over(alloc, there.end(&rt), back.end(&rt), script, 10);
    same(&rt, (end.submits, end.cause), (1, ServeCause::Ended));
    let mut buf = [0u8; 32];
    assert!(rt; matches!(back.end(&rt).read(&mut buf), Ok(19)));
    same(&rt, &buf[..19], ANSWER.as_slice());
    Ok(())
}

#[test]
fn a_fuse_passes_so_many_octets(rt: HostRuntime) -> Result<(), Fail> {
    let alloc = rt.alloc();
    let mut buf = [0u8; 4];
    let mut fuse = Fuse::new(SUBMIT.as_slice(), 6);
    reads(&rt, &mut fuse, 4, b"\x00\x00\x00\x34");
    reads(&rt, &mut fuse, 4, b"\x00\x00");
    assert!(rt; fuse.read(&mut buf).is_err());
    let mut out = Vec::<u8>::new(alloc);
    let mut fuse = Fuse::new(&mut out, 3);
    takes(&rt, &mut fuse, b"ab", 2);
    takes(&rt, &mut fuse, b"cd", 1);
    assert!(rt; fuse.write(b"e").is_err());
    assert!(rt; fuse.flush().is_ok());
    same(&rt, out.as_slice(), b"abc".as_slice());
    Ok(())
}
