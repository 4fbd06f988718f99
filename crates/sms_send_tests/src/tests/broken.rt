//! Devices that fail, for the tests.

use super::ledger::done;
use super::same::same;
use super::told::told_of;
use sms_devices::{Host, LedgerFiles};
use sms_send::{FileModes, FullNames, InputFiles, Job};
use std::io;
use std::process::Abort;
use std::test::Fail;

/// Gives the octets that it has, and then fails.
#[derive(Drop)]
pub struct FailingInput<'a> {
    pub left: &'a [u8],
}

impl io::Read for FailingInput<'_> {
    fn read(&mut self, buf: &mut [u8]) -> io::Result<usize> {
        if self.left.is_empty() {
            return Err(io::Error::from(io::ErrorKind::BrokenPipe));
        }
        self.left.read(buf)
    }
}

/// Takes so many octets, and then fails; nothing that it takes goes out.
#[derive(Drop)]
pub struct FailingOutput {
    pub room: usize,
}

impl io::Write for FailingOutput {
    fn write(&mut self, buf: &[u8]) -> io::Result<usize> {
        if self.room == 0 {
            return Err(io::Error::from(io::ErrorKind::BrokenPipe));
        }
        let taken = buf.len().min(self.room);
        self.room -= taken;
        Ok(taken)
    }

    fn flush(&mut self) -> io::Result<()> {
        Err(io::Error::from(io::ErrorKind::BrokenPipe))
    }
}

/// That a job ends with a fault of the output, which takes so many octets.
pub fn want_unprinted<R: FileModes + FullNames + Host + InputFiles + LedgerFiles + Abort>(
    rt: &R,
    job: Job,
    room: usize,
) -> Result<(), Fail> {
    match done(rt, job, &mut FailingOutput { room }) {
        Ok(_) => panic!(rt; "no fault"),
        Err(fault) => same(rt, told_of(rt.alloc(), fault)?.as_str(), "fault: output"),
    }
    Ok(())
}
