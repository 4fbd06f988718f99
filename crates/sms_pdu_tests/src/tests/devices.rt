//! Devices whose errors are counted.

use super::same;
use sms_pdu::{DeviceError, Tap};
use std::io;
use std::io::{Error, ErrorKind, Read, Write};
use std::process::Abort;

// Answers its reads by these errors, one after another, and gives or takes no octet then.
#[derive(Drop)]
struct Failing<'a> {
    kinds: &'a [ErrorKind],
}

impl Read for Failing<'_> {
    fn read(&mut self, _buf: &mut [u8]) -> io::Result<usize> {
        match self.kinds.split_first() {
            Some((kind, others)) => {
                self.kinds = others;
                Err(Error::from(*kind))
            }
            None => Ok(0),
        }
    }
}

impl Write for Failing<'_> {
    fn write(&mut self, _buf: &[u8]) -> io::Result<usize> {
        Ok(0)
    }

    fn flush(&mut self) -> io::Result<()> {
        Ok(())
    }
}

// What a device counted: its errors, and those of them that say more than that nothing came.
fn want_counted(rt: &impl Abort, device: &Tap<Failing<'_>>, wanted: (u64, u64)) {
    same(rt, (device.faults(), device.failures()), wanted);
}

// Reads that gave nothing and those that failed are counted apart.
#[test]
fn reads_that_fail_are_counted_apart(rt: HostRuntime) {
    let mut device = Tap::new(Failing {
        kinds: &[
            ErrorKind::WouldBlock,
            ErrorKind::TimedOut,
            ErrorKind::Interrupted,
            ErrorKind::Other,
            ErrorKind::ConnectionReset,
        ],
    });
    for wanted in [(1, 0), (2, 0), (3, 0), (4, 1), (5, 2)] {
        assert!(rt; device.read(&mut [0]).is_err());
        want_counted(&rt, &device, wanted);
    }
    assert!(rt; matches!(device.read(&mut [0]), Ok(0)));
    want_counted(&rt, &device, (5, 2));
}

#[test]
fn a_write_that_takes_nothing_is_counted(rt: HostRuntime) {
    let mut device = Tap::new(Failing { kinds: &[] });
    assert!(rt; device.write(&[]).is_ok());
    want_counted(&rt, &device, (0, 0));
    assert!(rt; device.write(&[1]).is_err());
    want_counted(&rt, &device, (1, 1));
    assert!(rt; device.put(&[]).is_ok());
    assert!(rt; device.flush().is_ok());
    want_counted(&rt, &device, (1, 1));
    assert!(rt; device.put(&[1]).is_err());
    want_counted(&rt, &device, (2, 2));
}

#[test]
fn a_device_without_an_error_has_not_failed(rt: HostRuntime) {
    let mut device = Tap::new(Failing {
        kinds: &[ErrorKind::WouldBlock],
    });
    assert!(rt; DeviceError::of(&device).is_none());
    assert!(rt; device.read(&mut [0]).is_err());
    let failed = DeviceError::of(&device);
    assert!(rt; failed.is_some());
    assert!(rt; device.read(&mut [0]).is_ok());
    same(&rt, DeviceError::of(&device), failed);
}
