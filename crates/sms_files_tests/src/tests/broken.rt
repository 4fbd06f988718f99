//! Devices that fail, for the tests.

use std::io;

/// Gives the octets that it has, and then fails.
#[derive(Drop)]
pub struct FailingInput<'a> {
    pub left: &'a [u8],
}

impl io::Read for FailingInput<'_> {
    fn read(&mut self, buf: &mut [u8]) -> io::Result<usize> {
        if self.left.is_empty() {
            return Err(io::Error::from(io::ErrorKind::BrokenPipe));
        }
        self.left.read(buf)
    }
}
