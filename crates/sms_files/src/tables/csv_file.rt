//! A CSV file that is read: its errors are counted, and it is known whether all of it was read and how it ends.

ghost use Rattle.std.specs.Prelude.{◌≡◌};
ghost use Rattle.std.specs.Io.{ReadsAtMost};
ghost use Rattle.std.specs.Io.KnownBytes.{ReadConsumes};
ghost use Rattle.sms_pdu.specs.Devices.{device};

use sms_pdu::Tap;
use std::io;
use std::io::Read;

/// A reader of a file, how many octets it gave, and whether the last of them was a line feed.
#[derive(Drop)]
pub struct CsvFile<R> {
    pub(crate) tap: Tap<R>,
    octets: u64,
    ends_line: bool,
}

impl<R> CsvFile<R> {
    /// A file of which nothing was read.
    pub fn new(input: R) -> CsvFile<R>
        ensures { device result.tap ≡ input }
    {
        CsvFile {
            tap: Tap::new(input),
            octets: 0,
            ends_line: false,
        }
    }

    /// The reader, whose errors are counted.
    pub fn tap(&self) -> &Tap<R>
        ensures { result.now ≡ self.now.tap }
    {
        &self.tap
    }

    /// Whether no more than this number of octets was read, and the last of them was no line feed.
    pub fn stops_within_line(&self, octets: u64) -> bool {
        self.octets <= octets && !self.ends_line
    }
}

impl<R: Read> Read for CsvFile<R> {
    ghost remaining = { λ file. R.remaining (device file.tap) };

    fn read(&mut self, buf: &mut [u8]) -> io::Result<usize>
        ensures bound { ReadsAtMost result buf.new }
        ensures bytes { ReadConsumes (R.remaining (device self.old.tap)) (R.remaining (device self.new.tap)) result buf.new }
    {
        match self.tap.read(buf) {
            Ok(n) => {
                self.octets = self.octets.saturating_add(n as u64);
                if let Some(last) = buf.get(n.wrapping_sub(1)) {
                    self.ends_line = *last == b'\n';
                }
                Ok(n)
            }
            Err(e) => Err(e),
        }
    }
}
