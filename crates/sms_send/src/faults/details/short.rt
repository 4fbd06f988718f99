//! Texts from outside of which only the first characters are shown.

use crate::faults::details::shown::write_char;
use std::{fmt, str};

/// How many characters of a text are shown.
const SHORT: usize = 40;

/// The first 40 characters of a text, written as a name is.
#[derive(Clone, Copy, Debug)]
pub(crate) struct Short<'a>(pub &'a str);

impl fmt::Display for Short<'_> {
    fn fmt<W: fmt::Write>(&self, f: &mut fmt::Formatter<W>) -> fmt::Result {
        let mut left = SHORT;
        for c in self.0.chars() {
            if left == 0 {
                return f.write_str("..");
            }
            write_char(f, c)?;
            left -= 1;
        }
        Ok(())
    }
}

/// The same of octets. Where they aren't UTF-8, each octet that isn't a printable ASCII character is written out.
#[derive(Clone, Copy, Debug)]
pub(crate) struct ShortOctets<'a>(pub &'a [u8]);

impl fmt::Display for ShortOctets<'_> {
    fn fmt<W: fmt::Write>(&self, f: &mut fmt::Formatter<W>) -> fmt::Result {
        if let Ok(text) = str::from_utf8(self.0) {
            let text = Short(text);
            return write!(f, "{text}");
        }
        let mut left = SHORT;
        for octet in self.0 {
            if left == 0 {
                return f.write_str("..");
            }
            write_octet(f, *octet)?;
            left -= 1;
        }
        Ok(())
    }
}

/// Writes an octet of a text that isn't UTF-8.
fn write_octet<W: fmt::Write>(f: &mut fmt::Formatter<W>, octet: u8) -> fmt::Result {
    if octet >= b' ' && octet <= b'~' {
        f.write_char(char::from(octet))
    } else {
        write!(f, "\\x{octet:02x}")
    }
}
