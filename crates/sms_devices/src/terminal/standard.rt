//! Standard input, output and error that were closed before the program began. The next file or connection
//! that is opened gets the lowest free descriptor. So it would become one of the three, and what is printed
//! would go there.

ghost use Rattle.std.specs.Prelude.{IfSome};
ghost use Rattle.sms_devices.specs.Standard.{IsStandard};

use std::fs;
use std::fs::OpenOptions;
use std::os::fd::AsRawFd;
use std::rt::Files;

/// A file that gives nothing, and drops what it takes.
const NOTHING: &str = "/dev/null";

/// The descriptors of standard input, output and error.
const INPUT: i32 = 0;

const OUTPUT: i32 = 1;

const ERROR: i32 = 2;

/// The file, if it has one of the three descriptors.
fn at_standard<F: AsRawFd + Drop>(file: F) -> Option<F>
    ensures { IfSome result (λ f. IfSome (F.raw_fd f) IsStandard) }
{
    match file.as_raw_fd() {
        INPUT | OUTPUT | ERROR => Some(file),
        _ => None,
    }
}

/// A file in place of the first of the three that is closed. As with a closed one, using it fails: input is opened
/// for writing, output and error for reading.
fn stand_in<R: Files>(rt: &R) -> Option<R::File>
where
    R::File: AsRawFd,
    ensures { IfSome result (λ f. IfSome (R.File.raw_fd f) IsStandard) }
{
    let found = at_standard(fs::open(rt, NOTHING).ok()?)?;
    if found.as_raw_fd() != INPUT {
        return Some(found);
    }
    drop(found);
    at_standard(OpenOptions::new().write(true).open(rt, NOTHING).ok()?)
}

/// Files in place of those of the three that are closed, until they are dropped. Nothing else may have been
/// opened before.
pub fn stand_ins<R: Files>(rt: &R) -> [Option<R::File>; 3]
where
    R::File: AsRawFd,
{
    [stand_in(rt), stand_in(rt), stand_in(rt)]
}
