//! What is written to standard error of a fault: its line, and the detail lines after it where they are wanted.

ghost use Rattle.std.specs.Fmt.{WritesOnOk};
ghost use Rattle.std.specs.Prelude.{◌≡◌, [], false, string_bytes};
ghost use Rattle.sms_send.specs.FaultReports.{detail_lines};

use crate::faults::context::JobContext;
use crate::faults::details::lines::{fixed_text, write_lines};
use crate::faults::details::shown::write_indented;
use crate::faults::fault::Fault;
use crate::faults::full_names::FullNames;
use std::fmt;

/// A fault with its details.
#[derive(Clone, Copy, Debug)]
pub struct FaultReport<'a> {
    pub fault: &'a Fault,
    /// The lines after the fault's, without a line end after the last. Each is written two columns in. Empty is none.
    pub details: &'a str,
}

impl<'a> fmt::Display for FaultReport<'a> {
    ghost use Rattle.std.specs.Prelude.{Some};
    ghost use Rattle.sms_send.specs.FaultReports.{report_text};

    ghost output = { λ report. Some (report_text report.fault.now report.details.now) };

    fn fmt<W: fmt::Write>(&self, f: &mut fmt::Formatter<W>) -> fmt::Result {
        let fault = self.fault;
        write!(f, "{fault}\n")?;
        write_details(f, self.details)
    }
}

/// Writes the detail lines.
fn write_details<W: fmt::Write>(f: &mut fmt::Formatter<W>, details: &str) -> fmt::Result
    ensures { WritesOnOk W.write_str_gives f.old result (detail_lines details.now) f.new }
{
    if details.is_empty() {
        return Ok(());
    }
    f.write_str("  ")?;
    write_indented(f, details)?;
    f.write_str("\n")
}

/// The details of a fault that always has the same ones, where they are wanted. They take no memory.
pub fn fixed_details(fault: &Fault, wanted: bool) -> &'static str
    ensures alone { wanted ≡ false → result.now ≡ [] }
{
    if wanted { fixed_text(fault) } else { "" }
}

/// The details of another fault of a job, where they are wanted; empty where memory is refused for them.
pub fn details_of<R: AllocGlobal + FullNames>(
    rt: &R,
    fault: &Fault,
    job: &JobContext,
    wanted: bool,
) -> String
    ensures alone { wanted ≡ false → string_bytes result ≡ [] }
{
    let mut details = String::new(rt.alloc());
    if !wanted {
        return details;
    }
    match write_lines(rt, &mut details, fault, job) {
        Ok(()) => details,
        Err(_memory) => {
            drop(details);
            String::new(rt.alloc())
        }
    }
}
