//! The detail lines of journals and outputs that can't be written, and what to type next.

use crate::faults::context::{JobContext, JobKind, text_of};
use crate::faults::details::shown::Shown;
use sms_devices::JournalFailure;
use std::alloc::AllocError;
use std::fmt::Write as _;

/// Why a journal can't be written.
pub(crate) fn writing_text(why: JournalFailure) -> &'static str {
    match why {
        JournalFailure::OutOfMemory => "out of memory",
        JournalFailure::StorageFull => "no space left on the device",
        JournalFailure::QuotaExceeded => "this user's disk quota is used up",
        JournalFailure::FileTooLarge => {
            "the file has reached the largest size that is permitted"
        }
        JournalFailure::ReadOnly => "its file system is read-only",
        JournalFailure::Other => "the device failed",
    }
}

/// Writes why a journal can't be begun, or takes no further round: then it is the record of the run, and is kept.
pub(crate) fn write_unbegun(
    text: &mut String,
    job: &JobContext,
    why: JournalFailure,
) -> Result<(), AllocError> {
    let why = writing_text(why);
    if job.kind == JobKind::Resume {
        write!(
            text,
            "{why}\nnothing was sent in this round; keep the journal, and resume once it can be written"
        )
    } else {
        write!(
            text,
            "{why}\nnothing was sent; remove this journal before the next run"
        )
    }
}

/// Writes why a journal can't be written on, and how to send what is left.
pub(crate) fn write_unnoted(
    text: &mut String,
    job: &JobContext,
    why: JournalFailure,
) -> Result<(), AllocError> {
    let why = writing_text(why);
    write!(
        text,
        "{why}\nwhat was not noted was not sent; the report is right"
    )?;
    match (text_of(&job.names.config), text_of(&job.names.journal)) {
        (Some(config), Some(journal)) if job.kind == JobKind::Resume => {
            let (config, journal) = (Shown(config), Shown(journal));
            write!(
                text,
                "\nnext: sms-send resume --config {config} --journal {journal} sends them, once it can be written"
            )
        }
        (Some(config), _) => {
            let config = Shown(config);
            write!(
                text,
                "\nnext: sms-send rest --config {config} --report REPORT prints the messages that were not sent"
            )
        }
        _ => Ok(()),
    }
}

/// Writes what an output that failed says of messages, and how to print the report again.
pub(crate) fn write_unprinted(text: &mut String, job: &JobContext) -> Result<(), AllocError> {
    match job.kind {
        JobKind::Other => text.push_str("nothing was sent"),
        JobKind::Loop => write_sent(text, job, "--trial "),
        JobKind::Send | JobKind::Resume => write_sent(text, job, ""),
        JobKind::TopUp => text.push_str("the payment is booked"),
    }
}

/// Writes that messages were sent, and how the report is printed from the journal where there is one.
fn write_sent(text: &mut String, job: &JobContext, trial: &str) -> Result<(), AllocError> {
    text.push_str("messages were sent: don't send them again before you know which")?;
    match (text_of(&job.names.config), text_of(&job.names.journal)) {
        (Some(config), Some(journal)) => {
            text.push_str("\n")?;
            write_recover(text, config, journal, trial)?;
            text.push_str(" prints the report")
        }
        _ => Ok(()),
    }
}

/// Writes the command that prints a report from a journal.
fn write_recover(
    text: &mut String,
    config: &str,
    journal: &str,
    trial: &str,
) -> Result<(), AllocError> {
    let (config, journal) = (Shown(config), Shown(journal));
    write!(
        text,
        "next: sms-send recover {trial}--config {config} --journal {journal}"
    )
}
