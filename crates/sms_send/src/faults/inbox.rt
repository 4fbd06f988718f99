//! What standard error has of an inbox that could not be written on.

use crate::faults::details::journal::writing_text;
use crate::terminal::standard_error::write_beside;
use sms_devices::{Host, Inbox};
use std::fs::OpenFile;
use std::io::Write;

/// Says that an inbox could not be written on from some time on, where that is so. It is no fault of the sending: what was not kept
/// was not acknowledged, and the message centre sends it again.
pub fn tell_unkept<R: Host, F: Write + OpenFile>(rt: &R, inbox: Option<&Inbox<F>>) {
    let Some(inbox) = inbox else {
        return;
    };
    let Some(why) = inbox.failure(rt) else {
        return;
    };
    let why = writing_text(why);
    let said = format!(in rt.alloc();
        "the inbox could not be written on: {why}\nthe message centre sends again what was not kept\n"
    );
    if let Ok(lines) = said {
        write_beside(rt, &lines);
    }
}
