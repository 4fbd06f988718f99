//! Warnings of texts that look as if a quote had been left open.

ghost use Rattle.std.specs.Prelude.{◌≡◌, ◌++◌, IfOk, OnOk, string_bytes};
ghost use Rattle.sms_files.specs.Warnings.{behind_line as what_is_behind, commas, looks_open as is_open, warning_line, warning_lines};

use crate::Input;
use crate::memory::{NoMemory, append, append_number};
use sms_message::Message;
use std::alloc::Global;

/// How many commas after a line feed look like records: as many as stand in a messages record.
const COMMAS: usize = 3;

/// How many commas there are.
fn commas_in(text: &[u8]) -> usize
    ensures { result ≡ commas text.now }
{
    let mut count = 0;
    for octet in text {
        if *octet == b',' {
            count += 1;
        }
    }
    count
}

/// What stands after the first line feed; nothing where there is none.
fn behind_line(text: &[u8]) -> &[u8]
    ensures { result.now ≡ what_is_behind text.now }
{
    for place in 0..text.len() {
        if text[place] == b'\n' {
            return &text[place + 1..];
        }
    }
    &text[text.len()..]
}

/// Whether the text looks as if it held records after a line feed.
fn looks_open(text: &[u8]) -> bool
    ensures { result ≡ is_open text.now }
{
    commas_in(behind_line(text)) >= COMMAS
}

/// The line of a message whose text looks so, and nothing of another.
fn write_warning(text: &mut String, message: &Message) -> Result<(), NoMemory>
    ensures { OnOk result (string_bytes text.new ≡ string_bytes text.old ++ warning_line message.now) }
{
    if !looks_open(message.text.as_bytes()) {
        return Ok(());
    }
    append_number(text, "warning: message ", message.index)?;
    append(
        text,
        ": its text has a line end and commas: is a quote left open?\n",
    )
}

/// The lines of these messages.
fn write_warnings(text: &mut String, messages: &[Message]) -> Result<(), NoMemory>
    ensures { OnOk result (string_bytes text.new ≡ string_bytes text.old ++ warning_lines messages.now) }
{
    for place in 0..messages.len() {
        write_warning(text, &messages[place])?;
    }
    Ok(())
}

/// The warnings of the messages of an input: a line for each whose text has a line feed and after it
/// at least as many commas as stand in a messages record. A quote that is left open in a messages file
/// makes such a text of the records after it.
pub fn warnings_text(alloc: Global, input: &Input) -> Result<String, NoMemory>
    ensures { IfOk result (λ text. string_bytes text ≡ warning_lines input.now.messages.items) }
{
    let mut text = String::new(alloc);
    write_warnings(&mut text, input.messages())?;
    Ok(text)
}
