//! How a line of a journal is made. It needs no lock.

ghost use Rattle.std.specs.Prelude.{◌≡◌, [], IfOk};
ghost use Rattle.std.specs.String.{string_bytes};
ghost use Rattle.sms_journal.specs.Text.{header_text, note_text};

use sms_files::memory::NoMemory;
use sms_journal::{Digests, JournalKind, Note, write_header, write_note};
use std::alloc::Global;

/// How many octets most lines have at most.
const LINE_OCTETS: usize = 96;

/// A line, or that memory was refused for it.
pub(crate) type MadeLine = Result<String, NoMemory>;

/// No text yet. It has room for most lines, if there is memory for that.
fn blank(alloc: Global) -> String
    ensures { string_bytes result ≡ [] }
{
    match String::with_capacity(alloc, LINE_OCTETS) {
        Ok(line) => line,
        Err(_refused) => String::new(alloc),
    }
}

/// The first line of a journal.
pub(crate) fn header_line(alloc: Global, kind: JournalKind, digests: &Digests) -> MadeLine
    ensures { IfOk result (λ line. string_bytes line ≡ header_text kind digests.now) }
{
    let mut line = blank(alloc);
    write_header(&mut line, kind, digests)?;
    Ok(line)
}

/// The line of a note that is made at this time.
pub(crate) fn note_line(alloc: Global, time: u64, note: &Note) -> MadeLine
    ensures { IfOk result (λ line. string_bytes line ≡ note_text time note.now) }
{
    let mut line = blank(alloc);
    write_note(&mut line, time, note)?;
    Ok(line)
}
