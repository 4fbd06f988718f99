//! A journal read: its header, and the notes of its lines.

ghost use Rattle.std.specs.Prelude.{◌≡◌, ◌<◌, ℕ, IfErr, IfOk, IfSome, List, MatchOption, None, Some, [], false, length};
ghost use Rattle.sms_journal.specs.Lines.{AreFaultyLines, AreNotes, IsFaultyText, IsFront, IsJournalText, IsRead, IsTruncated, IsUnbegun, feed_at as first_feed};
ghost use Rattle.sms_journal.specs.Ahead.{IsReadAhead};
ghost use Rattle.sms_journal.specs.Digests.{first_in_tie};
ghost use Rattle.sms_journal.specs.declared.text.header.JournalKind.{JournalKind as TheKind};

use crate::error::JournalError;
use crate::notes::Note;
use crate::text::digests::{FileTies, first_difference};
use crate::text::header::{ConfigTie, Digests, JournalKind, write_header};
use crate::text::header_fields::{behind, read_head};
use crate::text::note_fields::{note_in, time_in};
use crate::text::note_line::write_note;
use sms_files::memory::{self, NoMemory};
use std::alloc::Global;

/// Where the first line feed stands.
pub(crate) fn feed_at(text: &[u8]) -> Option<usize>
    ensures place { result ≡ first_feed text.now }
    ensures within { IfSome result (λ at. at < length text.now) }
{
    text.iter().position(|octet| *octet == b'\n')
}

/// The note whose line this is, if it is one. What was read is written again and compared.
pub(crate) fn read_line(
    written: &mut String,
    room: &mut Vec<u8>,
    line: &[u8],
) -> Result<Option<Note>, NoMemory>
    ensures { IfOk result (IsRead line.now) }
{
    let Some(time) = time_in(line) else {
        return Ok(None);
    };
    let Some(note) = note_in(room, line)? else {
        return Ok(None);
    };
    written.clear();
    write_note(written, time, &note)?;
    if written.as_bytes() == line {
        Ok(Some(note))
    } else {
        Ok(None)
    }
}

/// The notes of the lines after the header.
fn read_lines(alloc: Global, text: &[u8]) -> Result<Vec<Note>, JournalError>
    ensures notes { IfOk result (λ notes. AreNotes text.now notes.items) }
    ensures faulty { IfErr result (AreFaultyLines text.now) }
{
    let mut notes = Vec::new(alloc);
    let mut written = String::new(alloc);
    let mut room = Vec::new(alloc);
    let mut left = text;
    while let Some(at) = feed_at(left) {
        let (line, rest) = left.split_at(at + 1);
        let Some(note) = read_line(&mut written, &mut room, line)? else {
            return Err(JournalError::BadRecord(notes.len() + 2));
        };
        memory::push(&mut notes, note)?;
        left = rest;
    }
    Ok(notes)
}

/// A journal read.
#[derive(Drop)]
pub struct JournalNotes {
    pub kind: JournalKind,
    /// The binds of its run's first round, and the workers of each, where its first line says them.
    pub first: Option<(u32, u32)>,
    pub notes: Vec<Note>,
}

/// The binds and workers of the first round, where a journal that is tied so says them.
fn first_in(tie: ConfigTie) -> Option<(u32, u32)>
    ensures { result ≡ first_in_tie tie }
{
    match tie {
        ConfigTie::Octets(_) => None,
        ConfigTie::Keys(keys) => Some((keys.binds, keys.workers)),
    }
}

/// Whether the text is a truncated header of this kind that says these digests.
fn truncates(
    header: &mut String,
    kind: JournalKind,
    digests: &Digests,
    text: &[u8],
) -> Result<bool, NoMemory>
    ensures { IfOk result (IsFront kind digests.now text.now) }
{
    header.clear();
    write_header(header, kind, digests)?;
    Ok(behind(header.as_bytes(), text).is_some())
}

/// Whether the text is a truncated header of this kind, of these files.
fn is_truncated(
    header: &mut String,
    kind: JournalKind,
    files: &FileTies,
    text: &[u8],
) -> Result<bool, NoMemory>
    ensures { IfOk result (IsTruncated kind files.now text.now) }
{
    if truncates(header, kind, &files.digests, text)? {
        return Ok(true);
    }
    if truncates(header, kind, &files.keyed(), text)? {
        return Ok(true);
    }
    Ok(false)
}

/// The kind of a journal whose header is truncated.
fn truncated_kind(
    header: &mut String,
    files: &FileTies,
    text: &[u8],
) -> Result<Option<JournalKind>, NoMemory>
    ensures { IfOk result (λ read. MatchOption read ((kind : TheKind) → IsTruncated kind files.now text.now false) (λ kind. IsUnbegun kind files.now text.now)) }
{
    if is_truncated(header, JournalKind::Run, files, text)? {
        return Ok(Some(JournalKind::Run));
    }
    if is_truncated(header, JournalKind::Trial, files, text)? {
        return Ok(Some(JournalKind::Trial));
    }
    Ok(None)
}

/// What is read of a journal's text whatever files it is of: what the header says that it begins with, and the notes of
/// the lines behind that.
#[derive(Drop)]
pub(crate) struct LinesRead {
    kind: JournalKind,
    digests: Digests,
    lines: Result<Vec<Note>, JournalError>,
}

/// Reads a journal's text before it is known of what files it is; nothing where it begins with no header.
pub(crate) fn read_ahead(alloc: Global, text: &[u8]) -> Result<Option<LinesRead>, NoMemory>
    ensures { IfOk result (IsReadAhead text.now) }
{
    let mut header = String::new(alloc);
    match read_head(&mut header, text)? {
        Some(head) => Ok(Some(LinesRead {
            kind: head.kind,
            digests: head.digests,
            lines: read_lines(alloc, head.rest),
        })),
        None => Ok(None),
    }
}

/// The notes of a journal of these files that begins with no header.
fn unbegun_notes(alloc: Global, text: &[u8], files: &FileTies) -> Result<JournalNotes, JournalError>
    requires { IsReadAhead text.now None }
    ensures notes { IfOk result (λ read. IsUnbegun read.kind files.now text.now × (read.first ≡ None) × (read.notes.items ≡ [])) }
    ensures faulty { IfErr result (IsFaultyText files.now text.now) }
{
    let mut header = String::new(alloc);
    match truncated_kind(&mut header, files, text)? {
        Some(kind) => Ok(JournalNotes {
            kind,
            first: None,
            notes: Vec::new(alloc),
        }),
        None => Err(JournalError::BadRecord(1)),
    }
}

/// The same of one that begins with a header, of which this was read.
fn begun_notes(files: &FileTies, read: LinesRead) -> Result<JournalNotes, JournalError>
    ensures notes { (text : List ℕ) → IsReadAhead text (Some read) → IfOk result (λ found. IsJournalText files.now text found.kind found.first found.notes.items) }
    ensures faulty { (text : List ℕ) → IsReadAhead text (Some read) → IfErr result (IsFaultyText files.now text) }
{
    let LinesRead {
        kind,
        digests,
        lines,
    } = read;
    if let Some(what) = first_difference(&digests, files) {
        drop(lines);
        return Err(JournalError::OtherFiles(what));
    }
    match lines {
        Ok(notes) => Ok(JournalNotes {
            kind,
            first: first_in(digests.config),
            notes,
        }),
        Err(error) => Err(error),
    }
}

/// The notes of a journal of these files, of which this was read ahead.
pub(crate) fn notes_of(
    alloc: Global,
    text: &[u8],
    files: &FileTies,
    ahead: Result<Option<LinesRead>, NoMemory>,
) -> Result<JournalNotes, JournalError>
    requires { IfOk ahead (IsReadAhead text.now) }
    ensures notes { IfOk result (λ read. IsJournalText files.now text.now read.kind read.first read.notes.items) }
    ensures faulty { IfErr result (IsFaultyText files.now text.now) }
{
    match ahead {
        Ok(Some(read)) => begun_notes(files, read),
        Ok(None) => unbegun_notes(alloc, text, files),
        Err(refused) => Err(JournalError::OutOfMemory(refused)),
    }
}

/// The notes of a journal of these files, in order, and what its first line says of its run's first round. Octets after
/// the last line feed are a truncated line and don't count. A truncated header is a journal without notes: its run ended
/// before it noted anything. An empty text is the journal of a run. `OtherFiles` is for a text that begins with the
/// header of other files, or of a config with other keys that it is tied to, `BadRecord` for the first record that
/// `write_header` or `write_note` doesn't write.
pub fn read_notes(
    alloc: Global,
    text: &[u8],
    files: &FileTies,
) -> Result<JournalNotes, JournalError>
    ensures notes { IfOk result (λ read. IsJournalText files.now text.now read.kind read.first read.notes.items) }
    ensures faulty { IfErr result (IsFaultyText files.now text.now) }
{
    let ahead = read_ahead(alloc, text);
    notes_of(alloc, text, files, ahead)
}
