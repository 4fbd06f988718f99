//! An inbox's octets read.

ghost use Rattle.std.specs.Prelude.{◌≡◌, ◌≤◌, ◌++◌, ◌∷◌, [], IfErr, IfOk, OnOk, MatchOption, length};
ghost use Rattle.sms_inbox.specs.Lines.{BeginsWith, HasNoFeed, IsFaulty, IsRead, IsWholeLength, Spells, feed_at as first_feed};

use crate::fault::Fault;
use crate::fields::record_in;
use crate::line::write_record;
use crate::record::Record;
use std::alloc::{AllocError, Global};

/// Where the first line feed stands, or the length.
fn feed_at(text: &[u8]) -> usize
    ensures place { result ≡ first_feed text.now }
    ensures within { result ≤ length text.now }
{
    let mut at = 0;
    while at < text.len() && text[at] != b'\n' {
        at += 1;
    }
    at
}

/// The first line, and what stands after it.
fn first_line(text: &[u8]) -> Option<(&[u8], &[u8])>
    ensures { MatchOption result (HasNoFeed text.now) (λ p. BeginsWith p.0.now p.1.now text.now) }
{
    let at = feed_at(text);
    if at < text.len() {
        Some((&text[..at + 1], &text[at + 1..]))
    } else {
        None
    }
}

/// How many octets the whole lines of a file take, after which the next line goes. Where that
/// is less than the file is long, its last line was cut.
pub fn whole_len(text: &[u8]) -> usize
    ensures { IsWholeLength text.now result }
{
    let mut whole = 0;
    let mut left = text;
    while let Some((line, rest)) = first_line(left) {
        whole += line.len();
        left = rest;
    }
    whole
}

/// The record that a line is written of, if it is one's: what was read is written again and compared.
fn read_line(alloc: Global, written: &mut String, line: &[u8]) -> Result<Option<Record>, AllocError>
    ensures { IfOk result (IsRead line.now) }
{
    let Some(record) = record_in(alloc, line)? else {
        return Ok(None);
    };
    written.clear();
    write_record(written, &record.as_ref())?;
    if written.as_bytes() == line {
        Ok(Some(record))
    } else {
        Ok(None)
    }
}

fn push(records: &mut Vec<Record>, r: Record) -> Result<(), AllocError>
    ensures { OnOk result (records.new.items ≡ records.old.items ++ r ∷ []) }
{
    records.push(r)?;
    Ok(())
}

/// The records that an inbox's octets spell. What stands after the last line feed is a line that was truncated,
/// and doesn't count.
pub fn read_inbox(alloc: Global, text: &[u8]) -> Result<Vec<Record>, Fault>
    ensures ok { IfOk result (λ records. Spells text.now records.items) }
    ensures err { IfErr result (IsFaulty text.now) }
{
    let mut records = Vec::new(alloc);
    let mut written = String::new(alloc);
    let mut left = text;
    while let Some((line, rest)) = first_line(left) {
        let Some(record) = read_line(alloc, &mut written, line)? else {
            return Err(Fault::Unreadable(records.len() + 1));
        };
        push(&mut records, record)?;
        left = rest;
    }
    Ok(records)
}
