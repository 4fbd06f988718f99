//! A ledger's octets read.

ghost use Rattle.std.specs.Prelude.{◌≡◌, ◌≢◌, ◌<◌, ◌≤◌, ◌++◌, ℕ, List, IfErr, IfOk, IfSome, OnErr, OnOk, MatchOption, length, string_bytes};
ghost use Rattle.sms_ledger.specs.Kept.{state_of};
ghost use Rattle.sms_ledger.specs.Books.{IsBooked};
ghost use Rattle.sms_ledger.specs.Posting.{appended_text};
ghost use Rattle.sms_ledger.specs.Lines.{BeginsWith, HasNoFeed, IsFaulty, IsFaultyBehind, IsFileOf, IsFileBehind, IsRead, IsRefusedAt, feed_at as first_feed, IsWholeLength};

use crate::entry::Entry;
use crate::fault::Fault;
use crate::ledger::Ledger;
use crate::reading::{head_in, kind_in, u64_in};
use crate::refusal::Refusal;
use crate::text::write_entry;
use memchr::memchr;
use sms_files::memory::{self, NoMemory};
use std::alloc::Global;

/// The first line.
const HEADER: &str = "ledger,1\n";

/// Where the first line feed stands, or the length.
fn feed_at(text: &[u8]) -> usize
    ensures place { result ≡ first_feed text.now }
    ensures within { result ≤ length text.now }
{
    match memchr(b'\n', text) {
        Some(at) => at,
        None => text.len(),
    }
}

/// The first line, and what stands after it.
fn first_line(text: &[u8]) -> Option<(&[u8], &[u8])>
    ensures { MatchOption result (HasNoFeed text.now) (λ p. BeginsWith p.0.now p.1.now text.now) }
{
    let at = feed_at(text);
    if at < text.len() {
        Some((&text[..at + 1], &text[at + 1..]))
    } else {
        None
    }
}

/// What follows `front`, where the text begins with it.
fn behind<'a>(text: &'a [u8], front: &[u8]) -> Option<&'a [u8]>
    ensures { MatchOption result ((rest : List ℕ) → text.now ≢ front.now ++ rest) (λ rest. text.now ≡ front.now ++ rest.now) }
{
    if text.len() < front.len() {
        return None;
    }
    let (start, rest) = text.split_at(front.len());
    if start == front { Some(rest) } else { None }
}

/// The entry that a line is written of, if it is one's: what was read is written again and compared.
fn read_line(alloc: Global, written: &mut String, line: &[u8]) -> Result<Option<Entry>, NoMemory>
    ensures { IfOk result (IsRead line.now) }
{
    let head = head_in(line);
    let Some(time) = u64_in(head.time) else {
        return Ok(None);
    };
    let Some(entry) = kind_in(alloc, head.word, head.rest)? else {
        return Ok(None);
    };
    written.clear();
    write_entry(written, time, &entry)?;
    if written.as_bytes() == line {
        Ok(Some(entry))
    } else {
        Ok(None)
    }
}

/// How many octets the whole lines of a file take, after which the next line goes. Where that
/// is less than the file is long, its last line was cut.
pub fn whole_len(text: &[u8]) -> usize
    ensures { IsWholeLength text.now result }
{
    let mut whole = 0;
    let mut left = text;
    while let Some((line, rest)) = first_line(left) {
        whole += line.len();
        left = rest;
    }
    whole
}

/// What is appended behind the whole lines of a file, for lines that were booked: before the first ones the header.
pub fn with_header(alloc: Global, whole: &[u8], lines: String) -> Result<String, NoMemory>
    ensures { IfOk result (λ text. string_bytes text ≡ appended_text whole.now (string_bytes lines)) }
{
    if !whole.is_empty() {
        return Ok(lines);
    }
    let mut text = memory::text_of(alloc, HEADER)?;
    memory::append(&mut text, lines.as_str())?;
    Ok(text)
}

/// Books the entry of a record.
fn book_line(ledger: &mut Ledger, alloc: Global, entry: Entry, place: usize) -> Result<(), Fault>
    ensures ok { OnOk result (IsBooked entry (state_of ledger.old.books) (state_of ledger.new.books)) }
    ensures err { IfErr result (IsRefusedAt place entry (state_of ledger.old.books)) }
{
    let Err(refusal) = ledger.enter(alloc, entry) else {
        return Ok(());
    };
    match refusal {
        Refusal::OutOfMemory(refused) => Err(Fault::Memory(refused)),
        cause => Err(Fault::Refused(place, cause)),
    }
}

/// The ledger of the lines after the header.
fn read_lines(alloc: Global, text: &[u8]) -> Result<Ledger, Fault>
    ensures ok { IfOk result (λ ledger. IsFileBehind text.now (state_of ledger.books)) }
    ensures err { IfErr result (IsFaultyBehind text.now) }
{
    let mut ledger = Ledger::new(alloc);
    let mut written = String::new(alloc);
    let mut left = text;
    let mut place = 2;
    while let Some((line, rest)) = first_line(left) {
        let Some(entry) = read_line(alloc, &mut written, line)? else {
            return Err(Fault::Unreadable(place));
        };
        book_line(&mut ledger, alloc, entry, place)?;
        place += 1;
        left = rest;
    }
    Ok(ledger)
}

impl Ledger {
    /// The ledger that a file's octets spell. What stands after the last line feed is a line that was truncated,
    /// and doesn't count; octets that are only a prefix of the header spell a ledger without entries.
    pub fn read(alloc: Global, text: &[u8]) -> Result<Ledger, Fault>
        ensures ok { IfOk result (λ ledger. IsFileOf text.now (state_of ledger.books)) }
        ensures err { IfErr result (IsFaulty text.now) }
    {
        if let Some(left) = behind(text, HEADER.as_bytes()) {
            return read_lines(alloc, left);
        }
        match behind(HEADER.as_bytes(), text) {
            Some(_rest) => Ok(Ledger::new(alloc)),
            None => Err(Fault::Unreadable(1)),
        }
    }
}
