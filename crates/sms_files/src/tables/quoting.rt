//! Whether a file ends within a quote.

ghost use Rattle.std.specs.Prelude.{◌≡◌, ◌+◌, ◌↔◌, IfErr, IsTrue, OnOk, length};
ghost use Rattle.csv.specs.Reading.{strip_bom};
ghost use Rattle.sms_files.specs.Quoting.{EndsQuoted, after as place_after};
ghost use Rattle.sms_files.specs.Records.{IsBadRecord};
ghost use Rattle.sms_files.specs.declared.fault.Source.TheVariants.{Messages};
ghost use Rattle.sms_files.specs.declared.flaw.Flaw.TheVariants.{OpenQuote};
ghost use Rattle.sms_files.specs.declared.tables.quoting.Place.TheVariants.{Quoted};

use crate::fault::{InputFault, Source};
use crate::flaw::Flaw;
use crate::input::Input;
use crate::tables::record_flaw::{RecordFlaw, keep_octet};
use std::alloc::Global;

/// Where reading stands in a CSV file (RFC 4180 2.5 to 2.7).
#[derive(Clone, Copy, Debug, PartialEq, Eq)]
pub(crate) enum Place {
    /// Before a field, which a quote may open.
    Front,
    /// In a field that isn't quoted, or after the quotes of one; a quote stands for itself.
    Bare,
    /// Between the quotes of a field.
    Quoted,
    /// After a quote between quotes, which ends them or is the first of a doubled one.
    Ended,
}

/// The place after one more octet.
fn after(place: Place, octet: u8) -> Place
    ensures { result ≡ place_after place octet }
{
    if octet == b'"' {
        return match place {
            Place::Front => Place::Quoted,
            Place::Bare => Place::Bare,
            Place::Quoted => Place::Ended,
            Place::Ended => Place::Quoted,
        };
    }
    if place == Place::Quoted {
        return Place::Quoted;
    }
    if octet == b',' || octet == b'\n' || octet == b'\r' {
        return Place::Front;
    }
    Place::Bare
}

/// The byte order mark of UTF-8.
const MARK: &[u8] = b"\xEF\xBB\xBF";

/// The octets after a byte order mark.
fn without_mark(octets: &[u8]) -> &[u8]
    ensures { result.now ≡ strip_bom octets.now }
{
    if octets.starts_with(MARK) {
        return &octets[MARK.len()..];
    }
    octets
}

fn is_quoted(place: Place) -> bool
    ensures { IsTrue result ↔ (place ≡ Quoted) }
{
    match place {
        Place::Quoted => true,
        _ => false,
    }
}

/// Whether a CSV file ends within a quote: none ends the last one that opened a field. All that
/// stands after it is read as that field.
pub fn ends_quoted(octets: &[u8]) -> bool
    ensures { IsTrue result ↔ EndsQuoted octets.now }
{
    let mut place = Place::Front;
    for octet in without_mark(octets) {
        place = after(place, *octet);
    }
    is_quoted(place)
}

/// The line, from 1, of the quote that is open where a file ends, and the first octets of what stands after it.
fn open_quote(alloc: Global, octets: &[u8]) -> (u64, Vec<u8>) {
    let mut place = Place::Front;
    let (mut line, mut opened) = (1u64, 1u64);
    let mut value = Vec::new(alloc);
    for octet in without_mark(octets) {
        let next = after(place, *octet);
        if place == Place::Front && next == Place::Quoted {
            opened = line;
            value.clear();
        } else {
            keep_octet(&mut value, *octet);
        }
        if *octet == b'\n' {
            line = line.saturating_add(1);
        }
        place = next;
    }
    (opened, value)
}

/// Refuses a messages file that ends within a quote, of which this input was read: a fault of its last
/// record, which the quote makes of all that stands after it. The header is record 1.
pub fn check_quotes(alloc: Global, messages: &[u8], input: &Input) -> Result<(), InputFault>
    ensures closed { OnOk result (¬ EndsQuoted messages.now) }
    ensures refused { IfErr result (λ fault. EndsQuoted messages.now × IsBadRecord Messages (length input.now.messages.items + 1) OpenQuote fault) }
{
    if ends_quoted(messages) {
        let place = input.messages().len() + 1;
        return Err(quoted_record(alloc, messages, place));
    }
    Ok(())
}

/// The fault of a record that the open quote is in.
fn quoted_record(alloc: Global, messages: &[u8], place: usize) -> InputFault
    ensures { IsBadRecord Messages place OpenQuote result }
{
    let (line, value) = open_quote(alloc, messages);
    let (flaw, line) = (Flaw::OpenQuote, Some(line));
    InputFault::BadRecord(Source::Messages, place, RecordFlaw { flaw, line, value })
}
