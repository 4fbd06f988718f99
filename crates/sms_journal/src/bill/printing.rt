//! The lines of all parts.

ghost use Rattle.std.specs.Prelude.{◌≡◌, ◌++◌, IfOk, OnOk, flat_map, string_bytes};
ghost use Rattle.sms_journal.specs.Bill.{billed, billed_parts, line_in, header_in, listing_header, listing_of, refs_header};
ghost use Rattle.sms_journal.specs.Moments.{AreMoments};
ghost use Rattle.sms_journal.specs.Sums.{parts_in};

use crate::bill::listing::{Columns, Listing};
use crate::bill::moments::{Moments, all_moments, moments_of};
use crate::bill::parts::write_line;
use crate::notes::Note;
use sms_book::Opening;
use sms_files::memory::{self, NoMemory};
use sms_message::{Message, MessageEnd, MessageResult, SegmentEnd};
use std::alloc::Global;
use std::collections::HashMap;

/// What is listed, and by what.
#[derive(Clone, Copy)]
struct Source<'a> {
    listing: Columns<'a>,
    openings: &'a [Opening],
    /// The times of the notes.
    times: &'a [u64],
    notes: &'a [Note],
    /// What they say of when, by the parts' keys.
    moments: &'a HashMap<u128, Moments>,
}

/// The lines of a message's parts.
fn write_parts(
    alloc: Global,
    text: &mut String,
    source: &Source,
    message: &Message,
    segments: &[SegmentEnd<()>],
) -> Result<(), NoMemory>
    requires { AreMoments source.now.times.now source.now.notes.now source.now.moments.now }
    ensures { OnOk result (string_bytes text.new ≡ string_bytes text.old ++ flat_map (line_in source.now.listing) (billed_parts source.now.openings.now source.now.times.now source.now.notes.now message.now 1 segments.now)) }
{
    let index = message.index;
    for (place, segment) in segments.iter().enumerate() {
        let moments = moments_of(source.moments, index, place + 1);
        write_line(
            alloc,
            text,
            source.listing,
            source.openings,
            message,
            place + 1,
            segment,
            moments,
        )?;
    }
    Ok(())
}

/// The lines of a message.
fn write_message(
    alloc: Global,
    text: &mut String,
    source: &Source,
    message: &Message,
    end: &MessageResult<()>,
) -> Result<(), NoMemory>
    requires { AreMoments source.now.times.now source.now.notes.now source.now.moments.now }
    ensures { OnOk result (string_bytes text.new ≡ string_bytes text.old ++ flat_map (line_in source.now.listing) (billed_parts source.now.openings.now source.now.times.now source.now.notes.now message.now 1 (parts_in end.now))) }
{
    match end {
        MessageResult::Sent(segments) => {
            write_parts(alloc, text, source, message, segments.as_slice())
        }
        MessageResult::Refused(_) => Ok(()),
    }
}

/// The lines of all messages.
fn write_messages(
    alloc: Global,
    text: &mut String,
    source: &Source,
    messages: &[Message],
    ends: &[MessageEnd<()>],
) -> Result<(), NoMemory>
    requires { AreMoments source.now.times.now source.now.notes.now source.now.moments.now }
    ensures { OnOk result (string_bytes text.new ≡ string_bytes text.old ++ flat_map (line_in source.now.listing) (billed source.now.openings.now source.now.times.now source.now.notes.now messages.now ends.now)) }
{
    for place in 0..messages.len().min(ends.len()) {
        let message = &messages[place];
        let end = &ends[place];
        write_message(alloc, text, source, message, &end.result)?;
    }
    Ok(())
}

/// The header of a listing with its own columns.
fn usual_header(listing: Listing) -> &'static str
    ensures { result.now ≡ listing_header listing }
{
    match listing {
        Listing::Bill => {
            "message,part,account,source,destination,cost,outcome,status,id,sent,heard\n"
        }
        Listing::Doubtful => "message,part,account,source,destination,cost,sent,text\n",
    }
}

/// The same with references behind them.
fn header_with_refs(listing: Listing) -> &'static str
    ensures { result.now ≡ refs_header listing }
{
    match listing {
        Listing::Bill => {
            "message,part,account,source,destination,cost,outcome,status,id,sent,heard,ref\n"
        }
        Listing::Doubtful => "message,part,account,source,destination,cost,sent,text,ref\n",
    }
}

fn header_of(listing: Columns<'_>) -> &'static str
    ensures { result.now ≡ header_in listing.entry }
{
    match listing {
        Columns::Usual(listing) => usual_header(listing),
        Columns::WithRefs(listing, _) => header_with_refs(listing),
    }
}

/// What is printed of the parts of these messages, by their ends and by notes with their times.
pub(crate) fn listing_text(
    alloc: Global,
    listing: Columns<'_>,
    openings: &[Opening],
    messages: &[Message],
    ends: &[MessageEnd<()>],
    times: &[u64],
    notes: &[Note],
) -> Result<String, NoMemory>
    ensures { IfOk result (λ text. string_bytes text ≡ listing_of listing.entry openings.now times.now notes.now messages.now ends.now) }
{
    let moments = all_moments(alloc, times, notes)?;
    let source = Source {
        listing,
        openings,
        times,
        notes,
        moments: &moments,
    };
    let mut text = memory::text_of(alloc, header_of(listing))?;
    write_messages(alloc, &mut text, &source, messages, ends)?;
    Ok(text)
}
