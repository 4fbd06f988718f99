//! What no contract says: that memory is there, and worked rows of the standard's numbers.

ghost use Rattle.std.specs.Prelude.{All};
ghost use Rattle.sms_segment.specs.Part.{HasSeptets};

use crate::{CutError, JoinError, Part, Place, Reference, cut, join, laws};
use sms_alphabet::{Coded, Coding, Units, choose};
use std::alloc::Global;
use std::fmt::Debug;
use std::process::Abort;
use texts::{had, letters, pairs_of, text_with_pair};

mod at_once;
mod texts;

// Both are the same. A test that compares by a call has a short proof: what is printed where they
// differ stands here alone.
fn same<T: PartialEq + Debug + Drop>(rt: &impl Abort, got: T, wanted: T) {
    assert_eq!(rt; got, wanted);
}

// The parts of a text that can be cut.
fn parts_of(rt: &impl Abort, alloc: Global, text: &Coded, reference: Reference) -> Vec<Part> {
    had(rt, cut(alloc, text, reference))
}

fn assert_sizes(rt: &impl Abort, parts: &[Part], sizes: &[usize], total: usize, place: usize) {
    same(rt, (total, place, parts.len()), (total, place, sizes.len()));
    for (part, size) in parts.iter().zip(sizes) {
        same(rt, (total, place, part.units.len()), (total, place, *size));
    }
}

// The parts are joined to the text.
fn want_joined(rt: &impl Abort, alloc: Global, parts: &[Part], text: &Coded) {
    let joined = had(rt, join(alloc, parts));
    same(rt, &joined, text);
}

// The parts are joined to no text.
fn want_not_whole(rt: &impl Abort, alloc: Global, parts: &[Part]) {
    same(rt, join(alloc, parts).err(), Some(JoinError::NotWhole));
}

// The reference, the coding, the units, the place of a pair among them, and the sizes of the parts.
type Row = (Reference, Coding, usize, usize, &'static [usize]);

const CUT_AND_JOINED: [Row; 32] = [
    (Reference::Short(0), Coding::Gsm, 0, 0, &[0]),
    (Reference::Short(0), Coding::Gsm, 159, 157, &[159]),
    (Reference::Short(0), Coding::Gsm, 160, 152, &[160]),
    (Reference::Short(0), Coding::Gsm, 160, 158, &[160]),
    (Reference::Short(0), Coding::Gsm, 161, 151, &[153, 8]),
    (Reference::Short(0), Coding::Gsm, 161, 152, &[152, 9]),
    (Reference::Short(0), Coding::Gsm, 161, 153, &[153, 8]),
    (Reference::Short(0), Coding::Gsm, 161, 159, &[153, 8]),
    (Reference::Short(0), Coding::Gsm, 164, 152, &[152, 12]),
    (Reference::Short(0), Coding::Gsm, 306, 151, &[153, 153]),
    (Reference::Short(0), Coding::Gsm, 306, 152, &[152, 153, 1]),
    (Reference::Short(0), Coding::Gsm, 306, 153, &[153, 153]),
    (Reference::Short(0), Coding::Gsm, 306, 304, &[153, 153]),
    (Reference::Short(0), Coding::Gsm, 307, 152, &[152, 153, 2]),
    (Reference::Short(0), Coding::Gsm, 307, 304, &[153, 153, 1]),
    (Reference::Short(0), Coding::Gsm, 307, 305, &[153, 152, 2]),
    (Reference::Short(0), Coding::Ucs2, 69, 67, &[69]),
    (Reference::Short(0), Coding::Ucs2, 70, 66, &[70]),
    (Reference::Short(0), Coding::Ucs2, 70, 68, &[70]),
    (Reference::Short(0), Coding::Ucs2, 71, 65, &[67, 4]),
    (Reference::Short(0), Coding::Ucs2, 71, 66, &[66, 5]),
    (Reference::Short(0), Coding::Ucs2, 71, 67, &[67, 4]),
    (Reference::Short(0), Coding::Ucs2, 71, 71, &[67, 4]),
    (Reference::Short(0), Coding::Ucs2, 134, 66, &[66, 67, 1]),
    (Reference::Short(0), Coding::Ucs2, 134, 132, &[67, 67]),
    (Reference::Short(0), Coding::Ucs2, 135, 66, &[66, 67, 2]),
    (Reference::Short(0), Coding::Ucs2, 135, 132, &[67, 67, 1]),
    (Reference::Short(0), Coding::Ucs2, 135, 133, &[67, 66, 2]),
    (Reference::Long(0), Coding::Gsm, 161, 161, &[152, 9]),
    (Reference::Long(0), Coding::Gsm, 163, 151, &[151, 12]),
    (Reference::Long(0), Coding::Gsm, 305, 305, &[152, 152, 1]),
    (Reference::Long(0), Coding::Ucs2, 71, 71, &[66, 5]),
];

// The text is cut into parts of these sizes, which are joined to it again.
fn want_cut(rt: &impl Abort, alloc: Global, (reference, coding, total, place, sizes): Row) {
    let text = text_with_pair(rt, alloc, coding, total, place);
    let parts = parts_of(rt, alloc, &text, reference);
    assert_sizes(rt, parts.as_slice(), sizes, total, place);
    want_joined(rt, alloc, parts.as_slice(), &text);
}

#[test]
fn cuts_no_pair_and_joins_again(rt: HostRuntime) {
    for row in &CUT_AND_JOINED {
        want_cut(&rt, rt.alloc(), *row);
    }
}

// The text of pairs is cut into parts of these sizes.
fn want_sizes(
    rt: &impl Abort,
    alloc: Global,
    text: &Coded,
    reference: Reference,
    sizes: &[usize],
    pairs: usize,
) {
    let parts = parts_of(rt, alloc, text, reference);
    assert_sizes(rt, parts.as_slice(), sizes, pairs, 0);
}

// The text of pairs is cut into parts of these sizes with either kind of reference.
fn want_pairs(
    rt: &impl Abort,
    alloc: Global,
    coding: Coding,
    pair: (u16, u16),
    pairs: usize,
    sizes: &[usize],
) {
    let text = pairs_of(rt, alloc, coding, pair, pairs);
    want_sizes(rt, alloc, &text, Reference::Short(0), sizes, pairs);
    want_sizes(rt, alloc, &text, Reference::Long(0), sizes, pairs);
}

// 36 characters U+1F600, and 81 escapes each followed by an escape.
#[test]
fn cuts_a_row_of_pairs(rt: HostRuntime) {
    want_pairs(
        &rt,
        rt.alloc(),
        Coding::Ucs2,
        (0xD83D, 0xDE00),
        36,
        &[66, 6],
    );
    want_pairs(&rt, rt.alloc(), Coding::Gsm, (0x1B, 0x1B), 81, &[152, 10]);
}

// The esm_class and the short_message of a part.
fn spelled_part(rt: &impl Abort, alloc: Global, part: &Part) -> (u8, Vec<u8>)
    requires { HasSeptets part.now }
{
    let Ok(octets) = part.short_message(alloc) else {
        panic!(rt; "no memory")
    };
    (part.esm_class(), octets)
}

// The parts of a text, each of which can be spelled.
fn lawful_parts(rt: &impl Abort, alloc: Global, text: &str, reference: Reference) -> Vec<Part>
    ensures { All HasSeptets result.items }
{
    let Ok(coded) = choose(alloc, text) else {
        panic!(rt; "no memory")
    };
    let Ok(parts) = cut(alloc, &coded, reference) else {
        panic!(rt; "no parts")
    };
    laws::the_parts_have_septets();
    parts
}

// The esm_class and the short_message of each part of a text.
fn spelled(rt: &impl Abort, alloc: Global, text: &str, reference: Reference) -> Vec<(u8, Vec<u8>)> {
    let parts = lawful_parts(rt, alloc, text, reference);
    let mut spelled = Vec::new(alloc);
    for part in &parts {
        had(rt, spelled.push(spelled_part(rt, alloc, part)));
    }
    spelled
}

// The octets are the header and as many letters, and the esm_class tells of a header.
fn want_octets(
    rt: &impl Abort,
    alloc: Global,
    esm_class: u8,
    octets: &[u8],
    (header, count): (&[u8], usize),
) {
    let mut all = had(rt, Vec::from_slice(alloc, header));
    for _ in 0..count {
        had(rt, all.push(0x61));
    }
    same(rt, octets, all.as_slice());
    same(rt, esm_class, if header.is_empty() { 0x00 } else { 0x40 });
}

// Each of the parts has the octets of its row.
fn want_all_octets(
    rt: &impl Abort,
    alloc: Global,
    parts: &[(u8, Vec<u8>)],
    wanted: &[(&[u8], usize)],
) {
    for ((esm_class, octets), row) in parts.iter().zip(wanted) {
        want_octets(rt, alloc, *esm_class, octets.as_slice(), *row);
    }
}

// The letters of a text, its reference, and the header and the letters of each part.
type Spelling = (usize, Reference, &'static [(&'static [u8], usize)]);

const SPELLED: [Spelling; 4] = [
    (0, Reference::Short(7), &[(&[], 0)]),
    (160, Reference::Short(7), &[(&[], 160)]),
    (
        161,
        Reference::Short(7),
        &[(&[5, 0, 3, 7, 2, 1], 153), (&[5, 0, 3, 7, 2, 2], 8)],
    ),
    (
        161,
        Reference::Long(263),
        &[(&[6, 8, 4, 1, 7, 2, 1], 152), (&[6, 8, 4, 1, 7, 2, 2], 9)],
    ),
];

// The parts of the text have these headers and letters.
fn want_spelled(rt: &impl Abort, alloc: Global, (total, reference, wanted): Spelling) {
    let text = had(rt, "a".repeat(alloc, total));
    let parts = spelled(rt, alloc, text.as_str(), reference);
    same(rt, parts.len(), wanted.len());
    want_all_octets(rt, alloc, parts.as_slice(), wanted);
}

#[test]
fn spells_what_was_cut(rt: HostRuntime) {
    for row in &SPELLED {
        want_spelled(&rt, rt.alloc(), *row);
    }
}

// The short_message of the part has these octets.
fn want_message(rt: &impl Abort, alloc: Global, part: &Part, octets: &[u8])
    requires { HasSeptets part.now }
{
    let message = had(rt, part.short_message(alloc));
    same(rt, message.as_slice(), octets);
}

// An escape and its code, in a part with a place.
fn want_escape(rt: &impl Abort, alloc: Global) {
    let Ok(units) = vec![in alloc; 0x41, 0x1B, 0x65] else {
        panic!(rt; "no memory")
    };
    let escaped = Part {
        coding: Coding::Gsm,
        place: Some(Place {
            reference: Reference::Short(7),
            count: 2,
            number: 2,
        }),
        units: Units::new(units),
    };
    want_message(rt, alloc, &escaped, &[5, 0, 3, 7, 2, 2, 0x41, 0x1B, 0x65]);
}

// Surrogates, in a part without a place.
fn want_surrogates(rt: &impl Abort, alloc: Global) {
    let Ok(units) = vec![in alloc; 0x0436, 0xD83D, 0xDE00] else {
        panic!(rt; "no memory")
    };
    let wide = Part {
        coding: Coding::Ucs2,
        place: None,
        units: Units::new(units),
    };
    want_message(rt, alloc, &wide, &[0x04, 0x36, 0xD8, 0x3D, 0xDE, 0x00]);
    same(rt, (wide.esm_class(), wide.data_coding()), (0x00, 0x08));
}

#[test]
fn spells_pairs(rt: HostRuntime) {
    want_escape(&rt, rt.alloc());
    want_surrogates(&rt, rt.alloc());
}

// The last of 255 parts has its place.
fn want_last(rt: &impl Abort, parts: &[Part], reference: Reference) {
    let Some(last) = parts.last() else {
        panic!(rt; "no last part")
    };
    let place = Place {
        reference,
        count: 255,
        number: 255,
    };
    same(rt, last.place, Some(place));
}

// As many letters are cut into 255 parts.
fn want_255_parts(rt: &impl Abort, alloc: Global, reference: Reference, most: usize) {
    let text = letters(rt, alloc, most);
    let parts = parts_of(rt, alloc, &text, reference);
    same(rt, parts.len(), 255);
    want_last(rt, parts.as_slice(), reference);
}

// As many letters are too many.
fn want_too_long(rt: &impl Abort, alloc: Global, reference: Reference, total: usize) {
    let text = letters(rt, alloc, total);
    same(
        rt,
        cut(alloc, &text, reference).err(),
        Some(CutError::TooLong),
    );
}

#[test]
fn counts_to_255_parts(rt: HostRuntime) {
    want_255_parts(&rt, rt.alloc(), Reference::Short(255), 39_015);
    want_too_long(&rt, rt.alloc(), Reference::Short(255), 39_016);
    want_255_parts(&rt, rt.alloc(), Reference::Long(65_535), 38_760);
    want_too_long(&rt, rt.alloc(), Reference::Long(65_535), 38_761);
}

// The last of the parts.
fn last_of(rt: &impl Abort, mut parts: Vec<Part>) -> Part {
    let Some(last) = parts.pop() else {
        panic!(rt; "no part")
    };
    last
}

// These two aren't one message.
fn want_apart(rt: &impl Abort, alloc: Global, one: Part, other: Part) {
    let parts = [one, other];
    want_not_whole(rt, alloc, &parts);
}

// The references of the first part and of the second, which were cut from one text.
fn want_alone(rt: &impl Abort, alloc: Global, text: &Coded, first: Reference, second: Reference) {
    let mut parts = parts_of(rt, alloc, text, first);
    want_joined(rt, alloc, parts.as_slice(), text);
    parts.reverse();
    want_not_whole(rt, alloc, parts.as_slice());
    let others = parts_of(rt, alloc, text, second);
    want_apart(rt, alloc, last_of(rt, parts), last_of(rt, others));
}

#[test]
fn joins_whole_messages_alone(rt: HostRuntime) {
    want_not_whole(&rt, rt.alloc(), &[]);
    let text = letters(&rt, rt.alloc(), 161);
    want_alone(
        &rt,
        rt.alloc(),
        &text,
        Reference::Short(7),
        Reference::Short(8),
    );
    want_alone(
        &rt,
        rt.alloc(),
        &text,
        Reference::Short(7),
        Reference::Long(7),
    );
    want_alone(
        &rt,
        rt.alloc(),
        &text,
        Reference::Long(263),
        Reference::Short(7),
    );
}

// A text that can't be cut is told of in these words.
fn want_cut_said(rt: &impl Abort, alloc: Global, failure: CutError, words: &str) {
    let said = had(rt, failure.to_string(alloc));
    same(rt, said.as_str(), words);
}

// Parts that can't be joined are told of in these words.
fn want_join_said(rt: &impl Abort, alloc: Global, failure: JoinError, words: &str) {
    let said = had(rt, failure.to_string(alloc));
    same(rt, said.as_str(), words);
}

#[test]
fn what_failures_say(rt: HostRuntime) {
    let long = "the text needs more than 255 parts";
    want_cut_said(&rt, rt.alloc(), CutError::TooLong, long);
    want_cut_said(&rt, rt.alloc(), CutError::OutOfMemory, "out of memory");
    let parted = "the parts are not one whole message";
    want_join_said(&rt, rt.alloc(), JoinError::NotWhole, parted);
    want_join_said(&rt, rt.alloc(), JoinError::OutOfMemory, "out of memory");
}
