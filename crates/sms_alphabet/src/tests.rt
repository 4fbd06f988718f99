//! What no contract says: that the calls succeed, and that the table is the standard's.

use crate::{Coded, Coding, TextError, Units, choose, laws, septets, text_of, ucs2};
use std::alloc::Global;
use std::fmt::Debug;
use std::process::Abort;

// Both are the same. A test that compares by a call has a short proof: what is printed where they
// differ stands here alone.
fn same<T: PartialEq + Debug + Drop>(rt: &impl Abort, got: T, wanted: T) {
    assert_eq!(rt; got, wanted);
}

// 3GPP TS 23.038 6.2.1, in the order of the codes from 0x00 on. The escape stands as U+001B.
const DEFAULT_ALPHABET: &str =
    "@£$¥èéùìòÇ\nØø\rÅåΔ_ΦΓΛΩΠΨΣΘΞ\u{1b}ÆæßÉ !\"#¤%&'()*+,-./0123456789:;<=>?¡ABCDEFGHIJKLMNOPQRSTUVWXYZÄÖÑÜ§¿abcdefghijklmnopqrstuvwxyzäöñüà";

// 3GPP TS 23.038 6.2.1.1: the characters of the extension table with their codes.
const EXTENSION_TABLE: [(char, u8); 10] = [
    ('\u{c}', 0x0a),
    ('^', 0x14),
    ('{', 0x28),
    ('}', 0x29),
    ('\\', 0x2f),
    ('[', 0x3c),
    ('~', 0x3d),
    (']', 0x3e),
    ('|', 0x40),
    ('€', 0x65),
];

// Texts that the default alphabet can't spell, and their units in UCS2.
const IN_UCS2: [(&str, &[u16]); 5] = [
    ("ç", &[0x00e7]),
    ("\u{1b}", &[0x001b]),
    ("😀", &[0xd83d, 0xde00]),
    ("A€ж", &[0x0041, 0x20ac, 0x0436]),
    (
        "\u{ffff}\u{10000}\u{10ffff}",
        &[0xffff, 0xd800, 0xdc00, 0xdbff, 0xdfff],
    ),
];

// Units that no text is spelled by.
const NO_TEXT: [(Coding, &[u16]); 10] = [
    (Coding::Gsm, &[0x80]),
    (Coding::Gsm, &[0x41, 0xffff]),
    (Coding::Gsm, &[0x1b]),
    (Coding::Gsm, &[0x41, 0x1b]),
    (Coding::Gsm, &[0x1b, 0x41]),
    (Coding::Gsm, &[0x1b, 0x1b, 0x65]),
    (Coding::Ucs2, &[0xd83d]),
    (Coding::Ucs2, &[0xde00]),
    (Coding::Ucs2, &[0xd83d, 0x41]),
    (Coding::Ucs2, &[0xde00, 0xd83d]),
];

// What a call gives where memory is there.
fn had<T: Drop, E: Drop>(rt: &impl Abort, got: Result<T, E>) -> T {
    let Ok(it) = got else { panic!(rt; "no memory") };
    it
}

// The text has these codes in the default alphabet.
fn want_septets(rt: &impl Abort, alloc: Global, text: &str, codes: &[u8]) {
    let Some(found) = had(rt, septets(alloc, text)) else {
        panic!(rt; "no codes")
    };
    same(rt, (text, found.as_slice()), (text, codes));
}

// The text has no codes in the default alphabet.
fn want_no_septets(rt: &impl Abort, alloc: Global, text: &str) {
    let found = had(rt, septets(alloc, text));
    same(rt, (text, found.is_none()), (text, true));
}

// The text has these units in UCS2.
fn want_ucs2(rt: &impl Abort, alloc: Global, text: &str, units: &[u16]) {
    let found = had(rt, ucs2(alloc, text));
    same(rt, (text, found.as_slice()), (text, units));
}

// The spelling of the text has this coding and these units.
fn want_spelling(rt: &impl Abort, text: &str, chosen: &Coded, coding: Coding, units: &[u16]) {
    same(rt, (text, chosen.coding), (text, coding));
    same(rt, (text, chosen.units.as_slice()), (text, units));
}

// The spelling is read as this text.
fn want_text(rt: &impl Abort, alloc: Global, coded: &Coded, text: &str) {
    let back = had(rt, text_of(alloc, coded));
    same(rt, back.as_str(), text);
}

// This spelling is chosen for the text, and is read as the text.
fn want_chosen(rt: &impl Abort, alloc: Global, text: &str, coding: Coding, units: &[u16]) {
    let chosen = had(rt, choose(alloc, text));
    want_spelling(rt, text, &chosen, coding, units);
    want_text(rt, alloc, &chosen, text);
}

// The codes, each as a unit.
fn units_of(rt: &impl Abort, alloc: Global, codes: &[u8]) -> Vec<u16> {
    let mut units = had(rt, Vec::with_capacity(alloc, codes.len()));
    for code in codes {
        had(rt, units.push(u16::from(*code)));
    }
    units
}

// The text is written as these codes, and they are read as the text.
fn writes_and_reads(rt: &impl Abort, alloc: Global, text: &str, codes: &[u8]) {
    want_septets(rt, alloc, text, codes);
    let units = units_of(rt, alloc, codes);
    want_chosen(rt, alloc, text, Coding::Gsm, units.as_slice());
}

// The character alone is written as these codes, and they are read as the character.
fn writes_character(rt: &impl Abort, alloc: Global, c: char, codes: &[u8]) {
    let text = had(rt, c.to_string(alloc));
    writes_and_reads(rt, alloc, text.as_str(), codes);
}

#[test]
fn every_character_of_the_alphabet(rt: HostRuntime) {
    let mut code = 0u8;
    for c in DEFAULT_ALPHABET.chars() {
        if c != '\u{1b}' {
            writes_character(&rt, rt.alloc(), c, &[code]);
        }
        let Some(next) = code.checked_add(1) else {
            panic!(rt; "too many")
        };
        code = next;
    }
    same(&rt, code, 128);
    for (c, code) in &EXTENSION_TABLE {
        writes_character(&rt, rt.alloc(), *c, &[0x1b, *code]);
    }
    writes_and_reads(&rt, rt.alloc(), "", &[]);
    writes_and_reads(&rt, rt.alloc(), "A€", &[0x41, 0x1b, 0x65]);
}

// The text is spelled in UCS2, as these units.
fn want_in_ucs2(rt: &impl Abort, alloc: Global, text: &str, units: &[u16]) {
    want_no_septets(rt, alloc, text);
    want_ucs2(rt, alloc, text, units);
    want_chosen(rt, alloc, text, Coding::Ucs2, units);
}

#[test]
fn texts_in_ucs2(rt: HostRuntime) {
    for (text, units) in &IN_UCS2 {
        want_in_ucs2(&rt, rt.alloc(), *text, *units);
    }
}

// There is no text of this spelling, and that is what is told.
fn want_not_text(rt: &impl Abort, alloc: Global, coded: &Coded) {
    let told = text_of(alloc, coded);
    same(rt, told.err(), Some(TextError::NotText));
}

// No text is spelled by these units, which are kept as they are.
fn want_no_text(rt: &impl Abort, alloc: Global, coding: Coding, units: &[u16]) {
    let items = had(rt, Vec::from_slice(alloc, units));
    let coded = Coded {
        coding,
        units: Units::new(items),
    };
    want_not_text(rt, alloc, &coded);
    same(rt, coded.units.len(), units.len());
    same(rt, coded.units.is_empty(), false);
    same(rt, coded.units.into_vec().as_slice(), units);
}

#[test]
fn units_that_are_no_text(rt: HostRuntime) {
    for (coding, units) in &NO_TEXT {
        want_no_text(&rt, rt.alloc(), *coding, *units);
    }
}

// The failure is told in these words.
fn want_said(rt: &impl Abort, alloc: Global, failure: TextError, words: &str) {
    let said = had(rt, failure.to_string(alloc));
    same(rt, said.as_str(), words);
}

// Whether the spelling that is chosen for the texts is the same.
fn want_equal(rt: &impl Abort, alloc: Global, text: &str, other: &str, equal: bool) {
    let chosen = had(rt, choose(alloc, text));
    let also = had(rt, choose(alloc, other));
    same(rt, (chosen == also, chosen != also), (equal, !equal));
}

// Each law, called once.
fn call_laws() {
    laws::one_spelling();
    laws::one_character();
    laws::look_up();
    laws::one_text();
    laws::chosen_is_lawful();
    laws::comes_back();
    laws::units_fit();
}

#[test]
fn what_failures_say(rt: HostRuntime) {
    want_said(
        &rt,
        rt.alloc(),
        TextError::NotText,
        "the units spell no text",
    );
    want_said(&rt, rt.alloc(), TextError::OutOfMemory, "out of memory");
    want_equal(&rt, rt.alloc(), "AB", "AB", true);
    want_equal(&rt, rt.alloc(), "AB", "A", false);
    call_laws();
}
