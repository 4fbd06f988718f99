//! Octets that spell no PDU: each field that ends too early, is too long or isn't what it has to be.

use super::{ESME, HI, decode_error, had, joined, put, want_error, with_header};
use sms_pdu::*;
use std::alloc::Global;
use std::process::Abort;
use std::test::*;

// Octets with this command and body have this error, or none.
fn has_error(rt: &impl Abort, alloc: Global, command: u32, body: &[u8], wanted: Option<PduError>) {
    let octets = with_header(rt, alloc, command, 0, body);
    want_error(rt, decode_error(alloc, octets.as_slice()), wanted);
}

fn malformed(field: Field) -> Option<PduError> {
    Some(PduError::Malformed { field })
}

// The first octets of a body, and so many letters.
fn with_letters(rt: &impl Abort, alloc: Global, body: &[u8], at: usize, letters: usize) -> Vec<u8> {
    let mut octets = had(rt, Vec::from_slice(alloc, body));
    octets.truncate(at);
    had(rt, octets.resize(at.saturating_add(letters), b'x'));
    octets
}

// The first octets of a body and so many letters have this error.
fn letters_have(
    rt: &impl Abort,
    alloc: Global,
    command: u32,
    body: &[u8],
    at: usize,
    letters: usize,
    wanted: Option<PduError>,
) {
    let octets = with_letters(rt, alloc, body, at, letters);
    has_error(rt, alloc, command, octets.as_slice(), wanted);
}

// A body that ends before this field is malformed at it.
fn ends_before(rt: &impl Abort, alloc: Global, command: u32, body: &[u8], at: usize, field: Field) {
    letters_have(rt, alloc, command, body, at, 0, malformed(field));
}

// So is one that ends within this string; and a string of as many octets as its maximum, with no 0
// among them, is too long.
fn string(
    rt: &impl Abort,
    alloc: Global,
    command: u32,
    body: &[u8],
    at: usize,
    maximum: usize,
    field: Field,
) {
    let cut = malformed(field);
    letters_have(rt, alloc, command, body, at, 0, cut);
    let open = maximum.saturating_sub(1);
    letters_have(rt, alloc, command, body, at, open, cut);
    let long = Some(PduError::TooLong { field });
    letters_have(rt, alloc, command, body, at, maximum, long);
}

#[test]
fn strings_of_a_bind(rt: HostRuntime) {
    let rt = &rt;
    let alloc = rt.alloc();
    string(rt, alloc, 2, ESME, 0, 16, Field::SystemId);
    string(rt, alloc, 2, ESME, 5, 9, Field::Password);
    string(rt, alloc, 2, ESME, 8, 13, Field::SystemType);
    string(rt, alloc, 2, ESME, 12, 41, Field::AddressRange);
}

#[test]
fn numbers_of_a_bind(rt: HostRuntime) {
    let rt = &rt;
    let alloc = rt.alloc();
    ends_before(rt, alloc, 9, ESME, 9, Field::InterfaceVersion);
    ends_before(rt, alloc, 9, ESME, 10, Field::AddrTon);
    ends_before(rt, alloc, 9, ESME, 11, Field::AddrNpi);
}

#[test]
fn strings_of_a_message(rt: HostRuntime) {
    let rt = &rt;
    let alloc = rt.alloc();
    string(rt, alloc, 4, HI, 0, 6, Field::ServiceType);
    string(rt, alloc, 4, HI, 3, 21, Field::SourceAddr);
    string(rt, alloc, 4, HI, 11, 21, Field::DestAddr);
    string(rt, alloc, 5, HI, 27, 17, Field::Schedule);
    string(rt, alloc, 5, HI, 28, 17, Field::Validity);
}

#[test]
fn addresses_of_a_message(rt: HostRuntime) {
    let rt = &rt;
    let alloc = rt.alloc();
    ends_before(rt, alloc, 4, HI, 1, Field::SourceTon);
    ends_before(rt, alloc, 4, HI, 2, Field::SourceNpi);
    ends_before(rt, alloc, 4, HI, 9, Field::DestTon);
    ends_before(rt, alloc, 4, HI, 10, Field::DestNpi);
}

#[test]
fn numbers_of_a_message(rt: HostRuntime) {
    let rt = &rt;
    let alloc = rt.alloc();
    ends_before(rt, alloc, 5, HI, 24, Field::EsmClass);
    ends_before(rt, alloc, 5, HI, 25, Field::ProtocolId);
    ends_before(rt, alloc, 5, HI, 26, Field::Priority);
    ends_before(rt, alloc, 5, HI, 29, Field::Registered);
    ends_before(rt, alloc, 5, HI, 30, Field::Replace);
    ends_before(rt, alloc, 5, HI, 31, Field::DataCoding);
    ends_before(rt, alloc, 5, HI, 32, Field::DefaultMsg);
    ends_before(rt, alloc, 5, HI, 33, Field::SmLength);
    ends_before(rt, alloc, 5, HI, 35, Field::ShortMessage);
}

#[test]
fn strings_of_a_response(rt: HostRuntime) {
    let rt = &rt;
    let alloc = rt.alloc();
    string(rt, alloc, 0x8000_0002, b"", 0, 16, Field::SystemId);
    string(rt, alloc, 0x8000_0004, b"", 0, 65, Field::MessageId);
}

// A message with so many letters and a 0 behind its first octets has this error.
fn time_has(
    rt: &impl Abort,
    alloc: Global,
    command: u32,
    at: usize,
    letters: usize,
    wanted: Option<PduError>,
) {
    let mut octets = with_letters(rt, alloc, HI, at, letters);
    put(rt, &mut octets, b"\x00");
    has_error(rt, alloc, command, octets.as_slice(), wanted);
}

// A time has 0 or 16 octets before its 0.
#[test]
fn times(rt: HostRuntime) {
    let rt = &rt;
    time_has(rt, rt.alloc(), 4, 27, 15, malformed(Field::Schedule));
    time_has(rt, rt.alloc(), 5, 28, 1, malformed(Field::Validity));
}

// A short_message of so many octets, as its sm_length says, has this error, or none.
fn message_has(rt: &impl Abort, alloc: Global, length: u8, wanted: Option<PduError>) {
    let mut octets = with_letters(rt, alloc, HI, 33, 0);
    put(rt, &mut octets, &[length]);
    let end = usize::from(length).saturating_add(34);
    had(rt, octets.resize(end, b'x'));
    has_error(rt, alloc, 4, octets.as_slice(), wanted);
}

#[test]
fn messages_of_254_and_255_octets(rt: HostRuntime) {
    let rt = &rt;
    let field = Field::ShortMessage;
    message_has(rt, rt.alloc(), 254, None);
    message_has(rt, rt.alloc(), 255, Some(PduError::TooLong { field }));
}

// A body with more behind its last field has this error, or none.
fn behind(
    rt: &impl Abort,
    alloc: Global,
    command: u32,
    body: &[u8],
    more: &[u8],
    wanted: Option<PduError>,
) {
    let octets = joined(rt, alloc, body, more);
    has_error(rt, alloc, command, octets.as_slice(), wanted);
}

#[test]
fn octets_behind_a_body(rt: HostRuntime) {
    let rt = &rt;
    let alloc = rt.alloc();
    let rest = malformed(Field::Rest);
    behind(rt, alloc, 0x15, b"", b"\x00", rest);
    behind(rt, alloc, 2, ESME, b"\x00", rest);
    behind(rt, alloc, 0x8000_0005, b"m\x00", b"\x00", rest);
}

// A parameter's value of one octet, and of one octet less than it says.
#[test]
fn parameters(rt: HostRuntime) {
    let rt = &rt;
    let alloc = rt.alloc();
    let params = malformed(Field::Params);
    behind(rt, alloc, 4, HI, b"\x02\x10\x00\x01\x34", None);
    behind(rt, alloc, 4, HI, b"\x02\x10\x00\x02\x34", params);
    behind(rt, alloc, 4, HI, b"\x02\x10\x00", params);
}

// A submit_sm of which so many octets are there has this error.
fn cut_has(rt: &impl Abort, alloc: Global, length: usize, wanted: Option<PduError>) {
    let mut octets = with_header(rt, alloc, 4, 0, HI);
    octets.truncate(length);
    want_error(rt, decode_error(alloc, octets.as_slice()), wanted);
}

// Fewer octets than a header has, fewer than command_length says, and commands that no PDU has.
#[test]
fn headers(rt: HostRuntime) {
    let rt = &rt;
    let alloc = rt.alloc();
    cut_has(rt, alloc, 51, Some(PduError::BadLength));
    cut_has(rt, alloc, 15, Some(PduError::Short));
    let unknown = Some(PduError::UnknownCommand);
    has_error(rt, alloc, 0x103, b"", unknown);
    has_error(rt, alloc, 0x102, b"", unknown);
}
