//! Tests of the PDUs, by values from outside.

use sms_pdu::*;
use std::alloc::Global;
use std::fmt::Debug;
use std::process::Abort;
use std::test::*;

mod bodies;
mod devices;
mod lengths;
mod libsmpp34;
mod read_refusals;
mod streams;
mod write_refusals;

// Both are the same. A test that compares by a call has a short proof: what is printed where they
// differ stands here alone.
fn same<T: PartialEq + Debug + Drop>(rt: &impl Abort, got: T, wanted: T) {
    assert_eq!(rt; got, wanted);
}

const ENQUIRE_LINK: &[u8] = &[0, 0, 0, 16, 0, 0, 0, 0x15, 0, 0, 0, 0, 0, 0, 0, 2];

// submit_sm number 2 of `Hi` from 12345 to 447700900123.
const SUBMIT: &[u8] =
    b"\x00\x00\x00\x34\x00\x00\x00\x04\x00\x00\x00\x00\x00\x00\x00\x02\x00\x01\x0112345\x00\x01\x01447700900123\x00\x00\x00\x00\x00\x00\x00\x00\x00\x00\x02Hi";

// Its body.
const HI: &[u8] =
    b"\x00\x01\x0112345\x00\x01\x01447700900123\x00\x00\x00\x00\x00\x00\x00\x00\x00\x00\x02Hi";

// The body of a bind of esme with the password pw.
const ESME: &[u8] = b"esme\x00pw\x00\x00\x34\x00\x00\x00";

const NUMBER: u32 = 0x0102_0304;

// What was got; a test that got an error has failed.
fn had<T: Drop, E: Debug + Drop>(rt: &impl Abort, got: Result<T, E>) -> T {
    match got {
        Ok(it) => it,
        Err(error) => panic!(rt; "{error:?}"),
    }
}

fn put(rt: &impl Abort, octets: &mut Vec<u8>, more: &[u8]) {
    had(rt, octets.extend_from_slice(more));
}

// These octets, and these behind them.
fn joined(rt: &impl Abort, alloc: Global, octets: &[u8], more: &[u8]) -> Vec<u8> {
    let mut both = had(rt, Vec::from_slice(alloc, octets));
    put(rt, &mut both, more);
    both
}

fn put_number(rt: &impl Abort, octets: &mut Vec<u8>, number: u32) {
    put(rt, octets, &number.to_be_bytes());
}

// Octets that begin so, with 0 up to this length.
fn zeros_behind(rt: &impl Abort, alloc: Global, front: &[u8], length: usize) -> Vec<u8> {
    let mut octets = had(rt, Vec::from_slice(alloc, front));
    had(rt, octets.resize(length, 0));
    octets
}

// The header of SMPP 3.4 3.2 before a body.
fn with_header(rt: &impl Abort, alloc: Global, command: u32, status: u32, body: &[u8]) -> Vec<u8> {
    let length = had(rt, u32::try_from(body.len())).saturating_add(16);
    let mut octets = Vec::new(alloc);
    put_number(rt, &mut octets, length);
    put_number(rt, &mut octets, command);
    put_number(rt, &mut octets, status);
    put_number(rt, &mut octets, NUMBER);
    put(rt, &mut octets, body);
    octets
}

// The PDU that these octets spell.
fn decoded(rt: &impl Abort, alloc: Global, octets: &[u8]) -> Pdu {
    had(rt, decode(alloc, octets))
}

// The message of a submit_sm or a deliver_sm, and whether it is a submit_sm.
fn message_of<'a>(rt: &impl Abort, body: &'a Body) -> (bool, &'a Sm) {
    match body {
        Body::Submit(sm) => (true, sm),
        Body::Deliver(sm) => (false, sm),
        _ => panic!(rt; "no message"),
    }
}

// What is read of these octets is written as they are.
fn again_as(rt: &impl Abort, alloc: Global, octets: &[u8]) {
    let again = had(rt, laws::encode_of_decode(alloc, octets));
    want_octets(rt, again.as_slice(), octets);
}

// These fields are written behind what is there: how many octets they have, or why they aren't.
fn is_written(
    rt: &impl Abort,
    out: &mut Vec<u8>,
    fields: &PduRef<'_>,
    wanted: Result<usize, PduError>,
) {
    same(rt, encode_into(out, fields), wanted);
}

fn has_length(rt: &impl Abort, fields: &PduRef<'_>, wanted: Result<usize, PduError>) {
    same(rt, encoded_length(fields), wanted);
}

// The error is the one that is wanted.
fn want_error(rt: &impl Abort, error: Option<PduError>, wanted: Option<PduError>) {
    same(rt, error, wanted);
}

// These octets are those that are wanted.
fn want_octets(rt: &impl Abort, octets: &[u8], wanted: &[u8]) {
    same(rt, octets, wanted);
}

// Why these octets spell no PDU, if they spell none.
fn decode_error(alloc: Global, octets: &[u8]) -> Option<PduError> {
    decode(alloc, octets).err()
}

// The fields of the submit_sm of `Hi`.
fn hi<'a>() -> SmRef<'a> {
    SmRef {
        service_type: b"",
        source_ton: 1,
        source_npi: 1,
        source_addr: b"12345",
        dest_ton: 1,
        dest_npi: 1,
        dest_addr: b"447700900123",
        esm_class: 0,
        protocol_id: 0,
        priority: 0,
        schedule: b"",
        validity: b"",
        registered: 0,
        replace: 0,
        data_coding: 0,
        default_msg: 0,
        short_message: b"Hi",
        params: &[],
    }
}

// The fields of the bind of esme.
fn esme<'a>() -> BindRef<'a> {
    BindRef {
        mode: Mode::Transmitter,
        system_id: b"esme",
        password: b"pw",
        system_type: b"",
        interface_version: 0x34,
        addr_ton: 0,
        addr_npi: 0,
        address_range: b"",
    }
}

fn pdu(status: u32, body: BodyRef<'_>) -> PduRef<'_> {
    PduRef {
        status,
        number: NUMBER,
        body,
    }
}

// A parameter of so many such octets.
fn filled(rt: &impl Abort, alloc: Global, tag: u16, octet: u8, length: usize) -> Parameter {
    let value = Octets::new(had(rt, vec![in alloc; octet; length]));
    Parameter { tag, value }
}

// One parameter of so many octets 0x34.
fn one_parameter(rt: &impl Abort, alloc: Global, tag: u16, length: usize) -> Params {
    let mut params = Vec::new(alloc);
    had(rt, params.push(filled(rt, alloc, tag, 0x34, length)));
    Params::new(params)
}
