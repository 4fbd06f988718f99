//! PDUs of 70,000 octets, and of one more.

use super::{
    again_as, decode_error, filled, had, has_length, is_written, pdu, want_error, zeros_behind,
};
use sms_pdu::*;
use std::alloc::Global;
use std::process::Abort;
use std::test::*;

// Two parameters, of 60,000 octets and of this many.
fn two_parameters(rt: &impl Abort, alloc: Global, second: usize) -> Params {
    let mut params = Vec::new(alloc);
    had(rt, params.push(filled(rt, alloc, 0x0424, 0, 60_000)));
    had(rt, params.push(filled(rt, alloc, 0x0424, 0, second)));
    Params::new(params)
}

// A bind's response with them: 25 octets more than both.
fn resp(params: &Params) -> PduRef<'_> {
    let body = BodyRef::BindResp {
        mode: Mode::Transmitter,
        system_id: Some(b""),
        params: params.as_slice(),
    };
    pdu(0, body)
}

// What is written of the fields has this length, and is read and written again as it is.
fn both_ways(rt: &impl Abort, alloc: Global, fields: &PduRef<'_>, length: usize) {
    let mut octets = Vec::new(alloc);
    is_written(rt, &mut octets, fields, Ok(length));
    again_as(rt, alloc, octets.as_slice());
}

#[test]
fn the_longest_pdu(rt: HostRuntime) {
    let rt = &rt;
    let params = two_parameters(rt, rt.alloc(), 9_975);
    both_ways(rt, rt.alloc(), &resp(&params), 70_000);
    drop(params);
}

// No PDU has this command_length, that stands before 0 up to its number of octets.
fn is_bad_length(rt: &impl Abort, alloc: Global, front: &[u8], length: usize) {
    let octets = zeros_behind(rt, alloc, front, length);
    let error = decode_error(alloc, octets.as_slice());
    want_error(rt, error, Some(PduError::BadLength));
}

#[test]
fn one_octet_more(rt: HostRuntime) {
    let rt = &rt;
    let params = two_parameters(rt, rt.alloc(), 9_976);
    let field = Field::Whole;
    has_length(rt, &resp(&params), Err(PduError::TooLong { field }));
    drop(params);
    is_bad_length(rt, rt.alloc(), b"\x00\x01\x11\x71", 70_001);
}
