//! Each kind of body, as chapter 4 of SMPP 3.4 lays it out, made of its fields and read as them.

use super::{
    ESME, HI, NUMBER, SUBMIT, again_as, decoded, esme, had, has_length, hi, is_written, joined,
    message_of, one_parameter, pdu, same, want_octets, with_header,
};
use sms_pdu::*;
use std::alloc::Global;
use std::fmt::Debug;
use std::process::Abort;
use std::test::*;

// These octets stand behind what was there.
fn stand_behind(rt: &impl Abort, alloc: Global, out: &[u8], octets: &[u8]) {
    let wanted = joined(rt, alloc, b"before", octets);
    want_octets(rt, out, wanted.as_slice());
}

// These fields are written as these octets, behind what is there.
fn written_as(rt: &impl Abort, alloc: Global, octets: &[u8], fields: &PduRef<'_>) {
    let length = Ok(octets.len());
    has_length(rt, fields, length);
    let mut out = had(rt, Vec::from_slice(alloc, b"before"));
    is_written(rt, &mut out, fields, length);
    stand_behind(rt, alloc, out.as_slice(), octets);
}

// A body and its fields: it is made of them, and again of what is read of it.
fn both_ways(
    rt: &impl Abort,
    alloc: Global,
    command: u32,
    status: u32,
    body: &[u8],
    fields: BodyRef<'_>,
) {
    let octets = with_header(rt, alloc, command, status, body);
    written_as(rt, alloc, octets.as_slice(), &pdu(status, fields));
    again_as(rt, alloc, octets.as_slice());
}

#[test]
fn bind_transmitter(rt: HostRuntime) {
    both_ways(&rt, rt.alloc(), 0x02, 0, ESME, BodyRef::Bind(esme()));
}

#[test]
fn bind_transceiver(rt: HostRuntime) {
    let bind = BindRef {
        mode: Mode::Transceiver,
        system_id: b"a",
        password: b"b",
        system_type: b"c",
        interface_version: 1,
        addr_ton: 2,
        addr_npi: 3,
        address_range: b"d",
    };
    let octets = b"a\x00b\x00c\x00\x01\x02\x03d\x00";
    both_ways(&rt, rt.alloc(), 0x09, 0, octets, BodyRef::Bind(bind));
}

#[test]
fn bind_transceiver_resp(rt: HostRuntime) {
    let rt = &rt;
    let params = one_parameter(rt, rt.alloc(), 0x0210, 1);
    let resp = BodyRef::BindResp {
        mode: Mode::Transceiver,
        system_id: Some(b"TEST"),
        params: params.as_slice(),
    };
    let octets = b"TEST\x00\x02\x10\x00\x01\x34";
    both_ways(rt, rt.alloc(), 0x8000_0009, 0, octets, resp);
    drop(params);
}

#[test]
fn bind_transmitter_resp(rt: HostRuntime) {
    let refused = BodyRef::BindResp {
        mode: Mode::Transmitter,
        system_id: None,
        params: &[],
    };
    both_ways(&rt, rt.alloc(), 0x8000_0002, 0x0E, b"", refused);
}

#[test]
fn submit_sm(rt: HostRuntime) {
    both_ways(&rt, rt.alloc(), 0x04, 0, HI, BodyRef::Submit(hi()));
}

// A field that is a number has a number of its own.
#[test]
fn deliver_sm(rt: HostRuntime) {
    let rt = &rt;
    let params = one_parameter(rt, rt.alloc(), 0x0210, 1);
    let receipt = SmRef {
        service_type: b"CMT",
        source_ton: 2,
        source_npi: 3,
        source_addr: b"12345",
        dest_ton: 4,
        dest_npi: 5,
        dest_addr: b"447700900123",
        esm_class: 6,
        protocol_id: 7,
        priority: 8,
        schedule: b"090102030405006+",
        validity: b"000000000100000R",
        registered: 9,
        replace: 10,
        data_coding: 11,
        default_msg: 12,
        short_message: b"Hi",
        params: params.as_slice(),
    };
    let octets =
        b"CMT\x00\x02\x0312345\x00\x04\x05447700900123\x00\x06\x07\x08090102030405006+\x00000000000100000R\x00\x09\x0A\x0B\x0C\x02Hi\x02\x10\x00\x01\x34";
    both_ways(rt, rt.alloc(), 0x05, 0, octets, BodyRef::Deliver(receipt));
    drop(params);
}

#[test]
fn submit_sm_resp(rt: HostRuntime) {
    let rt = &rt;
    let message_id: Option<&[u8]> = Some(b"m1");
    let resp = BodyRef::SubmitResp { message_id };
    both_ways(rt, rt.alloc(), 0x8000_0004, 0, b"m1\x00", resp);
    let refused = BodyRef::SubmitResp { message_id: None };
    both_ways(rt, rt.alloc(), 0x8000_0004, 0x58, b"", refused);
}

#[test]
fn deliver_sm_resp(rt: HostRuntime) {
    let message_id: Option<&[u8]> = Some(b"");
    let resp = BodyRef::DeliverResp { message_id };
    both_ways(&rt, rt.alloc(), 0x8000_0005, 0, b"\x00", resp);
}

#[test]
fn without_a_body(rt: HostRuntime) {
    let rt = &rt;
    let alloc = rt.alloc();
    both_ways(rt, alloc, 0x0000_0006, 0, b"", BodyRef::Unbind);
    both_ways(rt, alloc, 0x8000_0006, 0, b"", BodyRef::UnbindResp);
    both_ways(rt, alloc, 0x0000_0015, 0, b"", BodyRef::EnquireLink);
    both_ways(rt, alloc, 0x8000_0015, 0, b"", BodyRef::EnquireLinkResp);
    both_ways(rt, alloc, 0x8000_0000, 3, b"", BodyRef::GenericNack);
}

// A deliver_sm_resp that owns its message_id.
fn owned_resp(message_id: Octets) -> Pdu {
    let message_id = Some(message_id);
    Pdu {
        status: 0x58,
        number: NUMBER,
        body: Body::DeliverResp { message_id },
    }
}

fn resp_octets(rt: &impl Abort, alloc: Global, message_id: Octets) -> Vec<u8> {
    let pdu = owned_resp(message_id);
    let octets = encode(alloc, &pdu);
    drop(pdu);
    had(rt, octets)
}

#[test]
fn an_owned_pdu(rt: HostRuntime) {
    let rt = &rt;
    let message_id = had(rt, Octets::copy(rt.alloc(), b"m1"));
    let written = resp_octets(rt, rt.alloc(), message_id);
    let octets = b"\x00\x00\x00\x13\x80\x00\x00\x05\x00\x00\x00\x58\x01\x02\x03\x04m1\x00";
    want_octets(rt, written.as_slice(), octets);
}

// The body is the submit_sm of `Hi`.
fn has_the_fields(rt: &impl Abort, body: &Body) {
    let (submitted, sm) = message_of(rt, body);
    same(rt, submitted, true);
    want_octets(rt, sm.source_addr.as_slice(), b"12345");
    want_octets(rt, sm.dest_addr.as_slice(), b"447700900123");
    same(rt, (sm.source_ton, sm.dest_npi, sm.data_coding), (1, 1, 0));
    want_octets(rt, sm.short_message.as_slice(), b"Hi");
}

#[test]
fn fields_of_a_submit_sm(rt: HostRuntime) {
    let rt = &rt;
    let pdu = decoded(rt, rt.alloc(), SUBMIT);
    has_the_fields(rt, &pdu.body);
    drop(pdu);
}

// What Debug shows of a value.
fn text_of<T: Debug + Drop>(rt: &impl Abort, alloc: Global, shown: T) -> String {
    had(rt, format!(in alloc; "{shown:?}"))
}

// The text of a bind of esme has its system_id and not its password.
fn hides_the_password(rt: &impl Abort, text: &str) {
    same(rt, text.contains("system_id: [101, 115, 109, 101]"), true);
    same(rt, text.contains("password"), false);
    same(rt, text.contains("[112, 119]"), false);
}

#[test]
fn debug_hides_the_password(rt: HostRuntime) {
    let rt = &rt;
    let octets = with_header(rt, rt.alloc(), 2, 0, ESME);
    let pdu = decoded(rt, rt.alloc(), octets.as_slice());
    drop(octets);
    let text = text_of(rt, rt.alloc(), pdu);
    hides_the_password(rt, text.as_str());
}
