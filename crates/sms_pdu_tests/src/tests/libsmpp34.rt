//! PDUs that another library wrote: libsmpp34 1.14.1-3+deb12u1 of Debian 12. These are the octets that the programs of its
//! source package, test_pdu/NAME_test.c, print where they are built with that package; NAME stands at each. The fields
//! are those that the program fills in. The library puts the parameters in the opposite order.

use super::{decoded, had, message_of, same, want_octets};
use sms_pdu::*;
use std::alloc::Global;
use std::process::Abort;
use std::test::*;

// bind_transmitter
const BIND_TRANSMITTER: &[u8] =
    b"\x00\x00\x00\x35\x00\x00\x00\x02\x00\x00\x00\x00\x00\x00\x00\x01system_id\x00pass\x00syst\x00\x34\x02\x01address_range\x00";

// bind_transceiver
const BIND_TRANSCEIVER: &[u8] =
    b"\x00\x00\x00\x34\x00\x00\x00\x09\x00\x00\x00\x00\x00\x00\x00\x01system_id\x00pas\x00syst\x00\x34\x02\x01address_range\x00";

// bind_transmitter_resp
const BIND_TRANSMITTER_RESP: &[u8] =
    b"\x00\x00\x00\x1F\x80\x00\x00\x02\x00\x00\x00\x00\x00\x00\x00\x01system_id\x00\x02\x10\x00\x01\x34";

// bind_transceiver_resp
const BIND_TRANSCEIVER_RESP: &[u8] =
    b"\x00\x00\x00\x1F\x80\x00\x00\x09\x00\x00\x00\x00\x00\x00\x00\x01system_id\x00\x02\x10\x00\x01\x34";

// submit_sm
const SUBMIT_SM: &[u8] =
    b"\x00\x00\x00\x6E\x00\x00\x00\x04\x00\x00\x00\x00\x00\x00\x00\x01SMS\x00\x02\x0109000011111\x00\x02\x001121312309000\x00\x00\x00\x00\x00\x00\x00\x00\x00\x00\x14Raul Antonio Tremsal\x04\x24\x00\x14Raul Antonio Tremsal\x02\x04\x00\x02\x00\x24";

// deliver_sm
const DELIVER_SM: &[u8] =
    b"\x00\x00\x00\x82\x00\x00\x00\x05\x00\x00\x00\x00\x00\x00\x00\x01CMT\x00\x02\x010900001111\x00\x02\x010900001111\x00\x00\x00\x00\x00\x00\x00\x00\x00\x00\x14Raul Antonio Tremsal\x15\x01\x00\x14Raul Antonio Tremsal\x04\x24\x00\x14Raul Antonio Tremsal\x02\x04\x00\x02\x00\x24";

// submit_sm_resp
const SUBMIT_SM_RESP: &[u8] =
    b"\x00\x00\x00\x1C\x80\x00\x00\x04\x00\x00\x00\x00\x00\x00\x00\x0188898239379\x00";

// deliver_sm_resp
const DELIVER_SM_RESP: &[u8] =
    b"\x00\x00\x00\x11\x80\x00\x00\x05\x00\x00\x00\x00\x00\x00\x00\x01\x00";

// unbind
const UNBIND: &[u8] = b"\x00\x00\x00\x10\x00\x00\x00\x06\x00\x00\x00\x00\x00\x00\x00\x01";

// unbind_resp
const UNBIND_RESP: &[u8] = b"\x00\x00\x00\x10\x80\x00\x00\x06\x00\x00\x00\x00\x00\x00\x00\x01";

// enquire_link
const ENQUIRE_LINK: &[u8] = b"\x00\x00\x00\x10\x00\x00\x00\x15\x00\x00\x00\x00\x00\x00\x00\x01";

// enquire_link_resp
const ENQUIRE_LINK_RESP: &[u8] =
    b"\x00\x00\x00\x10\x80\x00\x00\x15\x00\x00\x00\x00\x00\x00\x00\x01";

// generic_nack
const GENERIC_NACK: &[u8] = b"\x00\x00\x00\x10\x80\x00\x00\x00\x00\x00\x00\x00\x00\x00\x00\x01";

const NAME: &[u8] = b"Raul Antonio Tremsal";

fn encoded(rt: &impl Abort, alloc: Global, pdu: &Pdu) -> Vec<u8> {
    had(rt, encode(alloc, pdu))
}

// The PDU is the first of its library, and is written as these octets again.
fn is_written(rt: &impl Abort, alloc: Global, pdu: &Pdu, octets: &[u8]) {
    same(rt, (pdu.status, pdu.number), (0, 1));
    let again = encoded(rt, alloc, pdu);
    want_octets(rt, again.as_slice(), octets);
    let frame = had(rt, Frame::encode(alloc, &pdu.as_ref()));
    want_octets(rt, frame.as_slice(), octets);
}

// The parameter at this place: its tag and its value.
fn param_at<'a>(params: &'a Params, place: usize) -> Option<(u16, &'a [u8])> {
    match params.as_slice().get(place) {
        Some(param) => Some((param.tag, param.value.as_slice())),
        None => None,
    }
}

fn has_param(rt: &impl Abort, params: &Params, place: usize, tag: u16, value: &[u8]) {
    same(rt, param_at(params, place), Some((tag, value)));
}

fn bind_of<'a>(rt: &impl Abort, body: &'a Body) -> BindRef<'a> {
    match body.as_ref() {
        BodyRef::Bind(bind) => bind,
        _ => panic!(rt; "no bind"),
    }
}

fn is_bind(rt: &impl Abort, body: &Body, told: Mode, secret: &[u8]) {
    let bind = bind_of(rt, body);
    same(rt, (bind.mode, bind.interface_version), (told, 0x34));
    same(rt, (bind.addr_ton, bind.addr_npi), (2, 1));
    want_octets(rt, bind.system_id, b"system_id");
    want_octets(rt, bind.password, secret);
    want_octets(rt, bind.system_type, b"syst");
    want_octets(rt, bind.address_range, b"address_range");
}

// An answer to a bind: the mode, the system_id and the parameters.
fn bind_resp_of<'a>(rt: &impl Abort, body: &'a Body) -> (Mode, &'a [u8], &'a Params) {
    match body {
        Body::BindResp {
            mode,
            system_id: Some(system_id),
            params,
        } => (*mode, system_id.as_slice(), params),
        _ => panic!(rt; "no answer to a bind"),
    }
}

fn is_bind_resp(rt: &impl Abort, body: &Body, told: Mode) {
    let (mode, system_id, params) = bind_resp_of(rt, body);
    same(rt, (mode, params.as_slice().len()), (told, 1));
    want_octets(rt, system_id, b"system_id");
    has_param(rt, params, 0, 0x0210, &[0x34]);
}

// The fields of one octet that both messages have alike, from left to right.
fn numbers_of(sm: &Sm) -> [u8; 10] {
    [
        sm.source_ton,
        sm.source_npi,
        sm.dest_ton,
        sm.esm_class,
        sm.protocol_id,
        sm.priority,
        sm.registered,
        sm.replace,
        sm.data_coding,
        sm.default_msg,
    ]
}

// What both messages have alike.
fn is_message(rt: &impl Abort, sm: &Sm) {
    want_octets(rt, &numbers_of(sm), &[2, 1, 2, 0, 0, 0, 0, 0, 0, 0]);
    want_octets(rt, sm.schedule.as_slice(), b"");
    want_octets(rt, sm.validity.as_slice(), b"");
    want_octets(rt, sm.short_message.as_slice(), NAME);
}

// The fields in which they differ.
fn is_between(rt: &impl Abort, sm: &Sm, service: &[u8], source: &[u8], dest_npi: u8, dest: &[u8]) {
    want_octets(rt, sm.service_type.as_slice(), service);
    want_octets(rt, sm.source_addr.as_slice(), source);
    same(rt, sm.dest_npi, dest_npi);
    want_octets(rt, sm.dest_addr.as_slice(), dest);
}

fn is_submit_sm(rt: &impl Abort, body: &Body) {
    let (submitted, sm) = message_of(rt, body);
    is_message(rt, sm);
    is_between(rt, sm, b"SMS", b"09000011111", 0, b"1121312309000");
    same(rt, (submitted, sm.params.as_slice().len()), (true, 2));
    has_param(rt, &sm.params, 0, 0x0424, NAME);
    has_param(rt, &sm.params, 1, 0x0204, &[0, 0x24]);
}

fn is_deliver_sm(rt: &impl Abort, body: &Body) {
    let (submitted, sm) = message_of(rt, body);
    is_message(rt, sm);
    is_between(rt, sm, b"CMT", b"0900001111", 1, b"0900001111");
    same(rt, (submitted, sm.params.as_slice().len()), (false, 3));
    has_param(rt, &sm.params, 0, 0x1501, NAME);
    has_param(rt, &sm.params, 1, 0x0424, NAME);
    has_param(rt, &sm.params, 2, 0x0204, &[0, 0x24]);
}

// The message_id of an answer to a message, and whether that was a submit_sm.
fn id_of<'a>(rt: &impl Abort, body: &'a Body) -> (bool, &'a [u8]) {
    match body {
        Body::SubmitResp {
            message_id: Some(id),
        } => (true, id.as_slice()),
        Body::DeliverResp {
            message_id: Some(id),
        } => (false, id.as_slice()),
        _ => panic!(rt; "no answer to a message"),
    }
}

fn is_id(rt: &impl Abort, body: &Body, submitted: bool, id: &[u8]) {
    same(rt, id_of(rt, body), (submitted, id));
}

fn bare_command(body: &Body) -> Option<Command> {
    match body {
        Body::Unbind => Some(Command::Unbind),
        Body::UnbindResp => Some(Command::UnbindResp),
        Body::EnquireLink => Some(Command::EnquireLink),
        Body::EnquireLinkResp => Some(Command::EnquireLinkResp),
        Body::GenericNack => Some(Command::GenericNack),
        _ => None,
    }
}

fn is_bare(rt: &impl Abort, body: &Body, command: Command) {
    same(rt, bare_command(body), Some(command));
}

// What a body has to be.
#[derive(Clone, Copy)]
enum Wanted {
    Bind(Mode, &'static [u8]),
    BindResp(Mode),
    SubmitSm,
    DeliverSm,
    SubmitSmResp(&'static [u8]),
    DeliverSmResp(&'static [u8]),
    Bare(Command),
}

fn is_wanted(rt: &impl Abort, body: &Body, wanted: Wanted) {
    match wanted {
        Wanted::Bind(mode, secret) => is_bind(rt, body, mode, secret),
        Wanted::BindResp(mode) => is_bind_resp(rt, body, mode),
        Wanted::SubmitSm => is_submit_sm(rt, body),
        Wanted::DeliverSm => is_deliver_sm(rt, body),
        Wanted::SubmitSmResp(id) => is_id(rt, body, true, id),
        Wanted::DeliverSmResp(id) => is_id(rt, body, false, id),
        Wanted::Bare(command) => is_bare(rt, body, command),
    }
}

// The octets are read as this, and written again from it.
fn reads(rt: &impl Abort, alloc: Global, octets: &[u8], wanted: Wanted) {
    let pdu = decoded(rt, alloc, octets);
    is_written(rt, alloc, &pdu, octets);
    is_wanted(rt, &pdu.body, wanted);
    drop(pdu);
}

#[test]
fn binds(rt: HostRuntime) {
    let rt = &rt;
    let transmitter = Wanted::Bind(Mode::Transmitter, b"pass");
    reads(rt, rt.alloc(), BIND_TRANSMITTER, transmitter);
    let transceiver = Wanted::Bind(Mode::Transceiver, b"pas");
    reads(rt, rt.alloc(), BIND_TRANSCEIVER, transceiver);
}

#[test]
fn bind_resps(rt: HostRuntime) {
    let rt = &rt;
    let transmitter = Wanted::BindResp(Mode::Transmitter);
    reads(rt, rt.alloc(), BIND_TRANSMITTER_RESP, transmitter);
    let transceiver = Wanted::BindResp(Mode::Transceiver);
    reads(rt, rt.alloc(), BIND_TRANSCEIVER_RESP, transceiver);
}

#[test]
fn messages(rt: HostRuntime) {
    let rt = &rt;
    reads(rt, rt.alloc(), SUBMIT_SM, Wanted::SubmitSm);
    reads(rt, rt.alloc(), DELIVER_SM, Wanted::DeliverSm);
}

#[test]
fn message_ids(rt: HostRuntime) {
    let rt = &rt;
    let submitted = Wanted::SubmitSmResp(b"88898239379");
    reads(rt, rt.alloc(), SUBMIT_SM_RESP, submitted);
    let delivered = Wanted::DeliverSmResp(b"");
    reads(rt, rt.alloc(), DELIVER_SM_RESP, delivered);
}

fn reads_bare(rt: &impl Abort, alloc: Global, octets: &[u8], command: Command) {
    reads(rt, alloc, octets, Wanted::Bare(command));
}

#[test]
fn without_a_body(rt: HostRuntime) {
    let rt = &rt;
    let alloc = rt.alloc();
    reads_bare(rt, alloc, UNBIND, Command::Unbind);
    reads_bare(rt, alloc, UNBIND_RESP, Command::UnbindResp);
    reads_bare(rt, alloc, ENQUIRE_LINK, Command::EnquireLink);
    reads_bare(rt, alloc, ENQUIRE_LINK_RESP, Command::EnquireLinkResp);
    reads_bare(rt, alloc, GENERIC_NACK, Command::GenericNack);
}
