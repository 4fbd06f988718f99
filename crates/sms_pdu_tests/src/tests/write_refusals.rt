//! Values that no PDU has: each is refused by its field, and nothing is written.

use super::{esme, had, has_length, hi, is_written, one_parameter, pdu, want_octets};
use sms_pdu::*;
use std::alloc::Global;
use std::process::Abort;
use std::test::*;

// The error of a PDU by writing it, which leaves what was there.
fn not_written(rt: &impl Abort, alloc: Global, fields: &PduRef<'_>, error: PduError) {
    let mut out = had(rt, Vec::from_slice(alloc, b"before"));
    is_written(rt, &mut out, fields, Err(error));
    want_octets(rt, out.as_slice(), b"before");
}

// The error of a PDU with this body, by its length and by writing it.
fn refused(rt: &impl Abort, alloc: Global, status: u32, body: BodyRef<'_>, error: PduError) {
    let fields = pdu(status, body);
    has_length(rt, &fields, Err(error));
    not_written(rt, alloc, &fields, error);
}

// The bind with other octets in this field.
fn bind_with<'a>(field: Field, text: &'a [u8]) -> BodyRef<'a> {
    let mut bind = esme();
    match field {
        Field::SystemId => bind.system_id = text,
        Field::Password => bind.password = text,
        Field::SystemType => bind.system_type = text,
        _ => bind.address_range = text,
    }
    BodyRef::Bind(bind)
}

// The message with other octets in this field.
fn sm_with<'a>(field: Field, text: &'a [u8]) -> SmRef<'a> {
    let mut sm = hi();
    match field {
        Field::ServiceType => sm.service_type = text,
        Field::SourceAddr => sm.source_addr = text,
        Field::DestAddr => sm.dest_addr = text,
        Field::Schedule => sm.schedule = text,
        Field::Validity => sm.validity = text,
        _ => sm.short_message = text,
    }
    sm
}

// A string of this many letters is too long for a bind.
fn long_in_bind(rt: &impl Abort, alloc: Global, length: usize, field: Field) {
    let text = had(rt, vec![in alloc; b'x'; length]);
    let body = bind_with(field, text.as_slice());
    refused(rt, alloc, 0, body, PduError::TooLong { field });
}

// And for a message.
fn long_in_sm(rt: &impl Abort, alloc: Global, length: usize, field: Field) {
    let text = had(rt, vec![in alloc; b'x'; length]);
    let body = BodyRef::Submit(sm_with(field, text.as_slice()));
    refused(rt, alloc, 0, body, PduError::TooLong { field });
}

#[test]
fn strings_of_a_bind(rt: HostRuntime) {
    let rt = &rt;
    let alloc = rt.alloc();
    long_in_bind(rt, alloc, 16, Field::SystemId);
    long_in_bind(rt, alloc, 9, Field::Password);
    long_in_bind(rt, alloc, 13, Field::SystemType);
    long_in_bind(rt, alloc, 41, Field::AddressRange);
    let field = Field::Password;
    let zero = bind_with(field, b"p\x00w");
    refused(rt, alloc, 0, zero, PduError::Malformed { field });
}

#[test]
fn strings_of_a_message(rt: HostRuntime) {
    let rt = &rt;
    let alloc = rt.alloc();
    long_in_sm(rt, alloc, 6, Field::ServiceType);
    long_in_sm(rt, alloc, 21, Field::SourceAddr);
    long_in_sm(rt, alloc, 21, Field::DestAddr);
    long_in_sm(rt, alloc, 17, Field::Validity);
    long_in_sm(rt, alloc, 255, Field::ShortMessage);
    let field = Field::Schedule;
    let fifteen = BodyRef::Deliver(sm_with(field, b"fifteen letters"));
    refused(rt, alloc, 0, fifteen, PduError::Malformed { field });
}

// The submit_sm of `Hi` with a parameter of 65,536 octets.
fn long_parameter(rt: &impl Abort, alloc: Global, error: PduError) {
    let long = one_parameter(rt, alloc, 0x0424, 0x1_0000);
    let mut sm = hi();
    sm.params = long.as_slice();
    refused(rt, alloc, 0, BodyRef::Submit(sm), error);
    drop(long);
}

fn bare_bind_resp(params: &[Parameter]) -> BodyRef<'_> {
    BodyRef::BindResp {
        mode: Mode::Transmitter,
        system_id: None,
        params,
    }
}

// A response with no body, but a parameter.
fn parameter_of_none(rt: &impl Abort, alloc: Global, error: PduError) {
    let one = one_parameter(rt, alloc, 0x0424, 1);
    refused(rt, alloc, 0x0D, bare_bind_resp(one.as_slice()), error);
    drop(one);
}

#[test]
fn values_of_parameters(rt: HostRuntime) {
    let rt = &rt;
    let alloc = rt.alloc();
    let field = Field::Params;
    long_parameter(rt, alloc, PduError::TooLong { field });
    parameter_of_none(rt, alloc, PduError::Malformed { field });
}

// A deliver_sm_resp with a message_id of so many letters.
fn long_message_id(rt: &impl Abort, alloc: Global, length: usize, error: PduError) {
    let text = had(rt, vec![in alloc; b'x'; length]);
    let message_id = Some(text.as_slice());
    refused(rt, alloc, 0, BodyRef::DeliverResp { message_id }, error);
}

// A response with no body has a status other than 0.
#[test]
fn responses(rt: HostRuntime) {
    let rt = &rt;
    let alloc = rt.alloc();
    let field = Field::SystemId;
    let error = PduError::Malformed { field };
    refused(rt, alloc, 0, bare_bind_resp(&[]), error);
    let field = Field::MessageId;
    let bare = BodyRef::SubmitResp { message_id: None };
    refused(rt, alloc, 0, bare, PduError::Malformed { field });
    long_message_id(rt, alloc, 65, PduError::TooLong { field });
}
