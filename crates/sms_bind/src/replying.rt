//! Responses on the wire.

ghost use Rattle.std.specs.Prelude.{◌≡◌, true, false, IfSome};
ghost use Rattle.sms_pdu.specs.Borrowed.{owned_body, owned_pdu};
ghost use Rattle.sms_pdu.specs.Grammar.{Spells};
ghost use Rattle.sms_pdu.specs.Header.{number_at};
ghost use Rattle.sms_bind.specs.Deeds.{bad_length_response, body_for, enquiry_of, pdu_for, IsWritten};
ghost use Rattle.sms_bind.specs.Devices.{number_of};
ghost use Rattle.sms_bind.specs.Keepings.{Covers, acknowledges as is_acknowledgement, allows};

use crate::context::ReaderContext;
use crate::device::Keeping;
use crate::log::LogName;
use crate::outcome::Written;
use crate::reader::EnquiryNumber;
use crate::wire::Receipt;
use crate::writing::{frame_of, write_acknowledgement, write_enquiry, write_frame};
use sms_core::{ESME_RINVCMDLEN, ESME_ROK};
use sms_pdu::{BodyRef, DELIVER_SM_RESP, ENQUIRE_LINK_RESP, GENERIC_NACK, PduRef, UNBIND_RESP};
use sms_session::Response;
use std::io::Write;
use std::sync::Wait;

/// Whether a response acknowledges a deliver_sm.
pub(crate) fn acknowledges(response: &Response) -> bool
    ensures { result ≡ is_acknowledgement response.now }
{
    response.command == DELIVER_SM_RESP && response.status == ESME_ROK
}

/// Writes a response that acknowledges no deliver_sm, holding the wire's lock once.
pub(crate) fn reply<N: LogName, W: Write, S: Wait>(
    context: &ReaderContext<N, W, S>,
    response: &Response,
) -> Written
    requires other { is_acknowledgement response.now ≡ false }
    ensures { IsWritten response.now result }
{
    let frame = match frame_of(context.alloc, &pdu_of(response)) {
        Ok(frame) => frame,
        Err(no) => return Written::NoMemory(no),
    };
    let mut wire = context.line.wire.lock(context.rt);
    match write_frame(&mut wire, response.number, frame) {
        Ok(receipt) => Written::Sent(receipt),
        Err(no) => Written::Broken(no),
    }
}

/// Acknowledges the deliver_sm of a frame, holding the wire's lock once.
pub(crate) fn acknowledge<N: LogName, W: Write, S: Wait>(
    context: &ReaderContext<N, W, S>,
    response: &Response,
    keeping: Keeping<'_>,
    delivery: &[u8],
) -> Written
    requires allowed { (allows keeping ≡ true) × Covers delivery.now keeping }
    requires number { response.now.number ≡ number_at 12 delivery.now }
    ensures { IsWritten response.now result }
{
    let frame = match frame_of(context.alloc, &pdu_of(response)) {
        Ok(frame) => frame,
        Err(no) => return Written::NoMemory(no),
    };
    let mut wire = context.line.wire.lock(context.rt);
    match write_acknowledgement(&mut wire, response.number, frame, keeping, delivery) {
        Ok(receipt) => Written::Sent(receipt),
        Err(no) => Written::Broken(no),
    }
}

/// Asks with this sequence_number whether the line is alive, holding the wire's lock once. The receipt is there only where it was
/// asked.
pub(crate) fn enquire<N: LogName, W: Write, S: Wait>(
    context: &ReaderContext<N, W, S>,
    number: EnquiryNumber,
) -> Option<Receipt>
    ensures { IfSome result (Spells (enquiry_of (number_of number))) }
{
    let Ok(frame) = frame_of(context.alloc, &enquiry(number.get())) else {
        return None;
    };
    let mut wire = context.line.wire.lock(context.rt);
    write_enquiry(&mut wire, number, frame)
}

/// An enquire_link with this sequence_number (SMPP 3.4 4.11.1).
fn enquiry(number: u32) -> PduRef<'static>
    ensures { owned_pdu result ≡ enquiry_of number }
{
    PduRef {
        status: ESME_ROK,
        number,
        body: BodyRef::EnquireLink,
    }
}

/// Sends the generic_nack of a bad command_length (SMPP 3.4 4.3). Whether it was written changes nothing:
/// the reader ends either way.
pub(crate) fn refuse_length<N: LogName, W: Write, S: Wait>(context: &ReaderContext<N, W, S>) {
    let _written = reply(context, &bad_length());
}

/// The generic_nack of a stream that can't be divided any further. It answers no request, so its
/// sequence_number is 0.
fn bad_length() -> Response
    ensures { result ≡ bad_length_response }
{
    Response {
        command: GENERIC_NACK,
        status: ESME_RINVCMDLEN,
        number: 0,
    }
}

/// The PDU of a response.
fn pdu_of(response: &Response) -> PduRef<'_>
    ensures { owned_pdu result ≡ pdu_for response.now }
{
    PduRef {
        status: response.status,
        number: response.number,
        body: body_of(response.command),
    }
}

/// The body of a response with this command. A deliver_sm_resp has an empty message_id (SMPP 3.4
/// 4.6.2).
fn body_of(command: u32) -> BodyRef<'static>
    ensures { owned_body result ≡ body_for command }
{
    match command {
        DELIVER_SM_RESP => BodyRef::DeliverResp {
            message_id: Some(b""),
        },
        ENQUIRE_LINK_RESP => BodyRef::EnquireLinkResp,
        UNBIND_RESP => BodyRef::UnbindResp,
        _ => BodyRef::GenericNack,
    }
}
