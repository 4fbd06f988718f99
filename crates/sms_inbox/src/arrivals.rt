//! The deliver_sm among the octets that came in, as lines of an inbox.

ghost use Rattle.std.specs.Prelude.{◌≡◌, ◌≢◌, ◌≤◌, ℕ, ◌++◌, ◌∷◌, [], List, length, drop, IfOk, OnOk, true, string_bytes};
ghost use Rattle.sms_pdu.specs.Frame.{IsFrame};
ghost use Rattle.sms_pdu.specs.declared.error.PduError.TheVariants.{OutOfMemory};
ghost use Rattle.sms_inbox.specs.Arrivals.{HasNone, IsPage, arrival_text, arrivals_text, deliveries, is_delivery as delivers, record_in, unread as kept_unread};
ghost use Rattle.sms_inbox.specs.Record.{owned_record, record_text};

use crate::line::write_record;
use crate::receipt::ErrorRef;
use crate::record::{RecordRef, received};
use sms_pdu::{Body, DELIVER_SM, PduError, decode, first_frame, frame_header};
use std::alloc::{AllocError, Global};

/// How many octets a header has.
const HEADER: usize = 16;

/// Whether a frame is a deliver_sm.
pub(crate) fn is_delivery(frame: &[u8]) -> bool
    requires { IsFrame frame.now }
    ensures { result ≡ delivers frame.now }
{
    frame_header(frame).command == DELIVER_SM
}

/// What a deliver_sm is kept as whose body can't be read: a message with this text.
fn unread(time: u64, bind: u8, frame: &[u8]) -> RecordRef<'_>
    requires { IsFrame frame.now }
    ensures { owned_record result ≡ kept_unread time bind (drop 16 frame.now) }
{
    RecordRef {
        time,
        bind,
        source: &[],
        destination: &[],
        esm_class: 0,
        id: &[],
        state: &[],
        error: ErrorRef::Text(&[]),
        text: &frame[HEADER..],
    }
}

/// Appends the line of a deliver_sm whose body can't be read.
fn write_unread(text: &mut String, time: u64, bind: u8, frame: &[u8]) -> Result<(), AllocError>
    requires { IsFrame frame.now }
    ensures { OnOk result (string_bytes text.new ≡ string_bytes text.old ++ record_text (kept_unread time bind (drop 16 frame.now))) }
{
    write_record(text, &unread(time, bind, frame))
}

/// Appends the line of a deliver_sm by its body.
fn write_body(
    text: &mut String,
    time: u64,
    bind: u8,
    body: &Body,
    frame: &[u8],
) -> Result<(), AllocError>
    requires { IsFrame frame.now }
    ensures { OnOk result (string_bytes text.new ≡ string_bytes text.old ++ record_text (record_in time bind body.now (drop 16 frame.now))) }
{
    match body {
        Body::Deliver(sm) => write_record(text, &received(time, bind, &sm.as_ref())),
        _ => write_unread(text, time, bind, frame),
    }
}

/// Appends the line of a deliver_sm whose body has a fault; of refused memory nothing is known of the body.
fn write_faulty(
    text: &mut String,
    time: u64,
    bind: u8,
    fault: PduError,
    frame: &[u8],
) -> Result<(), AllocError>
    requires { IsFrame frame.now }
    ensures { OnOk result ((fault ≢ OutOfMemory) × (string_bytes text.new ≡ string_bytes text.old ++ record_text (kept_unread time bind (drop 16 frame.now)))) }
{
    match fault {
        PduError::OutOfMemory => Err(AllocError),
        _ => write_unread(text, time, bind, frame),
    }
}

/// Appends the line of a deliver_sm.
fn write_arrival(
    text: &mut String,
    alloc: Global,
    time: u64,
    bind: u8,
    frame: &[u8],
) -> Result<(), AllocError>
    requires { IsFrame frame.now }
    ensures { OnOk result (string_bytes text.new ≡ string_bytes text.old ++ arrival_text time bind frame.now) }
{
    match decode(alloc, frame) {
        Ok(pdu) => {
            let written = write_body(text, time, bind, &pdu.body, frame);
            drop(pdu);
            written
        }
        Err(fault) => write_faulty(text, time, bind, fault, frame),
    }
}

/// Appends the line of a frame, if it is a deliver_sm. Gives how many lines that are.
fn write_frame(
    text: &mut String,
    alloc: Global,
    time: u64,
    bind: u8,
    frame: &[u8],
) -> Result<u64, AllocError>
    requires { IsFrame frame.now }
    ensures lines { OnOk result (string_bytes text.new ≡ string_bytes text.old ++ arrivals_text time bind (frame.now ∷ [])) }
    ensures counted { IfOk result (λ count. count ≡ length (deliveries (frame.now ∷ []))) }
    ensures few { IfOk result (λ count. count ≤ 1) }
{
    if !is_delivery(frame) {
        return Ok(0);
    }
    write_arrival(text, alloc, time, bind, frame)?;
    Ok(1)
}

/// Appends a line for each deliver_sm among the whole frames at the front of a stream, which came at this time on this bind. Gives
/// how many they are. Where memory is refused some lines, and a part of one, may stand there.
pub(crate) fn write_arrivals(
    text: &mut String,
    alloc: Global,
    time: u64,
    bind: u8,
    stream: &[u8],
) -> Result<u64, AllocError>
    ensures { IfOk result (λ count. (page : List ℕ) × (string_bytes text.new ≡ string_bytes text.old ++ page) × IsPage time bind stream.now page count) }
{
    let mut count: u64 = 0;
    let mut left = stream;
    while let Some(length) = first_frame(left) {
        let (frame, after) = left.split_at(length);
        let lines = write_frame(text, alloc, time, bind, frame)?;
        count += lines;
        left = after;
    }
    Ok(count)
}

/// Whether there is no deliver_sm among the whole frames at the front of a stream.
pub(crate) fn has_none(stream: &[u8]) -> bool
    ensures { result ≡ true → HasNone stream.now }
{
    let mut left = stream;
    while let Some(length) = first_frame(left) {
        let (frame, after) = left.split_at(length);
        if is_delivery(frame) {
            return false;
        }
        left = after;
    }
    true
}
