//! Writes responses. Each reason why one isn't written is evidence that only the refusing call gives, so none
//! can be made up.

ghost use Rattle.std.specs.Prelude.{◌≡◌, ◌++◌, ◌∷◌, [], true, false, ◌↔◌, IfErr, IfOk, IfSome, OnOk, OnErr};
ghost use Rattle.std.specs.Io.KnownBytes.{Appends};
ghost use Rattle.sms_pdu.specs.Borrowed.{owned_pdu};
ghost use Rattle.sms_pdu.specs.Grammar.{Spells};
ghost use Rattle.sms_pdu.specs.Header.{number_at};
ghost use Rattle.sms_bind.specs.Devices.{number_of};
ghost use Rattle.sms_bind.specs.Frames.{IsEnquiry, IsResponse};
ghost use Rattle.sms_bind.specs.Keepings.{IsAcknowledgement, Permits};
ghost use Rattle.sms_bind.specs.Wires.{writer, is_broken};

use crate::device::Keeping;
use crate::log::LogName;
use crate::logged::LoggedWire;
use crate::reader::EnquiryNumber;
use crate::wire::Receipt;
use sms_pdu::{Frame, PduRef};
use std::alloc::Global;
use std::io::Write;

/// Evidence that memory was refused for the response with this sequence_number.
#[derive(Drop)]
pub(crate) struct NoMemory {
    number: u32,
}

/// Evidence that the wire was broken before the response with this sequence_number was written, or broke at it.
#[derive(Drop)]
pub(crate) struct WireBroken {
    number: u32,
}

/// The frame of a PDU that has a spelling.
pub(crate) fn frame_of(alloc: Global, pdu: &PduRef<'_>) -> Result<Frame, NoMemory>
    ensures spelled { IfOk result (Spells (owned_pdu pdu.now)) }
    ensures number { IfErr result (λ no. no.number ≡ pdu.now.number) }
{
    match Frame::encode(alloc, pdu) {
        Ok(frame) => Ok(frame),
        Err(_) => Err(NoMemory { number: pdu.number }),
    }
}

/// Writes the frame of the response with this sequence_number, which acknowledges no deliver_sm.
pub(crate) fn write_frame<N: LogName, W: Write>(
    wire: &mut LoggedWire<N, W>,
    number: u32,
    frame: Frame,
) -> Result<Receipt, WireBroken>
    requires response { IsResponse frame }
    requires other { ¬ IsAcknowledgement frame }
    ensures sent { IfOk result (λ octets. octets ≡ frame) }
    ensures whole { OnOk result (Appends (W.contents (writer wire.old.wire)) (W.contents (writer wire.new.wire)) frame) }
    ensures broken { OnErr result (is_broken wire.new.wire ≡ true) }
    ensures number { IfErr result (λ no. no.number ≡ number) }
    ensures given { is_broken wire.old.wire ≡ false → wire.new.log ≡ wire.old.log ++ frame ∷ [] }
{
    match wire.respond(frame) {
        Ok(receipt) => Ok(receipt),
        Err(_fault) => Err(WireBroken { number }),
    }
}

/// Writes the frame of the response with this sequence_number, which acknowledges the deliver_sm of a frame.
pub(crate) fn write_acknowledgement<N: LogName, W: Write>(
    wire: &mut LoggedWire<N, W>,
    number: u32,
    frame: Frame,
    keeping: Keeping<'_>,
    delivery: &[u8],
) -> Result<Receipt, WireBroken>
    requires response { IsResponse frame }
    requires permitted { Permits keeping delivery.now frame }
    ensures sent { IfOk result (λ octets. octets ≡ frame) }
    ensures whole { OnOk result (Appends (W.contents (writer wire.old.wire)) (W.contents (writer wire.new.wire)) frame) }
    ensures broken { OnErr result (is_broken wire.new.wire ≡ true) }
    ensures number { IfErr result (λ no. no.number ≡ number) }
    ensures given { is_broken wire.old.wire ≡ false → wire.new.log ≡ wire.old.log ++ frame ∷ [] }
{
    match wire.acknowledge(frame, keeping, delivery) {
        Ok(receipt) => Ok(receipt),
        Err(_fault) => Err(WireBroken { number }),
    }
}

/// Writes the enquire_link of a reader. The receipt is there only where it was written whole.
pub(crate) fn write_enquiry<N: LogName, W: Write>(
    wire: &mut LoggedWire<N, W>,
    number: EnquiryNumber,
    frame: Frame,
) -> Option<Receipt>
    requires enquiry { IsEnquiry frame }
    requires own { number_at 12 frame ≡ number_of number }
    ensures { IfSome result (λ octets. octets ≡ frame) }
{
    match wire.enquire(frame, number) {
        Ok(receipt) => Some(receipt),
        Err(_fault) => None,
    }
}
