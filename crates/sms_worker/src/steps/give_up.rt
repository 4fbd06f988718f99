//! Why a segment whose turn it is is given up. Each reason is evidence that only the refusing call gives, so
//! none can be made up; and it is moved into the list of reasons, so that one refusal explains one part.

ghost use Rattle.std.specs.Prelude.{◌≡◌, ◌+◌, ◌<◌, ◌≤◌, ◌↔◌, IfErr, IfOk, IsOk, OnOk, None, Some, max, false, slice_get, vec_len, vec_capacity};
ghost use Rattle.sms_bind.specs.Wires.{is_broken};
ghost use Rattle.sms_core.specs.Limits.{most_slots};
ghost use Rattle.sms_pdu.specs.Borrowed.{owned_pdu};
ghost use Rattle.sms_pdu.specs.Grammar.{Spells};
ghost use Rattle.sms_worker.specs.PendingState.{data_in};

use crate::devices::Gate;
use crate::ends::Attempt;
use crate::state::pending::PendingParts;
use crate::steps::call_end::NothingLeft;
use crate::steps::retry_later::AllDrawn;
use sms_bind::Wire;
use sms_message::UserData;
use sms_pdu::{Frame, PduRef};
use sms_slot::SlotRow;
use std::alloc::Global;
use std::io::Write;
use std::sync::Wait;

/// Evidence that memory was refused for the attempt with this number: for its frame, or for its place in the
/// list of attempts.
#[derive(Debug, Drop, PartialEq, Eq)]
pub struct NoMemory {
    number: u32,
}

/// Evidence that the gate refused the request with this number.
#[derive(Debug, Drop, PartialEq, Eq)]
pub struct NotPassed {
    number: u32,
}

/// Evidence that the wire was broken when the frame with this number was to be written.
#[derive(Clone, Copy, Debug, PartialEq, Eq)]
pub struct WireBroken {
    number: u32,
}

/// Evidence that the slot wasn't empty in which this number was to be posted.
#[derive(Debug, Drop, PartialEq, Eq)]
pub struct SlotBusy {
    number: u32,
}

/// Why a frame wasn't handed to the wire.
#[derive(Debug, Drop, PartialEq, Eq)]
pub enum NotHanded {
    Broken(WireBroken),
    Busy(SlotBusy),
}

/// Evidence that what this part of its message carries wasn't kept.
#[derive(Debug, Drop, PartialEq, Eq)]
pub struct NothingKept {
    part: usize,
}

/// Why a segment is given up.
#[derive(Debug, Drop, PartialEq, Eq)]
pub enum GiveUpReason {
    /// What it carries isn't there any more.
    Kept(NothingKept),
    /// Nothing was left to send.
    Done(NothingLeft),
    /// The window has given all its numbers.
    Numbers(AllDrawn),
    /// Memory was refused.
    Memory(NoMemory),
    /// The gate said no.
    Gate(NotPassed),
    /// The wire or the slot didn't take it.
    Line(NotHanded),
}

/// What a part of a message carries.
pub fn kept(pending: &PendingParts, part: usize) -> Result<&UserData, NothingKept>
    ensures there { IfOk result (λ there. slice_get (data_in pending.now) part ≡ Some there.now) }
    ensures gone { IfErr result (λ no. (no.part ≡ part) × (slice_get (data_in pending.now) part ≡ None)) }
{
    match pending.part(part) {
        Some(data) => Ok(data),
        None => Err(NothingKept { part }),
    }
}

/// The frame of a PDU that has a spelling.
pub fn frame_of(alloc: Global, pdu: &PduRef<'_>) -> Result<Frame, NoMemory>
    ensures spelled { IfOk result (Spells (owned_pdu pdu.now)) }
    ensures number { IfErr result (λ no. no.number ≡ pdu.now.number) }
{
    match Frame::encode(alloc, pdu) {
        Ok(frame) => Ok(frame),
        Err(_) => Err(NoMemory { number: pdu.number }),
    }
}

/// Makes room in the list for exactly one more attempt, the one with this number: most segments are sent once.
pub fn make_room(attempts: &mut Vec<Attempt>, number: u32) -> Result<(), NoMemory>
    ensures unchanged { attempts.new.items ≡ attempts.old.items }
    ensures room { OnOk result (vec_len attempts.new < vec_capacity attempts.new) }
    ensures no_more { vec_capacity attempts.new ≤ max (vec_capacity attempts.old) (vec_len attempts.old + 1) }
    ensures exists { vec_len attempts.old < vec_capacity attempts.old → IsOk result }
    ensures number { IfErr result (λ no. no.number ≡ number) }
{
    match attempts.reserve_exact(1) {
        Ok(()) => Ok(()),
        Err(_) => Err(NoMemory { number }),
    }
}

/// Asks the gate to let the request with this number pass, and announces the part of the message that it
/// carries.
pub fn pass<G: Gate>(
    gate: &G,
    worker: usize,
    number: u32,
    message: u64,
    part: usize,
) -> Result<(), NotPassed>
    ensures number { IfErr result (λ no. no.number ≡ number) }
{
    if !gate.pass(worker, number) {
        return Err(NotPassed { number });
    }
    if !gate.sending(worker, number, message, part) {
        return Err(NotPassed { number });
    }
    Ok(())
}

/// Checks that the wire isn't broken.
pub fn sound<W: Write>(wire: &Wire<W>, number: u32) -> Result<(), WireBroken>
    ensures sound { IsOk result ↔ (is_broken wire.now ≡ false) }
    ensures number { IfErr result (λ no. no.number ≡ number) }
{
    if wire.broken() {
        return Err(WireBroken { number });
    }
    Ok(())
}

/// Posts the number in the slot, for the worker at this place of its bind.
pub fn post<R: Wait>(
    rt: &R,
    slots: &SlotRow,
    slot: u32,
    place: usize,
    number: u32,
) -> Result<(), SlotBusy>
    requires slot { slot < most_slots }
    ensures number { IfErr result (λ no. no.number ≡ number) }
{
    match slots.post(rt, slot, place, number) {
        Ok(()) => Ok(()),
        Err(_) => Err(SlotBusy { number }),
    }
}
