//! Why an unbind was skipped. Each reason is a value that only the failed step makes, so none is made up.

ghost use Rattle.std.specs.Prelude.{◌≡◌, ◌≢◌, ◌++◌, ◌∷◌, [], Err, IfErr, IfOk, IfSome, MatchResult};
ghost use Rattle.sms_bind.specs.Frames.{IsRequest};
ghost use Rattle.sms_bind.specs.Wires.{is_broken};
ghost use Rattle.sms_window.specs.Drawing.{HasDrawn};
ghost use Rattle.sms_driver.specs.Unbinds.{handed_in, IsHandedOver, IsWhy, SpellsUnbind, WasDownAt};
ghost use Rattle.sms_driver.specs.declared.ending.skipped.SkipReason.TheVariants.{Down};
ghost use Rattle.sms_driver.specs.declared.ending.skipped.WasDown.{WasDown};

use crate::ending::unbind_result::UnbindResult;
use sms_bind::{DownCause, Line, LogName, LoggedWire, Requests, WireFault};
use sms_core::TOP_NUMBER;
use sms_pdu::{BodyRef, Frame, PduRef};
use sms_window::{Window, WindowSeat};
use sms_worker::{Number, draw};
use std::alloc::Global;
use std::io::Write;

/// Evidence that the line was down, for this cause. Only a look at the line makes it.
#[derive(Clone, Copy, Debug, PartialEq, Eq)]
pub struct WasDown {
    cause: DownCause,
}

impl WasDown {
    /// Why it was down.
    pub fn cause(&self) -> DownCause
        ensures { result ≡ self.now.cause }
    {
        self.cause
    }
}

/// Evidence that all numbers up to this one, the last, are drawn. Only a draw makes it.
#[derive(Clone, Copy, Debug, PartialEq, Eq)]
pub struct AllDrawn {
    last: u32,
}

/// Evidence that no number was drawn, since each try met another seat's step. Only draws make it.
#[derive(Clone, Copy, Debug, PartialEq, Eq)]
pub struct NoneDrawn {
    _met: (),
}

/// Evidence that memory was refused for the frame of the unbind with this number.
#[derive(Clone, Copy, Debug, PartialEq, Eq)]
pub struct NoFrame {
    number: u32,
}

/// Evidence that the wire was broken when the unbind with this number was to be written.
#[derive(Clone, Copy, Debug, PartialEq, Eq)]
pub struct WireBroken {
    number: u32,
}

/// Why an unbind was skipped.
#[derive(Clone, Copy, Debug, PartialEq, Eq)]
pub enum SkipReason {
    /// The bind was down.
    Down(WasDown),
    /// The window has given all its numbers.
    UsedUp(AllDrawn),
    /// No number could be drawn.
    Contended(NoneDrawn),
    /// There was no memory for its frame.
    OutOfMemory(NoFrame),
    /// An earlier write had failed.
    Broken(WireBroken),
}

/// Evidence that the line is down, if it is down now.
pub(crate) fn down_now<N: LogName, W: Write>(line: &Line<N, W>) -> Option<WasDown>
    ensures { IfSome result (WasDownAt line.now.down) }
{
    match line.down.look() {
        Some(down) => Some(WasDown {
            cause: line.down.cause(&down),
        }),
        None => None,
    }
}

/// Draws the sequence_number of an unbind.
pub(crate) fn number_for(window: &Window, seat: &mut WindowSeat) -> Result<u32, SkipReason>
    requires same_window { seat.old.window ≡ window.now }
    ensures window { seat.new.window ≡ seat.old.window }
    ensures drawn { MatchResult result (λ number. HasDrawn seat.old.view (number ∷ []) seat.new.view) (λ why. IsWhy seat.old.view why seat.new.view) }
    ensures looked { (was : WasDown) → result ≢ Err (Down was) }
{
    match draw(window, seat) {
        Number::Drawn(number) => Ok(number),
        Number::UsedUp => Err(SkipReason::UsedUp(AllDrawn { last: TOP_NUMBER })),
        Number::Contended => Err(SkipReason::Contended(NoneDrawn { _met: () })),
    }
}

/// The frame of the unbind with this number.
pub(crate) fn unbind_frame(alloc: Global, number: u32) -> Result<Frame, NoFrame>
    ensures spelled { IfOk result (λ frame. SpellsUnbind number frame) }
    ensures request { IfOk result IsRequest }
    ensures number { IfErr result (λ no. no.number ≡ number) }
{
    let pdu = PduRef {
        status: 0,
        number,
        body: BodyRef::Unbind,
    };
    match Frame::encode(alloc, &pdu) {
        Ok(frame) => Ok(frame),
        Err(_) => Err(NoFrame { number }),
    }
}

/// Hands the frame of the unbind with this number to the wire.
pub(crate) fn hand_over<N: LogName, W: Write>(
    wire: &mut LoggedWire<N, W>,
    requests: &mut Requests<N>,
    number: u32,
    frame: Frame,
) -> UnbindResult
    requires request { IsRequest frame }
    ensures handed { requests.new ≡ requests.old ++ handed_in result }
    ensures result { IsHandedOver (is_broken wire.old.wire) number frame result }
{
    match wire.request(requests, frame) {
        Ok(receipt) => UnbindResult::Sent(receipt),
        Err(WireFault::Write(receipt)) => UnbindResult::Failed(receipt),
        Err(WireFault::Broken) => UnbindResult::Skipped(SkipReason::Broken(WireBroken { number })),
    }
}
