//! A wire with its log.

ghost use Rattle.std.specs.Prelude.{◌≡◌, ◌+◌, ◌-◌, ◌<◌, ◌++◌, ◌∷◌, [], true, false, IfOk, OnOk, OnErr};
ghost use Rattle.sms_pdu.specs.Header.{number_at};
ghost use Rattle.sms_bind.specs.Devices.{number_of};
ghost use Rattle.sms_bind.specs.Frames.{IsEnquiry, IsRequest, IsResponse, IsUnclaimed};
ghost use Rattle.sms_bind.specs.Keepings.{IsAcknowledgement, Permits};
ghost use Rattle.sms_bind.specs.LogRule.{all_parts};
ghost use Rattle.sms_bind.specs.Logs.{BeginsBehind, Wrote};
ghost use Rattle.sms_bind.specs.Wires.{Sends, writer, is_broken};

use crate::device::Keeping;
use crate::log::rule::View;
use crate::log::steps::{begin, claim, note, take_in};
use crate::log::{Log, LogKeeper, LogName, Requests};
use crate::reader::EnquiryNumber;
use crate::wire::{Receipt, Wire, WireFault};
use atomic_table::Badge;
use sms_pdu::Frame;
use std::alloc::Global;
use std::io::Write;
use std::marker::{Brand, Model};
use std::sync::Arc;

/// A wire of a run, with the log of the frames that it was given. Contracts see what the writer had when the
/// log began, the wire, and the log. The log began right behind a bind by the settings that its name says; the
/// frames of the log are written whole and in order; where the wire is broken, the last of them in part.
#[derive(Drop)]
pub struct LoggedWire<N: LogName, W: Write> {
    wire: Wire<W>,
    log: Arc<Log<N>, Global>,
    seat: Badge<View>,
}

impl<N: LogName, W: Write> Model for LoggedWire<N, W> {
    ghost use Rattle.sms_bind.specs.Logs.{Logged, LoggedStands, logged};

    ghost Value = { Logged W };

    ghost view = { λ w. logged w.wire w.seat.views };

    ghost invariant = { λ w. LoggedStands W.contents N.settings N.log w.seat.table_id w.seat.views w.wire };
}

impl<N: LogName> LogKeeper<N> {
    /// Begins the log of a wire. Where the log can have no owner more the wire comes back.
    pub fn wire<W: Write>(&mut self, wire: Wire<W>) -> Result<LoggedWire<N, W>, Wire<W>>
        requires few { self.old.away + 1 < all_parts }
        requires sound { is_broken wire ≡ false }
        requires behind { BeginsBehind N.settings (W.contents (writer wire)) }
        ensures away { OnOk result (self.new.away ≡ self.old.away + 1) }
        ensures same { (self.new.given ≡ self.old.given) × (self.new.requests ≡ self.old.requests) }
        ensures begun { IfOk result (λ w. (w.first ≡ W.contents (writer wire)) × (w.wire ≡ wire) × (w.log ≡ [])) }
        ensures refused { OnErr result (self.new ≡ self.old) }
    {
        let LogKeeper { log, seat } = self;
        let Ok(log) = Arc::try_clone(log) else {
            return Err(wire);
        };
        let seat = begin::<Brand, W>(log.table(), seat, &wire);
        Ok(LoggedWire { wire, log, seat })
    }

    /// Takes a wire back with its log, and tells what was written of it.
    pub fn take_wire<W: Write>(&mut self, logged: LoggedWire<N, W>) -> Wire<W>
        requires away { 0 < self.old.away }
        ensures away { self.new.away ≡ self.old.away - 1 }
        ensures given { self.new.given ≡ self.old.given ++ logged.log }
        ensures requests { self.new.requests ≡ self.old.requests }
        ensures wire { result ≡ logged.wire }
        ensures behind { BeginsBehind N.settings logged.first }
        ensures wrote { Wrote (is_broken logged.wire) logged.first (W.contents (writer logged.wire)) logged.log }
    {
        let LoggedWire { wire, mut seat, .. } = logged;
        let LogKeeper { log, seat: mine } = self;
        take_in(log.table(), mine, &mut seat);
        wire
    }
}

impl<N: LogName, W: Write> LoggedWire<N, W> {
    /// Whether a send has failed.
    pub fn broken(&self) -> bool
        ensures { result ≡ is_broken self.now.wire }
    {
        self.wire.broken()
    }

    /// The wire.
    pub fn wire(&self) -> &Wire<W>
        ensures { result.now ≡ self.now.wire }
    {
        &self.wire
    }

    /// The wire without its log.
    pub fn into_wire(self) -> Wire<W>
        ensures wire { result ≡ self.wire }
        ensures wrote { Wrote (is_broken self.wire) self.first (W.contents (writer self.wire)) self.log }
    {
        self.wire
    }

    /// Sends a request, which is one of the thread's from then on. A broken wire is given nothing.
    pub fn request(
        &mut self,
        requests: &mut Requests<N>,
        frame: Frame,
    ) -> Result<Receipt, WireFault>
        requires request { IsRequest frame }
        ensures sends { Sends W.contents self.old.wire self.new.wire frame result }
        ensures first { self.new.first ≡ self.old.first }
        ensures given { is_broken self.old.wire ≡ false → (self.new.log ≡ self.old.log ++ frame ∷ []) × (requests.new ≡ requests.old ++ frame ∷ []) }
        ensures kept { is_broken self.old.wire ≡ true → (self.new.log ≡ self.old.log) × (requests.new ≡ requests.old) }
    {
        if self.wire.broken() {
            return Err(WireFault::Broken);
        }
        let LoggedWire {
            wire,
            log,
            seat,
            ..
        } = self;
        let Requests { seat: theirs, .. } = requests;
        claim::<Brand>(log.table(), seat, theirs, &frame);
        wire.send(frame)
    }

    /// Sends a response (SMPP 3.4 5.1.2.1) that acknowledges no deliver_sm. A broken wire is given nothing.
    pub fn respond(&mut self, frame: Frame) -> Result<Receipt, WireFault>
        requires response { IsResponse frame }
        requires other { ¬ IsAcknowledgement frame }
        ensures sends { Sends W.contents self.old.wire self.new.wire frame result }
        ensures first { self.new.first ≡ self.old.first }
        ensures given { is_broken self.old.wire ≡ false → self.new.log ≡ self.old.log ++ frame ∷ [] }
        ensures kept { is_broken self.old.wire ≡ true → self.new.log ≡ self.old.log }
    {
        self.give(frame)
    }

    /// Acknowledges the deliver_sm of a frame (SMPP 3.4 4.6.2), where what became of the deliver_sm of its stream allows it. A
    /// broken wire is given nothing.
    pub fn acknowledge(
        &mut self,
        frame: Frame,
        keeping: Keeping<'_>,
        _delivery: &[u8],
    ) -> Result<Receipt, WireFault>
        requires response { IsResponse frame }
        requires permitted { Permits keeping _delivery.now frame }
        ensures sends { Sends W.contents self.old.wire self.new.wire frame result }
        ensures first { self.new.first ≡ self.old.first }
        ensures given { is_broken self.old.wire ≡ false → self.new.log ≡ self.old.log ++ frame ∷ [] }
        ensures kept { is_broken self.old.wire ≡ true → self.new.log ≡ self.old.log }
    {
        let _keeping = keeping;
        self.give(frame)
    }

    /// Asks whether the line is alive (SMPP 3.4 4.11), by the reader's own number. A broken wire is given nothing.
    pub fn enquire(&mut self, frame: Frame, _number: EnquiryNumber) -> Result<Receipt, WireFault>
        requires enquiry { IsEnquiry frame }
        requires own { number_at 12 frame ≡ number_of _number }
        ensures sends { Sends W.contents self.old.wire self.new.wire frame result }
        ensures first { self.new.first ≡ self.old.first }
        ensures given { is_broken self.old.wire ≡ false → self.new.log ≡ self.old.log ++ frame ∷ [] }
        ensures kept { is_broken self.old.wire ≡ true → self.new.log ≡ self.old.log }
    {
        self.give(frame)
    }

    /// Sends a frame that nobody claims.
    fn give(&mut self, frame: Frame) -> Result<Receipt, WireFault>
        requires unclaimed { IsUnclaimed frame }
        ensures sends { Sends W.contents self.old.wire self.new.wire frame result }
        ensures first { self.new.first ≡ self.old.first }
        ensures given { is_broken self.old.wire ≡ false → self.new.log ≡ self.old.log ++ frame ∷ [] }
        ensures kept { is_broken self.old.wire ≡ true → self.new.log ≡ self.old.log }
    {
        if self.wire.broken() {
            return Err(WireFault::Broken);
        }
        let LoggedWire {
            wire,
            log,
            seat,
            ..
        } = self;
        note::<Brand>(log.table(), seat, &frame);
        wire.send(frame)
    }
}
