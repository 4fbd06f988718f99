//! A writer of frames.

ghost use Rattle.std.specs.Prelude.{◌≡◌, ℕ, ◌+◌, ◌<◌, ◌≤◌, List, length, take, IsTrue, true, false, MatchResult, OnOk, OnErr, ◌⊎◌, Err, IfOk, IfErr, ◌↔◌};
ghost use Rattle.std.specs.Io.KnownBytes.{Appends, Keeps};
ghost use Rattle.sms_pdu.specs.Devices.{device, faults_of};
ghost use Rattle.sms_pdu.specs.Faults.{Counts, IsCounted};
ghost use Rattle.sms_pdu.specs.Streams.{SomeAppended, FewerAppended};
ghost use Rattle.sms_bind.specs.Wires.{writer, write_faults, is_broken};
ghost use Rattle.sms_bind.specs.declared.wire.WireFault.TheVariants.{Write as WriteFault, Broken};

use sms_pdu::{Frame, Tap};
use std::io::Write;
use std::marker::Model;

/// Evidence that a frame was given to `send`, which alone makes one; it can't be cloned. Contracts see
/// the frame's octets.
#[derive(Drop)]
pub struct Receipt {
    frame: Frame,
}

impl Model for Receipt {
    ghost use Rattle.std.specs.Prelude.{List, ℕ};

    ghost Value = { List ℕ };

    ghost view = { λ r. r.frame };
}

/// Why a frame wasn't sent whole.
#[derive(Drop)]
pub enum WireFault {
    /// A write failed in this call; a prefix of the frame may have been written.
    Write(Receipt),
    /// An earlier send failed, and nothing was written.
    Broken,
}

/// A writer of frames, which writes nothing after a write that failed.
#[derive(Drop)]
pub struct Wire<W> {
    tap: Tap<W>,
    broken: bool,
}

impl<W: Write> Wire<W> {
    /// A wire that writes to `tap`.
    pub fn new(tap: Tap<W>) -> Wire<W>
        ensures writer { writer result ≡ device tap }
        ensures faults { write_faults result ≡ faults_of tap }
        ensures sound { is_broken result ≡ false }
    {
        Wire { tap, broken: false }
    }

    /// Whether a send has failed.
    pub fn broken(&self) -> bool
        ensures { result ≡ is_broken self.now }
    {
        self.broken
    }

    /// The writer, with its count of errors.
    pub fn into_tap(self) -> Tap<W>
        ensures writer { device result ≡ writer self }
        ensures faults { faults_of result ≡ write_faults self }
    {
        self.tap
    }

    /// Writes a frame whole, in as few writes as the writer takes. Once a write has failed nothing is
    /// written any more.
    pub fn send(&mut self, frame: Frame) -> Result<Receipt, WireFault>
        ensures receipt { IfOk result (λ r. r ≡ frame) }
        ensures failed_receipt { (r : List ℕ) → result ≡ Err (WriteFault r) → r ≡ frame }
        ensures whole { OnOk result (Appends (W.contents (writer self.old)) (W.contents (writer self.new)) frame) }
        ensures part { OnErr result (SomeAppended (W.contents (writer self.old)) (W.contents (writer self.new)) frame) }
        ensures short { (r : List ℕ) → result ≡ Err (WriteFault r) → FewerAppended (W.contents (writer self.old)) (W.contents (writer self.new)) frame }
        ensures broken { (result ≡ Err Broken) ↔ (is_broken self.old ≡ true) }
        ensures kept { is_broken self.old ≡ true → self.new ≡ self.old }
        ensures after { MatchResult result (λ _. is_broken self.new ≡ false) (λ _. is_broken self.new ≡ true) }
        ensures no_fault { OnOk result (write_faults self.new ≡ write_faults self.old) }
        ensures counted { (r : List ℕ) → result ≡ Err (WriteFault r) → Counts (write_faults self.old) (write_faults self.new) }
        ensures fault { OnErr result ((is_broken self.old ≡ true) ⊎ IsCounted (write_faults self.old) (write_faults self.new)) }
    {
        if self.broken {
            return Err(WireFault::Broken);
        }
        match self.tap.put(frame.as_slice()) {
            Ok(()) => Ok(Receipt { frame }),
            Err(_) => {
                self.broken = true;
                Err(WireFault::Write(Receipt { frame }))
            }
        }
    }
}
