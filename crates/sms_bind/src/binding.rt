//! How a session is bound (SMPP 3.4 4.1).

ghost use Rattle.std.specs.Prelude.{◌≡◌, ℕ, ◌+◌, ◌++◌, ◌∷◌, ◌⊎◌, [], List, true, ◌≢◌, ◌<◌, ◌≤◌, ◌^◌, length, false, Ok, Err, IfOk, IfErr, OnOk};
ghost use Rattle.std.specs.Io.KnownBytes.{Appends, Consumes, IsAtEnd};
ghost use Rattle.sms_pdu.specs.Grammar.{Spells};
ghost use Rattle.sms_pdu.specs.Frame.{Division};
ghost use Rattle.sms_pdu.specs.Streams.{SomeAppended};
ghost use Rattle.sms_pdu.specs.Turn.{GaveAtMost, IsSpent};
ghost use Rattle.sms_pdu.specs.Devices.{device, faults_of};
ghost use Rattle.sms_pdu.specs.Faults.{IsCounted};
ghost use Rattle.sms_bind.specs.Wires.{writer, write_faults, is_broken};
ghost use Rattle.sms_session.specs.Settings.{bind_pdu};
ghost use Rattle.sms_bind.specs.Answers.{most_answer, most_tries, fault_of, sent_at, is_sent, Answers, FoundNone, Fails, Passes};
ghost use Rattle.sms_bind.specs.declared.binding.BindFault.TheVariants.{Closed, Read as ReadFault, Write as WriteFault, OutOfMemory};

use crate::bound::Bound;
use crate::wire::Wire;
use sms_pdu::{Fed, Frame, Framer, Frames, Mode, Tap, gave_nothing};
use sms_session::{OpenFault, Opened, Settings};
use std::alloc::{AllocError, Global};
use std::io::{Read, Write};

/// Why a session wasn't bound.
#[derive(Clone, Copy, Debug, PartialEq, Eq, thiserror::Error)]
pub enum BindFault {
    /// The bind was refused with this command_status.
    #[error("the bind was refused with status {0}")]
    Refused(u32),
    /// The input ended before an answer was whole.
    #[error("the input ended before the bind's answer")]
    Closed,
    /// What was read is no answer to a bind.
    #[error("what came is no answer to a bind")]
    NotSmpp,
    /// A read failed, or gave nothing 600 times.
    #[error("the bind's answer can't be read")]
    Read,
    /// A write failed, or the wire was broken before.
    #[error("the bind can't be written")]
    Write,
    /// Out of memory.
    #[error("out of memory")]
    OutOfMemory,
}

impl From<AllocError> for BindFault {
    ghost use Rattle.std.specs.Prelude.{◌≡◌};
    ghost use Rattle.sms_bind.specs.declared.binding.BindFault.TheVariants.{OutOfMemory};

    ghost from_gives = { λ _ e. e ≡ OutOfMemory };

    fn from(_e: AllocError) -> BindFault {
        BindFault::OutOfMemory
    }
}

/// After this many reads that gave nothing it is a fault.
const EMPTY_READS: u32 = 600;

/// Writes the bind with this sequence number and reads until its answer is whole. What was read after the
/// answer is kept in `Bound`. After a refusal nothing more is read or written.
pub fn bind<R: Read, W: Write>(
    alloc: Global,
    reader: &mut Tap<R>,
    wire: &mut Wire<W>,
    settings: &Settings,
    number: u32,
) -> Result<Bound, BindFault>
    ensures prefix { (octets : List ℕ) → Spells (bind_pdu settings.now number) octets → SomeAppended (W.contents (writer wire.old)) (W.contents (writer wire.new)) octets }
    ensures sent { (octets : List ℕ) → Spells (bind_pdu settings.now number) octets → is_sent result ≡ true → Appends (W.contents (writer wire.old)) (W.contents (writer wire.new)) octets }
    ensures written { is_sent result ≡ true → (octets : List ℕ) × Spells (bind_pdu settings.now number) octets × Appends (W.contents (writer wire.old)) (W.contents (writer wire.new)) octets }
    ensures answer { (got : List ℕ) × Consumes (R.remaining (device reader.old)) (R.remaining (device reader.new)) got × Answers settings.now.mode got result }
    ensures at_end { result ≡ Err Closed → IsAtEnd (R.remaining (device reader.new)) }
    ensures read_at_most { GaveAtMost most_answer (R.remaining (device reader.old)) (R.remaining (device reader.new)) }
    ensures errors_at_most { faults_of reader.new ≤ faults_of reader.old + most_tries }
    ensures if_bound { OnOk result ((faults_of reader.new < faults_of reader.old + most_tries) × (is_broken wire.new ≡ false)) }
    ensures read_fault { result ≡ Err ReadFault → IsCounted (faults_of reader.old) (faults_of reader.new) }
    ensures failed { result ≡ Err ReadFault → Fails reader.old reader.new }
    ensures no_failure { result ≢ Err ReadFault → Passes reader.old reader.new }
    ensures write_fault { result ≡ Err WriteFault → (is_broken wire.old ≡ true) ⊎ IsCounted (write_faults wire.old) (write_faults wire.new) }
{
    if let Err(fault) = write_bind(alloc, wire, settings, number) {
        return Err(fault);
    }
    read_answer(alloc, reader, settings.mode())
}

/// Writes the bind.
fn write_bind<W: Write>(
    alloc: Global,
    wire: &mut Wire<W>,
    settings: &Settings,
    number: u32,
) -> Result<(), BindFault>
    ensures prefix { (octets : List ℕ) → Spells (bind_pdu settings.now number) octets → SomeAppended (W.contents (writer wire.old)) (W.contents (writer wire.new)) octets }
    ensures sent { (octets : List ℕ) → Spells (bind_pdu settings.now number) octets → OnOk result (Appends (W.contents (writer wire.old)) (W.contents (writer wire.new)) octets) }
    ensures written { OnOk result ((octets : List ℕ) × Spells (bind_pdu settings.now number) octets × Appends (W.contents (writer wire.old)) (W.contents (writer wire.new)) octets) }
    ensures sound { OnOk result (is_broken wire.new ≡ false) }
    ensures fault { result ≡ Err WriteFault → (is_broken wire.old ≡ true) ⊎ IsCounted (write_faults wire.old) (write_faults wire.new) }
    ensures possible_faults { IfErr result (λ e. (sent_at e ≡ false) × (e ≢ ReadFault) × (e ≢ Closed)) }
{
    let Ok(frame) = Frame::encode(alloc, &settings.pdu(number)) else {
        return Err(BindFault::OutOfMemory);
    };
    match wire.send(frame) {
        Ok(_receipt) => Ok(()),
        Err(_fault) => Err(BindFault::Write),
    }
}

/// Reads the bind's answer.
fn read_answer<R: Read>(alloc: Global, reader: &mut Tap<R>, mode: Mode) -> Result<Bound, BindFault>
    ensures answer { (got : List ℕ) × Consumes (R.remaining (device reader.old)) (R.remaining (device reader.new)) got × Answers mode got result }
    ensures at_end { result ≡ Err Closed → IsAtEnd (R.remaining (device reader.new)) }
    ensures read_at_most { GaveAtMost most_answer (R.remaining (device reader.old)) (R.remaining (device reader.new)) }
    ensures errors_at_most { faults_of reader.new ≤ faults_of reader.old + most_tries }
    ensures errors_if_bound { OnOk result (faults_of reader.new < faults_of reader.old + most_tries) }
    ensures ended_input { IsSpent (R.remaining (device reader.old)) → ¬ IsCounted (faults_of reader.old) (faults_of reader.new) → result ≡ Err Closed }
    ensures fault { result ≡ Err ReadFault → IsCounted (faults_of reader.old) (faults_of reader.new) }
    ensures failed { result ≡ Err ReadFault → Fails reader.old reader.new }
    ensures no_failure { result ≢ Err ReadFault → Passes reader.old reader.new }
    ensures possible_faults { IfErr result (λ e. (e ≢ WriteFault) × (e ≢ OutOfMemory → sent_at e ≡ true)) }
{
    let (first, framer, frames) = match read_first(alloc, reader) {
        Ok(read) => read,
        Err(fault) => return Err(fault),
    };
    let header = first.header();
    match Opened::new(mode).bound(&header) {
        Ok(session) => Ok(Bound {
            session,
            framer,
            frames,
        }),
        Err((_opened, why)) => Err(refusal(why)),
    }
}

/// The fault for an answer that doesn't bind.
fn refusal(why: OpenFault) -> BindFault
    ensures { result ≡ fault_of why }
{
    match why {
        OpenFault::Refused(status) => BindFault::Refused(status),
        OpenFault::NotBind => BindFault::NotSmpp,
    }
}

/// Reads until a frame is whole. Returns it, and what was read after it.
fn read_first<R: Read>(
    alloc: Global,
    reader: &mut Tap<R>,
) -> Result<(Frame, Framer, Frames), BindFault>
    ensures answer { (got : List ℕ) × Consumes (R.remaining (device reader.old)) (R.remaining (device reader.new)) got × IfOk result (λ r. Division got (r.0 ∷ r.2) r.1) × IfErr result (FoundNone got) }
    ensures frames_fit { IfOk result (λ r. length r.2 < 2 ^ 63) }
    ensures at_end { result ≡ Err Closed → IsAtEnd (R.remaining (device reader.new)) }
    ensures read_at_most { GaveAtMost most_answer (R.remaining (device reader.old)) (R.remaining (device reader.new)) }
    ensures errors_at_most { faults_of reader.new ≤ faults_of reader.old + most_tries }
    ensures errors_if_bound { OnOk result (faults_of reader.new < faults_of reader.old + most_tries) }
    ensures ended_input { IsSpent (R.remaining (device reader.old)) → ¬ IsCounted (faults_of reader.old) (faults_of reader.new) → result ≡ Err Closed }
    ensures fault { result ≡ Err ReadFault → IsCounted (faults_of reader.old) (faults_of reader.new) }
    ensures failed { result ≡ Err ReadFault → Fails reader.old reader.new }
    ensures no_failure { result ≢ Err ReadFault → Passes reader.old reader.new }
    ensures possible_faults { IfErr result (λ e. (e ≢ WriteFault) × (e ≢ OutOfMemory → sent_at e ≡ true)) }
{
    let mut framer = Framer::new(alloc);
    let mut piece = [0u8; 4096];
    let mut empty = 0;
    while empty < EMPTY_READS {
        match reader.read(&mut piece) {
            Ok(0) => return Err(BindFault::Closed),
            Ok(n) => {
                let Ok(fed) = framer.feed(&piece[..n]) else {
                    return Err(BindFault::OutOfMemory);
                };
                let Fed { frames, fault } = fed;
                let mut frames = frames.into_vec();
                if !frames.is_empty() {
                    let first = frames.remove(0);
                    return Ok((first, framer, Frames::new(frames)));
                }
                if fault.is_some() {
                    return Err(BindFault::NotSmpp);
                }
            }
            Err(e) => {
                if !gave_nothing(&e) {
                    return Err(BindFault::Read);
                }
                empty += 1;
            }
        }
    }
    Err(BindFault::Read)
}
