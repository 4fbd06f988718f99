//! The centre serves a connection.

ghost use Rattle.std.specs.Prelude.{◌≡◌, ◌≢◌, ◌⊎◌, ℕ, ◌≤◌, ◌∷◌, [], List, length, drop, Some, None, IfOk, IfSome, OnErr};
ghost use Rattle.sms_pdu.specs.Devices.{device, faults_of, failures_of};
ghost use Rattle.sms_pdu.specs.Faults.{Counts};
ghost use Rattle.sms_pdu.specs.Frame.{IsFrame, IsRest, IsBad};
ghost use Rattle.sms_pdu.specs.Streams.{Went, Reads, Leaves, early};
ghost use Rattle.sms_pdu.specs.Turn.{IsSpent, Turned};
ghost use Rattle.sms_centre.specs.Says.{begun};
ghost use Rattle.sms_centre.specs.Serving.{Serves, end_at as brought_by, hangs_up as hung_up_by};
ghost use Rattle.sms_centre.specs.Stops.{cause_of as cause_of_stop, brought, stretch_of, Answered, Written};
ghost use Rattle.sms_centre.specs.Turns.{ReadOnce, ReadUntil, CountsWrites};
ghost use Rattle.sms_centre.specs.declared.serving.Stop.TheVariants.{Ended, OutOfMemory, ReadFault, WriteFault, Turns};

use crate::centre::Centre;
use crate::said::Said;
use crate::script::Script;
use crate::treatment::Treatment;
use sms_pdu::{
    Header, PIECE, SUBMIT_SM, Tap, UNBIND, drop_front, fault_of, first_frame, frame_header, is_bad,
};
use std::alloc::{AllocError, Global};
use std::io::{Read, Write};

/// Why a connection ended.
#[derive(Clone, Copy, Debug, PartialEq, Eq)]
pub enum ServeCause {
    /// The input ended, or the script hung up (`cut`, `huge`).
    Ended,
    /// An unbind came, and was answered.
    Unbound,
    /// A command_length was below 16 or above 70,000. Nothing is said to it.
    Lost,
    /// A read failed.
    ReadFault,
    /// A write failed, or took nothing.
    WriteFault,
    /// All turns were used.
    Turns,
    /// Memory was refused.
    OutOfMemory,
}

/// The same, with an end of the input and one by the script apart.
#[derive(Clone, Copy, Debug, PartialEq, Eq)]
pub(crate) enum Stop {
    /// The input ended.
    Ended,
    /// The script hung up.
    HungUp,
    Unbound,
    Lost,
    ReadFault,
    WriteFault,
    Turns,
    OutOfMemory,
}

/// How serving a connection ended.
#[derive(Clone, Copy, Debug, PartialEq, Eq)]
pub struct ServeEnd {
    /// How many submit_sm came.
    pub submits: u64,
    pub cause: ServeCause,
}

/// The buffers of a connection.
#[derive(Drop)]
struct Buffers {
    /// What one read gives.
    piece: Vec<u8>,
    /// What was read and isn't answered yet.
    held: Vec<u8>,
    /// What is said to one frame.
    said: Vec<Said>,
    /// What is written in one turn.
    out: Vec<u8>,
}

/// Serves a connection by a script for at most `turns` turns. One turn reads once, at most 65,536 octets,
/// and writes what is said to their frames at once. Frames are read by their headers alone. A read
/// that fails as WouldBlock, TimedOut or Interrupted is a turn that read nothing; the first that fails
/// otherwise ends it, and so does the first write that fails.
pub fn serve<R: Read, W: Write>(
    alloc: Global,
    reader: &mut Tap<R>,
    writer: &mut Tap<W>,
    script: Script,
    turns: u64,
) -> ServeEnd
    ensures serves { Serves (begun script) (R.remaining (device reader.old)) (R.remaining (device reader.new)) (W.contents (device writer.old)) (W.contents (device writer.new)) result.cause result.submits }
    ensures turned { Turned turns (result.cause ≡ ServeCause.Turns) (R.remaining (device reader.old)) (R.remaining (device reader.new)) (faults_of reader.old) (faults_of reader.new) }

    // Nothing but a lack of memory ends it before its first turn.
    ensures none { turns ≡ 0 → (result.cause ≡ ServeCause.Turns) ⊎ (result.cause ≡ ServeCause.OutOfMemory) }
    ensures failed { result.cause ≡ ServeCause.ReadFault → Counts (failures_of reader.old) (failures_of reader.new) }
    ensures quiet { result.cause ≢ ServeCause.ReadFault → failures_of reader.new ≡ failures_of reader.old }
    ensures unwritten { result.cause ≡ ServeCause.WriteFault → Counts (faults_of writer.old) (faults_of writer.new) }
    ensures wrote { result.cause ≢ ServeCause.WriteFault → faults_of writer.new ≡ faults_of writer.old }
{
    match Centre::new(alloc, script) {
        Ok(mut centre) => {
            let stop = centre.serve_turns(alloc, reader, writer, turns);
            ServeEnd {
                submits: centre.submits(),
                cause: cause_of(stop),
            }
        }
        Err(_full) => ServeEnd {
            submits: 0,
            cause: ServeCause::OutOfMemory,
        },
    }
}

/// The cause by its name.
fn cause_of(stop: Stop) -> ServeCause
    ensures { result ≡ cause_of_stop stop }
{
    match stop {
        Stop::Ended => ServeCause::Ended,
        Stop::HungUp => ServeCause::Ended,
        Stop::Unbound => ServeCause::Unbound,
        Stop::Lost => ServeCause::Lost,
        Stop::ReadFault => ServeCause::ReadFault,
        Stop::WriteFault => ServeCause::WriteFault,
        Stop::Turns => ServeCause::Turns,
        Stop::OutOfMemory => ServeCause::OutOfMemory,
    }
}

impl Buffers {
    /// Room for one read, and nothing held.
    fn new(alloc: Global) -> Result<Buffers, AllocError>
        ensures piece { IfOk result (λ b. length b.piece.items ≡ 65536) }
        ensures held { IfOk result (λ b. b.held.items ≡ []) }
    {
        match Vec::from_elem(alloc, 0u8, PIECE) {
            Ok(piece) => Ok(Buffers {
                piece,
                held: Vec::new(alloc),
                said: Vec::new(alloc),
                out: Vec::new(alloc),
            }),
            Err(_full) => Err(AllocError),
        }
    }
}

impl Centre {
    /// Reads and answers in turns.
    fn serve_turns<R: Read, W: Write>(
        &mut self,
        alloc: Global,
        reader: &mut Tap<R>,
        writer: &mut Tap<W>,
        turns: u64,
    ) -> Stop
        ensures served { (held : List ℕ) × Reads (Written self.old self.new (Some result) (W.contents (device writer.old)) (W.contents (device writer.new))) [] (R.remaining (device reader.old)) (R.remaining (device reader.new)) (stretch_of (Some result)) held }
        ensures read { ReadUntil R.remaining turns result reader.old reader.new }
        ensures none { turns ≡ 0 → (result ≡ Turns) ⊎ (result ≡ OutOfMemory) }
        ensures wrote { CountsWrites (λ s. result ≡ s) writer.old writer.new }
    {
        let Ok(mut buffers) = Buffers::new(alloc) else {
            return Stop::OutOfMemory;
        };
        for _turn in 0..turns {
            if let Some(stop) = self.serve_turn(alloc, reader, writer, &mut buffers) {
                return stop;
            }
        }
        Stop::Turns
    }

    /// One turn: what one read gave, after what is held, is answered.
    fn serve_turn<R: Read, W: Write>(
        &mut self,
        alloc: Global,
        reader: &mut Tap<R>,
        writer: &mut Tap<W>,
        buffers: &mut Buffers,
    ) -> Option<Stop>
        requires piece { length buffers.old.piece.items ≡ 65536 }
        requires rest { IsRest buffers.old.held.items }
        requires good { ¬ IsBad buffers.old.held.items }
        ensures reads { Reads (Written self.old self.new result (W.contents (device writer.old)) (W.contents (device writer.new))) buffers.old.held.items (R.remaining (device reader.old)) (R.remaining (device reader.new)) (stretch_of result) buffers.new.held.items }
        ensures good { result ≡ None → ¬ IsBad buffers.new.held.items }
        ensures piece { length buffers.new.piece.items ≡ 65536 }
        ensures turns { result ≢ Some Turns }
        ensures spent { IsSpent (R.remaining (device reader.old)) → (result ≡ Some Ended) ⊎ (result ≡ None) ⊎ (result ≡ Some ReadFault) }
        ensures read { ReadOnce R.remaining result reader.old reader.new }
        ensures wrote { CountsWrites (λ s. result ≡ Some s) writer.old writer.new }
    {
        match reader.read(buffers.piece.as_mut_slice()) {
            Ok(0) => Some(Stop::Ended),
            Ok(n) => {
                if buffers.held.extend_from_slice(&buffers.piece[..n]).is_err() {
                    return Some(Stop::OutOfMemory);
                }
                self.answer_held(alloc, writer, buffers)
            }
            Err(e) => fault_of(&e, Stop::ReadFault),
        }
    }

    /// Answers the frames of what is held, in one write where the writer takes it whole, and keeps
    /// what is left.
    fn answer_held<W: Write>(
        &mut self,
        alloc: Global,
        writer: &mut Tap<W>,
        buffers: &mut Buffers,
    ) -> Option<Stop>
        ensures handled { (left : List ℕ) × Went (Written self.old self.new result (W.contents (device writer.old)) (W.contents (device writer.new))) buffers.old.held.items left × Leaves (stretch_of result) left buffers.new.held.items }
        ensures good { result ≡ None → ¬ IsBad buffers.new.held.items }
        ensures piece { buffers.new.piece.items ≡ buffers.old.piece.items }
        ensures cause { (result ≢ Some Ended) × (result ≢ Some ReadFault) × (result ≢ Some Turns) }
        ensures wrote { CountsWrites (λ s. result ≡ Some s) writer.old writer.new }
    {
        buffers.out.clear();
        let (used, ended) = self.answer_stream(
            alloc,
            buffers.held.as_slice(),
            &mut buffers.said,
            &mut buffers.out,
        );
        drop_front(&mut buffers.held, used);
        if writer.put(buffers.out.as_slice()).is_err() {
            return Some(Stop::WriteFault);
        }
        if let Some(stop) = ended {
            return Some(stop);
        }
        if is_bad(buffers.held.as_slice()) {
            return Some(Stop::Lost);
        }
        None
    }

    /// Answers the whole frames that a stream begins with. Gives how many octets they have, and why the
    /// connection ends, if it does.
    fn answer_stream(
        &mut self,
        alloc: Global,
        stream: &[u8],
        said: &mut Vec<Said>,
        out: &mut Vec<u8>,
    ) -> (usize, Option<Stop>)
        ensures used { result.0 ≤ length stream.now }
        ensures handled { Went (Answered self.old self.new result.1 out.old.items out.new.items) stream.now (drop result.0 stream.now) }
        ensures rest { result.1 ≡ None → IsRest (drop result.0 stream.now) }
        ensures stretch { IfSome result.1 (λ s. stretch_of (Some s) ≡ early) }
        ensures uncut { result.1 ≢ Some WriteFault }
    {
        let mut left = stream;
        while let Some(length) = first_frame(left) {
            let (frame, after) = left.split_at(length);
            match self.answer_frame(alloc, frame, said, out) {
                Ok(None) => left = after,
                Ok(end) => return (stream.len() - after.len(), end),
                Err(_full) => return (stream.len() - left.len(), Some(Stop::OutOfMemory)),
            }
        }
        (stream.len() - left.len(), None)
    }

    /// Adds what is said to a frame. Gives why the connection ends, if it does.
    fn answer_frame(
        &mut self,
        alloc: Global,
        frame: &[u8],
        said: &mut Vec<Said>,
        out: &mut Vec<u8>,
    ) -> Result<Option<Stop>, AllocError>
        requires frame { IsFrame frame.now }
        ensures answered { IfOk result (λ end. Answered self.old self.new end out.old.items out.new.items (frame.now ∷ [])) }
        ensures stretch { IfOk result (λ end. IfSome end (λ s. stretch_of (Some s) ≡ early)) }
        ensures uncut { IfOk result (λ end. end ≢ Some WriteFault) }
        ensures unchanged { OnErr result ((self.new ≡ self.old) × (out.new.items ≡ out.old.items)) }
    {
        let header = frame_header(frame);
        let end = self.end_at(&header);
        match self.answer_into(alloc, &header, said, out) {
            Ok(()) => Ok(end),
            Err(e) => Err(e),
        }
    }

    /// Why the connection ends after a frame with this header, if it does.
    fn end_at(&self, header: &Header) -> Option<Stop>
        ensures at { brought result ≡ brought_by self.now header.now }
        ensures stretch { IfSome result (λ s. stretch_of (Some s) ≡ early) }
        ensures uncut { result ≢ Some WriteFault }
    {
        match header.command {
            SUBMIT_SM => hangs_up(self.next_treatment()),
            UNBIND => Some(Stop::Unbound),
            _ => None,
        }
    }
}

/// Whether a treatment ends the connection.
fn hangs_up(treatment: Treatment) -> Option<Stop>
    ensures up { brought result ≡ hung_up_by treatment }
    ensures stretch { IfSome result (λ s. stretch_of (Some s) ≡ early) }
    ensures uncut { result ≢ Some WriteFault }
{
    match treatment {
        Treatment::Cut => Some(Stop::HungUp),
        Treatment::Huge => Some(Stop::HungUp),
        Treatment::Status(_) => None,
        Treatment::Nack(_) => None,
        Treatment::Silent => None,
        Treatment::Unbind => None,
        Treatment::Twice(_) => None,
        Treatment::Stray(_) => None,
        Treatment::Late {
            after: _,
            status: _,
        } => None,
        Treatment::Deliver => None,
    }
}
