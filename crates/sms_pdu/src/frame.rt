//! Frames, and what a piece of a stream gives.

ghost use Rattle.std.specs.Prelude.{◌≡◌, ◌↔◌, List, [], ◌∷◌, length, IfOk, IfSome, IfNone, IsTrue};
ghost use Rattle.sms_pdu.specs.Borrowed.{owned_pdu};
ghost use Rattle.sms_pdu.specs.Frame.{IsFrame};
ghost use Rattle.sms_pdu.specs.Grammar.{Spells};
ghost use Rattle.sms_pdu.specs.Header.{header_at_front};
ghost use Rattle.sms_pdu.specs.Reading.{Gives};
ghost use Rattle.sms_pdu.specs.Size.{size_of};

use crate::borrowed::PduRef;
use crate::encoding::encode_into;
use crate::error::PduError;
use crate::header::{Header, frame_header};
use std::alloc::Global;
use std::marker::Model;

/// A whole PDU as it came or goes, read no further than its command_length: 16 to 70,000 octets, of
/// which the first four give their number. Contracts see its octets.
#[derive(Debug, Drop)]
pub struct Frame {
    octets: Vec<u8>,
}

impl Model for Frame {
    ghost use Rattle.std.specs.Prelude.{List, ℕ};
    ghost use Rattle.sms_pdu.specs.Frame.{IsFrame};

    ghost Value = { List ℕ };

    ghost view = { λ f. f.octets.items };

    ghost invariant = { λ f. IsFrame f.octets.items };
}

impl Frame {
    /// The frame of these octets, which [`crate::is_frame`] tells from others. Takes no memory.
    pub fn new(octets: Vec<u8>) -> Frame
        requires { IsFrame octets.items }
        ensures { result ≡ octets.items }
    {
        Frame { octets }
    }

    /// The frame of a PDU. A PDU that has none is refused as [`crate::encode`] refuses it.
    pub fn encode(alloc: Global, pdu: &PduRef<'_>) -> Result<Frame, PduError>
        ensures spelled { IfOk result (Spells (owned_pdu pdu.now)) }
        ensures exact { Gives length result (size_of (owned_pdu pdu.now)) }
    {
        let mut octets = Vec::new(alloc);
        match encode_into(&mut octets, pdu) {
            Ok(_size) => Ok(Frame::new(octets)),
            Err(fault) => Err(fault),
        }
    }

    /// Its header.
    pub fn header(&self) -> Header
        ensures { result ≡ header_at_front self.now }
    {
        frame_header(self.octets.as_slice())
    }

    /// Its octets.
    pub fn as_slice(&self) -> &[u8]
        ensures unchanged { result.now ≡ self.now }
        ensures whole { IsFrame result.now }
    {
        self.octets.as_slice()
    }

    /// Its octets, as the caller's own. Takes no memory.
    pub fn into_vec(self) -> Vec<u8>
        ensures unchanged { result.items ≡ self }
        ensures whole { IsFrame result.items }
    {
        self.octets
    }
}

/// Frames in the order in which they came. Contracts see the list of their octets.
#[derive(Debug, Drop)]
pub struct Frames {
    frames: Vec<Frame>,
}

impl Model for Frames {
    ghost use Rattle.std.specs.Prelude.{List, ℕ};

    ghost Value = { List (List ℕ) };

    ghost view = { λ f. f.frames.items };
}

impl Frames {
    /// These frames. Takes no memory.
    pub fn new(frames: Vec<Frame>) -> Frames
        ensures { result ≡ frames.items }
    {
        Frames { frames }
    }

    /// No frames. Takes no memory.
    pub fn none(alloc: Global) -> Frames
        ensures { result ≡ [] }
    {
        Frames {
            frames: Vec::new(alloc),
        }
    }

    /// How many frames there are.
    pub fn len(&self) -> usize
        ensures { result ≡ length self.now }
    {
        self.frames.len()
    }

    /// Whether there are no frames.
    pub fn is_empty(&self) -> bool
        ensures { IsTrue result ↔ (self.now ≡ []) }
    {
        self.frames.is_empty()
    }

    /// The frames.
    pub fn as_slice(&self) -> &[Frame]
        ensures { result.now ≡ self.now }
    {
        self.frames.as_slice()
    }

    /// Takes the first frame out, if there is one.
    pub fn take_first(&mut self) -> Option<Frame>
        ensures first { IfSome result (λ frame. self.old ≡ frame ∷ self.new) }
        ensures none { IfNone result ((self.old ≡ []) × (self.new ≡ [])) }
    {
        if self.frames.is_empty() {
            return None;
        }
        Some(self.frames.remove(0))
    }

    /// The frames again. Takes no memory.
    pub fn into_vec(self) -> Vec<Frame>
        ensures { result.items ≡ self }
    {
        self.frames
    }
}

/// Why a stream has no further frames.
#[derive(Clone, Copy, Debug, PartialEq, Eq, thiserror::Error)]
pub enum FrameFault {
    /// The next frame's command_length is below 16 or above 70,000.
    #[error("the stream's next command_length is below 16 or above 70000")]
    BadLength,
}

/// What a piece of a stream gave.
#[derive(Debug, Drop)]
pub struct Fed {
    /// The frames that are whole now.
    pub frames: Frames,
    /// The fault at which the stream ends, if there is one.
    pub fault: Option<FrameFault>,
}
