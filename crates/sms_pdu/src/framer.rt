//! Frames from a stream that comes in pieces.

ghost use Rattle.std.specs.Prelude.{◌≡◌, ◌<◌, ◌++◌, ◌∷◌, List, ℕ, [], IfOk, OnErr, IsSome, ◌↔◌, vec_len};
ghost use Rattle.std.specs.Vec.{vec_capacity};
ghost use Rattle.sms_pdu.specs.declared.front.Front.TheVariants.{Bad};
ghost use Rattle.sms_pdu.specs.Frame.{IsFrame, IsRest, IsBad, Division};

use crate::frame::{Fed, Frame, FrameFault, Frames};
use crate::front::{Front, front_of, front_of_both};
use std::alloc::{AllocError, Global};
use std::marker::Model;
use std::mem;

/// In so many octets of a piece one frame is awaited: room for those is made in the list at once,
/// and where there are more of them, it grows. To grow from nothing costs more than a frame's copy.
const USUAL_LENGTH: usize = 128;

/// Cuts a stream into frames, in whatever pieces it comes. Contracts see its rest.
#[derive(Drop)]
pub struct Framer {
    rest: Vec<u8>,
    alloc: Global,
}

impl Model for Framer {
    ghost Value = { List ℕ };

    ghost view = { λ f. f.rest.items };

    ghost invariant = { λ f. IsRest f.rest.items };
}

impl Framer {
    /// A framer that has read nothing. Takes no memory.
    pub fn new(alloc: Global) -> Framer
        ensures { result ≡ [] }
    {
        Framer {
            rest: Vec::new(alloc),
            alloc,
        }
    }

    /// What has come since the last whole frame.
    pub fn rest(&self) -> &[u8]
        ensures unchanged { result.now ≡ self.now }
        ensures ended { IsRest result.now }
    {
        self.rest.as_slice()
    }

    /// What has come since the last whole frame, as the caller's own. Takes no memory.
    pub fn into_rest(self) -> Vec<u8>
        ensures unchanged { result.items ≡ self }
        ensures ended { IsRest result.items }
    {
        self.rest
    }

    /// The fault at which the stream has ended, if there is one: a bad command_length at the front
    /// of the rest.
    pub fn fault(&self) -> Option<FrameFault>
        ensures { IsSome result ↔ IsBad self.now }
    {
        fault_of(front_of(self.rest.as_slice()))
    }

    /// Takes the next piece of the stream and gives the frames that are whole now. Once a
    /// command_length was bad, no piece gives a frame, and each gives the fault. An `Err` changes
    /// nothing.
    pub fn feed(&mut self, piece: &[u8]) -> Result<Fed, AllocError>
        // The frames and the new rest are those of the rest followed by the piece.
        ensures divided { IfOk result (λ fed. ¬ IsBad self.old → Division (self.old ++ piece.now) fed.frames self.new) }
        ensures over { IfOk result (λ fed. IsBad self.old → (fed.frames ≡ []) × (self.new ≡ self.old)) }
        ensures fault { IfOk result (λ fed. IsSome fed.fault ↔ IsBad self.new) }
        ensures ended { IsRest self.new }
        ensures err { OnErr result (self.new ≡ self.old) }
    {
        if self.rest.is_empty() {
            let divided = divide(self.alloc, piece)?;
            self.rest = divided.rest;
            return Ok(Fed {
                frames: Frames::new(divided.frames),
                fault: divided.fault,
            });
        }
        match front_of_both(self.rest.as_slice(), piece) {
            Front::Short => self.rest.extend_from_slice(piece)?,
            Front::Bad => {
                if self.rest.len() < 4 {
                    self.rest.extend_from_slice(piece)?;
                }
                return Ok(fed_nothing(self.alloc, Some(FrameFault::BadLength)));
            }
            Front::Cut(length) => {
                self.rest.reserve_exact(length - self.rest.len())?;
                self.rest.extend_from_slice(piece)?;
            }
            Front::Whole(length) => {
                let (last, after) = piece.split_at(length - self.rest.len());
                return finish(self.alloc, &mut self.rest, last, after);
            }
        }
        Ok(fed_nothing(self.alloc, None))
    }
}

/// No frames.
fn fed_nothing(alloc: Global, fault: Option<FrameFault>) -> Fed
    ensures frames { result.frames ≡ [] }
    ensures fault { result.fault ≡ fault }
{
    Fed {
        frames: Frames::none(alloc),
        fault,
    }
}

/// The fault of a stream that begins so.
fn fault_of(front: Front) -> Option<FrameFault>
    ensures { IsSome result ↔ (front ≡ Bad) }
{
    match front {
        Front::Bad => Some(FrameFault::BadLength),
        Front::Short => None,
        Front::Cut(_) => None,
        Front::Whole(_) => None,
    }
}

/// The rest is a frame with what stands last in it, and is given as one, without a copy; the frames
/// after it follow, and the new rest takes its place. An `Err` changes nothing.
fn finish(alloc: Global, rest: &mut Vec<u8>, last: &[u8], after: &[u8]) -> Result<Fed, AllocError>
    requires { IsFrame (rest.old.items ++ last.now) }
    ensures divided { IfOk result (λ fed. Division ((rest.old.items ++ last.now) ++ after.now) fed.frames rest.new.items) }
    ensures fault { IfOk result (λ fed. IsSome fed.fault ↔ IsBad rest.new.items) }
    ensures err { OnErr result (rest.new.items ≡ rest.old.items) }
{
    let Divided {
        mut frames,
        rest: next,
        fault,
    } = divide(alloc, after)?;
    frames.reserve(1)?;
    rest.extend_from_slice(last)?;
    let first = mem::replace(rest, next);
    put_first(&mut frames, Frame::new(first));
    Ok(Fed {
        frames: Frames::new(frames),
        fault,
    })
}

/// Puts a frame before the others, for which there is room.
fn put_first(frames: &mut Vec<Frame>, first: Frame)
    requires { vec_len frames.old < vec_capacity frames.old }
    ensures { frames.new.items ≡ first ∷ frames.old.items }
{
    match frames.insert(0, first) {
        Ok(()) => {}
        Err(_) => unreachable!(),
    }
}

/// A stream's frames, and its rest with its fault.
#[derive(Drop)]
struct Divided {
    frames: Vec<Frame>,
    rest: Vec<u8>,
    fault: Option<FrameFault>,
}

/// The frames and the rest of a stream, each copied once.
fn divide(alloc: Global, stream: &[u8]) -> Result<Divided, AllocError>
    ensures divided { IfOk result (λ d. Division stream.now d.frames.items d.rest.items) }
    ensures fault { IfOk result (λ d. IsSome d.fault ↔ IsBad d.rest.items) }
{
    let mut frames = Vec::with_capacity(alloc, stream.len() / USUAL_LENGTH)?;
    let mut left = stream;
    'taking: loop {
        match front_of(left) {
            Front::Short => return with_rest(alloc, frames, left, left.len(), None),
            Front::Bad => {
                let fault = Some(FrameFault::BadLength);
                return with_rest(alloc, frames, left, left.len(), fault);
            }
            Front::Cut(length) => return with_rest(alloc, frames, left, length, None),
            Front::Whole(length) => {
                let (frame, after) = left.split_at(length);
                frames.push(Frame::new(Vec::from_slice(alloc, frame)?))?;
                left = after;
            }
        }
    }
}

/// These frames, and a copy of what is left, in room for so many octets.
fn with_rest(
    alloc: Global,
    frames: Vec<Frame>,
    left: &[u8],
    room: usize,
    fault: Option<FrameFault>,
) -> Result<Divided, AllocError>
    ensures { IfOk result (λ d. (d.frames.items ≡ frames.items) × (d.rest.items ≡ left.now) × (d.fault ≡ fault)) }
{
    let mut rest = Vec::with_capacity(alloc, room)?;
    rest.extend_from_slice(left)?;
    Ok(Divided {
        frames,
        rest,
        fault,
    })
}
