//! The headers of the frames in a stream that is read in pieces (SMPP 3.4 3.2).

ghost use Rattle.std.specs.Prelude.{◌≡◌, ◌<◌, ◌≤◌, ◌-◌, ◌++◌, ◌↔◌, ℕ, List, [], length, map, replicate, IfSome, IsTrue};
ghost use Rattle.sms_pdu.specs.Frame.{announced, Division, IsBad};
ghost use Rattle.sms_devices.specs.Headers.{PartialFrame, after_octet, after_octets, between, events_in, frame_event, in_body, in_header};
ghost use Rattle.sms_devices.specs.declared.waking.headers.FrameEvent.TheVariants.{Bad};

use crate::limits::HEADER_OCTETS;
use sms_pdu::{Header, frame_header};
use std::alloc::Global;
use std::marker::Model;

/// What an octet of the stream is.
#[derive(Clone, Copy, Debug, PartialEq, Eq)]
pub enum FrameEvent {
    /// One within a frame.
    Part,
    /// The last of the frame with this header.
    Frame(Header),
    /// It ends a header with a command_length that no frame has, or follows such a header.
    Bad,
}

/// What has come of the frame that isn't whole yet. It takes no memory once it is made.
#[derive(Drop)]
pub struct Headers {
    /// The octets of its header that have come.
    front: Vec<u8>,
    /// How many octets of its body are still to come, once the header is whole. It is 0 after a header with
    /// a bad command_length, which stays for good.
    left: u32,
}

impl Model for Headers {
    ghost use Rattle.std.specs.Prelude.{◌≡◌, ◌<◌, ◌≤◌, vec_len, vec_capacity};
    ghost use Rattle.sms_devices.specs.Headers.{PartialFrame, partial};

    ghost Value = { PartialFrame };

    ghost view = { λ h. partial h.front.items h.left };

    ghost invariant = { λ h. (16 ≤ vec_capacity h.front) × (vec_len h.front ≤ 16) × (vec_len h.front < 16 → h.left ≡ 0) };
}

impl Headers {
    /// Nothing has come. None if memory runs out.
    pub fn new(alloc: Global) -> Option<Headers>
        ensures { IfSome result (λ h. h ≡ between) }
    {
        match Vec::with_capacity(alloc, HEADER_OCTETS as usize) {
            Ok(front) => Some(Headers { front, left: 0 }),
            Err(_refused) => None,
        }
    }

    /// Whether the next octet is the first of a frame.
    pub fn is_between(&self) -> bool
        ensures { IsTrue result ↔ (self.now ≡ between) }
    {
        self.front.is_empty()
    }

    /// Takes the next octet, and says what it is.
    pub fn see(&mut self, octet: u8) -> FrameEvent
        ensures state { self.new ≡ (after_octet self.old octet).0 }
        ensures event { result ≡ (after_octet self.old octet).1 }
    {
        if self.front.len() < HEADER_OCTETS as usize {
            self.front.push_reserved(octet);
            return self.begin_body();
        }
        if self.left == 0 {
            return FrameEvent::Bad;
        }
        self.left -= 1;
        self.end_frame()
    }

    // An octet of the header has come.
    fn begin_body(&mut self) -> FrameEvent
        ensures state { self.new ≡ (in_header self.old.front).0 }
        ensures event { result ≡ (in_header self.old.front).1 }
    {
        self.left = 0;
        if self.front.len() < HEADER_OCTETS as usize {
            return FrameEvent::Part;
        }
        let length = frame_header(self.front.as_slice()).length;
        if length < HEADER_OCTETS {
            return FrameEvent::Bad;
        }
        self.left = length - HEADER_OCTETS;
        self.end_frame()
    }

    // The last octet of the header has come, or one of the body.
    fn end_frame(&mut self) -> FrameEvent
        requires header { 16 ≤ length self.old.front }
        ensures state { self.new ≡ (in_body self.old.front self.old.left).0 }
        ensures event { result ≡ (in_body self.old.front self.old.left).1 }
    {
        if self.left > 0 {
            return FrameEvent::Part;
        }
        let header = frame_header(self.front.as_slice());
        self.front.clear();
        FrameEvent::Frame(header)
    }
}

/// However a stream is cut into pieces, the state after it and its events are the same.
pub fn pieces_give_the_same_events()
    ensures state { (b : PartialFrame) (octets more : List ℕ) → after_octets b (octets ++ more) ≡ after_octets (after_octets b octets) more }
    ensures events { (b : PartialFrame) (octets more : List ℕ) → events_in b (octets ++ more) ≡ events_in b octets ++ events_in (after_octets b octets) more }
{}

/// Each frame of a stream is one event, in order. The rest after the frames has no event unless its
/// command_length is bad. A command_length below 16 is an event with the header's last octet, and with
/// each octet after it.
pub fn each_frame_is_one_event()
    ensures frames { (stream rest : List ℕ) (frames : List (List ℕ)) → Division stream frames rest → events_in between stream ≡ map frame_event frames ++ events_in between rest }
    ensures rest { (stream rest : List ℕ) (frames : List (List ℕ)) → Division stream frames rest → ¬ IsBad rest → events_in between rest ≡ [] }
    ensures bad { (rest : List ℕ) → 16 ≤ length rest → announced rest < 16 → events_in between rest ≡ replicate (length rest - 15) Bad }
{}
