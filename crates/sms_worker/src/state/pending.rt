//! The parts of a message that was begun, and where each stands in a queue.

ghost use Rattle.std.specs.Prelude.{◌≡◌, List, All, IfOk, IfSome, IfNone, Some, None, length, slice_get, vec_len, vec_capacity};
ghost use Rattle.sms_segment.specs.Part.{HasSeptets};
ghost use Rattle.sms_worker.specs.PendingState.{data_in, changed, link_of, no_pending, settled_one, pending_of, pending_of_one, with_link};

use crate::state::open::SegmentPlace;
use sms_message::UserData;
use sms_segment::Part;
use std::alloc::{AllocError, Global};
use std::marker::Model;

/// When a segment is to be sent again, and which one follows it in its queue.
#[derive(Clone, Copy, Debug, PartialEq, Eq)]
pub struct Link {
    pub due_ms: u64,
    pub next: Option<SegmentPlace>,
}

/// The link of a segment that is in no queue.
pub const NO_LINK: Link = Link {
    due_ms: 0,
    next: None,
};

/// What a part carries that is to be sent, and its link.
#[derive(Drop)]
pub struct PendingPart {
    pub user_data: UserData,
    pub link: Link,
}

/// What a message's short messages carry, until all its segments are settled. Contracts see that and
/// the link, part by part, and how many segments aren't settled.
#[derive(Drop)]
pub struct PendingParts {
    parts: Vec<PendingPart>,
    /// How many segments aren't settled.
    unsettled: usize,
}

impl Model for PendingParts {
    ghost use Rattle.sms_worker.specs.PendingState.{PendingState};

    ghost Value = { PendingState };

    ghost view = { λ t. record { parts = t.parts.items; unsettled = t.unsettled } };
}

impl PendingParts {
    /// These parts, none of them settled. The user data of each is made here.
    pub fn of(alloc: Global, parts: &[Part]) -> Result<PendingParts, AllocError>
        requires { All HasSeptets parts.now }
        ensures { IfOk result (λ pending. pending ≡ pending_of parts.now) }
    {
        let mut kept = Vec::with_capacity(alloc, parts.len())?;
        for part in parts {
            let user_data = UserData::of(alloc, part)?;
            kept.push_reserved(PendingPart {
                user_data,
                link: NO_LINK,
            });
        }
        Ok(PendingParts {
            unsettled: kept.len(),
            parts: kept,
        })
    }

    /// The one part of a message, whose user data was made without the part.
    pub fn of_one(alloc: Global, user_data: UserData) -> Result<PendingParts, AllocError>
        ensures { IfOk result (λ pending. pending ≡ pending_of_one user_data) }
    {
        let mut parts = Vec::with_capacity(alloc, 1)?;
        parts.push_reserved(PendingPart {
            user_data,
            link: NO_LINK,
        });
        Ok(PendingParts {
            parts,
            unsettled: 1,
        })
    }

    /// No parts. Takes no memory.
    pub fn none(alloc: Global) -> PendingParts
        ensures { result ≡ no_pending }
    {
        PendingParts {
            parts: Vec::new(alloc),
            unsettled: 0,
        }
    }

    /// How many parts there are.
    pub fn count(&self) -> usize
        ensures { result ≡ length self.now.parts }
    {
        self.parts.len()
    }

    /// The user data of a part, if it is still there.
    pub fn part(&self, part: usize) -> Option<&UserData>
        ensures exists { IfSome result (λ there. slice_get (data_in self.now) part ≡ Some there.now) }
        ensures gone { IfNone result (slice_get (data_in self.now) part ≡ None) }
    {
        if part >= self.parts.len() {
            return None;
        }
        Some(&self.parts[part].user_data)
    }

    /// The link of a part.
    pub fn link(&self, part: usize) -> Link
        ensures { result ≡ link_of (slice_get self.now.parts part) }
    {
        if part < self.parts.len() {
            return self.parts[part].link;
        }
        NO_LINK
    }

    /// Gives a part another link.
    pub fn set_link(&mut self, part: usize, link: Link)
        ensures { self.new ≡ with_link part link self.old }
    {
        if part < self.parts.len() {
            self.parts[part].link = link;
        }
    }

    /// Counts a segment as settled. With the last one all parts are dropped.
    pub fn settle(&mut self, alloc: Global)
        ensures { self.new ≡ settled_one self.old }
    {
        self.unsettled = self.unsettled.saturating_sub(1);
        if self.unsettled == 0 {
            *self = PendingParts::none(alloc);
        }
    }
}

/// Counts a segment of the message at the place as settled.
pub(crate) fn settle_part(alloc: Global, pending: &mut Vec<PendingParts>, place: SegmentPlace)
    ensures settled { pending.new.items ≡ changed settled_one pending.old.items place.message }
    ensures room { (vec_len pending.new ≡ vec_len pending.old) × (vec_capacity pending.new ≡ vec_capacity pending.old) }
{
    if place.message >= pending.len() {
        return;
    }
    let kept = &mut pending[place.message];
    kept.settle(alloc);
}
