//! Fewer requests at once while the message centre throttles (SMPP 3.4 5.1.3, ESME_RTHROTTLED).

ghost use Rattle.std.specs.Prelude.{◌≡◌, ◌<◌, ◌≤◌, IfOk, IfErr, true, false};
ghost use Rattle.sms_bind.specs.Follows.{Follows, HoldsBack, Takes, Gives, Rests, held_none, good_after, is_throttled, fills};

use sms_core::{ESME_ROK, ESME_RTHROTTLED};
use sms_pdu::Reply;
use sms_window::{Claim, Window, WindowSeat};
use std::alloc::{AllocError, Global};
use std::marker::Model;
use std::snapshot::Snapshot;

/// A seat that holds slots back, so that workers find fewer free.
#[derive(Drop)]
pub(crate) struct Follower {
    seat: WindowSeat,
    /// The slots that are held back, in the order in which they were claimed.
    claimed: Vec<u32>,
    /// The most slots that it may hold back.
    most: u32,
    /// How many answers in a row were good.
    good: u32,
    /// The seat as it was at first.
    began: Snapshot<WindowSeat>,
}

impl Model for Follower {
    ghost use Rattle.std.specs.Prelude.{◌<◌, ◌≤◌, length};
    ghost use Rattle.std.specs.Vec.{vec_capacity};
    ghost use Rattle.sms_window.specs.OpenSlots.{IsOpen};
    ghost use Rattle.sms_bind.specs.Held.{Held};

    ghost Value = { Held };

    ghost view = { λ f. record { began = f.began.value; now = f.seat; claimed = f.claimed.items; most = f.most; good = f.good } };

    ghost invariant = { λ f. record {
      good : f.good < 16;
      slots : IsOpen f.began.value.view.slots f.claimed.items f.seat.view.slots;
      few : length f.claimed.items ≤ f.most;
      room : f.most ≤ vec_capacity f.claimed;
    } };
}

/// The good answers in a row after which a slot is given back.
const GOOD_ANSWERS: u32 = 16;

impl Follower {
    /// A seat that holds nothing back yet, and may hold back `most` slots. Err where memory runs out.
    pub fn new(
        alloc: Global,
        seat: WindowSeat,
        most: u32,
    ) -> Result<Follower, (AllocError, WindowSeat)>
        ensures ok { IfOk result (λ f. f ≡ held_none seat most) }
        ensures err { IfErr result (λ e. e.1 ≡ seat) }
    {
        match Vec::with_capacity(alloc, most as usize) {
            Ok(claimed) => {
                let began = Snapshot::of(&seat);
                Ok(Follower {
                    seat,
                    claimed,
                    most,
                    good: 0,
                    began,
                })
            }
            Err(e) => Err((e, seat)),
        }
    }

    /// The seat, with what it holds back.
    pub fn into_seat(self) -> WindowSeat
        ensures seat { result ≡ self.now }
        ensures held { HoldsBack self.most self.began.view self.now.view }
    {
        self.seat
    }

    /// Counts an answer that a ring took: after an answer with ESME_RTHROTTLED the seat tries to claim a
    /// slot, and after 16 good ones in a row it releases one.
    pub fn note(&mut self, window: &Window, reply: &Reply)
        requires same_window { self.old.now.window ≡ window.now }
        ensures follows { Follows self.old self.new }
        ensures good { self.new.good ≡ good_after reply.now self.old.good }
        ensures takes { is_throttled reply.now ≡ true → Takes self.old self.new }
        ensures gives { fills reply.now self.old.good ≡ true → Gives self.old self.new }
        ensures rests { is_throttled reply.now ≡ false → fills reply.now self.old.good ≡ false → Rests self.old self.new }
    {
        if reply.nack || reply.status != ESME_ROK {
            self.good = 0;
            if !reply.nack && reply.status == ESME_RTHROTTLED {
                self.hold_back(window);
            }
            return;
        }
        if self.good + 1 < GOOD_ANSWERS {
            self.good += 1;
            return;
        }
        self.good = 0;
        self.give_back(window);
    }

    /// Tries once to claim a slot, where fewer than the most are held back.
    fn hold_back(&mut self, window: &Window)
        requires same_window { self.old.now.window ≡ window.now }
        ensures follows { Follows self.old self.new }
        ensures takes { Takes self.old self.new }
        ensures good { self.new.good ≡ self.old.good }
    {
        if self.claimed.len() >= self.most as usize {
            return;
        }
        match window.try_claim(&mut self.seat) {
            Claim::Got(slot) => self.claimed.push_reserved(slot),
            Claim::Full => {}
            Claim::Contended(_) => {}
        }
    }

    /// Releases the slot that was claimed last, if one is held back.
    fn give_back(&mut self, window: &Window)
        requires same_window { self.old.now.window ≡ window.now }
        ensures follows { Follows self.old self.new }
        ensures gives { Gives self.old self.new }
        ensures good { self.new.good ≡ self.old.good }
    {
        if let Some(slot) = self.claimed.pop() {
            window.release(&mut self.seat, slot);
        }
    }
}
