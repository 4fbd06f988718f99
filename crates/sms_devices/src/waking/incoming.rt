//! What has come in on a connection, as far as it matters to the device.

ghost use Rattle.std.specs.Prelude.{◌≡◌, None, IfSome, false, true};
ghost use Rattle.std.specs.Option.{is_some};
ghost use Rattle.sms_devices.specs.Headers.{between};
ghost use Rattle.sms_devices.specs.Incomings.{Received, all_woken};
ghost use Rattle.sms_devices.specs.Openings.{is_whole_frame};
ghost use Rattle.sms_devices.specs.Wakes.{nobody};

use crate::transport::{Deadline, Opening};
use crate::waking::bell::Bells;
use crate::waking::headers::Headers;
use crate::waking::owners::Owners;
use crate::waking::wakes::Wakes;
use std::alloc::Global;
use std::sync::Wait;
use std::time::Clock;

/// What has come in on a connection: how much of the first frame, which answers the bind, the frame that
/// isn't whole yet, and the workers that are to be woken.
#[derive(Drop)]
pub struct Incoming {
    opening: Opening,
    headers: Headers,
    /// The workers that are woken once the reader has handed on what came.
    wakes: Wakes,
}

impl Incoming {
    /// Nothing has come. None if memory runs out.
    pub(crate) fn new(alloc: Global, deadline: Option<Deadline>) -> Option<Incoming>
        ensures { IfSome result (λ i. i ≡ record { opening = record { deadline = deadline; seen = 0; length = 0 }; headers = between; wakes = nobody }) }
    {
        Some(Incoming {
            opening: Opening::new(deadline),
            headers: Headers::new(alloc)?,
            wakes: Wakes::new(),
        })
    }

    /// Octets came in. The owners are None beyond the last bind.
    pub(crate) fn see(&mut self, owners: Option<&Owners>, octets: &[u8])
        ensures { Received (is_some owners.entry) octets.now self.old self.new }
    {
        if !self.opening.is_whole() {
            self.opening.see(octets);
        }
        if let Some(owners) = owners {
            self.wakes.see(owners, &mut self.headers, octets);
        }
    }

    /// Wakes the workers whose answers came in.
    pub(crate) fn ring<R: Wait>(&mut self, rt: &R, bells: &Bells, bind: usize)
        ensures { self.new ≡ all_woken self.old }
    {
        self.wakes.ring(rt, bells, bind);
    }

    /// Whether the answer to the bind isn't whole, and it is too late for it.
    pub(crate) fn is_late<R: Clock>(&self, rt: &R) -> bool
        ensures endless { self.now.opening.deadline ≡ None → result ≡ false }
        ensures whole { is_whole_frame self.now.opening ≡ true → result ≡ false }
    {
        self.opening.is_late(rt)
    }
}
