//! Handling the whole frames of a stream, in place.

ghost use Rattle.std.specs.Prelude.{◌≡◌, ◌≢◌, ℕ, ◌+◌, ◌<◌, ◌≤◌, ◌^◌, [], List, length, drop, None, Some, IfSome};
ghost use Rattle.std.specs.List.{concat};
ghost use Rattle.sms_pdu.specs.Frame.{IsRest, IsBad};
ghost use Rattle.sms_pdu.specs.Streams.{Went, Leaves, early};
ghost use Rattle.sms_inbox.specs.Arrivals.{deliveries};
ghost use Rattle.sms_bind.specs.Deeds.{stretch_of, IsWithin};
ghost use Rattle.sms_bind.specs.Devices.{KeptOnce, octets_of};
ghost use Rattle.sms_bind.specs.Follows.{Follows};
ghost use Rattle.sms_bind.specs.Keepings.{IsOf, is_asked};
ghost use Rattle.sms_bind.specs.ReaderStates.{Handled, IsReady};
ghost use Rattle.sms_bind.specs.declared.line.StopSeen.{StopSeen};
ghost use Rattle.sms_bind.specs.declared.ending.ReaderCause.TheVariants.{Ended, ReadFault, Silent, Stopped, Turns, OutOfMemory};

use crate::context::ReaderContext;
use crate::device::{Keeping, ReaderDevice};
use crate::ending::ReaderCause;
use crate::log::LogName;
use crate::reader_state::ReaderState;
use crate::replying::refuse_length;
use sms_pdu::{Frame, drop_front as drop_some, first_frame, is_bad};
use std::io::Write;
use std::sync::Wait;

/// Octets that arrived, of which a device keeps the deliver_sm. Only what handles them makes it, once for each frame.
#[derive(Drop)]
pub struct Arrived<'a> {
    octets: &'a [u8],
}

impl<'a> Arrived<'a> {
    /// The octets.
    pub fn octets(&self) -> &'a [u8]
        ensures { result.now ≡ octets_of self.now }
    {
        self.octets
    }
}

/// Takes octets off the front, which mostly are all.
fn drop_front(octets: &mut Vec<u8>, used: usize)
    requires { used ≤ length octets.old.items }
    ensures { octets.new.items ≡ drop used octets.old.items }
{
    if used == octets.len() {
        octets.clear();
    } else {
        drop_some(octets, used);
    }
}

impl ReaderState {
    /// Handles frames that are divided already.
    pub fn handle_all<N: LogName, W: Write, S: Wait, D: ReaderDevice>(
        &mut self,
        context: &ReaderContext<N, W, S>,
        device: &mut D,
        frames: &[Frame],
    ) -> Option<ReaderCause>
        requires ready { IsReady (D.keeps device.old) self.old }
        requires same_window { self.old.follower.now.window ≡ context.now.window.now }
        requires room { self.old.counts.frames + length frames.now < 2 ^ 64 }
        ensures follows { Follows self.old.follower self.new.follower }
        ensures handled { (left : List ℕ) × Went (Handled self.old.session result self.old self.new) (concat frames.now) left × (result ≡ None → left ≡ []) }
        ensures within { IsWithin self.new.counts }
        ensures room { self.new.counts.frames ≤ self.old.counts.frames + length frames.now }
        ensures going { result ≡ None → self.new.session ≡ self.old.session }
        ensures stretch { IfSome result (λ c. stretch_of (Some c) ≡ early) }
        ensures not_out_of_memory { result ≢ Some OutOfMemory }
        // Each deliver_sm was kept once at most.
        ensures once { D.kept device.new ≤ D.kept device.old + length (deliveries frames.now) }
        ensures same { (D.keeps device.new ≡ D.keeps device.old) × (D.watch device.new ≡ D.watch device.old) }
    {
        for frame in frames {
            let octets = frame.as_slice();
            let keeping = device.keep(Arrived { octets });
            if let Some(cause) = self.handle(context, octets, &keeping) {
                return Some(cause);
            }
        }
        None
    }

    /// Handles the whole frames at the beginning of `held`, and removes them from it. The deliver_sm among them are kept
    /// first, all together.
    pub fn handle_held<N: LogName, W: Write, S: Wait, D: ReaderDevice>(
        &mut self,
        context: &ReaderContext<N, W, S>,
        device: &mut D,
        held: &mut Vec<u8>,
    ) -> Option<ReaderCause>
        requires ready { IsReady (D.keeps device.old) self.old }
        requires same_window { self.old.follower.now.window ≡ context.now.window.now }
        requires room { self.old.counts.frames + length held.old.items < 2 ^ 64 }
        ensures follows { Follows self.old.follower self.new.follower }
        ensures handled { Went (Handled self.old.session result self.old self.new) held.old.items held.new.items }
        ensures leaves { Leaves (stretch_of result) held.new.items held.new.items }
        ensures within { IsWithin self.new.counts }
        ensures room { self.new.counts.frames + length held.new.items ≤ self.old.counts.frames + length held.old.items }
        ensures going { result ≡ None → (¬ IsBad held.new.items) × (self.new.session ≡ self.old.session) }
        ensures cause { (result ≢ Some Ended) × (result ≢ Some ReadFault) × ((seen : StopSeen) → result ≢ Some (Stopped seen)) × (result ≢ Some Turns) × (result ≢ Some OutOfMemory) × (result ≢ Some Silent) }
        // Each deliver_sm among them was kept once at most.
        ensures once { KeptOnce held.old.items (D.kept device.old) (D.kept device.new) }
        ensures same { (D.keeps device.new ≡ D.keeps device.old) × (D.watch device.new ≡ D.watch device.old) }
    {
        let stream = held.as_slice();
        let keeping = device.keep(Arrived { octets: stream });
        let (used, ended) = self.handle_stream(context, stream, &keeping);
        drop_front(held, used);
        if let Some(cause) = ended {
            return Some(cause);
        }
        if is_bad(held.as_slice()) {
            refuse_length(context);
            return Some(ReaderCause::Lost);
        }
        None
    }

    /// Handles the whole frames at the beginning of a stream; `keeping` is what became of its deliver_sm. Returns how many
    /// octets they have, and why the reader ends, if it does.
    fn handle_stream<N: LogName, W: Write, S: Wait>(
        &mut self,
        context: &ReaderContext<N, W, S>,
        stream: &[u8],
        keeping: &Keeping<'_>,
    ) -> (usize, Option<ReaderCause>)
        requires ready { IsReady (is_asked keeping.now) self.old }
        requires same_window { self.old.follower.now.window ≡ context.now.window.now }
        requires stream { IsOf stream.now keeping.now }
        requires room { self.old.counts.frames + length stream.now < 2 ^ 64 }
        ensures follows { Follows self.old.follower self.new.follower }
        ensures used { result.0 ≤ length stream.now }
        ensures handled { Went (Handled self.old.session result.1 self.old self.new) stream.now (drop result.0 stream.now) }
        ensures within { IsWithin self.new.counts }
        ensures room { self.new.counts.frames ≤ self.old.counts.frames + result.0 }
        ensures going { result.1 ≡ None → IsRest (drop result.0 stream.now) × (self.new.session ≡ self.old.session) }
        ensures stretch { IfSome result.1 (λ c. stretch_of (Some c) ≡ early) }
        ensures not_out_of_memory { result.1 ≢ Some OutOfMemory }
    {
        let mut left = stream;
        while let Some(length) = first_frame(left) {
            let (frame, after) = left.split_at(length);
            left = after;
            if let Some(cause) = self.handle(context, frame, keeping) {
                return (stream.len() - left.len(), Some(cause));
            }
        }
        (stream.len() - left.len(), None)
    }
}
