//! Reading in turns.

ghost use Rattle.std.specs.Prelude.{◌≡◌, ◌≢◌, ◌+◌, ◌-◌, ◌<◌, ◌≤◌, ◌^◌, ◌++◌, ◌⊎◌, ℕ, [], length, false, true, None, Some};
ghost use Rattle.std.specs.IoError.{error_kind};
ghost use Rattle.std.specs.List.{concat};
ghost use Rattle.sms_pdu.specs.Frame.{IsRest, IsBad};
ghost use Rattle.sms_pdu.specs.Devices.{device as tapped, faults_of};
ghost use Rattle.sms_pdu.specs.Faults.{IsCounted};
ghost use Rattle.sms_pdu.specs.Streams.{Reads};
ghost use Rattle.sms_pdu.specs.Turn.{IsSpent, gives_nothing};
ghost use Rattle.sms_session.specs.declared.enquiry.Look.TheVariants.{Ask};
ghost use Rattle.sms_bind.specs.Deeds.{stretch_of, IsWithin};
ghost use Rattle.sms_bind.specs.Devices.{IsAsked, IsLook, IsQuiet, IsWatched};
ghost use Rattle.sms_bind.specs.Follows.{Follows};
ghost use Rattle.sms_bind.specs.ReaderStates.{CanRead, GoesOn, Handled, IsReady};
ghost use Rattle.sms_bind.specs.Turns.{ReadOnce, ReadUntil};
ghost use Rattle.sms_bind.specs.declared.ending.ReaderCause.TheVariants.{Ended, ReadFault, Silent, Stopped, Turns, OutOfMemory};
ghost use Rattle.sms_bind.specs.declared.line.StopSeen.{StopSeen};

use crate::context::ReaderContext;
use crate::device::{Look, ReaderDevice};
use crate::ending::ReaderCause;
use crate::log::LogName;
use crate::reader_state::ReaderState;
use crate::replying::{enquire, refuse_length};
use sms_pdu::{Frame, PIECE, Tap, gave_nothing, is_bad};
use std::io::{Error, Read, Write};
use std::sync::Wait;

impl ReaderState {
    /// Handles the frames that were read before, then reads in turns.
    pub fn read<N: LogName, R: Read, W: Write, S: Wait, D: ReaderDevice>(
        &mut self,
        context: &ReaderContext<N, W, S>,
        device: &mut D,
        reader: &mut Tap<R>,
        frames: &[Frame],
        rest: Vec<u8>,
        turns: u64,
    ) -> ReaderCause
        requires turns { turns ≤ 2 ^ 40 }
        requires ready { IsReady (D.keeps device.old) self.old }
        requires same_window { self.old.follower.now.window ≡ context.now.window.now }
        requires frames_fit { length frames.now < 2 ^ 63 }
        requires rest { IsRest rest.items }
        requires fresh { self.old.counts.frames ≡ 0 }
        ensures follows { Follows self.old.follower self.new.follower }
        ensures reads { Reads (Handled self.old.session (Some result) self.old self.new) (concat frames.now ++ rest.items) (R.remaining (tapped reader.old)) (R.remaining (tapped reader.new)) (stretch_of (Some result)) [] }
        ensures read { ReadUntil R.remaining turns (faults_of reader.new - faults_of reader.old) result reader.old reader.new }
        ensures not_out_of_memory { IsBad rest.items → result ≢ OutOfMemory }
        ensures silent { result ≡ Silent → IsQuiet (D.watch device.new) }
    {
        if let Some(cause) = self.handle_all(context, device, frames) {
            return cause;
        }
        if is_bad(rest.as_slice()) {
            refuse_length(context);
            return ReaderCause::Lost;
        }
        self.read_turns(context, device, reader, rest, turns)
    }

    /// Reads in turns, after what is held.
    fn read_turns<N: LogName, R: Read, W: Write, S: Wait, D: ReaderDevice>(
        &mut self,
        context: &ReaderContext<N, W, S>,
        device: &mut D,
        reader: &mut Tap<R>,
        held: Vec<u8>,
        turns: u64,
    ) -> ReaderCause
        requires turns { turns ≤ 2 ^ 40 }
        requires reading { CanRead (D.keeps device.old) self.old held.items }
        requires same_window { self.old.follower.now.window ≡ context.now.window.now }
        requires room { self.old.counts.frames < 2 ^ 63 }
        ensures follows { Follows self.old.follower self.new.follower }
        ensures reads { Reads (Handled self.old.session (Some result) self.old self.new) held.items (R.remaining (tapped reader.old)) (R.remaining (tapped reader.new)) (stretch_of (Some result)) [] }
        ensures read { ReadUntil R.remaining turns (faults_of reader.new - faults_of reader.old) result reader.old reader.new }
        ensures silent { result ≡ Silent → IsQuiet (D.watch device.new) }
    {
        let Ok(mut piece) = Vec::from_elem(context.alloc, 0u8, PIECE) else {
            return ReaderCause::OutOfMemory;
        };
        let mut held = held;
        for _turn in 0..turns {
            if let Some(seen) = context.line.stopped() {
                return ReaderCause::Stopped(seen);
            }
            if let Some(cause) = self.turn(context, device, reader, &mut piece, &mut held) {
                return cause;
            }
        }
        ReaderCause::Turns
    }

    /// One turn: handles what one read gave, after what is held.
    fn turn<N: LogName, R: Read, W: Write, S: Wait, D: ReaderDevice>(
        &mut self,
        context: &ReaderContext<N, W, S>,
        device: &mut D,
        reader: &mut Tap<R>,
        piece: &mut Vec<u8>,
        held: &mut Vec<u8>,
    ) -> Option<ReaderCause>
        requires reading { CanRead (D.keeps device.old) self.old held.old.items }
        requires same_window { self.old.follower.now.window ≡ context.now.window.now }
        requires piece { length piece.old.items ≡ 65536 }
        requires room { self.old.counts.frames + length held.old.items + 65536 < 2 ^ 64 }
        ensures follows { Follows self.old.follower self.new.follower }
        ensures reads { Reads (Handled self.old.session result self.old self.new) held.old.items (R.remaining (tapped reader.old)) (R.remaining (tapped reader.new)) (stretch_of result) held.new.items }
        ensures same { IsWithin self.new.counts × (length piece.new.items ≡ 65536) × (D.keeps device.new ≡ D.keeps device.old) }
        ensures watched { IsWatched (D.watch device.old) (D.watch device.new) (faults_of reader.old) (faults_of reader.new) result }
        ensures going { result ≡ None → GoesOn self.old self.new held.old.items held.new.items }
        ensures read { ReadOnce R.remaining result reader.old reader.new }
        ensures cause { ((seen : StopSeen) → result ≢ Some (Stopped seen)) × (result ≢ Some Turns) }
        ensures ended_input { IsSpent (R.remaining (tapped reader.old)) → ¬ IsCounted (faults_of reader.old) (faults_of reader.new) → result ≡ Some Ended }
    {
        match reader.read(piece.as_mut_slice()) {
            Ok(0) => Some(ReaderCause::Ended),
            Ok(n) => {
                if held.extend_from_slice(&piece[..n]).is_err() {
                    return Some(ReaderCause::OutOfMemory);
                }
                device.heard();
                self.handle_held(context, device, held)
            }
            Err(e) => self.failed(context, device, &e),
        }
    }

    /// What a read that failed so comes to: where it gave nothing, the line is looked at.
    fn failed<N: LogName, W: Write, S: Wait, D: ReaderDevice>(
        &self,
        context: &ReaderContext<N, W, S>,
        device: &mut D,
        e: &Error,
    ) -> Option<ReaderCause>
        ensures again { gives_nothing (error_kind e.now) ≡ true → (result ≡ None) ⊎ (result ≡ Some Silent) }
        ensures fault { gives_nothing (error_kind e.now) ≡ false → result ≡ Some ReadFault }
        ensures one { (result ≡ None) ⊎ (result ≡ Some ReadFault) ⊎ (result ≡ Some Silent) }
        ensures quiet { (D.watch device.new ≡ D.watch device.old) ⊎ IsAsked (D.watch device.old) (D.watch device.new) }
        ensures silent { result ≡ Some Silent → IsQuiet (D.watch device.new) }
        ensures same { (D.keeps device.new ≡ D.keeps device.old) × (D.kept device.new ≡ D.kept device.old) }
    {
        if gave_nothing(e) {
            self.look(context, device)
        } else {
            Some(ReaderCause::ReadFault)
        }
    }

    /// Looks at a line of which a read gave nothing: it is asked where that is due. Gives that it is silent, where it is.
    fn look<N: LogName, W: Write, S: Wait, D: ReaderDevice>(
        &self,
        context: &ReaderContext<N, W, S>,
        device: &mut D,
    ) -> Option<ReaderCause>
        ensures one { (result ≡ None) ⊎ (result ≡ Some Silent) }
        ensures quiet { (D.watch device.new ≡ D.watch device.old) ⊎ IsAsked (D.watch device.old) (D.watch device.new) }
        ensures silent { result ≡ Some Silent → IsQuiet (D.watch device.new) }
        ensures same { (D.keeps device.new ≡ D.keeps device.old) × (D.kept device.new ≡ D.kept device.old) }
    {
        let (now, look) = device.look();
        match look {
            Look::Wait(_) => None,
            Look::Ask => {
                self.ask(context, device, now);
                None
            }
            Look::Silent => Some(ReaderCause::Silent),
        }
    }
    /// Asks a line for which that is due. It counts as asked only where the enquire_link was written.
    fn ask<N: LogName, W: Write, S: Wait, D: ReaderDevice>(
        &self,
        context: &ReaderContext<N, W, S>,
        device: &mut D,
        now: u64,
    )
        requires due { IsLook now (D.watch device.old) Ask }
        ensures quiet { (D.watch device.new ≡ D.watch device.old) ⊎ IsAsked (D.watch device.old) (D.watch device.new) }
        ensures same { (D.keeps device.new ≡ D.keeps device.old) × (D.kept device.new ≡ D.kept device.old) }
    {
        let Some(sent) = enquire(context, self.number) else {
            return;
        };
        device.asked(now, &sent);
    }
}
