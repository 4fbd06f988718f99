//! The reader of a bind's connection, which wakes the workers whose answers came in.

ghost use Rattle.std.specs.Prelude.{◌≡◌, ◌<◌, MatchResult, nat_lt, take};
ghost use Rattle.std.specs.Io.{ReadsAtMost};
ghost use Rattle.std.specs.Io.KnownBytes.{ReadConsumes};
ghost use Rattle.sms_devices.specs.Inboxes.{IsBegun};
ghost use Rattle.sms_devices.specs.Incomings.{Received, all_woken};

use crate::clock::Ticks;
use crate::inbox::{LineDevice, LineSettings};
use crate::journal::{Journal, has_failed};
use crate::transport::Outbox;
use crate::waking::bell::Bells;
use crate::waking::incoming::Incoming;
use sms_bind::{
    LogName, ReaderBegin, ReaderContext, ReaderEnd, ReaderLeave, ReadsBind, read_loop_with,
};
use sms_pdu::Tap;
use sms_worker::Clock;
use std::fs::OpenFile;
use std::io::{Error, ErrorKind, Read, Write};
use std::sync::Wait;
use std::{io, time};

/// The reader of a bind's connection. It does more than read:
///
/// - When it is asked for octets, the bind's reader has handed on all answers that came before. So it
///   writes what waits in the outbox, and rings the bells of the workers whose answers came in.
/// - The answer to the bind may have a deadline. A read after it fails.
/// - Once the journal has failed nothing more goes out. It gives the connection up as soon as no answer
///   is still to come.
/// - When it is dropped the line is down, and it wakes all workers of the bind.
pub struct WakingReader<'r, 'j, S, R: Wait, F: Write + OpenFile, I> {
    pub inner: S,
    pub rt: &'j R,
    /// The journal of the run, if it has one. Once it has failed nothing more goes out.
    pub journal: Option<&'j Journal<F>>,
    pub bells: &'r Bells,
    pub bind: usize,
    pub outbox: &'r Outbox<'j, R, F>,
    /// The clock of the run. Each read reads it, so that it notices when the process was stopped.
    pub clock: &'r Ticks<'j, R>,
    pub incoming: Incoming,
    /// What the bind's reader has beside the connection.
    pub lines: LineSettings<'j, I>,
}

impl<'r, 'j, S: Drop, R: Wait, F: Write + OpenFile, I> Drop for WakingReader<'r, 'j, S, R, F, I> {
    fn drop(self) {
        let WakingReader {
            inner,
            rt,
            journal: _,
            bells,
            bind,
            outbox: _,
            clock: _,
            incoming: _,
            lines: _,
        } = self;
        drop(inner);
        bells.fail(rt, bind);
    }
}

impl<'r, 'j, S: Read, R: Wait + time::Clock, F: Write + OpenFile, I> Read
    for WakingReader<'r, 'j, S, R, F, I> {
    ghost remaining = { λ r. S.remaining r.inner };

    fn read(&mut self, buf: &mut [u8]) -> io::Result<usize>
        ensures bound { ReadsAtMost result buf.new }
        ensures bytes { ReadConsumes (S.remaining self.old.inner) (S.remaining self.new.inner) result buf.new }
        // Whoever was to be woken was, and is to be woken again only by the octets of this read.
        ensures seen { MatchResult result (λ count. Received (nat_lt self.old.bind 4) (take count buf.new) (all_woken self.old.incoming) self.new.incoming) (λ _. self.new.incoming ≡ all_woken self.old.incoming) }
    {
        let _now_ms = self.clock.now_ms();
        self.outbox.flush();
        if has_failed(self.journal) {
            self.outbox.give_up_answered();
        }
        self.incoming.ring(self.rt, self.bells, self.bind);
        if self.incoming.is_late(self.rt) {
            return Err(Error::from(ErrorKind::ConnectionAborted));
        }
        let read = self.inner.read(buf);
        if let Ok(count) = &read {
            self.incoming
                .see(self.bells.owners(self.bind), &buf[..*count]);
        }
        read
    }
}

impl<'r, 'j, S, R: Wait + time::Clock, F: Write + OpenFile, I> WakingReader<'r, 'j, S, R, F, I> {
    /// What the bind's reader has beside the connection. Its line is watched from now on.
    fn device(&self) -> LineDevice<'r, 'j, R, I>
        ensures inbox { result.inbox ≡ self.now.lines.inbox }
        ensures watched { IsBegun self.now.lines.enquire result.enquiry }
        ensures bind { self.now.bind < 256 → result.bind ≡ self.now.bind }
    {
        let bind = match u8::try_from(self.bind) {
            Ok(bind) => bind,
            Err(_great) => u8::MAX,
        };
        LineDevice::new(self.rt, self.clock, bind, self.lines.another())
    }
}

impl<
    'r,
    'j,
    S: Read + Drop,
    R: Wait + time::Clock,
    F: Write + OpenFile,
    I: Write + OpenFile,
> ReadsBind for WakingReader<'r, 'j, S, R, F, I> {
    ghost use Rattle.std.specs.Option.{is_some};

    ghost keeps = { λ r. is_some r.lines.inbox };

    fn read_bind<N: LogName, W: Write, X: Wait>(
        self,
        context: &ReaderContext<'_, N, W, X>,
        begin: ReaderBegin,
        leave: ReaderLeave,
        turns: u64,
    ) -> ReaderEnd {
        let mut device = self.device();
        let mut reader = Tap::new(self);
        let (end, _down) = read_loop_with(context, &mut device, &mut reader, begin, leave, turns);
        end
    }
}
