//! Reading ends of connections, which read their binds.

ghost use Rattle.std.specs.Io.{ReadsAtMost};
ghost use Rattle.std.specs.Io.KnownBytes.{ReadConsumes};

use crate::context::ReaderContext;
use crate::down::ReaderLeave;
use crate::ending::ReaderEnd;
use crate::log::LogName;
use crate::reader::{ReaderBegin, read_loop};
use sms_pdu::Tap;
use std::io;
use std::io::{Read, Write};
use std::sync::Wait;

/// The reading end of a connection. It reads its bind with what it has beside it: an inbox, and a watch over its line.
pub trait ReadsBind: Read + Sized {
    ghost use Rattle.std.specs.Prelude.{◌≡◌, ◌≤◌, ◌^◌, Bool, IfSome};
    ghost use Rattle.sms_core.specs.Limits.{most_slots};
    ghost use Rattle.sms_bind.specs.ReadBinds.{HasReadBind};

    /// Whether deliver_sm of its bind are to be kept.
    ghost keeps: { Self → Bool };

    /// Reads until the bind's end, as `read_loop_with` does. The errors of the input are counted from here on.
    fn read_bind<N: LogName, W: Write, S: Wait>(
        self,
        context: &ReaderContext<'_, N, W, S>,
        begin: ReaderBegin,
        leave: ReaderLeave,
        turns: u64,
    ) -> ReaderEnd
        requires turns { turns ≤ 2 ^ 40 }
        requires same_window { begin.seat.window ≡ context.now.window.now }
        requires limit { IfSome begin.follow (λ limit. (1 ≤ limit) × (limit ≤ most_slots)) }
        ensures { HasReadBind Self.remaining (keeps self) turns self begin result };
}

/// A reading end with nothing beside it: no inbox, and no watch.
#[derive(Drop)]
pub struct Plain<R> {
    pub input: R,
}

impl<R: Read> Read for Plain<R> {
    ghost remaining = { λ p. R.remaining p.input };

    fn read(&mut self, buf: &mut [u8]) -> io::Result<usize>
        ensures bound { ReadsAtMost result buf.new }
        ensures bytes { ReadConsumes (R.remaining self.old.input) (R.remaining self.new.input) result buf.new }
    {
        self.input.read(buf)
    }
}

impl<R: Read + Drop> ReadsBind for Plain<R> {
    ghost use Rattle.std.specs.Prelude.{false};

    ghost keeps = { λ _. false };

    fn read_bind<N: LogName, W: Write, S: Wait>(
        self,
        context: &ReaderContext<'_, N, W, S>,
        begin: ReaderBegin,
        leave: ReaderLeave,
        turns: u64,
    ) -> ReaderEnd {
        let ReaderBegin {
            bound,
            producers,
            seat,
            follow,
            number: _,
        } = begin;
        let mut reader = Tap::new(self);
        let (end, _down) = read_loop(
            context.rt,
            context.alloc,
            &mut reader,
            bound,
            producers,
            context.line,
            context.window,
            seat,
            leave,
            follow,
            turns,
        );
        end
    }
}
