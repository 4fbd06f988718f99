//! The writer of a bind: what it is given goes to the outbox of the bind's connection.

ghost use Rattle.std.specs.Prelude.{None};
ghost use Rattle.std.specs.Io.{WritesAtMost};
ghost use Rattle.std.specs.Io.KnownBytes.{WriteAppends};

use crate::transport::outbox::TakesFrames;
use crate::waking::Bells;
use std::io;
use std::io::Write;
use std::sync::Wait;

/// The writer of a bind. It puts what it is given into the bind's outbox, and answers what became of it. All
/// callers give it whole frames. If a write fails, it wakes the workers of the bind.
#[derive(Drop)]
pub struct OutboxWriter<'r, 'j, R: Wait, O> {
    pub rt: &'j R,
    pub bells: &'r Bells,
    pub bind: usize,
    pub outbox: &'r O,
}

impl<'r, 'j, R: Wait, O: TakesFrames<R>> Write for OutboxWriter<'r, 'j, R, O> {
    ghost contents = { λ _. None };

    fn write(&mut self, buf: &[u8]) -> io::Result<usize>
        ensures bound { WritesAtMost result buf.now }
        ensures bytes { WriteAppends None None result buf.now }
        ensures put { O.puts self.old.outbox.now buf.now result }
    {
        let put = self.outbox.put(self.rt, buf);
        if put.is_err() {
            self.bells.fail(self.rt, self.bind);
        }
        put
    }

    fn flush(&mut self) -> io::Result<()> {
        self.outbox.write_out();
        Ok(())
    }
}
