//! Whether a bind's line is down, and why.

ghost use Rattle.std.specs.Prelude.{◌≡◌, true, IfSome};
ghost use Rattle.sms_bind.specs.Downs.{cause_of, AreOfOneMark, IsDownAt, IsMarked, IsMarkedAtEnd};
ghost use Rattle.sms_bind.specs.Wires.{is_broken};
ghost use Rattle.sms_bind.specs.declared.down.DownCause.TheVariants.{Write};

use crate::ending::ReaderCause;
use crate::wire::Wire;
use std::sync::{OnceLock, OnceToken, Wait};

/// Why a line is down.
#[derive(Clone, Copy, Debug, PartialEq, Eq)]
pub enum DownCause {
    /// The bind's reader ended, for this cause.
    Reader(ReaderCause),
    /// A frame of a worker couldn't be written whole.
    Write,
}

/// Evidence that a line is down. All evidence of the same line has the same cause.
#[derive(Drop)]
pub struct Down<'a> {
    token: OnceToken<'a, DownCause>,
}

/// Evidence that a line was down already when its reader ended; `cause` is why the reader ended.
#[derive(Drop)]
pub struct DownBefore<'a> {
    down: Down<'a>,
    cause: ReaderCause,
}

/// A reader's permission to mark its line down. It is made only with its line, and marking uses it up: so a reader
/// marks its line once, for one cause.
#[derive(Drop)]
pub struct ReaderLeave {
    _made: (),
}

/// Whether a line is down. It goes down once, and stays down for the first cause. Outside of this crate only a
/// broken wire can mark it.
#[derive(Drop)]
pub struct DownMark {
    cause: OnceLock<DownCause>,
}

impl DownMark {
    /// The mark of a line that isn't down, and its reader's permission to mark it.
    pub(crate) fn new() -> (DownMark, ReaderLeave) {
        let mark = DownMark {
            cause: OnceLock::new(),
        };
        (mark, ReaderLeave { _made: () })
    }

    /// Evidence that the line is down, if it is now. Never waits.
    pub fn look(&self) -> Option<Down<'_>>
        ensures at { IfSome result (IsDownAt self.now) }
    {
        match self.cause.witness() {
            Some(token) => Some(Down { token }),
            None => None,
        }
    }

    /// Why the line is down.
    pub fn cause<'a>(&'a self, down: &Down<'a>) -> DownCause
        requires at { IsDownAt self.now down.now }
        ensures cause { result ≡ cause_of down.now }
    {
        *self.cause.value(&down.token)
    }

    // Marks the line down. Ok where it wasn't down: this is its cause then. Err where it was down before.
    fn mark<R: Wait>(&self, rt: &R, cause: DownCause) -> Result<Down<'_>, Down<'_>>
        ensures { IsMarked self.now cause result }
    {
        match self.cause.try_insert(rt, cause) {
            Ok(token) => Ok(Down { token }),
            Err((token, _cause)) => Err(Down { token }),
        }
    }

    /// Marks the line down because its reader ended for this cause. Err where the line was down before.
    pub(crate) fn reader_ended<R: Wait>(
        &self,
        rt: &R,
        leave: ReaderLeave,
        cause: ReaderCause,
    ) -> Result<Down<'_>, DownBefore<'_>>
        ensures { IsMarkedAtEnd self.now cause result }
    {
        drop(leave);
        match self.mark(rt, DownCause::Reader(cause)) {
            Ok(down) => Ok(down),
            Err(down) => Err(DownBefore { down, cause }),
        }
    }

    /// Marks the line down because this wire is broken. Err where the line was down before.
    pub fn write_failed<W, R: Wait>(&self, rt: &R, _wire: &Wire<W>) -> Result<Down<'_>, Down<'_>>
        requires broken { is_broken _wire.now ≡ true }
        ensures down { IsMarked self.now Write result }
    {
        self.mark(rt, DownCause::Write)
    }
}

impl<'a> Down<'a> {
    /// Evidence of the same line has the same cause.
    pub fn agrees(&self, other: &Down<'a>)
        requires mark { AreOfOneMark self.now other.now }
        ensures cause { cause_of self.now ≡ cause_of other.now }
    {
        self.token.agrees(&other.token);
    }
}

impl<'a> DownBefore<'a> {
    /// Evidence that the line is down.
    pub fn down(&self) -> &Down<'a>
        ensures { result.now ≡ self.now.down }
    {
        &self.down
    }
}
