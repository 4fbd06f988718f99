//! How many octets may wait for a connection until they are written.

ghost use Rattle.std.specs.Prelude.{◌≡◌};
ghost use Rattle.sms_devices.specs.Rooms.{room_before};

use crate::journal::WaitsFor;

/// How many octets wait at most.
#[derive(Clone, Copy, Debug, PartialEq, Eq)]
pub(crate) struct Room {
    /// After a long pause.
    pub(crate) first: usize,
    /// Whenever else.
    pub(crate) most: usize,
}

/// Some six requests, so that the message centre can start on the first requests of a burst while the rest is
/// being made.
const FIRST: usize = 1_024;

/// Some fifty requests. With less room there are more system calls. With more room the answers to a turn's requests
/// come in bursts, and the connection idles between them.
const MOST: usize = 8_192;

/// Some hundred and fifty requests, more than most windows let out: a disk takes longer than any answer.
const MOST_BEFORE_A_DISK: usize = 32_768;

/// The room for what waits. With a journal it is the same at all times: as few writes as possible are made, since
/// each of them waits.
pub(crate) fn room_before(write: WaitsFor) -> Room
    ensures { result ≡ room_before write }
{
    match write {
        WaitsFor::Nothing => Room {
            first: FIRST,
            most: MOST,
        },
        WaitsFor::File => Room {
            first: MOST,
            most: MOST,
        },
        WaitsFor::Disk => Room {
            first: MOST_BEFORE_A_DISK,
            most: MOST_BEFORE_A_DISK,
        },
    }
}
