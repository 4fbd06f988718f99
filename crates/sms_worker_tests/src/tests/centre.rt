//! A message centre in memory: what a worker writes goes through a ring of octets to it, and a reader
//! of the bind reads what it answers.

ghost use Rattle.std.specs.Prelude.{◌≡◌, None};

use super::SILENT;
use super::beside::LineOf;
use rtrb::{Consumer, Producer, RingBuffer};
use sms_bind::{BlankLog, Bound, Line, LogName, ReaderEnd, ReaderLeave, Wire, read_loop};
use sms_pdu::{
    BIND_TRANSCEIVER_RESP, Framer, Frames, GENERIC_NACK, Header, Mode, Reply, SUBMIT_SM_RESP, Tap,
    header_of,
};
use sms_session::Opened;
use sms_slot::SlotRow;
use sms_window::{Window, WindowSeat};
use std::alloc::Global;
use std::io::{Error, ErrorKind, Read, Write};
use std::sync::Wait;
use std::{io, thread};

/// The way to the centre. It takes octets while there is room.
#[derive(Drop)]
pub struct Way {
    pub octets: Producer<u8>,
}

impl Write for Way {
    fn write(&mut self, buf: &[u8]) -> io::Result<usize> {
        for i in 0..buf.len() {
            if self.octets.push(buf[i]).is_err() {
                if i == 0 {
                    return Err(Error::from(ErrorKind::WouldBlock));
                }
                return Ok(i);
            }
        }
        Ok(buf.len())
    }

    fn flush(&mut self) -> io::Result<()> {
        Ok(())
    }
}

/// A line of this log of wires, whose writer is the way to the centre, with what two workers sent on it; its
/// reader's leave, and the other end of that way.
pub fn line_to_centre<N: LogName>(
    alloc: Global,
    wires: BlankLog,
) -> Option<(LineOf<N, Way>, ReaderLeave, Consumer<u8>)>
    requires { (wires ≡ N.log) × (N.settings ≡ None) }
{
    let Ok(mut keeper) = wires.open::<N>(alloc) else {
        return None;
    };
    let Ok((octets, asked)) = RingBuffer::new(alloc, 8192) else {
        return None;
    };
    let Ok(wire) = keeper.wire(Wire::new(Tap::new(Way { octets }))) else {
        return None;
    };
    let Ok(slots) = SlotRow::new(alloc) else {
        return None;
    };
    let (line, leave) = Line::new(slots, wire);
    let one = keeper.thread();
    let other = keeper.thread();
    Some(((line, one, other), leave, asked))
}

/// The centre, as a reader. A read gives one octet of the answer to the request that came last; where
/// that is said, it takes the next request.
#[derive(Drop)]
pub struct Centre {
    requests: Consumer<u8>,
    /// The statuses of its answers in turn, and then the last one again.
    statuses: Vec<u32>,
    /// How many octets it says before it hangs up, and whether a read fails then.
    left: u64,
    fails: bool,
    /// The head of the request that comes, and how many of its octets came.
    head: [u8; 16],
    came: usize,
    answer: [u8; 17],
    said: usize,
    requested: usize,
}

impl Centre {
    pub fn new(requests: Consumer<u8>, statuses: Vec<u32>, left: u64, fails: bool) -> Centre {
        Centre {
            requests,
            statuses,
            left,
            fails,
            head: [0; 16],
            came: 0,
            answer: [0; 17],
            said: 17,
            requested: 0,
        }
    }

    // Takes what came of the next request. Its header, where it is whole.
    fn take_request(&mut self) -> Option<Header> {
        for _ in 0u32..70_000 {
            let octet = self.requests.pop().ok()?;
            if self.came < 16 {
                self.head[self.came] = octet;
            }
            self.came = self.came.saturating_add(1);
            let header = header_of(&self.head)?;
            if self.came >= 16 && self.came >= header.length as usize {
                self.came = 0;
                return Some(header);
            }
        }
        None
    }

    // The answer to the next request is to be said, if it has one.
    fn answer_next(&mut self) -> Option<()> {
        let header = self.take_request()?;
        let status = status_of(self.statuses.as_slice(), self.requested)?;
        self.requested = self.requested.saturating_add(1);
        if status == SILENT {
            return None;
        }
        self.answer = answer_of(status, header.number);
        self.said = 0;
        Some(())
    }

    // The next octet that it says.
    fn next_octet(&mut self) -> Option<u8> {
        if self.said >= 17 {
            self.answer_next()?;
        }
        let octet = *self.answer.get(self.said)?;
        self.said = self.said.saturating_add(1);
        Some(octet)
    }
}

/// The status of the answer to request `place`: they come in turn, and then the last one again.
pub fn status_of(statuses: &[u32], place: usize) -> Option<u32> {
    let place = place.min(statuses.len().saturating_sub(1));
    statuses.get(place).copied()
}

/// A submit_sm_resp without a message_id.
pub fn answer_of(status: u32, number: u32) -> [u8; 17] {
    let c = SUBMIT_SM_RESP.to_be_bytes();
    let s = status.to_be_bytes();
    let n = number.to_be_bytes();
    [
        0, 0, 0, 17, c[0], c[1], c[2], c[3], s[0], s[1], s[2], s[3], n[0], n[1], n[2], n[3], 0,
    ]
}

/// A generic_nack with status 0.
pub fn nack_of(number: u32) -> [u8; 16] {
    let c = GENERIC_NACK.to_be_bytes();
    let n = number.to_be_bytes();
    [
        0, 0, 0, 16, c[0], c[1], c[2], c[3], 0, 0, 0, 0, n[0], n[1], n[2], n[3],
    ]
}

impl Read for Centre {
    fn read(&mut self, buf: &mut [u8]) -> io::Result<usize> {
        if buf.is_empty() {
            return Ok(0);
        }
        if self.left == 0 {
            if self.fails {
                return Err(Error::from(ErrorKind::ConnectionReset));
            }
            return Ok(0);
        }
        let Some(octet) = self.next_octet() else {
            thread::yield_now();
            return Err(Error::from(ErrorKind::WouldBlock));
        };
        self.left = self.left.saturating_sub(1);
        buf[0] = octet;
        Ok(1)
    }
}

// A session that was just bound, and nothing read beyond the answer.
fn bound(alloc: Global) -> Option<Bound> {
    let header = Header {
        length: 16,
        command: BIND_TRANSCEIVER_RESP,
        status: 0,
        number: 1,
    };
    let Ok(session) = Opened::new(Mode::Transceiver).bound(&header) else {
        return None;
    };
    Some(Bound {
        session,
        framer: Framer::new(alloc),
        frames: Frames::none(alloc),
    })
}

/// Reads what the centre says until the line is stopped or the input ends. None for lack of memory.
pub fn reads<N: LogName, S: Wait>(
    rt: &S,
    alloc: Global,
    centre: Centre,
    producers: Vec<Producer<Reply>>,
    line: &Line<N, Way>,
    window: &Window,
    seat: WindowSeat,
    leave: ReaderLeave,
) -> Option<ReaderEnd>
    requires same_window { seat.window ≡ window.now }
{
    let bound = bound(alloc)?;
    let mut reader = Tap::new(centre);
    let (end, _down) = read_loop(
        rt,
        alloc,
        &mut reader,
        bound,
        producers,
        line,
        window,
        seat,
        leave,
        None,
        1 << 40,
    );
    Some(end)
}
