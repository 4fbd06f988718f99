//! What a bind has for its threads and for the driver.

use crate::binding::following::Following;
use crate::ending::unbind_result::UnbindResult;
use rtrb::{Consumer, Producer};
use sms_bind::{Bound, Line, LogName, ReaderLeave, Requests};
use sms_pdu::{Reply, Tap};
use sms_window::{Window, WindowSeat};
use std::io::Write;

/// What the threads of a bind share.
#[derive(Drop)]
pub struct SharedBind<N: LogName, W: Write> {
    pub line: Line<N, W>,
    pub window: Window,
}

/// A worker's place at a bind: its seat at the window, and its end of a ring.
#[derive(Drop)]
pub struct WorkerSeat {
    pub seat: WindowSeat,
    pub consumer: Consumer<Reply>,
}

/// What the threads of a bind are given: the reader gets the keeper's seat, its ends of the rings and the
/// permission to mark the line down, each worker its place.
#[derive(Drop)]
pub struct BindParts<Rd> {
    pub keeper: WindowSeat,
    pub workers: Vec<WorkerSeat>,
    pub producers: Vec<Producer<Reply>>,
    pub reader: Tap<Rd>,
    pub bound: Bound,
    pub follow: Following,
    /// The number of the bind's request, by which the line is asked.
    pub number: u32,
    pub leave: ReaderLeave,
}

/// The driver's own seat at a bind, and the result of its unbind.
#[derive(Drop)]
pub struct DriverSeat<N: LogName> {
    pub seat: WindowSeat,
    /// The requests that the driver gave to the bind's wire: its unbind.
    pub requests: Requests<N>,
    pub unbind_result: UnbindResult,
}

/// All binds, each at its place in each list: what its threads share, what they are given, and the
/// driver's own seat.
#[derive(Drop)]
pub struct Binds<N: LogName, Rd, W: Write> {
    pub shared_binds: Vec<SharedBind<N, W>>,
    pub bind_parts: Vec<BindParts<Rd>>,
    pub driver_seats: Vec<DriverSeat<N>>,
}
