//! Memory for what a sending ends with.

ghost use Rattle.std.specs.Prelude.{IfOk};
ghost use Rattle.sms_driver.specs.Buffers.{ArePartsFor, AreBuffersFor};

use crate::bind_end::BindEnd;
use crate::ending::ring_ends::RingEnds;
use rtrb::Consumer;
use sms_book::{BookName, Shares};
use sms_pdu::Reply;
use sms_window::WindowSeat;
use sms_worker::{ClosedBy, MessageEnd, Reasons};
use std::alloc::{AllocError, Global};
use std::collections::VecDeque;

/// What workers give back, in one list for each part.
#[derive(Drop)]
pub(crate) struct Parts<N: BookName> {
    pub shares: Vec<Shares<N>>,
    pub ends: Vec<VecDeque<MessageEnd>>,
    pub seats: Vec<WindowSeat>,
    pub consumers: Vec<Consumer<Reply>>,
    pub causes: Vec<Option<ClosedBy>>,
    pub reasons: Vec<Reasons>,
}

impl<N: BookName> Parts<N> {
    /// Empty lists, with room for this many workers.
    fn for_workers(alloc: Global, workers: usize) -> Result<Parts<N>, AllocError>
        ensures { IfOk result (ArePartsFor workers) }
    {
        Ok(Parts {
            shares: Vec::with_capacity(alloc, workers)?,
            ends: Vec::with_capacity(alloc, workers)?,
            seats: Vec::with_capacity(alloc, workers)?,
            consumers: Vec::with_capacity(alloc, workers)?,
            causes: Vec::with_capacity(alloc, workers)?,
            reasons: Vec::with_capacity(alloc, workers)?,
        })
    }
}

/// Memory for what a sending ends with. It is taken before the first bind: after messages may have been
/// sent, no end is lost because memory runs out.
#[derive(Drop)]
pub(crate) struct Buffers<N: BookName> {
    pub parts: Parts<N>,
    pub ring_ends: RingEnds,
    pub bind_ends: Vec<BindEnd>,
    pub message_ends: Vec<MessageEnd>,
}

impl<N: BookName> Buffers<N> {
    /// For this many messages, workers in all, and binds.
    pub(crate) fn new(
        alloc: Global,
        messages: usize,
        workers: usize,
        binds: usize,
    ) -> Result<Buffers<N>, AllocError>
        ensures { IfOk result (AreBuffersFor messages workers binds) }
    {
        Ok(Buffers {
            parts: Parts::for_workers(alloc, workers)?,
            ring_ends: RingEnds {
                producers: Vec::with_capacity(alloc, workers)?,
                readers: Vec::with_capacity(alloc, binds)?,
            },
            bind_ends: Vec::with_capacity(alloc, binds)?,
            message_ends: Vec::with_capacity(alloc, messages)?,
        })
    }
}
