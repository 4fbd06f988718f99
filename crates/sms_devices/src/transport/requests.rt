//! How many requests of a bind may have gone out, and how many of them are answered.

use crate::limits::HEADER_OCTETS;
use sms_pdu::{SUBMIT_SM, frame_header};
use std::sync::atomic::{AtomicU64, Ordering};

/// The requests of a bind. A request counts as gone out as soon as one octet of it may have.
#[derive(Drop)]
pub(crate) struct Requests {
    /// How many were put into the outbox.
    put: AtomicU64,
    /// How many of these may have gone out.
    gone: AtomicU64,
    /// How many were answered.
    answered: AtomicU64,
}

impl Requests {
    /// No requests.
    pub(crate) fn new() -> Requests {
        Requests {
            put: AtomicU64::new(0),
            gone: AtomicU64::new(0),
            answered: AtomicU64::new(0),
        }
    }

    /// A frame was put into the outbox, in which `before` octets waited before that and `after` now.
    pub(crate) fn put(&self, frame: &[u8], before: usize, after: usize) {
        let earlier = self.put.load(Ordering::SeqCst);
        let put = earlier.saturating_add(u64::from(is_request(frame)));
        self.put.store(put, Ordering::SeqCst);
        if after == before.saturating_add(frame.len()) {
            return;
        }
        if after == frame.len() {
            self.gone.store(earlier, Ordering::SeqCst);
        } else {
            self.gone.store(put, Ordering::SeqCst);
        }
    }

    /// Nothing was put into the outbox, and what waited may have gone out.
    pub(crate) fn flush(&self, before: usize, after: usize) {
        if after != before {
            self.gone
                .store(self.put.load(Ordering::SeqCst), Ordering::SeqCst);
        }
    }

    /// One of them was answered.
    pub(crate) fn answer(&self) {
        self.answered.fetch_add(1, Ordering::SeqCst);
    }

    /// The bind is made anew: no request is counted yet.
    pub(crate) fn renew(&self) {
        self.put.store(0, Ordering::SeqCst);
        self.gone.store(0, Ordering::SeqCst);
        self.answered.store(0, Ordering::SeqCst);
    }

    /// Whether every request is answered that may have gone out.
    pub(crate) fn are_answered(&self) -> bool {
        self.answered.load(Ordering::SeqCst) >= self.gone.load(Ordering::SeqCst)
    }
}

/// Whether the frame is a submit_sm, which is answered (SMPP 3.4 4.4).
fn is_request(frame: &[u8]) -> bool {
    frame.len() >= HEADER_OCTETS as usize && frame_header(frame).command == SUBMIT_SM
}
