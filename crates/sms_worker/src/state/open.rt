//! Requests that wait for their answers.

use crate::steps::timestamp::Timestamp;

/// Where a segment stands among the ends.
#[derive(Clone, Copy, Debug, PartialEq, Eq)]
pub struct SegmentPlace {
    pub message: usize,
    pub part: usize,
}

/// An attempt that was sent and has no answer yet.
#[derive(Clone, Copy, Debug, PartialEq, Eq)]
pub struct Open {
    pub number: u32,
    pub slot: u32,
    pub place: SegmentPlace,
    /// When it was sent.
    pub since: Timestamp,
}
