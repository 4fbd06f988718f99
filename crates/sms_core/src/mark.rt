//! What a held slot is used for.

/// What a slot that somebody holds is used for.
#[derive(Clone, Copy, Debug, PartialEq, Eq)]
pub enum Mark {
    /// Nothing is sent through it.
    Empty,
    /// The request was sent with this sequence number and has no answer.
    Open {
        request: u32,
        number: u32,
    },
    /// The request has an answer, which nobody has taken yet.
    Replied {
        request: u32,
        number: u32,
        status: u32,
        nack: bool,
    },
}
