//! Why no window is made.

/// Why no window is made.
#[derive(Clone, Copy, Debug, PartialEq, Eq, thiserror::Error)]
pub enum WindowError {
    /// The limit isn't 1 to 64.
    #[error("the window's limit is not 1 to 64")]
    BadLimit,
    /// The first number isn't 1 to 0x7FFFFFFF, the sequence numbers of SMPP 3.4 5.1.4.
    #[error("the first sequence number is not 1 to 0x7FFFFFFF")]
    BadFirst,
    #[error("out of memory")]
    OutOfMemory,
}
