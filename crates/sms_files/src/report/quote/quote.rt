//! What a message is quoted as.

/// Whether a message would be sent. The checks are a worker's, in its order.
#[derive(Clone, Copy, Debug, PartialEq, Eq)]
pub enum Verdict {
    /// It would be sent.
    Passes,
    /// No account has its name.
    NoAccount,
    /// Its source or its destination is no address.
    BadAddress,
    /// No header can count its parts.
    TooLong,
    /// What is left of its account's credits is less than it costs.
    NoCredit,
}

/// A message's verdict, and its parts and their cost in credits: 0 of a message that isn't cut.
#[derive(Clone, Copy, Debug, PartialEq, Eq)]
pub struct Quote {
    pub verdict: Verdict,
    pub parts: u64,
    pub cost: u64,
}
