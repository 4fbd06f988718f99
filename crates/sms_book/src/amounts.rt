//! What one worker has of an account.

/// What a worker's share has of one account, in credits: reserved and not yet settled, charged, and
/// given back.
#[derive(Clone, Copy, Debug, PartialEq, Eq)]
pub struct Amounts {
    pub reserved: u64,
    pub charged: u64,
    pub returned: u64,
}
