//! Why a call of a book is refused.

/// Why a book isn't opened, or a call on it changes nothing.
#[derive(Clone, Copy, Debug, PartialEq, Eq, thiserror::Error)]
pub enum BookError {
    /// There are not 1 to 64 accounts, or not 1 to 32 workers.
    #[error("a book has 1 to 64 accounts and 1 to 32 workers")]
    BadCount,
    /// Two accounts, by their places, have one name.
    #[error("accounts {first} and {second} have the same name")]
    Duplicate { first: usize, second: usize },
    /// An account would be topped up with more than 2^40 credits, or have more than 2^60 reserved
    /// and returned.
    #[error("the amount is too large")]
    AmountTooLarge,
    /// The account has fewer free credits than the call needs.
    #[error("{free} credits are free, and {needed} are needed")]
    NoCredit { free: u64, needed: u64 },
    /// There is no account at this place.
    #[error("there is no such account")]
    NoAccount,
    #[error("out of memory")]
    OutOfMemory,
}

/// Why shares aren't gathered.
#[derive(Clone, Copy, Debug, PartialEq, Eq, thiserror::Error)]
pub enum GatherFault {
    /// The list isn't the share of each worker of this book.
    #[error("a worker's share is missing")]
    MissingShare,
    /// Memory was refused. No call answers this, since the book's own rows become the statement.
    #[error("out of memory")]
    OutOfMemory,
}

/// Why rates are no tariff.
#[derive(Clone, Copy, Debug, PartialEq, Eq, thiserror::Error)]
pub enum TariffError {
    /// There are more than 1,000 rates.
    #[error("a tariff has at most 1000 rates")]
    TooMany,
    /// The prefix of the rate at this place isn't 0 to 20 digits.
    #[error("the prefix of rate {place} is not 0 to 20 digits")]
    BadPrefix { place: usize },
    /// The credits of the rate at this place aren't 1 to 1,000.
    #[error("the credits of rate {place} are not 1 to 1000")]
    BadCredits { place: usize },
    /// Two rates, by their places, have one prefix.
    #[error("rates {first} and {second} have the same prefix")]
    Duplicate { first: usize, second: usize },
    #[error("out of memory")]
    OutOfMemory,
}
