//! The limits that are a book's own. The definitions have numbers of their own (`specs/Limits`), and
//! contracts compare these with them; what other crates heed too is `sms_core`'s.

/// The most workers that a book has shares for.
pub const MOST_WORKERS: usize = 32;
/// The most credits of an account that are returned and reserved together: 2^60.
pub const MOST_RETURNED: u64 = 1 << 60;
/// The most rates that a tariff has.
pub const MOST_RATES: usize = 1_000;
/// The most digits that the prefix of a rate has.
pub const MOST_DIGITS: usize = 20;
