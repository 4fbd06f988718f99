//! The limits of the product that more than one module or crate heeds, each named once. The
//! definitions have numbers of their own (`specs/Limits`), and contracts compare these with them.

/// How many accounts there are at the most.
pub const MOST_ACCOUNTS: u32 = 64;
/// How many slots a window has at the most.
pub const MOST_SLOTS: u32 = 64;
/// How often a request is sent at the most.
pub const MOST_ATTEMPTS: u32 = 10;
/// The most credits that an account can be topped up with in all: 2^40.
pub const MOST_TOPPED: u64 = 0x100_0000_0000;
/// The most credits that one request may cost.
pub const LARGEST_COST: u32 = 1_000;
/// The greatest sequence number (SMPP 3.4, 5.1.4).
pub const TOP_NUMBER: u32 = 0x7FFF_FFFF;
