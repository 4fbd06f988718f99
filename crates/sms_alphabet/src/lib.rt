//! The two alphabets that a short message is written in: the GSM 7 bit default alphabet with its
//! extension table, and UCS2 (3GPP TS 23.038 6.2.1, 6.2.1.1 and 6.2.3).
//!
//! [`choose`] spells a text in the default alphabet where each of its characters has a code there,
//! and in UCS2 otherwise. [`text_of`] reads a spelling back.

#![tactic(auto)]

mod alphabet;
mod coded;
pub mod laws;
mod reading;
mod spelling;
#[cfg(test)]
mod tests;
mod units;

pub use alphabet::ESCAPE;
pub use coded::{Coded, Coding};
pub use reading::{TextError, text_of};
pub use spelling::{choose, septets, ucs2};
pub use units::Units;
