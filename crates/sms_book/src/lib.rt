//! Prepaid accounts whose rows balance at any moment, for any number of threads.
//!
//! `open_book` makes a `Blank`, and `Blank::open` the book under its lock, the cashier's till and a
//! share for each worker. Each worker reserves, charges and gives back through its own share;
//! `gather` takes every share back and tells the rows. A book that `Blank::open_sealed` opens is
//! never topped up. A `Tariff` says what a segment costs, by the prefix of its destination.

#![tactic(auto)]

mod amounts;
mod blank;
mod book;
mod error;
mod gathering;
pub mod laws;
mod limits;
mod money;
mod name;
mod named;
mod opening;
mod rate;
mod room;
mod rule;
mod share;
mod statement;
mod steps;
mod tariff;
mod till;

pub use amounts::Amounts;
pub use blank::Blank;
pub use book::Book;
pub use error::{BookError, GatherFault, TariffError};
pub use gathering::gather;
pub use limits::MOST_WORKERS;
pub use name::BookName;
pub use opening::{Opening, open_book};
pub use rate::Rate;
pub use share::Shares;
pub use statement::Statement;
pub use tariff::{Tariff, without_plus};
pub use till::{Sealed, Sealing, Till, Unsealed};
