//! The pure model of a windowed, prepaid sender: events on accounts, requests and slots, and the
//! world that they change.
//!
//! Every crate above cites the definitions of this one's `specs/`: hold sets, drawn numbers,
//! account sums, the row law, marks, and the world's step.

#![tactic(auto)]

mod decimal;
mod event;
pub mod laws;
mod ledger;
mod limits;
mod mark;
mod reply;
mod request;
mod requests;
mod row;
mod slots;
mod status;
mod tables;
#[cfg(test)]
mod tests;
mod world;

pub use decimal::decimal_of;
pub use event::{Cause, Event, Step};
pub use limits::{LARGEST_COST, MOST_ACCOUNTS, MOST_ATTEMPTS, MOST_SLOTS, MOST_TOPPED, TOP_NUMBER};
pub use mark::Mark;
pub use reply::{is_charge, is_retry};
pub use request::{Phase, Request, RequestState};
pub use row::Row;
pub use status::{
    ESME_RALYBND, ESME_RBINDFAIL, ESME_RINVBNDSTS, ESME_RINVCMDID, ESME_RINVCMDLEN,
    ESME_RINVDSTADR, ESME_RINVPASWD, ESME_RINVSYSID, ESME_RMSGQFUL, ESME_ROK, ESME_RSUBMITFAIL,
    ESME_RSYSERR, ESME_RTHROTTLED, statuses_are_named,
};
pub use world::{CoreError, World};
