//! The steps of a worker's turn.

pub mod answered;
pub mod attempt;
pub mod begin;
pub mod call_end;
pub mod expiry;
pub mod give_up;
pub mod parts;
pub mod replies;
pub mod retry_later;
pub mod ring;
pub mod settling;
pub mod starting;
pub mod timestamp;
pub mod turn;
pub mod turns;
pub mod waits;
