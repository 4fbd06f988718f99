//! The faults that end the program, and the detail lines behind them.

pub mod argument_error;
pub mod context;
pub mod details;
pub mod exposed;
pub mod fault;
pub mod full_names;
pub mod inbox;
pub mod ledger_run;
pub mod report;
pub mod unconnected;
pub mod unsent;
