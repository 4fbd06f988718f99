//! The command line: what it allows, and the job that it asks for.

pub mod command_line;
pub mod delivered_args;
pub mod job;
pub mod ledger_args;
mod ledger_commands;
pub mod ledger_run_args;
mod ledger_run_commands;
pub mod line_args;
mod line_commands;
pub mod pace;
pub mod parser_fault;
pub mod program_args;
pub mod run_args;
mod run_commands;
pub mod send_args;
pub mod values;
