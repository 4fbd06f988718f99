//! The jobs of the subcommands.

pub mod audit_job;
mod booking;
mod charged;
pub mod decide_job;
pub mod delivered_job;
mod ledger_end;
pub mod ledger_job;
mod ledger_kind;
pub mod ledger_resume;
mod ledger_run;
pub mod ledger_send;
pub mod list_job;
pub mod plan;
pub mod plan_job;
pub mod quote_job;
pub mod recover_job;
pub mod replay;
pub mod resume_job;
pub mod send_job;
pub mod settle_job;
pub mod stop_job;
