//! The messages that a run did not send, by its report: a messages file and an accounts file for another
//! run. Each is formed whole before its first octet is written.

mod account_rows;
pub mod laws;
mod left;
mod plan;
mod printing;
mod records;
mod report_line;
mod run;
mod stage;

pub(crate) use account_rows::rows_of;
pub(crate) use plan::{Plan, plans_of};
pub(crate) use printing::{behind_first, push_field, push_field_at, push_next, push_number};
pub(crate) use records::{read_all, records_in};
pub(crate) use report_line::{Ending, Line, is_accounts_header, is_field, line_of};
pub use run::{run_rest, run_rest_accounts};
pub(crate) use stage::check_report;
