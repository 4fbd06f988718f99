//! What the program prints: the report of a sending with its statement, the plan of a messages file,
//! the replay of a schedule, and the lines for a person: how far a sending is, and what it came
//! to. The first three are formed whole before `write_out` lets them go out. With the report goes the
//! exit status.

mod fault;
pub mod laws;
mod output;
mod plan;
pub mod quote;
mod replay;
mod report;
mod status;
mod summary;
mod tally;
mod unwritten;
mod whole;

pub use fault::OutputFault;
pub use output::write_out;
pub use plan::plan_text;
pub use quote::{Quote, Verdict, quote_text, warnings_text};
pub use replay::replay_text;
pub use report::{
    begin_report, needs_quotes, report_text, write_answer, write_field, write_head, write_refused,
    write_report_of, write_rows_report, write_statement,
};
pub use status::exit_status_of;
pub use summary::{Credits, EndLine, Summary, summary_of};
pub use tally::{Tally, WayLine, tally_of};
pub use unwritten::Unwritten;
pub use whole::are_whole;
