//! What the program `sms-send` does: the jobs that its arguments ask for, over the files, the streams and the
//! connections of the system or of a test, with their faults and exit statuses.

#![tactic(auto)]

mod args;
mod faults;
mod files;
mod jobs;
pub mod laws;
mod program;
mod sending;
mod terminal;

pub use args::delivered_args::DeliveredArgs;
pub use args::job::{Job, job_of};
pub use args::ledger_args::TopUpArgs;
pub use args::ledger_run_args::{DecideArgs, SettleArgs};
pub use args::program_args::ProgramWords;
pub use args::send_args::{
    Again, AuditArgs, JournalFile, LineArgs, ListArgs, RecoverArgs, RestArgs, ResumeArgs, SendArgs,
    StayArgs, Throttle,
};
pub use faults::argument_error::{ArgumentError, NumberOption};
pub use faults::context::{Address, FaultContext, JobContext, JobKind, JobNames};
pub use faults::details::files_read::FilesRead;
pub use faults::details::mode::is_open_to_others;
pub use faults::exposed::FileModes;
pub use faults::fault::Fault;
pub use faults::full_names::{FullNames, files_told};
pub use faults::ledger_run::{LedgerRunFlaw, Unsettled};
pub use faults::report::FaultReport;
pub use files::opened::InputFiles;
pub use files::reading::setup_of;
pub use jobs::plan::run_plan;
pub use jobs::quote_job::run_quote;
pub use jobs::replay::run_replay;
pub use jobs::send_job::run_sender;
pub use program::{Untold, do_job, run, status_after, tell};
pub use sending::status::status_of;
pub use sending::target::TargetKind;
pub use sms_journal::Listing;
pub use terminal::standard_error::{StandardError, TakesLines};
