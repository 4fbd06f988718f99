//! What the program reads: the config and the fields (TOML), the accounts, the messages and the tariff (CSV)
//! of a sending, and the schedule (CSV) of a replay. Each is read and checked before anything is sent. An
//! `InputFault` names the first record or key that can't be used, in the order in which they stand.

#![tactic(auto)]

mod config;
mod fault;
mod fields;
mod flaw;
mod input;
pub mod laws;
pub mod memory;
pub mod refs;
pub mod report;
mod tables;

pub use config::{
    Answers, Config, ConfigValue, Connection, FileNames, Flags, Limits, Retry, Setup, TomlFlaw,
    config_in, config_of, rules_of, setup_of, table_of,
};
pub use fault::{InputFault, Source};
pub use fields::fields_of;
pub use flaw::Flaw;
pub use input::{Input, read_files, read_input};
pub use report::{
    Credits, EndLine, OutputFault, Quote, Summary, Tally, Unwritten, Verdict, WayLine, are_whole,
    begin_report, exit_status_of, needs_quotes, plan_text, quote_text, replay_text, report_text,
    summary_of, tally_of, warnings_text, write_answer, write_field, write_head, write_out,
    write_refused, write_report_of, write_rows_report, write_statement,
};
pub use tables::{
    MessageText, RecordFlaw, Schedule, check_quotes, ends_quoted, read_accounts, read_messages,
    read_schedule, read_texts,
};
