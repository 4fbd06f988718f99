//! The files that the program reads, by their names.

pub mod config_file;
pub mod fields_file;
pub mod headed;
pub mod inbox_file;
pub mod named_files;
pub mod open_input;
pub mod opened;
pub mod plain_files;
mod plain_runtime;
pub mod reading;
pub mod refs;
pub mod run_files;
pub mod sending_input;
