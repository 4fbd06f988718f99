//! The config: what its keys say, each with its value or its default; what the program takes from it before it
//! sends; and what is wrong with a key or a text.

use sms_message::Fields;
use sms_session::{Policy, Settings};

pub(crate) mod config_value;
mod limits;
pub(crate) mod reading;
mod run_rules;
mod script;
mod setup;
mod toml_flaw;
pub(crate) mod toml_value;

pub use config_value::ConfigValue;
pub use limits::Limits;
pub use reading::{config_in, config_of, table_of};
pub use run_rules::rules_of;
pub use setup::{Setup, setup_of};
pub use toml_flaw::TomlFlaw;

/// To whom the sender binds, and as whom (SMPP 3.4 4.1.1).
#[derive(Drop)]
pub struct Connection {
    /// The message centre's name or address.
    pub host: String,
    /// Its TCP port, 1 to 65,535.
    pub port: u32,
    /// What the bind says of the sender.
    pub settings: Settings,
}

/// How often a request is tried, and how long it waits.
#[derive(Clone, Copy, Debug, PartialEq, Eq)]
pub struct Retry {
    /// How often, and how long before the next time.
    pub policy: Policy,
    /// Milliseconds that a request waits for its answer, 1 to 600,000.
    pub answer_ms: u32,
}

/// What is on or off.
#[derive(Clone, Copy, Debug, PartialEq, Eq)]
pub struct Flags {
    /// Whether a delivery receipt is asked for.
    pub receipts: bool,
    /// Whether the references of concatenated messages have 16 bits.
    pub long_reference: bool,
    /// Whether the window follows throttling.
    pub follow: bool,
}

/// The names of the files that are read.
#[derive(Debug, Drop)]
pub struct FileNames {
    /// The accounts that pay.
    pub accounts: String,
    /// The messages to send.
    pub messages: String,
    /// What a segment costs; empty where there is no tariff.
    pub tariff: String,
}

/// What the test centre answers.
#[derive(Debug, Drop)]
pub struct Answers {
    /// The command_status of its answer to a bind.
    pub bind_status: u32,
    /// The texts of its script, one for each answer to a submit_sm.
    pub texts: Vec<String>,
}

/// What a config says.
#[derive(Drop)]
pub struct Config {
    /// To whom the sender binds, and as whom.
    pub connection: Connection,
    /// How many binds, workers, slots and open requests there are.
    pub limits: Limits,
    /// How often a request is tried, and how long it waits.
    pub retry: Retry,
    /// What is on or off.
    pub flags: Flags,
    /// The files that are read.
    pub files: FileNames,
    /// What the test centre answers.
    pub answers: Answers,
    /// What each submit_sm says beside its message: nothing, where a fields file doesn't say it.
    pub fields: Fields,
}

impl Config {
    ghost use Rattle.std.specs.Prelude.{◌≡◌};
    ghost use Rattle.sms_files.specs.SubmitFields.{with_fields as with_its_fields};

    /// The config with these fields in place of its own.
    pub fn with_fields(self, fields: Fields) -> Config
        ensures { result ≡ with_its_fields fields self }
    {
        let Config {
            connection,
            limits,
            retry,
            flags,
            files,
            answers,
            ..
        } = self;
        Config {
            connection,
            limits,
            retry,
            flags,
            files,
            answers,
            fields,
        }
    }
}
