//! Why an input can't be used.

use crate::config::{ConfigValue, TomlFlaw};
use crate::memory::NoMemory;
use crate::tables::RecordFlaw;
use sms_pdu::DeviceError;
use std::fmt;

/// What is read.
#[derive(Clone, Copy, Debug, PartialEq, Eq)]
pub enum Source {
    /// The events to replay.
    Schedule,
    /// The messages to send.
    Messages,
    /// The accounts that pay for them.
    Accounts,
    /// What a segment costs.
    Tariff,
}

impl Source {
    ghost use Rattle.std.specs.Prelude.{◌≡◌};
    ghost use Rattle.sms_files.specs.Faults.{source_name};

    /// What the source is called.
    pub fn name(self) -> &'static str
        ensures { result.now ≡ source_name self }
    {
        match self {
            Source::Schedule => "schedule",
            Source::Messages => "messages",
            Source::Accounts => "accounts",
            Source::Tariff => "tariff",
        }
    }
}

impl fmt::Display for Source {
    ghost use Rattle.std.specs.Prelude.{Some};
    ghost use Rattle.sms_files.specs.Faults.{source_name};

    ghost output = { λ source. Some (source_name source) };

    fn fmt<W: fmt::Write>(&self, f: &mut fmt::Formatter<W>) -> fmt::Result {
        f.write_str(self.name())
    }
}

/// Why what is read can't be used. Where there are several faults it is the first.
#[derive(Debug, Drop, thiserror::Error)]
pub enum InputFault {
    /// A file was opened, but its device answered an error.
    #[error("file {0}")]
    Unreadable(Source, DeviceError),
    /// This record of a file, counted from 1, may not stand there, and why.
    #[error("{0} record {1}")]
    BadRecord(Source, usize, RecordFlaw),
    /// The config isn't TOML.
    #[error("config")]
    NotToml(TomlFlaw),
    /// The config has this value at this key, which isn't a good one, or may not have the key.
    #[error("config {0}")]
    BadKey(String, ConfigValue),
    /// Memory was refused.
    #[error("out of memory")]
    OutOfMemory(NoMemory),
}

impl From<NoMemory> for InputFault {
    ghost use Rattle.std.specs.Prelude.{◌≡◌};
    ghost use Rattle.sms_files.specs.declared.fault.InputFault.TheVariants.{OutOfMemory};

    ghost from_gives = { λ _ f. f ≡ OutOfMemory tt };

    fn from(no: NoMemory) -> InputFault {
        InputFault::OutOfMemory(no)
    }
}
