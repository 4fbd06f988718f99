//! What the program needs of the config before it sends: the files to open, and where to connect.

ghost use Rattle.std.specs.Prelude.{◌≡◌, IfErr, IfOk};
ghost use Rattle.sms_files.specs.ConfigFaults.{IsConfig, TellsConfig};
ghost use Rattle.sms_files.specs.declared.config.Config.{Config as ConfigRecord};
ghost use Rattle.sms_files.specs.Setups.{setup_in};

use crate::config::{Config, FileNames, config_of};
use crate::fault::InputFault;
use std::alloc::Global;

/// The names of the files to open, and what the program connects to or answers by itself.
#[derive(Debug, Drop)]
pub struct Setup {
    /// The names of the files to open.
    pub files: FileNames,
    /// The message centre's name or address.
    pub host: String,
    /// Its TCP port, 1 to 65,535.
    pub port: u32,
    /// The command_status with which the test centre answers a bind.
    pub bind_status: u32,
    /// The texts of the test centre's script, one for each answer to a submit_sm.
    pub answers: Vec<String>,
}

/// What these octets of a config name. The whole config is checked: `NotToml` where it isn't TOML,
/// and else `BadKey` of its first faulty key.
pub fn setup_of(alloc: Global, config: &[u8]) -> Result<Setup, InputFault>
    ensures setup { IfOk result (λ setup. (c : ConfigRecord) × IsConfig config.now c × (setup ≡ setup_in c)) }
    ensures refused { IfErr result (TellsConfig config.now) }
{
    match config_of(alloc, config) {
        Ok(config) => Ok(setup_in(config)),
        Err(fault) => Err(fault),
    }
}

/// The parts of a config that the program needs.
fn setup_in(config: Config) -> Setup
    ensures { result ≡ setup_in config }
{
    let Config {
        connection,
        files,
        answers,
        ..
    } = config;
    Setup {
        files,
        host: connection.host,
        port: connection.port,
        bind_status: answers.bind_status,
        answers: answers.texts,
    }
}
