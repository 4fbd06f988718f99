//! A config that is read from its file, once.

ghost use Rattle.std.specs.Prelude.{IfErr, IfOk, string_bytes};
ghost use Rattle.sms_driver.specs.declared.start.StartPhase.TheVariants.{Idle};
ghost use Rattle.sms_send.specs.ConfigFiles.{FailsReadingConfig, IsConfigFile};
ghost use Rattle.sms_send.specs.Faults.{ComesAt};

use crate::faults::fault::Fault;
use crate::files::opened::{InputFiles, octets_of};
use crate::files::reading::parse_config;
use sms_files::Config;

/// The octets of a config's file, and what they say.
#[derive(Drop)]
pub struct ConfigFile {
    pub octets: Vec<u8>,
    pub config: Config,
}

/// Reads the config of this name. The whole of it is checked.
pub fn read_config<R: AllocGlobal + InputFiles>(rt: &R, name: String) -> Result<ConfigFile, Fault>
    ensures read { IfOk result (IsConfigFile (R.finds rt.now) (string_bytes name)) }
    ensures refused { IfErr result (FailsReadingConfig (R.finds rt.now) name) }
    // The fault is none of an output.
    ensures early { IfErr result (ComesAt Idle) }
{
    let octets = match octets_of(rt, name) {
        Ok(octets) => octets,
        Err(fault) => return Err(fault),
    };
    match parse_config(rt.alloc(), octets.as_slice()) {
        Ok(config) => Ok(ConfigFile { octets, config }),
        Err(fault) => Err(fault),
    }
}
