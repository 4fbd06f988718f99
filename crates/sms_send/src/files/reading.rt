//! A config, and the files of a sending beside it, with their faults as the program reports them.

ghost use Rattle.std.specs.Prelude.{◌≡◌, IfErr, IfOk, option_map};
ghost use Rattle.sms_files.specs.ConfigFaults.{IsConfig, TellsConfig};
ghost use Rattle.sms_files.specs.Inputs.{IsFaultOfFiles, IsInput, TellsInput};
ghost use Rattle.sms_files.specs.Setups.{setup_in};
ghost use Rattle.sms_message.specs.Fields.{HasNoFields};
ghost use Rattle.sms_files.specs.declared.config.Config.{Config as ConfigRecord};
ghost use Rattle.sms_send.specs.Faults.{IsReadFault};
ghost use Rattle.sms_send.specs.Reading.{IsInputBy};

use crate::faults::fault::Fault;
use sms_files::{Config, Input, Setup};
use std::alloc::Global;
use std::io::Read;

/// What the program needs of a config before it sends. The whole of its octets is checked.
pub fn setup_of(alloc: Global, config: &[u8]) -> Result<Setup, Fault>
    ensures setup { IfOk result (λ setup. (c : ConfigRecord) × IsConfig config.now c × (setup ≡ setup_in c)) }
    ensures refused { IfErr result (IsReadFault (TellsConfig config.now)) }
{
    match sms_files::setup_of(alloc, config) {
        Ok(setup) => Ok(setup),
        Err(fault) => Err(Fault::from(fault)),
    }
}

/// What a config of these octets says. All of it is checked.
pub fn parse_config(alloc: Global, octets: &[u8]) -> Result<Config, Fault>
    ensures config { IfOk result (IsConfig octets.now) }
    ensures refused { IfErr result (IsReadFault (TellsConfig octets.now)) }
{
    match sms_files::config_of(alloc, octets) {
        Ok(config) => Ok(config),
        Err(fault) => Err(Fault::from(fault)),
    }
}

/// Reads the files of a sending with this config: accounts, messages, tariff. The first fault is returned.
/// Without a tariff file there are no rates.
pub fn read_files<A: Read + Drop, M: Read + Drop, T: Read + Drop>(
    alloc: Global,
    config: Config,
    accounts: A,
    messages: M,
    tariff: Option<T>,
) -> Result<Input, Fault>
    ensures read { IfOk result (IsInputBy config (A.remaining accounts) (M.remaining messages) (option_map T.remaining tariff)) }
    ensures refused { IfErr result (IsReadFault (IsFaultOfFiles (A.remaining accounts) (M.remaining messages) (option_map T.remaining tariff))) }
{
    match sms_files::read_files(alloc, config, accounts, messages, tariff) {
        Ok(input) => Ok(input),
        Err(fault) => Err(Fault::from(fault)),
    }
}

/// Reads the config's octets and then the files, in this order; the first fault is returned. Without a
/// tariff file there are no rates.
pub fn read_input<A: Read + Drop, M: Read + Drop, T: Read + Drop>(
    alloc: Global,
    config: &[u8],
    accounts: A,
    messages: M,
    tariff: Option<T>,
) -> Result<Input, Fault>
    ensures read { IfOk result (IsInput config.now (A.remaining accounts) (M.remaining messages) (option_map T.remaining tariff)) }
    // No fields are asked for.
    ensures no_fields { IfOk result (λ input. HasNoFields input.config.fields) }

    // A fault is of the first that has one.
    ensures refused { IfErr result (IsReadFault (TellsInput config.now (A.remaining accounts) (M.remaining messages) (option_map T.remaining tariff))) }
{
    match sms_files::read_input(alloc, config, accounts, messages, tariff) {
        Ok(input) => Ok(input),
        Err(fault) => Err(Fault::from(fault)),
    }
}
