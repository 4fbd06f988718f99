//! All that the sender reads before it sends: the config, the accounts, the messages and the tariff.

ghost use Rattle.std.specs.Prelude.{◌≡◌, IfErr, IfOk, option_map};
ghost use Rattle.sms_message.specs.Fields.{HasNoFields};
ghost use Rattle.sms_files.specs.Inputs.{HasFiles, IsFaultOfFiles, IsInput, IsTariffOf, TellsInput, TellsTariffOf};

use crate::config::{Config, config_of};
use crate::fault::InputFault;
use crate::tables::{read_accounts, read_messages, read_tariff, tariff_of};
use sms_book::{Opening, Tariff};
use sms_message::Message;
use std::alloc::Global;
use std::io::Read;

/// What is to be sent, for whom and how. `read_input` and `read_files` alone make one.
#[derive(Drop)]
pub struct Input {
    config: Config,
    openings: Vec<Opening>,
    messages: Vec<Message>,
    tariff: Tariff,
}

impl Input {
    /// How it is sent.
    pub fn config(&self) -> &Config
        ensures { result.now ≡ self.now.config }
    {
        &self.config
    }

    /// The accounts that pay.
    pub fn openings(&self) -> &[Opening]
        ensures { result.now ≡ self.now.openings.items }
    {
        self.openings.as_slice()
    }

    /// The messages that are sent.
    pub fn messages(&self) -> &[Message]
        ensures { result.now ≡ self.now.messages.items }
    {
        self.messages.as_slice()
    }

    /// What a segment costs.
    pub fn tariff(&self) -> &Tariff
        ensures { result.now ≡ self.now.tariff }
    {
        &self.tariff
    }

    /// The parts: config, accounts, messages and tariff.
    pub fn into_parts(self) -> (Config, Vec<Opening>, Vec<Message>, Tariff)
        ensures config { result.0 ≡ self.config }
        ensures openings { result.1 ≡ self.openings }
        ensures messages { result.2 ≡ self.messages }
        ensures tariff { result.3 ≡ self.tariff }
    {
        let Input {
            config,
            openings,
            messages,
            tariff,
        } = self;
        (config, openings, messages, tariff)
    }
}

/// Reads the config's octets and then the files, in this order. Of several faults the first is returned:
/// `NotToml` or `BadKey` of the config, and of a file `BadRecord` of its first faulty record, or
/// `Unreadable` where its reader fails. Without a tariff file there are no rates.
pub fn read_input<A: Read + Drop, M: Read + Drop, T: Read + Drop>(
    alloc: Global,
    config: &[u8],
    accounts: A,
    messages: M,
    tariff: Option<T>,
) -> Result<Input, InputFault>
    ensures read { IfOk result (IsInput config.now (A.remaining accounts) (M.remaining messages) (option_map T.remaining tariff)) }
    // No fields are asked for.
    ensures no_fields { IfOk result (λ input. HasNoFields input.config.fields) }

    // A fault is of the first that has one.
    ensures refused { IfErr result (TellsInput config.now (A.remaining accounts) (M.remaining messages) (option_map T.remaining tariff)) }
{
    match config_of(alloc, config) {
        Ok(config) => read_files(alloc, config, accounts, messages, tariff),
        Err(fault) => Err(fault),
    }
}

/// Reads the files of a sending with this config, in this order. Of several faults the first is returned:
/// `BadRecord` of a file's first faulty record, or `Unreadable` where its reader fails. Without a tariff
/// file there are no rates.
pub fn read_files<A: Read + Drop, M: Read + Drop, T: Read + Drop>(
    alloc: Global,
    config: Config,
    accounts: A,
    messages: M,
    tariff: Option<T>,
) -> Result<Input, InputFault>
    ensures config { IfOk result (λ input. input.config ≡ config) }
    ensures read { IfOk result (HasFiles (A.remaining accounts) (M.remaining messages) (option_map T.remaining tariff)) }

    // A fault is of the first that has one.
    ensures refused { IfErr result (IsFaultOfFiles (A.remaining accounts) (M.remaining messages) (option_map T.remaining tariff)) }
{
    let openings = match read_accounts(alloc, accounts) {
        Ok(openings) => openings,
        Err(fault) => return Err(fault),
    };
    let messages = match read_messages(alloc, messages, openings.as_slice()) {
        Ok(messages) => messages,
        Err(fault) => return Err(fault),
    };
    let tariff = match tariff_in(alloc, tariff) {
        Ok(tariff) => tariff,
        Err(fault) => return Err(fault),
    };
    Ok(Input {
        config,
        openings,
        messages,
        tariff,
    })
}

/// The tariff of the file, and one without rates where there is none.
fn tariff_in<T: Read + Drop>(alloc: Global, file: Option<T>) -> Result<Tariff, InputFault>
    ensures tariff { IfOk result (IsTariffOf (option_map T.remaining file)) }
    ensures refused { IfErr result (TellsTariffOf (option_map T.remaining file)) }
{
    match file {
        Some(file) => read_tariff(alloc, file),
        None => tariff_of(alloc, &[]),
    }
}
