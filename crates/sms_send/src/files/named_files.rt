//! The octets of the files that a config names.

ghost use Rattle.std.specs.Prelude.{◌≡◌, ◌⊎◌, IfErr, IfOk, IfSome, option_copied, option_map};
ghost use Rattle.sms_send.specs.Runs.{AreOpened, FailsReadingOpened, IsUnreadable};
ghost use Rattle.sms_send.specs.declared.faults.fault.Fault.TheVariants.{OutOfMemory};

use crate::faults::fault::Fault;
use crate::files::opened::{Unended, read_through};
use sms_files::Source;
use sms_pdu::{DeviceError, Tap};
use std::alloc::Global;
use std::io::Read;

/// The octets of the files that a config names; none of a tariff without a name.
#[derive(Drop)]
pub struct NamedFiles {
    pub accounts: Vec<u8>,
    pub messages: Vec<u8>,
    pub tariff: Option<Vec<u8>>,
}

impl NamedFiles {
    /// The octets of the tariff.
    pub fn tariff(&self) -> Option<&[u8]>
        ensures { option_copied result ≡ option_map (λ tariff. tariff.items) self.now.tariff }
    {
        match &self.tariff {
            Some(tariff) => Some(tariff.as_slice()),
            None => None,
        }
    }
}

/// Reads these files to their ends, in this order.
pub fn read_opened<F: Read + Drop>(
    alloc: Global,
    accounts: F,
    messages: F,
    tariff: Option<F>,
) -> Result<NamedFiles, Fault>
    ensures read { IfOk result (AreOpened (F.remaining accounts) (F.remaining messages) (option_map F.remaining tariff)) }
    ensures refused { IfErr result (FailsReadingOpened (option_map F.remaining tariff)) }
{
    let accounts = match whole_of(alloc, accounts, Source::Accounts) {
        Ok(octets) => octets,
        Err(fault) => return Err(fault),
    };
    let messages = match whole_of(alloc, messages, Source::Messages) {
        Ok(octets) => octets,
        Err(fault) => return Err(fault),
    };
    match tariff {
        Some(tariff) => match whole_of(alloc, tariff, Source::Tariff) {
            Ok(octets) => Ok(NamedFiles {
                accounts,
                messages,
                tariff: Some(octets),
            }),
            Err(fault) => Err(fault),
        },
        None => Ok(NamedFiles {
            accounts,
            messages,
            tariff: None,
        }),
    }
}

/// The octets of a file that was opened. That it can't be read is known by the errors that it answered.
pub fn whole_of<F: Read + Drop>(alloc: Global, file: F, source: Source) -> Result<Vec<u8>, Fault>
    ensures octets { IfOk result (λ octets. IfSome (F.remaining file) (λ bytes. octets.items ≡ bytes)) }
    ensures refused { IfErr result (λ fault. (fault ≡ OutOfMemory) ⊎ IsUnreadable source fault) }
{
    let mut device = Tap::new(file);
    match read_through(alloc, &mut device) {
        Ok(octets) => Ok(octets),
        Err(Unended::OutOfMemory) => Err(Fault::OutOfMemory),
        Err(Unended::Failed(_)) => match DeviceError::of(&device) {
            Some(error) => Err(Fault::Unreadable(source, error)),
            None => Err(Fault::OutOfMemory),
        },
    }
}
