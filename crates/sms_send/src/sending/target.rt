//! The message centre of a sending.

ghost use Rattle.std.specs.Prelude.{◌≡◌, ◌≤◌, IfErr, IfOk, map, string_bytes};
ghost use Rattle.sms_send.specs.Noted.{kind_of};
ghost use Rattle.sms_send.specs.Reached.{centre_in, centre_of};
ghost use Rattle.sms_send.specs.declared.faults.fault.Fault.TheVariants.{OutOfMemory};

use crate::faults::fault::Fault;
use sms_files::Config;
use sms_journal::JournalKind;
use std::alloc::Global;

/// Which message centre the messages go to.
#[derive(Clone, Copy, Debug, PartialEq, Eq)]
pub enum TargetKind {
    /// A test centre in this process.
    Loopback,
    /// The one at the config's host and port.
    Remote,
}

/// The message centre that the messages go to.
#[derive(Debug, Drop)]
pub enum Target {
    /// A test centre in this process: the command_status with which it answers a bind, and the texts of its
    /// script, one for each answer to a submit_sm.
    Loopback(u32, Vec<String>),
    /// The one at this host and port.
    Remote(String, u16),
}

/// A copy of texts.
fn copy_of(alloc: Global, texts: &[String]) -> Result<Vec<String>, Fault>
    ensures copy { IfOk result (λ copy. map string_bytes copy.items ≡ map string_bytes texts.now) }
    ensures refused { IfErr result (λ fault. fault ≡ OutOfMemory) }
{
    let mut copy = Vec::new(alloc);
    for text in texts {
        copy.push(String::from_str(alloc, text.as_str())?)?;
    }
    Ok(copy)
}

impl Target {
    /// The centre of this kind by a config.
    pub fn new(alloc: Global, kind: TargetKind, config: &Config) -> Result<Target, Fault>
        requires port { config.now.connection.port ≤ 65535 }
        ensures centre { IfOk result (λ target. centre_of target ≡ centre_in kind config.now) }
        ensures refused { IfErr result (λ fault. fault ≡ OutOfMemory) }
    {
        match kind {
            TargetKind::Loopback => match copy_of(alloc, config.answers.texts.as_slice()) {
                Ok(answers) => Ok(Target::Loopback(config.answers.bind_status, answers)),
                Err(fault) => Err(fault),
            },
            TargetKind::Remote => match String::from_str(alloc, config.connection.host.as_str()) {
                Ok(host) => Ok(Target::Remote(host, config.connection.port as u16)),
                Err(_) => Err(Fault::OutOfMemory),
            },
        }
    }

    /// What a journal of a sending to it is of.
    pub fn journal_kind(&self) -> JournalKind
        ensures { result ≡ kind_of self.now }
    {
        match self {
            Target::Loopback(_, _) => JournalKind::Trial,
            Target::Remote(_, _) => JournalKind::Run,
        }
    }
}
