//! The file of a sending's inbox.

ghost use Rattle.std.specs.Prelude.{◌≡◌, ◌⊎◌, IfErr, IfOk, OnOk, is_some, option_map};
ghost use Rattle.sms_driver.specs.declared.start.StartPhase.TheVariants.{Idle};
ghost use Rattle.sms_files.specs.declared.config.Config.{Config};
ghost use Rattle.sms_inbox.specs.Lines.{IsWholeLength, Spells};
ghost use Rattle.sms_send.specs.Delivered.{IsBadInbox};
ghost use Rattle.sms_send.specs.Faults.{ComesAt};
ghost use Rattle.sms_send.specs.InboxFiles.{IsInboxFault, LacksInbox, MayKeep, Receives, times_in};
ghost use Rattle.sms_send.specs.Opened.{OfFile};
ghost use Rattle.sms_send.specs.Words.{bytes_of};
ghost use Rattle.sms_send.specs.declared.faults.fault.Fault.TheVariants.{OutOfMemory};

use crate::args::send_args::{LineArgs, StayArgs};
use crate::faults::fault::Fault;
use crate::files::opened::{InputFiles, octets_of};
use sms_devices::{EnquireTimes, Inbox, JournalFiles, LineSettings, Stay, Unmade};
use sms_files::Config;
use sms_inbox::{Record, read_inbox, whole_len};
use sms_session::Mode;
use std::alloc::Global;
use std::fs::OpenFile;
use std::io::ErrorKind;

/// The fault where the file of this name can't be made.
fn unmade(alloc: Global, name: &str, why: Unmade) -> Fault
    ensures fault { (config : Config) → IsInboxFault config result }
    ensures early { ComesAt Idle result }
{
    let kind = kind_of(why);
    match String::from_str(alloc, name) {
        Ok(name) => Fault::Unmade(name, kind),
        Err(_memory) => Fault::OutOfMemory,
    }
}

fn kind_of(why: Unmade) -> ErrorKind {
    match why {
        Unmade::Held => ErrorKind::ResourceBusy,
        Unmade::Failed(kind) => kind,
    }
}

/// A file of this name without an octet: a new one, or one of a sending that ended before anything came.
fn empty_file<R: JournalFiles>(
    rt: &R,
    name: &str,
    is_synced: bool,
) -> Result<R::JournalFile, Unmade> {
    match rt.create_journal(name, is_synced) {
        Ok(file) => Ok(file),
        Err(Unmade::Failed(ErrorKind::AlreadyExists)) => {
            let file = rt.open_journal(name)?;
            match file.metadata() {
                Ok(found) if found.len() == 0 => Ok(file),
                _ => {
                    drop(file);
                    Err(Unmade::Failed(ErrorKind::InvalidData))
                }
            }
        }
        Err(why) => Err(why),
    }
}

/// The records that an inbox's octets spell.
pub fn records_of(alloc: Global, octets: &[u8]) -> Result<Vec<Record>, Fault>
    ensures read { IfOk result (λ records. Spells octets.now records.items) }
    ensures refused { IfErr result (λ fault. (fault ≡ OutOfMemory) ⊎ IsBadInbox fault octets.now) }
{
    match read_inbox(alloc, octets) {
        Ok(records) => Ok(records),
        Err(sms_inbox::Fault::Unreadable(place)) => Err(Fault::BadReceived(place)),
        Err(sms_inbox::Fault::OutOfMemory) => Err(Fault::OutOfMemory),
    }
}

/// How many octets of an inbox's are whole lines. What isn't an inbox is refused, so that nothing is written behind it.
fn whole_of(alloc: Global, octets: &[u8]) -> Result<usize, Fault>
    ensures whole { IfOk result (IsWholeLength octets.now) }
    ensures refused { IfErr result (λ fault. (config : Config) → IsInboxFault config fault) }
    ensures early { IfErr result (ComesAt Idle) }
{
    match records_of(alloc, octets) {
        Ok(records) => {
            drop(records);
            Ok(whole_len(octets))
        }
        Err(fault) => Err(fault),
    }
}

/// The same of the inbox of this name.
fn whole_at<R: AllocGlobal + InputFiles>(rt: &R, name: &str) -> Result<usize, Fault>
    ensures whole { IfOk result (λ whole. OfFile (R.finds rt.now) name.now (λ octets. IsWholeLength octets whole)) }
    ensures refused { IfErr result (λ fault. (config : Config) → IsInboxFault config fault) }
    ensures early { IfErr result (ComesAt Idle) }
{
    let text = match String::from_str(rt.alloc(), name) {
        Ok(text) => text,
        Err(_memory) => return Err(Fault::OutOfMemory),
    };
    match octets_of(rt, text) {
        Ok(octets) => whole_of(rt.alloc(), octets.as_slice()),
        Err(fault) => Err(fault),
    }
}

/// A new file of this name.
fn new_file<R: AllocGlobal + JournalFiles>(
    rt: &R,
    name: &str,
    is_synced: bool,
) -> Result<R::JournalFile, Fault>
    ensures refused { IfErr result (λ fault. (config : Config) → IsInboxFault config fault) }
    ensures early { IfErr result (ComesAt Idle) }
{
    match rt.create_journal(name, is_synced) {
        Ok(file) => Ok(file),
        Err(why) => Err(unmade(rt.alloc(), name, why)),
    }
}

/// The file of an inbox that goes on, whose last line, if it was truncated, is cut off; a new one where there is none.
fn file_going_on<R: AllocGlobal + JournalFiles + InputFiles>(
    rt: &R,
    name: &str,
    is_synced: bool,
) -> Result<R::JournalFile, Fault>
    ensures refused { IfErr result (λ fault. (config : Config) → IsInboxFault config fault) }
    ensures early { IfErr result (ComesAt Idle) }
{
    let file = match rt.open_journal(name) {
        Ok(file) => file,
        Err(Unmade::Failed(ErrorKind::NotFound)) => return new_file(rt, name, is_synced),
        Err(why) => return Err(unmade(rt.alloc(), name, why)),
    };
    let whole = match whole_at(rt, name) {
        Ok(whole) => whole,
        Err(fault) => {
            drop(file);
            return Err(fault);
        }
    };
    match file.set_len(whole as u64) {
        Ok(()) => Ok(file),
        Err(error) => {
            drop(file);
            Err(unmade(rt.alloc(), name, Unmade::Failed(error.kind())))
        }
    }
}

/// That deliver_sm come to the binds.
fn receiving(config: &Config) -> Result<(), Fault>
    ensures receives { OnOk result (Receives config.now) }
    ensures refused { IfErr result (IsInboxFault config.now) }
    ensures early { IfErr result (ComesAt Idle) }
{
    match config.connection.settings.mode() {
        Mode::Transceiver => Ok(()),
        Mode::Transmitter => Err(Fault::InboxMode),
    }
}

/// The inbox of a sending that begins, in a new file of this name.
fn new_at<R: AllocGlobal + JournalFiles>(
    rt: &R,
    name: &str,
    config: &Config,
    is_synced: bool,
    stay: Option<StayArgs>,
) -> Result<Inbox<R::JournalFile>, Fault>
    ensures receives { OnOk result (Receives config.now) }
    ensures refused { IfErr result (IsInboxFault config.now) }
    ensures early { IfErr result (ComesAt Idle) }
{
    match receiving(config) {
        Ok(()) => {}
        Err(fault) => return Err(fault),
    }
    match empty_file(rt, name, is_synced) {
        Ok(file) => Ok(Inbox::new(rt.alloc(), file, is_synced, stay_of(rt.alloc(), stay))),
        Err(why) => Err(unmade(rt.alloc(), name, why)),
    }
}

/// That of one that goes on, in the file of this name.
fn going_on_at<R: AllocGlobal + JournalFiles + InputFiles>(
    rt: &R,
    name: &str,
    config: &Config,
    is_synced: bool,
    stay: Option<StayArgs>,
) -> Result<Inbox<R::JournalFile>, Fault>
    ensures receives { OnOk result (Receives config.now) }
    ensures refused { IfErr result (IsInboxFault config.now) }
    ensures early { IfErr result (ComesAt Idle) }
{
    match receiving(config) {
        Ok(()) => {}
        Err(fault) => return Err(fault),
    }
    match file_going_on(rt, name, is_synced) {
        Ok(file) => Ok(Inbox::new(rt.alloc(), file, is_synced, stay_of(rt.alloc(), stay))),
        Err(fault) => Err(fault),
    }
}

/// The inbox of a sending that begins, if one is asked for, in a new file.
pub fn new_inbox<R: AllocGlobal + JournalFiles>(
    rt: &R,
    lines: &LineArgs,
    config: &Config,
    is_synced: bool,
) -> Result<Option<Inbox<R::JournalFile>>, Fault>
    ensures asked { IfOk result (λ inbox. is_some inbox ≡ is_some lines.now.inbox) }
    ensures receives { OnOk result (MayKeep (bytes_of lines.now.inbox) config.now) }
    ensures refused { IfErr result (LacksInbox (bytes_of lines.now.inbox) config.now) }
    ensures early { IfErr result (ComesAt Idle) }
{
    match &lines.inbox {
        Some(name) => match new_at(rt, name.as_str(), config, is_synced, lines.stay) {
            Ok(inbox) => Ok(Some(inbox)),
            Err(fault) => Err(fault),
        },
        None => Ok(None),
    }
}

/// The inbox of a sending that goes on, if one is asked for, in the file that is there or in a new one.
pub fn inbox_going_on<R: AllocGlobal + JournalFiles + InputFiles>(
    rt: &R,
    lines: &LineArgs,
    config: &Config,
    is_synced: bool,
) -> Result<Option<Inbox<R::JournalFile>>, Fault>
    ensures asked { IfOk result (λ inbox. is_some inbox ≡ is_some lines.now.inbox) }
    ensures receives { OnOk result (MayKeep (bytes_of lines.now.inbox) config.now) }
    ensures refused { IfErr result (LacksInbox (bytes_of lines.now.inbox) config.now) }
    ensures early { IfErr result (ComesAt Idle) }
{
    match &lines.inbox {
        Some(name) => match going_on_at(rt, name.as_str(), config, is_synced, lines.stay) {
            Ok(inbox) => Ok(Some(inbox)),
            Err(fault) => Err(fault),
        },
        None => Ok(None),
    }
}

/// What is waited for behind the last message, if anything is.
fn stay_of(alloc: Global, asked: Option<StayArgs>) -> Option<Stay>
    ensures { is_some result ≡ is_some asked }
{
    match asked {
        Some(stay) => Some(Stay::new(alloc, stay.ids, u64::from(stay.seconds) * 1_000)),
        None => None,
    }
}

/// When a line that idles is asked, which has as long to answer as a request.
fn times_of(enquire: Option<u32>, answer_ms: u32) -> Option<EnquireTimes>
    ensures { result ≡ option_map (times_in answer_ms) enquire }
{
    match enquire {
        Some(seconds) => Some(EnquireTimes {
            idle_ms: u64::from(seconds) * 1_000,
            answer_ms: u64::from(answer_ms),
        }),
        None => None,
    }
}

/// What the readers of a sending's binds have beside their connections: the inbox, and when a line that idles is asked.
pub fn line_settings<'j, F>(
    lines: &LineArgs,
    inbox: &'j Option<Inbox<F>>,
    answer_ms: u32,
) -> LineSettings<'j, F>
    ensures inbox { is_some result.inbox ≡ is_some inbox.now }
    ensures enquire { result.enquire ≡ option_map (times_in answer_ms) lines.now.enquire }
{
    LineSettings {
        inbox: inbox.as_ref(),
        enquire: times_of(lines.enquire, answer_ms),
    }
}
