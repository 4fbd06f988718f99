//! The faults that end the program, each with its first line and its exit status.

ghost use Rattle.std.specs.Fmt.{WritesOnOk};
ghost use Rattle.std.specs.Prelude.{◌≡◌, ◌++◌, codes, decimal};
ghost use Rattle.sms_send.specs.Faults.{fault_of_others};
ghost use Rattle.sms_send.specs.Shown.{shown};

use crate::faults::argument_error::ArgumentError;
use crate::faults::details::shown::write_shown;
use crate::faults::ledger_run::{LedgerRunFlaw, Unsettled};
use sms_devices::{JournalFailure, LedgerFailure, Reason};
use sms_driver::{BindFailure, SendFault};
use sms_files::memory::NoMemory;
use sms_files::{ConfigValue, InputFault, OutputFault, RecordFlaw, Source, TomlFlaw, Unwritten};
use sms_journal::{AuditFault, RecoveryFault, RunFile};
use sms_ledger::Refusal;
use sms_pdu::DeviceError;
use std::alloc::{AllocError, AllocFailed};
use std::fmt;
use std::io::ErrorKind;
use thiserror::Error;

/// Why the program ends before its work is done. Its text is the line by which the program
/// reports it, and stands in [`Display`](fmt::Display) below, so that it is proved.
#[derive(Debug, Drop, Error)]
pub enum Fault {
    /// The arguments are refused, and this is why.
    Words(ArgumentError),
    /// Help was asked for, and this is the parser's text.
    Help(String),
    /// The version was asked for, and this is the parser's text.
    Version(String),
    /// The file of this name can't be opened: the system refused it with an error of this kind.
    File(String, ErrorKind),
    /// The file of this name was opened, and can't be read: that answered an error, of this kind.
    UnreadFile(String, DeviceError, ErrorKind),
    /// A file was opened, but its device answered an error.
    Unreadable(Source, DeviceError),
    /// This record of a file, counted from 1, may not stand there, and this is why.
    BadRecord(Source, usize, RecordFlaw),
    /// The config isn't TOML, and this is why.
    NotToml(TomlFlaw),
    /// The config has this value at this key, which isn't a good one, or may not have the key.
    BadKey(String, ConfigValue),
    /// The fields file isn't TOML, and this is why.
    NotFields(TomlFlaw),
    /// The fields file has this value at this key, which isn't a good one, or may not have the key.
    BadField(String, ConfigValue),
    /// The bind of this number, counted from 0, was refused with this command_status.
    BindRefused(u32, u32),
    /// The bind of this number failed otherwise, or there was no connection.
    BindFailed(u32, BindFailure),
    /// There was no connection for a bind, and this is why.
    Unconnected(Reason),
    /// The record of a journal, counted from 1, isn't one that may stand there.
    BadNote(usize),
    /// The record of a report, counted from 1, isn't one that may stand there.
    BadReport(usize),
    /// The record of an inbox, counted from 1, isn't as one is written.
    BadReceived(usize),
    /// An inbox is asked for, and the binds are of a mode in which no deliver_sm comes.
    InboxMode,
    /// The journal of this name can't be made: the system refused it with an error of this kind.
    Unmade(String, ErrorKind),
    /// A process holds the journal: its run is still going on.
    JournalHeld,
    /// No process was found that holds the journal: there is no run to stop.
    JournalFree,
    /// The first line of a new journal can't be written, and this is why. Nothing was sent.
    Unbegun(JournalFailure),
    /// The journal could not be written on, and this is why. All else was done.
    Journal(JournalFailure),
    /// What a journal notes takes more of an account than that has.
    Overdrawn,
    /// The journal is of a trial, which isn't asked for.
    Trial,
    /// The file of this name isn't the one that the journal is of.
    OtherFile(String),
    /// The config's `attempts` is another than the one that the journal says.
    OtherAttempts,
    /// The config's `long_reference` is another than the one that the journal says.
    OtherReference,
    /// The schedule of a run has more events than `replay` takes.
    LongSchedule,
    /// The ledger of this name can't be opened or made: the system refused it with an error of this kind.
    LedgerFile(String, ErrorKind),
    /// A ledger's file can't be used, and this is why.
    Ledger(LedgerFailure),
    /// The record of a ledger, counted from 1, isn't as an entry is written, or its entry can't follow for this cause.
    BadEntry(usize, Option<Refusal>),
    /// A ledger refuses the payment for this cause.
    Payment(Refusal),
    /// A ledger refuses an entry of a run for this cause.
    Booking(Refusal),
    /// The record of a decisions file, counted from 1, decides of no part that is in doubt.
    BadDecision(usize),
    /// The run isn't one of the ledger that is asked for, and this is why.
    LedgerRun(LedgerRunFlaw),
    /// The run's statement could not be booked behind its report, and this is why. All else was done.
    Unsettled(Unsettled),
    /// What is to be printed can't be written.
    Output(Unwritten),
    /// Memory was refused, or a thread, and nothing was sent.
    OutOfMemory,
    /// Memory was refused for the report of a sending, once its messages had ended, so there is none. This is the
    /// evidence of that.
    Unreported(NoMemory),
}

impl fmt::Display for Fault {
    ghost use Rattle.std.specs.Prelude.{Some};
    ghost use Rattle.sms_send.specs.Faults.{fault_text};

    ghost output = { λ fault. Some (fault_text fault) };

    fn fmt<W: fmt::Write>(&self, f: &mut fmt::Formatter<W>) -> fmt::Result {
        match self {
            Fault::Words(_) => f.write_str("fault: words"),
            Fault::Help(text) | Fault::Version(text) => f.write_str(text.as_str()),
            Fault::File(name, _)
            | Fault::UnreadFile(name, _, _)
            | Fault::Unmade(name, _)
            | Fault::LedgerFile(name, _) => write_named(f, "fault: file ", name.as_str()),
            Fault::Unreadable(source, _) => write_source(f, source.name()),
            Fault::BadRecord(source, place, _) => write_record(f, source.name(), *place),
            Fault::NotToml(_) => f.write_str("fault: config"),
            Fault::BadKey(key, _) => write_named(f, "fault: config ", key.as_str()),
            Fault::NotFields(_) => f.write_str("fault: fields"),
            Fault::BadField(key, _) => write_named(f, "fault: fields ", key.as_str()),
            Fault::BindRefused(bind, status) => write_refused(f, *bind, *status),
            Fault::BindFailed(bind, _) => write_failed(f, *bind),
            Fault::Unconnected(reason) => write_failed(f, reason.bind),
            Fault::BadNote(place) => write_record(f, "journal", *place),
            Fault::BadReport(place) => write_record(f, "report", *place),
            Fault::BadReceived(place) => write_record(f, "inbox", *place),
            Fault::InboxMode => f.write_str("fault: config mode"),
            Fault::LongSchedule => f.write_str("fault: schedule"),
            Fault::JournalHeld | Fault::JournalFree => f.write_str("fault: journal"),
            Fault::Unbegun(_) | Fault::Journal(_) => f.write_str("fault: journal"),
            Fault::Overdrawn => f.write_str("fault: journal"),
            Fault::Trial => write_trial(f),
            Fault::OtherFile(_) | Fault::OtherAttempts | Fault::OtherReference => {
                f.write_str("fault: journal record 1")
            }
            Fault::Ledger(_) => f.write_str("fault: ledger"),
            Fault::BadEntry(place, _) => write_record(f, "ledger", *place),
            Fault::Payment(_) => f.write_str("fault: payment"),
            Fault::Booking(_) => f.write_str("fault: booking"),
            Fault::BadDecision(place) => write_record(f, "decisions", *place),
            Fault::LedgerRun(_) => f.write_str("fault: ledger run"),
            Fault::Unsettled(_) => f.write_str("fault: unsettled"),
            Fault::Output(_) => f.write_str("fault: output"),
            Fault::OutOfMemory | Fault::Unreported(_) => f.write_str("fault: out of memory"),
        }
    }
}

/// Writes the line of what has this name.
fn write_named<W: fmt::Write>(f: &mut fmt::Formatter<W>, what: &str, name: &str) -> fmt::Result
    ensures { WritesOnOk W.write_str_gives f.old result (what.now ++ shown name.now) f.new }
{
    f.write_str(what)?;
    write_shown(f, name)
}

/// The line of a journal of a trial.
fn write_trial<W: fmt::Write>(f: &mut fmt::Formatter<W>) -> fmt::Result
    ensures { WritesOnOk W.write_str_gives f.old result (codes "fault: journal of a trial: no message centre saw any of it") f.new }
{
    f.write_str("fault: journal of a trial: no message centre saw any of it")
}

/// The line of what can't be read, by the name of its source.
fn write_source<W: fmt::Write>(f: &mut fmt::Formatter<W>, source: &str) -> fmt::Result
    ensures { WritesOnOk W.write_str_gives f.old result (codes "fault: file " ++ source.now) f.new }
{
    write!(f, "fault: file {source}")
}

/// The line of a record, by the name of its source.
fn write_record<W: fmt::Write>(f: &mut fmt::Formatter<W>, source: &str, place: usize) -> fmt::Result
    ensures { WritesOnOk W.write_str_gives f.old result (codes "fault: " ++ source.now ++ codes " record " ++ decimal place) f.new }
{
    write!(f, "fault: {source} record {place}")
}

/// The line of a bind that was refused.
fn write_refused<W: fmt::Write>(f: &mut fmt::Formatter<W>, bind: u32, status: u32) -> fmt::Result
    ensures { WritesOnOk W.write_str_gives f.old result (codes "fault: bind " ++ decimal bind ++ codes " refused " ++ decimal status) f.new }
{
    write!(f, "fault: bind {bind} refused {status}")
}

/// The line of a bind that failed otherwise.
fn write_failed<W: fmt::Write>(f: &mut fmt::Formatter<W>, bind: u32) -> fmt::Result
    ensures { WritesOnOk W.write_str_gives f.old result (codes "fault: bind " ++ decimal bind ++ codes " failed") f.new }
{
    write!(f, "fault: bind {bind} failed")
}

impl Fault {
    ghost use Rattle.sms_send.specs.Faults.{status_of};

    /// The program's exit status.
    pub fn exit_status(&self) -> u8
        ensures { result ≡ status_of self.now }
    {
        match self {
            Fault::Words(_) => 2,
            Fault::Help(_) | Fault::Version(_) => 0,
            Fault::BindRefused(_, _) | Fault::BindFailed(_, _) | Fault::Unconnected(_) => 3,
            _ => 1,
        }
    }
}

impl From<AllocError> for Fault {
    ghost use Rattle.sms_send.specs.declared.faults.fault.Fault.TheVariants.{OutOfMemory};

    ghost from_gives = { λ _ f. f ≡ OutOfMemory };

    fn from(_e: AllocError) -> Fault {
        Fault::OutOfMemory
    }
}

impl<T: Drop> From<AllocFailed<T>> for Fault {
    ghost use Rattle.sms_send.specs.declared.faults.fault.Fault.TheVariants.{OutOfMemory};

    ghost from_gives = { λ _ f. f ≡ OutOfMemory };

    fn from(_e: AllocFailed<T>) -> Fault {
        Fault::OutOfMemory
    }
}

impl From<NoMemory> for Fault {
    ghost use Rattle.sms_send.specs.declared.faults.fault.Fault.TheVariants.{OutOfMemory};

    ghost from_gives = { λ _ f. f ≡ OutOfMemory };

    fn from(_refused: NoMemory) -> Fault {
        Fault::OutOfMemory
    }
}

impl From<InputFault> for Fault {
    ghost use Rattle.sms_send.specs.Faults.{fault_of_input};

    ghost from_gives = { λ fault f. f ≡ fault_of_input fault };

    fn from(fault: InputFault) -> Fault {
        match fault {
            InputFault::Unreadable(source, error) => Fault::Unreadable(source, error),
            InputFault::BadRecord(source, place, flaw) => Fault::BadRecord(source, place, flaw),
            InputFault::NotToml(flaw) => Fault::NotToml(flaw),
            InputFault::BadKey(key, value) => Fault::BadKey(key, value),
            InputFault::OutOfMemory(_) => Fault::OutOfMemory,
        }
    }
}

impl From<SendFault> for Fault {
    ghost use Rattle.sms_send.specs.Faults.{fault_of_sending};

    ghost from_gives = { λ fault f. f ≡ fault_of_sending fault };

    fn from(fault: SendFault) -> Fault {
        match fault {
            SendFault::BindRefused(bind, status) => Fault::BindRefused(bind, status),
            SendFault::BindFailed(bind, why) => Fault::BindFailed(bind, why),
            SendFault::BookRefused(_) => Fault::OutOfMemory,
            SendFault::ThreadRefused | SendFault::OutOfMemory => Fault::OutOfMemory,
        }
    }
}

impl From<OutputFault> for Fault {
    ghost use Rattle.sms_send.specs.Faults.{fault_of_output};

    ghost from_gives = { λ fault f. f ≡ fault_of_output fault };

    fn from(fault: OutputFault) -> Fault {
        match fault {
            OutputFault::Output(unwritten) => Fault::Output(unwritten),
            OutputFault::OutOfMemory(_) => Fault::OutOfMemory,
        }
    }
}

/// The fault of a journal of others, of which this is the first that differs, where a file has no name.
fn of_other_files(what: RunFile) -> Fault
    ensures { result ≡ fault_of_others what }
{
    match what {
        RunFile::Attempts => Fault::OtherAttempts,
        RunFile::LongReference => Fault::OtherReference,
        RunFile::Config | RunFile::Accounts | RunFile::Messages | RunFile::Tariff => {
            Fault::BadNote(1)
        }
    }
}

impl From<RecoveryFault> for Fault {
    ghost use Rattle.sms_send.specs.Faults.{fault_of_recovery};

    ghost from_gives = { λ fault f. f ≡ fault_of_recovery fault };

    fn from(fault: RecoveryFault) -> Fault {
        match fault {
            RecoveryFault::Input(fault) => Fault::from(fault),
            RecoveryFault::Journal(place) => Fault::BadNote(place),
            RecoveryFault::OtherFiles(what) => of_other_files(what),
            RecoveryFault::Trial => Fault::Trial,
            RecoveryFault::Overdrawn => Fault::Overdrawn,
            RecoveryFault::Report(place) => Fault::BadReport(place),
            RecoveryFault::Output(unwritten) => Fault::Output(unwritten),
            RecoveryFault::OutOfMemory(_) => Fault::OutOfMemory,
        }
    }
}

impl From<AuditFault> for Fault {
    ghost use Rattle.sms_send.specs.Faults.{fault_of_audit};

    ghost from_gives = { λ fault f. f ≡ fault_of_audit fault };

    fn from(fault: AuditFault) -> Fault {
        match fault {
            AuditFault::Run(fault) => Fault::from(fault),
            AuditFault::TooLong => Fault::LongSchedule,
        }
    }
}

impl From<sms_ledger::Fault> for Fault {
    ghost use Rattle.sms_send.specs.Faults.{fault_of_ledger};

    ghost from_gives = { λ fault f. f ≡ fault_of_ledger fault };

    fn from(fault: sms_ledger::Fault) -> Fault {
        match fault {
            sms_ledger::Fault::Unreadable(place) => Fault::BadEntry(place, None),
            sms_ledger::Fault::Refused(place, cause) => Fault::BadEntry(place, Some(cause)),
            sms_ledger::Fault::Memory(_) => Fault::OutOfMemory,
        }
    }
}

impl From<Refusal> for Fault {
    ghost use Rattle.sms_send.specs.Faults.{fault_of_payment};

    ghost from_gives = { λ refusal f. f ≡ fault_of_payment refusal };

    fn from(refusal: Refusal) -> Fault {
        match refusal {
            Refusal::OutOfMemory(_) => Fault::OutOfMemory,
            cause => Fault::Payment(cause),
        }
    }
}
