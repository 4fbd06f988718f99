//! The detail lines of each fault.

use crate::faults::context::{JobContext, JobKind, text_of};
use crate::faults::details::arguments::write_argument_error;
use crate::faults::details::bind::{
    connection_text, failure_text, write_bind_failure, write_status,
};
use crate::faults::details::file::{
    making_text, opening_text, reading_text, write_named_file, write_other_file,
    write_unread_source,
};
use crate::faults::details::journal::{write_unbegun, write_unnoted, write_unprinted};
use crate::faults::details::key::{CONFIG_KEYS, FIELD_KEYS, write_key, write_toml_flaw};
use crate::faults::details::ledger::write_ledger_lines;
use crate::faults::details::record::{write_note, write_record, write_report_record};
use crate::faults::fault::Fault;
use crate::faults::full_names::FullNames;
use crate::faults::ledger_run::LedgerRunFlaw;
use std::alloc::AllocError;

/// What an inbox needs of the config.
const INBOX_MODE: &str = "--inbox needs mode = \"transceiver\": a transmitter is sent no receipts";

/// The detail line of a fault that always has the same one; empty where it has another. It takes no memory.
pub(crate) fn fixed_text(fault: &Fault) -> &'static str {
    match fault {
        Fault::JournalHeld => "its run is still going on",
        Fault::JournalFree => "no run is going on with it",
        Fault::Overdrawn => "it takes more of an account than that has",
        Fault::LongSchedule => "the run has more than 1000000 events, the most that replay takes",
        Fault::Trial => "--trial prints its report",
        Fault::LedgerRun(LedgerRunFlaw::NoLedger) => {
            "its accounts are those of an accounts file, and not of a ledger"
        }
        Fault::LedgerRun(LedgerRunFlaw::OfLedger) => {
            "its accounts are those of a ledger: --ledger has to name that"
        }
        Fault::LedgerRun(LedgerRunFlaw::NotOut) => {
            "what it took of the ledger isn't out with it: it is settled, or took nothing"
        }
        Fault::OtherAttempts => "attempts in the config is not what this run was begun with",
        Fault::OtherReference => "long_reference in the config is not what this run was begun with",
        Fault::OutOfMemory => "memory or a thread was refused; nothing was sent",
        Fault::Unreported(_) => "memory or a thread was refused; messages may have been sent",
        _ => "",
    }
}

/// Whether the file of this name is the journal of a run that is to go on. It is read and written on.
fn is_resumed(job: &JobContext, name: &str) -> bool {
    match text_of(&job.names.journal) {
        Some(journal) => job.kind == JobKind::Resume && journal == name,
        None => false,
    }
}

/// Writes the detail lines of a fault of a job, without a line end behind the last.
pub(crate) fn write_lines<R: AllocGlobal + FullNames>(
    rt: &R,
    text: &mut String,
    fault: &Fault,
    job: &JobContext,
) -> Result<(), AllocError> {
    match fault {
        Fault::Words(error) => write_argument_error(text, error),
        Fault::File(name, kind) => {
            let why = opening_text(is_resumed(job, name.as_str()), *kind);
            write_named_file(rt, text, name.as_str(), why)
        }
        Fault::UnreadFile(name, _, kind) => {
            write_named_file(rt, text, name.as_str(), reading_text(*kind))
        }
        Fault::Unreadable(source, _) => write_unread_source(text, &job.names, *source),
        Fault::BadRecord(source, place, record) => {
            write_record(text, &job.names, *source, *place, record)
        }
        Fault::NotToml(flaw) => write_toml_flaw(text, &job.names.config, flaw),
        Fault::BadKey(key, value) => write_key(text, &CONFIG_KEYS, key.as_str(), value),
        Fault::NotFields(flaw) => write_toml_flaw(text, &job.names.fields, flaw),
        Fault::BadField(key, value) => write_key(text, &FIELD_KEYS, key.as_str(), value),
        Fault::BindRefused(_, status) => write_status(text, *status),
        Fault::BindFailed(_, why) => write_bind_failure(text, &job.centre, failure_text(*why)),
        Fault::Unconnected(reason) => {
            write_bind_failure(text, &job.centre, connection_text(reason.why))
        }
        Fault::BadNote(place) => write_note(text, &job.names.journal, *place),
        Fault::BadReport(place) => write_report_record(text, &job.names.report, *place),
        Fault::InboxMode => text.push_str(INBOX_MODE),
        Fault::BadReceived(_) => text.push_str("it isn't as a record of an inbox is written"),
        Fault::Unmade(_, kind) => text.push_str(making_text(*kind)),
        Fault::Unbegun(why) => write_unbegun(text, job, *why),
        Fault::Journal(why) => write_unnoted(text, job, *why),
        Fault::OtherFile(name) => write_other_file(text, name.as_str()),
        Fault::Output(_) => write_unprinted(text, job),
        _ => write_ledger_lines(text, &job.names, fault),
    }
}
