//! What the journal of a run says of it, so that the run may go on.

ghost use Rattle.std.specs.Prelude.{◌≡◌, ℕ, IfErr, IfOk, List, OnOk, option_copied, true};
ghost use Rattle.sms_files.specs.Quoting.{EndsQuoted};
ghost use Rattle.sms_message.specs.declared.message.Message.{Message as TheMessage};
ghost use Rattle.sms_journal.specs.Resuming.{AreWhole, IsFaultOfRun, IsOpenQuote, IsNotedRun, IsFaultOfNotedRun, IsRunOfJournal, number_by as round_by, run_with_fields};
ghost use Rattle.sms_journal.specs.Rounds.{first_round, going_after};
ghost use Rattle.sms_journal.specs.declared.notes.run_size.RunSize.{RunSize as TheRunSize};

use crate::notes::{Note, round_in};
use crate::recovery::fault::RecoveryFault;
use crate::recovery::journaled::reported;
use crate::recovery::reading::{RunRead, read_beside};
use crate::recovery::recovering::{notes_in, size_by};
use crate::text::{Digests, JournalKind, JournalNotes};
use sms_book::{Opening, Tariff};
use sms_core::Row;
use sms_files::{Config, Input, check_quotes, rules_of};
use sms_message::{Fields, Message, MessageEnd, Rules};
use std::alloc::Global;
use std::thread::Threads;

/// What a journal says of its run.
#[derive(Drop)]
pub struct JournaledRun {
    /// How it is sent.
    pub config: Config,
    /// The accounts as its first round opened them.
    pub openings: Vec<Opening>,
    /// Its messages.
    pub messages: Vec<Message>,
    /// What a segment costs.
    pub tariff: Tariff,
    pub kind: JournalKind,
    /// What the first line says of a journal of its files that is tied to what a report is computed by.
    pub digests: Digests,
    /// How many octets its whole lines take; 0 where not even the first line is whole.
    pub whole: usize,
    /// How many rounds it had.
    pub rounds: u32,
    /// An end for each message, as if every connection had dropped just after the last note.
    pub ends: Vec<MessageEnd<()>>,
    /// A row for each account, by these ends.
    pub rows: Vec<Row>,
}

impl JournaledRun {
    /// The run with these fields in place of its own.
    pub fn with_fields(self, fields: Fields) -> JournaledRun
        ensures { result ≡ run_with_fields fields self }
    {
        let JournaledRun {
            config,
            openings,
            messages,
            tariff,
            kind,
            digests,
            whole,
            rounds,
            ends,
            rows,
        } = self;
        JournaledRun {
            config: config.with_fields(fields),
            openings,
            messages,
            tariff,
            kind,
            digests,
            whole,
            rounds,
            ends,
            rows,
        }
    }
}

/// How many octets the whole lines of a text take.
fn whole_of(text: &[u8]) -> usize
    ensures { AreWhole text.now result }
{
    let mut whole = 0;
    for place in 0..text.len() {
        if text[place] == b'\n' {
            whole = place + 1;
        }
    }
    whole
}

/// The number of the round that goes on after a note, by that of the one before it.
fn number_by(number: u32, note: &Note) -> u32
    ensures { result ≡ round_by number note.now }
{
    match round_in(note) {
        Some((next, _, _)) => next,
        None => number,
    }
}

/// The number of the last round.
fn last_round(notes: &[Note]) -> u32
    ensures { (size : TheRunSize) (ms : List TheMessage) → result ≡ (going_after (first_round size ms) notes.now).number }
{
    let mut number = 1;
    for note in notes {
        number = number_by(number, note);
    }
    number
}

/// Strictly, refuses a messages file that ends within a quote, of which this input was read.
fn check_closed(
    alloc: Global,
    messages: &[u8],
    input: &Input,
    strict: bool,
) -> Result<(), RecoveryFault>
    ensures closed { OnOk result (strict ≡ true → ¬ EndsQuoted messages.now) }
    ensures refused { IfErr result (λ fault. (strict ≡ true) × IsOpenQuote messages.now input.now fault) }
{
    if !strict {
        return Ok(());
    }
    match check_quotes(alloc, messages, input) {
        Ok(()) => Ok(()),
        Err(fault) => Err(RecoveryFault::Input(fault)),
    }
}

/// What a run of this input, whose journal has these notes, came to.
fn run_of<R: AllocGlobal + Threads>(
    rt: &R,
    input: Input,
    digests: Digests,
    whole: usize,
    read: &JournalNotes,
) -> Result<JournaledRun, RecoveryFault>
    ensures run { IfOk result (IsNotedRun input read.now.first read.now.notes.items) }
    ensures beside { IfOk result (λ run. (run.kind ≡ read.now.kind) × (run.digests ≡ digests) × (run.whole ≡ whole)) }
    ensures refused { IfErr result (IsFaultOfNotedRun input read.now.first read.now.notes.items) }
{
    let (config, openings, messages, tariff) = input.into_parts();
    let notes = read.notes.as_slice();
    let size = size_by(openings.as_slice(), config.limits, read.first);
    // No part of what it came to is by the fields.
    let fields = Fields::none(rt.alloc());
    let (retry, limits, flags) = (config.retry, config.limits, config.flags);
    let rules = rules_of(retry, limits, flags, fields, tariff, 0);
    let found = reported(
        rt,
        &rules,
        size,
        openings.as_slice(),
        messages.as_slice(),
        notes,
    );
    let Rules { tariff, .. } = rules;
    match found {
        Ok((ends, rows)) => Ok(JournaledRun {
            config,
            openings,
            messages,
            tariff,
            kind: read.kind,
            digests,
            whole,
            rounds: last_round(notes),
            ends,
            rows,
        }),
        Err(fault) => {
            drop(config);
            drop(openings);
            drop(messages);
            drop(tariff);
            Err(fault)
        }
    }
}

/// What a run of these files came to, by its journal: the end of each message and the row of each account, as
/// `run_recover` prints them, and what a further round has to know. The journal may be that of a trial. Strictly, a
/// messages file that ends within a quote is refused.
pub fn read_run<R: AllocGlobal + Threads>(
    rt: &R,
    config: &[u8],
    accounts: &[u8],
    messages: &[u8],
    tariff: Option<&[u8]>,
    journal: &[u8],
    strict: bool,
) -> Result<JournaledRun, RecoveryFault>
    ensures run { IfOk result (IsRunOfJournal config.now accounts.now messages.now (option_copied tariff.entry) journal.now) }
    ensures closed { OnOk result (strict ≡ true → ¬ EndsQuoted messages.now) }
    ensures refused { IfErr result (IsFaultOfRun config.now accounts.now messages.now (option_copied tariff.entry) journal.now strict) }
{
    let alloc = rt.alloc();
    let run = match read_beside(rt, alloc, config, accounts, messages, tariff, journal) {
        Ok(run) => run,
        Err(fault) => return Err(fault),
    };
    let RunRead {
        input,
        files,
        ahead,
    } = run;
    if let Err(fault) = check_closed(alloc, messages, &input, strict) {
        drop(input);
        drop(ahead);
        return Err(fault);
    }
    let read = match notes_in(alloc, &files, journal, ahead, true) {
        Ok(read) => read,
        Err(fault) => {
            drop(input);
            return Err(fault);
        }
    };
    run_of(rt, input, files.keyed(), whole_of(journal), &read)
}
