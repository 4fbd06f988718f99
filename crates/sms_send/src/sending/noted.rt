//! A sending that is noted in a journal.

ghost use Rattle.std.specs.Prelude.{◌≡◌, ◌⊎◌, ℕ, Err, Ok, IfErr, IfOk, length, string_bytes, true};
ghost use Rattle.sms_driver.specs.declared.start.StartPhase.TheVariants.{Idle};
ghost use Rattle.sms_send.specs.Faults.{HasLostJournal};
ghost use Rattle.sms_send.specs.Kept.{KeepsSent, KeepsThrough};
ghost use Rattle.sms_send.specs.Noted.{FailsBegin, FailsNoted, IsNotedIn, LacksFirstLine, TakesNoRound, IsUnmadeFor, fault_of_unmade, head_by};
ghost use Rattle.sms_send.specs.Reached.{centre_of};
ghost use Rattle.sms_send.specs.Resumed.{FailsResuming};
ghost use Rattle.sms_send.specs.Sent.{FailsSending, HasRows, SendingEnd, SendsInput, SendsLeft, SendsWork};
ghost use Rattle.sms_send.specs.Stopped.{LooksForSign};

use crate::args::send_args::{Again, JournalFile};
use crate::faults::fault::Fault;
use crate::sending::Sending;
use crate::sending::kept::Kept;
use crate::sending::work::Work;
use sms_devices::{
    Host, Journal, JournalFailure, JournalFiles, MadeFile, Origin, Unmade, stop_sign,
};
use sms_driver::Start;
use sms_files::Input;
use sms_journal::{Digests, FileTies, JournalKind, JournaledRun, Note, keys_of};
use std::alloc::Global;
use std::fs::OpenFile;
use std::io::Write;
use std::marker::Brand;
use std::sync::Wait;
use std::time::Clock;

/// The fault where no file was made for a journal: its name where none can be made, and the journal where a
/// process holds one of this name.
fn unmade_fault(wanted: JournalFile, why: Unmade) -> Fault
    ensures { result ≡ fault_of_unmade wanted.name why }
{
    let JournalFile { name, .. } = wanted;
    match why {
        Unmade::Held => Fault::JournalHeld,
        Unmade::Failed(kind) => Fault::Unmade(name, kind),
    }
}

/// The same of a journal that is kept.
pub(crate) fn unmade_for(alloc: Global, wanted: &JournalFile, why: Unmade) -> Fault
    ensures { IsUnmadeFor (string_bytes wanted.now.name) why result }
{
    match String::from_str(alloc, wanted.name.as_str()) {
        Ok(name) => unmade_fault(
            JournalFile {
                name,
                sync: wanted.sync,
            },
            why,
        ),
        Err(_memory) => Fault::OutOfMemory,
    }
}

/// Why a journal failed.
fn failure_of<R: Wait, F: Write + OpenFile>(rt: &R, journal: &Journal<F>) -> JournalFailure {
    match journal.failure(rt) {
        Some(why) => why,
        None => JournalFailure::Other,
    }
}

/// A journal in the file of this name, whose run looks for the stop sign beside it. One that is there from before is
/// removed.
fn journal_in<R: AllocGlobal + JournalFiles, F: Write + OpenFile + Drop>(
    rt: &R,
    file: F,
    wanted: &JournalFile,
) -> Result<Journal<F>, Fault>
    ensures sign { IfOk result (LooksForSign (string_bytes wanted.now.name)) }
    ensures refused { IfErr result LacksFirstLine }
    ensures unfinished { IfErr result TakesNoRound }
{
    match stop_sign(rt.alloc(), wanted.name.as_str()) {
        Ok(sign) => {
            rt.remove_stop_sign(sign.as_str());
            let journal = Journal::new(rt.alloc(), file, wanted.sync);
            Ok(journal.with_stop_sign(sign))
        }
        Err(_memory) => {
            drop(file);
            Err(Fault::Unbegun(JournalFailure::OutOfMemory))
        }
    }
}

/// What the first line says of files with these digests, by their input. Of a run that may have further rounds it
/// is tied to no more of the config than its report is computed by: the other keys may be changed before a later round.
fn head_of(again: Option<Again>, input: &Input, digests: &Digests) -> Digests
    ensures { result ≡ head_by again input.now digests.now }
{
    match again {
        Some(_) => {
            let files = FileTies {
                digests: *digests,
                keys: keys_of(input.config()),
            };
            files.keyed()
        }
        None => *digests,
    }
}

/// A journal of this kind in a new file, which has its first line.
fn begin_journal<R: AllocGlobal + JournalFiles + Wait, F: Write + OpenFile + Drop>(
    rt: &R,
    file: F,
    wanted: &JournalFile,
    kind: JournalKind,
    digests: &Digests,
) -> Result<Journal<F>, Fault>
    ensures sign { IfOk result (LooksForSign (string_bytes wanted.now.name)) }
    ensures refused { IfErr result LacksFirstLine }
{
    let journal = journal_in(rt, file, wanted)?;
    journal.begin(rt, kind, digests);
    if journal.let_out(rt) {
        Ok(journal)
    } else {
        Err(Fault::Unbegun(failure_of(rt, &journal)))
    }
}

/// The journal of a run in its file, with the note of a further round: a last line that was truncated is cut off. The first
/// line is written where not even that is whole.
fn begin_round<R: AllocGlobal + JournalFiles + Wait + Clock, F: Write + OpenFile + Drop>(
    rt: &R,
    file: F,
    wanted: &JournalFile,
    run: &JournaledRun,
) -> Result<Journal<F>, Fault>
    ensures sign { IfOk result (LooksForSign (string_bytes wanted.now.name)) }
    ensures refused { IfErr result TakesNoRound }
{
    if let Err(error) = file.set_len(run.whole as u64) {
        return Err(Fault::Unbegun(JournalFailure::of(error.kind())));
    }
    let limits = run.config.limits;
    let round = run.rounds.saturating_add(1);
    let journal = journal_in(rt, file, wanted)?;
    if run.whole == 0 {
        journal.begin(rt, run.kind, &run.digests);
    }
    journal.note(rt, &Note::Round(round, limits.binds, limits.workers));
    let is_noted = journal.let_out(rt);
    if is_noted {
        Ok(journal)
    } else {
        Err(Fault::Unbegun(failure_of(rt, &journal)))
    }
}

/// Notes that a sending has ended with its report. That the journal has failed is a fault after that.
fn end_journal<R: Clock, F: Write + OpenFile + Drop, O: Origin<F>>(
    rt: &R,
    journal: Journal<MadeFile<F, O>>,
    sent: Result<u8, Fault>,
) -> Result<u8, Fault>
    ensures ended { IfOk result (λ status. sent ≡ Ok status) }
    ensures noted { IfOk result (IsNotedIn F.contents O.made) }
    ensures refused { IfErr result (λ fault. (sent ≡ Err fault) ⊎ (HasLostJournal fault × (status : ℕ) × (sent ≡ Ok status))) }
{
    match sent {
        Ok(status) => match journal.close(rt, status) {
            Ok(file) => {
                file.is_made();
                Ok(status)
            }
            Err(why) => Err(Fault::Journal(why)),
        },
        Err(fault) => Err(fault),
    }
}

impl<'r, 'i, R: Host> Sending<'r, 'i, R> {
    /// Makes the journal of files with these digests, and sends the messages of an input.
    pub fn run_noted<W: Write>(
        &self,
        start: &mut Start<'_>,
        input: Input,
        digests: &Digests,
        wanted: JournalFile,
        output: &mut W,
    ) -> Result<u8, Fault>
        requires not_started { start.old.begun ≡ Idle }
        ensures latch { start.new.latch ≡ start.old.latch }
        // A journal that can't be begun is a fault before anything was sent or written; one that failed later, after the whole report.
        ensures ended { SendingEnd self.now.strict (SendsInput (R.tells self.now.rt.now (centre_of self.now.target) true) self.now.again self.now.strict input (W.contents output.old) (W.contents output.new)) (FailsNoted (FailsBegin (R.makes self.now.rt.now) (R.refuses self.now.rt.now) (R.holds self.now.rt.now) wanted) (centre_of self.now.target) (R.tells self.now.rt.now (centre_of self.now.target) true) self.now.again self.now.strict input (W.contents output.old) (W.contents output.new)) start.new.begun output.old output.new result }
        // The file that was made by the journal's name ends with the note of that.
        ensures noted { IfOk result (IsNotedIn R.JournalFile.contents (R.makes self.now.rt.now (string_bytes wanted.name))) }
    {
        let file = match self.rt.create_journal(wanted.name.as_str(), wanted.sync) {
            Ok(file) => file,
            Err(why) => return Err(unmade_fault(wanted, why)),
        };
        let mut kept = None;
        let sent = self.run_in_file::<Brand, W>(
            start, input, digests, file, &wanted, output, &mut kept,
        );
        drop(kept);
        sent
    }

    /// Begins the journal in the file that was made for it, sends the messages of an input, and ends the journal.
    pub(crate) fn run_in_file<O: Origin<R::JournalFile> + Send, W: Write>(
        &self,
        start: &mut Start<'_>,
        input: Input,
        digests: &Digests,
        file: R::JournalFile,
        wanted: &JournalFile,
        output: &mut W,
        kept: &mut Option<Kept>,
    ) -> Result<u8, Fault>
        requires not_started { start.old.begun ≡ Idle }
        requires made { O.made file }
        ensures latch { start.new.latch ≡ start.old.latch }
        ensures ended { SendingEnd self.now.strict (SendsInput (R.tells self.now.rt.now (centre_of self.now.target) true) self.now.again self.now.strict input (W.contents output.old) (W.contents output.new)) (FailsNoted LacksFirstLine (centre_of self.now.target) (R.tells self.now.rt.now (centre_of self.now.target) true) self.now.again self.now.strict input (W.contents output.old) (W.contents output.new)) start.new.begun output.old output.new result }
        ensures noted { IfOk result (IsNotedIn R.JournalFile.contents O.made) }
        ensures kept { KeepsThrough (W.contents output.old) (W.contents output.new) result kept.new }
    {
        *kept = None;
        let kind = self.target.journal_kind();
        let made: MadeFile<R::JournalFile, O> = MadeFile::new(file);
        let head = head_of(self.again, &input, digests);
        let journal = match begin_journal(self.rt, made, wanted, kind, &head) {
            Ok(journal) => journal,
            Err(fault) => return Err(fault),
        };
        let (sent, journal) = self.run_with_journal(start, Work::All(input), journal, output, kept);
        end_journal(self.rt, journal, sent)
    }

    /// Begins a further round of a run in the file of its journal, sends what the run has left, and ends the journal.
    pub fn resume_in_file<O: Origin<R::JournalFile> + Send, W: Write>(
        &self,
        start: &mut Start<'_>,
        run: JournaledRun,
        file: R::JournalFile,
        wanted: &JournalFile,
        output: &mut W,
        kept: &mut Option<Kept>,
    ) -> Result<u8, Fault>
        requires not_started { start.old.begun ≡ Idle }
        requires rows { length run.rows.items ≡ length run.openings.items }
        requires made { O.made file }
        ensures latch { start.new.latch ≡ start.old.latch }
        ensures ended { SendingEnd self.now.strict (SendsLeft (R.tells self.now.rt.now (centre_of self.now.target) true) self.now.again self.now.strict run (W.contents output.old) (W.contents output.new)) (FailsResuming (centre_of self.now.target) (R.tells self.now.rt.now (centre_of self.now.target) true) self.now.again self.now.strict run (W.contents output.old) (W.contents output.new)) start.new.begun output.old output.new result }
        ensures noted { IfOk result (IsNotedIn R.JournalFile.contents O.made) }
        ensures kept { KeepsThrough (W.contents output.old) (W.contents output.new) result kept.new }
    {
        *kept = None;
        let made: MadeFile<R::JournalFile, O> = MadeFile::new(file);
        let journal = match begin_round(self.rt, made, wanted, &run) {
            Ok(journal) => journal,
            Err(fault) => return Err(fault),
        };
        let left = Work::Left(run);
        let (resumed, journal) = self.run_with_journal(start, left, journal, output, kept);
        end_journal(self.rt, journal, resumed)
    }

    /// Sends what there is to send, each message noted in this journal, and gives the journal back.
    fn run_with_journal<F: Write + OpenFile + Send + Drop, W: Write>(
        &self,
        start: &mut Start<'_>,
        work: Work,
        journal: Journal<F>,
        output: &mut W,
        kept: &mut Option<Kept>,
    ) -> (Result<u8, Fault>, Journal<F>)
        requires not_started { start.old.begun ≡ Idle }
        requires rows { HasRows work }
        ensures latch { start.new.latch ≡ start.old.latch }
        ensures ended { SendingEnd self.now.strict (SendsWork (R.tells self.now.rt.now (centre_of self.now.target) true) self.now.again self.now.strict work (W.contents output.old) (W.contents output.new)) (FailsSending (centre_of self.now.target) (R.tells self.now.rt.now (centre_of self.now.target) true) self.now.again work (W.contents output.old) (W.contents output.new)) start.new.begun output.old output.new result.0 }
        ensures kept { KeepsSent (W.contents output.old) (W.contents output.new) result.0 kept.new }
    {
        *kept = None;
        let sent = (&*self).run(start, work, Some(&journal), output, kept);
        (sent, journal)
    }
}
