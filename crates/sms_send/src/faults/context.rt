//! What is known of a run beside its fault. It is noted while the job goes on, so that the detail lines of a fault
//! read no argument and no file again.

ghost use Rattle.std.specs.Prelude.{◌≡◌, ◌||◌};

use crate::args::job::Job;
use crate::args::ledger_run_args::SettleArgs;
use crate::args::send_args::{JournalFile, ResumeArgs, SendArgs};
use crate::sending::target::TargetKind;
use sms_files::{Config, FileNames, Source};
use std::alloc::Global;

/// What the job does with messages.
#[derive(Clone, Copy, Debug, PartialEq, Eq)]
pub enum JobKind {
    /// It sends none, or there is no job.
    Other,
    /// It sends them to a test centre in this process.
    Loop,
    /// It sends them to the message centre that the config names.
    Send,
    /// It sends there what a run has left, by its journal.
    Resume,
    /// It sends none: it books a payment.
    TopUp,
}

impl JobKind {
    /// What a sending to such a centre does.
    fn of(kind: TargetKind) -> JobKind {
        match kind {
            TargetKind::Loopback => JobKind::Loop,
            TargetKind::Remote => JobKind::Send,
        }
    }
}

/// The message centre of a bind.
#[derive(Debug, Drop)]
pub struct Address {
    /// Its name or its address.
    pub host: String,
    /// Its TCP port.
    pub port: u32,
}

/// The names of the files of a job. A name is missing where the job has no such file, where that is standard input,
/// and where memory was refused for the name.
#[derive(Debug, Drop)]
pub struct JobNames {
    pub config: Option<String>,
    pub fields: Option<String>,
    pub schedule: Option<String>,
    pub accounts: Option<String>,
    pub messages: Option<String>,
    pub tariff: Option<String>,
    pub journal: Option<String>,
    pub report: Option<String>,
    pub ledger: Option<String>,
}

/// What is known of a job.
#[derive(Debug, Drop)]
pub struct JobContext {
    /// What it does with messages.
    pub kind: JobKind,
    /// Its files.
    pub names: JobNames,
    /// The message centre that its messages go to, once the config was read.
    pub centre: Option<Address>,
}

/// What is known of a run.
#[derive(Debug, Drop)]
pub struct FaultContext {
    /// Whether an argument asks for the detail lines of a fault.
    pub verbose: bool,
    /// What is known of its job.
    pub job: JobContext,
}

/// A copy of a name; none where memory is refused for it.
fn kept(alloc: Global, name: &str) -> Option<String> {
    match String::from_str(alloc, name) {
        Ok(name) => Some(name),
        Err(_unkept) => None,
    }
}

/// The same of a name that a config may leave empty.
fn kept_if_named(alloc: Global, name: &str) -> Option<String> {
    if name.is_empty() {
        None
    } else {
        kept(alloc, name)
    }
}

/// The same of a name that an argument needn't give.
fn kept_if_given(alloc: Global, name: &Option<String>) -> Option<String> {
    match name {
        Some(name) => kept(alloc, name.as_str()),
        None => None,
    }
}

impl JobNames {
    /// No names.
    fn new() -> JobNames {
        JobNames {
            config: None,
            fields: None,
            schedule: None,
            accounts: None,
            messages: None,
            tariff: None,
            journal: None,
            report: None,
            ledger: None,
        }
    }

    /// The name of the file of a source.
    pub fn of_source(&self, source: Source) -> Option<&str> {
        match source {
            Source::Schedule => text_of(&self.schedule),
            Source::Messages => text_of(&self.messages),
            Source::Accounts => text_of(&self.accounts),
            Source::Tariff => text_of(&self.tariff),
        }
    }
}

/// The text of a name.
pub fn text_of(name: &Option<String>) -> Option<&str> {
    match name {
        Some(name) => Some(name.as_str()),
        None => None,
    }
}

impl JobContext {
    /// Nothing is known.
    pub fn new() -> JobContext {
        JobContext {
            kind: JobKind::Other,
            names: JobNames::new(),
            centre: None,
        }
    }

    /// Notes what the arguments say of a job.
    pub fn note_job(&mut self, alloc: Global, job: &Job) {
        match job {
            Job::Replay(None) => {}
            Job::Replay(Some(name)) => self.names.schedule = kept(alloc, name.as_str()),
            Job::Plan(name, _, _) => self.names.messages = kept(alloc, name.as_str()),
            Job::Quote(config, _, _) => self.names.config = kept(alloc, config.as_str()),
            Job::Loop(order) => self.note_sending(alloc, JobKind::Loop, order),
            Job::Send(order) => self.note_sending(alloc, JobKind::Send, order),
            Job::Resume(order) => self.note_resume(alloc, order),
            Job::Stop(journal) => self.names.journal = kept(alloc, journal.as_str()),
            Job::Recover(order) => self.note_run(alloc, &order.config, &order.journal),
            Job::Rest(order) => {
                self.names.config = kept(alloc, order.config.as_str());
                self.names.report = kept(alloc, order.report.as_str());
            }
            Job::List(order) => self.note_run(alloc, &order.config, &order.journal),
            Job::Delivered(order) => self.note_run(alloc, &order.config, &order.journal),
            Job::Audit(order) => {
                self.names.config = kept(alloc, order.config.as_str());
                self.names.report = kept(alloc, order.report.as_str());
            }
            _ => self.note_ledger_job(alloc, job),
        }
    }

    /// Notes what they say of a job over a ledger.
    fn note_ledger_job(&mut self, alloc: Global, job: &Job) {
        match job {
            Job::TopUp(order) => {
                self.kind = JobKind::TopUp;
                self.names.ledger = kept(alloc, order.ledger.as_str());
            }
            Job::Balance(ledger) => self.names.ledger = kept(alloc, ledger.as_str()),
            Job::SendOn(kind, ledger, order) => {
                self.note_sending(alloc, JobKind::of(*kind), order);
                self.names.ledger = kept(alloc, ledger.as_str());
            }
            Job::ResumeOn(ledger, order) => {
                self.note_resume(alloc, order);
                self.names.ledger = kept(alloc, ledger.as_str());
            }
            Job::Settle(order) => self.note_settling(alloc, order),
            Job::Decide(order) => self.note_settling(alloc, &order.run),
            _ => {}
        }
    }

    /// Notes the config and the journal of a run.
    fn note_run(&mut self, alloc: Global, config: &String, journal: &String) {
        self.names.config = kept(alloc, config.as_str());
        self.names.journal = kept(alloc, journal.as_str());
    }

    /// Notes what they say of a sending.
    fn note_sending(&mut self, alloc: Global, kind: JobKind, order: &SendArgs) {
        self.kind = kind;
        self.names.config = kept(alloc, order.config.as_str());
        self.names.fields = kept_if_given(alloc, &order.fields);
        self.names.journal = journal_name(alloc, &order.journal);
    }

    /// Notes what they say of a run that goes on.
    fn note_resume(&mut self, alloc: Global, order: &ResumeArgs) {
        self.kind = JobKind::Resume;
        self.names.config = kept(alloc, order.config.as_str());
        self.names.fields = kept_if_given(alloc, &order.fields);
        self.names.journal = kept(alloc, order.journal.name.as_str());
    }

    /// Notes what they say of a run that is settled.
    fn note_settling(&mut self, alloc: Global, order: &SettleArgs) {
        self.names.config = kept(alloc, order.config.as_str());
        self.names.journal = kept(alloc, order.journal.as_str());
        self.names.ledger = kept(alloc, order.ledger.as_str());
    }

    /// Notes what the config says: the files that it names, and the message centre where messages go to that.
    pub fn note_config(&mut self, alloc: Global, config: &Config) {
        self.note_files(alloc, &config.files);
        if self.kind == JobKind::Send || self.kind == JobKind::Resume {
            let connection = &config.connection;
            self.centre = centre_of(alloc, connection.host.as_str(), connection.port);
        }
    }

    /// Notes what the config of a run on a ledger says: its accounts are those of the ledger.
    pub fn note_ledger_config(&mut self, alloc: Global, config: &Config) {
        self.note_config(alloc, config);
        let name = match text_of(&self.names.ledger) {
            Some(name) => kept(alloc, name),
            None => None,
        };
        self.names.accounts = name;
    }

    /// Notes the files that the config names.
    pub fn note_files(&mut self, alloc: Global, files: &FileNames) {
        self.names.accounts = kept(alloc, files.accounts.as_str());
        self.names.messages = kept(alloc, files.messages.as_str());
        self.names.tariff = kept_if_named(alloc, files.tariff.as_str());
    }
}

/// The name of a journal, where there is one.
fn journal_name(alloc: Global, journal: &Option<JournalFile>) -> Option<String> {
    match journal {
        Some(journal) => kept(alloc, journal.name.as_str()),
        None => None,
    }
}

/// The message centre of this host and port.
fn centre_of(alloc: Global, host: &str, port: u32) -> Option<Address> {
    match kept(alloc, host) {
        Some(host) => Some(Address { host, port }),
        None => None,
    }
}

impl FaultContext {
    /// Nothing is known yet.
    pub fn new() -> FaultContext {
        FaultContext {
            verbose: false,
            job: JobContext::new(),
        }
    }
}

/// Whether detail lines follow a fault: where they are wanted of each run, or an argument asks for them.
pub fn is_at_length(details: bool, verbose: bool) -> bool
    ensures { result ≡ (details || verbose) }
{
    details || verbose
}
