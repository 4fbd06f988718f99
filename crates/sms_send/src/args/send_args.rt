//! What the arguments of the subcommands that send, and that look at what was sent, ask for.

use sms_inbox::Ids;
use sms_journal::Listing;

/// A sending as the command line asks for it.
#[derive(Debug, Drop)]
pub struct SendArgs {
    /// The name of the config.
    pub config: String,
    /// The name of the file of what else each request says; none without the option.
    pub fields: Option<String>,
    /// Whether nothing but a fault is printed on standard error.
    pub quiet: bool,
    /// Whether details are printed there of what needs an operator.
    pub verbose: bool,
    /// Where it is noted what is sent and what is heard; nowhere without the option.
    pub journal: Option<JournalFile>,
    /// How long is waited for the binds, and how fast and how far is sent.
    pub throttle: Throttle,
    /// How often it goes on in a further round; never without the option.
    pub again: Option<Again>,
    /// What is asked of its lines.
    pub lines: LineArgs,
    /// Whether the exit status says that a message was not sent whole.
    pub strict: bool,
    /// Whether the messages have a column `ref`.
    pub refs: bool,
}

/// A further round of a run as the command line asks for it.
#[derive(Debug, Drop)]
pub struct ResumeArgs {
    /// The name of the config of the run.
    pub config: String,
    /// The name of the file of what else each request says; none without the option.
    pub fields: Option<String>,
    /// Whether nothing but a fault is printed on standard error.
    pub quiet: bool,
    /// Whether details are printed there of what needs an operator.
    pub verbose: bool,
    /// The journal of the run, which goes on in it.
    pub journal: JournalFile,
    /// How long is waited for the binds, and how fast and how far is sent.
    pub throttle: Throttle,
    /// How often it goes on in a further round after this one; never without the option.
    pub again: Option<Again>,
    /// What is asked of its lines.
    pub lines: LineArgs,
    /// Whether the exit status says that a message was not sent whole.
    pub strict: bool,
    /// Whether the messages have a column `ref`.
    pub refs: bool,
}

/// When a sending goes on in a further round: where messages are left of which nothing was begun.
#[derive(Clone, Copy, Debug, PartialEq, Eq)]
pub struct Again {
    /// How many further rounds there are at most, 1 to 1,000,000.
    pub most: u32,
    /// How many milliseconds lie before each, 1 to 600,000.
    pub wait_ms: u32,
}

/// What is asked of the lines of a sending's binds.
#[derive(Debug, Drop)]
pub struct LineArgs {
    /// The file in which what the message centre says is kept; nothing is without the option.
    pub inbox: Option<String>,
    /// After how many seconds without an octet a line is asked, 1 to 3,600.
    pub enquire: Option<u32>,
    /// How it stays behind the last message; not at all without the option.
    pub stay: Option<StayArgs>,
}

/// How a sending stays behind its last message, until the receipts of its parts are there.
#[derive(Clone, Copy, Debug)]
pub struct StayArgs {
    /// For how many seconds at most, 1 to 86,400.
    pub seconds: u32,
    /// How the ids in receipts are spelled.
    pub ids: Ids,
}

impl LineArgs {
    /// Nothing is asked of them.
    pub fn none() -> LineArgs {
        LineArgs {
            inbox: None,
            enquire: None,
            stay: None,
        }
    }
}

/// The journal that a sending is to write.
#[derive(Debug, Drop)]
pub struct JournalFile {
    /// The name of its file.
    pub name: String,
    /// Whether the disk has it before a request goes out.
    pub sync: bool,
}

/// A report by a journal as the command line asks for it.
#[derive(Debug, Drop)]
pub struct RecoverArgs {
    /// The name of the config of the run.
    pub config: String,
    /// The name of its journal.
    pub journal: String,
    /// Whether the journal may be of a trial.
    pub trial: bool,
    /// Whether the messages have a column `ref`.
    pub refs: bool,
}

/// What a run left as the command line asks for it.
#[derive(Debug, Drop)]
pub struct RestArgs {
    /// The name of the config of the run.
    pub config: String,
    /// The name of its report.
    pub report: String,
    /// Whether the accounts are asked for, and not the messages.
    pub accounts: bool,
    /// Whether the messages have a column `ref`.
    pub refs: bool,
}

/// What is listed of a run as the command line asks for it.
#[derive(Debug, Drop)]
pub struct ListArgs {
    /// The name of the config of the run.
    pub config: String,
    /// The name of its journal.
    pub journal: String,
    /// What is listed.
    pub listing: Listing,
    /// Whether the messages have a column `ref`, which is printed behind the others.
    pub refs: bool,
}

/// A run as the command line asks for it to be audited.
#[derive(Debug, Drop)]
pub struct AuditArgs {
    /// The name of the config of the run.
    pub config: String,
    /// The name of its report.
    pub report: String,
    /// Whether the messages have a column `ref`.
    pub refs: bool,
}

/// What bounds a sending. Without its option nothing does.
#[derive(Clone, Copy, Debug, PartialEq, Eq)]
pub struct Throttle {
    /// How many milliseconds it may take to connect and to bind, 1 to 600,000.
    pub connect_ms: Option<u32>,
    /// How many requests a bind sends in a second at the most, 1 to 100,000.
    pub rate: Option<u32>,
    /// After how many unanswered requests in a row a bind goes down, 1 to 1,000,000.
    pub stop_after: Option<u32>,
}
