//! Why the arguments are refused.

/// An option that takes a number.
#[derive(Clone, Copy, Debug, PartialEq, Eq)]
pub enum NumberOption {
    ConnectMs,
    Rate,
    StopAfter,
    Again,
    AgainMs,
    Enquire,
    Stay,
}

/// Why the arguments are refused.
#[derive(Debug, Drop)]
pub enum ArgumentError {
    /// The parser refuses them with this message. It is empty where memory was refused for it.
    Parser(String),
    /// An argument isn't UTF-8.
    NotUtf8,
    /// An argument or a subcommand is missing.
    Missing,
    /// The number of this option is no number, or out of range.
    Number(NumberOption),
    /// `--sync` was given without `--journal`.
    SyncAlone,
    /// `--again-ms` was given without `--again`.
    AgainMsAlone,
    /// The text is the name of no account.
    Account,
    /// The text is no number of credits that may be paid.
    Credits,
    /// The text of `--ref` is the name of no payment.
    Reference,
    /// `--ledger` was given to a sending without `--journal`.
    LedgerAlone,
    /// The text of `--ids` says no spelling of ids.
    Ids,
    /// `--stay` was given without `--inbox`.
    StayAlone,
    /// `--ids` was given to a sending without `--stay`.
    IdsAlone,
}
