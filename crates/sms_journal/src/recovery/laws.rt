//! Laws of what is recovered. Each holds by the contract of its function, which does nothing.

ghost use Rattle.sms_journal.specs.RecoveryLaws.{NoAccountIsOverdrawn, ReportsAgree, RunsAreRecovered, StatusesAgree};

/// Recovered ends are printed as the run prints its own, octet for octet.
pub fn reports_agree()
    ensures { ReportsAgree }
{}

/// The exit status of recovered ends is that of the run's own.
pub fn statuses_agree()
    ensures { StatusesAgree }
{}

/// Where notes say the ends of a run's messages, and the run's rows are those of its ends, the report that is
/// recovered from the notes is the run's, octet for octet.
pub fn runs_are_recovered()
    ensures { RunsAreRecovered }
{}

/// In each row of what is recovered no more is reserved and charged than its account opened with.
pub fn no_account_is_overdrawn()
    ensures { NoAccountIsOverdrawn }
{}
