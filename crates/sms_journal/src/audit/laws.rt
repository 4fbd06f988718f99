//! Laws of the schedule of a sending. Each holds by the contract of its function, which does nothing.

ghost use Rattle.sms_journal.specs.AuditLaws.{AuditsAreRuns};
ghost use Rattle.sms_journal.specs.EndLaws.{SendingsAreRuns};
ghost use Rattle.sms_journal.specs.ReportLaws.{ReportsAreRuns};
ghost use Rattle.sms_journal.specs.ScheduleLaws.{PartsAreARun};

/// The schedule of parts is a run of the model, in which each event is done: its rows are the sums over the parts, its
/// requests are the parts with their costs, attempts and phases, and no slot is held at its end.
pub fn parts_are_a_run()
    ensures { PartsAreARun }
{}

/// Whatever was sent is such a run, whose rows are the statement's. Its order is not that in which the parts were sent:
/// first those whose credits came back, then those that were charged, and last those whose credits stay reserved.
pub fn sendings_are_runs<S>()
    ensures { SendingsAreRuns S }
{}

/// A report whose rows are the sums of its parts is such a run, where no part costs more than its account was opened
/// with: each row of its statement is the account's row in the model.
pub fn reports_are_runs()
    ensures { ReportsAreRuns }
{}

/// What `audit` prints of a report of a run's files is such a run.
pub fn audits_are_runs()
    ensures { AuditsAreRuns }
{}
