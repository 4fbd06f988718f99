//! Laws of what a report says. Each holds by the contract of its function, which does nothing.

ghost use Rattle.sms_journal.specs.RestLaws.{LinesAreOfAttempts, PartsAreOfAdmission, PlansAreUnique, RefusalsAreOfAdmission};

/// A line of a part is taken exactly where attempts that the retry rule allows can have come to it.
pub fn lines_are_of_attempts()
    ensures { LinesAreOfAttempts }
{}

/// A message is taken as refused exactly for the reasons that a run can refuse it for.
pub fn refusals_are_of_admission()
    ensures { RefusalsAreOfAdmission }
{}

/// Parts are taken exactly of a message that no check stands against.
pub fn parts_are_of_admission()
    ensures { PartsAreOfAdmission }
{}

/// What is compared of a message is a function of the run's files.
pub fn plans_are_unique()
    ensures { PlansAreUnique }
{}
