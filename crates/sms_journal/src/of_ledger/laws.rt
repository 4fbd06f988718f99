//! Laws of what stands before the journal of a run of a ledger, and of what it takes. Each holds by the contract of its function, which does nothing.

ghost use Rattle.sms_journal.specs.RunHeads.{NoRunTextIsCut, RunTextsAreUnique, TruncatedHeadsAreCut};
ghost use Rattle.sms_journal.specs.TakingLaws.{FreeIsTaken};

/// A text is the journal of one run, with one accounts file.
pub fn a_text_is_of_one_run()
    ensures { RunTextsAreUnique }
{}

/// The journal of a run is no truncated head.
pub fn no_journal_is_a_truncated_head()
    ensures { NoRunTextIsCut }
{}

/// Wherever a head is truncated, a truncated head is left: so that is what a run leaves which ends while it writes its head.
pub fn truncated_heads_are_cut()
    ensures { TruncatedHeadsAreCut }
{}

/// Where a run's accounts are distinct and open with all that is free of them, and it took nothing of them before, what it takes
/// for them may be booked. Then none of them has free credits, and what they opened with is out with the run.
pub fn free_credits_are_taken()
    ensures { FreeIsTaken }
{}
