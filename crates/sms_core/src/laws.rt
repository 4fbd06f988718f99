//! What holds of every run of a world, whatever its events: laws over the definitions alone.

ghost use Rattle.sms_core.specs.CoreLaws.{
  HoldsAreLawful,
  ClaimTakesFreeSlot,
  SlotStaysHeld,
  NumbersGivenOnce,
  RowsBalance,
  ToppedIsSum,
  FinalStays,
  ChargeHasAnswer,
  AnswerIsOfOne,
  UnknownIsIgnored,
  OneSlotWaits,
  StepIsDetermined,
  PostOpens,
  RespondReplies,
  SettleEmpties,
  ExpireEmpties,
};
ghost use Rattle.sms_core.specs.StepLaws.{RowsMove, RequestsMove, PostDraws, OnlyPostDraws, EventSteps};
ghost use Rattle.sms_core.specs.Renaming.{
  NamesKeepSteps,
  LeavingOutKeepsSteps,
  OpensAsWorkers,
  StaysAsWorkers,
  ClaimIsWorkers,
  ReleaseIsWorkers,
};

/// No slot is held twice; a claim takes a slot that nobody has, which stays held until its worker
/// releases it.
pub fn holds_are_lawful()
    ensures lawful { HoldsAreLawful }
    ensures taken { ClaimTakesFreeSlot }
    ensures stays { SlotStaysHeld }
{}

/// The sequence numbers that were given are 1 to next - 1, each once.
pub fn numbers_are_given_once()
    ensures { NumbersGivenOnce }
{}

/// Each account's top-ups are its free, reserved and charged credits, and the sum of what it was
/// topped up with.
pub fn rows_balance()
    ensures balance { RowsBalance }
    ensures topped { ToppedIsSum }
{}

/// A request that is charged, refused, unanswered or unsent stays as it is.
pub fn final_is_final()
    ensures { FinalStays }
{}

/// A charge has an accepting answer to one of its request's own numbers, and no two requests share
/// one.
pub fn a_charge_has_its_answer()
    ensures answered { ChargeHasAnswer }
    ensures apart { AnswerIsOfOne }
{}

/// An answer whose number no open slot has changes nothing.
pub fn unknown_answers_change_nothing()
    ensures { UnknownIsIgnored }
{}

/// No two slots wait with one number, so an event has one answer and leaves one world, but for the
/// order of its pairs.
pub fn a_step_is_determined()
    ensures waits { OneSlotWaits }
    ensures one { StepIsDetermined }
{}

/// The mark of a slot goes from empty to open to replied and back to empty, or from open to empty,
/// and no other moves.
pub fn marks_move_as_told()
    ensures opens { PostOpens }
    ensures replies { RespondReplies }
    ensures settles { SettleEmpties }
    ensures expires { ExpireEmpties }
{}

/// The row of an event's account is moved as the event says, and no other account's.
pub fn rows_move_as_told()
    ensures { RowsMove }
{}

/// A request is posted, answered (charged, ready again or refused), or given up, a Reserve adds one,
/// and all others are as they were.
pub fn requests_move_as_told()
    ensures { RequestsMove }
{}

/// A post draws the next sequence number, and nothing else does.
pub fn a_post_draws_its_number()
    ensures draws { PostDraws }
    ensures only { OnlyPostDraws }
{}

/// Every event has an answer in every world, so a run can always go on.
pub fn every_event_steps()
    ensures { EventSteps }
{}

/// A claim, a release, a split and a join of a hold set are the same steps under other names of the
/// holders, and without the pairs of some of them.
pub fn readings_keep_steps()
    ensures named { NamesKeepSteps }
    ensures without { LeavingOutKeepsSteps }
{}

/// The seats of a window, but for those that hold what lies beyond its limit, are the workers of a
/// world: their claims and releases are the workers' events, and what leaves their pairs is none.
pub fn seats_are_workers()
    ensures opening { OpensAsWorkers }
    ensures stays { StaysAsWorkers }
    ensures claims { ClaimIsWorkers }
    ensures releases { ReleaseIsWorkers }
{}
