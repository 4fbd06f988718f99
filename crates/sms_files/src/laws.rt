//! What a fault of a file says of the record that it names, how a file is read that was written, and what a fields file can ask
//! for. Each law holds by the contract of its function, which does nothing.

ghost use Rattle.sms_files.specs.Flaws.{BadAccountsHaveFlaws, BadMessagesHaveFlaws, BadRatesHaveFlaws, BadSchedulesHaveFlaws};
ghost use Rattle.sms_files.specs.ParameterLaws.{ParametersAreReadBack};
ghost use Rattle.sms_files.specs.Refs.{PlainHasNoFault, PlainIsReadAgain};
ghost use Rattle.sms_files.specs.TimeLaws.{SecondsAreReadBack};

/// The record that a fault of a messages file names has the flaw that the fault names. Each record before it
/// has none.
pub fn bad_messages_have_flaws()
    ensures { BadMessagesHaveFlaws }
{}

/// So it is with a schedule.
pub fn bad_schedules_have_flaws()
    ensures { BadSchedulesHaveFlaws }
{}

/// So it is with an accounts file, also where the flaw is a name that a record before has.
pub fn bad_accounts_have_flaws()
    ensures { BadAccountsHaveFlaws }
{}

/// The record that a fault of a tariff file names has that flaw, too. All records are read before their prefixes
/// and credits are looked at together, so one before it may have another.
pub fn bad_rates_have_flaws()
    ensures { BadRatesHaveFlaws }
{}

/// What is left of a messages file without its column `ref` reads as what it was taken from: a header, and of each
/// message the first four fields as they stood, whatever quotes, commas and line ends are in them. No record of it is
/// faulty.
pub fn messages_without_refs_are_read()
    ensures read { PlainIsReadAgain }
    ensures good { PlainHasNoFault }
{}

/// A validity in seconds is sent as a time of so many seconds from now on (SMPP 3.4 7.1.1).
pub fn seconds_are_read_back()
    ensures { SecondsAreReadBack }
{}

/// Each optional parameter can be asked for: it is read of the text that spells it.
pub fn parameters_are_read_back()
    ensures { ParametersAreReadBack }
{}
