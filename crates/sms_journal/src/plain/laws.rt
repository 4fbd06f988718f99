//! What is left of a messages file with references reads as the messages file that it is. Each law holds by the contract of
//! its function, which does nothing.

ghost use Rattle.sms_journal.specs.PlainLaws.{OpenQuotesAreFaults, PlainFaultsArePlaced, PlainLinesAreRead};

/// What is left has the header of four columns and what is left of each record, whatever quotes, commas and line ends are in them. The first
/// record that may not stand in the file is the first that may not stand in what is left, and where the file ends within a quote
/// there is one.
pub fn messages_without_references_are_read()
    ensures read { PlainLinesAreRead }
    ensures placed { PlainFaultsArePlaced }
    ensures ended { OpenQuotesAreFaults }
{}
