//! What is true of the line on the way, whatever is sent. Each law holds by the contract of its function, which does
//! nothing.

ghost use Rattle.sms_files.specs.Laws.{EachIsCountedOnce, LineFitsARow, TogetherCountNoMore};

/// A tally of messages counts each of them once at most, and so do the tallies of several workers together.
pub fn each_message_is_counted_once()
    ensures each { EachIsCountedOnce }
    ensures together { TogetherCountNoMore }
{}

/// The line on the way leaves one of 80 columns free, so that it stands in one row of a terminal with the cursor after
/// it. So it is with as many messages as a file has at the most, of which any number has ended, where more than 10
/// milliseconds and no more than a year have passed.
pub fn the_line_fits_a_row()
    ensures { LineFitsARow }
{}
