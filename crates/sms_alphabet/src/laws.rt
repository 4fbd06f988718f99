//! What holds of the alphabet and of every coded text. The functions do nothing: their contracts
//! are the laws.

ghost use Rattle.sms_alphabet.specs.Laws.{OneSpelling, OneCharacter, LookUp, OneText, ChosenIsLawful, ComesBack, UnitsFit};

/// A character of the default alphabet has exactly one spelling there.
pub fn one_spelling()
    ensures { OneSpelling }
{}

/// No two characters of the default alphabet have the same codes.
pub fn one_character()
    ensures { OneCharacter }
{}

/// The codes that a look-up gives a character are those that stand beside it in the table.
pub fn look_up()
    ensures { LookUp }
{}

/// A coded text is the spelling of one text at most.
pub fn one_text()
    ensures { OneText }
{}

/// What [`choose`](crate::choose) gives is lawful, and spells its text.
pub fn chosen_is_lawful()
    ensures { ChosenIsLawful }
{}

/// A text that is coded by [`choose`](crate::choose) and read by [`text_of`](crate::text_of) is
/// the text again.
pub fn comes_back()
    ensures { ComesBack }
{}

/// The units of a lawful coded text are below 128 in the default alphabet, and fit 16 bits in UCS2.
pub fn units_fit()
    ensures { UnitsFit }
{}
