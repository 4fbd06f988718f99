//! Laws of cuttings, for every text and every cutting. Each holds by the contract of its function,
//! which does nothing.

ghost use Rattle.sms_segment.specs.Laws.{FullIsLeast, FullIsOnlyOne, GroupsSpellText, HasFullCutting};
ghost use Rattle.sms_segment.specs.Laws.{JoinGivesTextBack, PartsAreFullyCut, PartsFit, PartsHaveSeptets, PartsTellTooLong};

/// The groups of a text, one after another, are the text, and each is one unit or a pair.
pub fn groups_spell_the_text()
    ensures { GroupsSpellText }
{}

/// Every text has a full cutting.
pub fn every_text_has_a_full_cutting()
    ensures { HasFullCutting }
{}

/// No cutting has fewer parts than a full one.
pub fn a_full_cutting_is_least()
    ensures { FullIsLeast }
{}

/// No text has two full cuttings.
pub fn a_full_cutting_is_the_only_one()
    ensures { FullIsOnlyOne }
{}

/// A text is fully cut into what `parts_of` says, and into nothing else.
pub fn a_text_is_fully_cut_into_its_parts()
    ensures { PartsAreFullyCut }
{}

/// Each cutting of a text has more than 255 parts where what `parts_of` says has.
pub fn the_parts_tell_what_is_too_long()
    ensures { PartsTellTooLong }
{}

/// The parts that a text is sent as are a whole message, and joined they are the text again.
pub fn joining_gives_the_text_back()
    ensures { JoinGivesTextBack }
{}

/// No part of a text has more octets than the 160 that a short message has room for.
pub fn the_parts_fit()
    ensures { PartsFit }
{}

/// The parts of a lawful text meet what [`short_message`](crate::Part::short_message) asks of them.
pub fn the_parts_have_septets()
    ensures { PartsHaveSeptets }
{}
