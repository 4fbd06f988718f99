//! What holds of every inbox, by the definitions alone: each is a theorem.

ghost use Rattle.sms_inbox.specs.Arrivals.{ArrivalsHaveLines};
ghost use Rattle.sms_inbox.specs.DeliveredLaws.{FinalsStay, HeardIsOwn, NoneIsOfNone};
ghost use Rattle.sms_inbox.specs.Escape.{OctetsAreRead, SpellingsAreOne};
ghost use Rattle.sms_inbox.specs.LineLaws.{CutsLoseOne, FaultsSpellNone, FilesGoOn, PrefixesSpellPrefixes, TextsSpellOnce, WrittenIsRead};
ghost use Rattle.sms_inbox.specs.ReceiptLaws.{MessagesSayNothing, ReceiptsAreRead};

/// Octets are read from their spelling, and no two are spelled alike.
pub fn octets_have_one_spelling()
    ensures read { OctetsAreRead }
    ensures one { SpellingsAreOne }
{}

/// A receipt in the form of the standard's example is read, whatever its fields hold, and whatever its text. The text of a message that
/// is no receipt isn't read as one.
pub fn receipts_are_read()
    ensures read { ReceiptsAreRead }
    ensures messages { MessagesSayNothing }
{}

/// The lines of records spell these records and no others.
pub fn written_is_read()
    ensures read { WrittenIsRead }
    ensures once { TextsSpellOnce }
{}

/// Each prefix of an inbox's octets spells a prefix of its records, and a truncated line loses its own record alone.
pub fn prefixes_spell_prefixes()
    ensures prefixes { PrefixesSpellPrefixes }
    ensures cuts { CutsLoseOne }
{}

/// A record's line after a file's whole lines makes it the inbox with that record.
pub fn files_go_on()
    ensures { FilesGoOn }
{}

/// Octets that have a fault spell no records.
pub fn faults_spell_none()
    ensures { FaultsSpellNone }
{}

/// A final state stays, whatever is heard later; what is heard of a message has its id; and nothing is heard of it exactly where no
/// record has its id.
pub fn the_first_final_state_counts()
    ensures stays { FinalsStay }
    ensures own { HeardIsOwn }
    ensures none { NoneIsOfNone }
{}

/// What was kept of a stream has the line of each deliver_sm that stands among its whole frames.
pub fn arrivals_have_lines()
    ensures { ArrivalsHaveLines }
{}
