//! What holds of every ledger: laws over the definitions alone.

ghost use Rattle.sms_ledger.specs.Names.{OctetsAreSpelled, SpellingsAreOne};
ghost use Rattle.sms_ledger.specs.Laws.{AccountsAreBounded, AccountsAreListed, PrefixesAreLedgers, PrefixesBalance, PartsAreDecidedOnce, PartsAreNamedApart, PaymentsAreBookedOnce, RunsBringBackOnce, RunsHoldApart, StatementsAreWhole};
ghost use Rattle.sms_ledger.specs.PostingLaws.{BookedAppend, FilesGoOn, FilesTakeEntries, PostsAppend, ReturnsAreBooked, ReturnsBringBack, TakingsAreBooked, TakingsTakeAll};
ghost use Rattle.sms_ledger.specs.TextLaws.{CutsLoseOne, EntriesAppend, PrefixesSpellPrefixes, HeadersBegin, LinesAppend, TextsSpellOnce, WholesSpell, BooksAreOne, FaultsSpellNone, UnbegunHasNone, WholeLinesAreWhole};

/// Each prefix of a ledger is a ledger, in which every account balances.
pub fn prefixes_balance()
    ensures prefixes { PrefixesAreLedgers }
    ensures balance { PrefixesBalance }
{}

/// No run's credits come back twice, and none that it didn't take.
pub fn runs_bring_back_once()
    ensures once { RunsBringBackOnce }
    ensures whole { StatementsAreWhole }
{}

/// No credit is with two runs.
pub fn runs_hold_apart()
    ensures { RunsHoldApart }
{}

/// A payment that has a reference is booked once.
pub fn payments_are_booked_once()
    ensures { PaymentsAreBookedOnce }
{}

/// A part is decided once.
pub fn parts_are_decided_once()
    ensures once { PartsAreDecidedOnce }
    ensures apart { PartsAreNamedApart }
{}

/// Each account is listed once, and has paid for at most 2^40 credits.
pub fn accounts_are_listed()
    ensures listed { AccountsAreListed }
    ensures bounded { AccountsAreBounded }
{}

/// Each prefix of a ledger's octets spells a prefix of its entries, a truncated line loses its own entry alone, and
/// octets spell one list of entries.
pub fn prefixes_spell_prefixes()
    ensures prefixes { PrefixesSpellPrefixes }
    ensures cuts { CutsLoseOne }
    ensures once { TextsSpellOnce }
{}

/// The line of an entry that may follow, after the octets of a ledger whose lines are whole, spells the
/// ledger with that entry.
pub fn lines_append()
    ensures begin { HeadersBegin }
    ensures whole { WholesSpell }
    ensures lines { LinesAppend }
    ensures entries { EntriesAppend }
{}

/// Octets are those of one ledger, or have a fault.
pub fn faults_spell_none()
    ensures none { FaultsSpellNone }
    ensures one { BooksAreOne }
{}

/// The whole lines of a ledger's octets are the ledger, so the next line goes after them.
pub fn whole_lines_are_whole()
    ensures whole { WholeLinesAreWhole }
    ensures none { UnbegunHasNone }
{}

/// Octets have one spelling, which is a name's where it isn't too long.
pub fn octets_have_one_spelling()
    ensures spelled { OctetsAreSpelled }
    ensures one { SpellingsAreOne }
{}

/// All free credits of distinct accounts can be taken by a run that took none of them, and then they are
/// out with it.
pub fn takings_are_booked()
    ensures booked { TakingsAreBooked }
    ensures all { TakingsTakeAll }
{}

/// A run's statement of distinct accounts, whose rows add up to what it took, can be booked, and then nothing
/// of them is out with it.
pub fn returns_are_booked()
    ensures booked { ReturnsAreBooked }
    ensures back { ReturnsBringBack }
{}

/// The lines of entries that were booked, after the octets of a ledger whose lines are whole, spell the
/// ledger with those entries: what is appended is what was booked.
pub fn posts_append()
    ensures lines { PostsAppend }
    ensures entries { BookedAppend }
{}

/// What is appended to a file's whole lines makes it the ledger with the entries that were booked.
pub fn files_go_on()
    ensures entries { FilesGoOn }
    ensures entry { FilesTakeEntries }
{}
