//! The laws of a window, over every state that meets its rule and every run of steps. Each holds of
//! all numbers of seats and threads, in any order of their steps.

ghost use Rattle.sms_window.specs.Laws.{RuleIsOrderly, OpeningMeetsRule, MoveKeepsRule, RunIsOrderly, MoveIsStep, ClaimedOnce, DrawnOnce, DroppedStays, GivesGreatest};
ghost use Rattle.sms_window.specs.OpenSlots.{NoneMore, OneMore, OneLess};
ghost use Rattle.sms_window.specs.Drawing.{DrawsNone, DrawsOne, LooksDrawNone, ClaimsDrawNone, ReleasesDrawNone, DrawsAddUp, DrawsEachOnce};
ghost use Rattle.sms_window.specs.Names.{KeeperHasAll, GivesInTurn, GivesAll};
ghost use Rattle.sms_window.specs.Plays.{loaded, exchanged, masked, IsLook, IsClaimOrLook, IsReleased, IsLookAtNumber, IsDrawOrLook, StepsAre, SplitIsMove, JoinIsMove};

use crate::rule::{
    ExchangeClaim, ExchangeDraw, Families, FetchRelease, LoadNumber, LoadWindow, WindowRule,
};
use crate::view::{Opening, View};
use atomic_table::{Join, Play, Split, TableRule};

/// What the rule of a window's table says in plain terms: the seats' pairs are a lawful hold set whose word is the
/// window word, their numbers are those from the first to below the number word, each once, and no
/// two families share a name.
pub fn rule_is_orderly()
    ensures { RuleIsOrderly ⟦<WindowRule as TableRule<(), View, Opening>>⟧.holds }
{}

/// A new window meets the rule.
pub fn opening_meets_rule()
    ensures { OpeningMeetsRule ⟦<WindowRule as TableRule<(), View, Opening>>⟧.holds ⟦<WindowRule as TableRule<(), View, Opening>>⟧.first }
{}

/// Each kind of step keeps the rule.
pub fn move_keeps_rule()
    ensures { MoveKeepsRule }
{}

/// So it holds after every run of steps from a new window.
pub fn run_is_orderly()
    ensures { RunIsOrderly }
{}

/// Each kind of step is the step on hold sets of its name, and a draw is one on drawn numbers. The
/// seat that steps on a word knows that word then; names change by splits and joins alone.
pub fn move_is_step()
    ensures { MoveIsStep }
{}

/// No slot is claimed again before its holder has released it.
pub fn claimed_once()
    ensures { ClaimedOnce }
{}

/// No number is drawn twice.
pub fn drawn_once()
    ensures { DrawnOnce }
{}

/// What a seat has stays while others step: so also the slots and numbers of a seat that was
/// dropped.
pub fn dropped_stays()
    ensures { DroppedStays }
{}

/// A seat can split where its family has a name beside its own, and gives the greatest of these.
pub fn gives_greatest()
    ensures { GivesGreatest }
{}

/// The program's load of the window word is a look at it.
pub fn load_is_look()
    ensures { StepsAre ⟦<LoadWindow as Play<(), View>>⟧.then loaded IsLook }
{}

/// Its exchange of the window word is a claim, or a look where it finds another word.
pub fn exchange_is_claim()
    ensures { StepsAre ⟦<ExchangeClaim as Play<(), View>>⟧.then exchanged IsClaimOrLook }
{}

/// Its change of the window word by a mask is a release.
pub fn fetch_is_release()
    ensures { StepsAre ⟦<FetchRelease as Play<(), View>>⟧.then masked IsReleased }
{}

/// Its load of the number word is a look at it.
pub fn number_load_is_look()
    ensures { StepsAre ⟦<LoadNumber as Play<(), View>>⟧.then loaded IsLookAtNumber }
{}

/// Its exchange of the number word is a draw, or a look where it finds another number.
pub fn exchange_is_draw()
    ensures { StepsAre ⟦<ExchangeDraw as Play<(), View>>⟧.then exchanged IsDrawOrLook }
{}

/// Its split of a seat, and its join of two, are those of the laws.
pub fn families_are_moves()
    ensures split { SplitIsMove ⟦<Families as Split<View>>⟧.left ⟦<Families as Split<View>>⟧.right }
    ensures join { JoinIsMove ⟦<Families as Join<View>>⟧.both ⟦<Families as Join<View>>⟧.spent }
{}

/// A seat's slots, as those that it had and some that it opened beside them: a claim opens one
/// more, and each open one may be released, whatever its place in their list.
pub fn slots_open_and_close()
    ensures none { NoneMore }
    ensures more { OneMore }
    ensures less { OneLess }
{}

/// What a seat drew since it was as it was: a draw adds its number and no other step does, the
/// numbers of one stretch stand behind those of the stretch before it, and none comes twice.
pub fn draws_add_up()
    ensures none { DrawsNone }
    ensures one { DrawsOne }
    ensures looks { LooksDrawNone }
    ensures claims { ClaimsDrawNone }
    ensures releases { ReleasesDrawNone }
    ensures stretches { DrawsAddUp }
    ensures once { DrawsEachOnce }
{}

/// The keeper's seat has all 64 names at first. It can split 63 times, and gives them from the
/// greatest down.
pub fn keeper_gives_in_turn()
    ensures all { KeeperHasAll }
    ensures next { GivesInTurn }
    ensures after { GivesAll }
{}
