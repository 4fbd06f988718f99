//! The schedule of parts that were sent.

ghost use Rattle.std.specs.Prelude.{◌≡◌, ◌∷◌, [], IfOk, OnOk, length, map, string_bytes};
ghost use Rattle.sms_core.specs.Replies.{outcome_of, outcome_of_last};
ghost use Rattle.sms_book.specs.Openings.{credits_of};
ghost use Rattle.sms_journal.specs.Replied.{said};
ghost use Rattle.sms_journal.specs.Schedules.{give_up_events, in_turn as all_in_turn, is_given_up as they_are_given_up, last_lets_again, lets_again, part_events, parts_events, schedule_of, those, top_ups};
ghost use Rattle.sms_journal.specs.Turns.{drawn_by, is_of_turn as phase_has_turn, named_from};
ghost use Rattle.sms_journal.specs.ScheduleText.{Adds, Fits, schedule_text, world_text};

use crate::audit::lines::{
    Lines, write_attempts, write_claim, write_discard, write_release, write_reserve, write_top_up,
};
use crate::audit::part::{Answer, SentPart};
use sms_book::Opening;
use sms_core::{Phase, is_charge, is_retry};
use sms_files::memory::{self, NoMemory};
use std::alloc::Global;

/// When a part has its turn: those whose credits came back are first, then those that were charged, and last those
/// whose credits stay reserved.
#[derive(Clone, Copy, Debug, PartialEq, Eq)]
pub(crate) enum Turn {
    Back,
    Charged,
    Unanswered,
}

/// Whether a part of this phase has this turn.
fn is_of_turn(turn: Turn, phase: Phase) -> bool
    ensures { result ≡ phase_has_turn turn phase }
{
    match phase {
        Phase::Refused | Phase::Unsent => turn == Turn::Back,
        Phase::Charged => turn == Turn::Charged,
        Phase::Unanswered => turn == Turn::Unanswered,
        Phase::Ready | Phase::Open => false,
    }
}

/// What the last attempt comes to.
fn phase_of_last(answer: Option<Answer>) -> Phase
    ensures { result ≡ outcome_of_last (said answer) }
{
    match answer {
        None => Phase::Unanswered,
        Some(answer) => {
            if is_charge(answer.status, answer.nack) {
                Phase::Charged
            } else {
                Phase::Refused
            }
        }
    }
}

/// What attempts come to.
fn phase_of(attempts: &[Option<Answer>]) -> Phase
    ensures { result ≡ outcome_of (map said attempts.now) }
{
    match attempts.last() {
        None => Phase::Unsent,
        Some(last) => phase_of_last(*last),
    }
}

/// Whether an answer lets the request be sent again.
fn is_again(answer: Option<Answer>) -> bool
    ensures { result ≡ lets_again (said answer) }
{
    match answer {
        None => false,
        Some(answer) => is_retry(answer.status, answer.nack),
    }
}

/// Whether the last attempt, if there is one, lets the request be sent again.
fn lets_again_at_last(attempts: &[Option<Answer>]) -> bool
    ensures { result ≡ last_lets_again (map said attempts.now) }
{
    match attempts.last() {
        None => true,
        Some(last) => is_again(*last),
    }
}

/// Whether the request could be sent again, and so has to be given up.
fn is_given_up(most: u32, attempts: &[Option<Answer>]) -> bool
    ensures { result ≡ they_are_given_up most (map said attempts.now) }
{
    lets_again_at_last(attempts) && (attempts.len() as u64) < u64::from(most)
}

/// The line of a request that is given up.
fn write_end(lines: &mut Lines, name: u64, given_up: bool) -> Result<(), NoMemory>
    requires { Fits lines.old }
    ensures { OnOk result (Adds lines.old lines.new (give_up_events name given_up) 0) }
{
    if given_up {
        write_discard(lines, name)
    } else {
        Ok(())
    }
}

/// The events of a part.
fn write_part(lines: &mut Lines, most: u32, name: u64, part: &SentPart) -> Result<(), NoMemory>
    requires { Fits lines.old }
    ensures { OnOk result (Adds lines.old lines.new (part_events most lines.old.next (named_from name part.now)) (length part.now.attempts)) }
{
    let attempts = part.attempts.as_slice();
    let given_up = is_given_up(most, attempts);
    write_reserve(lines, name, part.account as u64, u64::from(part.cost))?;
    write_attempts(lines, name, attempts)?;
    write_end(lines, name, given_up)
}

/// The events of a part, where it has this turn.
fn write_in_turn(
    lines: &mut Lines,
    most: u32,
    turn: Turn,
    name: u64,
    part: &SentPart,
) -> Result<(), NoMemory>
    requires { Fits lines.old }
    ensures { OnOk result (Adds lines.old lines.new (parts_events most lines.old.next (those (phase_has_turn turn) name (part.now ∷ []))) (drawn_by (those (phase_has_turn turn) name (part.now ∷ [])))) }
{
    if is_of_turn(turn, phase_of(part.attempts.as_slice())) {
        write_part(lines, most, name, part)
    } else {
        Ok(())
    }
}

/// The events of the parts that have this turn.
fn write_turn(lines: &mut Lines, most: u32, turn: Turn, parts: &[SentPart]) -> Result<(), NoMemory>
    requires { Fits lines.old }
    ensures { OnOk result (Adds lines.old lines.new (parts_events most lines.old.next (those (phase_has_turn turn) 0 parts.now)) (drawn_by (those (phase_has_turn turn) 0 parts.now))) }
{
    for place in 0..parts.len() {
        write_in_turn(lines, most, turn, place as u64, &parts[place])?;
    }
    Ok(())
}

/// The top-ups of the accounts.
fn write_top_ups(lines: &mut Lines, openings: &[Opening]) -> Result<(), NoMemory>
    requires { Fits lines.old }
    ensures { OnOk result (Adds lines.old lines.new (top_ups 0 (credits_of openings.now)) 0) }
{
    for place in 0..openings.len() {
        write_top_up(lines, place as u64, openings[place].credits)?;
    }
    Ok(())
}

/// The first line, of a world of so many accounts, and the number 1.
fn start(alloc: Global, accounts: usize, most: u32) -> Result<Lines, NoMemory>
    ensures text { IfOk result (λ lines. string_bytes lines.text ≡ world_text accounts most) }
    ensures events { IfOk result (λ lines. lines.events ≡ 0) }
    ensures next { IfOk result (λ lines. lines.next ≡ 1) }
    ensures fits { IfOk result Fits }
{
    let mut text = String::new(alloc);
    memory::append_number(&mut text, "world,", accounts as u64)?;
    memory::append_number(&mut text, ",", 1)?;
    memory::append_number(&mut text, ",", u64::from(most))?;
    memory::append(&mut text, "\n")?;
    Ok(Lines {
        text,
        events: 0,
        next: 1,
    })
}

/// The events of all parts, each in its turn.
fn write_parts(lines: &mut Lines, most: u32, parts: &[SentPart]) -> Result<(), NoMemory>
    requires { Fits lines.old }
    ensures { OnOk result (Adds lines.old lines.new (parts_events most lines.old.next (all_in_turn parts.now)) (drawn_by (all_in_turn parts.now))) }
{
    write_turn(lines, most, Turn::Back, parts)?;
    write_turn(lines, most, Turn::Charged, parts)?;
    write_turn(lines, most, Turn::Unanswered, parts)
}

/// The whole schedule of these parts, each sent at most so often, of accounts that were opened so.
pub(crate) fn schedule_lines(
    alloc: Global,
    most: u32,
    openings: &[Opening],
    parts: &[SentPart],
) -> Result<Lines, NoMemory>
    ensures text { IfOk result (λ lines. string_bytes lines.text ≡ schedule_text (length openings.now) most (schedule_of most (credits_of openings.now) parts.now)) }
    ensures events { IfOk result (λ lines. lines.events ≡ length (schedule_of most (credits_of openings.now) parts.now)) }
{
    let mut lines = start(alloc, openings.len(), most)?;
    write_top_ups(&mut lines, openings)?;
    write_claim(&mut lines)?;
    write_parts(&mut lines, most, parts)?;
    write_release(&mut lines)?;
    Ok(lines)
}
