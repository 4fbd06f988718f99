//! The lines of a schedule.

ghost use Rattle.std.specs.Prelude.{◌≡◌, ◌∷◌, [], OnOk, codes, length, map};
ghost use Rattle.sms_core.specs.declared.event.Event.TheVariants.{Claim, Discard, Expire, Post, Release, Reserve, Respond, Settle, TopUp};
ghost use Rattle.sms_journal.specs.Replied.{said};
ghost use Rattle.sms_journal.specs.Schedules.{answer_events, attempt_events};
ghost use Rattle.sms_journal.specs.ScheduleText.{Adds, Fits, Writes, flag as flag_of, one_number, three_numbers, two_numbers};

use crate::audit::part::Answer;
use sms_files::memory::{self, NoMemory};

/// The text of a schedule so far, of how many events it is, and the next sequence number.
#[derive(Drop)]
pub(crate) struct Lines {
    pub(crate) text: String,
    pub(crate) events: u64,
    pub(crate) next: u64,
}

/// Ends the line of an event.
fn end_line(lines: &mut Lines) -> Result<(), NoMemory>
    requires { Fits lines.old }
    ensures { OnOk result (Writes lines.old lines.new (codes "\n")) }
{
    memory::append(&mut lines.text, "\n")?;
    let size = lines.text.as_bytes().len();
    lines.events += 1;
    prove!(lines.next < size as u64);
    Ok(())
}

/// A word and the number behind it.
fn write_one(lines: &mut Lines, word: &str, a: u64) -> Result<(), NoMemory>
    requires { Fits lines.old }
    ensures { OnOk result (Writes lines.old lines.new (one_number word.now a)) }
{
    memory::append_number(&mut lines.text, word, a)?;
    end_line(lines)
}

/// A word and two numbers.
fn write_two(lines: &mut Lines, word: &str, a: u64, b: u64) -> Result<(), NoMemory>
    requires { Fits lines.old }
    ensures { OnOk result (Writes lines.old lines.new (two_numbers word.now a b)) }
{
    memory::append_number(&mut lines.text, word, a)?;
    memory::append_number(&mut lines.text, ",", b)?;
    end_line(lines)
}

/// A word and three numbers.
fn write_three(lines: &mut Lines, word: &str, a: u64, b: u64, c: u64) -> Result<(), NoMemory>
    requires { Fits lines.old }
    ensures { OnOk result (Writes lines.old lines.new (three_numbers word.now a b c)) }
{
    memory::append_number(&mut lines.text, word, a)?;
    memory::append_number(&mut lines.text, ",", b)?;
    memory::append_number(&mut lines.text, ",", c)?;
    end_line(lines)
}

/// The number for whether an answer is a generic_nack.
fn flag(nack: bool) -> u64
    ensures { result ≡ flag_of nack }
{
    if nack { 1 } else { 0 }
}

/// An account gets credits.
pub(crate) fn write_top_up(lines: &mut Lines, account: u64, amount: u64) -> Result<(), NoMemory>
    requires { Fits lines.old }
    ensures { OnOk result (Adds lines.old lines.new (TopUp account amount ∷ []) 0) }
{
    write_two(lines, "topup,", account, amount)
}

/// A request sets credits of its account aside.
pub(crate) fn write_reserve(
    lines: &mut Lines,
    name: u64,
    account: u64,
    cost: u64,
) -> Result<(), NoMemory>
    requires { Fits lines.old }
    ensures { OnOk result (Adds lines.old lines.new (Reserve name account cost ∷ []) 0) }
{
    write_three(lines, "reserve,", name, account, cost)
}

/// The worker takes the slot.
pub(crate) fn write_claim(lines: &mut Lines) -> Result<(), NoMemory>
    requires { Fits lines.old }
    ensures { OnOk result (Adds lines.old lines.new (Claim 0 0 ∷ []) 0) }
{
    write_two(lines, "claim,", 0, 0)
}

/// The worker sends a request through the slot, with the next sequence number.
fn write_post(lines: &mut Lines, name: u64) -> Result<(), NoMemory>
    requires { Fits lines.old }
    ensures { OnOk result (Adds lines.old lines.new (Post 0 0 name ∷ []) 1) }
{
    write_three(lines, "post,", 0, 0, name)?;
    let size = lines.text.as_bytes().len();
    prove!(lines.next < size as u64);
    lines.next += 1;
    Ok(())
}

/// An answer with a number comes in.
fn write_respond(lines: &mut Lines, number: u64, answer: Answer) -> Result<(), NoMemory>
    requires { Fits lines.old }
    ensures { OnOk result (Adds lines.old lines.new (Respond number answer.status answer.nack ∷ []) 0) }
{
    write_three(
        lines,
        "respond,",
        number,
        u64::from(answer.status),
        flag(answer.nack),
    )
}

/// The worker takes the answer.
fn write_settle(lines: &mut Lines) -> Result<(), NoMemory>
    requires { Fits lines.old }
    ensures { OnOk result (Adds lines.old lines.new (Settle 0 0 ∷ []) 0) }
{
    write_two(lines, "settle,", 0, 0)
}

/// The worker waits for no answer any more.
fn write_expire(lines: &mut Lines) -> Result<(), NoMemory>
    requires { Fits lines.old }
    ensures { OnOk result (Adds lines.old lines.new (Expire 0 0 ∷ []) 0) }
{
    write_two(lines, "expire,", 0, 0)
}

/// The request is given up.
pub(crate) fn write_discard(lines: &mut Lines, name: u64) -> Result<(), NoMemory>
    requires { Fits lines.old }
    ensures { OnOk result (Adds lines.old lines.new (Discard name ∷ []) 0) }
{
    write_one(lines, "discard,", name)
}

/// The worker gives the slot back.
pub(crate) fn write_release(lines: &mut Lines) -> Result<(), NoMemory>
    requires { Fits lines.old }
    ensures { OnOk result (Adds lines.old lines.new (Release 0 0 ∷ []) 0) }
{
    write_two(lines, "release,", 0, 0)
}

/// What becomes of what was posted with this number.
fn write_answer(lines: &mut Lines, number: u64, answer: Option<Answer>) -> Result<(), NoMemory>
    requires { Fits lines.old }
    ensures { OnOk result (Adds lines.old lines.new (answer_events number (said answer)) 0) }
{
    match answer {
        None => write_expire(lines),
        Some(answer) => {
            write_respond(lines, number, answer)?;
            write_settle(lines)
        }
    }
}

/// An attempt, with the next sequence number.
fn write_attempt(lines: &mut Lines, name: u64, answer: Option<Answer>) -> Result<(), NoMemory>
    requires { Fits lines.old }
    ensures { OnOk result (Adds lines.old lines.new (Post 0 0 name ∷ answer_events lines.old.next (said answer)) 1) }
{
    let number = lines.next;
    write_post(lines, name)?;
    write_answer(lines, number, answer)
}

/// All attempts of a request.
pub(crate) fn write_attempts(
    lines: &mut Lines,
    name: u64,
    attempts: &[Option<Answer>],
) -> Result<(), NoMemory>
    requires { Fits lines.old }
    ensures { OnOk result (Adds lines.old lines.new (attempt_events name lines.old.next (map said attempts.now)) (length attempts.now)) }
{
    for place in 0..attempts.len() {
        write_attempt(lines, name, attempts[place])?;
    }
    Ok(())
}
