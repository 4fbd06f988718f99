//! What replay prints.

ghost use Rattle.std.specs.Prelude.{◌≡◌, ◌++◌, decimal, flat_map, IfOk, OnOk, string_bytes};
ghost use Rattle.sms_files.specs.ReplayText.{account_line, account_lines, cause_name as name_of_cause, event_line, event_lines, phase_name as name_of_phase, or_none, replay_text as text_of_replay, request_line, row_line, slot_line, slot_lines};

use sms_core::{Cause, MOST_SLOTS, Phase, Request, Row, Step, World};
use std::alloc::{AllocError, Global};
use std::fmt::Write;

/// The name that an ignored event's line gives its cause.
fn cause_name(cause: Cause) -> &'static str
    ensures { result.now ≡ name_of_cause cause }
{
    match cause {
        Cause::NoAccount => "NoAccount",
        Cause::NoCredit => "NoCredit",
        Cause::SlotHeld => "SlotHeld",
        Cause::NotHolder => "NotHolder",
        Cause::SlotBusy => "SlotBusy",
        Cause::NoRequest => "NoRequest",
        Cause::NotOpen => "NotOpen",
        Cause::UnknownNumber => "UnknownNumber",
        Cause::NumbersUsedUp => "NumbersUsedUp",
        Cause::AmountTooLarge => "AmountTooLarge",
        Cause::RequestKnown => "RequestKnown",
        Cause::BadCost => "BadCost",
        Cause::NoReply => "NoReply",
    }
}

/// The word that a request's line ends with.
fn phase_name(phase: Phase) -> &'static str
    ensures { result.now ≡ name_of_phase phase }
{
    match phase {
        Phase::Ready => "ready",
        Phase::Open => "open",
        Phase::Charged => "charged",
        Phase::Refused => "refused",
        Phase::Unanswered => "unanswered",
        Phase::Unsent => "unsent",
    }
}

/// The line of the event at a place, counted from 1.
fn write_event(text: &mut String, place: usize, answer: Step) -> Result<(), AllocError>
    ensures { OnOk result (string_bytes text.new ≡ string_bytes text.old ++ event_line place answer) }
{
    match answer {
        Step::Done => writeln!(text, "{place} done"),
        Step::Ignored(cause) => {
            let name = cause_name(cause);
            writeln!(text, "{place} ignored {name}")
        }
    }
}

/// A line for each event.
fn write_events(text: &mut String, answers: &[Step]) -> Result<(), AllocError>
    ensures { OnOk result (string_bytes text.new ≡ string_bytes text.old ++ event_lines 1 answers.now) }
{
    for (index, answer) in answers.iter().enumerate() {
        write_event(text, index + 1, *answer)?;
    }
    Ok(())
}

/// A label and the number after it.
fn write_number(text: &mut String, label: &str, number: u64) -> Result<(), AllocError>
    ensures { OnOk result (string_bytes text.new ≡ string_bytes text.old ++ label.now ++ decimal number) }
{
    write!(text, "{label}{number}")
}

/// The line of an account, and none where there is no such account.
fn write_account(text: &mut String, account: u32, row: Option<Row>) -> Result<(), AllocError>
    ensures { OnOk result (string_bytes text.new ≡ string_bytes text.old ++ row_line account row) }
{
    match row {
        None => Ok(()),
        Some(row) => write_row(text, account, row),
    }
}

/// The line of an account that has this row.
fn write_row(text: &mut String, account: u32, row: Row) -> Result<(), AllocError>
    ensures { OnOk result (string_bytes text.new ≡ string_bytes text.old ++ account_line account row) }
{
    write_number(text, "account ", u64::from(account))?;
    write_number(text, " topped ", row.topped)?;
    write_number(text, " free ", row.free)?;
    write_number(text, " reserved ", row.reserved)?;
    write_number(text, " charged ", row.charged)?;
    write_number(text, " returned ", row.returned)?;
    text.push_str("\n")
}

/// The line of a request.
fn write_request(text: &mut String, request: Request) -> Result<(), AllocError>
    ensures { OnOk result (string_bytes text.new ≡ string_bytes text.old ++ request_line request) }
{
    let Request { id, state } = request;
    write_number(text, "request ", u64::from(id))?;
    write_number(text, " account ", u64::from(state.account))?;
    write_number(text, " cost ", u64::from(state.cost))?;
    write_number(text, " attempts ", u64::from(state.attempts))?;
    let phase = phase_name(state.phase);
    writeln!(text, " {phase}")
}

/// A line for each request.
fn write_requests(text: &mut String, requests: &[Request]) -> Result<(), AllocError>
    ensures { OnOk result (string_bytes text.new ≡ string_bytes text.old ++ flat_map request_line requests.now) }
{
    for request in requests {
        write_request(text, *request)?;
    }
    Ok(())
}

/// The line of a slot that is held, and none of another.
fn write_slot(text: &mut String, slot: u32, holder: Option<u32>) -> Result<(), AllocError>
    ensures { OnOk result (string_bytes text.new ≡ string_bytes text.old ++ slot_line slot holder) }
{
    match holder {
        None => Ok(()),
        Some(worker) => writeln!(text, "held {slot} by {worker}"),
    }
}

/// A line for each account.
fn write_accounts(text: &mut String, world: &World) -> Result<(), AllocError>
    ensures { OnOk result (string_bytes text.new ≡ string_bytes text.old ++ account_lines world.now) }
{
    for account in 0..world.accounts() {
        write_account(text, account as u32, world.row(account as u32))?;
    }
    Ok(())
}

/// A line for each slot that is held.
fn write_slots(text: &mut String, world: &World) -> Result<(), AllocError>
    ensures { OnOk result (string_bytes text.new ≡ string_bytes text.old ++ slot_lines world.now) }
{
    for slot in 0..MOST_SLOTS {
        write_slot(text, slot, world.holder(slot))?;
    }
    Ok(())
}

/// The lines of the held slots, or that none is held.
fn write_held(text: &mut String, world: &World) -> Result<(), AllocError>
    ensures { OnOk result (string_bytes text.new ≡ string_bytes text.old ++ or_none (slot_lines world.now)) }
{
    let before = text.len();
    write_slots(text, world)?;
    if text.len() == before {
        text.push_str("held none\n")?;
    }
    Ok(())
}

/// What is printed of a replay: what became of the events, and the world after them. Only memory can
/// be refused.
pub fn replay_text(alloc: Global, answers: &[Step], world: &World) -> Result<String, AllocError>
    ensures { IfOk result (λ text. string_bytes text ≡ text_of_replay answers.now world.now) }
{
    let mut text = String::new(alloc);
    write_events(&mut text, answers)?;
    write_accounts(&mut text, world)?;
    write_requests(&mut text, world.requests())?;
    write_held(&mut text, world)?;
    write_number(&mut text, "next ", world.next())?;
    text.push_str("\n")?;
    Ok(text)
}
