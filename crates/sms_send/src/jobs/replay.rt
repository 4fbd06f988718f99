//! The replay of a schedule.

ghost use Rattle.std.specs.Prelude.{◌≡◌, ◌≢◌, None, IfErr, IfOk, IfSome, OnOk, string_bytes};
ghost use Rattle.sms_files.specs.Fields.{records_of};
ghost use Rattle.sms_send.specs.Faults.{output_failed};
ghost use Rattle.sms_send.specs.Replays.{OfReplay, PrintsRun, Replays, BeginsReplay, FailsReplay, FailsSchedule};
ghost use Rattle.sms_files.specs.Schedule.{schedule_fault};

use crate::faults::fault::Fault;
use sms_core::{Event, World};
use sms_files::{Schedule, read_schedule, replay_text, write_out};
use std::alloc::{AllocError, Global};
use std::io::{Read, Write};

/// Replays the schedule that is read from `input`, and writes what became of each event and of the
/// world.
///
/// The input is read and checked whole, and the output is formed whole, before anything is written.
/// Where the output fails, what went out is the beginning of that.
pub fn run_replay<R: Read + Drop, W: Write>(
    alloc: Global,
    input: R,
    output: &mut W,
) -> Result<u8, Fault>
    ensures status { IfOk result (λ status. status ≡ 0) }
    ensures replayed { OnOk result (IfSome (R.remaining input) (λ bytes. Replays bytes (W.contents output.old) (W.contents output.new))) }
    ensures accepted { OnOk result (IfSome (R.remaining input) (λ bytes. schedule_fault (records_of bytes) ≡ None)) }
    ensures refused { IfErr result (λ fault. IfSome (R.remaining input) (λ bytes. FailsReplay (records_of bytes) fault)) }
    ensures front { IfErr result (λ fault. fault ≡ output_failed → IfSome (R.remaining input) (λ bytes. BeginsReplay bytes (W.contents output.old) (W.contents output.new))) }
    ensures unwritten { IfErr result (λ fault. fault ≢ output_failed → output.new ≡ output.old) }
{
    let text = replayed(alloc, input)?;
    write_out(output, text.as_bytes())?;
    Ok(0)
}

/// What is printed of the schedule that is read from `input`.
fn replayed<R: Read + Drop>(alloc: Global, input: R) -> Result<String, Fault>
    ensures text { IfOk result (λ text. IfSome (R.remaining input) (OfReplay (λ printed. string_bytes text ≡ printed))) }
    ensures accepted { OnOk result (IfSome (R.remaining input) (λ bytes. schedule_fault (records_of bytes) ≡ None)) }
    ensures refused { IfErr result (λ fault. IfSome (R.remaining input) (λ bytes. FailsSchedule (records_of bytes) fault)) }
{
    let Schedule { mut world, events } = read_schedule(alloc, input)?;
    let text = text_after(alloc, &mut world, events.as_slice());
    drop(events);
    drop(world);
    Ok(text?)
}

/// Lets the events happen in the world, and gives what is printed of them.
fn text_after(alloc: Global, world: &mut World, events: &[Event]) -> Result<String, AllocError>
    ensures { IfOk result (λ text. PrintsRun world.old events.now world.new (string_bytes text)) }
{
    let answers = world.run(events)?;
    replay_text(alloc, answers.as_slice(), world)
}
