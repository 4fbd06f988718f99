//! The whole of a sending, from accounts and messages to ends and a statement.

ghost use Rattle.std.specs.Prelude.{◌≡◌, ℕ, ◌*◌, ◌<◌, ◌≤◌, ◌↔◌, length, IsErrOf, IfErr, IfOk, OnOk};
ghost use Rattle.sms_book.specs.Openings.{credits_of};
ghost use Rattle.sms_book.specs.declared.error.BookError.{BookError};
ghost use Rattle.sms_driver.specs.SendFaults.{fault_of_book, IsFaultOfOne, RefusesBook};
ghost use Rattle.sms_driver.specs.Sendings.{Sent};
ghost use Rattle.sms_driver.specs.Starts.{TellsStart};
ghost use Rattle.sms_driver.specs.declared.fault.SendFault.TheVariants.{BookRefused};
ghost use Rattle.sms_driver.specs.declared.start_gate.Command.TheVariants.{Go};
ghost use Rattle.sms_driver.specs.declared.start.StartPhase.TheVariants.{Idle, Released};

use crate::binding::Dial;
use crate::ending::Sending;
use crate::fault::SendFault;
use crate::run::run;
use crate::settings::{Devices, RunSettings};
use crate::start::Start;
use sms_bind::BlankLog;
use sms_book::{BookError, Opening, open_book};
use sms_worker::{Clock, Gate, Message, Pause};
use std::alloc::Global;
use std::marker::Brand;
use std::sync::Wait;
use std::thread::Threads;

/// The fault for a book's refusal.
fn book_fault(why: BookError) -> SendFault
    ensures { result ≡ fault_of_book why }
{
    match why {
        BookError::OutOfMemory => SendFault::OutOfMemory,
        why => SendFault::BookRefused(why),
    }
}

/// Makes all binds, sends all messages, and ends the binds. Nothing is sent if a bind fails.
pub fn drive_all<
    'l,
    D: Dial,
    G: Gate + Sync,
    K: Clock + Sync,
    P: Pause + Sync,
    R: Threads + Wait + Sync,
>(
    rt: &R,
    alloc: Global,
    start: &mut Start<'l>,
    settings: &RunSettings,
    openings: &[Opening],
    messages: Vec<Message>,
    devices: &Devices<'_, D, G, K, P>,
) -> Result<Sending, SendFault>
    requires bound { (settings.now.binds ≤ 4) × (settings.now.workers ≤ 8) }
    requires not_started { start.old.begun ≡ Idle }
    ensures latch { start.new.latch ≡ start.old.latch }
    // All threads were started, and the start signal was given.
    ensures started { OnOk result (start.new.begun ≡ Released Go) }
    // On a fault no thread was let go: a bind fails before the signal, and if a thread is refused the others are ordered to leave.
    ensures phase { IfErr result (TellsStart start.new.begun) }
    ensures sent { IfOk result (Sent settings.now (D.told devices.now.dial.now) (length openings.now) (credits_of openings.now) messages.items) }
    // A fault is of one of the binds, and agrees with what was read of it; or it is of the book, of memory, or of a thread.
    ensures refused { IfErr result (IsFaultOfOne (D.refuses devices.now.dial.now) (D.told devices.now.dial.now) settings.now.bind_settings.settings.mode settings.now.binds) }
    // The fault says that the book is refused if and only if no book can be opened with these accounts, for that cause.
    ensures book { (why : BookError) → IsErrOf result (BookRefused why) ↔ RefusesBook openings.now (settings.now.binds * settings.now.workers) why }
{
    let blank = match open_book(alloc, openings, settings.binds * settings.workers) {
        Ok(blank) => blank,
        Err(why) => return Err(book_fault(why)),
    };
    let Ok(log) = BlankLog::new(alloc) else {
        return Err(SendFault::OutOfMemory);
    };
    run::<Brand, D, G, K, P, R>(rt, alloc, start, blank, log, settings, messages, devices)
}
