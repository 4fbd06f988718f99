//! A bind's window, with the number of its bind, and the workers' seats, split off the keeper's.

ghost use Rattle.std.specs.Prelude.{◌≡◌, ℕ, ◌-◌, ◌^◌, ◌<◌, ◌≤◌, [], ◌∷◌, length, map, IfErr, IfOk};
ghost use Rattle.std.specs.List.{AllByRecursion};
ghost use Rattle.atomic_table.specs.Seated.{TableId};
ghost use Rattle.sms_core.specs.Limits.{most_slots};
ghost use Rattle.sms_window.specs.Names.{HasNames};
ghost use Rattle.sms_window.specs.Outcome.{IsLimit};
ghost use Rattle.sms_driver.specs.declared.fault.SendFault.TheVariants.{OutOfMemory};

use crate::binding::binds::WorkerSeat;
use crate::fault::SendFault;
use rtrb::Consumer;
use sms_pdu::Reply;
use sms_window::{Window, WindowSeat};
use sms_worker::{Number, draw};
use std::alloc::{AllocError, Global};

/// A new window and its keeper's seat, and the number that this seat drew from it for the bind.
#[derive(Drop)]
pub struct NewWindow {
    pub window: Window,
    pub keeper: WindowSeat,
    pub number: u32,
}

/// Makes a window with `limit` slots, and draws the number of its bind (SMPP 3.4 4.1). Its keeper still has all
/// names, so no other seat draws: if this draw gave no number, the window would end with numbers that no seat
/// has.
pub fn open_window(alloc: Global, limit: u32) -> Result<NewWindow, SendFault>
    ensures limit { IfOk result (λ n. IsLimit limit) }
    ensures same_window { IfOk result (λ n. n.keeper.window ≡ n.window) }
    ensures names { IfOk result (λ n. HasNames 64 n.keeper.view) }
    // It holds the slots from the limit on, and the window's numbers begin at 1.
    ensures keeper { IfOk result (λ n. (n.keeper.view.slots ≡ 2 ^ most_slots - 2 ^ limit) × (n.keeper.view.first ≡ 1)) }
    ensures number { IfOk result (λ n. n.keeper.view.numbers ≡ n.number ∷ []) }
    ensures refused { IfErr result (λ fault. fault ≡ OutOfMemory) }
{
    let Ok((window, mut keeper)) = Window::make(alloc, limit) else {
        return Err(SendFault::OutOfMemory);
    };
    match draw(&window, &mut keeper) {
        Number::Drawn(number) => Ok(NewWindow {
            window,
            keeper,
            number,
        }),
        Number::UsedUp | Number::Contended => {
            let _closed = window.close(keeper);
            unreachable!()
        }
    }
}

/// Splits a seat off for each worker, which gets its end of a ring with it.
pub fn split_seats(
    alloc: Global,
    window: &Window,
    keeper: &mut WindowSeat,
    consumers: Vec<Consumer<Reply>>,
) -> Result<Vec<WorkerSeat>, AllocError>
    requires same_window { keeper.old.window ≡ window.now }
    requires names { (n : ℕ) × (length consumers.items < n) × (n ≤ 64) × HasNames n keeper.old.view }
    ensures window { keeper.new.window ≡ keeper.old.window }
    ensures names { (n : ℕ) → length consumers.items < n → n ≤ 64 → HasNames n keeper.old.view → IfOk result (λ _. HasNames (n - length consumers.items) keeper.new.view) }
    // It has its slots and its numbers, and the window's begin where they did.
    ensures kept { (keeper.new.view.slots ≡ keeper.old.view.slots) × (keeper.new.view.numbers ≡ keeper.old.view.numbers) × (keeper.new.view.first ≡ keeper.old.view.first) }
    ensures consumers { IfOk result (λ v. map (λ w. w.consumer) v.items ≡ consumers.items) }
    ensures seats { IfOk result (λ v. AllByRecursion (λ w. w.seat.window ≡ window.now) v.items) }
{
    let mut workers = Vec::with_capacity(alloc, consumers.len())?;
    for consumer in consumers {
        let seat = window.split(keeper);
        workers.push_reserved(WorkerSeat { seat, consumer });
    }
    Ok(workers)
}
