//! Which worker and which reader has its place at which bind.

ghost use Rattle.std.specs.Prelude.{◌≡◌, ℕ, ◌+◌, ◌*◌, ◌++◌, List, length, map, IfOk, OnOk};
ghost use Rattle.std.specs.List.{AllByRecursion, AllZip};
ghost use Rattle.sms_driver.specs.Reads.{reading_in, reading_of};
ghost use Rattle.sms_driver.specs.Rings.{flat};
ghost use Rattle.sms_driver.specs.Seated.{all_reader_placements, all_placements, reader_placement_of, consumers_of, placements_from, placement_at, IsSeated, windows};

use crate::binding::binds::WorkerSeat;
use crate::threads::ReaderTask;
use crate::threads::task::WorkerPlace;
use crate::{BindParts, SharedBind};
use sms_bind::LogName;
use std::alloc::{AllocError, Global};
use std::collections::VecDeque;
use std::io::Write;

/// All workers and readers.
#[derive(Drop)]
pub struct Placement<'a, N: LogName, Rd, W: Write> {
    pub places: Vec<WorkerPlace<'a, N, W>>,
    pub reader_tasks: Vec<ReaderTask<'a, N, Rd, W>>,
}

// Gives each worker of a bind its place.
fn seat_workers<'a, N: LogName, W: Write>(
    shared: &'a SharedBind<N, W>,
    workers: Vec<WorkerSeat>,
    places: &mut Vec<WorkerPlace<'a, N, W>>,
) -> Result<(), AllocError>
    requires seats { AllByRecursion (λ w. w.seat.window ≡ shared.now.window) workers.items }
    requires same_window { AllByRecursion (λ p. p.seat.window ≡ p.window.now) places.old.items }
    ensures same_window { OnOk result (AllByRecursion (λ p. p.seat.window ≡ p.window.now) places.new.items) }
    ensures length { OnOk result (length places.new.items ≡ length places.old.items + length workers.items) }
    ensures windows { OnOk result (map (λ p. p.seat.window) places.new.items ≡ map (λ p. p.seat.window) places.old.items ++ map (λ w. w.seat.window) workers.items) }
    ensures rings { OnOk result (map (λ p. p.consumer) places.new.items ≡ map (λ p. p.consumer) places.old.items ++ map (λ w. w.consumer) workers.items) }
    // Each has the next place, with its seat and its ring, at the bind's line and window.
    ensures placements { OnOk result (map placement_at places.new.items ≡ map placement_at places.old.items ++ placements_from shared.now 0 workers.items) }
{
    let before = places.len();
    for worker in workers {
        let place = places.len() - before;
        let WorkerSeat { seat, consumer } = worker;
        places.push(WorkerPlace {
            seat,
            place,
            consumer,
            line: &shared.line,
            window: &shared.window,
        })?;
    }
    Ok(())
}

/// Gives all workers and readers their places.
pub fn seat_all<'a, N: LogName, Rd, W: Write>(
    alloc: Global,
    shared_binds: &'a [SharedBind<N, W>],
    bind_parts: Vec<BindParts<Rd>>,
    workers: usize,
) -> Result<Placement<'a, N, Rd, W>, AllocError>
where
    Rd: Drop,
    W: Drop,
    requires bind_parts { AllZip (IsSeated workers) shared_binds.now bind_parts.items }
    ensures places { IfOk result (λ s. AllByRecursion (λ p. p.seat.window ≡ p.window.now) s.places.items) }
    ensures reader_tasks { IfOk result (λ s. AllByRecursion (λ t. t.seat.window ≡ t.window.now) s.reader_tasks.items) }
    ensures length { IfOk result (λ s. length s.places.items ≡ length shared_binds.now * workers) }
    ensures windows { IfOk result (λ s. map (λ p. p.seat.window) s.places.items ≡ windows workers (map (λ b. b.window) shared_binds.now)) }
    ensures keepers { IfOk result (λ s. map (λ t. t.seat.window) s.reader_tasks.items ≡ map (λ b. b.window) shared_binds.now) }
    // Each place has its ring, and each reader task what its bind's parts have, as they were given.
    ensures rings { IfOk result (λ s. map (λ p. p.consumer) s.places.items ≡ flat (map consumers_of bind_parts.items)) }
    ensures readings { IfOk result (λ s. map reading_of s.reader_tasks.items ≡ map reading_in bind_parts.items) }
    // Bind by bind, each worker has its place, its seat, its ring, and the line and the window of the bind. Each reader
    // has the keeper's seat and the limit that it follows.
    ensures placements { IfOk result (λ s. map placement_at s.places.items ≡ all_placements shared_binds.now bind_parts.items) }
    ensures reader_placements { IfOk result (λ s. map reader_placement_of s.reader_tasks.items ≡ all_reader_placements shared_binds.now bind_parts.items) }
{
    let mut places = Vec::new(alloc);
    let mut reader_tasks = Vec::with_capacity(alloc, shared_binds.len())?;
    let mut bind_parts = VecDeque::from(bind_parts);
    for bind in 0..shared_binds.len() {
        let Some(parts) = bind_parts.pop_front() else {
            unreachable!()
        };
        let shared = &shared_binds[bind];
        let BindParts {
            keeper,
            workers: seats,
            producers,
            reader,
            bound,
            follow,
            number,
            leave,
        } = parts;
        seat_workers(shared, seats, &mut places)?;
        reader_tasks.push_reserved(ReaderTask {
            reader,
            bound,
            follow,
            number,
            producers,
            seat: keeper,
            leave,
            line: &shared.line,
            window: &shared.window,
        });
    }
    Ok(Placement {
        places,
        reader_tasks,
    })
}
