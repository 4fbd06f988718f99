//! Joins the seats of each bind into its keeper's seat, and closes the bind's window.

ghost use Rattle.std.specs.Prelude.{◌≡◌, ◌*◌, ◌<◌, ◌≤◌, [], ◌∷◌, ◌++◌, List, length, map, replicate, take, drop};
ghost use Rattle.std.specs.List.{AllByRecursion};
ghost use Rattle.atomic_table.specs.Seated.{TableId};
ghost use Rattle.sms_driver.specs.BindEnds.{outcome_of, AreBinds};
ghost use Rattle.sms_driver.specs.Handed.{AreWritten, IsBack};
ghost use Rattle.sms_driver.specs.Rings.{flat};
ghost use Rattle.sms_driver.specs.Unbinds.{handed_in, HasHanded, HasTried};
ghost use Rattle.sms_driver.specs.Closings.{HaveClosings};
ghost use Rattle.sms_driver.specs.Joined.{AreClosed, HasJoined, IsClosed};
ghost use Rattle.sms_driver.specs.Numbered.{AllDrewOnce, DrewOnce};
ghost use Rattle.sms_driver.specs.Buffers.{IsFree};
ghost use Rattle.sms_driver.specs.Seated.{windows};

use crate::bind_end::{BindEnd, outcome_in};
use crate::ending::causes::next_closing;
use crate::{DriverSeat, SharedBind};
use sms_bind::{Line, LogKeeper, LogName, ReaderEnd};
use sms_window::{Closed, Window, WindowSeat};
use sms_worker::ClosedBy;
use std::collections::VecDeque;
use std::io::Write;

/// Joins the first `workers` seats into the keeper's seat.
fn join_workers(
    window: &Window,
    keeper: &mut WindowSeat,
    seats: &mut VecDeque<WindowSeat>,
    workers: usize,
)
    requires same_window { keeper.old.window ≡ window.now }
    requires seats { (rest : List TableId) × (map (λ s. s.window) seats.old.items ≡ replicate workers window.now ++ rest) }
    ensures same_window { keeper.new.window ≡ keeper.old.window }
    ensures rest { (rest : List TableId) → map (λ s. s.window) seats.old.items ≡ replicate workers window.now ++ rest → map (λ s. s.window) seats.new.items ≡ rest }
    ensures joined { HasJoined keeper.old.view (take workers (map (λ s. s.view) seats.old.items)) keeper.new.view }
    ensures left { map (λ s. s.view) seats.new.items ≡ drop workers (map (λ s. s.view) seats.old.items) }
{
    for _worker in 0..workers {
        let Some(seat) = seats.pop_front() else {
            unreachable!()
        };
        window.join(keeper, seat);
    }
}

/// Joins the driver's seat and the seats of a bind's workers into its keeper's seat, and closes its window. The
/// bind's wire comes back to the keeper of the log.
fn close_one<N: LogName, W: Write + Drop>(
    log: &mut LogKeeper<N>,
    shared: SharedBind<N, W>,
    keeper: WindowSeat,
    driver: WindowSeat,
    seats: &mut VecDeque<WindowSeat>,
    workers: usize,
) -> Closed
    requires keeper { keeper.window ≡ shared.window }
    requires driver { driver.window ≡ shared.window }
    requires away { 0 < log.old.away }
    requires seats { (rest : List TableId) × (map (λ s. s.window) seats.old.items ≡ replicate workers shared.window ++ rest) }
    ensures log { IsBack 1 [] log.old log.new × AreWritten N.settings 1 log.old.given log.new.given }
    ensures rest { (rest : List TableId) → map (λ s. s.window) seats.old.items ≡ replicate workers shared.window ++ rest → map (λ s. s.window) seats.new.items ≡ rest }
    ensures left { map (λ s. s.view) seats.new.items ≡ drop workers (map (λ s. s.view) seats.old.items) }
    // No two of them drew one number.
    ensures once { DrewOnce (take workers (map (λ s. s.view) seats.old.items)) }
    ensures closed { IsClosed keeper.view (driver.view ∷ take workers (map (λ s. s.view) seats.old.items)) result }
{
    let SharedBind { line, window } = shared;
    let Line {
        slots: _,
        wire,
        down: _,
        stop: _,
    } = line;
    drop(log.take_wire(wire.into_inner()));
    let mut keeper = keeper;
    window.join(&mut keeper, driver);
    join_workers(&window, &mut keeper, seats, workers);
    window.close(keeper)
}

// Takes the first item of a queue that has one.
fn take_first<T>(queue: &mut VecDeque<T>) -> T
    requires { 0 < length queue.old.items }
    ensures { queue.old.items ≡ result ∷ queue.new.items }
{
    let Some(first) = queue.pop_front() else {
        unreachable!()
    };
    first
}

/// What remains of the binds when all threads have ended: in order what a bind's threads shared, its
/// reader's end and the driver's own seat; and how many workers each bind had.
#[derive(Drop)]
pub(crate) struct BindRemains<N: LogName, W: Write> {
    pub shared_binds: Vec<SharedBind<N, W>>,
    pub readers: Vec<ReaderEnd>,
    pub driver_seats: Vec<DriverSeat<N>>,
    pub workers: usize,
}

/// Joins all seats of each bind into its keeper's seat, and closes its window. Returns the ends of the
/// binds, in order.
pub(crate) fn close_all<N: LogName, W: Write + Drop>(
    log: &mut LogKeeper<N>,
    remains: BindRemains<N, W>,
    seats: Vec<WindowSeat>,
    causes: Vec<Option<ClosedBy>>,
    room: Vec<BindEnd>,
) -> Vec<BindEnd>
    requires room { IsFree (length remains.shared_binds.items) room }
    requires readers { map (λ d. d.seat.window) remains.readers.items ≡ map (λ b. b.window) remains.shared_binds.items }
    requires driver_seats { map (λ s. s.seat.window) remains.driver_seats.items ≡ map (λ b. b.window) remains.shared_binds.items }
    requires tried { AllByRecursion HasTried remains.driver_seats.items }
    requires seats { map (λ s. s.window) seats.items ≡ windows remains.workers (map (λ b. b.window) remains.shared_binds.items) }
    requires away { (2 * length remains.shared_binds.items ≤ log.old.away) × AllByRecursion HasHanded remains.driver_seats.items }
    ensures log { IsBack (2 * length remains.shared_binds.items) (flat (map (λ b. handed_in b.unbind_result) result.items)) log.old log.new × AreWritten N.settings (length remains.shared_binds.items) log.old.given log.new.given }
    ensures binds { AreBinds (length remains.shared_binds.items) remains.workers result.items }
    ensures outcomes { map (λ b. b.reader) result.items ≡ map outcome_of remains.readers.items }
    ensures closed { AreClosed remains.workers (map (λ d. d.seat.view) remains.readers.items) (map (λ s. s.seat.view) remains.driver_seats.items) (map (λ s. s.view) seats.items) (map (λ b. b.window) result.items) }
    // Each was closed for the causes that its workers gave.
    ensures closings { HaveClosings remains.workers causes.items (map (λ b. b.closing) result.items) }
    ensures once { AllDrewOnce (length remains.shared_binds.items) remains.workers (map (λ s. s.view) seats.items) }
{
    let BindRemains {
        shared_binds,
        readers,
        driver_seats,
        workers,
    } = remains;
    let mut ends = room;
    let mut readers = VecDeque::from(readers);
    let mut driver_seats = VecDeque::from(driver_seats);
    let mut seats = VecDeque::from(seats);
    let mut causes = VecDeque::from(causes);
    for shared in shared_binds {
        let reader = take_first(&mut readers);
        let driver_seat = take_first(&mut driver_seats);
        let outcome = outcome_in(&reader);
        let ReaderEnd { seat: keeper, .. } = reader;
        let DriverSeat {
            seat,
            requests,
            unbind_result,
        } = driver_seat;
        log.take(requests);
        let closing = next_closing(&mut causes, workers);
        let window = close_one(log, shared, keeper, seat, &mut seats, workers);
        ends.push_reserved(BindEnd::new(workers, unbind_result, outcome, closing, window));
    }
    ends
}
