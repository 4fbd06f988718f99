//! Makes the binds, one after the other (SMPP 3.4 4.1).

pub mod binds;
pub mod following;
pub mod rings;
pub mod seats;

ghost use Rattle.std.specs.Prelude.{◌≡◌, ℕ, ◌+◌, ◌*◌, ◌<◌, ◌≤◌, [], ◌∷◌, length, map, vec_capacity, false, Err, Some, IfErr, IfOk, IsOk, OnOk};
ghost use Rattle.std.specs.List.{AllByRecursion, AllZip};
ghost use Rattle.sms_core.specs.Limits.{most_slots};
ghost use Rattle.sms_pdu.specs.Devices.{device, faults_of};
ghost use Rattle.sms_bind.specs.LogRule.{all_parts};
ghost use Rattle.sms_bind.specs.Logs.{BeginsBehind, BindWritten};
ghost use Rattle.sms_bind.specs.Wires.{is_broken, write_faults, writer};
ghost use Rattle.sms_bind.specs.declared.binding.BindFault.TheVariants.{Read as ReadFault, Write as WriteFault};
ghost use Rattle.sms_driver.specs.BindEnds.{follow_of, IsSetUp};
ghost use Rattle.sms_driver.specs.Handed.{HasDealt};
ghost use Rattle.sms_driver.specs.Reads.{AreOpened, IsOpened};
ghost use Rattle.sms_driver.specs.Rings.{IsNewPair};
ghost use Rattle.sms_driver.specs.Seated.{IsSeated};
ghost use Rattle.sms_driver.specs.SendFaults.{HasFailed, IsFaultOf, IsFaultOfRun, TellsBind};
ghost use Rattle.sms_driver.specs.Starts.{TellsStart};
ghost use Rattle.sms_driver.specs.declared.fault.BindFailure.TheVariants.{NoConnection};
ghost use Rattle.sms_driver.specs.declared.fault.SendFault.TheVariants.{BindFailed, OutOfMemory};
ghost use Rattle.sms_driver.specs.declared.start.StartPhase.TheVariants.{Idle};

use crate::binding::rings::Rings;
use crate::binding::seats::{NewWindow, open_window, split_seats};
use crate::fault::{BindFailure, SendFault};
use crate::settings::RunSettings;
use crate::{
    BindParts, Binds, DriverSeat, Following, SharedBind, UnbindResult, roll_back_if_failed,
};
use sms_bind::{
    BindFault, Bound, Line, LogKeeper, LogName, ReaderLeave, ReadsBind, Settings, Wire, bind,
};
use sms_pdu::{DeviceError, Tap};
use sms_slot::SlotRow;
use sms_window::WindowSeat;
use std::alloc::Global;
use std::io::{Read, Write};
use std::snapshot::Snapshot;
use std::sync::Wait;

/// Where connections come from.
pub trait Dial {
    ghost use Rattle.std.specs.Prelude.{◌≡◌, ℕ, List, Option, None, IfSome, ⊤};

    // The octets that the reader of the bind at this place will give, if they are known.
    ghost told: { Self → ℕ → Option (List ℕ) } = { λ _ _. None };

    // What is known of a bind that gets no connection.
    ghost refuses: { Self → ℕ → Type 0 } = { λ _ _. ⊤ };

    type Reader: ReadsBind + Send + Drop;

    type Writer: Write + Send + Drop;

    /// A connection for the bind at this place, counted from 0; none if there is no connection.
    fn dial(&self, bind: u32) -> Option<(Self::Reader, Self::Writer)>
        ensures told { IfSome result (λ ends. Self.Reader.remaining ends.0 ≡ told self.now bind) }
        ensures refused { result ≡ None → refuses self.now bind };
}

/// What the binds of a sending have in common.
#[derive(Drop)]
pub struct BindSettings {
    pub settings: Settings,
    /// How many slots a window has, 1 to 64.
    pub limit: u32,
    /// Whether readers follow throttling.
    pub follow: bool,
}

/// A new bind; and snapshots of its wire as it was dialled, and after the bind request.
#[derive(Drop)]
struct NewBind<N: LogName, Rd, W: Write> {
    shared: SharedBind<N, W>,
    parts: BindParts<Rd>,
    driver_seat: DriverSeat<N>,
    dialled: Snapshot<Wire<W>>,
    asked: Snapshot<Wire<W>>,
}

/// The sending's fault for a bind's fault. A failed read or write carries the error of the device.
fn fault_of<Rd: Read, W: Write>(
    bind: u32,
    fault: BindFault,
    reader: &Tap<Rd>,
    writer: &Tap<W>,
) -> SendFault
    requires read { fault ≡ ReadFault → 0 < faults_of reader.now }
    requires write { fault ≡ WriteFault → 0 < faults_of writer.now }
    ensures { TellsBind bind fault result }
{
    match fault {
        BindFault::Refused(status) => SendFault::BindRefused(bind, status),
        BindFault::Closed => SendFault::BindFailed(bind, BindFailure::Closed),
        BindFault::NotSmpp => SendFault::BindFailed(bind, BindFailure::NotSmpp),
        BindFault::Read => match DeviceError::of(reader) {
            Some(failure) => SendFault::BindFailed(bind, BindFailure::Read(failure)),
            None => unreachable!(),
        },
        BindFault::Write => match DeviceError::of(writer) {
            Some(failure) => SendFault::BindFailed(bind, BindFailure::Write(failure)),
            None => unreachable!(),
        },
        BindFault::OutOfMemory => SendFault::OutOfMemory,
    }
}

/// The window's limit for a reader that follows.
fn follow_of(bind_settings: &BindSettings) -> Following
    requires limit { (1 ≤ bind_settings.now.limit) × (bind_settings.now.limit ≤ most_slots) }
    ensures { result.limit ≡ follow_of bind_settings.now }
{
    if bind_settings.follow {
        Following {
            limit: Some(bind_settings.limit),
        }
    } else {
        Following { limit: None }
    }
}

/// Binds with this sequence_number.
fn bind_with<Rd: Read, W: Write>(
    alloc: Global,
    reader: &mut Tap<Rd>,
    wire: &mut Wire<W>,
    settings: &Settings,
    number: u32,
) -> Result<Bound, BindFault>
    requires unused { (faults_of reader.old ≡ 0) × (write_faults wire.old ≡ 0) }
    ensures bound { OnOk result (BindWritten settings.now number (W.contents (writer wire.old)) (W.contents (writer wire.new))) }
    ensures sound { OnOk result (is_broken wire.new ≡ false) }
    // What was read is the bind's answer and what came after it.
    ensures opened { IfOk result (IsOpened settings.now.mode (Rd.remaining (device reader.old)) (Rd.remaining (device reader.new))) }
    // A fault agrees with the octets that were read, or with what the devices answered.
    ensures failed { IfErr result (HasFailed settings.now.mode (Rd.remaining (device reader.old)) (Rd.remaining (device reader.new))) }
    ensures read { result ≡ Err ReadFault → 0 < faults_of reader.new }
    ensures write { result ≡ Err WriteFault → is_broken wire.old ≡ false → 0 < write_faults wire.new }
{
    match bind(alloc, reader, wire, settings, number) {
        Ok(bound) => Ok(bound),
        Err(fault) => Err(fault),
    }
}

/// A connection for the bind.
fn connect<D: Dial>(dial: &D, bind_place: u32) -> Result<(D::Reader, D::Writer), SendFault>
    ensures told { IfOk result (λ ends. D.Reader.remaining ends.0 ≡ D.told dial.now bind_place) }
    ensures refused { IfErr result (λ fault. (fault ≡ BindFailed bind_place NoConnection) × D.refuses dial.now bind_place) }
{
    match dial.dial(bind_place) {
        Some(ends) => Ok(ends),
        None => Err(SendFault::BindFailed(bind_place, BindFailure::NoConnection)),
    }
}

/// A connection that is bound, and its wire as it was dialled.
#[derive(Drop)]
struct Connected<Rd, W> {
    reader: Tap<Rd>,
    wire: Wire<W>,
    bound: Bound,
    dialled: Snapshot<Wire<W>>,
}

/// Dials, and binds with this sequence_number.
fn dial_and_bind<D: Dial>(
    alloc: Global,
    dial: &D,
    settings: &Settings,
    bind_place: u32,
    number: u32,
) -> Result<Connected<D::Reader, D::Writer>, SendFault>
    ensures opened { IfOk result (λ c. IsOpened settings.now.mode (D.told dial.now bind_place) (D.Reader.remaining (device c.reader)) c.bound) }
    ensures asked { IfOk result (λ c. BindWritten settings.now number (D.Writer.contents (writer c.dialled.value)) (D.Writer.contents (writer c.wire))) }
    ensures sound { IfOk result (λ c. is_broken c.wire ≡ false) }
    ensures refused { IfErr result (IsFaultOf (D.refuses dial.now) (D.told dial.now) settings.now.mode bind_place) }
{
    let (reader, writer) = connect(dial, bind_place)?;
    let mut reader = Tap::new(reader);
    let mut wire = Wire::new(Tap::new(writer));
    let dialled = Snapshot::of(&wire);
    match bind_with(alloc, &mut reader, &mut wire, settings, number) {
        Ok(bound) => Ok(Connected {
            reader,
            wire,
            bound,
            dialled,
        }),
        Err(fault) => Err(fault_of(bind_place, fault, &reader, &wire.into_tap())),
    }
}

/// The driver's seat at a bind. No unbind was tried from it.
fn new_driver_seat<N: LogName>(log: &mut LogKeeper<N>, seat: WindowSeat) -> DriverSeat<N>
    requires few { log.old.away + 1 < all_parts }
    ensures log { HasDealt 1 log.old log.new }
    ensures seat { result.seat ≡ seat }
    ensures none { result.requests ≡ [] }
{
    DriverSeat {
        seat,
        requests: log.thread(),
        unbind_result: UnbindResult::Idle,
    }
}

/// A line over the wire, whose log begins. The fault is lack of memory.
fn line_over<N: LogName, W: Write + Drop>(
    log: &mut LogKeeper<N>,
    slots: SlotRow,
    wire: Wire<W>,
) -> Result<(Line<N, W>, ReaderLeave), SendFault>
    requires few { log.old.away + 1 < all_parts }
    requires sound { is_broken wire ≡ false }
    requires behind { BeginsBehind N.settings (W.contents (writer wire)) }
    ensures log { OnOk result (HasDealt 1 log.old log.new) }
    ensures slots { IfOk result (λ r. r.0.slots ≡ slots) }
    ensures refused { IfErr result (λ fault. fault ≡ OutOfMemory) }
{
    match log.wire(wire) {
        Ok(wire) => Ok(Line::new(slots, wire)),
        Err(_wire) => Err(SendFault::OutOfMemory),
    }
}

/// Makes a bind's window, dials and binds, and begins the log of its wire; splits off a seat for each worker and
/// one for the driver.
fn make_bind<N: LogName, D: Dial>(
    alloc: Global,
    dial: &D,
    log: &mut LogKeeper<N>,
    bind_settings: &BindSettings,
    bind_place: u32,
    workers: usize,
    rings: Rings,
) -> Result<NewBind<N, D::Reader, D::Writer>, SendFault>
    requires rings { length rings.consumers.items ≡ workers }
    requires pairs { AllZip IsNewPair rings.producers.items rings.consumers.items }
    requires bound { workers < 62 }
    requires few { log.old.away + 2 < all_parts }
    requires settings { N.settings ≡ Some bind_settings.now.settings }
    ensures log { OnOk result (HasDealt 2 log.old log.new) }
    ensures seated { IfOk result (λ m. IsSeated workers m.shared m.parts) }
    ensures opened { IfOk result (λ m. IsOpened bind_settings.now.settings.mode (D.told dial.now bind_place) (D.Reader.remaining (device m.parts.reader)) m.parts.bound) }
    ensures set { IfOk result (λ m. IsSetUp bind_settings.now m.parts) }
    // The settings' bind was written, with the one number that was drawn from its window.
    // That number is by what the reader asks whether the line is alive.
    ensures asked { IfOk result (λ m. (m.parts.keeper.view.numbers ≡ m.parts.number ∷ []) × BindWritten bind_settings.now.settings m.parts.number (D.Writer.contents (writer m.dialled.value)) (D.Writer.contents (writer m.asked.value))) }
    ensures driver_seat { IfOk result (λ m. (m.driver_seat.seat.window ≡ m.shared.window) × (m.driver_seat.requests ≡ [])) }
    ensures refused { IfErr result (IsFaultOf (D.refuses dial.now) (D.told dial.now) bind_settings.now.settings.mode bind_place) }
{
    let NewWindow {
        window,
        mut keeper,
        number,
    } = open_window(alloc, bind_settings.limit)?;
    let Ok(seats) = split_seats(alloc, &window, &mut keeper, rings.consumers) else {
        return Err(SendFault::OutOfMemory);
    };
    let seat = window.split(&mut keeper);
    let Ok(slots) = SlotRow::new(alloc) else {
        return Err(SendFault::OutOfMemory);
    };
    let Connected {
        reader,
        wire,
        bound,
        dialled,
    } = dial_and_bind(alloc, dial, &bind_settings.settings, bind_place, number)?;
    let asked = Snapshot::of(&wire);
    let driver_seat = new_driver_seat(log, seat);
    let (line, leave) = line_over(log, slots, wire)?;
    Ok(NewBind {
        shared: SharedBind { line, window },
        parts: BindParts {
            keeper,
            workers: seats,
            producers: rings.producers,
            reader,
            bound,
            follow: follow_of(bind_settings),
            number,
            leave,
        },
        driver_seat,
        dialled,
        asked,
    })
}

/// Makes a bind for each set of rings, up to the first that fails. Returns those that were made.
fn bind_each<N: LogName, D: Dial>(
    alloc: Global,
    dial: &D,
    log: &mut LogKeeper<N>,
    bind_settings: &BindSettings,
    workers: usize,
    rings: Vec<Rings>,
    binds: Binds<N, D::Reader, D::Writer>,
) -> (Binds<N, D::Reader, D::Writer>, Result<(), SendFault>)
    requires rings { AllByRecursion (λ r. length r.consumers.items ≡ workers) rings.items × AllByRecursion (λ r. AllZip IsNewPair r.producers.items r.consumers.items) rings.items }
    requires settings { (workers < 62) × (N.settings ≡ Some bind_settings.now.settings) }
    requires binds { (length rings.items ≤ 4) × (log.old.away + 2 * length rings.items < all_parts) }
    requires none { (binds.shared_binds.items ≡ []) × (binds.bind_parts.items ≡ []) × (binds.driver_seats.items ≡ []) }
    requires room { (length rings.items ≤ vec_capacity binds.shared_binds) × (length rings.items ≤ vec_capacity binds.bind_parts) × (length rings.items ≤ vec_capacity binds.driver_seats) }
    ensures log { OnOk result.1 (HasDealt (2 * length rings.items) log.old log.new) × AllByRecursion (λ s. s.requests ≡ []) result.0.driver_seats.items }
    ensures driver_seats { map (λ s. s.seat.window) result.0.driver_seats.items ≡ map (λ b. b.window) result.0.shared_binds.items }
    ensures opened { AreOpened D.Reader.remaining bind_settings.now.settings.mode (D.told dial.now) 0 result.0.bind_parts.items }
    ensures set { AllByRecursion (IsSetUp bind_settings.now) result.0.bind_parts.items }
    ensures seated { AllZip (IsSeated workers) result.0.shared_binds.items result.0.bind_parts.items }
    ensures length { OnOk result.1 (length result.0.shared_binds.items ≡ length rings.items) }
    // The fault is that of the first bind that failed.
    ensures refused { IfErr result.1 (λ fault. (length result.0.shared_binds.items < length rings.items) × IsFaultOf (D.refuses dial.now) (D.told dial.now) bind_settings.now.settings.mode (length result.0.shared_binds.items) fault) }
{
    let Binds {
        mut shared_binds,
        mut bind_parts,
        mut driver_seats,
    } = binds;
    let mut place = 0u32;
    for theirs in rings {
        match make_bind(alloc, dial, log, bind_settings, place, workers, theirs) {
            Ok(made) => {
                shared_binds.push_reserved(made.shared);
                bind_parts.push_reserved(made.parts);
                driver_seats.push_reserved(made.driver_seat);
                place += 1;
            }
            Err(fault) => {
                return (
                    Binds {
                        shared_binds,
                        bind_parts,
                        driver_seats,
                    },
                    Err(fault),
                );
            }
        }
    }
    (
        Binds {
            shared_binds,
            bind_parts,
            driver_seats,
        },
        Ok(()),
    )
}

/// Makes a bind for each set of rings. If one fails, the others are unbound.
pub(crate) fn make_binds<N: LogName, D: Dial, R: Wait>(
    rt: &R,
    alloc: Global,
    dial: &D,
    log: &mut LogKeeper<N>,
    settings: &RunSettings,
    rings: Vec<Rings>,
) -> Result<Binds<N, D::Reader, D::Writer>, SendFault>
    requires rings { AllByRecursion (λ r. length r.consumers.items ≡ settings.now.workers) rings.items × AllByRecursion (λ r. AllZip IsNewPair r.producers.items r.consumers.items) rings.items }
    requires bound { settings.now.workers < 62 }
    requires settings { N.settings ≡ Some settings.now.bind_settings.settings }
    requires binds { (length rings.items ≤ 4) × (log.old.away + 2 * length rings.items < all_parts) }
    ensures log { OnOk result (HasDealt (2 * length rings.items) log.old log.new) × IfOk result (λ b. AllByRecursion (λ s. s.requests ≡ []) b.driver_seats.items) }
    ensures driver_seats { IfOk result (λ b. map (λ s. s.seat.window) b.driver_seats.items ≡ map (λ b. b.window) b.shared_binds.items) }
    ensures opened { IfOk result (λ b. AreOpened D.Reader.remaining settings.now.bind_settings.settings.mode (D.told dial.now) 0 b.bind_parts.items) }
    ensures set { IfOk result (λ b. AllByRecursion (IsSetUp settings.now.bind_settings) b.bind_parts.items) }
    ensures seated { IfOk result (λ b. AllZip (IsSeated settings.now.workers) b.shared_binds.items b.bind_parts.items) }
    ensures length { IfOk result (λ b. length b.shared_binds.items ≡ length rings.items) }
    ensures refused { IfErr result (IsFaultOfRun (D.refuses dial.now) (D.told dial.now) settings.now.bind_settings.settings.mode (length rings.items)) }
    // No thread was started yet.
    ensures phase { IfErr result (TellsStart Idle) }
{
    let none = Binds {
        shared_binds: Vec::with_capacity(alloc, rings.len())?,
        bind_parts: Vec::with_capacity(alloc, rings.len())?,
        driver_seats: Vec::with_capacity(alloc, rings.len())?,
    };
    let (binds, made) = bind_each(
        alloc,
        dial,
        log,
        &settings.bind_settings,
        settings.workers,
        rings,
        none,
    );
    roll_back_if_failed(rt, alloc, binds, made)
}
