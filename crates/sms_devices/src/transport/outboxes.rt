//! The outboxes of all binds, with what their connections share: the journal, the bells and the clock.

ghost use Rattle.std.specs.Prelude.{◌≡◌, false, option_copied, true, ⊤};
ghost use Rattle.std.specs.Option.{is_some};
ghost use Rattle.sms_devices.specs.Journals.{IsMadeIn};
ghost use Rattle.sms_devices.specs.Outboxes.{has_journal, outbox_of, workers_of};

use crate::clock::Ticks;
use crate::gate::{Connections, Timestamp, make_note};
use crate::journal::{Journal, StopSigns, has_failed, let_out_of};
use crate::places::{PerBind, WorkerPlace};
use crate::stay::Stay;
use crate::transport::connecting::{Reason, Unconnected};
use crate::transport::guarded::Guarded;
use crate::transport::outbox::Outbox;
use crate::waking::Bells;
use sms_journal::Note;
use sms_worker::{Clock as _, MessageEnd};
use std::fs::OpenFile;
use std::io::Write;
use std::sync::Wait;
use std::sync::atomic::{AtomicU32, Ordering};
use std::time::{Clock, Duration};

/// How many milliseconds lie between two looks for receipts.
const LOOK_MS: u64 = 200;

/// The outboxes of all binds, and the bells of their workers.
#[derive(Drop)]
pub struct Outboxes<'j, R: Wait, F: Write + OpenFile> {
    rt: &'j R,
    journal: Option<&'j Journal<F>>,
    bells: Bells,
    clock: Ticks<'j, R>,
    each: PerBind<Outbox<'j, R, F>>,
    /// How many milliseconds a write may wait for a connection that takes no octet; 0 is without a limit.
    patience_ms: AtomicU32,
}

impl<'j, R: Wait + Clock, F: Write + OpenFile> Outboxes<'j, R, F> {
    /// Outboxes without connections, in a run with a journal or without, whose binds have this many workers each.
    pub fn new(rt: &'j R, journal: Option<&'j Journal<F>>, workers: u32) -> Outboxes<'j, R, F>
        ensures journal { has_journal result ≡ is_some journal.entry }
        ensures workers { workers_of result ≡ workers }
    {
        Outboxes {
            rt,
            journal,
            bells: Bells::new(workers),
            clock: Ticks::new(rt),
            each: PerBind {
                first: Outbox::new(),
                second: Outbox::new(),
                third: Outbox::new(),
                fourth: Outbox::new(),
            },
            patience_ms: AtomicU32::new(0),
        }
    }

    /// The clock of the run, which starts now.
    pub fn start_clock(&self) -> &Ticks<'j, R> {
        self.clock.go_on();
        &self.clock
    }

    /// The clock of the run.
    pub(crate) fn clock(&self) -> &Ticks<'j, R> {
        &self.clock
    }
}

impl<'j, R: Wait, F: Write + OpenFile> Outboxes<'j, R, F> {
    /// The outbox of the bind with this number; None beyond the last bind.
    pub fn get(&self, bind: u32) -> Option<&Outbox<'j, R, F>>
        ensures { option_copied result ≡ outbox_of self.now bind }
    {
        self.each.at(bind as usize)
    }

    /// Why a bind has no connection, if the last attempt to make one failed.
    pub fn reason(&self, bind: u32) -> Reason
        ensures { result.bind ≡ bind }
    {
        let why = match self.get(bind) {
            Some(outbox) => outbox.reason(self.rt),
            None => Unconnected::Other,
        };
        Reason { bind, why }
    }

    /// Gives the connection of a bind up: its line goes down.
    pub fn give_up(&self, bind: u32) {
        if let Some(outbox) = self.get(bind) {
            outbox.give_up(self.rt);
        }
    }

    /// Sets how many milliseconds a write may wait for a connection that takes no octet, for connections
    /// that are made from now on.
    pub fn set_patience(&self, ms: u32) {
        self.patience_ms.store(ms, Ordering::SeqCst);
    }

    /// How long a write may wait for a connection; None is without a limit.
    pub fn patience(&self) -> Option<Duration> {
        match self.patience_ms.load(Ordering::SeqCst) {
            0 => None,
            ms => Some(Duration::from_millis(u64::from(ms))),
        }
    }

    /// The runtime, by which locks are waited for.
    pub(crate) fn rt(&self) -> &'j R {
        self.rt
    }

    /// The bells of the binds' workers.
    pub fn bells(&self) -> &Bells
        ensures { result.now ≡ self.now.bells }
    {
        &self.bells
    }

    /// The journal of the run, if it has one.
    pub fn journal(&self) -> Option<&'j Journal<F>>
        ensures { is_some result ≡ has_journal self.now }
    {
        self.journal
    }

    /// The connection, guarded by the journal of the run.
    pub fn guard<W>(&self, connection: W) -> Guarded<'j, W, R, F> {
        Guarded {
            connection,
            rt: self.rt,
            journal: self.journal,
        }
    }

    /// Writes what waits for the connection of this bind, and then the notes that are still in memory.
    pub fn flush_bind(&self, bind: usize) {
        if let Some(outbox) = self.each.at(bind) {
            outbox.flush();
        }
        let _let_out = let_out_of(self.rt, self.journal);
    }

    /// Starts a burst at this bind after a pause, a long one or not.
    pub fn begin(&self, bind: usize, waited_long: bool) {
        if let Some(outbox) = self.each.at(bind) {
            outbox.begin(waited_long);
        }
    }

    /// Lets go of all connections, before the binds are made anew.
    pub fn renew(&self) {
        self.each.first.renew(self.rt);
        self.each.second.renew(self.rt);
        self.each.third.renew(self.rt);
        self.each.fourth.renew(self.rt);
        self.bells.renew();
    }

    /// Writes what waits for any connection, and then the notes that are still in memory.
    pub fn flush(&self) {
        self.each.first.flush();
        self.each.second.flush();
        self.each.third.flush();
        self.each.fourth.flush();
        let _let_out = let_out_of(self.rt, self.journal);
    }
}

impl<'j, R: Wait + Clock + StopSigns, F: Write + OpenFile> Outboxes<'j, R, F> {
    /// Whether the run was asked to stop. Without a journal it can't be.
    pub fn is_stopped(&self) -> bool
        ensures unasked { has_journal self.now ≡ false → result ≡ false }
    {
        match self.journal {
            Some(journal) => journal.is_stopped(self.rt, Timestamp::of(&self.clock).ms()),
            None => false,
        }
    }

    /// Whether a worker that began at this moment to wait for receipts is to wait no longer: its time is over, none can come any more,
    /// or the run was asked to stop. None comes once its bind is down. Once the journal has failed none is acknowledged.
    fn is_stayed(&self, place: WorkerPlace, stay: &Stay, begun: u64) -> bool {
        let is_deaf = stay.is_ended() || !self.bells.rings_for_all(place.bind());
        let waited = self.clock.now_ms().saturating_sub(begun);
        is_deaf || waited >= stay.ms() || has_failed(self.journal) || self.is_stopped()
    }
}

impl<'j, R: Wait + Clock + StopSigns, F: Write + OpenFile> Connections for Outboxes<'j, R, F> {
    ghost workers = { λ o. workers_of o };

    ghost keeps = { λ _ _ _. ⊤ };

    ghost notes = { λ o note made. IsMadeIn (λ _ _ _. ⊤) (option_copied o.journal) note made };

    ghost answers = { λ _ _. ⊤ };

    ghost gives_up = { λ _ _. ⊤ };

    ghost lets_begin = { λ o begins. has_journal o ≡ false → begins ≡ true };

    fn place_of(&self, worker: usize) -> WorkerPlace {
        self.bells.place_of(worker)
    }

    fn keep_owner(&self, place: WorkerPlace, number: u32) {
        if let Some(owners) = self.bells.owners(place.bind()) {
            owners.put(number, place.worker());
        }
    }

    fn note(&self, note: Option<Note>) -> bool {
        make_note(self.rt, self.journal, note)
    }

    fn count_answer(&self, place: WorkerPlace) {
        if let Some(outbox) = self.each.of(place) {
            outbox.answer();
        }
    }

    fn give_up(&self, place: WorkerPlace) {
        if let Some(outbox) = self.each.of(place) {
            outbox.give_up(self.rt);
        }
    }

    fn stay(&self, worker: usize, stay: &Stay, ends: &[MessageEnd]) {
        let place = self.bells.place_of(worker);
        let begun = self.clock.now_ms();
        let mut next = 0;
        for _look in 0..u32::MAX {
            next = stay.first_left(self.rt, ends, next);
            if next >= ends.len() || self.is_stayed(place, stay, begun) {
                return;
            }
            self.flush_bind(place.bind());
            self.bells.wait(self.rt, worker, LOOK_MS);
        }
    }

    fn may_begin(&self) -> bool {
        !self.is_stopped()
    }
}
