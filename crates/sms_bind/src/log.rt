//! The log of a run: which frames its wires were given, and whose requests they are.

pub(crate) mod rule;
pub(crate) mod steps;

ghost use Rattle.std.specs.Prelude.{◌≡◌, ◌+◌, ◌-◌, ◌<◌, ◌++◌, [], IfOk};
ghost use Rattle.sms_bind.specs.Frames.{requests, AreSame};
ghost use Rattle.sms_bind.specs.LogRule.{all_parts};

use crate::log::rule::{LogRule, View};
use crate::log::steps::{LogTable, deal, take_in, tell};
use atomic_table::{Badge, Table};
use std::alloc::{AllocError, Global};
use std::marker::{Brand, Model, PhantomData};
use std::sync::Arc;

/// Names the log of one run, and says by which settings its wires were bound. A function that opens a log is
/// generic in such a name; its caller passes `Brand` and picks the blank's name for it, so that the log's wires
/// and requests are of that log and no other.
pub trait LogName {
    ghost use Rattle.std.specs.Prelude.{Option};
    ghost use Rattle.atomic_table.specs.Seated.{TableId};
    ghost use Rattle.sms_session.specs.Settings.{Setting};

    ghost log: { TableId };

    /// The settings of the binds right behind which the logs of the wires begin; none where they may begin
    /// behind anything.
    ghost settings: { Option Setting };
}

impl LogName for Brand {
    ghost use Rattle.std.specs.Prelude.{None};
    ghost use Rattle.sms_bind.specs.LogRule.{no_log};

    ghost log = { no_log };

    ghost settings = { None };
}

/// The table on which a log stands.
#[derive(Drop)]
pub(crate) struct Log<N: LogName> {
    table: Table<(), View, (), LogRule, Global>,
    of: PhantomData<N>,
}

impl<N: LogName> Model for Log<N> {
    ghost use Rattle.std.specs.Prelude.{◌≡◌, ◌<◌};
    ghost use Rattle.atomic_table.specs.Seated.{TableId, table_id_coded};

    ghost Value = { TableId };

    ghost coded = { table_id_coded };

    ghost view = { λ l. l.table.shared.table_id };

    ghost invariant = { λ l. (l.table.shared.table_id ≡ N.log) × (0 < N.log.words) };
}

impl<N: LogName> Log<N> {
    /// The table's words and seats.
    #[inline(always)]
    pub(crate) fn table(&self) -> &LogTable
        ensures { (result.now.table_id ≡ N.log) × (0 < N.log.words) }
    {
        &self.table.shared
    }
}

/// A log that has no name yet. Contracts see its name.
#[derive(Drop)]
pub struct BlankLog {
    table: Table<(), View, (), LogRule, Global>,
    seat: Badge<View>,
}

impl Model for BlankLog {
    ghost use Rattle.atomic_table.specs.Seated.{TableId, table_id_coded};
    ghost use Rattle.sms_bind.specs.Logs.{BlankStands};

    ghost Value = { TableId };

    ghost coded = { table_id_coded };

    ghost view = { λ l. l.table.shared.table_id };

    ghost invariant = { λ l. BlankStands l.table.shared.table_id l.seat.table_id l.seat.views };
}

impl BlankLog {
    /// A new log.
    pub fn new(alloc: Global) -> Result<BlankLog, AllocError> {
        let (table, seat) = Table::of_words(alloc, &[0], &())?;
        Ok(BlankLog {
            table,
            seat: seat.into_badge(),
        })
    }

    /// The keeper of the log, from whom wires and requests are had.
    pub fn open<N: LogName>(self, alloc: Global) -> Result<LogKeeper<N>, AllocError>
        requires name { self ≡ N.log }
        ensures keeper { IfOk result (λ k. (k.away ≡ 0) × (k.given ≡ []) × (k.requests ≡ [])) }
    {
        let BlankLog { table, seat } = self;
        let log = Log {
            table,
            of: PhantomData,
        };
        match Arc::new(alloc, log) {
            Ok(log) => Ok(LogKeeper { log, seat }),
            Err(_refused) => Err(AllocError),
        }
    }
}

/// The keeper of a log. Contracts see how many wires and threads are away, what the wires that came back
/// were given, and the requests of the threads that came back.
#[derive(Drop)]
pub struct LogKeeper<N: LogName> {
    pub(crate) log: Arc<Log<N>, Global>,
    pub(crate) seat: Badge<View>,
}

impl<N: LogName> Model for LogKeeper<N> {
    ghost use Rattle.sms_bind.specs.Logs.{Keeping, KeeperStands, keeping};

    ghost Value = { Keeping };

    ghost view = { λ k. keeping k.seat.views };

    ghost invariant = { λ k. KeeperStands N.log k.seat.table_id k.seat.views };
}

/// The requests that one thread gave to the wires of a run. Contracts see their frames, in order.
#[derive(Drop)]
pub struct Requests<N: LogName> {
    pub(crate) seat: Badge<View>,
    pub(crate) of: PhantomData<N>,
}

impl<N: LogName> Model for Requests<N> {
    ghost use Rattle.std.specs.Prelude.{ℕ, List};
    ghost use Rattle.sms_bind.specs.Logs.{RequestsStand, claims_of};

    ghost Value = { List (List ℕ) };

    ghost view = { λ r. claims_of r.seat.views };

    ghost invariant = { λ r. RequestsStand N.log r.seat.table_id r.seat.views };
}

impl<N: LogName> LogKeeper<N> {
    /// A thread's requests, none so far.
    pub fn thread(&mut self) -> Requests<N>
        requires few { self.old.away + 1 < all_parts }
        ensures away { self.new.away ≡ self.old.away + 1 }
        ensures same { (self.new.given ≡ self.old.given) × (self.new.requests ≡ self.old.requests) }
        ensures none { result ≡ [] }
    {
        let LogKeeper { log, seat } = self;
        let seat = deal(log.table(), seat);
        Requests {
            seat,
            of: PhantomData,
        }
    }

    /// Takes a thread's requests back.
    pub fn take(&mut self, requests: Requests<N>)
        requires away { 0 < self.old.away }
        ensures away { self.new.away ≡ self.old.away - 1 }
        ensures given { self.new.given ≡ self.old.given }
        ensures requests { self.new.requests ≡ self.old.requests ++ requests }
    {
        let Requests { mut seat, .. } = requests;
        let LogKeeper { log, seat: mine } = self;
        take_in(log.table(), mine, &mut seat);
    }

    /// The log, once all wires and threads have come back: the requests that the wires were given are those of
    /// the threads, each as often.
    pub fn settle(self) -> SettledLog
        requires all { self.away ≡ 0 }
        ensures given { result.given ≡ self.given }
        ensures requests { result.requests ≡ self.requests }
        ensures settled { AreSame (requests self.given) self.requests }
    {
        let LogKeeper { log, mut seat } = self;
        tell(log.table(), &mut seat);
        SettledLog { seat }
    }
}

/// The log of a run that is over, which its keeper alone makes once all wires and threads have come back.
/// Contracts see the frames that the run's wires were given and the requests of its threads, which are the
/// requests among those frames, each as often.
#[derive(Drop)]
pub struct SettledLog {
    seat: Badge<View>,
}

impl Model for SettledLog {
    ghost use Rattle.sms_bind.specs.Frames.{requests, AreSame};
    ghost use Rattle.sms_bind.specs.Logs.{Settled, given_of, claims_of, settled};

    ghost Value = { Settled };

    ghost view = { λ l. settled l.seat.views };

    ghost invariant = { λ l. AreSame (requests (given_of l.seat.views)) (claims_of l.seat.views) };
}
