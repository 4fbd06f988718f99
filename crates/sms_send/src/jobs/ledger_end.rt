//! The end of a run on a ledger: what comes back of what it took.

ghost use Rattle.std.specs.Prelude.{◌≡◌, ◌&&◌, IfErr, IfOk, IfSome, OnOk, is_some, not, option_map, true};
ghost use Rattle.sms_send.specs.LedgerSendings.{EndsOn, FailsReturns, FailsToSettle, ReturnsBooked, has_gone, rows_due};

use crate::faults::fault::Fault;
use crate::faults::ledger_run::why_unsettled;
use crate::jobs::booking::{give_back, join_ledger};
use crate::jobs::ledger_send::Debtor;
use crate::sending::kept::Kept;
use sms_core::Row;
use sms_devices::{HeldFile, LedgerFiles, unix_ms};
use sms_driver::{Command, StartPhase};
use std::time::Clock;

/// Books in the ledger of this name that a run gives back these rows of its accounts.
fn book_back<R: AllocGlobal + Clock + LedgerFiles>(
    rt: &R,
    ledger: &str,
    debtor: &Debtor,
    rows: &[Row],
) -> Result<(), Fault>
    ensures back { OnOk result (ReturnsBooked (R.holds_ledger rt.now) R.LedgerFile.octets R.LedgerFile.stored R.LedgerFile.opening R.LedgerFile.is_closed ledger.now debtor.now rows.now) }
    ensures refused { IfErr result (FailsReturns (R.holds_ledger rt.now) (R.lacks_ledger rt.now) R.LedgerFile.errs R.LedgerFile.octets R.LedgerFile.opening R.LedgerFile.is_closed ledger.now debtor.now rows.now) }
{
    let mut file = match join_ledger(rt, ledger) {
        Ok(file) => file,
        Err(fault) => return Err(fault),
    };
    let names = debtor.accounts.as_slice();
    let booked = give_back(rt.alloc(), unix_ms(rt), &mut file, &debtor.run, names, rows);
    file.close();
    match booked {
        Ok(lines) => {
            drop(lines);
            Ok(())
        }
        Err(fault) => Err(fault),
    }
}

/// Whether the workers were told to go.
fn is_gone(begun: StartPhase) -> bool
    ensures { result ≡ has_gone begun }
{
    match begun {
        StartPhase::Released(Command::Go) => true,
        _ => false,
    }
}

/// The rows of what comes back at the end of a run, by what is kept of its sending. One that leaves messages keeps its credits, so that it
/// may go on; and where nothing is kept of one whose workers were told to go, its journal has what is to come back.
fn rows_back<'a>(debtor: &'a Debtor, begun: StartPhase, kept: &'a Option<Kept>) -> Option<&'a [Row]>
    ensures { option_map (λ rows. rows.now) result ≡ rows_due debtor.now begun kept.now }
{
    match kept {
        Some(kept) if kept.left == 0 => Some(kept.rows.as_slice()),
        Some(_kept) => None,
        None if is_gone(begun) => None,
        None => Some(debtor.unused.as_slice()),
    }
}

/// Whether nothing is kept of a sending that was printed: memory was refused for it.
fn is_lost(kept: &Option<Kept>, is_sent: bool) -> bool
    ensures { result ≡ (is_sent && not (is_some kept.now)) }
{
    is_sent && kept.is_none()
}

/// Books in the ledger of this name what comes back at the end of a run. Of one that was printed something is kept, unless memory was
/// refused for it.
fn settle_end<R: AllocGlobal + Clock + LedgerFiles>(
    rt: &R,
    ledger: &str,
    debtor: &Debtor,
    begun: StartPhase,
    kept: &Option<Kept>,
    is_sent: bool,
) -> Result<(), Fault>
    ensures back { OnOk result (IfSome (rows_due debtor.now begun kept.now) (ReturnsBooked (R.holds_ledger rt.now) R.LedgerFile.octets R.LedgerFile.stored R.LedgerFile.opening R.LedgerFile.is_closed ledger.now debtor.now)) }
    ensures kept { OnOk result (is_sent ≡ true → is_some kept.now ≡ true) }
    ensures refused { IfErr result (FailsToSettle (FailsReturns (R.holds_ledger rt.now) (R.lacks_ledger rt.now) R.LedgerFile.errs R.LedgerFile.octets R.LedgerFile.opening R.LedgerFile.is_closed ledger.now debtor.now) (rows_due debtor.now begun kept.now) is_sent) }
{
    if is_lost(kept, is_sent) {
        return Err(Fault::OutOfMemory);
    }
    match rows_back(debtor, begun, kept) {
        Some(rows) => book_back(rt, ledger, debtor, rows),
        None => Ok(()),
    }
}

/// Ends a run on the ledger of this name: books what comes back, by what is kept of its sending.
#[tactic(auto, using(crate::proofs::Settling::ended))]
pub(crate) fn end_on<R: AllocGlobal + Clock + LedgerFiles>(
    rt: &R,
    ledger: &str,
    debtor: &Debtor,
    begun: StartPhase,
    kept: Option<Kept>,
    sent: Result<u8, Fault>,
) -> Result<u8, Fault>
    ensures ended { EndsOn (R.holds_ledger rt.now) (R.lacks_ledger rt.now) R.LedgerFile.errs R.LedgerFile.octets R.LedgerFile.stored R.LedgerFile.opening R.LedgerFile.is_closed ledger.now debtor.now begun kept sent result }
{
    let back = settle_end(rt, ledger, debtor, begun, &kept, sent.is_ok());
    drop(kept);
    match sent {
        Ok(status) => match back {
            Ok(()) => Ok(status),
            Err(fault) => Err(Fault::Unsettled(why_unsettled(&fault))),
        },
        Err(fault) => Err(fault),
    }
}
