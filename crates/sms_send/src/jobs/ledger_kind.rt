//! The kinds of ledgers that jobs take: what is sent to a message centre has the credits of one that is paid for, and a trial those of
//! one of trials. What a run gave back or is decided of it goes to the ledger that knows the run, whatever its kind.

ghost use Rattle.std.specs.Prelude.{◌≡◌, ◌⊎◌, IfErr, IfOk, OnOk, String, string_bytes};
ghost use Rattle.std.specs.declared.alloc.Global.{Global as InHeap};
ghost use Rattle.sms_send.specs.Faults.{fault_of_opening as opening_fault};
ghost use Rattle.sms_send.specs.LedgerJobs.{LacksNamed};
ghost use Rattle.sms_send.specs.LedgerKinds.{kind_for, kind_said};

use crate::faults::fault::Fault;
use crate::jobs::booking::lost;
use crate::sending::target::TargetKind;
use sms_devices::{LedgerFiles, LedgerKind};

/// The kind of the ledger of which a sending to such a centre takes credits.
pub(crate) fn ledger_kind(kind: TargetKind) -> LedgerKind
    ensures { result ≡ kind_for kind }
{
    match kind {
        TargetKind::Loopback => LedgerKind::Trial,
        TargetKind::Remote => LedgerKind::Paid,
    }
}

/// The ledger's file of this name, which has to be there and of this kind, to append to it. Nobody else has it until it is closed.
pub(crate) fn join_kind<R: AllocGlobal + LedgerFiles>(
    rt: &R,
    kind: LedgerKind,
    name: &str,
) -> Result<R::LedgerFile, Fault>
    ensures held { IfOk result (R.holds_ledger rt.now name.now) }
    ensures kind { OnOk result (R.has_kind rt.now name.now kind) }
    ensures refused { IfErr result (LacksNamed (R.lacks_ledger rt.now) name.now) }
{
    match rt.open_kind(name, kind, false) {
        Ok(file) => Ok(file),
        Err(why) => Err(lost(rt, name, why)),
    }
}

/// The kind of the ledger that a payment is booked in, by the command's word.
pub(crate) fn kind_of(trial: bool) -> LedgerKind
    ensures { result ≡ kind_said trial }
{
    if trial {
        LedgerKind::Trial
    } else {
        LedgerKind::Paid
    }
}
