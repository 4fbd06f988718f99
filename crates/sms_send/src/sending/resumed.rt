//! What became of a run that went on after its journal.

ghost use Rattle.std.specs.Prelude.{◌≡◌, IfErr, IfOk};
ghost use Rattle.sms_send.specs.Rounds.{IsPutTogether};
ghost use Rattle.sms_send.specs.Faults.{unreported};

use crate::faults::fault::Fault;
use sms_book::{Opening, Statement};
use sms_core::Row;
use sms_driver::Sending;
use sms_journal::further::{add_rows, put_ends, without_evidence};
use sms_message::MessageEnd;
use std::alloc::Global;

/// What became of a run that went on.
#[derive(Drop)]
pub struct Resumed {
    openings: Vec<Opening>,
    ends: Vec<MessageEnd<()>>,
    statement: Statement,
}

impl Resumed {
    /// What its journal says of the accounts and messages of a run, and what its rounds after that came to. `Unreported`
    /// where memory is refused.
    pub fn new(
        alloc: Global,
        openings: Vec<Opening>,
        ends: Vec<MessageEnd<()>>,
        rows: Vec<Row>,
        came: Sending,
    ) -> Result<Resumed, Fault>
        ensures together { IfOk result (IsPutTogether openings ends.items rows.items came) }
        ensures refused { IfErr result (λ fault. fault ≡ unreported) }
    {
        let (mut ends, mut rows) = (ends, rows);
        match without_evidence(alloc, came.ends.as_slice()) {
            Ok(later) => put_ends(&mut ends, later),
            Err(refused) => return Err(Fault::Unreported(refused)),
        }
        add_rows(&mut rows, came.statement.rows());
        Ok(Resumed {
            openings,
            ends,
            statement: Statement::new(rows),
        })
    }

    /// The accounts as its first round opened them.
    pub fn openings(&self) -> &[Opening]
        ensures { result.now ≡ self.now.openings.items }
    {
        self.openings.as_slice()
    }

    /// What became of the messages.
    pub fn ends(&self) -> &[MessageEnd<()>]
        ensures { result.now ≡ self.now.ends.items }
    {
        self.ends.as_slice()
    }

    /// What became of the accounts.
    pub fn statement(&self) -> &Statement
        ensures { result.now ≡ self.now.statement }
    {
        &self.statement
    }
}
