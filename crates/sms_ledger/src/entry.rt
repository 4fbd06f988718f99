//! What is booked, and what is known of it.

ghost use Rattle.std.specs.Prelude.{◌≡◌, IfOk};

use crate::name::{Name, Run, RunAccount};
use sms_files::memory::NoMemory;
use std::alloc::Global;

/// Credits that are paid for an account.
#[derive(Debug, Drop)]
pub struct Payment {
    pub account: Name,
    pub credits: u64,
    /// The payment's own name, if it has one.
    pub reference: Option<Name>,
}

impl Payment {
    pub(crate) fn copy(&self, alloc: Global) -> Result<Payment, NoMemory>
        ensures { IfOk result (λ p. p ≡ self.now) }
    {
        let reference = match &self.reference {
            Some(reference) => Some(reference.copy(alloc)?),
            None => None,
        };
        Ok(Payment {
            account: self.account.copy(alloc)?,
            credits: self.credits,
            reference,
        })
    }
}

/// Free credits of an account that a run takes for its sending.
#[derive(Drop)]
pub struct Taking {
    pub of: RunAccount,
    pub credits: u64,
}

/// A run's statement of an account: what is free again, in doubt and spent of what it took.
#[derive(Drop)]
pub struct Statement {
    pub of: RunAccount,
    pub free: u64,
    pub doubt: u64,
    pub spent: u64,
}

/// What became of a part that was in doubt.
#[derive(Clone, Copy, Debug, PartialEq, Eq)]
pub enum Fate {
    /// The message centre took it, so its credits are spent.
    Delivered,
    /// It didn't, so they are free again.
    Lost,
}

/// The fate of one part of a run's messages that was in doubt.
#[derive(Drop)]
pub struct Decision {
    pub of: RunAccount,
    /// The message's index, from 0.
    pub message: u64,
    /// The part's place, from 1.
    pub part: u8,
    /// The credits that it costs.
    pub cost: u64,
    pub fate: Fate,
}

/// An entry of a ledger.
#[derive(Drop)]
pub enum Entry {
    Paid(Payment),
    Taken(Taking),
    Returned(Statement),
    Decided(Decision),
}

/// Where an account's credits are. Their sum is `paid`.
#[derive(Clone, Copy, Debug, PartialEq, Eq)]
pub struct Row {
    pub paid: u64,
    pub free: u64,
    /// With runs whose statements aren't booked.
    pub out: u64,
    /// Of parts that nobody knows to be delivered or lost.
    pub doubt: u64,
    pub spent: u64,
}

/// How what a run took of an account stands: so much is out, or the statement is booked and so much is
/// in doubt.
#[derive(Clone, Copy, Debug, PartialEq, Eq)]
pub enum Stand {
    Out(u64),
    Back(u64),
}

/// What a run took of an account.
#[derive(Drop)]
pub struct Stake {
    pub of: RunAccount,
    pub stand: Stand,
}

/// What a payment with a reference paid.
#[derive(Drop)]
pub struct Deposit {
    pub account: Name,
    pub credits: u64,
}
