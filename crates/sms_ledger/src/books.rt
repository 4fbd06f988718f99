//! The books in memory.

use crate::entry::{Deposit, Fate, Row, Stake};
use crate::name::Name;
use std::collections::HashMap;

/// What is known of each account, run, payment and part.
#[derive(Drop)]
pub struct Books {
    pub(crate) rows: HashMap<String, Row>,
    /// The accounts, in the order in which they were opened.
    pub(crate) opened: Vec<Name>,
    pub(crate) taken: Vec<Stake>,
    /// The place of the stake of a run and an account, by both names.
    pub(crate) places: HashMap<String, usize>,
    /// What was paid, by the payment's reference.
    pub(crate) payments: HashMap<String, Deposit>,
    /// What became of parts that were in doubt, by `part_key`.
    pub(crate) parts: HashMap<String, Fate>,
}
