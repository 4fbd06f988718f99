//! What is recovered and what is left, worked out by hand.

mod audit;
mod bill;
mod fault_text;
mod forged;
mod head;
mod of_ledger;
mod printed;
mod recover;
mod rest;
mod resume;
mod same;
