//! A business's ledger: one append-only file, from which it can be read at any moment where each credit of
//! each account is.
//!
//! Its text is CSV without quotes, a record a line, and each record is an entry that its predecessors allow:
//!
//! | record | meaning |
//! |---|---|
//! | `ledger,1` | the first record |
//! | `paid,TIME,ACCOUNT,CREDITS,REF` | a top-up; the first of an account opens it. REF is the payment's own name, or empty |
//! | `taken,TIME,RUN,ACCOUNT,CREDITS` | a run takes free credits out |
//! | `back,TIME,RUN,ACCOUNT,FREE,DOUBT,SPENT` | what became of them |
//! | `decided,TIME,RUN,MESSAGE,PART,ACCOUNT,COST,FATE` | a part in doubt is spent (`delivered`), or its credits are free again (`lost`) |
//!
//! TIME is in milliseconds since 1970 UTC. RUN is 32 hexadecimal digits. ACCOUNT and REF are 1 to 192 characters,
//! which spell octets as a journal spells a message_id. A last line without its line feed was cut, and
//! doesn't count. At each record, for each account, paid = free + out + doubt + spent.

#![tactic(auto)]

mod balance;
mod booking;
mod books;
mod decisions;
mod entry;
mod escape;
mod fault;
pub mod laws;
mod ledger;
mod lines;
mod name;
mod posting;
mod reading;
mod refusal;
mod rows;
#[cfg(test)]
mod tests;
mod text;

pub use books::Books;
pub use entry::{Decision, Deposit, Entry, Fate, Payment, Row, Stake, Stand, Statement, Taking};
pub use fault::Fault;
pub use ledger::Ledger;
pub use lines::{whole_len, with_header};
pub use name::{Name, Run, RunAccount};
pub use refusal::Refusal;
pub use text::write_entry;
