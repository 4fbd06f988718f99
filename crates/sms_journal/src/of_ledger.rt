//! A run whose credits are a ledger's. Before its journal stand its name and its accounts:
//!
//! ```text
//! run,1,RUN,SIZE
//! account,credits
//! bank,7
//! journal,1,...
//! ```
//!
//! RUN is its name in the ledger, 32 hexadecimal digits. The SIZE octets behind the first line are its accounts file: what
//! it takes of each account that its messages name. The journal's first line has the digest of these octets, as of any
//! accounts file. All of that is on the disk before the ledger has that anything is taken, so that each credit that is
//! out with a run stands in a journal, by which it comes back.

mod accounts;
mod head;
pub mod laws;
mod name;
mod takings;

pub use accounts::accounts_of;
pub use head::{RunHead, RunText, run_head, run_text};
pub use name::name_of_run;
pub use takings::{are_out, ledger_names, opened_rows, takings_for};
