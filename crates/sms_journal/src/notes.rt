//! Notes: whether a run can have written them, and what they say of each message and each account.

mod checking;
mod dense_map;
mod ending;
mod ends;
pub(crate) mod fates;
mod given;
mod grouping;
mod note;
mod rounds;
mod rows;
mod run_check;
mod run_ends;
mod run_size;
mod seen;
mod starts;
mod verdict;

pub use checking::check_notes;
pub use ends::recover;
pub use note::{Note, RequestId};
pub use rows::recovered_rows;
pub use run_check::check_rounds;
pub(crate) use run_check::{LastRound, check_front, check_last};
pub use run_ends::recover_rounds;
pub(crate) use run_ends::round_in;
pub use run_size::RunSize;
