//! What a run leaves for a further round, and what that makes of the ends and rows before it. A further round sends the
//! messages of which no round before has begun anything, from the credits that those rounds left free.

mod credits;
mod ends;
mod evidence;
pub mod laws;
mod left;

pub use credits::{add_rows, openings_left};
pub use ends::put_ends;
pub use evidence::without_evidence;
pub(crate) use left::is_passing;
pub use left::{copies_of, count_left, is_left, messages_left};
