//! Long texts as concatenated short messages (3GPP TS 23.040 9.2.3.24, 9.2.3.24.1 and 9.2.3.24.8).
//!
//! [`cut`] gives the parts of a coded text, as few as there can be, and [`join`] the text of its
//! parts. A [`Part`] tells what the fields of its `submit_sm` are: `short_message`, `esm_class` and
//! `data_coding`. [`short_message_of`] gives these at once for a text that needs no more than one.

#![tactic(auto)]

mod at_once;
mod cutting;
mod front;
mod joining;
pub mod laws;
mod limits;
mod part;
mod place;
#[cfg(test)]
mod tests;

pub use at_once::{ShortMessage, short_message_of};
pub use cutting::{CutError, cut, parts_in};
pub use joining::{JoinError, join};
pub use part::Part;
pub use place::{Place, Reference};
