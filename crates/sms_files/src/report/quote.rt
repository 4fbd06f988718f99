//! What a sending would come to, before anything is sent: of each message whether it passes the checks
//! of a worker and what it costs, and of each account what its messages take; and which texts look as if a
//! quote had been left open.

mod checking;
pub mod laws;
mod quote;
mod quoting;
mod text;
mod total;
mod warning;

pub use quote::{Quote, Verdict};
pub use text::quote_text;
pub use warning::warnings_text;
