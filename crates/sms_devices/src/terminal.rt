//! Standard streams, and what a person sees of a run.

mod board;
mod notices;
mod progress;
mod screen;
mod standard;

pub use notices::{Notice, Notices, TakesNotices, Terminal};
pub use progress::{Progress, Telling};
pub use screen::{Pen, Screen, is_verbose};
pub use standard::stand_ins;
