//! What a reader is given.

use crate::line::Line;
use crate::log::LogName;
use sms_window::Window;
use std::alloc::Global;
use std::io::Write;

/// What a reader is given, the same in each turn.
#[derive(Drop)]
pub struct ReaderContext<'a, N: LogName, W: Write, S> {
    pub rt: &'a S,
    pub alloc: Global,
    /// What it shares with the workers of its bind.
    pub line: &'a Line<N, W>,
    /// The window in which its seat holds slots back.
    pub window: &'a Window,
}
