//! What the program needs of the process that it runs in.

use crate::journal::{JournalFiles, StopSigns};
use crate::terminal::Screen;
use crate::transport::Connects;
use std::io::Eprint;
use std::rt::Files;
use std::sync::Wait;
use std::thread::Threads;
use std::time::Clock;

/// Memory, files, journals, connections, standard input and error, threads and the time.
pub trait Host: AllocGlobal
    + Files
    + JournalFiles
    + StopSigns
    + Connects
    + Input
    + Threads
    + Wait
    + Clock
    + Eprint
    + Screen
    + Sync {}

impl<R> Host for R
where
    R: AllocGlobal
        + Files
        + JournalFiles
        + StopSigns
        + Connects
        + Input
        + Threads
        + Wait
        + Clock
        + Eprint
        + Screen
        + Sync,
{}
