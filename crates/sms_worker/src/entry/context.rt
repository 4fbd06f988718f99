//! What a worker works with and does not own.

use sms_bind::{Line, LogName};
use sms_book::{Book, BookName};
use sms_message::Rules;
use sms_window::Window;
use std::alloc::Global;
use std::io::Write;
use std::sync::Mutex;

/// What all workers of a run share.
#[derive(Drop)]
pub struct RunContext<'a, N: BookName, G, K, P, R> {
    pub rt: &'a R,
    pub alloc: Global,
    pub book: &'a Mutex<Book<N>>,
    pub rules: &'a Rules,
    pub gate: &'a G,
    pub clock: &'a K,
    pub pause: &'a P,
}

/// What a worker works with: what all share, and the line and window of its bind.
#[derive(Drop)]
pub struct WorkerContext<'a, N: BookName + LogName, W: Write, G, K, R> {
    pub rt: &'a R,
    pub alloc: Global,
    pub line: &'a Line<N, W>,
    pub window: &'a Window,
    pub book: &'a Mutex<Book<N>>,
    pub rules: &'a Rules,
    pub gate: &'a G,
    pub clock: &'a K,
    /// Its index among all workers, and its place among those of its bind.
    pub worker: usize,
    pub place: usize,
}
