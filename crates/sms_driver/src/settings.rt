//! What a sending is given beside its accounts and messages.

ghost use Rattle.std.specs.Prelude.{◌≡◌};

use crate::binding::BindSettings;
use sms_book::{Book, BookName};
use sms_worker::{Rules, RunContext};
use std::alloc::Global;
use std::sync::Mutex;

/// How a sending is made.
#[derive(Drop)]
pub struct RunSettings {
    /// How many binds there are, at most 4.
    pub binds: usize,
    /// How many workers each bind has, at most 8.
    pub workers: usize,
    /// What the binds have in common.
    pub bind_settings: BindSettings,
    /// The rules of all workers.
    pub rules: Rules,
}

/// The devices of a sending: where connections come from, and what its workers ask.
#[derive(Drop)]
pub struct Devices<'d, D, G, K, P> {
    pub dial: &'d D,
    pub gate: &'d G,
    pub clock: &'d K,
    pub pause: &'d P,
}

impl<'d, D, G, K, P> Devices<'d, D, G, K, P> {
    /// What the workers of a run share, by these rules.
    pub(crate) fn context<'x, N: BookName, R>(
        &self,
        rt: &'x R,
        alloc: Global,
        book: &'x Mutex<Book<N>>,
        rules: &'x Rules,
    ) -> RunContext<'x, N, G, K, P, R>
    where
        'd: 'x,
        ensures { result.rules.now ≡ rules.now }
    {
        RunContext {
            rt,
            alloc,
            book,
            rules,
            gate: self.gate,
            clock: self.clock,
            pause: self.pause,
        }
    }
}
