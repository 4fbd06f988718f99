//! The devices by themselves, over connections of the tests' own.

mod bells;
mod connecting;
mod ending;
mod journal;
mod journal_files;
mod journal_threads;
mod ledger_files;
mod loopback;
mod network;
mod paper;
mod progress;
mod rate_limiter;
mod same;
mod screen;
mod standard;
mod stays;
mod ticks;
mod watchdog;
