//! What is printed, worked out by hand.

mod progress;
mod quote;
mod report;
mod same;
