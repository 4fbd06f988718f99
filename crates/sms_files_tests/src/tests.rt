//! What the files say, and the first fault of those that are none.

mod broken;
mod config;
mod fields;
mod flaws;
mod input;
mod quoting;
mod reading;
mod refs;
mod report;
mod same;
mod told;
