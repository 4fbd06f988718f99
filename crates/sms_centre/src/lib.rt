//! A test centre, which answers by a script well or badly, and devices in memory to reach it and to
//! make it fail.

#![tactic(auto)]

mod centre;
mod fuse;
mod kept;
mod keys;
mod pipe;
mod ring;
mod said;
mod saying;
mod script;
mod serving;
mod text;
mod treatment;

pub use centre::Centre;
pub use fuse::Fuse;
pub use keys::strings_of;
pub use pipe::{Pipe, PipeEnd};
pub use script::{Script, ScriptError};
pub use serving::{ServeCause, ServeEnd, serve};
pub use treatment::Treatment;
