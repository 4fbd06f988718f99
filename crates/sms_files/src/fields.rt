//! The fields file: what each submit_sm of a sending says beside its message, key by key.

mod keys;
mod parameters;
mod reading;
mod times;

pub use reading::fields_of;
