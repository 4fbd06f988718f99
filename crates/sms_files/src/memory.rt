//! Lack of memory as evidence: the calls that take memory for what is read and printed. Where memory is refused
//! they give a `NoMemory`, which nothing else gives, so no function can say at will that there was none.

mod calls;
mod growth;
mod reading;

pub use calls::count_parts;
pub(crate) use calls::{NoTariff, first_bad_answer, make_tariff, make_world, strings_in};
pub use growth::{
    append, append_char, append_number, append_octets, insert, list_for, push, text_of,
};
pub use reading::next_of;
pub(crate) use reading::{next_record, toml_refusal};
use std::marker::Model;

/// Evidence that memory was refused to a call of this module, and no more than that.
#[derive(Clone, Copy, Debug, PartialEq, Eq)]
pub struct NoMemory {
    refused: (),
}

impl Model for NoMemory {
    ghost Value = { Unit };

    ghost view = { λ _. tt };

    ghost inverse = { λ _. record { refused = tt } };
}
