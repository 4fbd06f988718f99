//! Ledgers read from octets, and entries that are booked to them.

mod deciding;
mod posting;
mod reading;

use crate::{Ledger, Name, Row};
use std::alloc::Global;
use std::fmt::Debug;
use std::process::Abort;

/// Whether both are the same. What differs stands in the message.
fn same<T: PartialEq + Debug + Drop>(rt: &impl Abort, one: T, other: T) {
    assert_eq!(rt; one, other);
}

/// Two runs over two accounts: the first brought back, and one of its parts in doubt is decided; the second
/// has its credits out.
const WEEK: &[u8] = b"ledger,1\n\
paid,1,alpha,1000,inv-1\n\
paid,2,beta,50,\n\
taken,3,00000000000000000000000000000001,alpha,600\n\
back,4,00000000000000000000000000000001,alpha,100,30,470\n\
decided,5,00000000000000000000000000000001,7,1,alpha,10,delivered\n\
decided,5,00000000000000000000000000000001,7,2,alpha,15,lost\n\
taken,6,00000000000000000000000000000002,alpha,200\n\
taken,7,00000000000000000000000000000002,beta,50\n\
paid,8,beta,7,inv-2\n";

/// The ledger of these octets.
fn ledger_of(rt: &impl Abort, alloc: Global, text: &[u8]) -> Ledger {
    let Ok(ledger) = Ledger::read(alloc, text) else {
        panic!(rt; "the octets are no ledger");
    };
    ledger
}

/// A name of these characters.
fn name_of(rt: &impl Abort, alloc: Global, text: &[u8]) -> Name {
    let Ok(Some(name)) = Name::read(alloc, text) else {
        panic!(rt; "the characters are no name");
    };
    name
}

/// A row, in the order of the balance.
fn row(paid: u64, free: u64, out: u64, doubt: u64, spent: u64) -> Row {
    Row {
        paid,
        free,
        out,
        doubt,
        spent,
    }
}
