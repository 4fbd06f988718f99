//! The fault that an error of the command line's parser is.

ghost use Rattle.std.specs.Prelude.{◌≡◌, ◌≢◌, ◌↔◌};
ghost use Rattle.clap.specs.Words.{HasKind, Kinds, kind_of};
ghost use Rattle.sms_send.specs.CommandLine.{RefusesAs};
ghost use Rattle.sms_send.specs.Faults.{IsWords};
ghost use Rattle.sms_send.specs.declared.faults.fault.Fault.TheVariants.{OutOfMemory};

use crate::faults::argument_error::ArgumentError;
use crate::faults::fault::Fault;
use clap::Error;
use clap::error::ErrorKind;
use std::alloc::Global;

/// The parser's message; empty where memory is refused for it.
fn text_of(alloc: Global, error: &Error) -> String {
    match error.to_string(alloc) {
        Ok(text) => text,
        Err(_) => String::new(alloc),
    }
}

/// The fault that the parser's error is.
pub fn fault_of(alloc: Global, error: &Error) -> Fault
    ensures refused { (kinds : Kinds) → HasKind kinds error.now → RefusesAs kinds result }
    ensures memory { kind_of error.now ≡ ErrorKind.OutOfMemory → result ≡ OutOfMemory }
    ensures words { IsWords result ↔ ((kind_of error.now ≢ ErrorKind.OutOfMemory) × (kind_of error.now ≢ ErrorKind.DisplayHelp) × (kind_of error.now ≢ ErrorKind.DisplayVersion)) }
{
    match error.kind() {
        ErrorKind::OutOfMemory => Fault::OutOfMemory,
        ErrorKind::DisplayHelp => match error.to_string(alloc) {
            Ok(text) => Fault::Help(text),
            Err(_) => Fault::OutOfMemory,
        },
        ErrorKind::DisplayVersion => match error.to_string(alloc) {
            Ok(text) => Fault::Version(text),
            Err(_) => Fault::OutOfMemory,
        },
        _ => Fault::Words(ArgumentError::Parser(text_of(alloc, error))),
    }
}
