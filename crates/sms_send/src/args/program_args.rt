//! The words that the program was started with.

use crate::faults::argument_error::ArgumentError;
use crate::faults::fault::Fault;
use std::env;
use std::io::ErrorKind;

/// Who knows the words that the program was started with.
pub trait ProgramWords {
    ghost use Rattle.std.specs.Prelude.{List, Option, Some, IfErr, IfOk, map, string_bytes, ⊤};
    ghost use Rattle.clap.specs.Words.{Text};
    ghost use Rattle.sms_send.specs.Asked.{LacksWords};

    // Which words may stand after the program's name; none where one is not UTF-8.
    ghost has: { Self → Option (List Text) → Type 0 } = { λ _ _. ⊤ };

    /// The words after the program's name. One that is not UTF-8 is refused.
    fn words(&self) -> Result<Vec<String>, Fault>
        ensures given { IfOk result (λ words. has self.now (Some (map string_bytes words.items))) }
        ensures refused { IfErr result (LacksWords (has self.now)) };
}

impl ProgramWords for HostRuntime {
    fn words(&self) -> Result<Vec<String>, Fault> {
        match env::args(self) {
            Ok(words) => Ok(words.skip(1).collect(self.alloc())?),
            Err(error) if error.kind() == ErrorKind::OutOfMemory => Err(Fault::OutOfMemory),
            Err(_) => Err(Fault::Words(ArgumentError::NotUtf8)),
        }
    }
}
