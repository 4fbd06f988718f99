//! Standard error, and whether a person sees it.

use std::env::Env;
use std::io::{Eprint, IsTerminal, Stderr};

/// Standard error, and whether a person sees it.
pub trait Screen {
    ghost use Rattle.std.specs.Prelude.{Bool, ⊤};

    // Whether a person may see it, and whether details are wanted on it.
    ghost shows: { Self → Bool → Type 0 } = { λ _ _. ⊤ };

    ghost details: { Self → Bool → Type 0 } = { λ _ _. ⊤ };

    fn is_terminal(&self) -> bool
        ensures { shows self.now result };

    /// Whether details of faults are wanted on it: on a terminal, or if the environment asks for them.
    fn has_details(&self) -> bool
        ensures { details self.now result };

    fn pen(&self) -> Stderr;
}

impl Screen for HostRuntime {
    fn is_terminal(&self) -> bool {
        self.stderr().is_terminal()
    }

    fn has_details(&self) -> bool {
        self.is_terminal() || is_verbose(self)
    }

    fn pen(&self) -> Stderr {
        self.stderr()
    }
}

/// Whether the environment asks for details: `SMS_SEND_VERBOSE` is 1.
pub fn is_verbose<R: Env>(rt: &R) -> bool {
    let mut value = [0u8; 1];
    match rt.var("SMS_SEND_VERBOSE", &mut value) {
        Ok(length) => length == 1 && value == *b"1",
        Err(_) => false,
    }
}

/// What writes to a terminal. Each thread has one of its own.
pub trait Pen: Eprint {
    fn another(&self) -> Self;
}

impl Pen for Stderr {
    fn another(&self) -> Stderr {
        *self
    }
}
