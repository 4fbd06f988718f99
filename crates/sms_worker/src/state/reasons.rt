//! Why parts and messages were not sent.

ghost use Rattle.std.specs.Prelude.{◌≡◌, [], None};
ghost use Rattle.sms_worker.specs.Reasons.{Lists};

use crate::steps::give_up::GiveUpReason;
use crate::steps::parts::NoMessageMemory;
use std::alloc::Global;
use std::marker::Model;

/// A part that was given up before it was sent.
#[derive(Debug, Drop, PartialEq, Eq)]
pub struct UnsentPart {
    /// The index of its message, and its place among the parts of that, from 0.
    pub message: u64,
    pub part: usize,
    pub why: GiveUpReason,
}

/// Why a part or a message was not sent.
#[derive(Debug, Drop, PartialEq, Eq)]
pub enum UnsentReason {
    /// The message was refused, since memory was refused for it.
    Message(NoMessageMemory),
    /// The part was given up.
    Part(UnsentPart),
}

/// Evidence that memory was refused for one more reason.
#[derive(Clone, Copy, Debug, PartialEq, Eq)]
pub struct Unlisted {
    listed: usize,
}

/// Why parts and messages of a call were not sent: a list that only grows, and evidence that memory was refused for
/// one more reason, if it was. What is given up or refused because the bind is closed isn't listed.
#[derive(Drop)]
pub struct Reasons {
    listed: Vec<UnsentReason>,
    unlisted: Option<Unlisted>,
}

impl Model for Reasons {
    ghost use Rattle.sms_worker.specs.Reasons.{ReasonState};

    ghost Value = { ReasonState };

    ghost view = { λ r. record { listed = r.listed.items; unlisted = r.unlisted } };
}

impl Reasons {
    /// None yet. Takes no memory.
    pub(crate) fn none(alloc: Global) -> Reasons
        ensures { result ≡ record { listed = []; unlisted = None } }
    {
        Reasons {
            listed: Vec::new(alloc),
            unlisted: None,
        }
    }

    /// The reasons, in the order in which they were met.
    pub fn as_slice(&self) -> &[UnsentReason]
        ensures { result.now ≡ self.now.listed }
    {
        self.listed.as_slice()
    }

    /// The evidence that memory was refused for one more reason, if it was.
    pub fn unlisted(&self) -> Option<Unlisted>
        ensures { result ≡ self.now.unlisted }
    {
        self.unlisted
    }

    /// Lists a reason, or notes that memory was refused for it.
    pub(crate) fn list(&mut self, reason: UnsentReason)
        ensures { Lists reason self.old self.new }
    {
        let listed = self.listed.len();
        match self.listed.push(reason) {
            Ok(()) => {}
            Err(_) => self.unlisted = Some(Unlisted { listed }),
        }
    }
}
