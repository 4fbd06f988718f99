//! Decisions of parts in doubt, each of which is booked once.

ghost use Rattle.std.specs.Prelude.{◌≡◌, IfErr, IfOk, string_bytes};
ghost use Rattle.sms_ledger.specs.Decisions.{is_decided as stands_decided, is_fate as is_this_fate, undecided};
ghost use Rattle.sms_ledger.specs.Kept.{state_of};
ghost use Rattle.sms_ledger.specs.Posting.{ArePosted, IsStopped};

use crate::booking::decide;
use crate::entry::{Decision, Fate};
use crate::ledger::Ledger;
use crate::refusal::Refusal;
use crate::rows::part_key;
use crate::text::write_decided;
use sms_files::memory::NoMemory;
use std::alloc::Global;

/// Whether this is what is booked of a part.
fn is_fate(fate: Fate, booked: Option<Fate>) -> bool
    ensures { result ≡ is_this_fate fate booked }
{
    match booked {
        None => false,
        Some(Fate::Delivered) => match fate {
            Fate::Delivered => true,
            Fate::Lost => false,
        },
        Some(Fate::Lost) => match fate {
            Fate::Delivered => false,
            Fate::Lost => true,
        },
    }
}

impl Ledger {
    /// Whether the same is booked of the part.
    fn is_decided(&self, alloc: Global, d: &Decision) -> Result<bool, NoMemory>
        ensures { IfOk result (λ decided. decided ≡ stands_decided d.now (state_of self.now.books)) }
    {
        let key = part_key(alloc, d)?;
        Ok(is_fate(d.fate, self.books.parts.get(key.as_str()).copied()))
    }

    /// Books decisions that are made at this time, in milliseconds since 1970 UTC, one after another, and answers
    /// their lines: all of them, or the first refusal. What is booked of a part isn't booked again where it is
    /// the same, and is refused where it is the other. After a refusal some may be booked: drop the ledger and
    /// append nothing.
    pub fn decide_parts(
        &mut self,
        alloc: Global,
        time: u64,
        decisions: &[Decision],
    ) -> Result<String, Refusal>
        ensures ok { IfOk result (λ text. ArePosted time (undecided decisions.now (state_of self.old.books)) (state_of self.old.books) (state_of self.new.books) (string_bytes text)) }
        ensures err { IfErr result (IsStopped (undecided decisions.now (state_of self.old.books)) (state_of self.old.books)) }
    {
        let mut text = String::new(alloc);
        for d in decisions {
            if self.is_decided(alloc, d)? {
                continue;
            }
            if let Err(refusal) = decide(&mut self.books, alloc, d) {
                return Err(refusal);
            }
            write_decided(&mut text, time, d)?;
        }
        Ok(text)
    }
}
