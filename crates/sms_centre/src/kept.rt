//! Answers that wait for another submit_sm to come.

ghost use Rattle.std.specs.Prelude.{◌≡◌, ◌≤◌, ◌++◌, vec_len, option_to_list, ◌<◌, OnOk};
ghost use Rattle.std.specs.Vec.{vec_capacity};
ghost use Rattle.sms_centre.specs.Says.{due, not_due, kept_of};

use crate::said::Said;
use crate::treatment::Treatment;
use std::alloc::AllocError;

/// An answer that waits.
#[derive(Clone, Copy, Debug, PartialEq, Eq)]
pub(crate) struct Kept {
    /// The submit_sm with which it is given, counted from 1.
    pub due: u64,
    pub said: Said,
}

/// Says what is due with submit_sm k.
pub(crate) fn say_due(kept: &[Kept], k: u64, out: &mut Vec<Said>) -> Result<(), AllocError>
    ensures { OnOk result (out.new.items ≡ out.old.items ++ due k kept.now) }
{
    for x in kept {
        if x.due == k && out.push(x.said).is_err() {
            return Err(AllocError);
        }
    }
    Ok(())
}

/// Drops what was due with submit_sm k, and keeps what comes of it later.
pub(crate) fn keep(kept: &mut Vec<Kept>, treatment: Treatment, k: u64, number: u32)
    requires { vec_len kept.old < vec_capacity kept.old }
    ensures { kept.new.items ≡ not_due k kept.old.items ++ kept_of treatment k number }
{
    drop_due(kept, k);
    match later(treatment, k, number) {
        Some(x) => kept.push_reserved(x),
        None => {}
    }
}

/// Keeps what isn't due with submit_sm k.
fn drop_due(kept: &mut Vec<Kept>, k: u64)
    ensures items { kept.new.items ≡ not_due k kept.old.items }
    ensures room { vec_len kept.new ≤ vec_len kept.old }
    ensures capacity { vec_capacity kept.new ≡ vec_capacity kept.old }
{
    kept.retain(|x| x.due != k);
}

/// What is kept of submit_sm k.
fn later(treatment: Treatment, k: u64, number: u32) -> Option<Kept>
    ensures { option_to_list result ≡ kept_of treatment k number }
{
    match treatment {
        Treatment::Late { after, status } => Some(Kept {
            due: k.saturating_add(u64::from(after)),
            said: Said::SubmitResp {
                submit: k,
                status,
                number,
            },
        }),
        Treatment::Status(_) => None,
        Treatment::Nack(_) => None,
        Treatment::Silent => None,
        Treatment::Unbind => None,
        Treatment::Twice(_) => None,
        Treatment::Stray(_) => None,
        Treatment::Deliver => None,
        Treatment::Cut => None,
        Treatment::Huge => None,
    }
}
