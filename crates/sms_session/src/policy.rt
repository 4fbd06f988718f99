//! How often and when a submit_sm is tried again (SMPP 3.4 5.1.3).

ghost use Rattle.std.specs.Prelude.{◌≡◌, ◌≤◌, ◌↔◌, IfOk, IsOk};
ghost use Rattle.sms_session.specs.Decisions.{decided, delay, IsPolicy};

use sms_core::{MOST_ATTEMPTS, is_charge, is_retry};
use sms_pdu::Reply;

/// How often a request is tried, and how long the first wait is.
#[derive(Clone, Copy, Debug, PartialEq, Eq)]
pub struct Policy {
    /// How often a request is tried at most: 1 to 10.
    pub attempts: u32,
    /// The wait after the first attempt, in milliseconds: at most a minute.
    pub base_ms: u32,
    pub ghost lawful: { IsPolicy attempts base_ms },
}

/// Why there is no such policy.
#[derive(Clone, Copy, Debug, PartialEq, Eq, thiserror::Error)]
pub enum PolicyError {
    /// The attempts aren't 1 to 10, or the first wait is above a minute.
    #[error("attempts outside 1 to 10, or a base above 60000 ms")]
    BadPolicy,
}

/// What the answer to an attempt decides.
#[derive(Clone, Copy, Debug, PartialEq, Eq)]
pub enum Decision {
    /// The message was taken, and its credits are spent.
    Charge,
    /// It is sent again in so many milliseconds.
    RetryAfter(u32),
    /// It is refused for good, and its credits are free again.
    Refuse,
}

/// The longest wait in milliseconds: a minute.
const LONGEST_MS: u32 = 60_000;

impl Policy {
    /// At most `attempts` tries; `base_ms` milliseconds after the first, and twice as long after each
    /// further one, up to a minute. Refused where the attempts aren't 1 to 10 or the base is above a
    /// minute.
    pub fn new(attempts: u32, base_ms: u32) -> Result<Policy, PolicyError>
        ensures range { IsOk result ↔ IsPolicy attempts base_ms }
        ensures policy { IfOk result (λ p. (p.attempts ≡ attempts) × (p.base_ms ≡ base_ms)) }
    {
        if attempts < 1 || attempts > MOST_ATTEMPTS || base_ms > LONGEST_MS {
            return Err(PolicyError::BadPolicy);
        }
        Ok(Policy { attempts, base_ms })
    }

    /// The wait after this attempt, in milliseconds.
    fn delay_after(&self, attempt: u32) -> u32
        requires { (1 ≤ attempt) × (attempt ≤ self.now.attempts) }
        ensures { result ≡ delay self.now.base_ms attempt }
    {
        let doubled = u64::from(self.base_ms) << (attempt - 1);
        doubled.min(u64::from(LONGEST_MS)) as u32
    }
}

/// What the answer to this attempt, counted from 1, decides: a submit_sm_resp with `ESME_ROK`
/// charges; one that says throttled or queue full is tried again while attempts are left; all else,
/// and every generic_nack, refuses.
pub fn decide(reply: &Reply, attempt: u32, policy: &Policy) -> Decision
    requires { (1 ≤ attempt) × (attempt ≤ policy.now.attempts) }
    ensures { result ≡ decided reply.now attempt policy.now.attempts policy.now.base_ms }
{
    if is_charge(reply.status, reply.nack) {
        Decision::Charge
    } else if is_retry(reply.status, reply.nack) && attempt < policy.attempts {
        Decision::RetryAfter(policy.delay_after(attempt))
    } else {
        Decision::Refuse
    }
}
