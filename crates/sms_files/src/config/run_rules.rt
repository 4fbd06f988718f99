//! The rules by which a config and a tariff have messages sent.

ghost use Rattle.std.specs.Prelude.{◌≡◌, ◌≤◌};
ghost use Rattle.sms_message.specs.Limits.{most_turns};
ghost use Rattle.sms_files.specs.RunRules.{IsRulesOf};

use crate::config::limits::Limits;
use crate::config::{Flags, Retry};
use sms_book::Tariff;
use sms_message::{Fields, Rules};

/// The rules of a run's workers. Each of them takes at most `turns` turns.
pub fn rules_of(
    retry: Retry,
    limits: Limits,
    flags: Flags,
    fields: Fields,
    tariff: Tariff,
    turns: u64,
) -> Rules
    requires { turns ≤ most_turns }
    ensures says { IsRulesOf retry limits flags tariff turns result }
    ensures fields { result.fields ≡ fields }
{
    Rules {
        policy: retry.policy,
        depth: limits.depth,
        answer_ms: retry.answer_ms,
        turns,
        receipts: flags.receipts,
        tariff,
        long_reference: flags.long_reference,
        fields,
    }
}
