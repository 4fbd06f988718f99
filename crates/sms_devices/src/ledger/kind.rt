//! The kinds of ledgers, and how their files begin.

ghost use Rattle.std.specs.Prelude.{◌≡◌, ◌≤◌, length};
ghost use Rattle.sms_devices.specs.LedgerKinds.{begins as begins_kind, front_in, may_be as kind_fits};

/// What a ledger's credits are worth. A sending takes those of one kind alone: nothing is sent with credits that nobody paid for, and
/// a trial costs nobody what was paid.
#[derive(Clone, Copy, Debug, PartialEq, Eq)]
pub enum LedgerKind {
    /// They were paid for. The file is the ledger's text.
    Paid,
    /// They are for trials. The file has a line `trial` before the ledger's text.
    Trial,
}

/// The line of trials.
pub(crate) const TRIAL: &[u8] = b"trial\n";

/// Whether a file with these first octets, all that it has or as many as the line of trials, begins a ledger of trials: it has that
/// line, or was truncated within it.
pub(crate) fn is_begun_trial(first: &[u8]) -> bool
    ensures { result ≡ begins_kind first.now }
{
    !first.is_empty() && TRIAL.starts_with(first)
}

/// How many octets of a file with these first ones stand before the ledger's text.
pub(crate) fn front_len(first: &[u8]) -> usize
    ensures len { result ≡ front_in first.now }
    ensures few { result ≤ 6 }
{
    if is_begun_trial(first) {
        TRIAL.len()
    } else {
        0
    }
}

impl LedgerKind {
    /// Whether a file with these first octets may be a ledger of this kind. One without octets is one of those paid for until it is made one of trials.
    pub(crate) fn may_be(self, first: &[u8]) -> bool
        ensures { result ≡ kind_fits self first.now }
    {
        match self {
            LedgerKind::Paid => !is_begun_trial(first),
            LedgerKind::Trial => is_begun_trial(first),
        }
    }
}
