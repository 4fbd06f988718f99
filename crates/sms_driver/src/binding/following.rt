//! How a bind's reader follows throttling.

ghost use Rattle.std.specs.Prelude.{ℕ, ◌≤◌, IfSome};
ghost use Rattle.std.proofs.Props.{props};
ghost use Rattle.sms_core.specs.Limits.{most_slots};

/// The limit of the bind's window, where its reader follows throttling.
#[derive(Clone, Copy)]
pub struct Following {
    pub limit: Option<u32>,
    pub ghost range: { IfSome limit (λ limit. (1 ≤ limit) × (limit ≤ most_slots)) } by { Prim.hlevel props },
}
