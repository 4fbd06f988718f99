//! How many of each a config asks for.

ghost use Rattle.std.specs.Prelude.{◌≤◌};

/// How many of each there are.
#[derive(Clone, Copy, Debug, PartialEq, Eq)]
pub struct Limits {
    /// Binds, 1 to 4.
    pub binds: u32,
    /// Workers of a bind, 1 to 8.
    pub workers: u32,
    /// Slots of a bind's window, 1 to 64.
    pub window: u32,
    /// Requests that a worker may have open at once, 1 to 64.
    pub depth: u32,
    pub ghost few: { (binds ≤ 4) × (workers ≤ 8) },
    pub ghost some_open: { 1 ≤ depth },
    pub ghost few_open: { depth ≤ 64 },
}
