//! A gap between the needed units of a line.

ghost use Rattle.std.specs.Prelude.{◌≤◌};

/// A longest run of units that are not needed.
#[derive(Clone, Copy)]
pub struct Gap {
    /// The byte index at which it starts.
    pub start: usize,
    /// The byte index after it.
    pub end: usize,
    /// Whether a needed unit is before it.
    pub is_after_needed: bool,
    /// Whether a needed unit is after it.
    pub is_before_needed: bool,
    ghost ordered: { start ≤ end },
}
