//! A stretch of a text for which dots stand.

ghost use Rattle.std.specs.Prelude.{◌+◌, ◌<◌, ◌≤◌};

/// A stretch of a text for which dots stand.
#[derive(Clone, Copy)]
pub struct Cut {
    /// The byte index at which it starts.
    pub start: usize,
    /// The byte index after it.
    pub end: usize,
    /// The byte index at which its dots start in the shortened text.
    pub dots: usize,
    ghost longer: { start + 3 < end },
    ghost earlier: { dots ≤ start },
}
