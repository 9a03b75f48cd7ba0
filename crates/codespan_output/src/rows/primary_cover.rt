//! What primary multi-line labels cover of one line.

ghost use Rattle.std.specs.Prelude.{◌≡◌, ◌||◌, ◌+◌, ◌^◌, ◌<◌, ◌≤◌, ℕ};
ghost use Rattle.std.specs.Prelude.{false, map, nat_le};
ghost use Rattle.codespan_output.specs.declared.char_metrics.Metrics as metrics;
ghost use Rattle.codespan_output.specs.Arguments.{lane_mark_view, multi_label_view};
ghost use Rattle.codespan_output.specs.RowParts.{multi_label_covers};
ghost use Rattle.codespan_output.specs.Private.PrimaryCover.{CoversAsLaneMarks, is_from};
ghost use Rattle.codespan_output.specs.Private.PrimaryCover.{covers_char};

use crate::arguments::MultiLabel;
use crate::char_metrics::Metrics;
use codespan_core::diagnostic::LabelStyle;

/// What the primary multi-line labels cover of a line: all from one byte index on, and all before
/// another. Byte indices are from the line's start.
#[derive(Clone, Copy)]
pub struct PrimaryCover {
    /// The byte index from which on all is covered: the least start of those that start on the
    /// line, or 0 where one goes through it; `None` where there is no such label.
    from: Option<usize>,
    /// The byte index before which all is covered: the greatest end of those that end on the line,
    /// or 0 where none does.
    to: usize,
}

impl PrimaryCover {
    /// Returns what the labels of these lane marks cover.
    pub fn of(lane_marks: &[(usize, LabelStyle, MultiLabel<'_>)]) -> PrimaryCover
        ensures { CoversAsLaneMarks (map lane_mark_view lane_marks.now) result }
    {
        let mut found = PrimaryCover { from: None, to: 0 };
        for lane_mark in lane_marks {
            if lane_mark.1 == LabelStyle::Primary {
                found = found.with(lane_mark.2);
            }
        }
        found
    }

    /// Adds what the label of one more multi-line label mark covers.
    fn with(self, multi_label: MultiLabel<'_>) -> PrimaryCover
        ensures { (c : metrics.Metrics) → 1 ≤ c.bytes → covers_char result c
            ≡ (covers_char self c || multi_label_covers c (multi_label_view multi_label.entry)) }
    {
        match (multi_label, self.from) {
            (MultiLabel::Top(start), Some(from)) => PrimaryCover {
                from: Some(from.min(start)),
                to: self.to,
            },
            (MultiLabel::Top(start), None) => PrimaryCover {
                from: Some(start),
                to: self.to,
            },
            (MultiLabel::Left, _) => PrimaryCover {
                from: Some(0),
                to: self.to,
            },
            (MultiLabel::Bottom(end, _), from) => PrimaryCover {
                from,
                to: self.to.max(end),
            },
        }
    }

    /// Returns the byte index from which on they cover no character: `usize::MAX`, at which none
    /// begins, where one covers the line to its end.
    pub fn end(self) -> usize
        ensures { (c : metrics.Metrics) → result ≤ c.byte_index → c.byte_index + 1 < 2 ^ 64
            → 1 ≤ c.bytes
            → covers_char self c ≡ false }
    {
        match self.from {
            Some(_) => usize::MAX,
            None => self.to,
        }
    }

    /// Returns whether one of them covers the character.
    ///
    /// # Requires
    ///
    /// The character has a byte.
    pub fn covers_char(self, metrics: Metrics) -> bool
        requires { 1 ≤ metrics.bytes }
        ensures { result ≡ covers_char self metrics }
    {
        if self.from.is_none() && self.to == 0 {
            return false;
        }
        let before = metrics.byte_index <= self.to && metrics.bytes <= self.to - metrics.byte_index;
        match self.from {
            Some(start) => start <= metrics.byte_index || before,
            None => before,
        }
    }
}
