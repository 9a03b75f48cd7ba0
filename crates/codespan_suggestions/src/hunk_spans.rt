//! The line numbers of a hunk in the old text and in the new one.

ghost use Rattle.std.specs.Prelude.{◌≡◌, ◌++◌, ◌+◌, ◌<◌, ◌^◌, ℕ, List};
ghost use Rattle.codespan_suggestions.specs.Private.Spans.{span_of, as_list, numbered_rows};
ghost use Rattle.codespan_suggestions.specs.UnifiedDiffs.{old_numbers, new_numbers};

use codespan_edits::DiffRow;

/// The lines of a hunk that are in one of the texts.
#[derive(Clone, Copy)]
pub(crate) struct Span {
    /// The number of the first one, from 1; 0 where there is none.
    pub(crate) first: usize,
    /// How many there are.
    pub(crate) count: usize,
}

impl Span {
    /// Adds the line of one more row, if it has a number in the text.
    fn add(&mut self, number: Option<usize>)
        requires { self.old.count + 1 < 2 ^ 64 }
        ensures { (numbers : List ℕ) → self.old ≡ span_of numbers
            → self.new ≡ span_of (numbers ++ as_list number) }
    {
        if let Some(number) = number {
            if self.count == 0 {
                self.first = number;
            }
            self.count += 1;
        }
    }
}

/// The lines of a hunk in both texts.
#[derive(Clone, Copy)]
pub(crate) struct HunkSpans {
    /// Those in the old text.
    pub(crate) old: Span,
    /// Those in the new one.
    pub(crate) new: Span,
}

/// Returns the lines of the rows of a hunk in both texts.
pub(crate) fn hunk_spans(rows: &[DiffRow]) -> HunkSpans
    ensures old { result.old ≡ span_of (old_numbers (numbered_rows rows.now)) }
    ensures new { result.new ≡ span_of (new_numbers (numbered_rows rows.now)) }
{
    let mut old = Span { first: 0, count: 0 };
    let mut new = Span { first: 0, count: 0 };
    for row in rows {
        old.add(row.old_number);
        new.add(row.new_number);
    }
    HunkSpans { old, new }
}
