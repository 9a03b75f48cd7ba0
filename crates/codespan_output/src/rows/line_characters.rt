//! The characters of a line, as its rows need them.

ghost use Rattle.std.specs.Prelude.{◌≡◌};
ghost use Rattle.codespan_output.specs.CharMetrics.{width_of};
ghost use Rattle.codespan_output.specs.Arguments.{single_label_views};
ghost use Rattle.codespan_output.specs.RowParts.{metrics_before, metrics_up_to};
ghost use Rattle.codespan_output.specs.Private.RowLabels.{least_start};
ghost use Rattle.codespan_output.specs.Private.LineCharacters.{CharInput, LeavesOut, metrics_of};
ghost use Rattle.codespan_output.specs.Private.LineCharacters.{metrics_to_end_of, pointers_of};

use crate::rows::char_cursor::CharCursor;
use crate::rows::pointer_cursor::PointerCursor;

/// The characters of a line whose rows are rendered, their widths, and its pointers.
///
/// `codespan_renderer` has two: one scans the text again for each row, the other keeps the
/// characters and the pointers in a cache.
pub trait LineCharacters {
    /// A cursor over its characters.
    type Cursor: CharCursor;

    /// A cursor over its pointers.
    type Pointers: PointerCursor;

    /// The tab width, the text and the single-line labels of the line.
    ghost input: { Self → CharInput };

    /// Returns a cursor over the characters of the line.
    fn characters(&self) -> Self::Cursor
        ensures remaining { Self.Cursor.remaining result ≡ metrics_of (input self.now) }
        ensures labels { Self.Cursor.labels result ≡ (input self.now).labels };

    /// Returns a column, in cells from the line's start, and a cursor over the characters of the
    /// line from there on and the placeholder after the last one. The characters that are left out
    /// end at or before the byte index `end`, and at or before the start of each label.
    fn characters_from_labels(&self, end: usize) -> (u128, Self::Cursor)
        ensures remaining { LeavesOut (least_start end (single_label_views (input self.now).labels))
            (metrics_to_end_of (input self.now)) result.0 (Self.Cursor.remaining result.1) }
        ensures labels { Self.Cursor.labels result.1 ≡ (input self.now).labels };

    /// Returns a cursor over the pointers of the line.
    fn pointers(&self) -> Self::Pointers
        ensures { Self.Pointers.remaining result ≡ pointers_of (input self.now) };

    /// Returns how many cells the characters that begin at this byte index or before it occupy.
    fn width_up_to(&self, byte_index: usize) -> u128
        ensures { result ≡ width_of (metrics_up_to byte_index (metrics_of (input self.now))) };

    /// Returns how many cells the characters that begin before this byte index occupy.
    #[tactic(auto, using(crate::proofs::Characters::Widths::widths_before))]
    fn width_before(&self, byte_index: usize) -> u128
        ensures { result ≡ width_of (metrics_before byte_index (metrics_of (input self.now))) }
    {
        match byte_index.checked_sub(1) {
            Some(last) => self.width_up_to(last),
            None => 0,
        }
    }
}
