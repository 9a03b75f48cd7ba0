//! A line of a script, and its fields.

ghost use Rattle.std.specs.Prelude.{◌+◌, ◌<◌, ◌^◌, length};

use program_io::fields::{is_ignored, split_field};
use std::ops::Range;

/// A line of a script.
#[derive(Clone, Copy)]
pub(super) struct Line<'input> {
    /// The byte index in the input at which it starts.
    pub(super) start: usize,
    /// Its text, without the newline and a carriage return before that.
    pub(super) text: &'input str,
    /// The byte index in the input at which the next line starts, or the input's length.
    pub(super) next: usize,
    ghost fits: { start + length text.now < 2 ^ 64 },
}

impl<'input> Line<'input> {
    ghost use Rattle.std.specs.Prelude.{◌≡◌, ◌≤◌, ◌<◌};
    ghost use Rattle.report.specs.ScriptLines.{script_line_view, range_at, word_of, rest_of};
    ghost use Rattle.report.specs.ScriptLines.{is_ignored, replacement_of, byte_before};
    ghost use Rattle.report.specs.ScriptLines.{ends_range};

    /// Returns the word: the text before the first space.
    pub(super) fn word(&self) -> &'input str
        ensures word { result.now ≡ word_of (script_line_view self.now) }
        ensures short { length result.now ≤ length self.now.text.now }
    {
        split_field(self.text).0
    }

    /// Returns the rest: the text after the first space.
    pub(super) fn rest(&self) -> &'input str
        ensures rest { result.now ≡ rest_of (script_line_view self.now) }
        ensures short { length result.now ≤ length self.now.text.now }
    {
        split_field(self.text).1
    }

    /// Returns the escaped text of a `replace` line: what follows the second space of the rest.
    pub(super) fn replacement(&self) -> &'input str
        ensures text { result.now ≡ replacement_of (script_line_view self.now) }
        ensures short { length result.now ≤ length self.now.text.now }
    {
        let (_, after) = split_field(self.rest());
        split_field(after).1
    }

    /// Returns whether the line is empty or begins with `#`.
    pub(super) fn is_ignored(&self) -> bool
        ensures { result ≡ is_ignored (script_line_view self.now) }
    {
        is_ignored(self.text)
    }

    /// Returns the byte range in the input of the field with which `from`, a suffix of the line,
    /// begins.
    ///
    /// # Requires
    ///
    /// The field is not longer than `from`, and `from` is not longer than the line.
    pub(super) fn range_at(&self, from: &str, field: &str) -> Range<usize>
        requires { (length field.now ≤ length from.now)
            × (length from.now ≤ length self.now.text.now) }
        ensures { result ≡ range_at (script_line_view self.now) from.now field.now }
    {
        let start = self.start + self.text.len() - from.len();
        start..start + field.len()
    }

    /// Returns the byte range in the input of the byte before `after`, a suffix of the line.
    ///
    /// # Requires
    ///
    /// `after` is shorter than the line.
    pub(super) fn byte_before(&self, after: &str) -> Range<usize>
        requires { length after.now < length self.now.text.now }
        ensures { result ≡ byte_before (script_line_view self.now) after.now }
    {
        let end = self.start + self.text.len() - after.len();
        end - 1..end
    }

    /// Returns the byte range in the input of the first two fields of the rest, START and END.
    pub(super) fn ends_range(&self) -> Range<usize>
        ensures { result ≡ ends_range (script_line_view self.now) }
    {
        let rest = self.rest();
        let (start, after) = split_field(rest);
        let (end, _) = split_field(after);
        self.range_at(rest, start).start..self.range_at(after, end).end
    }
}
