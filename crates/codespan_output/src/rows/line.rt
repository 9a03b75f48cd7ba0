//! What the rows of a line are rendered from.

ghost use Rattle.std.specs.Prelude.{◌≡◌, IsTrue};
ghost use Rattle.std.specs.Str.{IsUtf8};
ghost use Rattle.codespan_output.specs.CharMetrics.{leading_whitespace, text_without_line_end};
ghost use Rattle.codespan_output.specs.CharMetrics.{is_line_end};
ghost use Rattle.codespan_output.specs.Arguments.{lanes_in_order};

use crate::arguments::{MultiLabel, SingleLabel};
use codespan_core::diagnostic::{LabelStyle, Severity};
use codespan_core::term::{Chars, Layout};

/// What all rows of an output are rendered by.
#[derive(Clone, Copy)]
pub struct RowContext<'config> {
    /// The characters of borders, carets, pointers and lanes.
    pub chars: &'config Chars<'config>,
    /// The number of cells from one tab stop to the next; where it is 0, a tab takes no cell.
    pub tab_width: usize,
    /// How lanes continue below a corner in a source row.
    pub layout: Layout,
    /// The severity of the diagnostic, which decides the style of primary labels.
    pub severity: Severity,
    /// The padding width of line numbers, in characters.
    pub padding: usize,
}

/// How many lanes a row has, and the lane marks in them. The lanes of `lane_marks` ascend strictly
/// and are below `count`.
#[derive(Clone, Copy)]
pub struct Lanes<'row, 'd> {
    /// The number of lanes.
    pub count: usize,
    /// The lane marks: of each its lane, counted from 0, its style, and what its label does on the
    /// line.
    pub lane_marks: &'row [(usize, LabelStyle, MultiLabel<'d>)],
    ghost in_order: { IsTrue (lanes_in_order count lane_marks.now) },
}

/// A drawn line with what its labels do on it.
#[derive(Clone, Copy)]
pub struct Line<'row, 'd> {
    /// The line number, as users see it.
    pub number: usize,
    /// The text that is rendered: without the line feeds, carriage returns and NULs at its end.
    pub text: &'row str,
    /// The length in bytes of the white space that the text begins with.
    pub leading: usize,
    /// The single-line labels of the line, their ranges in bytes of the text.
    pub labels: &'row [SingleLabel<'d>],
    /// What the multi-line labels do on it.
    pub lanes: Lanes<'row, 'd>,
    ghost measured: { leading ≡ leading_whitespace text.now },
    ghost utf8: { ∥ IsUtf8 text.now ∥₁ },
}

impl<'row, 'd> Line<'row, 'd> {
    ghost use Rattle.codespan_output.specs.Private.LineViews.{line_view};
    ghost use Rattle.codespan_output.specs.RenderedRows.{source_line};

    /// Returns a line of this number, whose text is the source without the line feeds, carriage
    /// returns and NULs at its end.
    pub fn new(
        number: usize,
        source: &'row str,
        labels: &'row [SingleLabel<'d>],
        lanes: Lanes<'row, 'd>,
    ) -> Line<'row, 'd>
        ensures line { line_view result
            ≡ source_line number source.now labels.now lanes.entry.count
            lanes.entry.lane_marks.now }
        ensures text { result.text.now ≡ text_without_line_end source.now }
        ensures labels { result.labels.now ≡ labels.now }
    {
        let text = text_without_line_end(source);
        Line {
            number,
            text,
            leading: leading_whitespace(text),
            labels,
            lanes,
        }
    }
}

/// Returns the text of a line without the line feeds, carriage returns and NULs at its end.
pub fn text_without_line_end(source: &str) -> &str
    ensures { result.now ≡ text_without_line_end source.now }
{
    let bytes = source.as_bytes();
    let mut end = bytes.len();
    while end > 0 && matches!(bytes[end - 1], b'\n' | b'\r' | b'\0') {
        end -= 1;
    }
    &source[..end]
}

/// Returns the length in bytes of the white space that the text begins with: characters with the
/// Unicode property `White_Space`.
pub fn leading_whitespace(text: &str) -> usize
    ensures { result ≡ leading_whitespace text.now }
{
    let mut leading = 0;
    for c in text.chars() {
        if !c.is_whitespace() {
            return leading;
        }
        leading += c.len_utf8();
    }
    leading
}
