//! The characters of a line and the cells that they occupy.

ghost use Rattle.std.specs.Prelude.{◌≡◌, ◌+◌, ◌*◌, ◌^◌, ◌<◌, ◌≤◌};
ghost use Rattle.std.specs.Prelude.{length, drop, unwrap_or, false};
ghost use Rattle.std.specs.Str.{IsUtf8};
ghost use Rattle.std.specs.Str.Iter.{chars_rest};
ghost use Rattle.codespan_output.specs.CharMetrics.{width_at};

pub use codespan_output::char_metrics::Metrics;
use std::str::Chars;
use unicode_width::UnicodeWidthChar;

/// An iterator over the characters of a line, from left to right. It may also yield the placeholder
/// after the last one, which counts as one more character of one byte and one cell.
#[derive(Drop)]
pub struct CharMetrics<'text> {
    text: &'text str,
    chars: Chars<'text>,
    tab_width: usize,
    byte_index: usize,
    column: u128,
    has_placeholder: bool,
    ghost left: { chars_rest chars ≡ drop byte_index text.now },
    ghost utf8: { ∥ IsUtf8 (chars_rest chars) ∥₁ },
    ghost within: { byte_index ≤ length text.now },
    ghost column_bound: { column ≤ byte_index * 2 ^ 64 },
}

impl<'text> CharMetrics<'text> {
    ghost use Rattle.std.specs.Prelude.{true};
    ghost use Rattle.codespan_output.specs.CharMetrics.{metrics_then, width_of};
    ghost use Rattle.codespan_output.specs.RowParts.{metrics_up_to};
    ghost use Rattle.codespan_renderer.specs.Private.RemainingMetrics.{MetricsAfterEnd};
    ghost use Rattle.codespan_renderer.specs.Private.RemainingMetrics.{YieldsCharacter};
    ghost use Rattle.codespan_renderer.specs.Private.RemainingMetrics.{metrics_from};
    ghost use Rattle.codespan_renderer.specs.Private.RemainingMetrics.{remaining_metrics, no_more};
    ghost use Rattle.std.specs.Str.{chars};

    /// Returns an iterator over the characters of the line, and over the placeholder after the last
    /// one where `has_placeholder` is set.
    pub fn new(text: &'text str, tab_width: usize, has_placeholder: bool) -> CharMetrics<'text>
        ensures whole { (after : MetricsAfterEnd) → metrics_from after result
            ≡ metrics_then after tab_width 0 0 (chars text.now) }
        ensures placeholder { result.has_placeholder ≡ has_placeholder }
        ensures text { result.text.now ≡ text.now }
        ensures byte_index { result.byte_index ≡ 0 }
        ensures utf8 { ∥ IsUtf8 text.now ∥₁ }
    {
        CharMetrics {
            text,
            chars: text.chars(),
            tab_width,
            byte_index: 0,
            column: 0,
            has_placeholder,
        }
    }

    /// Returns another iterator that goes on where this one is. After the last character it yields
    /// the placeholder where `has_placeholder` is set.
    #[inline(always)]
    pub fn fork(&self, has_placeholder: bool) -> CharMetrics<'text>
        ensures same { (after : MetricsAfterEnd)
            → metrics_from after result ≡ metrics_from after self.now }
        ensures placeholder { result.has_placeholder ≡ has_placeholder }
        ensures byte_index { result.byte_index ≡ self.now.byte_index }
        ensures column { result.column ≡ self.now.column }
    {
        CharMetrics {
            text: self.text,
            chars: self.chars.as_str().chars(),
            tab_width: self.tab_width,
            byte_index: self.byte_index,
            column: self.column,
            has_placeholder,
        }
    }

    /// Returns the next character, or `None` after the last one. It never returns the placeholder.
    #[inline(always)]
    pub fn next_metrics(&mut self) -> Option<Metrics>
        ensures yields { YieldsCharacter self.old result self.new }
        ensures placeholder { self.new.has_placeholder ≡ self.old.has_placeholder }
    {
        let left = self.chars.as_str().len();
        match self.chars.next() {
            Some(ch) => {
                let metrics = Metrics {
                    ch,
                    byte_index: self.byte_index,
                    bytes: left - self.chars.as_str().len(),
                    column: self.column,
                    unicode_width: width_at(self.tab_width, self.column, ch),
                };
                self.byte_index += metrics.bytes;
                self.column += metrics.unicode_width as u128;
                Some(metrics)
            }
            None => None,
        }
    }

    /// Returns the column after those of the remaining characters that begin at this byte index or
    /// before it.
    pub fn column_past(&self, byte_index: usize) -> u128
        ensures { result
            ≡ self.now.column + width_of
            (metrics_up_to byte_index (metrics_from no_more self.now)) }
    {
        let mut scan = self.fork(false);
        while let Some(metrics) = scan.next_metrics() {
            if metrics.byte_index > byte_index {
                return metrics.column;
            }
        }
        scan.column
    }
}

/// Returns how many cells a character occupies at a column, counted from 0: a tab as many as there
/// are up to the next tab stop, none where the tab width is 0; any other character its width by
/// `unicode_width`, or 0 where that is `None`. Printable ASCII, one cell each, is tested first,
/// since most text consists of it.
#[inline(always)]
fn width_at(tab_width: usize, column: u128, c: char) -> usize
    ensures { result ≡ width_at tab_width column c }
{
    if matches!(c, ' '..='~') {
        return 1;
    }
    if c != '\t' {
        return c.width().unwrap_or(0);
    }
    if tab_width == 0 {
        return 0;
    }
    tab_width - (column % tab_width as u128) as usize
}

impl<'text> Iterator for CharMetrics<'text> {
    ghost use Rattle.std.specs.Iterator.{YieldsFirst, item_count};
    ghost use Rattle.codespan_renderer.specs.Private.RemainingMetrics.{remaining_metrics};

    type Item = Metrics;

    ghost next_gives = { YieldsFirst remaining_metrics };

    ghost remaining = { item_count remaining_metrics };

    #[inline(always)]
    fn next(&mut self) -> Option<Metrics> {
        match self.next_metrics() {
            Some(metrics) => Some(metrics),
            None if self.has_placeholder => {
                self.has_placeholder = false;
                Some(Metrics {
                    ch: ' ',
                    byte_index: self.byte_index,
                    bytes: 1,
                    column: self.column,
                    unicode_width: 1,
                })
            }
            None => None,
        }
    }
}
