//! A line whose characters and pointers are cached, and whose labels are in the order of their
//! starts.

ghost use Rattle.std.specs.Prelude.{◌≡◌, ◌≤◌, ◌++◌, IsTrue, length, map, take};
ghost use Rattle.std.specs.Str.{chars};
ghost use Rattle.codespan_output.specs.CharMetrics.{char_metrics, metrics_then, width_of};
ghost use Rattle.codespan_output.specs.Arguments.{lane_mark_view, single_label_views};
ghost use Rattle.codespan_output.specs.Arguments.{starts_in_order};
ghost use Rattle.codespan_output.specs.Rows.{hanging_labels};
ghost use Rattle.codespan_renderer.specs.Private.RemainingMetrics.{after_last};
ghost use Rattle.codespan_renderer.specs.Private.CursorStates.{IsBefore, HasReturned};
ghost use Rattle.codespan_renderer.specs.Private.CachedMetrics.{AreCached, ReachesPast};
ghost use Rattle.codespan_renderer.specs.Private.CachedMetrics.{remaining_from_cache, reach_of};
ghost use Rattle.codespan_output.specs.Private.LineCharacters.{EndBy};
ghost use Rattle.codespan_output.specs.Private.PointerLists.{pointers_in};
ghost use Rattle.codespan_output.specs.Private.RowLabels.{least_start};

use crate::term::renderer::cached::cached_metrics::MetricsFromCache;
use crate::term::renderer::cached::label_cursor::LabelCursor;
use crate::term::renderer::cached::pointers::CachedPointers;
use crate::term::renderer::char_metrics::{CharMetrics, Metrics};
use codespan_core::diagnostic::LabelStyle;
use codespan_output::rows::char_cursor::CharCursor;
use codespan_output::rows::line::Line;
use codespan_output::rows::line_characters::LineCharacters;
use codespan_output::rows::messages::Messages;
use codespan_output::rows::pointer_cursor::Pointer;

/// A cursor over the characters of a cached line. It goes through the labels in the order of their
/// starts, each of them once.
#[derive(Drop)]
pub struct CachedCursor<'cache, 'row, 'd> {
    characters: MetricsFromCache<'cache, 'row>,
    label_cursor: LabelCursor<'row, 'd>,
    ghost state: { ∥ IsBefore label_cursor (remaining_from_cache characters) ∥₁ },
}

impl<'cache, 'row, 'd> CharCursor for CachedCursor<'cache, 'row, 'd> {
    ghost remaining = { λ s. remaining_from_cache s.characters };

    ghost labels = { λ s. s.label_cursor.labels.now };

    ghost has_returned = { λ c s.
        ∥ HasReturned c s.label_cursor (remaining_from_cache s.characters) ∥₁ };

    #[inline(always)]
    fn next_metrics(&mut self) -> Option<Metrics> {
        self.characters.next()
    }

    #[inline(always)]
    fn style_under(&mut self, metrics: Metrics) -> Option<LabelStyle> {
        self.label_cursor.advance(metrics);
        if metrics.byte_index < self.label_cursor.primary_end {
            Some(LabelStyle::Primary)
        } else if metrics.byte_index < self.label_cursor.end {
            Some(LabelStyle::Secondary)
        } else {
            None
        }
    }
}

/// A line with a cache of its characters and pointers.
#[derive(Drop)]
pub struct CachedLine<'cache, 'row, 'd> {
    /// The number of cells from one tab stop to the next; where it is 0, a tab takes no cell.
    pub tab_width: usize,
    /// The line, whose labels are in the order of their starts.
    pub line: Line<'row, 'd>,
    /// Its labels, by their messages.
    pub messages: Messages<'row, 'd>,
    /// Its first characters, up to the first one past the reach of the rows under it.
    pub cached: &'cache [Metrics],
    /// The iterator over those after them.
    pub rest: CharMetrics<'row>,
    /// The pointers under its characters.
    pub pointers: &'cache [Pointer],
    ghost are_cached: { AreCached tab_width line.text.now cached.now rest },
    ghost reaches_past: { ReachesPast (reach_of (single_label_views line.labels.now)
        (map lane_mark_view line.lanes.lane_marks.now)) rest },
    ghost labels: { messages.labels.now ≡ line.labels.now },
    ghost ordered: { IsTrue (starts_in_order (single_label_views line.labels.now)) },
    ghost found: { pointers.now
        ≡ pointers_in (hanging_labels (single_label_views line.labels.now))
        (char_metrics tab_width line.text.now) },
}

impl<'cache, 'row, 'd> CachedLine<'cache, 'row, 'd> {
    /// Returns the width in cells and the number of the characters before a byte index, where each
    /// of them has one byte and a cached character begins at the index, so that it is found without
    /// a search. Otherwise returns two zeros.
    #[inline(always)]
    fn skipped_before(&self, byte_index: usize) -> (u128, usize)
        ensures within { result.1 ≤ length self.now.cached.now }
        ensures ended { EndBy byte_index (take result.1 self.now.cached.now) }
        ensures width { result.0 ≡ width_of (take result.1 self.now.cached.now) }
    {
        match self.cached.get(byte_index) {
            Some(metrics) if metrics.byte_index == byte_index => (metrics.column, byte_index),
            _ => (0, 0),
        }
    }

    /// Returns a cursor over its characters without the first `skipped` ones, and over the
    /// placeholder after the last one where `has_placeholder` is set.
    ///
    /// # Requires
    ///
    /// At least `skipped` characters are cached.
    #[inline(always)]
    fn cursor(&self, skipped: usize, has_placeholder: bool) -> CachedCursor<'cache, 'row, 'd>
        requires { skipped ≤ length self.now.cached.now }
        ensures left { take skipped self.now.cached.now ++ remaining_from_cache result.characters
            ≡ metrics_then (after_last has_placeholder) self.now.tab_width 0 0
            (chars self.now.line.text.now) }
        ensures labels { result.label_cursor.labels.now ≡ self.now.line.labels.now }
    {
        CachedCursor {
            characters: MetricsFromCache {
                cached: &self.cached[skipped..],
                rest: self.rest.fork(has_placeholder),
            },
            label_cursor: LabelCursor {
                labels: self.line.labels,
                next: 0,
                primary_end: 0,
                end: 0,
            },
        }
    }
}

impl<'cache, 'row, 'd> LineCharacters for CachedLine<'cache, 'row, 'd> {
    type Cursor = CachedCursor<'cache, 'row, 'd>;

    type Pointers = CachedPointers<'cache>;

    ghost input = { λ s. record {
      tab_width = s.tab_width;
      text = s.line.text.now;
      labels = s.line.labels.now;
    } };

    #[inline(always)]
    fn characters(&self) -> CachedCursor<'cache, 'row, 'd> {
        self.cursor(0, false)
    }

    #[inline(always)]
    fn characters_from_labels(&self, end: usize) -> (u128, CachedCursor<'cache, 'row, 'd>) {
        let start = match self.line.labels.first() {
            Some(label) => label.1.start.min(end),
            None => end,
        };
        let (column, skipped) = self.skipped_before(start);
        (column, self.cursor(skipped, true))
    }

    #[inline(always)]
    fn pointers(&self) -> CachedPointers<'cache> {
        CachedPointers {
            pointers: self.pointers,
        }
    }

    #[inline(always)]
    fn width_up_to(&self, byte_index: usize) -> u128 {
        let count = self
            .cached
            .partition_point(|metrics| metrics.byte_index <= byte_index);
        match self.cached.get(count) {
            Some(next) => next.column,
            None => self.rest.column_past(byte_index),
        }
    }
}
