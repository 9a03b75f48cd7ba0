//! A line whose text is scanned again for each row, and whose labels are all tested at each
//! character.

ghost use Rattle.std.specs.Prelude.{◌≡◌, ⊤};
ghost use Rattle.codespan_output.specs.Arguments.{single_label_views};
ghost use Rattle.codespan_output.specs.RowParts.{max_label_start};

use crate::term::renderer::SingleLabel;
use crate::term::renderer::char_metrics::{CharMetrics, Metrics};
use crate::term::renderer::label_styles::{prefer_primary, start_style};
use codespan_core::diagnostic::LabelStyle;
use codespan_output::rows::char_cursor::CharCursor;
use codespan_output::rows::line_characters::LineCharacters;
use codespan_output::rows::messages::Messages;
use codespan_output::rows::pointer_cursor::{Pointer, PointerCursor};
use codespan_output::rows::pointers::{max_label_start, pointer_under};

/// A cursor that scans the text of a line. It tests all labels at each character, so they may be in
/// any order.
#[derive(Drop)]
pub struct ScanCursor<'row, 'd> {
    char_metrics: CharMetrics<'row>,
    labels: &'row [SingleLabel<'d>],
}

impl<'row, 'd> CharCursor for ScanCursor<'row, 'd> {
    ghost use Rattle.codespan_renderer.specs.Private.RemainingMetrics.{remaining_metrics};

    ghost remaining = { λ s. remaining_metrics s.char_metrics };

    ghost labels = { λ s. s.labels.now };

    ghost has_returned = { λ _ _. ⊤ };

    #[inline(always)]
    fn next_metrics(&mut self) -> Option<Metrics> {
        self.char_metrics.next()
    }

    #[inline(always)]
    fn style_under(&mut self, metrics: Metrics) -> Option<LabelStyle> {
        let mut found = None;
        for label in self.labels {
            let first = label.1.start.max(metrics.byte_index);
            if first < label.1.end && first - metrics.byte_index < metrics.bytes {
                found = prefer_primary(found, label.0);
            }
        }
        found
    }
}

/// A cursor that scans the text of a line for pointers. It tests each label that may hang at each
/// character, and stops at the first one past the greatest start of a label.
#[derive(Drop)]
pub struct PointerScan<'row, 'd> {
    char_metrics: CharMetrics<'row>,
    messages: Messages<'row, 'd>,
    greatest_start: usize,
    ghost reach: { greatest_start ≡ max_label_start (single_label_views messages.labels.now) },
}

impl<'row, 'd> PointerCursor for PointerScan<'row, 'd> {
    ghost use Rattle.codespan_output.specs.Rows.{hanging_labels};
    ghost use Rattle.codespan_output.specs.Private.PointerLists.{pointers_in};
    ghost use Rattle.codespan_renderer.specs.Private.RemainingMetrics.{metrics_from, no_more};

    ghost remaining = { λ s. pointers_in (hanging_labels (single_label_views s.messages.labels.now))
        (metrics_from no_more s.char_metrics) };

    #[inline(always)]
    fn next_pointer(&mut self) -> Option<Pointer> {
        while let Some(metrics) = self.char_metrics.next_metrics() {
            if metrics.byte_index > self.greatest_start {
                return None;
            }
            let early = start_style(None, self.messages.before, metrics);
            if let Some(style) = start_style(early, self.messages.after, metrics) {
                return Some(pointer_under(metrics, style));
            }
        }
        None
    }
}

/// A line whose text is scanned for each row. Its labels may be in any order, and nothing is
/// allocated.
#[derive(Clone, Copy)]
pub struct ScannedLine<'row, 'd> {
    /// The number of cells from one tab stop to the next; where it is 0, a tab takes no cell.
    pub tab_width: usize,
    /// The text of the line.
    pub text: &'row str,
    /// The single-line labels of the line, by their messages.
    pub messages: Messages<'row, 'd>,
}

impl<'row, 'd> LineCharacters for ScannedLine<'row, 'd> {
    type Cursor = ScanCursor<'row, 'd>;

    type Pointers = PointerScan<'row, 'd>;

    ghost input = { λ s.
        record { tab_width = s.tab_width; text = s.text.now; labels = s.messages.labels.now } };

    #[inline(always)]
    fn characters(&self) -> ScanCursor<'row, 'd> {
        ScanCursor {
            char_metrics: CharMetrics::new(self.text, self.tab_width, false),
            labels: self.messages.labels,
        }
    }

    #[inline(always)]
    fn characters_from_labels(&self, _end: usize) -> (u128, ScanCursor<'row, 'd>) {
        let cursor = ScanCursor {
            char_metrics: CharMetrics::new(self.text, self.tab_width, true),
            labels: self.messages.labels,
        };
        (0, cursor)
    }

    #[inline(always)]
    fn pointers(&self) -> PointerScan<'row, 'd> {
        PointerScan {
            char_metrics: CharMetrics::new(self.text, self.tab_width, false),
            messages: self.messages,
            greatest_start: max_label_start(self.messages.labels),
        }
    }

    #[inline(always)]
    fn width_up_to(&self, byte_index: usize) -> u128 {
        CharMetrics::new(self.text, self.tab_width, false).column_past(byte_index)
    }
}
