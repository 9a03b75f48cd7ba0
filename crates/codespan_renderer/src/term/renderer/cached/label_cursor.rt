//! Cursors over the labels of a line, in the order of their starts.

ghost use Rattle.std.specs.Prelude.{◌≡◌, ◌+◌, ◌<◌, ◌≤◌, ◌&&◌, nat_lt, true};
ghost use Rattle.std.specs.Prelude.{max, filter};
ghost use Rattle.codespan_core.specs.Labels.{has_message, is_primary};
ghost use Rattle.codespan_output.specs.Arguments.{single_label_view, single_label_views};
ghost use Rattle.codespan_output.specs.RowParts.{starts_in};
ghost use Rattle.codespan_renderer.specs.Private.PreferredStyles.{preferred_style};
ghost use Rattle.codespan_output.specs.Private.CharCursors.{is_covered};
ghost use Rattle.codespan_renderer.specs.Private.LabelCursors.{end_with, HasPassedLabels};
ghost use Rattle.codespan_renderer.specs.Private.LabelCursors.{HasPassedStarts};

use crate::term::renderer::SingleLabel;
use crate::term::renderer::char_metrics::Metrics;
use crate::term::renderer::label_styles::prefer_primary;
use codespan_core::diagnostic::LabelStyle;

/// A cursor over the labels of a line, which passes a label at the character in which it starts, or
/// at the first one after.
#[derive(Clone, Copy)]
pub struct LabelCursor<'row, 'd> {
    /// The labels of the line, in the order of their starts.
    pub labels: &'row [SingleLabel<'d>],
    /// How many of them it has passed.
    pub next: usize,
    /// The greatest end of the primary ones that it has passed, 0 where there is none.
    pub primary_end: usize,
    /// The greatest end of all that it has passed, 0 where there is none.
    pub end: usize,
}

impl<'row, 'd> LabelCursor<'row, 'd> {
    /// Passes the labels that start before the character's end.
    ///
    /// # Requires
    ///
    /// The character has a byte, and the cursor has passed the labels that start before it.
    pub fn advance(&mut self, metrics: Metrics)
        requires has_byte { 1 ≤ metrics.bytes }
        requires passed { HasPassedLabels metrics.byte_index self.old }
        ensures passed { HasPassedLabels (metrics.byte_index + metrics.bytes) self.new }
        ensures labels { self.new.labels.now ≡ self.old.labels.now }
        ensures primary { is_covered is_primary (single_label_views self.new.labels.now) metrics
            ≡ nat_lt metrics.byte_index self.new.primary_end }
        ensures any { is_covered (λ _. true) (single_label_views self.new.labels.now) metrics
            ≡ nat_lt metrics.byte_index self.new.end }
    {
        let labels = self.labels;
        while self.next < labels.len() && starts_before_end(&labels[self.next], metrics) {
            self.raise_ends(&labels[self.next]);
            self.next += 1;
        }
    }

    /// Raises the greatest ends to that of a label, unless it covers no byte.
    fn raise_ends(&mut self, label: &SingleLabel<'_>)
        ensures primary { self.new.primary_end
            ≡ end_with (is_primary (single_label_view label.now)) self.old.primary_end
            (single_label_view label.now) }
        ensures any { self.new.end ≡ end_with true self.old.end (single_label_view label.now) }
        ensures labels { self.new.labels.now ≡ self.old.labels.now }
        ensures next { self.new.next ≡ self.old.next }
    {
        if label.1.start < label.1.end {
            self.end = self.end.max(label.1.end);
            if label.0 == LabelStyle::Primary {
                self.primary_end = self.primary_end.max(label.1.end);
            }
        }
    }
}

/// A cursor over labels of a line that finds those with a message at the character in which they
/// start. It passes a label there, or at the first character after.
#[derive(Clone, Copy)]
pub struct StartCursor<'row, 'd> {
    /// The labels, in the order of their starts.
    pub labels: &'row [SingleLabel<'d>],
    /// How many of them it has passed.
    pub next: usize,
}

impl<'row, 'd> StartCursor<'row, 'd> {
    /// Passes the labels that start before the character's end, and returns which style takes
    /// precedence: of `found` and those of the labels with a message that start in it.
    ///
    /// # Requires
    ///
    /// The character has a byte, and the cursor has passed the labels that start before it.
    pub fn start_style(&mut self, found: Option<LabelStyle>, metrics: Metrics) -> Option<LabelStyle>
        requires has_byte { 1 ≤ metrics.bytes }
        requires passed { HasPassedStarts metrics.byte_index self.old }
        ensures passed { HasPassedStarts (metrics.byte_index + metrics.bytes) self.new }
        ensures labels { self.new.labels.now ≡ self.old.labels.now }
        ensures style { result ≡ preferred_style (starts_in metrics) found
            (filter has_message (single_label_views self.old.labels.now)) }
    {
        let labels = self.labels;
        let mut best = found;
        while self.next < labels.len() && starts_before_end(&labels[self.next], metrics) {
            let label = &labels[self.next];
            if !label.2.is_empty() {
                best = prefer_primary(best, label.0);
            }
            self.next += 1;
        }
        best
    }
}

/// Returns whether the label starts before the character's end.
fn starts_before_end(label: &SingleLabel<'_>, metrics: Metrics) -> bool
    requires { 1 ≤ metrics.bytes }
    ensures { result ≡ nat_lt (single_label_view label.now).start
        (metrics.byte_index + metrics.bytes) }
{
    label.1.start.saturating_sub(metrics.byte_index) < metrics.bytes
}
