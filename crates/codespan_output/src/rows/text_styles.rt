//! Which characters of a line have a style in its source row, and which of its text is written
//! unchanged.

ghost use Rattle.std.specs.Prelude.{◌≡◌, ◌<◌, ◌≤◌, ◌==◌, None, drop, false};
ghost use Rattle.std.specs.Prelude.{filter, length, map};
ghost use Rattle.std.specs.List.{list_any};
ghost use Rattle.codespan_core.specs.Labels.{is_primary};
ghost use Rattle.codespan_output.specs.declared.char_metrics.Metrics as metrics;
ghost use Rattle.codespan_output.specs.Arguments.{single_label_views, lane_mark_view};
ghost use Rattle.codespan_output.specs.Private.LineViews.{line_view};
ghost use Rattle.codespan_output.specs.Private.PrimaryCover.{CoversAsLaneMarks};
ghost use Rattle.codespan_output.specs.Carets.{max_label_end};
ghost use Rattle.codespan_output.specs.RowParts.{source_style};

use crate::arguments::SingleLabel;
use crate::char_metrics::Metrics;
use crate::rows::char_cursor::CharCursor;
use crate::rows::line::Line;
use crate::rows::primary_cover::PrimaryCover;
use codespan_core::diagnostic::LabelStyle;

/// Returns the style of a character of the source: primary where a primary label covers it, a
/// single-line or a multi-line one, else `None`.
///
/// # Requires
///
/// - The character has a byte, and `cursor` has just returned it.
/// - `cursor` has the labels of `line`.
/// - `primary` is [`PrimaryCover::of`] the lane marks of `line`.
pub fn source_style<C: CharCursor>(
    cursor: &mut C,
    primary: PrimaryCover,
    line: Line<'_, '_>,
    metrics: Metrics,
) -> Option<LabelStyle>
    requires has_byte { 1 ≤ metrics.bytes }
    requires returned { C.has_returned metrics cursor.old }
    requires labels { C.labels cursor.old ≡ line.labels.now }
    requires primary { CoversAsLaneMarks (map lane_mark_view line.lanes.lane_marks.now) primary }
    ensures remaining { C.remaining cursor.new ≡ C.remaining cursor.old }
    ensures labels { C.labels cursor.new ≡ C.labels cursor.old }
    ensures style { result ≡ source_style (line_view line.entry) metrics }
{
    if cursor.style_under(metrics) == Some(LabelStyle::Primary) || primary.covers_char(metrics) {
        Some(LabelStyle::Primary)
    } else {
        None
    }
}

/// Returns the greatest end of the primary labels, in bytes from the line's start, or 0 where there
/// is none.
fn max_primary_end(labels: &[SingleLabel<'_>]) -> usize
    ensures { result ≡ max_label_end (filter is_primary (single_label_views labels.now)) }
{
    let mut greatest = 0;
    for label in labels {
        if label.0 == LabelStyle::Primary {
            greatest = label.1.end.max(greatest);
        }
    }
    greatest
}

/// Returns a byte index from which on the text of a line is written unchanged: no primary label,
/// single-line or multi-line, covers a character there, and there is no tab. It is the length of
/// the text where no smaller one is found.
///
/// # Requires
///
/// `primary` is [`PrimaryCover::of`] the lane marks of `line`.
#[inline(always)]
pub fn plain_from(line: Line<'_, '_>, primary: PrimaryCover) -> usize
    requires primary { CoversAsLaneMarks (map lane_mark_view line.lanes.lane_marks.now) primary }
    ensures style { (c : metrics.Metrics) → result ≤ c.byte_index
        → c.byte_index < length line.entry.text.now
        → 1 ≤ c.bytes → source_style (line_view line.entry) c ≡ None }
    ensures tab { list_any (λ b. b == 9) (drop result line.entry.text.now) ≡ false }
{
    let text = line.text.as_bytes();
    let end = primary
        .end()
        .max(max_primary_end(line.labels))
        .min(text.len());
    if text[end..].contains(&b'\t') {
        text.len()
    } else {
        end
    }
}
