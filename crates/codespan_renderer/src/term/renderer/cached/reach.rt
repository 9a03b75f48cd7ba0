//! How far the rows under a line reach into its text.

ghost use Rattle.std.specs.Prelude.{◌≡◌, map};
ghost use Rattle.codespan_output.specs.Arguments.{lane_mark_view, single_label_views};
ghost use Rattle.codespan_renderer.specs.Private.CachedMetrics.{farther, reach_of};

use crate::term::renderer::MultiLabel;
use codespan_output::rows::line::Line;

/// Returns the greatest byte index that a row under the line may need: the greatest start or end of
/// its labels, start of a `Top` or end of a `Bottom`; `None` where the line has none of them.
pub fn reach_of(line: Line<'_, '_>) -> Option<usize>
    ensures { result ≡ reach_of (single_label_views line.entry.labels.now)
        (map lane_mark_view line.entry.lanes.lane_marks.now) }
{
    let mut reach = None;
    for label in line.labels {
        reach = farther(farther(reach, label.1.start), label.1.end);
    }
    for lane_mark in line.lanes.lane_marks {
        reach = match lane_mark.2 {
            MultiLabel::Top(start) => farther(reach, start),
            MultiLabel::Left => reach,
            MultiLabel::Bottom(end, _) => farther(reach, end),
        };
    }
    reach
}

/// Returns the greater of a reach and a byte index.
fn farther(reach: Option<usize>, byte_index: usize) -> Option<usize>
    ensures { result ≡ farther reach byte_index }
{
    match reach {
        Some(reach) => Some(reach.max(byte_index)),
        None => Some(byte_index),
    }
}
