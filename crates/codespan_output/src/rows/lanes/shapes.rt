//! What a multi-line label mark shows in a row.

ghost use Rattle.std.specs.Prelude.{◌≡◌, ◌&&◌};
ghost use Rattle.codespan_output.specs.Arguments.{lane_mark_view, multi_label_view};
ghost use Rattle.codespan_output.specs.Lanes.{is_unbroken, begins_in_source_row, row_shape};
ghost use Rattle.codespan_output.specs.Lanes.{Underline};
ghost use Rattle.codespan_output.specs.Private.LineViews.{lane_row_kind_view};

use crate::arguments::MultiLabel;
use crate::rows::lanes::{LaneRowKind, Shape};
use codespan_core::diagnostic::LabelStyle;
use codespan_core::term::Layout;

/// Returns what a multi-line label mark shows in a row of this kind. `leading` is the length in
/// bytes of the white space that the line's text begins with, `lane` the lane of the multi-line
/// label mark, counted from 0.
pub fn row_shape(
    layout: Layout,
    leading: usize,
    row: LaneRowKind<'_>,
    lane: usize,
    multi_label: MultiLabel<'_>,
) -> Shape
    ensures { result
        ≡ row_shape layout leading (lane_row_kind_view row.entry) lane
        (multi_label_view multi_label.entry) }
{
    match (row, multi_label) {
        (LaneRowKind::Source, MultiLabel::Top(start)) if start <= leading => Shape::TopCorner,
        (LaneRowKind::Source | LaneRowKind::EmptyOrBreak, MultiLabel::Top(_)) => Shape::Space,
        (LaneRowKind::SingleLabels, MultiLabel::Top(start)) if goes_on(layout, leading, start) =>
            Shape::Bar,
        (LaneRowKind::SingleLabels, MultiLabel::Top(_)) => Shape::Space,
        (LaneRowKind::Underline(corner_lane, style, underlined), multi_label) => {
            let corner = (corner_lane, style, underlined);
            underline_shape(layout, leading, corner, lane, multi_label)
        }
        (
            LaneRowKind::Source | LaneRowKind::EmptyOrBreak | LaneRowKind::SingleLabels,
            MultiLabel::Left | MultiLabel::Bottom(_, _),
        ) => Shape::Bar,
    }
}

/// Returns whether a lane has its corner in the source row and continues in the rows below it.
fn goes_on(layout: Layout, leading: usize, start: usize) -> bool
    ensures { result ≡ is_unbroken layout && begins_in_source_row leading start }
{
    match layout {
        Layout::Classic => false,
        Layout::Unbroken => start <= leading,
    }
}

/// Returns what a multi-line label mark shows in the underline row of the lane mark `corner`.
fn underline_shape(
    layout: Layout,
    leading: usize,
    corner: (usize, LabelStyle, MultiLabel<'_>),
    lane: usize,
    multi_label: MultiLabel<'_>,
) -> Shape
    ensures { result ≡ row_shape layout leading (Underline (lane_mark_view corner.entry)) lane
        (multi_label_view multi_label.entry) }
{
    let corner_lane = corner.0;
    match multi_label {
        MultiLabel::Top(start) if goes_on(layout, leading, start) => Shape::Bar,
        MultiLabel::Top(_) if lane == corner_lane => Shape::TopCorner,
        MultiLabel::Top(_) if lane < corner_lane => Shape::Bar,
        MultiLabel::Top(_) => Shape::Space,
        MultiLabel::Left => Shape::Bar,
        MultiLabel::Bottom(_, _) if lane == corner_lane => Shape::BottomCorner,
        MultiLabel::Bottom(_, _) if lane < corner_lane => Shape::Space,
        MultiLabel::Bottom(_, _) => Shape::Bar,
    }
}
