//! The lanes of a row, left of the text.

ghost use Rattle.std.specs.Prelude.{◌≡◌, ◌+◌, ◌<◌, ◌≤◌, ℕ, None, drop, max};
ghost use Rattle.std.specs.Option.{option_map};
ghost use Rattle.codespan_core.specs.WriterLaw.{Writes};
ghost use Rattle.codespan_output.specs.Arguments.{lane_mark_view, multi_label_view};
ghost use Rattle.codespan_output.specs.Private.LineViews.{context_view, lanes_view};
ghost use Rattle.codespan_output.specs.Private.LineViews.{lane_row_kind_view, row_lane_stream};
ghost use Rattle.codespan_output.specs.Private.LineViews.{row_lanes_stream};
ghost use Rattle.codespan_output.specs.Private.WrittenParts.{lane_glyph_stream};
ghost use Rattle.codespan_output.specs.Private.RemainingLaneMarks.{lane_mark_here};
ghost use Rattle.codespan_output.specs.Private.RemainingLaneMarks.{lane_marks_after};
ghost use Rattle.codespan_output.specs.Lanes.{crossing_characters, lane_characters, underline_char};
ghost use Rattle.codespan_output.specs.Lanes.{row_crossing};

use crate::arguments::MultiLabel;
pub use crate::lane_shapes::Shape;
use crate::rows::lanes::shapes::row_shape;
use crate::rows::line::{Lanes, RowContext};
use crate::rows::parts::write_glyph;
use codespan_core::diagnostic::LabelStyle;
use codespan_core::term::Chars;
use codespan_core::term::config::put_style::PutStyle;
use codespan_core::term::config::style_mark::StyleMark;
use codespan_core::term::config::writing::{put_repeated, put_spaces};

mod shapes;

/// The kind of a row, as far as its lanes go.
#[derive(Clone, Copy)]
pub enum LaneRowKind<'d> {
    /// A source row.
    Source,
    /// An empty row or a break row.
    EmptyOrBreak,
    /// A row of single-line labels: a caret, pointer or hanging row.
    SingleLabels,
    /// The underline row of a lane mark: its lane, counted from 0, its style, and what its label
    /// does on the line.
    Underline(usize, LabelStyle, MultiLabel<'d>),
}

/// A lane of a row.
#[derive(Drop)]
struct Lane<'d> {
    /// Its index, counted from 0 at the left.
    index: usize,
    /// The lane mark in it, or `None` where no label of the lane is on the line.
    lane_mark: Option<(usize, LabelStyle, MultiLabel<'d>)>,
}

/// Returns the crossing of a lane: in an underline row whose corner is left of the lane its lane
/// mark, else `None`.
fn crossing<'d>(row: LaneRowKind<'d>, lane: usize) -> Option<(usize, LabelStyle, MultiLabel<'d>)>
    ensures { option_map lane_mark_view result
        ≡ row_crossing (lane_row_kind_view row.entry) lane }
{
    match row {
        LaneRowKind::Underline(corner_lane, style, multi_label) if corner_lane < lane => Some((
            corner_lane,
            style,
            multi_label,
        )),
        LaneRowKind::Source
        | LaneRowKind::EmptyOrBreak
        | LaneRowKind::SingleLabels
        | LaneRowKind::Underline(_, _, _) => None,
    }
}

/// Returns the character of the underline that runs right from a corner.
fn underline_char(chars: &Chars<'_>, multi_label: MultiLabel<'_>) -> char
    ensures { result ≡ underline_char chars.now (multi_label_view multi_label.entry) }
{
    match multi_label {
        MultiLabel::Top(_) => chars.multi_top,
        MultiLabel::Left | MultiLabel::Bottom(_, _) => chars.multi_bottom,
    }
}

/// Writes `count` characters of a lane: of the underline that crosses it, or spaces.
#[inline(always)]
fn write_crossing_characters<W: PutStyle>(
    w: &mut W,
    context: RowContext<'_>,
    crossing: Option<(usize, LabelStyle, MultiLabel<'_>)>,
    count: usize,
) -> Result<(), W::Error>
    ensures { Writes (W.sink w.old)
        (crossing_characters context.entry.severity context.entry.chars.now
        (option_map lane_mark_view crossing.entry)
        count) result (W.sink w.new) }
{
    match crossing {
        None => put_spaces(w, count),
        Some((_, style, multi_label)) => {
            w.put_mark(StyleMark::Label(context.severity, style))?;
            put_repeated(w, underline_char(context.chars, multi_label), count)?;
            w.put_mark(StyleMark::Reset)
        }
    }
}

/// Writes the two characters of a lane that shows a bar or a corner: the underline that crosses it,
/// if one does, or a space, and its own character.
#[inline(always)]
fn write_lane_glyph<W: PutStyle>(
    w: &mut W,
    context: RowContext<'_>,
    crossing: Option<(usize, LabelStyle, MultiLabel<'_>)>,
    style: LabelStyle,
    own: char,
) -> Result<(), W::Error>
    ensures { Writes (W.sink w.old) (lane_glyph_stream context.entry crossing.entry style own)
        result (W.sink w.new) }
{
    write_crossing_characters(w, context, crossing, 1)?;
    write_glyph(w, StyleMark::Label(context.severity, style), own)
}

/// Writes the two characters of a lane.
#[tactic(auto, unfolding(crate::specs::Lanes::lane_characters))]
#[inline(always)]
fn write_lane_characters<W: PutStyle>(
    w: &mut W,
    context: RowContext<'_>,
    crossing: Option<(usize, LabelStyle, MultiLabel<'_>)>,
    style: LabelStyle,
    shape: Shape,
) -> Result<(), W::Error>
    ensures { Writes (W.sink w.old)
        (lane_characters context.entry.severity context.entry.chars.now
        (option_map lane_mark_view crossing.entry)
        style shape) result (W.sink w.new) }
{
    match shape {
        Shape::Space => write_crossing_characters(w, context, crossing, 2),
        Shape::Bar => write_lane_glyph(w, context, crossing, style, context.chars.multi_left),
        Shape::TopCorner => write_lane_glyph(
            w,
            context,
            crossing,
            style,
            context.chars.multi_top_left,
        ),
        Shape::BottomCorner => write_lane_glyph(
            w,
            context,
            crossing,
            style,
            context.chars.multi_bottom_left,
        ),
    }
}

/// Writes the two characters of a lane, by the kind of the row and the lane mark in the lane.
#[tactic(auto, unfolding(crate::specs::Private::LineViews::row_lane_stream))]
fn inner_gutter_column<W: PutStyle>(
    w: &mut W,
    context: RowContext<'_>,
    leading: usize,
    row: LaneRowKind<'_>,
    lane: Lane<'_>,
) -> Result<(), W::Error>
    ensures { Writes (W.sink w.old)
        (row_lane_stream (context_view context.entry) leading row.entry lane.entry.index
        lane.entry.lane_mark)
        result (W.sink w.new) }
{
    let crossing = crossing(row, lane.index);
    match lane.lane_mark {
        None => write_lane_characters(w, context, crossing, LabelStyle::Primary, Shape::Space),
        Some((_, style, multi_label)) => {
            let shape = row_shape(context.layout, leading, row, lane.index, multi_label);
            write_lane_characters(w, context, crossing, style, shape)
        }
    }
}

/// Returns the lane mark at the index `next`, if it is in the lane, and the index of the first lane
/// mark of a later lane.
#[tactic(auto, using(crate::proofs::Lanes::Cursor::taking))]
fn take_lane_mark<'d>(
    lane_marks: &[(usize, LabelStyle, MultiLabel<'d>)],
    next: usize,
    lane: usize,
) -> (Option<(usize, LabelStyle, MultiLabel<'d>)>, usize)
    ensures lane_mark { result.0 ≡ lane_mark_here (drop next lane_marks.now) lane }
    ensures after { drop result.1 lane_marks.now
        ≡ lane_marks_after (drop next lane_marks.now) lane }
{
    if next < lane_marks.len() {
        let lane_mark = lane_marks[next];
        if lane_mark.0 == lane {
            return (Some(lane_mark), next + 1);
        }
    }
    (None, next)
}

/// Returns the lane of the lane mark at the index `next`, or the number of lanes where none is
/// left.
fn next_lane(lanes: Lanes<'_, '_>, next: usize) -> usize
    ensures no_lane_mark { (lane : ℕ) → lane < result
        → lane_mark_here (drop next lanes.entry.lane_marks.now) lane ≡ None }
    ensures within { result ≤ lanes.entry.count }
{
    if next < lanes.lane_marks.len() {
        lanes.lane_marks[next].0.min(lanes.count)
    } else {
        lanes.count
    }
}

/// The greatest number of empty lanes that are written at once.
const MAX_EMPTY_LANES: usize = 32;

/// Returns how many lanes from `lane` on and before `until`, the lane of the next lane mark, are
/// empty: no underline from a corner crosses them. At most [`MAX_EMPTY_LANES`] are counted.
fn num_empty_lanes(row: LaneRowKind<'_>, lane: usize, until: usize) -> usize
    ensures no_crossing { (other : ℕ) → lane ≤ other → other < lane + result
        → row_crossing (lane_row_kind_view row.entry) other ≡ None }
    ensures within { lane + result ≤ max lane until }
    ensures limit { result ≤ MAX_EMPTY_LANES }
{
    let end = match row {
        LaneRowKind::Underline(corner_lane, _, _) => until.min(corner_lane.saturating_add(1)),
        LaneRowKind::Source | LaneRowKind::EmptyOrBreak | LaneRowKind::SingleLabels => until,
    };
    end.saturating_sub(lane).min(MAX_EMPTY_LANES)
}

/// Writes the lanes of a row, from left to right. `leading` is the length in bytes of the white
/// space that the line's text begins with. It is inlined, so that a row without lanes, as most are,
/// costs no call.
///
/// # Errors
///
/// The writer's error; a prefix has then been written.
#[inline(always)]
pub fn inner_gutter<W: PutStyle>(
    w: &mut W,
    context: RowContext<'_>,
    leading: usize,
    row: LaneRowKind<'_>,
    lanes: Lanes<'_, '_>,
) -> Result<(), W::Error>
    ensures { Writes (W.sink w.old)
        (row_lanes_stream (context_view context.entry) leading row.entry (lanes_view lanes.entry))
        result (W.sink w.new) }
{
    if lanes.count == 0 {
        Ok(())
    } else {
        inner_gutter_columns(w, context, leading, row, lanes)
    }
}

/// Writes each lane of a row, empty ones many at once.
fn inner_gutter_columns<W: PutStyle>(
    w: &mut W,
    context: RowContext<'_>,
    leading: usize,
    row: LaneRowKind<'_>,
    lanes: Lanes<'_, '_>,
) -> Result<(), W::Error>
    ensures { Writes (W.sink w.old)
        (row_lanes_stream (context_view context.entry) leading row.entry (lanes_view lanes.entry))
        result (W.sink w.new) }
{
    let mut next = 0;
    let mut lane = 0;
    while lane < lanes.count {
        let num_empty = num_empty_lanes(row, lane, next_lane(lanes, next));
        if num_empty > 0 {
            put_spaces(w, num_empty + num_empty)?;
            lane += num_empty;
        } else {
            let (lane_mark, after) = take_lane_mark(lanes.lane_marks, next, lane);
            let own = Lane {
                index: lane,
                lane_mark,
            };
            inner_gutter_column(w, context, leading, row, own)?;
            next = after;
            lane += 1;
        }
    }
    Ok(())
}
