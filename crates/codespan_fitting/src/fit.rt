//! A line that fits a width.

ghost use Rattle.std.specs.Prelude.{◌≡◌, ◌+◌, IfOk, MatchOption, false, map, nat_le};
ghost use Rattle.codespan_output.specs.CharMetrics.{char_metrics, width_of};
ghost use Rattle.codespan_output.specs.FittedParts.{chosen_parts, parts_of, shortened};
ghost use Rattle.codespan_fitting.specs.Cuts.{AreBetweenChars, AreCutsOf, cut_view};
ghost use Rattle.codespan_fitting.specs.Fitting.{label_spans_of};
ghost use Rattle.codespan_fitting.specs.Gaps.{AreIn, gap_cells, placed_gaps};
ghost use Rattle.codespan_fitting.specs.Lines.{IsFitted, IsLeft, line_view};
ghost use Rattle.codespan_fitting.specs.Parts.{gaps_from};

use crate::buffers::FittingBuffers;
use crate::cuts::{refill_cuts, write_text};
use crate::gaps::refill_gaps;
use crate::measure::{past_end, room, text_fits};
use crate::moved::{move_labels, move_marks};
use crate::radius::{find_radius, fits_at};
use crate::spans::{LabelSpan, LineBytes, refill_spans};
use codespan_core::diagnostic::LabelStyle;
use codespan_output::arguments::{MultiLabel, SingleLabel};
use codespan_output::rows::line::leading_whitespace;
use std::alloc::AllocError;

/// What a line has for its rows: its text and what labels do on it.
#[derive(Clone, Copy)]
pub struct FittedLine<'row, 'd> {
    /// The text, without its line end.
    pub text: &'row str,
    /// The single-line labels, their ranges in bytes of the text.
    pub labels: &'row [SingleLabel<'d>],
    /// The lane marks.
    pub lane_marks: &'row [(usize, LabelStyle, MultiLabel<'d>)],
}

/// What a line has to fit: the width and the padding of the gutter, in cells, how many lanes it
/// has, and how many cells are between two tab stops.
#[derive(Clone, Copy)]
pub struct Frame {
    pub width: usize,
    pub padding: usize,
    pub num_lanes: usize,
    pub tab_width: usize,
}

/// Shortens a line that does not fit. Returns the line that is to be rendered in its place, or
/// `None` where it fits: nothing is allocated then.
///
/// # Errors
///
/// An allocation that fails.
pub fn fit_line<'buffers, 'd>(
    buffers: &'buffers mut FittingBuffers<'d>,
    frame: Frame,
    line: FittedLine<'_, 'd>,
) -> Result<Option<FittedLine<'buffers, 'd>>, AllocError>
    ensures { IfOk result (IsFitted frame line.entry) }
{
    let room = room(frame.width, frame.padding, frame.num_lanes);
    let past_end = past_end(line.text, line.labels);
    if fits(frame.tab_width, line.text, past_end, room) {
        return Ok(None);
    }
    let left = room.saturating_sub(past_end);
    find_cuts(buffers, frame.tab_width, line, left)?;
    write_text(&mut buffers.text, line.text, buffers.cuts.as_slice())?;
    move_labels(&mut buffers.labels, buffers.cuts.as_slice(), line.labels)?;
    move_marks(
        &mut buffers.lane_marks,
        buffers.cuts.as_slice(),
        line.lane_marks,
    )?;
    Ok(Some(FittedLine {
        text: buffers.text.as_str(),
        labels: buffers.labels.as_slice(),
        lane_marks: buffers.lane_marks.as_slice(),
    }))
}

/// Returns whether a line has room: its text, and the cell past its end where it needs one.
fn fits(tab_width: usize, text: &str, past_end: usize, room: usize) -> bool
    ensures { result ≡ nat_le (width_of (char_metrics tab_width text.now) + past_end) room }
{
    past_end <= room && text_fits(tab_width, text, room - past_end)
}

/// Replaces the cuts with what has to be left out of a line so that it has at most `left` cells.
fn find_cuts(
    buffers: &mut FittingBuffers<'_>,
    tab_width: usize,
    line: FittedLine<'_, '_>,
    left: usize,
) -> Result<(), AllocError>
    ensures cuts { IfOk result (λ _. AreCutsOf (shortened left tab_width (line_view 0 0 line.entry))
        buffers.new.cuts.items) }
    ensures between { IfOk result (λ _. AreBetweenChars line.entry.text.now 0
        (map cut_view buffers.new.cuts.items)) }
{
    if line.text.is_empty() {
        buffers.cuts.clear();
        return Ok(());
    }
    let for_gaps = choose_gaps(buffers, tab_width, line, left)?;
    let gaps = buffers.gaps.as_slice();
    let radius = match for_gaps {
        Some(for_gaps) => find_radius(tab_width, line.text, gaps, for_gaps, left),
        None => 0,
    };
    refill_cuts(&mut buffers.cuts, tab_width, line.text, gaps, radius)
}

/// Replaces the spans and gaps with those of a line, of whole labels where these fit and else of
/// their ends, and returns the cells that the needed units leave of `left`, or `None` where they
/// are more.
fn choose_gaps(
    buffers: &mut FittingBuffers<'_>,
    tab_width: usize,
    line: FittedLine<'_, '_>,
    left: usize,
) -> Result<Option<usize>, AllocError>
    ensures within { IfOk result (λ _. AreIn line.entry.text.now buffers.new.gaps.items) }
    ensures gaps { IfOk result (λ _. placed_gaps tab_width line.entry.text.now
        buffers.new.gaps.items
        ≡ gaps_from 0 (chosen_parts left tab_width (line_view 0 0 line.entry))) }
    ensures rest { IfOk result
        (IsLeft left (chosen_parts left tab_width (line_view 0 0 line.entry))) }
{
    let for_gaps = find_gaps(buffers, tab_width, line, LabelSpan::Whole, left)?;
    if gaps_fit(buffers, tab_width, line.text, for_gaps) {
        return Ok(for_gaps);
    }
    find_gaps(buffers, tab_width, line, LabelSpan::Ends, left)
}

/// Replaces the spans and gaps with those of a line, and returns the cells that the needed units
/// leave of `left`, or `None` where they are more.
fn find_gaps(
    buffers: &mut FittingBuffers<'_>,
    tab_width: usize,
    line: FittedLine<'_, '_>,
    label_span: LabelSpan,
    left: usize,
) -> Result<Option<usize>, AllocError>
    ensures within { IfOk result (λ _. AreIn line.entry.text.now buffers.new.gaps.items) }
    ensures gaps { IfOk result (λ _. placed_gaps tab_width line.entry.text.now
        buffers.new.gaps.items
        ≡ gaps_from 0 (parts_of (label_spans_of label_span) tab_width
        (line_view 0 0 line.entry))) }
    ensures rest { IfOk result (IsLeft left (parts_of (label_spans_of label_span) tab_width
        (line_view 0 0 line.entry))) }
{
    let bytes = LineBytes {
        len: line.text.len(),
        leading: leading_whitespace(line.text),
    };
    refill_spans(
        &mut buffers.spans,
        bytes,
        label_span,
        line.labels,
        line.lane_marks,
    )?;
    refill_gaps(
        &mut buffers.gaps,
        tab_width,
        line.text,
        buffers.spans.as_slice(),
        left,
    )
}

/// Returns whether the gaps at radius 0 have at most these cells, not so where there are none.
fn gaps_fit(
    buffers: &FittingBuffers<'_>,
    tab_width: usize,
    text: &str,
    for_gaps: Option<usize>,
) -> bool
    requires within { AreIn text.now buffers.now.gaps.items }
    ensures { MatchOption for_gaps (result ≡ false)
        (λ rest. result ≡ nat_le (gap_cells 0 tab_width text.now buffers.now.gaps.items) rest) }
{
    match for_gaps {
        None => false,
        Some(left) => fits_at(tab_width, text, buffers.gaps.as_slice(), left, 0),
    }
}
