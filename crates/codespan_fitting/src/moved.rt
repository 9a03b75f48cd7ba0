//! Labels and lane marks, moved to where their characters are in a shortened text.

ghost use Rattle.std.specs.Prelude.{◌≡◌, IfOk, List, map};
ghost use Rattle.codespan_output.specs.Arguments.{lane_mark_view, multi_label_view};
ghost use Rattle.codespan_output.specs.Arguments.{single_label_view, single_label_views};
ghost use Rattle.codespan_output.specs.FittedLines.{moved, moved_label, moved_mark};
ghost use Rattle.codespan_output.specs.FittedLines.{moved_multi_label};
ghost use Rattle.codespan_output.specs.FittedParts.{Piece};
ghost use Rattle.codespan_fitting.specs.Cuts.{AreCutsOf, cut_view, moved_after};

use crate::cut::Cut;
use crate::measure::DOTS;
use codespan_core::diagnostic::LabelStyle;
use codespan_output::arguments::{MultiLabel, SingleLabel};
use std::alloc::AllocError;

/// Replaces labels with those of the shortened text.
pub fn move_labels<'d>(
    moved_labels: &mut Vec<SingleLabel<'d>>,
    cuts: &[Cut],
    labels: &[SingleLabel<'d>],
) -> Result<(), AllocError>
    ensures { IfOk result (λ _. (pieces : List Piece) → AreCutsOf pieces cuts.now
        → single_label_views moved_labels.new.items
        ≡ map (moved_label pieces) (single_label_views labels.now)) }
{
    moved_labels.clear();
    for label in labels {
        moved_labels.push(moved_label(cuts, label))?;
    }
    Ok(())
}

/// Replaces lane marks with those of the shortened text.
pub fn move_marks<'d>(
    moved_marks: &mut Vec<(usize, LabelStyle, MultiLabel<'d>)>,
    cuts: &[Cut],
    lane_marks: &[(usize, LabelStyle, MultiLabel<'d>)],
) -> Result<(), AllocError>
    ensures { IfOk result (λ _. (pieces : List Piece) → AreCutsOf pieces cuts.now
        → map lane_mark_view moved_marks.new.items
        ≡ map (moved_mark pieces) (map lane_mark_view lane_marks.now)) }
{
    moved_marks.clear();
    for mark in lane_marks {
        let multi_label = moved_multi_label(cuts, mark.2);
        moved_marks.push((mark.0, mark.1, multi_label))?;
    }
    Ok(())
}

/// Returns a label of the shortened text.
fn moved_label<'d>(cuts: &[Cut], label: &SingleLabel<'d>) -> SingleLabel<'d>
    ensures { (pieces : List Piece) → AreCutsOf pieces cuts.now
        → single_label_view result ≡ moved_label pieces (single_label_view label.now) }
{
    let (style, range, message) = label;
    let start = moved(cuts, range.start);
    let end = moved(cuts, range.end);
    (*style, start..end, *message)
}

/// Returns a multi-line label mark of the shortened text.
fn moved_multi_label<'d>(cuts: &[Cut], mark: MultiLabel<'d>) -> MultiLabel<'d>
    ensures { (pieces : List Piece) → AreCutsOf pieces cuts.now
        → multi_label_view result ≡ moved_multi_label pieces (multi_label_view mark.entry) }
{
    match mark {
        MultiLabel::Left => mark,
        MultiLabel::Top(start) => MultiLabel::Top(moved(cuts, start)),
        MultiLabel::Bottom(end, message) => MultiLabel::Bottom(moved(cuts, end), message),
    }
}

/// Returns where a byte index of a text is in the shortened text.
fn moved(cuts: &[Cut], x: usize) -> usize
    ensures { (pieces : List Piece) → AreCutsOf pieces cuts.now → result ≡ moved pieces x }
{
    match cuts.partition_point(|cut| cut.start <= x) {
        0 => x,
        started => moved_after(cuts[started - 1], x),
    }
}

/// Returns where a byte index is in the shortened text, if the cut is the last one that starts
/// there or before: in the cut where its dots begin, and after it as far from their end.
fn moved_after(cut: Cut, x: usize) -> usize
    ensures { result ≡ moved_after (cut_view cut) x }
{
    match x.checked_sub(cut.end) {
        None => cut.dots,
        Some(past) => cut.dots + DOTS.len() + past,
    }
}
