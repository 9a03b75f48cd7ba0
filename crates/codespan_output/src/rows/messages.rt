//! Which message trails the carets of a line, and which hang below them.

ghost use Rattle.std.specs.Prelude.{◌≡◌, ◌<◌, length, false, IfSome};
ghost use Rattle.std.specs.List.{list_any};
ghost use Rattle.std.specs.Option.{option_map_or};
ghost use Rattle.codespan_core.specs.Labels.{has_message};
ghost use Rattle.codespan_output.specs.Arguments.{single_label_view, single_label_views};
ghost use Rattle.codespan_output.specs.Private.RowLabels.{optional_label_view, indexed_label_view};
ghost use Rattle.codespan_output.specs.Private.RowLabels.{AreHanging, ArePrefixAndSuffix};
ghost use Rattle.codespan_output.specs.Private.LabelIndices.{last_with_end, overlaps_any};
ghost use Rattle.codespan_output.specs.Private.LabelIndices.{does_trail};
ghost use Rattle.codespan_output.specs.Rows as of_line;
ghost use Rattle.std.proofs.Props.{props};

use crate::arguments::SingleLabel;
use crate::rows::carets::max_label_end;

/// The labels of a line by their messages: the one whose message trails, and those before and after
/// it, of which those with a message hang.
#[derive(Clone, Copy)]
pub struct Messages<'row, 'd> {
    /// All labels of the line.
    pub labels: &'row [SingleLabel<'d>],
    /// The label whose message trails.
    pub trailing_label: Option<&'row SingleLabel<'d>>,
    /// The labels that may hang: those before the trailing one, or all where none trails.
    pub before: &'row [SingleLabel<'d>],
    /// The labels after the trailing one, or none. They may hang too, in the rows above those of
    /// `before`.
    pub after: &'row [SingleLabel<'d>],
    ghost trails: { optional_label_view trailing_label
        ≡ of_line.trailing_label (single_label_views labels.now) } by { Prim.hlevel props },
    ghost hanging_labels: { AreHanging labels.now before.now after.now },
    ghost slices: { ∥ ArePrefixAndSuffix labels.now before.now after.now ∥₁ },
}

impl<'row, 'd> Messages<'row, 'd> {
    /// Finds the trailing label: the last of those with the greatest end, where it has a message
    /// and overlaps no other label. Each other label with a message hangs.
    pub fn of(labels: &'row [SingleLabel<'d>]) -> Messages<'row, 'd>
        ensures { result.labels.now ≡ labels.now }
    {
        match last_with_end(labels, max_label_end(labels)) {
            Some(index) if does_trail(labels, index) => Messages {
                labels,
                trailing_label: Some(&labels[index]),
                before: &labels[..index],
                after: &labels[index + 1..],
            },
            _ => Messages {
                labels,
                trailing_label: None,
                before: labels,
                after: &[],
            },
        }
    }
}

/// Returns the index of the last label with this end.
fn last_with_end(labels: &[SingleLabel<'_>], end: usize) -> Option<usize>
    ensures value { last_with_end end (single_label_views labels.now)
        ≡ indexed_label_view labels.now result }
    ensures within { IfSome result (λ index. index < length labels.now) }
{
    for index in (0..labels.len()).rev() {
        if labels[index].1.end == end {
            return Some(index);
        }
    }
    None
}

/// Returns whether the message of the label at this index trails: it has one, and overlaps no other
/// label of the line.
fn does_trail(labels: &[SingleLabel<'_>], index: usize) -> bool
    requires { index < length labels.now }
    ensures { result ≡ option_map_or (does_trail (single_label_views labels.now))
        (indexed_label_view labels.now (Some index)) false }
{
    let label = &labels[index];
    !label.2.is_empty()
        && !overlaps_any(label, &labels[..index])
        && !overlaps_any(label, &labels[index + 1..])
}

/// Returns whether one of the other labels overlaps the label.
fn overlaps_any(label: &SingleLabel<'_>, others: &[SingleLabel<'_>]) -> bool
    ensures { result ≡ overlaps_any (single_label_view label.now) (single_label_views others.now) }
{
    for other in others {
        if label.1.start.max(other.1.start) < label.1.end.min(other.1.end) {
            return true;
        }
    }
    false
}

/// Returns whether one of the labels has a message.
pub fn has_any_message(labels: &[SingleLabel<'_>]) -> bool
    ensures { result ≡ list_any has_message (single_label_views labels.now) }
{
    for label in labels {
        if !label.2.is_empty() {
            return true;
        }
    }
    false
}
