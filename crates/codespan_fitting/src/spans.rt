//! What of a line has to be shown, as stretches of its bytes.

ghost use Rattle.std.specs.Prelude.{◌≡◌, ◌++◌, IfOk, map};
ghost use Rattle.std.specs.List.Sorted.{IsNonDecreasingBy, IsPermutation};
ghost use Rattle.codespan_fitting.specs.Fitting.{label_spans_of, mark_span_views, span_view};
ghost use Rattle.codespan_fitting.specs.Fitting.{span_views, spans_of};
ghost use Rattle.codespan_output.specs.FittedParts.{first_byte, last_byte, mark_spans};
ghost use Rattle.codespan_output.specs.Arguments.{lane_mark_view, multi_label_view};
ghost use Rattle.codespan_output.specs.Arguments.{single_label_view, single_label_views};

use codespan_core::diagnostic::LabelStyle;
use codespan_output::arguments::{MultiLabel, SingleLabel};
use std::alloc::AllocError;

/// A stretch of a line that has to be shown: its first byte and its last byte.
#[derive(Clone, Copy)]
pub struct Span {
    pub first: usize,
    pub last: usize,
}

/// What of a label has to be shown.
#[derive(Clone, Copy)]
pub enum LabelSpan {
    /// All of it.
    Whole,
    /// Its first and its last byte.
    Ends,
}

/// How many bytes a line has, and with how many bytes of white space it begins.
#[derive(Clone, Copy)]
pub struct LineBytes {
    pub len: usize,
    pub leading: usize,
}

/// Returns the first byte of what starts at an index, on a line of `n` bytes.
fn first_byte(n: usize, start: usize) -> usize
    ensures { result ≡ first_byte n start }
{
    start.min(n.saturating_sub(1))
}

/// Returns the last byte of what ends at an index, on a line of `n` bytes.
fn last_byte(n: usize, end: usize) -> usize
    ensures { result ≡ last_byte n end }
{
    end.min(n).saturating_sub(1)
}

/// Replaces the spans with those of labels and lane marks, in the order of their first bytes.
/// Where there is none, it is the line's first byte.
pub fn refill_spans(
    spans: &mut Vec<Span>,
    line: LineBytes,
    label_span: LabelSpan,
    labels: &[SingleLabel<'_>],
    lane_marks: &[(usize, LabelStyle, MultiLabel<'_>)],
) -> Result<(), AllocError>
    ensures spans { IfOk result (λ _. IsPermutation
        (spans_of (label_spans_of label_span) line.len line.leading
        (single_label_views labels.now) (map lane_mark_view lane_marks.now))
        (span_views spans.new.items)) }
    ensures sorted { IfOk result (λ _. IsNonDecreasingBy (λ s. s.first) spans.new.items) }
{
    spans.clear();
    for label in labels {
        push_label_spans(spans, line.len, label_span, label)?;
    }
    for lane_mark in lane_marks {
        if let Some(span) = mark_span(line, lane_mark.2) {
            spans.push(span)?;
        }
    }
    if spans.is_empty() {
        spans.push(Span { first: 0, last: 0 })?;
    }
    spans.sort_unstable_by_key(|span| span.first);
    Ok(())
}

/// Appends the spans of a label on a line of `n` bytes.
fn push_label_spans(
    spans: &mut Vec<Span>,
    n: usize,
    label_span: LabelSpan,
    label: &SingleLabel<'_>,
) -> Result<(), AllocError>
    ensures { IfOk result (λ _. span_views spans.new.items
        ≡ span_views spans.old.items
        ++ label_spans_of label_span n (single_label_view label.now)) }
{
    let first = first_byte(n, label.1.start);
    let last = last_byte(n, label.1.end);
    match label_span {
        LabelSpan::Whole => spans.push(Span { first, last })?,
        LabelSpan::Ends => {
            spans.push(Span { first, last: first })?;
            spans.push(Span { first: last, last })?;
        }
    }
    Ok(())
}

/// Returns the span of a multi-line label mark, where it has one: of a corner in the source row
/// with what is before it.
fn mark_span(line: LineBytes, mark: MultiLabel<'_>) -> Option<Span>
    ensures { mark_span_views result
        ≡ mark_spans line.len line.leading (multi_label_view mark.entry) }
{
    match mark {
        MultiLabel::Top(start) => {
            let last = first_byte(line.len, start);
            let first = if start <= line.leading { 0 } else { last };
            Some(Span { first, last })
        }
        MultiLabel::Left => None,
        MultiLabel::Bottom(end, _) => {
            let last = last_byte(line.len, end);
            Some(Span { first: last, last })
        }
    }
}
