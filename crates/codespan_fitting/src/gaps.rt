//! The gaps between the needed units of a line.

ghost use Rattle.std.specs.Prelude.{ℕ, ◌≡◌, ◌+◌, ◌++◌, ◌<◌, IfOk, List, MatchOption};
ghost use Rattle.std.specs.List.Sorted.{IsNonDecreasingBy};
ghost use Rattle.std.specs.Str.{IsCharBoundary};
ghost use Rattle.codespan_fitting.specs.Fitting.{span_views};
ghost use Rattle.codespan_fitting.specs.Gaps.{AreIn, placed_gaps};
ghost use Rattle.codespan_fitting.specs.Parts.{gap_between, gaps_from, needed_cells, text_parts};

use crate::gap::Gap;
use crate::spans::Span;
use crate::units::{cells_left, unit_end, unit_start};
use std::alloc::AllocError;

/// Replaces the gaps with those between the needed units, and returns the cells that these leave of
/// `left`, or `None` where they are more. The spans are in the order of their first bytes.
pub fn refill_gaps(
    gaps: &mut Vec<Gap>,
    tab_width: usize,
    text: &str,
    spans: &[Span],
    left: usize,
) -> Result<Option<usize>, AllocError>
    requires sorted { IsNonDecreasingBy (λ s. s.first) spans.now }
    ensures within { IfOk result (λ _. AreIn text.now gaps.new.items) }
    ensures gaps { IfOk result (λ _. placed_gaps tab_width text.now gaps.new.items
        ≡ gaps_from 0 (text_parts tab_width text.now (span_views spans.now))) }
    ensures rest { IfOk result (λ rest. MatchOption rest
        (left < needed_cells (text_parts tab_width text.now (span_views spans.now)))
        (λ rest. rest + needed_cells (text_parts tab_width text.now (span_views spans.now))
        ≡ left)) }
{
    gaps.clear();
    let mut rest = Some(left);
    let mut shown = 0;
    for span in spans {
        let start = unit_start(tab_width, text, span.first);
        let end = unit_end(tab_width, text, span.last);
        if start >= end || shown >= end {
            continue;
        }
        push_gap(gaps, shown, start, true)?;
        let needed = &text[shown.max(start)..end];
        rest = rest.and_then(|rest| cells_left(tab_width, needed, rest));
        shown = end;
    }
    push_gap(gaps, shown, text.len(), false)?;
    Ok(rest)
}

/// Appends the gap between two byte indices, if there are bytes between. A needed unit is before
/// it, except at 0.
fn push_gap(
    gaps: &mut Vec<Gap>,
    start: usize,
    end: usize,
    is_before_needed: bool,
) -> Result<(), AllocError>
    ensures within { IfOk result (λ _. (text : List ℕ) → AreIn text gaps.old.items
        → IsCharBoundary text start → IsCharBoundary text end → AreIn text gaps.new.items) }
    ensures placed { IfOk result (λ _. (tab : ℕ) → (text : List ℕ)
        → placed_gaps tab text gaps.new.items
        ≡ placed_gaps tab text gaps.old.items
        ++ gap_between tab text start end is_before_needed) }
{
    if start < end {
        gaps.push(Gap {
            start,
            end,
            is_after_needed: start != 0,
            is_before_needed,
        })?;
    }
    Ok(())
}
