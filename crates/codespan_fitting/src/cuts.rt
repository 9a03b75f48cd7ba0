//! The stretches of a text for which dots stand.

ghost use Rattle.std.specs.Prelude.{◌≡◌, IfOk, List, map, string_bytes};
ghost use Rattle.codespan_output.specs.FittedLines.{shown_text};
ghost use Rattle.codespan_output.specs.FittedParts.{Part, Piece, pieces_of};
ghost use Rattle.codespan_fitting.specs.Cuts.{AreBetweenChars, AreCutsOf, cut_view};
ghost use Rattle.codespan_fitting.specs.Gaps.{AreIn, placed_gaps};
ghost use Rattle.codespan_fitting.specs.Parts.{gaps_from, part_units};
ghost use Rattle.codespan_fitting.specs.Walks.{text_units};

use crate::cut::Cut;
use crate::gap::Gap;
use crate::measure::DOTS;
use crate::radius::walk_gap;
use std::alloc::AllocError;

/// Replaces the cuts with what of the gaps is left out at a radius.
pub fn refill_cuts(
    cuts: &mut Vec<Cut>,
    tab_width: usize,
    text: &str,
    gaps: &[Gap],
    radius: usize,
) -> Result<(), AllocError>
    requires within { AreIn text.now gaps.now }
    ensures cuts { IfOk result (λ _. (parts : List Part)
        → placed_gaps tab_width text.now gaps.now ≡ gaps_from 0 parts
        → AreCutsOf (pieces_of radius parts) cuts.new.items) }
    ensures between { IfOk result (λ _. (parts : List Part)
        → placed_gaps tab_width text.now gaps.now ≡ gaps_from 0 parts
        → part_units parts ≡ text_units tab_width text.now
        → AreBetweenChars text.now 0 (map cut_view cuts.new.items)) }
{
    cuts.clear();
    let mut removed = 0;
    for gap in gaps {
        let left_out = walk_gap(tab_width, text, *gap, radius);
        if left_out.start < left_out.end {
            let start = gap.start + left_out.start;
            let end = gap.start + left_out.end;
            let dots = start.saturating_sub(removed);
            cuts.push(Cut { start, end, dots })?;
            removed = end - (dots + DOTS.len());
        }
    }
    Ok(())
}

/// Replaces a text with the one in which dots stand for the cuts of another.
pub fn write_text(fitted: &mut String, text: &str, cuts: &[Cut]) -> Result<(), AllocError>
    requires between { AreBetweenChars text.now 0 (map cut_view cuts.now) }
    ensures { IfOk result (λ _. (pieces : List Piece) → AreCutsOf pieces cuts.now
        → string_bytes fitted.new ≡ shown_text pieces text.now) }
{
    fitted.clear();
    let mut read = 0;
    for cut in cuts {
        fitted.push_str(&text[read..cut.start])?;
        fitted.push_str(DOTS)?;
        read = cut.end;
    }
    fitted.push_str(&text[read..])
}
