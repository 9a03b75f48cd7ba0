//! The greatest radius at which a line fits.

ghost use Rattle.std.specs.Prelude.{◌≡◌, ◌+◌, ◌-◌, ◌<◌, ◌≤◌, nat_le, true};
ghost use Rattle.codespan_output.specs.FittedParts.{greatest, part_pieces, piece_cells};
ghost use Rattle.codespan_fitting.specs.Gaps.{AreIn, IsIn, gap_cells, gap_part};
ghost use Rattle.codespan_fitting.specs.LeftOut.{dot_ranges, left_out_ranges};

use crate::gap::Gap;
use crate::walk::{LeftOut, left_out};

/// Returns what of a gap is left out at a radius, counted from the gap's start.
pub fn walk_gap(tab_width: usize, text: &str, gap: Gap, radius: usize) -> LeftOut
    requires within { IsIn text.now gap }
    ensures cells { result.cells
        ≡ piece_cells (part_pieces radius (gap_part tab_width text.now gap)) }
    ensures ranges { left_out_ranges result.start result.end
        ≡ dot_ranges 0 (part_pieces radius (gap_part tab_width text.now gap)) }
    ensures within { result.end ≤ gap.end - gap.start }
    ensures longer { result.start < result.end → result.start + 3 < result.end }
{
    left_out(
        tab_width,
        &text[gap.start..gap.end],
        gap.is_after_needed,
        gap.is_before_needed,
        radius,
    )
}

/// Returns whether the gaps have at most `left` cells at a radius.
pub fn fits_at(tab_width: usize, text: &str, gaps: &[Gap], left: usize, radius: usize) -> bool
    requires within { AreIn text.now gaps.now }
    ensures { result ≡ nat_le (gap_cells radius tab_width text.now gaps.now) left }
{
    let mut left = left as u128;
    for gap in gaps {
        let cells = walk_gap(tab_width, text, *gap, radius).cells;
        if cells > left {
            return false;
        }
        left -= cells;
    }
    true
}

/// Returns the greatest radius up to `most` at which the gaps have at most `left` cells, 0 where
/// there is none.
pub fn find_radius(tab_width: usize, text: &str, gaps: &[Gap], left: usize, most: usize) -> usize
    requires within { AreIn text.now gaps.now }
    ensures { result
        ≡ greatest (λ r. nat_le (gap_cells r tab_width text.now gaps.now) left) most }
{
    let mut least = 0;
    let mut most = most;
    while least < most {
        let radius = most - (most - least) / 2;
        if fits_at(tab_width, text, gaps, left, radius) {
            least = radius;
        } else {
            most = radius - 1;
        }
    }
    least
}
