//! What of a gap is left out at a radius.

ghost use Rattle.std.specs.Prelude.{◌≡◌, ◌+◌, ◌*◌, ◌<◌, ◌≤◌, IfNone};
ghost use Rattle.std.specs.Prelude.{IfSome, drop, length, take};
ghost use Rattle.std.specs.Str.{IsCharBoundary};
ghost use Rattle.codespan_output.specs.FittedParts.{Gap, part_pieces, piece_cells, unit_bytes};
ghost use Rattle.codespan_output.specs.FittedParts.{unit_cells};
ghost use Rattle.codespan_fitting.specs.LeftOut.{dot_ranges, left_out_ranges};
ghost use Rattle.codespan_fitting.specs.Walks.{before_last, first_within, last_within, first_count};
ghost use Rattle.codespan_fitting.specs.Walks.{last_count, text_units};

use crate::measure::{DOTS, cells_at_most};

/// What of a text is left out: the bytes from `start` to before `end`, none where these are equal.
#[derive(Clone, Copy)]
pub struct LeftOut {
    pub start: usize,
    pub end: usize,
    /// The cells of the rest, and of the dots.
    pub cells: u128,
    ghost ordered: { start ≤ end },
}

/// Returns how many bytes the first units of a text have that have at most `radius` cells together,
/// and these cells.
fn keep_first(tab_width: usize, text: &str, radius: usize) -> (usize, usize)
    ensures bytes { result.0
        ≡ unit_bytes (first_within radius (text_units tab_width text.now)) }
    ensures cells { result.1
        ≡ unit_cells (first_within radius (text_units tab_width text.now)) }
    ensures boundary { IsCharBoundary text.now result.0 }
    ensures most { result.1 ≤ radius }
{
    let mut left = radius;
    let mut end = 0;
    for c in text.chars() {
        let cells = cells_at_most(tab_width, c);
        if cells > left {
            return (end, radius - left);
        }
        left -= cells;
        end += c.len_utf8();
    }
    (end, radius - left)
}

/// Returns the byte index at which the last units of a text begin that have at most `radius` cells
/// together, and these cells.
fn keep_last(tab_width: usize, text: &str, radius: usize) -> (usize, usize)
    ensures bytes { result.0 ≡ unit_bytes (before_last radius (text_units tab_width text.now)) }
    ensures cells { result.1 ≡ unit_cells (last_within radius (text_units tab_width text.now)) }
    ensures most { result.1 ≤ radius }
{
    let mut left = radius;
    let mut start = text.len();
    let mut at = start;
    for c in text.chars().rev() {
        let cells = cells_at_most(tab_width, c);
        if cells > left {
            return (start, radius - left);
        }
        left -= cells;
        at -= c.len_utf8();
        if cells != 0 {
            start = at;
        }
    }
    (0, radius - left)
}

/// Returns the cells of a text of at most three units, or `None` where it has more.
fn cells_of_few(tab_width: usize, text: &str) -> Option<u128>
    ensures bound { IfSome result (λ cells. cells ≤ 3 * 18446744073709551616) }
    ensures few { IfSome result (λ cells. cells ≡ unit_cells (text_units tab_width text.now)) }
    ensures at_most { IfSome result (λ _. length (text_units tab_width text.now) ≤ 3) }
    ensures more { IfNone result (3 < length (text_units tab_width text.now)) }
{
    let mut chars = text.chars();
    let first = match chars.next() {
        Some(first) => first,
        None => return Some(0),
    };
    let mut cells = cells_at_most(tab_width, first) as u128;
    let mut units = 1;
    for c in chars {
        let more = cells_at_most(tab_width, c);
        if more != 0 {
            if units == DOTS.len() {
                return None;
            }
            units += 1;
            cells += more as u128;
        }
    }
    Some(cells)
}

/// Returns how many bytes the first units of a gap have that are kept, and their cells: those
/// within the radius, where a needed unit is before them.
fn first_kept(tab_width: usize, text: &str, is_after_needed: bool, radius: usize) -> (usize, usize)
    ensures bytes { result.0 ≡ unit_bytes (take (first_count is_after_needed radius
        (text_units tab_width text.now)) (text_units tab_width text.now)) }
    ensures cells { result.1 ≡ unit_cells (take (first_count is_after_needed radius
        (text_units tab_width text.now)) (text_units tab_width text.now)) }
{
    if is_after_needed {
        keep_first(tab_width, text, radius)
    } else {
        (0, 0)
    }
}

/// Returns the byte index at which the last units of a gap begin that are kept, and their cells:
/// those within the radius, where a needed unit is after them.
fn last_kept(tab_width: usize, text: &str, is_before_needed: bool, radius: usize) -> (usize, usize)
    ensures bytes { result.0 ≡ unit_bytes (take (last_count is_before_needed radius
        (text_units tab_width text.now)) (text_units tab_width text.now)) }
    ensures cells { result.1 ≡ unit_cells (drop (last_count is_before_needed radius
        (text_units tab_width text.now)) (text_units tab_width text.now)) }
{
    if is_before_needed {
        keep_last(tab_width, text, radius)
    } else {
        (text.len(), 0)
    }
}

/// Returns what is left out at a radius of a gap with this text, which is after a needed unit or
/// not, and before one or not.
pub fn left_out(
    tab_width: usize,
    text: &str,
    is_after_needed: bool,
    is_before_needed: bool,
    radius: usize,
) -> LeftOut
    ensures cells { result.cells ≡ piece_cells (part_pieces radius
        (Gap is_after_needed is_before_needed (text_units tab_width text.now))) }
    ensures ranges { left_out_ranges result.start result.end ≡ dot_ranges 0 (part_pieces radius
        (Gap is_after_needed is_before_needed (text_units tab_width text.now))) }
    ensures within { result.end ≤ length text.now }
    ensures longer { result.start < result.end → result.start + 3 < result.end }
{
    let (start, first_cells) = first_kept(tab_width, text, is_after_needed, radius);
    let rest = &text[start..];
    let (end, last_cells) = last_kept(tab_width, rest, is_before_needed, radius);
    let kept = first_cells as u128 + last_cells as u128;
    match cells_of_few(tab_width, &rest[..end]) {
        Some(cells) => LeftOut {
            start,
            end: start,
            cells: kept + cells,
        },
        None => LeftOut {
            start,
            end: start + end,
            cells: kept + DOTS.len() as u128,
        },
    }
}
