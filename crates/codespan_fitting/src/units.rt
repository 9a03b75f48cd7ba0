//! Where the units of a text begin and end, near a byte of it.

ghost use Rattle.std.specs.Prelude.{◌≡◌, ◌+◌, ◌<◌, MatchOption};
ghost use Rattle.codespan_output.specs.FittedParts.{unit_cells};
ghost use Rattle.codespan_fitting.specs.Units.{end_of, start_of};
ghost use Rattle.codespan_fitting.specs.Walks.{text_units};

use crate::measure::cells_at_most;

/// Returns the byte index at which the unit of a byte begins, of one past the end the text's end.
pub fn unit_start(tab_width: usize, text: &str, byte: usize) -> usize
    ensures { result ≡ start_of 0 byte (text_units tab_width text.now) }
{
    if byte >= text.len() {
        return text.len();
    }
    let mut start = text.ceil_char_boundary(byte + 1);
    for c in text[..start].chars().rev() {
        start -= c.len_utf8();
        if cells_at_most(tab_width, c) != 0 {
            return start;
        }
    }
    start
}

/// Returns the byte index after the unit of a byte, of one past the end the text's end.
pub fn unit_end(tab_width: usize, text: &str, byte: usize) -> usize
    ensures { result ≡ end_of 0 byte (text_units tab_width text.now) }
{
    if byte >= text.len() {
        return text.len();
    }
    let mut end = text.ceil_char_boundary(byte + 1);
    for c in text[end..].chars() {
        if cells_at_most(tab_width, c) != 0 {
            return end;
        }
        end += c.len_utf8();
    }
    end
}

/// Returns what a text leaves of these cells, or `None` where it has more.
pub fn cells_left(tab_width: usize, text: &str, left: usize) -> Option<usize>
    ensures { MatchOption result (left < unit_cells (text_units tab_width text.now))
        (λ rest. rest + unit_cells (text_units tab_width text.now) ≡ left) }
{
    let mut left = left;
    for c in text.chars() {
        let cells = cells_at_most(tab_width, c);
        if cells > left {
            return None;
        }
        left -= cells;
    }
    Some(left)
}
