//! How many cells a line has, and how many it may have.

ghost use Rattle.std.specs.Prelude.{◌≡◌, ℕ, ◌<◌, ◌≤◌, IsTrue, length, nat_le};
ghost use Rattle.std.specs.Char.{IsScalar};
ghost use Rattle.codespan_fitting.specs.Fitting.{past_end_of, room_of};
ghost use Rattle.codespan_output.specs.FittedParts.{cells_at_most};
ghost use Rattle.codespan_fitting.specs.Walks.{IsPrintableAt};
ghost use Rattle.codespan_output.specs.Arguments.{single_label_views};
ghost use Rattle.codespan_output.specs.CharMetrics.{char_metrics, width_at, width_of};

use codespan_output::arguments::SingleLabel;
use codespan_output::rows::carets::max_label_end;
use unicode_width::UnicodeWidthChar;

/// The three full stops that stand for the units that are left out: as many bytes, characters and
/// cells.
pub const DOTS: &str = "...";

/// How many bytes are tested at once for being printable ASCII.
const BLOCK: usize = 16;

/// Returns the cells of a character, of a tab as many as it can have.
#[inline(always)]
pub fn cells_at_most(tab_width: usize, c: char) -> usize
    ensures value { result ≡ cells_at_most tab_width c }
    ensures scalar { IsScalar c }
{
    if matches!(c, ' '..='~') {
        return 1;
    }
    if c == '\t' {
        return tab_width;
    }
    c.width().unwrap_or(0)
}

/// Returns the cells of a width that the gutter leaves for a line.
pub fn room(width: usize, padding: usize, num_lanes: usize) -> usize
    ensures { result ≡ room_of width padding num_lanes }
{
    width
        .saturating_sub(padding)
        .saturating_sub(3)
        .saturating_sub(num_lanes)
        .saturating_sub(num_lanes)
}

/// Returns 1 where a label ends past the text, since carets may be there, and else 0.
pub fn past_end(text: &str, labels: &[SingleLabel<'_>]) -> usize
    ensures { result ≡ past_end_of text.now (single_label_views labels.now) }
{
    if text.len() < max_label_end(labels) {
        1
    } else {
        0
    }
}

/// Returns whether the cells of the text, tabs at their stops, are at most `left`. It reads no
/// further than the first character that ends past them.
pub fn text_fits(tab_width: usize, text: &str, left: usize) -> bool
    ensures { result ≡ nat_le (width_of (char_metrics tab_width text.now)) left }
{
    let mut column = plain_len(text.as_bytes(), left);
    for c in text[column..].chars() {
        let cells = cells_at(tab_width, column, c);
        if cells > left - column {
            return false;
        }
        column += cells;
    }
    true
}

/// Returns how many bytes of printable ASCII are at the start of a text, as far as whole blocks of
/// them go, and no more than `most`.
fn plain_len(bytes: &[u8], most: usize) -> usize
    ensures within { result ≤ length bytes.now }
    ensures most { result ≤ most }
    ensures printable { (k : ℕ) → k < result → IsPrintableAt bytes.now k }
{
    let mut len = 0;
    while bytes.len() - len >= BLOCK && most - len >= BLOCK && is_plain(&bytes[len..len + BLOCK]) {
        len += BLOCK;
    }
    len
}

/// Returns whether these bytes are printable ASCII.
fn is_plain(block: &[u8]) -> bool
    ensures { IsTrue result → (k : ℕ) → k < length block.now → IsPrintableAt block.now k }
{
    let mut plain = true;
    for byte in block {
        plain &= matches!(*byte, b' '..=b'~');
    }
    plain
}

/// Returns the cells of a character at a column: of a tab those up to its next stop.
#[inline(always)]
fn cells_at(tab_width: usize, column: usize, c: char) -> usize
    ensures value { result ≡ width_at tab_width column c }
{
    if c == '\t' && tab_width != 0 {
        return tab_width - column % tab_width;
    }
    cells_at_most(tab_width, c)
}
