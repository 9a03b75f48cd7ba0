//! Positions of rendered characters.

ghost use Rattle.std.specs.Prelude.{◌≡◌, ◌+◌, ◌≤◌, ◌^◌, max};
ghost use Rattle.codespan_output.specs.CharMetrics.{width_at};
ghost use Rattle.codespan_styled.specs.Glyphs.{after_glyph, extent_from, start, tab_width};

use crate::svg::glyph::Glyph;

/// The number of cells from one tab stop to the next, as in HTML and on terminals.
const TAB_WIDTH: u128 = 8;

/// A position in rendered text: a row, from 0, and a column in it, in cells.
#[derive(Clone, Copy, Debug, PartialEq, Eq)]
pub struct CellPosition {
    /// The row, from 0.
    pub row: u128,
    /// The number of cells before it in the row.
    pub column: u128,
}

impl CellPosition {
    /// Returns the position of the first character.
    pub fn start() -> CellPosition
        ensures { result ≡ start }
    {
        CellPosition { row: 0, column: 0 }
    }

    /// Returns the position after a character: after a tab it is at the next tab stop.
    ///
    /// # Requires
    ///
    /// The row is at most 2^64 and the column at most 2^66, so that no number overflows.
    pub fn after(self, glyph: Glyph) -> CellPosition
        requires row { self.row ≤ 2 ^ 64 }
        requires column { self.column ≤ 2 ^ 66 }
        ensures position { result ≡ after_glyph self glyph }
        ensures row { result.row ≤ self.row + 1 }
        ensures column { result.column ≤ self.column + 8 }
    {
        if glyph.is_newline() {
            CellPosition {
                row: self.row + 1,
                column: 0,
            }
        } else {
            CellPosition {
                row: self.row,
                column: self.column + self.width(glyph),
            }
        }
    }

    /// Returns the number of cells of a character at this position.
    fn width(self, glyph: Glyph) -> u128
        ensures value { result ≡ width_at tab_width self.column glyph.character }
        ensures bound { result ≤ 8 }
    {
        if glyph.character == '\t' {
            TAB_WIDTH - self.column % TAB_WIDTH
        } else {
            glyph.cells() as u128
        }
    }
}

/// Returns the size of glyphs: as `row` the number of their newlines, and as `column` the number of
/// cells of the widest row.
pub(super) fn extent(glyphs: &[Glyph]) -> CellPosition
    ensures extent { result ≡ extent_from start glyphs.now }
    ensures row { result.row ≤ 2 ^ 64 }
    ensures column { result.column ≤ 2 ^ 66 }
{
    let mut position = CellPosition::start();
    let mut columns = 0;
    for glyph in glyphs {
        position = position.after(*glyph);
        columns = greater(columns, position.column);
    }
    CellPosition {
        row: position.row,
        column: columns,
    }
}

/// Returns the greater of two numbers.
fn greater(one: u128, other: u128) -> u128
    ensures { result ≡ max one other }
{
    if one < other { other } else { one }
}
