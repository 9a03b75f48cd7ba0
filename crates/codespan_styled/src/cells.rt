//! The cells of a character.

ghost use Rattle.std.specs.Prelude.{◌≡◌, ◌≤◌};
ghost use Rattle.codespan_styled.specs.Cells.{character_cells};

use unicode_width::UnicodeWidthChar;

/// Returns the number of cells that a character occupies: the width that `unicode_width` returns
/// for it, or 0 where it returns none.
pub(crate) fn cells(c: char) -> usize
    ensures value { result ≡ character_cells c }
    ensures bound { result ≤ 3 }
{
    c.width().unwrap_or(0)
}
