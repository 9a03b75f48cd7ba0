//! The characters of a drawn line, with their bytes and cells.

/// The metrics of a character of a drawn line, or of the placeholder after the last one, under
/// which a label at the end of the line has its caret.
#[derive(Clone, Copy)]
pub struct Metrics {
    /// The character; a space for the placeholder.
    pub ch: char,
    /// The byte index at which it begins, counted from 0 at the line's start.
    pub byte_index: usize,
    /// How many bytes it has in UTF-8. The placeholder has one.
    pub bytes: usize,
    /// The column of its first cell, counted in cells from 0 at the line's start.
    pub column: u128,
    /// Its width in cells: of a tab the cells up to its next stop. The placeholder has one.
    pub unicode_width: usize,
}
