//! Positions of a file, from byte indices and back.

ghost use Rattle.std.specs.Prelude.{◌≡◌, IfOk};
ghost use Rattle.codespan_base.specs.LawfulFiles.{FailsBy};
ghost use Rattle.codespan_lsp.specs.Positions.{position_of, position_failure, IsByteAt};
ghost use Rattle.codespan_lsp.specs.Positions.{byte_failure, overflow_failure};
ghost use Rattle.codespan_lsp.specs.declared.encoding.PositionEncoding.TheVariants.{Utf16};

use crate::encoding::PositionEncoding;
use codespan_base::files::{Error, Files};
use std::convert::AsStr;

/// A position in a file: before a character of a line, or after its last one.
#[derive(Clone, Copy, Debug, PartialEq, Eq)]
pub struct Position {
    /// The index of the line, from 0.
    pub line: u32,
    /// The number of code units of the line before the position.
    pub character: u32,
}

impl PositionEncoding {
    /// Returns the position of a byte, as [`byte_index_to_position`] does, in this encoding.
    ///
    /// # Errors
    ///
    /// Those of [`byte_index_to_position`].
    pub fn byte_index_to_position<'files, F: Files<'files>>(
        self,
        files: &'files F,
        id: F::FileId,
        byte_index: usize,
    ) -> Result<Position, Error>
        ensures value { IfOk result (λ position.
            position ≡ position_of self ((F.database files.now).file id) byte_index) }
        ensures failed { let database = F.database files.now in
            FailsBy (position_failure self (database.file id) (database.failure id) byte_index)
            result }
    {
        let source = files.source(id)?;
        let line_index = files.line_index(id, byte_index)?;
        let line = files.line_range(id, line_index)?;
        let units = self.units_before(source.as_str(), line, byte_index)?;
        position_at(line_index, units)
    }

    /// Returns the byte index of a position, as [`position_to_byte_index`] does, in this encoding.
    ///
    /// # Errors
    ///
    /// Those of [`position_to_byte_index`].
    pub fn position_to_byte_index<'files, F: Files<'files>>(
        self,
        files: &'files F,
        id: F::FileId,
        position: &Position,
    ) -> Result<usize, Error>
        ensures value { IfOk result (IsByteAt self ((F.database files.now).file id) position.now) }
        ensures failed { let database = F.database files.now in
            FailsBy (byte_failure self (database.file id) (database.failure id) position.now)
            result }
    {
        let source = files.source(id)?;
        let line = files.line_range(id, position.line as usize)?;
        let text = &source.as_str()[line.start..line.end];
        self.byte_of_character(line.start, text, position.character as usize)
    }
}

/// Returns the position of a line index and a number of code units.
///
/// # Errors
///
/// [`Error::LineTooLarge`] or [`Error::ColumnTooLarge`] where one of them does not fit a `u32`.
fn position_at(line: usize, character: usize) -> Result<Position, Error>
    ensures value { IfOk result (λ position.
        position ≡ record { line = line; character = character }) }
    ensures failed { FailsBy (overflow_failure line character) result }
{
    let max = u32::MAX as usize;
    if line > max {
        return Err(Error::LineTooLarge { given: line, max });
    }
    if character > max {
        return Err(Error::ColumnTooLarge {
            given: character,
            max,
        });
    }
    Ok(Position {
        line: line as u32,
        character: character as u32,
    })
}

/// Returns the position of a byte of a file; its `character` counts UTF-16 code units. The byte
/// index counts from 0.
///
/// The byte after a newline is on the next line. The end of the text has a position too, on the
/// last line.
///
/// # Examples
///
/// ```rust
/// let file = SimpleFile::new(rt.alloc(), "f", "\na𐐀b")?;
/// for (byte_index, line, character) in [(0, 0, 0), (1, 1, 0), (2, 1, 1), (6, 1, 3), (7, 1, 4)] {
///     let position = byte_index_to_position(&file, (), byte_index)?;
///     assert_eq!(rt; position, Position { line, character });
/// }
/// ```
///
/// # Errors
///
/// The first of these:
///
/// - That of the lookup of the source, of the byte's line and of the line's range.
/// - [`Error::ColumnTooLarge`] past the end of the byte's line, in bytes from the line's start:
///   `given` is the byte, `max` the end.
/// - [`Error::InvalidCharBoundary`] inside a character.
/// - [`Error::LineTooLarge`] or [`Error::ColumnTooLarge`] where the line or the code units do not
///   fit a `u32`: `max` is [`u32::MAX`].
pub fn byte_index_to_position<'files, F: Files<'files>>(
    files: &'files F,
    id: F::FileId,
    byte_index: usize,
) -> Result<Position, Error>
    ensures value { IfOk result (λ position.
        position ≡ position_of Utf16 ((F.database files.now).file id) byte_index) }
    ensures failed { let database = F.database files.now in
        FailsBy (position_failure Utf16 (database.file id) (database.failure id) byte_index)
        result }
{
    PositionEncoding::Utf16.byte_index_to_position(files, id, byte_index)
}

/// Returns the byte index, from 0, of a position of a file, whose `character` counts UTF-16 code
/// units.
///
/// A position may be at the line's end, after its newline where its range has one; that byte is
/// where the next line starts. The protocol takes a `character` past the line's end as the line's
/// end; here it is an error, whose `max` is the line's end.
///
/// # Examples
///
/// ```rust
/// let file = SimpleFile::new(rt.alloc(), "f", "\na𐐀b")?;
/// let inside = Position {
///     line: 1,
///     character: 2,
/// };
/// assert!(rt;
///     matches!(
///         position_to_byte_index(&file, (), &inside),
///         Err(Error::InvalidCharBoundary { given: 2 })
///     )
/// );
/// ```
///
/// # Errors
///
/// The first of these:
///
/// - That of the lookup of the source and of the line's range, which is [`Error::LineTooLarge`]
///   past the last line.
/// - [`Error::ColumnTooLarge`] past the line's end, in code units: `given` is the position's, `max`
///   the line's.
/// - [`Error::InvalidCharBoundary`] between the code units of a character: `given` is the byte
///   index of that character.
pub fn position_to_byte_index<'files, F: Files<'files>>(
    files: &'files F,
    id: F::FileId,
    position: &Position,
) -> Result<usize, Error>
    ensures value { IfOk result (IsByteAt Utf16 ((F.database files.now).file id) position.now) }
    ensures failed { let database = F.database files.now in
        FailsBy (byte_failure Utf16 (database.file id) (database.failure id) position.now)
        result }
{
    PositionEncoding::Utf16.position_to_byte_index(files, id, position)
}
