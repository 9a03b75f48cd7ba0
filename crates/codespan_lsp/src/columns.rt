//! Columns of a line in code units, from bytes of its text and back.

ghost use Rattle.std.specs.Prelude.{◌≡◌, ◌+◌, ◌^◌, ◌<◌, ◌≤◌, length};
ghost use Rattle.std.specs.Prelude.{slice_range, encode_utf8_all, IfOk};
ghost use Rattle.std.specs.Str.{chars, IsCharBoundary};
ghost use Rattle.codespan_base.specs.LawfulFiles.{FailsBy};
ghost use Rattle.codespan_lsp.specs.Units.{code_units, total_units, prefix_within};
ghost use Rattle.codespan_lsp.specs.Positions.{byte_column_failure, character_failure};

use crate::encoding::PositionEncoding;
use codespan_base::files::Error;
use std::ops::Range;

impl PositionEncoding {
    /// Returns the number of code units of a line of the text before a byte. `line` and
    /// `byte_index` are in bytes of the text, from 0; the end of `line` is exclusive.
    ///
    /// # Errors
    ///
    /// - [`Error::ColumnTooLarge`] past the line's end, in bytes from the line's start.
    /// - [`Error::InvalidCharBoundary`] inside a character: `given` is the byte index.
    ///
    /// # Requires
    ///
    /// The line starts at a boundary of characters and does not end before its start. The byte is
    /// not before the line's start.
    pub(crate) fn units_before(
        self,
        text: &str,
        line: Range<usize>,
        byte_index: usize,
    ) -> Result<usize, Error>
        requires start { IsCharBoundary text.now line.start }
        requires end { line.start ≤ line.end }
        requires byte { line.start ≤ byte_index }
        ensures value { IfOk result (λ units.
            units ≡ code_units self (slice_range text.now line.start byte_index)) }
        ensures failed { FailsBy (byte_column_failure text.now line.start line.end byte_index)
            result }
    {
        if byte_index > line.end {
            return Err(Error::ColumnTooLarge {
                given: byte_index - line.start,
                max: line.end - line.start,
            });
        }
        if !text.is_char_boundary(byte_index) {
            return Err(Error::InvalidCharBoundary { given: byte_index });
        }
        Ok(self.code_units(&text[line.start..byte_index]))
    }

    /// Returns the byte index, from 0, of a character of a line, whose text starts at the byte
    /// `line_start`: the one after `character` code units.
    ///
    /// # Errors
    ///
    /// - [`Error::ColumnTooLarge`] past the line's end, in code units.
    /// - [`Error::InvalidCharBoundary`] between the code units of a character: `given` is the byte
    ///   index of that character.
    ///
    /// # Requires
    ///
    /// The byte index of the line's end fits a `usize`.
    pub(crate) fn byte_of_character(
        self,
        line_start: usize,
        line: &str,
        character: usize,
    ) -> Result<usize, Error>
        requires { line_start + length line.now < 2 ^ 64 }
        ensures value { let prefix = prefix_within self character (chars line.now) in
            IfOk result (λ byte. byte ≡ line_start + length (encode_utf8_all prefix)) }
        ensures units { let prefix = prefix_within self character (chars line.now) in
            IfOk result (λ byte. total_units self prefix ≡ character) }
        ensures failed { FailsBy (character_failure self line_start line.now character) result }
    {
        let prefix = self.prefix_within(character, line);
        if prefix.units == character {
            Ok(line_start + prefix.len)
        } else if prefix.len == line.len() {
            Err(Error::ColumnTooLarge {
                given: character,
                max: prefix.units,
            })
        } else {
            Err(Error::InvalidCharBoundary {
                given: line_start + prefix.len,
            })
        }
    }
}
