//! A file that a caller of C passes: a text cut into lines, with locations that the caller states.

ghost use Rattle.std.specs.Prelude.{◌≡◌, true, IfOk, None};
ghost use Rattle.codespan_base.specs.FileModel.{line_of};
ghost use Rattle.codespan_base.specs.LawfulFiles.{FailsBy};
ghost use Rattle.codespan_native.specs.StatedLines.{locations_ascend, location_at};
ghost use Rattle.codespan_native.specs.SourceTexts.{IsSourceLineRange, source_column};
ghost use Rattle.codespan_native.specs.SourceTexts.{native_file_model, source_line_failure};

mod newline;
mod stated;
mod text;

use crate::raw::RawLocation;
use codespan_base::files::{Error, Location, column_index};
pub use newline::NewlineText;
pub use stated::StatedText;
use std::ops::Range;
pub use text::SourceText;

/// A file: a text cut into lines, and locations that the caller states.
#[derive(Drop)]
pub struct NativeFile<'a> {
    /// The text, with its name and its lines.
    text: SourceText<'a>,
    /// Byte index in the file, from 0, of the first byte of the text.
    first_byte: usize,
    /// The locations that the caller states, in strictly ascending order of their bytes.
    locations: &'a [RawLocation],
    ghost ascending: { locations_ascend first_byte locations.now ≡ true },
}

impl<'a> NativeFile<'a> {
    ghost use Rattle.codespan_native.specs.SourceModel.{source_text_view, native_file_view};

    /// Returns the file of a text, which starts at the byte `first_byte` of the file, with these
    /// locations.
    ///
    /// # Requires
    ///
    /// The bytes of the locations ascend strictly. A byte index before `first_byte` counts as
    /// `first_byte`.
    pub fn new(
        text: SourceText<'a>,
        first_byte: usize,
        locations: &'a [RawLocation],
    ) -> NativeFile<'a>
        requires { locations_ascend first_byte locations.now ≡ true }
        ensures text { (native_file_view result).text ≡ source_text_view text.entry }
        ensures stated { (native_file_view result).stated_location
            ≡ location_at first_byte locations.now }
    {
        NativeFile {
            text,
            first_byte,
            locations,
        }
    }

    /// Returns the name.
    pub fn name(&self) -> &'a str
        ensures { result.now ≡ (native_file_view self.now).text.name }
    {
        self.text.name()
    }

    /// Returns the source.
    pub fn source(&self) -> &'a str
        ensures { result.now ≡ (native_file_view self.now).text.source }
    {
        self.text.source()
    }

    /// Returns the index of the byte's line, from 0. The byte index counts from 0, in the source.
    pub fn line_index(&self, byte_index: usize) -> usize
        ensures { result ≡ line_of (native_file_view self.now).text.starts byte_index }
    {
        self.text.line_index(byte_index)
    }

    /// Returns the number of the line of this index, which counts from 0.
    pub fn line_number(&self, line_index: usize) -> usize
        ensures { result ≡ (native_file_view self.now).text.number line_index }
    {
        self.text.line_number(line_index)
    }

    /// Returns the bytes of the line of this index, in the source, from 0, with an exclusive end.
    /// The line index counts from 0.
    ///
    /// # Errors
    ///
    /// [`Error::LineTooLarge`] where there is no such line.
    pub fn line_range(&self, line_index: usize) -> Result<Range<usize>, Error>
        ensures value { IfOk result
            (IsSourceLineRange (native_file_view self.now).text line_index) }
        ensures failed { FailsBy
            (source_line_failure (native_file_view self.now).text.starts line_index) result }
    {
        self.text.line_range(line_index)
    }

    /// Returns the column number of a byte on the line of this index, in characters from 1. Both
    /// indices count from 0.
    ///
    /// # Errors
    ///
    /// [`Error::LineTooLarge`] where there is no such line.
    pub fn column_number(&self, line_index: usize, byte_index: usize) -> Result<usize, Error>
        ensures value { IfOk result (λ column.
            column ≡ source_column (native_file_view self.now).text line_index byte_index) }
        ensures failed { FailsBy
            (source_line_failure (native_file_view self.now).text.starts line_index) result }
    {
        let range = self.line_range(line_index)?;
        Ok(column_index(self.source(), range, byte_index) + 1)
    }

    /// Returns the location that the caller states for a byte, by binary search.
    fn stated_location(&self, byte_index: usize) -> Option<Location>
        ensures { result ≡ (native_file_view self.now).stated_location byte_index }
    {
        let first_byte = self.first_byte;
        match self.locations.binary_search_by_key(
            &byte_index,
            |location| location.byte.saturating_sub(first_byte),
        ) {
            Ok(index) => {
                let location = &self.locations[index];
                Some(Location {
                    line_number: location.line_number,
                    column_number: location.column_number,
                })
            }
            Err(_) => None,
        }
    }

    /// Returns the location of a byte: the one that the caller states, or else the computed one.
    /// The byte index counts from 0, in the source.
    ///
    /// # Errors
    ///
    /// The contract allows only [`Error::OutOfMemory`], since each byte has a line. Nothing is
    /// allocated, so it does not occur.
    #[tactic(auto, using(crate::proofs::FileLines::byte_has_line))]
    pub fn location(&self, byte_index: usize) -> Result<Location, Error>
        ensures value { IfOk result (λ location.
            location ≡ (native_file_model (native_file_view self.now)).location byte_index) }
        ensures failed { FailsBy None result }
    {
        match self.stated_location(byte_index) {
            Some(location) => Ok(location),
            None => {
                let line_index = self.line_index(byte_index);
                Ok(Location {
                    line_number: self.line_number(line_index),
                    column_number: self.column_number(line_index, byte_index)?,
                })
            }
        }
    }
}
