//! Texts cut at newlines.

ghost use Rattle.std.specs.Prelude.{◌≡◌, IfOk};
ghost use Rattle.codespan_base.specs.FileModel.{line_of};
ghost use Rattle.codespan_base.specs.LawfulFiles.{FailsBy};
ghost use Rattle.codespan_native.specs.SourceTexts.{IsSourceLineRange, newline_text};
ghost use Rattle.codespan_native.specs.SourceTexts.{source_line_failure};

use crate::error::OutOfMemory;
use codespan_base::files::{Error, Files, SimpleFile};
use std::alloc::Global;
use std::ops::Range;

/// A text whose lines start after newlines. Their numbers count on from the lines of the file
/// before it, up to [`usize::MAX`].
#[derive(Drop)]
pub struct NewlineText<'a> {
    /// The name, the text and its lines.
    file: SimpleFile<&'a str, &'a str>,
    /// The index in the file, from 0, of the first line of the text: the number of lines before it.
    first_line: usize,
}

impl<'a> NewlineText<'a> {
    ghost use Rattle.codespan_native.specs.SourceModel.{newline_view};

    /// Returns a source with a name, cut at newlines. `first_line` is the index in the file, from
    /// 0, of its first line.
    ///
    /// # Errors
    ///
    /// [`OutOfMemory`] where an allocation fails.
    pub fn new(
        alloc: Global,
        name: &'a str,
        source: &'a str,
        first_line: usize,
    ) -> Result<NewlineText<'a>, OutOfMemory>
        ensures { IfOk result (λ text.
            newline_view text ≡ newline_text name.now source.now first_line) }
    {
        match SimpleFile::new(alloc, name, source) {
            Ok(file) => Ok(NewlineText { file, first_line }),
            Err(_) => Err(OutOfMemory),
        }
    }

    /// Returns the name.
    pub fn name(&self) -> &'a str
        ensures { result.now ≡ (newline_view self.now).name }
    {
        *self.file.name()
    }

    /// Returns the source.
    pub fn source(&self) -> &'a str
        ensures { result.now ≡ (newline_view self.now).source }
    {
        *self.file.source()
    }

    /// Returns the number of the line of this index, which counts from 0 and need not exist.
    pub fn line_number(&self, line_index: usize) -> usize
        ensures { result ≡ (newline_view self.now).number line_index }
    {
        self.first_line.saturating_add(line_index).saturating_add(1)
    }

    /// Returns the index of the byte's line, from 0. The byte index counts from 0, in the source.
    pub fn line_index(&self, byte_index: usize) -> usize
        ensures { result ≡ line_of (newline_view self.now).starts byte_index }
    {
        match self.file.line_index((), byte_index) {
            Ok(line_index) => line_index,
            // `SimpleFile::line_index` does not fail.
            Err(_) => 0,
        }
    }

    /// Returns the bytes of the line of this index, in the source, from 0, with an exclusive end.
    /// The line index counts from 0.
    ///
    /// # Errors
    ///
    /// [`Error::LineTooLarge`] where there is no such line.
    pub fn line_range(&self, line_index: usize) -> Result<Range<usize>, Error>
        ensures value { IfOk result (IsSourceLineRange (newline_view self.now) line_index) }
        ensures failed { FailsBy (source_line_failure (newline_view self.now).starts line_index)
            result }
    {
        self.file.line_range((), line_index)
    }
}
