//! Texts cut into lines.

ghost use Rattle.std.specs.Prelude.{◌≡◌, IfOk};
ghost use Rattle.codespan_base.specs.FileModel.{line_of};
ghost use Rattle.codespan_base.specs.LawfulFiles.{FailsBy};
ghost use Rattle.codespan_native.specs.SourceTexts.{IsSourceLineRange, source_line_failure};

use crate::native_file::{NewlineText, StatedText};
use codespan_base::files::Error;
use std::ops::Range;

/// A file's name and its source, cut into numbered lines.
#[derive(Drop)]
pub enum SourceText<'a> {
    /// Cut at newlines.
    Newline(NewlineText<'a>),
    /// Cut into lines that the caller states.
    Stated(StatedText<'a>),
}

impl<'a> SourceText<'a> {
    ghost use Rattle.codespan_native.specs.SourceModel.{source_text_view};

    /// Returns the name.
    pub fn name(&self) -> &'a str
        ensures { result.now ≡ (source_text_view self.now).name }
    {
        match self {
            SourceText::Newline(text) => text.name(),
            SourceText::Stated(text) => text.name(),
        }
    }

    /// Returns the source.
    pub fn source(&self) -> &'a str
        ensures { result.now ≡ (source_text_view self.now).source }
    {
        match self {
            SourceText::Newline(text) => text.source(),
            SourceText::Stated(text) => text.source(),
        }
    }

    /// Returns the index of the byte's line, from 0. The byte index counts from 0, in the source.
    pub fn line_index(&self, byte_index: usize) -> usize
        ensures { result ≡ line_of (source_text_view self.now).starts byte_index }
    {
        match self {
            SourceText::Newline(text) => text.line_index(byte_index),
            SourceText::Stated(text) => text.line_index(byte_index),
        }
    }

    /// Returns the number of the line of this index, which counts from 0.
    pub fn line_number(&self, line_index: usize) -> usize
        ensures { result ≡ (source_text_view self.now).number line_index }
    {
        match self {
            SourceText::Newline(text) => text.line_number(line_index),
            SourceText::Stated(text) => text.line_number(line_index),
        }
    }

    /// Returns the bytes of the line of this index, in the source, from 0, with an exclusive end.
    /// The line index counts from 0.
    ///
    /// # Errors
    ///
    /// [`Error::LineTooLarge`] where there is no such line.
    pub fn line_range(&self, line_index: usize) -> Result<Range<usize>, Error>
        ensures value { IfOk result (IsSourceLineRange (source_text_view self.now) line_index) }
        ensures failed { FailsBy
            (source_line_failure (source_text_view self.now).starts line_index) result }
    {
        match self {
            SourceText::Newline(text) => text.line_range(line_index),
            SourceText::Stated(text) => text.line_range(line_index),
        }
    }
}
