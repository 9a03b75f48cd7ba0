//! Texts of stated lines.

ghost use Rattle.std.specs.Prelude.{◌≡◌, ◌^◌, ◌<◌, true, length, IfOk};
ghost use Rattle.std.specs.Str.{IsUtf8};
ghost use Rattle.codespan_base.specs.FileModel.{line_of};
ghost use Rattle.codespan_base.specs.LawfulFiles.{FailsBy};
ghost use Rattle.codespan_native.specs.StatedLines.{are_lines};
ghost use Rattle.codespan_native.specs.SourceTexts.{IsSourceLineRange, stated_text};
ghost use Rattle.codespan_native.specs.SourceTexts.{source_line_failure};

use crate::raw::RawLine;
use codespan_base::files::Error;
use std::ops::Range;

/// A text of lines that the caller states: a file, or a window of one from a byte on.
#[derive(Drop)]
pub struct StatedText<'a> {
    /// The name of the file.
    name: &'a str,
    /// The text.
    source: &'a str,
    /// Byte index in the file, from 0, of the first byte of `source`.
    first_byte: usize,
    /// The lines, with byte indices in the file.
    lines: &'a [RawLine],
    ghost utf8: { ∥ IsUtf8 source.now ∥₁ },
    ghost fits: { length source.now < 2 ^ 64 },
    ghost cut: { are_lines source.now first_byte lines.now ≡ true },
}

impl<'a> StatedText<'a> {
    ghost use Rattle.codespan_native.specs.SourceModel.{stated_view};

    /// Returns a source with a name, cut into these lines.
    ///
    /// # Requires
    ///
    /// The lines are one at least, start with the source, ascend without overlap and end inside it,
    /// at character boundaries. A byte index before `first_byte` counts as `first_byte`.
    pub fn new(
        name: &'a str,
        source: &'a str,
        first_byte: usize,
        lines: &'a [RawLine],
    ) -> StatedText<'a>
        requires { are_lines source.now first_byte lines.now ≡ true }
        ensures { stated_view result ≡ stated_text name.now source.now first_byte lines.now }
    {
        StatedText {
            name,
            source,
            first_byte,
            lines,
        }
    }

    /// Returns the name.
    pub fn name(&self) -> &'a str
        ensures { result.now ≡ (stated_view self.now).name }
    {
        self.name
    }

    /// Returns the source.
    pub fn source(&self) -> &'a str
        ensures { result.now ≡ (stated_view self.now).source }
    {
        self.source
    }

    /// Returns the index of the byte's line, from 0, by binary search. The byte index counts from
    /// 0, in the source.
    pub fn line_index(&self, byte_index: usize) -> usize
        ensures { result ≡ line_of (stated_view self.now).starts byte_index }
    {
        let first_byte = self.first_byte;
        self.lines
            .partition_point(|line| line.start.saturating_sub(first_byte) <= byte_index)
            - 1
    }

    /// Returns the number of the line of this index, which counts from 0; 0 where there is none.
    pub fn line_number(&self, line_index: usize) -> usize
        ensures { result ≡ (stated_view self.now).number line_index }
    {
        match self.lines.get(line_index) {
            Some(line) => line.number,
            None => 0,
        }
    }

    /// Returns the bytes of the line of this index, in the source, from 0, with an exclusive end.
    /// The line index counts from 0.
    ///
    /// # Errors
    ///
    /// [`Error::LineTooLarge`] where there is no such line.
    pub fn line_range(&self, line_index: usize) -> Result<Range<usize>, Error>
        ensures value { IfOk result (IsSourceLineRange (stated_view self.now) line_index) }
        ensures failed { FailsBy (source_line_failure (stated_view self.now).starts line_index)
            result }
    {
        match self.lines.get(line_index) {
            Some(line) => {
                let start = line.start.saturating_sub(self.first_byte);
                let end = line.end.saturating_sub(self.first_byte);
                Ok(start..end)
            }
            None => Err(Error::LineTooLarge {
                given: line_index,
                max: self.lines.len() - 1,
            }),
        }
    }
}
