//! Lines and columns of the bytes of a text.

ghost use Rattle.std.specs.Prelude.{◌≡◌, ◌<◌, ◌≤◌, length, slice_index, IfOk};
ghost use Rattle.codespan_core.specs.FileModel.{line_of};
ghost use Rattle.codespan_core.specs.Lines.{line_starts_of};
ghost use Rattle.codespan_suggestions.specs.LineColumns.{line_number, byte_column};

use codespan_core::files::line_starts;
use std::alloc::{AllocError, Global};

/// A line and a column of it.
#[derive(Clone, Copy)]
pub(crate) struct LineColumn {
    /// The number of the line, from 1.
    pub(crate) line: usize,
    /// The number of the column, in bytes from 1.
    pub(crate) column: usize,
}

/// A text, with the byte indices at which its lines start.
#[derive(Drop)]
pub(crate) struct TextLines<'a> {
    text: &'a str,
    starts: Vec<usize>,
    ghost of_text: { starts.items ≡ line_starts_of text.now },
}

impl<'a> TextLines<'a> {
    /// Finds the lines of a text.
    pub(crate) fn new(alloc: Global, text: &'a str) -> Result<Self, AllocError>
        ensures { IfOk result (λ lines. lines.text.now ≡ text.now) }
    {
        Ok(TextLines {
            text,
            starts: line_starts(text).collect(alloc)?,
        })
    }

    /// Returns the line and the column of a byte.
    pub(crate) fn line_column(&self, byte: usize) -> LineColumn
        requires { byte ≤ length self.now.text.now }
        ensures line { result.line ≡ line_number self.now.text.now byte }
        ensures column { result.column ≡ byte_column self.now.text.now byte }
    {
        let index = self.line_index(byte);
        LineColumn {
            line: index + 1,
            column: byte - self.starts[index] + 1,
        }
    }

    /// Returns the index of the line of a byte, both from 0.
    fn line_index(&self, byte: usize) -> usize
        ensures value { result ≡ line_of (line_starts_of self.now.text.now) byte }
        ensures inside { result < length self.now.starts.items }
        ensures start { slice_index self.now.starts.items result ≤ byte }
    {
        match self.starts.binary_search(&byte) {
            Ok(index) => index,
            Err(next) => next - 1,
        }
    }
}
