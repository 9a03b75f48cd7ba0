//! A file database of one text.

ghost use Rattle.std.specs.Prelude.{◌≡◌, ◌-◌, ◌+◌, ◌^◌, ◌<◌, ◌≤◌};
ghost use Rattle.std.specs.Prelude.{length, refl, IfOk, IsOk, OnOk, OnErr, IsErrOf, None};
ghost use Rattle.std.specs.Str.{IsUtf8};
ghost use Rattle.codespan_core.specs.Lines.{line_starts_of};

use crate::files::{Error, Files, Location, column_index, default_line_number, line_starts};
use std::alloc::Global;
use std::convert::AsStr;
use std::fmt::Display;
use std::ops::Range;

/// A file database of one file: a name and a source, with the line starts of the source. The id is
/// `()`.
///
/// A line starts after each newline and ends where the next one starts, the last one with the
/// source, as in the Rust crate. Line numbers count from 1, and column numbers count characters
/// from 1.
///
/// # Examples
///
/// ```rust
/// let text = "foo\nbar\r\n\nbaz";
/// let starts: Vec<usize> = line_starts(text).collect(rt.alloc())?;
/// assert_eq!(rt; starts.as_slice(), [0, 4, 9, 10].as_slice());
/// let file = SimpleFile::new(rt.alloc(), "f", text)?;
/// for (line, part) in ["foo\n", "bar\r\n", "\n", "baz"].iter().enumerate() {
///     let range = file.line_range((), line)?;
///     assert_eq!(rt; text.get(range), Some(*part), "line {line}");
/// }
/// assert_eq!(rt; file.line_index((), 5)?, 1);
/// assert_eq!(rt; file.line_index((), 99)?, 3);
/// ```
#[derive(Debug, Drop)]
pub struct SimpleFile<Name, Source: AsStr> {
    name: Name,
    source: Source,
    line_starts: Vec<usize>,
    ghost starts: { line_starts.items ≡ line_starts_of (Source.text source) },
    ghost utf8: { ∥ IsUtf8 (Source.text source) ∥₁ },
    ghost fits: { length (Source.text source) < 2 ^ 64 },
}

impl<Name: Drop, Source: AsStr + Drop> SimpleFile<Name, Source> {
    ghost use Rattle.codespan_core.specs.SimpleFileViews.{name_of, source_of};

    /// Returns a database of this name and source.
    ///
    /// # Errors
    ///
    /// [`Error::OutOfMemory`] where an allocation of the line starts fails. Name and source are
    /// then dropped.
    pub fn new(alloc: Global, name: Name, source: Source) -> Result<Self, Error>
        ensures name { IfOk result (λ file. name_of file ≡ name) }
        ensures source { IfOk result (λ file. source_of file ≡ source) }
        ensures failed { OnErr result (IsErrOf result Error.OutOfMemory) }
    {
        let line_starts = line_starts(source.as_str()).collect(alloc)?;
        Ok(SimpleFile {
            name,
            source,
            line_starts,
        })
    }
}

impl<Name, Source: AsStr> SimpleFile<Name, Source> {
    ghost use Rattle.codespan_core.specs.SimpleFileViews.{name_of, source_of, file_text_of};
    ghost use Rattle.codespan_core.specs.SimpleModel.{past_last_line_failure};
    ghost use Rattle.codespan_core.specs.LawfulFiles.{NeedsNoMemory, FailsBy};

    /// Borrows the name.
    pub fn name(&self) -> &Name
        ensures { result.now ≡ name_of self.now }
    {
        &self.name
    }

    /// Borrows the source.
    pub fn source(&self) -> &Source
        ensures { result.now ≡ source_of self.now }
    {
        &self.source
    }

    /// Returns the number of lines of the text, which is at least one. It is this project's own.
    pub fn line_count(&self) -> usize
        ensures value { result ≡ length (line_starts_of (file_text_of self.now)) }
        ensures some { 1 ≤ result }
    {
        self.line_starts.len()
    }

    /// Checks that the text has a line of this index, from 0. It is this project's own.
    ///
    /// # Errors
    ///
    /// [`Error::LineTooLarge`] with `given` the index and `max` that of the last line, where the
    /// text has no such line.
    pub fn check_line(&self, line_index: usize) -> Result<(), Error>
        ensures exists { OnOk result
            (line_index < length (line_starts_of (file_text_of self.now))) }
        ensures failed { FailsBy (past_last_line_failure (file_text_of self.now) line_index)
            result }
        ensures memory { NeedsNoMemory result }
    {
        let count = self.line_count();
        if line_index >= count {
            return Err(Error::LineTooLarge {
                given: line_index,
                max: count - 1,
            });
        }
        Ok(())
    }
}

/// No call allocates. Names are borrowed, since the clone of a name need not display the same text.
impl<'a, Name: Display + 'a, Source: AsStr + 'a> Files<'a> for SimpleFile<Name, Source> {
    ghost use Rattle.codespan_core.specs.SimpleFileViews.{file_of, name_of, file_text_of};
    ghost use Rattle.codespan_core.specs.SimpleModel.{simple_failure, simple_column_number};
    ghost use Rattle.codespan_core.specs.SimpleModel.{simple_location, past_last_line_failure};
    ghost use Rattle.codespan_core.specs.FileModel.{line_of};
    ghost use Rattle.codespan_core.specs.LawfulFiles.{IsLineRange, NeedsNoMemory, FailsBy};
    ghost use Rattle.codespan_core.specs.LawfulFiles.{line_number_failure};
    ghost use Rattle.codespan_core.specs.Lemmas.Simple.{simple_lawful, simple_past_last_line};
    ghost use Rattle.codespan_core.specs.Lemmas.Simple.{text_fits, text_is_utf8};

    /// The one id.
    type FileId = ();

    /// The borrowed name.
    type Name = &'a Name;

    /// The source's borrowed text.
    type Source = &'a str;

    ghost database = { λ s. record {
      same = ⟦<() as PartialEq>⟧.eq;
      file = λ _. file_of Name.output s;
      failure = λ _. simple_failure (file_text_of s);
    } };

    ghost lawful = { λ s _.
        simple_lawful (Name.output (name_of s)) (file_text_of s) (text_is_utf8 s) (text_fits s) };

    ghost same_file = { λ s i j e. (refl, refl) };

    ghost same_is_eq = { λ s. refl };

    ghost past_last_line = { λ s _ i.
        simple_past_last_line (Name.output (name_of s)) (file_text_of s) i };

    /// Returns the file's name. Never fails.
    fn name(&'a self, _id: ()) -> Result<&'a Name, Error>
        ensures succeeds { IsOk result }
        ensures borrowed { IfOk result (λ name. name.now ≡ name_of self.now) }
        ensures value { IfOk result (λ name.
            Name.output name.now ≡ Name.output (name_of self.now)) }
        ensures failed { FailsBy None result }
    {
        Ok(&self.name)
    }

    /// Returns the source's text. Never fails.
    fn source(&'a self, _id: ()) -> Result<&'a str, Error>
        ensures succeeds { IsOk result }
        ensures borrowed { IfOk result (λ text. text.now ≡ file_text_of self.now) }
        ensures failed { FailsBy None result }
    {
        Ok(self.source.as_str())
    }

    /// Returns the index of the byte's line, from 0, by binary search; past the end that of the
    /// last line. Never fails.
    fn line_index(&'a self, _id: (), byte_index: usize) -> Result<usize, Error>
        ensures succeeds { IsOk result }
        ensures value { IfOk result (λ line.
            line ≡ line_of (line_starts_of (file_text_of self.now)) byte_index) }
        ensures failed { FailsBy None result }
    {
        match self.line_starts.binary_search(&byte_index) {
            Ok(line) => Ok(line),
            Err(next_line) => Ok(next_line - 1),
        }
    }

    /// Returns the 0-based index plus 1, as [`default_line_number`] does. The line need not exist.
    ///
    /// # Errors
    ///
    /// Those of [`default_line_number`].
    fn line_number(&'a self, _id: (), line_index: usize) -> Result<usize, Error>
        ensures value { IfOk result (λ number. number ≡ line_index + 1) }
        ensures failed { FailsBy (line_number_failure line_index) result }
        ensures memory { NeedsNoMemory result }
    {
        default_line_number(line_index)
    }

    /// Returns the column number of the byte on the line, in characters from 1. Both indices count
    /// from 0.
    ///
    /// # Errors
    ///
    /// [`Error::LineTooLarge`] with `given` the index and `max` that of the last line, where the
    /// text has no such line.
    fn column_number(&'a self, id: (), line_index: usize, byte_index: usize) -> Result<usize, Error>
        ensures value { IfOk result (λ number.
            number ≡ simple_column_number (file_text_of self.now) line_index byte_index) }
        ensures failed { FailsBy (past_last_line_failure (file_text_of self.now) line_index)
            result }
        ensures memory { NeedsNoMemory result }
    {
        let range = self.line_range(id, line_index)?;
        Ok(column_index(self.source.as_str(), range, byte_index) + 1)
    }

    /// Returns the numbers of the byte's line and of its column there, both from 1. Never fails.
    #[tactic(auto, using(crate::specs::Lemmas::Lines::line_of_below))]
    fn location(&'a self, id: (), byte_index: usize) -> Result<Location, Error>
        ensures succeeds { IsOk result }
        ensures value { IfOk result (λ location.
            location ≡ simple_location (file_text_of self.now) byte_index) }
        ensures failed { FailsBy None result }
    {
        let line_index = self.line_index(id, byte_index)?;
        Ok(Location {
            line_number: self.line_number(id, line_index)?,
            column_number: self.column_number(id, line_index, byte_index)?,
        })
    }

    /// Returns the bytes of the line with its newline, from 0, with an exclusive end. The line
    /// index counts from 0.
    ///
    /// # Errors
    ///
    /// [`Error::LineTooLarge`] with `given` the index and `max` that of the last line, where the
    /// text has no such line.
    fn line_range(&'a self, _id: (), line_index: usize) -> Result<Range<usize>, Error>
        ensures value { IfOk result (IsLineRange (file_of Name.output self.now) line_index) }
        ensures failed { FailsBy (past_last_line_failure (file_text_of self.now) line_index)
            result }
        ensures memory { NeedsNoMemory result }
    {
        self.check_line(line_index)?;
        let start = self.line_starts[line_index];
        let end = if line_index + 1 < self.line_starts.len() {
            self.line_starts[line_index + 1]
        } else {
            self.source.as_str().len()
        };
        Ok(start..end)
    }
}
