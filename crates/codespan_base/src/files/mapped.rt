//! A file database of one text whose line numbers can be set, as `#line` does in C.

ghost use Rattle.std.specs.Prelude.{◌≡◌, ◌≤◌, [], refl, IfOk, IsOk, IfErr, IfSome};
ghost use Rattle.std.specs.Prelude.{OnOk, OnErr, IsErrOf, None, option_map};
ghost use Rattle.codespan_core.specs.Lines.{line_starts_of};
ghost use Rattle.codespan_base.specs.SetLineNumbers.{set_number_view, set_number_views};
ghost use Rattle.codespan_base.specs.SetLineNumbers.{IsStrictlySorted, IsSetAt, IsInsertionPoint};

use codespan_core::files::{Error, Files, Location, SimpleFile, column_index, default_line_number};
use std::alloc::Global;
use std::convert::AsStr;
use std::fmt::Display;
use std::ops::Range;

/// A file database of one file, whose line numbers can be set as `#line` does in C. The id is `()`.
/// The Rust crate has no such database.
///
/// A line whose number is set has that number, and the lines after it count on from there, up to
/// the next line whose number is set. Before the first such line they count from 1. A line starts
/// after each newline and ends before its own, the last one with the source. Column numbers count
/// characters from 1.
///
/// # Examples
///
/// ```rust
/// let mut file = MappedFile::new(rt.alloc(), "m", "a\nb\nc\nd")?;
/// file.set_line(2, 100)?;
/// for (line, number) in [(0, 1), (1, 2), (2, 100), (3, 101)] {
///     assert_eq!(rt; file.line_number((), line)?, number, "line {line}");
/// }
/// ```
#[derive(Debug, Drop)]
pub struct MappedFile<Name, Source: AsStr> {
    file: SimpleFile<Name, Source>,
    // In the order of their line indices.
    numbers: Vec<SetNumber>,
    ghost sorted: { IsStrictlySorted (set_number_views numbers.items) },
}

/// A set line number.
#[derive(Clone, Copy, Debug)]
struct SetNumber {
    /// The index of the line, from 0.
    line_index: usize,
    /// The number of the line.
    number: usize,
}

impl<Name: Drop, Source: AsStr + Drop> MappedFile<Name, Source> {
    ghost use Rattle.codespan_base.specs.MappedFileViews.{mapped_name_of, mapped_source_of};
    ghost use Rattle.codespan_base.specs.MappedFileViews.{set_numbers_of};

    /// Returns a database of this name and source, with no line number set.
    ///
    /// # Errors
    ///
    /// [`Error::OutOfMemory`] where an allocation of the line starts fails. Name and source are
    /// then dropped.
    pub fn new(alloc: Global, name: Name, source: Source) -> Result<Self, Error>
        ensures name { IfOk result (λ file. mapped_name_of file ≡ name) }
        ensures source { IfOk result (λ file. mapped_source_of file ≡ source) }
        ensures numbers { IfOk result (λ file. set_numbers_of file ≡ []) }
        ensures failed { OnErr result (IsErrOf result Error.OutOfMemory) }
    {
        Ok(MappedFile {
            file: SimpleFile::new(alloc, name, source)?,
            numbers: Vec::new(alloc),
        })
    }
}

impl<Name, Source: AsStr> MappedFile<Name, Source> {
    ghost use Rattle.codespan_base.specs.MappedFileViews.{mapped_name_of, mapped_source_of};
    ghost use Rattle.codespan_base.specs.MappedFileViews.{mapped_text_of, set_numbers_of};
    ghost use Rattle.codespan_core.specs.LawfulFiles.{FailsBy};
    ghost use Rattle.codespan_core.specs.SimpleModel.{past_last_line_failure};
    ghost use Rattle.codespan_base.specs.MappedModel.{nearest_set, with_set_number};

    /// Sets the number of the line at this index, from 0; replaces an earlier one. The law
    /// [`codespan_base::laws::set_numbers_count_on`] states what becomes of the other lines.
    ///
    /// # Errors
    ///
    /// Where the call fails, no number changes.
    ///
    /// - [`Error::LineTooLarge`] with `given` the index and `max` that of the last line, where the
    ///   text has no such line.
    /// - [`Error::OutOfMemory`] where an allocation fails.
    pub fn set_line(&mut self, line_index: usize, number: usize) -> Result<(), Error>
        ensures name { mapped_name_of self.new ≡ mapped_name_of self.old }
        ensures source { mapped_source_of self.new ≡ mapped_source_of self.old }
        ensures ok { OnOk result (set_numbers_of self.new
            ≡ with_set_number line_index number (set_numbers_of self.old)) }
        ensures err { OnErr result (set_numbers_of self.new ≡ set_numbers_of self.old) }
        ensures failed { FailsBy (past_last_line_failure (mapped_text_of self.old) line_index)
            result }
    {
        self.file.check_line(line_index)?;
        let set_number = SetNumber { line_index, number };
        match self.search(line_index) {
            Ok(at) => self.numbers[at] = set_number,
            Err(at) => self.numbers.insert(at, set_number)?,
        }
        Ok(())
    }

    /// Returns the index of the line's number among the set numbers, or, as `Err`, the index at
    /// which it would be inserted.
    fn search(&self, line_index: usize) -> Result<usize, usize>
        ensures found { IfOk result (IsSetAt (set_numbers_of self.now) line_index) }
        ensures absent { IfErr result (IsInsertionPoint (set_numbers_of self.now) line_index) }
    {
        self.numbers
            .binary_search_by_key(&line_index, |set_number| set_number.line_index)
    }

    /// Returns the set number that this line counts from; `None` where no number is set at the line
    /// or above it.
    fn nearest(&self, line_index: usize) -> Option<SetNumber>
        ensures value { option_map set_number_view result
            ≡ nearest_set (set_numbers_of self.now) line_index }
        ensures below { IfSome result (λ set_number. set_number.line_index ≤ line_index) }
    {
        match self.search(line_index) {
            Ok(at) => Some(self.numbers[at]),
            Err(0) => None,
            Err(at) => Some(self.numbers[at - 1]),
        }
    }
}

/// No call allocates. Names are borrowed, since the clone of a name need not display the same text.
impl<'a, Name: Display + 'a, Source: AsStr + 'a> Files<'a> for MappedFile<Name, Source> {
    ghost use Rattle.codespan_base.specs.MappedFileViews.{mapped_failure_of, mapped_file_of};
    ghost use Rattle.codespan_base.specs.MappedFileViews.{mapped_name_of, mapped_text_of};
    ghost use Rattle.codespan_base.specs.MappedFileViews.{set_numbers_of};
    ghost use Rattle.codespan_core.specs.SimpleModel.{past_last_line_failure};
    ghost use Rattle.codespan_base.specs.MappedModel.{mapped_column_number, mapped_location};
    ghost use Rattle.codespan_base.specs.MappedModel.{number_from, nearest_set};
    ghost use Rattle.codespan_core.specs.FileModel.{line_of};
    ghost use Rattle.codespan_core.specs.LawfulFiles.{IsLineRange, NeedsNoMemory, FailsBy};
    ghost use Rattle.codespan_core.specs.FileModel.Lookup.{LineNumber, LocationAt};
    ghost use Rattle.codespan_base.specs.Lemmas.Mapped.{mapped_lawful, mapped_past_last_line};
    ghost use Rattle.codespan_core.specs.Lemmas.Simple.{text_fits, text_is_utf8};

    /// The one id.
    type FileId = ();

    /// The borrowed name.
    type Name = &'a Name;

    /// The source's borrowed text.
    type Source = &'a str;

    ghost database = { λ s. record {
      same = ⟦<() as PartialEq>⟧.eq;
      file = λ _. mapped_file_of Name.output s;
      failure = λ _. mapped_failure_of s;
    } };

    ghost lawful = { λ s _.
        mapped_lawful (Name.output (mapped_name_of s)) (mapped_text_of s) (set_numbers_of s)
        (text_is_utf8 s.file) (text_fits s.file) };

    ghost same_file = { λ s i j e. (refl, refl) };

    ghost same_is_eq = { λ s. refl };

    ghost past_last_line = { λ s _ i.
        mapped_past_last_line (Name.output (mapped_name_of s)) (mapped_text_of s)
        (set_numbers_of s) i };

    /// Returns the file's name. Never fails.
    fn name(&'a self, _id: ()) -> Result<&'a Name, Error>
        ensures succeeds { IsOk result }
        ensures borrowed { IfOk result (λ name. name.now ≡ mapped_name_of self.now) }
        ensures value { IfOk result (λ name.
            Name.output name.now ≡ Name.output (mapped_name_of self.now)) }
        ensures failed { FailsBy None result }
    {
        Ok(self.file.name())
    }

    /// Returns the source's text. Never fails.
    fn source(&'a self, _id: ()) -> Result<&'a str, Error>
        ensures succeeds { IsOk result }
        ensures borrowed { IfOk result (λ text. text.now ≡ mapped_text_of self.now) }
        ensures failed { FailsBy None result }
    {
        Ok(self.file.source().as_str())
    }

    /// Returns the index of the byte's line, from 0, by binary search; past the end that of the
    /// last line. Never fails.
    fn line_index(&'a self, id: (), byte_index: usize) -> Result<usize, Error>
        ensures succeeds { IsOk result }
        ensures value { IfOk result (λ line.
            line ≡ line_of (line_starts_of (mapped_text_of self.now)) byte_index) }
        ensures failed { FailsBy None result }
    {
        self.file.line_index(id, byte_index)
    }

    /// Returns the set number that the line counts from, the nearest at or above it, plus the
    /// number of lines from there to the line, by binary search. Where no number is set there,
    /// returns the 0-based index plus 1. The line need not exist.
    ///
    /// # Errors
    ///
    /// [`Error::LineTooLarge`] where the number does not fit into a `usize`, with `given` the index
    /// and `max` the greatest index that counts from the same set number and whose number fits;
    /// where no number is set at or above the line, that of [`default_line_number`].
    fn line_number(&'a self, _id: (), line_index: usize) -> Result<usize, Error>
        ensures value { IfOk result (λ number.
            number ≡ number_from (nearest_set (set_numbers_of self.now) line_index) line_index) }
        ensures failed { FailsBy (mapped_failure_of self.now (LineNumber line_index)) result }
        ensures memory { NeedsNoMemory result }
    {
        let Some(nearest) = self.nearest(line_index) else {
            return default_line_number(line_index);
        };
        match nearest.number.checked_add(line_index - nearest.line_index) {
            Some(number) => Ok(number),
            None => Err(Error::LineTooLarge {
                given: line_index,
                max: nearest.line_index + (usize::MAX - nearest.number),
            }),
        }
    }

    /// Returns the column number of the byte on the line, in characters from 1. Both indices count
    /// from 0.
    ///
    /// # Errors
    ///
    /// [`Error::LineTooLarge`] with `given` the index and `max` that of the last line, where the
    /// text has no such line.
    fn column_number(&'a self, id: (), line_index: usize, byte_index: usize) -> Result<usize, Error>
        ensures value { IfOk result (λ number.
            number ≡ mapped_column_number (mapped_text_of self.now) line_index byte_index) }
        ensures failed { FailsBy (past_last_line_failure (mapped_text_of self.now) line_index)
            result }
        ensures memory { NeedsNoMemory result }
    {
        let range = self.line_range(id, line_index)?;
        Ok(column_index(self.file.source().as_str(), range, byte_index) + 1)
    }

    /// Returns the number of the byte's line, and of its column there in characters from 1.
    ///
    /// # Errors
    ///
    /// Those of `line_number` of the byte's line.
    #[tactic(auto, using(crate::specs::Lemmas::Lines::line_of_below))]
    fn location(&'a self, id: (), byte_index: usize) -> Result<Location, Error>
        ensures value { IfOk result (λ location.
            location ≡ mapped_location (mapped_text_of self.now) (set_numbers_of self.now)
            byte_index) }
        ensures failed { FailsBy (mapped_failure_of self.now (LocationAt byte_index)) result }
        ensures memory { NeedsNoMemory result }
    {
        let line_index = self.line_index(id, byte_index)?;
        Ok(Location {
            line_number: self.line_number(id, line_index)?,
            column_number: self.column_number(id, line_index, byte_index)?,
        })
    }

    /// Returns the bytes of the line without its newline, from 0, with an exclusive end. The line
    /// index counts from 0.
    ///
    /// # Errors
    ///
    /// [`Error::LineTooLarge`] with `given` the index and `max` that of the last line, where the
    /// text has no such line.
    #[tactic(auto, using(crate::specs::Lemmas::Mapped::mapped_range))]
    fn line_range(&'a self, id: (), line_index: usize) -> Result<Range<usize>, Error>
        ensures value { IfOk result (IsLineRange (mapped_file_of Name.output self.now) line_index) }
        ensures failed { FailsBy (past_last_line_failure (mapped_text_of self.now) line_index)
            result }
        ensures memory { NeedsNoMemory result }
    {
        let range = self.file.line_range(id, line_index)?;
        if line_index + 1 < self.file.line_count() {
            Ok(range.start..range.end - 1)
        } else {
            Ok(range)
        }
    }
}
