//! A file database as users write their own: one text, whose lines are numbered by their indices,
//! and some of whose lookups fail.

ghost use Rattle.std.specs.Prelude.{◌≡◌, refl, None, Some};
ghost use Rattle.codespan_tests.specs.Listings.{is_at, is_from_index};

use codespan_reporting::files::{Error, Files, Location, SimpleFile};
use std::alloc::Global;
use std::ops::Range;

/// Which lookups fail. Each fails with `ColumnTooLarge`: `given` is the number of its kind, and
/// `max` the line or the byte that was looked up, or 0. Both are 0-based indices.
#[derive(Drop, Default)]
pub struct FailedLookups {
    /// The name; `given` is 1.
    pub name: bool,
    /// The source; `given` is 2.
    pub source: bool,
    /// The location of any byte; `given` is 3.
    pub location: bool,
    /// The line of this byte, and of those after it; `given` is 4.
    pub line_index: Option<usize>,
    /// The number of this line; `given` is 5.
    pub line_number: Option<usize>,
    /// The range of this line; `given` is 6. A line past the end fails with `LineTooLarge`.
    pub line_range: Option<usize>,
}

/// A text whose lines are numbered from 0.
#[derive(Drop)]
pub struct Listing<'text> {
    file: SimpleFile<&'text str, &'text str>,
    failed: FailedLookups,
}

impl<'text> Listing<'text> {
    /// Returns the text under this name, with these failing lookups.
    ///
    /// # Errors
    ///
    /// `OutOfMemory`: an allocation fails.
    pub fn new(
        alloc: Global,
        name: &'text str,
        text: &'text str,
        failed: FailedLookups,
    ) -> Result<Self, Error> {
        Ok(Listing {
            file: SimpleFile::new(alloc, name, text)?,
            failed,
        })
    }
}

/// Returns the error of a lookup of this kind.
fn failure(kind: usize, position: usize) -> Error
    ensures { result ≡ Error.ColumnTooLarge kind position }
{
    Error::ColumnTooLarge {
        given: kind,
        max: position,
    }
}

/// Returns whether the lookup of this index is the one that fails.
fn is_at(failed: Option<usize>, position: usize) -> bool
    ensures { result ≡ is_at failed position }
{
    match failed {
        Some(failed) => position == failed,
        None => false,
    }
}

/// Returns whether the lookup of this index is one of those that fail.
fn is_from_index(failed: Option<usize>, position: usize) -> bool
    ensures { result ≡ is_from_index failed position }
{
    match failed {
        Some(failed) => failed <= position,
        None => false,
    }
}

impl<'a, 'text: 'a> Files<'a> for Listing<'text> {
    ghost use Rattle.codespan_base.specs.SimpleFileViews.{name_of, source_of};
    ghost use Rattle.codespan_base.specs.FileModel.{line_of, or_failure};
    ghost use Rattle.codespan_base.specs.FileModel.Lookup.{Name as NameLookup};
    ghost use Rattle.codespan_base.specs.FileModel.Lookup.{Source as SourceLookup, LineIndex};
    ghost use Rattle.codespan_base.specs.FileModel.Lookup.{LineNumber, ColumnNumber, LocationAt};
    ghost use Rattle.codespan_base.specs.FileModel.Lookup.{LineRange};
    ghost use Rattle.codespan_base.specs.Lines.{line_starts_of};
    ghost use Rattle.codespan_base.specs.SimpleModel.{simple_file, simple_column_number};
    ghost use Rattle.codespan_base.specs.SimpleModel.{past_last_line_failure};
    ghost use Rattle.codespan_base.specs.Lemmas.Simple.{or_failure-past_last_line};
    ghost use Rattle.codespan_base.specs.Lemmas.Simple.{renumbered_lawful, simple_lawful};
    ghost use Rattle.codespan_base.specs.Lemmas.Simple.{simple_past_last_line, text_fits};
    ghost use Rattle.codespan_base.specs.Lemmas.Simple.{text_is_utf8};
    ghost use Rattle.codespan_tests.specs.Listings.{is_at, is_from_index, failed_if};
    ghost use Rattle.codespan_tests.specs.Listings.{failed_if-other};

    type FileId = ();

    type Name = &'text str;

    type Source = &'text str;

    // The file of the text, with other numbers.
    ghost database = { λ s. record {
      same = ⟦<() as PartialEq>⟧.eq;
      file = λ _.
          let text = (source_of s.file).now in
          record (simple_file (Some (name_of s.file).now) text) {
            line_number = λ i. i;
            location = λ byte.
                let i = line_of (line_starts_of text) byte in
                record { line_number = i; column_number = simple_column_number text i byte };
          };
      failure = λ _. elim [
        | NameLookup ↦ failed_if s.failed.name 1 0
        | SourceLookup ↦ failed_if s.failed.source 2 0
        | LineIndex byte ↦ failed_if (is_from_index s.failed.line_index byte) 4 byte
        | LineNumber i ↦ failed_if (is_at s.failed.line_number i) 5 i
        | ColumnNumber i byte ↦ past_last_line_failure (source_of s.file).now i
        | LocationAt byte ↦ failed_if s.failed.location 3 byte
        | LineRange i ↦ or_failure (past_last_line_failure (source_of s.file).now i)
            (failed_if (is_at s.failed.line_range i) 6 i)
      ];
    } };

    fn name(&'a self, _id: ()) -> Result<&'text str, Error> {
        if self.failed.name {
            return Err(failure(1, 0));
        }
        Ok(*self.file.name())
    }

    fn source(&'a self, _id: ()) -> Result<&'text str, Error> {
        if self.failed.source {
            return Err(failure(2, 0));
        }
        Ok(*self.file.source())
    }

    fn line_index(&'a self, _id: (), byte_index: usize) -> Result<usize, Error> {
        if is_from_index(self.failed.line_index, byte_index) {
            return Err(failure(4, byte_index));
        }
        self.file.line_index((), byte_index)
    }

    fn line_number(&'a self, _id: (), line_index: usize) -> Result<usize, Error> {
        if is_at(self.failed.line_number, line_index) {
            return Err(failure(5, line_index));
        }
        Ok(line_index)
    }

    fn column_number(
        &'a self,
        _id: (),
        line_index: usize,
        byte_index: usize,
    ) -> Result<usize, Error> {
        self.file.column_number((), line_index, byte_index)
    }

    // The byte's line is a line of the file, so the lookup of its column succeeds.
    #[tactic(auto, using(codespan_base::specs::Lemmas::Lines::line_of_below))]
    fn location(&'a self, _id: (), byte_index: usize) -> Result<Location, Error> {
        if self.failed.location {
            return Err(failure(3, byte_index));
        }
        let line_index = self.file.line_index((), byte_index)?;
        Ok(Location {
            line_number: line_index,
            column_number: self.file.column_number((), line_index, byte_index)?,
        })
    }

    fn line_range(&'a self, _id: (), line_index: usize) -> Result<Range<usize>, Error> {
        let range = self.file.line_range((), line_index)?;
        if is_at(self.failed.line_range, line_index) {
            return Err(failure(6, line_index));
        }
        Ok(range)
    }

    // The lines are those of the file of a text, which is lawful; numbers are free.
    ghost lawful = { λ s _.
        let text = (source_of s.file).now in
        let name = Some (name_of s.file).now in
        renumbered_lawful (simple_file name text) _ _ _
        (simple_lawful name text (text_is_utf8 s.file) (text_fits s.file)) };

    // There is one id.
    ghost same_file = { λ s i j e. (refl, refl) };

    ghost same_is_eq = { λ s. refl };

    // A line past the last one fails as in its `SimpleFile`.
    ghost past_last_line = { λ s _ i.
        let text = (source_of s.file).now in
        let name = Some (name_of s.file).now in
        or_failure-past_last_line (simple_file name text) i (past_last_line_failure text i) _
        (failed_if-other (is_at s.failed.line_range i) 6 i) (simple_past_last_line name text i) };
}
