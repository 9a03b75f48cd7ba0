//! A file database that allocates at each lookup of a line's range.

ghost use Rattle.std.specs.Prelude.{refl, Some};

use codespan_base::files::{Error, Files, Location, SimpleFile};
use std::alloc::Global;
use std::ops::Range;

/// One file that allocates at each lookup of a line's range, as a database that reads its text from
/// a disk would.
#[derive(Drop)]
pub struct Copying<'text> {
    file: SimpleFile<&'text str, &'text str>,
    alloc: Global,
}

impl<'text> Copying<'text> {
    /// Returns the file of this name and text.
    ///
    /// # Errors
    ///
    /// `OutOfMemory` if an allocation fails.
    pub fn new(alloc: Global, name: &'text str, text: &'text str) -> Result<Self, Error> {
        Ok(Copying {
            file: SimpleFile::new(alloc, name, text)?,
            alloc,
        })
    }
}

impl<'a, 'text: 'a> Files<'a> for Copying<'text> {
    ghost use Rattle.codespan_base.specs.SimpleFileViews.{name_of, source_of};
    ghost use Rattle.codespan_base.specs.SimpleModel.{simple_file, simple_failure};
    ghost use Rattle.codespan_base.specs.Lemmas.Simple.{simple_lawful, simple_past_last_line};
    ghost use Rattle.codespan_base.specs.Lemmas.Simple.{text_fits, text_is_utf8};

    type FileId = ();

    type Name = &'text str;

    type Source = &'text str;

    ghost database = { λ s. record {
      same = ⟦<() as PartialEq>⟧.eq;
      file = λ _. simple_file (Some (name_of s.file).now) (source_of s.file).now;
      failure = λ _. simple_failure (source_of s.file).now;
    } };

    fn name(&'a self, _id: ()) -> Result<&'text str, Error> {
        Ok(*self.file.name())
    }

    fn source(&'a self, _id: ()) -> Result<&'text str, Error> {
        Ok(*self.file.source())
    }

    fn line_index(&'a self, _id: (), byte_index: usize) -> Result<usize, Error> {
        self.file.line_index((), byte_index)
    }

    fn line_number(&'a self, _id: (), line_index: usize) -> Result<usize, Error> {
        self.file.line_number((), line_index)
    }

    fn column_number(
        &'a self,
        _id: (),
        line_index: usize,
        byte_index: usize,
    ) -> Result<usize, Error> {
        self.file.column_number((), line_index, byte_index)
    }

    fn location(&'a self, _id: (), byte_index: usize) -> Result<Location, Error> {
        self.file.location((), byte_index)
    }

    // The copy is made only to allocate, and is dropped.
    fn line_range(&'a self, _id: (), line_index: usize) -> Result<Range<usize>, Error> {
        let _copy = String::from_str(self.alloc, *self.file.source())?;
        self.file.line_range((), line_index)
    }

    ghost lawful = { λ s _.
        simple_lawful (Some (name_of s.file).now) (source_of s.file).now
        (text_is_utf8 s.file) (text_fits s.file) };

    // There is one id.
    ghost same_file = { λ s i j e. (refl, refl) };

    ghost same_is_eq = { λ s. refl };

    ghost past_last_line = { λ s _ i.
        simple_past_last_line (Some (name_of s.file).now) (source_of s.file).now i };
}
