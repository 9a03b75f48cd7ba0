//! A custom file database: one text, whose lines are numbered by their indices, from 0.
//!
//! `docs/FILES.md` goes through it step by step.

ghost use Rattle.std.specs.Prelude.{◌≡◌, refl, IfOk, OnErr, IsErrOf, None};

use crate::asserts::{assert_line_too_large, assert_ok};
use codespan_base::files::{Error, Files, Location, SimpleFile};
use std::alloc::Global;
use std::convert::AsStr;
use std::ops::Range;
use std::panic::Expect;

/// A text whose lines are numbered from 0, as a listing of memory is.
#[derive(Drop)]
pub struct Listing<'text> {
    /// The text, with its line starts.
    pub file: SimpleFile<&'text str, &'text str>,
}

impl<'text> Listing<'text> {
    ghost use Rattle.codespan_base.specs.SimpleFileViews.{name_of, source_of};

    /// Returns a listing of this name and text; fails with `OutOfMemory` where an allocation fails.
    pub fn new(alloc: Global, name: &'text str, text: &'text str) -> Result<Self, Error>
        ensures name { IfOk result (λ listing. (name_of listing.file).now ≡ name.now) }
        ensures text { IfOk result (λ listing. (source_of listing.file).now ≡ text.now) }
        ensures failed { OnErr result (IsErrOf result Error.OutOfMemory) }
    {
        Ok(Listing {
            file: SimpleFile::new(alloc, name, text)?,
        })
    }
}

impl<'a, 'text: 'a> Files<'a> for Listing<'text> {
    ghost use Rattle.std.specs.Prelude.{Some};
    ghost use Rattle.codespan_base.specs.SimpleFileViews.{name_of, source_of};
    ghost use Rattle.codespan_base.specs.FileModel.{line_of};
    ghost use Rattle.codespan_base.specs.FileModel.Lookup.{Name as NameLookup};
    ghost use Rattle.codespan_base.specs.FileModel.Lookup.{Source as SourceLookup, LineIndex};
    ghost use Rattle.codespan_base.specs.FileModel.Lookup.{LineNumber, ColumnNumber, LocationAt};
    ghost use Rattle.codespan_base.specs.FileModel.Lookup.{LineRange};
    ghost use Rattle.codespan_base.specs.Lines.{line_starts_of};
    ghost use Rattle.codespan_base.specs.SimpleModel.{simple_file, simple_column_number};
    ghost use Rattle.codespan_base.specs.SimpleModel.{past_last_line_failure};
    ghost use Rattle.codespan_base.specs.Lemmas.Simple.{renumbered_lawful, simple_lawful};
    ghost use Rattle.codespan_base.specs.Lemmas.Simple.{simple_past_last_line, text_fits};
    ghost use Rattle.codespan_base.specs.Lemmas.Simple.{text_is_utf8};

    type FileId = ();

    type Name = &'text str;

    type Source = &'text str;

    // The file of the text, with other numbers. The lookup of a number does not fail.
    ghost database = { λ s. record {
      same = ⟦<() as PartialEq>⟧.eq;
      file = λ _.
          let text = (source_of s.file).now in
          record (simple_file (Some (name_of s.file).now) text) {
            line_number = λ i. i;
            location = λ byte.
                let i = line_of (line_starts_of text) byte in
                record { line_number = i; column_number = simple_column_number text i byte };
          };
      failure = λ _. elim [
        | NameLookup ↦ None
        | SourceLookup ↦ None
        | LineIndex byte ↦ None
        | LineNumber i ↦ None
        | ColumnNumber i byte ↦ past_last_line_failure (source_of s.file).now i
        | LocationAt byte ↦ None
        | LineRange i ↦ past_last_line_failure (source_of s.file).now i
      ];
    } };

    fn name(&'a self, _id: ()) -> Result<&'text str, Error> {
        Ok(*self.file.name())
    }

    fn source(&'a self, _id: ()) -> Result<&'text str, Error> {
        Ok(*self.file.source())
    }

    fn line_index(&'a self, _id: (), byte_index: usize) -> Result<usize, Error> {
        self.file.line_index((), byte_index)
    }

    fn line_number(&'a self, _id: (), line_index: usize) -> Result<usize, Error> {
        Ok(line_index)
    }

    fn column_number(
        &'a self,
        _id: (),
        line_index: usize,
        byte_index: usize,
    ) -> Result<usize, Error> {
        self.file.column_number((), line_index, byte_index)
    }

    // The byte's line exists, so the lookup of its column does not fail.
    #[tactic(auto, using(codespan_base::specs::Lemmas::Lines::line_of_below))]
    fn location(&'a self, id: (), byte_index: usize) -> Result<Location, Error> {
        codespan_base::location_by_default!(self, id, byte_index)
    }

    fn line_range(&'a self, _id: (), line_index: usize) -> Result<Range<usize>, Error> {
        self.file.line_range((), line_index)
    }

    // The lines are those of the file of a text, which is lawful; numbers are free.
    ghost lawful = { λ s _.
        let text = (source_of s.file).now in
        let name = Some (name_of s.file).now in
        renumbered_lawful (simple_file name text) _ _ _
        (simple_lawful name text (text_is_utf8 s.file) (text_fits s.file)) };

    // There is one id.
    ghost same_file = { λ s i j e. (refl, refl) };

    ghost same_is_eq = { λ s. refl };

    // A line past the last fails as in that file.
    ghost past_last_line = { λ s _ i.
        simple_past_last_line (Some (name_of s.file).now) (source_of s.file).now i };
}

#[test]
fn listing_lookups(rt: HostRuntime) {
    let listing = Listing::new(rt.alloc(), "l", "a\nbc\nd").expect(&rt, "a listing");
    assert_ok(&rt, listing.name(()), "l");
    assert_ok(&rt, listing.source(()), "a\nbc\nd");
    assert_ok(&rt, listing.line_number((), 0), 0);
    let location = Location {
        line_number: 1,
        column_number: 2,
    };
    assert_ok(&rt, listing.location((), 3), location);
    assert_line_too_large(&rt, listing.line_range((), 3), (3, 2));
}
