//! A file database of two files: a document, and the schema that it is checked by.

ghost use Rattle.std.specs.Prelude.{◌≡◌, refl, IfOk, OnErr, IsErrOf};
ghost use Rattle.examples.specs.Parts.{of_part, part_name};
ghost use Rattle.codespan_base.specs.SimpleFileViews.{source_of};

use codespan_reporting::files::{Error, Files, Location, SimpleFile, default_line_number};
use std::alloc::Global;
use std::fmt;
use std::ops::Range;

/// One of the two files: its id, and its name too.
#[derive(Clone, Copy, PartialEq, Eq)]
pub enum Part {
    /// The schema.
    Schema,
    /// The document.
    Document,
}

impl fmt::Display for Part {
    ghost output = { part_name };

    fn fmt<W: fmt::Write>(&self, f: &mut fmt::Formatter<W>) -> fmt::Result {
        match self {
            Part::Schema => write!(f, "schema"),
            Part::Document => write!(f, "document"),
        }
    }
}

/// A document and its schema. No id names a file that is missing.
#[derive(Drop)]
pub struct Checked<'text> {
    /// The schema, with its line starts.
    pub schema: SimpleFile<Part, &'text str>,
    /// The document, with its line starts.
    pub document: SimpleFile<Part, &'text str>,
}

impl<'text> Checked<'text> {
    /// Returns the database of these two texts.
    ///
    /// # Errors
    ///
    /// `OutOfMemory`: an allocation fails.
    pub fn new(alloc: Global, schema: &'text str, document: &'text str) -> Result<Self, Error>
        ensures schema { IfOk result (λ c. (source_of c.schema).now ≡ schema.now) }
        ensures document { IfOk result (λ c. (source_of c.document).now ≡ document.now) }
        ensures failed { OnErr result (IsErrOf result Error.OutOfMemory) }
    {
        Ok(Checked {
            schema: SimpleFile::new(alloc, Part::Schema, schema)?,
            document: SimpleFile::new(alloc, Part::Document, document)?,
        })
    }

    /// Returns the file of a part.
    pub fn file(&self, part: Part) -> &SimpleFile<Part, &'text str>
        ensures { result.now ≡ of_part self.now.schema self.now.document part }
    {
        match part {
            Part::Schema => &self.schema,
            Part::Document => &self.document,
        }
    }
}

impl<'a, 'text: 'a> Files<'a> for Checked<'text> {
    ghost use Rattle.codespan_base.specs.SimpleModel.{simple_file, simple_failure};
    ghost use Rattle.codespan_base.specs.Lemmas.Simple.{simple_lawful, simple_past_last_line};
    ghost use Rattle.codespan_base.specs.Lemmas.Simple.{text_fits, text_is_utf8};
    ghost use Rattle.examples.specs.Parts.{one_part};

    type FileId = Part;

    type Name = Part;

    type Source = &'text str;

    // The id of a file is its part, which is its name too.
    ghost database = { λ s. record {
      same = ⟦<Part as PartialEq>⟧.eq;
      file = λ id. simple_file (part_name id) (source_of (of_part s.schema s.document id)).now;
      failure = λ id. simple_failure (source_of (of_part s.schema s.document id)).now;
    } };

    fn name(&'a self, id: Part) -> Result<Part, Error> {
        Ok(id)
    }

    fn source(&'a self, id: Part) -> Result<&'text str, Error> {
        Ok(*self.file(id).source())
    }

    fn line_index(&'a self, id: Part, byte_index: usize) -> Result<usize, Error> {
        self.file(id).line_index((), byte_index)
    }

    fn line_number(&'a self, _id: Part, line_index: usize) -> Result<usize, Error> {
        default_line_number(line_index)
    }

    fn column_number(
        &'a self,
        id: Part,
        line_index: usize,
        byte_index: usize,
    ) -> Result<usize, Error> {
        self.file(id).column_number((), line_index, byte_index)
    }

    fn location(&'a self, id: Part, byte_index: usize) -> Result<Location, Error> {
        self.file(id).location((), byte_index)
    }

    fn line_range(&'a self, id: Part, line_index: usize) -> Result<Range<usize>, Error> {
        self.file(id).line_range((), line_index)
    }

    // The file of a text is lawful.
    ghost lawful = { λ s id.
        let file = of_part s.schema s.document id in
        simple_lawful (part_name id) (source_of file).now (text_is_utf8 file) (text_fits file) };

    // Equal ids are one part.
    ghost same_file = { λ s i j e.
        rw (one_part ⟦<Part as PartialEq>⟧.eq (λ h. absurd (cc)) (λ h. absurd (cc)) i j e)
        (refl, refl) };

    ghost same_is_eq = { λ s. refl };

    // A line past the last one fails as in its `SimpleFile`.
    ghost past_last_line = { λ s id i.
        simple_past_last_line (part_name id) (source_of (of_part s.schema s.document id)).now i };
}
