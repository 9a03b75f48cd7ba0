//! A file database of many files, each a name and a source.

ghost use Rattle.std.specs.Prelude.{◌≡◌, ◌+◌, ◌<◌, ◌++◌, ◌∷◌, ◌↔◌};
ghost use Rattle.std.specs.Prelude.{[], IfOk, IfErr, IfSome, IsOk, OnOk, OnErr, IsErrOf, length};
ghost use Rattle.std.specs.Prelude.{refl, slice_get, Some, None};
ghost use Rattle.codespan_core.specs.declared.files.Error.TheVariants.{OutOfMemory, FileMissing};

use codespan_core::files::{Error, Files, Location, SimpleFile, default_line_number};
use std::alloc::Global;
use std::convert::AsStr;
use std::fmt::Display;
use std::ops::Range;

/// A file database of many files, each a [`SimpleFile`]. Ids count from 0, in the order in which
/// the files are added.
///
/// # Examples
///
/// ```rust
/// let mut files = SimpleFiles::new(alloc);
/// let id = files.add("settings.conf", "retries = many\n")?;
/// let label = Label::primary(alloc, id, 10..14).with_message("expected a number")?;
/// ```
#[derive(Debug, Drop)]
pub struct SimpleFiles<Name, Source: AsStr> {
    files: Vec<SimpleFile<Name, Source>>,
}

impl<Name: Drop, Source: AsStr + Drop> SimpleFiles<Name, Source> {
    ghost use Rattle.codespan_base.specs.SimpleFilesViews.{entries};

    /// Returns a database without files. Does not allocate.
    pub fn new(alloc: Global) -> Self
        ensures { entries result ≡ [] }
    {
        SimpleFiles {
            files: Vec::new(alloc),
        }
    }

    /// Adds a file of this name and source at the end, and returns its id.
    ///
    /// # Errors
    ///
    /// [`Error::OutOfMemory`] where an allocation fails. The database is then unchanged, and name
    /// and source are dropped.
    pub fn add(&mut self, name: Name, source: Source) -> Result<usize, Error>
        ensures id { IfOk result (λ id. id ≡ length (entries self.old)) }
        ensures ok { OnOk result (entries self.new ≡ entries self.old ++ (name, source) ∷ []) }
        ensures err { OnErr result (entries self.new ≡ entries self.old) }
        ensures failed { OnErr result (IsErrOf result OutOfMemory) }
    {
        let id = self.files.len();
        let file = SimpleFile::new(*self.files.allocator(), name, source)?;
        self.files.push(file)?;
        Ok(id)
    }
}

impl<Name, Source: AsStr> SimpleFiles<Name, Source> {
    ghost use Rattle.codespan_base.specs.SimpleFilesViews.{entries};
    ghost use Rattle.codespan_core.specs.SimpleFileViews.{name_of, source_of};

    /// Borrows the file of an id.
    ///
    /// # Errors
    ///
    /// [`Error::FileMissing`] exactly where the id is not below the number of files.
    pub fn get(&self, id: usize) -> Result<&SimpleFile<Name, Source>, Error>
        ensures succeeds { IsOk result ↔ (id < length (entries self.now)) }
        ensures found { IfOk result (λ file.
            slice_get (entries self.now) id ≡ Some (name_of file.now, source_of file.now)) }
        ensures missing { IfErr result (λ e.
            (slice_get (entries self.now) id ≡ None) × (e ≡ FileMissing)) }
    {
        self.files.get(id).ok_or(Error::FileMissing)
    }
}

/// No call allocates. Each call but `line_number` looks the file up.
impl<'a, Name: Display + 'a, Source: AsStr + 'a> Files<'a> for SimpleFiles<Name, Source> {
    ghost use Rattle.codespan_base.specs.SimpleFilesViews.{entries, database_failure_of};
    ghost use Rattle.codespan_base.specs.SimpleFilesViews.{database_file_of};
    ghost use Rattle.codespan_core.specs.SimpleFileViews.{name_of, source_of, file_text_of};
    ghost use Rattle.codespan_core.specs.SimpleModel.{simple_failure};
    ghost use Rattle.codespan_core.specs.FileModel.{line_of};
    ghost use Rattle.codespan_core.specs.LawfulFiles.{IsLineRange, NeedsNoMemory, FailsBy};
    ghost use Rattle.codespan_core.specs.LawfulFiles.{line_number_failure};
    ghost use Rattle.codespan_core.specs.FileModel.Lookup.{Name as NameLookup};
    ghost use Rattle.codespan_core.specs.FileModel.Lookup.{Source as SourceLookup, LineIndex};
    ghost use Rattle.codespan_core.specs.FileModel.Lookup.{LineNumber, ColumnNumber, LocationAt};
    ghost use Rattle.codespan_core.specs.FileModel.Lookup.{LineRange};
    ghost use Rattle.codespan_core.specs.Lemmas.Simple.{simple_lawful, simple_past_last_line};
    ghost use Rattle.codespan_core.specs.Lemmas.Simple.{text_fits, text_is_utf8};
    ghost use Rattle.codespan_core.specs.Lemmas.Missing.{database_lawful, past_last_line_or};
    ghost use Rattle.codespan_core.specs.Lemmas.Missing.{same_at};

    /// The index of a file, from 0.
    type FileId = usize;

    /// The borrowed name.
    type Name = &'a Name;

    /// The source's borrowed text.
    type Source = &'a str;

    ghost database = { λ s. record {
      same = ⟦<usize as PartialEq>⟧.eq;
      file = database_file_of Name.output s;
      failure = database_failure_of s;
    } };

    ghost lawful = { λ s id.
        database_lawful (λ f. (name_of f, source_of f)) _ s.files.items id (λ f.
        simple_lawful (Name.output (name_of f)) (file_text_of f) (text_is_utf8 f) (text_fits f)) };

    ghost same_file = { λ s i j e.
        same_at (database_file_of Name.output s) (database_failure_of s) i j e };

    ghost same_is_eq = { λ s. refl };

    ghost past_last_line = { λ s id i.
        past_last_line_or _ (λ entry. simple_failure (Source.text entry.1)) i
        (slice_get (entries s) id)
        (λ entry. simple_past_last_line (Name.output entry.0) (Source.text entry.1) i) };

    /// Returns the file's name.
    ///
    /// # Errors
    ///
    /// [`Error::FileMissing`] where the id is not below the number of files.
    fn name(&'a self, id: usize) -> Result<&'a Name, Error>
        ensures borrowed { IfOk result (λ name.
            IfSome (slice_get (entries self.now) id) (λ entry. name.now ≡ entry.0)) }
        ensures value { IfOk result (λ name.
            Name.output name.now ≡ (database_file_of Name.output self.now id).name) }
        ensures failed { FailsBy (database_failure_of self.now id NameLookup) result }
        ensures memory { NeedsNoMemory result }
    {
        Ok(self.get(id)?.name())
    }

    /// Returns the source's text.
    ///
    /// # Errors
    ///
    /// [`Error::FileMissing`] where the id is not below the number of files.
    fn source(&'a self, id: usize) -> Result<&'a str, Error>
        ensures value { IfOk result (λ text.
            text.now ≡ (database_file_of Name.output self.now id).text) }
        ensures failed { FailsBy (database_failure_of self.now id SourceLookup) result }
        ensures memory { NeedsNoMemory result }
    {
        Ok(self.get(id)?.source().as_str())
    }

    /// Returns the index of the byte's line, from 0, by binary search; past the end that of the
    /// last line.
    ///
    /// # Errors
    ///
    /// [`Error::FileMissing`] where the id is not below the number of files.
    fn line_index(&'a self, id: usize, byte_index: usize) -> Result<usize, Error>
        ensures value { IfOk result (λ line.
            line ≡ line_of (database_file_of Name.output self.now id).starts byte_index) }
        ensures failed { FailsBy (database_failure_of self.now id (LineIndex byte_index)) result }
        ensures memory { NeedsNoMemory result }
    {
        self.get(id)?.line_index((), byte_index)
    }

    /// Returns the 0-based index plus 1, as [`default_line_number`] does. Neither the file nor the
    /// line need exist.
    ///
    /// # Errors
    ///
    /// Those of [`default_line_number`].
    fn line_number(&'a self, id: usize, line_index: usize) -> Result<usize, Error>
        ensures number { IfOk result (λ number. number ≡ line_index + 1) }
        ensures default { FailsBy (line_number_failure line_index) result }
        ensures value { IfOk result (λ number.
            number ≡ (database_file_of Name.output self.now id).line_number line_index) }
        ensures failed { FailsBy (database_failure_of self.now id (LineNumber line_index)) result }
        ensures memory { NeedsNoMemory result }
    {
        default_line_number(line_index)
    }

    /// Returns the column number of the byte on the line, in characters from 1. Both indices count
    /// from 0.
    ///
    /// # Errors
    ///
    /// - [`Error::FileMissing`] where the id is not below the number of files.
    /// - [`Error::LineTooLarge`] with `given` the index and `max` that of the last line, where the
    ///   file has no such line.
    fn column_number(
        &'a self,
        id: usize,
        line_index: usize,
        byte_index: usize,
    ) -> Result<usize, Error>
        ensures value { IfOk result (λ number.
            number
            ≡ (database_file_of Name.output self.now id).column_number line_index byte_index) }
        ensures failed { FailsBy
            (database_failure_of self.now id (ColumnNumber line_index byte_index)) result }
        ensures memory { NeedsNoMemory result }
    {
        self.get(id)?.column_number((), line_index, byte_index)
    }

    /// Returns the numbers of the byte's line and of its column there, both from 1.
    ///
    /// # Errors
    ///
    /// [`Error::FileMissing`] where the id is not below the number of files.
    fn location(&'a self, id: usize, byte_index: usize) -> Result<Location, Error>
        ensures value { IfOk result (λ location.
            location ≡ (database_file_of Name.output self.now id).location byte_index) }
        ensures failed { FailsBy (database_failure_of self.now id (LocationAt byte_index)) result }
        ensures memory { NeedsNoMemory result }
    {
        self.get(id)?.location((), byte_index)
    }

    /// Returns the bytes of the line with its newline, from 0, with an exclusive end. The line
    /// index counts from 0.
    ///
    /// # Errors
    ///
    /// - [`Error::FileMissing`] where the id is not below the number of files.
    /// - [`Error::LineTooLarge`] with `given` the index and `max` that of the last line, where the
    ///   file has no such line.
    fn line_range(&'a self, id: usize, line_index: usize) -> Result<Range<usize>, Error>
        ensures value { IfOk result
            (IsLineRange (database_file_of Name.output self.now id) line_index) }
        ensures failed { FailsBy (database_failure_of self.now id (LineRange line_index)) result }
        ensures memory { NeedsNoMemory result }
    {
        self.get(id)?.line_range((), line_index)
    }
}
