//! The lookups that rendering makes, and file databases.
//!
//! [`Files`] is the trait of file databases. This module has one implementation, [`SimpleFile`], of
//! one text; `codespan_base` adds `SimpleFiles`, of many texts, and `MappedFile`, of one whose line
//! numbers can be set as `#line` does in C. Implement [`Files`] for any other database, such as one
//! over the sources that a compiler holds.
//!
//! Line indices and byte indices count from 0, and the end of a range is exclusive. Line numbers
//! and column numbers are for users.

ghost use Rattle.std.specs.Prelude.{◌≡◌, true, Option, IfOk, ℕ};
ghost use Rattle.codespan_core.specs.LawfulFiles.{FailsBy};

mod defaults;
mod error;
mod lines;
mod newline;
mod simple;
mod starts;

pub use defaults::default_line_number;
pub use error::Error;
pub use lines::{column_index, line_starts};
pub use simple::SimpleFile;
pub use starts::LineStarts;
use std::convert::AsStr;
use std::fmt::Display;
use std::ops::Range;

/// A location in a file, as users see it. Returned by [`Files::location`].
#[derive(Clone, Copy, Debug, PartialEq, Eq)]
pub struct Location {
    /// The line's number, in most databases from 1.
    pub line_number: usize,
    /// The column's number, in most databases in characters from 1.
    pub column_number: usize,
}

/// A file database: the lookups that rendering makes.
///
/// The lifetime `'a` lets an implementation return names and sources that are borrowed from itself.
///
/// # The law
///
/// The ghost member `database` says what a database returns: which ids are equal, the file of an
/// id, and the error of each lookup. Each call returns what `database` says, so a result depends on
/// the database and on the arguments alone. Only [`Error::OutOfMemory`] is free: any call may
/// return it where an allocation fails. An implementation proves this and the following, and the
/// contracts of rendering rest on it:
///
/// - A file is a name, a text, a strictly ascending list of line starts, and an end for each line.
///   Lines are counted from 0 by their indices, and offsets are bytes of the text. The text is
///   UTF-8, and shorter than 2^64 bytes, as each `str` is.
/// - The first line starts at byte 0. Starts and ends are character boundaries of the text. A
///   line's end is not before its start, nor after the next line's start.
/// - Ids are equal where the `==` of `FileId` says so. Equal ids have one file and the same errors.
/// - `line_index` returns the last line whose start is not after the byte; past the end of the text
///   that is the last line.
/// - `line_range` returns a line's start and end. Of a file that exists it fails with
///   [`Error::LineTooLarge`] exactly where the index is not below the number of lines.
/// - An id that names no file has a model too: `exists` is false, the name is the empty text, and
///   the text is empty.
/// - Line numbers, column numbers and locations are free: they are what `database` says.
///
/// A name is the text that its `Display` states; where it states none, nothing is known of it.
///
/// # Examples
///
/// A database of two files, from a crate that also defines `Part` and `Checked`, and in its specs/
/// `part_name`, `of_part` and `one_part`. The guide on file databases goes through another one step
/// by step.
///
/// ```rust
/// impl<'a, 'text: 'a> Files<'a> for Checked<'text> {
///     ghost use Rattle.codespan_base.specs.SimpleModel.{simple_file, simple_failure};
///     ghost use Rattle.codespan_base.specs.Lemmas.Simple.{simple_lawful, simple_past_last_line};
///     ghost use Rattle.codespan_base.specs.Lemmas.Simple.{text_fits, text_is_utf8};
///     ghost use Rattle.examples.specs.Parts.{one_part};
///
///     type FileId = Part;
///
///     type Name = Part;
///
///     type Source = &'text str;
///
///     // A part is the file of its name and of its text.
///     ghost database = { λ s. record {
///       same = ⟦<Part as PartialEq>⟧.eq;
///       file = λ id. simple_file (part_name id) (source_of (of_part s.schema s.document id)).now;
///       failure = λ id. simple_failure (source_of (of_part s.schema s.document id)).now;
///     } };
///
///     fn name(&'a self, id: Part) -> Result<Part, Error> {
///         Ok(id)
///     }
///
///     fn source(&'a self, id: Part) -> Result<&'text str, Error> {
///         Ok(*self.file(id).source())
///     }
///
///     fn line_index(&'a self, id: Part, byte_index: usize) -> Result<usize, Error> {
///         self.file(id).line_index((), byte_index)
///     }
///
///     fn line_number(&'a self, _id: Part, line_index: usize) -> Result<usize, Error> {
///         default_line_number(line_index)
///     }
///
///     fn column_number(
///         &'a self,
///         id: Part,
///         line_index: usize,
///         byte_index: usize,
///     ) -> Result<usize, Error> {
///         self.file(id).column_number((), line_index, byte_index)
///     }
///
///     fn location(&'a self, id: Part, byte_index: usize) -> Result<Location, Error> {
///         self.file(id).location((), byte_index)
///     }
///
///     fn line_range(&'a self, id: Part, line_index: usize) -> Result<Range<usize>, Error> {
///         self.file(id).line_range((), line_index)
///     }
///
///     // The file of a text is lawful.
///     ghost lawful = { λ s id.
///         let file = of_part s.schema s.document id in
///         simple_lawful (part_name id) (source_of file).now
///             (text_is_utf8 file) (text_fits file) };
///
///     // Equal ids are one part.
///     ghost same_file = { λ s i j e.
///         rw (one_part ⟦<Part as PartialEq>⟧.eq (λ h. absurd (cc)) (λ h. absurd (cc)) i j e)
///         (refl, refl) };
///
///     ghost same_is_eq = { λ s. refl };
///
///     // A line past the last one fails as in its `SimpleFile`.
///     ghost past_last_line = { λ s id i.
///         simple_past_last_line (part_name id)
///             (source_of (of_part s.schema s.document id)).now i };
/// }
/// ```
pub trait Files<'a> {
    ghost use Rattle.codespan_core.specs.declared.files.error.Error.{Error};
    ghost use Rattle.codespan_core.specs.FileModel.{FileDatabase, line_of};
    ghost use Rattle.codespan_core.specs.LawfulFiles.{IsLawful, FailsPastLastLine, IsLineRange};
    ghost use Rattle.codespan_core.specs.FileModel.Lookup.{Name, Source, LineIndex, LineNumber};
    ghost use Rattle.codespan_core.specs.FileModel.Lookup.{ColumnNumber, LocationAt, LineRange};

    /// The type of ids. Equal ids are ids of one file.
    type FileId: 'a + Copy + Eq;

    /// The type of a file's name, as users see it.
    type Name: 'a + Display + Drop;

    /// The type of a file's text.
    type Source: 'a + AsStr + Drop;

    /// Which ids are equal, the file of an id, and the error of each lookup of it,
    /// [`Error::OutOfMemory`] aside.
    ghost database: { Self → FileDatabase Self.FileId };

    /// Returns the file's name, as users see it.
    ///
    /// # Errors
    ///
    /// - The error that `database` states, such as [`Error::FileMissing`] where there is no such
    ///   file.
    /// - [`Error::OutOfMemory`] where an allocation fails.
    fn name(&'a self, id: Self::FileId) -> Result<Self::Name, Error>
        ensures value { IfOk result (λ n. Self.Name.output n ≡ ((database self.now).file id).name) }
        ensures failed { FailsBy ((database self.now).failure id Name) result };

    /// Returns the file's text.
    ///
    /// # Errors
    ///
    /// - The error that `database` states, such as [`Error::FileMissing`] where there is no such
    ///   file, or another one where the text cannot be read.
    /// - [`Error::OutOfMemory`] where an allocation fails.
    fn source(&'a self, id: Self::FileId) -> Result<Self::Source, Error>
        ensures value { IfOk result (λ s. Self.Source.text s ≡ ((database self.now).file id).text) }
        ensures failed { FailsBy ((database self.now).failure id Source) result };

    /// Returns the index of the byte's line, from 0. `byte_index` is in bytes of the text, from 0.
    /// No byte index is too large: past the end of the text the line is the last one. The rule is
    /// the Rust crate's.
    ///
    /// Keep the starts that [`line_starts`] returns, and search among them, as [`SimpleFile`] does.
    ///
    /// # Errors
    ///
    /// - The error that `database` states, such as [`Error::FileMissing`] where there is no such
    ///   file.
    /// - [`Error::OutOfMemory`] where an allocation fails.
    fn line_index(&'a self, id: Self::FileId, byte_index: usize) -> Result<usize, Error>
        ensures value { IfOk result (λ i.
            i ≡ line_of ((database self.now).file id).starts byte_index) }
        ensures failed { FailsBy ((database self.now).failure id (LineIndex byte_index)) result };

    /// Returns the number of a line as users see it, in most databases the 0-based index plus 1, as
    /// [`default_line_number`] has it.
    ///
    /// The file need not be looked up for it, and the line need not exist. A database may number
    /// its lines otherwise, as [`MappedFile`](codespan_reporting::files::MappedFile) does.
    ///
    /// # Errors
    ///
    /// - The error that `database` states, such as [`Error::LineTooLarge`] where the number does
    ///   not fit into a `usize` or the line has none.
    /// - [`Error::OutOfMemory`] where an allocation fails.
    fn line_number(&'a self, id: Self::FileId, line_index: usize) -> Result<usize, Error>
        ensures value { IfOk result (λ n.
            n ≡ ((database self.now).file id).line_number line_index) }
        ensures failed { FailsBy ((database self.now).failure id (LineNumber line_index)) result };

    /// Returns the column number of a byte on a line as users see it: in most databases the
    /// characters from the line's start to the byte, counted from 1, as
    /// [`default_column_number`](codespan_reporting::files::default_column_number) has it. Both
    /// indices count from 0. An implementation cannot call that function, since its proof would
    /// then rest on itself;
    /// [`column_number_by_default!`](codespan_base::column_number_by_default) expands to its body.
    ///
    /// # Errors
    ///
    /// - The error that `database` states: in most databases that of `source` or `line_range`.
    /// - [`Error::OutOfMemory`] where an allocation fails.
    fn column_number(
        &'a self,
        id: Self::FileId,
        line_index: usize,
        byte_index: usize,
    ) -> Result<usize, Error>
        ensures value { IfOk result (λ n.
            n ≡ ((database self.now).file id).column_number line_index byte_index) }
        ensures failed { FailsBy
            ((database self.now).failure id (ColumnNumber line_index byte_index)) result };

    /// Returns the line number and the column number of a byte, as users see them: in most
    /// databases as [`default_location`](codespan_reporting::files::default_location) has it. The
    /// byte index counts from 0. An implementation cannot call that function, since its proof
    /// would then rest on itself; [`location_by_default!`](codespan_base::location_by_default)
    /// expands to its body.
    ///
    /// # Errors
    ///
    /// - The error that `database` states: in most databases that of `line_index`, `line_number` or
    ///   `column_number`.
    /// - [`Error::OutOfMemory`] where an allocation fails.
    fn location(&'a self, id: Self::FileId, byte_index: usize) -> Result<Location, Error>
        ensures value { IfOk result (λ p. p ≡ ((database self.now).file id).location byte_index) }
        ensures failed { FailsBy ((database self.now).failure id (LocationAt byte_index)) result };

    /// Returns the bytes of a line, from 0, with an exclusive end. Whether they have the line's
    /// newline is up to the database.
    ///
    /// # Errors
    ///
    /// - [`Error::LineTooLarge`] where the file exists and has no such line, and for no line that
    ///   the file has.
    /// - Any other error that `database` states, such as [`Error::FileMissing`] where there is no
    ///   such file.
    /// - [`Error::OutOfMemory`] where an allocation fails.
    fn line_range(&'a self, id: Self::FileId, line_index: usize) -> Result<Range<usize>, Error>
        ensures value { IfOk result (IsLineRange ((database self.now).file id) line_index) }
        ensures failed { FailsBy ((database self.now).failure id (LineRange line_index)) result };

    /// Each file is cut into lines.
    ghost lawful: { (s : Self) (id : Self.FileId) → IsLawful ((database s).file id) };

    /// Equal ids have one file and the same errors.
    ghost same_file: { (s : Self) (i j : Self.FileId) → (database s).same i j ≡ true
        → ((database s).file i ≡ (database s).file j)
        × ((database s).failure i ≡ (database s).failure j) };

    /// Ids are equal where `==` says so.
    ghost same_is_eq: { (s : Self) → (database s).same ≡ Self.FileId.eq };

    /// Of a file that exists, `line_range` fails with [`Error::LineTooLarge`] exactly past the last
    /// line.
    ghost past_last_line: { (s : Self) (id : Self.FileId) (i : ℕ) →
        FailsPastLastLine ((database s).file id) i ((database s).failure id (LineRange i)) };
}
