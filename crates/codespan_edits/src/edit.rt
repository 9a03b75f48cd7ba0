//! An edit as data.

ghost use Rattle.std.specs.Prelude.{◌≡◌, IfOk, IfSome, IfErr, OnErr, IsErrOf, string_bytes};
ghost use Rattle.codespan_core.specs.Diagnostics.{IsDisplayError};
ghost use Rattle.codespan_edits.specs.Edits.{text_edit};

use codespan_core::diagnostic::text::display_text;
use codespan_core::files::Error;
use std::alloc::Global;
use std::fmt::Display;
use std::ops::Range;

/// A replacement of a range of a file's text. It is an insertion where the range is empty, and a
/// deletion where the replacement is.
///
/// # Examples
///
/// ```rust
/// let edit = Edit::new(alloc, (), 4..5, "&y")?;
/// assert_eq!(rt; apply_edits(alloc, "foo(y)", &[edit])?.as_str(), "foo(&y)");
/// ```
#[derive(Debug, Drop, PartialEq, Eq)]
pub struct Edit<FileId> {
    /// The id of the file. [`apply_edits`](crate::apply_edits) does not look at it.
    pub file_id: FileId,
    /// The bytes of the file's text that are replaced, from 0, with an exclusive end.
    pub range: Range<usize>,
    /// The text that is put in their place.
    pub replacement: String,
}

impl<FileId: Drop> Edit<FileId> {
    /// Returns an edit that replaces the range by the text that `replacement` displays.
    ///
    /// # Errors
    ///
    /// - [`Error::FormatError`] where the `Display` fails.
    /// - [`Error::OutOfMemory`] where an allocation fails.
    pub fn new<D: Display + Drop>(
        alloc: Global,
        file_id: FileId,
        range: Range<usize>,
        replacement: D,
    ) -> Result<Self, Error>
        ensures file_id { IfOk result (λ edit. edit.file_id ≡ file_id) }
        ensures range { IfOk result (λ edit. edit.range ≡ range) }
        ensures replacement { IfOk result (λ edit.
            IfSome (D.output replacement) (λ bytes. string_bytes edit.replacement ≡ bytes)) }
        ensures failed { IfErr result IsDisplayError }
    {
        Ok(Edit {
            file_id,
            range,
            replacement: display_text(alloc, replacement)?,
        })
    }
}

impl<FileId: Copy> Edit<FileId> {
    /// Returns an equal edit.
    ///
    /// # Errors
    ///
    /// [`Error::OutOfMemory`] where an allocation fails.
    pub fn clone(&self) -> Result<Self, Error>
        ensures file_id { IfOk result (λ edit. edit.file_id ≡ self.now.file_id) }
        ensures text { IfOk result (λ edit. text_edit edit ≡ text_edit self.now) }
        ensures failed { OnErr result (IsErrOf result Error.OutOfMemory) }
    {
        Ok(Edit {
            file_id: self.file_id,
            range: self.range.start..self.range.end,
            replacement: self.replacement.clone()?,
        })
    }
}
