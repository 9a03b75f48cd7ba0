//! Suggestions as data, and their builders.
//!
//! The calls that begin with `with_` take a suggestion and return it with one field changed; where
//! such a call fails, the suggestion is dropped.

ghost use Rattle.std.specs.Prelude.{◌≡◌, ◌++◌, ◌∷◌, [], IfOk, IfSome, IfErr, OnErr};
ghost use Rattle.std.specs.Prelude.{IsErrOf, string_bytes};

use codespan_core::diagnostic::text::display_text;
use codespan_core::files::Error;
use codespan_edits::Edit;
use std::alloc::Global;
use std::fmt::Display;

/// How sure it is that a suggestion is what the user wants. What to apply is the caller's decision:
/// no call of this crate depends on it.
#[derive(Clone, Copy, Debug, PartialEq, Eq)]
pub enum Applicability {
    /// The suggestion is what the user wants, and may be applied without asking.
    MachineApplicable,
    /// The suggestion may be what the user wants. The text after it is valid.
    MaybeIncorrect,
    /// The suggestion has parts that the user has to fill in, and the text after it is not valid.
    HasPlaceholders,
    /// It is not known how sure the suggestion is.
    Unspecified,
}

/// A suggestion: edits, in one file or in several, that would put right what a diagnostic says.
///
/// The order of the edits decides the order of the files, and the order of insertions at one byte;
/// nothing else of what the edits make.
///
/// # Examples
///
/// ```rust
/// let suggestion = Suggestion::new(alloc)
///     .with_message("borrow the value")?
///     .with_applicability(Applicability::MachineApplicable)
///     .with_edit(Edit::new(alloc, id, 28..29, "&y")?)?;
/// ```
#[derive(Debug, Drop, PartialEq, Eq)]
pub struct Suggestion<FileId> {
    /// The message, which says what the edits do. It should be one line.
    pub message: String,
    /// How sure it is that the suggestion is what the user wants.
    pub applicability: Applicability,
    /// The edits.
    pub edits: Vec<Edit<FileId>>,
}

impl<FileId> Suggestion<FileId> {
    /// Returns a suggestion without message and edits, of applicability
    /// [`Applicability::Unspecified`].
    pub fn new(alloc: Global) -> Self
        ensures message { string_bytes result.message ≡ [] }
        ensures applicability { result.applicability ≡ Applicability.Unspecified }
        ensures edits { result.edits.items ≡ [] }
    {
        Suggestion {
            message: String::new(alloc),
            applicability: Applicability::Unspecified,
            edits: Vec::new(alloc),
        }
    }

    /// Returns the suggestion with this applicability.
    pub fn with_applicability(mut self, applicability: Applicability) -> Self
        ensures { result ≡ record self { applicability = applicability } }
    {
        self.applicability = applicability;
        self
    }
}

impl<FileId: Drop> Suggestion<FileId> {
    ghost use Rattle.codespan_core.specs.Diagnostics.{IsDisplayError};

    /// Returns the suggestion with the text that `message` displays as its message.
    ///
    /// # Errors
    ///
    /// - [`Error::FormatError`] where the `Display` fails.
    /// - [`Error::OutOfMemory`] where an allocation fails.
    pub fn with_message<D: Display + Drop>(mut self, message: D) -> Result<Self, Error>
        ensures message { IfOk result (λ s.
            IfSome (D.output message) (λ bytes. string_bytes s.message ≡ bytes)) }
        ensures others { IfOk result (λ s. s ≡ record self { message = s.message }) }
        ensures failed { IfErr result IsDisplayError }
    {
        self.message = display_text(*self.message.allocator(), message)?;
        Ok(self)
    }

    /// Returns the suggestion with one more edit at the end.
    ///
    /// # Errors
    ///
    /// [`Error::OutOfMemory`] where an allocation fails.
    pub fn with_edit(mut self, edit: Edit<FileId>) -> Result<Self, Error>
        ensures edits { IfOk result (λ s. s.edits.items ≡ self.edits.items ++ edit ∷ []) }
        ensures others { IfOk result (λ s. s ≡ record self { edits = s.edits }) }
        ensures failed { OnErr result (IsErrOf result Error.OutOfMemory) }
    {
        self.edits.push(edit)?;
        Ok(self)
    }
}
