//! What is wrong with a suggestion.

ghost use Rattle.std.specs.Prelude.{◌≡◌};
ghost use Rattle.codespan_core.specs.declared.files.error.Error.TheVariants.{OutOfMemory};
ghost use Rattle.codespan_suggestions.specs.declared.error.SuggestionError.TheVariants.{Files};

use codespan_core::files::Error;
use codespan_edits::EditError;
use std::alloc::{AllocError, AllocFailed};
use std::fmt;

/// What is wrong with the edits of a suggestion, or with a lookup of their files, or that memory
/// is.
#[derive(Debug, Drop)]
pub enum SuggestionError {
    /// What is wrong with the edits. They are named by their indices in the suggestion, from 0.
    /// This is never [`EditError::OutOfMemory`] where a call of this crate returns it.
    Edit(EditError),
    /// A lookup failed, or an allocation did, which is [`Error::OutOfMemory`].
    Files(Error),
}

/// Wraps an [`EditError`] in [`SuggestionError::Edit`]; for [`EditError::OutOfMemory`] it makes
/// [`Error::OutOfMemory`].
impl From<EditError> for SuggestionError {
    ghost use Rattle.codespan_suggestions.specs.Errors.{error_of_edits};

    ghost from_gives = { λ cause e. e ≡ error_of_edits cause };

    fn from(cause: EditError) -> SuggestionError {
        match cause {
            EditError::OutOfMemory => SuggestionError::Files(Error::OutOfMemory),
            _ => SuggestionError::Edit(cause),
        }
    }
}

/// Wraps an [`Error`] in [`SuggestionError::Files`].
impl From<Error> for SuggestionError {
    ghost from_gives = { λ cause e. e ≡ Files cause };

    fn from(cause: Error) -> SuggestionError {
        SuggestionError::Files(cause)
    }
}

/// Converts a failed allocation to [`Error::OutOfMemory`].
impl From<AllocError> for SuggestionError {
    ghost from_gives = { λ _ e. e ≡ Files OutOfMemory };

    fn from(_cause: AllocError) -> SuggestionError {
        SuggestionError::Files(Error::OutOfMemory)
    }
}

/// Converts a failed allocation to [`Error::OutOfMemory`], and drops the value that was to be
/// added.
impl<T: Drop> From<AllocFailed<T>> for SuggestionError {
    ghost from_gives = { λ _ e. e ≡ Files OutOfMemory };

    fn from(_cause: AllocFailed<T>) -> SuggestionError {
        SuggestionError::Files(Error::OutOfMemory)
    }
}

/// Displays the text of the inner error.
impl fmt::Display for SuggestionError {
    ghost use Rattle.codespan_suggestions.specs.Errors.{error_text};

    ghost output = { error_text };

    fn fmt<W: fmt::Write>(&self, f: &mut fmt::Formatter<W>) -> fmt::Result {
        match self {
            SuggestionError::Edit(error) => write!(f, "{error}"),
            SuggestionError::Files(error) => write!(f, "{error}"),
        }
    }
}

/// Returns no `source`: the inner error is in the variant, and its text is displayed.
impl std::error::Error for SuggestionError {}
