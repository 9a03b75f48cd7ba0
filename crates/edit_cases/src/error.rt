//! The errors that end the program.

use codespan_base::files::Error;
use codespan_edits::EditError;
use codespan_suggestions::SuggestionError;
use std::alloc::{AllocError, AllocFailed};
use std::io;

/// An error that ends the program.
#[derive(Debug, Drop)]
pub enum CaseError {
    /// The input is malformed, or what is to be measured has a fault.
    Input,
    /// Reading or writing failed.
    Io(io::Error),
    /// An allocation failed.
    OutOfMemory,
}

/// Converts an error of reading or of writing.
impl From<io::Error> for CaseError {
    fn from(cause: io::Error) -> CaseError {
        CaseError::Io(cause)
    }
}

/// Converts an error of a file database or of a builder.
impl From<Error> for CaseError {
    fn from(cause: Error) -> CaseError {
        match cause {
            Error::OutOfMemory => CaseError::OutOfMemory,
            _ => CaseError::Input,
        }
    }
}

/// Converts an error of edits.
impl From<EditError> for CaseError {
    fn from(cause: EditError) -> CaseError {
        match cause {
            EditError::OutOfMemory => CaseError::OutOfMemory,
            _ => CaseError::Input,
        }
    }
}

/// Converts an error of a suggestion.
impl From<SuggestionError> for CaseError {
    fn from(cause: SuggestionError) -> CaseError {
        match cause {
            SuggestionError::Edit(error) => CaseError::from(error),
            SuggestionError::Files(error) => CaseError::from(error),
        }
    }
}

/// Converts a failed allocation.
impl From<AllocError> for CaseError {
    fn from(_cause: AllocError) -> CaseError {
        CaseError::OutOfMemory
    }
}

/// Converts a failed allocation.
impl<T: Drop> From<AllocFailed<T>> for CaseError {
    fn from(_cause: AllocFailed<T>) -> CaseError {
        CaseError::OutOfMemory
    }
}
