//! What is wrong with a list of edits.

ghost use Rattle.std.specs.Prelude.{◌≡◌};
ghost use Rattle.codespan_edits.specs.declared.error.EditError.TheVariants.{OutOfMemory};

use std::alloc::{AllocError, AllocFailed};
use std::fmt;

/// What is wrong with a list of edits, or that memory is. Edits are named by their indices in the
/// list, from 0.
#[derive(Clone, Copy, Debug, PartialEq, Eq)]
pub enum EditError {
    /// The range of an edit ends before it starts.
    Reversed {
        /// The edit.
        edit: usize,
    },
    /// The range of an edit ends past the source.
    PastEnd {
        /// The edit.
        edit: usize,
        /// The length of the source in bytes.
        len: usize,
    },
    /// The range of an edit starts or ends inside a character.
    NotCharBoundary {
        /// The edit.
        edit: usize,
        /// The byte at which its range starts, if that is inside a character, and else the byte at
        /// which it ends.
        byte: usize,
    },
    /// Two edits overlap: each starts before the other ends.
    Overlap {
        /// The later one of the two, by their ranges.
        edit: usize,
        /// The earlier one.
        other: usize,
    },
    /// An allocation failed, or the length of the result does not fit into a `usize`.
    OutOfMemory,
}

/// Converts a failed allocation to [`EditError::OutOfMemory`].
impl From<AllocError> for EditError {
    ghost from_gives = { λ _ e. e ≡ OutOfMemory };

    fn from(_cause: AllocError) -> EditError {
        EditError::OutOfMemory
    }
}

/// Converts a failed allocation to [`EditError::OutOfMemory`], and drops the value that was to be
/// added.
impl<T: Drop> From<AllocFailed<T>> for EditError {
    ghost from_gives = { λ _ e. e ≡ OutOfMemory };

    fn from(_cause: AllocFailed<T>) -> EditError {
        EditError::OutOfMemory
    }
}

/// Displays one line in lower case.
impl fmt::Display for EditError {
    ghost use Rattle.codespan_edits.specs.ErrorText.{error_text};
    ghost use Rattle.std.specs.Prelude.{Some};

    ghost output = { λ e. Some (error_text e) };

    fn fmt<W: fmt::Write>(&self, f: &mut fmt::Formatter<W>) -> fmt::Result {
        match self {
            EditError::Reversed { edit } => write!(f, "edit {edit} ends before it starts"),
            EditError::PastEnd { edit, len } => {
                write!(f, "edit {edit} ends past byte {len}, the end of the source")
            }
            EditError::NotCharBoundary { edit, byte } => {
                write!(f, "edit {edit}: byte {byte} is not a character boundary")
            }
            EditError::Overlap { edit, other } => { write!(f, "edit {edit} overlaps edit {other}") }
            EditError::OutOfMemory => write!(f, "out of memory"),
        }
    }
}

/// Returns no `source`.
impl std::error::Error for EditError {}
