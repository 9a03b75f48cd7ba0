//! The error of file databases, of diagnostics and configurations, and of rendering.

ghost use Rattle.std.specs.Prelude.{◌≡◌};
ghost use Rattle.codespan_core.specs.declared.files.error.Error.TheVariants.{Io, FormatError};
ghost use Rattle.codespan_core.specs.declared.files.error.Error.TheVariants.{OutOfMemory};

use std::alloc::{AllocError, AllocFailed};
use std::{fmt, io};

/// The error of file databases, of diagnostics and configurations, and of rendering. Writers fail
/// with an [`io::Error`].
///
/// The variants and texts are the Rust crate's, but for [`Error::OutOfMemory`], which is this
/// project's own.
#[derive(Debug, Drop)]
#[non_exhaustive]
pub enum Error {
    /// The file database has no file of this id.
    FileMissing,
    /// The file has no such byte. Returned by custom file databases only.
    IndexTooLarge {
        /// The byte index that was looked up, from 0.
        given: usize,
        /// The greatest byte index of the file.
        max: usize,
    },
    /// The file has no such line, or the line's number does not fit into a `usize`, or, of a
    /// position of `codespan_lsp`, the line's index does not fit into a `u32`.
    LineTooLarge {
        /// The line index that was looked up, from 0.
        given: usize,
        /// The greatest line index with which the lookup succeeds; of a line number of a
        /// `MappedFile`, among the lines that count from the same set number.
        max: usize,
    },
    /// The line has no such column. Returned by custom file databases, and by `codespan_lsp` where
    /// a byte or a position is past its line's end, or a column does not fit into a `u32`.
    ColumnTooLarge {
        /// The column that was looked up, from 0: in characters, in `codespan_lsp` in bytes of the
        /// line or in code units.
        given: usize,
        /// The greatest column with which the lookup succeeds, in the same unit.
        max: usize,
    },
    /// The byte index is inside a character, or the position is between the code units of one.
    /// Returned by custom file databases and by `codespan_lsp`.
    InvalidCharBoundary {
        /// The byte index that was looked up, from 0; where a position was, the byte index at which
        /// its character begins.
        given: usize,
    },
    /// A write failed, or took none of some bytes, or a file database failed to read.
    Io(io::Error),
    /// A `Display` failed, and no allocation of its text did.
    FormatError,
    /// An allocation failed.
    OutOfMemory,
}

/// Wraps an [`io::Error`] in [`Error::Io`].
impl From<io::Error> for Error {
    ghost from_gives = { λ cause e. e ≡ Io cause };

    fn from(cause: io::Error) -> Error {
        Error::Io(cause)
    }
}

/// Converts the failure of a `Display` to [`Error::FormatError`].
impl From<fmt::Error> for Error {
    ghost from_gives = { λ _ e. e ≡ FormatError };

    fn from(_cause: fmt::Error) -> Error {
        Error::FormatError
    }
}

/// Converts a failed allocation to [`Error::OutOfMemory`].
impl From<AllocError> for Error {
    ghost from_gives = { λ _ e. e ≡ OutOfMemory };

    fn from(_cause: AllocError) -> Error {
        Error::OutOfMemory
    }
}

/// Converts a failed allocation to [`Error::OutOfMemory`], and drops the value that was to be
/// added.
impl<T: Drop> From<AllocFailed<T>> for Error {
    ghost from_gives = { λ _ e. e ≡ OutOfMemory };

    fn from(_cause: AllocFailed<T>) -> Error {
        Error::OutOfMemory
    }
}

/// Displays one line in lower case; of [`Error::Io`] the text of the inner error.
impl fmt::Display for Error {
    ghost use Rattle.codespan_core.specs.ErrorText.{error_text};

    ghost output = { error_text };

    fn fmt<W: fmt::Write>(&self, f: &mut fmt::Formatter<W>) -> fmt::Result {
        match self {
            Error::FileMissing => write!(f, "file missing"),
            Error::IndexTooLarge { given, max } => {
                write!(f, "invalid index {given}, maximum index is {max}")
            }
            Error::LineTooLarge { given, max } => {
                write!(f, "invalid line {given}, maximum line is {max}")
            }
            Error::ColumnTooLarge { given, max } => {
                write!(f, "invalid column {given}, maximum column {max}")
            }
            Error::InvalidCharBoundary { .. } => write!(f, "index is not a code point boundary"),
            Error::Io(error) => write!(f, "{error}"),
            Error::FormatError => write!(f, "formatting error"),
            Error::OutOfMemory => write!(f, "out of memory"),
        }
    }
}

/// Returns no `source`: the inner error of [`Error::Io`] is in the variant, and its text is
/// displayed.
impl std::error::Error for Error {}
