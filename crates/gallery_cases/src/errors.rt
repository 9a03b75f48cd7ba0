//! The errors of a line, and those that only `gallery` has.

ghost use Rattle.std.specs.Prelude.{◌≡◌, codes};
ghost use Rattle.gallery_cases.specs.declared.errors.LineError.TheVariants as line_errors;

use codespan_suggestions::SuggestionError;
use program_io::run_error::ProgramError;
use std::alloc::{AllocError, AllocFailed};
use std::fmt;

/// An error in a line of the input.
#[derive(Clone, Copy, Debug)]
pub enum LineError {
    /// The line begins with an unknown word.
    UnknownWord,
    /// The rest of the line is none of the names that may follow its word.
    UnknownName,
    /// A number is missing or malformed.
    BadNumber,
    /// A backslash in its text does not begin an escape.
    BadEscape,
    /// The line states something of a case, and no case precedes it.
    NoCase,
    /// The line continues a source, and its case has no file yet.
    NoFile,
    /// The line states an edit, and its case has no suggestion yet.
    NoSuggestion,
    /// An allocation failed.
    OutOfMemory,
}

/// An error that only `gallery` has.
#[derive(Debug, Drop)]
pub enum GalleryError {
    /// A line has an error.
    Line {
        /// The number of the line, from 1.
        number: usize,
        /// Its error.
        error: LineError,
    },
    /// No case has this name, which the arguments request.
    UnknownCase(String),
    /// Rendering the requested document or style sheet failed.
    CannotRender(SuggestionError),
}

impl ProgramError for GalleryError {
    ghost program_name = { codes "gallery" };

    ghost usage_line = { codes "usage: gallery [svg|html|terminal NAME | styles] < CASES" };

    fn program() -> &'static str {
        "gallery"
    }

    fn usage() -> &'static str {
        "usage: gallery [svg|html|terminal NAME | styles] < CASES"
    }
}

/// Converts a failed allocation.
impl From<AllocError> for LineError {
    ghost from_gives = { λ _ line_error. line_error ≡ line_errors.OutOfMemory };

    fn from(_error: AllocError) -> LineError {
        LineError::OutOfMemory
    }
}

/// Converts a failed allocation.
impl<T: Drop> From<AllocFailed<T>> for LineError {
    ghost from_gives = { λ _ line_error. line_error ≡ line_errors.OutOfMemory };

    fn from(_error: AllocFailed<T>) -> LineError {
        LineError::OutOfMemory
    }
}

/// Writes what is wrong, in a few words.
impl fmt::Display for LineError {
    fn fmt<W: fmt::Write>(&self, f: &mut fmt::Formatter<W>) -> fmt::Result {
        f.write_str(match self {
            LineError::UnknownWord => "unknown word",
            LineError::UnknownName => "unknown name",
            LineError::BadNumber => "bad number",
            LineError::BadEscape => "bad escape",
            LineError::NoCase => "no case before it",
            LineError::NoFile => "no file before it",
            LineError::NoSuggestion => "no suggestion before it",
            LineError::OutOfMemory => "out of memory",
        })
    }
}

/// Writes the message as one line, without its newline.
impl fmt::Display for GalleryError {
    fn fmt<W: fmt::Write>(&self, f: &mut fmt::Formatter<W>) -> fmt::Result {
        match self {
            GalleryError::Line { number, error } => write!(f, "gallery: line {number}: {error}"),
            GalleryError::UnknownCase(name) => write!(f, "gallery: no case {name}"),
            GalleryError::CannotRender(error) => write!(f, "gallery: cannot render: {error}"),
        }
    }
}

impl std::error::Error for GalleryError {}
