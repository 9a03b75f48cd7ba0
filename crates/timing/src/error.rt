//! The errors that end the program.

use crate::fields::Malformed;
use codespan_base::files::Error;
use std::alloc::{AllocError, AllocFailed};
use std::io;

/// An error that ends the program.
#[derive(Debug, Drop)]
pub enum TimingError {
    /// The input is malformed.
    Input,
    /// Reading the input or the clock, or writing the output, failed.
    Io(io::Error),
    /// Rendering or an allocation failed.
    CannotRender(Error),
}

/// Converts a malformed field.
impl From<Malformed> for TimingError {
    fn from(_cause: Malformed) -> TimingError {
        TimingError::Input
    }
}

/// Converts a failed allocation.
impl From<AllocError> for TimingError {
    fn from(cause: AllocError) -> TimingError {
        TimingError::CannotRender(Error::from(cause))
    }
}

/// Converts a failed allocation.
impl<T: Drop> From<AllocFailed<T>> for TimingError {
    fn from(cause: AllocFailed<T>) -> TimingError {
        TimingError::CannotRender(Error::from(cause))
    }
}

/// Converts an error of reading, of writing or of the clock.
impl From<io::Error> for TimingError {
    fn from(cause: io::Error) -> TimingError {
        TimingError::Io(cause)
    }
}

/// Converts an error of rendering.
impl From<Error> for TimingError {
    fn from(cause: Error) -> TimingError {
        TimingError::CannotRender(cause)
    }
}
