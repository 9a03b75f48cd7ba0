//! The program's arguments.

use std::env;
use std::io::ErrorKind;
use std::rt::Env;

/// An error of reading the program's arguments.
#[derive(Clone, Copy, Debug, PartialEq, Eq)]
pub enum ArgumentsError {
    /// An argument is not UTF-8.
    NotUtf8,
    /// An allocation failed.
    OutOfMemory,
}

/// Returns the program's arguments, without its own name.
///
/// # Errors
///
/// - `NotUtf8`: an argument is not UTF-8.
/// - `OutOfMemory`: an allocation fails.
pub fn arguments<R: Env + AllocGlobal>(rt: &R) -> Result<Vec<String>, ArgumentsError> {
    match env::args(rt) {
        Ok(all) => match all.skip(1).collect(rt.alloc()) {
            Ok(arguments) => Ok(arguments),
            Err(_) => Err(ArgumentsError::OutOfMemory),
        },
        Err(error) if error.kind() == ErrorKind::InvalidData => Err(ArgumentsError::NotUtf8),
        Err(_) => Err(ArgumentsError::OutOfMemory),
    }
}
