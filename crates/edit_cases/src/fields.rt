//! The numbers and the texts of the input.

use crate::error::CaseError;
use std::alloc::Global;

/// The texts that are left to be read.
#[derive(Drop)]
pub struct Texts<'a> {
    left: &'a str,
}

impl<'a> Texts<'a> {
    /// Returns the texts of this input, of which none is read yet.
    pub fn new(left: &'a str) -> Texts<'a> {
        Texts { left }
    }

    /// Reads the next text, which has this many bytes.
    ///
    /// # Errors
    ///
    /// `Input`: there is none.
    pub fn take(&mut self, length: usize) -> Result<&'a str, CaseError> {
        let Some((text, left)) = self.left.split_at_checked(length) else {
            return Err(CaseError::Input);
        };
        self.left = left;
        Ok(text)
    }

    /// Returns all that is left.
    pub fn rest(&self) -> &'a str {
        self.left
    }
}

/// Reads numbers with a space between two.
///
/// # Errors
///
/// - `Input`: a word is no number.
/// - `OutOfMemory`: an allocation fails.
pub fn read_numbers(alloc: Global, line: &str) -> Result<Vec<usize>, CaseError> {
    let mut numbers = Vec::new(alloc);
    for word in line.split(' ') {
        match word.parse() {
            Ok(number) => numbers.push(number)?,
            Err(_) => return Err(CaseError::Input),
        }
    }
    Ok(numbers)
}
