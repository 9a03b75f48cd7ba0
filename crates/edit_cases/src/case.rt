//! Edits of one source, as the input states them.

use crate::error::CaseError;
use crate::fields::{Texts, read_numbers};
use codespan_edits::Edit;
use std::alloc::Global;

/// Edits of a source, and how often they are made.
#[derive(Drop)]
pub struct Case<'a> {
    /// How often.
    pub times: usize,
    /// The edits.
    pub edits: Vec<Edit<()>>,
    /// The source.
    pub source: &'a str,
}

impl<'a> Case<'a> {
    /// Reads a case from the numbers of the first line and the texts below it.
    ///
    /// # Errors
    ///
    /// - `Input`: the input is malformed.
    /// - `OutOfMemory`: an allocation fails.
    pub fn read(alloc: Global, line: &str, left: &'a str) -> Result<Case<'a>, CaseError> {
        let mut texts = Texts::new(left);
        let numbers = read_numbers(alloc, line)?;
        let [times, ranges @ ..] = numbers.as_slice() else {
            return Err(CaseError::Input);
        };
        let mut edits = Vec::new(alloc);
        for range in ranges.chunks(3) {
            let [start, end, length] = range else {
                return Err(CaseError::Input);
            };
            edits.push(Edit {
                file_id: (),
                range: *start..*end,
                replacement: String::from_str(alloc, texts.take(*length)?)?,
            })?;
        }
        Ok(Case {
            times: *times,
            edits,
            source: texts.rest(),
        })
    }
}
