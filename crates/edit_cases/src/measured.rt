//! What is made of edits as often as a case states, to be measured.

use crate::case::Case;
use crate::error::CaseError;
use codespan_base::files::SimpleFile;
use codespan_base::term::Config;
use codespan_edits::apply_edits;
use codespan_suggestions::{Suggestion, emit_suggestion_into_string};
use std::alloc::Global;

/// Returns the text of a case.
///
/// # Errors
///
/// - `Input`: the edits have a fault.
/// - `OutOfMemory`: an allocation fails.
pub fn text_times(alloc: Global, case: &Case<'_>) -> Result<String, CaseError> {
    let mut text = String::new(alloc);
    for _ in 0..case.times {
        text = apply_edits(alloc, case.source, &case.edits)?;
    }
    Ok(text)
}

/// Returns the output of the edits of a case as a suggestion, in the default configuration, over a
/// file database that is made once.
///
/// # Errors
///
/// As [`text_times`].
pub fn rendering_times(alloc: Global, case: Case<'_>) -> Result<String, CaseError> {
    let file = SimpleFile::new(alloc, "f", case.source)?;
    let mut suggestion = Suggestion::new(alloc);
    suggestion.edits = case.edits;
    let config = Config::default();
    let mut text = String::new(alloc);
    for _ in 0..case.times {
        text = emit_suggestion_into_string(&config, &file, &suggestion)?;
    }
    Ok(text)
}

/// Makes the file database of the source of a case, which looks for its newlines, and returns
/// nothing.
///
/// # Errors
///
/// As [`text_times`].
pub fn lines_times(alloc: Global, case: &Case<'_>) -> Result<String, CaseError> {
    for _ in 0..case.times {
        let _file = SimpleFile::new(alloc, "f", case.source)?;
    }
    Ok(String::new(alloc))
}
