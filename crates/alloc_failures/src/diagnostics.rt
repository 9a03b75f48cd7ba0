//! The diagnostics of the worked outputs.

use crate::worked_outputs::WorkedOutput;
use codespan_base::diagnostic::{Diagnostic, Label};
use codespan_base::files::Error;
use std::alloc::Global;

/// Returns the diagnostic, over files of these ids.
///
/// # Errors
///
/// - `FileMissing`: a label's file has no id.
/// - `OutOfMemory`: an allocation fails.
pub fn diagnostic_of<FileId: Copy + Drop>(
    alloc: Global,
    worked: &WorkedOutput<'_>,
    ids: &[FileId],
) -> Result<Diagnostic<FileId>, Error> {
    let mut diagnostic = header_of(alloc, worked)?;
    for (style, file, range, message) in worked.labels {
        let id = ids.get(*file).ok_or(Error::FileMissing)?;
        let label = Label::new(alloc, *style, *id, range.start..range.end);
        add_label(&mut diagnostic.labels, label, message)?;
    }
    with_notes(diagnostic, worked.notes)
}

/// Returns the diagnostic without its labels and notes.
fn header_of<FileId: Drop>(
    alloc: Global,
    worked: &WorkedOutput<'_>,
) -> Result<Diagnostic<FileId>, Error> {
    let diagnostic = Diagnostic::error(alloc).with_message(worked.message)?;
    match worked.code {
        Some(code) => diagnostic.with_code(code),
        None => Ok(diagnostic),
    }
}

/// Adds a label with this message.
fn add_label<FileId: Drop>(
    labels: &mut Vec<Label<FileId>>,
    label: Label<FileId>,
    message: &str,
) -> Result<(), Error> {
    labels.push(label.with_message(message)?)?;
    Ok(())
}

/// Adds notes.
fn with_notes<FileId: Drop>(
    mut diagnostic: Diagnostic<FileId>,
    notes: &[&str],
) -> Result<Diagnostic<FileId>, Error> {
    for note in notes {
        diagnostic = diagnostic.with_note(*note)?;
    }
    Ok(diagnostic)
}
