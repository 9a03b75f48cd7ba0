//! The diagnostic to be rendered.

use crate::error::TimingError;
use crate::fields::{Fields, Malformed};
use codespan_base::diagnostic::{Diagnostic, Label, LabelStyle, Severity};
use std::alloc::Global;

/// Reads the diagnostic, an error.
///
/// # Errors
///
/// - `Input`: a field is malformed.
/// - `CannotRender`: an allocation fails.
pub fn read_diagnostic(
    alloc: Global,
    fields: &mut Fields<'_>,
) -> Result<Diagnostic<usize>, TimingError> {
    Ok(Diagnostic {
        severity: Severity::Error,
        code: read_code(alloc, fields)?,
        message: read_string(alloc, fields)?,
        labels: read_labels(alloc, fields)?,
        notes: read_notes(alloc, fields)?,
    })
}

/// Reads the code, if it is not empty.
fn read_code(alloc: Global, fields: &mut Fields<'_>) -> Result<Option<String>, TimingError> {
    let code = read_string(alloc, fields)?;
    Ok(if code.is_empty() { None } else { Some(code) })
}

/// Reads the labels.
fn read_labels(alloc: Global, fields: &mut Fields<'_>) -> Result<Vec<Label<usize>>, TimingError> {
    let mut labels = Vec::new(alloc);
    for _ in 0..fields.number()? {
        labels.push(read_label(alloc, fields)?)?;
    }
    Ok(labels)
}

/// Reads a label: its style, its file, its range and its message.
fn read_label(alloc: Global, fields: &mut Fields<'_>) -> Result<Label<usize>, TimingError> {
    Ok(Label {
        style: read_style(fields)?,
        file_id: fields.number()?,
        range: fields.number()?..fields.number()?,
        message: read_string(alloc, fields)?,
    })
}

/// Reads the style of a label.
fn read_style(fields: &mut Fields<'_>) -> Result<LabelStyle, Malformed> {
    match fields.line()? {
        "primary" => Ok(LabelStyle::Primary),
        "secondary" => Ok(LabelStyle::Secondary),
        _ => Err(Malformed),
    }
}

/// Reads the notes.
fn read_notes(alloc: Global, fields: &mut Fields<'_>) -> Result<Vec<String>, TimingError> {
    let mut notes = Vec::new(alloc);
    for _ in 0..fields.number()? {
        notes.push(read_string(alloc, fields)?)?;
    }
    Ok(notes)
}

/// Reads a text as a string.
fn read_string(alloc: Global, fields: &mut Fields<'_>) -> Result<String, TimingError> {
    Ok(String::from_str(alloc, fields.text()?)?)
}
