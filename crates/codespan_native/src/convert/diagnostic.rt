//! Converts the diagnostic.

ghost use Rattle.std.specs.Prelude.{◌≡◌, All, IfOk, map, string_bytes};
ghost use Rattle.std.specs.Str.{IsUtf8};
ghost use Rattle.std.specs.Option.{option_map};
ghost use Rattle.codespan_base.specs.Diagnostics.{diagnostic_view, label_view};
ghost use Rattle.codespan_native.specs.Converted.{bytes_of, code_of, converted_label};
ghost use Rattle.codespan_native.specs.Converted.{label_style_of, first_byte_of, severity_of};
ghost use Rattle.codespan_native.specs.Converted.{converted_diagnostic};
ghost use Rattle.codespan_native.specs.Validity.{HasValidMessage, IsValidText};
ghost use Rattle.codespan_native.specs.ValidParts.{IsValidDiagnostic};

use crate::convert::text::string_of;
use crate::error::OutOfMemory;
use crate::raw::{RawDiagnostic, RawFile, RawLabel, RawText};
use codespan_base::diagnostic::{Diagnostic, Label, LabelStyle, Severity};
use std::alloc::{AllocError, Global};

/// Returns the diagnostic of a struct of C, whose labels are on these files.
///
/// # Errors
///
/// [`OutOfMemory`] where an allocation fails.
///
/// # Requires
///
/// The code, the message, the labels' messages and the notes are UTF-8.
/// [`first_invalid`](crate::validate::first_invalid) checks this.
pub fn convert_diagnostic(
    alloc: Global,
    files: &[RawFile<'_>],
    raw: &RawDiagnostic<'_>,
) -> Result<Diagnostic<usize>, OutOfMemory>
    requires { IsValidDiagnostic raw.now }
    ensures { IfOk result (λ d. diagnostic_view d ≡ converted_diagnostic files.now raw.now) }
{
    Ok(Diagnostic {
        severity: severity_of(raw.severity),
        code: code_of(alloc, raw.code)?,
        message: string_of(alloc, raw.message)?,
        labels: labels_of(alloc, files, raw.labels)?,
        notes: notes_of(alloc, raw.notes)?,
    })
}

/// Returns the severity of a number. A number above 4 counts as 4.
fn severity_of(number: u32) -> Severity
    ensures { result ≡ severity_of number }
{
    match number {
        0 => Severity::Help,
        1 => Severity::Note,
        2 => Severity::Warning,
        3 => Severity::Error,
        _ => Severity::Bug,
    }
}

/// Returns the bytes as a code; none where they are empty.
fn code_of(alloc: Global, raw: &[u8]) -> Result<Option<String>, AllocError>
    requires { IsUtf8 raw.now }
    ensures { IfOk result (λ code. option_map string_bytes code ≡ code_of raw.now) }
{
    match raw {
        [] => Ok(None),
        [_, ..] => Ok(Some(string_of(alloc, raw)?)),
    }
}

/// Returns the labels.
fn labels_of(
    alloc: Global,
    files: &[RawFile<'_>],
    raw: &[RawLabel<'_>],
) -> Result<Vec<Label<usize>>, OutOfMemory>
    requires { All HasValidMessage raw.now }
    ensures { IfOk result (λ labels.
        map label_view labels.items ≡ map (converted_label files.now) raw.now) }
{
    let mut labels = Vec::new(alloc);
    for label in raw {
        labels.push(converted_label(alloc, files, label)?)?;
    }
    Ok(labels)
}

/// Returns a label, with byte indices in the source of its file.
fn converted_label(
    alloc: Global,
    files: &[RawFile<'_>],
    raw: &RawLabel<'_>,
) -> Result<Label<usize>, AllocError>
    requires { HasValidMessage raw.now }
    ensures { IfOk result (λ label. label_view label ≡ converted_label files.now raw.now) }
{
    let first_byte = first_byte_of(files, raw.file);
    Ok(Label {
        style: label_style_of(raw.style),
        file_id: raw.file,
        range: raw.start.saturating_sub(first_byte)..raw.end.saturating_sub(first_byte),
        message: string_of(alloc, raw.message)?,
    })
}

/// Returns the byte index in a file of the first byte of its source; 0 where there is no such file.
fn first_byte_of(files: &[RawFile<'_>], id: usize) -> usize
    ensures { result ≡ first_byte_of files.now id }
{
    match files.get(id) {
        Some(file) => file.first_byte,
        None => 0,
    }
}

/// Returns the label style of a number. A number above 1 counts as 1.
fn label_style_of(number: u32) -> LabelStyle
    ensures { result ≡ label_style_of number }
{
    match number {
        0 => LabelStyle::Primary,
        _ => LabelStyle::Secondary,
    }
}

/// Returns the notes.
fn notes_of(alloc: Global, raw: &[RawText<'_>]) -> Result<Vec<String>, OutOfMemory>
    requires { All IsValidText raw.now }
    ensures { IfOk result (λ notes. map string_bytes notes.items ≡ map bytes_of raw.now) }
{
    let mut notes = Vec::new(alloc);
    for note in raw {
        notes.push(string_of(alloc, note.bytes)?)?;
    }
    Ok(notes)
}
