//! The diagnostics of label requests, of scripts, and of errors in scripts.

ghost use Rattle.std.specs.Prelude.{◌≡◌, IfOk, map, string_bytes};
ghost use Rattle.codespan_core.specs.Diagnostics.{diagnostic_view, label_view};
ghost use Rattle.report.specs.ReportDiagnostics.{label_request_diagnostic, fault_diagnostic};
ghost use Rattle.report.specs.Requests.{label_request_view};
ghost use Rattle.report.specs.Scripts.{script_label_view, script_view};

use crate::request::LabelRequest;
use crate::script;
use crate::script::{Script, ScriptLabel};
use codespan_core::diagnostic::{Diagnostic, Label};
use codespan_core::files::Error;
use std::alloc::Global;

/// Returns the diagnostic of a label request: an error with its message, and with one primary label
/// that has the same message.
///
/// # Errors
///
/// `OutOfMemory` if an allocation fails.
pub fn diagnostic_of_label_request(
    alloc: Global,
    label_request: &LabelRequest<'_>,
) -> Result<Diagnostic<()>, Error>
    ensures { IfOk result (λ d. diagnostic_view d
        ≡ label_request_diagnostic (label_request_view label_request.now)) }
{
    let label = Label::primary(alloc, (), label_request.start..label_request.end).with_message(
        label_request.message,
    )?;
    let error = Diagnostic::error(alloc).with_message(label_request.message)?;
    error.with_label(label)
}

/// Returns the diagnostic that a script states.
///
/// # Errors
///
/// `OutOfMemory` if an allocation fails.
pub fn diagnostic_of_script(alloc: Global, script: &Script<'_>) -> Result<Diagnostic<()>, Error>
    ensures { IfOk result (λ d. diagnostic_view d ≡ (script_view script.now).diagnostic) }
{
    let code = match script.code {
        Some(code) => Some(String::from_str(alloc, code)?),
        None => None,
    };
    Ok(Diagnostic {
        severity: script.severity,
        code,
        message: String::from_str(alloc, script.message)?,
        labels: labels(alloc, script.labels.as_slice())?,
        notes: notes(alloc, script.notes.as_slice())?,
    })
}

/// Returns the labels of a script.
fn labels(alloc: Global, stated: &[ScriptLabel<'_>]) -> Result<Vec<Label<()>>, Error>
    ensures { IfOk result (λ labels. map label_view labels.items
        ≡ map script_label_view stated.now) }
{
    let mut labels = Vec::new(alloc);
    for (style, range, message) in stated {
        labels.push(Label {
            style: *style,
            file_id: (),
            range: range.start..range.end,
            message: String::from_str(alloc, message)?,
        })?;
    }
    Ok(labels)
}

/// Returns the notes of a script.
fn notes(alloc: Global, stated: &[&str]) -> Result<Vec<String>, Error>
    ensures { IfOk result (λ notes. map string_bytes notes.items
        ≡ map (λ note. note.now) stated.now) }
{
    let mut notes = Vec::new(alloc);
    for note in stated {
        notes.push(String::from_str(alloc, note)?)?;
    }
    Ok(notes)
}

/// Returns the diagnostic of a script's error: its code and message, a primary label over its
/// range, and a secondary one over the first occurrence of a repeated word, or over the other of
/// two edits that overlap.
///
/// # Errors
///
/// `OutOfMemory` if an allocation fails.
pub fn diagnostic_of_fault(alloc: Global, fault: script::Fault) -> Result<Diagnostic<()>, Error>
    ensures { IfOk result (λ d. diagnostic_view d ≡ fault_diagnostic fault) }
{
    let label = Label::primary(alloc, (), fault.range).with_message(fault.kind)?;
    let diagnostic = Diagnostic::error(alloc)
        .with_code(fault.kind.code())?
        .with_message(fault.kind.message())?
        .with_label(label)?;
    match fault.first {
        Some(first) => diagnostic.with_label(Label::secondary(alloc, (), first).with_message(
            fault.kind.first_message(),
        )?),
        None => Ok(diagnostic),
    }
}
