//! The builders of labels and diagnostics, and their clones.

use crate::outcome::{Outcome, judge_value};
use codespan_base::diagnostic::{Diagnostic, Label, LabelStyle, Severity};
use codespan_base::files::Error;
use std::alloc::Global;

/// A call of [`Label`].
#[derive(Clone, Copy)]
pub enum LabelCall {
    /// `with_message`
    WithMessage,
    /// `clone`
    Clone,
}

/// A call of [`Diagnostic`].
#[derive(Clone, Copy)]
pub enum DiagnosticCall {
    /// One that takes a text.
    WithText(TextCall),
    /// `with_label`
    WithLabel,
    /// `with_labels` or `with_labels_iter`
    WithLabels(ListCall),
    /// `with_notes` or `with_notes_iter`
    WithNotes(ListCall),
    /// `clone`
    Clone,
}

/// A call of [`Diagnostic`] that takes a text.
#[derive(Clone, Copy)]
pub enum TextCall {
    /// `with_code`
    Code,
    /// `with_message`
    Message,
    /// `with_note`
    Note,
}

/// What a call of [`Diagnostic`] takes labels or notes from.
#[derive(Clone, Copy)]
pub enum ListCall {
    /// A vector.
    OfVector,
    /// An iterator.
    OfIterator,
}

/// Returns a label with this message.
fn label(alloc: Global, message: &str) -> Result<Label<usize>, Error> {
    Ok(Label {
        style: LabelStyle::Secondary,
        file_id: 7,
        range: 3..5,
        message: String::from_str(alloc, message)?,
    })
}

/// Returns labels with these messages, in a vector without spare capacity.
fn labels(alloc: Global, messages: &[&str]) -> Result<Vec<Label<usize>>, Error> {
    let mut labels = Vec::with_capacity(alloc, messages.len())?;
    for message in messages {
        labels.push(label(alloc, message)?)?;
    }
    Ok(labels)
}

/// Returns notes of these texts, in a vector without spare capacity.
fn notes(alloc: Global, texts: &[&str]) -> Result<Vec<String>, Error> {
    let mut notes = Vec::with_capacity(alloc, texts.len())?;
    for text in texts {
        notes.push(String::from_str(alloc, text)?)?;
    }
    Ok(notes)
}

/// The texts of a diagnostic.
#[derive(Clone, Copy)]
struct Texts<'text> {
    code: Option<&'text str>,
    message: &'text str,
    labels: &'text [&'text str],
    notes: &'text [&'text str],
}

/// The texts of the diagnostic on which each call is made.
const INITIAL: Texts<'_> = Texts {
    code: None,
    message: "m",
    labels: &["a"],
    notes: &["n"],
};

/// The initial texts, as a static that the calls borrow.
static BEFORE: Texts<'_> = INITIAL;

/// The texts with a code.
static WITH_CODE: Texts<'_> = Texts {
    code: Some("c"),
    ..INITIAL
};

/// The texts with another message.
static WITH_MESSAGE: Texts<'_> = Texts {
    message: "another",
    ..INITIAL
};

/// The texts with one more label.
static WITH_LABEL: Texts<'_> = Texts {
    labels: &["a", "b"],
    ..INITIAL
};

/// The texts with two more labels.
static WITH_LABELS: Texts<'_> = Texts {
    labels: &["a", "b", "c"],
    ..INITIAL
};

/// The texts with one more note.
static WITH_NOTE: Texts<'_> = Texts {
    notes: &["n", "o"],
    ..INITIAL
};

/// The texts with two more notes.
static WITH_NOTES: Texts<'_> = Texts {
    notes: &["n", "o", "p"],
    ..INITIAL
};

/// Returns the diagnostic of these texts, built field by field.
fn diagnostic(alloc: Global, texts: &Texts<'_>) -> Result<Diagnostic<usize>, Error> {
    let code = match texts.code {
        Some(code) => Some(String::from_str(alloc, code)?),
        None => None,
    };
    Ok(Diagnostic {
        severity: Severity::Warning,
        code,
        message: String::from_str(alloc, texts.message)?,
        labels: labels(alloc, texts.labels)?,
        notes: notes(alloc, texts.notes)?,
    })
}

/// Makes a call of a label and judges it.
///
/// # Errors
///
/// `OutOfMemory` if an allocation of the preparation fails.
pub fn judge_label(alloc: Global, call: LabelCall) -> Result<Outcome, Error> {
    let expected = label(alloc, "another")?;
    let returned = match call {
        LabelCall::WithMessage => label(alloc, "a")?.with_message("another"),
        LabelCall::Clone => expected.clone(),
    };
    Ok(judge_value(&returned, &expected))
}

/// Returns the texts that a diagnostic has to have after a call.
fn expected_texts(call: DiagnosticCall) -> &'static Texts<'static> {
    match call {
        DiagnosticCall::WithText(TextCall::Code) | DiagnosticCall::Clone => &WITH_CODE,
        DiagnosticCall::WithText(TextCall::Message) => &WITH_MESSAGE,
        DiagnosticCall::WithLabel => &WITH_LABEL,
        DiagnosticCall::WithLabels(_) => &WITH_LABELS,
        DiagnosticCall::WithText(TextCall::Note) => &WITH_NOTE,
        DiagnosticCall::WithNotes(_) => &WITH_NOTES,
    }
}

/// Makes a call of a diagnostic and judges it.
///
/// # Errors
///
/// `OutOfMemory` if an allocation of the preparation fails.
pub fn judge_diagnostic(alloc: Global, call: DiagnosticCall) -> Result<Outcome, Error> {
    let expected = diagnostic(alloc, expected_texts(call))?;
    let returned = returned_diagnostic(alloc, call, &expected)?;
    Ok(judge_value(&returned, &expected))
}

/// Makes a call of a diagnostic.
fn returned_diagnostic(
    alloc: Global,
    call: DiagnosticCall,
    expected: &Diagnostic<usize>,
) -> Result<Result<Diagnostic<usize>, Error>, Error> {
    match call {
        DiagnosticCall::WithLabel => with_label(alloc),
        DiagnosticCall::WithLabels(list) => with_labels(alloc, list),
        DiagnosticCall::WithNotes(list) => with_notes(alloc, list),
        DiagnosticCall::Clone => Ok(expected.clone()),
        DiagnosticCall::WithText(text) => with_text(alloc, text),
    }
}

/// Makes a call that takes a label.
fn with_label(alloc: Global) -> Result<Result<Diagnostic<usize>, Error>, Error> {
    let added = label(alloc, "b")?;
    let initial = diagnostic(alloc, &BEFORE)?;
    Ok(initial.with_label(added))
}

/// Makes a call that takes labels.
fn with_labels(alloc: Global, list: ListCall) -> Result<Result<Diagnostic<usize>, Error>, Error> {
    let added = labels(alloc, &["b", "c"])?;
    let initial = diagnostic(alloc, &BEFORE)?;
    Ok(match list {
        ListCall::OfVector => initial.with_labels(added),
        ListCall::OfIterator => initial.with_labels_iter(added),
    })
}

/// Makes a call that takes notes.
fn with_notes(alloc: Global, list: ListCall) -> Result<Result<Diagnostic<usize>, Error>, Error> {
    let added = notes(alloc, &["o", "p"])?;
    let initial = diagnostic(alloc, &BEFORE)?;
    Ok(match list {
        ListCall::OfVector => initial.with_notes(added),
        ListCall::OfIterator => initial.with_notes_iter(added),
    })
}

/// Makes a call that takes a text.
fn with_text(alloc: Global, text: TextCall) -> Result<Result<Diagnostic<usize>, Error>, Error> {
    let initial = diagnostic(alloc, &BEFORE)?;
    Ok(match text {
        TextCall::Code => initial.with_code("c"),
        TextCall::Message => initial.with_message("another"),
        TextCall::Note => initial.with_note("o"),
    })
}
