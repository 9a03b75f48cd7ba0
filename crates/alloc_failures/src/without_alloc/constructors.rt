//! What is made without an allocation: labels, diagnostics, and clones of what owns no text.

use codespan_base::diagnostic::LabelStyle::{Primary, Secondary};
use codespan_base::diagnostic::{Diagnostic, Label, LabelStyle, Severity};
use codespan_base::term::{Chars, Config, SnippetStart};
use std::alloc::Global;
use test_writers::equality::{are_same_chars, is_same_config};

/// Returns whether the constructors return the labels and the diagnostics that are expected.
pub fn are_made(alloc: Global) -> bool {
    are_labels(alloc) && is_diagnostic_made(alloc) && are_diagnostics(alloc)
}

/// Returns whether each constructor of labels returns the one that is expected.
fn are_labels(alloc: Global) -> bool {
    is_label(&Label::new(alloc, Secondary, 3, 5..2), Secondary)
        && is_label(&Label::primary(alloc, 3, 5..2), Primary)
        && is_label(&Label::secondary(alloc, 3, 5..2), Secondary)
}

/// Returns whether a label has this style, the file 3, the range 5 to 2 and no message.
fn is_label(label: &Label<usize>, style: LabelStyle) -> bool {
    label.style == style && label.file_id == 3 && label.range == (5..2) && label.message.is_empty()
}

/// Returns whether `Diagnostic::new` returns the diagnostic that is expected.
fn is_diagnostic_made(alloc: Global) -> bool {
    is_bare(&Diagnostic::new(alloc, Severity::Note), Severity::Note)
}

/// Returns whether the constructor of each severity returns the diagnostic that is expected.
fn are_diagnostics(alloc: Global) -> bool {
    is_bare(&Diagnostic::bug(alloc), Severity::Bug)
        && is_bare(&Diagnostic::error(alloc), Severity::Error)
        && is_bare(&Diagnostic::warning(alloc), Severity::Warning)
        && is_bare(&Diagnostic::note(alloc), Severity::Note)
        && is_bare(&Diagnostic::help(alloc), Severity::Help)
}

/// Returns whether a diagnostic has this severity, and nothing else.
fn is_bare(diagnostic: &Diagnostic<usize>, severity: Severity) -> bool {
    diagnostic.severity == severity
        && diagnostic.code.is_none()
        && diagnostic.message.is_empty()
        && diagnostic.labels.is_empty()
        && diagnostic.notes.is_empty()
}

/// Returns whether clones of what owns no text are equal.
pub fn are_cloned() -> bool {
    is_config_cloned() && are_chars_cloned()
}

/// Returns whether the clone of the default configuration is equal.
fn is_config_cloned() -> bool {
    let config = Config::default();
    match config.clone() {
        Ok(cloned) => {
            is_same_config(&cloned, &config) && is_start(&cloned.chars.snippet_start, "┌─")
        }
        Err(_) => false,
    }
}

/// Returns whether the clone of the ASCII characters is equal.
fn are_chars_cloned() -> bool {
    let chars = Chars::ascii();
    match chars.clone() {
        Ok(cloned) => are_same_chars(&cloned, &chars) && is_start(&cloned.snippet_start, "-->"),
        Err(_) => false,
    }
}

/// Returns whether a `snippet_start` is this text, not owned.
fn is_start(start: &SnippetStart<'_>, text: &str) -> bool {
    match start {
        SnippetStart::Fixed(fixed) => *fixed == text,
        SnippetStart::Owned(_) => false,
    }
}
