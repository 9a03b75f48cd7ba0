//! The subjects, and their names.

use crate::builders::{
    DiagnosticCall, LabelCall, ListCall, TextCall, judge_diagnostic, judge_label,
};
use crate::clones::{CloneCall, judge_clone};
use crate::databases::{DatabaseCall, judge_database};
use crate::documents::{Format, StyledOrLspCall, judge_styled_or_lsp};
use crate::edits::{EditsCall, judge_edits};
use crate::native::{NATIVE, NativeCall, judge_native};
use crate::outcome::{Outcome, outcome_of};
use crate::rendering::{RenderCall, judge_rendering};
use crate::suggestions::{SuggestionCall, judge_suggestion};
use crate::without_alloc::{Stage, judge_without_alloc};
use crate::worked_outputs::{
    COLOURED_HEADER, LONG_LINES, MAPPED_NUMBERS, MEDIUM, MISMATCHED_TYPES, MUTABLE_BORROWS, SHORT,
    SURROUNDING_LINES, TWO_FILES, WorkedOutput,
};
use std::alloc::Global;

/// A call that is made and judged.
#[derive(Clone, Copy)]
pub enum Subject {
    /// A call of a label.
    Label(LabelCall),
    /// A call of a diagnostic.
    Diagnostic(DiagnosticCall),
    /// A clone of a configuration or of a part of it.
    Clone(CloneCall),
    /// A call of a file database.
    Database(DatabaseCall),
    /// A call that renders, and what it renders.
    Rendering(RenderCall, &'static WorkedOutput<'static>),
    /// A call of `codespan_styled` or `codespan_lsp`.
    StyledOrLsp(StyledOrLspCall),
    /// A call of `codespan_edits`.
    Edits(EditsCall),
    /// A call of `codespan_suggestions`.
    Suggestion(SuggestionCall),
    /// A call of `codespan_native`.
    Native(NativeCall),
    /// The calls that do not allocate.
    WithoutAlloc(Stage),
}

/// A subject named by one word, with its name.
pub type NamedSubject = (&'static str, Subject);

/// The calls of labels and diagnostics.
static BUILDERS: [NamedSubject; 11] = [
    (
        "Label::with_message",
        Subject::Label(LabelCall::WithMessage),
    ),
    ("Label::clone", Subject::Label(LabelCall::Clone)),
    (
        "Diagnostic::with_code",
        Subject::Diagnostic(DiagnosticCall::WithText(TextCall::Code)),
    ),
    (
        "Diagnostic::with_message",
        Subject::Diagnostic(DiagnosticCall::WithText(TextCall::Message)),
    ),
    (
        "Diagnostic::with_label",
        Subject::Diagnostic(DiagnosticCall::WithLabel),
    ),
    (
        "Diagnostic::with_labels",
        Subject::Diagnostic(DiagnosticCall::WithLabels(ListCall::OfVector)),
    ),
    (
        "Diagnostic::with_labels_iter",
        Subject::Diagnostic(DiagnosticCall::WithLabels(ListCall::OfIterator)),
    ),
    (
        "Diagnostic::with_note",
        Subject::Diagnostic(DiagnosticCall::WithText(TextCall::Note)),
    ),
    (
        "Diagnostic::with_notes",
        Subject::Diagnostic(DiagnosticCall::WithNotes(ListCall::OfVector)),
    ),
    (
        "Diagnostic::with_notes_iter",
        Subject::Diagnostic(DiagnosticCall::WithNotes(ListCall::OfIterator)),
    ),
    (
        "Diagnostic::clone",
        Subject::Diagnostic(DiagnosticCall::Clone),
    ),
];

/// The clones of configurations and of parts of them.
static CLONES: [NamedSubject; 3] = [
    (
        "SnippetStart::clone",
        Subject::Clone(CloneCall::SnippetStart),
    ),
    ("Chars::clone", Subject::Clone(CloneCall::Chars)),
    ("Config::clone", Subject::Clone(CloneCall::Config)),
];

/// The calls of file databases.
static DATABASES: [NamedSubject; 4] = [
    (
        "SimpleFile::new",
        Subject::Database(DatabaseCall::SimpleFileNew),
    ),
    ("SimpleFiles::add", Subject::Database(DatabaseCall::Add)),
    (
        "MappedFile::new",
        Subject::Database(DatabaseCall::MappedFileNew),
    ),
    (
        "MappedFile::set_line",
        Subject::Database(DatabaseCall::SetLine),
    ),
];

/// The calls of `codespan_styled` and `codespan_lsp`.
static STYLED_OR_LSP: [NamedSubject; 7] = [
    (
        "styled_text",
        Subject::StyledOrLsp(StyledOrLspCall::StyledText),
    ),
    (
        "to_html",
        Subject::StyledOrLsp(StyledOrLspCall::Format(Format::Html)),
    ),
    (
        "html_styles",
        Subject::StyledOrLsp(StyledOrLspCall::HtmlStyles),
    ),
    (
        "to_svg",
        Subject::StyledOrLsp(StyledOrLspCall::Format(Format::Svg)),
    ),
    (
        "to_terminal",
        Subject::StyledOrLsp(StyledOrLspCall::Format(Format::Terminal)),
    ),
    ("safe_text", Subject::StyledOrLsp(StyledOrLspCall::SafeText)),
    (
        "to_lsp_diagnostics",
        Subject::StyledOrLsp(StyledOrLspCall::ToLspDiagnostics),
    ),
];

/// The calls of `codespan_edits` and `codespan_suggestions`.
static EDITS: [NamedSubject; 9] = [
    ("apply_edits", Subject::Edits(EditsCall::ApplyEdits)),
    ("diff", Subject::Edits(EditsCall::Diff)),
    ("diff_hunks", Subject::Edits(EditsCall::DiffHunks)),
    (
        "apply_suggestion",
        Subject::Suggestion(SuggestionCall::Apply),
    ),
    (
        "emit_suggestion_into_string",
        Subject::Suggestion(SuggestionCall::EmitIntoString),
    ),
    (
        "emit_suggestion_to_write_style",
        Subject::Suggestion(SuggestionCall::EmitToWriteStyle),
    ),
    (
        "unified_diff",
        Subject::Suggestion(SuggestionCall::UnifiedDiff),
    ),
    ("fix_its", Subject::Suggestion(SuggestionCall::FixIts)),
    (
        "code_action",
        Subject::Suggestion(SuggestionCall::CodeAction),
    ),
];

/// The calls that do not allocate.
static WITHOUT_ALLOC: [NamedSubject; 2] = [
    (
        "without_alloc_prepared",
        Subject::WithoutAlloc(Stage::Preparation),
    ),
    ("without_alloc", Subject::WithoutAlloc(Stage::Calls)),
];

/// The first words of the subjects named by two words, with their calls.
static RENDER_CALLS: [(&str, RenderCall); 6] = [
    ("render", RenderCall::Render),
    ("emit_to_write_style", RenderCall::EmitToWriteStyle),
    ("emit_to_io_write", RenderCall::EmitToIoWrite),
    ("emit", RenderCall::Emit),
    ("emit_into_string", RenderCall::EmitIntoString),
    ("emit_to_string", RenderCall::EmitToString),
];

/// The second words of the subjects named by two words, with what they name.
static WORKED_OUTPUTS: [(&str, &WorkedOutput<'static>); 9] = [
    ("mutable_borrows", &MUTABLE_BORROWS),
    ("mismatched_types", &MISMATCHED_TYPES),
    ("coloured_header", &COLOURED_HEADER),
    ("two_files", &TWO_FILES),
    ("medium", &MEDIUM),
    ("short", &SHORT),
    ("mapped_numbers", &MAPPED_NUMBERS),
    ("surrounding_lines", &SURROUNDING_LINES),
    ("long_lines", &LONG_LINES),
];

/// Returns the subjects named by one word.
pub fn named_subjects() -> [&'static [NamedSubject]; 7] {
    [
        &BUILDERS,
        &CLONES,
        &DATABASES,
        &STYLED_OR_LSP,
        &EDITS,
        &NATIVE,
        &WITHOUT_ALLOC,
    ]
}

/// Returns the first words of the subjects named by two words, with their calls.
pub fn render_calls() -> &'static [(&'static str, RenderCall)] {
    &RENDER_CALLS
}

/// Returns the second words of the subjects named by two words, with what they name.
pub fn worked_outputs() -> &'static [(&'static str, &'static WorkedOutput<'static>)] {
    &WORKED_OUTPUTS
}

impl Subject {
    /// Returns the subject that the arguments name, or `None` if there is none of that name.
    pub fn from_arguments(args: &[String]) -> Option<Subject> {
        match args {
            [word] => subject_named(word.as_str()),
            [call, worked_name] => Some(Subject::Rendering(
                entry_named(render_calls(), call.as_str())?,
                entry_named(worked_outputs(), worked_name.as_str())?,
            )),
            _ => None,
        }
    }

    /// Prepares the subject, makes its call, and judges the outcome.
    pub fn judge(self, alloc: Global) -> Outcome {
        outcome_of(match self {
            Subject::Label(call) => judge_label(alloc, call),
            Subject::Diagnostic(call) => judge_diagnostic(alloc, call),
            Subject::Clone(call) => judge_clone(alloc, call),
            Subject::Database(call) => judge_database(alloc, call),
            Subject::Rendering(call, worked) => judge_rendering(alloc, call, worked),
            Subject::StyledOrLsp(call) => judge_styled_or_lsp(alloc, call),
            Subject::Edits(call) => judge_edits(alloc, call),
            Subject::Suggestion(call) => judge_suggestion(alloc, call),
            Subject::Native(call) => Ok(judge_native(alloc, call)),
            Subject::WithoutAlloc(stage) => judge_without_alloc(alloc, stage),
        })
    }
}

/// Returns the subject that a single word names, if there is one.
fn subject_named(name: &str) -> Option<Subject> {
    for subjects in &named_subjects() {
        if let Some(subject) = entry_named(subjects, name) {
            return Some(subject);
        }
    }
    None
}

/// Returns the value of this name in a table, if there is one.
fn entry_named<T: Copy>(table: &[(&str, T)], name: &str) -> Option<T> {
    for (known, value) in table {
        if *known == name {
            return Some(*value);
        }
    }
    None
}
