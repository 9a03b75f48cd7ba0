//! Worked diagnostics, and the first program of `docs/LSP.md`.

use crate::asserts::{assert_column_too_large, assert_file_missing, assert_same};
use crate::fixtures::{simple_file, two_files};
use codespan_base::diagnostic::{Diagnostic, Label, Severity};
use codespan_base::files::{Error, Files, SimpleFile, SimpleFiles};
use codespan_lsp::{
    DiagnosticSeverity, LspDiagnostic, Position, PositionEncoding, Range, byte_index_to_position,
    position_to_byte_index, to_lsp_diagnostics,
};
use std::alloc::Global;
use std::panic::Expect;
use std::process::Abort;

/// Returns the position of a line and a character.
fn position((line, character): (u32, u32)) -> Position {
    Position { line, character }
}

/// Returns a range, of the lines and the characters of its start and of its end.
fn between(start: (u32, u32), end: (u32, u32)) -> Range {
    Range {
        start: position(start),
        end: position(end),
    }
}

/// Returns a range on one line.
fn on_line(line: u32, start: u32, end: u32) -> Range {
    between((line, start), (line, end))
}

/// Returns an error with its labels in file 0, the caller, and in file 1, the callee.
fn with_labels(rt: &impl Abort, alloc: Global) -> Diagnostic<usize> {
    let declared = Label::secondary(alloc, 1, 8..12)
        .with_message("declared here")
        .expect(rt, "a label");
    let called = Label::primary(alloc, 0, 4..7)
        .with_message("one argument is missing")
        .expect(rt, "a label");
    Diagnostic::error(alloc)
        .with_label(declared)
        .expect(rt, "one label")
        .with_label(called)
        .expect(rt, "two labels")
        .with_label(Label::primary(alloc, 0, 9..12))
        .expect(rt, "three labels")
}

/// Returns the error of a call of `f` in one file, declared in another one, where `𐐀` is before
/// it.
fn missing_argument(rt: &impl Abort, alloc: Global) -> Diagnostic<usize> {
    with_labels(rt, alloc)
        .with_code("E0061")
        .expect(rt, "the code")
        .with_message("too few arguments")
        .expect(rt, "the message")
        .with_note("note: `f` takes one argument")
        .expect(rt, "the note")
}

/// The first program of the guide.
#[test]
fn first_program(rt: HostRuntime) {
    let file = SimpleFile::new(rt.alloc(), "greeting.txt", "hi\na𐐀b").expect(&rt, "a file");
    let position = byte_index_to_position(&file, (), 8).expect(&rt, "a position");
    let byte_index = position_to_byte_index(&file, (), &position).expect(&rt, "a byte index");
    let utf8 = PositionEncoding::Utf8
        .byte_index_to_position(&file, (), 8)
        .expect(&rt, "a position in UTF-8");
    assert!(rt; (position.line, position.character) == (1, 3));
    assert!(rt; (byte_index, utf8.character) == (8, 5));
}

/// Severities, and their numbers.
static SEVERITIES: [(Severity, u8); 5] = [
    (Severity::Bug, 1),
    (Severity::Error, 1),
    (Severity::Warning, 2),
    (Severity::Note, 3),
    (Severity::Help, 4),
];

/// The protocol numbers severities 1 for an error, 2 for a warning, 3 for information and 4 for a
/// hint.
#[test]
fn severities(rt: HostRuntime) {
    for (severity, number) in &SEVERITIES {
        assert_same(&rt, &DiagnosticSeverity::from(*severity).number(), number);
    }
}

/// Returns the LSP diagnostics of that error.
fn lsp_diagnostics(rt: &impl Abort, alloc: Global) -> Vec<LspDiagnostic<usize>> {
    let files = two_files(rt, alloc, "ab\n\nf()\n f()", "/*𐐀*/fn f(x)");
    let diagnostic = missing_argument(rt, alloc);
    to_lsp_diagnostics(&files, &diagnostic).expect(rt, "LSP diagnostics")
}

/// Asserts that the LSP diagnostic at an index has this range and message.
fn assert_is_at(
    rt: &impl Abort,
    diagnostics: &[LspDiagnostic<usize>],
    index: usize,
    range: Range,
    message: &str,
) {
    let one = diagnostics.get(index).expect(rt, "a diagnostic");
    assert_same(rt, &(one.range, one.message.as_str()), &(range, message));
}

/// The message of the primary label that has one of its own.
const CALLED: &str = "too few arguments\none argument is missing\nnote: `f` takes one argument";

/// The message of the other one.
const AGAIN: &str = "too few arguments\nnote: `f` takes one argument";

/// One diagnostic for each primary label.
#[test]
fn two_primary_labels(rt: HostRuntime) {
    let diagnostics = lsp_diagnostics(&rt, rt.alloc());
    assert_same(&rt, &diagnostics.len(), &2);
    assert_is_at(&rt, diagnostics.as_slice(), 0, on_line(2, 0, 3), CALLED);
    assert_is_at(&rt, diagnostics.as_slice(), 1, on_line(3, 1, 4), AGAIN);
}

/// Asserts that a diagnostic has the file of its label, and what the error has.
fn assert_shared(rt: &impl Abort, one: &LspDiagnostic<usize>) {
    assert_same(
        rt,
        &(one.file_id, one.severity),
        &(0, DiagnosticSeverity::Error),
    );
    assert_same(rt, &one.code.as_deref(), &Some("E0061"));
}

/// Each has the file of its label, and what the diagnostic has.
#[test]
fn same_of_each_primary_label(rt: HostRuntime) {
    let diagnostics = lsp_diagnostics(&rt, rt.alloc());
    assert_same(&rt, &diagnostics.len(), &2);
    for one in &diagnostics {
        assert_shared(&rt, one);
    }
}

/// Asserts that a diagnostic has the secondary label, and no other.
fn assert_related(rt: &impl Abort, one: &LspDiagnostic<usize>) {
    assert_same(rt, &one.related_information.len(), &1);
    for related in &one.related_information {
        let parts = (related.file_id, related.range, related.message.as_str());
        assert_same(rt, &parts, &(1, on_line(0, 6, 10), "declared here"));
    }
}

/// Each has the secondary label.
#[test]
fn related_information(rt: HostRuntime) {
    let diagnostics = lsp_diagnostics(&rt, rt.alloc());
    assert_same(&rt, &diagnostics.len(), &2);
    for one in &diagnostics {
        assert_related(&rt, one);
    }
}

/// Returns an error with two labels that start after their ends.
fn with_reversed_labels(rt: &impl Abort, alloc: Global) -> Diagnostic<usize> {
    Diagnostic::error(alloc)
        .with_label(Label::secondary(alloc, 1, 12..2))
        .expect(rt, "one label")
        .with_label(Label::primary(alloc, 0, 12..4))
        .expect(rt, "two labels")
}

/// Reversed labels have ordered ranges, over two lines and on one.
#[test]
fn reversed_labels(rt: HostRuntime) {
    let files = two_files(&rt, rt.alloc(), "ab\n\nf()\n f()", "/*𐐀*/fn f(x)");
    let diagnostic = with_reversed_labels(&rt, rt.alloc());
    let diagnostics = to_lsp_diagnostics(&files, &diagnostic).expect(&rt, "LSP diagnostics");
    let one = diagnostics.first().expect(&rt, "a diagnostic");
    let related = one.related_information.first().expect(&rt, "a label");
    assert_same(&rt, &one.range, &between((2, 0), (3, 4)));
    assert_same(&rt, &related.range, &on_line(0, 2, 10));
}

/// Returns the LSP diagnostics of a warning with this label.
fn of_warning<'a, F: Files<'a>>(
    alloc: Global,
    files: &'a F,
    label: Label<F::FileId>,
) -> Result<Vec<LspDiagnostic<F::FileId>>, Error> {
    to_lsp_diagnostics(files, &Diagnostic::warning(alloc).with_label(label)?)
}

/// There is none where no label is primary.
#[test]
fn no_primary_label(rt: HostRuntime) {
    let file = simple_file(&rt, rt.alloc(), "abc");
    let label = Label::secondary(rt.alloc(), (), 0..9);
    let diagnostics = of_warning(rt.alloc(), &file, label).expect(&rt, "LSP diagnostics");
    assert!(rt; diagnostics.is_empty());
}

/// A primary label past the end fails.
#[test]
fn label_past_end(rt: HostRuntime) {
    let file = simple_file(&rt, rt.alloc(), "abc");
    let label = Label::primary(rt.alloc(), (), 0..9);
    assert_column_too_large(&rt, of_warning(rt.alloc(), &file, label), (9, 3));
}

/// Of a reversed label whose ends are both past the end the lesser one fails.
#[test]
fn reversed_label_past_end(rt: HostRuntime) {
    let file = simple_file(&rt, rt.alloc(), "abc");
    let label = Label::primary(rt.alloc(), (), 9..7);
    assert_column_too_large(&rt, of_warning(rt.alloc(), &file, label), (7, 3));
}

/// A missing file fails.
#[test]
fn missing_file(rt: HostRuntime) {
    let files: SimpleFiles<&str, &str> = SimpleFiles::new(rt.alloc());
    let label = Label::primary(rt.alloc(), 0, 0..0);
    assert_file_missing(&rt, of_warning(rt.alloc(), &files, label));
}
