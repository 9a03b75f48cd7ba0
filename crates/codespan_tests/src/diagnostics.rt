//! Orders, constructors, builders and clones of diagnostics and labels.

ghost use Rattle.std.specs.Prelude.{◌≡◌, ◌∷◌, [], IfOk, string_bytes, codes, map};

use crate::asserts::{assert_format_error, assert_same};
use codespan_base::diagnostic::{Diagnostic, Label, LabelStyle, Severity};
use codespan_base::files::Error;
use std::alloc::Global;
use std::fmt;
use std::fmt::{Display, Write};
use std::panic::Expect;
use std::process::Abort;

/// A value whose `Display` writes two bytes and then fails.
#[derive(Drop)]
struct StopsAfterTwoBytes;

impl Display for StopsAfterTwoBytes {
    fn fmt<W: Write>(&self, f: &mut fmt::Formatter<W>) -> fmt::Result {
        f.write_str("ab")?;
        Err(fmt::Error)
    }
}

/// Returns what a chain of builders makes. What it holds follows from their contracts alone.
fn chain(alloc: Global, file_id: usize) -> Result<Diagnostic<usize>, Error>
    ensures message { IfOk result (λ d. string_bytes d.message ≡ codes "m") }
    ensures notes { IfOk result (λ d. map string_bytes d.notes.items ≡ codes "n" ∷ []) }
    ensures labels { IfOk result (λ d. map (λ label. label.file_id) d.labels.items ≡ file_id ∷ []) }
{
    Diagnostic::error(alloc)
        .with_message("m")?
        .with_note("n")?
        .with_label(Label::primary(alloc, file_id, 0..1))
}

/// Returns a diagnostic with the labels of a vector, as the contract of `with_labels_iter` alone
/// proves.
fn with_vector(alloc: Global, labels: Vec<Label<usize>>) -> Result<Diagnostic<usize>, Error>
    ensures { IfOk result (λ d. d.labels.items ≡ labels.items) }
{
    Diagnostic::error(alloc).with_labels_iter(labels)
}

/// Returns a diagnostic with the notes of an iterator, as the contract of `with_notes_iter` alone
/// proves.
fn with_iterator(alloc: Global, notes: Vec<String>) -> Result<Diagnostic<usize>, Error>
    ensures { IfOk result (λ d. d.notes.items ≡ notes.items) }
{
    Diagnostic::error(alloc).with_notes_iter(notes.into_iter())
}

/// Asserts that a value is less than another one, and that one greater.
fn assert_ascends<T: PartialOrd>(rt: &impl Abort, less: &T, greater: &T) {
    assert!(rt; less < greater && greater > less);
}

#[test]
fn orders_of_severities_and_label_styles(rt: HostRuntime) {
    assert_ascends(&rt, &Severity::Error, &Severity::Bug);
    assert_ascends(&rt, &Severity::Warning, &Severity::Error);
    assert_ascends(&rt, &Severity::Note, &Severity::Warning);
    assert_ascends(&rt, &Severity::Help, &Severity::Note);
    assert_ascends(&rt, &LabelStyle::Primary, &LabelStyle::Secondary);
}

/// Asserts that a diagnostic has this severity, and nothing else.
fn assert_is_new(rt: &impl Abort, made: Diagnostic<usize>, severity: Severity) {
    let parts = (made.severity, made.code.is_none(), made.message.as_str());
    assert_same(rt, &parts, &(severity, true, ""));
    assert_same(rt, &(made.labels.len(), made.notes.len()), &(0, 0));
}

/// Returns what the constructor of a severity makes.
fn constructed(alloc: Global, severity: Severity) -> Diagnostic<usize> {
    match severity {
        Severity::Bug => Diagnostic::bug(alloc),
        Severity::Error => Diagnostic::error(alloc),
        Severity::Warning => Diagnostic::warning(alloc),
        Severity::Note => Diagnostic::note(alloc),
        Severity::Help => Diagnostic::help(alloc),
    }
}

/// The severities.
static SEVERITIES: [Severity; 5] = [
    Severity::Bug,
    Severity::Error,
    Severity::Warning,
    Severity::Note,
    Severity::Help,
];

#[test]
fn constructors(rt: HostRuntime) {
    for severity in &SEVERITIES {
        assert_is_new(&rt, constructed(rt.alloc(), *severity), *severity);
    }
    let note = Diagnostic::new(rt.alloc(), Severity::Note);
    assert_is_new(&rt, note, Severity::Note);
}

/// Asserts that a label has this style, the file 3, the range `5..2` and no message.
fn assert_is_label(rt: &impl Abort, label: Label<usize>, style: LabelStyle) {
    let parts = (label.style, label.file_id, label.message.as_str());
    assert_same(rt, &parts, &(style, 3, ""));
    assert_same(rt, &label.range, &(5..2));
}

#[test]
fn constructors_of_labels(rt: HostRuntime) {
    let alloc = rt.alloc();
    let label = Label::new(alloc, LabelStyle::Secondary, 3, 5..2);
    assert_is_label(&rt, label, LabelStyle::Secondary);
    let label = Label::primary(alloc, 3, 5..2);
    assert_is_label(&rt, label, LabelStyle::Primary);
    let label = Label::secondary(alloc, 3, 5..2);
    assert_is_label(&rt, label, LabelStyle::Secondary);
}

/// Returns a label in the file `'a'`.
fn label(alloc: Global) -> Result<Label<char>, Error> {
    Label::primary(alloc, 'a', 0..1).with_message("here")
}

/// Returns a diagnostic with a text of each kind: two notes, a label, and a code of digits.
fn with_texts(rt: &impl Abort, alloc: Global) -> Diagnostic<char> {
    let label = label(alloc).expect(rt, "a label");
    Diagnostic::error(alloc)
        .with_code(308)
        .expect(rt, "the code")
        .with_message("mismatched types")
        .expect(rt, "the message")
        .with_note("one")
        .expect(rt, "a note")
        .with_note('2')
        .expect(rt, "two notes")
        .with_label(label)
        .expect(rt, "the label")
}

/// Asserts that the note at an index has this text.
fn assert_note(rt: &impl Abort, notes: &[String], index: usize, text: &str) {
    let note = notes.get(index).expect(rt, "a note");
    assert_same(rt, &note.as_str(), &text);
}

#[test]
fn texts(rt: HostRuntime) {
    let diagnostic = with_texts(&rt, rt.alloc());
    let texts = (diagnostic.code.as_deref(), diagnostic.message.as_str());
    assert_same(&rt, &texts, &(Some("308"), "mismatched types"));
}

/// Asserts that there is exactly one label, and that its message is `here`.
fn assert_one_label(rt: &impl Abort, labels: &[Label<char>]) {
    assert_same(rt, &labels.len(), &1);
    for label in labels {
        assert_same(rt, &label.message.as_str(), &"here");
    }
}

#[test]
fn texts_of_notes_and_labels(rt: HostRuntime) {
    let diagnostic = with_texts(&rt, rt.alloc());
    let notes = diagnostic.notes.as_slice();
    assert_same(&rt, &notes.len(), &2);
    assert_note(&rt, notes, 0, "one");
    assert_note(&rt, notes, 1, "2");
    assert_one_label(&rt, diagnostic.labels.as_slice());
}

#[test]
fn clone_of_diagnostic(rt: HostRuntime) {
    let diagnostic = with_texts(&rt, rt.alloc());
    let copy = diagnostic.clone().expect(&rt, "a copy");
    assert_same(&rt, &copy, &diagnostic);
}

#[test]
fn clone_of_label(rt: HostRuntime) {
    let label = label(rt.alloc()).expect(&rt, "a label");
    let copy = label.clone().expect(&rt, "a copy");
    assert_same(&rt, &copy, &label);
}

/// Returns the labels of the chain for this file.
fn labels_of_chain(rt: &impl Abort, alloc: Global, file_id: usize) -> Vec<Label<usize>> {
    chain(alloc, file_id).expect(rt, "a chain").labels
}

/// Returns a diagnostic with the labels of a chain, of a vector and of an iterator, in this order.
fn with_labels_of_three(rt: &impl Abort, alloc: Global) -> Diagnostic<usize> {
    let second = with_vector(alloc, labels_of_chain(rt, alloc, 8)).expect(rt, "a vector");
    let first = chain(alloc, 7).expect(rt, "a chain");
    let both = first.with_labels(second.labels).expect(rt, "the labels");
    both.with_labels_iter(labels_of_chain(rt, alloc, 9))
        .expect(rt, "the last label")
}

/// Returns the notes of a chain, as those of an iterator.
fn notes_of_iterator(rt: &impl Abort, alloc: Global) -> Vec<String> {
    let notes = chain(alloc, 9).expect(rt, "a chain").notes;
    with_iterator(alloc, notes).expect(rt, "an iterator").notes
}

/// Returns a vector of one note.
fn last_note(rt: &impl Abort, alloc: Global) -> Vec<String> {
    let mut notes = Vec::new(alloc);
    let last = String::from_str(alloc, "last").expect(rt, "a note");
    notes.push(last).expect(rt, "a vector");
    notes
}

/// Returns a diagnostic with the notes of a chain, of a vector and of an iterator, in this order.
fn with_notes_of_three(rt: &impl Abort, alloc: Global) -> Result<Diagnostic<usize>, Error> {
    let first = chain(alloc, 7).expect(rt, "a chain");
    first
        .with_notes(notes_of_iterator(rt, alloc))?
        .with_notes_iter(last_note(rt, alloc).into_iter())
}

/// Asserts that the label at an index is in this file.
fn assert_file_id(rt: &impl Abort, labels: &[Label<usize>], index: usize, file_id: usize) {
    let label = labels.get(index).expect(rt, "a label");
    assert_same(rt, &label.file_id, &file_id);
}

#[test]
fn lists_of_labels(rt: HostRuntime) {
    let whole = with_labels_of_three(&rt, rt.alloc());
    let labels = whole.labels.as_slice();
    assert_same(&rt, &labels.len(), &3);
    assert_file_id(&rt, labels, 0, 7);
    assert_file_id(&rt, labels, 1, 8);
    assert_file_id(&rt, labels, 2, 9);
}

#[test]
fn lists_of_notes(rt: HostRuntime) {
    let whole = with_notes_of_three(&rt, rt.alloc()).expect(&rt, "a diagnostic");
    let notes = whole.notes.as_slice();
    assert_same(&rt, &notes.len(), &3);
    assert_note(&rt, notes, 0, "n");
    assert_note(&rt, notes, 1, "n");
    assert_note(&rt, notes, 2, "last");
}

#[test]
fn failing_display(rt: HostRuntime) {
    let alloc = rt.alloc();
    let label = Label::primary(alloc, 0usize, 0..1).with_message(StopsAfterTwoBytes);
    assert_format_error(&rt, label);
    let message = Diagnostic::<usize>::error(alloc).with_message(StopsAfterTwoBytes);
    assert_format_error(&rt, message);
    let code = Diagnostic::<usize>::error(alloc).with_code(StopsAfterTwoBytes);
    assert_format_error(&rt, code);
    let note = Diagnostic::<usize>::error(alloc).with_note(StopsAfterTwoBytes);
    assert_format_error(&rt, note);
}
