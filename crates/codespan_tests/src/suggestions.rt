//! Worked suggestions over several files.

mod code_actions;
mod fix_its;
mod rendered;
mod unified_diffs;

use codespan_base::diagnostic::text::display_text;
use codespan_base::files::SimpleFiles;
use codespan_edits::Edit;
use codespan_suggestions::{Applicability, Suggestion, SuggestionError, apply_suggestion};
use std::alloc::Global;
use std::panic::Expect;
use std::process::Abort;

/// A file: its name and its text.
pub(crate) type FileRow = (&'static str, &'static str);

/// An edit: its file, its start, its end and its replacement.
pub(crate) type EditRow = (usize, usize, usize, &'static str);

/// A worked row: its name, files, edits, and what a call makes of them, or the text of their error.
type WorkedRow = (
    &'static str,
    &'static [FileRow],
    &'static [EditRow],
    &'static str,
);

/// The texts that edits make, each after the name of its file and `=`.
static WORKED_ROWS: [WorkedRow; 12] = [
    (
        "replacement",
        &[("src/main.rs", "fn main() {\n    let x = foo(y);\n}\n")],
        &[(0, 28, 29, "&y")],
        "src/main.rs=fn main() {\n    let x = foo(&y);\n}\n",
    ),
    (
        "adjacent_edits",
        &[("a.rs", "ab\n")],
        &[(0, 1, 2, "y"), (0, 0, 1, "x")],
        "a.rs=xy\n",
    ),
    (
        "several_files",
        &[
            ("a.h", "void a();\n"),
            ("same.h", "a\n"),
            ("a.c", "#include \"a.h\"\n\nvoid a() {}\n"),
        ],
        &[(2, 21, 22, "b"), (1, 0, 1, "a"), (0, 5, 6, "b")],
        "a.c=#include \"a.h\"\n\nvoid b() {}\nsame.h=a\na.h=void b();\n",
    ),
    (
        "edits_of_files_in_turn",
        &[("a.c", "ab\n"), ("b.c", "ab\n")],
        &[
            (1, 1, 2, "y"),
            (0, 0, 1, "c"),
            (1, 0, 1, "x"),
            (0, 1, 2, "d"),
        ],
        "b.c=xy\na.c=cd\n",
    ),
    (
        "insertions_at_one_position",
        &[("a.c", "b\n"), ("b.c", "b\n")],
        &[(0, 0, 0, "x("), (1, 0, 0, "z("), (0, 0, 0, "y(")],
        "a.c=x(y(b\nb.c=z(b\n",
    ),
    ("no_edit", &[("a.c", "one\n")], &[], ""),
    (
        "past_end",
        &[("a.c", "one\n")],
        &[(0, 0, 1, "x"), (0, 2, 5, "x")],
        "error: edit 1 ends past byte 4, the end of the source",
    ),
    (
        "index_in_the_suggestion",
        &[("a.c", "one\n"), ("b.c", "one\n")],
        &[(0, 0, 1, "x"), (0, 1, 2, "x"), (1, 2, 5, "x")],
        "error: edit 2 ends past byte 4, the end of the source",
    ),
    (
        "overlap_in_the_second_file",
        &[("a.c", "one two\n"), ("b.c", "one two\n")],
        &[
            (0, 2, 5, "x"),
            (1, 2, 5, "x"),
            (0, 5, 6, "x"),
            (1, 0, 3, "y"),
        ],
        "error: edit 1 overlaps edit 3",
    ),
    (
        "first_file_first",
        &[("a.c", "one\n"), ("b.c", "é\n")],
        &[(1, 0, 2, "e"), (0, 2, 1, "x"), (1, 1, 2, "x")],
        "error: edit 2: byte 1 is not a character boundary",
    ),
    (
        "missing_file",
        &[("a.c", "one\n")],
        &[(0, 0, 1, "x"), (9, 0, 1, "x")],
        "error: file missing",
    ),
    (
        "fault_before_missing_file",
        &[("a.c", "one\n")],
        &[(0, 0, 1, "x"), (9, 0, 1, "x"), (0, 3, 2, "x")],
        "error: edit 2 ends before it starts",
    ),
];

/// Returns files from their rows.
pub(crate) fn files_of(
    rt: &impl Abort,
    alloc: Global,
    rows: &[FileRow],
) -> SimpleFiles<&'static str, &'static str> {
    let mut files = SimpleFiles::new(alloc);
    for (name, text) in rows {
        files.add(*name, *text).expect(rt, "a file");
    }
    files
}

/// Returns a suggestion with edits from their rows.
pub(crate) fn suggestion_of(rt: &impl Abort, alloc: Global, rows: &[EditRow]) -> Suggestion<usize> {
    let mut suggestion = Suggestion::new(alloc);
    for (file, start, end, replacement) in rows {
        let edit = Edit::new(alloc, *file, *start..*end, *replacement).expect(rt, "an edit");
        suggestion = suggestion.with_edit(edit).expect(rt, "memory");
    }
    suggestion
}

/// Returns texts, each after the name of its file and `=`, or the text of an error after `error: `.
fn outcome_of(
    rt: &impl Abort,
    alloc: Global,
    rows: &[FileRow],
    made: Result<Vec<(usize, String)>, SuggestionError>,
) -> String {
    let mut outcome = String::new(alloc);
    match made {
        Ok(texts) => {
            for (id, text) in &texts {
                let name = rows.get(*id).map_or("?", |row| row.0);
                outcome.push_str(name).expect(rt, "memory");
                outcome.push_str("=").expect(rt, "memory");
                outcome.push_str(text.as_str()).expect(rt, "memory");
            }
        }
        Err(error) => {
            let shown = display_text(alloc, error).expect(rt, "a text");
            outcome.push_str("error: ").expect(rt, "memory");
            outcome.push_str(shown.as_str()).expect(rt, "memory");
        }
    }
    outcome
}

/// Returns a text, or that of an error after `error: `.
fn text_of(rt: &impl Abort, alloc: Global, made: Result<String, SuggestionError>) -> String {
    match made {
        Ok(text) => text,
        Err(error) => format!(in alloc; "error: {error}").expect(rt, "memory"),
    }
}

#[test]
fn worked_suggestions(rt: HostRuntime) {
    for (name, files, edits, expected) in &WORKED_ROWS {
        let database = files_of(&rt, rt.alloc(), files);
        let suggestion = suggestion_of(&rt, rt.alloc(), edits);
        let made = apply_suggestion(rt.alloc(), &database, &suggestion);
        let outcome = outcome_of(&rt, rt.alloc(), files, made);
        assert_eq!(&rt; (*name, outcome.as_str()), (*name, *expected));
    }
}

/// A copy of a suggestion is equal to it.
#[test]
fn copied_suggestion(rt: HostRuntime) {
    let suggestion = suggestion_of(&rt, rt.alloc(), &[(0, 1, 2, "x"), (1, 0, 0, "y")])
        .with_message("m")
        .expect(&rt, "the message")
        .with_applicability(Applicability::MaybeIncorrect);
    let copy = suggestion.clone().expect(&rt, "memory");
    assert_eq!(&rt; copy, suggestion);
}
