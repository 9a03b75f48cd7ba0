//! Worked code actions.

use super::{EditRow, FileRow, files_of, suggestion_of};
use codespan_base::diagnostic::text::display_text;
use codespan_lsp::{Position, PositionEncoding, Range};
use codespan_suggestions::{Applicability, CodeActionKind, TextEdit, code_action};
use std::panic::Expect;
use std::process::Abort;

/// A text edit: the line and the character of its start, those of its end, and its text.
type TextEditRow = (u32, u32, u32, u32, &'static str);

/// A worked row: its name, the encoding, a file, edits, and the text edits that they are.
type ActionRow = (
    &'static str,
    PositionEncoding,
    &'static [FileRow],
    &'static [EditRow],
    &'static [TextEditRow],
);

static WORKED_ROWS: [ActionRow; 5] = [
    (
        "wide_characters",
        PositionEncoding::Utf16,
        &[("a.txt", "世界\tx\né\ty\n")],
        &[(0, 3, 6, "人"), (0, 11, 12, "z")],
        &[(0, 1, 0, 2, "人"), (1, 1, 1, 2, "z")],
    ),
    (
        "wide_characters in bytes",
        PositionEncoding::Utf8,
        &[("a.txt", "世界\tx\né\ty\n")],
        &[(0, 3, 6, "人"), (0, 11, 12, "z")],
        &[(0, 3, 0, 6, "人"), (1, 2, 1, 3, "z")],
    ),
    (
        "insertions_at_one_position",
        PositionEncoding::Utf16,
        &[("a.rs", "b\n")],
        &[(0, 0, 1, "B"), (0, 0, 0, "x("), (0, 0, 0, "y(")],
        &[(0, 0, 0, 0, "x("), (0, 0, 0, 0, "y("), (0, 0, 0, 1, "B")],
    ),
    (
        "code_action",
        PositionEncoding::Utf16,
        &[("a.rs", "𐐀(y)\n")],
        &[(0, 5, 6, "&y")],
        &[(0, 3, 0, 4, "&y")],
    ),
    (
        "code_action in characters",
        PositionEncoding::Utf32,
        &[("a.rs", "𐐀(y)\n")],
        &[(0, 5, 6, "&y")],
        &[(0, 2, 0, 3, "&y")],
    ),
];

/// Returns the range between two positions.
fn range_of(start_line: u32, start: u32, end_line: u32, end: u32) -> Range {
    Range {
        start: Position {
            line: start_line,
            character: start,
        },
        end: Position {
            line: end_line,
            character: end,
        },
    }
}

/// Asserts that text edits are these, one after another.
fn assert_text_edits(rt: &impl Abort, name: &str, edits: &[TextEdit], expected: &[TextEditRow]) {
    assert_eq!(rt; (name, edits.len()), (name, expected.len()));
    for (at, edit) in edits.iter().enumerate() {
        match expected.get(at) {
            Some((start_line, start, end_line, end, text)) => {
                let range = range_of(*start_line, *start, *end_line, *end);
                assert_eq!(rt; edit.range, range, "{name}");
                assert_eq!(rt; (name, edit.new_text.as_str()), (name, *text));
            }
            None => assert!(rt; false, "{name}"),
        }
    }
}

#[test]
fn worked_code_actions(rt: HostRuntime) {
    for (name, encoding, files, edits, expected) in &WORKED_ROWS {
        let database = files_of(&rt, rt.alloc(), files);
        let suggestion = suggestion_of(&rt, rt.alloc(), edits);
        let action = code_action(*encoding, &database, &suggestion).expect(&rt, "an action");
        assert_eq!(&rt; (*name, action.edit.len()), (*name, 1));
        for file in &action.edit {
            assert_text_edits(&rt, name, &file.text_edits, expected);
        }
    }
}

/// The title is the message, and only what may be applied without asking is preferred. Files are in
/// the order of their first edits.
#[test]
fn fields_of_code_actions(rt: HostRuntime) {
    let rows = [("a.c", "one\n"), ("b.c", "one\n")];
    let database = files_of(&rt, rt.alloc(), &rows);
    let suggestion = suggestion_of(&rt, rt.alloc(), &[(1, 0, 1, "x"), (0, 1, 2, "y")])
        .with_message("rename")
        .expect(&rt, "the message");
    let encoding = PositionEncoding::Utf16;
    let action = code_action(encoding, &database, &suggestion).expect(&rt, "an action");
    assert_eq!(&rt; action.title.as_str(), "rename");
    assert_eq!(&rt; action.kind, CodeActionKind::QuickFix);
    assert_eq!(&rt; action.kind.name(), "quickfix");
    assert!(&rt; !action.is_preferred);
    assert_eq!(&rt; action.edit.len(), 2);
    for (file, id) in action.edit.iter().zip([1, 0].iter()) {
        assert_eq!(&rt; file.file_id, *id);
    }
    let sure = suggestion.with_applicability(Applicability::MachineApplicable);
    let action = code_action(encoding, &database, &sure).expect(&rt, "an action");
    assert!(&rt; action.is_preferred);
}

/// A fault of the edits is the error.
#[test]
fn faults_of_code_actions(rt: HostRuntime) {
    let database = files_of(&rt, rt.alloc(), &[("a.c", "é\n")]);
    let suggestion = suggestion_of(&rt, rt.alloc(), &[(0, 1, 2, "x")]);
    match code_action(PositionEncoding::Utf16, &database, &suggestion) {
        Ok(_) => assert!(&rt; false, "an action"),
        Err(error) => {
            let text = display_text(rt.alloc(), error).expect(&rt, "a text");
            assert_eq!(&rt; text.as_str(), "edit 0: byte 1 is not a character boundary");
        }
    }
}
