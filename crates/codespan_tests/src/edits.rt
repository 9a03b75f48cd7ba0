//! Edits of worked texts.

mod diffs;
mod hunks;

use codespan_base::diagnostic::text::display_text;
use codespan_edits::{Edit, EditError, apply_edits};
use std::alloc::Global;
use std::panic::Expect;
use std::process::Abort;

/// An edit: its start, its end and its replacement.
pub(crate) type EditRow = (usize, usize, &'static str);

/// A worked row: its name, a source, edits, and the text that they make or the text of their error.
type WorkedRow = (&'static str, &'static str, &'static [EditRow], &'static str);

static WORKED_ROWS: [WorkedRow; 37] = [
    (
        "replacement",
        "fn main() {\n    let x = foo(y);\n}\n",
        &[(28, 29, "&y")],
        "fn main() {\n    let x = foo(&y);\n}\n",
    ),
    (
        "insertion_of_line",
        "use a;\nfn f() {}\n",
        &[(7, 7, "use b;\n")],
        "use a;\nuse b;\nfn f() {}\n",
    ),
    (
        "insertion_before_newline",
        "use a;\nfn f() {}\n",
        &[(6, 6, "\nuse b;")],
        "use a;\nuse b;\nfn f() {}\n",
    ),
    (
        "deletion_in_line",
        "let mut x = 1;\n",
        &[(4, 8, "")],
        "let x = 1;\n",
    ),
    (
        "deletion_of_line",
        "use a;\nuse b;\nfn f() {}\n",
        &[(7, 14, "")],
        "use a;\nfn f() {}\n",
    ),
    (
        "start_of_file",
        "int main;\n",
        &[(0, 0, "// header\n")],
        "// header\nint main;\n",
    ),
    (
        "end_of_file",
        "int main;\n",
        &[(10, 10, "int x;\n")],
        "int main;\nint x;\n",
    ),
    ("empty_file", "", &[(0, 0, "one\n")], "one\n"),
    ("emptied_file", "int main;\n", &[(0, 10, "")], ""),
    (
        "newline_added_at_end",
        "one\ntwo",
        &[(7, 7, "\n")],
        "one\ntwo\n",
    ),
    (
        "newline_removed_at_end",
        "one\ntwo\n",
        &[(7, 8, "")],
        "one\ntwo",
    ),
    (
        "crlf_to_lf",
        "one\ntwo\r\nend\n",
        &[(7, 8, "")],
        "one\ntwo\nend\n",
    ),
    ("null_at_end", "one\ntwo\0\n", &[(4, 7, "2")], "one\n2\0\n"),
    (
        "wide_characters",
        "世界\tx\né\ty\n",
        &[(3, 6, "人"), (11, 12, "z")],
        "世人\tx\nézy\n",
    ),
    (
        "twice_in_one_line",
        "f(a, b);\n",
        &[(5, 6, "a"), (2, 3, "b")],
        "f(b, a);\n",
    ),
    (
        "adjacent_edits",
        "ab\n",
        &[(1, 2, "y"), (0, 1, "x")],
        "xy\n",
    ),
    (
        "insertions_at_one_position",
        "b\n",
        &[(0, 1, "B"), (0, 0, "x("), (0, 0, "y(")],
        "x(y(B\n",
    ),
    (
        "next_lines",
        "a1\na2\na3\n",
        &[(0, 1, "b"), (3, 4, "b"), (6, 7, "b")],
        "b1\nb2\nb3\n",
    ),
    (
        "far_apart",
        "1\n2\n3\n4\n5\n6\n7\n8\n9\n",
        &[(2, 2, "new\nnew\n"), (14, 15, "eight")],
        "1\nnew\nnew\n2\n3\n4\n5\n6\n7\neight\n9\n",
    ),
    (
        "join_lines",
        "let x =\n    1;\nlet y;\n",
        &[(7, 12, " ")],
        "let x = 1;\nlet y;\n",
    ),
    (
        "split_line",
        "f(a, b);\n",
        &[(4, 5, "\n  ")],
        "f(a,\n  b);\n",
    ),
    (
        "moved_line",
        "use b;\nuse a;\nuse c;\n",
        &[(0, 7, ""), (14, 14, "use b;\n")],
        "use a;\nuse b;\nuse c;\n",
    ),
    ("nothing_changes", "one\n", &[(0, 3, "one")], "one\n"),
    ("nothing_changes_short", "one\n", &[], "one\n"),
    (
        "reversed",
        "one\n",
        &[(2, 1, "x")],
        "error: edit 0 ends before it starts",
    ),
    (
        "past_end",
        "one\n",
        &[(0, 1, "x"), (2, 5, "x")],
        "error: edit 1 ends past byte 4, the end of the source",
    ),
    (
        "inside_a_character",
        "é\n",
        &[(1, 2, "x")],
        "error: edit 0: byte 1 is not a character boundary",
    ),
    (
        "overlap",
        "one two\n",
        &[(2, 5, "x"), (0, 3, "y")],
        "error: edit 0 overlaps edit 1",
    ),
    (
        "insertion_inside_a_replacement",
        "one\n",
        &[(1, 1, "x"), (0, 3, "y")],
        "error: edit 0 overlaps edit 1",
    ),
    (
        "same_range_twice",
        "one\n",
        &[(0, 3, "x"), (0, 3, "x")],
        "error: edit 1 overlaps edit 0",
    ),
    (
        "first_fault_of_the_list",
        "one\n",
        &[(3, 9, "x"), (2, 1, "y")],
        "error: edit 0 ends past byte 4, the end of the source",
    ),
    (
        "reversed_past_the_end",
        "one\n",
        &[(9, 8, "x")],
        "error: edit 0 ends before it starts",
    ),
    (
        "start_inside_a_character_first",
        "éé",
        &[(1, 3, "x")],
        "error: edit 0: byte 1 is not a character boundary",
    ),
    (
        "end_inside_a_character",
        "éé",
        &[(0, 3, "x")],
        "error: edit 0: byte 3 is not a character boundary",
    ),
    (
        "own_fault_before_overlap",
        "one\n",
        &[(0, 3, "x"), (1, 2, "y"), (4, 5, "z")],
        "error: edit 2 ends past byte 4, the end of the source",
    ),
    (
        "first_overlap_in_order",
        "one two\n",
        &[(4, 7, "a"), (5, 6, "b"), (0, 2, "c"), (1, 3, "d")],
        "error: edit 3 overlaps edit 2",
    ),
    (
        "insertion_before_replacement",
        "one\n",
        &[(0, 3, "two"), (0, 0, "a "), (3, 3, " z")],
        "a two z\n",
    ),
];

/// Returns edits from their rows.
pub(crate) fn edits_of(rt: &impl Abort, alloc: Global, rows: &[EditRow]) -> Vec<Edit<()>> {
    let mut edits = Vec::new(alloc);
    for (start, end, replacement) in rows {
        let edit = Edit::new(alloc, (), *start..*end, *replacement).expect(rt, "an edit");
        edits.push(edit).expect(rt, "memory");
    }
    edits
}

/// Returns a text, or that of an error after `error: `.
fn outcome_of(rt: &impl Abort, alloc: Global, made: Result<String, EditError>) -> String {
    match made {
        Ok(text) => text,
        Err(error) => {
            let mut text = String::from_str(alloc, "error: ").expect(rt, "memory");
            let shown = display_text(alloc, error).expect(rt, "a text");
            text.push_str(shown.as_str()).expect(rt, "memory");
            text
        }
    }
}

#[test]
fn worked_rows(rt: HostRuntime) {
    for (name, source, rows, expected) in &WORKED_ROWS {
        let edits = edits_of(&rt, rt.alloc(), rows);
        let made = apply_edits(rt.alloc(), source, &edits);
        let outcome = outcome_of(&rt, rt.alloc(), made);
        assert_eq!(&rt; (*name, outcome.as_str()), (*name, *expected));
    }
}

/// A copy of an edit is equal to it.
#[test]
fn copied_edit(rt: HostRuntime) {
    let edit = Edit::new(rt.alloc(), 7, 1..2, "x").expect(&rt, "an edit");
    let copy = edit.clone().expect(&rt, "memory");
    assert_eq!(&rt; copy, edit);
}
