//! Diffs of worked texts.

use super::{WorkedRow, edits_of, outcome_of};
use codespan_base::diagnostic::text::display_text;
use codespan_edits::{DiffRow, Edit, RowSign, apply_edits, diff};
use std::alloc::Global;
use std::panic::Expect;
use std::process::Abort;

/// Worked rows whose last text is that of the diff: each line after a sign.
static WORKED_DIFFS: [WorkedRow; 16] = [
    (
        "replacement",
        "fn main() {\n    let x = foo(y);\n}\n",
        &[(28, 29, "&y")],
        " fn main() {\n-    let x = foo(y);\n+    let x = foo(&y);\n }\n",
    ),
    (
        "insertion_of_line",
        "use a;\nfn f() {}\n",
        &[(7, 7, "use b;\n")],
        " use a;\n+use b;\n fn f() {}\n",
    ),
    (
        "insertion_before_newline",
        "use a;\nfn f() {}\n",
        &[(6, 6, "\nuse b;")],
        " use a;\n+use b;\n fn f() {}\n",
    ),
    (
        "deletion_of_line",
        "use a;\nuse b;\nfn f() {}\n",
        &[(7, 14, "")],
        " use a;\n-use b;\n fn f() {}\n",
    ),
    (
        "formatted_block",
        "fn f() {\nx();\ny();\n}\n",
        &[(0, 21, "fn f() {\n    x();\n    y();\n}\n")],
        " fn f() {\n-x();\n-y();\n+    x();\n+    y();\n }\n",
    ),
    ("empty_file", "", &[(0, 0, "one\n")], "+one\n"),
    (
        "emptied_file",
        "int main;\n",
        &[(0, 10, "")],
        "-int main;\n",
    ),
    (
        "newline_added_at_end",
        "one\ntwo",
        &[(7, 7, "\n")],
        " one\n-two+two\n",
    ),
    (
        "newline_removed_at_end",
        "one\ntwo\n",
        &[(7, 8, "")],
        " one\n-two\n+two",
    ),
    (
        "crlf_to_lf",
        "one\ntwo\r\nend\n",
        &[(7, 8, "")],
        " one\n-two\r\n+two\n end\n",
    ),
    (
        "next_lines",
        "a1\na2\na3\n",
        &[(0, 1, "b"), (3, 4, "b"), (6, 7, "b")],
        "-a1\n+b1\n-a2\n+b2\n-a3\n+b3\n",
    ),
    (
        "join_lines",
        "let x =\n    1;\nlet y;\n",
        &[(7, 12, " ")],
        "-let x =\n-    1;\n+let x = 1;\n let y;\n",
    ),
    (
        "split_line",
        "f(a, b);\n",
        &[(4, 5, "\n  ")],
        "-f(a, b);\n+f(a,\n+  b);\n",
    ),
    (
        "moved_line",
        "use b;\nuse a;\nuse c;\n",
        &[(0, 7, ""), (14, 14, "use b;\n")],
        "-use b;\n use a;\n+use b;\n use c;\n",
    ),
    ("nothing_changes", "one\n", &[(0, 3, "one")], " one\n"),
    (
        "overlap",
        "one two\n",
        &[(2, 5, "x"), (0, 3, "y")],
        "error: edit 0 overlaps edit 1",
    ),
];

/// Adds a row: its sign, and its line.
fn push_row(rt: &impl Abort, text: &mut String, row: &DiffRow) {
    let sign = match row.sign {
        RowSign::Kept => " ",
        RowSign::Removed => "-",
        RowSign::Added => "+",
    };
    text.push_str(sign).expect(rt, "memory");
    text.push_str(row.line.as_str()).expect(rt, "memory");
}

/// Returns the text of a diff: each line after its sign.
pub(crate) fn diff_text(rt: &impl Abort, alloc: Global, rows: &[DiffRow]) -> String {
    let mut text = String::new(alloc);
    for row in rows {
        push_row(rt, &mut text, row);
    }
    text
}

/// Returns the text of a diff whose numbers have one digit: each line after its numbers, of which
/// one that it does not have is a space, and its sign.
fn numbered_text(rt: &impl Abort, alloc: Global, rows: &[DiffRow]) -> String {
    let mut text = String::new(alloc);
    for row in rows {
        for number in [row.old_number, row.new_number] {
            let shown = match number {
                Some(number) => display_text(alloc, number).expect(rt, "a number"),
                None => String::from_str(alloc, " ").expect(rt, "memory"),
            };
            text.push_str(shown.as_str()).expect(rt, "memory");
        }
        push_row(rt, &mut text, row);
    }
    text
}

#[test]
fn worked_diffs(rt: HostRuntime) {
    for (name, source, rows, expected) in &WORKED_DIFFS {
        let edits = edits_of(&rt, rt.alloc(), rows);
        let made = match diff(rt.alloc(), source, &edits) {
            Ok(rows) => Ok(diff_text(&rt, rt.alloc(), &rows)),
            Err(error) => Err(error),
        };
        let outcome = outcome_of(&rt, rt.alloc(), made);
        assert_eq!(&rt; (*name, outcome.as_str()), (*name, *expected));
    }
}

/// Each row has the numbers of its line in the texts that it is in.
#[test]
fn numbers(rt: HostRuntime) {
    let edits = edits_of(
        &rt,
        rt.alloc(),
        &[(2, 4, ""), (6, 6, "new\nnew\n"), (8, 9, "5")],
    );
    let rows = diff(rt.alloc(), "1\n2\n3\n4\nfive", &edits).expect(&rt, "a diff");
    let expected = "11 1\n2 -2\n32 3\n 3+new\n 4+new\n45 4\n5 -five 6+5ive";
    assert_eq!(&rt; numbered_text(&rt, rt.alloc(), &rows).as_str(), expected);
}

/// The program of `docs/EDITS.md`.
#[test]
fn first_program(rt: HostRuntime) {
    let source = "use a;\n\nfn main() {\n    let x = foo(y);\n    print(x);\n}\n";
    let edits = [
        Edit::new(rt.alloc(), (), 36..37, "&y").expect(&rt, "an edit"),
        Edit::new(rt.alloc(), (), 7..7, "use b;\n").expect(&rt, "an edit"),
        Edit::new(rt.alloc(), (), 40..54, "").expect(&rt, "an edit"),
    ];
    let text = apply_edits(rt.alloc(), source, &edits).expect(&rt, "a text");
    let rows = diff(rt.alloc(), source, &edits).expect(&rt, "a diff");

    let made = "use a;\nuse b;\n\nfn main() {\n    let x = foo(&y);\n}\n";
    assert_eq!(&rt; text.as_str(), made);
    let shown =
        "11 use a;\n 2+use b;\n23 \n34 fn main() {\n4 -    let x = foo(y);\n 5+    let x = foo(&y);\n5 -    print(x);\n66 }\n";
    assert_eq!(&rt; numbered_text(&rt, rt.alloc(), &rows).as_str(), shown);
}
