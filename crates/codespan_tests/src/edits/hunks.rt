//! Hunks of worked texts.

use super::diffs::diff_text;
use super::{EditRow, edits_of};
use codespan_edits::{DiffContext, diff_hunks};
use std::panic::Expect;

/// A worked row: its name, a source, edits, how many rows are drawn before a changed one and after
/// it, and the hunks, each line after its sign.
type HunkRow = (
    &'static str,
    &'static str,
    &'static [EditRow],
    (usize, usize),
    &'static [&'static str],
);

static WORKED_HUNKS: [HunkRow; 9] = [
    (
        "replacement",
        "fn main() {\n    let x = foo(y);\n}\n",
        &[(28, 29, "&y")],
        (0, 0),
        &["-    let x = foo(y);\n+    let x = foo(&y);\n"],
    ),
    (
        "insertion_of_line",
        "use a;\nfn f() {}\n",
        &[(7, 7, "use b;\n")],
        (1, 1),
        &[" use a;\n+use b;\n fn f() {}\n"],
    ),
    (
        "context",
        "a\nb\nc\nd\ne\n",
        &[(4, 5, "C")],
        (2, 1),
        &[" a\n b\n-c\n+C\n d\n"],
    ),
    (
        "context_joined",
        "a\nb\nc\nd\ne\n",
        &[(0, 1, "A"), (8, 9, "E")],
        (1, 1),
        &["-a\n+A\n b\n c\n d\n-e\n+E\n"],
    ),
    (
        "one_line_apart",
        "a1\na2\na3\n",
        &[(0, 1, "b"), (6, 7, "b")],
        (0, 0),
        &["-a1\n+b1\n a2\n-a3\n+b3\n"],
    ),
    (
        "two_lines_apart",
        "a1\na2\na3\na4\n",
        &[(0, 1, "b"), (9, 10, "b")],
        (0, 0),
        &["-a1\n+b1\n", "-a4\n+b4\n"],
    ),
    (
        "far_apart",
        "1\n2\n3\n4\n5\n6\n7\n8\n9\n",
        &[(2, 2, "new\nnew\n"), (14, 15, "eight")],
        (1, 1),
        &[" 1\n+new\n+new\n 2\n", " 7\n-8\n+eight\n 9\n"],
    ),
    ("nothing_changes", "one\n", &[(0, 3, "one")], (1, 1), &[]),
    (
        "greatest_context",
        "a\nb\nc\n",
        &[(2, 3, "B")],
        (usize::MAX, usize::MAX),
        &[" a\n-b\n+B\n c\n"],
    ),
];

#[test]
fn worked_hunks(rt: HostRuntime) {
    for (name, source, rows, context, expected) in &WORKED_HUNKS {
        let edits = edits_of(&rt, rt.alloc(), rows);
        let context = DiffContext {
            before: context.0,
            after: context.1,
        };
        let hunks = diff_hunks(rt.alloc(), source, &edits, context).expect(&rt, "hunks");
        assert_eq!(&rt; (*name, hunks.len()), (*name, expected.len()));
        for (hunk, text) in hunks.iter().zip(expected.iter()) {
            let shown = diff_text(&rt, rt.alloc(), &hunk.rows);
            assert_eq!(&rt; (*name, shown.as_str()), (*name, *text));
        }
    }
}
