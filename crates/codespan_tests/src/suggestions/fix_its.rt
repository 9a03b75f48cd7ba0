//! Worked fix-its.

use super::{WorkedRow, files_of, suggestion_of, text_of};
use codespan_suggestions::fix_its;

static WORKED_ROWS: [WorkedRow; 9] = [
    (
        "replacement",
        &[("src/main.rs", "fn main() {\n    let x = foo(y);\n}\n")],
        &[(0, 28, 29, "&y")],
        "fix-it:\"src/main.rs\":{2:17-2:18}:\"&y\"\n",
    ),
    (
        "empty_file",
        &[("empty", "")],
        &[(0, 0, 0, "one\n")],
        "fix-it:\"empty\":{1:1-1:1}:\"one\\n\"\n",
    ),
    (
        "wide_characters",
        &[("a.txt", "世界\tx\né\ty\n")],
        &[(0, 3, 6, "人"), (0, 11, 12, "z")],
        "fix-it:\"a.txt\":{1:4-1:7}:\"\\344\\272\\272\"\nfix-it:\"a.txt\":{2:3-2:4}:\"z\"\n",
    ),
    (
        "several_files",
        &[
            ("a.h", "void a();\n"),
            ("same.h", "a\n"),
            ("a.c", "#include \"a.h\"\n\nvoid a() {}\n"),
        ],
        &[(2, 21, 22, "b"), (1, 0, 1, "a"), (0, 5, 6, "b")],
        "fix-it:\"a.c\":{3:6-3:7}:\"b\"\nfix-it:\"same.h\":{1:1-1:2}:\"a\"\nfix-it:\"a.h\":{1:6-1:7}:\"b\"\n",
    ),
    (
        "nothing_changes",
        &[("a.c", "one\n")],
        &[(0, 0, 3, "one")],
        "fix-it:\"a.c\":{1:1-1:4}:\"one\"\n",
    ),
    (
        "code_action",
        &[("a.rs", "𐐀(y)\n")],
        &[(0, 5, 6, "&y")],
        "fix-it:\"a.rs\":{1:6-1:7}:\"&y\"\n",
    ),
    (
        "quoted_names",
        &[("a b.c", "one\n"), ("q\"\t.c", "one\n")],
        &[(0, 0, 3, "\"\t\\é\""), (1, 0, 3, "2")],
        "fix-it:\"a b.c\":{1:1-1:4}:\"\\\"\\t\\\\\\303\\251\\\"\"\nfix-it:\"q\\\"\\t.c\":{1:1-1:4}:\"2\"\n",
    ),
    (
        "control_characters",
        &[("a.c", "one\n")],
        &[(0, 0, 3, "\u{1}\r\u{7f}~ ")],
        "fix-it:\"a.c\":{1:1-1:4}:\"\\001\\015\\177~ \"\n",
    ),
    (
        "overlap",
        &[("a.c", "one two\n")],
        &[(0, 2, 5, "x"), (0, 0, 3, "y")],
        "error: edit 0 overlaps edit 1",
    ),
];

#[test]
fn worked_fix_its(rt: HostRuntime) {
    for (name, files, edits, expected) in &WORKED_ROWS {
        let database = files_of(&rt, rt.alloc(), files);
        let suggestion = suggestion_of(&rt, rt.alloc(), edits);
        let made = fix_its(rt.alloc(), &database, &suggestion);
        assert_eq!(&rt;
            (*name, text_of(&rt, rt.alloc(), made).as_str()),
            (*name, *expected)
        );
    }
}
