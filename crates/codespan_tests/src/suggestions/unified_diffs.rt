//! Worked unified diffs.

use super::{WorkedRow, files_of, suggestion_of, text_of};
use codespan_suggestions::unified_diff;

static WORKED_ROWS: [WorkedRow; 19] = [
    (
        "overview",
        &[
            (
                "src/settings.rs",
                "use std::fs;\n\npub struct Setting<'a> {\n    name: &'a str,\n    value: &'a str,\n}\n\n/// Parses a line.\nfn parse(line: &str) -> Setting {\n    let mut parts = line.split('=');\n    let name = parts.next();\n    let value = parts.next();\n\n    Setting { name, value }\n}\n",
            ),
            ("src/main.rs", "mod settings;\n\nfn main() {}\n"),
        ],
        &[
            (0, 124, 131, "Result<Setting, Error>"),
            (0, 235, 235, "let value = value.parse()?;\n    Ok("),
            (0, 258, 258, ")"),
            (1, 14, 14, "use crate::settings::Error;\n"),
        ],
        "--- a/src/settings.rs\n+++ b/src/settings.rs\n@@ -6,10 +6,11 @@\n }\n \n /// Parses a line.\n-fn parse(line: &str) -> Setting {\n+fn parse(line: &str) -> Result<Setting, Error> {\n     let mut parts = line.split('=');\n     let name = parts.next();\n     let value = parts.next();\n \n-    Setting { name, value }\n+    let value = value.parse()?;\n+    Ok(Setting { name, value })\n }\n--- a/src/main.rs\n+++ b/src/main.rs\n@@ -1,3 +1,4 @@\n mod settings;\n+use crate::settings::Error;\n \n fn main() {}\n",
    ),
    (
        "replacement",
        &[("src/main.rs", "fn main() {\n    let x = foo(y);\n}\n")],
        &[(0, 28, 29, "&y")],
        "--- a/src/main.rs\n+++ b/src/main.rs\n@@ -1,3 +1,3 @@\n fn main() {\n-    let x = foo(y);\n+    let x = foo(&y);\n }\n",
    ),
    (
        "deletion_of_line",
        &[("a.rs", "use a;\nuse b;\nfn f() {}\n")],
        &[(0, 7, 14, "")],
        "--- a/a.rs\n+++ b/a.rs\n@@ -1,3 +1,2 @@\n use a;\n-use b;\n fn f() {}\n",
    ),
    (
        "start_of_file",
        &[("a.c", "int main;\n")],
        &[(0, 0, 0, "// header\n")],
        "--- a/a.c\n+++ b/a.c\n@@ -1,1 +1,2 @@\n+// header\n int main;\n",
    ),
    (
        "empty_file",
        &[("empty", "")],
        &[(0, 0, 0, "one\n")],
        "--- a/empty\n+++ b/empty\n@@ -0,0 +1,1 @@\n+one\n",
    ),
    (
        "emptied_file",
        &[("a.c", "int main;\n")],
        &[(0, 0, 10, "")],
        "--- a/a.c\n+++ b/a.c\n@@ -1,1 +0,0 @@\n-int main;\n",
    ),
    (
        "no_final_newline",
        &[("a.c", "one\ntwo")],
        &[(0, 4, 7, "2")],
        "--- a/a.c\n+++ b/a.c\n@@ -1,2 +1,2 @@\n one\n-two\n\\ No newline at end of file\n+2\n\\ No newline at end of file\n",
    ),
    (
        "one_line_no_newline",
        &[("repl", "1 + x")],
        &[(0, 4, 5, "y")],
        "--- a/repl\n+++ b/repl\n@@ -1,1 +1,1 @@\n-1 + x\n\\ No newline at end of file\n+1 + y\n\\ No newline at end of file\n",
    ),
    (
        "newline_added_at_end",
        &[("a.c", "one\ntwo")],
        &[(0, 7, 7, "\n")],
        "--- a/a.c\n+++ b/a.c\n@@ -1,2 +1,2 @@\n one\n-two\n\\ No newline at end of file\n+two\n",
    ),
    (
        "crlf_to_lf",
        &[("a.c", "one\ntwo\r\nend\n")],
        &[(0, 7, 8, "")],
        "--- a/a.c\n+++ b/a.c\n@@ -1,3 +1,3 @@\n one\n-two\r\n+two\n end\n",
    ),
    (
        "empty_file_no_newline",
        &[("empty", "")],
        &[(0, 0, 0, "one")],
        "--- a/empty\n+++ b/empty\n@@ -0,0 +1,1 @@\n+one\n\\ No newline at end of file\n",
    ),
    (
        "two_hunks",
        &[("a.rs", "1\n2\n3\n4\n5\n6\n7\n8\n9\n10\n")],
        &[(0, 0, 1, "one\nmore"), (0, 18, 20, "ten")],
        "--- a/a.rs\n+++ b/a.rs\n@@ -1,4 +1,5 @@\n-1\n+one\n+more\n 2\n 3\n 4\n@@ -7,4 +8,4 @@\n 7\n 8\n 9\n-10\n+ten\n",
    ),
    (
        "tabs",
        &[("Makefile", "all:\n\tcc a.c\n")],
        &[(0, 9, 12, "b.c")],
        "--- a/Makefile\n+++ b/Makefile\n@@ -1,2 +1,2 @@\n all:\n-\tcc a.c\n+\tcc b.c\n",
    ),
    (
        "two_lines_apart",
        &[("a.rs", "a1\na2\na3\na4\n")],
        &[(0, 0, 1, "b"), (0, 9, 10, "b")],
        "--- a/a.rs\n+++ b/a.rs\n@@ -1,4 +1,4 @@\n-a1\n+b1\n a2\n a3\n-a4\n+b4\n",
    ),
    (
        "far_apart",
        &[("a.rs", "1\n2\n3\n4\n5\n6\n7\n8\n9\n")],
        &[(0, 2, 2, "new\nnew\n"), (0, 14, 15, "eight")],
        "--- a/a.rs\n+++ b/a.rs\n@@ -1,9 +1,11 @@\n 1\n+new\n+new\n 2\n 3\n 4\n 5\n 6\n 7\n-8\n+eight\n 9\n",
    ),
    (
        "several_files",
        &[
            ("a.h", "void a();\n"),
            ("same.h", "a\n"),
            ("a.c", "#include \"a.h\"\n\nvoid a() {}\n"),
        ],
        &[(2, 21, 22, "b"), (1, 0, 1, "a"), (0, 5, 6, "b")],
        "--- a/a.c\n+++ b/a.c\n@@ -1,3 +1,3 @@\n #include \"a.h\"\n \n-void a() {}\n+void b() {}\n--- a/a.h\n+++ b/a.h\n@@ -1,1 +1,1 @@\n-void a();\n+void b();\n",
    ),
    (
        "nothing_changes",
        &[("a.c", "one\n")],
        &[(0, 0, 3, "one")],
        "",
    ),
    (
        "quoted_names",
        &[("a b.c", "one\n"), ("q\"\t.c", "one\n")],
        &[(0, 0, 3, "\"\t\\é\""), (1, 0, 3, "2")],
        "--- a/a b.c\t\n+++ b/a b.c\t\n@@ -1,1 +1,1 @@\n-one\n+\"\t\\é\"\n--- \"a/q\\\"\\t.c\"\n+++ \"b/q\\\"\\t.c\"\n@@ -1,1 +1,1 @@\n-one\n+2\n",
    ),
    (
        "inside_a_character",
        &[("a.c", "é\n")],
        &[(0, 1, 2, "x")],
        "error: edit 0: byte 1 is not a character boundary",
    ),
];

#[test]
fn worked_unified_diffs(rt: HostRuntime) {
    for (name, files, edits, expected) in &WORKED_ROWS {
        let database = files_of(&rt, rt.alloc(), files);
        let suggestion = suggestion_of(&rt, rt.alloc(), edits);
        let made = unified_diff(rt.alloc(), &database, &suggestion);
        assert_eq!(&rt;
            (*name, text_of(&rt, rt.alloc(), made).as_str()),
            (*name, *expected)
        );
    }
}
