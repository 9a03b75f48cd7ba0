//! Runs over scripts with suggestions.

use crate::tests::scripts::{ScriptRun, check_scripts};
use std::alloc::Global;
use std::process::Abort;

/// The runs of `script_apply`: the source after the edits of the first suggestion.
const SCRIPT_APPLY: [ScriptRun<'static>; 6] = [
    (
        "apply",
        "code E1\nmessage mismatched types\nprimary 4 5 expected `&T`\nsuggestion borrow the value\nreplace 4 5 &y\nsuggestion clone it, and log\nreplace 5 5 .clone()\nreplace 0 0 log();\\n\n---\nfoo(y)\n",
        ("foo(&y)\n", "", 0),
    ),
    ("apply", "message a\n---\nabc\n", ("abc\n", "", 0)),
    (
        "apply",
        "suggestion none\nsuggestion b\nreplace 0 1 x\n---\nabc\n",
        ("abc\n", "", 0),
    ),
    (
        "apply",
        "suggestion m\nreplace 2 3\nreplace 0 0 a\\u{8def}\\t\n---\nabc",
        ("a路\tab", "", 0),
    ),
    (
        "apply",
        "suggestion\nreplace 0 3 \\n\\r\\t\\0\\\\\\u{41}\\u{+0042}\n---\nabc",
        ("\n\r\t\0\\AB", "", 0),
    ),
    (
        "apply",
        "suggestion m\r\nreplace 3 3 é\r\n---\nabc\r\n",
        ("abcé\r\n", "", 0),
    ),
];

/// The runs of `script_suggestions`: the suggestions below the diagnostic.
const SCRIPT_SUGGESTIONS: [ScriptRun<'static>; 8] = [
    (
        "rich",
        "code E1\nmessage mismatched types\nprimary 4 5 expected `&T`\nsuggestion borrow the value\nreplace 4 5 &y\nsuggestion clone it, and log\nreplace 5 5 .clone()\nreplace 0 0 log();\\n\n---\nfoo(y)\n",
        (
            "error[E1]: mismatched types\n  ┌─ f.txt:1:5\n  │\n1 │ foo(y)\n  │     ^ expected `&T`\n\nhelp: borrow the value\n    ┌─ f.txt:1:5\n    │\n1   │ - foo(y)\n  1 │ + foo(&y)\n\nhelp: clone it, and log\n    ┌─ f.txt:1:1\n    │\n  1 │ + log();\n1   │ - foo(y)\n  2 │ + foo(y.clone())\n\n",
            "",
            0,
        ),
    ),
    (
        "medium",
        "code E1\nmessage mismatched types\nprimary 4 5 expected `&T`\nsuggestion borrow the value\nreplace 4 5 &y\nsuggestion clone it, and log\nreplace 5 5 .clone()\nreplace 0 0 log();\\n\n---\nfoo(y)\n",
        (
            "f.txt:1:5: error[E1]: mismatched types\nf.txt:1:5: help: borrow the value\nf.txt:1:1: help: clone it, and log\n",
            "",
            0,
        ),
    ),
    (
        "short",
        "code E1\nmessage mismatched types\nprimary 4 5 expected `&T`\nsuggestion borrow the value\nreplace 4 5 &y\nsuggestion clone it, and log\nreplace 5 5 .clone()\nreplace 0 0 log();\\n\n---\nfoo(y)\n",
        (
            "f.txt:1:5: error[E1]: mismatched types\nf.txt:1:5: help: borrow the value\nf.txt:1:1: help: clone it, and log\n",
            "",
            0,
        ),
    ),
    (
        "rich",
        "suggestion none\n---\nabc\n",
        ("error: \n\nhelp: none\n\n", "", 0),
    ),
    (
        "rich",
        "suggestion same\nreplace 0 1 a\n---\nabc\n",
        ("error: \n\nhelp: same\n\n", "", 0),
    ),
    (
        "short",
        "suggestion same\nreplace 0 1 a\nsuggestion\n---\nabc\n",
        ("error: \nhelp: same\nhelp: \n", "", 0),
    ),
    (
        "rich",
        "severity note\nmessage m\nnote n\nsuggestion b\nreplace 4 5 B\\r\nsuggestion\nreplace 0 0 \\tx\\n\n---\na\r\nb\r\nc\r\nd\r\n",
        (
            "note: m\n = n\n\nhelp: b\n    ┌─ f.txt:2:2\n    │\n2   │ - b\n  2 │ + bB\n\nhelp: \n    ┌─ f.txt:1:1\n    │\n  1 │ +     x\n    │ \\ ends with \\n\n\n",
            "",
            0,
        ),
    ),
    (
        "medium",
        "message m\nprimary 0 1 l\nnote n\nsuggestion b\nreplace 2 3 B\n---\na\nb\n",
        ("f.txt:1:1: error: m\n = n\nf.txt:2:1: help: b\n", "", 0),
    ),
];

/// The runs of `script_diff`: the unified diff of the first suggestion.
const SCRIPT_DIFF: [ScriptRun<'static>; 12] = [
    (
        "diff",
        "code E1\nmessage mismatched types\nprimary 4 5 expected `&T`\nsuggestion borrow the value\nreplace 4 5 &y\nsuggestion clone it, and log\nreplace 5 5 .clone()\nreplace 0 0 log();\\n\n---\nfoo(y)\n",
        (
            "--- a/f.txt\n+++ b/f.txt\n@@ -1,1 +1,1 @@\n-foo(y)\n+foo(&y)\n",
            "",
            0,
        ),
    ),
    ("diff", "message a\n---\nabc\n", ("", "", 0)),
    (
        "diff",
        "suggestion none\nsuggestion b\nreplace 0 1 x\n---\nabc\n",
        ("", "", 0),
    ),
    (
        "diff",
        "suggestion same\nreplace 0 1 a\n---\nabc\n",
        ("", "", 0),
    ),
    (
        "diff",
        "suggestion m\nreplace 2 3\nreplace 0 0 a\\u{8def}\\t\n---\nabc",
        (
            "--- a/f.txt\n+++ b/f.txt\n@@ -1,1 +1,1 @@\n-abc\n\\ No newline at end of file\n+a路\tab\n\\ No newline at end of file\n",
            "",
            0,
        ),
    ),
    (
        "diff",
        "suggestion m\nreplace 4 6\nreplace 20 22 K\\n\\n\nreplace 0 1 A\n---\na\nb\nc\nd\ne\nf\ng\nh\ni\nj\nk\nl\nm\n",
        (
            "--- a/f.txt\n+++ b/f.txt\n@@ -1,13 +1,13 @@\n-a\n+A\n b\n-c\n d\n e\n f\n g\n h\n i\n j\n-k\n+K\n+\n l\n m\n",
            "",
            0,
        ),
    ),
    (
        "diff",
        "suggestion m\r\nreplace 3 3 é\r\n---\nabc\r\n",
        (
            "--- a/f.txt\n+++ b/f.txt\n@@ -1,1 +1,1 @@\n-abc\r\n+abcé\r\n",
            "",
            0,
        ),
    ),
    (
        "diff",
        "suggestion m\nreplace 0 0 new\\n\n---\n",
        ("--- a/f.txt\n+++ b/f.txt\n@@ -0,0 +1,1 @@\n+new\n", "", 0),
    ),
    (
        "diff",
        "suggestion m\nreplace 0 4\n---\nabc\n",
        ("--- a/f.txt\n+++ b/f.txt\n@@ -1,1 +0,0 @@\n-abc\n", "", 0),
    ),
    (
        "diff",
        "suggestion\nreplace 2 9\n---\nabc",
        (
            "",
            "error[S8]: bad edit\n  ┌─ script:2:9\n  │\n2 │ replace 2 9\n  │         ^^^ the source ends at byte 3\n\n",
            3,
        ),
    ),
    (
        "diff",
        "suggestion a\nreplace 0 1 x\nsuggestion b\nreplace 1 2\nreplace 1 2\n---\nabc\n",
        (
            "",
            "error[S8]: bad edit\n  ┌─ script:5:9\n  │\n4 │ replace 1 2\n  │         --- the other edit\n5 │ replace 1 2\n  │         ^^^ overlaps another edit\n\n",
            3,
        ),
    ),
    (
        "diff",
        "severity fatal\n---\n",
        (
            "",
            "error[S2]: unknown severity\n  ┌─ script:1:10\n  │\n1 │ severity fatal\n  │          ^^^^^ expected bug, error, warning, note or help\n\n",
            3,
        ),
    ),
];

/// The runs over scripts with suggestions, by name.
static SCRIPTS_WITH_SUGGESTIONS: [(&str, &[ScriptRun<'static>]); 3] = [
    ("script_suggestions", &SCRIPT_SUGGESTIONS),
    ("script_apply", &SCRIPT_APPLY),
    ("script_diff", &SCRIPT_DIFF),
];

/// Asserts what is seen of the runs over scripts with suggestions.
pub fn check_scripts_with_suggestions(rt: &impl Abort, alloc: Global) {
    for (name, runs) in &SCRIPTS_WITH_SUGGESTIONS {
        check_scripts(rt, alloc, name, runs);
    }
}
