//! Runs over scripts with edits that have an error.

use crate::tests::scripts::{ScriptRun, check_scripts};
use std::alloc::Global;
use std::process::Abort;

/// The runs of `script_edit_without_suggestion`: an edit before any suggestion.
const SCRIPT_EDIT_WITHOUT_SUGGESTION: [ScriptRun<'static>; 2] = [
    (
        "rich",
        "replace 0 3 a\n---\n",
        (
            "",
            "error[S6]: edit without suggestion\n  ┌─ script:1:1\n  │\n1 │ replace 0 3 a\n  │ ^^^^^^^ expected a suggestion before it\n\n",
            3,
        ),
    ),
    (
        "apply",
        "note a\nreplace x\nsuggestion\n---\n",
        (
            "",
            "error[S6]: edit without suggestion\n  ┌─ script:2:1\n  │\n2 │ replace x\n  │ ^^^^^^^ expected a suggestion before it\n\n",
            3,
        ),
    ),
];

/// The runs of `script_bad_escape`: a backslash that begins no escape.
const SCRIPT_BAD_ESCAPE: [ScriptRun<'static>; 7] = [
    (
        "rich",
        "suggestion\nreplace 0 3 a\\q\n---\n",
        (
            "",
            "error[S7]: bad escape\n  ┌─ script:2:14\n  │\n2 │ replace 0 3 a\\q\n  │              ^ expected \\n, \\r, \\t, \\0, \\\\ or \\u{HEX}\n\n",
            3,
        ),
    ),
    (
        "short",
        "suggestion\nreplace 0 3 \\\\\\\n---\n",
        ("", "script:2:15: error[S7]: bad escape\n", 3),
    ),
    (
        "short",
        "suggestion\nreplace 0 3 \\n\\u{d800}\n---\n",
        ("", "script:2:15: error[S7]: bad escape\n", 3),
    ),
    (
        "short",
        "suggestion\nreplace 0 3 \\u{110000}\n---\n",
        ("", "script:2:13: error[S7]: bad escape\n", 3),
    ),
    (
        "short",
        "suggestion\nreplace 0 3 \\u{}\n---\n",
        ("", "script:2:13: error[S7]: bad escape\n", 3),
    ),
    (
        "short",
        "suggestion\nreplace 0 3 é\\u{41\n---\n",
        ("", "script:2:14: error[S7]: bad escape\n", 3),
    ),
    (
        "short",
        "suggestion\nreplace 0 x \\q\n---\n",
        ("", "script:2:11: error[S3]: bad number\n", 3),
    ),
];

/// The runs of `script_bad_edit`: an edit that cannot be made.
const SCRIPT_BAD_EDIT: [ScriptRun<'static>; 7] = [
    (
        "rich",
        "suggestion\nreplace 2 9\n---\nabc",
        (
            "",
            "error[S8]: bad edit\n  ┌─ script:2:9\n  │\n2 │ replace 2 9\n  │         ^^^ the source ends at byte 3\n\n",
            3,
        ),
    ),
    (
        "rich",
        "suggestion\nreplace 2 4 a\nreplace 0 3 b\n---\nabcdef\n",
        (
            "",
            "error[S8]: bad edit\n  ┌─ script:2:9\n  │\n2 │ replace 2 4 a\n  │         ^^^ overlaps another edit\n3 │ replace 0 3 b\n  │         --- the other edit\n\n",
            3,
        ),
    ),
    (
        "rich",
        "suggestion a\nsuggestion b\nreplace 0 1\nreplace 3  2\n---\nabcdef\n",
        (
            "",
            "error[S3]: bad number\n  ┌─ script:4:11\n  │\n4 │ replace 3  2\n  │           ^ expected a decimal number\n\n",
            3,
        ),
    ),
    (
        "rich",
        "suggestion a\nreplace 0 1\nsuggestion b\nreplace 3 2\n---\nabcdef\n",
        (
            "",
            "error[S8]: bad edit\n  ┌─ script:4:9\n  │\n4 │ replace 3 2\n  │         ^^^ ends before it starts\n\n",
            3,
        ),
    ),
    (
        "medium",
        "suggestion\nreplace 1 2 x\n---\né\n",
        ("", "script:2:9: error[S8]: bad edit\n", 3),
    ),
    (
        "apply",
        "suggestion\nreplace 0 1 x\n---\né\n",
        (
            "",
            "error[S8]: bad edit\n  ┌─ script:2:9\n  │\n2 │ replace 0 1 x\n  │         ^^^ byte 1 is not a character boundary\n\n",
            3,
        ),
    ),
    (
        "short",
        "suggestion\nreplace 2 9\nprimary 2\n---\nabc",
        ("", "script:3:10: error[S3]: bad number\n", 3),
    ),
];

/// The runs over scripts with edits that have an error, by name.
static SCRIPTS_WITH_BAD_EDITS: [(&str, &[ScriptRun<'static>]); 3] = [
    (
        "script_edit_without_suggestion",
        &SCRIPT_EDIT_WITHOUT_SUGGESTION,
    ),
    ("script_bad_escape", &SCRIPT_BAD_ESCAPE),
    ("script_bad_edit", &SCRIPT_BAD_EDIT),
];

/// Asserts what is seen of the runs over scripts with edits that have an error.
pub fn check_scripts_with_bad_edits(rt: &impl Abort, alloc: Global) {
    for (name, runs) in &SCRIPTS_WITH_BAD_EDITS {
        check_scripts(rt, alloc, name, runs);
    }
}
