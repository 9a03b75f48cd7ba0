//! Runs over scripts: the input, the status, and what is rendered.

mod bad_edits;
mod errors;
mod suggestions;

use crate::tests::scripts::bad_edits::check_scripts_with_bad_edits;
use crate::tests::scripts::errors::check_scripts_with_errors;
use crate::tests::scripts::suggestions::check_scripts_with_suggestions;
use crate::tests::{Failing, Run, check_run, run_over};
use std::alloc::Global;
use std::process::Abort;

/// The style of a run over the file `f.txt`, `apply` or `diff`; its input, which is a script and a
/// source; and what is seen of it: the output, what is written to `stderr`, and the status.
pub type ScriptRun<'run> = (&'run str, &'run str, (&'run str, &'run str, u8));

/// The run of `script_run`.
const SCRIPT_RUN: [ScriptRun<'static>; 1] = [(
    "rich",
    "message bad\nprimary 0 3 here\nnote why\n---\nabc\n",
    (
        "error: bad\n  ┌─ f.txt:1:1\n  │\n1 │ abc\n  │ ^^^ here\n  │\n  = why\n\n",
        "",
        0,
    ),
)];

/// The run of `script_unknown_word`.
const SCRIPT_UNKNOWN_WORD: [ScriptRun<'static>; 1] = [(
    "rich",
    "message a\ncolour red\n---\n",
    (
        "",
        "error[S1]: unknown word\n\
        \x20 ┌─ script:2:1\n\
        \x20 │\n\
        2 │ colour red\n\
        \x20 │ ^^^^^^ expected severity, code, message, width, primary, secondary, note, \
        suggestion or replace\n\n",
        3,
    ),
)];

/// The runs of `script_repeated_word`. In the last one the repeated severity is unknown too.
const SCRIPT_REPEATED_WORD: [ScriptRun<'static>; 3] = [
    (
        "rich",
        "code A\ncode B\n---\n",
        (
            "",
            "error[S4]: repeated word\n\
            \x20 ┌─ script:2:1\n\
            \x20 │\n\
            1 │ code A\n\
            \x20 │ ---- first given here\n\
            2 │ code B\n\
            \x20 │ ^^^^ given again\n\n",
            3,
        ),
    ),
    (
        "rich",
        "code é路\nnote\ncode b\r\n---\n",
        (
            "",
            "error[S4]: repeated word\n\
            \x20 ┌─ script:3:1\n\
            \x20 │\n\
            1 │ code é路\n\
            \x20 │ ---- first given here\n\
            2 │ note\n\
            3 │ code b\n\
            \x20 │ ^^^^ given again\n\n",
            3,
        ),
    ),
    (
        "rich",
        "severity bug\nseverity x\n---\n",
        (
            "",
            "error[S4]: repeated word\n\
            \x20 ┌─ script:2:1\n\
            \x20 │\n\
            1 │ severity bug\n\
            \x20 │ -------- first given here\n\
            2 │ severity x\n\
            \x20 │ ^^^^^^^^ given again\n\n",
            3,
        ),
    ),
];

/// The runs of `script_bad_number_and_end`.
const SCRIPT_BAD_NUMBER_AND_END: [ScriptRun<'static>; 3] = [
    (
        "rich",
        "primary 0 x\n---\n",
        (
            "",
            "error[S3]: bad number\n\
            \x20 ┌─ script:1:11\n\
            \x20 │\n\
            1 │ primary 0 x\n\
            \x20 │           ^ expected a decimal number\n\n",
            3,
        ),
    ),
    (
        "rich",
        "",
        (
            "",
            "error[S5]: missing end of script\n  ┌─ script:1:1\n  │\n1 │ \n  │ ^ expected ---\n\n",
            3,
        ),
    ),
    ("short", "", ("", MISSING_END, 3)),
];

/// The runs of `script_medium_and_short`.
const SCRIPT_MEDIUM_AND_SHORT: [ScriptRun<'static>; 4] = [
    (
        "medium",
        "secondary 5 2 back\n---\nab\ncdef\n",
        ("error: \n", "", 0),
    ),
    (
        "short",
        "severity help\nmessage m\nsecondary 0 3 é路\nprimary 4 6\n---\né路 xyz\n",
        ("f.txt:1:2: help: m\n", "", 0),
    ),
    (
        "medium",
        "code é路\nnote\ncode b\r\n---\n",
        ("", "script:3:1: error[S4]: repeated word\n", 3),
    ),
    (
        "short",
        "severity  bug\n---\n",
        ("", "script:1:10: error[S2]: unknown severity\n", 3),
    ),
];

/// The runs of `scripts_that_are_read`: scripts without errors.
const SCRIPTS_THAT_ARE_READ: [ScriptRun<'static>; 7] = [
    ("rich", "---", ("error: \n\n", "", 0)),
    ("rich", "---\r\nabc", ("error: \n\n", "", 0)),
    ("rich", "---\n---\nx", ("error: \n\n", "", 0)),
    ("rich", "#\n\n# code x\n---\n", ("error: \n\n", "", 0)),
    ("rich", "code\n---\n", ("error: \n\n", "", 0)),
    ("rich", "message a  b \n---\n", ("error: a  b \n\n", "", 0)),
    ("rich", "---\nbad\n", ("error: \n\n", "", 0)),
];

/// The runs of `scripts_with_labels_and_notes`.
const SCRIPTS_WITH_LABELS_AND_NOTES: [ScriptRun<'static>; 6] = [
    (
        "rich",
        "primary 0 1  two\n---\nabc\n",
        (
            "error: \n  ┌─ f.txt:1:1\n  │\n1 │ abc\n  │ ^  two\n\n",
            "",
            0,
        ),
    ),
    (
        "rich",
        "secondary 5 2 back\n---\nab\ncdef\n",
        (
            "error: \n  ┌─ f.txt:2:3\n  │  \n1 │ │ ab\n  │ ╰──' back\n2 │   cdef\n  │ ╭───'\n\n",
            "",
            0,
        ),
    ),
    ("rich", "note\nnote a\n---\n", ("error: \n = a\n\n", "", 0)),
    (
        "rich",
        "primary 007 18446744073709551615 \n---\nabc",
        ("error: \n  ┌─ f.txt:1:4\n  │\n1 │ abc\n  │     \n\n", "", 0),
    ),
    (
        "rich",
        "message a\r\nprimary 1 2 b\r\n---\r\nx\r\ny",
        ("error: a\n  ┌─ f.txt:1:2\n  │\n1 │ x\n  │  ^ b\n\n", "", 0),
    ),
    (
        "rich",
        "severity help\nmessage m\nsecondary 0 3 é路\nprimary 4 6\n---\né路 xyz\n",
        (
            "help: m\n  ┌─ f.txt:1:2\n  │\n1 │ é路 xyz\n  │ -^^^\n  │ │  \n  │ é路\n\n",
            "",
            0,
        ),
    ),
];

/// The runs of scripts whose outputs `codespan_worked` computes, by name.
static WORKED_SCRIPTS: [(&str, &[ScriptRun<'static>]); 3] = [
    ("script_run", &SCRIPT_RUN),
    ("script_repeated_word", &SCRIPT_REPEATED_WORD),
    ("script_bad_number_and_end", &SCRIPT_BAD_NUMBER_AND_END),
];

/// Other runs, by name.
static OTHER_SCRIPTS: [(&str, &[ScriptRun<'static>]); 4] = [
    ("script_unknown_word", &SCRIPT_UNKNOWN_WORD),
    ("script_medium_and_short", &SCRIPT_MEDIUM_AND_SHORT),
    ("scripts_that_are_read", &SCRIPTS_THAT_ARE_READ),
    (
        "scripts_with_labels_and_notes",
        &SCRIPTS_WITH_LABELS_AND_NOTES,
    ),
];

/// Asserts what is seen of these runs, of this name.
pub fn check_scripts(rt: &impl Abort, alloc: Global, name: &str, runs: &[ScriptRun<'_>]) {
    for (style, input, expected) in runs {
        let run: Run<'_> = (&[*style, "f.txt"], input.as_bytes(), *expected);
        check_run(rt, alloc, name, Failing::default(), &run);
    }
}

/// Asserts what is seen of the runs over worked scripts. One function names each table, since a
/// function is proved more slowly for each row of a table that it names.
fn check_worked_scripts(rt: &impl Abort, alloc: Global) {
    for (name, runs) in &WORKED_SCRIPTS {
        check_scripts(rt, alloc, name, runs);
    }
}

/// Asserts what is seen of the runs over the other scripts.
fn check_other_scripts(rt: &impl Abort, alloc: Global) {
    for (name, runs) in &OTHER_SCRIPTS {
        check_scripts(rt, alloc, name, runs);
    }
}

#[test]
fn scripts(rt: HostRuntime) {
    check_worked_scripts(&rt, rt.alloc());
    check_other_scripts(&rt, rt.alloc());
    check_scripts_with_errors(&rt, rt.alloc());
    check_scripts_with_suggestions(&rt, rt.alloc());
    check_scripts_with_bad_edits(&rt, rt.alloc());
}

/// What a run over an empty script writes to `stderr`, in short style.
const MISSING_END: &str = "script:1:1: error[S5]: missing end of script\n";

/// If writing the diagnostic of a script's error fails, the status is 1, and a prefix of it is
/// written.
#[test]
fn failed_script_error(rt: HostRuntime) {
    for write in 0..MISSING_END.len().div_ceil(4) {
        let failing = Failing {
            error_write: Some(write),
            ..Failing::default()
        };
        let outcome = run_over(&rt, rt.alloc(), &["short", "f.txt"], b"", failing);
        assert!(rt;
            outcome.ended_after(MISSING_END, write * 4, 1),
            "write {write}"
        );
    }
}
