//! Scripts with an error, each with its diagnostic.

use crate::tests::scripts::check_scripts;
use std::alloc::Global;
use std::process::Abort;

/// A script with an error, and the diagnostic of the error in rich style.
type ScriptWithError<'script> = (&'script str, &'script str);

/// The scripts of `scripts_with_unknown_words`.
const SCRIPTS_WITH_UNKNOWN_WORDS: [ScriptWithError<'static>; 5] = [
    (
        "---\r",
        "error[S1]: unknown word\n\
        \x20 ┌─ script:1:1\n\
        \x20 │\n\
        1 │ ---\n\
        \x20 │ ^^^^ expected severity, code, message, width, primary, secondary, note, \
        suggestion or replace\n\n",
    ),
    (
        "--- \n",
        "error[S1]: unknown word\n\
        \x20 ┌─ script:1:1\n\
        \x20 │\n\
        1 │ --- \n\
        \x20 │ ^^^ expected severity, code, message, width, primary, secondary, note, \
        suggestion or replace\n\n",
    ),
    (
        " code a\n---\n",
        "error[S1]: unknown word\n\
        \x20 ┌─ script:1:1\n\
        \x20 │\n\
        1 │  code a\n\
        \x20 │ ^ expected severity, code, message, width, primary, secondary, note, \
        suggestion or replace\n\n",
    ),
    (
        "primary\t0 1\n---\n",
        "error[S1]: unknown word\n\
        \x20 ┌─ script:1:1\n\
        \x20 │\n\
        1 │ primary 0 1\n\
        \x20 │ ^^^^^^^^^ expected severity, code, message, width, primary, secondary, note, \
        suggestion or replace\n\n",
    ),
    (
        "bad",
        "error[S1]: unknown word\n\
        \x20 ┌─ script:1:1\n\
        \x20 │\n\
        1 │ bad\n\
        \x20 │ ^^^ expected severity, code, message, width, primary, secondary, note, \
        suggestion or replace\n\n",
    ),
];

/// The scripts of `scripts_with_unknown_severities`.
const SCRIPTS_WITH_UNKNOWN_SEVERITIES: [ScriptWithError<'static>; 4] = [
    (
        "severity\n---\n",
        "error[S2]: unknown severity\n\
        \x20 ┌─ script:1:9\n\
        \x20 │\n\
        1 │ severity\n\
        \x20 │         ^ expected bug, error, warning, note or help\n\n",
    ),
    (
        "severity  bug\n---\n",
        "error[S2]: unknown severity\n\
        \x20 ┌─ script:1:10\n\
        \x20 │\n\
        1 │ severity  bug\n\
        \x20 │          ^^^^ expected bug, error, warning, note or help\n\n",
    ),
    (
        "severity Error\n---\n",
        "error[S2]: unknown severity\n\
        \x20 ┌─ script:1:10\n\
        \x20 │\n\
        1 │ severity Error\n\
        \x20 │          ^^^^^ expected bug, error, warning, note or help\n\n",
    ),
    (
        "severity x\nseverity bug\n---\n",
        "error[S2]: unknown severity\n\
        \x20 ┌─ script:1:10\n\
        \x20 │\n\
        1 │ severity x\n\
        \x20 │          ^ expected bug, error, warning, note or help\n\n",
    ),
];

/// The scripts of `scripts_with_bad_numbers`.
const SCRIPTS_WITH_BAD_NUMBERS: [ScriptWithError<'static>; 7] = [
    (
        "primary\n---\n",
        "error[S3]: bad number\n\
        \x20 ┌─ script:1:8\n\
        \x20 │\n\
        1 │ primary\n\
        \x20 │        ^ expected a decimal number\n\n",
    ),
    (
        "secondary 0\n---\n",
        "error[S3]: bad number\n\
        \x20 ┌─ script:1:12\n\
        \x20 │\n\
        1 │ secondary 0\n\
        \x20 │            ^ expected a decimal number\n\n",
    ),
    (
        "primary x y\n---\n",
        "error[S3]: bad number\n\
        \x20 ┌─ script:1:9\n\
        \x20 │\n\
        1 │ primary x y\n\
        \x20 │         ^ expected a decimal number\n\n",
    ),
    (
        "primary 0 18446744073709551616\n---\n",
        "error[S3]: bad number\n\
        \x20 ┌─ script:1:11\n\
        \x20 │\n\
        1 │ primary 0 18446744073709551616\n\
        \x20 │           ^^^^^^^^^^^^^^^^^^^^ expected a decimal number\n\n",
    ),
    (
        "primary +1 2\n---\n",
        "error[S3]: bad number\n\
        \x20 ┌─ script:1:9\n\
        \x20 │\n\
        1 │ primary +1 2\n\
        \x20 │         ^^ expected a decimal number\n\n",
    ),
    (
        "width\n---\n",
        "error[S3]: bad number\n\
        \x20 ┌─ script:1:6\n\
        \x20 │\n\
        1 │ width\n\
        \x20 │      ^ expected a decimal number\n\n",
    ),
    (
        "width 80 8x\n---\n",
        "error[S3]: bad number\n\
        \x20 ┌─ script:1:7\n\
        \x20 │\n\
        1 │ width 80 8x\n\
        \x20 │       ^^^^^ expected a decimal number\n\n",
    ),
];

/// The scripts of `scripts_without_end`.
const SCRIPTS_WITHOUT_END: [ScriptWithError<'static>; 2] = [
    (
        "message a\r",
        "error[S5]: missing end of script\n\
        \x20 ┌─ script:1:11\n\
        \x20 │\n\
        1 │ message a\n\
        \x20 │            expected ---\n\n",
    ),
    (
        "note 路 \n\n",
        "error[S5]: missing end of script\n  ┌─ script:3:1\n  │\n3 │ \n  │ ^ expected ---\n\n",
    ),
];

/// The scripts with an unknown word or severity, by name.
static SCRIPTS_WITH_UNKNOWN: [(&str, &[ScriptWithError<'static>]); 2] = [
    ("scripts_with_unknown_words", &SCRIPTS_WITH_UNKNOWN_WORDS),
    (
        "scripts_with_unknown_severities",
        &SCRIPTS_WITH_UNKNOWN_SEVERITIES,
    ),
];

/// The scripts with other errors, by name.
static SCRIPTS_WITH_OTHER_ERRORS: [(&str, &[ScriptWithError<'static>]); 2] = [
    ("scripts_with_bad_numbers", &SCRIPTS_WITH_BAD_NUMBERS),
    ("scripts_without_end", &SCRIPTS_WITHOUT_END),
];

/// Asserts what is seen of runs of this name over these scripts: the diagnostic is written to
/// standard error, nothing to standard output, and the status is 3.
fn check_script_errors(rt: &impl Abort, alloc: Global, name: &str, errors: &[ScriptWithError<'_>]) {
    for (script, diagnostic) in errors {
        check_scripts(rt, alloc, name, &[("rich", *script, ("", *diagnostic, 3))]);
    }
}

/// Asserts what is seen of the runs over scripts with an unknown word or severity.
fn check_scripts_with_unknown(rt: &impl Abort, alloc: Global) {
    for (name, errors) in &SCRIPTS_WITH_UNKNOWN {
        check_script_errors(rt, alloc, name, errors);
    }
}

/// Asserts what is seen of the runs over scripts with other errors.
fn check_scripts_with_other_errors(rt: &impl Abort, alloc: Global) {
    for (name, errors) in &SCRIPTS_WITH_OTHER_ERRORS {
        check_script_errors(rt, alloc, name, errors);
    }
}

/// Asserts what is seen of all runs over scripts with an error.
pub fn check_scripts_with_errors(rt: &impl Abort, alloc: Global) {
    check_scripts_with_unknown(rt, alloc);
    check_scripts_with_other_errors(rt, alloc);
}
