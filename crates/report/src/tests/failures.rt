//! Runs over readers and writers that fail.

use crate::tests::{Failing, OUTPUT, Outcome, REQUEST, Run, check_run, run_over};

/// What is seen of a run whose input fails.
const FAILED_INPUT: (&str, &str, u8) = ("", "report: cannot read input\n", 1);

/// The line that is written where the output fails.
const CANNOT_WRITE: &str = "report: cannot write output\n";

/// Nothing fails.
const NOTHING: Failing = Failing {
    read: None,
    write: None,
    flush: false,
    error_write: None,
};

/// The second write to standard error fails.
const ERROR_WRITE: Failing = Failing {
    error_write: Some(1),
    ..NOTHING
};

/// The name of a run, what fails in it, and the run.
type FailedRun = (&'static str, Failing, Run<'static>);

/// Runs in which a read, the flush of standard output or a write to standard error fails.
static FAILED_RUNS: [FailedRun; 6] = [
    (
        "failed_input",
        Failing {
            read: Some(0),
            ..NOTHING
        },
        (&REQUEST, b"abc\n", FAILED_INPUT),
    ),
    (
        "failed_input",
        Failing {
            read: Some(1),
            ..NOTHING
        },
        (&REQUEST, b"abc\n", FAILED_INPUT),
    ),
    (
        "failed_flush",
        Failing {
            flush: true,
            ..NOTHING
        },
        (&REQUEST, b"abc\n", (OUTPUT, CANNOT_WRITE, 1)),
    ),
    // of each line of an error the first four bytes are written
    (
        "failed_error_output",
        ERROR_WRITE,
        (&[], b"abc\n", ("", "usag", 2)),
    ),
    (
        "failed_error_output",
        ERROR_WRITE,
        (&REQUEST, b"\xff", ("", "repo", 1)),
    ),
    (
        "failed_error_output",
        Failing {
            read: Some(0),
            ..ERROR_WRITE
        },
        (&REQUEST, b"abc\n", ("", "repo", 1)),
    ),
];

#[test]
fn failed_runs(rt: HostRuntime) {
    for (name, failing, run) in &FAILED_RUNS {
        check_run(&rt, rt.alloc(), name, *failing, run);
    }
}

/// Returns whether a run ended with an error of its output, which had taken a prefix of this number
/// of bytes.
fn ended_after(outcome: &Outcome, bytes: usize) -> bool {
    let accepted = outcome.stdout.accepted.as_slice();
    let (_, error_text, status) = outcome.seen();
    OUTPUT.as_bytes().starts_with(accepted)
        && accepted.len() == bytes
        && error_text == CANNOT_WRITE
        && status == 1
}

/// If any write to standard output fails, the status is 1, and standard error says so.
#[test]
fn failed_output(rt: HostRuntime) {
    for write in 0..OUTPUT.len().div_ceil(4) {
        let failing = Failing {
            write: Some(write),
            ..NOTHING
        };
        let outcome = run_over(&rt, rt.alloc(), &REQUEST, b"abc\n", failing);
        assert!(rt; ended_after(&outcome, write * 4), "write {write}");
    }
}
