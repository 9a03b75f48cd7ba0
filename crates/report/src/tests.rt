//! Runs over readers and writers in memory, and over some that fail.

mod failures;
mod scripts;
mod version;

use crate::run::run;
use std::alloc::Global;
use std::io;
use std::io::{ErrorKind, Read, Write};
use std::panic::Expect;
use std::process::Abort;

/// The arguments of most runs, in rich style.
const REQUEST: [&str; 5] = ["rich", "f.txt", "0", "3", "bad"];

/// Their output over `abc` and a newline.
const OUTPUT: &str = "error: bad\n  ┌─ f.txt:1:1\n  │\n1 │ abc\n  │ ^^^ bad\n\n";

/// The output of a label over both lines of `abc`, a newline and `d`.
const TWO_LINES: &str = "error: bad\n  ┌─ f.txt:1:1\n  │  \n1 │ ╭ abc\n2 │ │ d\n  │ ╰^ bad\n\n";

/// The line that is written where the arguments are wrong.
const USAGE: &str = "usage: report STYLE NAME START END MESSAGE\n";

/// The line that is written where the input is not UTF-8.
const NOT_UTF8: &str = "report: input is not UTF-8\n";

/// A reader that counts its reads, and fails one of them.
#[derive(Drop)]
struct FailingReader<'a> {
    left: &'a [u8],
    reads: usize,
    failed_read: Option<usize>,
}

impl Read for FailingReader<'_> {
    fn read(&mut self, buf: &mut [u8]) -> io::Result<usize> {
        let read = self.reads;
        self.reads = read.saturating_add(1);
        if self.failed_read == Some(read) {
            return Err(io::Error::from(ErrorKind::PermissionDenied));
        }
        self.left.read(buf)
    }
}

/// A writer that takes four bytes at a write, and fails one write, or each flush.
#[derive(Drop)]
pub struct FailingWriter {
    /// The bytes that it has taken.
    pub accepted: Vec<u8>,
    writes: usize,
    failed_write: Option<usize>,
    fails_flush: bool,
}

impl FailingWriter {
    /// Returns a writer that fails this write, or each flush.
    fn new(alloc: Global, failed_write: Option<usize>, fails_flush: bool) -> Self {
        FailingWriter {
            accepted: Vec::new(alloc),
            writes: 0,
            failed_write,
            fails_flush,
        }
    }

    /// Returns what it has taken, as a text.
    pub fn text(&self) -> &str {
        match std::str::from_utf8(self.accepted.as_slice()) {
            Ok(text) => text,
            Err(_) => "not UTF-8",
        }
    }
}

impl Write for FailingWriter {
    fn write(&mut self, buf: &[u8]) -> io::Result<usize> {
        let write = self.writes;
        self.writes = write.saturating_add(1);
        if self.failed_write == Some(write) {
            return Err(io::Error::from(ErrorKind::BrokenPipe));
        }
        self.accepted.write(&buf[..buf.len().min(4)])
    }

    fn flush(&mut self) -> io::Result<()> {
        if self.fails_flush {
            return Err(io::Error::from(ErrorKind::BrokenPipe));
        }
        Ok(())
    }
}

/// What fails in a run; by default nothing.
#[derive(Clone, Copy, Default)]
pub struct Failing {
    /// The read of this number, from 0.
    pub read: Option<usize>,
    /// The write of this number to standard output, from 0.
    pub write: Option<usize>,
    /// Each flush of standard output.
    pub flush: bool,
    /// The write of this number to standard error, from 0.
    pub error_write: Option<usize>,
}

/// What a run returned and wrote, and how often it read.
#[derive(Drop)]
pub struct Outcome {
    /// The status that the run returned.
    pub status: u8,
    /// The standard output after the run.
    pub stdout: FailingWriter,
    /// The standard error after the run.
    pub stderr: FailingWriter,
    /// How often the input was read.
    pub reads: usize,
}

impl Outcome {
    /// Returns what both writers have taken, and the status.
    pub fn seen(&self) -> (&str, &str, u8) {
        (self.stdout.text(), self.stderr.text(), self.status)
    }

    /// Returns whether the run returned this status, wrote nothing to standard output, and to
    /// standard error a prefix of a text, of this number of bytes.
    pub fn ended_after(&self, error_text: &str, error_bytes: usize, status: u8) -> bool {
        let accepted = self.stderr.accepted.as_slice();
        self.stdout.accepted.is_empty()
            && error_text.as_bytes().starts_with(accepted)
            && accepted.len() == error_bytes
            && self.status == status
    }
}

/// Returns the arguments as the program receives them.
fn owned_arguments(rt: &impl Abort, alloc: Global, args: &[&str]) -> Vec<String> {
    let mut owned = Vec::new(alloc);
    for arg in args {
        let arg = String::from_str(alloc, arg).expect(rt, "the argument");
        owned.push(arg).expect(rt, "the arguments");
    }
    owned
}

/// Makes a run over a reader and writers, of which that fails which `failing` says.
pub fn run_over(
    rt: &impl Abort,
    alloc: Global,
    args: &[&str],
    text: &[u8],
    failing: Failing,
) -> Outcome {
    let args = owned_arguments(rt, alloc, args);
    let mut stdin = FailingReader {
        left: text,
        reads: 0,
        failed_read: failing.read,
    };
    let mut stdout = FailingWriter::new(alloc, failing.write, failing.flush);
    let mut stderr = FailingWriter::new(alloc, failing.error_write, false);
    let status = run(alloc, &args, &mut stdin, &mut stdout, &mut stderr);
    Outcome {
        status,
        stdout,
        stderr,
        reads: stdin.reads,
    }
}

/// The arguments of a run, its input, and what is seen of it: the output, what is written to
/// `stderr`, and the status.
pub type Run<'run> = (&'run [&'run str], &'run [u8], (&'run str, &'run str, u8));

/// Asserts what is seen of a run of this name, in which that fails which `failing` says. The run
/// reads nothing exactly if its arguments are wrong.
pub fn check_run(rt: &impl Abort, alloc: Global, name: &str, failing: Failing, run: &Run<'_>) {
    let (args, text, expected) = run;
    let outcome = run_over(rt, alloc, args, text, failing);
    let (stdout, stderr, status) = outcome.seen();
    let is_read = outcome.reads > 0;
    assert!(rt;
        (stdout, stderr, status) == *expected && is_read == (status != 2),
        "{name}: {args:?}: {stdout}{stderr}"
    );
}

/// What is seen of a run with wrong arguments.
const MISUSED: (&str, &str, u8) = ("", USAGE, 2);

/// The runs of `report_run`.
const REPORT_RUN: [Run<'static>; 2] = [
    (&REQUEST, b"abc\n", (OUTPUT, "", 0)),
    (&["rich", "f.txt", "0", "x", "bad"], b"abc\n", MISUSED),
];

/// The runs of `report_short_and_medium`.
const REPORT_SHORT_AND_MEDIUM: [Run<'static>; 2] = [
    (
        &["short", "f.txt", "0", "3", "bad"],
        b"abc\n",
        ("f.txt:1:1: error: bad\n", "", 0),
    ),
    (
        &["medium", "f.txt", "0", "3", "bad"],
        b"abc\n",
        ("f.txt:1:1: error: bad\n", "", 0),
    ),
];

/// The run of `report_two_lines`.
const REPORT_TWO_LINES: [Run<'static>; 1] = [(
    &["rich", "f.txt", "0", "4", "bad"],
    b"abc\nd",
    (TWO_LINES, "", 0),
)];

/// The arguments of `wrong_arguments`.
static WRONG_ARGUMENTS: [&[&str]; 15] = [
    &[],
    &["rich"],
    &["rich", "f.txt", "0", "3"],
    &["rich", "f.txt", "0", "3", "bad", "worse"],
    &["", "f.txt", "0", "3", "bad"],
    &["shorter", "f.txt", "0", "3", "bad"],
    &["Rich", "f.txt", "0", "3", "bad"],
    &["rich", "f.txt", "+0", "3", "bad"],
    &["rich", "f.txt", "0", "+3", "bad"],
    &["rich", "f.txt", "-0", "3", "bad"],
    &["rich", "f.txt", "", "3", "bad"],
    &["rich", "f.txt", "0", "", "bad"],
    &["rich", "f.txt", "0", "3 ", "bad"],
    &["rich", "f.txt", "0", "٣", "bad"],
    &["rich", "f.txt", "0", "18446744073709551616", "bad"],
];

/// The output of a label from the start of `abc` to the greatest index.
const TO_GREATEST_INDEX: &str = "error: bad\n  ┌─ f.txt:1:1\n  │\n1 │ abc\n  │ ^^^^ bad\n\n";

/// The runs of `right_numbers`: the greatest number, and numbers with leading zeros.
const RIGHT_NUMBERS: [Run<'static>; 2] = [
    (
        &["rich", "f.txt", "0", "18446744073709551615", "bad"],
        b"abc",
        (TO_GREATEST_INDEX, "", 0),
    ),
    (
        &["rich", "f.txt", "000", "03", "bad"],
        b"abc\n",
        (OUTPUT, "", 0),
    ),
];

/// The runs of `input_not_utf8`.
const INPUT_NOT_UTF8: [Run<'static>; 3] = [
    (&REQUEST, b"\xff", ("", NOT_UTF8, 1)),
    (&REQUEST, b"abc\xe2\x94", ("", NOT_UTF8, 1)),
    (&REQUEST, b"\xc0\x80\n", ("", NOT_UTF8, 1)),
];

/// The other runs in which nothing fails, by name.
static RUNS: [(&str, &[Run<'static>]); 5] = [
    ("report_run", &REPORT_RUN),
    ("report_short_and_medium", &REPORT_SHORT_AND_MEDIUM),
    ("report_two_lines", &REPORT_TWO_LINES),
    ("right_numbers", &RIGHT_NUMBERS),
    ("input_not_utf8", &INPUT_NOT_UTF8),
];

/// Asserts what is seen of these runs, of this name.
fn check_runs(rt: &impl Abort, alloc: Global, name: &str, runs: &[Run<'_>]) {
    for run in runs {
        check_run(rt, alloc, name, Failing::default(), run);
    }
}

/// Asserts what is seen of the runs with wrong arguments. One function names each table, since a
/// function is proved more slowly for each row of a table that it names.
fn check_wrong_arguments(rt: &impl Abort, alloc: Global) {
    for args in &WRONG_ARGUMENTS {
        let run: Run<'_> = (*args, b"abc\n", MISUSED);
        check_run(rt, alloc, "wrong_arguments", Failing::default(), &run);
    }
}

#[test]
fn runs(rt: HostRuntime) {
    check_wrong_arguments(&rt, rt.alloc());
    for (name, runs) in &RUNS {
        check_runs(&rt, rt.alloc(), name, runs);
    }
}
