//! The program, over any reader and writers.

ghost use Rattle.std.specs.Prelude.{◌≤◌};

use crate::direct::rows::{DirectRow, rows};
use crate::errors::{FatalError, WrongRunAt};
use crate::judging::{DISPLAY_STYLES, judge_direct, judge_output, judge_suggestion};
use crate::rendering::CALLS;
use crate::stops::WRITERS;
use crate::suggestions;
use crate::worked_output::WorkedOutput;
use crate::worked_outputs::parse_outputs;
use program_io::input::read_text;
use std::alloc::Global;
use std::fmt::Display;
use std::io;
use std::io::{Read, Write};

/// Makes the runs of each worked output, of each direct call and of each suggestion, writes a line
/// for each and a last line with the numbers of them and of the runs, and returns the program's
/// status. An error that ends the program is written to `stderr`, whose own errors are ignored.
pub fn run<R: Read, W: Write, E: Write>(
    alloc: Global,
    stdin: &mut R,
    stdout: &mut W,
    stderr: &mut E,
) -> u8
    ensures { result ≤ 1 }
{
    match judge_all(alloc, stdin, stdout) {
        Ok(counts) => u8::from(counts.is_wrong),
        Err(error) => {
            let _ = writeln!(stderr, "writer_runs: {error}");
            1
        }
    }
}

/// How many worked outputs, rows and suggestions were judged, by how many runs, and whether one was
/// wrong.
#[derive(Clone, Copy, Default)]
struct Counts {
    subjects: usize,
    runs: usize,
    is_wrong: bool,
}

impl Counts {
    /// Counts a worked output, a row or a suggestion, and its runs, and writes its line: by which
    /// calls it was rendered, or the error.
    fn report<W: Write, T: Display + Drop, D: Display + Drop>(
        &mut self,
        stdout: &mut W,
        title: T,
        judged: Result<usize, WrongRunAt>,
        calls: D,
    ) -> io::Result<()> {
        self.subjects = self.subjects.saturating_add(1);
        match judged {
            Ok(runs) => {
                self.runs = self.runs.saturating_add(runs);
                writeln!(stdout, "{title}: {calls}, {WRITERS} writers")
            }
            Err(wrong_run) => {
                self.is_wrong = true;
                writeln!(stdout, "{title}: wrong: {wrong_run}")
            }
        }
    }

    /// Writes the line of the counts.
    fn write_counts<W: Write>(self, stdout: &mut W) -> io::Result<()> {
        let (subjects, runs) = (self.subjects, self.runs);
        writeln!(
            stdout,
            "{subjects} worked outputs, rows and suggestions, {runs} runs"
        )
    }
}

/// Makes the runs of the worked outputs of the input, of the direct calls and of the suggestions,
/// writes a line for each and the line of the counts, and returns the counts.
fn judge_all<R: Read, W: Write>(
    alloc: Global,
    stdin: &mut R,
    stdout: &mut W,
) -> Result<Counts, FatalError> {
    let mut counts = Counts::default();
    let text = read_text(alloc, stdin)?;
    judge_text(alloc, text.as_str(), stdout, &mut counts)?;
    for rows in &rows() {
        judge_direct_rows(alloc, rows, stdout, &mut counts)?;
    }
    judge_suggestions(alloc, stdout, &mut counts)?;
    counts.write_counts(stdout)?;
    Ok(counts)
}

/// Makes the runs of the worked outputs of an input.
fn judge_text<W: Write>(
    alloc: Global,
    text: &str,
    stdout: &mut W,
    counts: &mut Counts,
) -> Result<(), FatalError> {
    let worked_outputs = parse_outputs(alloc, text)?;
    judge_outputs(alloc, worked_outputs.as_slice(), stdout, counts)
}

/// Makes the runs of worked outputs, and writes a line for each.
fn judge_outputs<W: Write>(
    alloc: Global,
    worked_outputs: &[WorkedOutput<'_>],
    stdout: &mut W,
    counts: &mut Counts,
) -> Result<(), FatalError> {
    let (styles, calls) = (DISPLAY_STYLES.len(), CALLS.len());
    for worked in worked_outputs {
        let judged = judge_output(alloc, worked);
        let calls = format_args!("{calls} calls in {styles} styles");
        let name = worked.case.name;
        counts.report(stdout, format_args!("output {name}"), judged, calls)?;
    }
    Ok(())
}

/// Makes the runs of direct calls, and writes a line for each.
fn judge_direct_rows<W: Write>(
    alloc: Global,
    rows: &[DirectRow<'_>],
    stdout: &mut W,
    counts: &mut Counts,
) -> Result<(), FatalError> {
    for row in rows {
        let (name, judged) = (row.name, judge_direct(alloc, row));
        counts.report(stdout, format_args!("row {name}"), judged, row.call)?;
    }
    Ok(())
}

/// Makes the runs of suggestions, and writes a line for each.
fn judge_suggestions<W: Write>(
    alloc: Global,
    stdout: &mut W,
    counts: &mut Counts,
) -> Result<(), FatalError> {
    for row in suggestions::rows::rows() {
        let (name, judged) = (row.name, judge_suggestion(alloc, row));
        let call = "emit_suggestion_to_write_style, stopped after each byte too";
        counts.report(stdout, format_args!("suggestion {name}"), judged, call)?;
    }
    Ok(())
}
