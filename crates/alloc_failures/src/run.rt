//! One run of the program.

ghost use Rattle.std.specs.Prelude.{◌≤◌};

use crate::outcome::Outcome;
use crate::rendering::RenderCall;
use crate::subject::{NamedSubject, Subject, named_subjects, render_calls, worked_outputs};
use std::alloc::Global;
use std::io;
use std::io::Write;

/// Judges the subject that the arguments name, or all subjects if there are none, writes the
/// outcome, and returns the program's status: 1 if writing fails.
pub fn run<W: Write>(alloc: Global, args: &[String], stdout: &mut W) -> u8
    ensures { result ≤ 2 }
{
    if args.is_empty() {
        return match judge_all(alloc, stdout) {
            Ok(true) => 0,
            Ok(false) | Err(_) => 1,
        };
    }
    let outcome = match Subject::from_arguments(args) {
        Some(subject) => subject.judge(alloc),
        None => Outcome::Unknown,
    };
    conclude(outcome, stdout)
}

/// Writes an outcome as one line, and returns the program's status: 1 if writing fails.
pub fn conclude<W: Write>(outcome: Outcome, stdout: &mut W) -> u8
    ensures { result ≤ 2 }
{
    match writeln!(stdout, "{outcome}") {
        Ok(()) => outcome.status(),
        Err(_) => 1,
    }
}

/// Judges all subjects, writes a line for each, and returns whether all are done.
fn judge_all<W: Write>(alloc: Global, stdout: &mut W) -> io::Result<bool> {
    let mut are_done = true;
    for subjects in &named_subjects() {
        are_done &= judge_subjects(alloc, subjects, stdout)?;
    }
    for (name, call) in render_calls() {
        are_done &= judge_worked_outputs(alloc, name, *call, stdout)?;
    }
    Ok(are_done)
}

/// Judges subjects named by one word, writes a line for each, and returns whether all are done.
fn judge_subjects<W: Write>(
    alloc: Global,
    subjects: &[NamedSubject],
    stdout: &mut W,
) -> io::Result<bool> {
    let mut are_done = true;
    for (name, subject) in subjects {
        let outcome = subject.judge(alloc);
        writeln!(stdout, "{name}: {outcome}")?;
        are_done &= outcome == Outcome::Done;
    }
    Ok(are_done)
}

/// Judges the subjects of a call that renders, writes a line for each, and returns whether all are
/// done.
fn judge_worked_outputs<W: Write>(
    alloc: Global,
    call_name: &str,
    call: RenderCall,
    stdout: &mut W,
) -> io::Result<bool> {
    let mut are_done = true;
    for (name, worked) in worked_outputs() {
        let outcome = Subject::Rendering(call, *worked).judge(alloc);
        writeln!(stdout, "{call_name} {name}: {outcome}")?;
        are_done &= outcome == Outcome::Done;
    }
    Ok(are_done)
}
