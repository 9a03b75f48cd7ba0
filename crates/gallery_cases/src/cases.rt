//! The parser of cases.
//!
//! The input is a text of lines. A line begins with a word, which ends at the first space; its rest
//! is what follows that space. Lines that are empty or begin with `#` are ignored. A line
//! `case NAME` begins a case, and the lines after it state it ([`Statement`] lists their words);
//! texts in these are escaped ([`program_io::escapes`] lists the escapes).
//!
//! [`Statement`]: crate::statement::Statement

ghost use Rattle.std.specs.Prelude.{◌≡◌, [], map, OnOk, IfOk, IfErr};
ghost use Rattle.std.specs.Option.{option_copied};
ghost use Rattle.std.specs.Str.Lines.{lines};
ghost use Rattle.gallery_cases.specs.Cases.{AppliesLine, AppliesLines, IsLineError};
ghost use Rattle.gallery_cases.specs.Cases.{IsFirstLineError, AppliesToLast, FailsAtLast};
ghost use Rattle.gallery_cases.specs.Cases.{case_named};

use crate::case::Case;
use crate::errors::{GalleryError, LineError};
use crate::statement::{Line, Statement, parse_line};
use program_io::run_error::RunError;
use std::alloc::Global;

/// Returns the cases of an input.
///
/// # Errors
///
/// - `Program` with [`GalleryError::Line`]: the number, from 1, of the first line that has an
///   error, and that error, or a failed allocation for the line.
/// - `OutOfMemory`: an allocation for the list of lines fails.
pub fn parse_cases(alloc: Global, input: &str) -> Result<Vec<Case<'_>>, RunError<GalleryError>>
    ensures cases { IfOk result (λ cases. AppliesLines (lines input.now) [] cases.items) }
    ensures line_error { IfErr result (IsFirstLineError (lines input.now)) }
{
    let lines: Vec<&str> = input.lines().collect(alloc)?;
    apply_lines(alloc, lines.as_slice())
}

/// Returns the cases of lines.
fn apply_lines<'input>(
    alloc: Global,
    lines: &[&'input str],
) -> Result<Vec<Case<'input>>, RunError<GalleryError>>
    ensures cases { IfOk result (λ cases.
        AppliesLines (map (λ line. line.now) lines.now) [] cases.items) }
    ensures line_error { IfErr result (IsFirstLineError (map (λ line. line.now) lines.now)) }
{
    let mut cases = Vec::new(alloc);
    for (index, line) in lines.iter().enumerate() {
        if let Err(error) = apply_line(alloc, &mut cases, line) {
            let number = index + 1;
            return Err(RunError::Program(GalleryError::Line { number, error }));
        }
    }
    Ok(cases)
}

/// Applies a line: it begins a case, states something of the last one, or is ignored.
fn apply_line<'input>(
    alloc: Global,
    cases: &mut Vec<Case<'input>>,
    line: &'input str,
) -> Result<(), LineError>
    ensures applied { OnOk result (AppliesLine line.now cases.old.items cases.new.items) }
    ensures line_error { IfErr result (IsLineError line.now cases.old.items) }
{
    match parse_line(alloc, line)? {
        Line::Ignored => {}
        Line::NewCase(name) => cases.push(Case::new(alloc, name))?,
        Line::OfLastCase(statement) => apply_to_last(cases, statement)?,
    }
    Ok(())
}

/// Applies a statement to the last case.
fn apply_to_last(cases: &mut Vec<Case<'_>>, statement: Statement) -> Result<(), LineError>
    ensures applied { OnOk result (AppliesToLast statement cases.old.items cases.new.items) }
    ensures failed { IfErr result (FailsAtLast statement cases.old.items) }
{
    match cases.last_mut() {
        Some(case) => case.apply(statement),
        None => Err(LineError::NoCase),
    }
}

/// Returns the first case with this name, or `None` if there is none.
pub fn case_named<'cases, 'input>(
    cases: &'cases [Case<'input>],
    name: &str,
) -> Option<&'cases Case<'input>>
    ensures { option_copied result ≡ case_named name.now cases.now }
{
    cases.iter().find(|case| case.name == name)
}
