//! The parser of the worked outputs.
//!
//! The input is that of [`gallery_cases::cases`], and may have these lines too, each of which
//! belongs to the last case; texts are escaped as there:
//!
//! | line | meaning |
//! |---|---|
//! | `rich TEXT`, `medium TEXT`, `short TEXT` | the expected text in this style |
//! | `ansi TEXT` | the expected text in escape sequences, in each style whose text is expected |
//! | `ansi-end TEXT` | the expected end of that text |
//! | `character FIELD C` | this field of [`Chars`] is this character |
//!
//! A text may take several lines with its word, which are joined. FIELD is `multi_top`,
//! `multi_bottom`, `multi_primary_caret_end` or `multi_secondary_caret_end`. Any other field, and a
//! C that is not one character, is the error `UnknownName`.

use crate::errors::FatalError;
use crate::worked_output::{TextKind, WorkedOutput};
use codespan_base::term::Chars;
use gallery_cases::errors::LineError;
use gallery_cases::escape::unescape;
use gallery_cases::statement::{Line, Statement, parse_line};
use program_io::fields::split_field;
use std::alloc::Global;

/// Returns the worked outputs of an input.
///
/// # Errors
///
/// `Line` with the error of the first line that has one.
pub fn parse_outputs(alloc: Global, input: &str) -> Result<Vec<WorkedOutput<'_>>, FatalError> {
    let mut outputs = Vec::new(alloc);
    let mut number = 0usize;
    for line in input.lines() {
        number = number.saturating_add(1);
        if let Err(line_error) = apply_line(alloc, &mut outputs, line) {
            return Err(FatalError::Line(number, line_error));
        }
    }
    Ok(outputs)
}

/// Applies a line: it begins a worked output, states something of the last one, or is ignored.
fn apply_line<'input>(
    alloc: Global,
    outputs: &mut Vec<WorkedOutput<'input>>,
    line: &'input str,
) -> Result<(), LineError> {
    let (word, rest) = split_field(line);
    if let Some(kind) = TextKind::named(word) {
        return add_text(alloc, outputs, kind, rest);
    }
    if word == "character" {
        return set_character(&mut last(outputs)?.case.config.chars, rest);
    }
    apply_case_line(alloc, outputs, line)
}

/// Applies a line of the gallery's input.
fn apply_case_line<'input>(
    alloc: Global,
    outputs: &mut Vec<WorkedOutput<'input>>,
    line: &'input str,
) -> Result<(), LineError> {
    match parse_line(alloc, line)? {
        Line::Ignored => Ok(()),
        Line::NewCase(name) => add_output(alloc, outputs, name),
        Line::OfLastCase(statement) => apply_to_last(outputs, statement),
    }
}

/// Applies a statement to the case of the last worked output.
fn apply_to_last(
    outputs: &mut Vec<WorkedOutput<'_>>,
    statement: Statement,
) -> Result<(), LineError> {
    last(outputs)?.case.apply(statement)
}

/// Adds an escaped text to the last worked output.
fn add_text(
    alloc: Global,
    outputs: &mut Vec<WorkedOutput<'_>>,
    kind: TextKind,
    escaped: &str,
) -> Result<(), LineError> {
    let text = unescape(alloc, escaped)?;
    last(outputs)?.add_text(kind, text)
}

/// Adds a worked output of this name.
fn add_output<'input>(
    alloc: Global,
    outputs: &mut Vec<WorkedOutput<'input>>,
    name: &'input str,
) -> Result<(), LineError> {
    outputs.push(WorkedOutput::new(alloc, name))?;
    Ok(())
}

/// Returns the last worked output.
fn last<'outputs, 'input>(
    outputs: &'outputs mut Vec<WorkedOutput<'input>>,
) -> Result<&'outputs mut WorkedOutput<'input>, LineError> {
    outputs.last_mut().ok_or(LineError::NoCase)
}

/// Sets a character by the rest of a `character` line.
fn set_character(chars: &mut Chars<'_>, rest: &str) -> Result<(), LineError> {
    let (field, text) = split_field(rest);
    let character = only_character(text).ok_or(LineError::UnknownName)?;
    match field {
        "multi_top" => chars.multi_top = character,
        "multi_bottom" => chars.multi_bottom = character,
        "multi_primary_caret_end" => chars.multi_primary_caret_end = character,
        "multi_secondary_caret_end" => chars.multi_secondary_caret_end = character,
        _ => return Err(LineError::UnknownName),
    }
    Ok(())
}

/// Returns the character of a text, if it has exactly one.
fn only_character(text: &str) -> Option<char> {
    let mut characters = text.chars();
    let character = characters.next()?;
    if characters.as_str().is_empty() {
        Some(character)
    } else {
        None
    }
}
