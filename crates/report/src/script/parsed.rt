//! What the lines of a script state.

ghost use Rattle.std.specs.Prelude.{◌≡◌, map, IfOk};
ghost use Rattle.std.specs.Option.{option_map};
ghost use Rattle.report.specs.ScriptLines.{script_line_view};
ghost use Rattle.report.specs.ScriptFaults.{line_of_word};
ghost use Rattle.report.specs.Scripts.{rest_of_word, parsed_severity, parsed_labels};
ghost use Rattle.report.specs.Scripts.{parsed_label, parsed_notes, script_label_view};
ghost use Rattle.report.specs.Scripts.{label_of_rest, parsed_width};

use super::ScriptLabel;
use super::line::Line;
use super::words::{Word, parse_word};
use crate::request::parse_number;
use codespan_core::diagnostic::{LabelStyle, Severity};
use program_io::fields::split_field;
use program_io::names::parse_severity;
use std::alloc::{AllocError, Global};

/// Returns the first line that begins with the word.
pub(super) fn line_of_word<'input>(word: &str, lines: &[Line<'input>]) -> Option<Line<'input>>
    ensures { option_map script_line_view result
        ≡ line_of_word word.now (map script_line_view lines.now) }
{
    lines.iter().find(|line| line.word() == word).copied()
}

/// Returns the rest of the first line that begins with the word.
pub(super) fn rest_of_word<'input>(word: &str, lines: &[Line<'input>]) -> Option<&'input str>
    ensures { option_map (λ rest. rest.now) result
        ≡ rest_of_word word.now (map script_line_view lines.now) }
{
    let line = line_of_word(word, lines)?;
    Some(line.rest())
}

/// Returns the severity that the lines state; `Error` if they state none.
#[tactic(auto, unfolding(crate::specs::Scripts::parsed_severity))]
pub(super) fn parsed_severity(lines: &[Line<'_>]) -> Severity
    ensures { result ≡ parsed_severity (map script_line_view lines.now) }
{
    match rest_of_word("severity", lines) {
        Some(rest) => parse_severity(rest).unwrap_or(Severity::Error),
        None => Severity::Error,
    }
}

/// Returns the width that the lines state, if they state one.
pub(super) fn parsed_width(lines: &[Line<'_>]) -> Option<usize>
    ensures { result ≡ parsed_width (map script_line_view lines.now) }
{
    parse_number(rest_of_word("width", lines)?)
}

/// Returns the label that a line states, if it states one.
#[tactic(auto, unfolding(crate::specs::Scripts::parsed_label))]
fn parsed_label<'input>(line: &Line<'input>) -> Option<ScriptLabel<'input>>
    ensures { option_map script_label_view result ≡ parsed_label (script_line_view line.now) }
{
    match parse_word(line.word()) {
        Some(Word::Primary) => label_of_rest(LabelStyle::Primary, line.rest()),
        Some(Word::Secondary) => label_of_rest(LabelStyle::Secondary, line.rest()),
        _ => None,
    }
}

/// Parses the rest of a label's line: its start, its end, and its message.
fn label_of_rest(style: LabelStyle, rest: &str) -> Option<ScriptLabel<'_>>
    ensures { option_map script_label_view result ≡ label_of_rest style rest.now }
{
    let (start, after) = split_field(rest);
    let (end, message) = split_field(after);
    Some((style, parse_number(start)?..parse_number(end)?, message))
}

/// Returns the labels that the lines state, in their order.
///
/// # Errors
///
/// `AllocError` if an allocation fails.
pub(super) fn parsed_labels<'input>(
    alloc: Global,
    lines: &[Line<'input>],
) -> Result<Vec<ScriptLabel<'input>>, AllocError>
    ensures { IfOk result (λ labels. map script_label_view labels.items
        ≡ parsed_labels (map script_line_view lines.now)) }
{
    let mut labels = Vec::new(alloc);
    for line in lines {
        if let Some(label) = parsed_label(line) {
            labels.push(label)?;
        }
    }
    Ok(labels)
}

/// Returns the notes that the lines state, in their order.
///
/// # Errors
///
/// `AllocError` if an allocation fails.
pub(super) fn parsed_notes<'input>(
    alloc: Global,
    lines: &[Line<'input>],
) -> Result<Vec<&'input str>, AllocError>
    ensures { IfOk result (λ notes. map (λ note. note.now) notes.items
        ≡ parsed_notes (map script_line_view lines.now)) }
{
    let mut notes = Vec::new(alloc);
    for line in lines {
        if line.word() == "note" {
            notes.push(line.rest())?;
        }
    }
    Ok(notes)
}
