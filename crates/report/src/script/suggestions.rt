//! The suggestions that the lines of a script state.

ghost use Rattle.std.specs.Prelude.{◌≡◌, map, IfOk};
ghost use Rattle.codespan_edits.specs.Edits.{text_edit, text_edits};
ghost use Rattle.codespan_suggestions.specs.Views.{suggestion_view};
ghost use Rattle.report.specs.ScriptLines.{script_line_view};
ghost use Rattle.report.specs.Suggestions.{edit_lines, parsed_edit, parsed_suggestions};
ghost use Rattle.report.specs.Suggestions.{parsed_suggestion, edits_fault, fault_of_edits};
ghost use Rattle.report.specs.Suggestions.{bad_edit, range_of_edit, suggestions_fault, FailsBy};

use super::faults::fault;
use super::line::Line;
use super::{BadEdit, Fault, FaultKind, ScriptError};
use crate::request::parse_number;
use codespan_edits::{Edit, EditError, apply_edits};
use codespan_suggestions::{Applicability, Suggestion};
use program_io::escapes::unescape;
use program_io::fields::split_field;
use std::alloc::{AllocError, Global};
use std::ops::Range;

/// Returns the suggestions that lines without an error state, in their order.
///
/// # Errors
///
/// - `Fault` if an edit of the source cannot be made: that of the first suggestion with one.
/// - `OutOfMemory` if an allocation fails.
pub(super) fn parsed_suggestions(
    alloc: Global,
    source: &str,
    lines: &[Line<'_>],
) -> Result<Vec<Suggestion<()>>, ScriptError>
    ensures suggestions { IfOk result (λ suggestions. map suggestion_view suggestions.items
        ≡ parsed_suggestions (map script_line_view lines.now)) }
    ensures failed { FailsBy
        (suggestions_fault source.now (map script_line_view lines.now)) result }
{
    let mut suggestions = Vec::new(alloc);
    for (i, line) in lines.iter().enumerate() {
        if line.word() == "suggestion" {
            let edit_lines = edit_lines(alloc, &lines[i + 1..])?;
            suggestions.push(parsed_suggestion(alloc, source, line.rest(), &edit_lines)?)?;
        }
    }
    Ok(suggestions)
}

/// Returns the lines that state the edits of a suggestion, of the lines after its own: those that
/// begin with `replace`, up to the next `suggestion`.
fn edit_lines<'input>(
    alloc: Global,
    lines: &[Line<'input>],
) -> Result<Vec<Line<'input>>, AllocError>
    ensures { IfOk result (λ found. map script_line_view found.items
        ≡ edit_lines (map script_line_view lines.now)) }
{
    let mut found = Vec::new(alloc);
    for line in lines {
        if line.word() == "suggestion" {
            return Ok(found);
        }
        if line.word() == "replace" {
            found.push(*line)?;
        }
    }
    Ok(found)
}

/// Returns the suggestion of a message and of the lines that state its edits.
///
/// # Errors
///
/// - `Fault` if an edit of the source cannot be made.
/// - `OutOfMemory` if an allocation fails.
fn parsed_suggestion(
    alloc: Global,
    source: &str,
    message: &str,
    lines: &[Line<'_>],
) -> Result<Suggestion<()>, ScriptError>
    ensures suggestion { IfOk result (λ suggestion. suggestion_view suggestion
        ≡ parsed_suggestion message.now (map script_line_view lines.now)) }
    ensures failed { FailsBy
        (edits_fault source.now (map script_line_view lines.now)) result }
{
    let edits = parsed_edits(alloc, lines)?;
    if let Err(error) = apply_edits(alloc, source, &edits) {
        return Err(match fault_of_edits(lines, error) {
            Some(fault) => ScriptError::Fault(fault),
            None => ScriptError::OutOfMemory,
        });
    }
    Ok(Suggestion {
        message: String::from_str(alloc, message)?,
        applicability: Applicability::Unspecified,
        edits,
    })
}

/// Returns the edits that lines without an error state.
fn parsed_edits(alloc: Global, lines: &[Line<'_>]) -> Result<Vec<Edit<()>>, AllocError>
    ensures { IfOk result (λ edits. text_edits edits.items
        ≡ map parsed_edit (map script_line_view lines.now)) }
{
    let mut edits = Vec::new(alloc);
    for line in lines {
        edits.push(parsed_edit(alloc, line)?)?;
    }
    Ok(edits)
}

/// Returns the edit that a line without an error states. A start or an end that is not a number
/// counts as 0, and a text with a bad escape as empty.
fn parsed_edit(alloc: Global, line: &Line<'_>) -> Result<Edit<()>, AllocError>
    ensures { IfOk result (λ edit. text_edit edit ≡ parsed_edit (script_line_view line.now)) }
{
    let (start, after) = split_field(line.rest());
    let (end, _) = split_field(after);
    let replacement = match unescape(alloc, line.replacement())? {
        Some(text) => text,
        None => String::new(alloc),
    };
    Ok(Edit {
        file_id: (),
        range: parse_number(start).unwrap_or(0)..parse_number(end).unwrap_or(0),
        replacement,
    })
}

/// Returns the error of a script whose edits, stated by these lines, have this error; `None` where
/// it is out of memory.
fn fault_of_edits(lines: &[Line<'_>], error: EditError) -> Option<Fault>
    ensures { result ≡ fault_of_edits (map script_line_view lines.now) error }
{
    match error {
        EditError::Reversed { edit } => bad_edit(lines, edit, BadEdit::Reversed),
        EditError::PastEnd { edit, len } => bad_edit(lines, edit, BadEdit::PastEnd { len }),
        EditError::NotCharBoundary { edit, byte } => {
            bad_edit(lines, edit, BadEdit::NotCharBoundary { byte })
        }
        EditError::Overlap { edit, other } => {
            let mut fault = bad_edit(lines, edit, BadEdit::Overlap)?;
            fault.first = range_of_edit(lines, other);
            Some(fault)
        }
        EditError::OutOfMemory => None,
    }
}

/// Returns the error of the edit with this index, for this reason, or `None` if there is no such
/// edit.
fn bad_edit(lines: &[Line<'_>], index: usize, reason: BadEdit) -> Option<Fault>
    ensures { result ≡ bad_edit (map script_line_view lines.now) index reason }
{
    let range = range_of_edit(lines, index)?;
    Some(fault(FaultKind::BadEdit(reason), range))
}

/// Returns the byte range in the input of the numbers of the edit with this index, or `None` if
/// there is no such edit.
fn range_of_edit(lines: &[Line<'_>], index: usize) -> Option<Range<usize>>
    ensures { result ≡ range_of_edit (map script_line_view lines.now) index }
{
    let line = lines.get(index)?;
    Some(line.ends_range())
}
