//! The errors of scripts.

ghost use Rattle.std.specs.Prelude.{◌≡◌, [], map};
ghost use Rattle.report.specs.ScriptLines.{script_line_view};
ghost use Rattle.report.specs.ScriptFaults.{fault_from, line_fault, missing_end};
ghost use Rattle.report.specs.ScriptFaults.{severity_fault, number_fault, repetition};
ghost use Rattle.report.specs.ScriptFaults.{replace_fault, escape_fault, width_fault};

use super::line::Line;
use super::parsed::line_of_word;
use super::words::{Word, parse_word};
use super::{Fault, FaultKind};
use crate::request::parse_number;
use program_io::escapes::after_bad_escape;
use program_io::fields::split_field;
use program_io::names::parse_severity;
use std::ops::Range;

/// Returns the first error in the lines of a script.
pub(super) fn first_fault(lines: &[Line<'_>]) -> Option<Fault>
    ensures { result ≡ fault_from [] (map script_line_view lines.now) }
{
    for (i, line) in lines.iter().enumerate() {
        if let Some(fault) = line_fault(&lines[..i], line) {
            return Some(fault);
        }
    }
    None
}

/// Returns the first error of a line; `before` are the lines before it.
fn line_fault(before: &[Line<'_>], line: &Line<'_>) -> Option<Fault>
    ensures { result ≡ line_fault (map script_line_view before.now) (script_line_view line.now) }
{
    if line.is_ignored() {
        return None;
    }
    match parse_word(line.word()) {
        None => Some(fault(
            FaultKind::UnknownWord,
            line.range_at(line.text, line.word()),
        )),
        Some(Word::Severity) => match repetition(before, line) {
            Some(fault) => Some(fault),
            None => severity_fault(line),
        },
        Some(Word::Code | Word::Message) => repetition(before, line),
        Some(Word::Width) => match repetition(before, line) {
            Some(fault) => Some(fault),
            None => width_fault(line),
        },
        Some(Word::Primary | Word::Secondary) => number_fault(line),
        Some(Word::Note | Word::Suggestion) => None,
        Some(Word::Replace) => replace_fault(before, line),
    }
}

/// Returns the error of a script without an end, at the end of the input.
pub(super) fn missing_end(input: &str) -> Fault
    ensures { result ≡ missing_end input.now }
{
    fault(FaultKind::MissingEnd, input.len()..input.len())
}

/// Returns an error with one range.
pub(super) fn fault(kind: FaultKind, range: Range<usize>) -> Fault
    ensures { result ≡ record { kind = kind; range = range; first = None } }
{
    Fault {
        kind,
        range,
        first: None,
    }
}

/// Returns the error of a line whose word is that of an earlier line.
#[tactic(auto, unfolding(crate::specs::ScriptFaults::repetition))]
fn repetition(before: &[Line<'_>], line: &Line<'_>) -> Option<Fault>
    ensures { result ≡ repetition (map script_line_view before.now) (script_line_view line.now) }
{
    let first = line_of_word(line.word(), before)?;
    Some(Fault {
        kind: FaultKind::RepeatedWord,
        range: line.range_at(line.text, line.word()),
        first: Some(first.range_at(first.text, first.word())),
    })
}

/// Returns the error of a `severity` line whose rest is not the name of a severity.
#[tactic(auto, unfolding(crate::specs::ScriptFaults::severity_fault))]
fn severity_fault(line: &Line<'_>) -> Option<Fault>
    ensures { result ≡ severity_fault (script_line_view line.now) }
{
    match parse_severity(line.rest()) {
        Some(_) => None,
        None => Some(fault(
            FaultKind::UnknownSeverity,
            line.range_at(line.rest(), line.rest()),
        )),
    }
}

/// Returns the error of a `width` line whose rest is not a number.
#[tactic(auto, unfolding(crate::specs::ScriptFaults::width_fault))]
fn width_fault(line: &Line<'_>) -> Option<Fault>
    ensures { result ≡ width_fault (script_line_view line.now) }
{
    match parse_number(line.rest()) {
        Some(_) => None,
        None => Some(fault(
            FaultKind::BadNumber,
            line.range_at(line.rest(), line.rest()),
        )),
    }
}

/// Returns the error of a label's line whose start or end is not a number.
#[tactic(auto, unfolding(crate::specs::ScriptFaults::number_fault))]
fn number_fault(line: &Line<'_>) -> Option<Fault>
    ensures { result ≡ number_fault (script_line_view line.now) }
{
    let (start, after) = split_field(line.rest());
    let (end, _) = split_field(after);
    if parse_number(start).is_none() {
        return Some(fault(FaultKind::BadNumber, line.range_at(line.rest(), start)));
    }
    if parse_number(end).is_none() {
        return Some(fault(FaultKind::BadNumber, line.range_at(after, end)));
    }
    None
}

/// Returns the error of a `replace` line: that no line before it begins with `suggestion`, or that
/// its start or end is not a number, or that a backslash of its text does not begin an escape.
#[tactic(auto, unfolding(crate::specs::ScriptFaults::replace_fault))]
fn replace_fault(before: &[Line<'_>], line: &Line<'_>) -> Option<Fault>
    ensures { result
        ≡ replace_fault (map script_line_view before.now) (script_line_view line.now) }
{
    if line_of_word("suggestion", before).is_none() {
        return Some(fault(
            FaultKind::NoSuggestion,
            line.range_at(line.text, line.word()),
        ));
    }
    match number_fault(line) {
        Some(fault) => Some(fault),
        None => escape_fault(line),
    }
}

/// Returns the error of a `replace` line whose text has a backslash that does not begin an escape.
#[tactic(auto, unfolding(crate::specs::ScriptFaults::escape_fault))]
fn escape_fault(line: &Line<'_>) -> Option<Fault>
    ensures { result ≡ escape_fault (script_line_view line.now) }
{
    let after = after_bad_escape(line.replacement())?;
    Some(fault(FaultKind::BadEscape, line.byte_before(after)))
}
