//! Scripts: a diagnostic and suggestions in lines of words, and the source that they speak of.
//!
//! A script is a text of lines, up to the first line that is `---`; the source follows that line.
//! Each line begins with a word, which ends at the first space; its rest is what follows that
//! space. A carriage return right before a newline is not part of its line. Lines that are empty or
//! begin with `#` are ignored. `docs/SCRIPT.md` lists the words and their rests.

ghost use Rattle.std.specs.Prelude.{◌≡◌, MatchResult};
ghost use Rattle.report.specs.Scripts.{parsed_script, script_view};
ghost use Rattle.report.specs.ScriptFaults.{IsScriptError};
ghost use Rattle.report.specs.declared.script.ScriptError.TheVariants.{OutOfMemory};

mod faults;
mod line;
mod lines;
mod parsed;
mod suggestions;
mod words;

use codespan_core::diagnostic::{LabelStyle, Severity};
use codespan_suggestions::Suggestion;
use faults::{first_fault, missing_end};
use lines::split_script;
use parsed::{parsed_labels, parsed_notes, parsed_severity, parsed_width, rest_of_word};
use std::alloc::{AllocError, AllocFailed, Global};
use std::fmt;
use std::ops::Range;
use suggestions::parsed_suggestions;

/// A label of a script: its style, its byte range in the source, the end exclusive, and its
/// message.
pub type ScriptLabel<'input> = (LabelStyle, Range<usize>, &'input str);

/// What a script states, and the source after it: texts borrowed from the input.
#[derive(Drop)]
pub struct Script<'input> {
    /// The severity; `Error` if the script states none.
    pub severity: Severity,
    /// The code, if the script states one.
    pub code: Option<&'input str>,
    /// The message; empty if the script states none.
    pub message: &'input str,
    /// The width that rows should fit, in cells, if the script states one.
    pub max_width: Option<usize>,
    /// The labels in the order of their lines.
    pub labels: Vec<ScriptLabel<'input>>,
    /// The notes in the order of their lines.
    pub notes: Vec<&'input str>,
    /// The suggestions in the order of their lines. No edit of them has an error.
    pub suggestions: Vec<Suggestion<()>>,
    /// The source: all that follows the line `---`.
    pub source: &'input str,
}

/// A kind of error in scripts; the kinds are in the order of their codes, from `S1`.
#[derive(Clone, Copy)]
pub enum FaultKind {
    /// A line begins with a word that scripts do not have.
    UnknownWord,
    /// The rest of a `severity` line is not the name of a severity.
    UnknownSeverity,
    /// The start or the end of a label or of an edit, or a width, is not a number, or does not fit
    /// a `usize`.
    BadNumber,
    /// `severity`, `code`, `message` or `width` is repeated.
    RepeatedWord,
    /// No line is `---`. Reported only if no line has an error.
    MissingEnd,
    /// A `replace` line has no `suggestion` line before it.
    NoSuggestion,
    /// A backslash in the text of a `replace` line does not begin an escape.
    BadEscape,
    /// An edit of the source cannot be made. Reported only if there is no other error.
    BadEdit(BadEdit),
}

/// Why an edit of the source cannot be made.
#[derive(Clone, Copy)]
pub enum BadEdit {
    /// It ends before it starts.
    Reversed,
    /// It ends past the source.
    PastEnd {
        /// The length of the source in bytes.
        len: usize,
    },
    /// It starts or ends inside a character.
    NotCharBoundary {
        /// The byte at which it starts, if that is inside a character, and else the byte at which
        /// it ends.
        byte: usize,
    },
    /// It overlaps another edit of its suggestion.
    Overlap,
}

impl FaultKind {
    ghost use Rattle.report.specs.ReportDiagnostics.{fault_code, fault_message};
    ghost use Rattle.report.specs.ReportDiagnostics.{fault_first_message};

    /// Returns the code of the diagnostic, from `S1` to `S8` in the order of the kinds.
    pub fn code(self) -> &'static str
        ensures { result.now ≡ fault_code self }
    {
        match self {
            FaultKind::UnknownWord => "S1",
            FaultKind::UnknownSeverity => "S2",
            FaultKind::BadNumber => "S3",
            FaultKind::RepeatedWord => "S4",
            FaultKind::MissingEnd => "S5",
            FaultKind::NoSuggestion => "S6",
            FaultKind::BadEscape => "S7",
            FaultKind::BadEdit(_) => "S8",
        }
    }

    /// Returns the message of the diagnostic.
    pub fn message(self) -> &'static str
        ensures { result.now ≡ fault_message self }
    {
        match self {
            FaultKind::UnknownWord => "unknown word",
            FaultKind::UnknownSeverity => "unknown severity",
            FaultKind::BadNumber => "bad number",
            FaultKind::RepeatedWord => "repeated word",
            FaultKind::MissingEnd => "missing end of script",
            FaultKind::NoSuggestion => "edit without suggestion",
            FaultKind::BadEscape => "bad escape",
            FaultKind::BadEdit(_) => "bad edit",
        }
    }

    /// Returns the message of the label over `first` of the error.
    pub fn first_message(self) -> &'static str
        ensures { result.now ≡ fault_first_message self }
    {
        match self {
            FaultKind::BadEdit(_) => "the other edit",
            _ => "first given here",
        }
    }
}

/// Writes the message of the label over the error.
impl fmt::Display for FaultKind {
    ghost use Rattle.report.specs.ReportDiagnostics.{fault_label_message};
    ghost use Rattle.std.specs.Prelude.{Some};

    ghost output = { λ kind. Some (fault_label_message kind) };

    fn fmt<W: fmt::Write>(&self, f: &mut fmt::Formatter<W>) -> fmt::Result {
        match self {
            FaultKind::UnknownWord => f.write_str(
                "expected severity, code, message, width, primary, secondary, note, suggestion or \
                 replace",
            ),
            FaultKind::UnknownSeverity => {
                f.write_str("expected bug, error, warning, note or help")
            }
            FaultKind::BadNumber => f.write_str("expected a decimal number"),
            FaultKind::RepeatedWord => f.write_str("given again"),
            FaultKind::MissingEnd => f.write_str("expected ---"),
            FaultKind::NoSuggestion => f.write_str("expected a suggestion before it"),
            FaultKind::BadEscape => f.write_str("expected \\n, \\r, \\t, \\0, \\\\ or \\u{HEX}"),
            FaultKind::BadEdit(reason) => write!(f, "{reason}"),
        }
    }
}

/// Writes the message of the label over the edit.
impl fmt::Display for BadEdit {
    ghost use Rattle.report.specs.ReportDiagnostics.{bad_edit_message};
    ghost use Rattle.std.specs.Prelude.{Some};

    ghost output = { λ reason. Some (bad_edit_message reason) };

    fn fmt<W: fmt::Write>(&self, f: &mut fmt::Formatter<W>) -> fmt::Result {
        match self {
            BadEdit::Reversed => f.write_str("ends before it starts"),
            BadEdit::PastEnd { len } => write!(f, "the source ends at byte {len}"),
            BadEdit::NotCharBoundary { byte } => {
                write!(f, "byte {byte} is not a character boundary")
            }
            BadEdit::Overlap => f.write_str("overlaps another edit"),
        }
    }
}

/// The first error of a script, and its range in the input.
#[derive(Drop)]
pub struct Fault {
    /// The kind of error.
    pub kind: FaultKind,
    /// The byte range of the input that is wrong, the end exclusive.
    pub range: Range<usize>,
    /// The byte range of what comes first: of a repeated word its first occurrence, and of edits
    /// that overlap the earlier one in the source. `None` for any other error.
    pub first: Option<Range<usize>>,
}

/// An error of parsing a script.
#[derive(Drop)]
pub enum ScriptError {
    /// The text is not a script: its first error.
    Fault(Fault),
    /// An allocation failed.
    OutOfMemory,
}

/// Converts a failed allocation.
impl From<AllocError> for ScriptError {
    ghost from_gives = { λ _ error. error ≡ OutOfMemory };

    fn from(_error: AllocError) -> ScriptError {
        ScriptError::OutOfMemory
    }
}

/// Converts a failed allocation, and drops the value that was to be added.
impl<T: Drop> From<AllocFailed<T>> for ScriptError {
    ghost from_gives = { λ _ error. error ≡ OutOfMemory };

    fn from(_error: AllocFailed<T>) -> ScriptError {
        ScriptError::OutOfMemory
    }
}

/// Parses a text as a script.
///
/// # Errors
///
/// - `Fault` if the text is not a script: its first error, by lines, and within a line the word,
///   then its repetition or the missing suggestion, then the fields from left to right; or else
///   that no line is `---`; or else that of the first suggestion with an edit that cannot be made.
/// - `OutOfMemory` if an allocation fails.
pub fn parse_script(alloc: Global, input: &str) -> Result<Script<'_>, ScriptError>
    ensures { MatchResult result (λ script. parsed_script input.now ≡ Ok (script_view script))
        (λ error. IsScriptError (parsed_script input.now) error) }
{
    let (lines, source) = split_script(alloc, input)?;
    if let Some(fault) = first_fault(lines.as_slice()) {
        return Err(ScriptError::Fault(fault));
    }
    let Some(source) = source else {
        return Err(ScriptError::Fault(missing_end(input)));
    };
    Ok(Script {
        severity: parsed_severity(lines.as_slice()),
        code: rest_of_word("code", lines.as_slice()),
        message: rest_of_word("message", lines.as_slice()).unwrap_or(""),
        max_width: parsed_width(lines.as_slice()),
        labels: parsed_labels(alloc, lines.as_slice())?,
        notes: parsed_notes(alloc, lines.as_slice())?,
        suggestions: parsed_suggestions(alloc, source, lines.as_slice())?,
        source,
    })
}
