//! The parser of a line.

ghost use Rattle.std.specs.Prelude.{◌≡◌, Some, IfOk, IfErr};
ghost use Rattle.std.specs.Option.{ok_or};
ghost use Rattle.gallery_cases.specs.Statements.{ParsesTo, States, IsWrong, IsWrongLine};
ghost use Rattle.gallery_cases.specs.Statements.{label_style_word};
ghost use Rattle.gallery_cases.specs.declared.errors.LineError.TheVariants.{UnknownName};
ghost use Rattle.gallery_cases.specs.declared.words.Word.TheVariants as words;

use crate::case::{CharacterSet, ColorChoice, DatabaseKind};
use crate::errors::LineError;
use crate::escape::unescape;
use crate::numbers::{parse_number, split_number};
use crate::words::{
    Word, parse_characters, parse_colors, parse_database_kind, parse_layout, parse_word,
};
use codespan_base::diagnostic::{Label, LabelStyle, Severity};
use codespan_base::term::{DisplayStyle, Layout};
use codespan_edits::Edit;
use program_io::fields::{is_ignored, split_field};
use program_io::names::{parse_display_style, parse_severity};
use std::alloc::Global;

/// A parsed line.
#[derive(Drop)]
pub enum Line<'input> {
    /// A line that is ignored: it is empty or begins with `#`.
    Ignored,
    /// `case NAME`: the beginning of a case with this name.
    NewCase(&'input str),
    /// A line that states something of the last case.
    OfLastCase(Statement),
}

/// What a line states of a case.
#[derive(Drop)]
pub enum Statement {
    /// `database KIND`: the kind of its file database.
    Database(DatabaseKind),
    /// `file TEXT`: one more file, of this name.
    File(String),
    /// `| TEXT`: the continuation of the source of the last file.
    Source(String),
    /// `number LINE NUMBER`: one more set line number.
    Number {
        /// The index of the line, from 0.
        line: usize,
        /// Its number.
        number: usize,
    },
    /// `style NAME`: the display style.
    Style(DisplayStyle),
    /// `layout NAME`: the layout of line numbers and lanes.
    Layout(Layout),
    /// `tab WIDTH`: the tab width, in cells.
    Tab(usize),
    /// `context START END BEFORE AFTER`: how many context lines are shown, around labels and inside
    /// multi-line labels.
    Context(ContextLines),
    /// `width WIDTH`: the width that rows should fit, in cells.
    Width(usize),
    /// `characters NAME`: the characters of borders, carets and lanes.
    Characters(CharacterSet),
    /// `colors NAME`: whether the output has colors, and how these are written.
    Colors(ColorChoice),
    /// `severity NAME`: the severity.
    Severity(Severity),
    /// `code TEXT`: the code.
    Code(String),
    /// `message TEXT`: the message.
    Message(String),
    /// `primary FILE START END TEXT` or `secondary FILE START END TEXT`: one more label.
    Label(Label<usize>),
    /// `note TEXT`: one more note.
    Note(String),
    /// `suggestion TEXT`: one more suggestion, with this message.
    Suggestion(String),
    /// `replace FILE START END TEXT`: one more edit of the last suggestion.
    Replace(Edit<usize>),
}

/// How many context lines are shown: around labels, and inside multi-line labels.
#[derive(Clone, Copy)]
pub struct ContextLines {
    /// After the first line of a multi-line label.
    pub start: usize,
    /// Before the last line of a multi-line label.
    pub end: usize,
    /// Before the first line of a label.
    pub before: usize,
    /// After the last line of a label.
    pub after: usize,
}

/// Parses a line.
///
/// # Errors
///
/// - `UnknownWord`: the line begins with an unknown word.
/// - `UnknownName`: its rest is none of the names that may follow its word.
/// - `BadNumber`: a number is missing or malformed.
/// - `BadEscape`: a backslash in its text does not begin an escape.
/// - `OutOfMemory`: an allocation fails.
pub fn parse_line<'input>(alloc: Global, line: &'input str) -> Result<Line<'input>, LineError>
    ensures parsed { IfOk result (ParsesTo line.now) }
    ensures wrong { IfErr result (IsWrongLine line.now) }
{
    if is_ignored(line) {
        return Ok(Line::Ignored);
    }
    let (word, rest) = split_field(line);
    if word == "case" {
        return Ok(Line::NewCase(rest));
    }
    let word = parse_word(word).ok_or(LineError::UnknownWord)?;
    Ok(Line::OfLastCase(parse_statement(alloc, word, rest)?))
}

/// Parses the rest of a line that begins with the word.
fn parse_statement(alloc: Global, word: Word, rest: &str) -> Result<Statement, LineError>
    ensures parsed { IfOk result (States (Some word) rest.now) }
    ensures wrong { IfErr result (IsWrong (Some word) rest.now) }
{
    match word {
        Word::Database => Ok(Statement::Database(or_unknown_name(parse_database_kind(rest))?)),
        Word::File => Ok(Statement::File(unescape(alloc, rest)?)),
        Word::Source => Ok(Statement::Source(unescape(alloc, rest)?)),
        Word::Number => parse_set_number(rest),
        Word::Style => Ok(Statement::Style(or_unknown_name(parse_display_style(rest))?)),
        Word::Layout => Ok(Statement::Layout(or_unknown_name(parse_layout(rest))?)),
        Word::Tab => Ok(Statement::Tab(parse_number(rest)?)),
        Word::Context => parse_context(rest),
        Word::Width => Ok(Statement::Width(parse_number(rest)?)),
        Word::Characters => Ok(Statement::Characters(or_unknown_name(parse_characters(rest))?)),
        Word::Colors => Ok(Statement::Colors(or_unknown_name(parse_colors(rest))?)),
        Word::Severity => Ok(Statement::Severity(or_unknown_name(parse_severity(rest))?)),
        Word::Code => Ok(Statement::Code(unescape(alloc, rest)?)),
        Word::Message => Ok(Statement::Message(unescape(alloc, rest)?)),
        Word::Primary => parse_label(alloc, LabelStyle::Primary, rest),
        Word::Secondary => parse_label(alloc, LabelStyle::Secondary, rest),
        Word::Note => Ok(Statement::Note(unescape(alloc, rest)?)),
        Word::Suggestion => Ok(Statement::Suggestion(unescape(alloc, rest)?)),
        Word::Replace => parse_edit(alloc, rest),
    }
}

/// Returns what a name stands for; fails with `UnknownName` if that is nothing.
fn or_unknown_name<T: Drop>(named: Option<T>) -> Result<T, LineError>
    ensures { result ≡ ok_or named UnknownName }
{
    named.ok_or(LineError::UnknownName)
}

/// Parses the rest of a `number` line.
fn parse_set_number(rest: &str) -> Result<Statement, LineError>
    ensures parsed { IfOk result (States (Some words.Number) rest.now) }
    ensures wrong { IfErr result (IsWrong (Some words.Number) rest.now) }
{
    let (line, left) = split_number(rest)?;
    let number = parse_number(left)?;
    Ok(Statement::Number { line, number })
}

/// Parses the rest of a `context` line.
fn parse_context(rest: &str) -> Result<Statement, LineError>
    ensures parsed { IfOk result (States (Some words.Context) rest.now) }
    ensures wrong { IfErr result (IsWrong (Some words.Context) rest.now) }
{
    let (start, left) = split_number(rest)?;
    let (end, left) = split_number(left)?;
    let (before, left) = split_number(left)?;
    Ok(Statement::Context(ContextLines {
        start,
        end,
        before,
        after: parse_number(left)?,
    }))
}

/// Parses the rest of a line of a label in this style.
fn parse_label(alloc: Global, style: LabelStyle, rest: &str) -> Result<Statement, LineError>
    ensures parsed { IfOk result (States (Some (label_style_word style)) rest.now) }
    ensures wrong { IfErr result (IsWrong (Some (label_style_word style)) rest.now) }
{
    let (file_id, left) = split_number(rest)?;
    let (start, left) = split_number(left)?;
    let (end, left) = split_number(left)?;
    Ok(Statement::Label(Label {
        style,
        file_id,
        range: start..end,
        message: unescape(alloc, left)?,
    }))
}

/// Parses the rest of a `replace` line.
fn parse_edit(alloc: Global, rest: &str) -> Result<Statement, LineError>
    ensures parsed { IfOk result (States (Some words.Replace) rest.now) }
    ensures wrong { IfErr result (IsWrong (Some words.Replace) rest.now) }
{
    let (file_id, left) = split_number(rest)?;
    let (start, left) = split_number(left)?;
    let (end, left) = split_number(left)?;
    let range = start..end;
    Ok(Statement::Replace(Edit {
        file_id,
        range,
        replacement: unescape(alloc, left)?,
    }))
}
