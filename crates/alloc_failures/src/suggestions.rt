//! The calls of `codespan_suggestions` that allocate, over a suggestion for three files, of which
//! one keeps its text.
//!
//! What is expected is written by hand, by `docs/EDITS.md`.

use crate::outcome::{Outcome, judge_value};
use crate::recording::Recording;
use crate::rendering::{judge_recording, judge_string};
use codespan_base::files::{Error, SimpleFiles};
use codespan_base::term::{Ansi, Config, Styles, StylesWriter, WriteColor};
use codespan_edits::Edit;
use codespan_lsp::{Position, PositionEncoding, Range};
use codespan_suggestions::{
    CodeAction, CodeActionKind, FileTextEdits, Suggestion, SuggestionError, TextEdit,
    apply_suggestion, code_action, emit_suggestion_into_string, emit_suggestion_to_write_style,
    fix_its, unified_diff,
};
use std::alloc::Global;

/// A call of `codespan_suggestions`.
#[derive(Clone, Copy)]
pub enum SuggestionCall {
    /// `apply_suggestion`
    Apply,
    /// `emit_suggestion_into_string`
    EmitIntoString,
    /// `emit_suggestion_to_write_style`
    EmitToWriteStyle,
    /// `unified_diff`
    UnifiedDiff,
    /// `fix_its`
    FixIts,
    /// `code_action`
    CodeAction,
}

/// The files.
type Files<'text> = SimpleFiles<&'text str, &'text str>;

/// The name and the text of each file.
static FILES: [(&str, &str); 3] = [
    ("a.h", "void a();\n"),
    ("same.h", "a\n"),
    ("a.c", "#include \"a.h\"\n\nvoid a() {}\n"),
];

/// The message.
const MESSAGE: &str = "rename `a` to `b`";

/// The edits: the file, the start, the end and the replacement of each.
static EDITS: [(usize, usize, usize, &str); 3] = [(2, 21, 22, "b"), (1, 0, 1, "a"), (0, 5, 6, "b")];

/// The texts after the edits, each with the id of its file.
static TEXTS: [(usize, &str); 3] = [
    (2, "#include \"a.h\"\n\nvoid b() {}\n"),
    (1, "a\n"),
    (0, "void b();\n"),
];

/// The output in rich style.
const OUTPUT: &str = "help: rename `a` to `b`\n\
                      \x20   ┌─ a.c:3:6\n\
                      \x20   │\n\
                      3   │ - void a() {}\n\
                      \x20 3 │ + void b() {}\n\
                      \x20   │\n\
                      \x20   ┌─ a.h:1:6\n\
                      \x20   │\n\
                      1   │ - void a();\n\
                      \x20 1 │ + void b();\n\n";

/// The output with escape sequences.
const COLORED: &str = "\x1b[0m\x1b[1m\x1b[38;5;14mhelp\x1b[0m\x1b[1m: rename `a` to `b`\x1b[0m\n\
                       \x20   \x1b[0m\x1b[36m┌─\x1b[0m a.c:3:6\n\
                       \x20   \x1b[0m\x1b[36m│\x1b[0m\n\
                       \x1b[0m\x1b[36m3\x1b[0m   \x1b[0m\x1b[36m│\x1b[0m \
                       \x1b[0m\x1b[31m- void a() {}\x1b[0m\n\
                       \x20 \x1b[0m\x1b[36m3\x1b[0m \x1b[0m\x1b[36m│\x1b[0m \
                       \x1b[0m\x1b[32m+ void b() {}\x1b[0m\n\
                       \x20   \x1b[0m\x1b[36m│\x1b[0m\n\
                       \x20   \x1b[0m\x1b[36m┌─\x1b[0m a.h:1:6\n\
                       \x20   \x1b[0m\x1b[36m│\x1b[0m\n\
                       \x1b[0m\x1b[36m1\x1b[0m   \x1b[0m\x1b[36m│\x1b[0m \
                       \x1b[0m\x1b[31m- void a();\x1b[0m\n\
                       \x20 \x1b[0m\x1b[36m1\x1b[0m \x1b[0m\x1b[36m│\x1b[0m \
                       \x1b[0m\x1b[32m+ void b();\x1b[0m\n\n";

/// The unified diff.
const DIFF: &str = "--- a/a.c\n\
                    +++ b/a.c\n\
                    @@ -1,3 +1,3 @@\n\
                    \x20#include \"a.h\"\n\
                    \x20\n\
                    -void a() {}\n\
                    +void b() {}\n\
                    --- a/a.h\n\
                    +++ b/a.h\n\
                    @@ -1,1 +1,1 @@\n\
                    -void a();\n\
                    +void b();\n";

/// The fix-its.
const FIX_ITS: &str = "fix-it:\"a.c\":{3:6-3:7}:\"b\"\n\
                       fix-it:\"same.h\":{1:1-1:2}:\"a\"\n\
                       fix-it:\"a.h\":{1:6-1:7}:\"b\"\n";

/// The text edits: of each its file, its line, the characters of its start and of its end, and its
/// text.
static TEXT_EDITS: [(usize, u32, u32, u32, &str); 3] = [
    (2, 2, 5, 6, "b"),
    (1, 0, 0, 1, "a"),
    (0, 0, 5, 6, "b"),
];

/// Makes a call and judges it.
///
/// # Errors
///
/// `OutOfMemory` if an allocation of the preparation fails.
pub fn judge_suggestion(alloc: Global, call: SuggestionCall) -> Result<Outcome, Error> {
    let files = files(alloc)?;
    let suggestion = suggestion(alloc)?;
    match call {
        SuggestionCall::Apply => {
            let expected = texts(alloc)?;
            let returned = with_error(apply_suggestion(alloc, &files, &suggestion));
            Ok(judge_value(&returned, &expected))
        }
        SuggestionCall::EmitIntoString => {
            let returned = emit_suggestion_into_string(&Config::default(), &files, &suggestion);
            Ok(judge_string(&with_error(returned), OUTPUT))
        }
        SuggestionCall::EmitToWriteStyle => Ok(judge_colored(alloc, &files, &suggestion)),
        SuggestionCall::UnifiedDiff => {
            let returned = with_error(unified_diff(alloc, &files, &suggestion));
            Ok(judge_string(&returned, DIFF))
        }
        SuggestionCall::FixIts => {
            let returned = with_error(fix_its(alloc, &files, &suggestion));
            Ok(judge_string(&returned, FIX_ITS))
        }
        SuggestionCall::CodeAction => judge_action(alloc, &files, &suggestion),
    }
}

/// Makes the call that writes style marks, in escape sequences, and judges it.
fn judge_colored(alloc: Global, files: &Files<'_>, suggestion: &Suggestion<usize>) -> Outcome {
    let mut recording = Recording::new(alloc);
    let returned = emit_colored(Ansi::new(&mut recording), files, suggestion);
    judge_recording(&with_error(returned), &recording, COLORED)
}

/// Makes the call that writes style marks, in colors.
fn emit_colored<W: WriteColor + Drop>(
    colored: W,
    files: &Files<'_>,
    suggestion: &Suggestion<usize>,
) -> Result<(), SuggestionError> {
    let styles = Styles::default();
    let mut writer = StylesWriter::new(colored, &styles);
    emit_suggestion_to_write_style(&mut writer, &Config::default(), files, suggestion)
}

/// Makes the call that returns a code action and judges it.
fn judge_action(
    alloc: Global,
    files: &Files<'_>,
    suggestion: &Suggestion<usize>,
) -> Result<Outcome, Error> {
    let mut edit = Vec::with_capacity(alloc, TEXT_EDITS.len())?;
    for (file_id, line, start, end, text) in &TEXT_EDITS {
        edit.push(FileTextEdits {
            file_id: *file_id,
            text_edits: one_text_edit(alloc, range(*line, *start, *end), text)?,
        })?;
    }
    let expected = CodeAction {
        title: String::from_str(alloc, MESSAGE)?,
        kind: CodeActionKind::QuickFix,
        is_preferred: false,
        edit,
    };
    let returned = with_error(code_action(PositionEncoding::Utf16, files, suggestion));
    Ok(judge_value(&returned, &expected))
}

/// Returns the range between two characters of a line.
fn range(line: u32, start: u32, end: u32) -> Range {
    Range {
        start: Position {
            line,
            character: start,
        },
        end: Position {
            line,
            character: end,
        },
    }
}

/// Returns the list of this text edit alone.
fn one_text_edit(alloc: Global, range: Range, text: &str) -> Result<Vec<TextEdit>, Error> {
    let mut edits = Vec::with_capacity(alloc, 1)?;
    edits.push(TextEdit {
        range,
        new_text: String::from_str(alloc, text)?,
    })?;
    Ok(edits)
}

/// Returns the files.
fn files<'text>(alloc: Global) -> Result<Files<'text>, Error> {
    let mut files = SimpleFiles::new(alloc);
    for (name, source) in &FILES {
        files.add(*name, *source)?;
    }
    Ok(files)
}

/// Returns the suggestion.
fn suggestion(alloc: Global) -> Result<Suggestion<usize>, Error> {
    let mut suggestion = Suggestion::new(alloc).with_message(MESSAGE)?;
    for (file_id, start, end, replacement) in &EDITS {
        let edit = Edit::new(alloc, *file_id, *start..*end, *replacement)?;
        suggestion = suggestion.with_edit(edit)?;
    }
    Ok(suggestion)
}

/// Returns the texts after the edits.
fn texts(alloc: Global) -> Result<Vec<(usize, String)>, Error> {
    let mut texts = Vec::with_capacity(alloc, TEXTS.len())?;
    for (file_id, text) in &TEXTS {
        texts.push((*file_id, String::from_str(alloc, text)?))?;
    }
    Ok(texts)
}

/// Returns a result with the error of files. A fault of edits, which these have not, is another
/// error than a failed allocation.
fn with_error<T: Drop>(returned: Result<T, SuggestionError>) -> Result<T, Error> {
    match returned {
        Ok(made) => Ok(made),
        Err(SuggestionError::Files(error)) => Err(error),
        Err(SuggestionError::Edit(_)) => Err(Error::FormatError),
    }
}
