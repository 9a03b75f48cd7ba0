//! What each call makes of a suggestion.
//!
//! For each call there is a line with its name and the length of what it returns, and that; where
//! it fails, the name is followed by the word `error`, the length of the error's text, and that.
//! The calls are `rich`, `medium` and `short`, the output in that style; `colors`, that in rich
//! style with escape sequences; `diff`, the unified diff; `fix-its`; `apply`, of each file a line
//! with its id and the length of its text, and the text; and `utf8`, `utf16` and `utf32`, the code
//! action by that encoding: its title, its kind and whether it is preferred, and of each edit the
//! id of its file, its range and the length of its text, a line for each, and the text.

use crate::error::CaseError;
use crate::suggestion_case::SuggestionCase;
use codespan_base::term::{Ansi, DisplayStyle, Styles, StylesWriter};
use codespan_lsp::PositionEncoding;
use codespan_suggestions::{
    CodeAction, FileTextEdits, SuggestionError, TextEdit, apply_suggestion, code_action,
    emit_suggestion_into_string, emit_suggestion_to_write_style, fix_its, unified_diff,
};
use std::alloc::{AllocError, Global};
use std::fmt::Write;

/// What a call returns as a text.
type Made = Result<String, SuggestionError>;

/// The styles and the names of their calls.
const STYLES: [(&str, DisplayStyle); 3] = [
    ("rich", DisplayStyle::Rich),
    ("medium", DisplayStyle::Medium),
    ("short", DisplayStyle::Short),
];

/// The encodings and the names of their calls.
const ENCODINGS: [(&str, PositionEncoding); 3] = [
    ("utf8", PositionEncoding::Utf8),
    ("utf16", PositionEncoding::Utf16),
    ("utf32", PositionEncoding::Utf32),
];

/// Returns what each call makes of a suggestion.
///
/// # Errors
///
/// `OutOfMemory`: an allocation fails.
pub fn suggestion_output(alloc: Global, case: &SuggestionCase<'_>) -> Result<String, CaseError> {
    let mut output = String::new(alloc);
    push_styles(alloc, &mut output, case)?;
    push_call(alloc, &mut output, "colors", colored(alloc, case))?;
    let diff = unified_diff(alloc, &case.files, &case.suggestion);
    push_call(alloc, &mut output, "diff", diff)?;
    let fix_its = fix_its(alloc, &case.files, &case.suggestion);
    push_call(alloc, &mut output, "fix-its", fix_its)?;
    push_call(alloc, &mut output, "apply", texts(alloc, case))?;
    push_actions(alloc, &mut output, case)?;
    Ok(output)
}

/// Adds what a call returns.
fn push_call(alloc: Global, output: &mut String, name: &str, made: Made) -> Result<(), CaseError> {
    match made {
        Ok(text) => write!(output, "{name} {}\n{text}", text.as_str().len())?,
        Err(error) => {
            let text = format!(in alloc; "{error}")?;
            write!(output, "{name} error {}\n{text}", text.as_str().len())?;
        }
    }
    Ok(())
}

/// Adds the output in each style.
fn push_styles(
    alloc: Global,
    output: &mut String,
    case: &SuggestionCase<'_>,
) -> Result<(), CaseError> {
    for (name, style) in STYLES {
        let config = case.settings.config(style);
        let text = emit_suggestion_into_string(&config, &case.files, &case.suggestion);
        push_call(alloc, output, name, text)?;
    }
    Ok(())
}

/// Adds the code action by each encoding.
fn push_actions(
    alloc: Global,
    output: &mut String,
    case: &SuggestionCase<'_>,
) -> Result<(), CaseError> {
    for (name, encoding) in ENCODINGS {
        push_call(alloc, output, name, action(alloc, case, encoding))?;
    }
    Ok(())
}

/// Returns the output in rich style with escape sequences.
fn colored(alloc: Global, case: &SuggestionCase<'_>) -> Made {
    let styles = Styles::default();
    let mut writer = StylesWriter::new(Ansi::new(Vec::new(alloc)), &styles);
    let config = case.settings.config(DisplayStyle::Rich);
    emit_suggestion_to_write_style(&mut writer, &config, &case.files, &case.suggestion)?;
    match String::from_utf8(writer.into_inner().into_inner()) {
        Ok(text) => Ok(text),
        Err(_) => Ok(String::from_str(alloc, "no UTF-8")?),
    }
}

/// Returns the texts of the files after the edits.
fn texts(alloc: Global, case: &SuggestionCase<'_>) -> Made {
    let mut made = String::new(alloc);
    for (id, text) in &apply_suggestion(alloc, &case.files, &case.suggestion)? {
        write!(made, "{id} {}\n{text}", text.as_str().len())?;
    }
    Ok(made)
}

/// Returns the code action by an encoding.
fn action(alloc: Global, case: &SuggestionCase<'_>, encoding: PositionEncoding) -> Made {
    let action = code_action(encoding, &case.files, &case.suggestion)?;
    Ok(action_text(alloc, &action)?)
}

/// Returns a code action as a text.
fn action_text(alloc: Global, action: &CodeAction<usize>) -> Result<String, AllocError> {
    let mut made = String::new(alloc);
    let kind = action.kind.name();
    write!(made, "{}\n{kind} {}\n", action.title, action.is_preferred)?;
    for file in &action.edit {
        push_file(&mut made, file)?;
    }
    Ok(made)
}

/// Adds the text edits of a file.
fn push_file(made: &mut String, file: &FileTextEdits<usize>) -> Result<(), AllocError> {
    for edit in &file.text_edits {
        push_text_edit(made, file.file_id, edit)?;
    }
    Ok(())
}

/// Adds a text edit of the file of an id.
fn push_text_edit(made: &mut String, id: usize, edit: &TextEdit) -> Result<(), AllocError> {
    let (start, end) = (edit.range.start, edit.range.end);
    write!(made, "{id} {}:{} ", start.line, start.character)?;
    write!(made, "{}:{} ", end.line, end.character)?;
    write!(made, "{}\n{}", edit.new_text.as_str().len(), edit.new_text)
}
