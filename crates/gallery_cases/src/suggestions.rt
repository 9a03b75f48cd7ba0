//! The outputs of a case's suggestions, which are below that of its diagnostic.

ghost use Rattle.std.specs.Prelude.{◌≡◌, ◌++◌, IfOk, OnOk};
ghost use Rattle.codespan_styled.specs.Runs.{runs_of, styled_runs};
ghost use Rattle.codespan_suggestions.specs.SuggestionOutput.{suggestion_stream};
ghost use Rattle.gallery_cases.specs.CaseOutputs.{AreNamed, suggestion_texts};
ghost use Rattle.gallery_cases.specs.Documents.{suggestion_runs};
ghost use Rattle.gallery_cases.specs.declared.case.ColorChoice.TheVariants.{Plain};

use crate::case::{Case, ColorChoice};
use codespan_base::files::Files;
use codespan_base::term::{Ansi, Config, Styles, StylesWriter, WriteColor};
use codespan_styled::{Recorder, StyledText};
use codespan_suggestions::{
    Suggestion, SuggestionError, emit_suggestion_into_string, emit_suggestion_to_write_style,
};
use std::alloc::Global;

/// Appends the output of each suggestion: as plain text, or in colors by escape sequences.
///
/// # Errors
///
/// Those of [`emit_suggestion_into_string`], and `OutOfMemory` if an allocation fails.
pub fn add_suggestions<'files, F: Files<'files>>(
    case: &Case<'_>,
    files: &'files F,
    suggestions: &[Suggestion<F::FileId>],
    output: &mut Vec<u8>,
) -> Result<(), SuggestionError>
    ensures { AreNamed (F.database files.now) → case.now.colors ≡ Plain
        → OnOk result (output.new.items ≡ output.old.items
        ++ suggestion_texts case.now.config (F.database files.now) suggestions.now) }
{
    if case.colors == ColorChoice::Plain {
        add_texts(&case.config, files, suggestions, output)
    } else {
        write_colored(&case.config, files, suggestions, Ansi::new(output))
    }
}

/// Writes the output of each suggestion to a writer of colors.
fn write_colored<'files, F: Files<'files>, W: WriteColor + Drop>(
    config: &Config<'_>,
    files: &'files F,
    suggestions: &[Suggestion<F::FileId>],
    colored: W,
) -> Result<(), SuggestionError> {
    let styles = Styles::default();
    let mut writer = StylesWriter::new(colored, &styles);
    for suggestion in suggestions {
        emit_suggestion_to_write_style(&mut writer, config, files, suggestion)?;
    }
    Ok(())
}

/// Appends the output of each suggestion as plain text.
fn add_texts<'files, F: Files<'files>>(
    config: &Config<'_>,
    files: &'files F,
    suggestions: &[Suggestion<F::FileId>],
    output: &mut Vec<u8>,
) -> Result<(), SuggestionError>
    ensures { AreNamed (F.database files.now) → OnOk result (output.new.items
        ≡ output.old.items
        ++ suggestion_texts config.now (F.database files.now) suggestions.now) }
{
    for suggestion in suggestions {
        let text = emit_suggestion_into_string(config, files, suggestion)?;
        output.extend_from_slice(text.as_bytes())?;
    }
    Ok(())
}

/// Appends the runs of the output of each suggestion.
///
/// # Errors
///
/// Those of [`runs_of_suggestion`], and `OutOfMemory` if an allocation fails.
pub fn add_suggestion_runs<'files, F: Files<'files>>(
    alloc: Global,
    config: &Config<'_>,
    files: &'files F,
    suggestions: &[Suggestion<F::FileId>],
    text: &mut StyledText,
) -> Result<(), SuggestionError>
    ensures { AreNamed (F.database files.now) → OnOk result (styled_runs text.new
        ≡ styled_runs text.old
        ++ suggestion_runs config.now (F.database files.now) suggestions.now) }
{
    for suggestion in suggestions {
        let mut more = runs_of_suggestion(alloc, config, files, suggestion)?;
        text.runs.append(&mut more.runs)?;
    }
    Ok(())
}

/// Returns the runs of the output of a suggestion.
///
/// # Errors
///
/// Those of [`emit_suggestion_to_write_style`], which are `Io` if an allocation of the runs fails,
/// and `OutOfMemory` if another one does.
pub fn runs_of_suggestion<'files, F: Files<'files>>(
    alloc: Global,
    config: &Config<'_>,
    files: &'files F,
    suggestion: &Suggestion<F::FileId>,
) -> Result<StyledText, SuggestionError>
    ensures { AreNamed (F.database files.now) → IfOk result (λ text. styled_runs text
        ≡ runs_of (suggestion_stream config.now (F.database files.now) suggestion.now)) }
{
    let mut recorder = Recorder::new(alloc);
    emit_suggestion_to_write_style(&mut recorder, config, files, suggestion)?;
    Ok(recorder.into_text()?)
}
