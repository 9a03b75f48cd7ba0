//! All runs of a worked output, and of a row that is rendered by a direct call.

use crate::direct::DirectCall;
use crate::direct::rows::DirectRow;
use crate::errors::{WrongRun, WrongRunAt};
use crate::rendering::{CALLS, Render, RenderCall, RenderInput, Rendering};
use crate::stops::{judge_bytes, judge_stops, judge_style_marks};
use crate::style_writers::{STYLE_WRITERS, StyleWriterKind};
use crate::suggestions::RenderedSuggestion;
use crate::suggestions::rows::SuggestionRow;
use crate::worked_output::{ExpectedColors, WorkedOutput};
use codespan_base::diagnostic::Diagnostic;
use codespan_base::files::{Error, Files};
use codespan_base::term::{Config, DisplayStyle};
use codespan_views::emitting::{emit_into_string, emit_to_string};
use gallery_cases::database::{Database, database_of};
use std::alloc::Global;

/// The styles in which each worked output is rendered.
pub const DISPLAY_STYLES: [DisplayStyle; 3] = [
    DisplayStyle::Rich,
    DisplayStyle::Medium,
    DisplayStyle::Short,
];

/// Makes all runs of a worked output, and returns their number.
///
/// # Errors
///
/// The first error of a run, with its style and its call.
pub fn judge_output(alloc: Global, worked: &WorkedOutput<'_>) -> Result<usize, WrongRunAt> {
    let database = before_any_call(database_of(alloc, &worked.case))?;
    judge_styles(alloc, worked, &database)
}

/// Makes all runs of a worked output over its file database.
fn judge_styles(
    alloc: Global,
    worked: &WorkedOutput<'_>,
    database: &Database<'_>,
) -> Result<usize, WrongRunAt> {
    let mut runs = 0usize;
    for style in DISPLAY_STYLES {
        let more = judge_style(alloc, worked, database, style)?;
        runs = runs.saturating_add(more);
    }
    Ok(runs)
}

/// Adds to an error that it occurred before any call.
fn before_any_call<T: Drop>(made: Result<T, Error>) -> Result<T, WrongRunAt> {
    match made {
        Ok(made) => Ok(made),
        Err(error) => at(None, None, Err(WrongRun::Failed(error))),
    }
}

/// Makes all runs of a worked output in a style, over its file database.
fn judge_style(
    alloc: Global,
    worked: &WorkedOutput<'_>,
    database: &Database<'_>,
    style: DisplayStyle,
) -> Result<usize, WrongRunAt> {
    let config = before_any_call(worked.config(style))?;
    let input = RenderInput {
        config: &config,
        database,
        diagnostic: &worked.case.diagnostic,
    };
    judge_input(alloc, worked, input)
}

/// Makes all runs of a worked output in the style of a configuration.
fn judge_input(
    alloc: Global,
    worked: &WorkedOutput<'_>,
    input: RenderInput<'_, '_>,
) -> Result<usize, WrongRunAt> {
    let style = input.config.display_style;
    let text = at(Some(style), None, checked_text(alloc, worked, input))?;
    judge_calls(alloc, input, text.as_str(), worked.colors(style))
}

/// Makes all runs in a style, from the plain text and what is expected of the text in escape
/// sequences.
fn judge_calls(
    alloc: Global,
    input: RenderInput<'_, '_>,
    text: &str,
    colors: ExpectedColors<'_>,
) -> Result<usize, WrongRunAt> {
    let mut runs = 0usize;
    for call in CALLS {
        let more = judge_render_call(alloc, Rendering { call, input }, text, colors)?;
        runs = runs.saturating_add(more);
    }
    Ok(runs)
}

/// Makes all runs in a style by one call.
fn judge_render_call(
    alloc: Global,
    rendering: Rendering<'_, '_>,
    text: &str,
    colors: ExpectedColors<'_>,
) -> Result<usize, WrongRunAt> {
    let (style, call) = (rendering.input.config.display_style, rendering.call);
    at(
        Some(style),
        Some(call),
        judge_call(alloc, &rendering, text, colors),
    )
}

/// Adds the style and the call to an error.
fn at<T: Drop>(
    style: Option<DisplayStyle>,
    call: Option<RenderCall>,
    judged: Result<T, WrongRun>,
) -> Result<T, WrongRunAt> {
    match judged {
        Ok(made) => Ok(made),
        Err(wrong_run) => Err(WrongRunAt {
            style,
            call,
            wrong_run,
        }),
    }
}

/// The old text of a string that is appended to.
const OLD_TEXT: &str = "kept";

/// Returns the plain text in the style of a configuration. It is compared with the one that is
/// expected, if any, and with what is appended to a string.
fn checked_text(
    alloc: Global,
    worked: &WorkedOutput<'_>,
    input: RenderInput<'_, '_>,
) -> Result<String, WrongRun> {
    let text = rendered_text(alloc, input)?;
    match worked.plain_text(input.config.display_style) {
        Some(want) if text.as_str() != want => Err(WrongRun::UnexpectedText),
        _ => Ok(text),
    }
}

/// Returns the plain text. It is compared with what is appended to a string.
fn rendered_text(alloc: Global, input: RenderInput<'_, '_>) -> Result<String, WrongRun> {
    let config = input.config;
    match input.database {
        Database::One(file, diagnostic) => text_over(alloc, config, file, diagnostic),
        Database::Several(files) => text_over(alloc, config, files, input.diagnostic),
        Database::Mapped(file, diagnostic) => text_over(alloc, config, file, diagnostic),
    }
}

/// Returns the plain text over files. It is compared with what is appended to a string.
fn text_over<'files, F: Files<'files>>(
    alloc: Global,
    config: &Config<'_>,
    files: &'files F,
    diagnostic: &Diagnostic<F::FileId>,
) -> Result<String, WrongRun> {
    let text = emit_into_string(config, files, diagnostic)?;
    let mut string = old_text(alloc)?;
    emit_to_string(&mut string, config, files, diagnostic)?;
    if string.as_str().strip_prefix(OLD_TEXT) == Some(text.as_str()) {
        Ok(text)
    } else {
        Err(WrongRun::UnexpectedString)
    }
}

/// Returns a string to append to.
fn old_text(alloc: Global) -> Result<String, Error> {
    Ok(String::from_str(alloc, OLD_TEXT)?)
}

/// Makes all runs of a call, and returns their number.
fn judge_call<D: Render>(
    alloc: Global,
    call: &D,
    text: &str,
    colors: ExpectedColors<'_>,
) -> Result<usize, WrongRun> {
    let mut runs = 0usize;
    for style_writer in STYLE_WRITERS {
        let recording = style_writer.record(alloc, call, text)?;
        let more = match style_writer {
            StyleWriterKind::Ansi => {
                judge_colors(call, recording.text(), colors)?;
                0
            }
            StyleWriterKind::Sequences => judge_style_marks(alloc, call, recording.text())?,
            StyleWriterKind::Plain | StyleWriterKind::NoColor => 0,
        };
        let stops = judge_stops(alloc, style_writer, call, &recording)?;
        runs = runs.saturating_add(more).saturating_add(stops);
    }
    Ok(runs)
}

/// Compares the text in escape sequences with what is expected, if the call writes style marks.
/// This is no run of its own.
fn judge_colors<D: Render>(
    call: &D,
    bytes: &[u8],
    colors: ExpectedColors<'_>,
) -> Result<(), WrongRun> {
    if !call.has_style_marks() || colors.is_met_by(bytes) {
        Ok(())
    } else {
        Err(WrongRun::UnexpectedColors)
    }
}

/// Makes all runs of a direct call, and returns their number.
///
/// # Errors
///
/// The first error of a run, without a style or a call.
pub fn judge_direct(alloc: Global, row: &DirectRow<'_>) -> Result<usize, WrongRunAt> {
    at(None, None, judge_direct_call(alloc, row))
}

/// Makes all runs of a direct call, and returns their number, or the first error.
fn judge_direct_call(alloc: Global, row: &DirectRow<'_>) -> Result<usize, WrongRun> {
    let direct = DirectCall::new(alloc, row.call)?;
    judge_call(alloc, &direct, row.text, row.colors)
}

/// Makes all runs of a suggestion, and returns their number.
///
/// # Errors
///
/// The first error of a run, with its style and without a call.
pub fn judge_suggestion(alloc: Global, row: &SuggestionRow<'_>) -> Result<usize, WrongRunAt> {
    at(Some(row.style), None, judge_suggestion_row(alloc, row))
}

/// Makes all runs of a suggestion, and returns their number, or the first error.
fn judge_suggestion_row(alloc: Global, row: &SuggestionRow<'_>) -> Result<usize, WrongRun> {
    let rendered = RenderedSuggestion::new(alloc, row)?;
    let mut runs = judge_call(alloc, &rendered, row.text, row.colors)?;
    for style_writer in STYLE_WRITERS {
        let recording = style_writer.record(alloc, &rendered, row.text)?;
        let more = judge_bytes(alloc, style_writer, &rendered, recording.text())?;
        runs = runs.saturating_add(more);
    }
    Ok(runs)
}
