//! What the arguments request.

ghost use Rattle.std.specs.Prelude.{◌≡◌, IfOk, IfErr, Ok, string_bytes};
ghost use Rattle.codespan_core.specs.ConfigEquality.{IsEqualConfig};
ghost use Rattle.codespan_core.specs.Diagnostics.{diagnostic_view};
ghost use Rattle.codespan_suggestions.specs.Views.{suggestion_view};
ghost use Rattle.report.specs.RenderedTexts.{report_config, rendering_of, rendering_of_script};
ghost use Rattle.report.specs.RenderedTexts.{output_text, IsRenderError, applied_source};
ghost use Rattle.report.specs.RenderedTexts.{error_style, script_diff, script_output};
ghost use Rattle.report.specs.RenderedTexts.{rendered_script, suggestion_text};
ghost use Rattle.report.specs.ReportErrors.{lookup_error};
ghost use Rattle.report.specs.Requests.{request_view};
ghost use Rattle.report.specs.Scripts.{parsed_script, script_view};

use crate::diagnostics::{diagnostic_of_fault, diagnostic_of_label_request, diagnostic_of_script};
use crate::report_error::ReportError;
use crate::request::{LabelRequest, Request, ScriptOutput};
use crate::script::{Script, ScriptError, parse_script};
use codespan_core::diagnostic::Diagnostic;
use codespan_core::files::{Error, SimpleFile};
use codespan_core::term::{Config, DisplayStyle};
use codespan_edits::apply_edits;
use codespan_suggestions::{
    Suggestion, SuggestionError, emit_suggestion_into_string, unified_diff,
};
use codespan_views::emitting::emit_into_string;
use std::alloc::Global;

/// How an output is rendered.
#[derive(Clone, Copy)]
struct Settings {
    /// The display style.
    style: DisplayStyle,
    /// The width that rows should fit, in cells.
    max_width: Option<usize>,
}

/// Returns the requested output.
///
/// # Errors
///
/// - `BadScript` if a script is requested and the input is not one: the rendered diagnostic of its
///   first error.
/// - `CannotRender` if rendering fails, or an allocation for the script or for its diagnostic.
pub fn render(alloc: Global, request: &Request<'_>, input: &str) -> Result<String, ReportError>
    ensures text { IfOk result (λ text. rendering_of (request_view request.now) input.now
        ≡ Ok (string_bytes text)) }
    ensures failed { IfErr result
        (IsRenderError (rendering_of (request_view request.now) input.now)) }
{
    match request {
        Request::OneLabel(label_request) => render_label_request(alloc, label_request, input),
        Request::OfScript { output, name } => render_script(alloc, *output, name, input),
    }
}

/// Renders a label request over the input.
fn render_label_request(
    alloc: Global,
    label_request: &LabelRequest<'_>,
    input: &str,
) -> Result<String, ReportError>
    ensures text { IfOk result (λ text.
        rendering_of (request_view (Request.OneLabel label_request.now)) input.now
        ≡ Ok (string_bytes text)) }
    ensures failed { IfErr result (IsRenderError
        (rendering_of (request_view (Request.OneLabel label_request.now)) input.now)) }
{
    let diagnostic = diagnostic_of_label_request(alloc, label_request)?;
    let settings = Settings {
        style: label_request.style,
        max_width: None,
    };
    Ok(render_over(alloc, settings, label_request.name, input, &diagnostic)?)
}

/// Returns the output of a script, or renders its first error over the whole input.
fn render_script(
    alloc: Global,
    output: ScriptOutput,
    name: &str,
    input: &str,
) -> Result<String, ReportError>
    ensures text { IfOk result (λ text.
        rendering_of_script output name.now input.now (parsed_script input.now)
        ≡ Ok (string_bytes text)) }
    ensures failed { IfErr result (IsRenderError
        (rendering_of_script output name.now input.now (parsed_script input.now))) }
{
    match parse_script(alloc, input) {
        Ok(script) => Ok(script_output(alloc, output, name, &script)?),
        Err(ScriptError::Fault(fault)) => {
            let diagnostic = diagnostic_of_fault(alloc, fault)?;
            let settings = Settings {
                style: error_style(output),
                max_width: None,
            };
            let text = render_over(alloc, settings, "script", input, &diagnostic)?;
            Err(ReportError::BadScript(text))
        }
        Err(ScriptError::OutOfMemory) => Err(ReportError::CannotRender(Error::OutOfMemory)),
    }
}

/// Returns the display style of a script's error: that of the output, and else the rich one.
fn error_style(output: ScriptOutput) -> DisplayStyle
    ensures { result ≡ error_style output }
{
    match output {
        ScriptOutput::Rendered(style) => style,
        ScriptOutput::Applied | ScriptOutput::UnifiedDiff => DisplayStyle::Rich,
    }
}

/// Returns the output of a script: its diagnostic and its suggestions, rendered over its source,
/// that source after the edits of the first suggestion, or the unified diff of these.
fn script_output(
    alloc: Global,
    output: ScriptOutput,
    name: &str,
    script: &Script<'_>,
) -> Result<String, Error>
    ensures { IfOk result (λ text. string_bytes text
        ≡ script_output output name.now (script_view script.now)) }
{
    match output {
        ScriptOutput::Rendered(style) => rendered_script(alloc, style, name, script),
        ScriptOutput::Applied => applied_source(alloc, script),
        ScriptOutput::UnifiedDiff => script_diff(alloc, name, script),
    }
}

/// Renders the diagnostic of a script over its source, and below it each suggestion.
fn rendered_script(
    alloc: Global,
    style: DisplayStyle,
    name: &str,
    script: &Script<'_>,
) -> Result<String, Error>
    ensures { IfOk result (λ text. string_bytes text
        ≡ rendered_script style name.now (script_view script.now)) }
{
    let diagnostic = diagnostic_of_script(alloc, script)?;
    let settings = Settings {
        style,
        max_width: script.max_width,
    };
    let mut text = render_over(alloc, settings, name, script.source, &diagnostic)?;
    for suggestion in &script.suggestions {
        let below = render_suggestion(alloc, settings, name, script.source, suggestion)?;
        text.push_str(below.as_str())?;
    }
    Ok(text)
}

/// Renders a suggestion of a script over the file of a name and a source.
fn render_suggestion(
    alloc: Global,
    settings: Settings,
    name: &str,
    source: &str,
    suggestion: &Suggestion<()>,
) -> Result<String, Error>
    ensures { IfOk result (λ text. string_bytes text
        ≡ suggestion_text settings.style settings.max_width name.now source.now
        (suggestion_view suggestion.now)) }
{
    let file = SimpleFile::new(alloc, name, source)?;
    match emit_suggestion_into_string(&config_with(settings), &file, suggestion) {
        Ok(text) => Ok(text),
        Err(error) => Err(lookup_error(error)),
    }
}

/// Returns the error of a suggestion of a script. It is that of a lookup or of memory, since the
/// edits of a script that was parsed can be made.
fn lookup_error(error: SuggestionError) -> Error
    ensures { result ≡ lookup_error error }
{
    match error {
        SuggestionError::Files(error) => error,
        SuggestionError::Edit(_) => Error::OutOfMemory,
    }
}

/// Returns the source of a script after the edits of its first suggestion; the source, if there is
/// no suggestion.
fn applied_source(alloc: Global, script: &Script<'_>) -> Result<String, Error>
    ensures { IfOk result (λ text. string_bytes text ≡ applied_source (script_view script.now)) }
{
    let Some(suggestion) = script.suggestions.first() else {
        return Ok(String::from_str(alloc, script.source)?);
    };
    // The edits of a script that was parsed can be made, memory aside.
    match apply_edits(alloc, script.source, &suggestion.edits) {
        Ok(text) => Ok(text),
        Err(_) => Err(Error::OutOfMemory),
    }
}

/// Returns the unified diff of a script's first suggestion; nothing, if there is no suggestion.
fn script_diff(alloc: Global, name: &str, script: &Script<'_>) -> Result<String, Error>
    ensures { IfOk result (λ text. string_bytes text
        ≡ script_diff name.now (script_view script.now)) }
{
    let Some(first) = script.suggestions.first() else {
        return Ok(String::new(alloc));
    };
    let file = SimpleFile::new(alloc, name, script.source)?;
    match unified_diff(alloc, &file, first) {
        Ok(text) => Ok(text),
        Err(error) => Err(lookup_error(error)),
    }
}

/// Renders a diagnostic over the file of a name and a source.
fn render_over(
    alloc: Global,
    settings: Settings,
    name: &str,
    source: &str,
    diagnostic: &Diagnostic<()>,
) -> Result<String, Error>
    ensures { IfOk result (λ text. string_bytes text
        ≡ output_text settings.style settings.max_width name.now source.now
        (diagnostic_view diagnostic.now)) }
{
    let file = SimpleFile::new(alloc, name, source)?;
    emit_into_string(&config_with(settings), &file, diagnostic)
}

/// Returns the default configuration, with these settings.
fn config_with(settings: Settings) -> Config<'static>
    ensures { IsEqualConfig (report_config settings.style settings.max_width) result }
{
    Config {
        display_style: settings.style,
        max_width: settings.max_width,
        ..Config::default()
    }
}
