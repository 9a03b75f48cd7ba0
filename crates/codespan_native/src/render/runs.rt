//! Renders an output as safe text, an HTML element or an SVG document.

ghost use Rattle.std.specs.Prelude.{IfOk};
ghost use Rattle.codespan_styled.specs.Runs.{styled_runs};
ghost use Rattle.codespan_native.specs.SourceModel.{native_file_views};
ghost use Rattle.codespan_native.specs.RenderedStreams.{AreOutputRuns, IsFormedOutput};
ghost use Rattle.codespan_native.specs.declared.convert.forms.Form.TheVariants.{SafeText, Terminal};
ghost use Rattle.codespan_native.specs.declared.convert.forms.Form.TheVariants.{Html, Svg};

use crate::error::OutOfMemory;
use crate::native_files::NativeFiles;
use codespan_base::diagnostic::Diagnostic;
use codespan_base::term::{Config, Styles};
use codespan_styled::terminal::safe_text;
use codespan_styled::{StyledText, styled_text, to_html, to_svg, to_terminal};
use codespan_views::emitting::emit_into_string;
use std::alloc::Global;

/// Returns what is shown for the text of the output.
pub fn render_safe_text(
    alloc: Global,
    config: &Config<'_>,
    files: &NativeFiles<'_>,
    diagnostic: &Diagnostic<usize>,
) -> Result<Vec<u8>, OutOfMemory>
    ensures { IfOk result (λ bytes. IsFormedOutput config.now (native_file_views files.now)
        diagnostic.now SafeText bytes.items) }
{
    match emit_into_string(config, files, diagnostic) {
        Ok(text) => Ok(safe_text(alloc, text.as_str())?.into_bytes()),
        Err(_) => Err(OutOfMemory),
    }
}

/// Returns the safe text of the output for a terminal, in these styles.
pub fn render_terminal(
    alloc: Global,
    styles: &Styles,
    config: &Config<'_>,
    files: &NativeFiles<'_>,
    diagnostic: &Diagnostic<usize>,
) -> Result<Vec<u8>, OutOfMemory>
    ensures { IfOk result (λ bytes. IsFormedOutput config.now (native_file_views files.now)
        diagnostic.now (Terminal styles.now) bytes.items) }
{
    let text = output_runs(alloc, config, files, diagnostic)?;
    Ok(to_terminal(alloc, &text, styles)?.into_bytes())
}

/// Returns the HTML element of the output.
pub fn render_html(
    alloc: Global,
    config: &Config<'_>,
    files: &NativeFiles<'_>,
    diagnostic: &Diagnostic<usize>,
) -> Result<Vec<u8>, OutOfMemory>
    ensures { IfOk result (λ bytes. IsFormedOutput config.now (native_file_views files.now)
        diagnostic.now Html bytes.items) }
{
    let text = output_runs(alloc, config, files, diagnostic)?;
    match to_html(alloc, &text) {
        Ok(html) => Ok(html.into_bytes()),
        Err(_) => Err(OutOfMemory),
    }
}

/// Returns the SVG document of the output, in these styles.
pub fn render_svg(
    alloc: Global,
    styles: &Styles,
    config: &Config<'_>,
    files: &NativeFiles<'_>,
    diagnostic: &Diagnostic<usize>,
) -> Result<Vec<u8>, OutOfMemory>
    ensures { IfOk result (λ bytes. IsFormedOutput config.now (native_file_views files.now)
        diagnostic.now (Svg styles.now) bytes.items) }
{
    let text = output_runs(alloc, config, files, diagnostic)?;
    match to_svg(alloc, &text, styles) {
        Ok(svg) => Ok(svg.into_bytes()),
        Err(_) => Err(OutOfMemory),
    }
}

/// Returns the runs of the output.
///
/// # Errors
///
/// [`OutOfMemory`], as for [`render`](crate::render::render): no lookup in one of `files` fails.
fn output_runs(
    alloc: Global,
    config: &Config<'_>,
    files: &NativeFiles<'_>,
    diagnostic: &Diagnostic<usize>,
) -> Result<StyledText, OutOfMemory>
    ensures { IfOk result (λ text. AreOutputRuns config.now (native_file_views files.now)
        diagnostic.now (styled_runs text)) }
{
    match styled_text(alloc, config, files, diagnostic) {
        Ok(text) => Ok(text),
        Err(_) => Err(OutOfMemory),
    }
}
