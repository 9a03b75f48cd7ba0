//! Renders an output to bytes, in a form.

ghost use Rattle.std.specs.Prelude.{IfOk};
ghost use Rattle.codespan_native.specs.SourceModel.{native_file_views};
ghost use Rattle.codespan_native.specs.RenderedStreams.{IsFormedOutput};

mod marked;
mod runs;

use crate::convert::{Form, Settings};
use crate::error::OutOfMemory;
use crate::native_files::NativeFiles;
use crate::render::marked::{render_ansi, render_plain, render_style_marks};
use crate::render::runs::{render_html, render_safe_text, render_svg, render_terminal};
use codespan_base::diagnostic::Diagnostic;
use std::alloc::Global;

/// Returns the bytes of the output of a diagnostic, in the form of the settings.
///
/// # Errors
///
/// [`OutOfMemory`]: an allocation fails, or the file of a label is not one of `files`, which `emit`
/// excludes.
pub fn render(
    alloc: Global,
    settings: &Settings<'_>,
    files: &NativeFiles<'_>,
    diagnostic: &Diagnostic<usize>,
) -> Result<Vec<u8>, OutOfMemory>
    ensures { IfOk result (λ bytes.
        IsFormedOutput settings.now.config (native_file_views files.now)
        diagnostic.now settings.now.form bytes.items) }
{
    let config = &settings.config;
    match &settings.form {
        Form::SafeText => render_safe_text(alloc, config, files, diagnostic),
        Form::Terminal(styles) => render_terminal(alloc, styles, config, files, diagnostic),
        Form::Text => render_plain(alloc, config, files, diagnostic),
        Form::Ansi(styles) => render_ansi(alloc, styles, config, files, diagnostic),
        Form::StyleMarks => render_style_marks(alloc, config, files, diagnostic),
        Form::Html => render_html(alloc, config, files, diagnostic),
        Form::Svg(styles) => render_svg(alloc, styles, config, files, diagnostic),
    }
}
