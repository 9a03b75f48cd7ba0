//! The views and the emit calls, each over each worked output.

ghost use Rattle.std.specs.Prelude.{◌≡◌, ◌++◌, ℕ, List, IfOk, IsOk, IsErrAnd, IsErrOf};
ghost use Rattle.std.specs.Prelude.{IsTrue, codes, string_bytes, false, true};
ghost use Rattle.codespan_base.specs.Errors.{IsIo};

use crate::copying::Copying;
use crate::diagnostics::diagnostic_of;
use crate::outcome::{Outcome, Wrong, judge_failure, judge_success};
use crate::recording::Recording;
use crate::worked_outputs::{DatabaseKind, WorkedOutput};
use codespan_base::diagnostic::Diagnostic;
use codespan_base::files::{Error, Files, MappedFile, SimpleFiles};
use codespan_base::term::{
    Ansi, Config, DisplayStyle, PlainWriter, Styles, StylesWriter, WriteColor, WriteStyle,
};
use codespan_renderer::term::renderer::Renderer;
use codespan_views::emitting::{
    emit, emit_into_string, emit_to_io_write, emit_to_string, emit_to_write_style,
};
use codespan_views::rich::RichDiagnostic;
use codespan_views::short::ShortDiagnostic;
use std::alloc::Global;
use std::io::Write;

/// A call that renders.
#[derive(Clone, Copy)]
pub enum RenderCall {
    /// `render` of the view of the style
    Render,
    /// `emit_to_write_style`
    EmitToWriteStyle,
    /// `emit_to_io_write`
    EmitToIoWrite,
    /// `emit`
    Emit,
    /// `emit_into_string`
    EmitIntoString,
    /// `emit_to_string`
    EmitToString,
}

impl RenderCall {
    /// Returns whether the call writes to a writer of styles.
    fn is_styled(self) -> bool {
        matches!(self, RenderCall::Render | RenderCall::EmitToWriteStyle)
    }
}

/// The old text of a string that is appended to.
const OLD_TEXT: &str = "kept";

/// A call that renders, and what it renders, by this configuration.
#[derive(Drop)]
struct Rendering<'worked> {
    call: RenderCall,
    worked: &'worked WorkedOutput<'worked>,
    config: Config<'worked>,
}

/// Makes a call over a worked output and judges it.
///
/// # Errors
///
/// An error of the preparation: `OutOfMemory` if an allocation fails.
pub fn judge_rendering(
    alloc: Global,
    call: RenderCall,
    worked: &WorkedOutput<'_>,
) -> Result<Outcome, Error> {
    let rendering = Rendering {
        call,
        worked,
        config: worked.config(),
    };
    match worked.database {
        DatabaseKind::Several => judge_several(alloc, &rendering),
        DatabaseKind::Mapped => judge_mapped(alloc, &rendering),
        DatabaseKind::Copying => judge_copying(alloc, &rendering),
    }
}

/// Makes a call over several files and judges it, in colors if the call and the output have any.
fn judge_several(alloc: Global, rendering: &Rendering<'_>) -> Result<Outcome, Error> {
    let mut files = SimpleFiles::new(alloc);
    for (name, source) in rendering.worked.files {
        files.add(*name, *source)?;
    }
    let diagnostic = diagnostic_of(alloc, rendering.worked, &[0, 1])?;
    match rendering.worked.colored {
        Some(output) if rendering.call.is_styled() => {
            Ok(judge_colored(alloc, rendering, output, &files, &diagnostic))
        }
        _ => judge_call(alloc, rendering, &files, &diagnostic),
    }
}

/// Makes a call over the first file, whose third line has the number 100, and judges it.
fn judge_mapped(alloc: Global, rendering: &Rendering<'_>) -> Result<Outcome, Error> {
    let (name, source) = rendering.worked.files.first().ok_or(Error::FileMissing)?;
    let mut file = MappedFile::new(alloc, *name, *source)?;
    file.set_line(2, 100)?;
    let diagnostic = diagnostic_of(alloc, rendering.worked, &[()])?;
    judge_call(alloc, rendering, &file, &diagnostic)
}

/// Makes a call over the first file, where each lookup of a line's range allocates, and judges it.
fn judge_copying(alloc: Global, rendering: &Rendering<'_>) -> Result<Outcome, Error> {
    let (name, source) = rendering.worked.files.first().ok_or(Error::FileMissing)?;
    let file = Copying::new(alloc, name, source)?;
    let diagnostic = diagnostic_of(alloc, rendering.worked, &[()])?;
    judge_call(alloc, rendering, &file, &diagnostic)
}

/// Makes a call, as plain text, and judges it. Fails if the string to append to cannot be made.
fn judge_call<'files, F: Files<'files>>(
    alloc: Global,
    rendering: &Rendering<'_>,
    files: &'files F,
    diagnostic: &Diagnostic<F::FileId>,
) -> Result<Outcome, Error> {
    match rendering.call {
        RenderCall::EmitIntoString => {
            let returned = emit_into_string(&rendering.config, files, diagnostic);
            Ok(judge_string(&returned, rendering.worked.output))
        }
        RenderCall::EmitToString => {
            let string = String::from_str(alloc, OLD_TEXT)?;
            Ok(judge_append(string, rendering, files, diagnostic))
        }
        RenderCall::Render
        | RenderCall::EmitToWriteStyle
        | RenderCall::EmitToIoWrite
        | RenderCall::Emit => Ok(judge_written(alloc, rendering, files, diagnostic)),
    }
}

/// Makes the call that appends to a string and judges it.
fn judge_append<'files, F: Files<'files>>(
    mut string: String,
    rendering: &Rendering<'_>,
    files: &'files F,
    diagnostic: &Diagnostic<F::FileId>,
) -> Outcome {
    let returned = emit_to_string(&mut string, &rendering.config, files, diagnostic);
    judge_appended(&returned, string.as_str(), rendering.worked.output)
}

/// Makes a call that writes to a writer, as plain text, and judges it.
fn judge_written<'files, F: Files<'files>>(
    alloc: Global,
    rendering: &Rendering<'_>,
    files: &'files F,
    diagnostic: &Diagnostic<F::FileId>,
) -> Outcome {
    let mut recording = Recording::new(alloc);
    let returned = render_to(&mut recording, rendering, files, diagnostic);
    judge_recording(&returned, &recording, rendering.worked.output)
}

/// Makes a call that writes style marks to a writer, in escape sequences, and judges it.
fn judge_colored<'files, F: Files<'files>>(
    alloc: Global,
    rendering: &Rendering<'_>,
    output: &str,
    files: &'files F,
    diagnostic: &Diagnostic<F::FileId>,
) -> Outcome {
    let mut recording = Recording::new(alloc);
    let colored = Ansi::new(&mut recording);
    let returned = render_colored(colored, rendering, files, diagnostic);
    judge_recording(&returned, &recording, output)
}

/// Makes a call that writes to a writer, as plain text.
fn render_to<'files, F: Files<'files>, W: Write>(
    writer: &mut W,
    rendering: &Rendering<'_>,
    files: &'files F,
    diagnostic: &Diagnostic<F::FileId>,
) -> Result<(), Error> {
    match rendering.call {
        RenderCall::Emit => emit(writer, &rendering.config, files, diagnostic),
        RenderCall::EmitToIoWrite => {
            emit_to_io_write(writer, &rendering.config, files, diagnostic)
        }
        _ => render_plain(writer, rendering, files, diagnostic),
    }
}

/// Makes a call that writes style marks, to a writer of plain text.
fn render_plain<'files, F: Files<'files>, W: Write>(
    writer: &mut W,
    rendering: &Rendering<'_>,
    files: &'files F,
    diagnostic: &Diagnostic<F::FileId>,
) -> Result<(), Error> {
    let mut plain = PlainWriter::new(writer);
    render_styled(&mut plain, rendering, files, diagnostic)
}

/// Makes a call that writes style marks, in colors.
fn render_colored<'files, F: Files<'files>, W: WriteColor + Drop>(
    colored: W,
    rendering: &Rendering<'_>,
    files: &'files F,
    diagnostic: &Diagnostic<F::FileId>,
) -> Result<(), Error> {
    let styles = Styles::default();
    let mut writer = StylesWriter::new(colored, &styles);
    render_styled(&mut writer, rendering, files, diagnostic)
}

/// Renders to a writer of styles: by the view of the style, or by the emit call.
fn render_styled<'files, F: Files<'files>, W: WriteStyle>(
    writer: &mut W,
    rendering: &Rendering<'_>,
    files: &'files F,
    diagnostic: &Diagnostic<F::FileId>,
) -> Result<(), Error> {
    let config = &rendering.config;
    if matches!(rendering.call, RenderCall::EmitToWriteStyle) {
        return emit_to_write_style(writer, config, files, diagnostic);
    }
    let mut renderer = Renderer::new(writer, config);
    render_view(&mut renderer, config, files, diagnostic)
}

/// Renders by the view of the style.
fn render_view<'files, F: Files<'files>, W: WriteStyle>(
    renderer: &mut Renderer<'_, '_, W>,
    config: &Config<'_>,
    files: &'files F,
    diagnostic: &Diagnostic<F::FileId>,
) -> Result<(), Error> {
    let shows_notes = match config.display_style {
        DisplayStyle::Rich => {
            return RichDiagnostic::new(diagnostic, config).render(files, renderer);
        }
        DisplayStyle::Medium => true,
        DisplayStyle::Short => false,
    };
    ShortDiagnostic::new(diagnostic, shows_notes).render(files, renderer)
}

/// Judges a call that returns a string: it is the output, or an allocation failed.
pub fn judge_string(returned: &Result<String, Error>, output: &str) -> Outcome
    ensures done { result ≡ Outcome.Done
        → IfOk returned.now (λ text. string_bytes text ≡ output.now) }
    ensures failed { result ≡ Outcome.Failed → IsErrOf returned.now Error.OutOfMemory }
{
    match returned {
        Ok(text) => judge_success(text.as_str() == output),
        Err(error) => judge_failure(error, true),
    }
}

/// Judges a call that appends to a string: the output has been appended; or an allocation failed,
/// and the string is unchanged.
fn judge_appended(returned: &Result<(), Error>, string: &str, output: &str) -> Outcome
    ensures done { result ≡ Outcome.Done → (IsOk returned.now)
        × (string.now ≡ codes "kept" ++ output.now) }
    ensures failed { result ≡ Outcome.Failed → (IsErrOf returned.now Error.OutOfMemory)
        × (string.now ≡ codes "kept") }
{
    match returned {
        Ok(()) => judge_success(string.strip_prefix(OLD_TEXT) == Some(output)),
        Err(error) => judge_failure(error, string == OLD_TEXT),
    }
}

/// Returns whether bytes are a prefix of a text.
fn is_prefix(bytes: &[u8], text: &str) -> bool
    ensures { IsTrue result → (rest : List ℕ) × (text.now ≡ bytes.now ++ rest) }
{
    text.as_bytes().starts_with(bytes)
}

/// Judges a call that writes to a vector: it holds the output; or the call failed, and it holds a
/// prefix: with `Io` if an allocation for the vector failed, and otherwise with `OutOfMemory`.
pub fn judge_recording(returned: &Result<(), Error>, recording: &Recording, output: &str) -> Outcome
    ensures done { result ≡ Outcome.Done → IsOk returned.now
        × (recording.now.has_failed ≡ false) × (recording.now.bytes.items ≡ output.now) }
    ensures failed { result ≡ Outcome.Failed → recording.now.has_failed ≡ false
        → IsErrOf returned.now Error.OutOfMemory }
    ensures writer { result ≡ Outcome.Failed → recording.now.has_failed ≡ true
        → IsErrAnd returned.now IsIo }
    ensures prefix { result ≡ Outcome.Failed → (rest : List ℕ)
        × (output.now ≡ recording.now.bytes.items ++ rest) }
{
    let bytes = recording.bytes.as_slice();
    let is_prefix = is_prefix(bytes, output);
    match returned {
        Ok(()) => judge_success(!recording.has_failed && bytes == output.as_bytes()),
        Err(Error::Io(_)) if recording.has_failed && is_prefix => Outcome::Failed,
        Err(Error::Io(_)) if recording.has_failed => Outcome::Wrong(Wrong::Changed),
        Err(_) if recording.has_failed => Outcome::Wrong(Wrong::Error),
        Err(error) => judge_failure(error, is_prefix),
    }
}
