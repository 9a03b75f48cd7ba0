//! Renders an output as text, with its style marks as no bytes, as escape sequences or in band.

ghost use Rattle.std.specs.Prelude.{◌≡◌, true, IfOk, OnOk};
ghost use Rattle.codespan_base.specs.WriterLaw.{is_known, with_written};
ghost use Rattle.codespan_native.specs.SourceModel.{native_file_views};
ghost use Rattle.codespan_native.specs.RenderedStreams.{IsFormedOutput, StreamIsOutput};
ghost use Rattle.codespan_native.specs.RenderedStreams.{stream_of_output};
ghost use Rattle.codespan_native.specs.declared.convert.forms.Form.TheVariants.{Ansi as AnsiForm};
ghost use Rattle.codespan_native.specs.declared.convert.forms.Form.TheVariants.{Text, StyleMarks};

use crate::error::OutOfMemory;
use crate::native_files::NativeFiles;
use crate::style_mark_writer::StyleMarkWriter;
use codespan_base::diagnostic::Diagnostic;
use codespan_base::term::{Ansi, Config, PlainWriter, Styles, StylesWriter, WriteStyle};
use codespan_views::emitting::emit_to_write_style;
use std::alloc::Global;

/// The capacity in bytes of a vector before an output is rendered into it.
const INITIAL_CAPACITY: usize = 1024;

/// Returns the output without its style marks.
pub fn render_plain(
    alloc: Global,
    config: &Config<'_>,
    files: &NativeFiles<'_>,
    diagnostic: &Diagnostic<usize>,
) -> Result<Vec<u8>, OutOfMemory>
    ensures { IfOk result (λ bytes. IsFormedOutput config.now (native_file_views files.now)
        diagnostic.now Text bytes.items) }
{
    let buffer = Vec::with_capacity(alloc, INITIAL_CAPACITY)?;
    let mut writer = PlainWriter::new(buffer);
    write_to(&mut writer, config, files, diagnostic)?;
    Ok(writer.into_inner())
}

/// Returns the output, its style marks as escape sequences.
pub fn render_ansi(
    alloc: Global,
    styles: &Styles,
    config: &Config<'_>,
    files: &NativeFiles<'_>,
    diagnostic: &Diagnostic<usize>,
) -> Result<Vec<u8>, OutOfMemory>
    ensures { IfOk result (λ bytes. IsFormedOutput config.now (native_file_views files.now)
        diagnostic.now (AnsiForm styles.now) bytes.items) }
{
    let buffer = Vec::with_capacity(alloc, INITIAL_CAPACITY)?;
    let mut writer = StylesWriter::new(Ansi::new(buffer), styles);
    write_to(&mut writer, config, files, diagnostic)?;
    Ok(writer.into_inner().into_inner())
}

/// Returns the output, its style marks in band: each is the byte 255 and its number.
pub fn render_style_marks(
    alloc: Global,
    config: &Config<'_>,
    files: &NativeFiles<'_>,
    diagnostic: &Diagnostic<usize>,
) -> Result<Vec<u8>, OutOfMemory>
    ensures { IfOk result (λ bytes. IsFormedOutput config.now (native_file_views files.now)
        diagnostic.now StyleMarks bytes.items) }
{
    let buffer = Vec::with_capacity(alloc, INITIAL_CAPACITY)?;
    let mut writer = StyleMarkWriter::new(buffer);
    write_to(&mut writer, config, files, diagnostic)?;
    Ok(writer.into_inner())
}

/// Writes the output to a writer over a vector.
///
/// # Errors
///
/// [`OutOfMemory`], as for [`render`](crate::render::render): a write to a vector fails only where
/// an allocation fails, the names are texts, and no lookup in one of `files` fails.
fn write_to<W: WriteStyle>(
    writer: &mut W,
    config: &Config<'_>,
    files: &NativeFiles<'_>,
    diagnostic: &Diagnostic<usize>,
) -> Result<(), OutOfMemory>
    ensures value { is_known (W.sink writer.old) ≡ true → OnOk result (W.sink writer.new
        ≡ with_written (W.sink writer.old)
        (stream_of_output config.now (native_file_views files.now) diagnostic.now)) }
    ensures is_output { OnOk result
        (StreamIsOutput config.now (native_file_views files.now) diagnostic.now) }
{
    match emit_to_write_style(writer, config, files, diagnostic) {
        Ok(()) => Ok(()),
        Err(_) => Err(OutOfMemory),
    }
}
