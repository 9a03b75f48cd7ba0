//! The calls that render a worked output.

use codespan_base::diagnostic::Diagnostic;
use codespan_base::files::{Error, Files};
use codespan_base::term::{Config, DisplayStyle, PlainWriter, WriteStyle};
use codespan_renderer::term::renderer::Renderer;
use codespan_views::emitting::{emit, emit_to_io_write, emit_to_write_style};
use codespan_views::rich::RichDiagnostic;
use codespan_views::short::ShortDiagnostic;
use gallery_cases::database::Database;
use std::fmt;
use std::io::Write;

/// A call that renders to a writer.
#[derive(Clone, Copy)]
pub enum RenderCall {
    /// `render` of the view of the style: `RichDiagnostic`, or `ShortDiagnostic` with notes or
    /// without.
    Render,
    /// `emit_to_write_style`
    EmitToWriteStyle,
    /// `emit_to_io_write`
    EmitToIoWrite,
    /// `emit`
    Emit,
}

/// The calls.
pub const CALLS: [RenderCall; 4] = [
    RenderCall::Render,
    RenderCall::EmitToWriteStyle,
    RenderCall::EmitToIoWrite,
    RenderCall::Emit,
];

/// Writes the name of the call.
impl fmt::Display for RenderCall {
    fn fmt<W: fmt::Write>(&self, f: &mut fmt::Formatter<W>) -> fmt::Result {
        f.write_str(match self {
            RenderCall::Render => "render",
            RenderCall::EmitToWriteStyle => "emit_to_write_style",
            RenderCall::EmitToIoWrite => "emit_to_io_write",
            RenderCall::Emit => "emit",
        })
    }
}

/// What can be rendered to a writer.
pub trait Render {
    /// Writes to a writer of styles.
    ///
    /// # Errors
    ///
    /// That of the call: `Io` where the writer fails, `OutOfMemory` where an allocation does.
    fn render<W: WriteStyle>(&self, writer: &mut W) -> Result<(), Error>;

    /// Writes to a writer of bytes, as plain text.
    ///
    /// # Errors
    ///
    /// As [`Render::render`].
    fn render_plain<W: Write>(&self, writer: &mut W) -> Result<(), Error>;

    /// Returns whether style marks are written.
    fn has_style_marks(&self) -> bool;
}

/// What is rendered: a diagnostic over the file database of its case, in a configuration.
#[derive(Clone, Copy)]
pub struct RenderInput<'a, 'text> {
    /// The configuration.
    pub config: &'a Config<'text>,
    /// The file database; with a database of one file goes a diagnostic with its id.
    pub database: &'a Database<'a>,
    /// The diagnostic, where the database is one of several files.
    pub diagnostic: &'a Diagnostic<usize>,
}

/// What is rendered, and the call that renders it.
#[derive(Clone, Copy)]
pub struct Rendering<'a, 'text> {
    /// The call.
    pub call: RenderCall,
    /// What is rendered.
    pub input: RenderInput<'a, 'text>,
}

impl<'a, 'text> Render for Rendering<'a, 'text> {
    fn render<W: WriteStyle>(&self, writer: &mut W) -> Result<(), Error> {
        let (call, config) = (self.call, self.input.config);
        match self.input.database {
            Database::One(file, diagnostic) => call_over(call, config, file, diagnostic, writer),
            Database::Several(files) => {
                call_over(call, config, files, self.input.diagnostic, writer)
            }
            Database::Mapped(file, diagnostic) => call_over(call, config, file, diagnostic, writer),
        }
    }

    fn render_plain<W: Write>(&self, writer: &mut W) -> Result<(), Error> {
        let (call, config) = (self.call, self.input.config);
        match self.input.database {
            Database::One(file, diagnostic) => {
                call_plain_over(call, config, file, diagnostic, writer)
            }
            Database::Several(files) => {
                call_plain_over(call, config, files, self.input.diagnostic, writer)
            }
            Database::Mapped(file, diagnostic) => {
                call_plain_over(call, config, file, diagnostic, writer)
            }
        }
    }

    fn has_style_marks(&self) -> bool {
        matches!(self.call, RenderCall::Render | RenderCall::EmitToWriteStyle)
    }
}

/// Renders by a call to a writer of styles.
fn call_over<'files, F: Files<'files>, W: WriteStyle>(
    call: RenderCall,
    config: &Config<'_>,
    files: &'files F,
    diagnostic: &Diagnostic<F::FileId>,
    writer: &mut W,
) -> Result<(), Error> {
    match call {
        RenderCall::Render => render_over(config, files, diagnostic, writer),
        RenderCall::EmitToWriteStyle => emit_to_write_style(writer, config, files, diagnostic),
        RenderCall::EmitToIoWrite => emit_to_io_write(writer, config, files, diagnostic),
        RenderCall::Emit => emit(writer, config, files, diagnostic),
    }
}

/// Renders by a call to a writer of bytes, as plain text.
fn call_plain_over<'files, F: Files<'files>, W: Write>(
    call: RenderCall,
    config: &Config<'_>,
    files: &'files F,
    diagnostic: &Diagnostic<F::FileId>,
    writer: &mut W,
) -> Result<(), Error> {
    match call {
        RenderCall::Render => {
            render_over(config, files, diagnostic, &mut PlainWriter::new(writer))
        }
        RenderCall::EmitToWriteStyle => {
            emit_to_write_style(&mut PlainWriter::new(writer), config, files, diagnostic)
        }
        RenderCall::EmitToIoWrite => emit_to_io_write(writer, config, files, diagnostic),
        RenderCall::Emit => emit(writer, config, files, diagnostic),
    }
}

/// Renders by the view of the style.
fn render_over<'files, F: Files<'files>, W: WriteStyle>(
    config: &Config<'_>,
    files: &'files F,
    diagnostic: &Diagnostic<F::FileId>,
    writer: &mut W,
) -> Result<(), Error> {
    let mut renderer = Renderer::new(writer, config);
    match config.display_style {
        DisplayStyle::Rich => render_rich(config, files, diagnostic, &mut renderer),
        DisplayStyle::Medium => render_short(true, files, diagnostic, &mut renderer),
        DisplayStyle::Short => render_short(false, files, diagnostic, &mut renderer),
    }
}

/// Renders by the view of the rich style.
fn render_rich<'files, F: Files<'files>, W: WriteStyle>(
    config: &Config<'_>,
    files: &'files F,
    diagnostic: &Diagnostic<F::FileId>,
    renderer: &mut Renderer<'_, '_, W>,
) -> Result<(), Error> {
    RichDiagnostic::new(diagnostic, config).render(files, renderer)
}

/// Renders by the view of the short style, with notes or without.
fn render_short<'files, F: Files<'files>, W: WriteStyle>(
    has_notes: bool,
    files: &'files F,
    diagnostic: &Diagnostic<F::FileId>,
    renderer: &mut Renderer<'_, '_, W>,
) -> Result<(), Error> {
    ShortDiagnostic::new(diagnostic, has_notes).render(files, renderer)
}
