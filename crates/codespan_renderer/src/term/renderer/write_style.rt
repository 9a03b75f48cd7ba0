//! A renderer as a writer: it passes each call on to its writer.

use crate::term::renderer::Renderer;
use codespan_core::diagnostic::{LabelStyle, Severity};
use codespan_core::term::WriteStyle;
use std::io;
use std::io::Write;

impl<W: WriteStyle> Write for Renderer<'_, '_, W> {
    ghost use Rattle.codespan_renderer.specs.Renderers.{writer_of};

    ghost contents = { λ r. W.contents (writer_of r) };

    fn write(&mut self, buf: &[u8]) -> io::Result<usize> {
        self.writer.write(buf)
    }

    fn flush(&mut self) -> io::Result<()> {
        self.writer.flush()
    }
}

impl<W: WriteStyle> WriteStyle for Renderer<'_, '_, W> {
    ghost use Rattle.codespan_renderer.specs.Renderers.{writer_of, renderer_sink};

    ghost sink = { λ r. renderer_sink W.sink r };

    fn set_header(&mut self, severity: Severity) -> io::Result<()> {
        self.writer.set_header(severity)
    }

    fn set_header_message(&mut self) -> io::Result<()> {
        self.writer.set_header_message()
    }

    fn set_line_number(&mut self) -> io::Result<()> {
        self.writer.set_line_number()
    }

    fn set_note_bullet(&mut self) -> io::Result<()> {
        self.writer.set_note_bullet()
    }

    fn set_source_border(&mut self) -> io::Result<()> {
        self.writer.set_source_border()
    }

    fn set_label(&mut self, severity: Severity, label_style: LabelStyle) -> io::Result<()> {
        self.writer.set_label(severity, label_style)
    }

    fn reset(&mut self) -> io::Result<()> {
        self.writer.reset()
    }

    fn put(&mut self, bytes: &[u8]) -> io::Result<usize> {
        self.writer.put(bytes)
    }

    ghost holds_contents = { λ r. W.holds_contents (writer_of r) };
}
