//! Text with styles.

ghost use Rattle.std.specs.Prelude.{◌≡◌, refl};
ghost use Rattle.codespan_core.specs.Streams.{byte_stream};
ghost use Rattle.codespan_core.specs.WriterLaw.{Writes};

use crate::term::config::color::{ColorSpec, WriteColor};
use crate::term::config::styles::Styles;
use codespan_core::diagnostic::{LabelStyle, Severity};
use codespan_core::term::config::write_style::WriteStyle;
use codespan_core::term::config::writing::{forward_put, forward_result};
use std::io;
use std::io::Write;

/// A [`WriteStyle`] over a [`WriteColor`]: each style mark is spelled as the bytes of its style in
/// [`Styles`], and the reset as those of the reset.
///
/// # Examples
///
/// ```rust
/// let styles = Styles::default();
/// let mut text = Vec::new(rt.alloc());
/// let mut w = StylesWriter::new(Ansi::new(&mut text), &styles);
/// w.set_header(Severity::Error)?;
/// put_all(&mut w, b"error")?;
/// w.set_header_message()?;
/// put_all(&mut w, b": m")?;
/// w.reset()?;
/// put_all(&mut w, b"\n")?;
/// ```
#[derive(Debug, Drop)]
pub struct StylesWriter<'a, W> {
    inner: W,
    styles: &'a Styles,
    failed: bool,
}

impl<'a, W: WriteColor> StylesWriter<'a, W> {
    ghost use Rattle.codespan_base.specs.StyleSpellings.{spelling_by};
    ghost use Rattle.codespan_core.specs.Writers.{fresh_sink};
    ghost use Rattle.codespan_base.specs.StyleWriters.{styles_sink, styles_inner};

    /// Returns a writer over `writer` that writes these styles. Its flag is not set.
    pub fn new(writer: W, styles: &'a Styles) -> StylesWriter<'a, W>
        ensures begins { styles_sink W.contents W.style_bytes W.reset_bytes result
            ≡ fresh_sink (spelling_by styles.now W.style_bytes W.reset_bytes) (W.contents writer) }
        ensures inner { styles_inner result ≡ writer }
    {
        StylesWriter {
            inner: writer,
            styles,
            failed: false,
        }
    }

    /// Returns the inner writer.
    pub fn into_inner(self) -> W
        ensures { result ≡ styles_inner self.entry }
    {
        self.inner
    }

    /// Writes the bytes of a style, and sets the flag where that fails.
    fn set_color(&mut self, spec: &ColorSpec) -> io::Result<()>
        ensures { Writes (styles_sink W.contents W.style_bytes W.reset_bytes self.old)
            (byte_stream (W.style_bytes spec.now)) result
            (styles_sink W.contents W.style_bytes W.reset_bytes self.new) }
    {
        forward_result(self.inner.set_color(spec), &mut self.failed)
    }

    /// Writes the bytes of the reset, and sets the flag where that fails.
    fn reset_color(&mut self) -> io::Result<()>
        ensures { Writes (styles_sink W.contents W.style_bytes W.reset_bytes self.old)
            (byte_stream W.reset_bytes) result
            (styles_sink W.contents W.style_bytes W.reset_bytes self.new) }
    {
        forward_result(self.inner.reset(), &mut self.failed)
    }
}

/// Passes writes and flushes on to the inner writer; they do not change the flag.
impl<W: WriteColor> Write for StylesWriter<'_, W> {
    ghost use Rattle.codespan_base.specs.StyleWriters.{styles_inner};

    ghost contents = { λ p. W.contents (styles_inner p) };

    fn write(&mut self, buf: &[u8]) -> io::Result<usize> {
        self.inner.write(buf)
    }

    fn flush(&mut self) -> io::Result<()> {
        self.inner.flush()
    }
}

#[tactic(auto, using(codespan_core::proofs::StyleMarks::spelled_style_marks))]
impl<W: WriteColor> WriteStyle for StylesWriter<'_, W> {
    ghost use Rattle.codespan_base.specs.StyleWriters.{styles_sink};

    ghost sink = { λ p. styles_sink W.contents W.style_bytes W.reset_bytes p };

    fn set_header(&mut self, severity: Severity) -> io::Result<()> {
        let styles = self.styles;
        self.set_color(styles.header(severity))
    }

    fn set_header_message(&mut self) -> io::Result<()> {
        let styles = self.styles;
        self.set_color(&styles.header_message)
    }

    fn set_line_number(&mut self) -> io::Result<()> {
        let styles = self.styles;
        self.set_color(&styles.line_number)
    }

    fn set_note_bullet(&mut self) -> io::Result<()> {
        let styles = self.styles;
        self.set_color(&styles.note_bullet)
    }

    fn set_source_border(&mut self) -> io::Result<()> {
        let styles = self.styles;
        self.set_color(&styles.source_border)
    }

    fn set_label(&mut self, severity: Severity, label_style: LabelStyle) -> io::Result<()> {
        let styles = self.styles;
        self.set_color(styles.label(severity, label_style))
    }

    fn reset(&mut self) -> io::Result<()> {
        self.reset_color()
    }

    fn put(&mut self, bytes: &[u8]) -> io::Result<usize> {
        forward_put(&mut self.inner, &mut self.failed, bytes)
    }

    ghost holds_contents = { λ _. refl };
}
