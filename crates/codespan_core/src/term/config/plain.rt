//! Plain text.

ghost use Rattle.std.specs.Prelude.{◌≡◌, refl};
ghost use Rattle.codespan_core.specs.Streams.{plain_spelling, style_mark};
ghost use Rattle.codespan_core.specs.declared.term.config.style_mark.StyleMark.TheVariants.{Header};
ghost use Rattle.codespan_core.specs.declared.term.config.style_mark.StyleMark.TheVariants.{HeaderMessage};
ghost use Rattle.codespan_core.specs.declared.term.config.style_mark.StyleMark.TheVariants.{LineNumber};
ghost use Rattle.codespan_core.specs.declared.term.config.style_mark.StyleMark.TheVariants.{NoteBullet};
ghost use Rattle.codespan_core.specs.declared.term.config.style_mark.StyleMark.TheVariants.{SourceBorder};
ghost use Rattle.codespan_core.specs.declared.term.config.style_mark.StyleMark.TheVariants.{Label};
ghost use Rattle.codespan_core.specs.declared.term.config.style_mark.StyleMark.TheVariants.{Reset};
ghost use Rattle.codespan_core.specs.WriterLaw.{Writes};
ghost use Rattle.codespan_core.specs.Writers.{WritesNothing};

use crate::diagnostic::{LabelStyle, Severity};
use crate::term::config::write_style::WriteStyle;
use crate::term::config::writing::forward_put;
use std::io;
use std::io::Write;

/// A [`WriteStyle`] of plain text: a style mark writes nothing, and succeeds.
///
/// The Rust crate has it too, but keeps it private; `into_inner` and `has_failed` are this
/// project's own.
///
/// # Examples
///
/// ```rust
/// let mut plain = PlainWriter::new(Vec::new(alloc));
/// let mut renderer = Renderer::new(&mut plain, &config);
/// RichDiagnostic::new(&bug, &config).render(&files, &mut renderer)?;
/// ShortDiagnostic::new(&bug, true).render(&files, &mut renderer)?;
/// ShortDiagnostic::new(&bug, false).render(&files, &mut renderer)?;
/// assert_eq!(rt;
///     plain.into_inner().as_slice(),
///     b"bug: \n\nbug: \nbug: \n".as_slice()
/// );
/// ```
#[derive(Debug, Drop)]
pub struct PlainWriter<W> {
    inner: W,
    failed: bool,
}

impl<W: Write> PlainWriter<W> {
    ghost use Rattle.codespan_core.specs.Writers.{fresh_sink, plain_sink, plain_inner};

    /// Returns a writer of plain text over `writer`. Its flag is not set.
    pub fn new(writer: W) -> PlainWriter<W>
        ensures begins { plain_sink W.contents result
            ≡ fresh_sink plain_spelling (W.contents writer) }
        ensures inner { plain_inner result ≡ writer }
    {
        PlainWriter {
            inner: writer,
            failed: false,
        }
    }

    /// Returns the flag: whether a `put` has failed, or has taken none of some bytes.
    pub fn has_failed(&self) -> bool
        ensures { result ≡ (plain_sink W.contents self.now).frame.failed }
    {
        self.failed
    }

    /// Returns the inner writer.
    pub fn into_inner(self) -> W
        ensures { result ≡ plain_inner self }
    {
        self.inner
    }
}

/// Passes writes and flushes on to the inner writer; they do not change the flag.
impl<W: Write> Write for PlainWriter<W> {
    ghost use Rattle.codespan_core.specs.Writers.{plain_inner};

    ghost contents = { λ p. W.contents (plain_inner p) };

    fn write(&mut self, buf: &[u8]) -> io::Result<usize> {
        self.inner.write(buf)
    }

    fn flush(&mut self) -> io::Result<()> {
        self.inner.flush()
    }
}

#[tactic(auto, using(crate::proofs::StyleMarks::written_no_style_mark))]
impl<W: Write> WriteStyle for PlainWriter<W> {
    ghost use Rattle.codespan_core.specs.Writers.{plain_sink};

    ghost sink = { λ p. plain_sink W.contents p };

    fn set_header(&mut self, _severity: Severity) -> io::Result<()>
        ensures writes { Writes (plain_sink W.contents self.old) (style_mark (Header _severity))
            result (plain_sink W.contents self.new) }
        ensures nothing { WritesNothing self.old result self.new }
    {
        Ok(())
    }

    fn set_header_message(&mut self) -> io::Result<()>
        ensures writes { Writes (plain_sink W.contents self.old) (style_mark HeaderMessage)
            result (plain_sink W.contents self.new) }
        ensures nothing { WritesNothing self.old result self.new }
    {
        Ok(())
    }

    fn set_line_number(&mut self) -> io::Result<()>
        ensures writes { Writes (plain_sink W.contents self.old) (style_mark LineNumber)
            result (plain_sink W.contents self.new) }
        ensures nothing { WritesNothing self.old result self.new }
    {
        Ok(())
    }

    fn set_note_bullet(&mut self) -> io::Result<()>
        ensures writes { Writes (plain_sink W.contents self.old) (style_mark NoteBullet)
            result (plain_sink W.contents self.new) }
        ensures nothing { WritesNothing self.old result self.new }
    {
        Ok(())
    }

    fn set_source_border(&mut self) -> io::Result<()>
        ensures writes { Writes (plain_sink W.contents self.old) (style_mark SourceBorder)
            result (plain_sink W.contents self.new) }
        ensures nothing { WritesNothing self.old result self.new }
    {
        Ok(())
    }

    fn set_label(&mut self, _severity: Severity, _label_style: LabelStyle) -> io::Result<()>
        ensures writes { Writes (plain_sink W.contents self.old)
            (style_mark (Label _severity _label_style)) result
            (plain_sink W.contents self.new) }
        ensures nothing { WritesNothing self.old result self.new }
    {
        Ok(())
    }

    fn reset(&mut self) -> io::Result<()>
        ensures writes { Writes (plain_sink W.contents self.old) (style_mark Reset)
            result (plain_sink W.contents self.new) }
        ensures nothing { WritesNothing self.old result self.new }
    {
        Ok(())
    }

    fn put(&mut self, bytes: &[u8]) -> io::Result<usize> {
        forward_put(&mut self.inner, &mut self.failed, bytes)
    }

    ghost holds_contents = { λ _. refl };
}
