//! Text without styles.

ghost use Rattle.std.specs.Prelude.{◌≡◌, []};
ghost use Rattle.codespan_core.specs.WriterLaw.{AppendsBytes};
ghost use Rattle.codespan_core.specs.Writers.{WritesNothing};

use crate::term::config::color::{ColorSpec, WriteColor};
use std::io;
use std::io::Write;

/// A [`WriteColor`] of plain text: `set_color` and `reset` write nothing, and succeed.
#[derive(Debug, Drop)]
pub struct NoColor<W> {
    inner: W,
}

impl<W: Write> NoColor<W> {
    ghost use Rattle.codespan_base.specs.StyleWriters.{no_color_inner};

    /// Returns a writer without styles over `writer`.
    pub fn new(writer: W) -> NoColor<W>
        ensures { no_color_inner result ≡ writer }
    {
        NoColor { inner: writer }
    }

    /// Returns the inner writer.
    pub fn into_inner(self) -> W
        ensures { result ≡ no_color_inner self }
    {
        self.inner
    }
}

impl<W: Write> Write for NoColor<W> {
    ghost use Rattle.codespan_base.specs.StyleWriters.{no_color_inner};

    ghost contents = { λ p. W.contents (no_color_inner p) };

    fn write(&mut self, buf: &[u8]) -> io::Result<usize> {
        self.inner.write(buf)
    }

    fn flush(&mut self) -> io::Result<()> {
        self.inner.flush()
    }
}

#[tactic(auto, using(codespan_core::proofs::AppendsBytes::append_chains))]
impl<W: Write> WriteColor for NoColor<W> {
    ghost use Rattle.codespan_base.specs.StyleWriters.{no_color_inner};

    ghost style_bytes = { λ _. [] };

    ghost reset_bytes = { [] };

    fn set_color(&mut self, _spec: &ColorSpec) -> io::Result<()>
        ensures appends { AppendsBytes (W.contents (no_color_inner self.old)) []
            result (W.contents (no_color_inner self.new)) }
        ensures nothing { WritesNothing self.old result self.new }
    {
        Ok(())
    }

    fn reset(&mut self) -> io::Result<()>
        ensures appends { AppendsBytes (W.contents (no_color_inner self.old)) []
            result (W.contents (no_color_inner self.new)) }
        ensures nothing { WritesNothing self.old result self.new }
    {
        Ok(())
    }
}
