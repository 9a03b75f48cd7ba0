//! Plain text over a borrowed writer.

ghost use Rattle.std.specs.Prelude.{◌≡◌, refl};

use crate::diagnostic::{LabelStyle, Severity};
use crate::term::config::write_style::WriteStyle;
use crate::term::config::writing::forward_put;
use std::io;
use std::io::Write;

/// A [`WriteStyle`] of plain text over a borrowed writer: a style mark writes nothing, and
/// succeeds. It is this project's own.
///
/// [`PlainWriter`](codespan_reporting::term::PlainWriter) is the same over an owned writer. The
/// sink of this one also has the name of the reference, so that contracts can state what the
/// borrowed writer has afterwards.
#[derive(Drop)]
pub struct PlainWriterRef<'writer, W> {
    writer: &'writer mut W,
    failed: bool,
}

impl<'writer, W: Write> PlainWriterRef<'writer, W> {
    ghost use Rattle.codespan_core.specs.Writers.{plain_reference, borrowed_writer, plain_ref_sink};
    ghost use Rattle.codespan_core.specs.Writers.{fresh_plain_ref_sink};

    /// Returns a writer of plain text over `writer`. Its flag is not set.
    pub fn new(writer: &'writer mut W) -> PlainWriterRef<'writer, W>
        ensures reference { plain_reference result ≡ writer.entry.ghost_name }
        ensures begins { plain_ref_sink W.contents result
            ≡ fresh_plain_ref_sink writer.entry.ghost_name (W.contents writer.old) }
    {
        PlainWriterRef {
            writer,
            failed: false,
        }
    }
}

/// Passes writes and flushes on to the inner writer; they do not change the flag.
impl<W: Write> Write for PlainWriterRef<'_, W> {
    ghost use Rattle.codespan_core.specs.Writers.{borrowed_writer};

    ghost contents = { λ p. W.contents (borrowed_writer p) };

    fn write(&mut self, buf: &[u8]) -> io::Result<usize> {
        self.writer.write(buf)
    }

    fn flush(&mut self) -> io::Result<()> {
        self.writer.flush()
    }
}

#[tactic(auto, using(crate::proofs::StyleMarks::written_no_style_mark))]
impl<W: Write> WriteStyle for PlainWriterRef<'_, W> {
    ghost use Rattle.codespan_core.specs.Writers.{plain_ref_sink};

    ghost sink = { λ p. plain_ref_sink W.contents p };

    fn set_header(&mut self, _severity: Severity) -> io::Result<()> {
        Ok(())
    }

    fn set_header_message(&mut self) -> io::Result<()> {
        Ok(())
    }

    fn set_line_number(&mut self) -> io::Result<()> {
        Ok(())
    }

    fn set_note_bullet(&mut self) -> io::Result<()> {
        Ok(())
    }

    fn set_source_border(&mut self) -> io::Result<()> {
        Ok(())
    }

    fn set_label(&mut self, _severity: Severity, _label_style: LabelStyle) -> io::Result<()> {
        Ok(())
    }

    fn reset(&mut self) -> io::Result<()> {
        Ok(())
    }

    fn put(&mut self, bytes: &[u8]) -> io::Result<usize> {
        forward_put(self.writer, &mut self.failed, bytes)
    }

    ghost holds_contents = { λ _. refl };
}
