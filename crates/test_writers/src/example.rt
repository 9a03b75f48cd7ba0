//! Custom writers, which docs/WRITERS.md explains.

ghost use Rattle.std.specs.Prelude.{◌≡◌, false, codes, refl};
ghost use Rattle.codespan_base.specs.Streams.{byte_stream};
ghost use Rattle.test_writers.specs.Tags.{tag_sink, color_tag};
ghost use Rattle.codespan_base.specs.WriterLaw.{Writes};

use codespan_base::diagnostic::{LabelStyle, Severity};
use codespan_base::term::config::writing::{forward_all, forward_put, write_all};
use codespan_base::term::{ColorSpec, WriteColor, WriteStyle};
use std::io;
use std::io::Write;

/// A writer that spells each style mark as a tag in brackets.
#[derive(Drop)]
pub struct TagWriter<W> {
    inner: W,
    failed: bool,
}

impl<W: Write> TagWriter<W> {
    /// Returns a writer of tags over this one.
    pub fn new(writer: W) -> TagWriter<W>
        ensures inner { result.inner ≡ writer }
        ensures begins { result.failed ≡ false }
    {
        TagWriter {
            inner: writer,
            failed: false,
        }
    }

    /// Writes a tag, or a prefix of it where it fails.
    fn write_tag(&mut self, tag: &[u8]) -> io::Result<()>
        ensures { Writes (tag_sink self.old.failed (W.contents self.old.inner))
            (byte_stream tag.now) result
            (tag_sink self.new.failed (W.contents self.new.inner)) }
    {
        forward_all(&mut self.inner, &mut self.failed, tag)
    }
}

impl<W: Write> Write for TagWriter<W> {
    ghost contents = { λ t. W.contents t.inner };

    fn write(&mut self, buf: &[u8]) -> io::Result<usize> {
        self.inner.write(buf)
    }

    fn flush(&mut self) -> io::Result<()> {
        self.inner.flush()
    }
}

#[tactic(auto, using(codespan_base::proofs::StyleMarks::spelled_style_marks))]
impl<W: Write> WriteStyle for TagWriter<W> {
    ghost sink = { λ t. tag_sink t.failed (W.contents t.inner) };

    fn set_header(&mut self, _severity: Severity) -> io::Result<()> {
        self.write_tag(b"[header]")
    }

    fn set_header_message(&mut self) -> io::Result<()> {
        self.write_tag(b"[message]")
    }

    fn set_line_number(&mut self) -> io::Result<()> {
        self.write_tag(b"[number]")
    }

    fn set_note_bullet(&mut self) -> io::Result<()> {
        self.write_tag(b"[bullet]")
    }

    fn set_source_border(&mut self) -> io::Result<()> {
        self.write_tag(b"[border]")
    }

    fn set_label(&mut self, _severity: Severity, label_style: LabelStyle) -> io::Result<()> {
        match label_style {
            LabelStyle::Primary => self.write_tag(b"[primary]"),
            LabelStyle::Secondary => self.write_tag(b"[secondary]"),
        }
    }

    fn reset(&mut self) -> io::Result<()> {
        self.write_tag(b"[/]")
    }

    fn put(&mut self, bytes: &[u8]) -> io::Result<usize> {
        forward_put(&mut self.inner, &mut self.failed, bytes)
    }

    ghost holds_contents = { λ _. refl };
}

/// A writer of colors that spells bold as a tag, and nothing else of a style.
#[derive(Drop)]
pub struct TagColor<W> {
    inner: W,
}

impl<W: Write> TagColor<W> {
    /// Returns a writer of colors over this one.
    pub fn new(writer: W) -> TagColor<W>
        ensures { result.inner ≡ writer }
    {
        TagColor { inner: writer }
    }
}

impl<W: Write> Write for TagColor<W> {
    ghost contents = { λ t. W.contents t.inner };

    fn write(&mut self, buf: &[u8]) -> io::Result<usize> {
        self.inner.write(buf)
    }

    fn flush(&mut self) -> io::Result<()> {
        self.inner.flush()
    }
}

#[tactic(auto, using(codespan_base::proofs::AppendsBytes::append_chains))]
impl<W: Write> WriteColor for TagColor<W> {
    ghost style_bytes = { color_tag };

    ghost reset_bytes = { codes "[/]" };

    fn set_color(&mut self, spec: &ColorSpec) -> io::Result<()> {
        if spec.bold {
            write_all(&mut self.inner, b"[bold]")
        } else {
            Ok(())
        }
    }

    fn reset(&mut self) -> io::Result<()> {
        write_all(&mut self.inner, b"[/]")
    }
}
