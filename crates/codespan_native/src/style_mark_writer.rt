//! A writer with style marks in band: each is the byte 255 and its number.

ghost use Rattle.std.specs.Prelude.{◌≡◌, refl};
ghost use Rattle.codespan_base.specs.Diagnostics.{severity_rank};
ghost use Rattle.codespan_base.specs.Streams.{style_mark};
ghost use Rattle.codespan_base.specs.WriterLaw.{Writes};
ghost use Rattle.codespan_native.specs.StyleMarkBytes.{style_mark_number};
ghost use Rattle.codespan_native.specs.StyleMarkWriters.{style_mark_sink};

use codespan_base::diagnostic::{LabelStyle, Severity};
use codespan_base::term::WriteStyle;
use codespan_base::term::config::style_mark::StyleMark;
use codespan_base::term::config::writing::{forward_all, forward_put};
use std::io;
use std::io::Write;

/// The byte before the number of a style mark. UTF-8 never has it.
const STYLE_MARK_BYTE: u8 = 255;

/// A writer that spells each style mark as the byte 255 and its number.
#[derive(Drop)]
pub struct StyleMarkWriter<W> {
    /// The writer that receives the bytes.
    inner: W,
    /// Whether a style mark or a `put` has failed.
    failed: bool,
}

impl<W: Write> StyleMarkWriter<W> {
    ghost use Rattle.codespan_base.specs.Writers.{fresh_sink};
    ghost use Rattle.codespan_native.specs.StyleMarkBytes.{style_mark_spelling};
    ghost use Rattle.codespan_native.specs.StyleMarkWriters.{style_mark_inner};
    ghost use Rattle.codespan_native.specs.StyleMarkWriters.{style_mark_writer_sink};

    /// Returns a writer over `writer`. It has not failed.
    pub fn new(writer: W) -> StyleMarkWriter<W>
        ensures begins { style_mark_writer_sink W.contents result
            ≡ fresh_sink style_mark_spelling (W.contents writer) }
    {
        StyleMarkWriter {
            inner: writer,
            failed: false,
        }
    }

    /// Returns the inner writer.
    pub fn into_inner(self) -> W
        ensures { result ≡ style_mark_inner self }
    {
        let StyleMarkWriter { inner, .. } = self;
        inner
    }

    /// Writes a style mark, and sets `failed` where that fails.
    fn write_style_mark(&mut self, mark: StyleMark) -> io::Result<()>
        ensures { Writes (style_mark_sink self.old.failed (W.contents self.old.inner))
            (style_mark mark) result
            (style_mark_sink self.new.failed (W.contents self.new.inner)) }
    {
        let bytes = [STYLE_MARK_BYTE, number(mark)];
        forward_all(&mut self.inner, &mut self.failed, &bytes)
    }
}

/// Returns the number of a style mark.
fn number(mark: StyleMark) -> u8
    ensures { result ≡ style_mark_number mark }
{
    match mark {
        StyleMark::Header(severity) => 128 + severity_rank(severity),
        StyleMark::HeaderMessage => 133,
        StyleMark::LineNumber => 134,
        StyleMark::NoteBullet => 135,
        StyleMark::SourceBorder => 136,
        StyleMark::Label(severity, LabelStyle::Primary) => 137 + severity_rank(severity),
        StyleMark::Label(severity, LabelStyle::Secondary) => 142 + severity_rank(severity),
        StyleMark::Reset => 147,
    }
}

/// Returns the rank of a severity: from 0 for help to 4 for a bug.
fn severity_rank(severity: Severity) -> u8
    ensures { result ≡ severity_rank severity }
{
    match severity {
        Severity::Help => 0,
        Severity::Note => 1,
        Severity::Warning => 2,
        Severity::Error => 3,
        Severity::Bug => 4,
    }
}

impl<W: Write> Write for StyleMarkWriter<W> {
    ghost contents = { λ w. W.contents w.inner };

    fn write(&mut self, buf: &[u8]) -> io::Result<usize> {
        self.inner.write(buf)
    }

    fn flush(&mut self) -> io::Result<()> {
        self.inner.flush()
    }
}

impl<W: Write> WriteStyle for StyleMarkWriter<W> {
    ghost use Rattle.codespan_native.specs.StyleMarkWriters.{style_mark_writer_sink};

    ghost sink = { λ w. style_mark_writer_sink W.contents w };

    fn set_header(&mut self, severity: Severity) -> io::Result<()> {
        self.write_style_mark(StyleMark::Header(severity))
    }

    fn set_header_message(&mut self) -> io::Result<()> {
        self.write_style_mark(StyleMark::HeaderMessage)
    }

    fn set_line_number(&mut self) -> io::Result<()> {
        self.write_style_mark(StyleMark::LineNumber)
    }

    fn set_note_bullet(&mut self) -> io::Result<()> {
        self.write_style_mark(StyleMark::NoteBullet)
    }

    fn set_source_border(&mut self) -> io::Result<()> {
        self.write_style_mark(StyleMark::SourceBorder)
    }

    fn set_label(&mut self, severity: Severity, label_style: LabelStyle) -> io::Result<()> {
        self.write_style_mark(StyleMark::Label(severity, label_style))
    }

    fn reset(&mut self) -> io::Result<()> {
        self.write_style_mark(StyleMark::Reset)
    }

    fn put(&mut self, bytes: &[u8]) -> io::Result<usize> {
        forward_put(&mut self.inner, &mut self.failed, bytes)
    }

    ghost holds_contents = { λ _. refl };
}
