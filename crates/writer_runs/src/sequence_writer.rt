//! A writer of styles that spells style marks as escape sequences, and fails at one of them.

ghost use Rattle.std.specs.Prelude.{◌≡◌, false, refl};
ghost use Rattle.codespan_base.specs.Streams.{byte_stream};
ghost use Rattle.codespan_base.specs.WriterLaw.{Writes};
ghost use Rattle.writer_runs.specs.Spellings.{sequence_sink};

use codespan_base::diagnostic::{LabelStyle, Severity};
use codespan_base::term::WriteStyle;
use codespan_base::term::config::writing::{forward_all, forward_put, write_all};
use std::io;
use std::io::{ErrorKind, Write};

/// Counts one more call, if a call before it has failed.
fn counted(calls_after: usize, failed: bool) -> usize {
    if failed {
        calls_after.saturating_add(1)
    } else {
        calls_after
    }
}

/// A writer that spells each style mark as an escape sequence. It fails at the style mark after
/// this many others, once the first byte of its spelling is written.
#[derive(Drop)]
pub struct SequenceWriter<W> {
    inner: W,
    failed: bool,
    style_marks_left: usize,
    /// The number of style marks and writes after the failed one.
    pub calls_after: usize,
}

impl<W: Write> SequenceWriter<W> {
    /// Returns a writer that fails after `style_marks` style marks.
    pub fn new(writer: W, style_marks: usize) -> SequenceWriter<W> {
        SequenceWriter {
            inner: writer,
            failed: false,
            style_marks_left: style_marks,
            calls_after: 0,
        }
    }

    /// Returns whether a style mark or a write has failed.
    pub fn has_failed(&self) -> bool {
        self.failed
    }

    /// Writes the spelling of a style mark, or only its first byte and fails.
    fn write_style_mark(&mut self, text: &[u8]) -> io::Result<()>
        ensures { Writes (sequence_sink self.old.failed (W.contents self.old.inner))
            (byte_stream text.now) result
            (sequence_sink self.new.failed (W.contents self.new.inner)) }
    {
        self.calls_after = counted(self.calls_after, self.failed);
        if self.style_marks_left == 0 {
            self.fail_at_style_mark(text)
        } else {
            self.style_marks_left -= 1;
            forward_all(&mut self.inner, &mut self.failed, text)
        }
    }

    /// Writes the first byte and fails.
    fn fail_at_style_mark(&mut self, text: &[u8]) -> io::Result<()>
        ensures { Writes (sequence_sink self.old.failed (W.contents self.old.inner))
            (byte_stream text.now) result
            (sequence_sink self.new.failed (W.contents self.new.inner)) }
    {
        self.failed = true;
        let (first, _rest) = text.split_at(text.len().min(1));
        match write_all(&mut self.inner, first) {
            Ok(()) => Err(io::Error::from(ErrorKind::PermissionDenied)),
            Err(error) => Err(error),
        }
    }
}

impl<W: Write> Write for SequenceWriter<W> {
    ghost contents = { λ t. W.contents t.inner };

    fn write(&mut self, buf: &[u8]) -> io::Result<usize> {
        self.inner.write(buf)
    }

    fn flush(&mut self) -> io::Result<()> {
        self.inner.flush()
    }
}

#[tactic(auto, using(codespan_base::proofs::StyleMarks::spelled_style_marks))]
impl<W: Write> WriteStyle for SequenceWriter<W> {
    ghost sink = { λ t. sequence_sink t.failed (W.contents t.inner) };

    fn set_header(&mut self, _severity: Severity) -> io::Result<()> {
        self.write_style_mark(b"\x1b[1m")
    }

    fn set_header_message(&mut self) -> io::Result<()> {
        self.write_style_mark(b"\x1b[2m")
    }

    fn set_line_number(&mut self) -> io::Result<()> {
        self.write_style_mark(b"\x1b[3m")
    }

    fn set_note_bullet(&mut self) -> io::Result<()> {
        self.write_style_mark(b"\x1b[4m")
    }

    fn set_source_border(&mut self) -> io::Result<()> {
        self.write_style_mark(b"\x1b[5m")
    }

    fn set_label(&mut self, _severity: Severity, _label_style: LabelStyle) -> io::Result<()> {
        self.write_style_mark(b"\x1b[6m")
    }

    fn reset(&mut self) -> io::Result<()> {
        self.write_style_mark(b"\x1b[0m")
    }

    fn put(&mut self, bytes: &[u8]) -> io::Result<usize> {
        self.calls_after = counted(self.calls_after, self.failed);
        forward_put(&mut self.inner, &mut self.failed, bytes)
    }

    ghost holds_contents = { λ _. refl };
}
