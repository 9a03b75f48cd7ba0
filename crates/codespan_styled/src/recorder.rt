//! A writer of styles that keeps what it receives as runs of text, each in one style.

ghost use Rattle.std.specs.Prelude.{◌≡◌, ◌∷◌, [], false, IfOk, IfErr, OnOk, Some};
ghost use Rattle.codespan_base.specs.Streams.{style_mark};
ghost use Rattle.codespan_base.specs.WriterLaw.{Writes, AppendsBytes};
ghost use Rattle.codespan_styled.specs.Runs.{styled_runs};
ghost use Rattle.codespan_styled.specs.Recorders.{recorded_runs, style_number};
ghost use Rattle.codespan_styled.specs.Recorders.{new_recorder_sink, AreRunsReceived};

use crate::text::{Run, StyledText};
use codespan_base::diagnostic::{LabelStyle, Severity};
use codespan_base::files::Error;
use codespan_base::term::WriteStyle;
use codespan_base::term::config::style_mark::StyleMark;
use std::alloc::Global;
use std::io::{ErrorKind, Write};
use std::{io, str};

/// A writer of styles that keeps what is written to it, for [`to_html`](crate::to_html),
/// [`to_svg`](crate::to_svg) and [`to_terminal`](crate::to_terminal).
///
/// It starts a run at each style mark. It fails where an allocation does, and at a style mark where
/// the bytes of the last run are not UTF-8, as inside a character. Several outputs can be written
/// to it, one after another.
///
/// # Example
///
/// A suggestion as an HTML element:
///
/// ```rust
/// let mut recorder = Recorder::new(alloc);
/// emit_suggestion_to_write_style(&mut recorder, &config, &files, &suggestion)?;
/// let element = to_html(alloc, &recorder.into_text()?)?;
/// ```
#[derive(Debug, Drop)]
pub struct Recorder {
    /// The runs before the last one.
    runs: Vec<Run>,
    /// The style mark before the last run.
    style: StyleMark,
    /// The bytes of the last run.
    text: Vec<u8>,
    /// Whether a call has failed.
    failed: bool,
}

impl Recorder {
    ghost use Rattle.codespan_styled.specs.Recorders.{ended_runs, has_failed, recorded};
    ghost use Rattle.codespan_styled.specs.Recorders.{recorder_sink};

    /// Returns a writer that has received nothing. Its first run is plain.
    pub fn new(alloc: Global) -> Recorder
        ensures { recorder_sink result ≡ new_recorder_sink }
    {
        Recorder {
            runs: Vec::new(alloc),
            style: StyleMark::Reset,
            text: Vec::new(alloc),
            failed: false,
        }
    }

    /// Returns whether a call has failed.
    pub fn has_failed(&self) -> bool
        ensures { result ≡ has_failed self.now }
    {
        self.failed
    }

    /// Returns the runs of all that was written: the first one is plain, each style mark starts a
    /// run of its style, and a reset a plain one. Their texts, one after another, are the bytes
    /// that were written.
    ///
    /// # Errors
    ///
    /// [`Error::OutOfMemory`]: an allocation fails, a call has failed before, or the last run is
    /// not UTF-8.
    pub fn into_text(mut self) -> Result<StyledText, Error>
        ensures runs { IfOk result (λ text. AreRunsReceived self (styled_runs text)) }
        ensures complete { OnOk result (has_failed self ≡ false) }
        ensures error { IfErr result (λ error. error ≡ Error.OutOfMemory) }
    {
        if self.failed {
            return Err(Error::OutOfMemory);
        }
        match self.push_run(StyleMark::Reset) {
            Ok(()) => Ok(StyledText { runs: self.runs }),
            Err(_) => Err(Error::OutOfMemory),
        }
    }

    /// Starts a run at a style mark.
    ///
    /// # Errors
    ///
    /// Those of [`push_run`](Self::push_run). The writer has then failed.
    fn start(&mut self, mark: StyleMark) -> io::Result<()>
        ensures { Writes (recorder_sink self.old) (style_mark mark) result
            (recorder_sink self.new) }
    {
        match self.push_run(mark) {
            Ok(()) => Ok(()),
            Err(error) => {
                self.failed = true;
                Err(error)
            }
        }
    }

    /// Ends the last run and starts one at the style mark `next`.
    ///
    /// # Errors
    ///
    /// An allocation fails, or the last run is not UTF-8. Nothing is then changed.
    fn push_run(&mut self, next: StyleMark) -> io::Result<()>
        ensures appends { AppendsBytes (Some (recorded self.old)) (style_number next ∷ []) result
            (Some (recorded self.new)) }
        ensures runs { OnOk result (recorded_runs (ended_runs self.new) ≡ recorded self.old) }
        ensures flag { has_failed self.new ≡ has_failed self.old }
    {
        let Ok(bytes) = str::from_utf8(self.text.as_slice()) else {
            return Err(io::Error::from(ErrorKind::InvalidData));
        };
        let mut text = String::new(*self.runs.allocator());
        text.push_str(bytes)?;
        let style = self.style;
        self.runs.push(Run { style, text })?;
        self.text.clear();
        self.style = next;
        Ok(())
    }
}

impl Write for Recorder {
    ghost use Rattle.codespan_styled.specs.Recorders.{recorded};

    ghost contents = { λ recorder. Some (recorded recorder) };

    fn write(&mut self, buf: &[u8]) -> io::Result<usize> {
        match self.text.extend_from_slice(buf) {
            Ok(()) => Ok(buf.len()),
            Err(_) => {
                self.failed = true;
                Err(io::Error::from(ErrorKind::OutOfMemory))
            }
        }
    }

    fn flush(&mut self) -> io::Result<()> {
        Ok(())
    }
}

impl WriteStyle for Recorder {
    ghost use Rattle.std.specs.Prelude.{refl};
    ghost use Rattle.codespan_styled.specs.Recorders.{recorder_sink};

    ghost sink = { recorder_sink };

    fn set_header(&mut self, severity: Severity) -> io::Result<()> {
        self.start(StyleMark::Header(severity))
    }

    fn set_header_message(&mut self) -> io::Result<()> {
        self.start(StyleMark::HeaderMessage)
    }

    fn set_line_number(&mut self) -> io::Result<()> {
        self.start(StyleMark::LineNumber)
    }

    fn set_note_bullet(&mut self) -> io::Result<()> {
        self.start(StyleMark::NoteBullet)
    }

    fn set_source_border(&mut self) -> io::Result<()> {
        self.start(StyleMark::SourceBorder)
    }

    fn set_label(&mut self, severity: Severity, label_style: LabelStyle) -> io::Result<()> {
        self.start(StyleMark::Label(severity, label_style))
    }

    fn reset(&mut self) -> io::Result<()> {
        self.start(StyleMark::Reset)
    }

    fn put(&mut self, bytes: &[u8]) -> io::Result<usize> {
        match self.text.extend_from_slice(bytes) {
            Ok(()) => Ok(bytes.len()),
            Err(_) => {
                self.failed = true;
                Err(io::Error::from(ErrorKind::OutOfMemory))
            }
        }
    }

    ghost holds_contents = { λ _. refl };
}
