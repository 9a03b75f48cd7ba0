//! The writers of styles between a call and a writer of bytes.

use crate::errors::WrongRun;
use crate::recording::Recording;
use crate::rendering::Render;
use crate::sequence_writer::SequenceWriter;
use codespan_base::files::Error;
use codespan_base::term::{Ansi, NoColor, Styles, StylesWriter, WriteColor};
use std::alloc::Global;
use std::fmt;
use std::io::Write;
use test_writers::sequences::without_sequences;

/// A writer of styles.
#[derive(Clone, Copy)]
pub enum StyleWriterKind {
    /// Plain text.
    Plain,
    /// A `StylesWriter` over `Ansi`.
    Ansi,
    /// A `StylesWriter` over `NoColor`.
    NoColor,
    /// A `SequenceWriter`.
    Sequences,
}

/// The writers of styles.
pub const STYLE_WRITERS: [StyleWriterKind; 4] = [
    StyleWriterKind::Plain,
    StyleWriterKind::Ansi,
    StyleWriterKind::NoColor,
    StyleWriterKind::Sequences,
];

/// Writes the name of the writer.
impl fmt::Display for StyleWriterKind {
    fn fmt<W: fmt::Write>(&self, f: &mut fmt::Formatter<W>) -> fmt::Result {
        f.write_str(match self {
            StyleWriterKind::Plain => "plain text",
            StyleWriterKind::Ansi => "Ansi",
            StyleWriterKind::NoColor => "NoColor",
            StyleWriterKind::Sequences => "a custom writer",
        })
    }
}

/// Renders to a `StylesWriter` over a writer of colors, in the default styles.
fn render_in_styles<D: Render, W: WriteColor + Drop>(call: &D, writer: W) -> Result<(), Error> {
    let styles = Styles::default();
    call.render(&mut StylesWriter::new(writer, &styles))
}

impl StyleWriterKind {
    /// Renders by way of this writer of styles.
    ///
    /// # Errors
    ///
    /// Those of rendering.
    pub fn render<D: Render, W: Write>(self, call: &D, writer: &mut W) -> Result<(), Error> {
        match self {
            StyleWriterKind::Plain => call.render_plain(writer),
            StyleWriterKind::Ansi => render_in_styles(call, Ansi::new(writer)),
            StyleWriterKind::NoColor => render_in_styles(call, NoColor::new(writer)),
            StyleWriterKind::Sequences => call.render(&mut SequenceWriter::new(writer, usize::MAX)),
        }
    }

    /// Returns whether this writer of styles writes style marks as escape sequences.
    fn shows_style_marks(self) -> bool {
        matches!(self, StyleWriterKind::Ansi | StyleWriterKind::Sequences)
    }

    /// Renders by way of this writer of styles to a writer that records, and returns the recording.
    /// Once the escape sequences are removed, what was written has to be the plain text; where the
    /// call writes style marks, a writer that spells them as escape sequences has to have written
    /// some.
    ///
    /// # Errors
    ///
    /// - `Failed`: rendering or an allocation fails.
    /// - `UnexpectedBytes`: what was written is not as said above.
    pub fn record<D: Render>(
        self,
        alloc: Global,
        call: &D,
        text: &str,
    ) -> Result<Recording, WrongRun> {
        let mut recording = Recording::new(alloc);
        self.render(call, &mut recording)?;
        let has_sequences = self.shows_style_marks() && call.has_style_marks();
        let bytes = recording.text();
        let is_text = if has_sequences {
            bytes.len() > text.len()
                && without_sequences(alloc, bytes)?.as_slice() == text.as_bytes()
        } else {
            bytes == text.as_bytes()
        };
        if is_text {
            Ok(recording)
        } else {
            Err(WrongRun::UnexpectedBytes(self))
        }
    }
}
