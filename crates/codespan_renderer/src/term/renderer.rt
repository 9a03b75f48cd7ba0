//! The rows of a rendered diagnostic: [`Renderer`] has a call for each kind.

ghost use Rattle.std.specs.Prelude.{◌≡◌};
ghost use Rattle.codespan_output.specs.Arguments.{lanes_in_order};

pub mod cached;
pub mod char_metrics;
mod label_styles;
pub mod row_writer;
mod scanned_line;
mod write_style;

use codespan_core::diagnostic::{LabelStyle, Severity};
use codespan_core::files::Error;
use codespan_core::term::config::writing::put_all;
use codespan_core::term::{Config, WriteStyle};
pub use codespan_output::arguments::{Locus, MultiLabel, SingleLabel};
use codespan_output::rows::header::{write_header, write_snippet_start};
use codespan_output::rows::line::RowContext;
pub use codespan_output::rows::line::{Lanes, Line};
use codespan_output::rows::line_rows::write_line;
use codespan_output::rows::messages::Messages;
use codespan_output::rows::notes::{write_break, write_note, write_snippet_empty};
use row_writer::RowWriter;
use scanned_line::ScannedLine;
use std::cell::Cell;
use std::io;
use std::io::ErrorKind;

/// Returns whether the lanes ascend strictly and each is less than `num_multi_labels`: lanes are
/// counted from 0. The calls with lanes require it.
///
/// `lanes_in_order(2, &[(1, Primary, Left), (0, Primary, Left)])` is false.
pub fn lanes_in_order(
    num_multi_labels: usize,
    multi_labels: &[(usize, LabelStyle, MultiLabel<'_>)],
) -> bool
    ensures { result ≡ lanes_in_order num_multi_labels multi_labels.now }
{
    let mut least = 0;
    for (lane, _, _) in multi_labels {
        if *lane < least || *lane >= num_multi_labels {
            return false;
        }
        least = *lane + 1;
    }
    true
}

/// Renders rows to a writer. `codespan_reporting::term::renderer` has an annotated output, and an
/// example.
///
/// Each `render_` call writes whole rows, style marks included. It neither flushes nor allocates.
/// `outer_padding` is the padding width in characters, of any size; a line number with more digits
/// is written in full. As a [`WriteStyle`] a renderer passes each call on to its writer.
#[derive(Drop)]
pub struct Renderer<'writer, 'config, W> {
    /// The writer. The views write the lines of a snippet to it, by a [`RowWriter`].
    pub writer: &'writer mut W,
    /// The error that the next failed call returns: the writer's, or `WriteZero` where a `put` has
    /// taken nothing.
    pub saved: Cell<io::Error>,
    config: &'config Config<'config>,
}

impl<'writer, 'config, W: WriteStyle> Renderer<'writer, 'config, W> {
    ghost use Rattle.std.specs.Prelude.{◌≡◌, IsTrue};
    ghost use Rattle.codespan_core.specs.Streams.{newline};
    ghost use Rattle.codespan_output.specs.Private.LineViews.{context_view};
    ghost use Rattle.codespan_output.specs.OutputStreams.{context_of};
    ghost use Rattle.codespan_renderer.specs.Renderers.{writer_of, reference_of, config_of};
    ghost use Rattle.codespan_renderer.specs.Renderers.{Renders};
    ghost use Rattle.codespan_output.specs.RenderedRows.{rendered_header, rendered_start};
    ghost use Rattle.codespan_output.specs.RenderedRows.{rendered_snippet_empty};
    ghost use Rattle.codespan_output.specs.RenderedRows.{rendered_break, rendered_note};
    ghost use Rattle.codespan_output.specs.RenderedRows.{rendered_source, source_line};

    /// Returns a renderer over `writer` with the characters, tab width and layout of `config`.
    pub fn new(
        writer: &'writer mut W,
        config: &'config Config<'config>,
    ) -> Renderer<'writer, 'config, W>
        ensures reference { reference_of result ≡ writer.entry.ghost_name }
        ensures writer { writer_of result ≡ writer.old }
        ensures config { config_of result ≡ config.now }
    {
        Renderer {
            writer,
            saved: Cell::new(io::Error::from(ErrorKind::WriteZero)),
            config,
        }
    }

    /// Returns the context of rows, by the renderer's configuration. `padding` is the padding
    /// width, in characters.
    pub fn context(&self, severity: Severity, padding: usize) -> RowContext<'config>
        ensures { context_view result ≡ context_of (config_of self.now) severity padding }
    {
        let config = self.config;
        RowContext {
            chars: &config.chars,
            tab_width: config.tab_width,
            layout: config.layout,
            severity,
            padding,
        }
    }

    /// Returns the width that lines of the source have to fit, by the renderer's configuration. The
    /// views shorten lines; [`Renderer::render_snippet_source`] renders the line that it gets.
    pub fn max_width(&self) -> Option<usize>
        ensures { result ≡ (config_of self.now).max_width }
    {
        self.config.max_width
    }

    /// Writes a header: locus, severity, code in brackets and message. An empty code is left out.
    ///
    /// # Errors
    ///
    /// `Io` alone: the writer fails or takes no bytes. A prefix has then been written.
    pub fn render_header(
        &mut self,
        locus: Option<&Locus>,
        severity: Severity,
        code: Option<&str>,
        message: &str,
    ) -> Result<(), Error>
        ensures { Renders W.sink (rendered_header locus.entry severity code.entry message.now)
            self.old result self.new }
    {
        let mut rows = RowWriter::new(self.writer, &self.saved);
        let written = write_header(&mut rows, locus, severity, code, message);
        rows.outcome(written)
    }

    /// Writes an empty line: a line feed alone.
    ///
    /// # Errors
    ///
    /// `Io` alone: the writer fails or takes no bytes. A prefix has then been written.
    pub fn render_empty(&mut self) -> Result<(), Error>
        ensures { Renders W.sink newline self.old result self.new }
    {
        let mut rows = RowWriter::new(self.writer, &self.saved);
        let written = put_all(&mut rows, b"\n");
        rows.outcome(written)
    }

    /// Writes the start of a snippet: `snippet_start` of the configuration, and the locus.
    ///
    /// # Errors
    ///
    /// `Io` alone: the writer fails or takes no bytes. A prefix has then been written.
    pub fn render_snippet_start(&mut self, outer_padding: usize, locus: &Locus) -> Result<(), Error>
        ensures { Renders W.sink (rendered_start (config_of self.old) outer_padding locus.now)
            self.old result self.new }
    {
        let config = self.config;
        let mut rows = RowWriter::new(self.writer, &self.saved);
        let written = write_snippet_start(&mut rows, &config.chars, outer_padding, locus);
        rows.outcome(written)
    }

    /// Writes a line of the source with the carets, messages and underlines of its labels.
    ///
    /// `line_number` is written as it is. Line feeds, carriage returns and NULs at the end of
    /// `source` are not rendered, as in the Rust crate. A tab is rendered as the spaces up to the
    /// next tab stop; any other character has the cells of `unicode_width`.
    ///
    /// Ranges are in bytes of `source`, from 0, the end exclusive. They may be in any order,
    /// reversed, past the end, or off character boundaries; an empty or reversed one has no caret.
    /// `num_multi_labels` is the number of the file's lanes. `multi_labels` has the lane marks of
    /// the line: of each label its lane, counted from 0, its style, and what it does on the line.
    ///
    /// # Errors
    ///
    /// `Io` alone: the writer fails or takes no bytes. A prefix has then been written.
    ///
    /// # Requires
    ///
    /// [`lanes_in_order`] is true of `num_multi_labels` and `multi_labels`.
    pub fn render_snippet_source<'row, 'd>(
        &mut self,
        outer_padding: usize,
        line_number: usize,
        source: &'row str,
        severity: Severity,
        single_labels: &'row [SingleLabel<'d>],
        num_multi_labels: usize,
        multi_labels: &'row [(usize, LabelStyle, MultiLabel<'d>)],
    ) -> Result<(), Error>
        requires { IsTrue (lanes_in_order num_multi_labels multi_labels.now) }
        ensures { Renders W.sink (rendered_source (config_of self.old) severity outer_padding
            (source_line line_number source.now single_labels.now num_multi_labels
            multi_labels.now))
            self.old result self.new }
    {
        let lanes = Lanes {
            count: num_multi_labels,
            lane_marks: multi_labels,
        };
        let line = Line::new(line_number, source, single_labels, lanes);
        let context = self.context(severity, outer_padding);
        let messages = Messages::of(single_labels);
        let scanned = ScannedLine {
            tab_width: context.tab_width,
            text: line.text,
            messages,
        };
        let mut rows = RowWriter::new(self.writer, &self.saved);
        let written = write_line(&mut rows, context, line, messages, &scanned);
        rows.outcome(written)
    }

    /// Writes an empty row: the border and the lanes alone.
    ///
    /// # Errors
    ///
    /// `Io` alone: the writer fails or takes no bytes. A prefix has then been written.
    ///
    /// # Requires
    ///
    /// [`lanes_in_order`] is true of `num_multi_labels` and `multi_labels`.
    pub fn render_snippet_empty(
        &mut self,
        outer_padding: usize,
        severity: Severity,
        num_multi_labels: usize,
        multi_labels: &[(usize, LabelStyle, MultiLabel<'_>)],
    ) -> Result<(), Error>
        requires { IsTrue (lanes_in_order num_multi_labels multi_labels.now) }
        ensures { Renders W.sink (rendered_snippet_empty (config_of self.old) severity outer_padding
            num_multi_labels multi_labels.now) self.old result self.new }
    {
        let context = self.context(severity, outer_padding);
        let lanes = Lanes {
            count: num_multi_labels,
            lane_marks: multi_labels,
        };
        let mut rows = RowWriter::new(self.writer, &self.saved);
        let written = write_snippet_empty(&mut rows, context, lanes);
        rows.outcome(written)
    }

    /// Writes a break, for lines that are left out. The views pass the lane marks of the next line,
    /// as the Rust crate does.
    ///
    /// # Errors
    ///
    /// `Io` alone: the writer fails or takes no bytes. A prefix has then been written.
    ///
    /// # Requires
    ///
    /// [`lanes_in_order`] is true of `num_multi_labels` and `multi_labels`.
    pub fn render_snippet_break(
        &mut self,
        outer_padding: usize,
        severity: Severity,
        num_multi_labels: usize,
        multi_labels: &[(usize, LabelStyle, MultiLabel<'_>)],
    ) -> Result<(), Error>
        requires { IsTrue (lanes_in_order num_multi_labels multi_labels.now) }
        ensures { Renders W.sink (rendered_break (config_of self.old) severity outer_padding
            num_multi_labels multi_labels.now) self.old result self.new }
    {
        let context = self.context(severity, outer_padding);
        let lanes = Lanes {
            count: num_multi_labels,
            lane_marks: multi_labels,
        };
        let mut rows = RowWriter::new(self.writer, &self.saved);
        let written = write_break(&mut rows, context, lanes);
        rows.outcome(written)
    }

    /// Writes a note: a row for each of its lines, the first after the note bullet. An empty note
    /// has no row.
    ///
    /// # Errors
    ///
    /// `Io` alone: the writer fails or takes no bytes. A prefix has then been written.
    pub fn render_snippet_note(&mut self, outer_padding: usize, message: &str) -> Result<(), Error>
        ensures { Renders W.sink (rendered_note (config_of self.old) outer_padding message.now)
            self.old result self.new }
    {
        let config = self.config;
        let mut rows = RowWriter::new(self.writer, &self.saved);
        let written = write_note(&mut rows, &config.chars, outer_padding, message);
        rows.outcome(written)
    }
}
