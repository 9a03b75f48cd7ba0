//! The calls of `Renderer` that write rows.

pub mod rows;

use crate::rendering::Render;
use codespan_base::diagnostic::{LabelStyle, Severity};
use codespan_base::files::{Error, Location};
use codespan_base::term::{Config, PlainWriter, WriteStyle};
use codespan_renderer::term::renderer::{Locus, MultiLabel, Renderer, SingleLabel, lanes_in_order};
use std::alloc::Global;
use std::fmt;
use std::io::Write;

/// A lane mark: the lane, counted from 0, the style of its label, and what the label does on the
/// line.
pub type LaneMark<'text> = (usize, LabelStyle, MultiLabel<'text>);

/// A source line, at padding 1.
#[derive(Clone, Copy)]
pub struct Line<'text> {
    /// Its number.
    pub number: usize,
    /// Its text.
    pub text: &'text str,
    /// The number of cells from one tab stop to the next.
    pub tab_width: usize,
    /// The severity, from which its primary labels have their color.
    pub severity: Severity,
    /// Its labels.
    pub labels: &'text [SingleLabel<'text>],
    /// The number of the file's multi-line labels.
    pub num_multi_labels: usize,
    /// The lane marks of the line.
    pub multi_labels: &'text [LaneMark<'text>],
}

/// A call of `Renderer` that writes rows.
#[derive(Clone, Copy)]
pub enum RowCall<'text> {
    /// `render_header` of an error with a locus: its code and its message.
    LocatedHeader(Option<&'text str>, &'text str),
    /// `render_header` of an error without a locus: its code and its message.
    Header(Option<&'text str>, &'text str),
    /// `render_empty`
    Empty,
    /// `render_snippet_start` at padding 1.
    Start,
    /// `render_snippet_source`
    Source(Line<'text>),
    /// `render_snippet_empty`
    SnippetEmpty {
        /// The padding width.
        padding: usize,
        /// The number of the file's multi-line labels.
        num_multi_labels: usize,
    },
    /// `render_snippet_break`
    Break {
        /// The padding width.
        padding: usize,
        /// The number of the file's multi-line labels.
        num_multi_labels: usize,
        /// The lane marks of the break.
        multi_labels: &'text [LaneMark<'text>],
    },
    /// `render_snippet_note` at a padding.
    Note(usize, &'text str),
}

/// Writes the name of the call.
impl fmt::Display for RowCall<'_> {
    fn fmt<W: fmt::Write>(&self, f: &mut fmt::Formatter<W>) -> fmt::Result {
        f.write_str(match self {
            RowCall::LocatedHeader(_, _) | RowCall::Header(_, _) => "render_header",
            RowCall::Empty => "render_empty",
            RowCall::Start => "render_snippet_start",
            RowCall::Source(_) => "render_snippet_source",
            RowCall::SnippetEmpty { .. } => "render_snippet_empty",
            RowCall::Break { .. } => "render_snippet_break",
            RowCall::Note(_, _) => "render_snippet_note",
        })
    }
}

/// A call of `Renderer`, and the locus that it may write.
#[derive(Drop)]
pub struct DirectCall<'text> {
    call: RowCall<'text>,
    locus: Locus,
}

impl<'text> DirectCall<'text> {
    /// Returns the call, with the locus `f.txt:1:1`.
    ///
    /// # Errors
    ///
    /// `OutOfMemory` if an allocation fails.
    pub fn new(alloc: Global, call: RowCall<'text>) -> Result<Self, Error> {
        Ok(DirectCall {
            call,
            locus: Locus {
                name: String::from_str(alloc, "f.txt")?,
                location: Location {
                    line_number: 1,
                    column_number: 1,
                },
            },
        })
    }
}

/// Writes a source line. Fails with `FormatError` if the lanes are not in order.
fn render_line<W: WriteStyle>(
    renderer: &mut Renderer<'_, '_, W>,
    line: Line<'_>,
) -> Result<(), Error> {
    if !lanes_in_order(line.num_multi_labels, line.multi_labels) {
        return Err(Error::FormatError);
    }
    renderer.render_snippet_source(
        1,
        line.number,
        line.text,
        line.severity,
        line.labels,
        line.num_multi_labels,
        line.multi_labels,
    )
}

/// Writes a break. Fails with `FormatError` if the lanes are not in order.
fn render_break<W: WriteStyle>(
    renderer: &mut Renderer<'_, '_, W>,
    padding: usize,
    num_multi_labels: usize,
    multi_labels: &[LaneMark<'_>],
) -> Result<(), Error> {
    if !lanes_in_order(num_multi_labels, multi_labels) {
        return Err(Error::FormatError);
    }
    renderer.render_snippet_break(padding, Severity::Error, num_multi_labels, multi_labels)
}

/// Makes a call, which may write this locus.
fn render_call<W: WriteStyle>(
    call: RowCall<'_>,
    locus: &Locus,
    renderer: &mut Renderer<'_, '_, W>,
) -> Result<(), Error> {
    match call {
        RowCall::LocatedHeader(code, message) => {
            renderer.render_header(Some(locus), Severity::Error, code, message)
        }
        RowCall::Header(code, message) => {
            renderer.render_header(None, Severity::Error, code, message)
        }
        RowCall::Empty => renderer.render_empty(),
        RowCall::Start => renderer.render_snippet_start(1, locus),
        RowCall::Source(line) => render_line(renderer, line),
        RowCall::SnippetEmpty {
            padding,
            num_multi_labels,
        } => renderer.render_snippet_empty(padding, Severity::Error, num_multi_labels, &[]),
        RowCall::Break {
            padding,
            num_multi_labels,
            multi_labels,
        } => render_break(renderer, padding, num_multi_labels, multi_labels),
        RowCall::Note(padding, message) => renderer.render_snippet_note(padding, message),
    }
}

impl RowCall<'_> {
    /// Returns the number of cells from one tab stop to the next.
    fn tab_width(&self) -> usize {
        match self {
            RowCall::Source(line) => line.tab_width,
            _ => 4,
        }
    }
}

impl<'text> Render for DirectCall<'text> {
    fn render<W: WriteStyle>(&self, writer: &mut W) -> Result<(), Error> {
        let config = Config {
            tab_width: self.call.tab_width(),
            ..Config::default()
        };
        let mut renderer = Renderer::new(writer, &config);
        render_call(self.call, &self.locus, &mut renderer)
    }

    fn render_plain<W: Write>(&self, writer: &mut W) -> Result<(), Error> {
        self.render(&mut PlainWriter::new(writer))
    }

    fn has_style_marks(&self) -> bool {
        !matches!(self.call, RowCall::Empty)
    }
}
