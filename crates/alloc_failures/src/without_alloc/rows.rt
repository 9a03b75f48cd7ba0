//! The rows that are written without an allocation, and what is expected of them.

use codespan_base::diagnostic::LabelStyle::{Primary, Secondary};
use codespan_base::diagnostic::{LabelStyle, Severity};
use codespan_base::files::Error;
use codespan_base::term::{
    Ansi, Config, PlainWriter, Styles, StylesWriter, WriteColor, WriteStyle,
};
use codespan_renderer::term::renderer::{Locus, MultiLabel, Renderer, lanes_in_order};
use std::io::Write;

/// Makes each `render_` call, as plain text.
///
/// # Errors
///
/// The error of the first call that fails, and `FormatError` if lanes are not in order.
pub fn render_rows<W: Write>(
    writer: &mut W,
    snippet_locus: &Locus,
    header_locus: &Locus,
) -> Result<(), Error> {
    render_each(&mut PlainWriter::new(writer), snippet_locus, header_locus)
}

/// Makes each `render_` call.
fn render_each<W: WriteStyle>(
    writer: &mut W,
    snippet_locus: &Locus,
    header_locus: &Locus,
) -> Result<(), Error> {
    let config = Config::default();
    let mut renderer = Renderer::new(writer, &config);
    renderer.render_header(None, Severity::Error, None, "")?;
    renderer.render_snippet_start(1, snippet_locus)?;
    renderer.render_snippet_empty(1, Severity::Error, 2, &[])?;
    render_crossing(&mut renderer)?;
    renderer.render_empty()?;
    render_other_rows(&mut renderer, header_locus)
}

/// Writes rows of other kinds. Fails with `FormatError` if the lanes are not in order.
fn render_other_rows<W: WriteStyle>(
    renderer: &mut Renderer<'_, '_, W>,
    header_locus: &Locus,
) -> Result<(), Error> {
    render_hanging(renderer)?;
    let multi_labels = [(0, Primary, MultiLabel::Left)];
    if !lanes_in_order(1, &multi_labels) {
        return Err(Error::FormatError);
    }
    renderer.render_snippet_break(2, Severity::Error, 1, &multi_labels)?;
    let message = "unexpected type in application of `_+_`";
    renderer.render_header(Some(header_locus), Severity::Error, Some("E0001"), message)?;
    renderer.render_snippet_note(0, "a\r\n\nb\n")
}

/// Writes a source line with a trailing label and two hanging ones, each with a message.
fn render_hanging<W: WriteStyle>(renderer: &mut Renderer<'_, '_, W>) -> Result<(), Error> {
    let labels = [
        (Primary, 0..3, "w"),
        (Secondary, 3..4, "s"),
        (Secondary, 4..5, "t"),
    ];
    renderer.render_snippet_source(1, 1, "路ab", Severity::Error, &labels, 0, &[])
}

/// Writes source lines with two multi-line labels whose underlines cross.
fn render_crossing<W: WriteStyle>(renderer: &mut Renderer<'_, '_, W>) -> Result<(), Error> {
    let first = [
        (0, Secondary, MultiLabel::Top(1)),
        (1, Primary, MultiLabel::Top(0)),
    ];
    let second = [
        (0, Secondary, MultiLabel::Bottom(1, "q")),
        (1, Primary, MultiLabel::Left),
    ];
    let third = [(1, Primary, MultiLabel::Bottom(1, "p"))];
    render_line(renderer, 1, "ab\n", &first)?;
    render_line(renderer, 2, "cd\n", &second)?;
    render_line(renderer, 3, "ef", &third)
}

/// Writes a source line with two lanes. Fails with `FormatError` if they are not in order.
fn render_line<W: WriteStyle>(
    renderer: &mut Renderer<'_, '_, W>,
    number: usize,
    text: &str,
    multi_labels: &[(usize, LabelStyle, MultiLabel<'_>)],
) -> Result<(), Error> {
    if !lanes_in_order(2, multi_labels) {
        return Err(Error::FormatError);
    }
    renderer.render_snippet_source(1, number, text, Severity::Error, &[], 2, multi_labels)
}

/// Writes a source line with a label and its message, in colors.
///
/// # Errors
///
/// Those of `render_snippet_source`.
pub fn render_colored<W: Write>(writer: &mut W) -> Result<(), Error> {
    render_label_colored(Ansi::new(writer))
}

/// Writes a source line with a label and its message, in the default styles.
fn render_label_colored<W: WriteColor + Drop>(writer: W) -> Result<(), Error> {
    let styles = Styles::default();
    render_label(&mut StylesWriter::new(writer, &styles))
}

/// Writes a source line with a label and its message.
fn render_label<W: WriteStyle>(writer: &mut W) -> Result<(), Error> {
    let config = Config::default();
    let mut renderer = Renderer::new(writer, &config);
    let labels = [(Primary, 1..2, "m")];
    renderer.render_snippet_source(1, 1, "abc", Severity::Error, &labels, 0, &[])
}

/// The rows of `render_rows`.
pub const ROWS: &str = "error: \n  ┌─ f:1:1\n  │    \n1 │   ╭ ab\n  │ ╭────'\n2 │ │ │ cd\n\
    \x20 │ ╰─│─' q\n3 │   │ ef\n  │   ╰─^ p\n\n\
    1 │ 路ab\n  │ ^^-- t\n  │ │ │ \n  │ │ s\n  │ w\n\
    \x20  · │\n\
    Test.fun:4:11: error[E0001]: unexpected type in application of `_+_`\n \
    = a\n   \n   b\n";

/// The rows of `render_label`, in colors.
pub const COLORED: &str =
    "\x1b[0m\x1b[36m1\x1b[0m \x1b[0m\x1b[36m│\x1b[0m a\x1b[0m\x1b[31mb\x1b[0mc\n\
    \x20 \x1b[0m\x1b[36m│\x1b[0m  \x1b[0m\x1b[31m^\x1b[0m \x1b[0m\x1b[31mm\x1b[0m\n";
