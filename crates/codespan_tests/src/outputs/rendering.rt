//! File databases of names and texts, a view rendered plain and in colors, and what is asserted of
//! outputs.

use crate::asserts::{assert_bytes, assert_text};
use codespan_reporting::diagnostic::{Diagnostic, Label};
use codespan_reporting::files::{Error, Files, SimpleFiles};
use codespan_reporting::term::{
    Ansi, Config, NoColor, PlainWriter, Renderer, RichDiagnostic, Styles, StylesWriter, WriteColor,
    WriteStyle, emit_into_string,
};
use std::alloc::Global;
use std::panic::Expect;
use std::process::Abort;
use test_writers::sequences::without_sequences;

/// Returns a file database with one file, `f`, of the text `ab`.
pub fn one_file(rt: &impl Abort, alloc: Global) -> SimpleFiles<&'static str, &'static str> {
    let mut files = SimpleFiles::new(alloc);
    files.add("f", "ab").expect(rt, "the file");
    files
}

/// Returns a diagnostic with a label in the first file, and one in the eighth.
pub fn in_first_and_eighth(rt: &impl Abort, alloc: Global) -> Diagnostic<usize> {
    Diagnostic::error(alloc)
        .with_message("m")
        .expect(rt, "the message")
        .with_label(Label::primary(alloc, 0, 0..1))
        .expect(rt, "the first label")
        .with_label(Label::primary(alloc, 7, 0..1))
        .expect(rt, "the second label")
}

/// What a rendering returned, and what it wrote.
#[derive(Drop)]
pub struct Rendered {
    returned: Result<(), Error>,
    /// The bytes that were written.
    pub text: Vec<u8>,
}

impl Rendered {
    /// Asserts that the rendering returned `Ok` or an error, by its parts.
    pub fn assert_returned(&self, rt: &impl Abort, (name, given, max): Parts<'_>) {
        let returned = parts_of(&self.returned);
        assert_text(rt, returned.0, name);
        assert!(rt; returned.1 == given && returned.2 == max);
    }

    /// Returns whether a rendering returned what this one did, and wrote the same.
    fn is_same(&self, returned: &Result<(), Error>, text: &[u8]) -> bool {
        is_same_return(&self.returned, returned) && text == self.text.as_slice()
    }

    /// Returns whether a call that emits to a string returned the same text, or the same error.
    fn is_same_string(&self, emitted: &Result<String, Error>) -> bool {
        match emitted {
            Ok(text) => self.is_same(&Ok(()), text.as_bytes()),
            Err(_) => is_same_return(&self.returned, emitted),
        }
    }
}

/// Returns whether both are `Ok`, or the same error with the same numbers.
fn is_same_return<T>(one: &Result<(), Error>, other: &Result<T, Error>) -> bool {
    parts_of(one) == parts_of(other)
}

/// `Ok` or the name of an error, and its `given` and `max`, each 0 if it has none. The cause of an
/// `Io` is left out.
pub type Parts<'name> = (&'name str, usize, usize);

/// The parts of `Ok`.
pub const OK: Parts<'static> = ("Ok", 0, 0);

/// Returns the parts of what was returned.
pub fn parts_of<T>(returned: &Result<T, Error>) -> Parts<'static> {
    match returned {
        Ok(_) => OK,
        Err(Error::FileMissing) => ("FileMissing", 0, 0),
        Err(Error::IndexTooLarge { given, max }) => ("IndexTooLarge", *given, *max),
        Err(Error::LineTooLarge { given, max }) => ("LineTooLarge", *given, *max),
        Err(Error::ColumnTooLarge { given, max }) => ("ColumnTooLarge", *given, *max),
        Err(Error::InvalidCharBoundary { given }) => ("InvalidCharBoundary", *given, 0),
        Err(Error::Io(_)) => ("Io", 0, 0),
        Err(Error::FormatError) => ("FormatError", 0, 0),
        Err(Error::OutOfMemory) => ("OutOfMemory", 0, 0),
        Err(_) => ("", 0, 0),
    }
}

/// Renders a view plain.
fn rendered_plain<'files, F: Files<'files>>(
    alloc: Global,
    config: &Config<'_>,
    view: RichDiagnostic<'_, '_, F::FileId>,
    files: &'files F,
) -> Rendered {
    let mut plain = PlainWriter::new(Vec::new(alloc));
    let returned = render_view(&mut plain, config, view, files);
    let text = plain.into_inner();
    Rendered { returned, text }
}

/// Renders a view over a writer of colors, by the default styles. Returns that writer, and what the
/// call returned.
pub fn render_styled<'files, F: Files<'files>, C: WriteColor + Drop>(
    colors: C,
    config: &Config<'_>,
    view: RichDiagnostic<'_, '_, F::FileId>,
    files: &'files F,
) -> (C, Result<(), Error>) {
    let styles = Styles::default();
    let mut styled = StylesWriter::new(colors, &styles);
    let returned = render_view(&mut styled, config, view, files);
    (styled.into_inner(), returned)
}

/// Returns whether a view is rendered the same over [`NoColor`].
fn is_same_without_color<'files, F: Files<'files>>(
    config: &Config<'_>,
    view: RichDiagnostic<'_, '_, F::FileId>,
    files: &'files F,
    plain: &Rendered,
) -> bool {
    let without_color = NoColor::new(Vec::new(*plain.text.allocator()));
    let (without_color, returned) = render_styled(without_color, config, view, files);
    plain.is_same(&returned, without_color.into_inner().as_slice())
}

/// Returns whether a view is rendered the same over [`Ansi`], once the escape sequences are
/// removed.
fn is_same_in_color<'files, F: Files<'files>>(
    rt: &impl Abort,
    config: &Config<'_>,
    view: RichDiagnostic<'_, '_, F::FileId>,
    files: &'files F,
    plain: &Rendered,
) -> bool {
    let alloc = *plain.text.allocator();
    let (colored, returned) = render_styled(Ansi::new(Vec::new(alloc)), config, view, files);
    let text = without_sequences(alloc, colored.into_inner().as_slice()).expect(rt, "the text");
    plain.is_same(&returned, text.as_slice())
}

/// Renders a view plain, over [`NoColor`], and over [`Ansi`]. Asserts that all three return the
/// same, `Ok` or an error, and write the same, once the escape sequences are removed. Returns the
/// plain rendering.
pub fn render_alike<'files, F: Files<'files>>(
    rt: &impl Abort,
    alloc: Global,
    config: &Config<'_>,
    view: RichDiagnostic<'_, '_, F::FileId>,
    files: &'files F,
) -> Rendered {
    let plain = rendered_plain(alloc, config, view, files);
    assert!(rt; is_same_without_color(config, view, files, &plain));
    assert!(rt; is_same_in_color(rt, config, view, files, &plain));
    plain
}

/// Asserts that the view of a diagnostic writes this text, plain and in colors, and that a call
/// that emits returns the same text or error: the one with these parts, or `Ok`.
pub fn assert_renders<'files, F: Files<'files>>(
    rt: &impl Abort,
    config: &Config<'_>,
    files: &'files F,
    diagnostic: &Diagnostic<F::FileId>,
    (text, returned): (&str, Parts<'_>),
) {
    let alloc = *diagnostic.labels.allocator();
    let view = RichDiagnostic::new(diagnostic, config);
    let rendered = render_alike(rt, alloc, config, view, files);
    assert_bytes(rt, rendered.text.as_slice(), text);
    assert!(rt; rendered.is_same_string(&emit_into_string(config, files, diagnostic)));
    rendered.assert_returned(rt, returned);
}

/// Renders a view to a writer, by a renderer with this configuration.
fn render_view<'files, F: Files<'files>, W: WriteStyle>(
    writer: &mut W,
    config: &Config<'_>,
    view: RichDiagnostic<'_, '_, F::FileId>,
    files: &'files F,
) -> Result<(), Error> {
    let mut renderer = Renderer::new(writer, config);
    view.render(files, &mut renderer)
}
