//! A line number that cannot be looked up, a missing file, and a view and a renderer with two
//! configurations.

use crate::asserts::assert_bytes;
use crate::outputs::failures::with_label;
use crate::outputs::rendering::{
    OK, assert_renders, in_first_and_eighth, one_file, parts_of, render_alike,
};
use codespan_reporting::diagnostic::{Diagnostic, Label};
use codespan_reporting::files::{MappedFile, SimpleFile};
use codespan_reporting::term::{Chars, Config, Layout, RichDiagnostic, emit_into_string};
use std::alloc::Global;
use std::panic::Expect;
use std::process::Abort;

/// Returns a file whose second line has the greatest number.
fn numbered_to_the_end(rt: &impl Abort, alloc: Global) -> MappedFile<&'static str, &'static str> {
    let mut file = MappedFile::new(alloc, "m", "a\nb\nc\nd").expect(rt, "the file");
    file.set_line(1, usize::MAX).expect(rt, "the number");
    file
}

/// Returns a configuration with two lines after each label.
fn two_lines_after<'chars>() -> Config<'chars> {
    Config {
        after_label_lines: 2,
        ..Config::default()
    }
}

/// Where the number of a context line cannot be looked up, the call fails: the context does not
/// end before that line.
#[test]
fn mapped_overflow(rt: HostRuntime) {
    let file = numbered_to_the_end(&rt, rt.alloc());
    let diagnostic = with_label(rt.alloc()).expect(&rt, "the diagnostic");
    let failed = emit_into_string(&two_lines_after(), &file, &diagnostic);
    assert!(rt; parts_of(&failed) == ("LineTooLarge", 2, 1));
}

/// A view and a call that emits fail with `FileMissing` where a label is in a missing file. The
/// view writes nothing.
#[test]
fn missing_file(rt: HostRuntime) {
    let files = one_file(&rt, rt.alloc());
    let diagnostic = in_first_and_eighth(&rt, rt.alloc());
    let expected = ("", ("FileMissing", 0, 0));
    assert_renders(&rt, &Config::default(), &files, &diagnostic, expected);
}

/// Returns a diagnostic with a label over five lines, and one on the first of these.
fn with_multi_line_label(rt: &impl Abort, alloc: Global) -> Diagnostic<()> {
    let multi = Label::primary(alloc, (), 9..20).with_message("p");
    let single = Label::secondary(alloc, (), 10..11).with_message("q");
    Diagnostic::error(alloc)
        .with_label(multi.expect(rt, "the label over lines"))
        .expect(rt, "a label")
        .with_label(single.expect(rt, "the label on a line"))
        .expect(rt, "both labels")
}

/// Returns the configuration of the renderer.
fn renderer_config<'chars>(layout: Layout) -> Config<'chars> {
    Config {
        chars: Chars::ascii(),
        tab_width: 2,
        layout,
        ..Config::default()
    }
}

/// Returns the configuration of the view.
fn view_config<'chars>(layout: Layout) -> Config<'chars> {
    Config {
        start_context_lines: 1,
        end_context_lines: 0,
        before_label_lines: 1,
        after_label_lines: 1,
        layout,
        ..Config::default()
    }
}

/// Asserts the output of a multi-line label where the configurations of the view and of the
/// renderer differ in all that the output shows.
fn assert_rendered_by_two(
    rt: &impl Abort,
    file: &SimpleFile<&str, &str>,
    diagnostic: &Diagnostic<()>,
    (of_view, of_renderer, output): &(Layout, Layout, &str),
) {
    let alloc = *diagnostic.labels.allocator();
    let view_config = view_config(*of_view);
    let view = RichDiagnostic::new(diagnostic, &view_config);
    let rendered = render_alike(rt, alloc, &renderer_config(*of_renderer), view, file);
    assert_bytes(rt, rendered.text.as_slice(), output);
    rendered.assert_returned(rt, OK);
}

/// The layouts of the view and of the renderer, and the output.
static TWO_CONFIGURATIONS: [(Layout, Layout, &str); 2] = [
    (
        Layout::Unbroken,
        Layout::Classic,
        "error: \n\
        \x20  --> f:5:2\n\
        \x20  |  \n\
        \x204 |   d\n\
        \x205 | /   gh\n\
        \x20  |      - q\n\
        \x206 | | i\n\
        \x20  . |\n\
        \x209 | |   l\n\
        \x20  | \\---^ p\n\
        10 |   m\n\n",
    ),
    (
        Layout::Classic,
        Layout::Unbroken,
        "error: \n\
        \x20 --> f:5:2\n\
        \x20 |  \n\
        4 |   d\n\
        5 | /   gh\n\
        \x20 | |    - q\n\
        6 | | i\n\
        \x20 . |\n\
        9 | |   l\n\
        \x20 | \\---^ p\n\
        10 |   m\n\n",
    ),
];

/// The view's configuration chooses the lines and the padding width; the renderer's chooses the
/// characters, the tab stops and whether a lane goes on below its corner.
#[test]
fn two_configurations(rt: HostRuntime) {
    let source = "a\nb\nc\nd\n\tgh\ni\nj\nk\n\tl\nm";
    let file = SimpleFile::new(rt.alloc(), "f", source).expect(&rt, "the file");
    let diagnostic = with_multi_line_label(&rt, rt.alloc());
    for row in &TWO_CONFIGURATIONS {
        assert_rendered_by_two(&rt, &file, &diagnostic, row);
    }
}
