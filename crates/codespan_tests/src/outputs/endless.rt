//! A tab of the greatest `usize`.

use crate::asserts::assert_stopped;
use crate::outputs::rendering::render_styled;
use codespan_reporting::diagnostic::{Diagnostic, Label};
use codespan_reporting::files::SimpleFile;
use codespan_reporting::term::{Config, NoColor, RichDiagnostic, emit_to_io_write};
use std::alloc::Global;
use std::panic::Expect;
use std::process::Abort;
use test_writers::stopping::{Stop, StoppingWriter};

/// Returns a configuration whose tabs have the greatest width.
fn widest_tabs() -> Config<'static> {
    Config {
        tab_width: usize::MAX,
        ..Config::default()
    }
}

/// Returns a diagnostic with a label at the character after a tab.
fn after_tab(rt: &impl Abort, alloc: Global) -> Diagnostic<()> {
    let label = Label::primary(alloc, (), 1..2)
        .with_message("m")
        .expect(rt, "the label");
    Diagnostic::error(alloc)
        .with_label(label)
        .expect(rt, "the diagnostic")
}

/// Returns a file with a tab before a character.
fn with_tab(rt: &impl Abort, alloc: Global) -> SimpleFile<&'static str, &'static str> {
    SimpleFile::new(alloc, "f", "\tx").expect(rt, "the file")
}

/// What is written of a tab of the greatest width by 40 writes of a byte each.
const PREFIX: &str = "error: \n  ┌─ f:1:2\n  │\n1 │      ";

/// A tab of the greatest width is written as spaces until the writer fails.
#[test]
fn endless_tab(rt: HostRuntime) {
    let file = with_tab(&rt, rt.alloc());
    let diagnostic = after_tab(&rt, rt.alloc());
    let mut inner = StoppingWriter::new(rt.alloc(), 1, 40, Stop::Fails);
    let failed = emit_to_io_write(&mut inner, &widest_tabs(), &file, &diagnostic);
    assert_stopped(&rt, &failed, inner.text.as_slice(), PREFIX);
}

/// The same over a writer of styles without color.
#[test]
fn endless_tab_without_color(rt: HostRuntime) {
    let file = with_tab(&rt, rt.alloc());
    let diagnostic = after_tab(&rt, rt.alloc());
    let config = widest_tabs();
    let view = RichDiagnostic::new(&diagnostic, &config);
    let inner = NoColor::new(StoppingWriter::new(rt.alloc(), 1, 40, Stop::Fails));
    let (without_color, failed) = render_styled(inner, &config, view, &file);
    let inner = without_color.into_inner();
    assert_stopped(&rt, &failed, inner.text.as_slice(), PREFIX);
}
