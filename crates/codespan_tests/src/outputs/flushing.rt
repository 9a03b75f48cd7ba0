//! Which calls flush.

use crate::asserts::assert_text;
use crate::outputs::rendering::one_file;
use crate::outputs::styles::{emit_by_each, in_style};
use codespan_reporting::diagnostic::{Diagnostic, Label};
use codespan_reporting::files::SimpleFiles;
use codespan_reporting::term::DisplayStyle;
use std::panic::Expect;
use std::process::Abort;
use test_writers::counting::CountingWriter;

/// Each style.
static STYLES: [DisplayStyle; 3] = [
    DisplayStyle::Rich,
    DisplayStyle::Medium,
    DisplayStyle::Short,
];

/// Asserts that no call that writes flushes in a style.
fn assert_no_flush(
    rt: &impl Abort,
    files: &SimpleFiles<&str, &str>,
    diagnostic: &Diagnostic<usize>,
    style: DisplayStyle,
) {
    let mut inner = CountingWriter::default();
    let returned = emit_by_each(&mut inner, &in_style(style), files, diagnostic);
    assert_text(rt, returned, "Ok");
    assert!(rt; inner.flushes == 0);
}

/// No call that emits flushes, in any style.
#[test]
fn no_emit_flushes(rt: HostRuntime) {
    let files = one_file(&rt, rt.alloc());
    let diagnostic = Diagnostic::error(rt.alloc())
        .with_label(Label::primary(rt.alloc(), 0, 0..1))
        .expect(&rt, "the diagnostic");
    for style in &STYLES {
        assert_no_flush(&rt, &files, &diagnostic, *style);
    }
}
