//! Worked outputs with a greatest width.

mod characters;
mod labels;
mod lines;

use crate::outputs::rendering::{OK, assert_renders};
use codespan_reporting::diagnostic::{Diagnostic, Label, LabelStyle};
use codespan_reporting::files::SimpleFile;
use codespan_reporting::term::{Chars, Config, Layout, emit_into_string};
use std::alloc::Global;
use std::ops::Range;
use std::panic::Expect;
use std::process::Abort;

/// A worked output: an error with the message `m` over a file `f`, by a configuration.
pub struct Row {
    /// The name.
    name: &'static str,
    /// The width that lines have to fit, if they have to.
    max_width: Option<usize>,
    /// The layout.
    layout: Layout,
    /// Whether the characters are those of ASCII.
    is_ascii: bool,
    /// How many lines are shown before a label, and after it.
    context_lines: usize,
    /// The source of the file.
    source: &'static str,
    /// The labels: of each its style, its range in bytes, and its message.
    labels: &'static [(LabelStyle, Range<usize>, &'static str)],
    /// The output.
    output: &'static str,
}

/// A row in the defaults, over an empty file.
const EMPTY: Row = Row {
    name: "",
    max_width: None,
    layout: Layout::Classic,
    is_ascii: false,
    context_lines: 0,
    source: "",
    labels: &[],
    output: "",
};

impl Row {
    /// Returns the configuration.
    fn config(&self) -> Config<'static> {
        Config {
            max_width: self.max_width,
            layout: self.layout,
            before_label_lines: self.context_lines,
            after_label_lines: self.context_lines,
            chars: if self.is_ascii {
                Chars::ascii()
            } else {
                Chars::box_drawing()
            },
            ..Config::default()
        }
    }

    /// Returns the diagnostic.
    fn diagnostic(&self, rt: &impl Abort, alloc: Global) -> Diagnostic<()> {
        let mut diagnostic = Diagnostic::error(alloc)
            .with_message("m")
            .expect(rt, "the message");
        for (style, range, message) in self.labels {
            let label = Label::new(alloc, *style, (), range.start..range.end)
                .with_message(*message)
                .expect(rt, "the label");
            diagnostic = diagnostic.with_label(label).expect(rt, "the labels");
        }
        diagnostic
    }
}

/// Tests rows, each by every call that renders.
fn check_rows(rt: &impl Abort, alloc: Global, rows: &[Row]) {
    for row in rows {
        let file = SimpleFile::new(alloc, "f", row.source).expect(rt, "the file");
        let diagnostic = row.diagnostic(rt, alloc);
        let config = row.config();
        let text = emit_into_string(&config, &file, &diagnostic).expect(rt, "the output");
        assert_eq!(rt; (row.name, text.as_str()), (row.name, row.output));
        assert_renders(rt, &config, &file, &diagnostic, (row.output, OK));
    }
}

/// A label of a long line is shown, with as much around it as fits.
#[test]
fn worked_labels(rt: HostRuntime) {
    check_rows(&rt, rt.alloc(), &labels::ROWS);
}

/// Characters count the cells that they take.
#[test]
fn worked_characters(rt: HostRuntime) {
    check_rows(&rt, rt.alloc(), &characters::ROWS);
}

/// Each line of a snippet is shortened by itself.
#[test]
fn worked_lines(rt: HostRuntime) {
    check_rows(&rt, rt.alloc(), &lines::ROWS);
}
