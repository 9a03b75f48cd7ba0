//! Worked rows of suggestions as a diagnostic shows them.

mod edits_of_lines;
mod ends_and_contexts;
mod several;

use crate::suggestions::{EditRow, FileRow, files_of, suggestion_of};
use codespan_base::diagnostic::text::display_text;
use codespan_base::term::{Ansi, Chars, Config, DisplayStyle, Styles, StylesWriter};
use codespan_suggestions::{
    Suggestion, emit_suggestion_into_string, emit_suggestion_to_write_style,
};
use std::alloc::Global;
use std::panic::Expect;
use std::process::Abort;

/// A worked row: a suggestion, how it is rendered, and its output, or the text of its error after
/// `error: `.
#[derive(Clone, Copy)]
pub(crate) struct Row {
    name: &'static str,
    message: &'static str,
    files: &'static [FileRow],
    edits: &'static [EditRow],
    /// How many lines before a changed one are shown, and how many after it.
    context: (usize, usize),
    style: DisplayStyle,
    expected: &'static str,
}

impl Row {
    /// Returns the suggestion.
    fn suggestion(&self, rt: &impl Abort, alloc: Global) -> Suggestion<usize> {
        suggestion_of(rt, alloc, self.edits)
            .with_message(self.message)
            .expect(rt, "the message")
    }

    /// Returns the output, or the text of the error.
    fn rendered(&self, rt: &impl Abort, alloc: Global, chars: Chars<'static>) -> String {
        let config = Config {
            display_style: self.style,
            before_label_lines: self.context.0,
            after_label_lines: self.context.1,
            chars,
            ..Config::default()
        };
        let files = files_of(rt, alloc, self.files);
        let suggestion = self.suggestion(rt, alloc);
        match emit_suggestion_into_string(&config, &files, &suggestion) {
            Ok(text) => text,
            Err(error) => {
                let shown = display_text(alloc, error).expect(rt, "a text");
                format!(in alloc; "error: {}\n", shown.as_str()).expect(rt, "memory")
            }
        }
    }
}

/// The output of `replacement_color`, with the escape sequences of the default styles.
static COLORED: &str =
    "\u{1b}[0m\u{1b}[1m\u{1b}[38;5;14mhelp\u{1b}[0m\u{1b}[1m: borrow\u{1b}[0m\n    \u{1b}[0m\u{1b}[36m┌─\u{1b}[0m f.rs:1:5\n    \u{1b}[0m\u{1b}[36m│\u{1b}[0m\n\u{1b}[0m\u{1b}[36m1\u{1b}[0m   \u{1b}[0m\u{1b}[36m│\u{1b}[0m \u{1b}[0m\u{1b}[31m- foo(y)\u{1b}[0m\n  \u{1b}[0m\u{1b}[36m1\u{1b}[0m \u{1b}[0m\u{1b}[36m│\u{1b}[0m \u{1b}[0m\u{1b}[32m+ foo(&y)\u{1b}[0m\n\n";

/// Tests rows.
fn check_rows(rt: &impl Abort, alloc: Global, rows: &[Row]) {
    for row in rows {
        let outcome = row.rendered(rt, alloc, Chars::box_drawing());
        assert_eq!(rt; (row.name, outcome.as_str()), (row.name, row.expected));
    }
}

#[test]
fn worked_edits_of_lines(rt: HostRuntime) {
    check_rows(&rt, rt.alloc(), &edits_of_lines::ROWS);
}

#[test]
fn worked_ends_and_contexts(rt: HostRuntime) {
    check_rows(&rt, rt.alloc(), &ends_and_contexts::ROWS);
}

#[test]
fn worked_edits_and_files(rt: HostRuntime) {
    check_rows(&rt, rt.alloc(), &several::ROWS);
}

/// The characters are those of the configuration.
#[test]
fn replacement_ascii(rt: HostRuntime) {
    let row = Row {
        name: "replacement_ascii",
        message: "borrow the value",
        files: &[("src/main.rs", "fn main() {\n    let x = foo(y);\n}\n")],
        edits: &[(0, 28, 29, "&y")],
        context: (0, 0),
        style: DisplayStyle::Rich,
        expected: "help: borrow the value\n    --> src/main.rs:2:17\n    |\n2   | -     let x = foo(y);\n  2 | +     let x = foo(&y);\n\n",
    };
    let outcome = row.rendered(&rt, rt.alloc(), Chars::ascii());
    assert_eq!(&rt; outcome.as_str(), row.expected);
}

/// Removed lines have the mark of a primary label of an error, and added ones that of a note.
#[test]
fn replacement_color(rt: HostRuntime) {
    let files = files_of(&rt, rt.alloc(), &[("f.rs", "foo(y)\n")]);
    let suggestion = suggestion_of(&rt, rt.alloc(), &[(0, 4, 5, "&y")])
        .with_message("borrow")
        .expect(&rt, "the message");
    let styles = Styles::default();
    let mut colored = StylesWriter::new(Ansi::new(Vec::new(rt.alloc())), &styles);
    let config = Config::default();
    emit_suggestion_to_write_style(&mut colored, &config, &files, &suggestion).expect(
        &rt, "memory",
    );
    let text = String::from_utf8(colored.into_inner().into_inner()).expect(&rt, "a text");
    assert_eq!(&rt; text.as_str(), COLORED);
}
