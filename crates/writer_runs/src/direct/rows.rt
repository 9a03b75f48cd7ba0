//! Rows that are rendered by direct calls of `Renderer`. Their locus is `f.txt:1:1`.

mod lines;

use crate::direct::{Line, RowCall};
use crate::worked_output::ExpectedColors;
use codespan_base::diagnostic::LabelStyle::Primary;
use codespan_base::diagnostic::Severity;
use codespan_renderer::term::renderer::MultiLabel;

/// The rows that one direct call writes.
#[derive(Clone, Copy)]
pub struct DirectRow<'text> {
    /// Their name: that of the output of `codespan_worked` that has them, or of a small case; after
    /// a comma, which of its rows.
    pub name: &'text str,
    /// The call.
    pub call: RowCall<'text>,
    /// Their text.
    pub text: &'text str,
    /// What is expected of their text in escape sequences.
    pub colors: ExpectedColors<'text>,
}

/// Rows of whose escape sequences nothing is expected.
const ROW: DirectRow<'static> = DirectRow {
    name: "",
    call: RowCall::Empty,
    text: "",
    colors: ExpectedColors::End(""),
};

/// The first line of a text, without labels or lanes.
const LINE: Line<'static> = Line {
    number: 1,
    text: "",
    tab_width: 4,
    severity: Severity::Error,
    labels: &[],
    num_multi_labels: 0,
    multi_labels: &[],
};

/// The rows before a snippet.
static HEADERS: [DirectRow<'static>; 5] = [
    DirectRow {
        name: "report_short_and_medium",
        call: RowCall::LocatedHeader(None, "bad"),
        text: "f.txt:1:1: error: bad\n",
        ..ROW
    },
    DirectRow {
        name: "report_short_and_medium, code",
        call: RowCall::LocatedHeader(Some("S3"), "bad number"),
        text: "f.txt:1:1: error[S3]: bad number\n",
        ..ROW
    },
    DirectRow {
        name: "medium_and_short, empty code",
        call: RowCall::Header(Some(""), "where did my errorcode go?"),
        text: "error: where did my errorcode go?\n",
        ..ROW
    },
    DirectRow {
        name: "bare_bug",
        call: RowCall::Empty,
        text: "\n",
        ..ROW
    },
    DirectRow {
        name: "report_run",
        call: RowCall::Start,
        text: "  ┌─ f.txt:1:1\n",
        ..ROW
    },
];

/// Empty rows and breaks.
static BREAKS: [DirectRow<'static>; 4] = [
    DirectRow {
        name: "report_run, empty row",
        call: RowCall::SnippetEmpty {
            padding: 1,
            num_multi_labels: 0,
        },
        text: "  │\n",
        ..ROW
    },
    DirectRow {
        name: "crossing_lanes, empty row",
        call: RowCall::SnippetEmpty {
            padding: 1,
            num_multi_labels: 2,
        },
        text: "  │    \n",
        ..ROW
    },
    DirectRow {
        name: "fills_and_breaks",
        call: RowCall::Break {
            padding: 1,
            num_multi_labels: 0,
            multi_labels: &[],
        },
        text: "  ·\n",
        ..ROW
    },
    DirectRow {
        name: "mismatched_types, break",
        call: RowCall::Break {
            padding: 2,
            num_multi_labels: 1,
            multi_labels: &[(0, Primary, MultiLabel::Left)],
        },
        text: "   · │\n",
        ..ROW
    },
];

/// Notes.
static NOTES: [DirectRow<'static>; 3] = [
    DirectRow {
        name: "script_run",
        call: RowCall::Note(1, "why"),
        text: "  = why\n",
        ..ROW
    },
    DirectRow {
        name: "mismatched_types, note",
        call: RowCall::Note(2, "note:\texpected type `()`\n\tfound type `{integer}`"),
        text: "   = note:\texpected type `()`\n     \tfound type `{integer}`\n",
        ..ROW
    },
    DirectRow {
        name: "note_pieces",
        call: RowCall::Note(0, "a\r\n\nb\n"),
        text: " = a\n   \n   b\n",
        ..ROW
    },
];

/// Rows in colors.
static COLORED: [DirectRow<'static>; 2] = [
    DirectRow {
        name: "coloured_header",
        call: RowCall::Header(None, "m"),
        text: "error: m\n",
        colors: ExpectedColors::Whole("\x1b[0m\x1b[1m\x1b[38;5;9merror\x1b[0m\x1b[1m: m\x1b[0m\n"),
    },
    DirectRow {
        name: "coloured_label",
        call: RowCall::Source(Line {
            text: "abc",
            labels: &[(Primary, 1..2, "m")],
            ..LINE
        }),
        text: "1 │ abc\n  │  ^ m\n",
        colors: ExpectedColors::Whole(
            "\x1b[0m\x1b[36m1\x1b[0m \x1b[0m\x1b[36m│\x1b[0m a\x1b[0m\x1b[31mb\x1b[0mc\n\
             \x20 \x1b[0m\x1b[36m│\x1b[0m  \x1b[0m\x1b[31m^\x1b[0m \x1b[0m\x1b[31mm\x1b[0m\n",
        ),
    },
];

/// Returns the rows.
pub fn rows() -> [&'static [DirectRow<'static>]; 7] {
    [
        &HEADERS,
        lines::with_labels(),
        lines::with_tabs(),
        lines::with_lanes(),
        &BREAKS,
        &NOTES,
        &COLORED,
    ]
}
