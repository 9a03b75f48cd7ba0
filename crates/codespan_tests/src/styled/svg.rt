//! Documents, as another program made them by the rules of the format, in Python:
//! `document` of `tools/gallery/inks.py`.

use crate::asserts::{assert_row, assert_text};
use crate::styled::texts::text_of_runs;
use codespan_base::diagnostic::{LabelStyle, Severity};
use codespan_base::term::Styles;
use codespan_styled::{StyleMark, to_svg};
use std::panic::Expect;

/// The runs of a text.
static RUNS: [(StyleMark, &str); 7] = [
    (StyleMark::Reset, ""),
    (StyleMark::Label(Severity::Error, LabelStyle::Primary), "a<"),
    (StyleMark::Label(Severity::Bug, LabelStyle::Primary), "b"),
    (StyleMark::Reset, "  \n  "),
    (StyleMark::Header(Severity::Error), "世e\u{301}"),
    (StyleMark::Reset, " & \"\x1b[\x07\r\u{fffe}"),
    (StyleMark::SourceBorder, "│"),
];

#[test]
fn inks_and_cells(rt: HostRuntime) {
    let text = text_of_runs(&rt, rt.alloc(), &RUNS);
    let want = "<svg xmlns=\"http://www.w3.org/2000/svg\" width=\"132\" height=\"42\" \
                viewBox=\"0 0 132 42\" \
                font-family=\"DejaVu Sans Mono, Menlo, Consolas, monospace\" font-size=\"15\" \
                fill=\"#e6edf3\">\n\
                <rect width=\"100%\" height=\"100%\" rx=\"6\" fill=\"#161b22\"/>\n\
                <text x=\"12\" y=\"25\" textLength=\"27\" fill=\"#ff7b72\">a&lt;b</text>  \n  \
                <text x=\"30\" y=\"43\" textLength=\"18\" fill=\"#ff7b72\" font-weight=\"bold\">世\
                </text>\
                <text x=\"48\" y=\"43\" textLength=\"9\" fill=\"#ff7b72\" font-weight=\"bold\">\
                e\u{301}</text> \
                <text x=\"66\" y=\"43\" textLength=\"9\">&amp;</text> \
                <text x=\"84\" y=\"43\" textLength=\"27\">\"[\u{fffd}</text>\
                <text x=\"111\" y=\"43\" textLength=\"9\" fill=\"#56d4dd\">│</text></svg>\n";
    let svg = to_svg(rt.alloc(), &text, &Styles::default()).expect(&rt, "the document");
    assert_text(&rt, svg.as_str(), want);
}

/// What each document begins with, but for its size.
const HEAD: &str = "font-family=\"DejaVu Sans Mono, Menlo, Consolas, monospace\" \
                    font-size=\"15\" fill=\"#e6edf3\">\n\
                    <rect width=\"100%\" height=\"100%\" rx=\"6\" fill=\"#161b22\"/>\n";

/// Plain texts of one row, by what is tested, the width of the document, and its texts.
static ROWS: [(&str, &str, u8, &str); 3] = [
    (
        "tab_leads_to_the_next_stop",
        "a\tb\n",
        105,
        "<text x=\"12\" y=\"25\" textLength=\"9\">a</text>\t\
        <text x=\"84\" y=\"25\" textLength=\"9\">b</text>\n",
    ),
    (
        "letters_of_right_to_left_scripts_are_alone_with_their_marks",
        "a ש\u{5b8}לc\u{660}\n",
        78,
        "<text x=\"12\" y=\"25\" textLength=\"9\">a</text> \
        <text x=\"30\" y=\"25\" textLength=\"9\">ש\u{5b8}</text>\
        <text x=\"39\" y=\"25\" textLength=\"9\">ל</text>\
        <text x=\"48\" y=\"25\" textLength=\"9\">c</text>\
        <text x=\"57\" y=\"25\" textLength=\"9\">\u{660}</text>\n",
    ),
    (
        "unsafe_characters_take_no_cell",
        "a\x1b\u{200d}\u{202e}b\u{fdd0}\u{2028}c\n",
        69,
        "<text x=\"12\" y=\"25\" textLength=\"45\">ab\u{fffd}\u{fffd}c</text>\n",
    ),
];

#[test]
fn rows(rt: HostRuntime) {
    for (name, row, width, texts) in &ROWS {
        let text = text_of_runs(&rt, rt.alloc(), &[(StyleMark::Reset, row)]);
        let want = format!(in rt.alloc();
            "<svg xmlns=\"http://www.w3.org/2000/svg\" width=\"{width}\" height=\"42\" \
             viewBox=\"0 0 {width} 42\" {HEAD}{texts}</svg>\n"
        )
        .expect(&rt, "the expected document");
        let svg = to_svg(rt.alloc(), &text, &Styles::default()).expect(&rt, "the document");
        assert_row(&rt, name, svg.as_str(), want.as_str());
    }
}
