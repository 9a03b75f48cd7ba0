//! The output of a hostile source on a terminal, in HTML and in SVG: the same characters in each,
//! and the caret under its character. The outputs are by hand, from the rules of the formats; the
//! SVG document is also the one that `document` of `tools/gallery/inks.py` makes.

use crate::asserts::assert_text;
use codespan_base::diagnostic::{Diagnostic, Label};
use codespan_base::files::SimpleFile;
use codespan_base::term::{Config, Styles};
use codespan_styled::{StyledText, styled_text, to_html, to_svg, to_terminal};
use std::alloc::Global;
use std::panic::Expect;
use std::process::Abort;

/// A source with an escape sequence, an override, a soft hyphen and a line separator before `z`,
/// of which the first three take no cell and the last one takes one.
const SOURCE: &str = "x\x1b[31m\u{202e}=\u{ad}y\u{2028}z\n";

/// Returns the styled text of an error at the `z` of the source.
fn hostile(rt: &impl Abort, alloc: Global) -> StyledText {
    let file = SimpleFile::new(alloc, "h.txt", SOURCE).expect(rt, "the file");
    let label = Label::primary(alloc, (), 16..17).with_message("here");
    let diagnostic = Diagnostic::error(alloc)
        .with_message("hostile")
        .expect(rt, "the message")
        .with_label(label.expect(rt, "the label"))
        .expect(rt, "the diagnostic");
    styled_text(alloc, &Config::default(), &file, &diagnostic).expect(rt, "the text")
}

#[test]
fn on_a_terminal(rt: HostRuntime) {
    let want = "\x1b[0m\x1b[1m\x1b[38;5;9merror\x1b[0m\x1b[1m: hostile\x1b[0m\n  \
                \x1b[0m\x1b[36m┌─\x1b[0m h.txt:1:12\n  \
                \x1b[0m\x1b[36m│\x1b[0m\n\
                \x1b[0m\x1b[36m1\x1b[0m \x1b[0m\x1b[36m│\x1b[0m x[31m=y\u{fffd}\
                \x1b[0m\x1b[31mz\x1b[0m\n  \
                \x1b[0m\x1b[36m│\x1b[0m         \
                \x1b[0m\x1b[31m^\x1b[0m \x1b[0m\x1b[31mhere\x1b[0m\n\n";
    let text = hostile(&rt, rt.alloc());
    let output = to_terminal(rt.alloc(), &text, &Styles::default()).expect(&rt, "the output");
    assert_text(&rt, output.as_str(), want);
}

#[test]
fn in_html(rt: HostRuntime) {
    let want = "<pre class=\"diagnostic\">\n\
                <span class=\"header-error\">error</span>\
                <span class=\"header-message\">: hostile</span>\n  \
                <span class=\"source-border\">┌─</span> h.txt:1:12\n  \
                <span class=\"source-border\">│</span>\n\
                <span class=\"line-number\">1</span> \
                <span class=\"source-border\">│</span> x[31m=y\u{fffd}\
                <span class=\"primary-label-error\">z</span>\n  \
                <span class=\"source-border\">│</span>         \
                <span class=\"primary-label-error\">^</span> \
                <span class=\"primary-label-error\">here</span>\n\n</pre>";
    let html = to_html(rt.alloc(), &hostile(&rt, rt.alloc())).expect(&rt, "the element");
    assert_text(&rt, html.as_str(), want);
}

#[test]
fn in_svg(rt: HostRuntime) {
    let want = "<svg xmlns=\"http://www.w3.org/2000/svg\" width=\"186\" height=\"132\" \
                viewBox=\"0 0 186 132\" \
                font-family=\"DejaVu Sans Mono, Menlo, Consolas, monospace\" font-size=\"15\" \
                fill=\"#e6edf3\">\n\
                <rect width=\"100%\" height=\"100%\" rx=\"6\" fill=\"#161b22\"/>\n\
                <text x=\"12\" y=\"25\" textLength=\"45\" fill=\"#ff7b72\" font-weight=\"bold\">\
                error</text>\
                <text x=\"57\" y=\"25\" textLength=\"9\" font-weight=\"bold\">:</text> \
                <text x=\"75\" y=\"25\" textLength=\"63\" font-weight=\"bold\">hostile</text>\n  \
                <text x=\"30\" y=\"43\" textLength=\"18\" fill=\"#56d4dd\">┌─</text> \
                <text x=\"57\" y=\"43\" textLength=\"90\">h.txt:1:12</text>\n  \
                <text x=\"30\" y=\"61\" textLength=\"9\" fill=\"#56d4dd\">│</text>\n\
                <text x=\"12\" y=\"79\" textLength=\"9\" fill=\"#56d4dd\">1</text> \
                <text x=\"30\" y=\"79\" textLength=\"9\" fill=\"#56d4dd\">│</text> \
                <text x=\"48\" y=\"79\" textLength=\"72\">x[31m=y\u{fffd}</text>\
                <text x=\"120\" y=\"79\" textLength=\"9\" fill=\"#ff7b72\">z</text>\n  \
                <text x=\"30\" y=\"97\" textLength=\"9\" fill=\"#56d4dd\">│</text>         \
                <text x=\"120\" y=\"97\" textLength=\"9\" fill=\"#ff7b72\">^</text> \
                <text x=\"138\" y=\"97\" textLength=\"36\" fill=\"#ff7b72\">here</text>\n\n\
                </svg>\n";
    let text = hostile(&rt, rt.alloc());
    let svg = to_svg(rt.alloc(), &text, &Styles::default()).expect(&rt, "the document");
    assert_text(&rt, svg.as_str(), want);
}
