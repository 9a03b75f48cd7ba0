//! Whole documents, with HTML's own entities and with boxes of wide characters, and the runs of a
//! styled text.

use crate::asserts::{assert_row, assert_text};
use crate::outputs::styles::in_style;
use crate::styled::texts::text_of_runs;
use codespan_base::diagnostic::{Diagnostic, Label, LabelStyle, Severity};
use codespan_base::files::SimpleFile;
use codespan_base::term::{Config, DisplayStyle};
use codespan_styled::{StyleMark, StyledText, styled_text, to_html};
use std::alloc::Global;
use std::panic::Expect;
use std::process::Abort;

/// The runs of texts, by what is tested, and the document.
static DOCUMENTS: [(&str, &[(StyleMark, &str)], &str); 5] = [
    (
        "entities",
        &[(
            StyleMark::Label(Severity::Help, LabelStyle::Primary),
            "<script>alert(\"1\" & '2')</script>",
        )],
        "<pre class=\"diagnostic\">\n\
        <span class=\"primary-label-help\">\
        &lt;script&gt;alert(&quot;1&quot; &amp; &#39;2&#39;)&lt;/script&gt;\
        </span></pre>",
    ),
    (
        "excluded_characters",
        &[(
            StyleMark::Reset,
            "\0\x1b[31m\r\x7f\u{9b}\u{fdd0}\u{fffe}\u{10ffff}\t\x0c\u{a0}\u{fdcf}\u{10fffd}",
        )],
        "<pre class=\"diagnostic\">\n\
        [31m\u{fffd}\u{fffd}\u{fffd}\t\u{a0}\u{fdcf}\u{10fffd}</pre>",
    ),
    (
        "characters_that_are_not_safe",
        &[(
            LABEL,
            "\u{202e}<\u{2066}👩\u{200d}🚀\u{ad}\u{feff}\u{2028}\u{fff9}",
        )],
        "<pre class=\"diagnostic\">\n\
        <span class=\"primary-label-warning\">&lt;\
        <span class=\"wide\">👩</span><span class=\"wide\">🚀</span>\u{fffd}\u{fffd}\
        </span></pre>",
    ),
    (
        "wide_characters_of_a_label",
        &[(LABEL, "日本 x語")],
        "<pre class=\"diagnostic\">\n\
        <span class=\"primary-label-warning\">\
        <span class=\"wide\">日</span><span class=\"wide\">本</span> x<span class=\"wide\">語</span>\
        </span></pre>",
    ),
    (
        "cells_of_plain_text",
        &[(
            StyleMark::Reset,
            "\u{ff8a}\u{ff1c}<e\u{301}\u{1f980}\u{1f1e9}\u{17d8}\u{17d9}",
        )],
        "<pre class=\"diagnostic\">\n\
        \u{ff8a}<span class=\"wide\">\u{ff1c}</span>&lt;e\u{301}\
        <span class=\"wide\">\u{1f980}</span>\u{1f1e9}\
        <span class=\"wide-3\">\u{17d8}</span>\u{17d9}</pre>",
    ),
];

#[test]
fn documents(rt: HostRuntime) {
    for (name, runs, want) in &DOCUMENTS {
        let text = text_of_runs(&rt, rt.alloc(), runs);
        let html = to_html(rt.alloc(), &text).expect(&rt, "the document");
        assert_row(&rt, name, html.as_str(), want);
    }
}

/// Returns the styled text of a diagnostic.
fn styled(
    rt: &impl Abort,
    config: &Config<'_>,
    file: &SimpleFile<&str, &str>,
    diagnostic: &Diagnostic<()>,
) -> StyledText {
    styled_text(*diagnostic.labels.allocator(), config, file, diagnostic).expect(rt, "the text")
}

/// Returns a diagnostic with a label over the value of a setting.
fn invalid_value(rt: &impl Abort, alloc: Global) -> Diagnostic<()> {
    Diagnostic::error(alloc)
        .with_code("E0001")
        .expect(rt, "the code")
        .with_message("invalid value for `retries`")
        .expect(rt, "the message")
        .with_label(Label::primary(alloc, (), 10..14))
        .expect(rt, "the label")
}

#[test]
fn a_short_diagnostic(rt: HostRuntime) {
    let source = "retries = many\n";
    let files = SimpleFile::new(rt.alloc(), "a & b.conf", source).expect(&rt, "the file");
    let diagnostic = invalid_value(&rt, rt.alloc());
    let text = styled(&rt, &in_style(DisplayStyle::Short), &files, &diagnostic);
    let html = to_html(rt.alloc(), &text).expect(&rt, "the document");
    let want = "<pre class=\"diagnostic\">\n\
                a &amp; b.conf:1:11: <span class=\"header-error\">error[E0001]</span>\
                <span class=\"header-message\">: invalid value for `retries`</span>\n</pre>";
    assert_text(&rt, html.as_str(), want);
}

/// Returns a diagnostic with a label over wide characters.
fn wide(rt: &impl Abort, alloc: Global) -> Diagnostic<()> {
    let label = Label::primary(alloc, (), 0..9).with_message("名");
    Diagnostic::warning(alloc)
        .with_message("wide")
        .expect(rt, "the message")
        .with_label(label.expect(rt, "the label"))
        .expect(rt, "the diagnostic")
}

/// The style of its label.
const LABEL: StyleMark = StyleMark::Label(Severity::Warning, LabelStyle::Primary);

/// The runs of its output in rich style, by hand from the definitions: the rows are those of
/// `rich_rows`, each row's text and style marks those of `stream_of`, and a style mark starts a
/// run.
static RUNS: [(StyleMark, &str); 20] = [
    (StyleMark::Reset, ""),
    (StyleMark::Header(Severity::Warning), "warning"),
    (StyleMark::HeaderMessage, ": wide"),
    (StyleMark::Reset, "\n  "),
    (StyleMark::SourceBorder, "┌─"),
    (StyleMark::Reset, " wide.txt:1:1\n  "),
    (StyleMark::SourceBorder, "│"),
    (StyleMark::Reset, "\n"),
    (StyleMark::LineNumber, "1"),
    (StyleMark::Reset, " "),
    (StyleMark::SourceBorder, "│"),
    (StyleMark::Reset, " "),
    (LABEL, "日本語"),
    (StyleMark::Reset, " = 1\n  "),
    (StyleMark::SourceBorder, "│"),
    (StyleMark::Reset, " "),
    (LABEL, "^^^^^^"),
    (StyleMark::Reset, " "),
    (LABEL, "名"),
    (StyleMark::Reset, "\n\n"),
];

/// Asserts that a text has these runs.
fn assert_runs(rt: &impl Abort, text: &StyledText, expected: &[(StyleMark, &str)]) {
    assert!(rt; text.runs.len() == expected.len());
    for (run, (style, part)) in text.runs.iter().zip(expected) {
        assert_text(rt, run.text.as_str(), part);
        assert!(rt; run.style == *style, "the style of {part:?}");
    }
}

#[test]
fn runs_of_a_rich_diagnostic(rt: HostRuntime) {
    let files = SimpleFile::new(rt.alloc(), "wide.txt", "日本語 = 1\n").expect(&rt, "the file");
    let diagnostic = wide(&rt, rt.alloc());
    let text = styled(&rt, &Config::default(), &files, &diagnostic);
    assert_runs(&rt, &text, &RUNS);
}
