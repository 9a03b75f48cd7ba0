//! The calls of `codespan_styled` and `codespan_lsp` that allocate, each over a small text.
//!
//! No expected text rests on what these libraries return. The SVG document is the one that
//! another program makes by the rules of the format: `document` of `tools/gallery/inks.py`. The
//! others are by hand: the element and the text for a terminal by the tables of `docs/STYLED.md`
//! and `docs/TERMINAL.md`, the style sheet by `style_sheet` of `codespan_styled`, and the
//! diagnostic by `docs/LSP.md`.

use crate::outcome::{Outcome, judge_failure, judge_success, judge_value};
use crate::rendering::judge_string;
use codespan_base::diagnostic::{Diagnostic, Label, Severity};
use codespan_base::files::{Error, SimpleFile};
use codespan_base::term::{Config, DisplayStyle, Styles};
use codespan_lsp::{DiagnosticSeverity, LspDiagnostic, Position, Range, to_lsp_diagnostics};
use codespan_styled::terminal::safe_text;
use codespan_styled::{
    Run, StyleMark, StyledText, html_styles, styled_text, to_html, to_svg, to_terminal,
};
use std::alloc::{AllocError, Global};

/// A call of `codespan_styled` or `codespan_lsp`.
#[derive(Clone, Copy)]
pub enum StyledOrLspCall {
    /// `styled_text`
    StyledText,
    /// One that writes a styled text in this format
    Format(Format),
    /// `html_styles`
    HtmlStyles,
    /// `safe_text`
    SafeText,
    /// `to_lsp_diagnostics`
    ToLspDiagnostics,
}

/// A format that a styled text is written in.
#[derive(Clone, Copy)]
pub enum Format {
    /// That of `to_html`.
    Html,
    /// That of `to_svg`.
    Svg,
    /// That of `to_terminal`.
    Terminal,
}

/// The runs of the output of the diagnostic, in short style.
static RUNS: [(StyleMark, &str); 4] = [
    (StyleMark::Reset, "f&g:2:1: "),
    (StyleMark::Header(Severity::Error), "error"),
    (StyleMark::HeaderMessage, ": b\x07d"),
    (StyleMark::Reset, "\n"),
];

/// Its HTML element.
pub(crate) const HTML: &str =
    "<pre class=\"diagnostic\">\nf&amp;g:2:1: <span class=\"header-error\">error</span>\
                    <span class=\"header-message\">: bd</span>\n</pre>";

/// Its SVG document.
pub(crate) const SVG: &str =
    "<svg xmlns=\"http://www.w3.org/2000/svg\" width=\"186\" height=\"42\" \
                   viewBox=\"0 0 186 42\" \
                   font-family=\"DejaVu Sans Mono, Menlo, Consolas, monospace\" font-size=\"15\" \
                   fill=\"#e6edf3\">\n\
                   <rect width=\"100%\" height=\"100%\" rx=\"6\" fill=\"#161b22\"/>\n\
                   <text x=\"12\" y=\"25\" textLength=\"72\">f&amp;g:2:1:</text> \
                   <text x=\"93\" y=\"25\" textLength=\"45\" fill=\"#ff7b72\" font-weight=\"bold\">\
                   error</text>\
                   <text x=\"138\" y=\"25\" textLength=\"9\" font-weight=\"bold\">:</text> \
                   <text x=\"156\" y=\"25\" textLength=\"18\" font-weight=\"bold\">bd\
                   </text>\n\
                   </svg>\n";

/// Its text for a terminal.
pub(crate) const TERMINAL: &str =
    "f&g:2:1: \x1b[0m\x1b[1m\x1b[38;5;9merror\x1b[0m\x1b[1m: bd\x1b[0m\n";

/// The style sheet of no colors.
pub(crate) const CSS: &str = ".diagnostic .header-bug { }\n\
                   .diagnostic .header-error { }\n\
                   .diagnostic .header-warning { }\n\
                   .diagnostic .header-note { }\n\
                   .diagnostic .header-help { }\n\
                   .diagnostic .header-message { }\n\
                   .diagnostic .primary-label-bug { }\n\
                   .diagnostic .primary-label-error { }\n\
                   .diagnostic .primary-label-warning { }\n\
                   .diagnostic .primary-label-note { }\n\
                   .diagnostic .primary-label-help { }\n\
                   .diagnostic .secondary-label { }\n\
                   .diagnostic .line-number { }\n\
                   .diagnostic .source-border { }\n\
                   .diagnostic .note-bullet { }\n\
                   .diagnostic { direction: ltr; unicode-bidi: isolate-override; }\n\
                   .diagnostic .wide { display: inline-block; width: 2ch; }\n\
                   .diagnostic .wide-3 { display: inline-block; width: 3ch; }\n";

/// Makes a call and judges it.
///
/// # Errors
///
/// `OutOfMemory` if an allocation of the preparation fails.
pub fn judge_styled_or_lsp(alloc: Global, call: StyledOrLspCall) -> Result<Outcome, Error> {
    match call {
        StyledOrLspCall::StyledText => judge_styled(alloc),
        StyledOrLspCall::Format(format) => judge_format(alloc, format),
        StyledOrLspCall::HtmlStyles => {
            let returned = html_styles(alloc, &Styles::no_color());
            Ok(judge_string(&returned, CSS))
        }
        StyledOrLspCall::SafeText => {
            let returned = with_error(safe_text(alloc, "a\u{202e}b\x1b[c"));
            Ok(judge_string(&returned, "ab[c"))
        }
        StyledOrLspCall::ToLspDiagnostics => judge_lsp(alloc),
    }
}

/// Makes the call that writes the text of the runs in a format and judges it.
fn judge_format(alloc: Global, format: Format) -> Result<Outcome, Error> {
    let text = document_text(alloc)?;
    let returned = write_text(alloc, format, &text);
    let expected = match format {
        Format::Html => HTML,
        Format::Svg => SVG,
        Format::Terminal => TERMINAL,
    };
    Ok(judge_string(&returned, expected))
}

/// Writes a text in a format.
fn write_text(alloc: Global, format: Format, text: &StyledText) -> Result<String, Error> {
    let styles = Styles::default();
    match format {
        Format::Html => to_html(alloc, text),
        Format::Svg => to_svg(alloc, text, &styles),
        Format::Terminal => with_error(to_terminal(alloc, text, &styles)),
    }
}

/// Returns a result with the error of the library.
fn with_error(returned: Result<String, AllocError>) -> Result<String, Error> {
    Ok(returned?)
}

/// Returns the text of the runs.
fn document_text(alloc: Global) -> Result<StyledText, Error> {
    let mut runs = Vec::with_capacity(alloc, RUNS.len())?;
    for (style, text) in &RUNS {
        let text = String::from_str(alloc, text)?;
        runs.push(Run {
            style: *style,
            text,
        })?;
    }
    Ok(StyledText { runs })
}

/// Returns the file and the diagnostic.
fn document_diagnostic<'text>(
    alloc: Global,
) -> Result<(SimpleFile<&'text str, &'text str>, Diagnostic<()>), Error> {
    let file = SimpleFile::new(alloc, "f&g", "a\n𐐀b\n")?;
    let diagnostic = Diagnostic::error(alloc)
        .with_message("b\x07d")?
        .with_label(Label::primary(alloc, (), 2..6))?;
    Ok((file, diagnostic))
}

/// Makes a call of `styled_text` and judges it.
fn judge_styled(alloc: Global) -> Result<Outcome, Error> {
    let (file, diagnostic) = document_diagnostic(alloc)?;
    let expected = document_text(alloc)?;
    let config = Config {
        display_style: DisplayStyle::Short,
        ..Config::default()
    };
    match styled_text(alloc, &config, &file, &diagnostic) {
        Ok(text) => Ok(judge_success(are_same(&text, &expected))),
        Err(error) => Ok(judge_failure(&error, true)),
    }
}

/// Returns whether two texts have the same runs.
fn are_same(text: &StyledText, other: &StyledText) -> bool {
    text.runs.len() == other.runs.len()
        && text
            .runs
            .iter()
            .zip(&other.runs)
            .all(|(a, b)| a.style == b.style && a.text == b.text)
}

/// Makes a call of `to_lsp_diagnostics` and judges it.
fn judge_lsp(alloc: Global) -> Result<Outcome, Error> {
    let (file, diagnostic) = document_diagnostic(alloc)?;
    let mut expected = Vec::with_capacity(alloc, 1)?;
    expected.push(LspDiagnostic {
        file_id: (),
        range: Range {
            start: Position {
                line: 1,
                character: 0,
            },
            end: Position {
                line: 1,
                character: 2,
            },
        },
        severity: DiagnosticSeverity::Error,
        code: None,
        message: String::from_str(alloc, "b\x07d")?,
        related_information: Vec::new(alloc),
    })?;
    Ok(judge_value(&to_lsp_diagnostics(&file, &diagnostic), &expected))
}
