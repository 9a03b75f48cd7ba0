//! Styled text as an HTML element.

ghost use Rattle.std.specs.Prelude.{◌≡◌, ◌++◌, [], IfErr, IfOk, OnOk, Some, codes};
ghost use Rattle.std.specs.Prelude.{flat_map, map, string_bytes};
ghost use Rattle.std.specs.Str.{chars};
ghost use Rattle.codespan_styled.specs.Html.{box_class, escaped_text, html_cell, html_character};
ghost use Rattle.codespan_styled.specs.Html.{html_element, html_run, is_wide, span_tag};
ghost use Rattle.codespan_styled.specs.Html.{style_class};
ghost use Rattle.codespan_styled.specs.HtmlReading.{element_tokens, open_after, read_tokens};
ghost use Rattle.codespan_styled.specs.HtmlReading.{text_of_html};
ghost use Rattle.codespan_styled.specs.Runs.{joined, run_characters, run_view, styled_runs};
ghost use Rattle.codespan_styled.specs.SafeText.{AreInColumns, safe_text};

use crate::cells::cells;
use crate::safe::shown_character;
use crate::text::{Run, StyledText};
use codespan_base::diagnostic::{LabelStyle, Severity};
use codespan_base::files::Error;
use codespan_base::term::config::style_mark::StyleMark;
use std::alloc::{AllocError, Global};

/// Returns an HTML element of styled text: a `pre` of the class `diagnostic`, and in it
/// a `span` for each run that is not plain, with the class of its style.
///
/// The classes are named as the fields of `Styles`: `header-error`, `header-message`,
/// `primary-label-error`, `secondary-label`, `line-number`, `source-border`, `note-bullet`, and the
/// like of the other severities. After the tag of the `pre` is a newline, which HTML does not show,
/// so that a text that begins with a newline keeps it.
///
/// Each wide character, which occupies two cells, is in a `span` of its own, of the class `wide`;
/// so is the one character that occupies three, U+17D8, with the class `wide-3`. By the rules of
/// [`html_styles`](crate::html_styles) this `span` is a box of so many cells, so that carets are
/// under their characters even where a font's wide characters are not two cells wide.
///
/// A text can neither start nor end a tag, an attribute or an entity: each of the characters `&`,
/// `<`, `>`, `"` and `'` becomes an entity. The element shows the same characters as a terminal
/// does: those that are not safe are left out, or replaced (see
/// [`is_safe`](crate::terminal::is_safe)). With its tags taken out and its entities read back the
/// element is the [`safe_text`](crate::terminal::safe_text) of the text.
///
/// # Errors
///
/// [`Error::OutOfMemory`]: an allocation fails.
///
/// # Example
///
/// ```rust
/// let text = styled_text(alloc, &Config::default(), &files, &diagnostic)?;
/// let html = to_html(alloc, &text)?;
/// ```
pub fn to_html(alloc: Global, text: &StyledText) -> Result<String, Error>
    ensures element { IfOk result (λ html.
        string_bytes html ≡ html_element (styled_runs text.now)) }
    ensures tokens { IfOk result (λ html.
        read_tokens (string_bytes html) ≡ element_tokens (styled_runs text.now)) }
    ensures balanced { IfOk result (λ html.
        open_after (read_tokens (string_bytes html)) ≡ Some []) }
    ensures text { IfOk result (λ html.
        text_of_html (string_bytes html) ≡ safe_text (joined (styled_runs text.now))) }
    ensures columns { IfOk result (λ html.
        AreInColumns (chars (text_of_html (string_bytes html)))
        (run_characters (styled_runs text.now))) }
    ensures failed { IfErr result (λ error. error ≡ Error.OutOfMemory) }
{
    let mut html = String::new(alloc);
    html.push_str("<pre class=\"diagnostic\">\n")?;
    push_runs(&mut html, text.runs.as_slice())?;
    html.push_str("</pre>")?;
    Ok(html)
}

/// Appends runs.
fn push_runs(html: &mut String, runs: &[Run]) -> Result<(), AllocError>
    ensures { OnOk result (string_bytes html.new
        ≡ string_bytes html.old ++ flat_map html_run (map run_view runs.now)) }
{
    for run in runs {
        push_run(html, run)?;
    }
    Ok(())
}

/// Appends a run.
fn push_run(html: &mut String, run: &Run) -> Result<(), AllocError>
    ensures { OnOk result (string_bytes html.new
        ≡ string_bytes html.old ++ html_run (run_view run.now)) }
{
    if run.is_plain() {
        return push_text(html, run.text.as_str());
    }
    push_span_tag(html, style_class(run.style))?;
    push_text(html, run.text.as_str())?;
    push_span_end(html)?;
    Ok(())
}

/// Appends the tag that starts a `span` of a class.
fn push_span_tag(html: &mut String, class: &str) -> Result<(), AllocError>
    ensures { OnOk result (string_bytes html.new ≡ string_bytes html.old ++ span_tag class.now) }
{
    html.push_str("<span class=\"")?;
    html.push_str(class)?;
    html.push_str("\">")?;
    Ok(())
}

/// Appends the tag that ends a `span`.
fn push_span_end(html: &mut String) -> Result<(), AllocError>
    ensures { OnOk result (string_bytes html.new ≡ string_bytes html.old ++ codes "</span>") }
{
    html.push_str("</span>")?;
    Ok(())
}

/// Appends what is shown for a text, with entities, each wide character in a box.
fn push_text(html: &mut String, text: &str) -> Result<(), AllocError>
    ensures { OnOk result (string_bytes html.new ≡ string_bytes html.old ++ escaped_text text.now) }
{
    for c in text.chars() {
        if let Some(shown) = shown_character(c) {
            push_cell(html, shown)?;
        }
    }
    Ok(())
}

/// Appends a character, a wide one in a box.
fn push_cell(html: &mut String, c: char) -> Result<(), AllocError>
    ensures { OnOk result (string_bytes html.new ≡ string_bytes html.old ++ html_cell c) }
{
    if !is_wide(c) {
        return push_character(html, c);
    }
    push_span_tag(html, box_class(c))?;
    push_character(html, c)?;
    push_span_end(html)?;
    Ok(())
}

/// Returns whether a character occupies more than one cell.
fn is_wide(c: char) -> bool
    ensures { result ≡ is_wide c }
{
    cells(c) > 1
}

/// Returns the class of the box of a wide character.
fn box_class(c: char) -> &'static str
    ensures { result.now ≡ box_class c }
{
    if cells(c) == 2 { "wide" } else { "wide-3" }
}

/// Appends a character, as an entity where it can begin or end a tag, an attribute or an entity.
fn push_character(html: &mut String, c: char) -> Result<(), AllocError>
    ensures { OnOk result (string_bytes html.new ≡ string_bytes html.old ++ html_character c) }
{
    match c {
        '&' => html.push_str("&amp;"),
        '<' => html.push_str("&lt;"),
        '>' => html.push_str("&gt;"),
        '"' => html.push_str("&quot;"),
        '\'' => html.push_str("&#39;"),
        other => html.push(other),
    }
}

/// Returns the class of a style; plain text has none.
pub(crate) fn style_class(style: StyleMark) -> &'static str
    ensures { result.now ≡ style_class style }
{
    match style {
        StyleMark::Reset => "",
        StyleMark::Header(severity) => match severity {
            Severity::Bug => "header-bug",
            Severity::Error => "header-error",
            Severity::Warning => "header-warning",
            Severity::Note => "header-note",
            Severity::Help => "header-help",
        },
        StyleMark::HeaderMessage => "header-message",
        StyleMark::LineNumber => "line-number",
        StyleMark::NoteBullet => "note-bullet",
        StyleMark::SourceBorder => "source-border",
        StyleMark::Label(severity, LabelStyle::Primary) => match severity {
            Severity::Bug => "primary-label-bug",
            Severity::Error => "primary-label-error",
            Severity::Warning => "primary-label-warning",
            Severity::Note => "primary-label-note",
            Severity::Help => "primary-label-help",
        },
        StyleMark::Label(_, LabelStyle::Secondary) => "secondary-label",
    }
}
