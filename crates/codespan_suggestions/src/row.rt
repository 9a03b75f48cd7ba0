//! One row of the output of a suggestion.

ghost use Rattle.std.specs.Prelude.{◌++◌, ◌≡◌, flat_map, string_bytes};
ghost use Rattle.codespan_core.specs.Streams.{byte_stream, newline};
ghost use Rattle.codespan_core.specs.WriterLaw.{Writes};
ghost use Rattle.codespan_edits.specs.RowViews.{numbered_row};
ghost use Rattle.codespan_output.specs.Arguments.{locus_view};
ghost use Rattle.codespan_suggestions.specs.DrawnText.{shown_text, shown_char, end_text, escaped};
ghost use Rattle.codespan_suggestions.specs.SuggestionRows.{number_gutter, blank_gutter};
ghost use Rattle.codespan_suggestions.specs.SuggestionRows.{signed_text, line_row, end_row};
ghost use Rattle.codespan_suggestions.specs.SuggestionRows.{stream_of};
ghost use Rattle.codespan_suggestions.specs.SuggestionRows.Row.{StartRow, EmptyRow, BreakRow};
ghost use Rattle.codespan_suggestions.specs.Private.FileViews.{settings_view};

use codespan_core::diagnostic::{LabelStyle, Severity};
use codespan_core::term::Chars;
use codespan_core::term::config::put_style::PutStyle;
use codespan_core::term::config::style_mark::StyleMark;
use codespan_core::term::config::writing::{put_all, put_char, put_spaces};
use codespan_edits::{DiffRow, RowSign};
use codespan_output::arguments::Locus;
use codespan_output::rows::header::write_snippet_start;
use codespan_output::rows::line::text_without_line_end;
use codespan_output::rows::parts::{outer_gutter, outer_gutter_number, write_glyph};
use codespan_renderer::term::renderer::char_metrics::{CharMetrics, Metrics};

/// What all rows of an output are rendered by.
#[derive(Clone, Copy)]
pub(crate) struct RowSettings<'row> {
    /// The characters of borders.
    pub(crate) chars: &'row Chars<'row>,
    /// The number of cells from one tab stop to the next; where it is 0, a tab takes no cell.
    pub(crate) tab_width: usize,
    /// The padding width of a number, in characters.
    pub(crate) padding: usize,
    /// The message of the suggestion.
    pub(crate) message: &'row str,
}

/// Writes the start of a file.
pub(crate) fn write_start<W: PutStyle>(
    w: &mut W,
    settings: RowSettings<'_>,
    locus: &Locus,
) -> Result<(), W::Error>
    ensures { Writes (W.sink w.old)
        (stream_of (settings_view settings.entry) (StartRow (locus_view locus.now)) ++ newline)
        result (W.sink w.new) }
{
    outer_gutter(w, settings.padding)?;
    write_snippet_start(w, settings.chars, settings.padding, locus)
}

/// Writes an empty row.
#[tactic(auto, using(codespan_core::proofs::Writes::write_chains), unfolding(codespan_output::specs::RowParts::border_left))]
pub(crate) fn write_empty<W: PutStyle>(w: &mut W, settings: RowSettings<'_>) -> Result<(), W::Error>
    ensures { Writes (W.sink w.old)
        (stream_of (settings_view settings.entry) EmptyRow ++ newline)
        result (W.sink w.new) }
{
    blank_gutter(w, settings.padding)?;
    write_glyph(
        w,
        StyleMark::SourceBorder,
        settings.chars.source_border_left,
    )?;
    put_all(w, b"\n")
}

/// Writes the row of a break.
#[tactic(auto, using(codespan_core::proofs::Writes::write_chains), unfolding(codespan_output::specs::RowParts::border_left_break))]
pub(crate) fn write_break<W: PutStyle>(w: &mut W, settings: RowSettings<'_>) -> Result<(), W::Error>
    ensures { Writes (W.sink w.old)
        (stream_of (settings_view settings.entry) BreakRow ++ newline)
        result (W.sink w.new) }
{
    blank_gutter(w, settings.padding)?;
    write_glyph(
        w,
        StyleMark::SourceBorder,
        settings.chars.source_border_left_break,
    )?;
    put_all(w, b"\n")
}

/// Writes the row of a line.
#[tactic(auto, using(codespan_core::proofs::Writes::write_chains), unfolding(crate::specs::SuggestionRows::line_row, codespan_output::specs::RowParts::border_left))]
pub(crate) fn write_line<W: PutStyle>(
    w: &mut W,
    settings: RowSettings<'_>,
    row: &DiffRow,
) -> Result<(), W::Error>
    ensures { Writes (W.sink w.old)
        (line_row (settings_view settings.entry) (numbered_row row.now) ++ newline)
        result (W.sink w.new) }
{
    number_gutter(w, settings.padding, row.old_number)?;
    number_gutter(w, settings.padding, row.new_number)?;
    write_glyph(
        w,
        StyleMark::SourceBorder,
        settings.chars.source_border_left,
    )?;
    write_signed_text(w, settings.tab_width, row)?;
    put_all(w, b"\n")
}

/// Writes the row of a line's end.
#[tactic(auto, using(codespan_core::proofs::Writes::write_chains), unfolding(crate::specs::SuggestionRows::end_row, codespan_output::specs::RowParts::border_left))]
pub(crate) fn write_end<W: PutStyle>(
    w: &mut W,
    settings: RowSettings<'_>,
    end: &[u8],
) -> Result<(), W::Error>
    ensures { Writes (W.sink w.old)
        (end_row (settings_view settings.entry) end.now ++ newline)
        result (W.sink w.new) }
{
    blank_gutter(w, settings.padding)?;
    write_glyph(
        w,
        StyleMark::SourceBorder,
        settings.chars.source_border_left,
    )?;
    put_all(w, b" \\ ")?;
    write_end_text(w, end)?;
    put_all(w, b"\n")
}

/// Writes the gutter of a number that a row may have.
#[tactic(auto, using(codespan_core::proofs::Writes::write_chains), unfolding(crate::specs::SuggestionRows::number_gutter))]
fn number_gutter<W: PutStyle>(
    w: &mut W,
    padding: usize,
    number: Option<usize>,
) -> Result<(), W::Error>
    ensures { Writes (W.sink w.old) (number_gutter padding number) result (W.sink w.new) }
{
    match number {
        Some(number) => outer_gutter_number(w, padding, number),
        None => outer_gutter(w, padding),
    }
}

/// Writes the gutter of a row without numbers.
#[tactic(auto, using(codespan_core::proofs::Writes::write_chains), unfolding(crate::specs::SuggestionRows::blank_gutter))]
fn blank_gutter<W: PutStyle>(w: &mut W, padding: usize) -> Result<(), W::Error>
    ensures { Writes (W.sink w.old) (blank_gutter padding) result (W.sink w.new) }
{
    outer_gutter(w, padding)?;
    outer_gutter(w, padding)
}

/// Writes the text of a row with its sign.
#[tactic(auto, using(codespan_core::proofs::Writes::write_chains), unfolding(crate::specs::SuggestionRows::signed_text))]
fn write_signed_text<W: PutStyle>(
    w: &mut W,
    tab_width: usize,
    row: &DiffRow,
) -> Result<(), W::Error>
    ensures { Writes (W.sink w.old)
        (signed_text row.now.sign (shown_text tab_width (string_bytes row.now.line)))
        result (W.sink w.new) }
{
    let line = row.line.as_str();
    match row.sign {
        RowSign::Kept => {
            put_all(w, b"   ")?;
            write_shown_text(w, line, tab_width)
        }
        RowSign::Removed => {
            put_all(w, b" ")?;
            w.put_mark(StyleMark::Label(Severity::Error, LabelStyle::Primary))?;
            put_all(w, b"- ")?;
            write_shown_text(w, line, tab_width)?;
            w.put_mark(StyleMark::Reset)
        }
        RowSign::Added => {
            put_all(w, b" ")?;
            w.put_mark(StyleMark::Label(Severity::Note, LabelStyle::Primary))?;
            put_all(w, b"+ ")?;
            write_shown_text(w, line, tab_width)?;
            w.put_mark(StyleMark::Reset)
        }
    }
}

/// Writes the text of a line, without its end, and with spaces in place of tabs.
fn write_shown_text<W: PutStyle>(w: &mut W, line: &str, tab_width: usize) -> Result<(), W::Error>
    ensures { Writes (W.sink w.old) (byte_stream (shown_text tab_width line.now)) result
        (W.sink w.new) }
{
    let mut characters = CharMetrics::new(text_without_line_end(line), tab_width, false);
    while let Some(metrics) = characters.next_metrics() {
        write_shown_char(w, metrics)?;
    }
    Ok(())
}

/// Writes a character, and spaces up to its next stop in place of a tab.
#[tactic(auto, using(crate::proofs::RowLoops::shown_chars))]
fn write_shown_char<W: PutStyle>(w: &mut W, metrics: Metrics) -> Result<(), W::Error>
    ensures { Writes (W.sink w.old) (byte_stream (shown_char metrics)) result (W.sink w.new) }
{
    if metrics.ch == '\t' {
        put_spaces(w, metrics.unicode_width)
    } else {
        put_char(w, metrics.ch)
    }
}

/// Writes what is stated of a line's end.
fn write_end_text<W: PutStyle>(w: &mut W, end: &[u8]) -> Result<(), W::Error>
    ensures { Writes (W.sink w.old) (byte_stream (end_text end.now)) result (W.sink w.new) }
{
    if end.is_empty() {
        return put_all(w, b"no newline at end of file");
    }
    put_all(w, b"ends with ")?;
    write_escapes(w, end)
}

/// Writes bytes of a line's end by their escapes.
fn write_escapes<W: PutStyle>(w: &mut W, end: &[u8]) -> Result<(), W::Error>
    ensures { Writes (W.sink w.old) (byte_stream (flat_map escaped end.now)) result
        (W.sink w.new) }
{
    for byte in end {
        write_escape(w, *byte)?;
    }
    Ok(())
}

/// Writes a byte of a line's end by its escape.
fn write_escape<W: PutStyle>(w: &mut W, byte: u8) -> Result<(), W::Error>
    ensures { Writes (W.sink w.old) (byte_stream (escaped byte)) result (W.sink w.new) }
{
    put_all(w, escape(byte).as_bytes())
}

/// Returns the escape of a byte of a line's end.
fn escape(byte: u8) -> &'static str
    ensures { result.now ≡ escaped byte }
{
    match byte {
        b'\n' => "\\n",
        b'\r' => "\\r",
        _ => "\\0",
    }
}
