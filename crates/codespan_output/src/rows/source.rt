//! The source row of a line.

ghost use Rattle.std.specs.Prelude.{◌≡◌, ◌++◌};
ghost use Rattle.codespan_core.specs.Streams.{byte_stream, newline};
ghost use Rattle.codespan_core.specs.WriterLaw.{Writes};
ghost use Rattle.codespan_output.specs.Private.LineViews.{context_view, line_view};
ghost use Rattle.codespan_output.specs.RowParts.{style_change, colored_text};
ghost use Rattle.codespan_output.specs.Rows.{SourceRow};
ghost use Rattle.codespan_output.specs.RowStreams.{stream_of};

use crate::rows::char_cursor::CharCursor;
use crate::rows::lanes::{LaneRowKind, inner_gutter};
use crate::rows::line::RowContext;
use crate::rows::line_characters::LineCharacters;
use crate::rows::line_rows::LineRows;
use crate::rows::parts::{change_style, outer_gutter_number, write_glyph};
use crate::rows::primary_cover::PrimaryCover;
use crate::rows::text_styles::{plain_from, source_style};
use codespan_core::diagnostic::LabelStyle;
use codespan_core::term::config::put_style::PutStyle;
use codespan_core::term::config::style_mark::StyleMark;
use codespan_core::term::config::writing::{put_all, put_spaces};

/// Writes the text of a line, with spaces instead of tabs and with style marks where the style
/// changes. Text that is known to be written unchanged is written by one call.
fn write_text<W: PutStyle, S: LineCharacters>(
    w: &mut W,
    rows: &LineRows<'_, '_, S>,
) -> Result<(), W::Error>
    ensures { Writes (W.sink w.old)
        (colored_text (context_view rows.now.context) (line_view rows.now.line))
        result (W.sink w.new) }
{
    let context = rows.context;
    let line = rows.line;
    let text = line.text.as_bytes();
    let primary = PrimaryCover::of(line.lanes.lane_marks);
    let plain = plain_from(line, primary);
    if plain == 0 {
        return put_all(w, text);
    }
    let mut cursor = rows.characters.characters();
    let mut previous = None;
    let mut start = 0;
    let mut end = 0;
    while let Some(metrics) = cursor.next_metrics() {
        if end >= plain {
            break;
        }
        let style = source_style(&mut cursor, primary, line, metrics);
        let next = end + metrics.bytes;
        if metrics.ch == '\t' {
            end_text_run(w, context, &text[start..end], previous, style)?;
            put_spaces(w, metrics.unicode_width)?;
            start = next;
            previous = style;
        } else if style != previous {
            end_text_run(w, context, &text[start..end], previous, style)?;
            start = end;
            previous = style;
        }
        end = next;
    }
    end_text_run(w, context, &text[start..end], previous, None)?;
    put_all(w, &text[end..])
}

/// Writes a run of text of one style, and the style mark of the next run.
fn end_text_run<W: PutStyle>(
    w: &mut W,
    context: RowContext<'_>,
    text: &[u8],
    previous: Option<LabelStyle>,
    style: Option<LabelStyle>,
) -> Result<(), W::Error>
    ensures { Writes (W.sink w.old)
        (byte_stream text.now ++ style_change context.entry.severity previous style)
        result (W.sink w.new) }
{
    put_all(w, text)?;
    change_style(w, context.severity, previous, style)
}

/// Writes the source row of a line: outer gutter with the line number, left border, inner gutter,
/// a space and the text.
///
/// # Errors
///
/// The writer's error; a prefix has then been written.
pub fn write_source_row<W: PutStyle, S: LineCharacters>(
    w: &mut W,
    rows: &LineRows<'_, '_, S>,
) -> Result<(), W::Error>
    ensures { Writes (W.sink w.old)
        (stream_of (context_view rows.now.context) (SourceRow (line_view rows.now.line)) ++ newline)
        result (W.sink w.new) }
{
    let context = rows.context;
    outer_gutter_number(w, context.padding, rows.line.number)?;
    write_glyph(w, StyleMark::SourceBorder, context.chars.source_border_left)?;
    let leading = rows.line.leading;
    inner_gutter(w, context, leading, LaneRowKind::Source, rows.line.lanes)?;
    put_all(w, b" ")?;
    write_text(w, rows)?;
    put_all(w, b"\n")
}
