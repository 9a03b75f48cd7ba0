//! The pointers under the carets of a line, and the messages that hang from them.

ghost use Rattle.std.specs.Prelude.{◌≡◌, ◌≤◌, ◌<◌, ◌+◌, ◌^◌, ◌++◌};
ghost use Rattle.codespan_core.specs.Streams.{newline};
ghost use Rattle.codespan_core.specs.WriterLaw.{Writes};
ghost use Rattle.codespan_output.specs.Arguments.{single_label_view, single_label_views};
ghost use Rattle.codespan_output.specs.Private.LineViews.{context_view, line_view};
ghost use Rattle.codespan_output.specs.Private.PointerLists.{pointer_under};
ghost use Rattle.codespan_output.specs.Private.WrittenParts.{pointers_before_stream};
ghost use Rattle.codespan_output.specs.Private.WrittenParts.{hanging_rows_stream};
ghost use Rattle.codespan_output.specs.Private.WrittenParts.{pointer_and_hanging_rows_stream};
ghost use Rattle.codespan_output.specs.RowParts.{max_label_start};
ghost use Rattle.codespan_output.specs.Rows.{PointerRow, HangingRow};
ghost use Rattle.codespan_output.specs.RowStreams.{stream_of};

use crate::arguments::SingleLabel;
use crate::char_metrics::Metrics;
use crate::rows::carets::write_message;
use crate::rows::line_characters::LineCharacters;
use crate::rows::line_rows::LineRows;
use crate::rows::messages::has_any_message;
use crate::rows::parts::{write_glyph, write_row_start};
use crate::rows::pointer_cursor::{Pointer, PointerCursor};
use crate::rows::runs::write_spaces;
use codespan_core::diagnostic::LabelStyle;
use codespan_core::term::config::put_style::PutStyle;
use codespan_core::term::config::style_mark::StyleMark;
use codespan_core::term::config::writing::put_all;

/// Returns the greatest start of the labels, in bytes from the line's start, or 0 where there is
/// none.
pub fn max_label_start(labels: &[SingleLabel<'_>]) -> usize
    ensures { result ≡ max_label_start (single_label_views labels.now) }
{
    let mut greatest = 0;
    for label in labels {
        greatest = label.1.start.max(greatest);
    }
    greatest
}

/// Returns the pointer of a style under a character.
#[inline(always)]
pub fn pointer_under(metrics: Metrics, style: LabelStyle) -> Pointer
    requires { metrics.column + metrics.unicode_width < 2 ^ 128 }
    ensures { result ≡ pointer_under metrics style }
{
    Pointer {
        byte_index: metrics.byte_index,
        column: metrics.column,
        end_column: metrics.column + metrics.unicode_width.min(1) as u128,
        style,
    }
}

/// Writes the pointers under the characters that begin before a byte index, with spaces between
/// them and up to the column `edge`.
#[inline(always)]
fn write_caret_pointers<W: PutStyle, S: LineCharacters>(
    w: &mut W,
    rows: &LineRows<'_, '_, S>,
    byte_index: usize,
    edge: u128,
) -> Result<(), W::Error>
    ensures { Writes (W.sink w.old)
        (pointers_before_stream rows.now.context rows.now.line byte_index edge)
        result (W.sink w.new) }
{
    let context = rows.context;
    let mut pointers = rows.characters.pointers();
    let mut column = 0u128;
    while let Some(pointer) = pointers.next_pointer() {
        if pointer.byte_index >= byte_index {
            break;
        }
        write_spaces(w, pointer.column.saturating_sub(column))?;
        let mark = StyleMark::Label(context.severity, pointer.style);
        write_glyph(w, mark, context.chars.pointer_left)?;
        column = pointer.end_column;
    }
    write_spaces(w, edge.saturating_sub(column))
}

/// Writes the pointer row of a line.
fn write_pointer_row<W: PutStyle, S: LineCharacters>(
    w: &mut W,
    rows: &LineRows<'_, '_, S>,
) -> Result<(), W::Error>
    ensures { Writes (W.sink w.old)
        (stream_of (context_view rows.now.context) (PointerRow (line_view rows.now.line))
        ++ newline) result (W.sink w.new) }
{
    write_row_start(w, rows.context, rows.line)?;
    let edge = rows
        .characters
        .width_up_to(max_label_start(rows.line.labels));
    write_caret_pointers(w, rows, usize::MAX, edge)?;
    put_all(w, b"\n")
}

/// Writes a hanging message under its pointer.
fn write_hanging_row<W: PutStyle, S: LineCharacters>(
    w: &mut W,
    rows: &LineRows<'_, '_, S>,
    label: &SingleLabel<'_>,
) -> Result<(), W::Error>
    requires within_max_start { (single_label_view label.now).start
        ≤ max_label_start (single_label_views rows.now.line.labels.now) }
    ensures { Writes (W.sink w.old)
        (stream_of (context_view rows.now.context)
        (HangingRow (line_view rows.now.line) (single_label_view label.now))
        ++ newline) result (W.sink w.new) }
{
    write_row_start(w, rows.context, rows.line)?;
    let edge = rows.characters.width_before(label.1.start);
    write_caret_pointers(w, rows, label.1.start, edge)?;
    write_message(w, rows.context.severity, label)?;
    put_all(w, b"\n")
}

/// Writes a row for each message of these labels, the last label's first.
fn write_hanging_rows<W: PutStyle, S: LineCharacters>(
    w: &mut W,
    rows: &LineRows<'_, '_, S>,
    labels: &[SingleLabel<'_>],
) -> Result<(), W::Error>
    requires within_max_start { max_label_start (single_label_views labels.now)
        ≤ max_label_start (single_label_views rows.now.line.labels.now) }
    ensures { Writes (W.sink w.old) (hanging_rows_stream rows.now.context rows.now.line labels.now)
        result (W.sink w.new) }
{
    for label in labels.iter().rev() {
        if label.2.is_empty() {
            continue;
        }
        write_hanging_row(w, rows, label)?;
    }
    Ok(())
}

/// Writes the pointer row and a row for each hanging message, the last label's first, or nothing
/// where no message hangs.
///
/// # Errors
///
/// The writer's error; a prefix has then been written.
pub fn write_pointer_and_hanging_rows<W: PutStyle, S: LineCharacters>(
    w: &mut W,
    rows: &LineRows<'_, '_, S>,
) -> Result<(), W::Error>
    ensures { Writes (W.sink w.old)
        (pointer_and_hanging_rows_stream rows.now.context rows.now.line)
        result (W.sink w.new) }
{
    if !has_any_message(rows.messages.before) && !has_any_message(rows.messages.after) {
        return Ok(());
    }
    write_pointer_row(w, rows)?;
    write_hanging_rows(w, rows, rows.messages.after)?;
    write_hanging_rows(w, rows, rows.messages.before)
}
