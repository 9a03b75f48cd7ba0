//! The rows of notes and of breaks, and the empty rows of a snippet.

ghost use Rattle.std.specs.Prelude.{◌++◌};
ghost use Rattle.std.specs.Str.Lines.{lines};
ghost use Rattle.codespan_core.specs.Streams.{newline};
ghost use Rattle.codespan_core.specs.WriterLaw.{Writes};
ghost use Rattle.codespan_output.specs.Private.LineViews.{context_view, lanes_view};
ghost use Rattle.codespan_output.specs.Private.WrittenParts.{note_row_stream};
ghost use Rattle.codespan_output.specs.RenderedRows.{note_stream};
ghost use Rattle.codespan_output.specs.Rows.{EmptyRow, BreakRow};
ghost use Rattle.codespan_output.specs.RowStreams.{stream_of};

use crate::rows::lanes::{LaneRowKind, inner_gutter};
use crate::rows::line::{Lanes, RowContext};
use crate::rows::parts::{outer_gutter, write_glyph};
use codespan_core::term::Chars;
use codespan_core::term::config::put_style::PutStyle;
use codespan_core::term::config::style_mark::StyleMark;
use codespan_core::term::config::writing::put_all;

/// Writes an empty row of a snippet: outer gutter, left border and inner gutter.
///
/// # Errors
///
/// The writer's error; a prefix has then been written.
pub fn write_snippet_empty<W: PutStyle>(
    w: &mut W,
    context: RowContext<'_>,
    lanes: Lanes<'_, '_>,
) -> Result<(), W::Error>
    ensures { Writes (W.sink w.old)
        (stream_of (context_view context.entry) (EmptyRow (lanes_view lanes.entry)) ++ newline)
        result (W.sink w.new) }
{
    outer_gutter(w, context.padding)?;
    write_glyph(w, StyleMark::SourceBorder, context.chars.source_border_left)?;
    inner_gutter(w, context, 0, LaneRowKind::EmptyOrBreak, lanes)?;
    put_all(w, b"\n")
}

/// Writes a break row: outer gutter, the left border of a break and inner gutter.
///
/// # Errors
///
/// The writer's error; a prefix has then been written.
pub fn write_break<W: PutStyle>(
    w: &mut W,
    context: RowContext<'_>,
    lanes: Lanes<'_, '_>,
) -> Result<(), W::Error>
    ensures { Writes (W.sink w.old)
        (stream_of (context_view context.entry) (BreakRow (lanes_view lanes.entry)) ++ newline)
        result (W.sink w.new) }
{
    outer_gutter(w, context.padding)?;
    write_glyph(
        w,
        StyleMark::SourceBorder,
        context.chars.source_border_left_break,
    )?;
    inner_gutter(w, context, 0, LaneRowKind::EmptyOrBreak, lanes)?;
    put_all(w, b"\n")
}

/// Writes a row of a note: the outer gutter, the bullet, or a space where there is none, a space,
/// and a line of the note.
#[inline(always)]
fn write_note_row<W: PutStyle>(
    w: &mut W,
    padding: usize,
    bullet: Option<char>,
    note_line: &str,
) -> Result<(), W::Error>
    ensures { Writes (W.sink w.old) (note_row_stream padding bullet note_line.now) result
        (W.sink w.new) }
{
    outer_gutter(w, padding)?;
    match bullet {
        Some(c) => write_glyph(w, StyleMark::NoteBullet, c)?,
        None => put_all(w, b" ")?,
    }
    put_all(w, b" ")?;
    put_all(w, note_line.as_bytes())?;
    put_all(w, b"\n")
}

/// Writes the rows of a note: one for each of its lines, none for an empty note.
///
/// # Errors
///
/// The writer's error; a prefix has then been written.
pub fn write_note<W: PutStyle>(
    w: &mut W,
    chars: &Chars<'_>,
    padding: usize,
    message: &str,
) -> Result<(), W::Error>
    ensures { Writes (W.sink w.old) (note_stream chars.now padding (lines message.now))
        result (W.sink w.new) }
{
    let mut note_lines = message.lines();
    let Some(first) = note_lines.next() else {
        return Ok(());
    };
    write_note_row(w, padding, Some(chars.note_bullet), first)?;
    for note_line in note_lines {
        write_note_row(w, padding, None, note_line)?;
    }
    Ok(())
}
