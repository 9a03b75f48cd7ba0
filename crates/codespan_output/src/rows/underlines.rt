//! The underlines of multi-line labels.

ghost use Rattle.std.specs.Prelude.{◌≡◌, ◌++◌};
ghost use Rattle.codespan_core.specs.Streams.{newline, byte_stream};
ghost use Rattle.codespan_core.specs.WriterLaw.{Writes};
ghost use Rattle.codespan_output.specs.CharMetrics.{char_metrics};
ghost use Rattle.codespan_output.specs.Arguments.{lane_mark_view, multi_label_view};
ghost use Rattle.codespan_output.specs.Private.LineViews.{context_view, line_view};
ghost use Rattle.codespan_output.specs.Private.Underlines.{underline_by_width, underline_width};
ghost use Rattle.codespan_output.specs.Private.Underlines.{underline_caret, width_if_any};
ghost use Rattle.codespan_output.specs.Private.LineCharacters.{metrics_of};
ghost use Rattle.codespan_output.specs.Private.LineRows.{underline_rows};
ghost use Rattle.codespan_output.specs.RowParts.{underline_message};
ghost use Rattle.codespan_output.specs.Rows.{UnderlineRow};
ghost use Rattle.codespan_output.specs.RowStreams.{stream_of, stream_of_rows};

use crate::arguments::MultiLabel;
use crate::rows::lanes::{LaneRowKind, inner_gutter};
use crate::rows::line::{Line, RowContext};
use crate::rows::line_characters::LineCharacters;
use crate::rows::line_rows::LineRows;
use crate::rows::parts::{outer_gutter, write_glyph};
use crate::rows::runs::write_repeated;
use codespan_core::diagnostic::LabelStyle;
use codespan_core::term::Chars;
use codespan_core::term::config::put_style::PutStyle;
use codespan_core::term::config::style_mark::StyleMark;
use codespan_core::term::config::writing::{put_all, put_char};

/// Returns the caret of an underline: under the start of a label for a `Top`, else under its end.
fn underline_caret(chars: &Chars<'_>, style: LabelStyle, multi_label: MultiLabel<'_>) -> char
    ensures { result ≡ underline_caret chars.now style (multi_label_view multi_label.entry) }
{
    match (multi_label, style) {
        (MultiLabel::Top(_), LabelStyle::Primary) => chars.multi_primary_caret_start,
        (MultiLabel::Top(_), LabelStyle::Secondary) => chars.multi_secondary_caret_start,
        (_, LabelStyle::Primary) => chars.multi_primary_caret_end,
        (_, LabelStyle::Secondary) => chars.multi_secondary_caret_end,
    }
}

/// Writes a space and the message, or nothing where the message is empty.
#[tactic(auto, using(codespan_core::proofs::Writes::write_chains, crate::proofs::Lanes::UnderlineRows::underline_messages))]
fn write_underline_message<W: PutStyle>(w: &mut W, message: &str) -> Result<(), W::Error>
    ensures { Writes (W.sink w.old) (underline_message (byte_stream message.now)) result
        (W.sink w.new) }
{
    if message.is_empty() {
        return Ok(());
    }
    put_all(w, b" ")?;
    put_all(w, message.as_bytes())
}

/// Returns how many cells an underline has between its lanes and its caret, or `None` where the
/// label has no underline row: a bottom has one, and a top whose corner is not in the source row.
fn underline_width<S: LineCharacters>(
    characters: &S,
    leading: usize,
    multi_label: MultiLabel<'_>,
) -> Option<u128>
    ensures { result ≡ width_if_any leading (metrics_of (S.input characters.now))
        (multi_label_view multi_label.entry) }
{
    match multi_label {
        MultiLabel::Top(start) if start > leading => Some(characters.width_up_to(start)),
        MultiLabel::Top(_) | MultiLabel::Left => None,
        MultiLabel::Bottom(end, _) => Some(characters.width_before(end)),
    }
}

/// Writes an underline right of the lanes: a run of `width` cells, the caret, and the message.
#[tactic(auto, using(codespan_core::proofs::Writes::write_chains), unfolding(crate::specs::Private::Underlines::underline_by_width))]
fn label_multi_caret<W: PutStyle>(
    w: &mut W,
    chars: &Chars<'_>,
    style: LabelStyle,
    multi_label: MultiLabel<'_>,
    width: u128,
) -> Result<(), W::Error>
    ensures { Writes (W.sink w.old)
        (underline_by_width chars.now style width (multi_label_view multi_label.entry))
        result (W.sink w.new) }
{
    match multi_label {
        MultiLabel::Top(_) => {
            write_repeated(w, chars.multi_top, width)?;
            put_char(w, underline_caret(chars, style, multi_label))
        }
        MultiLabel::Left => Ok(()),
        MultiLabel::Bottom(_, message) => {
            write_repeated(w, chars.multi_bottom, width)?;
            put_char(w, underline_caret(chars, style, multi_label))?;
            write_underline_message(w, message)
        }
    }
}

/// Writes the underline row of a lane mark, with `width` cells between its lanes and its caret.
fn write_underline_row<W: PutStyle>(
    w: &mut W,
    context: RowContext<'_>,
    line: Line<'_, '_>,
    lane_mark: (usize, LabelStyle, MultiLabel<'_>),
    width: u128,
) -> Result<(), W::Error>
    requires { width ≡ underline_width (char_metrics context.tab_width line.text.now)
        (multi_label_view lane_mark.2) }
    ensures { Writes (W.sink w.old)
        (stream_of (context_view context.entry)
        (UnderlineRow (line_view line.entry) (lane_mark_view lane_mark.entry))
        ++ newline) result (W.sink w.new) }
{
    let (lane, style, multi_label) = lane_mark;
    outer_gutter(w, context.padding)?;
    write_glyph(w, StyleMark::SourceBorder, context.chars.source_border_left)?;
    let row = LaneRowKind::Underline(lane, style, multi_label);
    inner_gutter(w, context, line.leading, row, line.lanes)?;
    w.put_mark(StyleMark::Label(context.severity, style))?;
    label_multi_caret(w, context.chars, style, multi_label, width)?;
    w.put_mark(StyleMark::Reset)?;
    put_all(w, b"\n")
}

/// Writes the underline rows of a line, in the order of the lanes.
///
/// # Errors
///
/// The writer's error; a prefix has then been written.
pub fn write_underlines<W: PutStyle, S: LineCharacters>(
    w: &mut W,
    rows: &LineRows<'_, '_, S>,
) -> Result<(), W::Error>
    ensures { Writes (W.sink w.old)
        (stream_of_rows (context_view rows.now.context) (underline_rows (line_view rows.now.line)))
        result (W.sink w.new) }
{
    for lane_mark in rows.line.lanes.lane_marks {
        if let Some(width) = underline_width(rows.characters, rows.line.leading, lane_mark.2) {
            write_underline_row(w, rows.context, rows.line, *lane_mark, width)?;
        }
    }
    Ok(())
}
