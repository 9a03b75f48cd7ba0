//! The carets under a line.

ghost use Rattle.std.specs.Prelude.{◌≡◌, ◌++◌};
ghost use Rattle.codespan_core.specs.WriterLaw.{Writes};
ghost use Rattle.codespan_output.specs.Carets.{max_label_end};
ghost use Rattle.codespan_output.specs.Arguments.{single_label_views};
ghost use Rattle.codespan_output.specs.Private.Runs.{caret_run};
ghost use Rattle.codespan_output.specs.Private.RowLabels.{optional_label_view};
ghost use Rattle.codespan_output.specs.Private.WrittenParts.{caret_rows_stream, carets_stream};
ghost use Rattle.codespan_output.specs.Private.WrittenParts.{line_metrics_to_end_view};
ghost use Rattle.codespan_output.specs.Private.WrittenParts.{label_message_stream};
ghost use Rattle.codespan_output.specs.RowParts.{carets, style_change, trailing_message};

use crate::arguments::SingleLabel;
use crate::rows::char_cursor::CharCursor;
use crate::rows::line::RowContext;
use crate::rows::line_characters::LineCharacters;
use crate::rows::line_rows::LineRows;
use crate::rows::parts::{change_style, write_row_start};
use crate::rows::runs::{write_repeated, write_spaces};
use codespan_core::diagnostic::{LabelStyle, Severity};
use codespan_core::term::config::put_style::PutStyle;
use codespan_core::term::config::style_mark::StyleMark;
use codespan_core::term::config::writing::put_all;

/// Returns the greatest end of the labels, in bytes from the line's start, or 0 where there is
/// none.
pub fn max_label_end(labels: &[SingleLabel<'_>]) -> usize
    ensures { result ≡ max_label_end (single_label_views labels.now) }
{
    let mut greatest = 0;
    for label in labels {
        greatest = label.1.end.max(greatest);
    }
    greatest
}

/// Writes a run of `count` carets of a style, or of spaces where there is no style, and the style
/// mark of the next run.
#[inline(always)]
fn end_caret_run<W: PutStyle>(
    w: &mut W,
    context: RowContext<'_>,
    previous: Option<LabelStyle>,
    count: u128,
    style: Option<LabelStyle>,
) -> Result<(), W::Error>
    ensures { Writes (W.sink w.old)
        (caret_run context.entry.chars.now previous count
        ++ style_change context.entry.severity previous style)
        result (W.sink w.new) }
{
    match previous {
        None => write_spaces(w, count)?,
        Some(LabelStyle::Primary) => write_repeated(w, context.chars.single_primary_caret, count)?,
        Some(LabelStyle::Secondary) => {
            write_repeated(w, context.chars.single_secondary_caret, count)?;
        }
    }
    change_style(w, context.severity, previous, style)
}

/// Writes the carets under the characters of a line, the last of which is the placeholder after the
/// text. It is not inlined, so that its loop has the registers to itself.
#[inline(never)]
fn write_carets<W: PutStyle, S: LineCharacters>(
    w: &mut W,
    rows: &LineRows<'_, '_, S>,
) -> Result<(), W::Error>
    ensures { Writes (W.sink w.old)
        (carets_stream rows.now.context rows.now.line.labels.now
        (line_metrics_to_end_view rows.now.context rows.now.line))
        result (W.sink w.new) }
{
    let end = max_label_end(rows.line.labels);
    let (mut run, mut cursor) = rows.characters.characters_from_labels(end);
    let mut previous = None;
    while let Some(metrics) = cursor.next_metrics() {
        if metrics.byte_index >= end {
            break;
        }
        let style = cursor.style_under(metrics);
        if style != previous {
            end_caret_run(w, rows.context, previous, run, style)?;
            run = 0;
            previous = style;
        }
        run += metrics.unicode_width as u128;
    }
    end_caret_run(w, rows.context, previous, run, None)
}

/// Writes a label's message in its style.
///
/// # Errors
///
/// The writer's error; a prefix has then been written.
pub fn write_message<W: PutStyle>(
    w: &mut W,
    severity: Severity,
    label: &SingleLabel<'_>,
) -> Result<(), W::Error>
    ensures { Writes (W.sink w.old) (label_message_stream severity label.now)
        result (W.sink w.new) }
{
    w.put_mark(StyleMark::Label(severity, label.0))?;
    put_all(w, label.2.as_bytes())?;
    w.put_mark(StyleMark::Reset)
}

/// Writes a space and the trailing message, where a message trails.
#[tactic(auto, using(codespan_core::proofs::Writes::write_chains), unfolding(crate::specs::RowParts::trailing_message))]
#[inline(always)]
fn write_trailing_message<W: PutStyle>(
    w: &mut W,
    severity: Severity,
    trailing_label: Option<&SingleLabel<'_>>,
) -> Result<(), W::Error>
    ensures { Writes (W.sink w.old)
        (trailing_message severity (optional_label_view trailing_label.entry))
        result (W.sink w.new) }
{
    match trailing_label {
        Some(label) => {
            put_all(w, b" ")?;
            write_message(w, severity, label)
        }
        None => Ok(()),
    }
}

/// Writes the caret row of a line, where it has labels: its carets, and the message that trails
/// them.
///
/// # Errors
///
/// The writer's error; a prefix has then been written.
pub fn write_caret_row<W: PutStyle, S: LineCharacters>(
    w: &mut W,
    rows: &LineRows<'_, '_, S>,
) -> Result<(), W::Error>
    ensures { Writes (W.sink w.old) (caret_rows_stream rows.now.context rows.now.line) result
        (W.sink w.new) }
{
    if rows.line.labels.is_empty() {
        return Ok(());
    }
    write_row_start(w, rows.context, rows.line)?;
    write_carets(w, rows)?;
    write_trailing_message(w, rows.context.severity, rows.messages.trailing_label)?;
    put_all(w, b"\n")
}
