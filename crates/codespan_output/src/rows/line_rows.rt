//! All rows of a line, from its source to its underlines.

ghost use Rattle.std.specs.Prelude.{◌≡◌, ◌<◌, ◌^◌, length};
ghost use Rattle.codespan_core.specs.WriterLaw.{Writes};
ghost use Rattle.codespan_output.specs.Rows.{rows_of};
ghost use Rattle.codespan_output.specs.RowStreams.{stream_of_rows};
ghost use Rattle.codespan_output.specs.Private.LineCharacters.{char_input};
ghost use Rattle.codespan_output.specs.Private.LineViews.{context_view, line_view};

use crate::rows::carets::write_caret_row;
use crate::rows::line::{Line, RowContext};
use crate::rows::line_characters::LineCharacters;
use crate::rows::messages::Messages;
use crate::rows::pointers::write_pointer_and_hanging_rows;
use crate::rows::source::write_source_row;
use crate::rows::underlines::write_underlines;
use codespan_core::term::config::put_style::PutStyle;

/// What the rows of a line are written from. `characters` has the context's tab width, and the text
/// and labels of `line`; `messages` is of these labels.
#[derive(Drop)]
pub struct LineRows<'row, 'd, S: LineCharacters> {
    /// What all rows of the output are rendered by.
    pub context: RowContext<'row>,
    /// The line.
    pub line: Line<'row, 'd>,
    /// Its characters, their widths and its pointers.
    pub characters: &'row S,
    /// Which of its labels trails, and which may hang.
    pub messages: Messages<'row, 'd>,
    ghost input: { S.input characters.now ≡ char_input context line },
    ghost labels: { messages.labels.now ≡ line.labels.now },
    ghost tab_fits: { context.tab_width < 2 ^ 64 },
    ghost text_fits: { length line.text.now < 2 ^ 64 },
}

/// Writes all rows of a line: its source, its carets, pointers and hanging messages, and its
/// underlines.
///
/// # Errors
///
/// The writer's error; a prefix has then been written.
///
/// # Requires
///
/// - `characters` has the context's tab width, and the text and labels of `line`.
/// - `messages` is of the labels of `line`.
pub fn write_line<W: PutStyle, S: LineCharacters>(
    w: &mut W,
    context: RowContext<'_>,
    line: Line<'_, '_>,
    messages: Messages<'_, '_>,
    characters: &S,
) -> Result<(), W::Error>
    requires input { S.input characters.now ≡ char_input context line }
    requires labels { messages.labels.now ≡ line.labels.now }
    ensures { Writes (W.sink w.old)
        (stream_of_rows (context_view context.entry) (rows_of (line_view line.entry)))
        result (W.sink w.new) }
{
    let rows = LineRows {
        context,
        line,
        characters,
        messages,
    };
    write_source_row(w, &rows)?;
    write_caret_row(w, &rows)?;
    write_pointer_and_hanging_rows(w, &rows)?;
    write_underlines(w, &rows)
}
