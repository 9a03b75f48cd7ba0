//! The rows of the output of a suggestion.

ghost use Rattle.std.specs.Prelude.{◌∷◌, map, flat_map};
ghost use Rattle.codespan_core.specs.WriterLaw.{Writes};
ghost use Rattle.codespan_edits.specs.RowViews.{numbered_row};
ghost use Rattle.codespan_suggestions.specs.SuggestionRows.{line_rows, stream_of_rows, end_rows};
ghost use Rattle.codespan_suggestions.specs.SuggestionRows.{hunk_rows, file_rows, rich_rows};
ghost use Rattle.codespan_suggestions.specs.SuggestionRows.{short_rows, header_rows, separated};
ghost use Rattle.codespan_suggestions.specs.SuggestionRows.Row.{EmptyRow, BreakRow};
ghost use Rattle.codespan_suggestions.specs.SuggestionOutput.{output_of};
ghost use Rattle.codespan_suggestions.specs.Private.FileViews.{file_view, hunk_view, settings_view};

use crate::drawn_files::KeptFile;
use crate::drawn_text::line_end;
use crate::padding::padding_width;
use crate::row::{RowSettings, write_break, write_empty, write_end, write_line, write_start};
use codespan_core::diagnostic::Severity;
use codespan_core::term::config::put_style::PutStyle;
use codespan_core::term::config::writing::put_all;
use codespan_core::term::{Config, DisplayStyle};
use codespan_edits::{DiffRow, Hunk};
use codespan_output::rows::header::write_header;

/// Writes the rows of an output in the style of the configuration.
///
/// # Errors
///
/// The writer's error; a prefix has then been written.
pub(crate) fn write_output<W: PutStyle>(
    w: &mut W,
    config: &Config<'_>,
    message: &str,
    files: &[KeptFile],
) -> Result<(), W::Error>
    ensures { Writes (W.sink w.old)
        (output_of config.now message.now (map file_view files.now))
        result (W.sink w.new) }
{
    let settings = RowSettings {
        chars: &config.chars,
        tab_width: config.tab_width,
        padding: padding_width(files),
        message,
    };
    match config.display_style {
        DisplayStyle::Rich => write_rich(w, settings, files),
        DisplayStyle::Medium | DisplayStyle::Short => write_short(w, settings, files),
    }
}

/// Writes a header for each file, or one alone.
fn write_short<W: PutStyle>(
    w: &mut W,
    settings: RowSettings<'_>,
    files: &[KeptFile],
) -> Result<(), W::Error>
    ensures { Writes (W.sink w.old)
        (stream_of_rows (settings_view settings.entry) (short_rows (map file_view files.now)))
        result (W.sink w.new) }
{
    if files.is_empty() {
        return write_header(w, None, Severity::Help, None, settings.message);
    }
    write_headers(w, settings, files)
}

/// Writes a header for each file.
fn write_headers<W: PutStyle>(
    w: &mut W,
    settings: RowSettings<'_>,
    files: &[KeptFile],
) -> Result<(), W::Error>
    ensures { Writes (W.sink w.old)
        (stream_of_rows (settings_view settings.entry) (header_rows (map file_view files.now)))
        result (W.sink w.new) }
{
    for file in files {
        write_header(w, Some(&file.locus), Severity::Help, None, settings.message)?;
    }
    Ok(())
}

/// Writes the header, the files with empty rows between them, and a final row.
fn write_rich<W: PutStyle>(
    w: &mut W,
    settings: RowSettings<'_>,
    files: &[KeptFile],
) -> Result<(), W::Error>
    ensures { Writes (W.sink w.old)
        (stream_of_rows (settings_view settings.entry) (rich_rows (map file_view files.now)))
        result (W.sink w.new) }
{
    write_header(w, None, Severity::Help, None, settings.message)?;
    write_files(w, settings, files)?;
    put_all(w, b"\n")
}

/// Writes the rows of files, with empty rows between them.
fn write_files<W: PutStyle>(
    w: &mut W,
    settings: RowSettings<'_>,
    files: &[KeptFile],
) -> Result<(), W::Error>
    ensures { Writes (W.sink w.old)
        (stream_of_rows (settings_view settings.entry)
        (separated EmptyRow (map file_rows (map file_view files.now))))
        result (W.sink w.new) }
{
    let Some((first, rest)) = files.split_first() else {
        return Ok(());
    };
    write_file(w, settings, first)?;
    write_later_files(w, settings, rest)
}

/// Writes the rows of files, with an empty row before each.
fn write_later_files<W: PutStyle>(
    w: &mut W,
    settings: RowSettings<'_>,
    files: &[KeptFile],
) -> Result<(), W::Error>
    ensures { Writes (W.sink w.old)
        (stream_of_rows (settings_view settings.entry)
        (flat_map (λ rows. EmptyRow ∷ rows) (map file_rows (map file_view files.now))))
        result (W.sink w.new) }
{
    for file in files {
        write_later_file(w, settings, file)?;
    }
    Ok(())
}

/// Writes an empty row and the rows of a file.
fn write_later_file<W: PutStyle>(
    w: &mut W,
    settings: RowSettings<'_>,
    file: &KeptFile,
) -> Result<(), W::Error>
    ensures { Writes (W.sink w.old)
        (stream_of_rows (settings_view settings.entry)
        (EmptyRow ∷ file_rows (file_view file.now)))
        result (W.sink w.new) }
{
    write_empty(w, settings)?;
    write_file(w, settings, file)
}

/// Writes the rows of a file: its start, an empty row, and its hunks with breaks between them.
fn write_file<W: PutStyle>(
    w: &mut W,
    settings: RowSettings<'_>,
    file: &KeptFile,
) -> Result<(), W::Error>
    ensures { Writes (W.sink w.old)
        (stream_of_rows (settings_view settings.entry) (file_rows (file_view file.now)))
        result (W.sink w.new) }
{
    write_start(w, settings, &file.locus)?;
    write_empty(w, settings)?;
    write_hunks(w, settings, file.usual_end.as_slice(), &file.hunks)
}

/// Writes the rows of hunks, with breaks between them.
fn write_hunks<W: PutStyle>(
    w: &mut W,
    settings: RowSettings<'_>,
    usual_end: &[u8],
    hunks: &[Hunk],
) -> Result<(), W::Error>
    ensures { Writes (W.sink w.old)
        (stream_of_rows (settings_view settings.entry)
        (separated BreakRow (map (hunk_rows usual_end.now) (map hunk_view hunks.now))))
        result (W.sink w.new) }
{
    let Some((first, rest)) = hunks.split_first() else {
        return Ok(());
    };
    write_hunk(w, settings, usual_end, first)?;
    write_later_hunks(w, settings, usual_end, rest)
}

/// Writes the rows of hunks, with a break before each.
fn write_later_hunks<W: PutStyle>(
    w: &mut W,
    settings: RowSettings<'_>,
    usual_end: &[u8],
    hunks: &[Hunk],
) -> Result<(), W::Error>
    ensures { Writes (W.sink w.old)
        (stream_of_rows (settings_view settings.entry) (flat_map (λ rows. BreakRow ∷ rows)
        (map (hunk_rows usual_end.now) (map hunk_view hunks.now))))
        result (W.sink w.new) }
{
    for hunk in hunks {
        write_later_hunk(w, settings, usual_end, hunk)?;
    }
    Ok(())
}

/// Writes a break and the rows of a hunk.
fn write_later_hunk<W: PutStyle>(
    w: &mut W,
    settings: RowSettings<'_>,
    usual_end: &[u8],
    hunk: &Hunk,
) -> Result<(), W::Error>
    ensures { Writes (W.sink w.old)
        (stream_of_rows (settings_view settings.entry)
        (BreakRow ∷ hunk_rows usual_end.now (hunk_view hunk.now)))
        result (W.sink w.new) }
{
    write_break(w, settings)?;
    write_hunk(w, settings, usual_end, hunk)
}

/// Writes the rows of a hunk.
fn write_hunk<W: PutStyle>(
    w: &mut W,
    settings: RowSettings<'_>,
    usual_end: &[u8],
    hunk: &Hunk,
) -> Result<(), W::Error>
    ensures { Writes (W.sink w.old)
        (stream_of_rows (settings_view settings.entry)
        (hunk_rows usual_end.now (hunk_view hunk.now)))
        result (W.sink w.new) }
{
    for row in &hunk.rows {
        write_drawn_row(w, settings, usual_end, row)?;
    }
    Ok(())
}

/// Writes the row of a line, and that of its end if it is not the usual one.
fn write_drawn_row<W: PutStyle>(
    w: &mut W,
    settings: RowSettings<'_>,
    usual_end: &[u8],
    row: &DiffRow,
) -> Result<(), W::Error>
    ensures { Writes (W.sink w.old)
        (stream_of_rows (settings_view settings.entry)
        (line_rows usual_end.now (numbered_row row.now)))
        result (W.sink w.new) }
{
    write_line(w, settings, row)?;
    write_end_rows(w, settings, usual_end, line_end(row.line.as_bytes()))
}

/// Writes the row of a line's end, if it is not the usual one.
fn write_end_rows<W: PutStyle>(
    w: &mut W,
    settings: RowSettings<'_>,
    usual_end: &[u8],
    end: &[u8],
) -> Result<(), W::Error>
    ensures { Writes (W.sink w.old)
        (stream_of_rows (settings_view settings.entry) (end_rows usual_end.now end.now))
        result (W.sink w.new) }
{
    if end == usual_end {
        Ok(())
    } else {
        write_end(w, settings, end)
    }
}
