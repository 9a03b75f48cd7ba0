//! The padding width of the numbers of an output.

ghost use Rattle.std.specs.Prelude.{◌≡◌, map, max, fold, flat_map};
ghost use Rattle.codespan_output.specs.Padding.{count_digits};
ghost use Rattle.codespan_edits.specs.RowViews.{numbered_row, numbered_view};
ghost use Rattle.codespan_suggestions.specs.SuggestionRows.{row_numbers, file_digits, padding_of};
ghost use Rattle.codespan_suggestions.specs.Private.FileViews.{file_view};

use crate::drawn_files::KeptFile;
use codespan_edits::{DiffRow, Hunk};
use codespan_output::padding::PaddingWidth;

/// Returns the greatest number of digits of a number of these files' rows, or 0 where there is
/// none.
pub(crate) fn padding_width(files: &[KeptFile]) -> usize
    ensures { result ≡ padding_of (map file_view files.now) }
{
    let mut width = PaddingWidth::with_digit_count(0);
    for file in files {
        fit_file(&mut width, file);
    }
    width.digit_count
}

/// Widens the padding to the numbers of a file's rows.
fn fit_file(width: &mut PaddingWidth, file: &KeptFile)
    ensures { width.new.digit_count ≡ fold max width.old.digit_count (file_digits
        (file_view file.now)) }
{
    for hunk in &file.hunks {
        fit_hunk(width, hunk);
    }
}

/// Widens the padding to the numbers of a hunk's rows.
fn fit_hunk(width: &mut PaddingWidth, hunk: &Hunk)
    ensures { width.new.digit_count ≡ fold max width.old.digit_count
        (flat_map (λ r. map count_digits (row_numbers r)) (numbered_view hunk.now.rows)) }
{
    for row in &hunk.rows {
        fit_row(width, row);
    }
}

/// Widens the padding to the numbers of a row.
fn fit_row(width: &mut PaddingWidth, row: &DiffRow)
    ensures { width.new.digit_count ≡ fold max width.old.digit_count
        (map count_digits (row_numbers (numbered_row row.now))) }
{
    if let Some(number) = row.old_number {
        width.fit(number);
    }
    if let Some(number) = row.new_number {
        width.fit(number);
    }
}
