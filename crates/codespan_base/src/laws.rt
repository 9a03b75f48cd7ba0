//! Laws of files, line starts and columns; those of severities and label styles are re-exported.
//! Each is the contract of a function that does nothing and does not fail.
//!
//! Users name them as `codespan_base::laws`.

ghost use Rattle.std.specs.Prelude.{◌≡◌, ℕ, List, Option};
ghost use Rattle.std.specs.Iterator.{IsFinite, Drains};
ghost use Rattle.std.specs.Str.{IsUtf8};
ghost use Rattle.codespan_base.specs.FileLaws.{LinesJoin, LineCountsNewlines, ColumnsNeverDecrease};
ghost use Rattle.codespan_base.specs.FileLaws.{nearest_set_after};
ghost use Rattle.codespan_base.specs.MappedModel.{nearest_set, with_set_number};
ghost use Rattle.codespan_base.specs.SetLineNumbers.{IsStrictlySorted};
ghost use Rattle.codespan_core.specs.LineStarts.{remaining_starts};
ghost use Rattle.codespan_core.specs.SimpleModel.{simple_file};
ghost use Rattle.codespan_core.specs.declared.files.starts.LineStarts.{LineStarts};

use codespan_core::files::LineStarts;
pub use codespan_core::laws::{label_styles_agree, severities_agree};

/// States that the line ranges of a [`SimpleFile`](codespan_reporting::files::SimpleFile) follow
/// each other from byte 0 to the length of its source, and that its lines join to the source.
pub fn lines_join_to_source()
    ensures { (name : Option (List ℕ)) (text : List ℕ) → IsUtf8 text →
        LinesJoin (simple_file name text) }
{}

/// States that in a [`SimpleFile`](codespan_reporting::files::SimpleFile) the index of a byte's
/// line, from 0, is the number of newlines before the byte. Past the end of the text it is that of
/// the last line.
pub fn line_counts_newlines()
    ensures { (name : Option (List ℕ)) (text : List ℕ) →
        LineCountsNewlines (simple_file name text) }
{}

/// States that once a line's number is set in a
/// [`MappedFile`](codespan_reporting::files::MappedFile), that line and the lines after it count
/// from there, up to the next line whose number is set; the lines above count as before.
pub fn set_numbers_count_on()
    ensures { (set_numbers : List (ℕ × ℕ)) (line number i : ℕ)
        → IsStrictlySorted set_numbers →
        nearest_set (with_set_number line number set_numbers) i
        ≡ nearest_set_after line number i (nearest_set set_numbers i) }
{}

/// States that on a line a later byte has no smaller column.
pub fn columns_never_decrease()
    ensures { ColumnsNeverDecrease }
{}

/// States that the iterator of [`line_starts`](codespan_reporting::files::line_starts) ends, and
/// that it has then returned all starts that were left. By the contract of `line_starts` these are,
/// at first, all starts of the text.
pub fn line_starts_end()
    ensures ends { (starts : LineStarts) →
        IsFinite (⟦<LineStarts<'static> as Iterator>⟧.remaining starts) }
    ensures drained { (starts : LineStarts) (items : List ℕ) →
        Drains ⟦<LineStarts<'static> as Iterator>⟧.next_gives starts items →
        items ≡ remaining_starts starts }
{}
