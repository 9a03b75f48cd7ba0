//! The edits of a suggestion as a unified diff.

ghost use Rattle.std.specs.Prelude.{◌≡◌, ◌++◌, ◌∷◌, [], ℕ, List, flat_map, codes};
ghost use Rattle.std.specs.Prelude.{IfOk, OnOk, string_bytes};
ghost use Rattle.codespan_edits.specs.Diffs.{is_whole};
ghost use Rattle.codespan_edits.specs.RowViews.{row_view, hunks_view};
ghost use Rattle.codespan_suggestions.specs.Faults.{file_fault, FailsBy};
ghost use Rattle.codespan_suggestions.specs.NamedFiles.{IsNameOf, named_file_fault};
ghost use Rattle.codespan_suggestions.specs.NamedFiles.{named_files_fault, FailsByFault};
ghost use Rattle.codespan_suggestions.specs.Private.Spans.{numbered_rows, rows_of_hunks};
ghost use Rattle.codespan_suggestions.specs.PatchLaws.{TextIsPatch};
ghost use Rattle.codespan_suggestions.specs.UnifiedDiffs.{needs_quotes, has_space, path_text};
ghost use Rattle.codespan_suggestions.specs.UnifiedDiffs.{file_header, hunk_header, sign_byte};
ghost use Rattle.codespan_suggestions.specs.UnifiedDiffs.{row_text, hunk_text, patch_text};
ghost use Rattle.codespan_suggestions.specs.UnifiedDiffs.{file_hunks, file_patch, IsUnifiedDiff};

use crate::apply::by_indices;
use crate::error::SuggestionError;
use crate::escapes::push_escaped;
use crate::files::{edited_files, edits_of_file};
use crate::hunk_spans::hunk_spans;
use crate::suggestion::Suggestion;
use codespan_core::diagnostic::text::display_text;
use codespan_core::files::{Error, Files};
use codespan_edits::{DiffContext, DiffRow, Edit, EditError, Hunk, RowSign, diff_hunks};
use std::alloc::{AllocError, Global};
use std::convert::AsStr;
use std::fmt::Write;

/// Returns the edits of a suggestion as a unified diff, as the program `patch` reads it with the
/// option `-p1`: of each file that changes the lines `--- a/NAME` and `+++ b/NAME`, and the hunks
/// of its diff, with three lines of context. It is empty where no file changes.
///
/// The files are in the order of their first edits. A line without newline is followed by one, and
/// by the line `\ No newline at end of file`. A name with a space is followed by a tab; one with a
/// control character, a quotation mark or a backslash is written between quotation marks, as
/// [`fix_its`](crate::fix_its) writes names.
///
/// # Errors
///
/// - The first error, where the files are gone through in the order of their first edits: of each
///   file [`SuggestionError::Files`] with that of [`Files::source`], or else
///   [`SuggestionError::Edit`] with the fault of its edits, which names them by their indices in
///   the suggestion, or else [`SuggestionError::Files`] with that of [`Files::name`].
/// - [`SuggestionError::Files`] of `FormatError` where the `Display` of a name fails.
/// - [`SuggestionError::Files`] of `OutOfMemory` where an allocation fails.
///
/// # Examples
///
/// ```rust
/// let text = unified_diff(alloc, &files, &suggestion)?;
/// assert_eq!(rt;
///     text.as_str(),
///     "--- a/f.rs\n+++ b/f.rs\n@@ -1,1 +1,1 @@\n-foo(y)\n+foo(&y)\n"
/// );
/// ```
pub fn unified_diff<'files, F: Files<'files>>(
    alloc: Global,
    files: &'files F,
    suggestion: &Suggestion<F::FileId>,
) -> Result<String, SuggestionError>
    ensures text { IfOk result (λ text.
        IsUnifiedDiff (F.database files.now) suggestion.now.edits.items (string_bytes text)) }
    ensures patches { IfOk result (λ text.
        TextIsPatch (F.database files.now) suggestion.now.edits.items (string_bytes text)) }
    ensures failed { FailsByFault
        (named_files_fault (F.database files.now) suggestion.now.edits.items) result }
{
    let ids = edited_files(alloc, &suggestion.edits)?;
    let mut text = String::new(alloc);
    for id in &ids {
        push_file_patch(alloc, &mut text, files, &suggestion.edits, *id)?;
    }
    Ok(text)
}

/// Appends the patch of a file.
fn push_file_patch<'files, F: Files<'files>>(
    alloc: Global,
    output: &mut String,
    files: &'files F,
    edits: &[Edit<F::FileId>],
    id: F::FileId,
) -> Result<(), SuggestionError>
    ensures text { OnOk result ((name : List ℕ) × IsNameOf (F.database files.now) id name
        × (string_bytes output.new ≡ string_bytes output.old
        ++ file_patch (F.database files.now) edits.now (id, name))) }
    ensures failed { FailsByFault
        (named_file_fault (F.database files.now) edits.now id) result }
{
    let hunks = file_hunks(alloc, files, edits, id)?;
    let name = display_text(alloc, files.name(id)?)?;
    push_patch(output, name.as_str(), &hunks)?;
    Ok(())
}

/// Looks up the source of a file, and returns the hunks of its diff.
fn file_hunks<'files, F: Files<'files>>(
    alloc: Global,
    files: &'files F,
    edits: &[Edit<F::FileId>],
    id: F::FileId,
) -> Result<Vec<Hunk>, SuggestionError>
    ensures hunks { IfOk result (λ hunks.
        hunks_view hunks ≡ file_hunks (F.database files.now) edits.now id) }
    ensures failed { FailsBy (file_fault (F.database files.now) edits.now id) result }
{
    let source = files.source(id)?;
    let found = edits_of_file(alloc, edits, id)?;
    let context = DiffContext {
        before: 3,
        after: 3,
    };
    match diff_hunks(alloc, source.as_str(), &found.edits, context) {
        Ok(hunks) => Ok(hunks),
        Err(error) => match error {
            EditError::OutOfMemory => Err(SuggestionError::Files(Error::OutOfMemory)),
            _ => Err(SuggestionError::Edit(by_indices(&found.indices, error))),
        },
    }
}

/// Appends the patch of a file with these hunks, if there are any.
fn push_patch(output: &mut String, name: &str, hunks: &[Hunk]) -> Result<(), AllocError>
    ensures { OnOk result (string_bytes output.new
        ≡ string_bytes output.old ++ patch_text name.now (rows_of_hunks hunks.now)) }
{
    if hunks.is_empty() {
        return Ok(());
    }
    push_file_header(output, name)?;
    push_hunks(output, hunks)
}

/// Appends the two lines before the hunks of a file.
fn push_file_header(output: &mut String, name: &str) -> Result<(), AllocError>
    ensures { OnOk result (string_bytes output.new
        ≡ string_bytes output.old ++ file_header name.now) }
{
    output.push_str("--- ")?;
    push_path(output, "a/", name)?;
    output.push_str("\n+++ ")?;
    push_path(output, "b/", name)?;
    output.push_str("\n")?;
    Ok(())
}

/// Appends the path of a file in this folder.
fn push_path(output: &mut String, folder: &str, name: &str) -> Result<(), AllocError>
    ensures { OnOk result (string_bytes output.new
        ≡ string_bytes output.old ++ path_text folder.now name.now) }
{
    if needs_quotes(name) {
        output.push_str("\"")?;
        push_escaped(output, folder)?;
        push_escaped(output, name)?;
        output.push_str("\"")?;
        return Ok(());
    }
    output.push_str(folder)?;
    output.push_str(name)?;
    if has_space(name) {
        output.push_str("\t")?;
    }
    Ok(())
}

/// Returns whether a name has a control character, a quotation mark or a backslash.
fn needs_quotes(name: &str) -> bool
    ensures { result ≡ needs_quotes name.now }
{
    for byte in name.as_bytes() {
        if *byte < 32 || *byte == 127 || *byte == b'"' || *byte == b'\\' {
            return true;
        }
    }
    false
}

/// Returns whether a name has a space.
fn has_space(name: &str) -> bool
    ensures { result ≡ has_space name.now }
{
    for byte in name.as_bytes() {
        if *byte == b' ' {
            return true;
        }
    }
    false
}

/// Appends hunks.
fn push_hunks(output: &mut String, hunks: &[Hunk]) -> Result<(), AllocError>
    ensures { OnOk result (string_bytes output.new
        ≡ string_bytes output.old ++ flat_map hunk_text (rows_of_hunks hunks.now)) }
{
    for hunk in hunks {
        push_hunk(output, &hunk.rows)?;
    }
    Ok(())
}

/// Appends a hunk with these rows.
fn push_hunk(output: &mut String, rows: &[DiffRow]) -> Result<(), AllocError>
    ensures { OnOk result (string_bytes output.new
        ≡ string_bytes output.old ++ hunk_text (numbered_rows rows.now)) }
{
    push_hunk_header(output, rows)?;
    for row in rows {
        push_row(output, row)?;
    }
    Ok(())
}

/// Appends the line before the rows of a hunk.
fn push_hunk_header(output: &mut String, rows: &[DiffRow]) -> Result<(), AllocError>
    ensures { OnOk result (string_bytes output.new
        ≡ string_bytes output.old ++ hunk_header (numbered_rows rows.now)) }
{
    let spans = hunk_spans(rows);
    write!(
        output,
        "@@ -{},{} +{},{} @@\n",
        spans.old.first, spans.old.count, spans.new.first, spans.new.count
    )
}

/// Appends a row.
fn push_row(output: &mut String, row: &DiffRow) -> Result<(), AllocError>
    ensures { OnOk result (string_bytes output.new
        ≡ string_bytes output.old ++ row_text (row_view row.now)) }
{
    output.push_str(sign_text(row.sign))?;
    output.push_str(row.line.as_str())?;
    if !ends_with_newline(row.line.as_str()) {
        output.push_str("\n\\ No newline at end of file\n")?;
    }
    Ok(())
}

/// Returns the character of a sign.
fn sign_text(sign: RowSign) -> &'static str
    ensures { result.now ≡ sign_byte sign ∷ [] }
{
    match sign {
        RowSign::Kept => " ",
        RowSign::Removed => "-",
        RowSign::Added => "+",
    }
}

/// Returns whether a line ends with a newline. The empty text counts as one that does.
fn ends_with_newline(line: &str) -> bool
    ensures { result ≡ is_whole line.now }
{
    match line.as_bytes().last() {
        Some(byte) => *byte == b'\n',
        None => true,
    }
}
