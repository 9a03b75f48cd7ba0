//! The edits of a suggestion as clang's fix-its.

ghost use Rattle.std.specs.Prelude.{◌≡◌, ◌++◌, ◌≤◌, ℕ, List, None, length};
ghost use Rattle.std.specs.Prelude.{flat_map, IfOk, OnOk, string_bytes};
ghost use Rattle.codespan_edits.specs.Edits.{text_edit, text_edits, ordered};
ghost use Rattle.codespan_edits.specs.Faults.{fault};
ghost use Rattle.codespan_suggestions.specs.FixIts.{range_text, fix_it, file_fix_its, AreFixIts};
ghost use Rattle.codespan_suggestions.specs.NamedFiles.{IsNameOf, named_file_fault};
ghost use Rattle.codespan_suggestions.specs.NamedFiles.{named_files_fault, FailsByFault};

use crate::edited_file::{OrderedEdits, edited_file};
use crate::error::SuggestionError;
use crate::escapes::push_quoted;
use crate::files::edited_files;
use crate::line_columns::TextLines;
use crate::suggestion::Suggestion;
use codespan_core::diagnostic::text::display_text;
use codespan_core::files::Files;
use codespan_edits::Edit;
use std::alloc::{AllocError, Global};
use std::convert::AsStr;
use std::fmt::Write;

/// Returns the edits of a suggestion as fix-its, in the format of clang's option
/// `-fdiagnostics-parseable-fixits`: a line `fix-it:"NAME":{L:C-L:C}:"TEXT"` for each edit.
///
/// The files are in the order of their first edits, and the edits of a file in their order, also
/// those that put there what is there. L and C are the numbers of the line and of the column at
/// which the range starts and ends, both from 1; columns count bytes. In names and texts `\`, `"`,
/// tabs and newlines are written `\\`, `\"`, `\t` and `\n`, and any other byte that is no printable
/// ASCII character as a backslash and three octal digits.
///
/// # Errors
///
/// - The first error, where the files are gone through in the order of their first edits: of each
///   file [`SuggestionError::Files`] with that of [`Files::source`], or else
///   [`SuggestionError::Edit`] with the fault of its edits, which names them by their indices in
///   the suggestion, or else [`SuggestionError::Files`] with that of [`Files::name`].
/// - [`SuggestionError::Files`] of `FormatError` where the `Display` of a name fails.
/// - [`SuggestionError::Files`] of `OutOfMemory` where an allocation fails.
///
/// # Examples
///
/// ```rust
/// let text = fix_its(alloc, &files, &suggestion)?;
/// assert_eq!(rt; text.as_str(), "fix-it:\"src/main.rs\":{2:17-2:18}:\"&y\"\n");
/// ```
pub fn fix_its<'files, F: Files<'files>>(
    alloc: Global,
    files: &'files F,
    suggestion: &Suggestion<F::FileId>,
) -> Result<String, SuggestionError>
    ensures text { IfOk result (λ text.
        AreFixIts (F.database files.now) suggestion.now.edits.items (string_bytes text)) }
    ensures failed { FailsByFault
        (named_files_fault (F.database files.now) suggestion.now.edits.items) result }
{
    let ids = edited_files(alloc, &suggestion.edits)?;
    let mut text = String::new(alloc);
    for id in &ids {
        push_file_fix_its(alloc, &mut text, files, &suggestion.edits, *id)?;
    }
    Ok(text)
}

/// Appends the fix-its of a file.
fn push_file_fix_its<'files, F: Files<'files>>(
    alloc: Global,
    output: &mut String,
    files: &'files F,
    edits: &[Edit<F::FileId>],
    id: F::FileId,
) -> Result<(), SuggestionError>
    ensures text { OnOk result ((name : List ℕ) × IsNameOf (F.database files.now) id name
        × (string_bytes output.new ≡ string_bytes output.old
        ++ file_fix_its (F.database files.now) edits.now (id, name))) }
    ensures failed { FailsByFault
        (named_file_fault (F.database files.now) edits.now id) result }
{
    let file = edited_file(alloc, files, edits, id)?;
    let name = display_text(alloc, files.name(id)?)?;
    let lines = TextLines::new(alloc, file.source.as_str())?;
    push_fix_its(output, name.as_str(), &lines, &file.ordered)?;
    Ok(())
}

/// Appends the lines of the edits of a file.
fn push_fix_its<FileId>(
    output: &mut String,
    name: &str,
    lines: &TextLines<'_>,
    file: &OrderedEdits<FileId>,
) -> Result<(), AllocError>
    requires { fault lines.now.text.now (text_edits file.now.edits.items) ≡ None }
    ensures { OnOk result (string_bytes output.new ≡ string_bytes output.old
        ++ flat_map (fix_it name.now lines.now.text.now)
        (ordered (text_edits file.now.edits.items))) }
{
    for index in &file.order {
        push_fix_it(output, name, lines, &file.edits[*index])?;
    }
    Ok(())
}

/// Appends the line of an edit.
fn push_fix_it<FileId>(
    output: &mut String,
    name: &str,
    lines: &TextLines<'_>,
    edit: &Edit<FileId>,
) -> Result<(), AllocError>
    requires start { edit.now.range.start ≤ length lines.now.text.now }
    requires end { edit.now.range.end ≤ length lines.now.text.now }
    ensures { OnOk result (string_bytes output.new ≡ string_bytes output.old
        ++ fix_it name.now lines.now.text.now (text_edit edit.now)) }
{
    output.push_str("fix-it:")?;
    push_quoted(output, name)?;
    output.push(':')?;
    push_range(output, lines, edit)?;
    output.push(':')?;
    push_quoted(output, edit.replacement.as_str())?;
    output.push('\n')?;
    Ok(())
}

/// Appends the range of an edit.
fn push_range<FileId>(
    output: &mut String,
    lines: &TextLines<'_>,
    edit: &Edit<FileId>,
) -> Result<(), AllocError>
    requires start { edit.now.range.start ≤ length lines.now.text.now }
    requires end { edit.now.range.end ≤ length lines.now.text.now }
    ensures { OnOk result (string_bytes output.new ≡ string_bytes output.old
        ++ range_text lines.now.text.now (text_edit edit.now)) }
{
    let start = lines.line_column(edit.range.start);
    let end = lines.line_column(edit.range.end);
    write!(
        output,
        "{{{}:{}-{}:{}}}",
        start.line, start.column, end.line, end.column
    )
}
