//! A suggestion as a code action of an editor.

ghost use Rattle.std.specs.Prelude.{◌≡◌, None, map, codes, IfOk};
ghost use Rattle.codespan_core.specs.LawfulFiles as of_files;
ghost use Rattle.codespan_edits.specs.Edits.{text_edit, text_edits, ordered};
ghost use Rattle.codespan_edits.specs.Faults.{fault};
ghost use Rattle.codespan_lsp.specs.Positions.{first_failure};
ghost use Rattle.codespan_suggestions.specs.CodeActions.{text_edit_view, action_view, is_preferred};
ghost use Rattle.codespan_suggestions.specs.CodeActions.{text_edit_of, edit_failure};
ghost use Rattle.codespan_suggestions.specs.CodeActions.{file_text_edits, action_file_fault};
ghost use Rattle.codespan_suggestions.specs.CodeActions.{action_fault, action_of};
ghost use Rattle.codespan_suggestions.specs.Faults.{FailsBy};

use crate::edited_file::{OrderedEdits, edited_file};
use crate::error::SuggestionError;
use crate::files::edited_files;
use crate::suggestion::{Applicability, Suggestion};
use codespan_core::files::{Error, Files};
use codespan_edits::Edit;
use codespan_lsp::{PositionEncoding, Range};
use std::alloc::Global;

/// The kind of a code action.
#[derive(Clone, Copy, Debug, PartialEq, Eq)]
pub enum CodeActionKind {
    /// It fixes what a diagnostic says.
    QuickFix,
}

impl CodeActionKind {
    /// Returns the protocol's name of the kind: `quickfix`.
    pub fn name(self) -> &'static str
        ensures { result.now ≡ codes "quickfix" }
    {
        match self {
            CodeActionKind::QuickFix => "quickfix",
        }
    }
}

/// An edit of a file's text as the protocol has it.
#[derive(Debug, Drop, PartialEq, Eq)]
pub struct TextEdit {
    /// The range that is replaced.
    pub range: Range,
    /// The text that is put in its place.
    pub new_text: String,
}

/// The edits of a file.
#[derive(Debug, Drop, PartialEq, Eq)]
pub struct FileTextEdits<FileId> {
    /// The id of the file.
    pub file_id: FileId,
    /// The edits, in the order of their ranges. Insertions at one position are in the order in
    /// which their texts come.
    pub text_edits: Vec<TextEdit>,
}

/// A code action as a language server sends it.
#[derive(Debug, Drop, PartialEq, Eq)]
pub struct CodeAction<FileId> {
    /// The title, which says what the action does.
    pub title: String,
    /// The kind.
    pub kind: CodeActionKind,
    /// Whether the action is preferred: an editor may apply it without asking.
    pub is_preferred: bool,
    /// The edits of each file: what the protocol calls the workspace edit.
    pub edit: Vec<FileTextEdits<FileId>>,
}

/// Returns a suggestion as a code action. Its title is the message, its kind is
/// [`CodeActionKind::QuickFix`], and it is preferred where the suggestion is
/// [`Applicability::MachineApplicable`]. It has the files in the order of their first edits, and of
/// each its edits in order, with the ranges that [`PositionEncoding::byte_span_to_range`] returns.
///
/// # Errors
///
/// - The first error, where the files are gone through in the order of their first edits: of each
///   file [`SuggestionError::Files`] with that of [`Files::source`], or else
///   [`SuggestionError::Edit`] with the fault of its edits, which names them by their indices in
///   the suggestion, or else [`SuggestionError::Files`] with the first error of
///   [`PositionEncoding::byte_span_to_range`] for the ranges of its edits in order.
/// - [`SuggestionError::Files`] of `OutOfMemory` where an allocation fails.
///
/// # Examples
///
/// ```rust
/// let action = code_action(PositionEncoding::Utf16, &files, &suggestion)?;
/// for file in &action.edit {
///     publish(file.file_id, &file.text_edits);
/// }
/// ```
pub fn code_action<'files, F: Files<'files>>(
    encoding: PositionEncoding,
    files: &'files F,
    suggestion: &Suggestion<F::FileId>,
) -> Result<CodeAction<F::FileId>, SuggestionError>
    ensures action { IfOk result (λ action.
        action_view action ≡ action_of encoding (F.database files.now) suggestion.now) }
    ensures failed { FailsBy
        (action_fault encoding (F.database files.now) suggestion.now.edits.items) result }
{
    let alloc = *suggestion.message.allocator();
    let ids = edited_files(alloc, &suggestion.edits)?;
    let mut edit = Vec::with_capacity(alloc, ids.len())?;
    for id in &ids {
        let text_edits = file_text_edits(alloc, encoding, files, &suggestion.edits, *id)?;
        edit.push(FileTextEdits {
            file_id: *id,
            text_edits,
        })?;
    }
    Ok(CodeAction {
        title: suggestion.message.clone()?,
        kind: CodeActionKind::QuickFix,
        is_preferred: is_preferred(suggestion.applicability),
        edit,
    })
}

/// Returns whether a suggestion may be applied without asking.
fn is_preferred(applicability: Applicability) -> bool
    ensures { result ≡ is_preferred applicability }
{
    match applicability {
        Applicability::MachineApplicable => true,
        _ => false,
    }
}

/// Returns the text edits of a file.
fn file_text_edits<'files, F: Files<'files>>(
    alloc: Global,
    encoding: PositionEncoding,
    files: &'files F,
    edits: &[Edit<F::FileId>],
    id: F::FileId,
) -> Result<Vec<TextEdit>, SuggestionError>
    ensures edits { IfOk result (λ found. map text_edit_view found.items
        ≡ file_text_edits encoding (F.database files.now) edits.now id) }
    ensures failed { FailsBy
        (action_file_fault encoding (F.database files.now) edits.now id) result }
{
    let file = edited_file(alloc, files, edits, id)?;
    Ok(text_edits(alloc, encoding, files, id, &file.ordered)?)
}

/// Returns the text edits of edits of a file, in their order.
fn text_edits<'files, F: Files<'files>>(
    alloc: Global,
    encoding: PositionEncoding,
    files: &'files F,
    id: F::FileId,
    file: &OrderedEdits<F::FileId>,
) -> Result<Vec<TextEdit>, Error>
    requires { fault ((F.database files.now).file id).text (text_edits file.now.edits.items)
        ≡ None }
    ensures edits { let database = F.database files.now in
        IfOk result (λ found. map text_edit_view found.items
        ≡ map (text_edit_of encoding (database.file id))
        (ordered (text_edits file.now.edits.items))) }
    ensures failed { let database = F.database files.now in
        of_files.FailsBy (first_failure
        (map (edit_failure encoding (database.file id) (database.failure id))
        (ordered (text_edits file.now.edits.items)))) result }
{
    let mut found = Vec::with_capacity(alloc, file.order.len())?;
    for index in &file.order {
        let edit = text_edit(encoding, files, id, &file.edits[*index])?;
        found.push(edit)?;
    }
    Ok(found)
}

/// Returns the text edit of an edit of a file.
fn text_edit<'files, F: Files<'files>>(
    encoding: PositionEncoding,
    files: &'files F,
    id: F::FileId,
    edit: &Edit<F::FileId>,
) -> Result<TextEdit, Error>
    ensures edit { let database = F.database files.now in
        IfOk result (λ found. text_edit_view found
        ≡ text_edit_of encoding (database.file id) (text_edit edit.now)) }
    ensures failed { let database = F.database files.now in
        of_files.FailsBy (edit_failure encoding (database.file id) (database.failure id)
        (text_edit edit.now)) result }
{
    let span = edit.range.start..edit.range.end;
    let range = encoding.byte_span_to_range(files, id, span)?;
    Ok(TextEdit {
        range,
        new_text: edit.replacement.clone()?,
    })
}
