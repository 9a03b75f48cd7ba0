//! The texts that a suggestion makes.

ghost use Rattle.std.specs.Prelude.{◌≡◌, IfOk, string_bytes, length};
ghost use Rattle.codespan_suggestions.specs.EditedFiles.{edited_text, edited_texts, texts_view};
ghost use Rattle.codespan_suggestions.specs.Faults.{by_indices, file_fault, suggestion_fault};
ghost use Rattle.codespan_suggestions.specs.Faults.{FailsBy, NamesEdits};

use crate::error::SuggestionError;
use crate::files::{edited_files, edits_of_file};
use crate::suggestion::Suggestion;
use codespan_core::files::{Error, Files};
use codespan_edits::{Edit, EditError, apply_edits};
use std::alloc::Global;
use std::convert::AsStr;

/// Returns of each file with an edit its text after all of its edits, with the id that its first
/// edit has. The files are in the order of their first edits.
///
/// Time is O(n log n + n f + b), for n edits of f files, and b bytes of the sources and the
/// replacements.
///
/// # Errors
///
/// - The first error, where the files are gone through in the order of their first edits: of each
///   file [`SuggestionError::Files`] with that of [`Files::source`], or else
///   [`SuggestionError::Edit`] with that of [`apply_edits`] over its edits, which names them by
///   their indices in the suggestion.
/// - [`SuggestionError::Files`] of `OutOfMemory` where an allocation fails, or where the length of
///   a result does not fit into a `usize`.
///
/// # Examples
///
/// ```rust
/// for (id, text) in &apply_suggestion(alloc, &files, &suggestion)? {
///     save(*id, text.as_str());
/// }
/// ```
pub fn apply_suggestion<'files, F: Files<'files>>(
    alloc: Global,
    files: &'files F,
    suggestion: &Suggestion<F::FileId>,
) -> Result<Vec<(F::FileId, String)>, SuggestionError>
    ensures texts { IfOk result (λ texts. texts_view texts
        ≡ edited_texts (F.database files.now) suggestion.now.edits.items) }
    ensures failed { FailsBy
        (suggestion_fault (F.database files.now) suggestion.now.edits.items) result }
{
    let ids = edited_files(alloc, &suggestion.edits)?;
    let mut texts = Vec::with_capacity(alloc, ids.len())?;
    for id in &ids {
        let text = edited_text(alloc, files, &suggestion.edits, *id)?;
        texts.push((*id, text))?;
    }
    Ok(texts)
}

/// Returns the text of a file after its edits.
fn edited_text<'files, F: Files<'files>>(
    alloc: Global,
    files: &'files F,
    edits: &[Edit<F::FileId>],
    id: F::FileId,
) -> Result<String, SuggestionError>
    ensures text { IfOk result (λ text.
        string_bytes text ≡ edited_text (F.database files.now) edits.now id) }
    ensures failed { FailsBy (file_fault (F.database files.now) edits.now id) result }
{
    let source = files.source(id)?;
    let found = edits_of_file(alloc, edits, id)?;
    match apply_edits(alloc, source.as_str(), &found.edits) {
        Ok(text) => Ok(text),
        Err(error) => match error {
            EditError::OutOfMemory => Err(SuggestionError::Files(Error::OutOfMemory)),
            _ => Err(SuggestionError::Edit(by_indices(&found.indices, error))),
        },
    }
}

/// Returns an error of a list of edits, of which each is named by another index.
pub(crate) fn by_indices(indices: &[usize], error: EditError) -> EditError
    requires { NamesEdits (length indices.now) error }
    ensures { result ≡ by_indices indices.now error }
{
    match error {
        EditError::Reversed { edit } => EditError::Reversed {
            edit: indices[edit],
        },
        EditError::PastEnd { edit, len } => EditError::PastEnd {
            edit: indices[edit],
            len,
        },
        EditError::NotCharBoundary { edit, byte } => EditError::NotCharBoundary {
            edit: indices[edit],
            byte,
        },
        EditError::Overlap { edit, other } => EditError::Overlap {
            edit: indices[edit],
            other: indices[other],
        },
        EditError::OutOfMemory => EditError::OutOfMemory,
    }
}
