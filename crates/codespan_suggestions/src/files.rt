//! The files that a suggestion edits, and the edits of each.

ghost use Rattle.std.specs.Prelude.{◌≡◌, IfOk, OnErr, IsErrOf};
ghost use Rattle.std.specs.List.{list_any};
ghost use Rattle.codespan_edits.specs.Edits.{text_edits};
ghost use Rattle.codespan_suggestions.specs.EditedFiles.{edited_files, indices_of_file};
ghost use Rattle.codespan_suggestions.specs.EditedFiles.{edits_of_file};

use codespan_core::files::Error;
use codespan_edits::Edit;
use std::alloc::Global;

/// Copies of the edits of a file, with their indices in the suggestion.
#[derive(Drop)]
pub(crate) struct FileEdits<FileId> {
    /// The edits, in the order of the suggestion.
    pub(crate) edits: Vec<Edit<FileId>>,
    /// The index of each.
    pub(crate) indices: Vec<usize>,
}

/// Returns the ids of the edits' files, in the order of their first edits; fails with `OutOfMemory`
/// where an allocation fails.
pub(crate) fn edited_files<FileId: Copy + Eq>(
    alloc: Global,
    edits: &[Edit<FileId>],
) -> Result<Vec<FileId>, Error>
    ensures ids { IfOk result (λ ids. ids.items ≡ edited_files FileId.eq edits.now) }
    ensures failed { OnErr result (IsErrOf result Error.OutOfMemory) }
{
    let mut ids = Vec::new(alloc);
    for edit in edits {
        if !has_file(&ids, edit.file_id) {
            ids.push(edit.file_id)?;
        }
    }
    Ok(ids)
}

/// Returns whether one of the ids is equal to this one.
fn has_file<FileId: Copy + Eq>(ids: &[FileId], file_id: FileId) -> bool
    ensures { result ≡ list_any (λ id. FileId.eq id file_id) ids.now }
{
    for id in ids {
        if *id == file_id {
            return true;
        }
    }
    false
}

/// Returns the edits of a file; fails with `OutOfMemory` where an allocation fails.
pub(crate) fn edits_of_file<FileId: Copy + Eq>(
    alloc: Global,
    edits: &[Edit<FileId>],
    file_id: FileId,
) -> Result<FileEdits<FileId>, Error>
    ensures edits { IfOk result (λ found.
        text_edits found.edits.items ≡ edits_of_file FileId.eq edits.now file_id) }
    ensures indices { IfOk result (λ found.
        found.indices.items ≡ indices_of_file FileId.eq edits.now file_id) }
    ensures failed { OnErr result (IsErrOf result Error.OutOfMemory) }
{
    let mut found = FileEdits {
        edits: Vec::new(alloc),
        indices: Vec::new(alloc),
    };
    for (index, edit) in edits.iter().enumerate() {
        if file_id == edit.file_id {
            found.edits.push(edit.clone()?)?;
            found.indices.push(index)?;
        }
    }
    Ok(found)
}
