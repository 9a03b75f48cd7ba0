//! A file that a suggestion edits: its source, and its edits with their order.

ghost use Rattle.std.specs.Prelude.{◌≡◌, IfOk};
ghost use Rattle.codespan_edits.specs.Edits.{text_edits, order_of};
ghost use Rattle.codespan_suggestions.specs.EditedFiles.{edits_of_file};
ghost use Rattle.codespan_suggestions.specs.Faults.{file_fault, FailsBy};

use crate::apply::by_indices;
use crate::error::SuggestionError;
use crate::files::edits_of_file;
use codespan_core::files::{Error, Files};
use codespan_edits::{Edit, EditError, order_of_edits};
use std::alloc::Global;
use std::convert::AsStr;

/// Edits of a file with their order.
#[derive(Drop)]
pub(crate) struct OrderedEdits<FileId> {
    /// The edits, in the order of the suggestion.
    pub(crate) edits: Vec<Edit<FileId>>,
    /// The index of each edit of the list, in the order of their ranges.
    pub(crate) order: Vec<usize>,
    ghost ordered: { order.items ≡ order_of (text_edits edits.items) },
}

/// The source of a file, and copies of its edits.
#[derive(Drop)]
pub(crate) struct EditedFile<FileId, Source> {
    /// The source.
    pub(crate) source: Source,
    /// The edits.
    pub(crate) ordered: OrderedEdits<FileId>,
}

/// Looks up the source of a file, and returns it with the edits of the file and their order.
pub(crate) fn edited_file<'files, F: Files<'files>>(
    alloc: Global,
    files: &'files F,
    edits: &[Edit<F::FileId>],
    id: F::FileId,
) -> Result<EditedFile<F::FileId, F::Source>, SuggestionError>
    ensures source { IfOk result (λ file.
        F.Source.text file.source ≡ ((F.database files.now).file id).text) }
    ensures edits { IfOk result (λ file. text_edits file.ordered.edits.items
        ≡ edits_of_file (F.database files.now).same edits.now id) }
    ensures failed { FailsBy (file_fault (F.database files.now) edits.now id) result }
{
    let source = files.source(id)?;
    let found = edits_of_file(alloc, edits, id)?;
    match order_of_edits(alloc, source.as_str(), &found.edits) {
        Ok(order) => Ok(EditedFile {
            source,
            ordered: OrderedEdits {
                edits: found.edits,
                order,
            },
        }),
        Err(error) => match error {
            EditError::OutOfMemory => Err(SuggestionError::Files(Error::OutOfMemory)),
            _ => Err(SuggestionError::Edit(by_indices(&found.indices, error))),
        },
    }
}
