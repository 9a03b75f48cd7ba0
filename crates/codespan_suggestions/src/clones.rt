//! Copies of suggestions.

ghost use Rattle.std.specs.Prelude.{◌≡◌, IfOk, OnErr, IsErrOf, map};
ghost use Rattle.codespan_suggestions.specs.Views.{suggestion_view, edit_view};

use crate::suggestion::Suggestion;
use codespan_core::files::Error;
use codespan_edits::Edit;

impl<FileId: Copy> Suggestion<FileId> {
    /// Returns an equal suggestion.
    ///
    /// # Errors
    ///
    /// [`Error::OutOfMemory`] where an allocation fails.
    pub fn clone(&self) -> Result<Self, Error>
        ensures same { IfOk result (λ s. suggestion_view s ≡ suggestion_view self.now) }
        ensures failed { OnErr result (IsErrOf result Error.OutOfMemory) }
    {
        Ok(Suggestion {
            message: self.message.clone()?,
            applicability: self.applicability,
            edits: clone_edits(&self.edits)?,
        })
    }
}

/// Returns equal edits in the same order; fails with `OutOfMemory` where an allocation fails.
fn clone_edits<FileId: Copy>(edits: &Vec<Edit<FileId>>) -> Result<Vec<Edit<FileId>>, Error>
    ensures same { IfOk result (λ copies.
        map edit_view copies.items ≡ map edit_view edits.now.items) }
    ensures failed { OnErr result (IsErrOf result Error.OutOfMemory) }
{
    let mut copies = Vec::new(*edits.allocator());
    for edit in edits {
        copies.push(edit.clone()?)?;
    }
    Ok(copies)
}
