//! Copies of labels and diagnostics.

ghost use Rattle.std.specs.Prelude.{◌≡◌, IfOk, OnErr, IsErrOf, string_bytes, map};
ghost use Rattle.codespan_core.specs.Diagnostics.{diagnostic_view, label_view};

use crate::diagnostic::{Diagnostic, Label};
use crate::files::Error;

impl<FileId: Copy> Label<FileId> {
    /// Returns an equal label.
    ///
    /// # Errors
    ///
    /// [`Error::OutOfMemory`] where an allocation fails.
    pub fn clone(&self) -> Result<Self, Error>
        ensures same { IfOk result (λ label. label_view label ≡ label_view self.now) }
        ensures failed { OnErr result (IsErrOf result Error.OutOfMemory) }
    {
        Ok(Label {
            style: self.style,
            file_id: self.file_id,
            range: self.range.start..self.range.end,
            message: self.message.clone()?,
        })
    }
}

impl<FileId: Copy> Diagnostic<FileId> {
    /// Returns an equal diagnostic.
    ///
    /// # Errors
    ///
    /// [`Error::OutOfMemory`] where an allocation fails.
    pub fn clone(&self) -> Result<Self, Error>
        ensures same { IfOk result (λ d. diagnostic_view d ≡ diagnostic_view self.now) }
        ensures failed { OnErr result (IsErrOf result Error.OutOfMemory) }
    {
        let code = match &self.code {
            Some(code) => Some(code.clone()?),
            None => None,
        };
        Ok(Diagnostic {
            severity: self.severity,
            code,
            message: self.message.clone()?,
            labels: clone_labels(&self.labels)?,
            notes: clone_notes(&self.notes)?,
        })
    }
}

/// Returns equal labels in the same order; fails with `OutOfMemory` where an allocation fails.
fn clone_labels<FileId: Copy>(labels: &Vec<Label<FileId>>) -> Result<Vec<Label<FileId>>, Error>
    ensures same { IfOk result (λ copies.
        map label_view copies.items ≡ map label_view labels.now.items) }
    ensures failed { OnErr result (IsErrOf result Error.OutOfMemory) }
{
    let mut copies = Vec::new(*labels.allocator());
    for label in labels {
        copies.push(label.clone()?)?;
    }
    Ok(copies)
}

/// Returns equal notes in the same order; fails with `OutOfMemory` where an allocation fails.
fn clone_notes(notes: &Vec<String>) -> Result<Vec<String>, Error>
    ensures same { IfOk result (λ copies.
        map string_bytes copies.items ≡ map string_bytes notes.now.items) }
    ensures failed { OnErr result (IsErrOf result Error.OutOfMemory) }
{
    let mut copies = Vec::new(*notes.allocator());
    for note in notes {
        copies.push(note.clone()?)?;
    }
    Ok(copies)
}
