//! Converts edits.

ghost use Rattle.std.specs.Prelude.{◌≡◌, All, IfOk, OnErr, IsErrOf};
ghost use Rattle.codespan_edits.specs.Edits.{text_edit, text_edits};
ghost use Rattle.codespan_native.specs.EditCalls.{HasValidReplacement, raw_text_edit};
ghost use Rattle.codespan_native.specs.EditCalls.{raw_text_edits};

use crate::convert::text::string_of;
use crate::raw::RawEdit;
use codespan_edits::{Edit, EditError};
use std::alloc::{AllocError, Global};

/// Returns the edits of a text.
///
/// # Errors
///
/// [`EditError::OutOfMemory`] where an allocation fails.
///
/// # Requires
///
/// The replacements are UTF-8.
pub fn convert_edits(alloc: Global, raw: &[RawEdit<'_>]) -> Result<Vec<Edit<()>>, EditError>
    requires { All HasValidReplacement raw.now }
    ensures value { IfOk result (λ edits. text_edits edits.items ≡ raw_text_edits raw.now) }
    ensures failed { OnErr result (IsErrOf result EditError.OutOfMemory) }
{
    let mut edits = Vec::new(alloc);
    for edit in raw {
        edits.push(edit_of(alloc, edit)?)?;
    }
    Ok(edits)
}

/// Returns an edit of a text.
fn edit_of(alloc: Global, raw: &RawEdit<'_>) -> Result<Edit<()>, AllocError>
    requires { HasValidReplacement raw.now }
    ensures { IfOk result (λ edit. text_edit edit ≡ raw_text_edit raw.now) }
{
    Ok(Edit {
        file_id: (),
        range: raw.start..raw.end,
        replacement: string_of(alloc, raw.replacement)?,
    })
}
