//! Validates the texts and reserved words of edits.

ghost use Rattle.codespan_native.specs.EditCalls.{HasValidReplacement, HasZeroEditWords};
ghost use Rattle.codespan_native.specs.Validity.{FindsFirstWithout};

use crate::raw::RawEdit;
use crate::validate::values::{are_zero, is_utf8};

/// Returns the index of the first edit whose replacement is not UTF-8.
pub fn replacement_index(edits: &[RawEdit<'_>]) -> Option<usize>
    ensures { FindsFirstWithout HasValidReplacement edits.now result }
{
    edits.iter().position(|edit| !is_utf8(edit.replacement))
}

/// Returns the index of the first edit with a reserved word that is not 0.
pub fn edit_reserved_index(edits: &[RawEdit<'_>]) -> Option<usize>
    ensures { FindsFirstWithout HasZeroEditWords edits.now result }
{
    edits.iter().position(|edit| !are_zero(&edit.reserved))
}
