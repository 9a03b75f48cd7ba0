//! Validates the diagnostic.

ghost use Rattle.std.specs.Prelude.{◌≤◌, length};
ghost use Rattle.codespan_native.specs.Validity.{FindsFirstWithout, HasValidStyle};
ghost use Rattle.codespan_native.specs.Validity.{HasValidMessage, HasValidFile, HasZeroWords};
ghost use Rattle.codespan_native.specs.Validity.{IsValidText};

use crate::raw::{RawFile, RawLabel, RawText};
use crate::validate::values::{are_zero, is_utf8};

/// Returns the index of the first label whose style is invalid.
pub fn label_style_index(labels: &[RawLabel<'_>]) -> Option<usize>
    ensures { FindsFirstWithout HasValidStyle labels.now result }
{
    labels.iter().position(|label| label.style > 1)
}

/// Returns the index of the first label whose message is not UTF-8.
pub fn label_message_index(labels: &[RawLabel<'_>]) -> Option<usize>
    ensures { FindsFirstWithout HasValidMessage labels.now result }
{
    labels.iter().position(|label| !is_utf8(label.message))
}

/// Returns the index of the first label with a reserved word that is not 0.
pub fn label_reserved_index(labels: &[RawLabel<'_>]) -> Option<usize>
    ensures { FindsFirstWithout HasZeroWords labels.now result }
{
    labels.iter().position(|label| !are_zero(&label.reserved))
}

/// Returns the index of the first note that is not UTF-8.
pub fn note_index(notes: &[RawText<'_>]) -> Option<usize>
    ensures { FindsFirstWithout IsValidText notes.now result }
{
    notes.iter().position(|note| !is_utf8(note.bytes))
}

/// Returns the index of the first label whose file is not one of these.
pub fn label_file_index(files: &[RawFile<'_>], labels: &[RawLabel<'_>]) -> Option<usize>
    ensures { FindsFirstWithout (HasValidFile (length files.now)) labels.now result }
{
    missing_file_index(files.len(), labels)
}

/// Returns the index of the first label whose file is not one of `count` files.
fn missing_file_index(count: usize, labels: &[RawLabel<'_>]) -> Option<usize>
    ensures { FindsFirstWithout (HasValidFile count) labels.now result }
{
    labels.iter().position(|label| label.file >= count)
}
