//! The call that applies edits to a text for C.

ghost use Rattle.std.specs.Prelude.{◌≡◌, IfOk, MatchOption, string_bytes};
ghost use Rattle.codespan_edits.specs.Edits.{edited};
ghost use Rattle.codespan_edits.specs.Faults.{FailsBy, fault};
ghost use Rattle.codespan_native.specs.EditCalls.{AppliesEdits, AreReadable, NamesUnreadable};
ghost use Rattle.codespan_native.specs.EditCalls.{raw_text_edits};
ghost use Rattle.codespan_native.specs.EditorArguments.{fault_detail};

use crate::buffer::copy_out;
use crate::convert::{convert_edits, str_of};
use crate::emit::Outcome;
use crate::error::{Argument, EditorArgument};
use crate::raw::{Detail, RawEdit};
use crate::status::{INVALID, NO_DETAIL, OUT_OF_MEMORY};
use crate::validate::{edit_reserved_index, is_utf8, replacement_index};
use codespan_edits::{EditError, apply_edits};
use std::alloc::Global;

/// Writes a text after all edits to `out`, as [`copy_out`] copies bytes. By the status of the
/// outcome:
///
/// - `OK`: the first `written` bytes of `out` are the text, and the rest of `out` is unchanged.
/// - `TOO_SMALL`: `out` is too small for the text, whose length in bytes is `written`.
/// - `OUT_OF_MEMORY`: an allocation failed, or the length does not fit a `usize`.
/// - `INVALID`: an argument is invalid. `detail` names the first one: the source, the replacement
///   of an edit, its reserved words, or what is wrong with the ranges.
///
/// With any status but `OK`, `out` is unchanged; with the last two, `written` is 0.
pub fn write_edited(alloc: Global, source: &[u8], edits: &[RawEdit<'_>], out: &mut [u8]) -> Outcome
    ensures { AppliesEdits source.now edits.now
        out.old out.new result.status result.written result.detail }
{
    if let Some(detail) = unreadable_argument(source, edits) {
        return Outcome {
            status: INVALID,
            written: 0,
            detail,
        };
    }
    match edited_text(alloc, source, edits) {
        Ok(text) => {
            let mut written = 0;
            let status = copy_out(text.as_str().as_bytes(), out, &mut written);
            Outcome {
                status,
                written,
                detail: NO_DETAIL,
            }
        }
        Err(error) => match fault_detail(&error) {
            Some(detail) => Outcome {
                status: INVALID,
                written: 0,
                detail,
            },
            None => Outcome {
                status: OUT_OF_MEMORY,
                written: 0,
                detail: NO_DETAIL,
            },
        },
    }
}

/// Returns the detail of the first invalid argument besides the ranges.
fn unreadable_argument(source: &[u8], edits: &[RawEdit<'_>]) -> Option<Detail>
    ensures { MatchOption result (AreReadable source.now edits.now)
        (NamesUnreadable source.now edits.now) }
{
    if !is_utf8(source) {
        return Some(Argument::FileSource.detail());
    }
    if let Some(index) = replacement_index(edits) {
        return Some(EditorArgument::EditReplacement.detail(index));
    }
    match edit_reserved_index(edits) {
        Some(index) => Some(EditorArgument::EditReserved.detail(index)),
        None => None,
    }
}

/// Returns the detail of what is wrong with a list of edits; none of a failed allocation.
fn fault_detail(error: &EditError) -> Option<Detail>
    ensures { result ≡ fault_detail error.now }
{
    match error {
        EditError::Reversed { edit } => Some(EditorArgument::EditReversed.detail(*edit)),
        EditError::PastEnd { edit, .. } => Some(EditorArgument::EditPastEnd.detail(*edit)),
        EditError::NotCharBoundary { edit, .. } => {
            Some(EditorArgument::EditBoundary.detail(*edit))
        }
        EditError::Overlap { edit, .. } => Some(EditorArgument::EditOverlap.detail(*edit)),
        EditError::OutOfMemory => None,
    }
}

/// Returns the text after all edits.
fn edited_text(alloc: Global, source: &[u8], edits: &[RawEdit<'_>]) -> Result<String, EditError>
    requires { AreReadable source.now edits.now }
    ensures value { IfOk result (λ text.
        string_bytes text ≡ edited source.now (raw_text_edits edits.now)) }
    ensures failed { FailsBy (fault source.now (raw_text_edits edits.now)) result }
{
    let edits = convert_edits(alloc, edits)?;
    apply_edits(alloc, str_of(source), edits.as_slice())
}
