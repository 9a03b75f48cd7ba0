//! The calls of `codespan_native`, which take the structs of C and write to the caller's memory.

ghost use Rattle.std.specs.Prelude.{◌≡◌, IsTrue};
ghost use Rattle.codespan_native.specs.Statuses.{OK, OUT_OF_MEMORY};

mod editor;
mod forms;
mod subjects;

use crate::native::editor::{judge_byte, judge_edited, judge_position};
pub use crate::native::forms::OutputForm;
use crate::native::forms::{judge_output, judge_style_sheet};
pub use crate::native::subjects::NATIVE;
use crate::outcome::{Outcome, Wrong, judge_success};
use codespan_native::status::{OK, OUT_OF_MEMORY};
use std::alloc::Global;

/// A call of `codespan_native`, by its export.
#[derive(Clone, Copy)]
pub enum NativeCall {
    /// `codespan_emit`
    Emit(OutputForm),
    /// `codespan_html_styles`
    HtmlStyles,
    /// `codespan_position`
    Position,
    /// `codespan_byte`
    Byte,
    /// `codespan_apply_edits`
    ApplyEdits,
}

/// Makes a call and judges it.
pub fn judge_native(alloc: Global, call: NativeCall) -> Outcome {
    match call {
        NativeCall::Emit(form) => judge_output(alloc, form),
        NativeCall::HtmlStyles => judge_style_sheet(alloc),
        NativeCall::Position => judge_position(alloc),
        NativeCall::Byte => judge_byte(alloc),
        NativeCall::ApplyEdits => judge_edited(alloc),
    }
}

/// Judges a call that writes bytes to memory that was full of dots.
pub(crate) fn judge_bytes(status: u32, written: usize, out: &[u8], expected: &[u8]) -> Outcome {
    let is_rest_unchanged = match out.get(written..) {
        Some(rest) => rest.iter().all(|byte| *byte == b'.'),
        None => false,
    };
    judge_found(
        status,
        written == expected.len() && out.starts_with(expected) && is_rest_unchanged,
        written == 0 && is_rest_unchanged,
    )
}

/// Judges a call by whether what it set is as expected, and whether it is as after a failed
/// allocation.
pub(crate) fn judge_found(status: u32, is_expected: bool, is_unset: bool) -> Outcome
    ensures done { result ≡ Outcome.Done → (status ≡ OK) × IsTrue is_expected }
    ensures failed { result ≡ Outcome.Failed → (status ≡ OUT_OF_MEMORY) × IsTrue is_unset }
{
    if status == OK {
        judge_success(is_expected)
    } else if status != OUT_OF_MEMORY {
        Outcome::Wrong(Wrong::Error)
    } else if is_unset {
        Outcome::Failed
    } else {
        Outcome::Wrong(Wrong::Changed)
    }
}
