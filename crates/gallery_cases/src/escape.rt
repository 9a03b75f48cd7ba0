//! Texts with escapes.

ghost use Rattle.std.specs.Prelude.{◌≡◌, ◌⊎◌, MatchResult, string_bytes};
ghost use Rattle.gallery_cases.specs.Statements.{UnescapesTo, HasNoText};
ghost use Rattle.gallery_cases.specs.declared.errors.LineError.TheVariants.{BadEscape, OutOfMemory};

use crate::errors::LineError;
use program_io::escapes;
use std::alloc::Global;

/// Returns the text that an escaped one stands for. [`program_io::escapes`] lists the escapes.
///
/// # Errors
///
/// - `BadEscape`: a backslash does not begin an escape.
/// - `OutOfMemory`: an allocation fails.
pub fn unescape(alloc: Global, text: &str) -> Result<String, LineError>
    ensures { MatchResult result (λ unescaped. UnescapesTo text.now (string_bytes unescaped))
        (λ line_error. (line_error ≡ OutOfMemory) ⊎
        ((line_error ≡ BadEscape) × HasNoText text.now)) }
{
    match escapes::unescape(alloc, text)? {
        Some(unescaped) => Ok(unescaped),
        None => Err(LineError::BadEscape),
    }
}
