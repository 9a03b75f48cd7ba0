//! The default line number, for file databases that number their lines from 1.

ghost use Rattle.std.specs.Prelude.{◌≡◌, ◌+◌, IfOk};
ghost use Rattle.codespan_core.specs.LawfulFiles.{NeedsNoMemory, FailsBy, line_number_failure};

use crate::files::Error;

/// Returns the number of a line as most databases have it, which is also the Rust crate's default:
/// the 0-based index plus 1.
///
/// # Errors
///
/// [`Error::LineTooLarge`] `{ given: usize::MAX, max: usize::MAX - 1 }` where the index is
/// `usize::MAX`; the Rust crate overflows there.
pub fn default_line_number(line_index: usize) -> Result<usize, Error>
    ensures value { IfOk result (λ n. n ≡ line_index + 1) }
    ensures failed { FailsBy (line_number_failure line_index) result }
    ensures memory { NeedsNoMemory result }
{
    if line_index == usize::MAX {
        return Err(Error::LineTooLarge {
            given: usize::MAX,
            max: usize::MAX - 1,
        });
    }
    Ok(line_index + 1)
}
