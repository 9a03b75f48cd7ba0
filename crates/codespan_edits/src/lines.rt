//! The lines of a text.

ghost use Rattle.std.specs.Prelude.{◌≡◌, IfOk, OnErr, IsErrOf, map};
ghost use Rattle.codespan_core.specs.Lines.{line_starts_of};
ghost use Rattle.codespan_edits.specs.Diffs.{lines, is_whole};

use crate::error::EditError;
use codespan_core::files::line_starts;
use std::alloc::Global;

/// Returns whether a text is empty or ends with a newline.
#[inline(always)]
pub(crate) fn is_whole_text(text: &str) -> bool
    ensures { result ≡ is_whole text.now }
{
    match text.as_bytes().last() {
        Some(byte) => *byte == b'\n',
        None => true,
    }
}

/// Returns the lines of a text, which is cut after each newline.
pub(crate) fn lines_of<'a>(alloc: Global, text: &'a str) -> Result<Vec<&'a str>, EditError>
    ensures lines { IfOk result (λ ls. map (λ l. l.now) ls.items ≡ lines text.now) }
    ensures failed { OnErr result (IsErrOf result EditError.OutOfMemory) }
{
    let starts = starts_of(alloc, text)?;
    let mut lines = Vec::with_capacity(alloc, starts.len())?;
    for index in 1..starts.len() {
        lines.push(&text[starts[index - 1]..starts[index]])?;
    }
    let last = starts[starts.len() - 1];
    if last < text.len() {
        lines.push(&text[last..])?;
    }
    Ok(lines)
}

/// Returns where the lines of a text start.
pub(crate) fn starts_of(alloc: Global, text: &str) -> Result<Vec<usize>, EditError>
    ensures starts { IfOk result (λ starts. starts.items ≡ line_starts_of text.now) }
    ensures failed { OnErr result (IsErrOf result EditError.OutOfMemory) }
{
    Ok(line_starts(text).collect(alloc)?)
}
