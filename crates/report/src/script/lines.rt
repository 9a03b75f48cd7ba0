//! The lines of a script.

ghost use Rattle.std.specs.Prelude.{◌≡◌, ◌≤◌, ◌+◌, ◌-◌, ◌<◌, ◌∷◌};
ghost use Rattle.std.specs.Prelude.{length, map, drop, IfOk, IfSome, IfNone, Some};
ghost use Rattle.std.specs.Option.{option_map};
ghost use Rattle.std.specs.Str.Lines.{strip_carriage_return};
ghost use Rattle.report.specs.ScriptLines.{script_line_view, script_lines, lines_left, body};
ghost use Rattle.report.specs.ScriptLines.{script_source};

use super::line::Line;
use std::alloc::{AllocError, Global};

/// Returns the text without a carriage return at its end.
fn without_carriage_return(text: &str) -> &str
    ensures text { result.now ≡ strip_carriage_return text.now }
    ensures short { length result.now ≤ length text.now }
{
    match text.strip_suffix('\r') {
        Some(front) => front,
        None => text,
    }
}

/// Returns the first line of `left`, a suffix of an input of `size` bytes, and what follows its
/// newline, if it has one.
///
/// # Requires
///
/// `left` is not longer than the input.
fn first_line(size: usize, left: &str) -> (Line<'_>, Option<&str>)
    requires { length left.now ≤ size }
    ensures line { lines_left size (Some left.now)
        ≡ script_line_view result.0 ∷ lines_left size
        (option_map (λ after. after.now) result.1) }
    ensures after { IfSome result.1 (λ after. (result.0.next + length after.now ≡ size)
        × (length after.now < length left.now)
        × (after.now ≡ drop (length left.now - length after.now) left.now)) }
    ensures last { IfNone result.1 (result.0.next ≡ size) }
{
    let start = size - left.len();
    match left.split_once('\n') {
        Some((text, after)) => (
            Line {
                start,
                text: without_carriage_return(text),
                next: size - after.len(),
            },
            Some(after),
        ),
        None => (
            Line {
                start,
                text: left,
                next: size,
            },
            None,
        ),
    }
}

/// Returns the lines before the first `---`, and the source after that line, if there is one.
///
/// # Errors
///
/// `AllocError` if an allocation fails.
pub(super) fn split_script(
    alloc: Global,
    input: &str,
) -> Result<(Vec<Line<'_>>, Option<&str>), AllocError>
    ensures body { IfOk result (λ split. map script_line_view split.0.items
        ≡ body (script_lines input.now)) }
    ensures source { IfOk result (λ split. option_map (λ source. source.now) split.1
        ≡ script_source input.now (script_lines input.now)) }
{
    let mut lines = Vec::new(alloc);
    let mut rest = Some(input);
    'lines: while let Some(left) = rest {
        let (line, after) = first_line(input.len(), left);
        if line.text == "---" {
            return Ok((lines, Some(after.unwrap_or(""))));
        }
        lines.push(line)?;
        rest = after;
    }
    Ok((lines, None))
}
