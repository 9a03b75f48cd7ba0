//! Validates the lines and locations that a caller states.

ghost use Rattle.std.specs.Prelude.{◌≡◌};
ghost use Rattle.codespan_base.specs.Lines.{is_char_boundary};
ghost use Rattle.codespan_native.specs.StatedLines.{are_lines, locations_ascend};

use crate::raw::{RawLine, RawLocation};

/// Returns whether these lines cut a text, which is a window of a file from a byte on: they start
/// with the text, are one at least, ascend without overlap and end inside it, at character
/// boundaries.
pub fn are_lines(text: &[u8], first_byte: usize, lines: &[RawLine]) -> bool
    ensures { result ≡ are_lines text.now first_byte lines.now }
{
    let Some((first, rest)) = lines.split_first() else {
        return false;
    };
    let mut start = first.start.saturating_sub(first_byte);
    let mut end = first.end.saturating_sub(first_byte);
    if start != 0 || !is_char_boundary(text, end) {
        return false;
    }
    for line in rest {
        let next_start = line.start.saturating_sub(first_byte);
        let next_end = line.end.saturating_sub(first_byte);
        if next_start <= start
            || next_start < end
            || next_end < next_start
            || !is_char_boundary(text, next_start)
            || !is_char_boundary(text, next_end)
        {
            return false;
        }
        start = next_start;
        end = next_end;
    }
    true
}

/// Returns whether a character of a text starts at this byte index, or the text ends there.
fn is_char_boundary(text: &[u8], index: usize) -> bool
    ensures { result ≡ is_char_boundary text.now index }
{
    match text.get(index) {
        Some(byte) => *byte < 128 || *byte >= 192,
        None => index == text.len(),
    }
}

/// Returns whether the bytes of these locations, in a window of a file from a byte on, ascend
/// strictly.
pub fn locations_ascend(first_byte: usize, locations: &[RawLocation]) -> bool
    ensures { result ≡ locations_ascend first_byte locations.now }
{
    let Some((first, rest)) = locations.split_first() else {
        return true;
    };
    let mut byte = first.byte.saturating_sub(first_byte);
    for location in rest {
        let next = location.byte.saturating_sub(first_byte);
        if next <= byte {
            return false;
        }
        byte = next;
    }
    true
}
