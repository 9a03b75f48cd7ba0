//! The end of a line, the usual one of a text, and the location of a byte.

ghost use Rattle.std.specs.Prelude.{◌≡◌, ◌+◌, ◌<◌, ◌^◌};
ghost use Rattle.codespan_suggestions.specs.DrawnText.{line_end, usual_end, location_in};
ghost use Rattle.codespan_suggestions.specs.DrawnText.{first_line, location_after};
ghost use Rattle.codespan_edits.specs.Diffs.{lines};

use codespan_core::files::Location;

/// Returns the end of a line: the newlines, carriage returns and null characters at its end.
pub(crate) fn line_end(line: &[u8]) -> &[u8]
    ensures { result.now ≡ line_end line.now }
{
    let mut start = line.len();
    while start > 0 && matches!(line[start - 1], b'\n' | b'\r' | b'\0') {
        start -= 1;
    }
    &line[start..]
}

/// Returns the end of the first line of a text, or a newline where it has no line.
pub(crate) fn usual_end(text: &[u8]) -> &[u8]
    ensures { result.now ≡ usual_end text.now }
{
    if text.is_empty() {
        return b"\n";
    }
    line_end(first_line(text))
}

/// Returns the first line of a text, or no bytes where it has none.
fn first_line(text: &[u8]) -> &[u8]
    ensures { result.now ≡ first_line (lines text.now) }
{
    for index in 0..text.len() {
        if text[index] == b'\n' {
            return &text[..index + 1];
        }
    }
    text
}

/// Returns the location of a byte of a text, both numbers from 1: the line by the newlines before
/// the byte, and the column by the characters of the line that begin before it.
pub(crate) fn location_in(text: &[u8], byte: usize) -> Location
    ensures { result ≡ location_in text.now byte }
{
    let mut location = Location {
        line_number: 1,
        column_number: 1,
    };
    for index in 0..byte.min(text.len()) {
        let next = location_after(location, text[index]);
        location = next;
    }
    location
}

/// Returns the location after one more byte: a newline ends a line, and any other byte that begins
/// a character is a column.
fn location_after(location: Location, byte: u8) -> Location
    requires line { location.line_number + 1 < 2 ^ 64 }
    requires column { location.column_number + 1 < 2 ^ 64 }
    ensures { result ≡ location_after location byte }
{
    if byte == b'\n' {
        return Location {
            line_number: location.line_number + 1,
            column_number: 1,
        };
    }
    if byte < 128 || byte >= 192 {
        return Location {
            line_number: location.line_number,
            column_number: location.column_number + 1,
        };
    }
    location
}
