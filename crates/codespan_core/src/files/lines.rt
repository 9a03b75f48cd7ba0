//! A text's line starts and columns.
ghost use Rattle.std.specs.Prelude.{◌≡◌, ◌+◌, ◌≤◌, length, count_by};
ghost use Rattle.std.specs.Simd.Lanes.{chunk};
ghost use Rattle.codespan_core.specs.Lines.{line_starts_of, column_index_of, begins_char};
ghost use Rattle.codespan_core.specs.LineStarts.{remaining_starts};

use crate::files::LineStarts;
use std::ops::Range;
use std::simd::prelude::*;

/// Returns an iterator over the byte indices at which the lines of a text start, in ascending
/// order: 0, and for each newline the index after it.
///
/// File databases keep them, and search them for a byte's line:
/// [`Files::line_index`](codespan_reporting::files::Files::line_index).
///
/// # Examples
///
/// ```rust
/// let text = "foo\nbar\r\n\nbaz";
/// let starts: Vec<usize> = line_starts(text).collect(rt.alloc())?;
/// assert_eq!(rt; starts.as_slice(), [0, 4, 9, 10].as_slice());
/// ```
pub fn line_starts(source: &str) -> LineStarts<'_>
    ensures { remaining_starts result ≡ line_starts_of source.now }
{
    LineStarts::new(source)
}

/// Returns the column of a byte on a line, in characters from 0: the number of character boundaries
/// after the line's start, up to the byte, the line's end or the text's end, whichever comes first.
/// The rule is the Rust crate's.
///
/// `line_range` and `byte_index` are in bytes of `source`, from 0, with an exclusive end. Before
/// the line's start the column is 0, inside a character it is that of the character, and past the
/// line's end that of the end. Any range and any byte index are valid.
///
/// # Examples
///
/// ```rust
/// let text = "\n\n🗻∈🌏\n\n";
/// assert_eq!(rt; column_index(text, 0..1, 0), 0);
/// let bytes = [
///     (0, 0),
///     (2, 0),
///     (3, 0),
///     (6, 1),
///     (10, 2),
///     (12, 2),
///     (13, 3),
///     (14, 3),
/// ];
/// for (byte, column) in bytes {
///     assert_eq!(rt; column_index(text, 2..13, byte), column, "at {byte}");
/// }
/// ```
#[tactic(auto, using(crate::proofs::ColumnLemmas::column_steps))]
pub fn column_index(source: &str, line_range: Range<usize>, byte_index: usize) -> usize
    ensures value { result ≡ column_index_of source.now line_range.start line_range.end byte_index }
    ensures bound { result ≤ length source.now }
{
    let bytes = source.as_bytes();
    let end = byte_index.min(line_range.end).min(bytes.len());
    let mut count = 0;
    let mut at = line_range.start;
    let last_block = end.saturating_sub(17);
    while at < last_block {
        count += boundaries_in_block(bytes, at + 1);
        at += 16;
    }
    for i in at..end {
        if source.is_char_boundary(i + 1) {
            count += 1;
        }
    }
    count
}

/// Returns how many characters begin in the block of 16 bytes that begins at `from`.
fn boundaries_in_block(bytes: &[u8], from: usize) -> usize
    requires { from + 16 ≤ length bytes.now }
    ensures value { result ≡ count_by begins_char (chunk from 16 bytes.now) }
    ensures few { result ≤ 16 }
{
    let block = u8x16::from_slice(&bytes[from..]);
    let ascii = block.simd_lt(u8x16::splat(128)).to_bitmask();
    let leading = block.simd_ge(u8x16::splat(192)).to_bitmask();
    (ascii.count_ones() + leading.count_ones()) as usize
}
