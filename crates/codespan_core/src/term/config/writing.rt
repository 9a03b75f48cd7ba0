//! Writing whole texts, characters, spaces and numbers to a [`PutStyle`], and whole texts to an
//! [`io::Write`](Write).
//!
//! These functions are this project's own. They do not allocate.

ghost use Rattle.std.specs.Prelude.{◌≡◌, ◌≤◌, ◌*◌, [], true, length, take, drop};
ghost use Rattle.std.specs.Prelude.{decimal, MatchResult};
ghost use Rattle.std.specs.List.{repeat};
ghost use Rattle.std.specs.Io.{WritesAtMost};
ghost use Rattle.codespan_core.specs.Streams.{byte_stream, glyph, spaces, repeated};
ghost use Rattle.codespan_core.specs.WriterLaw.{Frame, Puts, Writes, with_failed, AppendsBytes};
ghost use Rattle.codespan_core.specs.Writers.{WritesNothing};

use crate::term::config::plain_ref::PlainWriterRef;
use crate::term::config::put_style::PutStyle;
use std::io;
use std::io::Write;

/// The greatest number of bytes that one `put` is passed of many spaces or of many copies of a
/// character.
const CHUNK_LEN: usize = 64;

/// The spaces that one `put` is passed.
static SPACES: [u8; CHUNK_LEN] = [b' '; CHUNK_LEN];

/// The number of digits of `usize::MAX`.
const DIGITS: usize = 20;

/// Writes all the bytes.
///
/// # Errors
///
/// That of a `put` that fails, and `ErrorKind::WriteZero` where a `put` takes none of some bytes.
/// A prefix has then been written. An interrupted `put` is an error too.
pub fn put_all<W: PutStyle>(w: &mut W, text: &[u8]) -> Result<(), W::Error>
    ensures { Writes (W.sink w.old) (byte_stream text.now) result (W.sink w.new) }
{
    let mut rest = text;
    while !rest.is_empty() {
        let n = w.put(rest)?;
        if n == 0 {
            return Err(W::write_zero());
        }
        rest = &rest[n..];
    }
    Ok(())
}

/// Writes one character in UTF-8.
///
/// # Errors
///
/// Those of [`put_all`].
#[inline(always)]
pub fn put_char<W: PutStyle>(w: &mut W, c: char) -> Result<(), W::Error>
    ensures { Writes (W.sink w.old) (glyph c) result (W.sink w.new) }
{
    let mut buffer = [0u8; 4];
    let text = c.encode_utf8(&mut buffer);
    put_glyph(w, text.as_bytes())
}

/// Writes the bytes of a character. Most characters of borders and lanes have three bytes, written
/// as an array: a `put` of a known number of bytes needs no call to copy them.
#[inline(always)]
fn put_glyph<W: PutStyle>(w: &mut W, text: &[u8]) -> Result<(), W::Error>
    ensures { Writes (W.sink w.old) (byte_stream text.now) result (W.sink w.new) }
{
    match *text {
        [first, second, third] => put_all(w, &[first, second, third]),
        _ => put_all(w, text),
    }
}

/// Writes `count` spaces.
///
/// # Errors
///
/// Those of [`put_all`].
pub fn put_spaces<W: PutStyle>(w: &mut W, count: usize) -> Result<(), W::Error>
    ensures { Writes (W.sink w.old) (spaces count) result (W.sink w.new) }
{
    let mut left = count;
    while left > CHUNK_LEN {
        put_all(w, &SPACES)?;
        left -= CHUNK_LEN;
    }
    put_all(w, &SPACES[..left])
}

/// Writes `count` copies of a character in UTF-8. One and two copies are written without a chunk.
///
/// # Errors
///
/// Those of [`put_all`].
#[inline(always)]
pub fn put_repeated<W: PutStyle>(w: &mut W, c: char, count: usize) -> Result<(), W::Error>
    ensures { Writes (W.sink w.old) (repeated count c) result (W.sink w.new) }
{
    match count {
        1 => put_char(w, c),
        2 => put_pair(w, c),
        _ => put_runs(w, c, count),
    }
}

/// Writes two copies of a character. Where it has three bytes, as most of underlines have, the
/// copies are written as one array, as in `put_glyph`.
#[inline(always)]
fn put_pair<W: PutStyle>(w: &mut W, c: char) -> Result<(), W::Error>
    ensures { Writes (W.sink w.old) (repeated 2 c) result (W.sink w.new) }
{
    let mut buffer = [0u8; 4];
    match *c.encode_utf8(&mut buffer).as_bytes() {
        [first, second, third] => put_all(w, &[first, second, third, first, second, third]),
        _ => {
            put_char(w, c)?;
            put_char(w, c)
        }
    }
}

/// Writes `count` copies of a character, by chunks of as many copies as fit.
fn put_runs<W: PutStyle>(w: &mut W, c: char, count: usize) -> Result<(), W::Error>
    ensures { Writes (W.sink w.old) (repeated count c) result (W.sink w.new) }
{
    let mut buffer = [0u8; 4];
    let glyph = c.encode_utf8(&mut buffer).as_bytes();
    let copies = count.min(CHUNK_LEN / glyph.len());
    let mut run = [0u8; CHUNK_LEN];
    fill(&mut run, glyph, copies);
    let mut left = count;
    while left > copies {
        put_all(w, &run[..copies * glyph.len()])?;
        left -= copies;
    }
    put_all(w, &run[..left * glyph.len()])
}

/// Fills the front of `run` with copies of the bytes.
///
/// # Requires
///
/// The copies fit into `run`.
fn fill(run: &mut [u8], bytes: &[u8], copies: usize)
    requires { copies * length bytes.now ≤ length run.old }
    ensures { take (copies * length bytes.now) run.new ≡ repeat copies bytes.now }
{
    let mut end = 0;
    for _i in 0..copies {
        run[end..end + bytes.len()].copy_from_slice(bytes);
        end += bytes.len();
    }
}

/// Writes a number in decimal.
///
/// # Errors
///
/// Those of [`put_all`].
pub fn put_number<W: PutStyle>(w: &mut W, number: usize) -> Result<(), W::Error>
    ensures { Writes (W.sink w.old) (byte_stream (decimal number)) result (W.sink w.new) }
{
    let mut digits = [0u8; DIGITS];
    let start = write_digits(&mut digits, number);
    put_all(w, &digits[start..])
}

/// Writes the digits of a number to the end of the array, and returns the index of the first one.
fn write_digits(digits: &mut [u8; DIGITS], number: usize) -> usize
    ensures start { result ≤ DIGITS }
    ensures value { drop result digits.new ≡ decimal number }
{
    let mut start = DIGITS;
    let mut rest = number;
    while rest >= 10 {
        start -= 1;
        digits[start] = b'0' + (rest % 10) as u8;
        rest /= 10;
    }
    start -= 1;
    digits[start] = b'0' + rest as u8;
    start
}

/// Writes all the bytes to an [`io::Write`](Write). Without bytes it makes no call.
///
/// # Errors
///
/// That of a write that fails, and `ErrorKind::WriteZero` where a write takes none of some bytes.
/// A prefix has then been written. An interrupted write is an error too; Rust's `Write::write_all`
/// retries it.
pub fn write_all<W: Write>(w: &mut W, bytes: &[u8]) -> io::Result<()>
    ensures appends { AppendsBytes (W.contents w.old) bytes.now result (W.contents w.new) }
    ensures nothing { bytes.now ≡ [] → WritesNothing w.old result w.new }
{
    if bytes.is_empty() {
        return Ok(());
    }
    put_all(&mut PlainWriterRef::new(w), bytes)
}

/// Writes once to the inner writer and returns how many bytes it took: the body of the `put` of a
/// writer that keeps its flag in `failed`.
///
/// A failed write sets the flag, and so does a write of some bytes that takes none.
///
/// # Errors
///
/// That of the write.
pub fn forward_put<W: Write>(writer: &mut W, failed: &mut bool, bytes: &[u8]) -> io::Result<usize>
    ensures bound { WritesAtMost result bytes.now }
    ensures took { (f : Frame) → Puts (with_failed f failed.old (W.contents writer.old)) bytes.now
        result (with_failed f failed.new (W.contents writer.new)) }
{
    match writer.write(bytes) {
        Ok(count) => {
            if count == 0 && !bytes.is_empty() {
                *failed = true;
            }
            Ok(count)
        }
        Err(error) => {
            *failed = true;
            Err(error)
        }
    }
}

/// Writes all the bytes to the inner writer: the body of a style mark of a writer that keeps its
/// flag in `failed`.
///
/// # Errors
///
/// Those of [`write_all`]; each sets the flag.
pub fn forward_all<W: Write>(writer: &mut W, failed: &mut bool, text: &[u8]) -> io::Result<()>
    ensures { (f : Frame) → Writes (with_failed f failed.old (W.contents writer.old))
        (byte_stream text.now) result (with_failed f failed.new (W.contents writer.new)) }
{
    forward_result(write_all(writer, text), failed)
}

/// Returns what a call of the inner writer returned, and sets the flag where it is an error.
///
/// # Errors
///
/// The error that it is passed.
pub fn forward_result(returned: io::Result<()>, failed: &mut bool) -> io::Result<()>
    ensures same { result ≡ returned }
    ensures flag { MatchResult result (λ _. failed.new ≡ failed.old) (λ _. failed.new ≡ true) }
{
    if returned.is_err() {
        *failed = true;
    }
    returned
}
