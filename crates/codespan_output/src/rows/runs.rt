//! Runs of one character, which may be longer than `usize::MAX`.

ghost use Rattle.codespan_core.specs.Streams.{spaces, repeated};
ghost use Rattle.codespan_core.specs.WriterLaw.{Writes};

use codespan_core::term::config::put_style::PutStyle;
use codespan_core::term::config::writing::{put_repeated, put_spaces};

/// The longest run that is written by one call.
const MAX_COUNT: u128 = usize::MAX as u128;

/// Writes `count` spaces.
///
/// # Errors
///
/// The writer's error; a prefix has then been written.
#[inline(always)]
pub fn write_spaces<W: PutStyle>(w: &mut W, count: u128) -> Result<(), W::Error>
    ensures { Writes (W.sink w.old) (spaces count) result (W.sink w.new) }
{
    let mut left = count;
    while left > MAX_COUNT {
        put_spaces(w, usize::MAX)?;
        left -= MAX_COUNT;
    }
    put_spaces(w, left as usize)
}

/// Writes one character `count` times.
///
/// # Errors
///
/// The writer's error; a prefix has then been written.
pub fn write_repeated<W: PutStyle>(w: &mut W, c: char, count: u128) -> Result<(), W::Error>
    ensures { Writes (W.sink w.old) (repeated count c) result (W.sink w.new) }
{
    let mut left = count;
    while left > MAX_COUNT {
        put_repeated(w, c, usize::MAX)?;
        left -= MAX_COUNT;
    }
    put_repeated(w, c, left as usize)
}
