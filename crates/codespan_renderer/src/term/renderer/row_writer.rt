//! The writer that rows are written through, which saves its error.

ghost use Rattle.std.specs.Prelude.{◌≡◌, IfErr};
ghost use Rattle.codespan_core.specs.Errors.{IsIo};
ghost use Rattle.codespan_renderer.specs.Private.RowWriters.{SameOutcome};

use codespan_core::files::Error;
use codespan_core::term::WriteStyle;
use codespan_core::term::config::put_style::PutStyle;
use codespan_core::term::config::style_mark::StyleMark;
use std::cell::Cell;
use std::io;
use std::io::ErrorKind;

/// A write failed, or a `put` of some bytes took none. The [`RowWriter`] has saved the error.
#[derive(Clone, Copy)]
pub struct Failed;

/// A borrowed writer that saves the error of a call that fails, so that rows fail with a zero-sized
/// error.
#[derive(Drop)]
pub struct RowWriter<'row, W> {
    inner: &'row mut W,
    saved: &'row Cell<io::Error>,
}

impl<'row, W: WriteStyle> RowWriter<'row, W> {
    ghost use Rattle.codespan_renderer.specs.Private.RowWriters.{inner_writer, inner_reference};

    /// Returns a writer to `inner` that saves its error in `saved`.
    #[inline(always)]
    pub fn new(inner: &'row mut W, saved: &'row Cell<io::Error>) -> RowWriter<'row, W>
        ensures reference { inner_reference result ≡ inner.entry.ghost_name }
        ensures writer { inner_writer result ≡ inner.old }
    {
        RowWriter { inner, saved }
    }

    /// Returns the result of a call that wrote rows to this writer, with the saved error where it
    /// failed. It saves `WriteZero`, the error of a `put` that takes no bytes, in its place.
    ///
    /// # Errors
    ///
    /// `Io` alone: the saved error, where `written` is `Err`.
    #[inline(always)]
    pub fn outcome(&self, written: Result<(), Failed>) -> Result<(), Error>
        ensures same { SameOutcome written result }
        ensures io { IfErr result IsIo }
    {
        match written {
            Ok(()) => Ok(()),
            Err(Failed) => {
                let unused = io::Error::from(ErrorKind::WriteZero);
                Err(Error::Io(self.saved.replace(unused)))
            }
        }
    }
}

/// Saves the error of a call that failed.
#[inline(always)]
fn save<T>(saved: &Cell<io::Error>, outcome: io::Result<T>) -> Result<T, Failed>
    ensures { SameOutcome outcome result }
{
    match outcome {
        Ok(value) => Ok(value),
        Err(error) => {
            saved.set(error);
            Err(Failed)
        }
    }
}

impl<W: WriteStyle> PutStyle for RowWriter<'_, W> {
    ghost use Rattle.codespan_renderer.specs.Private.RowWriters.{row_writer_sink};

    type Error = Failed;

    ghost sink = { λ p. row_writer_sink W.sink p };

    fn write_zero() -> Failed {
        Failed
    }

    #[inline(always)]
    fn put_mark(&mut self, mark: StyleMark) -> Result<(), Failed> {
        save(self.saved, self.inner.put_mark(mark))
    }

    #[inline(always)]
    fn put(&mut self, bytes: &[u8]) -> Result<usize, Failed> {
        save(self.saved, WriteStyle::put(self.inner, bytes))
    }
}
