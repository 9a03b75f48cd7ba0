//! Writers that take little at a time, or stop.

ghost use Rattle.std.specs.Io.{WritesAtMost};

use codespan_base::files::Error;
use std::alloc::Global;
use std::io;
use std::io::{ErrorKind, Write};

/// How a writer stops at a write.
#[derive(Clone, Copy, Debug)]
pub enum Stop {
    /// It fails.
    Fails,
    /// It is interrupted.
    IsInterrupted,
    /// It takes nothing.
    TakesNothing,
    /// It takes one byte, and fails the next write.
    TakesOneByte,
}

/// A writer that takes at most a number of bytes at a time, and stops after a number of writes.
#[derive(Drop)]
pub struct StoppingWriter {
    /// The bytes that it has taken.
    pub text: Vec<u8>,
    /// How often it was flushed.
    pub flushes: usize,
    // The most bytes that a write takes.
    most: usize,
    // The number of writes before it stops.
    writes_left: usize,
    stop: Stop,
    has_stopped: bool,
    // The number of writes after the one that stopped it.
    writes_after: usize,
}

impl StoppingWriter {
    /// Returns a writer that takes at most `most` bytes at a time, and stops in this way after
    /// `writes` writes.
    pub fn new(alloc: Global, most: usize, writes: usize, stop: Stop) -> StoppingWriter {
        StoppingWriter {
            text: Vec::new(alloc),
            flushes: 0,
            most,
            writes_left: writes,
            stop,
            has_stopped: false,
            writes_after: 0,
        }
    }

    /// Returns whether the writer is as it has to be once writing the whole text has `succeeded`,
    /// or failed. If writing succeeded, the writer has not stopped, and holds the whole text. If
    /// writing failed, the writer has stopped, holds a prefix, and no write followed the one that
    /// stopped it.
    pub fn is_right(&self, succeeded: bool, whole: &[u8]) -> bool {
        let text = self.text.as_slice();
        succeeded != self.has_stopped
            && self.writes_after == 0
            && whole.starts_with(text)
            && (self.has_stopped || text.len() == whole.len())
    }

    /// Takes the first of these bytes, as many as it may.
    fn take(&mut self, buf: &[u8], most: usize) -> io::Result<usize>
        ensures { WritesAtMost result buf.now }
    {
        let count = buf.len().min(most);
        self.text.extend_from_slice(&buf[..count])?;
        Ok(count)
    }
}

impl Write for StoppingWriter {
    fn write(&mut self, buf: &[u8]) -> io::Result<usize> {
        if self.has_stopped {
            self.writes_after = self.writes_after.saturating_add(1);
        }
        if self.writes_left > 0 {
            self.writes_left -= 1;
            return self.take(buf, self.most);
        }
        match self.stop {
            Stop::TakesOneByte => {
                self.stop = Stop::Fails;
                self.take(buf, 1)
            }
            Stop::Fails => {
                self.has_stopped = true;
                Err(io::Error::from(ErrorKind::PermissionDenied))
            }
            Stop::IsInterrupted => {
                self.has_stopped = true;
                Err(io::Error::from(ErrorKind::Interrupted))
            }
            Stop::TakesNothing => {
                self.has_stopped = true;
                Ok(0)
            }
        }
    }

    fn flush(&mut self) -> io::Result<()> {
        self.flushes = self.flushes.saturating_add(1);
        Ok(())
    }
}

/// Returns whether rendering into a writer returned what it has to: `Io` if the writer has stopped,
/// and else `Ok`.
pub fn is_as_expected(returned: &Result<(), Error>, is_stopped: bool) -> bool {
    match returned {
        Ok(()) => !is_stopped,
        Err(Error::Io(_)) => is_stopped,
        Err(_) => false,
    }
}
