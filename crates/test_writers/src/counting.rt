//! A writer that counts.

use std::io;
use std::io::Write;

/// A writer that takes all bytes, and counts how often it is flushed.
#[derive(Drop, Default)]
pub struct CountingWriter {
    /// How often it was flushed.
    pub flushes: usize,
}

impl Write for CountingWriter {
    fn write(&mut self, buf: &[u8]) -> io::Result<usize> {
        Ok(buf.len())
    }

    fn flush(&mut self) -> io::Result<()> {
        self.flushes = self.flushes.saturating_add(1);
        Ok(())
    }
}
