//! A writer that records where each write begins, over a writer that may stop.

use std::alloc::Global;
use std::io;
use std::io::Write;
use test_writers::stopping::{Stop, StoppingWriter};

/// A writer, and how many bytes it held before each write.
#[derive(Drop)]
pub struct Recording {
    /// The writer, which holds the bytes written.
    pub inner: StoppingWriter,
    /// The number of bytes before each write.
    pub starts: Vec<usize>,
}

impl Recording {
    /// Returns an empty recording of a writer that does not stop.
    pub fn new(alloc: Global) -> Recording {
        Recording::stopping(alloc, usize::MAX, usize::MAX, Stop::Fails)
    }

    /// Returns an empty recording of a writer that takes at most `most` bytes at a time, and stops
    /// in this way after `writes` writes.
    pub fn stopping(alloc: Global, most: usize, writes: usize, stop: Stop) -> Recording {
        Recording {
            inner: StoppingWriter::new(alloc, most, writes, stop),
            starts: Vec::new(alloc),
        }
    }

    /// Returns the bytes written.
    pub fn text(&self) -> &[u8] {
        self.inner.text.as_slice()
    }
}

/// Records where the write begins, and makes it.
impl Write for Recording {
    fn write(&mut self, buf: &[u8]) -> io::Result<usize> {
        self.starts.push(self.inner.text.len())?;
        self.inner.write(buf)
    }

    fn flush(&mut self) -> io::Result<()> {
        self.inner.flush()
    }
}
