//! A writer that keeps what is written to it in a vector.

use std::alloc::{AllocError, Global};
use std::io;
use std::io::Write;

/// A vector that is written to, and whether an allocation for it failed.
#[derive(Drop)]
pub struct Recording {
    /// What was written.
    pub bytes: Vec<u8>,
    /// Whether a write failed.
    pub has_failed: bool,
}

impl Recording {
    /// Returns an empty vector. It does not allocate.
    pub fn new(alloc: Global) -> Recording {
        Recording {
            bytes: Vec::new(alloc),
            has_failed: false,
        }
    }

    /// Returns an empty vector of this capacity.
    ///
    /// # Errors
    ///
    /// `AllocError`: an allocation fails.
    pub fn with_capacity(alloc: Global, capacity: usize) -> Result<Recording, AllocError> {
        Ok(Recording {
            bytes: Vec::with_capacity(alloc, capacity)?,
            has_failed: false,
        })
    }

    /// Returns whether the vector holds this text.
    pub fn holds(&self, text: &str) -> bool {
        self.bytes.as_slice() == text.as_bytes()
    }
}

/// Appends all bytes to the vector.
impl Write for Recording {
    fn write(&mut self, buf: &[u8]) -> io::Result<usize> {
        let returned = self.bytes.write(buf);
        self.has_failed = self.has_failed || returned.is_err();
        returned
    }

    fn flush(&mut self) -> io::Result<()> {
        Ok(())
    }
}
