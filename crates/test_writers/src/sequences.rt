//! Text among escape sequences.

use codespan_base::files::Error;
use std::alloc::Global;

/// Returns the bytes without the escape sequences among them, each of which ends with its first
/// `m`.
///
/// # Errors
///
/// `OutOfMemory` if an allocation fails.
pub fn without_sequences(alloc: Global, colored: &[u8]) -> Result<Vec<u8>, Error> {
    let mut text = Vec::new(alloc);
    let mut is_sequence = false;
    for byte in colored {
        is_sequence = is_sequence || *byte == b'\x1b';
        if !is_sequence {
            text.push(*byte)?;
        }
        is_sequence = is_sequence && *byte != b'm';
    }
    Ok(text)
}
