//! The text of a value's `Display` as a `String`.

ghost use Rattle.std.specs.Prelude.{◌≡◌, ◌++◌, IfOk, IfSome, IfErr, string_bytes};
ghost use Rattle.codespan_core.specs.Diagnostics.{IsDisplayError};

use crate::files::Error;
use std::alloc::Global;
use std::fmt;
use std::fmt::{Display, Write};

/// A buffer for the text that a `Display` writes. It keeps whether an allocation failed, since
/// both that and a `Display` that fails return a `fmt::Error`.
#[derive(Drop)]
struct DisplayBuffer {
    text: String,
    alloc_failed: bool,
}

impl Write for DisplayBuffer {
    ghost write_str_gives = { λ s bytes t. string_bytes t.text ≡ string_bytes s.text ++ bytes };

    fn write_str(&mut self, piece: &str) -> fmt::Result {
        match self.text.push_str(piece) {
            Ok(()) => Ok(()),
            Err(_) => {
                self.alloc_failed = true;
                Err(fmt::Error)
            }
        }
    }
}

/// Returns the text that `value` displays.
///
/// # Errors
///
/// - [`Error::OutOfMemory`] where an allocation of the text fails.
/// - [`Error::FormatError`] where the `Display` fails otherwise.
pub fn display_text<D: Display + Drop>(alloc: Global, value: D) -> Result<String, Error>
    ensures text { IfOk result (λ text.
        IfSome (D.output value) (λ bytes. string_bytes text ≡ bytes)) }
    ensures failed { IfErr result IsDisplayError }
{
    let mut buffer = DisplayBuffer {
        text: String::new(alloc),
        alloc_failed: false,
    };
    match write!(buffer, "{value}") {
        Ok(()) => Ok(buffer.text),
        Err(_) if buffer.alloc_failed => Err(Error::OutOfMemory),
        Err(_) => Err(Error::FormatError),
    }
}
