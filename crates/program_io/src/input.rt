//! The input, as text.

ghost use Rattle.std.specs.Prelude.{◌≡◌, IfOk, IfSome, OnOk, IsErrOf, string_bytes};
ghost use Rattle.std.specs.Io.KnownBytes.{IsAtEnd};
ghost use Rattle.std.specs.Str.{IsUtf8};

use std::alloc::Global;
use std::io::Read;

/// An error of reading the input as text.
#[derive(Clone, Copy, Debug, PartialEq, Eq)]
pub enum InputError {
    /// Reading the input failed, or an allocation for it.
    Unreadable,
    /// The input is not UTF-8.
    NotUtf8,
}

/// Reads the whole input, as text.
///
/// # Errors
///
/// - `Unreadable`: a read fails, or an allocation for what is read.
/// - `NotUtf8`: the input is not UTF-8.
pub fn read_text<R: Read>(alloc: Global, reader: &mut R) -> Result<String, InputError>
    ensures bytes { IfOk result (λ text.
        IfSome (R.remaining reader.old) (λ bytes. string_bytes text ≡ bytes)) }
    ensures text { IfOk result (λ text. IsUtf8 (string_bytes text)) }
    ensures end { OnOk result (IsAtEnd (R.remaining reader.new)) }
    ensures not_utf8 { IsErrOf result InputError.NotUtf8
        → IfSome (R.remaining reader.old) (λ bytes. ¬ (IsUtf8 bytes)) }
{
    let mut bytes = Vec::new(alloc);
    if reader.read_to_end(&mut bytes).is_err() {
        return Err(InputError::Unreadable);
    }
    match String::from_utf8(bytes) {
        Ok(text) => Ok(text),
        Err(_) => Err(InputError::NotUtf8),
    }
}
