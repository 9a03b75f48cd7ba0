//! Converts texts.

ghost use Rattle.std.specs.Prelude.{◌≡◌, IfOk, string_bytes};
ghost use Rattle.std.specs.Str.{IsUtf8};

use std::alloc::{AllocError, Global};

/// Returns the bytes as a text.
///
/// # Requires
///
/// The bytes are UTF-8.
pub fn str_of(bytes: &[u8]) -> &str
    requires { IsUtf8 bytes.now }
    ensures { result.now ≡ bytes.now }
{
    // SAFETY: the bytes are UTF-8, as the contract requires: `first_invalid` has checked them.
    unsafe { std::str::from_utf8_unchecked(bytes) }
}

/// Returns a copy of the bytes as a text.
///
/// # Errors
///
/// [`AllocError`] where an allocation fails.
///
/// # Requires
///
/// The bytes are UTF-8.
pub fn string_of(alloc: Global, bytes: &[u8]) -> Result<String, AllocError>
    requires { IsUtf8 bytes.now }
    ensures { IfOk result (λ text. string_bytes text ≡ bytes.now) }
{
    String::from_str(alloc, str_of(bytes))
}
