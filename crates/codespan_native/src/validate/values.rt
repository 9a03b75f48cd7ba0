//! Validates single values.

ghost use Rattle.std.specs.Prelude.{◌≡◌, ◌-◌, IsTrue, ◌↔◌};
ghost use Rattle.std.specs.Char.{InScalarRange};
ghost use Rattle.std.specs.Str.{IsUtf8};
ghost use Rattle.codespan_native.specs.Validity.{AreZero, IsValidColorSpec};

use crate::raw::RawColorSpec;

/// Returns whether the bytes are UTF-8.
pub fn is_utf8(bytes: &[u8]) -> bool
    ensures { IsTrue result ↔ IsUtf8 bytes.now }
{
    std::str::from_utf8(bytes).is_ok()
}

/// Returns whether a code point is a Unicode scalar value.
pub fn is_scalar_value(code: u32) -> bool
    ensures { IsTrue result ↔ InScalarRange code }
{
    char::from_u32(code).is_some()
}

/// Returns whether both colors of a style are numbers of colors: from 0, for none, to 8.
pub fn is_valid_color_spec(spec: &RawColorSpec) -> bool
    ensures { IsTrue result ↔ IsValidColorSpec spec.now }
{
    spec.fg <= 8 && spec.bg <= 8
}

/// Returns whether all words are 0.
pub fn are_zero(words: &[usize]) -> bool
    ensures { IsTrue result ↔ AreZero words.now }
{
    words.iter().all(|word| *word == 0)
}
