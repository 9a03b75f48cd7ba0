//! Converts the encoding of positions.

ghost use Rattle.std.specs.Prelude.{◌≡◌};
ghost use Rattle.codespan_native.specs.PositionCalls.{encoding_of};

use codespan_lsp::PositionEncoding;

/// Returns the encoding of a number. A number above 2 counts as 2.
pub fn convert_encoding(number: u32) -> PositionEncoding
    ensures { result ≡ encoding_of number }
{
    match number {
        0 => PositionEncoding::Utf16,
        1 => PositionEncoding::Utf8,
        _ => PositionEncoding::Utf32,
    }
}
