//! The call that writes the style sheet of HTML elements for C.

ghost use Rattle.std.specs.Prelude.{IsTrue, ◌↔◌};
ghost use Rattle.codespan_native.specs.StyleSheets.{AreValidStyles, WritesStyleSheet};

use crate::buffer::copy_out;
use crate::convert::convert_styles;
use crate::raw::RawStyles;
use crate::status::{INVALID, OUT_OF_MEMORY};
use crate::validate::first_invalid_color;
use codespan_styled::html_styles;
use std::alloc::Global;

/// Writes the style sheet of the HTML elements of [`emit`](crate::emit::emit), in these styles, to
/// `out`, as [`copy_out`] copies bytes. By the status that it returns:
///
/// - `OK`: the first `written` bytes of `out` are the style sheet, and the rest is unchanged.
/// - `TOO_SMALL`: `out` is too small for the style sheet, whose length in bytes is `written`.
/// - `OUT_OF_MEMORY`: an allocation failed.
/// - `INVALID`: a color of a style is not one of those of the header.
///
/// With any status but `OK`, `out` is unchanged; with the last two, `written` is 0.
pub fn write_style_sheet(
    alloc: Global,
    styles: &RawStyles,
    out: &mut [u8],
    written: &mut usize,
) -> u32
    ensures { WritesStyleSheet styles.now out.old out.new result written.new }
{
    if !are_valid_styles(styles) {
        *written = 0;
        return INVALID;
    }
    match html_styles(alloc, &convert_styles(styles)) {
        Ok(css) => copy_out(css.as_str().as_bytes(), out, written),
        Err(_) => {
            *written = 0;
            OUT_OF_MEMORY
        }
    }
}

/// Returns whether the colors of all styles are numbers of colors.
fn are_valid_styles(styles: &RawStyles) -> bool
    ensures { IsTrue result ↔ AreValidStyles styles.now }
{
    match first_invalid_color(styles) {
        None => true,
        Some(_) => false,
    }
}
