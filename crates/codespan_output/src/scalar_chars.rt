//! Shows to the prover that the characters of a configuration are Unicode scalar values, and that
//! the text before a locus is UTF-8.
//!
//! These functions do nothing: their contracts follow from the types `char` and `str`.

ghost use Rattle.std.specs.Char.{IsScalar};
ghost use Rattle.std.specs.Str.{IsUtf8};
ghost use Rattle.codespan_core.specs.SnippetStarts.{start_text};
ghost use Rattle.codespan_output.specs.Utf8Laws.{CharsAreScalars};

use codespan_core::term::{Chars, SnippetStart};

/// Shows that each character is a Unicode scalar value, and that the text before a locus is UTF-8.
pub fn chars_are_scalars(chars: &Chars<'_>)
    ensures { CharsAreScalars chars.now }
{
    start_is_utf8(&chars.snippet_start);
    is_scalar(chars.source_border_left);
    is_scalar(chars.source_border_left_break);
    is_scalar(chars.note_bullet);
    is_scalar(chars.single_primary_caret);
    is_scalar(chars.single_secondary_caret);
    is_scalar(chars.multi_primary_caret_start);
    is_scalar(chars.multi_primary_caret_end);
    is_scalar(chars.multi_secondary_caret_start);
    is_scalar(chars.multi_secondary_caret_end);
    is_scalar(chars.multi_top_left);
    is_scalar(chars.multi_top);
    is_scalar(chars.multi_bottom_left);
    is_scalar(chars.multi_bottom);
    is_scalar(chars.multi_left);
    is_scalar(chars.pointer_left);
}

/// Shows that the text before a locus is UTF-8.
fn start_is_utf8(start: &SnippetStart<'_>)
    ensures { IsUtf8 (start_text start.now) }
{
    match start {
        SnippetStart::Fixed(text) => {
            let _bytes = text.as_bytes();
        }
        SnippetStart::Owned(text) => {
            let _bytes = text.as_str().as_bytes();
        }
    }
}

/// Shows that a character is a Unicode scalar value.
fn is_scalar(c: char)
    ensures { IsScalar c }
{}
