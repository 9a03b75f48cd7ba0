//! Converts the characters of the output.

ghost use Rattle.std.specs.Prelude.{◌≡◌};
ghost use Rattle.std.specs.Char.{InScalarRange};
ghost use Rattle.codespan_base.specs.ConfigEquality.{IsEqualChars};
ghost use Rattle.codespan_native.specs.Converted.{converted_chars, custom_chars};
ghost use Rattle.codespan_native.specs.ValidParts.{AreCustomChars, AreValidChars};

use crate::convert::text::str_of;
use crate::raw::{RawChars, RawConfig};
use codespan_base::term::{Chars, SnippetStart};

/// Returns the characters that a configuration chooses. A number above 2 counts as 2.
///
/// # Requires
///
/// The choice of characters is valid, and so are the caller's characters and their text before a
/// locus, if they are chosen. [`first_invalid`](crate::validate::first_invalid) checks this.
pub fn convert_chars<'a>(raw: &RawConfig<'a>) -> Chars<'a>
    requires { AreValidChars raw.now }
    ensures { IsEqualChars (converted_chars raw.now) result }
{
    match raw.characters {
        0 => Chars::box_drawing(),
        1 => Chars::ascii(),
        _ => custom_chars(&raw.chars),
    }
}

/// Returns the caller's characters.
fn custom_chars<'a>(raw: &RawChars<'a>) -> Chars<'a>
    requires { AreCustomChars raw.now }
    ensures { IsEqualChars (custom_chars raw.now) result }
{
    Chars {
        snippet_start: SnippetStart::Fixed(str_of(raw.snippet_start)),
        source_border_left: character_of(raw.source_border_left),
        source_border_left_break: character_of(raw.source_border_left_break),
        note_bullet: character_of(raw.note_bullet),
        single_primary_caret: character_of(raw.single_primary_caret),
        single_secondary_caret: character_of(raw.single_secondary_caret),
        multi_primary_caret_start: character_of(raw.multi_primary_caret_start),
        multi_primary_caret_end: character_of(raw.multi_primary_caret_end),
        multi_secondary_caret_start: character_of(raw.multi_secondary_caret_start),
        multi_secondary_caret_end: character_of(raw.multi_secondary_caret_end),
        multi_top_left: character_of(raw.multi_top_left),
        multi_top: character_of(raw.multi_top),
        multi_bottom_left: character_of(raw.multi_bottom_left),
        multi_bottom: character_of(raw.multi_bottom),
        multi_left: character_of(raw.multi_left),
        pointer_left: character_of(raw.pointer_left),
    }
}

/// Returns the character of a code point.
fn character_of(code: u32) -> char
    requires { InScalarRange code }
    ensures { result ≡ code }
{
    char::from_u32(code).unwrap()
}
