//! Validates the configuration.

ghost use Rattle.std.specs.Prelude.{◌≡◌, IsTrue, ◌↔◌};
ghost use Rattle.std.specs.Char.{InScalarRange};
ghost use Rattle.std.specs.Str.{IsUtf8};
ghost use Rattle.codespan_native.specs.Constants.{ABI};
ghost use Rattle.codespan_native.specs.Validity.{code_points_of, color_specs_of};
ghost use Rattle.codespan_native.specs.Validity.{FindsFirstInvalid, FindsFirstWithout, HoldsIfAt};
ghost use Rattle.codespan_native.specs.Validity.{IsValidColorSpec};

use crate::raw::{ABI, RawChars, RawColorSpec, RawConfig, RawStyles};
use crate::validate::values::{is_scalar_value, is_utf8, is_valid_color_spec};

/// The number that chooses the caller's characters.
const CUSTOM_CHARACTERS: u32 = 2;

/// The number of the color mode of the caller's styles.
const CUSTOM_STYLES: u32 = 2;

/// Returns whether the layouts of the structs are those of this library.
pub fn is_abi_valid(config: &RawConfig<'_>) -> bool
    ensures { IsTrue result ↔ (config.now.abi ≡ ABI) }
{
    config.abi == ABI
}

/// Returns whether the caller's text before a locus is UTF-8, or is not read, since `characters`
/// does not choose it.
pub fn is_snippet_start_valid(config: &RawConfig<'_>) -> bool
    ensures { IsTrue result
        ↔ (config.now.characters ≡ 2 → IsUtf8 config.now.chars.snippet_start.now) }
{
    config.characters != CUSTOM_CHARACTERS || is_utf8(config.chars.snippet_start)
}

/// Returns the index of the first of the caller's characters that is invalid, where they are
/// chosen.
pub fn character_index(config: &RawConfig<'_>) -> Option<usize>
    ensures { FindsFirstInvalid (λ i. config.now.characters ≡ 2
        → HoldsIfAt InScalarRange (code_points_of config.now.chars) i) result }
{
    if config.characters != CUSTOM_CHARACTERS {
        return None;
    }
    code_point_index(&code_points_of(&config.chars))
}

/// Returns the index of the first of the caller's styles with a color that is invalid, where they
/// are chosen.
pub fn color_index(config: &RawConfig<'_>) -> Option<usize>
    ensures { FindsFirstInvalid (λ i. config.now.color_mode ≡ 2
        → HoldsIfAt IsValidColorSpec (color_specs_of config.now.styles) i) result }
{
    if config.color_mode != CUSTOM_STYLES {
        return None;
    }
    first_invalid_color(&config.styles)
}

/// Returns the index of the first style with a color that is invalid.
pub fn first_invalid_color(styles: &RawStyles) -> Option<usize>
    ensures { FindsFirstInvalid (HoldsIfAt IsValidColorSpec (color_specs_of styles.now)) result }
{
    color_spec_index(&color_specs_of(styles))
}

/// Returns the index of the first code point that is not a Unicode scalar value.
fn code_point_index(codes: &[u32]) -> Option<usize>
    ensures { FindsFirstWithout InScalarRange codes.now result }
{
    codes.iter().position(|code| !is_scalar_value(*code))
}

/// Returns the index of the first style with a color that is invalid.
fn color_spec_index(specs: &[RawColorSpec]) -> Option<usize>
    ensures { FindsFirstWithout IsValidColorSpec specs.now result }
{
    specs.iter().position(|spec| !is_valid_color_spec(spec))
}

/// Returns the code points of the caller's characters, in the order of the fields.
fn code_points_of(chars: &RawChars<'_>) -> [u32; 15]
    ensures { result ≡ code_points_of chars.now }
{
    [
        chars.source_border_left,
        chars.source_border_left_break,
        chars.note_bullet,
        chars.single_primary_caret,
        chars.single_secondary_caret,
        chars.multi_primary_caret_start,
        chars.multi_primary_caret_end,
        chars.multi_secondary_caret_start,
        chars.multi_secondary_caret_end,
        chars.multi_top_left,
        chars.multi_top,
        chars.multi_bottom_left,
        chars.multi_bottom,
        chars.multi_left,
        chars.pointer_left,
    ]
}

/// Returns the caller's styles, in the order of the fields.
fn color_specs_of(styles: &RawStyles) -> [RawColorSpec; 15]
    ensures { result ≡ color_specs_of styles.now }
{
    [
        styles.header_bug,
        styles.header_error,
        styles.header_warning,
        styles.header_note,
        styles.header_help,
        styles.header_message,
        styles.primary_label_bug,
        styles.primary_label_error,
        styles.primary_label_warning,
        styles.primary_label_note,
        styles.primary_label_help,
        styles.secondary_label,
        styles.line_number,
        styles.source_border,
        styles.note_bullet,
    ]
}
