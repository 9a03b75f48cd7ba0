//! Converts the caller's styles.

ghost use Rattle.std.specs.Prelude.{◌≡◌};
ghost use Rattle.codespan_native.specs.Converted.{color_of, color_spec_of, custom_styles};

use crate::raw::{RawColorSpec, RawStyles};
use codespan_base::term::{Color, ColorSpec, Styles};

/// Returns the caller's styles. A number of a color above 8 counts as 8.
pub fn convert_styles(raw: &RawStyles) -> Styles
    ensures { result ≡ custom_styles raw.now }
{
    Styles {
        header_bug: color_spec_of(&raw.header_bug),
        header_error: color_spec_of(&raw.header_error),
        header_warning: color_spec_of(&raw.header_warning),
        header_note: color_spec_of(&raw.header_note),
        header_help: color_spec_of(&raw.header_help),
        header_message: color_spec_of(&raw.header_message),
        primary_label_bug: color_spec_of(&raw.primary_label_bug),
        primary_label_error: color_spec_of(&raw.primary_label_error),
        primary_label_warning: color_spec_of(&raw.primary_label_warning),
        primary_label_note: color_spec_of(&raw.primary_label_note),
        primary_label_help: color_spec_of(&raw.primary_label_help),
        secondary_label: color_spec_of(&raw.secondary_label),
        line_number: color_spec_of(&raw.line_number),
        source_border: color_spec_of(&raw.source_border),
        note_bullet: color_spec_of(&raw.note_bullet),
    }
}

/// Returns the style of these numbers.
fn color_spec_of(raw: &RawColorSpec) -> ColorSpec
    ensures { result ≡ color_spec_of raw.now }
{
    ColorSpec {
        fg: color_of(raw.fg),
        bg: color_of(raw.bg),
        bold: raw.bold != 0,
        intense: raw.intense != 0,
    }
}

/// Returns the color of a number, or none for 0. A number above 8 counts as 8.
fn color_of(number: u32) -> Option<Color>
    ensures { result ≡ color_of number }
{
    match number {
        0 => None,
        1 => Some(Color::Black),
        2 => Some(Color::Red),
        3 => Some(Color::Green),
        4 => Some(Color::Yellow),
        5 => Some(Color::Blue),
        6 => Some(Color::Magenta),
        7 => Some(Color::Cyan),
        _ => Some(Color::White),
    }
}
