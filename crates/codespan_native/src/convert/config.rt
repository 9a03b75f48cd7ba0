//! Converts the configuration.

ghost use Rattle.std.specs.Prelude.{◌≡◌};
ghost use Rattle.codespan_base.specs.ConfigEquality.{IsEqualConfig};
ghost use Rattle.codespan_native.specs.Converted.{converted_config, display_style_of, layout_of};
ghost use Rattle.codespan_native.specs.Converted.{form_of, max_width_of};
ghost use Rattle.codespan_native.specs.ValidParts.{AreValidChars};

use crate::convert::chars::convert_chars;
use crate::convert::forms::{Form, form_of};
use crate::raw::{RawConfig, TAB_WIDTH_MAX};
use codespan_base::term::{Config, DisplayStyle, Layout};

/// How a diagnostic is rendered.
#[derive(Drop)]
pub struct Settings<'a> {
    /// The configuration.
    pub config: Config<'a>,
    /// What the output is written as.
    pub form: Form,
}

/// Returns the settings of a configuration of C.
///
/// # Requires
///
/// The choice of characters is valid, and so are the caller's characters and their text before a
/// locus, if they are chosen. [`first_invalid`](crate::validate::first_invalid) checks this.
pub fn convert_config<'a>(raw: &RawConfig<'a>) -> Settings<'a>
    requires { AreValidChars raw.now }
    ensures config { IsEqualConfig (converted_config raw.now) result.config }
    ensures form { result.form ≡ form_of raw.now }
{
    Settings {
        config: converted_config(raw),
        form: form_of(raw),
    }
}

/// Returns the configuration alone.
fn converted_config<'a>(raw: &RawConfig<'a>) -> Config<'a>
    requires { AreValidChars raw.now }
    ensures { IsEqualConfig (converted_config raw.now) result }
{
    Config {
        display_style: display_style_of(raw.display_style),
        tab_width: raw.tab_width.min(TAB_WIDTH_MAX),
        layout: layout_of(raw.layout),
        chars: convert_chars(raw),
        start_context_lines: raw.start_context_lines,
        end_context_lines: raw.end_context_lines,
        before_label_lines: raw.before_label_lines,
        after_label_lines: raw.after_label_lines,
        max_width: max_width_of(raw.max_width),
    }
}

/// Returns the display style of a number. A number above 2 counts as 2.
fn display_style_of(number: u32) -> DisplayStyle
    ensures { result ≡ display_style_of number }
{
    match number {
        0 => DisplayStyle::Rich,
        1 => DisplayStyle::Medium,
        _ => DisplayStyle::Short,
    }
}

/// Returns the greatest width of a number; of 0 none.
fn max_width_of(number: usize) -> Option<usize>
    ensures { result ≡ max_width_of number }
{
    match number {
        0 => None,
        _ => Some(number),
    }
}

/// Returns the layout of a number. A number above 1 counts as 1.
fn layout_of(number: u32) -> Layout
    ensures { result ≡ layout_of number }
{
    match number {
        0 => Layout::Classic,
        _ => Layout::Unbroken,
    }
}
