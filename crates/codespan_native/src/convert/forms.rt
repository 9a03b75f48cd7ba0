//! Converts the form of an output, with its colors.

ghost use Rattle.std.specs.Prelude.{◌≡◌};
ghost use Rattle.codespan_native.specs.Converted.{form_of, other_form, styles_of, terminal_form};
ghost use Rattle.codespan_native.specs.Converted.{text_form};

use crate::convert::styles::convert_styles;
use crate::raw::RawConfig;
use codespan_base::term::Styles;

/// What an output is written as.
#[derive(Clone, Copy)]
pub enum Form {
    /// Safe text, without colors: its characters as a terminal, HTML and SVG show them.
    SafeText,
    /// Safe text, each run after the escape sequences of these styles.
    Terminal(Styles),
    /// Text, whose names, sources and messages are as they are passed.
    Text,
    /// That text, with the escape sequences of [`Ansi`](codespan_base::term::Ansi) in these styles.
    Ansi(Styles),
    /// That text, with style marks in band: each is the byte 255 and its number.
    StyleMarks,
    /// An HTML element.
    Html,
    /// An SVG document, in the colors of these styles.
    Svg(Styles),
}

/// Returns the form that a configuration chooses. A number above 4 counts as 4.
pub fn form_of(raw: &RawConfig<'_>) -> Form
    ensures { result ≡ form_of raw.now }
{
    match raw.form {
        0 => terminal_form(raw),
        1 => text_form(raw),
        _ => other_form(raw),
    }
}

/// Returns the form of safe text for a terminal.
fn terminal_form(raw: &RawConfig<'_>) -> Form
    ensures { result ≡ terminal_form raw.now }
{
    match raw.color_mode {
        0 => Form::SafeText,
        _ => Form::Terminal(styles_of(raw)),
    }
}

/// Returns the form of text.
fn text_form(raw: &RawConfig<'_>) -> Form
    ensures { result ≡ text_form raw.now }
{
    match raw.color_mode {
        0 => Form::Text,
        _ => Form::Ansi(styles_of(raw)),
    }
}

/// Returns the form of text with style marks in band, or of a document.
fn other_form(raw: &RawConfig<'_>) -> Form
    ensures { result ≡ other_form raw.now }
{
    match raw.form {
        2 => Form::StyleMarks,
        3 => Form::Html,
        _ => Form::Svg(styles_of(raw)),
    }
}

/// Returns the caller's styles where they are chosen, and else the default ones.
fn styles_of(raw: &RawConfig<'_>) -> Styles
    ensures { result ≡ styles_of raw.now }
{
    match raw.color_mode {
        2 => convert_styles(&raw.styles),
        _ => Styles::default(),
    }
}
