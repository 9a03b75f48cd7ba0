//! Colors and styles of text, and the trait of writers that write them.

ghost use Rattle.std.specs.Prelude.{◌≡◌};
ghost use Rattle.codespan_core.specs.WriterLaw.{AppendsBytes};

use std::io;
use std::io::Write;

/// The eight colors of a terminal, by their numbers in escape sequences.
#[derive(Clone, Copy, Debug, PartialEq, Eq)]
pub enum Color {
    /// Number 0.
    Black,
    /// Number 1.
    Red,
    /// Number 2.
    Green,
    /// Number 3.
    Yellow,
    /// Number 4.
    Blue,
    /// Number 5.
    Magenta,
    /// Number 6.
    Cyan,
    /// Number 7.
    White,
}

/// A style of text: its colors and weight.
#[derive(Clone, Copy, Debug, PartialEq, Eq)]
pub struct ColorSpec {
    /// The color of the text; `None` for the default one.
    pub fg: Option<Color>,
    /// The color of the background; `None` for the default one.
    pub bg: Option<Color>,
    /// Whether the text is bold.
    pub bold: bool,
    /// Whether the colors that are set are the bright ones.
    pub intense: bool,
}

impl ColorSpec {
    ghost use Rattle.codespan_base.specs.PartStyles.{unset};

    /// Returns the style of plain text: the default colors, not bold and not intense.
    pub fn new() -> ColorSpec
        ensures { result ≡ unset }
    {
        ColorSpec {
            fg: None,
            bg: None,
            bold: false,
            intense: false,
        }
    }
}

impl Default for ColorSpec {
    ghost use Rattle.codespan_base.specs.PartStyles.{unset};

    ghost is_default = { λ spec. spec ≡ unset };

    fn default() -> ColorSpec {
        ColorSpec::new()
    }
}

/// A writer of bytes and colors, with fixed bytes for each style of text and for the reset.
/// [`StylesWriter`](codespan_reporting::term::StylesWriter) makes a
/// [`WriteStyle`](codespan_reporting::term::WriteStyle) of it.
///
/// The guide on writers implements one.
pub trait WriteColor: Write {
    ghost use Rattle.std.specs.Prelude.{ℕ, List};
    ghost use Rattle.codespan_base.specs.declared.term.config.color.ColorSpec.{ColorSpec};

    /// The bytes that the writer writes for a style.
    ghost style_bytes: { ColorSpec → List ℕ };

    /// The bytes that the writer writes for the reset, which ends a style.
    ghost reset_bytes: { List ℕ };

    /// Writes the bytes of the style.
    ///
    /// # Errors
    ///
    /// An [`io::Error`] where a write fails or takes none of its bytes; a prefix of the bytes has
    /// then been written.
    fn set_color(&mut self, spec: &ColorSpec) -> io::Result<()>
        ensures { AppendsBytes (Self.contents self.old) (style_bytes spec.now)
            result (Self.contents self.new) };

    /// Writes the bytes of the reset.
    ///
    /// # Errors
    ///
    /// An [`io::Error`] where a write fails or takes none of its bytes; a prefix of the bytes has
    /// then been written.
    fn reset(&mut self) -> io::Result<()>
        ensures { AppendsBytes (Self.contents self.old) reset_bytes result
            (Self.contents self.new) };
}
