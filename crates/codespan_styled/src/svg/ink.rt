//! Inks: what a style is in an SVG document.

ghost use Rattle.std.specs.Prelude.{◌≡◌};
ghost use Rattle.codespan_styled.specs.Inks.{ink_of};

use codespan_base::term::{Color, ColorSpec};

/// A color and a weight of text.
#[derive(Clone, Copy, Debug, PartialEq, Eq)]
pub struct Ink {
    /// The color; `None` for that of plain text.
    pub color: Option<Color>,
    /// Whether the text is bold.
    pub bold: bool,
}

impl Ink {
    /// Returns the ink of a [`ColorSpec`]: its text color, and whether it is bold.
    pub(crate) fn of(spec: ColorSpec) -> Ink
        ensures { result ≡ ink_of spec }
    {
        Ink {
            color: spec.fg,
            bold: spec.bold,
        }
    }
}
