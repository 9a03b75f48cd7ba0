//! Text in runs, each in one style.

use codespan_base::term::config::style_mark::StyleMark;

/// Text in one style.
///
/// Which color a style has is decided where the text is shown: an HTML element has a class for it,
/// an SVG document and a text for a terminal the color that a `Styles` has.
#[derive(Debug, Drop)]
pub struct Run {
    /// The style mark that the text follows, which is the style of the text. Plain text follows
    /// [`StyleMark::Reset`], as does all text before the first style mark.
    pub style: StyleMark,
    /// The text. It may be empty.
    pub text: String,
}

impl Run {
    ghost use Rattle.std.specs.Prelude.{◌≡◌};
    ghost use Rattle.codespan_styled.specs.Runs.{is_plain};

    /// Returns whether the text is plain: source text without a primary label, names, notes,
    /// spaces.
    pub fn is_plain(&self) -> bool
        ensures { result ≡ is_plain self.now.style }
    {
        matches!(self.style, StyleMark::Reset)
    }
}

/// Text in runs.
#[derive(Debug, Drop)]
pub struct StyledText {
    /// The runs, in the order of the text.
    pub runs: Vec<Run>,
}
