//! A cursor over the characters of a line, which also returns what labels do at each of them.

ghost use Rattle.std.specs.Prelude.{◌≡◌, List, IfSome};
ghost use Rattle.std.specs.Iterator.{YieldsFirst};
ghost use Rattle.codespan_output.specs.declared.char_metrics.Metrics as metrics;
ghost use Rattle.codespan_output.specs.Carets.{style_under};
ghost use Rattle.codespan_output.specs.Arguments.{SingleLabelTuple, single_label_views};

use crate::char_metrics::Metrics;
use codespan_core::diagnostic::LabelStyle;

/// A cursor over the characters of a line, from left to right.
///
/// It returns one character after another, and of the one that it has just returned also the style
/// of the caret below.
pub trait CharCursor: Drop {
    /// The characters that it has not returned yet.
    ghost remaining: { Self → List metrics.Metrics };

    /// The single-line labels of the line.
    ghost labels: { Self → List SingleLabelTuple };

    /// Whether this is the character that it has just returned.
    ghost has_returned: { metrics.Metrics → Self → Type 0 };

    /// Returns the next character, or `None` after the last one.
    fn next_metrics(&mut self) -> Option<Metrics>
        ensures next { YieldsFirst remaining self.old result self.new }
        ensures returned { IfSome result (λ c. has_returned c self.new) }
        ensures labels { labels self.new ≡ labels self.old };

    /// Returns the style of the caret under the character that it has just returned: primary where
    /// a primary single-line label covers it, secondary where only secondary ones do, and `None`
    /// where none does.
    ///
    /// # Requires
    ///
    /// The cursor has just returned `metrics`.
    fn style_under(&mut self, metrics: Metrics) -> Option<LabelStyle>
        requires { has_returned metrics self.old }
        ensures remaining { remaining self.new ≡ remaining self.old }
        ensures labels { labels self.new ≡ labels self.old }
        ensures style { result ≡ style_under (single_label_views (labels self.old)) metrics };
}
