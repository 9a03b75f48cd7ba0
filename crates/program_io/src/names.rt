//! The names of display styles and severities.

ghost use Rattle.std.specs.Prelude.{◌≡◌};
ghost use Rattle.program_io.specs.Names.{display_style_named, severity_named};

use codespan_core::diagnostic::Severity;
use codespan_core::term::DisplayStyle;

/// Returns the display style with this name, or `None` if there is none.
#[tactic(auto, unfolding(crate::specs::Names::display_style_named))]
pub fn parse_display_style(text: &str) -> Option<DisplayStyle>
    ensures { result ≡ display_style_named text.now }
{
    match text {
        "rich" => Some(DisplayStyle::Rich),
        "medium" => Some(DisplayStyle::Medium),
        "short" => Some(DisplayStyle::Short),
        _ => None,
    }
}

/// Returns the severity with this name, or `None` if there is none.
#[tactic(auto, unfolding(crate::specs::Names::severity_named))]
pub fn parse_severity(text: &str) -> Option<Severity>
    ensures { result ≡ severity_named text.now }
{
    match text {
        "bug" => Some(Severity::Bug),
        "error" => Some(Severity::Error),
        "warning" => Some(Severity::Warning),
        "note" => Some(Severity::Note),
        "help" => Some(Severity::Help),
        _ => None,
    }
}
