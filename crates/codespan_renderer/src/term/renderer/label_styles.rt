//! The styles that the labels of a line have at one of its characters. Each label is tested.

ghost use Rattle.std.specs.Prelude.{◌≡◌, filter};
ghost use Rattle.codespan_core.specs.Labels.{has_message};
ghost use Rattle.codespan_output.specs.Arguments.{single_label_view, single_label_views};
ghost use Rattle.codespan_output.specs.RowParts.{starts_in};
ghost use Rattle.codespan_renderer.specs.Private.PreferredStyles.{preferred_style, prefer_primary};

use crate::term::renderer::SingleLabel;
use crate::term::renderer::char_metrics::Metrics;
use codespan_core::diagnostic::LabelStyle;

/// Returns which of two styles takes precedence: `found` if it is primary, else `style`.
pub fn prefer_primary(found: Option<LabelStyle>, style: LabelStyle) -> Option<LabelStyle>
    ensures { result ≡ prefer_primary found style }
{
    match found {
        Some(LabelStyle::Primary) => found,
        None | Some(LabelStyle::Secondary) => Some(style),
    }
}

/// Returns whether the label starts in the character.
fn starts_in(metrics: Metrics, label: &SingleLabel<'_>) -> bool
    ensures { result ≡ starts_in metrics (single_label_view label.now) }
{
    match label.1.start.checked_sub(metrics.byte_index) {
        Some(inside) => inside < metrics.bytes,
        None => false,
    }
}

/// Returns which style takes precedence: of the one found so far and those of the labels with a
/// message that start in the character.
pub fn start_style(
    found: Option<LabelStyle>,
    labels: &[SingleLabel<'_>],
    metrics: Metrics,
) -> Option<LabelStyle>
    ensures { result
        ≡ preferred_style (starts_in metrics) found
        (filter has_message (single_label_views labels.now)) }
{
    let mut best = found;
    for label in labels {
        if !label.2.is_empty() && starts_in(metrics, label) {
            best = prefer_primary(best, label.0);
        }
    }
    best
}
