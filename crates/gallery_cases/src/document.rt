//! A rendered case as a document in colors: SVG, an HTML element or text for a terminal.

ghost use Rattle.std.specs.Prelude.{◌≡◌, IfOk, string_bytes};
ghost use Rattle.codespan_base.specs.StyleSpellings.{default_styles};
ghost use Rattle.codespan_styled.specs.StyleSheet.{style_sheet};
ghost use Rattle.gallery_cases.specs.Documents.{IsDocument};

use crate::case::Case;
use crate::rendering::runs_of_case;
use crate::request::Format;
use codespan_base::term::Styles;
use codespan_styled::{html_styles, to_html, to_svg, to_terminal};
use codespan_suggestions::SuggestionError;
use std::alloc::Global;

/// Renders a case in colors, whatever colors it states, and returns the document in a format.
///
/// # Errors
///
/// Those of [`runs_of_case`], and `OutOfMemory` if an allocation fails.
pub fn document(alloc: Global, case: &Case<'_>, format: Format) -> Result<String, SuggestionError>
    ensures { IfOk result (λ document. IsDocument format case.now (string_bytes document)) }
{
    let text = runs_of_case(alloc, case)?;
    match format {
        Format::Svg => Ok(to_svg(alloc, &text, &Styles::default())?),
        Format::Html => Ok(to_html(alloc, &text)?),
        Format::Terminal => Ok(to_terminal(alloc, &text, &Styles::default())?),
    }
}

/// Returns the style sheet of HTML elements, in the default styles.
///
/// # Errors
///
/// `OutOfMemory` if an allocation fails.
pub fn default_style_sheet(alloc: Global) -> Result<String, SuggestionError>
    ensures { IfOk result (λ css. string_bytes css ≡ style_sheet default_styles) }
{
    Ok(html_styles(alloc, &Styles::default())?)
}
