//! The style sheet of HTML elements.

ghost use Rattle.std.specs.Prelude.{◌≡◌, ◌++◌, IfErr, IfOk, OnOk, flat_map};
ghost use Rattle.std.specs.Prelude.{if◌then◌else◌, string_bytes};
ghost use Rattle.codespan_styled.specs.StyleSheet.{bright_color, color_declaration, declarations};
ghost use Rattle.codespan_styled.specs.StyleSheet.{normal_color, rule, color_spec_of_style};
ghost use Rattle.codespan_styled.specs.StyleSheet.{style_sheet, weight_declaration};

use crate::html::style_class;
use codespan_base::diagnostic::{LabelStyle, Severity};
use codespan_base::files::Error;
use codespan_base::term::config::style_mark::StyleMark;
use codespan_base::term::{Color, ColorSpec, Styles};
use std::alloc::{AllocError, Global};

/// One style of each class.
const CLASSED_STYLES: [StyleMark; 15] = [
    StyleMark::Header(Severity::Bug),
    StyleMark::Header(Severity::Error),
    StyleMark::Header(Severity::Warning),
    StyleMark::Header(Severity::Note),
    StyleMark::Header(Severity::Help),
    StyleMark::HeaderMessage,
    StyleMark::Label(Severity::Bug, LabelStyle::Primary),
    StyleMark::Label(Severity::Error, LabelStyle::Primary),
    StyleMark::Label(Severity::Warning, LabelStyle::Primary),
    StyleMark::Label(Severity::Note, LabelStyle::Primary),
    StyleMark::Label(Severity::Help, LabelStyle::Primary),
    StyleMark::Label(Severity::Error, LabelStyle::Secondary),
    StyleMark::LineNumber,
    StyleMark::SourceBorder,
    StyleMark::NoteBullet,
];

/// The rule of the element, whose characters are from left to right in the order of its text, and
/// those of the boxes of wide characters, as wide as the cells that the characters occupy.
const LAYOUT_RULES: &str = ".diagnostic { direction: ltr; unicode-bidi: isolate-override; }\n\
    .diagnostic .wide { display: inline-block; width: 2ch; }\n\
    .diagnostic .wide-3 { display: inline-block; width: 3ch; }\n";

/// Returns a style sheet for the elements of [`to_html`](crate::to_html): a rule for the class of
/// each style, with the colors and the weight that `styles` has for it, one for the
/// element, and one for each class of wide characters, with the width of their cells.
///
/// By the rule of the element a browser shows the characters of a row from left to right, in the
/// order of the text, those of right-to-left scripts too: so each caret is under its character.
///
/// The colors are those that xterm shows by default, bright where a style is `intense`. Where a
/// style has no `bg`, the background is the page's: `Styles::default` is meant for a dark page.
///
/// # Errors
///
/// [`Error::OutOfMemory`]: an allocation fails.
///
/// # Example
///
/// ```rust
/// let css = html_styles(alloc, &Styles::default())?;
/// ```
pub fn html_styles(alloc: Global, styles: &Styles) -> Result<String, Error>
    ensures css_text { IfOk result (λ css. string_bytes css ≡ style_sheet styles.now) }
    ensures failed { IfErr result (λ error. error ≡ Error.OutOfMemory) }
{
    let mut css = String::new(alloc);
    push_rules(&mut css, styles, &CLASSED_STYLES)?;
    css.push_str(LAYOUT_RULES)?;
    Ok(css)
}

/// Appends the rule of each style's class.
fn push_rules(css: &mut String, styles: &Styles, classed: &[StyleMark]) -> Result<(), AllocError>
    ensures { OnOk result (string_bytes css.new
        ≡ string_bytes css.old ++ flat_map (rule styles.now) classed.now) }
{
    for style in classed {
        push_rule(css, styles, *style)?;
    }
    Ok(())
}

/// Appends the rule of the class of a style.
fn push_rule(css: &mut String, styles: &Styles, style: StyleMark) -> Result<(), AllocError>
    ensures { OnOk result (string_bytes css.new ≡ string_bytes css.old ++ rule styles.now style) }
{
    css.push_str(".diagnostic .")?;
    css.push_str(style_class(style))?;
    css.push_str(" { ")?;
    push_declarations(css, color_spec_of_style(styles, style))?;
    css.push_str("}\n")?;
    Ok(())
}

/// Appends the declarations of the colors and the weight of a [`ColorSpec`].
fn push_declarations(css: &mut String, spec: ColorSpec) -> Result<(), AllocError>
    ensures { OnOk result (string_bytes css.new ≡ string_bytes css.old ++ declarations spec) }
{
    push_color(css, "color: ", spec.intense, spec.fg)?;
    push_color(css, "background-color: ", spec.intense, spec.bg)?;
    push_weight(css, spec.bold)?;
    Ok(())
}

/// Appends the declaration of bold text, where it is bold.
fn push_weight(css: &mut String, bold: bool) -> Result<(), AllocError>
    ensures { OnOk result (string_bytes css.new ≡ string_bytes css.old ++ weight_declaration bold) }
{
    if bold {
        css.push_str("font-weight: bold; ")?;
    }
    Ok(())
}

/// Appends a color as a declaration, where there is one.
fn push_color(
    css: &mut String,
    property: &str,
    intense: bool,
    color: Option<Color>,
) -> Result<(), AllocError>
    ensures { OnOk result (string_bytes css.new
        ≡ string_bytes css.old ++ color_declaration property.now intense color) }
{
    let Some(color) = color else {
        return Ok(());
    };
    css.push_str(property)?;
    css.push_str(color_code(intense, color))?;
    css.push_str("; ")?;
    Ok(())
}

/// Returns the CSS color of a terminal color, or of its bright variant.
fn color_code(intense: bool, color: Color) -> &'static str
    ensures { result.now ≡ (if intense then bright_color color else normal_color color) }
{
    if intense {
        bright_color(color)
    } else {
        normal_color(color)
    }
}

/// Returns the CSS color of a terminal color, as xterm shows it by default.
fn normal_color(color: Color) -> &'static str
    ensures { result.now ≡ normal_color color }
{
    match color {
        Color::Black => "#000000",
        Color::Red => "#cd0000",
        Color::Green => "#00cd00",
        Color::Yellow => "#cdcd00",
        Color::Blue => "#0000ee",
        Color::Magenta => "#cd00cd",
        Color::Cyan => "#00cdcd",
        Color::White => "#e5e5e5",
    }
}

/// Returns the CSS color of the bright variant of a terminal color, as xterm shows it by default.
fn bright_color(color: Color) -> &'static str
    ensures { result.now ≡ bright_color color }
{
    match color {
        Color::Black => "#7f7f7f",
        Color::Red => "#ff0000",
        Color::Green => "#00ff00",
        Color::Yellow => "#ffff00",
        Color::Blue => "#5c5cff",
        Color::Magenta => "#ff00ff",
        Color::Cyan => "#00ffff",
        Color::White => "#ffffff",
    }
}

/// Returns the colors and the weight that `styles` has for a style.
pub(crate) fn color_spec_of_style(styles: &Styles, style: StyleMark) -> ColorSpec
    ensures { result ≡ color_spec_of_style styles.now style }
{
    match style {
        StyleMark::Reset => ColorSpec::new(),
        StyleMark::Header(severity) => *styles.header(severity),
        StyleMark::HeaderMessage => styles.header_message,
        StyleMark::LineNumber => styles.line_number,
        StyleMark::NoteBullet => styles.note_bullet,
        StyleMark::SourceBorder => styles.source_border,
        StyleMark::Label(severity, label_style) => *styles.label(severity, label_style),
    }
}
