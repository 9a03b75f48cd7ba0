//! Styled text as an SVG document.

ghost use Rattle.std.specs.Prelude.{◌≡◌, ◌≤◌, ◌++◌, ◌*◌, ◌^◌, ◌<◌};
ghost use Rattle.std.specs.Prelude.{IfErr, IfOk, OnOk, codes, string_bytes};
ghost use Rattle.codespan_styled.specs.Glyphs.{glyphs_of};
ghost use Rattle.codespan_styled.specs.HtmlReading.{read_tokens, text_of_tokens};
ghost use Rattle.codespan_styled.specs.Runs.{styled_runs};
ghost use Rattle.codespan_styled.specs.Svg.{color_attribute, first_pen, glyph_text, color_on_dark};
ghost use Rattle.codespan_styled.specs.Svg.{svg_tag_start, svg_document, text_tag, texts_from};
ghost use Rattle.codespan_styled.specs.Svg.{weight_attribute, xml_character};
ghost use Rattle.codespan_styled.specs.SvgReading.{svg_tokens, shown_svg_text};

mod glyph;
mod ink;
pub mod laws;
mod position;

use crate::text::StyledText;
use codespan_base::files::Error;
use codespan_base::term::{Color, Styles};
use glyph::{Glyph, follows, glyphs, joined_cells, joins_next};
use ink::Ink;
use position::{CellPosition, extent};
use std::alloc::{AllocError, Global};

/// The width of a cell, in pixels.
const CELL_WIDTH: u128 = 9;

/// The height of a row, in pixels.
const ROW_HEIGHT: u128 = 18;

/// The margin around the rows, in pixels.
const MARGIN: u128 = 12;

/// The pixels from the top of the document down to the baseline of the first row.
const BASELINE: u128 = 25;

/// The end of the first tag, with the font and the color of plain text, and the dark background.
const FONT_AND_BACKGROUND: &str =
    " font-family=\"DejaVu Sans Mono, Menlo, Consolas, monospace\" font-size=\"15\" \
    fill=\"#e6edf3\">
<rect width=\"100%\" height=\"100%\" rx=\"6\" fill=\"#161b22\"/>
";

/// Returns an SVG document of styled text: an element `text` for characters of a row that follow
/// one another in one ink without a space between them, on a dark background.
///
/// A space is a position, and so is a tab, which leads to the next column that is a multiple of
/// eight: both are between the elements, where they are not shown, and in none of them. So the
/// document looks the same however a renderer collapses white space.
///
/// The ink of a run is the color of its style in `styles`, on the dark background, and whether it
/// is bold; `bg` and `intense` have no effect. A cell is nine pixels wide and a row eighteen high,
/// and each `text` is at the cell where it begins and as long as its cells, so that carets are
/// under their characters in any monospaced font. A character that takes two cells or more is a
/// `text` alone.
///
/// The text should end with a newline, as each output does: a last row without one would be below
/// the bottom of the document.
///
/// A text can neither start nor end a tag or an entity: each of the characters `&`, `<` and `>`
/// becomes an entity. The document shows the same characters as a terminal does: those that are not
/// safe are left out, or replaced (see [`is_safe`](crate::terminal::is_safe)).
///
/// # Errors
///
/// [`Error::OutOfMemory`]: an allocation fails.
///
/// # Example
///
/// ```rust
/// let text = styled_text(alloc, &Config::default(), &files, &diagnostic)?;
/// let svg = to_svg(alloc, &text, &Styles::default())?;
/// ```
pub fn to_svg(alloc: Global, text: &StyledText, styles: &Styles) -> Result<String, Error>
    ensures document { IfOk result (λ svg.
        string_bytes svg ≡ svg_document (glyphs_of styles.now (styled_runs text.now))) }
    ensures tokens { IfOk result (λ svg.
        read_tokens (string_bytes svg) ≡ svg_tokens (glyphs_of styles.now (styled_runs text.now))) }
    ensures text { IfOk result (λ svg.
        text_of_tokens (read_tokens (string_bytes svg)) ≡ shown_svg_text (styled_runs text.now)) }
    ensures failed { IfErr result (λ error. error ≡ Error.OutOfMemory) }
{
    let glyphs = glyphs(alloc, styles, text.runs.as_slice())?;
    Ok(document(alloc, glyphs.as_slice())?)
}

/// Returns the document that shows glyphs.
fn document(alloc: Global, glyphs: &[Glyph]) -> Result<String, AllocError>
    ensures { IfOk result (λ document. string_bytes document ≡ svg_document glyphs.now) }
{
    let mut document = String::new(alloc);
    push_size(alloc, &mut document, extent(glyphs))?;
    document.push_str(FONT_AND_BACKGROUND)?;
    push_texts(alloc, &mut document, glyphs)?;
    document.push_str("</svg>\n")?;
    Ok(document)
}

/// Appends the first half of the first tag of a document: its size.
fn push_size(alloc: Global, document: &mut String, extent: CellPosition) -> Result<(), AllocError>
    requires row { extent.row ≤ 2 ^ 64 }
    requires column { extent.column ≤ 2 ^ 66 }
    ensures { OnOk result (string_bytes document.new ≡ string_bytes document.old
        ++ codes "<" ++ svg_tag_start extent) }
{
    let width = 2 * MARGIN + CELL_WIDTH * extent.column;
    let height = 2 * MARGIN + ROW_HEIGHT * extent.row;
    let tag = format!(in alloc;
        "<svg xmlns=\"http://www.w3.org/2000/svg\" width=\"{width}\" height=\"{height}\" viewBox=\"0 0 {width} {height}\""
    )?;
    document.push_str(tag.as_str())?;
    Ok(())
}

/// The position of the next glyph, and the glyph before it.
#[derive(Clone, Copy)]
struct Pen {
    /// The position of the next glyph.
    position: CellPosition,
    /// The glyph before that position, if there is one.
    before: Option<Glyph>,
}

/// Appends glyphs: `text` elements, and white space between them.
fn push_texts(alloc: Global, document: &mut String, glyphs: &[Glyph]) -> Result<(), AllocError>
    ensures { OnOk result (string_bytes document.new ≡ string_bytes document.old
        ++ texts_from first_pen glyphs.now) }
{
    let mut pen = Pen {
        position: CellPosition::start(),
        before: None,
    };
    for (index, glyph) in glyphs.iter().enumerate() {
        push_glyph(alloc, document, pen, *glyph, &glyphs[index + 1..])?;
        pen = Pen {
            position: pen.position.after(*glyph),
            before: Some(*glyph),
        };
    }
    Ok(())
}

/// Appends a glyph, which `others` follow.
fn push_glyph(
    alloc: Global,
    document: &mut String,
    pen: Pen,
    glyph: Glyph,
    others: &[Glyph],
) -> Result<(), AllocError>
    requires row { pen.position.row ≤ 2 ^ 64 }
    requires column { pen.position.column ≤ 2 ^ 66 }
    ensures { OnOk result (string_bytes document.new ≡ string_bytes document.old
        ++ glyph_text pen glyph others.now) }
{
    if glyph.is_white_space() {
        document.push(glyph.character)?;
        return Ok(());
    }
    if !follows(pen.before, glyph) {
        let cells = glyph.cells() as u128 + joined_cells(glyph, others);
        push_tag(alloc, document, pen.position, cells, glyph.ink)?;
    }
    push_character(document, glyph.character)?;
    if !joins_next(glyph, others) {
        document.push_str("</text>")?;
    }
    Ok(())
}

/// Appends the tag that begins a `text` element of this many cells at a position.
fn push_tag(
    alloc: Global,
    document: &mut String,
    position: CellPosition,
    cells: u128,
    ink: Ink,
) -> Result<(), AllocError>
    requires row { position.row ≤ 2 ^ 64 }
    requires column { position.column ≤ 2 ^ 66 }
    requires cells { cells ≤ 2 ^ 66 }
    ensures { OnOk result (string_bytes document.new ≡ string_bytes document.old
        ++ text_tag position cells ink) }
{
    let x = MARGIN + CELL_WIDTH * position.column;
    let y = BASELINE + ROW_HEIGHT * position.row;
    let length = CELL_WIDTH * cells;
    let tag = format!(in alloc; "<text x=\"{x}\" y=\"{y}\" textLength=\"{length}\"")?;
    document.push_str(tag.as_str())?;
    push_color(document, ink.color)?;
    push_weight(document, ink.bold)?;
    document.push_str(">")?;
    Ok(())
}

/// Appends the attribute of a color, if there is one.
fn push_color(document: &mut String, color: Option<Color>) -> Result<(), AllocError>
    ensures { OnOk result (string_bytes document.new ≡ string_bytes document.old
        ++ color_attribute color) }
{
    let Some(color) = color else {
        return Ok(());
    };
    document.push_str(" fill=\"")?;
    document.push_str(color_on_dark(color))?;
    document.push_str("\"")?;
    Ok(())
}

/// Appends the attribute of bold text, if it is bold.
fn push_weight(document: &mut String, bold: bool) -> Result<(), AllocError>
    ensures { OnOk result (string_bytes document.new ≡ string_bytes document.old
        ++ weight_attribute bold) }
{
    if bold {
        document.push_str(" font-weight=\"bold\"")?;
    }
    Ok(())
}

/// Returns the CSS color of a terminal color, chosen to be legible on the dark background.
fn color_on_dark(color: Color) -> &'static str
    ensures { result.now ≡ color_on_dark color }
{
    match color {
        Color::Black => "#6e7681",
        Color::Red => "#ff7b72",
        Color::Green => "#7ee787",
        Color::Yellow => "#e3b341",
        Color::Blue => "#79c0ff",
        Color::Magenta => "#d2a8ff",
        Color::Cyan => "#56d4dd",
        Color::White => "#b1bac4",
    }
}

/// Appends a character as XML escapes it.
fn push_character(document: &mut String, character: char) -> Result<(), AllocError>
    ensures { OnOk result (string_bytes document.new ≡ string_bytes document.old
        ++ xml_character character) }
{
    match character {
        '&' => document.push_str("&amp;"),
        '<' => document.push_str("&lt;"),
        '>' => document.push_str("&gt;"),
        other => document.push(other),
    }
}
