//! Parts that several kinds of rows have.

ghost use Rattle.std.specs.Prelude.{◌++◌};
ghost use Rattle.codespan_core.specs.Streams.{glyph, style_mark};
ghost use Rattle.codespan_core.specs.declared.term.config.style_mark.StyleMark.TheVariants.{Reset};
ghost use Rattle.codespan_core.specs.WriterLaw.{Writes};
ghost use Rattle.codespan_output.specs.Arguments.{locus_view};
ghost use Rattle.codespan_output.specs.Private.LineViews.{context_view, line_view};
ghost use Rattle.codespan_output.specs.RowParts.{outer_gutter, outer_gutter_number};
ghost use Rattle.codespan_output.specs.RowParts.{snippet_locus, style_change};
ghost use Rattle.codespan_output.specs.Private.LineRows.{row_start};

use crate::arguments::Locus;
use crate::padding::count_digits;
use crate::rows::lanes::{LaneRowKind, inner_gutter};
use crate::rows::line::{Line, RowContext};
use crate::rows::runs::write_spaces;
use codespan_core::diagnostic::{LabelStyle, Severity};
use codespan_core::term::config::put_style::PutStyle;
use codespan_core::term::config::style_mark::StyleMark;
use codespan_core::term::config::writing::{put_all, put_char, put_number, put_spaces};

/// Writes the outer gutter without a line number: the padding and one space more.
///
/// # Errors
///
/// The writer's error; a prefix has then been written.
#[inline(always)]
pub fn outer_gutter<W: PutStyle>(w: &mut W, padding: usize) -> Result<(), W::Error>
    ensures { Writes (W.sink w.old) (outer_gutter padding) result (W.sink w.new) }
{
    write_spaces(w, padding as u128 + 1)
}

/// Writes the outer gutter with a line number, which is aligned to the right in the padding and may
/// be wider.
///
/// # Errors
///
/// The writer's error; a prefix has then been written.
#[inline(always)]
pub fn outer_gutter_number<W: PutStyle>(
    w: &mut W,
    padding: usize,
    number: usize,
) -> Result<(), W::Error>
    ensures { Writes (W.sink w.old) (outer_gutter_number padding number) result (W.sink w.new) }
{
    w.put_mark(StyleMark::LineNumber)?;
    put_spaces(w, padding.saturating_sub(count_digits(number)))?;
    put_number(w, number)?;
    w.put_mark(StyleMark::Reset)?;
    put_all(w, b" ")
}

/// Writes one character in the style of a mark: the mark, the character and a reset.
///
/// # Errors
///
/// The writer's error; a prefix has then been written.
#[inline(always)]
pub fn write_glyph<W: PutStyle>(w: &mut W, mark: StyleMark, c: char) -> Result<(), W::Error>
    ensures { Writes (W.sink w.old) (style_mark mark ++ glyph c ++ style_mark Reset) result
        (W.sink w.new) }
{
    w.put_mark(mark)?;
    put_char(w, c)?;
    w.put_mark(StyleMark::Reset)
}

/// Writes nothing where `style` is `previous`, else its style mark, or a reset where it is `None`.
///
/// # Errors
///
/// The writer's error; a prefix has then been written.
#[tactic(auto, using(codespan_core::proofs::Writes::write_chains), unfolding(crate::specs::RowParts::style_change))]
pub fn change_style<W: PutStyle>(
    w: &mut W,
    severity: Severity,
    previous: Option<LabelStyle>,
    style: Option<LabelStyle>,
) -> Result<(), W::Error>
    ensures { Writes (W.sink w.old) (style_change severity previous style) result (W.sink w.new) }
{
    match (previous, style) {
        (None, None)
        | (Some(LabelStyle::Primary), Some(LabelStyle::Primary))
        | (Some(LabelStyle::Secondary), Some(LabelStyle::Secondary)) => Ok(()),
        (Some(_), None) => w.put_mark(StyleMark::Reset),
        (_, Some(style)) => w.put_mark(StyleMark::Label(severity, style)),
    }
}

/// Writes a locus, in the start of a snippet or in a header: name, line number and column number.
///
/// # Errors
///
/// The writer's error; a prefix has then been written.
#[inline(always)]
pub fn snippet_locus<W: PutStyle>(w: &mut W, locus: &Locus) -> Result<(), W::Error>
    ensures { Writes (W.sink w.old) (snippet_locus (locus_view locus.now)) result (W.sink w.new) }
{
    put_all(w, locus.name.as_bytes())?;
    put_all(w, b":")?;
    put_number(w, locus.location.line_number)?;
    put_all(w, b":")?;
    put_number(w, locus.location.column_number)?;
    Ok(())
}

/// Writes the start of a caret, pointer or hanging row: outer gutter, left border, inner gutter and
/// a space.
///
/// # Errors
///
/// The writer's error; a prefix has then been written.
#[inline(always)]
pub fn write_row_start<W: PutStyle>(
    w: &mut W,
    context: RowContext<'_>,
    line: Line<'_, '_>,
) -> Result<(), W::Error>
    ensures { Writes (W.sink w.old) (row_start (context_view context.entry) (line_view line.entry))
        result (W.sink w.new) }
{
    outer_gutter(w, context.padding)?;
    write_glyph(w, StyleMark::SourceBorder, context.chars.source_border_left)?;
    inner_gutter(
        w,
        context,
        line.leading,
        LaneRowKind::SingleLabels,
        line.lanes,
    )?;
    put_all(w, b" ")
}
