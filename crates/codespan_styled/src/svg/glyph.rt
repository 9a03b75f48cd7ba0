//! The characters of styled text, each in its ink, and the cells that they occupy.

ghost use Rattle.std.specs.Prelude.{◌≡◌, ◌≤◌, IfOk, length, map};
ghost use Rattle.codespan_styled.specs.Glyphs.{cells_of, follows, glyphs_of, glyphs_of_run};
ghost use Rattle.codespan_styled.specs.Glyphs.{joins_next, is_narrow, is_newline_glyph};
ghost use Rattle.codespan_styled.specs.Glyphs.{is_white_space, joined_cells, joins, keeps_order};
ghost use Rattle.codespan_styled.specs.Glyphs.{runs_left};
ghost use Rattle.codespan_styled.specs.Inks.{same_ink};
ghost use Rattle.codespan_styled.specs.Runs.{run_view};

use crate::cells::cells;
use crate::safe::shown_character;
use crate::style_sheet::color_spec_of_style;
use crate::svg::ink::Ink;
use crate::text::Run;
use codespan_base::term::Styles;
use std::alloc::{AllocError, Global};

/// A character in its ink.
#[derive(Clone, Copy, Debug, PartialEq, Eq)]
pub struct Glyph {
    /// The character.
    pub character: char,
    /// The ink of the character.
    pub ink: Ink,
}

impl Glyph {
    /// Returns the number of cells that it occupies: the width that `unicode_width` returns for its
    /// character, or 0 where it returns none.
    pub fn cells(self) -> usize
        ensures value { result ≡ cells_of self }
        ensures bound { result ≤ 3 }
    {
        cells(self.character)
    }

    /// Returns whether it is a newline.
    pub fn is_newline(self) -> bool
        ensures { result ≡ is_newline_glyph self }
    {
        self.character == '\n'
    }

    /// Returns whether it is white space, a newline, a space or a tab: no `text` element has it.
    pub fn is_white_space(self) -> bool
        ensures { result ≡ is_white_space self }
    {
        matches!(self.character, '\n' | ' ' | '\t')
    }

    /// Returns whether it occupies at most one cell and is no white space.
    fn is_narrow(self) -> bool
        ensures { result ≡ is_narrow self }
    {
        !self.is_white_space() && self.cells() <= 1
    }

    /// Returns whether the next glyph belongs to the same `text` element: both are narrow, in one
    /// ink, and the order of the two is kept.
    fn joins(self, next: Glyph) -> bool
        ensures { result ≡ joins self next }
    {
        self.is_narrow() && next.is_narrow() && self.has_ink_of(next) && self.keeps_order(next)
    }

    /// Returns whether the next glyph is in the same ink.
    fn has_ink_of(self, next: Glyph) -> bool
        ensures { result ≡ same_ink self.ink next.ink }
    {
        self.ink == next.ink
    }

    /// Returns whether no renderer shows the next glyph before this one: neither is of
    /// a right-to-left script, or the next one is a mark of one, which occupies no cell.
    fn keeps_order(self, next: Glyph) -> bool
        ensures { result ≡ keeps_order self next }
    {
        !(self.runs_left() || next.runs_left()) || (next.runs_left() && next.cells() == 0)
    }

    /// Returns whether its character is in a block that Unicode has for right-to-left scripts.
    fn runs_left(self) -> bool
        ensures { result ≡ runs_left self }
    {
        matches!(
            self.character,
            '\u{590}'..='\u{8ff}'
                | '\u{fb1d}'..='\u{fdff}'
                | '\u{fe70}'..='\u{feff}'
                | '\u{10800}'..='\u{10fff}'
                | '\u{1e800}'..='\u{1efff}'
        )
    }
}

/// Returns whether a glyph belongs to the `text` element of the one before it, if there is one.
pub(super) fn follows(before: Option<Glyph>, glyph: Glyph) -> bool
    ensures { result ≡ follows before glyph }
{
    match before {
        Some(before) => before.joins(glyph),
        None => false,
    }
}

/// Returns whether the first of the glyphs after a glyph belongs to its `text` element.
pub(super) fn joins_next(glyph: Glyph, others: &[Glyph]) -> bool
    ensures { result ≡ joins_next glyph others.now }
{
    match others {
        [next, ..] => glyph.joins(*next),
        [] => false,
    }
}

/// Returns the number of cells of the glyphs after `before` that belong to its `text` element.
pub(super) fn joined_cells(before: Glyph, others: &[Glyph]) -> u128
    ensures value { result ≡ joined_cells before others.now }
    ensures bound { result ≤ length others.now }
{
    let mut cells = 0;
    let mut last = before;
    for glyph in others {
        if !last.joins(*glyph) {
            return cells;
        }
        cells += glyph.cells() as u128;
        last = *glyph;
    }
    cells
}

/// Returns what is shown for the characters of runs, each in the ink of its run's style.
///
/// # Errors
///
/// [`AllocError`]: an allocation fails.
pub(super) fn glyphs(alloc: Global, styles: &Styles, runs: &[Run]) -> Result<Vec<Glyph>, AllocError>
    ensures { IfOk result (λ glyphs. glyphs.items ≡ glyphs_of styles.now (map run_view runs.now)) }
{
    let mut glyphs = Vec::new(alloc);
    for run in runs {
        let more = glyphs_in(alloc, styles, run)?;
        glyphs.extend_from_slice(more.as_slice())?;
    }
    Ok(glyphs)
}

/// Returns what is shown for the characters of a run.
fn glyphs_in(alloc: Global, styles: &Styles, run: &Run) -> Result<Vec<Glyph>, AllocError>
    ensures { IfOk result (λ glyphs. glyphs.items ≡ glyphs_of_run styles.now (run_view run.now)) }
{
    let ink = Ink::of(color_spec_of_style(styles, run.style));
    run.text
        .as_str()
        .chars()
        .filter_map(shown_character)
        .map(|character| Glyph { character, ink })
        .collect(alloc)
}
