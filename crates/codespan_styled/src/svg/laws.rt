//! Laws of SVG documents, one to a function that does nothing: its contract is the law, over the
//! definitions alone.

ghost use Rattle.std.specs.Prelude.{◌≡◌, ℕ, All, List, false, filter, flat_map, map};
ghost use Rattle.std.specs.List.{AllByRecursion};
ghost use Rattle.codespan_base.specs.declared.term.config.styles.Styles.{Styles};
ghost use Rattle.codespan_styled.specs.Glyphs.{glyphs_of, start, tab_width};
ghost use Rattle.codespan_styled.specs.Runs.{RunView, run_characters};
ghost use Rattle.codespan_styled.specs.SafeText.{shown_columns};
ghost use Rattle.codespan_styled.specs.Svg.{first_pen};
ghost use Rattle.codespan_styled.specs.SvgReading.{KeepsOrder, characters_from, in_column};
ghost use Rattle.codespan_styled.specs.SvgReading.{is_collapsible};
ghost use Rattle.codespan_styled.specs.SvgReading.{is_in_text_element, piece_characters};
ghost use Rattle.codespan_styled.specs.SvgReading.{pieces_from, shown_bytes};

/// States that the `text` elements of a document have each character but white space once,
/// in the order of the runs, in its ink, and, counted from where the element begins, in the cell
/// that it has among all characters.
pub fn characters_are_in_their_cells()
    ensures { (styles : Styles) (runs : List RunView) →
        flat_map piece_characters (pieces_from first_pen (glyphs_of styles runs))
        ≡ characters_from start (glyphs_of styles runs) }
{}

/// States that what is shown for a character is in the column that the character has among all
/// characters of the runs, counted as rows count cells, with tab stops at each eighth column. So a
/// caret is under its character.
///
/// The `text` elements of a document have no other characters, and all of these but white space.
pub fn characters_are_in_their_columns()
    ensures { (styles : Styles) (runs : List RunView) →
        map in_column (flat_map piece_characters (pieces_from first_pen (glyphs_of styles runs)))
        ≡ filter is_in_text_element (shown_columns tab_width 0 (run_characters runs)) }
{}

/// States that a `text` element of a document that has a letter of a right-to-left script has no
/// other character that occupies a cell: such a letter is its first character, and marks on it
/// follow. So no renderer shows the characters of an element in another order.
///
/// No element has a directional control either: see
/// [`shown_characters_are_safe`](crate::terminal::laws::shown_characters_are_safe).
pub fn texts_keep_order()
    ensures { (styles : Styles) (runs : List RunView) →
        AllByRecursion KeepsOrder (pieces_from first_pen (glyphs_of styles runs)) }
{}

/// States that no `text` element of a document shows a space, a tab, a newline or a carriage
/// return.
///
/// So a renderer that collapses white space, or drops it at the ends of an element, leaves each
/// character in its cell: a space is a position, and not a character of an element.
pub fn texts_have_no_white_space()
    ensures { (styles : Styles) (runs : List RunView) →
        All (λ byte. is_collapsible byte ≡ false)
        (flat_map shown_bytes (pieces_from first_pen (glyphs_of styles runs))) }
{}
