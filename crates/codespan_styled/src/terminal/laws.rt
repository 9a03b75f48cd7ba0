//! Laws of text for a terminal, one to a function that does nothing: its contract is the law, over
//! the definitions alone.

ghost use Rattle.std.specs.Prelude.{◌≡◌, ℕ, All, List, true};
ghost use Rattle.codespan_base.specs.Streams.{Stream, spelled};
ghost use Rattle.codespan_base.specs.declared.term.config.styles.Styles.{Styles};
ghost use Rattle.codespan_styled.specs.Runs.{TextsAreUtf8, RunView, runs_of};
ghost use Rattle.codespan_base.specs.StyleSpellings.{ansi_spelling};
ghost use Rattle.codespan_styled.specs.SafeText.{columns, is_safe, safe_characters, shown_columns};
ghost use Rattle.codespan_styled.specs.Terminal.{AreSafe, ShowsSafe, terminal_text};

/// States that a text for a terminal, read as a terminal reads it, has no escape sequence but those
/// of styles, no other control character but tab and newline, and no directional control, and shows
/// what is shown for the characters of its runs, each in its column.
pub fn safe_text_is_shown()
    ensures { (styles : Styles) (runs : List RunView) → TextsAreUtf8 runs
        → ShowsSafe (terminal_text styles runs) runs }
{}

/// States that what is shown for a character has the column that the character has among all
/// characters: those left out take no cell, and those replaced as many as what is shown for them.
/// So a caret stays under its character.
pub fn columns_stay()
    ensures { (tab_width column : ℕ) (cs : List ℕ) →
        columns tab_width column (safe_characters cs) ≡ shown_columns tab_width column cs }
{}

/// States that each character that is shown is safe: no control character but tab and newline, no
/// directional control, no noncharacter, and none of the others that are left out or replaced.
pub fn shown_characters_are_safe()
    ensures { (cs : List ℕ) → All (λ c. is_safe c ≡ true) (safe_characters cs) }
{}

/// States that of an output whose characters are safe the text for a terminal is what
/// `emit_to_write_style` writes to a `StylesWriter` over `Ansi`, byte for byte.
pub fn safe_runs_are_as_written()
    ensures { (styles : Styles) (s : Stream) → AreSafe (runs_of s)
        → terminal_text styles (runs_of s) ≡ spelled (ansi_spelling styles) s }
{}
