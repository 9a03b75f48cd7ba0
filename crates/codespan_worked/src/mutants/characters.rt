//! Rules of the characters of a line: their colors, their cells, and the end of the line.

ghost use Rattle.std.specs.Prelude.{◌≡◌, ◌++◌, [], ◌∷◌, codes};
ghost use Rattle.codespan_base.specs.Defaults.{default_config};
ghost use Rattle.codespan_base.specs.Streams.{text_of, spelled};
ghost use Rattle.codespan_base.specs.declared.diagnostic.Severity.TheVariants.{Error};
ghost use Rattle.codespan_base.specs.declared.diagnostic.LabelStyle.TheVariants.{Primary};
ghost use Rattle.codespan_base.specs.declared.diagnostic.LabelStyle.TheVariants.{Secondary};
ghost use Rattle.codespan_worked.specs.Worked.{text_file, label, message_only, rich, rows, ansi};

/// Shows that a primary multi-line label colors its last line up to its end, and no character that
/// reaches past it.
fn bottom_colors_to_its_end()
    ensures { spelled ansi (rich default_config (message_only Error [])
        (text_file (codes "f") (codes "\nb𝔸") ∷ [])
        (label Primary 0 0 3 [] ∷ []))
        ≡ rows (codes "\u{1b}[0m\u{1b}[1m\u{1b}[38;5;9merror\u{1b}[0m\u{1b}[1m: \u{1b}[0m"
        ∷ codes "  \u{1b}[0m\u{1b}[36m┌─\u{1b}[0m f:1:1"
        ∷ codes "  \u{1b}[0m\u{1b}[36m│\u{1b}[0m  "
        ∷ (codes "\u{1b}[0m\u{1b}[36m1\u{1b}[0m \u{1b}[0m\u{1b}[36m│\u{1b}[0m "
        ++ codes "\u{1b}[0m\u{1b}[31m╭\u{1b}[0m ")
        ∷ (codes "\u{1b}[0m\u{1b}[36m2\u{1b}[0m \u{1b}[0m\u{1b}[36m│\u{1b}[0m "
        ++ codes "\u{1b}[0m\u{1b}[31m│\u{1b}[0m \u{1b}[0m\u{1b}[31mb\u{1b}[0m𝔸")
        ∷ (codes "  \u{1b}[0m\u{1b}[36m│\u{1b}[0m \u{1b}[0m\u{1b}[31m╰"
        ++ codes "\u{1b}[0m\u{1b}[0m\u{1b}[31m──^\u{1b}[0m")
        ∷ [] ∷ []) }
{}

/// Shows that a primary multi-line label colors its first line from its start.
fn top_colors_from_its_start()
    ensures { spelled ansi (rich (record default_config { end_context_lines = 0 })
        (message_only Error [])
        (text_file (codes "f") (codes "ab\n") ∷ [])
        (label Primary 0 1 3 [] ∷ []))
        ≡ rows (codes "\u{1b}[0m\u{1b}[1m\u{1b}[38;5;9merror\u{1b}[0m\u{1b}[1m: \u{1b}[0m"
        ∷ codes "  \u{1b}[0m\u{1b}[36m┌─\u{1b}[0m f:1:2"
        ∷ codes "  \u{1b}[0m\u{1b}[36m│\u{1b}[0m  "
        ∷ (codes "\u{1b}[0m\u{1b}[36m1\u{1b}[0m \u{1b}[0m\u{1b}[36m│\u{1b}[0m "
        ++ codes "  a\u{1b}[0m\u{1b}[31mb\u{1b}[0m")
        ∷ (codes "  \u{1b}[0m\u{1b}[36m│\u{1b}[0m \u{1b}[0m\u{1b}[31m╭"
        ++ codes "\u{1b}[0m\u{1b}[0m\u{1b}[31m──^\u{1b}[0m")
        ∷ (codes "\u{1b}[0m\u{1b}[36m2\u{1b}[0m \u{1b}[0m\u{1b}[36m│\u{1b}[0m "
        ++ codes "\u{1b}[0m\u{1b}[31m│\u{1b}[0m ")
        ∷ (codes "  \u{1b}[0m\u{1b}[36m│\u{1b}[0m \u{1b}[0m\u{1b}[31m╰"
        ++ codes "\u{1b}[0m\u{1b}[0m\u{1b}[31m^\u{1b}[0m")
        ∷ [] ∷ []) }
{}

/// Shows that a secondary label colors no text.
fn secondary_colors_nothing()
    ensures { spelled ansi (rich default_config (message_only Error [])
        (text_file (codes "f") (codes "\na") ∷ [])
        (label Secondary 0 0 2 [] ∷ []))
        ≡ rows (codes "\u{1b}[0m\u{1b}[1m\u{1b}[38;5;9merror\u{1b}[0m\u{1b}[1m: \u{1b}[0m"
        ∷ codes "  \u{1b}[0m\u{1b}[36m┌─\u{1b}[0m f:1:1"
        ∷ codes "  \u{1b}[0m\u{1b}[36m│\u{1b}[0m  "
        ∷ (codes "\u{1b}[0m\u{1b}[36m1\u{1b}[0m \u{1b}[0m\u{1b}[36m│\u{1b}[0m "
        ++ codes "\u{1b}[0m\u{1b}[36m╭\u{1b}[0m ")
        ∷ (codes "\u{1b}[0m\u{1b}[36m2\u{1b}[0m \u{1b}[0m\u{1b}[36m│\u{1b}[0m "
        ++ codes "\u{1b}[0m\u{1b}[36m│\u{1b}[0m a")
        ∷ (codes "  \u{1b}[0m\u{1b}[36m│\u{1b}[0m \u{1b}[0m\u{1b}[36m╰"
        ++ codes "\u{1b}[0m\u{1b}[0m\u{1b}[36m─'\u{1b}[0m")
        ∷ [] ∷ []) }
{}

/// Shows that an underline that passes a bar keeps its color, and the bar its own.
fn underline_has_its_own_color()
    ensures { spelled ansi (rich default_config (message_only Error [])
        (text_file (codes "f") (codes "\n") ∷ [])
        (label Primary 0 0 1 []
        ∷ label Secondary 0 0 1 [] ∷ []))
        ≡ rows (codes "\u{1b}[0m\u{1b}[1m\u{1b}[38;5;9merror\u{1b}[0m\u{1b}[1m: \u{1b}[0m"
        ∷ codes "  \u{1b}[0m\u{1b}[36m┌─\u{1b}[0m f:1:1"
        ∷ codes "  \u{1b}[0m\u{1b}[36m│\u{1b}[0m    "
        ∷ (codes "\u{1b}[0m\u{1b}[36m1\u{1b}[0m \u{1b}[0m\u{1b}[36m│\u{1b}[0m "
        ++ codes "\u{1b}[0m\u{1b}[31m╭\u{1b}[0m \u{1b}[0m\u{1b}[36m╭\u{1b}[0m ")
        ∷ (codes "\u{1b}[0m\u{1b}[36m2\u{1b}[0m \u{1b}[0m\u{1b}[36m│\u{1b}[0m "
        ++ codes "\u{1b}[0m\u{1b}[31m│\u{1b}[0m \u{1b}[0m\u{1b}[36m│\u{1b}[0m ")
        ∷ (codes "  \u{1b}[0m\u{1b}[36m│\u{1b}[0m \u{1b}[0m\u{1b}[31m╰"
        ++ codes "\u{1b}[0m\u{1b}[0m\u{1b}[31m─\u{1b}[0m\u{1b}[0m\u{1b}[36m│"
        ++ codes "\u{1b}[0m\u{1b}[0m\u{1b}[31m^\u{1b}[0m")
        ∷ (codes "  \u{1b}[0m\u{1b}[36m│\u{1b}[0m   \u{1b}[0m\u{1b}[36m╰"
        ++ codes "\u{1b}[0m\u{1b}[0m\u{1b}[36m'\u{1b}[0m")
        ∷ [] ∷ []) }
{}

/// Shows that where a primary label hangs from a character, the pointer has its color.
fn primary_pointer_first()
    ensures { spelled ansi (rich default_config (message_only Error [])
        (text_file (codes "f") (codes "a") ∷ [])
        (label Secondary 0 0 0 (codes "m")
        ∷ label Primary 0 0 0 (codes "m") ∷ []))
        ≡ rows (codes "\u{1b}[0m\u{1b}[1m\u{1b}[38;5;9merror\u{1b}[0m\u{1b}[1m: \u{1b}[0m"
        ∷ codes "  \u{1b}[0m\u{1b}[36m┌─\u{1b}[0m f:1:1"
        ∷ codes "  \u{1b}[0m\u{1b}[36m│\u{1b}[0m"
        ∷ (codes "\u{1b}[0m\u{1b}[36m1\u{1b}[0m \u{1b}[0m\u{1b}[36m│\u{1b}[0m "
        ++ codes "\u{1b}[0m\u{1b}[31ma\u{1b}[0m")
        ∷ codes "  \u{1b}[0m\u{1b}[36m│\u{1b}[0m \u{1b}[0m\u{1b}[31m^\u{1b}[0m"
        ∷ codes "  \u{1b}[0m\u{1b}[36m│\u{1b}[0m \u{1b}[0m\u{1b}[31m│\u{1b}[0m"
        ∷ codes "  \u{1b}[0m\u{1b}[36m│\u{1b}[0m \u{1b}[0m\u{1b}[36mm\u{1b}[0m"
        ∷ codes "  \u{1b}[0m\u{1b}[36m│\u{1b}[0m \u{1b}[0m\u{1b}[31mm\u{1b}[0m"
        ∷ [] ∷ []) }
{}

/// Shows that a NUL at the end of a line is not rendered.
fn nul_is_trimmed()
    ensures { text_of (rich default_config (message_only Error [])
        (text_file (codes "f") (codes "\0") ∷ [])
        (label Primary 0 0 0 [] ∷ []))
        ≡ rows (codes "error: "
        ∷ codes "  ┌─ f:1:1"
        ∷ codes "  │"
        ∷ codes "1 │ "
        ∷ codes "  │ ^"
        ∷ [] ∷ []) }
{}

/// Shows that leading white space need not be ASCII.
fn leading_whitespace_of_any_kind()
    ensures { text_of (rich default_config (message_only Error [])
        (text_file (codes "f") (codes "\u{2003}\n") ∷ [])
        (label Secondary 0 1 4 [] ∷ []))
        ≡ rows (codes "error: "
        ∷ codes "  ┌─ f:1:1"
        ∷ codes "  │  "
        ∷ codes "1 │ ╭ \u{2003}"
        ∷ codes "2 │ │ "
        ∷ codes "  │ ╰'"
        ∷ [] ∷ []) }
{}

/// Shows that a pointer under a character of no width is rendered.
fn pointer_on_no_cell()
    ensures { text_of (rich (record default_config { end_context_lines = 0 })
        (message_only Error [])
        (text_file (codes "f") (codes "\0a") ∷ [])
        (label Secondary 0 0 0 (codes "m")
        ∷ label Primary 0 0 0 [] ∷ []))
        ≡ rows (codes "error: "
        ∷ codes "  ┌─ f:1:1"
        ∷ codes "  │"
        ∷ codes "1 │ \0a"
        ∷ codes "  │ "
        ∷ codes "  │ │"
        ∷ codes "  │ m"
        ∷ [] ∷ []) }
{}

/// Shows that a character of no width has no caret.
fn no_caret_on_no_cell()
    ensures { text_of (rich (record default_config { tab_width = 0; end_context_lines = 0 })
        (message_only Error [])
        (text_file (codes "f") (codes "\t") ∷ [])
        (label Primary 0 0 0 [] ∷ []))
        ≡ rows (codes "error: "
        ∷ codes "  ┌─ f:1:1"
        ∷ codes "  │"
        ∷ codes "1 │ "
        ∷ codes "  │ "
        ∷ [] ∷ []) }
{}

/// Shows that an underline from a top corner does not count the end of the line.
fn no_placeholder_in_top_underline()
    ensures { text_of (rich default_config (message_only Error [])
        (text_file (codes "f") (codes "a\n") ∷ [])
        (label Primary 0 1 2 [] ∷ []))
        ≡ rows (codes "error: "
        ∷ codes "  ┌─ f:1:2"
        ∷ codes "  │  "
        ∷ codes "1 │   a"
        ∷ codes "  │ ╭─^"
        ∷ codes "2 │ │ "
        ∷ codes "  │ ╰^"
        ∷ [] ∷ []) }
{}

/// Shows that an underline from a bottom corner does not count the end of the line.
fn no_placeholder_in_bottom_underline()
    ensures { text_of (rich (record default_config { end_context_lines = 0 })
        (message_only Error [])
        (text_file (codes "f") (codes "\n") ∷ [])
        (label Secondary 0 0 2 [] ∷ []))
        ≡ rows (codes "error: "
        ∷ codes "  ┌─ f:1:1"
        ∷ codes "  │  "
        ∷ codes "1 │ ╭ "
        ∷ codes "2 │ │ "
        ∷ codes "  │ ╰'"
        ∷ [] ∷ []) }
{}

/// Shows that a pointer row does not count the end of the line.
fn no_placeholder_in_pointers()
    ensures { text_of (rich (record default_config { end_context_lines = 0 })
        (message_only Error [])
        (text_file (codes "f") [] ∷ [])
        (label Secondary 0 0 0 []
        ∷ label Secondary 0 0 0 (codes "m") ∷ []))
        ≡ rows (codes "error: "
        ∷ codes "  ┌─ f:1:1"
        ∷ codes "  │"
        ∷ codes "1 │ "
        ∷ codes "  │ -"
        ∷ codes "  │ "
        ∷ codes "  │ m"
        ∷ [] ∷ []) }
{}

/// Shows that a caret may be at the end of the line.
fn placeholder_in_carets()
    ensures { text_of (rich default_config (message_only Error [])
        (text_file (codes "f") [] ∷ [])
        (label Primary 0 0 0 [] ∷ []))
        ≡ rows (codes "error: "
        ∷ codes "  ┌─ f:1:1"
        ∷ codes "  │"
        ∷ codes "1 │ "
        ∷ codes "  │ ^"
        ∷ [] ∷ []) }
{}

/// Shows that a tab counts from the line's start, not from the label.
fn tabs_count_from_line_start()
    ensures { text_of (rich default_config (message_only Error [])
        (text_file (codes "f") (codes "a\t") ∷ [])
        (label Secondary 0 1 2 [] ∷ []))
        ≡ rows (codes "error: "
        ∷ codes "  ┌─ f:1:2"
        ∷ codes "  │"
        ∷ codes "1 │ a   "
        ∷ codes "  │  ---"
        ∷ [] ∷ []) }
{}
