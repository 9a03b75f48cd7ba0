//! Rules of lines and lanes: which there are, in which order, and which labels trail.

ghost use Rattle.std.specs.Prelude.{◌≡◌, [], ◌∷◌, codes};
ghost use Rattle.codespan_base.specs.Defaults.{default_config};
ghost use Rattle.codespan_base.specs.Characters.{box_drawing};
ghost use Rattle.codespan_base.specs.Streams.{text_of};
ghost use Rattle.codespan_base.specs.declared.diagnostic.Severity.TheVariants.{Error};
ghost use Rattle.codespan_base.specs.declared.diagnostic.LabelStyle.TheVariants.{Primary};
ghost use Rattle.codespan_base.specs.declared.diagnostic.LabelStyle.TheVariants.{Secondary};
ghost use Rattle.codespan_base.specs.declared.term.config.Layout.TheVariants.{Unbroken};
ghost use Rattle.codespan_worked.specs.Worked.{text_file, label, message_only, with_note, rich};
ghost use Rattle.codespan_worked.specs.Worked.{rows};

/// Shows that lanes are counted in each file, not in the diagnostic.
fn lanes_count_per_file()
    ensures { text_of (rich default_config (message_only Error [])
        (text_file (codes "f") (codes "\n") ∷ text_file (codes "f") (codes "\n") ∷ [])
        (label Secondary 1 0 1 []
        ∷ label Secondary 0 0 1 [] ∷ []))
        ≡ rows (codes "error: "
        ∷ codes "  ┌─ f:1:1"
        ∷ codes "  │  "
        ∷ codes "1 │ ╭ "
        ∷ codes "2 │ │ "
        ∷ codes "  │ ╰'"
        ∷ codes "  │  "
        ∷ codes "  ┌─ f:1:1"
        ∷ codes "  │  "
        ∷ codes "1 │ ╭ "
        ∷ codes "2 │ │ "
        ∷ codes "  │ ╰'"
        ∷ [] ∷ []) }
{}

/// Shows that the padding fits the line numbers of all labels, not those of the first one alone.
fn padding_of_all_labels()
    ensures { text_of (rich default_config (message_only Error [])
        (text_file (codes "f") (codes "\n\n\n\n\n\n\n\n\n") ∷ [])
        (label Secondary 0 0 0 []
        ∷ label Secondary 0 0 9 [] ∷ []))
        ≡ rows (codes "error: "
        ∷ codes "   ┌─ f:1:1"
        ∷ codes "   │  "
        ∷ codes " 1 │ ╭ "
        ∷ codes "   │   -"
        ∷ codes " 2 │ │ "
        ∷ codes " 3 │ │ "
        ∷ codes " 4 │ │ "
        ∷ codes "   · │"
        ∷ codes " 9 │ │ "
        ∷ codes "10 │ │ "
        ∷ codes "   │ ╰'"
        ∷ [] ∷ []) }
{}

/// Shows that lanes are in the order of the labels.
fn lanes_in_given_order()
    ensures { text_of (rich default_config (message_only Error [])
        (text_file (codes "f") (codes "\n") ∷ [])
        (label Secondary 0 1 0 []
        ∷ label Primary 0 0 1 [] ∷ []))
        ≡ rows (codes "error: "
        ∷ codes "  ┌─ f:1:1"
        ∷ codes "  │    "
        ∷ codes "1 │ │ ╭ "
        ∷ codes "  │ ╰──'"
        ∷ codes "2 │ ╭ │ "
        ∷ codes "  │ │ ╰^"
        ∷ [] ∷ []) }
{}

/// Shows that the locus of a file is that of its primary label, though a secondary one starts
/// before it.
fn locus_of_primary_first()
    ensures { text_of (rich (record default_config { end_context_lines = 0 })
        (message_only Error [])
        (text_file (codes "f") (codes "\n") ∷ [])
        (label Primary 0 1 0 []
        ∷ label Secondary 0 0 0 [] ∷ []))
        ≡ rows (codes "error: "
        ∷ codes "  ┌─ f:2:1"
        ∷ codes "  │  "
        ∷ codes "1 │ │ "
        ∷ codes "  │ │ -"
        ∷ codes "  │ ╰^"
        ∷ codes "2 │ ╭ "
        ∷ [] ∷ []) }
{}

/// Shows that a label that starts right after the leading white space has its corner in the source
/// row.
fn corner_at_end_of_whitespace()
    ensures { text_of (rich default_config (message_only Error [])
        (text_file (codes "f") (codes "  a\nb") ∷ [])
        (label Primary 0 2 4 [] ∷ []))
        ≡ rows (codes "error: "
        ∷ codes "  ┌─ f:1:3"
        ∷ codes "  │  "
        ∷ codes "1 │ ╭   a"
        ∷ codes "2 │ │ b"
        ∷ codes "  │ ╰^"
        ∷ [] ∷ []) }
{}

/// Shows that below a bottom corner its lane is empty.
fn no_bar_below_bottom_corner()
    ensures { text_of (rich (record default_config { end_context_lines = 0 })
        (message_only Error [])
        (text_file (codes "f") (codes "\n") ∷ [])
        (label Secondary 0 0 1 []
        ∷ label Primary 0 0 1 [] ∷ []))
        ≡ rows (codes "error: "
        ∷ codes "  ┌─ f:1:1"
        ∷ codes "  │    "
        ∷ codes "1 │ ╭ ╭ "
        ∷ codes "2 │ │ │ "
        ∷ codes "  │ ╰─│'"
        ∷ codes "  │   ╰^"
        ∷ [] ∷ []) }
{}

/// Shows that in the unbroken layout no row leaves out the lane below a top corner.
fn bar_below_top_corner_unbroken()
    ensures { text_of (rich (record default_config { layout = Unbroken }) (message_only Error [])
        (text_file (codes "f") (codes "\n") ∷ [])
        (label Primary 0 0 0 []
        ∷ label Primary 0 0 1 [] ∷ []))
        ≡ rows (codes "error: "
        ∷ codes "  ┌─ f:1:1"
        ∷ codes "  │  "
        ∷ codes "1 │ ╭ "
        ∷ codes "  │ │ ^"
        ∷ codes "2 │ │ "
        ∷ codes "  │ ╰^"
        ∷ [] ∷ []) }
{}

/// Shows that a pointer row reaches to the greatest start of all labels.
fn pointer_row_to_greatest_start()
    ensures { text_of (rich default_config (message_only Error [])
        (text_file (codes "f") (codes "aa") ∷ [])
        (label Secondary 0 0 0 (codes "m")
        ∷ label Primary 0 1 0 [] ∷ []))
        ≡ rows (codes "error: "
        ∷ codes "  ┌─ f:1:2"
        ∷ codes "  │"
        ∷ codes "1 │ aa"
        ∷ codes "  │ -^"
        ∷ codes "  │ │ "
        ∷ codes "  │ m"
        ∷ [] ∷ []) }
{}

/// Shows that a label that overlaps another one does not trail.
fn overlap_forbids_trailing()
    ensures { text_of (rich (record default_config { end_context_lines = 0 })
        (message_only Error [])
        (text_file (codes "f") [] ∷ [])
        (label Primary 0 0 0 []
        ∷ label Primary 0 0 2 (codes "m") ∷ []))
        ≡ rows (codes "error: "
        ∷ codes "  ┌─ f:1:1"
        ∷ codes "  │"
        ∷ codes "1 │ "
        ∷ codes "  │ ^"
        ∷ codes "  │ "
        ∷ codes "  │ m"
        ∷ [] ∷ []) }
{}

/// Shows that an underline from a bottom corner passes a bar as `multi_bottom`, not as `multi_top`.
fn underline_characters_of_bottom()
    ensures { text_of
        (rich (record default_config { chars = record box_drawing { multi_top = 0x25 } })
        (message_only Error [])
        (text_file (codes "f") (codes "\n") ∷ [])
        (label Primary 0 0 1 []
        ∷ label Secondary 0 0 1 [] ∷ []))
        ≡ rows (codes "error: "
        ∷ codes "  ┌─ f:1:1"
        ∷ codes "  │    "
        ∷ codes "1 │ ╭ ╭ "
        ∷ codes "2 │ │ │ "
        ∷ codes "  │ ╰─│^"
        ∷ codes "  │   ╰'"
        ∷ [] ∷ []) }
{}

/// Shows that the context lines of a label's start are after its first line, those of its end
/// before its last.
fn context_of_start_and_end()
    ensures { text_of
        (rich (record default_config { start_context_lines = 1; end_context_lines = 2 })
        (message_only Error [])
        (text_file (codes "f") (codes "\n\n\n\n\n\n") ∷ [])
        (label Secondary 0 0 6 [] ∷ []))
        ≡ rows (codes "error: "
        ∷ codes "  ┌─ f:1:1"
        ∷ codes "  │  "
        ∷ codes "1 │ ╭ "
        ∷ codes "2 │ │ "
        ∷ codes "  · │"
        ∷ codes "5 │ │ "
        ∷ codes "6 │ │ "
        ∷ codes "7 │ │ "
        ∷ codes "  │ ╰'"
        ∷ [] ∷ []) }
{}

/// Shows that a break has the lanes of the line after it.
fn break_has_lanes_of_next_line()
    ensures { text_of
        (rich (record default_config { start_context_lines = 0; end_context_lines = 0 })
        (message_only Error [])
        (text_file (codes "f") (codes "\n\n\n") ∷ [])
        (label Secondary 0 0 3 [] ∷ []))
        ≡ rows (codes "error: "
        ∷ codes "  ┌─ f:1:1"
        ∷ codes "  │  "
        ∷ codes "1 │ ╭ "
        ∷ codes "  · │"
        ∷ codes "4 │ │ "
        ∷ codes "  │ ╰'"
        ∷ [] ∷ []) }
{}

/// Shows that a carriage return before the newline of a note is dropped.
fn carriage_return_of_note()
    ensures { text_of (rich default_config (with_note (codes "\r\n\nb c") (message_only Error []))
        (text_file (codes "f") [] ∷ [])
        [])
        ≡ rows (codes "error: "
        ∷ codes " = "
        ∷ codes "   "
        ∷ codes "   b c"
        ∷ [] ∷ []) }
{}

/// Shows that there is an empty row between two files.
fn empty_row_between_files()
    ensures { text_of (rich default_config (message_only Error [])
        (text_file (codes "f") [] ∷ text_file (codes "f") [] ∷ [])
        (label Primary 0 0 0 []
        ∷ label Primary 1 0 0 [] ∷ []))
        ≡ rows (codes "error: "
        ∷ codes "  ┌─ f:1:1"
        ∷ codes "  │"
        ∷ codes "1 │ "
        ∷ codes "  │ ^"
        ∷ codes "  │"
        ∷ codes "  ┌─ f:1:1"
        ∷ codes "  │"
        ∷ codes "1 │ "
        ∷ codes "  │ ^"
        ∷ [] ∷ []) }
{}
