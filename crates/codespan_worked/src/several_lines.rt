//! Worked outputs of multi-line labels.

ghost use Rattle.std.specs.Prelude.{◌≡◌, ◌++◌, [], ◌∷◌, codes};
ghost use Rattle.codespan_base.specs.Defaults.{default_config};
ghost use Rattle.codespan_base.specs.Characters.{box_drawing};
ghost use Rattle.codespan_base.specs.Streams.{text_of};
ghost use Rattle.codespan_base.specs.declared.diagnostic.Severity.TheVariants.{Error};
ghost use Rattle.codespan_base.specs.declared.diagnostic.LabelStyle.TheVariants.{Primary};
ghost use Rattle.codespan_base.specs.declared.diagnostic.LabelStyle.TheVariants.{Secondary};
ghost use Rattle.codespan_base.specs.declared.term.config.Layout.TheVariants.{Unbroken};
ghost use Rattle.codespan_worked.specs.Worked.{text_file, label, message_only, with_code};
ghost use Rattle.codespan_worked.specs.Worked.{with_note, rich, rows};

/// Shows that a label from a line's start has its corner in the source row.
fn from_line_start()
    ensures { text_of (rich default_config (message_only Error [])
        (text_file (codes "f") (codes "foo\nbar") ∷ [])
        (label Primary 0 0 4 (codes "m") ∷ []))
        ≡ rows (codes "error: "
        ∷ codes "  ┌─ f:1:1"
        ∷ codes "  │  "
        ∷ codes "1 │ ╭ foo"
        ∷ codes "2 │ │ bar"
        ∷ codes "  │ ╰^ m"
        ∷ [] ∷ []) }
{}

/// Computes the output of two lanes, with a break between shown lines.
fn empty_elseif()
    ensures { text_of (rich (record default_config { start_context_lines = 2 })
        (with_code (codes "empty_if") (message_only Error (codes "empty elseif block")))
        (text_file (codes "empty_if_comments.lua")
        (codes "elseif 3 then\n\n\n\n\n\n\n\n\nelse") ∷ [])
        (label Primary 0 0 23 []
        ∷ label Secondary 0 15 21 (codes "content should be in here") ∷ []))
        ≡ rows (codes "error[empty_if]: empty elseif block"
        ∷ codes "   ┌─ empty_if_comments.lua:1:1"
        ∷ codes "   │    "
        ∷ codes " 1 │ ╭   elseif 3 then"
        ∷ codes " 2 │ │   "
        ∷ codes " 3 │ │ ╭ "
        ∷ codes " 4 │ │ │ "
        ∷ codes " 5 │ │ │ "
        ∷ codes "   · │ │"
        ∷ codes " 8 │ │ │ "
        ∷ codes " 9 │ │ │ "
        ∷ codes "   │ │ ╰' content should be in here"
        ∷ codes "10 │ │   else"
        ∷ codes "   │ ╰───^"
        ∷ [] ∷ []) }
{}

/// Shows that a line is filled in between two shown ones.
fn mismatched_types()
    ensures { text_of (rich (record default_config { start_context_lines = 2 })
        (with_note (codes "note:\texpected type `()`\n\tfound type `{integer}`")
        (with_code (codes "E0308") (message_only Error (codes "mismatched types"))))
        (text_file (codes "src/lib.rs")
        (codes "fn main() {\n    1\n    + 1\n    + 1\n    + 1\n    + 1\n    +1\n"
        ++ codes "    + 1\n    + 1\n    + 1\n}") ∷ [])
        (label Primary 0 17 80 (codes "expected (), found integer")
        ∷ label Secondary 0 55 55 (codes "missing whitespace") ∷ []))
        ≡ rows (codes "error[E0308]: mismatched types"
        ∷ codes "   ┌─ src/lib.rs:2:6"
        ∷ codes "   │  "
        ∷ codes " 2 │       1"
        ∷ codes "   │ ╭─────^"
        ∷ codes " 3 │ │     + 1"
        ∷ codes " 4 │ │     + 1"
        ∷ codes "   · │"
        ∷ codes " 7 │ │     +1"
        ∷ codes "   │ │      - missing whitespace"
        ∷ codes " 8 │ │     + 1"
        ∷ codes " 9 │ │     + 1"
        ∷ codes "10 │ │     + 1"
        ∷ codes "   │ ╰───────^ expected (), found integer"
        ∷ codes "   │  "
        ∷ codes "   = note:\texpected type `()`"
        ∷ codes "     \tfound type `{integer}`"
        ∷ [] ∷ []) }
{}

/// Shows that an underline from a bottom corner passes a bar.
fn crossing_lanes()
    ensures { text_of (rich default_config (message_only Error [])
        (text_file (codes "f") (codes "ab\ncd\nef") ∷ [])
        (label Secondary 0 1 4 (codes "q")
        ∷ label Primary 0 0 7 (codes "p") ∷ []))
        ≡ rows (codes "error: "
        ∷ codes "  ┌─ f:1:1"
        ∷ codes "  │    "
        ∷ codes "1 │   ╭ ab"
        ∷ codes "  │ ╭────'"
        ∷ codes "2 │ │ │ cd"
        ∷ codes "  │ ╰─│─' q"
        ∷ codes "3 │   │ ef"
        ∷ codes "  │   ╰─^ p"
        ∷ [] ∷ []) }
{}

/// Computes the output of one label that ends on the line after the one where it starts.
fn report_two_lines()
    ensures { text_of (rich default_config (message_only Error (codes "bad"))
        (text_file (codes "f.txt") (codes "abc\nd") ∷ [])
        (label Primary 0 0 4 (codes "bad") ∷ []))
        ≡ rows (codes "error: bad"
        ∷ codes "  ┌─ f.txt:1:1"
        ∷ codes "  │  "
        ∷ codes "1 │ ╭ abc"
        ∷ codes "2 │ │ d"
        ∷ codes "  │ ╰^ bad"
        ∷ [] ∷ []) }
{}

/// Shows that the underline from a bottom corner, and the caret at its end, have characters of
/// their own.
fn other_bottom_characters()
    ensures { text_of (rich (record default_config {
      chars = record box_drawing {
        multi_bottom = 0x3d;
        multi_primary_caret_end = 0x2a;
        multi_secondary_caret_end = 0x22;
      };
    })
        (message_only Error [])
        (text_file (codes "f") (codes "ab\ncd\nef") ∷ [])
        (label Secondary 0 1 4 (codes "q")
        ∷ label Primary 0 0 7 (codes "p") ∷ []))
        ≡ rows (codes "error: "
        ∷ codes "  ┌─ f:1:1"
        ∷ codes "  │    "
        ∷ codes "1 │   ╭ ab"
        ∷ codes "  │ ╭────'"
        ∷ codes "2 │ │ │ cd"
        ∷ codes "  │ ╰=│=\" q"
        ∷ codes "3 │   │ ef"
        ∷ codes "  │   ╰=* p"
        ∷ [] ∷ []) }
{}

/// Computes the output of a label that starts on a line after the one on which it ends: its bottom
/// corner is above its top corner.
fn reversed_over_lines()
    ensures { text_of (rich default_config (message_only Error [])
        (text_file (codes "f") (codes "ab\ncd") ∷ [])
        (label Primary 0 4 1 (codes "r") ∷ []))
        ≡ rows (codes "error: "
        ∷ codes "  ┌─ f:2:2"
        ∷ codes "  │  "
        ∷ codes "1 │ │ ab"
        ∷ codes "  │ ╰─^ r"
        ∷ codes "2 │   cd"
        ∷ codes "  │ ╭──^"
        ∷ [] ∷ []) }
{}

/// Shows that in the classic layout the lane is left out below a corner in a source row.
fn below_corner()
    ensures { text_of (rich default_config (message_only Error [])
        (text_file (codes "f") (codes "ab\ncd") ∷ [])
        (label Primary 0 0 5 (codes "p")
        ∷ label Secondary 0 1 2 (codes "q") ∷ []))
        ≡ rows (codes "error: "
        ∷ codes "  ┌─ f:1:1"
        ∷ codes "  │  "
        ∷ codes "1 │ ╭ ab"
        ∷ codes "  │    - q"
        ∷ codes "2 │ │ cd"
        ∷ codes "  │ ╰──^ p"
        ∷ [] ∷ []) }
{}

/// Shows that in the unbroken layout the lane goes on below a corner in a source row.
fn unbroken_below_corner()
    ensures { text_of (rich (record default_config { layout = Unbroken }) (message_only Error [])
        (text_file (codes "f") (codes "ab\ncd") ∷ [])
        (label Primary 0 0 5 (codes "p")
        ∷ label Secondary 0 1 2 (codes "q") ∷ []))
        ≡ rows (codes "error: "
        ∷ codes "  ┌─ f:1:1"
        ∷ codes "  │  "
        ∷ codes "1 │ ╭ ab"
        ∷ codes "  │ │  - q"
        ∷ codes "2 │ │ cd"
        ∷ codes "  │ ╰──^ p"
        ∷ [] ∷ []) }
{}

/// Shows that in the unbroken layout an underline passes the bar below a corner.
fn unbroken_underline()
    ensures { text_of (rich (record default_config { layout = Unbroken }) (message_only Error [])
        (text_file (codes "f") (codes "ab\ncd\nef") ∷ [])
        (label Secondary 0 1 4 (codes "q")
        ∷ label Primary 0 0 7 (codes "p") ∷ []))
        ≡ rows (codes "error: "
        ∷ codes "  ┌─ f:1:1"
        ∷ codes "  │    "
        ∷ codes "1 │   ╭ ab"
        ∷ codes "  │ ╭─│──'"
        ∷ codes "2 │ │ │ cd"
        ∷ codes "  │ ╰─│─' q"
        ∷ codes "3 │   │ ef"
        ∷ codes "  │   ╰─^ p"
        ∷ [] ∷ []) }
{}
