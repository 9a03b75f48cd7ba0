//! Worked outputs of single-line labels.

ghost use Rattle.std.specs.Prelude.{◌≡◌, ◌++◌, [], ◌∷◌, codes};
ghost use Rattle.codespan_base.specs.Defaults.{default_config};
ghost use Rattle.codespan_base.specs.Characters.{ascii};
ghost use Rattle.codespan_base.specs.Streams.{text_of};
ghost use Rattle.codespan_base.specs.declared.diagnostic.Severity.TheVariants.{Bug, Error, Note};
ghost use Rattle.codespan_base.specs.declared.diagnostic.LabelStyle.TheVariants.{Primary};
ghost use Rattle.codespan_base.specs.declared.diagnostic.LabelStyle.TheVariants.{Secondary};
ghost use Rattle.codespan_worked.specs.Worked.{text_file, label, message_only, with_code, rich};
ghost use Rattle.codespan_worked.specs.Worked.{rows, tabbed_file};

/// Computes the output of a diagnostic without labels: the header and the final row.
fn bare_bug()
    ensures { text_of (rich default_config (message_only Bug []) [] [])
        ≡ rows (codes "bug: "
        ∷ [] ∷ []) }
{}

/// Computes the output of an empty range in the middle of a line.
fn hello_notes_middle()
    ensures { text_of (rich default_config (message_only Note (codes "middle"))
        (text_file (codes "hello") (codes "Hello world!\nBye world!\n   ") ∷ [])
        (label Primary 0 6 6 (codes "middle") ∷ []))
        ≡ rows (codes "note: middle"
        ∷ codes "  ┌─ hello:1:7"
        ∷ codes "  │"
        ∷ codes "1 │ Hello world!"
        ∷ codes "  │       ^ middle"
        ∷ [] ∷ []) }
{}

/// Computes the output of an empty range at the end of the file.
fn hello_notes_end()
    ensures { text_of (rich default_config (message_only Note (codes "end of file"))
        (text_file (codes "hello") (codes "Hello world!\nBye world!\n   ") ∷ [])
        (label Primary 0 27 27 (codes "end of file") ∷ []))
        ≡ rows (codes "note: end of file"
        ∷ codes "  ┌─ hello:3:4"
        ∷ codes "  │"
        ∷ codes "3 │    "
        ∷ codes "  │    ^ end of file"
        ∷ [] ∷ []) }
{}

/// Computes the output of two labels of one range: both hang, and the primary caret wins.
fn same_range()
    ensures { text_of (rich default_config (message_only Error (codes "Unexpected token"))
        (text_file (codes "same_range") (codes "::S { }") ∷ [])
        (label Primary 0 4 4 (codes "Unexpected '{'")
        ∷ label Secondary 0 4 4 (codes "Expected '('") ∷ []))
        ≡ rows (codes "error: Unexpected token"
        ∷ codes "  ┌─ same_range:1:5"
        ∷ codes "  │"
        ∷ codes "1 │ ::S { }"
        ∷ codes "  │     ^"
        ∷ codes "  │     │"
        ∷ codes "  │     Unexpected '{'"
        ∷ codes "  │     Expected '('"
        ∷ [] ∷ []) }
{}

/// Computes the output of three labels of one line: one trails, two hang.
fn mutable_borrows()
    ensures { text_of (rich default_config
        (with_code (codes "E0499")
        (message_only Error (codes "cannot borrow `v` as mutable more than once at a time")))
        (text_file (codes "one_line.rs")
        (codes "fn main() {\n    let mut v = vec![Some(\"foo\"), Some(\"bar\")];\n"
        ++ codes "    v.push(v.pop().unwrap());\n}\n") ∷ [])
        (label Primary 0 71 72 (codes "second mutable borrow occurs here")
        ∷ label Secondary 0 64 65 (codes "first borrow later used by call")
        ∷ label Secondary 0 66 70 (codes "first mutable borrow occurs here") ∷ []))
        ≡ rows (codes "error[E0499]: cannot borrow `v` as mutable more than once at a time"
        ∷ codes "  ┌─ one_line.rs:3:12"
        ∷ codes "  │"
        ∷ codes "3 │     v.push(v.pop().unwrap());"
        ∷ codes "  │     - ---- ^ second mutable borrow occurs here"
        ∷ codes "  │     │ │     "
        ∷ codes "  │     │ first mutable borrow occurs here"
        ∷ codes "  │     first borrow later used by call"
        ∷ [] ∷ []) }
{}

/// Shows that a wide character has two cells, a combining one has none.
fn wide_and_combining()
    ensures { text_of (rich default_config (message_only Note [])
        (text_file (codes "f") (codes "a路b́c") ∷ [])
        (label Primary 0 1 4 (codes "w")
        ∷ label Secondary 0 5 7 (codes "m") ∷ []))
        ≡ rows (codes "note: "
        ∷ codes "  ┌─ f:1:2"
        ∷ codes "  │"
        ∷ codes "1 │ a路b́c"
        ∷ codes "  │  ^^  m"
        ∷ codes "  │  │  "
        ∷ codes "  │  w"
        ∷ [] ∷ []) }
{}

/// Shows that the primary caret wins, and an overlap forbids a trailing message.
fn overlapping_labels()
    ensures { text_of (rich default_config (message_only Error [])
        (text_file (codes "f") (codes "abcdef") ∷ [])
        (label Secondary 0 0 6 (codes "s")
        ∷ label Primary 0 2 4 (codes "p") ∷ []))
        ≡ rows (codes "error: "
        ∷ codes "  ┌─ f:1:3"
        ∷ codes "  │"
        ∷ codes "1 │ abcdef"
        ∷ codes "  │ --^^--"
        ∷ codes "  │ │ │"
        ∷ codes "  │ │ p"
        ∷ codes "  │ s"
        ∷ [] ∷ []) }
{}

/// Computes the output of a label whose start is after its end, in one line.
fn reversed_in_line()
    ensures { text_of (rich default_config (message_only Error [])
        (text_file (codes "f") (codes "abc") ∷ [])
        (label Primary 0 2 1 (codes "r") ∷ []))
        ≡ rows (codes "error: "
        ∷ codes "  ┌─ f:1:3"
        ∷ codes "  │"
        ∷ codes "1 │ abc"
        ∷ codes "  │   ^ r"
        ∷ [] ∷ []) }
{}

/// Computes the same in ASCII.
fn reversed_in_line_ascii()
    ensures { text_of (rich (record default_config { chars = ascii }) (message_only Error [])
        (text_file (codes "f") (codes "abc") ∷ [])
        (label Primary 0 2 1 (codes "r") ∷ []))
        ≡ rows (codes "error: "
        ∷ codes "  --> f:1:3"
        ∷ codes "  |"
        ∷ codes "1 | abc"
        ∷ codes "  |   ^ r"
        ∷ [] ∷ []) }
{}

/// Shows that a range past the end has no caret.
fn past_the_end()
    ensures { text_of (rich default_config (message_only Error [])
        (text_file (codes "f") (codes "ab") ∷ [])
        (label Primary 0 9 12 (codes "x") ∷ []))
        ≡ rows (codes "error: "
        ∷ codes "  ┌─ f:1:3"
        ∷ codes "  │"
        ∷ codes "1 │ ab"
        ∷ codes "  │     x"
        ∷ [] ∷ []) }
{}

/// Computes the output of tabs where there is a stop every four cells.
fn tab_stops_4()
    ensures { text_of (rich default_config (message_only Error [])
        (tabbed_file ∷ [])
        (label Primary 0 58 73 (codes "the condition") ∷ []))
        ≡ rows (codes "error: "
        ∷ codes "  ┌─ tabbed:4:23"
        ∷ codes "  │"
        ∷ codes "4 │         ReloadingCondition: attack-cooldown"
        ∷ codes "  │                             ^^^^^^^^^^^^^^^ the condition"
        ∷ [] ∷ []) }
{}

/// Computes the same with a stop every three cells.
fn tab_stops_3()
    ensures { text_of (rich (record default_config { tab_width = 3 }) (message_only Error [])
        (tabbed_file ∷ [])
        (label Primary 0 58 73 (codes "the condition") ∷ []))
        ≡ rows (codes "error: "
        ∷ codes "  ┌─ tabbed:4:23"
        ∷ codes "  │"
        ∷ codes "4 │       ReloadingCondition:  attack-cooldown"
        ∷ codes "  │                            ^^^^^^^^^^^^^^^ the condition"
        ∷ [] ∷ []) }
{}

/// Computes the same at width 0: a tab has no cell.
fn tab_stops_0()
    ensures { text_of (rich (record default_config { tab_width = 0 }) (message_only Error [])
        (tabbed_file ∷ [])
        (label Primary 0 58 73 (codes "the condition") ∷ []))
        ≡ rows (codes "error: "
        ∷ codes "  ┌─ tabbed:4:23"
        ∷ codes "  │"
        ∷ codes "4 │ ReloadingCondition:attack-cooldown"
        ∷ codes "  │                    ^^^^^^^^^^^^^^^ the condition"
        ∷ [] ∷ []) }
{}

/// Shows that a character inside which a range starts or ends has a caret in each of its cells.
fn moon_jump()
    ensures { text_of (rich default_config (message_only Note (codes "invalid unicode range"))
        (text_file (codes "moon_jump.rs") (codes "🐄🌑🐄🌒🐄🌓🐄🌔🐄🌕🐄🌖🐄🌗🐄🌘🐄") ∷ [])
        (label Secondary 0 1 11 (codes "Cow does not start or end at boundary.") ∷ []))
        ≡ rows (codes "note: invalid unicode range"
        ∷ codes "  ┌─ moon_jump.rs:1:1"
        ∷ codes "  │"
        ∷ codes "1 │ 🐄🌑🐄🌒🐄🌓🐄🌔🐄🌕🐄🌖🐄🌗🐄🌘🐄"
        ∷ codes "  │ ------ Cow does not start or end at boundary."
        ∷ [] ∷ []) }
{}

/// Shows that of three equal ranges the last label hangs last.
fn three_equal_ranges()
    ensures { text_of (rich default_config (message_only Error [])
        (text_file (codes "f") (codes "abc") ∷ [])
        (label Primary 0 1 2 (codes "x")
        ∷ label Secondary 0 1 2 (codes "y")
        ∷ label Secondary 0 1 2 (codes "z") ∷ []))
        ≡ rows (codes "error: "
        ∷ codes "  ┌─ f:1:2"
        ∷ codes "  │"
        ∷ codes "1 │ abc"
        ∷ codes "  │  ^"
        ∷ codes "  │  │"
        ∷ codes "  │  x"
        ∷ codes "  │  y"
        ∷ codes "  │  z"
        ∷ [] ∷ []) }
{}

/// Shows that pointers count cells, not characters.
fn wide_pointers()
    ensures { text_of (rich default_config (message_only Error [])
        (text_file (codes "f") (codes "路ab") ∷ [])
        (label Primary 0 0 3 (codes "w")
        ∷ label Secondary 0 3 4 (codes "s")
        ∷ label Secondary 0 4 5 (codes "t") ∷ []))
        ≡ rows (codes "error: "
        ∷ codes "  ┌─ f:1:1"
        ∷ codes "  │"
        ∷ codes "1 │ 路ab"
        ∷ codes "  │ ^^-- t"
        ∷ codes "  │ │ │ "
        ∷ codes "  │ │ s"
        ∷ codes "  │ w"
        ∷ [] ∷ []) }
{}

/// Computes the output of an empty range at the greatest byte index.
fn greatest_positions()
    ensures { text_of (rich default_config (message_only Error [])
        (text_file (codes "f") (codes "ab") ∷ [])
        (label Primary 0 18446744073709551615 18446744073709551615 (codes "x") ∷ []))
        ≡ rows (codes "error: "
        ∷ codes "  ┌─ f:1:3"
        ∷ codes "  │"
        ∷ codes "1 │ ab"
        ∷ codes "  │     x"
        ∷ [] ∷ []) }
{}

/// Computes the output of a range from the greatest byte index to 0.
fn greatest_positions_reversed()
    ensures { text_of (rich default_config (message_only Error [])
        (text_file (codes "f") (codes "ab") ∷ [])
        (label Primary 0 18446744073709551615 0 (codes "x") ∷ []))
        ≡ rows (codes "error: "
        ∷ codes "  ┌─ f:1:3"
        ∷ codes "  │"
        ∷ codes "1 │ ab"
        ∷ codes "  │     x"
        ∷ [] ∷ []) }
{}

/// Computes the output of one label that covers a line.
fn report_run()
    ensures { text_of (rich default_config (message_only Error (codes "bad"))
        (text_file (codes "f.txt") (codes "abc\n") ∷ [])
        (label Primary 0 0 3 (codes "bad") ∷ []))
        ≡ rows (codes "error: bad"
        ∷ codes "  ┌─ f.txt:1:1"
        ∷ codes "  │"
        ∷ codes "1 │ abc"
        ∷ codes "  │ ^^^ bad"
        ∷ [] ∷ []) }
{}
