//! Worked outputs of shown lines, several files, notes and scripts.

ghost use Rattle.std.specs.Prelude.{◌≡◌, ◌++◌, [], ◌∷◌, codes};
ghost use Rattle.codespan_base.specs.Defaults.{default_config};
ghost use Rattle.codespan_base.specs.Streams.{text_of};
ghost use Rattle.codespan_base.specs.declared.diagnostic.Severity.TheVariants.{Error};
ghost use Rattle.codespan_base.specs.declared.diagnostic.LabelStyle.TheVariants.{Primary};
ghost use Rattle.codespan_base.specs.declared.diagnostic.LabelStyle.TheVariants.{Secondary};
ghost use Rattle.codespan_base.specs.declared.term.config.Layout.TheVariants.{Unbroken};
ghost use Rattle.codespan_worked.specs.Worked.{text_file, label, message_only, with_code};
ghost use Rattle.codespan_worked.specs.Worked.{with_note, rich, rows, nat_files, nat_error};

/// Computes the output of a label with two lines of context before it.
fn surrounding_lines()
    ensures { text_of
        (rich (record default_config { before_label_lines = 2; after_label_lines = 1 })
        (message_only Error (codes "Syntax error"))
        (text_file (codes "surroundingLines.fun")
        (codes "#[foo]\nfn main() {\n    println!(\n        \"{}\",\n"
        ++ codes "        Foo\n    );\n}\n\nstruct Foo") ∷ [])
        (label Primary 0 79 79 (codes "Missing a semicolon") ∷ []))
        ≡ rows (codes "error: Syntax error"
        ∷ codes "  ┌─ surroundingLines.fun:9:11"
        ∷ codes "  │"
        ∷ codes "7 │ }"
        ∷ codes "8 │ "
        ∷ codes "9 │ struct Foo"
        ∷ codes "  │           ^ Missing a semicolon"
        ∷ [] ∷ []) }
{}

/// Shows that files are in the order of their first labels.
fn two_files()
    ensures { text_of (rich default_config nat_error
        nat_files
        (label Primary 1 37 44 (codes "expected `Nat`, found `String`")
        ∷ label Secondary 0 130 155 (codes "based on the definition of `_+_`") ∷ []))
        ≡ rows (codes "error[E0001]: unexpected type in application of `_+_`"
        ∷ codes "   ┌─ Test.fun:4:11"
        ∷ codes "   │"
        ∷ codes " 4 │ _ = 123 + \"hello\""
        ∷ codes "   │           ^^^^^^^ expected `Nat`, found `String`"
        ∷ codes "   │"
        ∷ codes "   ┌─ Data/Nat.fun:11:1"
        ∷ codes "   │"
        ∷ codes "11 │ _+_ : Nat → Nat → Nat"
        ∷ codes "   │ --------------------- based on the definition of `_+_`"
        ∷ codes "   │"
        ∷ codes "   = expected type `Nat`"
        ∷ codes "        found type `String`"
        ∷ [] ∷ []) }
{}

/// Computes the output of a note without labels.
fn note_alone()
    ensures { text_of (rich default_config
        (with_note (codes "a note") (message_only Error (codes "a message"))) [] [])
        ≡ rows (codes "error: a message"
        ∷ codes " = a note"
        ∷ [] ∷ []) }
{}

/// Shows that an empty note has no row.
fn empty_note()
    ensures { text_of (rich default_config (with_note (codes "") (message_only Error (codes "m")))
        [] [])
        ≡ rows (codes "error: m"
        ∷ [] ∷ []) }
{}

/// Shows that in the classic layout a line number longer than the padding shifts its row.
fn long_number_pushes_row()
    ensures { text_of (rich (record default_config { after_label_lines = 1 })
        (message_only Error [])
        (text_file (codes "f") (codes "x\nx\nx\nx\nx\nx\nx\nx\nx\ny") ∷ [])
        (label Primary 0 16 17 [] ∷ []))
        ≡ rows (codes "error: "
        ∷ codes "  ┌─ f:9:1"
        ∷ codes "  │"
        ∷ codes "9 │ x"
        ∷ codes "  │ ^"
        ∷ codes "10 │ y"
        ∷ [] ∷ []) }
{}

/// Shows that in the unbroken layout the padding fits the number of each drawn line.
fn unbroken_padding()
    ensures { text_of (rich (record default_config { after_label_lines = 1; layout = Unbroken })
        (message_only Error [])
        (text_file (codes "f") (codes "x\nx\nx\nx\nx\nx\nx\nx\nx\ny") ∷ [])
        (label Primary 0 16 17 [] ∷ []))
        ≡ rows (codes "error: "
        ∷ codes "   ┌─ f:9:1"
        ∷ codes "   │"
        ∷ codes " 9 │ x"
        ∷ codes "   │ ^"
        ∷ codes "10 │ y"
        ∷ [] ∷ []) }
{}

/// Shows that one line between shown lines is filled in, and that two or more are left out at a
/// break.
fn fills_and_breaks()
    ensures { text_of (rich default_config (message_only Error [])
        (text_file (codes "f") (codes "a\nb\nc\nd\ne\nf\ng") ∷ [])
        (label Primary 0 0 1 (codes "p")
        ∷ label Secondary 0 4 5 (codes "q")
        ∷ label Secondary 0 12 13 (codes "r") ∷ []))
        ≡ rows (codes "error: "
        ∷ codes "  ┌─ f:1:1"
        ∷ codes "  │"
        ∷ codes "1 │ a"
        ∷ codes "  │ ^ p"
        ∷ codes "2 │ b"
        ∷ codes "3 │ c"
        ∷ codes "  │ - q"
        ∷ codes "  ·"
        ∷ codes "7 │ g"
        ∷ codes "  │ - r"
        ∷ [] ∷ []) }
{}

/// Shows that a note is split at its newlines, without the carriage return before one.
fn note_pieces()
    ensures { text_of (rich default_config
        (with_note (codes "a\r\n\nb\n") (message_only Error (codes "m"))) [] [])
        ≡ rows (codes "error: m"
        ∷ codes " = a"
        ∷ codes "   "
        ∷ codes "   b"
        ∷ [] ∷ []) }
{}

/// Computes the output of one label and a note.
fn script_run()
    ensures { text_of (rich default_config
        (with_note (codes "why") (message_only Error (codes "bad")))
        (text_file (codes "f.txt") (codes "abc\n") ∷ [])
        (label Primary 0 0 3 (codes "here") ∷ []))
        ≡ rows (codes "error: bad"
        ∷ codes "  ┌─ f.txt:1:1"
        ∷ codes "  │"
        ∷ codes "1 │ abc"
        ∷ codes "  │ ^^^ here"
        ∷ codes "  │"
        ∷ codes "  = why"
        ∷ [] ∷ []) }
{}

/// Computes the output of an error of a script: an unknown word.
fn script_unknown_word()
    ensures { text_of (rich default_config
        (with_code (codes "S1") (message_only Error (codes "unknown word")))
        (text_file (codes "script") (codes "message a\ncolour red\n---\n") ∷ [])
        (label Primary 0 10 16
        (codes "expected severity, code, message, primary, secondary or note") ∷ []))
        ≡ rows (codes "error[S1]: unknown word"
        ∷ codes "  ┌─ script:2:1"
        ∷ codes "  │"
        ∷ codes "2 │ colour red"
        ∷ codes "  │ ^^^^^^ expected severity, code, message, primary, secondary or note"
        ∷ [] ∷ []) }
{}

/// Computes the output of an error of a script: a repeated word.
fn script_repeated_word()
    ensures { text_of (rich default_config
        (with_code (codes "S4") (message_only Error (codes "repeated word")))
        (text_file (codes "script") (codes "code A\ncode B\n---\n") ∷ [])
        (label Primary 0 7 11 (codes "given again")
        ∷ label Secondary 0 0 4 (codes "first given here") ∷ []))
        ≡ rows (codes "error[S4]: repeated word"
        ∷ codes "  ┌─ script:2:1"
        ∷ codes "  │"
        ∷ codes "1 │ code A"
        ∷ codes "  │ ---- first given here"
        ∷ codes "2 │ code B"
        ∷ codes "  │ ^^^^ given again"
        ∷ [] ∷ []) }
{}

/// Computes the output of an error of a script: no number.
fn script_bad_number()
    ensures { text_of (rich default_config
        (with_code (codes "S3") (message_only Error (codes "bad number")))
        (text_file (codes "script") (codes "primary 0 x\n---\n") ∷ [])
        (label Primary 0 10 11 (codes "expected a decimal number") ∷ []))
        ≡ rows (codes "error[S3]: bad number"
        ∷ codes "  ┌─ script:1:11"
        ∷ codes "  │"
        ∷ codes "1 │ primary 0 x"
        ∷ codes "  │           ^ expected a decimal number"
        ∷ [] ∷ []) }
{}

/// Computes the output of an error of a script: no end.
fn script_bad_end()
    ensures { text_of (rich default_config
        (with_code (codes "S5") (message_only Error (codes "missing end of script")))
        (text_file (codes "script") [] ∷ [])
        (label Primary 0 0 0 (codes "expected ---") ∷ []))
        ≡ rows (codes "error[S5]: missing end of script"
        ∷ codes "  ┌─ script:1:1"
        ∷ codes "  │"
        ∷ codes "1 │ "
        ∷ codes "  │ ^ expected ---"
        ∷ [] ∷ []) }
{}
