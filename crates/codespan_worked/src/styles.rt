//! Worked outputs in short and medium style, and in colors.

ghost use Rattle.std.specs.Prelude.{◌≡◌, ◌++◌, [], ◌∷◌, codes};
ghost use Rattle.codespan_base.specs.Defaults.{default_config};
ghost use Rattle.codespan_base.specs.Streams.{text_of, spelled};
ghost use Rattle.codespan_base.specs.declared.diagnostic.Severity.TheVariants.{Bug, Error};
ghost use Rattle.codespan_base.specs.declared.diagnostic.LabelStyle.TheVariants.{Primary};
ghost use Rattle.codespan_base.specs.declared.diagnostic.LabelStyle.TheVariants.{Secondary};
ghost use Rattle.codespan_worked.specs.Worked.{text_file, label, message_only, with_code};
ghost use Rattle.codespan_worked.specs.Worked.{with_note, rich, medium, short, rows, ansi};
ghost use Rattle.codespan_worked.specs.Worked.{nat_files, nat_error};

/// Computes the output of a diagnostic without labels in short style: the header alone.
fn bare_bug_short()
    ensures { text_of (short default_config (message_only Bug []) [] [])
        ≡ rows (codes "bug: " ∷ []) }
{}

/// Computes an output in medium style: a header with its locus, and the notes.
fn medium()
    ensures { text_of (medium default_config nat_error
        nat_files
        (label Primary 1 37 44 (codes "expected `Nat`, found `String`")
        ∷ label Secondary 0 130 155 (codes "based on the definition of `_+_`") ∷ []))
        ≡ rows (codes "Test.fun:4:11: error[E0001]: unexpected type in application of `_+_`"
        ∷ codes " = expected type `Nat`"
        ∷ codes "      found type `String`" ∷ []) }
{}

/// Computes an output in short style: a header with its locus.
fn short()
    ensures { text_of (short default_config nat_error
        nat_files
        (label Primary 1 37 44 (codes "expected `Nat`, found `String`")
        ∷ label Secondary 0 130 155 (codes "based on the definition of `_+_`") ∷ []))
        ≡ rows (codes "Test.fun:4:11: error[E0001]: unexpected type in application of `_+_`" ∷ []) }
{}

/// Shows that an empty code is not written.
fn short_empty_code()
    ensures { text_of (short default_config
        (with_code (codes "") (message_only Error (codes "where did my errorcode go?"))) [] [])
        ≡ rows (codes "error: where did my errorcode go?" ∷ []) }
{}

/// Computes the output of one label of one file in short style.
fn report_short()
    ensures { text_of (short default_config (message_only Error (codes "bad"))
        (text_file (codes "f.txt") (codes "abc\n") ∷ [])
        (label Primary 0 0 3 (codes "bad") ∷ []))
        ≡ rows (codes "f.txt:1:1: error: bad" ∷ []) }
{}

/// Computes the output of one label of one file in medium style.
fn report_medium()
    ensures { text_of (medium default_config (message_only Error (codes "bad"))
        (text_file (codes "f.txt") (codes "abc\n") ∷ [])
        (label Primary 0 0 3 (codes "bad") ∷ []))
        ≡ rows (codes "f.txt:1:1: error: bad" ∷ []) }
{}

/// Computes the error of a script, in short style.
fn script_bad_end_short()
    ensures { text_of (short default_config
        (with_code (codes "S5") (message_only Error (codes "missing end of script")))
        (text_file (codes "script") [] ∷ [])
        (label Primary 0 0 0 (codes "expected ---") ∷ []))
        ≡ rows (codes "script:1:1: error[S5]: missing end of script" ∷ []) }
{}

/// Computes the style marks of a header, in escape sequences.
fn coloured_header()
    ensures { spelled ansi (short default_config (message_only Error (codes "m")) [] [])
        ≡ rows (codes "\u{1b}[0m\u{1b}[1m\u{1b}[38;5;9merror\u{1b}[0m\u{1b}[1m: m\u{1b}[0m" ∷ []) }
{}

/// Computes the style marks of a label's rows, in escape sequences.
fn coloured_label()
    ensures { spelled ansi (rich default_config (message_only Error [])
        (text_file (codes "f") (codes "abc") ∷ [])
        (label Primary 0 1 2 (codes "m") ∷ []))
        ≡ rows (codes "\u{1b}[0m\u{1b}[1m\u{1b}[38;5;9merror\u{1b}[0m\u{1b}[1m: \u{1b}[0m"
        ∷ codes "  \u{1b}[0m\u{1b}[36m┌─\u{1b}[0m f:1:2"
        ∷ codes "  \u{1b}[0m\u{1b}[36m│\u{1b}[0m"
        ∷ (codes "\u{1b}[0m\u{1b}[36m1\u{1b}[0m \u{1b}[0m\u{1b}[36m│\u{1b}[0m a"
        ++ codes "\u{1b}[0m\u{1b}[31mb\u{1b}[0mc")
        ∷ (codes "  \u{1b}[0m\u{1b}[36m│\u{1b}[0m  \u{1b}[0m\u{1b}[31m^\u{1b}[0m "
        ++ codes "\u{1b}[0m\u{1b}[31mm\u{1b}[0m")
        ∷ [] ∷ []) }
{}
