//! Worked outputs over files with other line numbers, over a missing file, and of many labels in
//! several orders.

ghost use Rattle.std.specs.Prelude.{◌≡◌, ℕ, List, ◌∷◌, [], ◌++◌, codes, reverse};
ghost use Rattle.std.specs.Prelude.{Some, None};
ghost use Rattle.codespan_base.specs.Defaults.{default_config};
ghost use Rattle.codespan_base.specs.MappedModel.{with_set_number};
ghost use Rattle.codespan_base.specs.SimpleModel.{database_failure};
ghost use Rattle.codespan_base.specs.Streams.{text_of};
ghost use Rattle.codespan_base.specs.declared.diagnostic.Severity.TheVariants.{Error};
ghost use Rattle.codespan_base.specs.declared.diagnostic.LabelStyle.TheVariants.{Primary};
ghost use Rattle.codespan_base.specs.declared.files.Error.TheVariants.{FileMissing};
ghost use Rattle.codespan_output.specs.Lookups.{first_error, header_lookups_of};
ghost use Rattle.codespan_worked.specs.Worked.{text_file, mapped_text_file, from_zero, label};
ghost use Rattle.codespan_worked.specs.Worked.{message_only, rich, short, rows, many_lines};
ghost use Rattle.codespan_worked.specs.Worked.{many_labels, evens, odds};

/// Computes the output of a line whose number is set, and of those after it.
fn mapped_numbers()
    ensures { text_of (rich default_config (message_only Error [])
        (mapped_text_file (codes "m") (codes "a\nb\nc\nd") (with_set_number 2 100 []) ∷ [])
        (label Primary 0 2 7 (codes "x") ∷ []))
        ≡ rows (codes "error: "
        ∷ codes "    ┌─ m:2:1"
        ∷ codes "    │  "
        ∷ codes "  2 │ ╭ b"
        ∷ codes "100 │ │ c"
        ∷ codes "101 │ │ d"
        ∷ codes "    │ ╰─^ x"
        ∷ [] ∷ []) }
{}

/// Computes the output of lines that are numbered by their indices: 0 has one digit.
fn line_number_zero()
    ensures { text_of (rich default_config (message_only Error [])
        (from_zero (text_file (codes "f") (codes "ab")) ∷ [])
        (label Primary 0 0 1 (codes "z") ∷ []))
        ≡ rows (codes "error: "
        ∷ codes "  ┌─ f:0:1"
        ∷ codes "  │"
        ∷ codes "0 │ ab"
        ∷ codes "  │ ^ z"
        ∷ [] ∷ []) }
{}

/// Computes what short style has written before a label in a missing file: the header of the label
/// before it, whose lookups succeed.
fn missing_file_short()
    ensures header { text_of (short default_config (message_only Error (codes "m"))
        (text_file (codes "f") (codes "ab") ∷ [])
        (label Primary 0 0 1 [] ∷ []))
        ≡ rows (codes "f:1:1: error: m" ∷ []) }
    ensures succeeds { first_error
        (database_failure (λ (text : List ℕ). text) ((codes "f", codes "ab") ∷ []))
        (header_lookups_of (label Primary 0 0 1 [])) ≡ None }
    ensures fails { first_error
        (database_failure (λ (text : List ℕ). text) ((codes "f", codes "ab") ∷ []))
        (header_lookups_of (label Primary 7 0 1 [])) ≡ Some FileMissing }
{}

/// Computes the output of two hundred labels on fifty lines: it is the same in reverse order, and
/// with the labels at odd indices first.
fn label_orders()
    ensures reversed { text_of
        (rich default_config (message_only Error []) (many_lines ∷ []) (reverse many_labels))
        ≡ text_of (rich default_config (message_only Error []) (many_lines ∷ []) many_labels) }
    ensures odd_first { text_of
        (rich default_config (message_only Error []) (many_lines ∷ []) (odds ++ evens))
        ≡ text_of (rich default_config (message_only Error []) (many_lines ∷ []) many_labels) }
{}
