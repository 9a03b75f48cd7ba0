//! Lookups and columns of small texts: each function does nothing, and its contract is what the
//! definitions compute to.
#![tactic(auto, unfolding(crate::specs::FileDefinitions::file_definitions))]

ghost use Rattle.std.specs.Prelude.{◌≡◌, ◌^◌, ◌-◌, [], ◌∷◌, map, codes};
ghost use Rattle.std.specs.Prelude.{encode_utf8_all, Some, None};
ghost use Rattle.codespan_core.specs.FileModel.{line_of, line_text};
ghost use Rattle.codespan_core.specs.FileModel.Lookup.{Source, LineNumber, LineRange};
ghost use Rattle.codespan_core.specs.Lines.{line_starts_of, column_index_of};
ghost use Rattle.codespan_core.specs.SimpleModel.{simple_file, simple_failure};
ghost use Rattle.codespan_core.specs.SimpleModel.{past_last_line_failure, missing_failure};
ghost use Rattle.codespan_base.specs.MappedModel.{with_set_number, number_from, nearest_set};
ghost use Rattle.codespan_base.specs.MappedModel.{mapped_failure};
ghost use Rattle.codespan_core.specs.declared.files.error.Error.TheVariants.{FileMissing};
ghost use Rattle.codespan_core.specs.declared.files.error.Error.TheVariants.{LineTooLarge};

/// Computes columns, which count the characters from the line's start to the byte, and lines, which
/// start after newlines.
fn columns_and_starts()
    ensures first_line { column_index_of (encode_utf8_all (codes "\n\n🗻∈🌏\n\n")) 0 1 0 ≡ 0 }
    ensures in_line { map (column_index_of (encode_utf8_all (codes "\n\n🗻∈🌏\n\n")) 2 13)
        (0 ∷ 2 ∷ 3 ∷ 6 ∷ 10 ∷ 12 ∷ 13 ∷ 14 ∷ [])
        ≡ 0 ∷ 0 ∷ 0 ∷ 1 ∷ 2 ∷ 2 ∷ 3 ∷ 3 ∷ [] }
    ensures starts { line_starts_of (codes "foo\nbar\r\n\nbaz") ≡ 0 ∷ 4 ∷ 9 ∷ 10 ∷ [] }
    ensures texts { map (line_text (simple_file None (codes "foo\nbar\r\n\nbaz")))
        (0 ∷ 1 ∷ 2 ∷ 3 ∷ [])
        ≡ codes "foo\n" ∷ codes "bar\r\n" ∷ codes "\n" ∷ codes "baz" ∷ [] }
    ensures indices { map (line_of (line_starts_of (codes "foo\nbar\r\n\nbaz"))) (5 ∷ 99 ∷ [])
        ≡ 1 ∷ 3 ∷ [] }
{}

/// Computes the errors of a missing file and of a line past the last.
fn missing_file()
    ensures missing { missing_failure Source ≡ Some FileMissing }
    ensures past_last_line { simple_failure (codes "a\nb") (LineRange 2) ≡ Some (LineTooLarge 2 1) }
{}

/// Computes lookups of the greatest indices, and the column in a reversed range.
fn greatest_indices()
    ensures wide { column_index_of (encode_utf8_all (codes "é")) 0 9 (2 ^ 64 - 1) ≡ 1 }
    ensures reversed { column_index_of (codes "ab") 5 1 9 ≡ 0 }
    ensures range { simple_failure (codes "a\nb") (LineRange (2 ^ 64 - 1))
        ≡ Some (LineTooLarge (2 ^ 64 - 1) 1) }
    ensures succeeds { simple_failure (codes "a\nb") (LineNumber (2 ^ 64 - 2)) ≡ None }
    ensures number { (simple_file None (codes "a\nb")).line_number (2 ^ 64 - 2) ≡ 2 ^ 64 - 1 }
    ensures failed { simple_failure (codes "a\nb") (LineNumber (2 ^ 64 - 1))
        ≡ Some (LineTooLarge (2 ^ 64 - 1) (2 ^ 64 - 2)) }
{}

/// Computes the numbers after a set number so great that the next line's number does not fit.
fn mapped_overflow()
    ensures greatest { let set_numbers = with_set_number 1 (2 ^ 64 - 1) [] in
        number_from (nearest_set set_numbers 1) 1 ≡ 2 ^ 64 - 1 }
    ensures succeeds { let set_numbers = with_set_number 1 (2 ^ 64 - 1) [] in
        mapped_failure (codes "a\nb\nc\nd") set_numbers (LineNumber 1) ≡ None }
    ensures failed { let set_numbers = with_set_number 1 (2 ^ 64 - 1) [] in
        mapped_failure (codes "a\nb\nc\nd") set_numbers (LineNumber 2) ≡ Some (LineTooLarge 2 1) }
    ensures no_line { past_last_line_failure (codes "a\nb\nc\nd") 4 ≡ Some (LineTooLarge 4 3) }
{}

/// Computes the set numbers after a number is set again: the later one replaces the earlier one.
fn set_again()
    ensures { with_set_number 2 7 (with_set_number 1 5 (with_set_number 2 100 []))
        ≡ (1, 5) ∷ (2, 7) ∷ [] }
{}
