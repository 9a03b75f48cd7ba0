//! Worked rows of labels as a caller may pass them, and which lanes are in order.

ghost use Rattle.std.specs.Prelude.{◌≡◌, ◌∷◌, [], codes, true, false};
ghost use Rattle.codespan_base.specs.Defaults.{default_config};
ghost use Rattle.codespan_base.specs.Streams.{text_of};
ghost use Rattle.codespan_base.specs.declared.diagnostic.Severity.TheVariants.{Error};
ghost use Rattle.codespan_base.specs.declared.diagnostic.LabelStyle.TheVariants.{Secondary};
ghost use Rattle.codespan_output.specs.Arguments.{lanes_in_order};
ghost use Rattle.codespan_output.specs.OutputStreams.{context_of};
ghost use Rattle.codespan_output.specs.Rows.{rows_of};
ghost use Rattle.codespan_output.specs.RowStreams.{stream_of_rows};
ghost use Rattle.codespan_worked.specs.Worked.{label, line_of_labels, bars_in, rows};

/// Shows that a range whose start is after its end is rendered as it is passed: it has no caret.
fn reversed_handed_in()
    ensures { text_of (stream_of_rows (context_of default_config Error 1)
        (rows_of (line_of_labels 1 (codes "abc") (label Secondary 0 2 1 (codes "r") ∷ []))))
        ≡ rows (codes "1 │ abc"
        ∷ codes "  │   r"
        ∷ []) }
{}

/// Shows that lanes are in order if they ascend strictly and are below the number of lanes.
fn lanes_in_order_test()
    ensures none { lanes_in_order 0 [] ≡ true }
    ensures ascending { lanes_in_order 2 (bars_in (0 ∷ 1 ∷ [])) ≡ true }
    ensures descending { lanes_in_order 2 (bars_in (1 ∷ 0 ∷ [])) ≡ false }
    ensures repeated { lanes_in_order 2 (bars_in (0 ∷ 0 ∷ [])) ≡ false }
    ensures past_count { lanes_in_order 2 (bars_in (2 ∷ [])) ≡ false }
{}
