//! Laws of scripts, one to a function that does nothing: its contract is the law, over the
//! definitions alone.
//!
//! The contract of [`parse_script`](crate::script::parse_script) is stated in these definitions.

ghost use Rattle.std.specs.Prelude.{ℕ, List};
ghost use Rattle.report.specs.ScriptLaws.{EditsCanBeMade, FaultsLieInside, ScriptReadsBack};
ghost use Rattle.report.specs.Statements.{Statement};

/// States that a script that is written out from statements is read as what these state together,
/// with the source that follows it.
pub fn scripts_read_back()
    ensures { (statements : List Statement) (source : List ℕ)
        → ScriptReadsBack statements source }
{}

/// States that the ranges of a script's error lie inside the input, start and end between
/// characters, and do not end before they start, for an input that is UTF-8.
pub fn faults_lie_inside()
    ensures { (input : List ℕ) → FaultsLieInside input }
{}

/// States that the edits of each suggestion of a script can be made in its source: a script with an
/// edit that cannot is an error.
pub fn edits_can_be_made()
    ensures { (input : List ℕ) → EditsCanBeMade input }
{}
