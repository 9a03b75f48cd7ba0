//! Laws of edits. Each is the contract of a function that does nothing and does not fail.

ghost use Rattle.codespan_edits.specs.EditLaws.{EditsAreOneByOne, OverlapsAreFound};
ghost use Rattle.codespan_edits.specs.EditLaws.{OrderMattersToInsertions};
ghost use Rattle.codespan_edits.specs.DiffLaws.{DiffHasAllLines, BlocksAreTrimmed};
ghost use Rattle.codespan_edits.specs.DiffLaws.{UnchangedTextIsKept, SameEditsHaveSameDiff};
ghost use Rattle.codespan_edits.specs.Patches.{ShownRowsArePatch};
ghost use Rattle.codespan_edits.specs.HunkLaws.{ChangedRowsAreDrawn, HunksArePatch};
ghost use Rattle.codespan_edits.specs.HunkLaws.{RowsNearChangesAreDrawn, HunksAreRuns};
ghost use Rattle.codespan_edits.specs.HunkLaws.{HunksArePatchBack};

/// States that edits without a fault make the text that they make one after another, each in the
/// text that the later ones have made, from the last one in order to the first.
pub fn edits_are_one_by_one()
    ensures { EditsAreOneByOne }
{}

/// States that, where no edit of a list has a fault of its own, the list has a fault exactly if two
/// of its edits overlap: if each of the two starts before the other ends.
pub fn overlaps_are_found()
    ensures { OverlapsAreFound }
{}

/// States that of the order of a list only that of the insertions at a byte matters: of two lists
/// with the same edits, and with those insertions in the same order, both have a fault, or both
/// make the same text.
pub fn order_matters_to_insertions()
    ensures { OrderMattersToInsertions }
{}

/// States that the lines of a diff but for the added ones are those of the source, and but for the
/// removed ones those of the text after the edits.
pub fn diff_has_all_lines()
    ensures { DiffHasAllLines }
{}

/// States that in each block of a diff the first removed and the first added line differ, and so do
/// the last ones, and that a block whose old and new text are the same has neither.
pub fn blocks_are_trimmed()
    ensures { BlocksAreTrimmed }
{}

/// States that edits of which each puts there what was there have a diff without removed and added
/// lines.
pub fn unchanged_text_is_kept()
    ensures { UnchangedTextIsKept }
{}

/// States that, of two lists with the same edits, and with the insertions at a byte in the same
/// order, both have a fault, or both have the same diff.
pub fn same_edits_have_same_diff()
    ensures { SameEditsHaveSameDiff }
{}

/// States that the rows of a diff with their numbers are a patch: whichever of the kept rows are
/// left out, the others make the lines of the text after the edits of those of the source.
pub fn shown_rows_are_patch()
    ensures { ShownRowsArePatch }
{}

/// States that each removed and each added row of a diff is drawn, whatever the context.
pub fn changed_rows_are_drawn()
    ensures { ChangedRowsAreDrawn }
{}

/// States that exactly those rows are drawn that are near a changed one, as many rows before it or
/// after it as the context has, or fewer, and single rows between two of these.
pub fn rows_near_changes_are_drawn()
    ensures { RowsNearChangesAreDrawn }
{}

/// States that hunks have exactly the drawn rows, in their order, and that two rows or more are
/// left out between two hunks.
pub fn hunks_are_runs()
    ensures { HunksAreRuns }
{}

/// States that the rows of the hunks of a diff are a patch, whatever the context: they make the
/// lines of the text after the edits of those of the source.
pub fn hunks_are_patch()
    ensures { HunksArePatch }
{}

/// States that the rows of the hunks of a diff, with signs and numbers exchanged, make the lines of
/// the source of those of the text after the edits.
pub fn hunks_are_patch_back()
    ensures { HunksArePatchBack }
{}
