//! Laws of positions. Each is the contract of a function that does nothing and does not fail.

ghost use Rattle.codespan_lsp.specs.PositionLaws.{PositionsReturn, PositionsAscend};
ghost use Rattle.codespan_lsp.specs.PositionLaws.{LabelRangesAreOrdered, ErrorsHaveNoByte};
ghost use Rattle.codespan_lsp.specs.PositionLaws.{InsideIsNoBoundary};

/// States that a byte at a character boundary, not past its line's end, is at its position, and
/// that no other byte is: so it goes to a position and back to itself.
pub fn positions_return()
    ensures { PositionsReturn }
{}

/// States that of two bytes on lines the later one has the later position.
pub fn positions_ascend()
    ensures { PositionsAscend }
{}

/// States that each range that [`to_lsp_diagnostics`](crate::to_lsp_diagnostics) returns for a
/// label starts at its end or at an earlier position, also where the label's span starts after its
/// end.
pub fn label_ranges_are_ordered()
    ensures { LabelRangesAreOrdered }
{}

/// States that on a line that exists `position_to_byte_index` fails, memory and the file's own
/// lookups aside, exactly where no byte is at the position.
pub fn errors_have_no_byte()
    ensures { ErrorsHaveNoByte }
{}

/// States that a position between the code units of a character has the error
/// [`InvalidCharBoundary`](codespan_base::files::Error) with the character's byte, as in UTF-16 one
/// between a pair of surrogates.
pub fn inside_is_no_boundary()
    ensures { InsideIsNoBoundary }
{}
