//! Validates the files.

ghost use Rattle.std.specs.Prelude.{IsTrue, MatchOption, ◌↔◌};
ghost use Rattle.codespan_native.specs.PositionCalls.{IsFirstInvalidField, IsUsableFile};
ghost use Rattle.codespan_native.specs.Validity.{FindsFirstWithout, HasValidName, HasValidSource};
ghost use Rattle.codespan_native.specs.Validity.{HasValidLines, HasValidLocations};
ghost use Rattle.codespan_native.specs.Validity.{HasZeroReserved};

use crate::error::Argument;
use crate::raw::RawFile;
use crate::stated_lines::{are_lines, locations_ascend};
use crate::validate::values::{are_zero, is_utf8};

/// Returns the index of the first file whose name is not UTF-8.
pub fn name_index(files: &[RawFile<'_>]) -> Option<usize>
    ensures { FindsFirstWithout HasValidName files.now result }
{
    files.iter().position(|file| !is_utf8(file.name))
}

/// Returns the index of the first file whose source is not UTF-8.
pub fn source_index(files: &[RawFile<'_>]) -> Option<usize>
    ensures { FindsFirstWithout HasValidSource files.now result }
{
    files.iter().position(|file| !is_utf8(file.source))
}

/// Returns the index of the first file whose lines are not lines of its source.
pub fn lines_index(files: &[RawFile<'_>]) -> Option<usize>
    ensures { FindsFirstWithout HasValidLines files.now result }
{
    files.iter().position(|file| !has_valid_lines(file))
}

/// Returns the index of the first file whose locations do not ascend strictly by their bytes.
pub fn locations_index(files: &[RawFile<'_>]) -> Option<usize>
    ensures { FindsFirstWithout HasValidLocations files.now result }
{
    files
        .iter()
        .position(|file| !locations_ascend(file.first_byte, file.locations))
}

/// Returns the index of the first file with a reserved word that is not 0.
pub fn file_reserved_index(files: &[RawFile<'_>]) -> Option<usize>
    ensures { FindsFirstWithout HasZeroReserved files.now result }
{
    files.iter().position(|file| !are_zero(&file.reserved))
}

/// Returns the first field of a file that is invalid, in the order of the numbers.
pub fn invalid_field(file: &RawFile<'_>) -> Option<Argument>
    ensures { MatchOption result (IsUsableFile file.now) (IsFirstInvalidField file.now) }
{
    if !is_utf8(file.name) {
        Some(Argument::FileName)
    } else if !is_utf8(file.source) {
        Some(Argument::FileSource)
    } else if !has_valid_lines(file) {
        Some(Argument::FileLines)
    } else if !locations_ascend(file.first_byte, file.locations) {
        Some(Argument::FileLocations)
    } else if !are_zero(&file.reserved) {
        Some(Argument::FileReserved)
    } else {
        None
    }
}

/// Returns whether a file states no lines, or lines of its source.
fn has_valid_lines(file: &RawFile<'_>) -> bool
    ensures { IsTrue result ↔ HasValidLines file.now }
{
    file.lines.is_empty() || are_lines(file.source, file.first_byte, file.lines)
}
