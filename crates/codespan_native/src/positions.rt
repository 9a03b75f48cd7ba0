//! The calls that convert between bytes of a file and positions of editors for C.

ghost use Rattle.std.specs.Prelude.{◌≡◌, ◌+◌, IfOk, MatchOption};
ghost use Rattle.codespan_base.specs.LawfulFiles.{FailsBy};
ghost use Rattle.codespan_native.specs.EditorArguments.{error_detail};
ghost use Rattle.codespan_native.specs.PositionCalls.{AreUsable, FindsByte, FindsPosition};
ghost use Rattle.codespan_native.specs.PositionCalls.{IsFileByteAt, IsUsableFile, NamesUnusable};
ghost use Rattle.codespan_native.specs.PositionCalls.{file_byte_failure, file_position};
ghost use Rattle.codespan_native.specs.PositionCalls.{file_position_failure, line_failure};
ghost use Rattle.codespan_native.specs.PositionCalls.{position_from};

use crate::convert::{convert_encoding, convert_file};
use crate::error::EditorArgument;
use crate::raw::{Detail, RawFile, RawPosition};
use crate::status::{INVALID, NO_DETAIL, OK, OUT_OF_MEMORY};
use crate::validate::invalid_field;
use codespan_base::files::Error;
use codespan_lsp::{Position, PositionEncoding};
use std::alloc::Global;

/// What a call returns that looks a position or a byte up.
#[derive(Drop)]
pub struct Found<T> {
    /// The status, a constant of [`crate::status`].
    pub status: u32,
    /// What was looked up; numbers of 0 with any status but `OK`.
    pub value: T,
    /// The first invalid argument, or none.
    pub detail: Detail,
}

/// The position with any status but `OK`.
const NO_POSITION: RawPosition = RawPosition {
    line: 0,
    character: 0,
};

/// Returns the position of a byte of a file. The byte index counts from 0, from the start of the
/// file. By the status:
///
/// - `OK`: the position is that of the byte.
/// - `OUT_OF_MEMORY`: an allocation failed.
/// - `INVALID`: an argument is invalid, or the byte has no position. `detail` names the first such
///   argument: a field of the file, the encoding, or the byte.
pub fn find_position(
    alloc: Global,
    file: &RawFile<'_>,
    encoding: u32,
    byte: usize,
) -> Found<RawPosition>
    ensures { FindsPosition file.now encoding byte result.status result.value result.detail }
{
    if let Some(detail) = unusable_argument(file, encoding) {
        return Found {
            status: INVALID,
            value: NO_POSITION,
            detail,
        };
    }
    match file_position(alloc, file, convert_encoding(encoding), byte) {
        Ok(position) => Found {
            status: OK,
            value: position,
            detail: NO_DETAIL,
        },
        Err(error) => match error_detail(&error) {
            Some(detail) => Found {
                status: INVALID,
                value: NO_POSITION,
                detail,
            },
            None => Found {
                status: OUT_OF_MEMORY,
                value: NO_POSITION,
                detail: NO_DETAIL,
            },
        },
    }
}

/// Returns the byte index of a position of a file, from 0, from the start of the file, up to
/// [`usize::MAX`]. By the status:
///
/// - `OK`: the byte is at the position.
/// - `OUT_OF_MEMORY`: an allocation failed.
/// - `INVALID`: an argument is invalid, or no byte is at the position. `detail` names the first
///   such argument: a field of the file, the encoding, or the position.
pub fn find_byte(
    alloc: Global,
    file: &RawFile<'_>,
    encoding: u32,
    position: &RawPosition,
) -> Found<usize>
    ensures { FindsByte file.now encoding position.now
        result.status result.value result.detail }
{
    if let Some(detail) = unusable_argument(file, encoding) {
        return Found {
            status: INVALID,
            value: 0,
            detail,
        };
    }
    match file_byte(alloc, file, convert_encoding(encoding), position) {
        Ok(byte) => Found {
            status: OK,
            value: byte,
            detail: NO_DETAIL,
        },
        Err(error) => match error_detail(&error) {
            Some(detail) => Found {
                status: INVALID,
                value: 0,
                detail,
            },
            None => Found {
                status: OUT_OF_MEMORY,
                value: 0,
                detail: NO_DETAIL,
            },
        },
    }
}

/// Returns the detail of the first invalid argument besides the byte or the position.
fn unusable_argument(file: &RawFile<'_>, encoding: u32) -> Option<Detail>
    ensures { MatchOption result (AreUsable file.now encoding)
        (NamesUnusable file.now encoding) }
{
    match invalid_field(file) {
        Some(argument) => Some(argument.detail()),
        None => {
            if encoding <= 2 {
                None
            } else {
                Some(EditorArgument::Encoding.detail(0))
            }
        }
    }
}

/// Returns the detail of an error of a lookup; none of that of a failed allocation.
fn error_detail(error: &Error) -> Option<Detail>
    ensures { result ≡ error_detail error.now }
{
    match error {
        Error::LineTooLarge { .. } => Some(EditorArgument::LineTooLarge.detail(0)),
        Error::ColumnTooLarge { max, .. } => Some(EditorArgument::ColumnTooLarge.detail(*max)),
        Error::InvalidCharBoundary { .. } => Some(EditorArgument::CharBoundary.detail(0)),
        _ => None,
    }
}

/// Returns the position of a byte of a file.
///
/// # Errors
///
/// Those of [`PositionEncoding::byte_index_to_position`], and [`Error::LineTooLarge`] where the
/// index of the line in the file does not fit a `u32`.
fn file_position(
    alloc: Global,
    file: &RawFile<'_>,
    encoding: PositionEncoding,
    byte: usize,
) -> Result<RawPosition, Error>
    requires { IsUsableFile file.now }
    ensures value { IfOk result (λ p. p ≡ file_position file.now encoding byte) }
    ensures failed { FailsBy (file_position_failure file.now encoding byte) result }
{
    let Ok(files) = convert_file(alloc, file) else {
        return Err(Error::OutOfMemory);
    };
    let in_source = byte.saturating_sub(file.first_byte);
    let position = encoding.byte_index_to_position(&files, 0, in_source)?;
    position_from(file.first_line, &position)
}

/// Returns a position, whose line counts from the line of this index, as one in the file.
///
/// # Errors
///
/// [`Error::LineTooLarge`] where the index of its line does not fit a `u32`.
fn position_from(first_line: usize, position: &Position) -> Result<RawPosition, Error>
    ensures value { IfOk result (λ p. p ≡ position_from first_line position.now) }
    ensures failed { FailsBy (line_failure first_line position.now.line) result }
{
    let max = u32::MAX as usize;
    let line = first_line.saturating_add(position.line as usize);
    if line > max {
        return Err(Error::LineTooLarge {
            given: position.line as usize,
            max,
        });
    }
    Ok(RawPosition {
        line: line as u32,
        character: position.character,
    })
}

/// Returns the byte index, in the file, of a position.
///
/// # Errors
///
/// Those of [`PositionEncoding::position_to_byte_index`], and [`Error::LineTooLarge`] where the
/// line is before the source.
fn file_byte(
    alloc: Global,
    file: &RawFile<'_>,
    encoding: PositionEncoding,
    position: &RawPosition,
) -> Result<usize, Error>
    requires { IsUsableFile file.now }
    ensures value { IfOk result (IsFileByteAt file.now encoding position.now) }
    ensures failed { FailsBy (file_byte_failure file.now encoding position.now) result }
{
    let Ok(files) = convert_file(alloc, file) else {
        return Err(Error::OutOfMemory);
    };
    let line = position.line as usize;
    if line < file.first_line {
        return Err(Error::LineTooLarge {
            given: line,
            max: u32::MAX as usize,
        });
    }
    let in_source = Position {
        line: (line - file.first_line) as u32,
        character: position.character,
    };
    let byte = encoding.position_to_byte_index(&files, 0, &in_source)?;
    Ok(file.first_byte.saturating_add(byte))
}
