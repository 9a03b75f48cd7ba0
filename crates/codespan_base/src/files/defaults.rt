//! Column numbers and locations as most databases count them, as functions and as macros. The rules
//! are those of the Rust crate's default bodies.

ghost use Rattle.std.specs.Prelude.{◌≡◌, ◌+◌, IfOk};
ghost use Rattle.codespan_core.specs.LawfulFiles.{FailsBy, column_index_on, location_of};
ghost use Rattle.codespan_core.specs.LawfulFiles.{column_number_failure, location_failure};

use crate::files::{Error, Files, Location};
use std::convert::AsStr;

/// Returns the column number of a byte on a line as most databases count it, in characters from 1:
/// [`column_index`] of the source, the line's range and the byte, plus 1. Both indices count from
/// 0.
///
/// A database's own `column_number` cannot call this, since its proof would then rest on itself;
/// [`column_number_by_default!`](codespan_base::column_number_by_default) expands to the body.
///
/// # Errors
///
/// The first error of `source` and then `line_range`.
pub fn default_column_number<'a, F: Files<'a>>(
    files: &'a F,
    id: F::FileId,
    line_index: usize,
    byte_index: usize,
) -> Result<usize, Error>
    ensures value { IfOk result (λ n.
        n ≡ column_index_on ((F.database files.now).file id) line_index byte_index + 1) }
    ensures failed { FailsBy (column_number_failure ((F.database files.now).failure id) line_index)
        result }
{
    crate::column_number_by_default!(files, id, line_index, byte_index)
}

/// Returns the location of a byte as most databases have it: the number of its line, and its column
/// number there. The byte index counts from 0.
///
/// A database's own `location` cannot call this, since its proof would then rest on itself;
/// [`location_by_default!`](codespan_base::location_by_default) expands to the body.
///
/// # Errors
///
/// The first error of `line_index`, then `line_number` and then `column_number`.
pub fn default_location<'a, F: Files<'a>>(
    files: &'a F,
    id: F::FileId,
    byte_index: usize,
) -> Result<Location, Error>
    ensures value { IfOk result (λ p. p ≡ location_of ((F.database files.now).file id) byte_index) }
    ensures failed { let database = F.database files.now in
        FailsBy (location_failure (database.file id) (database.failure id) byte_index) result }
{
    crate::location_by_default!(files, id, byte_index)
}

/// Expands to the body of a database's own `column_number`, from its `source` and `line_range`: the
/// body returns what
/// [`default_column_number`](codespan_reporting::files::default_column_number) returns, and fails
/// as it does. The line index and the byte index count from 0.
///
/// The function has to return a `Result<usize, Error>`, since the body has `?` in it, and
/// [`std::convert::AsStr`] has to be in scope. An argument may be evaluated twice.
#[macro_export]
macro_rules! column_number_by_default {
    ($files:expr, $id:expr, $line_index:expr, $byte_index:expr) => {{
        let source = $crate::files::Files::source($files, $id)?;
        let range = $crate::files::Files::line_range($files, $id, $line_index)?;
        Ok($crate::files::column_index(source.as_str(), range, $byte_index) + 1)
    }};
}

/// Expands to the body of a database's own `location`, from its `line_index`, `line_number` and
/// `column_number`: the body returns what
/// [`default_location`](codespan_reporting::files::default_location) returns, and fails as it does.
/// The byte index counts from 0.
///
/// The function has to return a `Result<Location, Error>`, since the body has `?` in it. An
/// argument may be evaluated up to three times.
#[macro_export]
macro_rules! location_by_default {
    ($files:expr, $id:expr, $byte_index:expr) => {{
        let line_index = $crate::files::Files::line_index($files, $id, $byte_index)?;
        Ok($crate::files::Location {
            line_number: $crate::files::Files::line_number($files, $id, line_index)?,
            column_number: $crate::files::Files::column_number(
                $files,
                $id,
                line_index,
                $byte_index,
            )?,
        })
    }};
}
