//! The calls of `codespan_edits` that allocate, over two edits of a small text.
//!
//! What is expected is written by hand, by `docs/EDITS.md`.

use crate::outcome::{Outcome, judge_value};
use crate::rendering::judge_string;
use codespan_base::files::Error;
use codespan_edits::{
    DiffContext, DiffRow, Edit, EditError, Hunk, RowSign, apply_edits, diff, diff_hunks,
};
use std::alloc::Global;

/// A call of `codespan_edits`.
#[derive(Clone, Copy)]
pub enum EditsCall {
    /// `apply_edits`
    ApplyEdits,
    /// `diff`
    Diff,
    /// `diff_hunks`
    DiffHunks,
}

/// The text.
const SOURCE: &str = "a\nb\nc\nd\ne\n";

/// The edits: the start, the end and the replacement of each.
static EDITS: [(usize, usize, &str); 2] = [(4, 5, "y\nz"), (0, 1, "x")];

/// The text after the edits.
const EDITED: &str = "x\nb\ny\nz\nd\ne\n";

/// The rows of the diff, of which the last one is far from the changed ones.
static ROWS: [(RowSign, &str, Option<usize>, Option<usize>); 8] = [
    (RowSign::Removed, "a\n", Some(1), None),
    (RowSign::Added, "x\n", None, Some(1)),
    (RowSign::Kept, "b\n", Some(2), Some(2)),
    (RowSign::Removed, "c\n", Some(3), None),
    (RowSign::Added, "y\n", None, Some(3)),
    (RowSign::Added, "z\n", None, Some(4)),
    (RowSign::Kept, "d\n", Some(4), Some(5)),
    (RowSign::Kept, "e\n", Some(5), Some(6)),
];

/// Makes a call and judges it.
///
/// # Errors
///
/// `OutOfMemory` if an allocation of the preparation fails.
pub fn judge_edits(alloc: Global, call: EditsCall) -> Result<Outcome, Error> {
    let edits = edits(alloc)?;
    match call {
        EditsCall::ApplyEdits => {
            let returned = with_error(apply_edits(alloc, SOURCE, &edits));
            Ok(judge_string(&returned, EDITED))
        }
        EditsCall::Diff => {
            let expected = rows(alloc, ROWS.len())?;
            Ok(judge_value(&with_error(diff(alloc, SOURCE, &edits)), &expected))
        }
        EditsCall::DiffHunks => judge_hunks(alloc, &edits),
    }
}

/// Makes the call that returns hunks, with a row after a changed one, and judges it.
fn judge_hunks(alloc: Global, edits: &[Edit<()>]) -> Result<Outcome, Error> {
    let mut expected = Vec::with_capacity(alloc, 1)?;
    expected.push(Hunk {
        rows: rows(alloc, ROWS.len() - 1)?,
    })?;
    let context = DiffContext {
        before: 0,
        after: 1,
    };
    let returned = with_error(diff_hunks(alloc, SOURCE, edits, context));
    Ok(judge_value(&returned, &expected))
}

/// Returns the edits.
fn edits(alloc: Global) -> Result<Vec<Edit<()>>, Error> {
    let mut edits = Vec::with_capacity(alloc, EDITS.len())?;
    for (start, end, replacement) in &EDITS {
        edits.push(Edit::new(alloc, (), *start..*end, *replacement)?)?;
    }
    Ok(edits)
}

/// Returns the first rows of the diff, so many.
fn rows(alloc: Global, count: usize) -> Result<Vec<DiffRow>, Error> {
    let mut rows = Vec::with_capacity(alloc, count)?;
    for (sign, line, old_number, new_number) in ROWS.iter().take(count) {
        rows.push(DiffRow {
            sign: *sign,
            line: String::from_str(alloc, line)?,
            old_number: *old_number,
            new_number: *new_number,
        })?;
    }
    Ok(rows)
}

/// Returns a result with the error of files. A fault of edits, which these have not, is another
/// error than a failed allocation.
fn with_error<T: Drop>(returned: Result<T, EditError>) -> Result<T, Error> {
    match returned {
        Ok(made) => Ok(made),
        Err(EditError::OutOfMemory) => Err(Error::OutOfMemory),
        Err(_) => Err(Error::FormatError),
    }
}
