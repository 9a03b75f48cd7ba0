//! The numbers of the rows of a diff.

ghost use Rattle.std.specs.Prelude.{◌≡◌, ◌+◌, ◌<◌, ◌^◌, IfOk, OnErr, IsErrOf};
ghost use Rattle.codespan_edits.specs.Numbers.{number_of, next_number, numbered};
ghost use Rattle.codespan_edits.specs.RowViews.{rows_view, numbered_view};

use crate::apply::add_len;
use crate::error::EditError;
use crate::rows::DiffRow;

/// Gives each row its numbers.
pub(crate) fn number_rows(rows: &mut Vec<DiffRow>)
    ensures rows { rows_view rows.new ≡ rows_view rows.old }
    ensures numbers { numbered_view rows.new ≡ numbered (rows_view rows.old) }
{
    let mut old = 0usize;
    let mut new = 0usize;
    for row in rows.iter_mut() {
        row.old_number = take_number(&mut old, row.sign.is_old());
        row.new_number = take_number(&mut new, row.sign.is_new());
    }
}

/// Counts a line, if it has a number, and returns that.
fn take_number(count: &mut usize, has_number: bool) -> Option<usize>
    requires { count.old + 1 < 2 ^ 64 }
    ensures number { result ≡ number_of has_number (count.old + 1) }
    ensures next { count.new + 1 ≡ next_number has_number (count.old + 1) }
{
    if !has_number {
        return None;
    }
    *count += 1;
    Some(*count)
}

/// Returns the number of the next line, from 1, if it has one, and counts it.
pub(crate) fn next_line(count: &mut usize, has_number: bool) -> Result<Option<usize>, EditError>
    ensures number { IfOk result (λ number. number ≡ number_of has_number (count.old + 1)) }
    ensures next { IfOk result (λ _. count.new + 1 ≡ next_number has_number (count.old + 1)) }
    ensures failed { OnErr result (IsErrOf result EditError.OutOfMemory) }
{
    if !has_number {
        return Ok(None);
    }
    let number = add_len(*count, 1)?;
    *count = number;
    Ok(Some(number))
}
