//! The output.

use crate::error::CaseError;
use codespan_edits::{DiffRow, EditError, RowSign};
use std::alloc::Global;

/// Returns the output for a text and its diff, or for their error.
///
/// # Errors
///
/// `OutOfMemory`: an allocation fails.
pub fn output(
    alloc: Global,
    made: Result<(String, Vec<DiffRow>), EditError>,
) -> Result<String, CaseError> {
    let mut output = String::new(alloc);
    match made {
        Err(error) => output.push_str(format!(in alloc; "error: {error}\n")?.as_str())?,
        Ok((text, rows)) => {
            output.push_str(format!(in alloc; "{}\n", text.as_str().len())?.as_str())?;
            output.push_str(text.as_str())?;
            for row in &rows {
                push_row(alloc, &mut output, row)?;
            }
        }
    }
    Ok(output)
}

/// Adds a row of a diff.
fn push_row(alloc: Global, output: &mut String, row: &DiffRow) -> Result<(), CaseError> {
    let sign = match row.sign {
        RowSign::Kept => "=",
        RowSign::Removed => "-",
        RowSign::Added => "+",
    };
    output.push_str(sign)?;
    push_number(alloc, output, row.old_number)?;
    push_number(alloc, output, row.new_number)?;
    push_number(alloc, output, Some(row.line.as_str().len()))?;
    output.push_str("\n")?;
    output.push_str(row.line.as_str())?;
    Ok(())
}

/// Adds a space and a number, or `.` where there is none.
fn push_number(alloc: Global, output: &mut String, number: Option<usize>) -> Result<(), CaseError> {
    match number {
        Some(number) => output.push_str(format!(in alloc; " {number}")?.as_str())?,
        None => output.push_str(" .")?,
    }
    Ok(())
}
