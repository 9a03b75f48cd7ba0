//! The order of edits, and what is wrong with a list of them.

ghost use Rattle.std.specs.Prelude.{◌≡◌, IfOk, OnErr, IsErrOf, List};
ghost use Rattle.std.specs.Result.{result_err};
ghost use Rattle.codespan_edits.specs.Edits.{TextEdit, text_edit, text_edits, listed, in_order};
ghost use Rattle.codespan_edits.specs.Edits.{order_of};
ghost use Rattle.codespan_edits.specs.Faults.{own_fault, first_own_fault, neighbor_fault, fault};
ghost use Rattle.codespan_edits.specs.Faults.{FailsBy};
ghost use Rattle.codespan_edits.specs.Private.Places.{edits_at};

use crate::edit::Edit;
use crate::error::EditError;
use std::alloc::Global;

/// The range of an edit, with its index in the list. Places are ordered by their starts, then by
/// their ends, then by their indices; no two of a list are equal.
#[derive(Clone, Copy, PartialEq, Eq, PartialOrd, Ord)]
pub(crate) struct Place {
    pub(crate) start: usize,
    pub(crate) end: usize,
    pub(crate) index: usize,
}

/// Fails where the edit with this index in the list has a fault of its own.
fn check_range<FileId>(source: &str, index: usize, edit: &Edit<FileId>) -> Result<(), EditError>
    ensures { result_err result
        ≡ own_fault source.now (record { index = index; edit = text_edit edit.now }) }
{
    let (start, end) = (edit.range.start, edit.range.end);
    if start > end {
        return Err(EditError::Reversed { edit: index });
    }
    if end > source.len() {
        return Err(EditError::PastEnd {
            edit: index,
            len: source.len(),
        });
    }
    let byte = if source.is_char_boundary(start) {
        end
    } else {
        start
    };
    if source.is_char_boundary(byte) {
        Ok(())
    } else {
        Err(EditError::NotCharBoundary { edit: index, byte })
    }
}

/// Fails with the fault of the first edit of the list that has a fault of its own.
fn check_ranges<FileId>(source: &str, edits: &[Edit<FileId>]) -> Result<(), EditError>
    ensures { result_err result ≡ first_own_fault source.now (listed (text_edits edits.now)) }
{
    for (index, edit) in edits.iter().enumerate() {
        check_range(source, index, edit)?;
    }
    Ok(())
}

/// Fails with the first two neighbors that overlap.
fn check_neighbors(places: &[Place]) -> Result<(), EditError>
    ensures { (edits : List TextEdit) →
        result_err result ≡ neighbor_fault (edits_at edits places.now) }
{
    for index in 1..places.len() {
        let (left, right) = (places[index - 1], places[index]);
        if left.end > right.start {
            return Err(EditError::Overlap {
                edit: right.index,
                other: left.index,
            });
        }
    }
    Ok(())
}

/// Returns the places of edits in their order.
fn sorted_places<FileId>(alloc: Global, edits: &[Edit<FileId>]) -> Result<Vec<Place>, EditError>
    ensures sorted { let es = text_edits edits.now in
        IfOk result (λ places. edits_at es places.items ≡ in_order (listed es)) }
    ensures failed { OnErr result (IsErrOf result EditError.OutOfMemory) }
{
    let mut places = Vec::with_capacity(alloc, edits.len())?;
    for (index, edit) in edits.iter().enumerate() {
        places.push(Place {
            start: edit.range.start,
            end: edit.range.end,
            index,
        })?;
    }
    places.sort_unstable();
    Ok(places)
}

/// Returns the places of edits in their order, or what is wrong with the edits.
pub(crate) fn places_in_order<FileId>(
    alloc: Global,
    source: &str,
    edits: &[Edit<FileId>],
) -> Result<Vec<Place>, EditError>
    ensures sorted { let es = text_edits edits.now in
        IfOk result (λ places. edits_at es places.items ≡ in_order (listed es)) }
    ensures failed { FailsBy (fault source.now (text_edits edits.now)) result }
{
    check_ranges(source, edits)?;
    let places = sorted_places(alloc, edits)?;
    check_neighbors(&places)?;
    Ok(places)
}

/// Returns the indices of the edits in their order: that of the starts of their ranges, then of the
/// ends, then of the list.
///
/// # Errors
///
/// Those of [`apply_edits`](crate::apply_edits).
///
/// # Examples
///
/// ```rust
/// let edits = [Edit::new(alloc, (), 4..5, "&y")?, Edit::new(alloc, (), 0..0, "let x = ")?];
/// assert_eq!(rt; order_of_edits(alloc, "foo(y)", &edits)?.as_slice(), [1, 0].as_slice());
/// ```
pub fn order_of_edits<FileId>(
    alloc: Global,
    source: &str,
    edits: &[Edit<FileId>],
) -> Result<Vec<usize>, EditError>
    ensures order { IfOk result (λ order. order.items ≡ order_of (text_edits edits.now)) }
    ensures failed { FailsBy (fault source.now (text_edits edits.now)) result }
{
    let places = places_in_order(alloc, source, edits)?;
    let mut order = Vec::with_capacity(alloc, places.len())?;
    for place in &places {
        order.push(place.index)?;
    }
    Ok(order)
}
