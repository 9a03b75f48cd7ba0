//! The text that edits make.

ghost use Rattle.std.specs.Prelude.{◌≡◌, ◌+◌, ◌<◌, IfOk, OnErr, IsErrOf, All, length};
ghost use Rattle.std.specs.Prelude.{string_bytes};
ghost use Rattle.codespan_edits.specs.Edits.{text_edits, edited, edited_from};
ghost use Rattle.codespan_edits.specs.Faults.{fault, FailsBy};
ghost use Rattle.codespan_edits.specs.Private.Places.{edits_at, FitFrom};

use crate::edit::Edit;
use crate::error::EditError;
use crate::order::{Place, places_in_order};
use std::alloc::Global;

/// Returns the text after all edits: their ranges, which are of the source, are replaced, and all
/// else stays. The file ids are not looked at.
///
/// Time is O(n log n + b), for n edits and b bytes of the source and the replacements.
///
/// # Errors
///
/// - The fault of the first edit of the list that has one of its own, and else
///   [`EditError::Overlap`] for the first two neighbors in order of which one ends past the start
///   of the next. The order is that of the starts, then of the ends, then of the list.
/// - [`EditError::OutOfMemory`] where an allocation fails, or where the length of the result does
///   not fit into a `usize`.
///
/// # Examples
///
/// ```rust
/// let edits = [Edit::new(alloc, (), 0..0, "let x = ")?, Edit::new(alloc, (), 4..5, "&y")?];
/// assert_eq!(rt; apply_edits(alloc, "foo(y)", &edits)?.as_str(), "let x = foo(&y)");
/// ```
pub fn apply_edits<FileId>(
    alloc: Global,
    source: &str,
    edits: &[Edit<FileId>],
) -> Result<String, EditError>
    ensures edited { IfOk result (λ text.
        string_bytes text ≡ edited source.now (text_edits edits.now)) }
    ensures failed { FailsBy (fault source.now (text_edits edits.now)) result }
{
    let places = places_in_order(alloc, source, edits)?;
    put_together(alloc, source, edits, &places)
}

/// Returns the text after the edits that have these places.
fn put_together<FileId>(
    alloc: Global,
    source: &str,
    edits: &[Edit<FileId>],
    places: &[Place],
) -> Result<String, EditError>
    requires fit { FitFrom source.now 0 (edits_at (text_edits edits.now) places.now) }
    requires listed { All (λ place. place.index < length edits.now) places.now }
    ensures edited { IfOk result (λ text. string_bytes text
        ≡ edited_from source.now 0 (edits_at (text_edits edits.now) places.now)) }
    ensures failed { OnErr result (IsErrOf result EditError.OutOfMemory) }
{
    let mut text = String::with_capacity(alloc, edited_len(source, edits, places)?)?;
    let mut byte = 0;
    for place in places {
        text.push_str(&source[byte..place.start])?;
        text.push_str(&edits[place.index].replacement)?;
        byte = place.end;
    }
    text.push_str(&source[byte..])?;
    Ok(text)
}

/// Returns the length of the text after the edits that have these places.
fn edited_len<FileId>(
    source: &str,
    edits: &[Edit<FileId>],
    places: &[Place],
) -> Result<usize, EditError>
    requires fit { FitFrom source.now 0 (edits_at (text_edits edits.now) places.now) }
    requires listed { All (λ place. place.index < length edits.now) places.now }
    ensures len { IfOk result (λ len. len
        ≡ length (edited_from source.now 0 (edits_at (text_edits edits.now) places.now))) }
    ensures failed { OnErr result (IsErrOf result EditError.OutOfMemory) }
{
    let mut len = 0usize;
    let mut byte = 0;
    for place in places {
        len = add_len(len, place.start - byte)?;
        len = add_len(len, edits[place.index].replacement.as_str().len())?;
        byte = place.end;
    }
    add_len(len, source.len() - byte)
}

/// Returns the sum of two lengths; fails with `OutOfMemory` where it does not fit.
pub(crate) fn add_len(left: usize, right: usize) -> Result<usize, EditError>
    ensures sum { IfOk result (λ sum. sum ≡ left + right) }
    ensures failed { OnErr result (IsErrOf result EditError.OutOfMemory) }
{
    match left.checked_add(right) {
        Some(sum) => Ok(sum),
        None => Err(EditError::OutOfMemory),
    }
}
