//! Labels for ids of more than one type. `docs/FILES.md` has this code.

use crate::asserts::assert_same;
use codespan_base::diagnostic::Label;
use std::alloc::Global;
use std::ops::Range;

/// Ids that are made from the index of a file.
trait FromIndex: Copy + Eq {
    /// Returns the id of the file at an index, counted from 0.
    fn from_index(index: usize) -> Self;
}

impl FromIndex for usize {
    fn from_index(index: usize) -> usize {
        index
    }
}

impl FromIndex for () {
    fn from_index(_index: usize) {}
}

/// Returns a primary label in the file at an index, counted from 0. The range is in bytes.
fn label<FileId: FromIndex>(alloc: Global, index: usize, range: Range<usize>) -> Label<FileId> {
    Label::primary(alloc, FileId::from_index(index), range)
}

/// A number is an id as it is, and the unit is the id of the only file.
#[test]
fn ids_of_two_types(rt: HostRuntime) {
    let numbered: Label<usize> = label(rt.alloc(), 3, 1..2);
    assert_same(&rt, &numbered.file_id, &3);
    assert_same(&rt, &numbered.range.start, &1);
    let only: Label<()> = label(rt.alloc(), 0, 4..7);
    assert_same(&rt, &only.range.end, &7);
}
