//! The order of annotations.

ghost use Rattle.std.specs.Prelude.{◌≡◌, ◌<◌, length, map, true, IfOk, IfSome, OnErr};
ghost use Rattle.std.specs.Prelude.{IsErrOf};
ghost use Rattle.std.specs.List.Sorted.{IsPermutation, IsSortedBy, IsSortedWithin};
ghost use Rattle.codespan_views.specs.Private.Annotations.{IsLaneMarkOn, annotation_cmp, is_before};
ghost use Rattle.codespan_views.specs.Private.Annotations.{annotation_view, kind_cmp, rank_of};

use crate::annotation::{Annotation, AnnotationKind, drawn_range};
use codespan_core::files::Error;
use std::alloc::Global;
use std::cmp::Ordering;
use std::ops::Range;

/// Compares two annotations: by file, by line, and by kind. Of the annotations of one diagnostic,
/// those that are `Equal` are the same, so an unstable sort is enough.
fn compare<FileId>(left: &Annotation<'_, FileId>, right: &Annotation<'_, FileId>) -> Ordering
    ensures { result ≡ annotation_cmp (annotation_view left.now) (annotation_view right.now) }
{
    match left.file_index.cmp(&right.file_index) {
        Ordering::Equal => match left.line.index.cmp(&right.line.index) {
            Ordering::Equal => compare_kinds(left, right),
            by_line => by_line,
        },
        by_file => by_file,
    }
}

/// Compares two annotations of one line: first `Shown`, then single-line labels by their drawn
/// ranges, of equal ones the greater index first, then lane marks by their lanes.
fn compare_kinds<FileId>(left: &Annotation<'_, FileId>, right: &Annotation<'_, FileId>) -> Ordering
    ensures { result ≡ kind_cmp (annotation_view left.now).kind (annotation_view right.now).kind }
{
    match (&left.kind, &right.kind) {
        (
            AnnotationKind::Single { index, label },
            AnnotationKind::Single {
                index: other_index,
                label: other_label,
            },
        ) => {
            let range = drawn_range(*label, left.line.start);
            let other = drawn_range(*other_label, right.line.start);
            let starts = range.start.cmp(&other.start);
            // By `then` the ends would be compared each time.
            match starts {
                Ordering::Equal => range.end.cmp(&other.end).then(other_index.cmp(index)),
                _ => starts,
            }
        }
        (
            AnnotationKind::Multi { lane, .. },
            AnnotationKind::Multi {
                lane: other_lane,
                ..
            },
        ) => lane.cmp(other_lane),
        _ => rank(left).cmp(&rank(right)),
    }
}

/// The number of ranks.
const RANK_COUNT: usize = 3;

/// Returns the rank of a kind: 0 for shown, 1 for a single-line label, 2 for a lane mark.
fn rank<FileId>(annotation: &Annotation<'_, FileId>) -> usize
    ensures { result ≡ rank_of (annotation_view annotation.now).kind }
{
    match &annotation.kind {
        AnnotationKind::Shown => 0,
        AnnotationKind::Single { .. } => 1,
        AnnotationKind::Multi { .. } => 2,
    }
}

/// Returns whether `left` is before `right` in the order of [`compare`]. It compares files and
/// lines first: most annotations that are compared are of different lines.
#[inline(always)]
fn is_before<FileId>(left: &Annotation<'_, FileId>, right: &Annotation<'_, FileId>) -> bool
    ensures { result ≡ is_before (annotation_view left.now) (annotation_view right.now) }
{
    if left.file_index != right.file_index {
        return left.file_index < right.file_index;
    }
    if left.line.index != right.line.index {
        return left.line.index < right.line.index;
    }
    compare_kinds(left, right).is_lt()
}

/// Returns whether annotations are found to be in order: `true` only if they are.
fn are_in_order<FileId>(annotations: &[Annotation<'_, FileId>]) -> bool
    ensures { result ≡ true → IsSortedBy is_before (map annotation_view annotations.now) }
{
    let mut end = 1;
    while end < annotations.len() {
        if is_before(&annotations[end], &annotations[end - 1]) {
            return false;
        }
        end = lane_marks_end(annotations, end);
    }
    true
}

/// Returns the end of the longest run of lane marks of one line that starts at this index and whose
/// lanes do not decrease; the next index where the annotation is no lane mark.
///
/// # Requires
///
/// There is an annotation at this index.
#[inline(always)]
fn lane_marks_end<FileId>(annotations: &[Annotation<'_, FileId>], start: usize) -> usize
    requires { start < length annotations.now }
    ensures after { start < result }
    ensures sorted { IsSortedWithin (λ x y. is_before (annotation_view x) (annotation_view y))
        annotations.now start result }
{
    let first = &annotations[start];
    let Some(mut lane) = lane_on(first, first.file_index, first.line.index) else {
        return start + 1;
    };
    let mut end = start + 1;
    while end < annotations.len() {
        match lane_on(&annotations[end], first.file_index, first.line.index) {
            Some(next) if lane <= next => lane = next,
            _ => break,
        }
        end += 1;
    }
    end
}

/// Returns the lane of an annotation, if it is a lane mark on this line of this file. All 0-based.
#[inline(always)]
fn lane_on<FileId>(
    annotation: &Annotation<'_, FileId>,
    file_index: usize,
    line_index: usize,
) -> Option<usize>
    ensures { IfSome result (λ lane.
        IsLaneMarkOn file_index line_index lane (annotation_view annotation.now)) }
{
    if annotation.file_index != file_index || annotation.line.index != line_index {
        return None;
    }
    match &annotation.kind {
        AnnotationKind::Multi { lane, .. } => Some(*lane),
        _ => None,
    }
}

/// Puts annotations in order. `lines` has the indices of the lines of the one file that has all
/// annotations, 0-based, the end exclusive; it is `None` where there are more files.
///
/// # Errors
///
/// `OutOfMemory`: an allocation fails.
pub fn put_in_order<FileId>(
    annotations: &mut Vec<Annotation<'_, FileId>>,
    lines: Option<Range<usize>>,
) -> Result<(), Error>
    ensures permutation { IsPermutation annotations.old.items annotations.new.items }
    ensures sorted { IfOk result (λ _.
        IsSortedBy is_before (map annotation_view annotations.new.items)) }
    ensures failed { OnErr result (IsErrOf result Error.OutOfMemory) }
{
    if are_in_order(annotations) {
        return Ok(());
    }
    let is_grouped = group_by_line(annotations, lines)?;
    if is_grouped && are_in_order(annotations) {
        return Ok(());
    }
    annotations.sort_unstable_by(|left, right| compare(left, right));
    Ok(())
}

/// The least number of annotations that are worth moving: fewer are sorted about as fast.
const MIN_LEN: usize = 32;

/// The entry in `next` of an annotation that has been moved. No annotation has this index.
const MOVED: usize = usize::MAX;

/// Moves annotations to the order of their lines, and on a line to that of their kinds' ranks, in
/// time linear in their number. Returns whether it did. Those of one line and rank keep their
/// order; those of labels that overlap, or that return to the same lines, are then mostly in order.
///
/// `lines` is as that of [`put_in_order`]. The annotations are unchanged where it is `None`, where
/// they are fewer than [`MIN_LEN`] or than the lines, or where one is found to be on another line.
///
/// # Errors
///
/// `OutOfMemory`: an allocation fails.
fn group_by_line<FileId>(
    annotations: &mut Vec<Annotation<'_, FileId>>,
    lines: Option<Range<usize>>,
) -> Result<bool, Error>
    ensures permutation { IsPermutation annotations.old.items annotations.new.items }
    ensures failed { OnErr result (IsErrOf result Error.OutOfMemory) }
{
    let Some(lines) = lines else {
        return Ok(false);
    };
    let len = annotations.len();
    if len < MIN_LEN || len < lines.end.saturating_sub(lines.start) {
        return Ok(false);
    }
    let alloc = *annotations.allocator();
    let mut chains = chain_buckets(alloc, annotations, lines)?;
    let moved = follow_chains(alloc, annotations, &chains.first, &mut chains.next)?;
    if moved.len() != len {
        return Ok(false);
    }
    *annotations = moved;
    Ok(true)
}

/// The buckets of annotations, each a chain. The index of no annotation is past the end.
#[derive(Drop)]
struct Chains {
    /// For each bucket the index of its first annotation.
    first: Vec<usize>,
    /// For each annotation the index of the next one of its bucket.
    next: Vec<usize>,
}

/// Chains the annotations of each bucket in their order. Those whose bucket is past the last one
/// are in no chain. `lines` are 0-based indices, the end exclusive.
///
/// # Errors
///
/// `OutOfMemory`: an allocation fails.
fn chain_buckets<FileId>(
    alloc: Global,
    annotations: &[Annotation<'_, FileId>],
    lines: Range<usize>,
) -> Result<Chains, Error>
    ensures next { IfOk result (λ chains. length chains.next.items ≡ length annotations.now) }
    ensures failed { OnErr result (IsErrOf result Error.OutOfMemory) }
{
    let len = annotations.len();
    let bucket_count = lines
        .end
        .saturating_sub(lines.start)
        .saturating_mul(RANK_COUNT);
    let mut first = vec![in alloc; len; bucket_count]?;
    let mut next = vec![in alloc; len; len]?;
    for index in (0..len).rev() {
        let bucket = bucket_of(&annotations[index], lines.start);
        if bucket < first.len() {
            next[index] = first[bucket];
            first[bucket] = index;
        }
    }
    Ok(Chains { first, next })
}

/// Returns the annotations of the chains, one chain after another. No annotation is returned twice.
///
/// # Errors
///
/// `OutOfMemory`: an allocation fails.
///
/// # Requires
///
/// There is one index in `next` for each annotation.
fn follow_chains<'d, FileId>(
    alloc: Global,
    annotations: &[Annotation<'d, FileId>],
    first: &[usize],
    next: &mut [usize],
) -> Result<Vec<Annotation<'d, FileId>>, Error>
    requires { length next.old ≡ length annotations.now }
    ensures permutation { IfOk result (λ moved. length moved.items ≡ length annotations.now
        → IsPermutation annotations.now moved.items) }
    ensures failed { OnErr result (IsErrOf result Error.OutOfMemory) }
{
    let mut moved = Vec::with_capacity(alloc, annotations.len())?;
    for start in first {
        let mut index = *start;
        while index < annotations.len() {
            let following = next[index];
            if following == MOVED {
                break;
            }
            moved.push_reserved(annotations[index]);
            next[index] = MOVED;
            index = following;
        }
    }
    Ok(moved)
}

/// Returns the index of the annotation's bucket: one for each line from the 0-based `first_line` on
/// and each rank. For another line it is past the last bucket, or, where the product wraps, any.
fn bucket_of<FileId>(annotation: &Annotation<'_, FileId>, first_line: usize) -> usize {
    let line = annotation.line.index.wrapping_sub(first_line);
    line.wrapping_mul(RANK_COUNT).wrapping_add(rank(annotation))
}
