//! Annotations: what a label does on a line of its file; those of one file, and of one line.

ghost use Rattle.codespan_core.specs.Labels.{from_line_start};
ghost use Rattle.codespan_output.specs.Arguments.{multi_label_view};
ghost use Rattle.codespan_output.specs.OutputStreams.{label_of};
ghost use Rattle.codespan_views.specs.Private.Annotations.{AppendsAnnotations, annotation_view};
ghost use Rattle.codespan_views.specs.Private.Annotations.{kind_view, multi_label_from};
ghost use Rattle.codespan_views.specs.Private.Annotations.{annotation_if_any, is_before};
ghost use Rattle.codespan_views.specs.Private.Annotations.{is_of_file, is_on_line, shows_line};
ghost use Rattle.codespan_views.specs.Private.SnippetLines.{HasSameLines, IsGapBefore};
ghost use Rattle.std.specs.List.{prefix_len};
ghost use Rattle.std.specs.List.Sorted.{IsSortedWithin};
ghost use Rattle.std.specs.Option.{option_map};
ghost use Rattle.std.specs.Prelude.{IfSome, IsErrOf, IsTrue, OnErr, OnOk, drop, length, map};
ghost use Rattle.std.specs.Prelude.{slice_get, ⊤, ◌-◌, ◌≡◌, ◌≤◌};

use codespan_core::diagnostic::Label;
use codespan_core::files::Error;
use codespan_output::arguments::MultiLabel;
use std::alloc::AllocError;
use std::ops::Range;

pub mod order;

/// A line of a file, as it was looked up.
#[derive(Clone, Copy)]
pub struct LineInfo {
    /// The line's index, 0-based.
    pub index: usize,
    /// The line's number, as users see it.
    pub number: usize,
    /// The byte index at which the line starts.
    pub start: usize,
    /// The byte index at which the line ends, exclusive.
    pub end: usize,
}

/// The kind of a multi-line label mark.
#[derive(Clone, Copy)]
pub enum MultiLabelKind {
    /// The label starts on the line.
    Top,
    /// The label starts before the line and ends after it.
    Left,
    /// The label ends on the line.
    Bottom,
}

/// The kind of an annotation.
pub enum AnnotationKind<'d, FileId> {
    /// The label makes the line shown and is no single-line label on it.
    Shown,
    /// The label is a single-line label on the line, which is shown.
    Single {
        /// The label's index in the diagnostic's list, 0-based.
        index: usize,
        /// The label.
        label: &'d Label<FileId>,
    },
    /// The label is a multi-line label, and the line is its first or its last, or between them. The
    /// line may be hidden.
    Multi {
        /// What the label does on the line. It is the first field, which makes the enum one machine
        /// word smaller.
        kind: MultiLabelKind,
        /// The label's lane, 0-based: the number of the file's multi-line labels before it.
        lane: usize,
        /// The label.
        label: &'d Label<FileId>,
    },
}

// A derive would require `FileId: Copy`, though a label is borrowed.
impl<FileId> Clone for AnnotationKind<'_, FileId> {
    ghost is_clone = { λ x y. y ≡ x };

    ghost is_infallible = { λ _. ⊤ };

    fn clone(&self) -> Result<Self, AllocError> {
        Ok(*self)
    }
}

impl<FileId> Copy for AnnotationKind<'_, FileId> {}

/// An annotation of a line.
pub struct Annotation<'d, FileId> {
    /// The file's index among those of the output, 0-based.
    pub file_index: usize,
    /// The line.
    pub line: LineInfo,
    /// What a label does on it.
    pub kind: AnnotationKind<'d, FileId>,
}

impl<FileId> Clone for Annotation<'_, FileId> {
    ghost is_clone = { λ x y. y ≡ x };

    ghost is_infallible = { λ _. ⊤ };

    fn clone(&self) -> Result<Self, AllocError> {
        Ok(*self)
    }
}

impl<FileId> Copy for Annotation<'_, FileId> {}

/// Appends an annotation of a line of the file at this 0-based index, if there is a kind.
///
/// # Errors
///
/// `OutOfMemory`: an allocation fails.
pub fn push_annotation<'d, FileId>(
    file_index: usize,
    line: LineInfo,
    kind: Option<AnnotationKind<'d, FileId>>,
    annotations: &mut Vec<Annotation<'d, FileId>>,
) -> Result<(), Error>
    ensures added { OnOk result
        (AppendsAnnotations (λ annotation. annotation.line ≡ line) annotations.old.items
        annotations.new.items
        (annotation_if_any file_index line.index (option_map (kind_view line.start) kind.entry))) }
    ensures failed { OnErr result (IsErrOf result Error.OutOfMemory) }
{
    if let Some(kind) = kind {
        annotations.push(Annotation {
            file_index,
            line,
            kind,
        })?;
    }
    Ok(())
}

/// Returns the label's multi-line label mark of this kind for the renderer. `line_start` is the
/// byte index in the file at which the line starts.
pub fn multi_label<FileId>(
    label: &Label<FileId>,
    kind: MultiLabelKind,
    line_start: usize,
) -> MultiLabel<'_>
    ensures { multi_label_view result
        ≡ multi_label_from line_start (label_of label.now).label kind }
{
    match kind {
        MultiLabelKind::Top => MultiLabel::Top(label.range.start.saturating_sub(line_start)),
        MultiLabelKind::Left => MultiLabel::Left,
        MultiLabelKind::Bottom => MultiLabel::Bottom(
            label.range.end.saturating_sub(line_start),
            label.message.as_str(),
        ),
    }
}

/// Returns the drawn range of a single-line label, in bytes from `line_start`, the byte index in
/// the file at which its line starts; the end is exclusive. It is at least one byte long, unless it
/// starts at `usize::MAX`.
#[inline(always)]
pub fn drawn_range<FileId>(label: &Label<FileId>, line_start: usize) -> Range<usize>
    ensures start { result.start ≡ (from_line_start line_start (label_of label.now).label).start }
    ensures end { result.end ≡ (from_line_start line_start (label_of label.now).label).end }
{
    let start = label.range.start.saturating_sub(line_start);
    let end = label.range.end.saturating_sub(line_start);
    start..end.max(start.saturating_add(1))
}

/// Returns whether an annotation makes its line shown. If the first annotation of a line does not,
/// the line is hidden.
pub fn shows_line<FileId>(annotation: &Annotation<'_, FileId>) -> bool
    ensures { result ≡ shows_line (annotation_view annotation.now) }
{
    !matches!(annotation.kind, AnnotationKind::Multi { .. })
}

/// Returns how many lines are between the shown line at this index and `previous`, the shown line
/// before it; 0 where there is none before. Both indices are 0-based.
pub fn lines_between(previous: Option<usize>, index: usize) -> usize
    ensures gap { IsGapBefore previous index result }
    ensures within { result ≤ index }
{
    match previous {
        Some(previous) => index.saturating_sub(previous).saturating_sub(1),
        None => 0,
    }
}

/// Returns how many annotations at the start are of the line at this 0-based index.
pub fn count_on_line<FileId>(annotations: &[Annotation<'_, FileId>], line_index: usize) -> usize
    ensures value { result
        ≡ prefix_len (λ annotation. is_on_line line_index (annotation_view annotation))
        annotations.now }
    ensures within { result ≤ length annotations.now }
{
    annotations
        .iter()
        .take_while(|annotation| annotation.line.index == line_index)
        .count()
}

/// Returns how many annotations at the start are of the file at this 0-based index. If the first
/// and the last annotation are, so are all: with one file none is counted.
///
/// # Requires
///
/// The annotations are in order.
pub fn count_in_file<FileId>(annotations: &[Annotation<'_, FileId>], file_index: usize) -> usize
    requires { IsSortedWithin (λ x y. is_before (annotation_view x) (annotation_view y))
        annotations.now 0 (length annotations.now) }
    ensures value { result
        ≡ prefix_len (λ annotation. is_of_file file_index (annotation_view annotation))
        annotations.now }
    ensures within { result ≤ length annotations.now }
{
    let len = annotations.len();
    if len != 0
        && annotations[len - 1].file_index == file_index
        && annotations[0].file_index == file_index
    {
        return len;
    }
    annotations
        .iter()
        .take_while(|annotation| annotation.file_index == file_index)
        .count()
}

/// Skips hidden lines: returns the annotations of the hidden line just before the first shown one,
/// or `hidden` where no line is skipped, and the annotations from the shown line on. Those of a
/// line are in order, so the line is shown if the first of them makes it so.
pub fn skip_hidden<'collected, 'd, FileId>(
    hidden: &'collected [Annotation<'d, FileId>],
    annotations: &'collected [Annotation<'d, FileId>],
) -> (
    &'collected [Annotation<'d, FileId>],
    &'collected [Annotation<'d, FileId>],
)
    ensures lines { HasSameLines (map annotation_view hidden.now)
        (map annotation_view annotations.now) (map annotation_view result.0.now)
        (map annotation_view result.1.now) }
    ensures shown { IfSome (slice_get result.1.now 0) (λ first. IsTrue (shows_line
        (annotation_view first))) }
    ensures within { length result.1.now ≤ length annotations.now }
    ensures later { result.1.now
        ≡ drop (length annotations.now - length result.1.now) annotations.now }
{
    let mut hidden = hidden;
    let mut rest = annotations;
    while let Some(first) = rest.first() {
        if shows_line(first) {
            return (hidden, rest);
        }
        let count = count_on_line(rest, first.line.index);
        let group = &rest[..count];
        let later = &rest[count..];
        hidden = group;
        rest = later;
    }
    (hidden, rest)
}
