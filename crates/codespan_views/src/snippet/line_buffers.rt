//! What a line is prepared in for a renderer: memory, and the known numbers of filled lines.

ghost use Rattle.std.specs.Prelude.{◌≡◌, [], IfOk, OnErr, IsErrOf, map};
ghost use Rattle.std.specs.Slice.Iter.{iter_rest};
ghost use Rattle.codespan_output.specs.Arguments.{single_label_views};
ghost use Rattle.codespan_output.specs.Arguments.{lane_mark_view};
ghost use Rattle.codespan_views.specs.Private.Annotations.{annotation_view};
ghost use Rattle.codespan_views.specs.Private.SnippetLines.{lane_marks_in, single_labels_in};

use crate::annotation::{Annotation, AnnotationKind, drawn_range, multi_label};
use codespan_core::diagnostic::LabelStyle;
use codespan_core::files::Error;
use codespan_fitting::FittingBuffers;
use codespan_renderer::term::renderer::cached::LineCache;
use codespan_renderer::term::renderer::{MultiLabel, SingleLabel};
use std::alloc::Global;
use std::slice::Iter;

/// The memory in which the labels and the characters of a line are prepared for a renderer, and the
/// known numbers of the filled lines that are left.
///
/// One value serves all lines of an output, so that its memory is allocated once.
#[derive(Drop)]
pub struct LineBuffers<'numbers, 'd> {
    /// The single-line labels.
    pub single_labels: Vec<SingleLabel<'d>>,
    /// The lane marks: of each multi-line label its lane, its style and what it does on the line.
    pub lane_marks: Vec<(usize, LabelStyle, MultiLabel<'d>)>,
    /// The characters of the line and the pointers under them, as far as its rows reach.
    pub line_cache: LineCache,
    /// The memory in which lines are shortened, once one had to be.
    pub fitting: Option<Box<FittingBuffers<'d>>>,
    /// The numbers of the filled lines that are rendered next, where they were looked up before the
    /// header.
    pub numbers: Iter<'numbers, usize>,
}

impl<'numbers, 'd> LineBuffers<'numbers, 'd> {
    /// Returns empty buffers, with these numbers of filled lines. It allocates nothing.
    pub fn new(alloc: Global, numbers: &'numbers [usize]) -> LineBuffers<'numbers, 'd>
        ensures single_labels { result.single_labels.items ≡ [] }
        ensures lane_marks { result.lane_marks.items ≡ [] }
        ensures numbers { iter_rest result.numbers ≡ numbers.now }
    {
        LineBuffers {
            single_labels: Vec::new(alloc),
            lane_marks: Vec::new(alloc),
            line_cache: LineCache::new(alloc),
            fitting: None,
            numbers: numbers.iter(),
        }
    }

    /// Replaces the labels with those of these annotations, in their order.
    ///
    /// # Errors
    ///
    /// `OutOfMemory`: an allocation fails.
    #[inline(always)]
    pub fn refill<FileId>(&mut self, annotations: &[Annotation<'d, FileId>]) -> Result<(), Error>
        ensures single_labels { IfOk result (λ _. single_label_views self.new.single_labels.items
            ≡ single_labels_in (map annotation_view annotations.now)) }
        ensures lane_marks { IfOk result (λ _. map lane_mark_view self.new.lane_marks.items
            ≡ lane_marks_in (map annotation_view annotations.now)) }
        ensures numbers { self.new.numbers ≡ self.old.numbers }
        ensures failed { OnErr result (IsErrOf result Error.OutOfMemory) }
    {
        fill_lane_marks(&mut self.lane_marks, annotations)?;
        self.single_labels.clear();
        for annotation in annotations {
            if let AnnotationKind::Single { label, .. } = annotation.kind {
                let range = drawn_range(label, annotation.line.start);
                let message = label.message.as_str();
                self.single_labels.push((label.style, range, message))?;
            }
        }
        Ok(())
    }
}

/// Replaces the lane marks with those of these annotations, in their order.
///
/// # Errors
///
/// `OutOfMemory`: an allocation fails.
pub fn fill_lane_marks<'d, FileId>(
    lane_marks: &mut Vec<(usize, LabelStyle, MultiLabel<'d>)>,
    annotations: &[Annotation<'d, FileId>],
) -> Result<(), Error>
    ensures lane_marks { IfOk result (λ _. map lane_mark_view lane_marks.new.items
        ≡ lane_marks_in (map annotation_view annotations.now)) }
    ensures failed { OnErr result (IsErrOf result Error.OutOfMemory) }
{
    lane_marks.clear();
    for annotation in annotations {
        if let AnnotationKind::Multi { kind, lane, label } = annotation.kind {
            let multi = multi_label(label, kind, annotation.line.start);
            lane_marks.push((lane, label.style, multi))?;
        }
    }
    Ok(())
}
