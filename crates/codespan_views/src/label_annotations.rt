//! The annotations of one label.

ghost use Rattle.std.specs.Prelude.{◌≡◌, ◌≢◌, ◌<◌, true, None, Some, IfErr, OnOk};
ghost use Rattle.std.specs.Prelude.{OnErr, IsErrOf};
ghost use Rattle.std.specs.Option.{option_map};
ghost use Rattle.codespan_core.specs.FileModel.{line_count};
ghost use Rattle.codespan_core.specs.LawfulFiles.{FailsBy};
ghost use Rattle.codespan_views.specs.Private.LabelsToCollect.{FindsLineAnnotations};
ghost use Rattle.codespan_views.specs.Private.LabelsToCollect.{FindsLabelAnnotations, IfContinues};
ghost use Rattle.codespan_views.specs.Private.LabelsToCollect.{IfEnded, IsLookedUp, WidensPadding};
ghost use Rattle.codespan_views.specs.Private.LabelsToCollect.{WidensPaddingForLine, HasLabelLines};
ghost use Rattle.codespan_views.specs.Private.LabelsToCollect.{label_of_collector, lines_failure};
ghost use Rattle.codespan_views.specs.Private.LabelsToCollect.{failure_if_looked_up};
ghost use Rattle.codespan_output.specs.OutputStreams.{label_of};
ghost use Rattle.codespan_views.specs.Private.LabelAnnotations.{IsFarInside, kind_by_ends};
ghost use Rattle.codespan_views.specs.Private.LabelAnnotations.{line_annotations};
ghost use Rattle.codespan_views.specs.Private.LabelAnnotations.{multi_kind_by_ends};
ghost use Rattle.codespan_views.specs.Private.SourceFiles.{EndsBefore, failure_unless_past_end};
ghost use Rattle.codespan_views.specs.Private.SourceFiles.{model_of};
ghost use Rattle.codespan_views.specs.Private.Annotations.{AppendsAnnotationsOf, IsLineOf};
ghost use Rattle.codespan_views.specs.Private.Annotations.{kind_view};

use crate::annotation::{Annotation, AnnotationKind, LineInfo, MultiLabelKind, push_annotation};
use crate::collected::Collected;
use crate::label_span::LabelSpan;
use crate::source_file::SourceFile;
use codespan_core::diagnostic::Label;
use codespan_core::files::{Error, Files};
use codespan_core::term::Config;

/// Looks up the lines of a label and makes its annotations.
#[derive(Drop)]
pub struct LabelCollector<'a, 'c, 'd, 'files, F: Files<'files>> {
    /// The label.
    pub label: &'d Label<F::FileId>,
    /// Its file.
    pub file: SourceFile<'files, F>,
    /// The configuration, which has the numbers of context lines.
    pub config: &'a Config<'c>,
    /// The index of its file among those of the output, 0-based.
    pub file_index: usize,
    /// Its index in the diagnostic's list of labels, 0-based.
    pub index: usize,
    /// The number of the file's multi-line labels before it: its lane, 0-based, if it is one.
    pub lane: usize,
    /// The lines on which it starts and ends.
    pub span: LabelSpan,
}

impl<'a, 'c, 'd, 'files, F: Files<'files>> LabelCollector<'a, 'c, 'd, 'files, F> {
    /// Returns what the label does on a line, its lane mark aside: it is a single-line label on it,
    /// or makes it shown, or neither.
    fn kind_on_line(&self, line: LineInfo) -> Option<AnnotationKind<'d, F::FileId>>
        ensures { option_map (kind_view line.start) result
            ≡ kind_by_ends self.now.config.now self.now.index self.now.span.first
            self.now.span.last line.index line.start (label_of self.now.label.now).label }
    {
        if self.span.is_single() && self.span.first == line.index {
            Some(AnnotationKind::Single {
                index: self.index,
                label: self.label,
            })
        } else if self.span.shows(self.config, line.index) {
            Some(AnnotationKind::Shown)
        } else {
            None
        }
    }

    /// Returns the label's annotation as a multi-line label on a line, if it has a lane mark there.
    fn multi_kind_on_line(&self, line: LineInfo) -> Option<AnnotationKind<'d, F::FileId>>
        ensures { option_map (kind_view line.start) result
            ≡ multi_kind_by_ends self.now.lane self.now.span.first self.now.span.last line.index
            line.start (label_of self.now.label.now).label }
    {
        match self.span.multi_label_kind(line.index) {
            None => None,
            Some(kind) => Some(AnnotationKind::Multi {
                kind,
                lane: self.lane,
                label: self.label,
            }),
        }
    }

    /// Appends the annotations of the label on a line. `is_far` is whether the line is known to be
    /// far from the label's ends.
    ///
    /// # Errors
    ///
    /// `OutOfMemory`: an allocation fails.
    ///
    /// # Requires
    ///
    /// The label starts and ends on the lines of this collector, and the line is one of the file's.
    /// Where `is_far` is set, it is inside the label and past the context lines of both ends.
    fn push_line(
        &self,
        line: LineInfo,
        is_far: bool,
        annotations: &mut Vec<Annotation<'d, F::FileId>>,
    ) -> Result<(), Error>
        requires far { is_far ≡ true → IsFarInside self.now.config.now self.now.span.first
            self.now.span.last line.index }
        requires lines { HasLabelLines F.database self.now }
        requires line { IsLineOf (model_of F.database self.now.file) line }
        ensures added { OnOk result (AppendsAnnotationsOf (model_of F.database self.now.file)
            annotations.old.items annotations.new.items (line_annotations self.now.config.now
            (model_of F.database self.now.file) self.now.file_index self.now.index self.now.lane
            (label_of self.now.label.now).label line.index)) }
        ensures failed { OnErr result (IsErrOf result Error.OutOfMemory) }
    {
        if is_far {
            let kind = AnnotationKind::Multi {
                kind: MultiLabelKind::Left,
                lane: self.lane,
                label: self.label,
            };
            push_annotation(self.file_index, line, Some(kind), annotations)?;
            return Ok(());
        }
        push_annotation(self.file_index, line, self.kind_on_line(line), annotations)?;
        let lane_mark = self.multi_kind_on_line(line);
        push_annotation(self.file_index, line, lane_mark, annotations)?;
        Ok(())
    }

    /// Looks up the line at this 0-based index and appends the label's annotations of it, where the
    /// label spans the line or it is one of the context lines around the label. If the label spans
    /// it, the padding is widened to its number. Returns `false` where the file has ended, and so
    /// the context lines do. `is_far` is whether the line is known to be far from the label's ends.
    ///
    /// # Errors
    ///
    /// - `OutOfMemory`: an allocation fails, or a lookup fails with it.
    /// - Any other error: that of the first lookup that fails.
    ///
    /// # Requires
    ///
    /// The label starts and ends on the lines of this collector. Where `is_far` is set, the line is
    /// inside the label and past the context lines of both ends.
    fn collect_line(
        &self,
        index: usize,
        is_far: bool,
        collected: &mut Collected<'d, F::FileId>,
    ) -> Result<bool, Error>
        requires far { is_far ≡ true → IsFarInside self.now.config.now self.now.span.first
            self.now.span.last index }
        requires lines { HasLabelLines F.database self.now }
        ensures inside { IfContinues result
            (IsLookedUp (label_of_collector F.database self.now) index
            → index < line_count (model_of F.database self.now.file)) }
        ensures added { IfContinues result (FindsLineAnnotations
            (label_of_collector F.database self.now) collected.old.annotations.items
            collected.new.annotations.items index) }
        ensures padding { IfContinues result (WidensPaddingForLine
            (label_of_collector F.database self.now) collected.old.padding collected.new.padding
            index) }
        ensures succeeded { IfContinues result
            (failure_if_looked_up (label_of_collector F.database self.now) index ≡ None) }
        ensures ended { IfEnded result (EndsBefore F.database self.now.file index) }
        ensures unchanged { IfEnded result (collected.new ≡ collected.old) }
        ensures files { collected.new.files ≡ collected.old.files }
        ensures failed { IfErr result (λ e. e ≢ Error.OutOfMemory
            → IsLookedUp (label_of_collector F.database self.now) index
            × (failure_unless_past_end F.database self.now.file self.now.span.last index
            ≡ Some e)) }
    {
        let is_spanned = is_far || self.span.spans(index);
        if !is_spanned && !self.span.is_around(self.config, index) {
            return Ok(true);
        }
        let Some(line) = self.file.line_unless_past_end(index, self.span.last)? else {
            return Ok(false);
        };
        if is_spanned {
            collected.padding.fit(line.number);
        }
        self.push_line(line, is_far, &mut collected.annotations)?;
        Ok(true)
    }

    /// Looks up the lines of the label in their order, appends its annotations, and widens the
    /// padding to the numbers of the lines that it spans.
    ///
    /// # Errors
    ///
    /// - `OutOfMemory`: an allocation fails, or a lookup fails with it.
    /// - Any other error: that of the first lookup that fails.
    ///
    /// # Requires
    ///
    /// The label starts and ends on the lines of this collector.
    pub fn collect_lines(&self, collected: &mut Collected<'d, F::FileId>) -> Result<(), Error>
        requires { HasLabelLines F.database self.now }
        ensures added { OnOk result (FindsLabelAnnotations
            (label_of_collector F.database self.now) collected.old.annotations.items
            collected.new.annotations.items) }
        ensures padding { OnOk result (WidensPadding
            (label_of_collector F.database self.now) collected.old.padding
            collected.new.padding) }
        ensures files { collected.new.files ≡ collected.old.files }
        ensures failed { FailsBy (lines_failure (label_of_collector F.database self.now)) result }
    {
        let span = self.span;
        let first = span.first.saturating_sub(self.config.before_label_lines);
        let last = span.last.saturating_add(self.config.after_label_lines);
        let far = span.far_lines(self.config);
        for index in first.min(span.last)..=last.max(span.first) {
            if !self.collect_line(index, far.contains(&index), collected)? {
                return Ok(());
            }
        }
        Ok(())
    }
}
