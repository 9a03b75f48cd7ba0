//! The lines of a label: which it spans, and which it makes shown.

ghost use Rattle.std.specs.Prelude.{◌≡◌, ◌<◌, ◌≤◌, ℕ, ◌==◌, ◌&&◌, nat_lt};
ghost use Rattle.std.specs.Prelude.{IfOk, [], ◌∷◌};
ghost use Rattle.codespan_core.specs.FileModel.Lookup.{LineIndex};
ghost use Rattle.codespan_core.specs.LawfulFiles.{FailsBy};
ghost use Rattle.codespan_output.specs.Lines.{is_around, shows, spans};
ghost use Rattle.codespan_core.specs.Labels.{LabelModel, first_line, last_line};
ghost use Rattle.codespan_output.specs.OutputStreams.{label_of};
ghost use Rattle.codespan_views.specs.Private.Annotations.{multi_label_from};
ghost use Rattle.codespan_views.specs.Private.SourceFiles.{failure_in};
ghost use Rattle.codespan_views.specs.Private.LabelAnnotations.{IsFarInside, multi_label_by_ends};
ghost use Rattle.std.specs.Option.{option_map};

use crate::annotation::MultiLabelKind;
use codespan_core::diagnostic::Label;
use codespan_core::files::{Error, Files};
use codespan_core::term::Config;
use std::ops::Range;

/// The indices of the lines on which a label starts and ends, 0-based. It may start after the line
/// on which it ends.
#[derive(Clone, Copy)]
pub struct LabelSpan {
    /// The index of the line on which the label starts.
    pub first: usize,
    /// The index of the line on which it ends.
    pub last: usize,
}

impl LabelSpan {
    /// Returns whether the label is a single-line label.
    pub fn is_single(self) -> bool
        ensures { result ≡ (self.first == self.last) }
    {
        self.first == self.last
    }

    /// Returns whether the line at this 0-based index is after the first line and before the last
    /// one.
    fn is_inside(self, index: usize) -> bool
        ensures { result ≡ nat_lt self.first index && nat_lt index self.last }
    {
        self.first < index && index < self.last
    }

    /// Returns the kind of the multi-line label mark on the line at this 0-based index, if the
    /// label is a multi-line label that has one.
    pub fn multi_label_kind(self, index: usize) -> Option<MultiLabelKind>
        ensures { (start : ℕ) (label : LabelModel)
            → option_map (multi_label_from start label) result
            ≡ multi_label_by_ends self.first self.last index start label }
    {
        if self.is_single() {
            None
        } else if self.first == index {
            Some(MultiLabelKind::Top)
        } else if self.last == index {
            Some(MultiLabelKind::Bottom)
        } else if self.is_inside(index) {
            Some(MultiLabelKind::Left)
        } else {
            None
        }
    }

    /// Returns whether the line at this 0-based index is the first or the last line, or between
    /// them.
    pub fn spans(self, index: usize) -> bool
        ensures { result ≡ spans self.first self.last index }
    {
        index == self.first || index == self.last || self.is_inside(index)
    }

    /// Returns the number of annotations to reserve memory for: as many as the spanned lines have
    /// at most, or 1 where the label starts after the line on which it ends.
    pub fn annotation_capacity(self, config: &Config<'_>) -> usize {
        let others = self.last.saturating_sub(self.first);
        if others == 0 {
            return 1;
        }
        let near_ends = config
            .start_context_lines
            .saturating_add(config.end_context_lines)
            .saturating_add(2);
        let lines = others.saturating_add(1);
        lines.saturating_add(near_ends.min(lines))
    }

    /// Returns the lines inside the label that are far from its ends: after the context lines of
    /// the first line, and before those of the last one. They are 0-based indices, the end
    /// exclusive; where there are none, the end may be before the start.
    #[inline(always)]
    pub fn far_lines(self, config: &Config<'_>) -> Range<usize>
        ensures { (k : ℕ) → result.start ≤ k → k < result.end
            → IsFarInside config.now self.first self.last k }
    {
        if self.is_single() {
            return 0..0;
        }
        let start = self.first.saturating_add(config.start_context_lines);
        let end = self.last.saturating_sub(config.end_context_lines);
        start.saturating_add(1)..end
    }

    /// Returns whether the line at this 0-based index is one of the context lines around the label:
    /// before its first line or after its last one.
    pub fn is_around(self, config: &Config<'_>, index: usize) -> bool
        ensures { result ≡ is_around config.now self.first self.last index }
    {
        (index < self.first && self.first - index <= config.before_label_lines)
            || (self.last < index && index - self.last <= config.after_label_lines)
    }

    /// Returns whether the label makes the line at this 0-based index shown: an end of the label, a
    /// context line around it, or one inside it, near an end.
    pub fn shows(self, config: &Config<'_>, index: usize) -> bool
        ensures { result ≡ shows config.now self.first self.last index }
    {
        // Most lines of a long label are inside it.
        if self.is_inside(index) {
            index - self.first <= config.start_context_lines
                || self.last - index <= config.end_context_lines
        } else {
            index == self.first || index == self.last || self.is_around(config, index)
        }
    }
}

/// Looks up the lines on which a label starts and ends.
///
/// # Errors
///
/// That of the first lookup that fails: the line of the start, then that of the end.
pub fn label_span<'files, F: Files<'files>>(
    files: &'files F,
    label: &Label<F::FileId>,
) -> Result<LabelSpan, Error>
    ensures first { IfOk result (λ span. span.first
        ≡ first_line ((F.database files.now).file label.now.file_id) (label_of label.now).label) }
    ensures last { IfOk result (λ span. span.last
        ≡ last_line ((F.database files.now).file label.now.file_id) (label_of label.now).label) }
    ensures failed { FailsBy (failure_in (F.database files.now).failure label.now.file_id
        (LineIndex label.now.range.start ∷ LineIndex label.now.range.end ∷ [])) result }
{
    Ok(LabelSpan {
        first: files.line_index(label.file_id, label.range.start)?,
        last: files.line_index(label.file_id, label.range.end)?,
    })
}
