//! The snippet of a file: its first rows, its lines, and the row after it.

ghost use Rattle.std.specs.Prelude.{◌≡◌, [], ◌∷◌, All, IfSome, IsTrue, OnOk, drop};
ghost use Rattle.std.specs.Prelude.{length, map, slice_get};
ghost use Rattle.std.specs.Slice.Iter.{iter_rest};
ghost use Rattle.codespan_views.specs.Private.Annotations.{IsLineOf, annotation_view};
ghost use Rattle.codespan_renderer.specs.Private.RowWriters.{row_writer_sink};
ghost use Rattle.codespan_views.specs.Private.LookupsWhileRendering.{HasLines, RendersLines};
ghost use Rattle.codespan_views.specs.Private.Rendering.{WritesRows, first_rows, snippet_empty_row};
ghost use Rattle.codespan_views.specs.Private.SnippetLines.{Break, Filled, Labeled};
ghost use Rattle.codespan_views.specs.Private.SnippetLines.{are_annotations_in_order};
ghost use Rattle.codespan_views.specs.Private.SnippetLines.{are_lane_marks_in_order};
ghost use Rattle.codespan_views.specs.Private.SnippetLines.{filled_lines_of, lines_of};
ghost use Rattle.codespan_views.specs.Private.SnippetLines.{line_of_group};
ghost use Rattle.codespan_output.specs.FittedLineLaws.{IsFittable};
ghost use Rattle.codespan_views.specs.Private.SourceFiles.{model_of};

use crate::annotation::{Annotation, LineInfo, count_on_line, lines_between, skip_hidden};
use crate::snippet::fitted_line::fitted_line;
use crate::snippet::line_buffers::{LineBuffers, fill_lane_marks};
use crate::source_file::SourceFile;
use codespan_core::files::{Error, Files};
use codespan_core::term::WriteStyle;
use codespan_output::rows::header::write_snippet_start;
use codespan_output::rows::line::RowContext;
use codespan_output::rows::line_rows::write_line;
use codespan_output::rows::notes::{write_break, write_snippet_empty};
use codespan_renderer::term::renderer::row_writer::RowWriter;
use codespan_renderer::term::renderer::{Lanes, Line, Locus};

mod fitted_line;
pub mod line_buffers;

/// The snippet of a file.
#[derive(Drop)]
pub struct Snippet<'snippet, 'files, F: Files<'files>> {
    /// The file.
    pub file: SourceFile<'files, F>,
    /// The source of the file.
    pub source: &'snippet str,
    /// The number of its lanes: one for each multi-line label.
    pub num_multi_labels: usize,
    /// What all rows of the output are rendered by.
    pub context: RowContext<'snippet>,
    /// The width that its lines have to fit, in cells.
    pub max_width: Option<usize>,
}

impl<'snippet, 'files, F: Files<'files>> Snippet<'snippet, 'files, F> {
    /// Renders the first rows: the start of the snippet, with the locus, and an empty row.
    ///
    /// # Errors
    ///
    /// `Io` alone: the writer fails or takes no bytes.
    pub fn render_first_rows<W: WriteStyle>(
        &self,
        rows: &mut RowWriter<'_, W>,
        locus: &Locus,
    ) -> Result<(), Error>
        ensures { WritesRows W.sink self.now.context
            (first_rows self.now.num_multi_labels locus.now) rows.old result rows.new }
    {
        let context = self.context;
        let written = write_snippet_start(rows, context.chars, context.padding, locus);
        rows.outcome(written)?;
        self.render_empty_row(rows)
    }

    /// Renders an empty row.
    ///
    /// # Errors
    ///
    /// `Io` alone: the writer fails or takes no bytes.
    pub fn render_empty_row<W: WriteStyle>(&self, rows: &mut RowWriter<'_, W>) -> Result<(), Error>
        ensures { WritesRows W.sink self.now.context
            (snippet_empty_row self.now.num_multi_labels ∷ []) rows.old result rows.new }
    {
        let lanes = Lanes {
            count: self.num_multi_labels,
            lane_marks: &[],
        };
        let written = write_snippet_empty(rows, self.context, lanes);
        rows.outcome(written)
    }

    /// Renders the lines that the file's annotations, which are in order, show, and what is between
    /// two of them: the one line between, or a break. A line whose first annotation does not make
    /// it shown is hidden; where it is filled in, it has its annotations.
    ///
    /// # Errors
    ///
    /// - `Io`: the writer fails or takes no bytes, or a lookup fails with it.
    /// - `OutOfMemory`: an allocation fails, or a lookup fails with it.
    /// - Any other error: that of the first lookup that fails. A filled line is looked up when it
    ///   is rendered.
    ///
    /// A prefix of the rows has then been written.
    ///
    /// # Requires
    ///
    /// The source is that of the file, and the lines of the annotations are the file's. The
    /// single-line labels of each line are in the order of their starts, and its lane marks ascend
    /// strictly by lane, within the file's lanes. The numbers in `buffers` begin with those of the
    /// filled lines that are known.
    pub fn render_lines<'d, W: WriteStyle>(
        &self,
        rows: &mut RowWriter<'_, W>,
        buffers: &mut LineBuffers<'_, 'd>,
        annotations: &[Annotation<'d, F::FileId>],
    ) -> Result<(), Error>
        requires lines { All (λ annotation. IsLineOf (model_of F.database self.now.file)
            annotation.line) annotations.now }
        requires drawn { HasLines F.database self.now (iter_rest buffers.old.numbers)
            (lines_of (map annotation_view annotations.now)) }
        ensures renders { RendersLines F.database self.now (iter_rest buffers.old.numbers)
            (lines_of (map annotation_view annotations.now))
            (row_writer_sink W.sink rows.old) result (row_writer_sink W.sink rows.new) }
        ensures numbers { OnOk result (iter_rest buffers.new.numbers
            ≡ drop (length (filled_lines_of (lines_of (map annotation_view annotations.now))))
            (iter_rest buffers.old.numbers)) }
    {
        let none = &annotations[..0];
        let mut previous = None;
        let (mut hidden_annotations, mut rest) = skip_hidden(none, annotations);
        while let Some(first) = rest.first() {
            let line = first.line;
            let count = count_on_line(rest, line.index);
            let group = &rest[..count];
            let later = &rest[count..];
            let between = lines_between(previous, line.index);
            if between == 1 {
                self.render_filled(rows, buffers, line.index - 1, hidden_annotations)?;
            } else if between > 1 {
                self.render_break(rows, buffers, group)?;
            }
            self.render_line(rows, buffers, line, group)?;
            previous = Some(line.index);
            let skipped = skip_hidden(none, later);
            hidden_annotations = skipped.0;
            rest = skipped.1;
        }
        Ok(())
    }

    /// Looks up a filled line, at this 0-based index, and renders it with its annotations. Its
    /// number is looked up where `buffers` has no number left.
    ///
    /// # Errors
    ///
    /// As [`Snippet::render_lines`].
    ///
    /// # Requires
    ///
    /// As [`Snippet::render_line`]; the first number in `buffers`, if there is one, is the line's.
    fn render_filled<'d, W: WriteStyle>(
        &self,
        rows: &mut RowWriter<'_, W>,
        buffers: &mut LineBuffers<'_, 'd>,
        index: usize,
        annotations: &[Annotation<'d, F::FileId>],
    ) -> Result<(), Error>
        requires source { self.now.source.now ≡ (model_of F.database self.now.file).text }
        requires number { IfSome (slice_get (iter_rest buffers.old.numbers) 0)
            (λ known. known ≡ (model_of F.database self.now.file).line_number index) }
        requires fittable { IsFittable (line_of_group (model_of F.database self.now.file)
            self.now.num_multi_labels index (map annotation_view annotations.now)) }
        requires in_order { IsTrue (are_annotations_in_order self.now.num_multi_labels
            (map annotation_view annotations.now)) }
        ensures renders { RendersLines F.database self.now (iter_rest buffers.old.numbers)
            (Filled index (map annotation_view annotations.now) ∷ [])
            (row_writer_sink W.sink rows.old) result (row_writer_sink W.sink rows.new) }
        ensures numbers { iter_rest buffers.new.numbers
            ≡ drop 1 (iter_rest buffers.old.numbers) }
    {
        let number = buffers.numbers.next().copied();
        let line = self.file.line(index, number)?;
        self.render_line(rows, buffers, line, annotations)
    }

    /// Renders a line with its annotations.
    ///
    /// # Errors
    ///
    /// - `OutOfMemory`: an allocation fails. Nothing has been written then.
    /// - `Io`: the writer fails or takes no bytes. A prefix of the rows has been written then.
    ///
    /// # Requires
    ///
    /// The source is that of the file, and the line is one of the file's. Its single-line labels
    /// are in the order of their starts, and its lane marks ascend strictly by lane, within the
    /// file's lanes.
    #[inline(always)]
    fn render_line<'d, W: WriteStyle>(
        &self,
        rows: &mut RowWriter<'_, W>,
        buffers: &mut LineBuffers<'_, 'd>,
        line: LineInfo,
        annotations: &[Annotation<'d, F::FileId>],
    ) -> Result<(), Error>
        requires source { self.now.source.now ≡ (model_of F.database self.now.file).text }
        requires line { IsLineOf (model_of F.database self.now.file) line }
        requires fittable { IsFittable (line_of_group (model_of F.database self.now.file)
            self.now.num_multi_labels line.index (map annotation_view annotations.now)) }
        requires in_order { IsTrue (are_annotations_in_order self.now.num_multi_labels
            (map annotation_view annotations.now)) }
        ensures renders { RendersLines F.database self.now (iter_rest buffers.old.numbers)
            (Labeled line.index (map annotation_view annotations.now) ∷ [])
            (row_writer_sink W.sink rows.old) result (row_writer_sink W.sink rows.new) }
        ensures numbers { buffers.new.numbers ≡ buffers.old.numbers }
    {
        buffers.refill(annotations)?;
        let source = &self.source[line.start..line.end];
        let lanes = Lanes {
            count: self.num_multi_labels,
            lane_marks: buffers.lane_marks.as_slice(),
        };
        let line = Line::new(line.number, source, buffers.single_labels.as_slice(), lanes);
        let context = self.context;
        let alloc = *buffers.single_labels.allocator();
        let line = fitted_line(&mut buffers.fitting, alloc, self.max_width, context, line)?;
        let cached = buffers.line_cache.cache_line(context.tab_width, line)?;
        let written = write_line(rows, context, cached.line, cached.messages, &cached);
        rows.outcome(written)
    }

    /// Renders a break before the line that has these annotations.
    ///
    /// # Errors
    ///
    /// - `OutOfMemory`: an allocation fails. Nothing has been written then.
    /// - `Io`: the writer fails or takes no bytes. A prefix of the row has been written then.
    ///
    /// # Requires
    ///
    /// The lane marks of the line ascend strictly by lane, within the file's lanes.
    fn render_break<'d, W: WriteStyle>(
        &self,
        rows: &mut RowWriter<'_, W>,
        buffers: &mut LineBuffers<'_, 'd>,
        next_annotations: &[Annotation<'d, F::FileId>],
    ) -> Result<(), Error>
        requires in_order { IsTrue (are_lane_marks_in_order self.now.num_multi_labels
            (map annotation_view next_annotations.now)) }
        ensures renders { RendersLines F.database self.now (iter_rest buffers.old.numbers)
            (Break (map annotation_view next_annotations.now) ∷ [])
            (row_writer_sink W.sink rows.old) result (row_writer_sink W.sink rows.new) }
        ensures numbers { buffers.new.numbers ≡ buffers.old.numbers }
    {
        fill_lane_marks(&mut buffers.lane_marks, next_annotations)?;
        let lanes = Lanes {
            count: self.num_multi_labels,
            lane_marks: buffers.lane_marks.as_slice(),
        };
        let written = write_break(rows, self.context, lanes);
        rows.outcome(written)
    }
}
