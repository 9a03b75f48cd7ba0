//! Rich style: a diagnostic over the lines that its labels show. Header and notes, as short and
//! medium style have them too.

ghost use Rattle.codespan_core.specs.declared.term.config.DisplayStyle.TheVariants.{Rich};
ghost use Rattle.codespan_output.specs.Arguments.{locus_view};
ghost use Rattle.codespan_output.specs.OutputStreams.{labels_of, notes_of};
ghost use Rattle.codespan_output.specs.Snippets.{note_rows};
ghost use Rattle.codespan_renderer.specs.Renderers.{Renders, SameRenderer, config_of, writer_of};
ghost use Rattle.codespan_views.specs.Private.EarlyLookups.{IsLookedUpEarly};
ghost use Rattle.codespan_views.specs.Private.Rendering.{RendersRows, RendersSnippets};
ghost use Rattle.codespan_views.specs.Private.Rendering.{closing_rows, header_row_with_newline};
ghost use Rattle.codespan_views.specs.WriteCalls.{WritesStyled};
ghost use Rattle.std.specs.Option.{option_map};
ghost use Rattle.std.specs.Prelude.{length, ◌<◌, ◌≡◌};

use crate::annotation::count_in_file;
use crate::collected::{Collected, collect, look_up_early};
use crate::snippet::Snippet;
use crate::snippet::line_buffers::LineBuffers;
use crate::source_file::SourceFile;
use codespan_core::diagnostic::Diagnostic;
use codespan_core::files::{Error, Files};
use codespan_core::term::{Config, WriteStyle};
use codespan_renderer::term::renderer::row_writer::RowWriter;
use codespan_renderer::term::renderer::{Locus, Renderer};
use std::convert::AsStr;

/// Renders a diagnostic in rich style: a header, a snippet for each file with a label, and the
/// notes.
///
/// Files are in the order of their first labels. The context lines of the configuration decide
/// which lines a snippet shows, and a single line between two of them is filled in; both as in the
/// Rust crate.
///
/// # Example
///
/// This writes the line `bug: ` and an empty line.
///
/// ```rust
/// let bug = Diagnostic::bug(alloc);
/// let config = Config::default();
/// let mut plain = PlainWriter::new(Vec::new(alloc));
/// let mut renderer = Renderer::new(&mut plain, &config);
/// RichDiagnostic::new(&bug, &config).render(&files, &mut renderer)?;
/// ```
#[derive(Clone, Copy)]
pub struct RichDiagnostic<'diagnostic, 'config, FileId> {
    diagnostic: &'diagnostic Diagnostic<FileId>,
    config: &'config Config<'config>,
}

impl<'diagnostic, 'config, FileId: Copy + Eq> RichDiagnostic<'diagnostic, 'config, FileId> {
    ghost use Rattle.codespan_views.specs.Views.{diagnostic_of, view_config_of};

    /// Returns a view of the diagnostic. The configuration decides which lines are shown and, by
    /// its layout, the padding width. Its other fields are not used.
    pub fn new(
        diagnostic: &'diagnostic Diagnostic<FileId>,
        config: &'config Config<'config>,
    ) -> RichDiagnostic<'diagnostic, 'config, FileId>
        ensures diagnostic { diagnostic_of result ≡ diagnostic.now }
        ensures config { view_config_of result ≡ config.now }
    {
        RichDiagnostic { diagnostic, config }
    }

    /// Writes the output.
    ///
    /// The renderer's own configuration decides the characters, the tab width and the layout of
    /// lanes.
    ///
    /// # Errors
    ///
    /// - [`Error::Io`]: the writer fails or takes no bytes, or a lookup fails with it.
    /// - [`Error::OutOfMemory`]: an allocation fails, or a lookup fails with it. The contract
    ///   leaves open when, but it is not returned without labels.
    /// - [`Error::FormatError`]: the `Display` of a file's name fails, or a lookup fails with it.
    ///   The contract leaves open when, but it is not returned without labels.
    /// - Any other error: that of the first lookup that fails.
    ///
    /// A prefix of the output has then been written. Nothing has been written where a lookup before
    /// the header fails, nor where the error is `FormatError`, unless that is the error of the
    /// first lookup after the header that fails. What has been written is known of a writer whose
    /// bytes are known.
    ///
    /// The lookups after the header are those of a file's source, and of the range and, in the
    /// classic layout, the number of a line between two shown ones. Without labels nothing is
    /// looked up.
    pub fn render<'files, F, W>(
        &self,
        files: &'files F,
        renderer: &mut Renderer<'_, '_, W>,
    ) -> Result<(), Error>
    where
        F: Files<'files, FileId = FileId>,
        W: WriteStyle,
        FileId: 'files,
        ensures same { SameRenderer renderer.old renderer.new }
        ensures renders { WritesStyled Rich (config_of renderer.old) (view_config_of self.now)
            (F.database files.now) (diagnostic_of self.now)
            (W.sink (writer_of renderer.old)) result (W.sink (writer_of renderer.new)) }
    {
        let diagnostic = self.diagnostic;
        if diagnostic.labels.is_empty() {
            render_diagnostic_header(diagnostic, renderer, None)?;
            return render_closing(diagnostic, renderer, 0);
        }
        let alloc = *diagnostic.labels.allocator();
        let labels = diagnostic.labels.as_slice();
        let mut collected = collect(alloc, files, self.config, labels)?;
        let numbers = look_up_early(alloc, files, self.config.layout, &mut collected)?;
        render_diagnostic_header(diagnostic, renderer, None)?;
        self.render_snippets(files, renderer, &collected, numbers.as_slice())?;
        render_closing(diagnostic, renderer, collected.padding.digit_count)
    }

    /// Renders the snippets of all files, with an empty row after each, but after the last one only
    /// where notes follow.
    ///
    /// # Errors
    ///
    /// - `Io`: the writer fails or takes no bytes, or a lookup fails with it.
    /// - `OutOfMemory`: an allocation fails, or a lookup fails with it.
    /// - Any other error: that of the first lookup that fails.
    ///
    /// A prefix of the rows has then been written.
    ///
    /// # Requires
    ///
    /// What was collected of the diagnostic's labels, and the numbers, were looked up, over these
    /// files and by the view's configuration.
    fn render_snippets<'files, F, W>(
        &self,
        files: &'files F,
        renderer: &mut Renderer<'_, '_, W>,
        collected: &Collected<'diagnostic, FileId>,
        numbers: &[usize],
    ) -> Result<(), Error>
    where
        F: Files<'files, FileId = FileId>,
        W: WriteStyle,
        FileId: 'files,
        requires { IsLookedUpEarly (F.database files.now) (view_config_of self.now)
            (labels_of (diagnostic_of self.now)) numbers.now collected.now }
        ensures same { SameRenderer renderer.old renderer.new }
        ensures renders { RendersSnippets (view_config_of self.now) (F.database files.now)
            (diagnostic_of self.now) collected.now (config_of renderer.old)
            (W.sink (writer_of renderer.old)) result (W.sink (writer_of renderer.new)) }
    {
        let diagnostic = self.diagnostic;
        let context = renderer.context(diagnostic.severity, collected.padding.digit_count);
        let max_width = renderer.max_width();
        let mut rows = RowWriter::new(renderer.writer, &renderer.saved);
        let mut buffers = LineBuffers::new(*diagnostic.labels.allocator(), numbers);
        let notes_follow = !diagnostic.notes.is_empty();
        let mut start = 0;
        for (index, labeled) in collected.files.iter().enumerate() {
            let len = count_in_file(&collected.annotations[start..], index);
            let own_annotations = &collected.annotations[start..start + len];
            start += len;
            let source = files.source(labeled.file_id)?;
            let snippet = Snippet {
                file: SourceFile {
                    files,
                    file_id: labeled.file_id,
                },
                source: source.as_str(),
                num_multi_labels: labeled.num_multi_labels,
                context,
                max_width,
            };
            snippet.render_first_rows(&mut rows, &labeled.locus)?;
            snippet.render_lines(&mut rows, &mut buffers, own_annotations)?;
            let is_followed = notes_follow || index + 1 < collected.files.len();
            if is_followed {
                snippet.render_empty_row(&mut rows)?;
            }
        }
        Ok(())
    }
}

/// Renders the notes, with this padding width, in characters, and the empty line at the end.
///
/// # Errors
///
/// `Io` alone: the writer fails or takes no bytes.
#[inline(always)]
fn render_closing<FileId, W: WriteStyle>(
    diagnostic: &Diagnostic<FileId>,
    renderer: &mut Renderer<'_, '_, W>,
    padding: usize,
) -> Result<(), Error>
    ensures { RendersRows W.sink diagnostic.now.severity padding (closing_rows diagnostic.now)
        renderer.old result renderer.new }
{
    render_notes(diagnostic, renderer, padding)?;
    renderer.render_empty()
}

/// Renders the header, with this locus, if any.
///
/// # Errors
///
/// `Io` alone: the writer fails or takes no bytes.
pub fn render_diagnostic_header<FileId, W: WriteStyle>(
    diagnostic: &Diagnostic<FileId>,
    renderer: &mut Renderer<'_, '_, W>,
    locus: Option<&Locus>,
) -> Result<(), Error>
    ensures { Renders W.sink
        (header_row_with_newline diagnostic.now (option_map (λ x. locus_view x.now) locus.entry))
        renderer.old result renderer.new }
{
    renderer.render_header(
        locus,
        diagnostic.severity,
        diagnostic.code.as_deref(),
        diagnostic.message.as_str(),
    )
}

/// Renders the notes, with this padding width, in characters.
///
/// # Errors
///
/// `Io` alone: the writer fails or takes no bytes.
pub fn render_notes<FileId, W: WriteStyle>(
    diagnostic: &Diagnostic<FileId>,
    renderer: &mut Renderer<'_, '_, W>,
    padding: usize,
) -> Result<(), Error>
    ensures { RendersRows W.sink diagnostic.now.severity padding
        (note_rows (notes_of diagnostic.now)) renderer.old result renderer.new }
{
    for note in &diagnostic.notes {
        renderer.render_snippet_note(padding, note.as_str())?;
    }
    Ok(())
}
